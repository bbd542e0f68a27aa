//! What follows a header, as a line: `then tcp 20+10`, and what the header says of it.
use pk_base::{Address, After, FragmentHead, Next, PacketHead, PortsHead, Span, TcpHead, Value};
use std::alloc::{AllocError, Global};
use tree_rows::value_text;

/// Adds the line of what follows. There is none where nothing does, but for a text without any other line.
pub(crate) fn push_after(alloc: Global, text: &mut String, after: After) -> Result<(), AllocError> {
    match after {
        After::End if text.is_empty() => text.push_str("nothing\n"),
        After::End => Ok(()),
        After::Next(next, span) => push_next(alloc, text, next, span, "\n"),
        After::Packet(next, span, head) => {
            push_next(alloc, text, next, span, "")?;
            push_packet(alloc, text, head)
        }
        After::Fragment(head, span) => {
            push_place(alloc, text, "fragment", span)?;
            push_fragment(alloc, text, head)
        }
        After::Datagram(head, span) => {
            push_place(alloc, text, "datagram", span)?;
            push_ports(alloc, text, head)
        }
        After::Segment(head, span) => {
            push_place(alloc, text, "segment", span)?;
            push_segment(alloc, text, head)
        }
    }
}

fn push_place(alloc: Global, text: &mut String, what: &str, span: Span) -> Result<(), AllocError> {
    let place = if span.buffer == 0 {
        format!(in alloc; "{what} {}+{}", span.start, span.len)?
    } else {
        format!(in alloc; "{what} {}:{}+{}", span.buffer, span.start, span.len)?
    };
    text.push_str(&place)
}

fn push_next(
    alloc: Global,
    text: &mut String,
    next: Next,
    span: Span,
    end: &str,
) -> Result<(), AllocError> {
    text.push_str("then ")?;
    match next {
        Next::Neigh(kind) => push_neigh(alloc, text, kind, span)?,
        _ => push_place(alloc, text, next_name(next), span)?,
    }
    text.push_str(end)
}

fn push_neigh(alloc: Global, text: &mut String, kind: u8, span: Span) -> Result<(), AllocError> {
    let what = format!(in alloc; "nd {kind}")?;
    push_place(alloc, text, &what, span)
}

fn next_name(next: Next) -> &'static str {
    match next {
        Next::Ip4 => "ip",
        Next::Ip6 => "ipv6",
        Next::Arp => "arp",
        Next::Vlan => "vlan",
        Next::Icmp => "icmp",
        Next::Icmp6 => "icmpv6",
        Next::Udp => "udp",
        Next::Tcp => "tcp",
        Next::HopOpts => "ipv6.hopopts",
        Next::Routing => "ipv6.routing",
        Next::DstOpts => "ipv6.dstopts",
        Next::FragHdr => "ipv6.fraghdr",
        Next::Neigh(_) => "nd",
        Next::Igmp => "igmp",
        Next::Rest => "data",
    }
}

fn address_value(address: Address) -> Value {
    match address {
        Address::Four(address) => Value::Ip4(address),
        Address::Six(address) => Value::Ip6(address),
    }
}

/// Adds a value behind some text.
pub(crate) fn push_value(
    alloc: Global,
    text: &mut String,
    before: &str,
    value: &Value,
) -> Result<(), AllocError> {
    let value = value_text(alloc, value)?;
    text.push_str(before)?;
    text.push_str(&value)
}

fn push_packet(alloc: Global, text: &mut String, head: PacketHead) -> Result<(), AllocError> {
    push_value(alloc, text, " source", &address_value(head.source))?;
    push_value(alloc, text, " target", &address_value(head.target))?;
    let rest = format!(in alloc; " whole={}\n", head.whole)?;
    text.push_str(&rest)
}

fn push_fragment(alloc: Global, text: &mut String, head: FragmentHead) -> Result<(), AllocError> {
    push_value(alloc, text, " source", &address_value(head.source))?;
    push_value(alloc, text, " target", &address_value(head.target))?;
    let rest = format!(in alloc;
        " six={} next={} ident={} offset={} more={} whole={}\n",
        head.six, head.next, head.ident, head.offset, head.more, head.whole
    )?;
    text.push_str(&rest)
}

fn push_ports(alloc: Global, text: &mut String, head: PortsHead) -> Result<(), AllocError> {
    let rest = format!(in alloc; " source={} target={}\n", head.source, head.target)?;
    text.push_str(&rest)
}

fn push_segment(alloc: Global, text: &mut String, head: TcpHead) -> Result<(), AllocError> {
    let rest = format!(in alloc;
        " source={} target={} seq={} ack={} syn={} acked={}\n",
        head.source, head.target, head.seq, head.ack, head.syn, head.acked
    )?;
    text.push_str(&rest)
}
