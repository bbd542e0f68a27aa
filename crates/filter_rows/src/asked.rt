//! What filters mean of trees, what their programs decide, and how these are listed.
//!
//! `asked of ..`: a filter, ` -> `, and its truth of a tree, by its meaning and by its program; behind a comma also the steps that the program takes,
//! and of how many instructions it is. `listing`: a filter, and the lines of its program.

use flt_code::compile;
use flt_mean::holds;
use flt_program::listing;
use flt_types::read_filter;
use flt_typing::Filter;
use flt_vm::run_program;
use pk_tree::Tree;
use std::alloc::Global;
use tree_rows::read_tree;

/// A packet from 10.0.0.1 to 10.0.0.2 around one with another address, to port 8050 with SYN and ACK, and a question for `Host.test`.
pub(crate) static PACKET: &str = "\
ip 0+5: ip.addr=10.0.0.1 ip.addr=10.0.0.2
ip 0+5: ip.addr=192.168.0.1
tcp 0+5: tcp.port=8050 tcp.flags=18
dns 0+5: dns.qry.name=Host.test";

/// Values of each kind.
pub(crate) static VALUES: &str = "\
frame 0+5: frame.time_relative=-3 frame.time_delta=-2 frame.time_epoch=1
eth 0+5: eth.src=62:62:62:62:62:62 eth.dst=01:02:03:04:05:06
arp 0+5: arp.src.proto_ipv4=198.51.100.7 arp.dst.proto_ipv4=10.1.2.3
ip 0+5: ip.proto=1 ip.ttl=2 ip.dsfield=3 ip.hdr_len=4 ip.len=5 ip.id=171 ip.frag_offset=0
ip 0+5: ip.src=0.0.0.9 ip.dst=0.0.0.10 ip.addr=0.0.0.11
ipv6 0+5: ipv6.src=9 ipv6.dst=a ipv6.addr=b
nd 0+5: nd.target=fe800000000000000000000000000000 nd.destination=5
tcp 0+5: tcp.payload=61:62:00
dns 0+5: dns.qry.name=abcde dns.resp.name=abcd dns.cname=ab dns.txt=bytes:40:41:5a:5b:60:61:7a:7b:e4:c4";

/// Twenty numbers from 0, 19 and 20 on, and twenty times 7; texts, ten of a kind.
pub(crate) static LISTS: &str = "\
tcp 0+5: tcp.port=0 tcp.port=1 tcp.port=2 tcp.port=3 tcp.port=4 tcp.port=5 tcp.port=6 tcp.port=7 tcp.port=8 tcp.port=9 tcp.port=10 tcp.port=11 tcp.port=12 tcp.port=13 tcp.port=14 tcp.port=15 tcp.port=16 tcp.port=17 tcp.port=18 tcp.port=19 tcp.dstport=19 tcp.dstport=20 tcp.dstport=21 tcp.dstport=22 tcp.dstport=23 tcp.dstport=24 tcp.dstport=25 tcp.dstport=26 tcp.dstport=27 tcp.dstport=28 tcp.dstport=29 tcp.dstport=30 tcp.dstport=31 tcp.dstport=32 tcp.dstport=33 tcp.dstport=34 tcp.dstport=35 tcp.dstport=36 tcp.dstport=37 tcp.dstport=38
udp 0+5: udp.port=20 udp.port=21 udp.port=22 udp.port=23 udp.port=24 udp.port=25 udp.port=26 udp.port=27 udp.port=28 udp.port=29 udp.port=30 udp.port=31 udp.port=32 udp.port=33 udp.port=34 udp.port=35 udp.port=36 udp.port=37 udp.port=38 udp.port=39 udp.length=7 udp.length=7 udp.length=7 udp.length=7 udp.length=7 udp.length=7 udp.length=7 udp.length=7 udp.length=7 udp.length=7 udp.length=7 udp.length=7 udp.length=7 udp.length=7 udp.length=7 udp.length=7 udp.length=7 udp.length=7 udp.length=7 udp.length=7 udp.srcport=7 udp.srcport=7 udp.srcport=7 udp.srcport=7 udp.srcport=7 udp.srcport=7 udp.srcport=7 udp.srcport=7 udp.srcport=7 udp.srcport=7 udp.srcport=7 udp.srcport=7 udp.srcport=7 udp.srcport=7 udp.srcport=7 udp.srcport=7 udp.srcport=7 udp.srcport=7 udp.srcport=7 udp.srcport=7
dns 0+5: dns.txt=abcde dns.txt=bcdef dns.txt=cdefg dns.txt=defgh dns.txt=efghi dns.txt=fghij dns.txt=ghijk dns.txt=hijkl dns.txt=ijklm dns.txt=jklmn dns.cname=xa dns.cname=xb dns.cname=xc dns.cname=xd dns.cname=xe dns.cname=xf dns.cname=xg dns.cname=xh dns.cname=xi dns.cname=hijk dns.resp.name=xa dns.resp.name=xb dns.resp.name=xc dns.resp.name=xd dns.resp.name=xe dns.resp.name=xf dns.resp.name=xg dns.resp.name=xh dns.resp.name=xi dns.resp.name=hijkx dns.qry.name=ab0 dns.qry.name=ab1 dns.qry.name=ab2 dns.qry.name=ab3 dns.qry.name=ab4 dns.qry.name=ab5 dns.qry.name=ab6 dns.qry.name=ab7 dns.qry.name=ab8 dns.qry.name=ab9 dns.ns=a dns.ns=b dns.ns=ab dns.ns=a dns.ns=b dns.ns=ab dns.ns=a dns.ns=b dns.ns=ab dns.ns=a dns.ptr.domain_name=a dns.ptr.domain_name=a dns.ptr.domain_name=a dns.ptr.domain_name=a dns.ptr.domain_name=a dns.ptr.domain_name=a dns.ptr.domain_name=a dns.ptr.domain_name=a dns.ptr.domain_name=a dns.ptr.domain_name=ac";

pub(crate) fn tree_of(alloc: Global, layers: &str) -> Option<Tree> {
    read_tree(alloc, b"frame", b"", layers).ok()
}

/// Whether a filter's program is told so: the truth, and behind a comma its steps and its size.
fn is_decided(alloc: Global, filter: &Filter, tree: &Tree, want: &str) -> Option<bool> {
    let program = compile(alloc, filter).ok()?;
    let verdict = run_program(alloc, &program, filter, tree).ok()?;
    match want.split_once(", ") {
        Some((truth, rest)) => {
            let (steps, size) = rest.split_once(" steps of ")?;
            Some(
                truth.parse() == Ok(verdict.holds)
                    && steps.parse() == Ok(verdict.steps)
                    && size.parse() == Ok(program.len()),
            )
        }
        None => Some(want.parse() == Ok(verdict.holds)),
    }
}

fn is_meant(alloc: Global, filter: &Filter, tree: &Tree, want: &str) -> Option<bool> {
    let (truth, _) = want.split_once(", ").unwrap_or((want, ""));
    let meant = holds(alloc, filter, tree).ok()?;
    Some(truth.parse() == Ok(meant) && is_decided(alloc, filter, tree, want)?)
}

fn is_asked_of(alloc: Global, tree: &Tree, row: &str) -> Option<bool> {
    let (text, want) = row.split_once(" -> ")?;
    let filter = read_filter(alloc, text).ok()?;
    is_meant(alloc, &filter, tree, want)
}

pub(crate) fn is_asked(alloc: Global, layers: &str, row: &str) -> Option<bool> {
    let tree = tree_of(alloc, layers)?;
    is_asked_of(alloc, &tree, row)
}

fn has_lines(alloc: Global, filter: &Filter, lines: &str) -> Option<bool> {
    let program = compile(alloc, filter).ok()?;
    let shown = listing(alloc, &program, filter).ok()?;
    Some(shown.as_slice().strip_suffix(b"\n") == Some(lines.as_bytes()))
}

pub(crate) fn is_listed(alloc: Global, row: &str) -> Option<bool> {
    let (text, lines) = row.split_once('\n')?;
    let filter = read_filter(alloc, text).ok()?;
    has_lines(alloc, &filter, lines)
}
