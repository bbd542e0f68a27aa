// What `-d` sets.
ghost use Rattle.std.specs.Prelude.{◌≡◌};
ghost use Rattle.shark_words.specs.Ports.{app_of, carried as carried_by, port_in as port_in_text, port_of, port_over, rule_by as rule_by_name, rule_of, transport_name};

use crate::number::{comma_in, number_behind};
use pk_fields::{App, PortRule, app_fits, app_named};

/// A port of one transport.
#[derive(Clone, Copy, PartialEq, Eq, Hash)]
pub(crate) struct Port {
    /// Whether it is a port of TCP, else of UDP.
    pub(crate) tcp: bool,
    pub(crate) number: u16,
}

// What stands before a port.
fn transport_name(tcp: bool) -> &'static [u8]
    ensures { result.now ≡ transport_name tcp }
{
    if tcp {
        b"tcp.port==".as_slice()
    } else {
        b"udp.port==".as_slice()
    }
}

// A port of this transport.
fn read_port_over(tcp: bool, text: &[u8]) -> Option<Port>
    ensures { result ≡ port_over tcp text.now }
{
    let number = number_behind(transport_name(tcp), u64::from(u16::MAX), text)?;
    Some(Port {
        tcp,
        number: number as u16,
    })
}

// `tcp.port==N` or `udp.port==N`.
#[tactic(auto, unfolding(crate::specs::Ports::port_of))]
fn read_port(text: &[u8]) -> Option<Port>
    ensures { result ≡ port_of text.now }
{
    let port = read_port_over(true, text);
    if port.is_some() {
        return port;
    }
    read_port_over(false, text)
}

/// The port that a text begins with, whatever stands behind its first comma.
#[tactic(auto, unfolding(crate::specs::Ports::port_in))]
pub(crate) fn port_in(text: &[u8]) -> Option<Port>
    ensures { result ≡ port_in_text text.now }
{
    match comma_in(text) {
        Some(comma) => read_port(&text[..comma]),
        None => read_port(text),
    }
}

// An application that a transport carries.
fn carried(tcp: bool, app: App) -> Option<App>
    ensures { result ≡ carried_by tcp app }
{
    if app_fits(tcp, app) { Some(app) } else { None }
}

// The application of a name that this transport carries.
fn read_app(tcp: bool, text: &[u8]) -> Option<App>
    ensures { result ≡ app_of tcp text.now }
{
    carried(tcp, app_named(text)?)
}

// A port's rule, by the name of its application.
fn rule_by(port: Option<Port>, name: &[u8]) -> Option<PortRule>
    ensures { result ≡ rule_by_name port name.now }
{
    let port = port?;
    let app = read_app(port.tcp, name)?;
    Some(PortRule {
        tcp: port.tcp,
        port: port.number,
        app,
    })
}

/// A port's rule: `tcp.port==N,P` or `udp.port==N,P`.
#[tactic(auto, unfolding(crate::specs::Ports::rule_of))]
pub(crate) fn read_rule(text: &[u8]) -> Option<PortRule>
    ensures { result ≡ rule_of text.now }
{
    let comma = comma_in(text)?;
    rule_by(read_port(&text[..comma]), &text[comma + 1..])
}
