ghost use Rattle.std.specs.Prelude.{◌≡◌, true, false};
ghost use Rattle.std.specs.Str.{bytes_eq};
ghost use Rattle.pk_fields.specs.Applications.{app_known, rule_of, tcp_app, udp_app};
ghost use Rattle.pk_fields.specs.Apps.{usual_tcp, usual_udp};

use crate::apps::{App, usual_tcp, usual_udp};
use crate::rules::PortRule;

/// The application of a datagram of UDP between two ports: that of the lower port, else that of the higher.
#[tactic(auto, unfolding(crate::specs::Applications::udp_app))]
pub fn udp_app(rules: &[PortRule], source: u16, target: u16) -> Option<App>
    ensures { result ≡ udp_app rules.now source target }
{
    let lower = source.min(target);
    let higher = source.max(target);
    known_udp(rules, lower).or(known_udp(rules, higher))
}

/// The application of a segment of TCP between two ports: that of the lower port, else that of the higher.
#[tactic(auto, unfolding(crate::specs::Applications::tcp_app))]
pub fn tcp_app(rules: &[PortRule], source: u16, target: u16) -> Option<App>
    ensures { result ≡ tcp_app rules.now source target }
{
    let lower = source.min(target);
    let higher = source.max(target);
    known_tcp(rules, lower).or(known_tcp(rules, higher))
}

fn known_udp(rules: &[PortRule], port: u16) -> Option<App>
    ensures { result ≡ app_known false usual_udp rules.now port }
{
    rule_of(rules, false, port).or(usual_udp(port))
}

fn known_tcp(rules: &[PortRule], port: u16) -> Option<App>
    ensures { result ≡ app_known true usual_tcp rules.now port }
{
    rule_of(rules, true, port).or(usual_tcp(port))
}

/// The application of the first rule for a port of a transport.
fn rule_of(rules: &[PortRule], tcp: bool, port: u16) -> Option<App>
    ensures { result ≡ rule_of tcp port rules.now }
{
    rules
        .iter()
        .find(|rule| rule.tcp == tcp && rule.port == port)
        .map(|rule| rule.app)
}

/// Whether a text is this one.
pub(crate) fn is_text(text: &[u8], wanted: &[u8]) -> bool
    ensures { result ≡ bytes_eq text.now wanted.now }
{
    text == wanted
}
