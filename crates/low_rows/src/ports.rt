//! Which application a port's payload is read as. A row is `tcp 40000 9000 -> http`: the transport, source and target, and the
//! application, or `none`. There are rules for TCP's ports 9000 (HTTP) and 80 (plain data), and for UDP's 9000 (DHCP) and 53 (plain
//! data), or, with `usual udp 9000 53 -> dns`, none.

use pk_fields::{App, PortRule, app_name, tcp_app, udp_app};

const RULES: [PortRule; 4] = [
    PortRule {
        tcp: true,
        port: 9000,
        app: App::Http,
    },
    PortRule {
        tcp: true,
        port: 80,
        app: App::Plain,
    },
    PortRule {
        tcp: false,
        port: 9000,
        app: App::Dhcp,
    },
    PortRule {
        tcp: false,
        port: 53,
        app: App::Plain,
    },
];

fn app_text(app: Option<App>) -> &'static [u8] {
    match app {
        Some(App::Plain) => b"plain".as_slice(),
        Some(app) => app_name(app),
        None => b"none".as_slice(),
    }
}

fn told_of(transport: &str, source: u16, target: u16) -> Option<&'static [u8]> {
    match transport {
        "tcp" => Some(app_text(tcp_app(&RULES, source, target))),
        "udp" => Some(app_text(udp_app(&RULES, source, target))),
        "usual udp" => Some(app_text(udp_app(&[], source, target))),
        _ => None,
    }
}

pub(crate) fn is_read_as(row: &str) -> Option<bool> {
    let (left, told) = row.split_once(" -> ")?;
    let (left, target) = left.rsplit_once(' ')?;
    let (transport, source) = left.rsplit_once(' ')?;
    Some(told_of(transport, source.parse().ok()?, target.parse().ok()?)? == told.as_bytes())
}
