//! The applications. Written by tools/make_protocols from tools/protocols.txt.
ghost use Rattle.std.specs.Prelude.{◌≡◌};
ghost use Rattle.pk_fields.specs.Apps.{app_fits, app_name, app_named, usual_tcp, usual_udp};

use crate::applications::is_text;

/// What a port's payload is read as.
#[derive(Clone, Copy)]
pub enum App {
    Http,
    Dns,
    Dhcp,
    Ntp,
    Mdns,
    /// Shown as data, whatever the port.
    Plain,
}

/// The usual application of a port of UDP.
pub(crate) fn usual_udp(port: u16) -> Option<App>
    ensures { result ≡ usual_udp port }
{
    match port {
        53 => Some(App::Dns),
        67 | 68 => Some(App::Dhcp),
        123 => Some(App::Ntp),
        5353 => Some(App::Mdns),
        _ => None,
    }
}

/// The usual application of a port of TCP.
pub(crate) fn usual_tcp(port: u16) -> Option<App>
    ensures { result ≡ usual_tcp port }
{
    match port {
        80 | 8080 => Some(App::Http),
        53 => Some(App::Dns),
        _ => None,
    }
}

/// Whether messages of an application are read in streams of TCP, or else in datagrams of UDP.
pub fn app_fits(tcp: bool, app: App) -> bool
    ensures { result ≡ app_fits tcp app }
{
    match app {
        App::Plain | App::Dns => true,
        App::Http => tcp,
        App::Dhcp | App::Ntp | App::Mdns => !tcp,
    }
}

/// The application of a name that a rule may give; `data` is none.
pub fn app_named(text: &[u8]) -> Option<App>
    ensures { result ≡ app_named text.now }
{
    if is_text(text, b"http") {
        Some(App::Http)
    } else if is_text(text, b"dns") {
        Some(App::Dns)
    } else if is_text(text, b"dhcp") {
        Some(App::Dhcp)
    } else if is_text(text, b"data") {
        Some(App::Plain)
    } else {
        None
    }
}

/// An application's name.
pub fn app_name(app: App) -> &'static [u8]
    ensures { result.now ≡ app_name app }
{
    match app {
        App::Http => b"http".as_slice(),
        App::Dns => b"dns".as_slice(),
        App::Dhcp => b"dhcp".as_slice(),
        App::Ntp => b"ntp".as_slice(),
        App::Mdns => b"mdns".as_slice(),
        App::Plain => b"data".as_slice(),
    }
}
