//! How messages of applications are read. Written by tools/make_protocols from tools/protocols.txt.
ghost use Rattle.std.specs.Prelude.{◌≡◌, ◌+◌, ◌<◌, ◌≤◌, ◌^◌, Some, length, IfOk, OnOk};
ghost use Rattle.pk_tree.specs.Buffers.{IsInside};
ghost use Rattle.app_layers.specs.Applications.{message_over};
ghost use Rattle.app_layers.specs.MessageLayers.{sized_over};
ghost use Rattle.app_layers.specs.Rows.{framed_apps, framer_of, in_datagrams, is_passed, passed_apps, proto_of};

use crate::applications::add_rest;
use crate::data_layer::add_data;
use dis_dns::{read_dns, read_mdns};
use dis_hosts::{read_dhcp, read_ntp};
use pk_base::{NoMemory, Span};
use pk_fields::{App, FieldId, ids};
use pk_tree::TreeBuilder;
use stream_messages::Framer;

/// Reads what a datagram carries by its application.
#[tactic(auto, unfolding(crate::specs::Rows::in_datagrams, crate::specs::Rows::layout_of, crate::specs::Rows::rest_of))]
pub(crate) fn read_datagram(
    app: App,
    cut: bool,
    span: Span,
    tree: &mut TreeBuilder,
) -> Result<(), NoMemory>
    requires inside { IsInside tree.old.buffers span }
    requires room { length tree.old.layers + 4 < 2 ^ 32 }
    ensures tree { IfOk result (λ _. tree.new ≡ message_over (Some app) tree.old cut span) }
    ensures buffers { tree.new.buffers ≡ tree.old.buffers }
    ensures most { OnOk result (length tree.new.layers ≤ length tree.old.layers + 4) }
{
    match app {
        App::Dns => read_dns(span, false, cut, tree),
        App::Dhcp => read_dhcp(span, cut, tree),
        App::Ntp => add_rest(read_ntp(span, cut, tree)?, tree),
        App::Mdns => read_mdns(span, cut, tree),
        App::Http | App::Plain => add_data(span, tree),
    }
}

/// Reads a message of a stream whose head tells its length, by its application; others have no such messages.
#[tactic(auto, unfolding(crate::specs::Rows::layout_of))]
pub(crate) fn read_sized(
    app: App,
    cut: bool,
    span: Span,
    tree: &mut TreeBuilder,
) -> Result<(), NoMemory>
    requires inside { IsInside tree.old.buffers span }
    requires layers { length tree.old.layers + 2 < 2 ^ 32 }
    ensures tree { OnOk result (tree.new ≡ sized_over app cut tree.old span) }
    ensures most { OnOk result (length tree.new.layers ≤ length tree.old.layers + 2) }
{
    match app {
        App::Dns => read_dns(span, true, cut, tree),
        App::Http | App::Dhcp | App::Ntp | App::Mdns | App::Plain => Ok(()),
    }
}

/// The protocol of an application's messages.
pub fn proto_of(app: App) -> FieldId
    ensures { result ≡ proto_of app }
{
    match app {
        App::Http => ids::HTTP,
        App::Dns => ids::DNS,
        App::Dhcp => ids::DHCP,
        App::Ntp => ids::NTP,
        App::Mdns => ids::MDNS,
        App::Plain => ids::DATA,
    }
}

/// Where the messages of an application end in a stream, if it has any there.
pub fn framer_of(app: App) -> Option<Framer>
    ensures { result ≡ framer_of app }
{
    match app {
        App::Http => Some(Framer::Http),
        App::Dns => Some(Framer::LengthPrefix {
            head: 2,
            at: 0,
            width: 2,
        }),
        App::Dhcp | App::Ntp | App::Mdns | App::Plain => None,
    }
}

/// The applications whose messages streams carry.
pub fn framed_apps() -> &'static [App]
    ensures { result.now ≡ framed_apps }
{
    &[App::Http, App::Dns]
}

/// Whether datagrams carry an application's messages.
#[tactic(auto, unfolding(crate::specs::Rows::in_datagrams))]
pub fn in_datagrams(app: App) -> bool
    ensures { result ≡ in_datagrams app }
{
    matches!(app, App::Dns | App::Dhcp | App::Ntp | App::Mdns)
}

/// Whether a datagram's message of an application is passed over where nothing of it is asked.
pub fn is_passed(app: App) -> bool
    ensures { result ≡ is_passed app }
{
    matches!(app, App::Dns | App::Dhcp | App::Mdns)
}

/// The applications of which that is so.
pub fn passed_apps() -> &'static [App]
    ensures { result.now ≡ passed_apps }
{
    &[App::Dns, App::Dhcp, App::Mdns]
}
