ghost use Rattle.std.specs.Prelude.{◌≡◌, false, true, IfSome};
ghost use Rattle.std.specs.List.{AllByRecursion as Each};
ghost use Rattle.pk_fields.specs.FieldSets.{is_in};
ghost use Rattle.pk_fields.specs.Ids.{TCP_SEGMENT, UDP_STREAM, WS_MALFORMED, WS_SHORT, field_count};
ghost use Rattle.dissect.specs.Followed.{asks_any, asks_apps, asks_messages, asks_streams};
ghost use Rattle.dissect.specs.Keeping.{AsksNoLinks, AsksNoOthers, AsksNoPlaces, FollowsEnough, IsOwnOrUnasked, KeepsFor, KeepsWhole, has_app, is_everything, is_followed, is_of, keeps_all, takes_any, tells_places};
ghost use Rattle.dissect.specs.Ways.{AsksNoOptions};

use app_layers::{StreamApp, framed_apps, proto_of};
use pk_fields::{App, FieldId, FieldSet, ids};

/// Which segments of TCP are taken into their streams; all others are passed over.
#[derive(Clone, Copy)]
pub(crate) enum Follows {
    Nothing,
    /// None, but of each its place in its stream is told, for which no byte is kept.
    Places,
    /// Those of streams whose messages are of one protocol.
    One(FieldId),
    /// Those of streams that have an application.
    Applications,
    Everything,
}

impl Follows {
    fn is_everything(self) -> bool
        ensures { result ≡ is_everything self }
    {
        match self {
            Follows::Nothing | Follows::Places | Follows::One(_) | Follows::Applications => false,
            Follows::Everything => true,
        }
    }

    /// Whether of all segments their places are told, and no byte is kept.
    pub fn tells_places(self) -> bool
        ensures { result ≡ tells_places self }
    {
        match self {
            Follows::Places => true,
            Follows::Nothing | Follows::One(_) | Follows::Applications | Follows::Everything => {
                false
            }
        }
    }

    /// Whether segments of any streams are taken.
    pub fn takes_any(self) -> bool
        ensures { result ≡ takes_any self }
    {
        match self {
            Follows::One(_) | Follows::Applications | Follows::Everything => true,
            Follows::Nothing | Follows::Places => false,
        }
    }

    /// Whether segments of streams of an application are taken.
    pub fn takes(self, app: Option<StreamApp>) -> bool
        ensures { result ≡ is_followed self app }
    {
        match self {
            Follows::Nothing | Follows::Places => false,
            Follows::One(protocol) => is_of(protocol, app),
            Follows::Applications => has_app(app),
            Follows::Everything => true,
        }
    }
}

/// Whether the messages of a stream are of a protocol.
fn is_of(protocol: FieldId, app: Option<StreamApp>) -> bool
    ensures { result ≡ is_of protocol app }
{
    match app {
        None => false,
        Some(streamed) => proto_of(streamed.app) == protocol,
    }
}

/// Whether a stream has an application.
fn has_app(app: Option<StreamApp>) -> bool
    ensures { result ≡ has_app app }
{
    match app {
        None => false,
        Some(_) => true,
    }
}

/// What is kept of conversations.
#[derive(Clone, Copy)]
pub(crate) struct Keeping {
    pub follows: Follows,
    /// Whether conversations over UDP are numbered.
    pub numbers: bool,
    /// Whether the bytes of streams are let go that no later message needs.
    pub lets_go: bool,
}

impl Keeping {
    pub fn everything() -> Keeping
        ensures all { keeps_all result ≡ true }
        ensures bytes { result.lets_go ≡ false }
    {
        Keeping {
            follows: Follows::Everything,
            numbers: true,
            lets_go: false,
        }
    }

    /// What trees of the wanted fields need, and all conversations over UDP.
    #[tactic(auto, using(crate::proofs::KeepingLemmas::for_trees))]
    pub fn for_fields(wanted: &FieldSet) -> Keeping
        ensures asked { KeepsFor result wanted.now }
        ensures whole { KeepsWhole result wanted.now }
    {
        Keeping {
            follows: followed_for_trees(wanted),
            numbers: true,
            lets_go: false,
        }
    }

    /// What the values of the wanted fields need.
    #[tactic(auto, using(crate::proofs::KeepingLemmas::keeps_for))]
    pub fn for_values(wanted: &FieldSet) -> Keeping
        ensures { KeepsFor result wanted.now }
    {
        Keeping {
            follows: followed_for_values(wanted),
            numbers: wanted.contains(ids::UDP_STREAM) || asks_links(wanted),
            lets_go: true,
        }
    }

    /// Whether messages are noted for links, which go by the numbers of conversations.
    pub fn is_all(&self) -> bool
        ensures { result ≡ keeps_all self.now }
    {
        self.follows.is_everything() && self.numbers
    }
}

/// Whether a field of the options of TCP may be asked, of which the headers of plain frames don't tell.
pub(crate) fn asks_options(wanted: &FieldSet) -> bool
    ensures { result ≡ false → AsksNoOptions wanted.now }
{
    wanted.contains(ids::TCP_OPTION_KIND)
        || wanted.contains(ids::TCP_OPTION_LEN)
        || wanted.contains(ids::TCP_OPTIONS_MSS_VAL)
        || wanted.contains(ids::TCP_OPTIONS_WSCALE_SHIFT)
        || wanted.contains(ids::TCP_OPTIONS_SACK_PERM)
        || wanted.contains(ids::TCP_OPTIONS_SACK_LE)
        || wanted.contains(ids::TCP_OPTIONS_SACK_RE)
        || wanted.contains(ids::TCP_OPTIONS_TIMESTAMP_TSVAL)
        || wanted.contains(ids::TCP_OPTIONS_TIMESTAMP_TSECR)
        || wanted.contains(ids::TCP_OPTIONS_BAD)
}

/// Which segments are taken for trees of the wanted fields: all, where anything may be asked of streams.
fn followed_for_trees(wanted: &FieldSet) -> Follows
    ensures enough { FollowsEnough result wanted.now }
    ensures all { asks_streams wanted.now ≡ true → is_everything result ≡ true }
    ensures links { is_everything result ≡ false → AsksNoLinks wanted.now }
{
    if asks_streams(wanted) {
        Follows::Everything
    } else {
        Follows::Nothing
    }
}

/// Which segments are taken for the values of the wanted fields.
fn followed_for_values(wanted: &FieldSet) -> Follows
    ensures enough { FollowsEnough result wanted.now }
    ensures links { is_everything result ≡ false → AsksNoLinks wanted.now }
{
    if asks_streams(wanted) {
        taken_for_values(wanted)
    } else {
        Follows::Nothing
    }
}

/// Which segments are taken for the values of fields that ask something of streams.
fn taken_for_values(wanted: &FieldSet) -> Follows
    ensures enough { FollowsEnough result wanted.now }
    ensures links { is_everything result ≡ false → AsksNoLinks wanted.now }
{
    if asks_messages(wanted) {
        taken_for_messages(wanted)
    } else {
        Follows::Places
    }
}

/// Which segments are taken for the values of fields that ask something of messages.
fn taken_for_messages(wanted: &FieldSet) -> Follows
    ensures enough { FollowsEnough result wanted.now }
    ensures links { is_everything result ≡ false → AsksNoLinks wanted.now }
{
    if asks_places(wanted) || wanted.contains(ids::TCP_SEGMENT) || asks_links(wanted) {
        return Follows::Everything;
    }
    if asks_faults(wanted) {
        return Follows::Applications;
    }
    match only_protocol(wanted) {
        Some(protocol) => Follows::One(protocol),
        None => Follows::Applications,
    }
}

/// A protocol, where of all others whose messages streams carry nothing may be asked.
fn only_protocol(wanted: &FieldSet) -> Option<FieldId>
    ensures { IfSome result (λ protocol. AsksNoOthers protocol wanted.now) }
{
    for app in framed_apps() {
        let protocol = proto_of(*app);
        if asks_it_alone(wanted, protocol) {
            return Some(protocol);
        }
    }
    None
}

/// Whether nothing may be asked of the other protocols whose messages streams carry.
fn asks_it_alone(wanted: &FieldSet, protocol: FieldId) -> bool
    ensures { result ≡ true → AsksNoOthers protocol wanted.now }
{
    asks_no_others(wanted, protocol, framed_apps())
}

/// Whether nothing may be asked of those of applications that are of another protocol.
fn asks_no_others(wanted: &FieldSet, protocol: FieldId, apps: &[App]) -> bool
    ensures { result ≡ true → Each (IsOwnOrUnasked protocol wanted.now) apps.now }
{
    for app in apps {
        let other = proto_of(*app);
        if other != protocol && asks_any(wanted, other) {
            return false;
        }
    }
    true
}

/// Whether links of messages may be asked.
fn asks_links(wanted: &FieldSet) -> bool
    ensures { result ≡ false → AsksNoLinks wanted.now }
{
    wanted.contains(ids::DNS_RESPONSE_TO) || wanted.contains(ids::HTTP_REQUEST_IN)
}

/// Whether a segment's place in its stream may be asked.
fn asks_places(wanted: &FieldSet) -> bool
    ensures { result ≡ false → AsksNoPlaces wanted.now }
{
    wanted.contains(ids::TCP_STREAM)
        || wanted.contains(ids::TCP_SEQ)
        || wanted.contains(ids::TCP_ACK)
        || wanted.contains(ids::TCP_LOST)
}

/// Whether the fault layers may be asked that messages of all applications can have behind them.
fn asks_faults(wanted: &FieldSet) -> bool
    ensures short { result ≡ false → is_in wanted.now WS_SHORT ≡ false }
    ensures malformed { result ≡ false → is_in wanted.now WS_MALFORMED ≡ false }
{
    wanted.contains(ids::WS_SHORT) || wanted.contains(ids::WS_MALFORMED)
}

/// Whether something may be asked that the streams of TCP give: a segment's place, or messages.
#[tactic(auto, unfolding(crate::specs::Followed::asks_streams))]
fn asks_streams(wanted: &FieldSet) -> bool
    ensures { result ≡ false → asks_streams wanted.now ≡ false }
{
    wanted.contains(ids::TCP_STREAM)
        || wanted.contains(ids::TCP_SEQ)
        || wanted.contains(ids::TCP_ACK)
        || wanted.contains(ids::TCP_LOST)
        || asks_messages(wanted)
}

/// Whether something may be asked of the messages of streams.
#[tactic(auto, unfolding(crate::specs::Followed::asks_messages))]
fn asks_messages(wanted: &FieldSet) -> bool
    ensures { result ≡ false → asks_messages wanted.now ≡ false }
{
    wanted.contains(ids::TCP_SEGMENT)
        || wanted.contains(ids::WS_SHORT)
        || wanted.contains(ids::WS_MALFORMED)
        || asks_apps(wanted, framed_apps())
}

/// Whether something may be asked of one of these applications.
pub(crate) fn asks_apps(wanted: &FieldSet, apps: &[App]) -> bool
    ensures { result ≡ false → asks_apps apps.now wanted.now ≡ false }
{
    for app in apps {
        if asks_any(wanted, proto_of(*app)) {
            return true;
        }
    }
    false
}

/// Whether a protocol or a field of it may be asked.
#[tactic(auto, using(crate::proofs::Asked::any_none))]
fn asks_any(wanted: &FieldSet, protocol: FieldId) -> bool
    ensures { result ≡ false → asks_any field_count protocol wanted.now ≡ false }
{
    wanted.has_any_of(protocol)
}
