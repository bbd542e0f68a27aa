// Requests and responses of HTTP in the tree of a frame.
ghost use Rattle.std.specs.Prelude.{◌≡◌, ◌<◌, length, position, reverse, IfSome};
ghost use Rattle.std.specs.Option.{option_copied};
ghost use Rattle.std.specs.List.{find};
ghost use Rattle.second_pass.specs.Messages.{address_in, direction_at, direction_in, direction_of, is_interim, is_ip as is_ip_layer, has_stream as shows_stream, is_true, kind_of, message_of};

use crate::reading::{address4_in, address6_in, number_in, truth_in};
use pk_fields::{FieldId, ids};
use pk_tree::Layer;

/// The direction of a TCP stream in which a frame's messages go: the stream, and the endpoint that sends.
#[derive(Clone, Copy, PartialEq, Eq, Hash)]
pub(crate) struct Direction {
    pub stream: u64,
    /// The version of the IP header with the address: 4 or 6.
    pub version: u8,
    pub address: u128,
    pub port: u64,
}

/// Which of the messages of HTTP that links ask for.
#[derive(Clone, Copy)]
pub(crate) enum Kind {
    Request,
    /// A final response, with the frame of its request where its layer names one.
    Response(Option<u64>),
}

#[derive(Clone, Copy)]
pub(crate) struct Message {
    pub frame: u32,
    /// Which of the frame's layers of HTTP it is, from 1.
    pub nth: u32,
    pub at: Direction,
    pub kind: Kind,
}

/// The message that a layer shows, if it counts for links.
pub(crate) fn message_of(frame: u32, at: Direction, layer: &Layer) -> Option<Message>
    ensures { result ≡ message_of frame at layer.now }
{
    let kind = kind_of(layer)?;
    Some(Message {
        frame,
        nth: layer.nth,
        at,
        kind,
    })
}

pub(crate) fn kind_of(layer: &Layer) -> Option<Kind>
    ensures { result ≡ kind_of layer.now }
{
    if layer.proto != ids::HTTP {
        return None;
    }
    if is_true(layer, ids::HTTP_REQUEST) {
        return Some(Kind::Request);
    }
    if !is_true(layer, ids::HTTP_RESPONSE) || is_interim(layer) {
        return None;
    }
    Some(Kind::Response(number_in(layer, ids::HTTP_REQUEST_IN)))
}

fn is_true(layer: &Layer, field: FieldId) -> bool
    ensures { result ≡ is_true field layer.now }
{
    truth_in(layer, field).unwrap_or(false)
}

/// Whether a response is interim (RFC 9110, 15.2).
fn is_interim(layer: &Layer) -> bool
    ensures { result ≡ is_interim layer.now }
{
    match number_in(layer, ids::HTTP_RESPONSE_CODE) {
        Some(code) => 100 <= code && code < 200,
        None => false,
    }
}

/// The direction of the segment that a tree shows, from the address of the last IP header before it.
#[tactic(auto, unfolding(crate::specs::Messages::direction_in))]
pub(crate) fn direction_in(layers: &[Layer]) -> Option<Direction>
    ensures { result ≡ direction_in layers.now }
{
    let at = stream_place(layers)?;
    direction_at(layers, at)
}

/// The place of the first layer with a stream's number.
fn stream_place(layers: &[Layer]) -> Option<usize>
    ensures place { result ≡ position shows_stream layers.now }
    ensures within { IfSome result (λ at. at < length layers.now) }
{
    layers.iter().position(|layer| has_stream(layer))
}

fn direction_at(layers: &[Layer], at: usize) -> Option<Direction>
    requires { at < length layers.now }
    ensures { result ≡ direction_at layers.now at }
{
    let layer = layers.get(at)?;
    let header = last_ip(&layers[..at])?;
    direction_of(header, layer)
}

fn direction_of(header: &Layer, layer: &Layer) -> Option<Direction>
    ensures { result ≡ direction_of header.now layer.now }
{
    let stream = number_in(layer, ids::TCP_STREAM)?;
    let (version, address) = address_in(header)?;
    let port = number_in(layer, ids::TCP_SRCPORT)?;
    Some(Direction {
        stream,
        version,
        address,
        port,
    })
}

/// The source of an IP header, with its version.
fn address_in(header: &Layer) -> Option<(u8, u128)>
    ensures { result ≡ address_in header.now }
{
    if header.proto == ids::IP {
        Some((4, u128::from(address4_in(header, ids::IP_SRC)?)))
    } else {
        Some((6, address6_in(header, ids::IPV6_SRC)?))
    }
}

fn last_ip(layers: &[Layer]) -> Option<&Layer>
    ensures { option_copied result ≡ find is_ip_layer (reverse layers.now) }
{
    layers.iter().rev().find(|layer| is_ip(layer))
}

fn is_ip(layer: &Layer) -> bool
    ensures { result ≡ is_ip_layer layer.now }
{
    layer.proto == ids::IP || layer.proto == ids::IPV6
}

fn has_stream(layer: &Layer) -> bool
    ensures { result ≡ shows_stream layer.now }
{
    number_in(layer, ids::TCP_STREAM).is_some()
}
