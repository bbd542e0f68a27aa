// What the tables read in the tree of a frame.
ghost use Rattle.std.specs.Prelude.{◌≡◌, ◌<◌, reverse, length, position, IfSome};
ghost use Rattle.std.specs.Option.{option_copied, option_map};
ghost use Rattle.std.specs.List.{find};
ghost use Rattle.pk_tree.specs.FieldValues.{item_values};
ghost use Rattle.cap_stats.specs.Steps.{packet_note};
ghost use Rattle.cap_stats.specs.Told.{first_value, number_in, four_in, six_in, address_in, length_of, is_ip as is_ip_layer, has_stream as shows_stream, party_at as party_value, segment_of, segment_at, stream_in, has_addresses as shows_addresses, pair_of as pair_value, host as host_value, packet_of, packet_in};

use crate::party::{Flight, Packet, Party};
use pk_base::{Address, Value};
use pk_fields::{FieldId, ids};
use pk_tree::{Item, Layer};

/// The segment that a tree shows: its stream, and its way between the addresses of the last IP header before it.
#[tactic(auto, unfolding(crate::specs::Told::stream_in))]
pub(crate) fn stream_in(layers: &[Layer]) -> Option<(u64, Flight)>
    ensures { result ≡ stream_in layers.now }
{
    let at = stream_place(layers)?;
    segment_at(layers, at)
}

/// The place of the first layer with a stream's number.
fn stream_place(layers: &[Layer]) -> Option<usize>
    ensures place { result ≡ position shows_stream layers.now }
    ensures within { IfSome result (λ at. at < length layers.now) }
{
    layers.iter().position(|layer| has_stream(layer))
}

fn segment_at(layers: &[Layer], at: usize) -> Option<(u64, Flight)>
    requires { at < length layers.now }
    ensures { result ≡ segment_at layers.now at }
{
    let layer = layers.get(at)?;
    let header = last_ip(&layers[..at])?;
    segment_of(layers, header, layer)
}

fn segment_of(layers: &[Layer], header: &Layer, layer: &Layer) -> Option<(u64, Flight)>
    ensures { result ≡ segment_of layers.now header.now layer.now }
{
    let stream = number_in(layer, ids::TCP_STREAM)?;
    let source = address_in(header, ids::IP_SRC, ids::IPV6_SRC)?;
    let target = address_in(header, ids::IP_DST, ids::IPV6_DST)?;
    let from = number_in(layer, ids::TCP_SRCPORT)?;
    let to = number_in(layer, ids::TCP_DSTPORT)?;
    let flight = Flight {
        from: party_at(source, from),
        to: party_at(target, to),
        bytes: length_of(layers),
    };
    Some((stream, flight))
}

/// The packet that a tree shows: from and to the addresses of its first IPv4 header that has both.
#[tactic(auto, unfolding(crate::specs::Told::packet_in))]
pub(crate) fn packet_in(layers: &[Layer]) -> Option<Packet>
    ensures { option_map packet_note result ≡ packet_in layers.now }
{
    let layer = first_pair(layers)?;
    packet_of(layers, layer)
}

fn packet_of(layers: &[Layer], layer: &Layer) -> Option<Packet>
    ensures { option_map packet_note result ≡ packet_of layers.now layer.now }
{
    let source = four_in(layer, ids::IP_SRC)?;
    let target = four_in(layer, ids::IP_DST)?;
    Some(Packet {
        source,
        target,
        bytes: length_of(layers),
    })
}

/// A frame's length on the wire, which its first layer has.
#[tactic(auto, unfolding(crate::specs::Told::length_of))]
pub(crate) fn length_of(layers: &[Layer]) -> u64
    ensures { result ≡ length_of layers.now }
{
    match layers {
        [] => 0,
        [frame, ..] => number_in(frame, ids::FRAME_LEN).unwrap_or(0),
    }
}

fn last_ip(layers: &[Layer]) -> Option<&Layer>
    ensures { option_copied result ≡ find is_ip_layer (reverse layers.now) }
{
    layers.iter().rev().find(|layer| is_ip(layer))
}

fn first_pair(layers: &[Layer]) -> Option<&Layer>
    ensures { option_copied result ≡ find shows_addresses layers.now }
{
    for layer in layers {
        if has_addresses(layer) {
            return Some(layer);
        }
    }
    None
}

fn is_ip(layer: &Layer) -> bool
    ensures { result ≡ is_ip_layer layer.now }
{
    layer.proto == ids::IP || layer.proto == ids::IPV6
}

fn has_stream(layer: &Layer) -> bool
    ensures { result ≡ shows_stream layer.now }
{
    number_in(layer, ids::TCP_STREAM).is_some()
}

fn has_addresses(layer: &Layer) -> bool
    ensures { result ≡ shows_addresses layer.now }
{
    layer.proto == ids::IP
        && four_in(layer, ids::IP_SRC).is_some()
        && four_in(layer, ids::IP_DST).is_some()
}

#[inline(always)]
pub(crate) fn party_at(address: Address, port: u64) -> Party
    ensures { result ≡ party_value address port }
{
    Party {
        address,
        port: Some(port),
    }
}

#[inline(always)]
pub(crate) fn host(address: u32) -> Party
    ensures { result ≡ host_value address }
{
    Party {
        address: Address::Four(address),
        port: None,
    }
}

/// Two addresses, whichever of them sends.
#[inline(always)]
pub(crate) fn pair_of(source: u32, target: u32) -> (u32, u32)
    ensures { result ≡ pair_value source target }
{
    (source.min(target), source.max(target))
}

/// An address of an IP header, in the field of its version.
fn address_in(layer: &Layer, four: FieldId, six: FieldId) -> Option<Address>
    ensures { result ≡ address_in four six layer.now }
{
    if layer.proto == ids::IP {
        Some(Address::Four(four_in(layer, four)?))
    } else {
        Some(Address::Six(six_in(layer, six)?))
    }
}

fn number_in(layer: &Layer, field: FieldId) -> Option<u64>
    ensures { result ≡ number_in field layer.now }
{
    match first_in(layer.items.slice(), field) {
        Some(Value::Uint(number)) => Some(*number),
        _ => None,
    }
}

fn four_in(layer: &Layer, field: FieldId) -> Option<u32>
    ensures { result ≡ four_in field layer.now }
{
    match first_in(layer.items.slice(), field) {
        Some(Value::Ip4(address)) => Some(*address),
        _ => None,
    }
}

fn six_in(layer: &Layer, field: FieldId) -> Option<u128>
    ensures { result ≡ six_in field layer.now }
{
    match first_in(layer.items.slice(), field) {
        Some(Value::Ip6(address)) => Some(*address),
        _ => None,
    }
}

/// A field's first value among items.
fn first_in(items: &[Item], field: FieldId) -> Option<&Value>
    ensures { option_copied result ≡ first_value (item_values field items.now) }
{
    for item in items {
        if item.field == field {
            return Some(&item.value);
        }
    }
    None
}
