// What the tables read in the headers of a frame that has no tree.
ghost use Rattle.std.specs.Prelude.{◌≡◌, ◌<◌, ◌==◌, ◌||◌, Some, IfOk, IfSome, is_some, length, option_and_then, position, reverse, take};
ghost use Rattle.std.specs.List.{find, slice_get};
ghost use Rattle.std.specs.Option.{option_map};
ghost use Rattle.pk_base.specs.declared.heads.Address.TheVariants.{Four as FourValue, Six as SixValue};
ghost use Rattle.pk_fields.specs.Ids.{IP, IPV6, IP_DST, IP_SRC, IPV6_DST, IPV6_SRC, TCP_DSTPORT, TCP_SRCPORT, TCP_STREAM};
ghost use Rattle.cap_stats.specs.Places.{IsNumbered, address_there, both_in, both_told, four_there, has_there, number_there, segment_there, segment_told, six_there};
ghost use Rattle.cap_stats.specs.Steps.{packet_note};
ghost use Rattle.cap_stats.specs.Told.{four_of as four_value, has_addresses as shows_addresses, has_stream as shows_stream, is_ip as is_ip_layer, length_of as bytes_of, number_of as number_value, packet_in, segment_at as segment_value, six_of as six_value, stream_in};
ghost use Rattle.cap_stats.specs.declared.headers.Numbered.{Numbered as NumberedValue};

use crate::party::{Flight, Packet};
use crate::told::party_at;
use pk_base::{Address, NoMemory, Value};
use pk_fields::{FieldId, ids};
use pk_source::Outline;

/// The first layer with a stream's number.
#[derive(Clone, Copy)]
pub(crate) struct Numbered {
    pub place: usize,
    pub stream: u64,
}

/// The ports of a segment.
#[derive(Clone, Copy)]
struct Ports {
    from: Option<u64>,
    to: Option<u64>,
}

/// The addresses of an IP header.
#[derive(Clone, Copy)]
struct Ends {
    source: Option<Address>,
    target: Option<Address>,
}

/// The segment that headers show.
#[tactic(auto, unfolding(crate::specs::Told::stream_in))]
pub(crate) fn stream_in(outline: &Outline<'_>) -> Result<Option<(u64, Flight)>, NoMemory>
    ensures { IfOk result (λ note. note ≡ stream_in outline.now.layers) }
{
    match first_stream(outline)? {
        Some(found) => segment_at(outline, found),
        None => Ok(None),
    }
}

/// The first layer with a stream's number, and the number.
fn first_stream(outline: &Outline<'_>) -> Result<Option<Numbered>, NoMemory>
    ensures place { IfOk result (λ found. option_map (λ (numbered : NumberedValue). numbered.place) found
        ≡ position shows_stream outline.now.layers) }
    ensures found { IfOk result (λ found. IfSome found (IsNumbered outline.now.layers)) }
{
    for place in 0..outline.layer_count() {
        if let Some(stream) = stream_at(outline, place)? {
            return Ok(Some(Numbered { place, stream }));
        }
    }
    Ok(None)
}

/// The stream's number in the layer at a place.
#[inline(always)]
fn stream_at(outline: &Outline<'_>, place: usize) -> Result<Option<u64>, NoMemory>
    requires { place < length outline.now.layers }
    ensures { IfOk result (λ stream.
        stream ≡ number_there outline.now.layers place TCP_STREAM) }
{
    if outline.protocol(place) == ids::TCP {
        number_at(outline, place, ids::TCP_STREAM)
    } else {
        outline.fits();
        Ok(None)
    }
}

#[inline(always)]
fn segment_at(outline: &Outline<'_>, found: Numbered) -> Result<Option<(u64, Flight)>, NoMemory>
    requires { IsNumbered outline.now.layers found }
    ensures { IfOk result (λ note. note ≡ segment_value outline.now.layers found.place) }
{
    match last_ip(outline, found.place) {
        Some(header) => segment_of(outline, header, found),
        None => Ok(None),
    }
}

/// The segment at a place, behind the IP header at another.
#[inline(always)]
fn segment_of(
    outline: &Outline<'_>,
    header: usize,
    found: Numbered,
) -> Result<Option<(u64, Flight)>, NoMemory>
    requires header { header < length outline.now.layers }
    requires found { IsNumbered outline.now.layers found }
    ensures { IfOk result (λ note. note ≡ segment_there outline.now.layers header found.place) }
{
    let ports = ports_at(outline, found.place)?;
    let ends = ends_at(outline, header)?;
    let bytes = length_of(outline)?;
    Ok(segment_told(found.stream, ports, ends, bytes))
}

#[inline(always)]
fn segment_told(stream: u64, ports: Ports, ends: Ends, bytes: u64) -> Option<(u64, Flight)>
    ensures { result
        ≡ segment_told (Some stream) ends.source ends.target ports.from ports.to bytes }
{
    let source = ends.source?;
    let target = ends.target?;
    let from = ports.from?;
    let to = ports.to?;
    let flight = Flight {
        from: party_at(source, from),
        to: party_at(target, to),
        bytes,
    };
    Some((stream, flight))
}

#[inline(always)]
fn ports_at(outline: &Outline<'_>, place: usize) -> Result<Ports, NoMemory>
    ensures from { IfOk result (λ ports.
        ports.from ≡ number_there outline.now.layers place TCP_SRCPORT) }
    ensures to { IfOk result (λ ports.
        ports.to ≡ number_there outline.now.layers place TCP_DSTPORT) }
{
    let from = number_at(outline, place, ids::TCP_SRCPORT)?;
    let to = number_at(outline, place, ids::TCP_DSTPORT)?;
    Ok(Ports { from, to })
}

#[inline(always)]
fn ends_at(outline: &Outline<'_>, place: usize) -> Result<Ends, NoMemory>
    requires { place < length outline.now.layers }
    ensures source { IfOk result (λ ends.
        ends.source ≡ address_there outline.now.layers place IP_SRC IPV6_SRC) }
    ensures target { IfOk result (λ ends.
        ends.target ≡ address_there outline.now.layers place IP_DST IPV6_DST) }
{
    let source = address_at(outline, place, ids::IP_SRC, ids::IPV6_SRC)?;
    let target = address_at(outline, place, ids::IP_DST, ids::IPV6_DST)?;
    Ok(Ends { source, target })
}

/// The packet that headers show.
pub(crate) fn packet_in(outline: &Outline<'_>) -> Result<Option<Packet>, NoMemory>
    ensures { IfOk result (λ packet.
        option_map packet_note packet ≡ packet_in outline.now.layers) }
{
    let Some((source, target)) = first_pair(outline)? else {
        return Ok(None);
    };
    let bytes = length_of(outline)?;
    Ok(Some(Packet {
        source,
        target,
        bytes,
    }))
}

/// The addresses of the first IPv4 header that has both.
fn first_pair(outline: &Outline<'_>) -> Result<Option<(u32, u32)>, NoMemory>
    ensures { IfOk result (λ pair.
        pair ≡ option_and_then both_in (find shows_addresses outline.now.layers)) }
{
    for place in 0..outline.layer_count() {
        if let Some(pair) = pair_at(outline, place)? {
            return Ok(Some(pair));
        }
    }
    Ok(None)
}

/// Both addresses of the layer at a place, if it is an IPv4 header that has them.
#[inline(always)]
fn pair_at(outline: &Outline<'_>, place: usize) -> Result<Option<(u32, u32)>, NoMemory>
    requires { place < length outline.now.layers }
    ensures has { IfOk result (λ pair.
        is_some pair ≡ has_there shows_addresses outline.now.layers place) }
    ensures pair { IfOk result (λ pair. IfSome pair (λ both.
        Some both ≡ option_and_then both_in (slice_get outline.now.layers place))) }
{
    if outline.protocol(place) == ids::IP {
        both_at(outline, place)
    } else {
        Ok(None)
    }
}

/// Both addresses of the layer at a place.
#[inline(always)]
fn both_at(outline: &Outline<'_>, place: usize) -> Result<Option<(u32, u32)>, NoMemory>
    ensures { IfOk result (λ pair. pair
        ≡ both_told (four_there outline.now.layers place IP_SRC) (four_there outline.now.layers place IP_DST)) }
{
    let source = four_at(outline, place, ids::IP_SRC)?;
    let target = four_at(outline, place, ids::IP_DST)?;
    Ok(both_of(source, target))
}

#[inline(always)]
fn both_of(source: Option<u32>, target: Option<u32>) -> Option<(u32, u32)>
    ensures { result ≡ both_told source target }
{
    Some((source?, target?))
}

/// A frame's length on the wire, which its first layer has.
#[inline(always)]
#[tactic(auto, unfolding(crate::specs::Told::length_of))]
pub(crate) fn length_of(outline: &Outline<'_>) -> Result<u64, NoMemory>
    ensures { IfOk result (λ bytes. bytes ≡ bytes_of outline.now.layers) }
{
    let bytes = number_at(outline, 0, ids::FRAME_LEN)?;
    Ok(bytes.unwrap_or(0))
}

/// The place of the last IP header before a place.
fn last_ip(outline: &Outline<'_>, at: usize) -> Option<usize>
    requires { at < length outline.now.layers }
    ensures header { option_and_then (slice_get outline.now.layers) result
        ≡ find is_ip_layer (reverse (take at outline.now.layers)) }
    ensures within { IfSome result (λ place. place < length outline.now.layers) }
{
    for step in 0..at {
        let place = at - 1 - step;
        if is_ip(outline.protocol(place)) {
            return Some(place);
        }
    }
    None
}

#[inline(always)]
fn is_ip(proto: FieldId) -> bool
    ensures { result ≡ (proto == IP || proto == IPV6) }
{
    proto == ids::IP || proto == ids::IPV6
}

/// An address of an IP header, in the field of its version.
#[inline(always)]
fn address_at(
    outline: &Outline<'_>,
    place: usize,
    four: FieldId,
    six: FieldId,
) -> Result<Option<Address>, NoMemory>
    requires { place < length outline.now.layers }
    ensures { IfOk result (λ address.
        address ≡ address_there outline.now.layers place four six) }
{
    if outline.protocol(place) == ids::IP {
        let address = four_at(outline, place, four)?;
        Ok(of_four(address))
    } else {
        let address = six_at(outline, place, six)?;
        Ok(of_six(address))
    }
}

#[inline(always)]
fn of_four(address: Option<u32>) -> Option<Address>
    ensures { result ≡ option_map FourValue address }
{
    match address {
        Some(address) => Some(Address::Four(address)),
        None => None,
    }
}

#[inline(always)]
fn of_six(address: Option<u128>) -> Option<Address>
    ensures { result ≡ option_map SixValue address }
{
    match address {
        Some(address) => Some(Address::Six(address)),
        None => None,
    }
}

#[inline(always)]
fn number_at(outline: &Outline<'_>, place: usize, field: FieldId) -> Result<Option<u64>, NoMemory>
    ensures { IfOk result (λ number. number ≡ number_there outline.now.layers place field) }
{
    let value = outline.value_in(place, field)?;
    Ok(number_of(&value))
}

#[inline(always)]
fn four_at(outline: &Outline<'_>, place: usize, field: FieldId) -> Result<Option<u32>, NoMemory>
    ensures { IfOk result (λ address. address ≡ four_there outline.now.layers place field) }
{
    let value = outline.value_in(place, field)?;
    Ok(four_of(&value))
}

#[inline(always)]
fn six_at(outline: &Outline<'_>, place: usize, field: FieldId) -> Result<Option<u128>, NoMemory>
    ensures { IfOk result (λ address. address ≡ six_there outline.now.layers place field) }
{
    let value = outline.value_in(place, field)?;
    Ok(six_of(&value))
}

#[inline(always)]
fn number_of(value: &Option<Value>) -> Option<u64>
    ensures { result ≡ option_and_then number_value value.now }
{
    match value {
        Some(Value::Uint(number)) => Some(*number),
        _ => None,
    }
}

#[inline(always)]
fn four_of(value: &Option<Value>) -> Option<u32>
    ensures { result ≡ option_and_then four_value value.now }
{
    match value {
        Some(Value::Ip4(address)) => Some(*address),
        _ => None,
    }
}

#[inline(always)]
fn six_of(value: &Option<Value>) -> Option<u128>
    ensures { result ≡ option_and_then six_value value.now }
{
    match value {
        Some(Value::Ip6(address)) => Some(*address),
        _ => None,
    }
}
