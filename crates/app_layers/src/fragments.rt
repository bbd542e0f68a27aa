ghost use Rattle.std.specs.Prelude.{◌≡◌, ℕ, ◌+◌, ◌<◌, ◌≤◌, ◌^◌, [], ◌∷◌, ◌++◌, length, IfOk, OnOk};
ghost use Rattle.pk_tree.specs.Trees.{last_proto};
ghost use Rattle.dis_ip.specs.Fragments.{part_proto};
ghost use Rattle.app_layers.specs.Fragments.{error_number, frame_field, length_field, number_told, conflict_told, frames_told, joined_told};
ghost use Rattle.app_layers.specs.Payloads.{LastIs};

use ip_join::ConflictKind;
use pk_base::{NoMemory, Numbers, Octets, Span, Value};
use pk_fields::ids;
use pk_tree::TreeBuilder;

/// Tells why a fragment can't be joined, in the layer of its header.
#[tactic(auto, unfolding(crate::specs::Fragments::conflict_told, pk_fields::specs::Fields::row_of, pk_fields::specs::Table::rows))]
pub fn tell_conflict(six: bool, kind: ConflictKind, tree: &mut TreeBuilder) -> Result<(), NoMemory>
    requires last { LastIs (part_proto six) tree.old.layers }
    ensures tree { IfOk result (λ _. tree.new ≡ conflict_told tree.old six kind) }
    ensures buffers { tree.new.buffers ≡ tree.old.buffers }
    ensures count { length tree.new.layers ≡ length tree.old.layers }
{
    let number = Value::Uint(u64::from(error_number(kind)));
    if six {
        tree.made_item(ids::IPV6_FRAGMENT_ERROR, number)
    } else {
        tree.made_item(ids::IP_FRAGMENT_ERROR, number)
    }
}

fn error_number(kind: ConflictKind) -> u8
    ensures { result ≡ error_number kind }
{
    match kind {
        ConflictKind::TooLong => 1,
        ConflictKind::MultipleTails => 2,
        ConflictKind::Overlap6 => 3,
    }
}

/// Tells of a datagram in the layer of a fragment's header, and makes a buffer of its bytes. Answers the span of all of
/// them.
#[tactic(auto, unfolding(crate::specs::Fragments::joined_told))]
pub fn tell_joined(
    six: bool,
    frames: &Numbers,
    bytes: Octets,
    tree: &mut TreeBuilder,
) -> Result<Span, NoMemory>
    requires last { LastIs (part_proto six) tree.old.layers }
    requires short { length bytes ≤ 65535 }
    requires room { length tree.old.buffers + 1 < 2 ^ 32 }
    ensures tree { IfOk result (λ _. (n : ℕ) → tree.new ≡ joined_told tree.old six (record { next = n; bytes = bytes; frames = frames.now })) }
    ensures span { IfOk result (λ span. span ≡ record { buffer = length tree.old.buffers; start = 0; len = length bytes }) }
    ensures buffers { OnOk result (tree.new.buffers ≡ tree.old.buffers ++ bytes ∷ []) }
    ensures count { OnOk result (length tree.new.layers ≡ length tree.old.layers) }
{
    tell_frames(six, frames.slice(), tree)?;
    let len = bytes.bytes().len() as u32;
    tell_length(six, len, tree)?;
    let buffer = tree.add_buffer(bytes)?;
    Ok(Span {
        buffer,
        start: 0,
        len,
    })
}

fn tell_frames(six: bool, frames: &[u32], tree: &mut TreeBuilder) -> Result<(), NoMemory>
    requires last { LastIs (part_proto six) tree.old.layers }
    ensures tree { IfOk result (λ _. tree.new ≡ frames_told tree.old six frames.now) }
    ensures buffers { tree.new.buffers ≡ tree.old.buffers }
    ensures count { length tree.new.layers ≡ length tree.old.layers }
    ensures same_last { last_proto tree.new.layers ≡ last_proto tree.old.layers }
{
    for frame in frames {
        tell_frame(six, *frame, tree)?;
    }
    Ok(())
}

#[tactic(auto, unfolding(pk_fields::specs::Fields::row_of, pk_fields::specs::Table::rows))]
fn tell_frame(six: bool, frame: u32, tree: &mut TreeBuilder) -> Result<(), NoMemory>
    requires last { LastIs (part_proto six) tree.old.layers }
    ensures tree { IfOk result (λ _. tree.new ≡ number_told tree.old (frame_field six) frame) }
    ensures buffers { tree.new.buffers ≡ tree.old.buffers }
    ensures count { length tree.new.layers ≡ length tree.old.layers }
    ensures same_last { last_proto tree.new.layers ≡ last_proto tree.old.layers }
{
    let number = Value::Uint(u64::from(frame));
    if six {
        tree.made_item(ids::IPV6_FRAGMENT, number)
    } else {
        tree.made_item(ids::IP_FRAGMENT, number)
    }
}

#[tactic(auto, unfolding(pk_fields::specs::Fields::row_of, pk_fields::specs::Table::rows))]
fn tell_length(six: bool, len: u32, tree: &mut TreeBuilder) -> Result<(), NoMemory>
    requires last { LastIs (part_proto six) tree.old.layers }
    ensures tree { IfOk result (λ _. tree.new ≡ number_told tree.old (length_field six) len) }
    ensures buffers { tree.new.buffers ≡ tree.old.buffers }
    ensures count { length tree.new.layers ≡ length tree.old.layers }
{
    let number = Value::Uint(u64::from(len));
    if six {
        tree.made_item(ids::IPV6_REASSEMBLED_LENGTH, number)
    } else {
        tree.made_item(ids::IP_REASSEMBLED_LENGTH, number)
    }
}
