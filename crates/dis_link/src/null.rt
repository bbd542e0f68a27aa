ghost use Rattle.std.specs.Prelude.{◌≡◌, ◌≢◌, ℕ, Bool as Truth, List, ◌+◌, ◌<◌, ◌≤◌, ◌^◌, length, IfOk, OnOk};
ghost use Rattle.pk_tree.specs.Buffers.{IsInside, bytes_of};
ghost use Rattle.pk_fields.specs.Ids.{NULL};
ghost use Rattle.pk_base.specs.declared.heads.Mode.TheVariants.{Plain};
ghost use Rattle.pk_tree.specs.Layouts.{layer_read};
ghost use Rattle.pk_tree.specs.Trees.{last_proto};
ghost use Rattle.pk_tree.specs.Following.{LeadsInside};
ghost use Rattle.dis_link.specs.Null.{family, family as family_of, next_of_family, null_layout, null_after};

use pk_base::{After, Mode, Next, NoMemory, Span, Value, u32_at};
use pk_fields::ids;
use pk_tree::{Reach, Step, TreeBuilder, carried, pass_layer, read_layer};

/// The bytes of a loopback header.
const HEADER: u32 = 4;

/// The families of the protocols that are read, by the systems that use them.
const INET: u32 = 2;

const INET6_NETBSD_AND_OPENBSD: u32 = 24;

const INET6_FREEBSD: u32 = 28;

const INET6_MACOS: u32 = 30;

/// Reads a BSD loopback header, whose family is in the byte order of the file or section (LINKTYPE_NULL).
#[tactic(auto, using(crate::proofs::Whole::null_whole, crate::proofs::Whole::null_fits), unfolding(crate::specs::Null::null_after, pk_fields::specs::Fields::row_of, pk_fields::specs::Table::rows))]
pub(crate) fn read_null(
    little: bool,
    span: Span,
    cut: bool,
    b: &mut TreeBuilder,
) -> Result<After, NoMemory>
    requires inside { IsInside b.old.buffers span }
    requires room { length b.old.layers + 2 < 2 ^ 32 }
    ensures layer { IfOk result (λ _.
        b.new ≡ layer_read b.old NULL span
        (null_layout little (bytes_of b.old.buffers span)) Plain cut) }
    ensures after { IfOk result (λ after.
        after ≡ null_after little span (bytes_of b.old.buffers span)) }
    ensures inside { IfOk result (LeadsInside b.old.buffers) }
    ensures whole { IfOk result (λ after. after ≢ After.End → last_proto b.new.layers ≡ NULL) }
    ensures buffers { b.new.buffers ≡ b.old.buffers }
    ensures most { OnOk result (length b.new.layers ≤ length b.old.layers + 2) }
{
    let family = family(little, b.bytes(span));
    if !b.asks(ids::NULL) && span.len >= HEADER {
        pass_layer(b, ids::NULL, span, Reach::All, Mode::Plain, cut)?;
    } else {
        read_family(family, span, cut, b)?;
    }
    Ok(carried(next_of_family(family), span, HEADER))
}

/// Reads a header's only row. The table of fields has no place for it, since the order of its bytes
/// differs.
#[inline(never)]
#[tactic(auto, unfolding(crate::specs::Null::null_layout, pk_tree::specs::Layouts::reach, pk_tree::specs::Layouts::step_reach, pk_tree::specs::Layouts::StepsFit, pk_fields::specs::Fields::row_of, pk_fields::specs::Table::rows))]
fn read_family(family: u32, span: Span, cut: bool, b: &mut TreeBuilder) -> Result<(), NoMemory>
    requires inside { IsInside b.old.buffers span }
    requires room { length b.old.layers + 2 < 2 ^ 32 }
    ensures layer { IfOk result (λ _. (little : Truth) (bytes : List ℕ)
        → family ≡ family_of little bytes
        → b.new ≡ layer_read b.old NULL span (null_layout little bytes) Plain cut) }
    ensures buffers { b.new.buffers ≡ b.old.buffers }
    ensures whole { OnOk result (4 ≤ span.len → last_proto b.new.layers ≡ NULL) }
    ensures most { OnOk result (length b.new.layers ≤ length b.old.layers + 2) }
{
    let steps = [Step::Derived(
        ids::NULL_FAMILY,
        Value::Uint(u64::from(family)),
        0,
        HEADER as usize,
    )];
    read_layer(b, ids::NULL, span, &steps, Mode::Plain, cut)?;
    Ok(())
}

/// The family, or 0 where its bytes aren't all there.
fn family(little: bool, bytes: &[u8]) -> u32
    ensures { result ≡ family little bytes.now }
{
    if bytes.len() >= HEADER as usize {
        u32_at(little, bytes, 0)
    } else {
        0
    }
}

fn next_of_family(family: u32) -> Next
    ensures { result ≡ next_of_family family }
{
    match family {
        INET => Next::Ip4,
        INET6_NETBSD_AND_OPENBSD | INET6_FREEBSD | INET6_MACOS => Next::Ip6,
        _ => Next::Rest,
    }
}
