// What the search of a pattern costs.
ghost use Rattle.std.specs.Prelude.{◌≡◌, map};
ghost use Rattle.flt_typed.specs.Positions.{positions, copies_of, all_positions};

use regex_hir::Hir;

/// How often a repeat is written out, at least once.
fn copies_of(least: u32, most: Option<u32>) -> u32
    ensures { result ≡ copies_of least most }
{
    match most {
        Some(most) => least.max(most).max(1),
        None => least.max(1),
    }
}

/// How many places a search may have to follow at once: one for each byte and class, for what matches nothing, as `^` or
/// an empty branch, for each group and each repeat, with what is in repeats written out. The calls nest as deep as the
/// tree, two for a node; that is at most 1,254 deep where a pattern nests at most 250 deep.
#[cycle(positions)]
pub(crate) fn positions(hir: &Hir) -> usize
    ensures { result ≡ positions hir.now }
{
    match hir {
        Hir::Empty => 1,
        Hir::Literal(bytes) => bytes.len(),
        Hir::Bytes(_) => 1,
        Hir::Chars(_) => 1,
        Hir::Look(_) => 1,
        Hir::Repetition { min, max, sub, .. } => {
            let copies = copies_of(*min, *max) as usize;
            positions(sub).saturating_mul(copies).saturating_add(1)
        }
        Hir::Capture { sub, .. } => positions(sub).saturating_add(1),
        Hir::Concat(subs) => all_positions(subs),
        Hir::Alternation(subs) => all_positions(subs),
    }
}

// It goes from the last part back, as `all_positions` is built.
#[cycle(positions)]
fn all_positions(subs: &[Hir]) -> usize
    ensures { result ≡ all_positions (map positions subs.now) }
{
    let mut total: usize = 0;
    for i in (0..subs.len()).rev() {
        total = total.saturating_add(positions(&subs[i]));
    }
    total
}
