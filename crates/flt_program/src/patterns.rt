// The patterns of a filter.
ghost use Rattle.std.specs.Prelude.{◌≡◌, ◌++◌, [], ◌∷◌, None, IfOk, OnOk};
ghost use Rattle.flt_program.specs.Programs.{patterns_of};
ghost use Rattle.flt_program.specs.Sources.{patterns_right, sources_of};
ghost use Rattle.flt_chains.specs.Parts.{left_of_filter};

use flt_chains::{Chain, chain_of};
use flt_typed::{Pattern, Typed};
use pk_base::NoMemory;
use std::alloc::Global;

/// A filter's patterns, in its order, by which instructions number them.
pub fn patterns_in<'f>(alloc: Global, filter: &'f Typed) -> Result<Vec<&'f Pattern>, NoMemory>
    ensures { IfOk result (λ patterns. sources_of patterns.items ≡ patterns_of filter.now) }
{
    let mut patterns = Vec::new(alloc);
    add_patterns(alloc, &mut patterns, filter)?;
    Ok(patterns)
}

/// Adds a filter's patterns. The filters that signs join are looked at one after the other, so that no call nests as deep as
/// they do.
#[cycle(patterns)]
fn add_patterns<'f>(
    alloc: Global,
    patterns: &mut Vec<&'f Pattern>,
    filter: &'f Typed,
) -> Result<(), NoMemory>
    ensures { OnOk result (sources_of patterns.new.items
        ≡ sources_of patterns.old.items ++ patterns_of filter.now) }
{
    let Chain { first, mut above } = chain_of(alloc, filter)?;
    add_single(alloc, patterns, first)?;
    'above: while let Some(next) = above.pop() {
        add_right(alloc, patterns, next)?;
    }
    Ok(())
}

/// Adds the patterns to the right of a filter's outermost sign.
#[cycle(patterns)]
fn add_right<'f>(
    alloc: Global,
    patterns: &mut Vec<&'f Pattern>,
    filter: &'f Typed,
) -> Result<(), NoMemory>
    ensures { OnOk result (sources_of patterns.new.items
        ≡ sources_of patterns.old.items ++ patterns_right filter.now) }
{
    match filter {
        Typed::Either(_, right) | Typed::Differ(_, right) | Typed::Both(_, right) => {
            add_patterns(alloc, patterns, right)
        }
        _ => Ok(()),
    }
}

/// Adds the patterns of a filter that is no chain of signs.
#[cycle(patterns)]
fn add_single<'f>(
    alloc: Global,
    patterns: &mut Vec<&'f Pattern>,
    filter: &'f Typed,
) -> Result<(), NoMemory>
    requires { left_of_filter filter.now ≡ None }
    ensures { OnOk result (sources_of patterns.new.items
        ≡ sources_of patterns.old.items ++ patterns_of filter.now) }
{
    match filter {
        Typed::Not(inner) => add_patterns(alloc, patterns, inner),
        Typed::Matches(_, _, pattern) => push_pattern(patterns, pattern),
        _ => Ok(()),
    }
}

fn push_pattern<'f>(patterns: &mut Vec<&'f Pattern>, pattern: &'f Pattern) -> Result<(), NoMemory>
    ensures { OnOk result (sources_of patterns.new.items
        ≡ sources_of patterns.old.items ++ pattern.now ∷ []) }
{
    patterns.push(pattern)?;
    Ok(())
}
