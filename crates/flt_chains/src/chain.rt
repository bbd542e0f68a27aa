// The way down to the first part of a chain of signs or commas. It is a loop, so that no call nests as deep as the chain.
ghost use Rattle.std.specs.Prelude.{◌≡◌, ◌<◌, ℕ, Option, None, option_map, IfOk, IfSome};
ghost use Rattle.flt_chains.specs.Chains.{Stands};

use pk_base::NoMemory;
use std::alloc::Global;

/// A tree of which signs or commas join parts.
pub trait Chained {
    /// What stands to the left of the outermost sign or comma, if there is one.
    ghost left_of: { Self → Option Self };

    /// How large a tree is.
    ghost size: { Self → ℕ };

    fn left(&self) -> Option<&Self>
        ensures left { option_map (λ part. part.now) result ≡ left_of self.now }
        ensures less { IfSome result (λ part. size part.now < size self.now) };
}

/// The first part of a chain, and what stands from the whole down to it, the whole first.
#[derive(Drop)]
pub struct Chain<'f, T> {
    pub first: &'f T,
    pub above: Vec<&'f T>,
}

/// The first part of what signs or commas join, and what stands above it. Takes no memory where there is none.
pub fn chain_of<'f, T: Chained>(alloc: Global, whole: &'f T) -> Result<Chain<'f, T>, NoMemory>
    ensures stands { IfOk result (λ chain.
        Stands T.left_of whole.now chain.above.items chain.first.now) }
    ensures first { IfOk result (λ chain. T.left_of chain.first.now ≡ None) }
{
    let mut above = Vec::new(alloc);
    let mut first = whole;
    'signs: while let Some(left) = first.left() {
        above.push(first)?;
        first = left;
    }
    Ok(Chain { first, above })
}
