// What holds of every text, stated on functions that do nothing.
ghost use Rattle.flt_parse.specs.Laws.{FilterOrFault, NeverBoth, OneFault, OneFilter};
ghost use Rattle.flt_parse.specs.Longest.{FirstIsLongest, TokensAreLongest};

/// No text is a filter and has a fault.
pub fn filters_have_no_fault()
    ensures { NeverBoth }
{}

/// A text has at most one first fault.
#[tactic(auto, using(crate::proofs::Faults::one_fault))]
pub fn faults_are_unique()
    ensures { OneFault }
{}

/// A text is at most one filter.
pub fn filters_are_unique()
    ensures { OneFilter }
{}

/// Each text is a filter or has a first fault.
pub fn texts_are_filters_or_have_a_fault()
    ensures { FilterOrFault }
{}

/// Of the signs that stand at a place of a text the longest one is its token.
pub fn longest_signs_are_tokens()
    ensures front { FirstIsLongest }
    ensures tokens { TokensAreLongest }
{}
