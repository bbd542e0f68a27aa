// What holds of every list of words, stated on functions that do nothing.
ghost use Rattle.run_words.specs.Laws.{LetsByMeaning, NeverBoth, OneReason, PlanOrReason};

/// No words ask for a plan and have a sure reason to be refused.
pub fn plans_are_not_refused()
    ensures { NeverBoth }
{}

/// Words ask for a plan or have a sure reason to be refused.
pub fn words_are_planned_or_refused()
    ensures { PlanOrReason }
{}

/// Words have at most one sure reason to be refused.
pub fn reasons_are_unique()
    ensures { OneReason }
{}

/// A plan lets the trees through that satisfy the filter of its words.
pub fn plans_let_by_meaning()
    ensures { LetsByMeaning }
{}
