// What holds of every text, stated on functions that do nothing.
ghost use Rattle.flt_types.specs.TextLaws.{OneFault, OneMeaning, TypedOrFault, TypedOrRefused};

/// A text that is a filter may be refused for a pattern's size, and for nothing else.
pub fn typed_texts_have_no_fault()
    ensures { TypedOrFault }
{}

/// A text has at most one first fault, but that a pattern's size may be one in its stead.
pub fn faults_are_unique()
    ensures { OneFault }
{}

/// A text is a filter, or has a first fault that isn't the size of a pattern.
pub fn texts_are_filters_or_refused()
    ensures { TypedOrRefused }
{}

/// A text has one meaning: whatever filters it is, they ask the same of each tree.
pub fn texts_have_one_meaning()
    ensures { OneMeaning }
{}
