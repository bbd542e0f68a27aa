// What holds of every tree, stated on functions that do nothing.
ghost use Rattle.flt_types.specs.Laws.{ClearIsTyped, TypedIsClear};

/// A tree with a type has no fault.
pub fn typed_trees_have_no_fault()
    ensures { TypedIsClear }
{}

/// The tree of a text has a type where it has no fault.
pub fn clear_trees_have_a_type()
    ensures { ClearIsTyped }
{}
