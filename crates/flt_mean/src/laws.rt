// What holds of every filter, stated on a function that does nothing.
ghost use Rattle.flt_mean.specs.Laws.{KeptMeaning};

/// A tree that keeps the items of some fields alone is as the whole tree to a filter that asks for no others.
pub fn kept_trees_keep_the_meaning()
    ensures { KeptMeaning }
{}
