// What holds of the lines of every tree, stated on a function that does nothing.
ghost use Rattle.out_lines.specs.Laws.{KeptLine};

/// A tree that keeps the items of some fields alone has the same line of these fields as the whole tree.
pub fn kept_trees_have_the_same_line()
    ensures { KeptLine }
{}
