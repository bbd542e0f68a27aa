// What holds of every filter, stated on a function that does nothing.
ghost use Rattle.flt_code.specs.Laws.{FiltersHavePrograms, TextsHavePrograms};

/// Each filter has a program that decides it.
pub fn filters_have_programs()
    ensures filters { FiltersHavePrograms }
    ensures texts { TextsHavePrograms }
{}
