// What holds of every list of words, stated on a function that does nothing.
ghost use Rattle.shark_run.specs.Headline.{HeadlineSaysAll};
ghost use Rattle.shark_run.specs.Laws.{PlansAreAlike};

/// All plans of the same words read and write alike.
pub fn plans_are_alike()
    ensures { PlansAreAlike }
{}

/// What the headline says holds each of the single promises about the output, the refusals and what is told.
pub fn the_headline_says_all()
    ensures { HeadlineSaysAll }
{}
