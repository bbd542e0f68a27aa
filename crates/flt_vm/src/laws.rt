// What holds of every run and every program, stated on functions that do nothing.
ghost use Rattle.flt_vm.specs.Fed.{FedProgramsRun, FittingProgramsAnswer, ProgramsRunOrLack, RunsAreFed};
ghost use Rattle.flt_vm.specs.Verdicts.{ComputedIsRun, RunsAreComputed, VerdictsAlike};

/// What is computed of a program and a tree is what its run answers.
pub fn verdicts_are_those_of_runs()
    ensures computed { RunsAreComputed }
    ensures runs { ComputedIsRun }
{}

/// Trees are alike to a program that have the same values of the fields that it asks for.
pub fn trees_with_the_same_values_are_alike()
    ensures { VerdictsAlike }
{}

/// A program has a run on a tree, of at most as many steps as it has instructions, exactly where each instruction that it comes
/// to finds what it takes. So one that fits its filter answers something of every tree.
pub fn fitting_programs_have_runs()
    ensures either { ProgramsRunOrLack }
    ensures fed { FedProgramsRun }
    ensures only { RunsAreFed }
    ensures answers { FittingProgramsAnswer }
{}
