// Which frames are shown.
ghost use Rattle.std.specs.Prelude.{◌≡◌, Some, IfOk};
ghost use Rattle.run_frames.specs.Accessors.{compiled_of};
ghost use Rattle.run_frames.specs.Satisfied.{judged};

use crate::compiled::Compiled;
use crate::plan::Plan;
use flt_vm::{Machine, Verdict};
use pk_base::NoMemory;
use pk_source::Source;
use std::alloc::Global;
use std::marker::Model;

/// A filter with its program, and a machine that the program is run on, one tree after the other.
#[derive(Drop)]
pub struct Judge<'p> {
    compiled: &'p Compiled,
    machine: Machine<'p>,
}

// Contracts see a judge as the filter with its program.
impl<'p> Model for Judge<'p> {
    ghost use Rattle.std.specs.Coded.{codes};
    ghost use Rattle.flt_typed.specs.contracts.typed.Typed as typed;
    ghost use Rattle.run_frames.specs.Compiled.{CompiledShown, IsReadyFor};

    ghost Value = { CompiledShown };

    ghost coded = { Prim.hlevel (codes, typed.the_row.coded) };

    ghost view = { λ j. j.compiled.now };

    ghost invariant = { λ j. IsReadyFor j.compiled.now j.machine };
}

impl Judge<'_> {
    /// What the run of the program on a tree answers.
    #[tactic(auto, unfolding(crate::specs::Satisfied::judged))]
    fn answer(&mut self, source: &Source<'_>) -> Result<Verdict, NoMemory>
        ensures verdict { IfOk result (λ verdict. verdict ≡ judged (Some self.old) source.now) }
        ensures same { self.new ≡ self.old }
    {
        // What is true of each tree.
        let _lender = source.lender();
        self.machine.run_source(source)
    }
}

/// The judge of a plan, where it has a filter.
pub(crate) fn judge_for(alloc: Global, plan: &Plan) -> Result<Option<Judge<'_>>, NoMemory>
    ensures { IfOk result (λ judge. judge ≡ compiled_of plan.now) }
{
    match &plan.chosen {
        None => Ok(None),
        Some(compiled) => match Machine::new(alloc, compiled.program(), compiled.filter()) {
            Ok(machine) => Ok(Some(Judge { compiled, machine })),
            Err(error) => Err(error),
        },
    }
}

/// Whether a tree is let through, and in how many steps; where there is no filter every tree is, in none.
#[tactic(auto, unfolding(crate::specs::Satisfied::judged))]
pub(crate) fn verdict_of(
    judge: &mut Option<Judge<'_>>,
    source: &Source<'_>,
) -> Result<Verdict, NoMemory>
    ensures verdict { IfOk result (λ verdict. verdict ≡ judged judge.old source.now) }
    ensures same { judge.new ≡ judge.old }
{
    match judge {
        None => Ok(Verdict {
            holds: true,
            steps: 0,
        }),
        Some(judge) => judge.answer(source),
    }
}
