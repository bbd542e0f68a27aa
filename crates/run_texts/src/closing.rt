// What a program does behind its run.
ghost use Rattle.std.specs.Prelude.{◌≡◌, ◌⊎◌};
ghost use Rattle.std.specs.Io.KnownBytes.{Appends};
ghost use Rattle.pk_outside.specs.Outside.{Rose};
ghost use Rattle.run_texts.specs.Closing.{EndsBroken, EndsWhole, no_memory_number, write_fault_number};

use crate::fault_text::tell;
use pk_outside::{Gathers, Sink, SureSink};

/// The number with which a program ends whose output can't be written.
pub const WRITE_FAULT: u8 = 8;

/// The number with which a program ends that finds no memory for its answer.
pub const NO_MEMORY: u8 = 9;

/// Ends a program behind its run, which came to a number and told a text: hands on what the output held back, and then tells
/// the text. Where the output can't be handed on nothing is told. Answers the number to end with.
pub fn end_run<O: Gathers, E: Sink>(out: &mut O, told: &SureSink, err: &mut E, number: u8) -> u8
    ensures ends { EndsWhole number result told.now.starved told.now.taken
        (O.waiting out.old) (O.handed out.old) (O.waiting out.new) (O.handed out.new)
        (E.written err.old) (E.written err.new)
        ⊎ EndsBroken result (O.failures out.old) (O.failures out.new) err.old err.new }
    ensures told_whole { ¬ Rose (O.failures out.old) (O.failures out.new)
        → ¬ Rose (E.faults err.old) (E.faults err.new)
        → ¬ Rose (E.starved err.old) (E.starved err.new)
        → Appends (E.written err.old) (E.written err.new) told.now.taken }
{
    if out.hand_on().is_err() {
        return WRITE_FAULT;
    }
    tell(err, told.bytes());
    if told.starved() == 0 {
        number
    } else {
        NO_MEMORY
    }
}
