// A run of the machine.
ghost use Rattle.std.specs.Prelude.{◌≡◌, ◌<◌, ◌≤◌, IfOk, IfSome, IsSome, Bool as Truth, false, ℕ, length};
ghost use Rattle.flt_vm.specs.Machine.{step as step_of};
ghost use Rattle.flt_vm.specs.Possible.{HasRun, IsVerdict};
ghost use Rattle.flt_program.specs.Programs.{IsProgram};
ghost use Rattle.flt_vm.specs.Slots.{IsThere, state_in};
ghost use Rattle.flt_vm.specs.Turns.{IsAhead, IsMade, IsTurn};
ghost use Rattle.flt_vm.specs.declared.slots.Flag.TheVariants.{Known};

use crate::given::is_given;
use crate::joined::test_at;
use crate::slots::{Flag, Slot, known};
use crate::step::{is_return, step};
use flt_program::Instr;
use flt_typed::Search;
use pk_base::NoMemory;
use pk_source::Source;
use std::alloc::Global;

/// What a run answers: the flag at its end, and how many steps it has.
#[derive(Clone, Copy)]
pub struct Verdict {
    pub holds: bool,
    pub steps: u32,
}

/// Runs instructions from the first up to RETURN. Where it is asked to look whether each instruction finds what it takes, the
/// run ends at one that doesn't, with no answer.
pub(crate) fn run_code<'p>(
    alloc: Global,
    code: &'p [Instr],
    slots: &mut [Slot<'p>],
    searches: &mut [Search<'p>],
    source: &Source<'_>,
    looks: bool,
) -> Result<Option<Verdict>, NoMemory>
    requires program { IsProgram (record { registers = length slots.old; items = code.now }) }
    requires run { looks ≡ false
        → HasRun (record { code = code.now; patterns = searches.old; tree = source.now })
        (state_in source.now 0 (Known false) slots.old) }
    ensures verdict { IfOk result (λ answer. IfSome answer (λ v.
        IsVerdict (record { code = code.now; patterns = searches.old; tree = source.now })
        (state_in source.now 0 (Known false) slots.old) v)) }
    ensures few { IfOk result (λ answer. IfSome answer (λ v. v.steps ≤ length code.now)) }
    ensures some { IfOk result (λ answer. IfSome answer (λ v. 1 ≤ v.steps)) }
    ensures answers { HasRun (record { code = code.now; patterns = searches.old; tree = source.now })
        (state_in source.now 0 (Known false) slots.old) → IfOk result (λ answer. IsSome answer) }
    ensures count { length slots.new ≡ length slots.old }
    ensures searches { searches.new ≡ searches.old }
{
    let mut flag = Flag::Known(false);
    let mut at = 0;
    let mut steps = 0;
    'steps: loop {
        let taken = test_at(alloc, code, at, slots, &mut flag, source)?;
        at += taken as usize;
        steps += taken;
        let turn = turn_at(alloc, looks, code, at, slots, &mut flag, searches, source)?;
        match turn {
            Turn::Goes(place) => {
                at = place;
                steps += 1;
            }
            Turn::Ends(holds) => {
                return Ok(Some(Verdict {
                    holds,
                    steps: steps + 1,
                }));
            }
            Turn::Stuck => return Ok(None),
        }
    }
}

/// What the instruction at a place comes to.
#[derive(Clone, Copy)]
pub(crate) enum Turn {
    /// The run goes on at another place.
    Goes(usize),
    /// It ends with the flag.
    Ends(bool),
    /// What the instruction takes isn't there.
    Stuck,
}

/// Takes the instruction at a place, which may have to be looked at first.
fn turn_at<'p>(
    alloc: Global,
    looks: bool,
    code: &'p [Instr],
    at: usize,
    slots: &mut [Slot<'p>],
    flag: &mut Flag<'p>,
    searches: &mut [Search<'p>],
    source: &Source<'_>,
) -> Result<Turn, NoMemory>
    requires program { IsProgram (record { registers = length slots.old; items = code.now }) }
    requires inside { at < length code.now }
    requires there { looks ≡ false
        → IsThere (step_of (record { code = code.now; patterns = searches.old; tree = source.now })
        (state_in source.now at flag.old slots.old)) }
    ensures turned { IfOk result (IsTurn
        (step_of (record { code = code.now; patterns = searches.old; tree = source.now })
        (state_in source.now at flag.old slots.old))
        (λ place. state_in source.now place flag.new slots.new)) }
    ensures ahead { IfOk result (IsAhead at (length code.now)) }
    ensures made { IsThere (step_of (record { code = code.now; patterns = searches.old; tree = source.now })
        (state_in source.now at flag.old slots.old)) → IfOk result IsMade }
    ensures count { length slots.new ≡ length slots.old }
    ensures searches { searches.new ≡ searches.old }
{
    let instr = &code[at];
    if is_return(instr) {
        return Ok(Turn::Ends(known(flag, source)));
    }
    if !is_given(alloc, looks, instr, slots, searches.len(), source)? {
        return Ok(Turn::Stuck);
    }
    let place = step(alloc, instr, at, code.len(), slots, flag, searches, source)?;
    Ok(Turn::Goes(place))
}
