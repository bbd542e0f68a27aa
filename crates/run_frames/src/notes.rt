// What is noted of frames beside their lines.
ghost use Rattle.std.specs.Prelude.{◌≡◌, ◌≤◌, ◌+◌, ◌*◌, ◌^◌, ℕ, suc, false, [], OnOk};
ghost use Rattle.run_frames.specs.Accessors.{compiled_of, is_generated, stats_of};
ghost use Rattle.run_frames.specs.Totals.{steps_told, AreFew, counts_by, nothing_counted};
ghost use Rattle.run_frames.specs.Job.{Passes, job_in};
ghost use Rattle.run_frames.specs.Notes.{AreFewNotes, AreNotes, AreOneMore, HasNoted};
ghost use Rattle.run_frames.specs.Satisfied.{judged};
ghost use Rattle.run_frames.specs.Tables.{asks_tables};

use crate::plan::Plan;
use crate::tables::{Tables, has_tables};
use crate::totals::Totals;
use flt_vm::Verdict;
use pk_base::NoMemory;
use pk_source::Source;
use std::alloc::Global;

/// What is noted of the frames that were taken, for what stands behind their lines.
pub struct Notes {
    pub totals: Totals,
    pub tables: Tables,
}

impl Drop for Notes {
    fn drop(self) {
        let Notes {
            totals: _,
            tables: _tables,
        } = self;
    }
}

impl Notes {
    #[tactic(auto, using(crate::proofs::NoteLemmas::notes_few_begun))]
    pub(crate) fn new(alloc: Global, plan: &Plan) -> Notes
        ensures totals { result.totals ≡ nothing_counted }
        ensures notes { (passes : Passes) → AreNotes (job_in plan.now passes) [] result }
        ensures few { AreFewNotes 0 result }
    {
        Notes {
            totals: Totals::none(),
            tables: Tables::new(alloc, plan),
        }
    }

    /// One tree more, of which the filter's program answers this.
    pub(crate) fn note(
        &mut self,
        plan: &Plan,
        source: &Source<'_>,
        verdict: Verdict,
    ) -> Result<(), NoMemory>
        requires few { AreFewNotes (2 ^ 28) self.old }
        requires verdict { verdict ≡ judged (compiled_of plan.now) source.now }
        ensures noted { OnOk result (HasNoted plan.now source.now self.old self.new) }
        ensures few { AreOneMore self.old self.new }
    {
        self.totals = totals_after(plan, source, verdict, self.totals);
        if verdict.holds {
            self.tables.note(source)
        } else {
            Ok(())
        }
    }
}

/// Whether what stands behind the lines asks for notes of trees.
pub(crate) fn asks_notes(plan: &Plan) -> bool
    ensures file { result ≡ false → is_generated plan.now ≡ false }
    ensures stats { result ≡ false → stats_of plan.now ≡ false }
    ensures tables { result ≡ false → asks_tables plan.now ≡ false }
{
    plan.source.is_generated() || plan.stats || has_tables(plan)
}

/// Notes one tree more, where that is asked for.
#[tactic(auto, using(crate::proofs::NoteLemmas::noted_nothing, crate::proofs::NoteLemmas::one_more_same))]
pub(crate) fn note_tree(
    plan: &Plan,
    source: &Source<'_>,
    verdict: Verdict,
    notes: &mut Notes,
) -> Result<(), NoMemory>
    requires few { AreFewNotes (2 ^ 28) notes.old }
    requires verdict { verdict ≡ judged (compiled_of plan.now) source.now }
    ensures noted { OnOk result (HasNoted plan.now source.now notes.old notes.new) }
    ensures few { AreOneMore notes.old notes.new }
{
    if asks_notes(plan) {
        notes.note(plan, source, verdict)
    } else {
        Ok(())
    }
}

// The totals with one tree more, where they are counted.
#[tactic(auto, using(crate::proofs::TotalsLemmas::few_suc))]
fn totals_after(plan: &Plan, source: &Source<'_>, verdict: Verdict, totals: Totals) -> Totals
    requires { AreFew (2 ^ 28) totals }
    ensures value { result ≡ counts_by plan.now verdict source.now totals }
    ensures few { (most : ℕ) → AreFew most totals → AreFew (suc most) result }
{
    let steps = steps_after(plan, verdict, totals.steps);
    if plan.source.is_generated() {
        Totals {
            steps,
            ..totals.with(source, verdict.holds)
        }
    } else {
        Totals { steps, ..totals }
    }
}

// The steps with those of one run more, where they are counted.
fn steps_after(plan: &Plan, verdict: Verdict, steps: u64) -> u64
    requires { steps ≤ 2 ^ 28 * 2 ^ 32 }
    ensures value { result ≡ steps + steps_told plan.now verdict }
    ensures few { (most : ℕ) → steps ≤ most * 2 ^ 32 → result ≤ suc most * 2 ^ 32 }
{
    if plan.stats {
        steps + u64::from(verdict.steps)
    } else {
        steps
    }
}
