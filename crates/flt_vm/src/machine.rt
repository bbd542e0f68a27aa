// The machine over many trees, or what answers for them.
ghost use Rattle.std.specs.Prelude.{◌≡◌, ◌≤◌, ◌++◌, [], ◌∷◌, false, IfOk, IfSome, IsSome, OnOk, Bool as Truth, ℕ, Some, length};
ghost use Rattle.flt_vm.specs.Machine.{Runs, start};
ghost use Rattle.flt_vm.specs.Possible.{CanRun, IsAnswer};
ghost use Rattle.flt_program.specs.Programs.{patterns_of};
ghost use Rattle.flt_vm.specs.Programs.{FitsFilter, Ready, RunsOn};
ghost use Rattle.flt_program.specs.Sources.{sources_of};
ghost use Rattle.flt_vm.specs.Verdicts.{verdict_of};
ghost use Rattle.flt_typed.specs.declared.typed.Typed.{Typed as TypedValue};

use crate::run::{Verdict, run_code};
use crate::slots::{Slot, let_go, unset};
use flt_program::{Program, patterns_in};
use flt_typed::{Pattern, Search, Typed};
use flt_typing::Filter;
use pk_base::NoMemory;
use pk_source::Source;
use pk_tree::Tree;
use std::alloc::Global;
use std::marker::Model;

/// A program that is run on one tree after the other. It keeps the registers' memory, and what its searches for patterns
/// found out.
pub struct Machine<'p> {
    program: &'p Program,
    slots: Vec<Slot<'p>>,
    searches: Vec<Search<'p>>,
    alloc: Global,
}

// Contracts see a machine as its program, and the patterns that it searches for.
impl<'p> Model for Machine<'p> {
    ghost use Rattle.std.specs.Prelude.{◌≡◌, length};
    ghost use Rattle.flt_vm.specs.Programs.{Ready};

    ghost Value = { Ready };

    ghost view = { λ m. record { code = m.program.now; patterns = m.searches.items } };

    ghost invariant = { λ m. length m.slots.items ≡ m.program.now.registers };
}

// The destructor is written out here, and not wherever a machine is dropped.
impl Drop for Machine<'_> {
    fn drop(self) {
        let Machine {
            program: _,
            slots: _slots,
            searches: _searches,
            alloc: _,
        } = self;
    }
}

impl<'p> Machine<'p> {
    /// A machine for a program and the patterns of its filter.
    pub fn new(
        alloc: Global,
        program: &'p Program,
        filter: &'p Filter,
    ) -> Result<Machine<'p>, NoMemory>
        ensures { IfOk result (λ m.
            m ≡ record { code = program.now; patterns = patterns_of filter.now }) }
    {
        let searches = searches_for(alloc, filter.root())?;
        let slots = all_unset(alloc, program.registers())?;
        Ok(Machine {
            program,
            slots,
            searches,
            alloc,
        })
    }

    /// Runs the program on a tree, on which it has a run: a program that fits its filter has one on each.
    pub fn run(&mut self, tree: &Tree) -> Result<Verdict, NoMemory>
        requires { CanRun self.old tree.now }
        ensures verdict { IfOk result (λ v. (steps : ℕ) (flag : Truth)
            → Runs (record {
              code = self.old.code.items;
              patterns = self.old.patterns;
              tree = tree.now;
            }) steps (start self.old.code.registers) flag
            → (v.steps ≡ steps) × (v.holds ≡ flag)) }
        ensures exact { (filter : TypedValue) → self.old.patterns ≡ patterns_of filter
            → FitsFilter self.old.code filter
            → IfOk result (λ v. verdict_of self.old.code filter tree.now ≡ Some v) }
        ensures few { IfOk result (λ v. v.steps ≤ length self.old.code.items) }
        ensures some { IfOk result (λ v. 1 ≤ v.steps) }
        ensures same { self.new ≡ self.old }
    {
        self.run_source(&Source::of_tree(tree))
    }

    /// The same of whatever answers for a tree's values.
    pub fn run_source(&mut self, source: &Source<'_>) -> Result<Verdict, NoMemory>
        requires { CanRun self.old source.now }
        ensures verdict { IfOk result (λ v. (steps : ℕ) (flag : Truth)
            → Runs (record {
              code = self.old.code.items;
              patterns = self.old.patterns;
              tree = source.now;
            }) steps (start self.old.code.registers) flag
            → (v.steps ≡ steps) × (v.holds ≡ flag)) }
        ensures exact { (filter : TypedValue) → self.old.patterns ≡ patterns_of filter
            → FitsFilter self.old.code filter
            → IfOk result (λ v. verdict_of self.old.code filter source.now ≡ Some v) }
        ensures few { IfOk result (λ v. v.steps ≤ length self.old.code.items) }
        ensures some { IfOk result (λ v. 1 ≤ v.steps) }
        ensures same { self.new ≡ self.old }
    {
        // What is true of each tree.
        let _lender = source.lender();
        match self.answer(source, false)? {
            Some(verdict) => Ok(verdict),
            None => unreachable!(),
        }
    }

    /// Runs the program on a tree, where it isn't known that it has a run. It answers nothing where an instruction doesn't find
    /// what it takes: a register that is set, a truth that is kept, a pattern. Where there is a run it finds all of that.
    pub fn try_run(&mut self, tree: &Tree) -> Result<Option<Verdict>, NoMemory>
        ensures verdict { IfOk result (λ answer. IfSome answer (λ v. IsAnswer self.old tree.now v)) }
        ensures few { IfOk result (λ answer.
            IfSome answer (λ v. v.steps ≤ length self.old.code.items)) }
        ensures some { CanRun self.old tree.now → IfOk result (λ answer. IsSome answer) }
        ensures same { self.new ≡ self.old }
    {
        self.answer(&Source::of_tree(tree), true)
    }

    /// What the program answers of a tree. Where it isn't known that it has a run, each instruction is looked at.
    fn answer(&mut self, source: &Source<'_>, looks: bool) -> Result<Option<Verdict>, NoMemory>
        requires { looks ≡ false → CanRun self.old source.now }
        ensures verdict { IfOk result (λ answer. IfSome answer (λ v. IsAnswer self.old source.now v)) }
        ensures few { IfOk result (λ answer.
            IfSome answer (λ v. v.steps ≤ length self.old.code.items)) }
        ensures some { IfOk result (λ answer. IfSome answer (λ v. 1 ≤ v.steps)) }
        ensures answers { CanRun self.old source.now → IfOk result (λ answer. IsSome answer) }
        ensures same { self.new ≡ self.old }
    {
        let slots = self.slots.as_mut_slice();
        unset(slots);
        run_code(
            self.alloc,
            self.program.code(),
            slots,
            &mut self.searches,
            source,
            looks,
        )
    }
}

/// Runs a program on a tree.
pub fn run_program(
    alloc: Global,
    program: &Program,
    filter: &Filter,
    tree: &Tree,
) -> Result<Verdict, NoMemory>
    requires { FitsFilter program.now filter.now }
    ensures run { IfOk result (λ v. RunsOn program.now filter.now tree.now v.steps v.holds) }
    ensures exact { IfOk result (λ v. verdict_of program.now filter.now tree.now ≡ Some v) }
    ensures few { IfOk result (λ v. v.steps ≤ length program.now.items) }
    ensures some { IfOk result (λ v. 1 ≤ v.steps) }
{
    // What is true of each tree.
    let _layers = tree.layers();
    let mut machine = Machine::new(alloc, program, filter)?;
    machine.run(tree)
}

/// As many registers, none of them set.
fn all_unset<'p>(alloc: Global, count: usize) -> Result<Vec<Slot<'p>>, NoMemory>
    ensures { IfOk result (λ slots. length slots.items ≡ count) }
{
    let mut slots = Vec::new(alloc);
    'slots: while slots.len() < count {
        slots.push(Slot::Unset)?;
    }
    Ok(slots)
}

/// A search for each of a filter's patterns, in its order.
fn searches_for<'f>(alloc: Global, filter: &'f Typed) -> Result<Vec<Search<'f>>, NoMemory>
    ensures { IfOk result (λ searches. searches.items ≡ patterns_of filter.now) }
{
    let patterns = patterns_in(alloc, filter)?;
    let searches = searches_of(alloc, &patterns);
    let_go(patterns);
    searches
}

/// A search for each of some patterns.
fn searches_of<'f>(alloc: Global, patterns: &[&'f Pattern]) -> Result<Vec<Search<'f>>, NoMemory>
    ensures { IfOk result (λ searches. searches.items ≡ sources_of patterns.now) }
{
    let mut searches = Vec::new(alloc);
    for pattern in patterns {
        push_search(alloc, &mut searches, pattern)?;
    }
    Ok(searches)
}

fn push_search<'f>(
    alloc: Global,
    searches: &mut Vec<Search<'f>>,
    pattern: &'f Pattern,
) -> Result<(), NoMemory>
    ensures { OnOk result (searches.new.items ≡ searches.old.items ++ pattern.now ∷ []) }
{
    let search = pattern.search(alloc)?;
    Ok(searches.push(search)?)
}
