ghost use Rattle.std.specs.Prelude.{◌≡◌, ◌==◌, ◌&&◌, ℕ, true, false, List, [], ◌∷◌, ◌++◌, ◌+◌, ◌<◌, ◌^◌, map, if◌then◌else◌, IfOk, OnOk, IsTrue};
ghost use Rattle.pk_fields.specs.Fields.{row_of};
ghost use Rattle.pk_fields.specs.FieldSets.{is_in};
ghost use Rattle.pk_tree.specs.Layouts.{fitted, reach_after, step_reach};
ghost use Rattle.pk_base.specs.declared.value.Value.TheVariants as values;
ghost use Rattle.pk_tree.specs.declared.layout.Step.TheVariants as steps_of_layers;
ghost use Rattle.dis_dns.specs.Collected.{IsTaken, Took, is_plain, no_steps, shows};

use pk_base::{NoMemory, Octets, Value};
use pk_fields::{FieldId, size};
use pk_tree::{Reach, Step, TreeBuilder};
use std::marker::Model;

/// How many steps a message has room for from the start: a header, a question and some records.
const FEW_STEPS: usize = 64;

/// The steps of a layer, taken one by one. Where no field of the layer's protocol is wanted, none is kept, but how far they
/// are read. Whether there was memory for all of them is told at the end.
#[derive(Drop)]
pub(crate) struct Steps<'a> {
    tree: &'a TreeBuilder,
    keeps: bool,
    end: usize,
    list: Vec<Step>,
    reach: Reach,
    /// Whether there was no memory for a step.
    spent: bool,
}

/// What was taken.
#[derive(Drop)]
pub(crate) enum Taken {
    /// The steps.
    List(Vec<Step>),
    /// How far they are read.
    Reach(Reach),
}

impl<'a> Model for Steps<'a> {
    ghost use Rattle.dis_dns.specs.Collected.{StepsShown};

    ghost Value = { StepsShown };

    ghost view = { λ s. record {
      wanted = s.tree.now.wanted;
      keeps = s.keeps;
      end = s.end;
      list = s.list.items;
      reach = s.reach;
      spent = s.spent;
    } };
}

impl<'a> Steps<'a> {
    /// No steps, of a layer of so many bytes.
    pub(crate) fn new(
        tree: &'a TreeBuilder,
        protocol: FieldId,
        end: usize,
    ) -> Result<Steps<'a>, NoMemory>
        ensures steps { IfOk result (λ s. s ≡ no_steps tree.now.wanted s.keeps end) }
        ensures none { IfOk result (λ s. s.keeps ≡ false → (f : ℕ) → (row_of f).proto ≡ protocol
            → is_in tree.now.wanted f ≡ false) }
    {
        let keeps = tree.asks(protocol);
        let room = if keeps { FEW_STEPS } else { 0 };
        let list = Vec::with_capacity(tree.alloc(), room)?;
        Ok(Steps {
            tree,
            keeps,
            end,
            list,
            reach: Reach::All,
            spent: false,
        })
    }

    /// Whether the text of a name that is a field's is kept.
    pub(crate) fn shows(&self, field: FieldId) -> bool
        ensures { result ≡ shows self.now field }
    {
        self.keeps && self.tree.wants(field)
    }

    /// Takes a step other than a name.
    #[tactic(auto, using(crate::proofs::CollectedLemmas::plain_shown), unfolding(crate::specs::Collected::with_step, crate::specs::Collected::with_steps))]
    pub(crate) fn push(&mut self, step: Step)
        requires plain { IsTrue (is_plain step) }
        ensures { Took self.old self.new (step ∷ []) }
    {
        if self.keeps {
            self.keep(step)
        } else {
            self.reach = passed(self.reach, self.end, step);
        }
    }

    /// Takes the step of a name at a place of the layer. Its text counts only where it is kept.
    #[tactic(auto, unfolding(crate::specs::Collected::with_step, crate::specs::Collected::with_steps, pk_tree::specs::Layouts::step_reach))]
    pub(crate) fn push_name(&mut self, field: FieldId, text: Octets, at: usize, len: usize)
        requires none { shows self.old field ≡ false → text ≡ [] }
        ensures { (whole : List ℕ) → (shows self.old field ≡ true → text ≡ whole)
            → Took self.old self.new
            (steps_of_layers.Derived field (values.Text whole) at len ∷ []) }
    {
        let step = Step::Derived(field, Value::Text(text), at, len);
        if self.keeps {
            self.keep(step)
        } else {
            self.reach = passed(self.reach, self.end, step);
        }
    }

    /// Keeps a step as it is.
    fn keep(&mut self, step: Step)
        ensures { self.new.spent ≡ false
            → self.new ≡ record self.old { list = self.old.list ++ step ∷ [] } }
    {
        if self.list.push(step).is_err() {
            self.spent = true;
        }
    }

    /// Takes no more, since there is no memory for it.
    pub(crate) fn give_up(&mut self)
        ensures { self.new.spent ≡ true }
    {
        self.spent = true;
    }

    /// What was taken in all.
    pub(crate) fn finish(self) -> Result<Taken, NoMemory>
        ensures { IfOk result (λ taken. (self.entry.spent ≡ false) × IsTaken self.entry taken) }
    {
        if self.spent {
            Err(NoMemory)
        } else if self.keeps {
            Ok(Taken::List(self.list))
        } else {
            Ok(Taken::Reach(self.reach))
        }
    }
}

/// Takes rows, each a field and how many bytes behind a place it stands.
pub(crate) fn push_rows(steps: &mut Steps, place: usize, rows: &[(FieldId, u8)])
    requires { place < 2 ^ 35 }
    ensures { Took steps.old steps.new
        (map (λ row. steps_of_layers.Row row.0 (place + row.1)) rows.now) }
{
    for row in rows {
        steps.push(Step::Row(row.0, place + usize::from(row.1)));
    }
}

/// How far a layer of so many bytes is read behind one more step, which is not kept.
fn passed(reach: Reach, end: usize, step: Step) -> Reach
    ensures { result ≡ reach_after reach (step_reach end step) }
{
    reach_after(reach, step_reach(end, &step))
}

/// How far a step lets reading go on in a layer of so many bytes.
#[tactic(auto, unfolding(pk_tree::specs::Layouts::step_reach))]
fn step_reach(end: usize, step: &Step) -> Reach
    ensures { result ≡ step_reach end step.now }
{
    match step {
        Step::Row(field, at) => fitted(end, *at, size(*field)),
        Step::Part(_, at, len) => some_fitted(end, *at, *len),
        Step::Whole(_, at, len) => fitted(end, *at, *len),
        Step::Derived(_, _, at, len) => fitted(end, *at, *len),
        Step::Made(_, _) => Reach::All,
        Step::Check(holds) => { if *holds { Reach::All } else { Reach::Failed } }
        Step::Room(room) => { if *room { Reach::All } else { Reach::Short } }
    }
}

/// Bytes that fit where they end inside the layer.
fn fitted(end: usize, at: usize, len: usize) -> Reach
    ensures { result ≡ fitted end at len }
{
    if len <= end && at <= end - len {
        Reach::All
    } else {
        Reach::Short
    }
}

/// The same, where none always fit.
fn some_fitted(end: usize, at: usize, len: usize) -> Reach
    ensures { result ≡ (if len == 0 then Reach.All else fitted end at len) }
{
    if len == 0 {
        Reach::All
    } else {
        fitted(end, at, len)
    }
}

fn reach_after(first: Reach, second: Reach) -> Reach
    ensures { result ≡ reach_after first second }
{
    match first {
        Reach::All => second,
        Reach::Short => Reach::Short,
        Reach::Failed => Reach::Failed,
    }
}
