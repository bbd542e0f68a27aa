// The tables of statistics behind the lines: what is noted for them of each frame that the filter lets through.
ghost use Rattle.std.specs.Prelude.{◌≡◌, ◌^◌, ℕ, suc, true, List, [], ◌∷◌, IfOk, OnOk};
ghost use Rattle.cap_stats.specs.Few.{HasFew};
ghost use Rattle.cap_stats.specs.Tables.{table_of};
ghost use Rattle.cap_stats.specs.declared.kind.StatKind.{StatKind as KindValue};
ghost use Rattle.pk_tree.specs.Trees.{TreeShown};
ghost use Rattle.run_frames.specs.Tables.{AreFewTables, AreTables, IsTable, asks_table, asks_tables, is_table_of};
ghost use Rattle.run_frames.specs.declared.plan.Plan.{Plan as PlanValue};

use crate::plan::Plan;
use cap_stats::{StatKind, Stats};
use pk_base::NoMemory;
use pk_source::Source;
use shark_words::Report;
use std::alloc::Global;

/// What is noted for the tables of a kind, where one is asked for.
pub(crate) struct Table {
    asked: bool,
    stats: Stats,
}

impl Drop for Table {
    fn drop(self) {
        let Table {
            asked: _,
            stats: _stats,
        } = self;
    }
}

impl Table {
    fn new(alloc: Global, plan: &Plan, kind: StatKind) -> Table
        ensures table { IsTable plan.now kind [] result }
        ensures few { HasFew 0 result.stats }
    {
        Table {
            asked: asks_table(plan, kind),
            stats: Stats::new(alloc, kind),
        }
    }

    /// Notes a tree.
    #[tactic(auto, using(crate::proofs::NoteLemmas::stats_few_suc))]
    fn note(&mut self, source: &Source<'_>) -> Result<(), NoMemory>
        requires { HasFew (2 ^ 28) self.old.stats }
        ensures noted { OnOk result ((plan : PlanValue) (kind : KindValue) (trees : List TreeShown)
            → IsTable plan kind trees self.old → IsTable plan kind (source.now ∷ trees) self.new) }
        ensures few { (most : ℕ) → HasFew most self.old.stats → HasFew (suc most) self.new.stats }
    {
        if !self.asked {
            return Ok(());
        }
        self.stats.note_source(source)
    }

    /// The table, where it is asked for.
    fn text(&self) -> Result<Vec<u8>, NoMemory>
        ensures { IfOk result (λ text. (plan : PlanValue) (kind : KindValue) (trees : List TreeShown)
            → IsTable plan kind trees self.now → asks_table plan kind ≡ true
            → text.items ≡ table_of kind trees) }
    {
        match self.stats.table() {
            Ok(text) => Ok(text),
            Err(error) => Err(error),
        }
    }
}

/// Whether a table of a kind is asked for.
pub fn asks_table(plan: &Plan, kind: StatKind) -> bool
    ensures { result ≡ asks_table plan.now kind }
{
    plan.reports
        .slice()
        .iter()
        .any(|report| is_table(*report, kind))
}

/// Whether any table is asked for.
pub(crate) fn has_tables(plan: &Plan) -> bool
    ensures { result ≡ asks_tables plan.now }
{
    if plan.reports.slice().is_empty() {
        return false;
    }
    asks_table(plan, StatKind::ConvTcp)
        || asks_table(plan, StatKind::ConvIp)
        || asks_table(plan, StatKind::Phs)
}

fn is_table(report: Report, kind: StatKind) -> bool
    ensures { result ≡ is_table_of kind report }
{
    match report {
        Report::Follow(_) => false,
        Report::Table(asked) => asked == kind,
    }
}

/// What is noted for tables, those of each kind by themselves.
pub struct Tables {
    pub(crate) conv_tcp: Table,
    pub(crate) conv_ip: Table,
    pub(crate) phs: Table,
}

impl Drop for Tables {
    fn drop(self) {
        let Tables {
            conv_tcp: _conv_tcp,
            conv_ip: _conv_ip,
            phs: _phs,
        } = self;
    }
}

impl Tables {
    pub(crate) fn new(alloc: Global, plan: &Plan) -> Tables
        ensures tables { AreTables plan.now [] result }
        ensures few { AreFewTables 0 result }
    {
        Tables {
            conv_tcp: Table::new(alloc, plan, StatKind::ConvTcp),
            conv_ip: Table::new(alloc, plan, StatKind::ConvIp),
            phs: Table::new(alloc, plan, StatKind::Phs),
        }
    }

    /// Notes a tree that the filter lets through.
    pub(crate) fn note(&mut self, source: &Source<'_>) -> Result<(), NoMemory>
        requires { AreFewTables (2 ^ 28) self.old }
        ensures noted { OnOk result ((plan : PlanValue) (trees : List TreeShown)
            → AreTables plan trees self.old → AreTables plan (source.now ∷ trees) self.new) }
        ensures few { (most : ℕ) → AreFewTables most self.old → AreFewTables (suc most) self.new }
    {
        self.conv_tcp.note(source)?;
        self.conv_ip.note(source)?;
        match self.phs.note(source) {
            Ok(()) => Ok(()),
            Err(error) => Err(error),
        }
    }

    /// The table of a kind that is asked for.
    pub fn text(&self, kind: StatKind) -> Result<Vec<u8>, NoMemory>
        ensures { IfOk result (λ text. (plan : PlanValue) (trees : List TreeShown)
            → AreTables plan trees self.now → asks_table plan kind ≡ true
            → text.items ≡ table_of kind trees) }
    {
        match self.of_kind(kind).text() {
            Ok(text) => Ok(text),
            Err(error) => Err(error),
        }
    }

    fn of_kind(&self, kind: StatKind) -> &Table
        ensures { (plan : PlanValue) (trees : List TreeShown) → AreTables plan trees self.now
            → IsTable plan kind trees result.now }
    {
        match kind {
            StatKind::ConvTcp => &self.conv_tcp,
            StatKind::ConvIp => &self.conv_ip,
            StatKind::Phs => &self.phs,
        }
    }
}
