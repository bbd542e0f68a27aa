// The fields that a plan asks for.
ghost use Rattle.std.specs.Prelude.{◌≡◌, ◌==◌, ℕ, not, length, true, false, IfOk, []};
ghost use Rattle.std.specs.List.{list_any};
ghost use Rattle.cap_stats.specs.Laws.{fields_of as table_fields};
ghost use Rattle.pk_fields.specs.Fields.{row_of};
ghost use Rattle.pk_fields.specs.FieldSets.{is_in};
ghost use Rattle.pk_tree.specs.Values.{is_proto};
ghost use Rattle.second_pass.specs.Laws.{link_fields};
ghost use Rattle.dissect.specs.Stands.{StandsWithin};
ghost use Rattle.run_frames.specs.Accessors.{is_of_streams, needs_streams as are_streams_needed, reports_of, rules_of, two_of};
ghost use Rattle.run_frames.specs.Tables.{asks_table};
ghost use Rattle.run_frames.specs.Wanted.{AreToldByValues, HasAsked, HasFields, HasPlan, HasTables, IsEnough, ServesPlan, asks_protocols, asks_trees, shows_whole, summary_fields, sums_up as are_summed_up};
ghost use Rattle.dissect.specs.Followed.{asks_streams};
ghost use Rattle.run_output.specs.Wanted.{HasProtocols};

use cap_stats::StatKind;
use dissect::Dissector;
use flt_typing::add_fields;
use pk_base::NoMemory;
use pk_fields::ids::FIELD_COUNT;
use pk_fields::{FieldId, FieldSet, ValueKind, field_of, ids, kind};
use run_frames::{Compiled, Plan, asks_table, new_dissector, new_value_dissector};
use shark_words::{LineKind, Report};
use std::alloc::Global;

/// The fields that the output is made from: all for lines of JSON, else those of the filter, of the lines and of the tables, the
/// protocols of all layers where lines or tables name these, what tells of streams where something behind the lines is told by
/// them, and the fields of links where the frames are read twice.
#[tactic(auto, using(crate::proofs::EnoughLemmas::enough_all, crate::proofs::EnoughLemmas::enough_followed, crate::proofs::EnoughLemmas::values_enough))]
pub fn needed_fields(plan: &Plan) -> FieldSet
    ensures { IsEnough result plan.now }
{
    if shows_trees(plan) {
        return FieldSet::all();
    }
    if needs_trees(plan) {
        return followed_fields(plan);
    }
    valued_fields(plan)
}

/// A dissector for these fields; where their values tell all, it keeps no more than these need.
#[tactic(auto, using(run_frames::proofs::WantedLemmas::serves_trees, run_frames::proofs::WantedLemmas::serves_values, crate::proofs::EnoughLemmas::values_enough))]
pub fn needed_dissector(alloc: Global, plan: &Plan) -> Result<Dissector, NoMemory>
    ensures serves { IfOk result (λ dissector. ServesPlan dissector plan.now) }
    ensures stands { IfOk result (λ dissector. StandsWithin [] dissector) }
    ensures rules { IfOk result (λ dissector. dissector.decode.rules ≡ rules_of plan.now) }
    ensures taken { IfOk result (λ dissector. dissector.taken ≡ 0) }
    ensures captured { IfOk result (λ dissector. dissector.captured ≡ 0) }
{
    if shows_trees(plan) || needs_trees(plan) {
        return new_dissector(alloc, plan, needed_fields(plan));
    }
    new_value_dissector(alloc, plan, valued_fields(plan))
}

// The fields whose values the output is made from, where these are all that is needed.
#[tactic(auto, using(crate::proofs::EnoughLemmas::values_none, crate::proofs::EnoughLemmas::values_plain))]
fn valued_fields(plan: &Plan) -> FieldSet
    requires unshown { shows_whole plan.now ≡ false }
    requires values { asks_trees plan.now ≡ false }
    ensures { AreToldByValues result plan.now }
{
    if plan.quiet && !plan.stats && plan.written.is_none() && !has_reports(plan) {
        return FieldSet::none();
    }
    named_fields(plan)
}

// Whether anything is reported behind the lines.
fn has_reports(plan: &Plan) -> bool
    ensures { result ≡ not (length (reports_of plan.now) == 0) }
{
    !plan.reports.slice().is_empty()
}

// The fields of a plan and of its tables.
fn tabled_fields(plan: &Plan) -> FieldSet
    ensures plan { HasPlan result plan.now }
    ensures tables { HasTables result plan.now }
{
    let mut wanted = wanted_fields(plan);
    add_tables(plan, &mut wanted);
    wanted
}

// The same, and all protocols where the names of layers' protocols are told.
fn named_fields(plan: &Plan) -> FieldSet
    ensures plan { HasPlan result plan.now }
    ensures tables { HasTables result plan.now }
    ensures named { asks_protocols plan.now ≡ true → HasProtocols result }
{
    let mut wanted = tabled_fields(plan);
    add_protocols(plan, &mut wanted);
    wanted
}

// All protocols, where lines or a table name those of layers.
fn add_protocols(plan: &Plan, wanted: &mut FieldSet)
    ensures named { asks_protocols plan.now ≡ true → HasProtocols wanted.new }
    ensures kept { (f : ℕ) → is_in wanted.old f ≡ true → is_in wanted.new f ≡ true }
{
    if names_protocols(plan) {
        add_every_protocol(wanted);
    }
}

// Each row of the table of fields that is a protocol.
fn add_every_protocol(wanted: &mut FieldSet)
    ensures all { HasProtocols wanted.new }
    ensures kept { (f : ℕ) → is_in wanted.old f ≡ true → is_in wanted.new f ≡ true }
{
    for number in 0..FIELD_COUNT {
        add_protocol(field_of(number), wanted);
    }
}

// A field, where it is a protocol.
fn add_protocol(field: FieldId, wanted: &mut FieldSet)
    ensures protocol { is_proto (row_of field).kind ≡ true → is_in wanted.new field ≡ true }
    ensures kept { (f : ℕ) → is_in wanted.old f ≡ true → is_in wanted.new f ≡ true }
{
    if matches!(kind(field), ValueKind::Proto) {
        wanted.add(field);
    }
}

fn names_protocols(plan: &Plan) -> bool
    ensures { result ≡ asks_protocols plan.now }
{
    sums_up(plan) || asks_table(plan, StatKind::Phs)
}

// Whether something is told by more than trees that are made for the values of the wanted fields.
fn needs_trees(plan: &Plan) -> bool
    ensures { result ≡ asks_trees plan.now }
{
    plan.two || needs_streams(plan)
}

// Whether whole trees are shown.
fn shows_trees(plan: &Plan) -> bool
    ensures { result ≡ shows_whole plan.now }
{
    if plan.written.is_some() || plan.source.is_generated() || plan.quiet {
        return false;
    }
    match plan.kind {
        LineKind::Json => true,
        LineKind::Text | LineKind::Fields => false,
    }
}

// Whether frames are summed up.
fn sums_up(plan: &Plan) -> bool
    ensures { result ≡ are_summed_up plan.now }
{
    if plan.written.is_some() || plan.source.is_generated() || plan.quiet {
        return false;
    }
    match plan.kind {
        LineKind::Text => true,
        LineKind::Json | LineKind::Fields => false,
    }
}

// Whether something behind the lines is told by streams of TCP.
fn needs_streams(plan: &Plan) -> bool
    ensures { result ≡ are_streams_needed plan.now }
{
    plan.source.is_generated() || reports_streams(plan)
}

// Whether one of the reports is.
fn reports_streams(plan: &Plan) -> bool
    ensures { result ≡ list_any is_of_streams (reports_of plan.now) }
{
    plan.reports
        .slice()
        .iter()
        .any(|report| is_of_streams(*report))
}

fn is_of_streams(report: Report) -> bool
    ensures { result ≡ is_of_streams report }
{
    match report {
        Report::Follow(_) => true,
        Report::Table(StatKind::ConvTcp | StatKind::ConvIp | StatKind::Phs) => false,
    }
}

/// The fields of a plan and of its tables, one of the streams of TCP, and those of links where the frames are read twice.
fn followed_fields(plan: &Plan) -> FieldSet
    ensures plan { HasPlan result plan.now }
    ensures tables { HasTables result plan.now }
    ensures streams { asks_streams result ≡ true }
    ensures links { two_of plan.now ≡ true → HasFields result link_fields }
{
    let mut wanted = tabled_fields(plan);
    add_links(plan, &mut wanted);
    wanted.add(ids::TCP_STREAM);
    wanted
}

fn add_tables(plan: &Plan, wanted: &mut FieldSet)
    ensures tables { HasTables wanted.new plan.now }
    ensures kept { (f : ℕ) → is_in wanted.old f ≡ true → is_in wanted.new f ≡ true }
{
    add_table(plan, StatKind::ConvTcp, wanted);
    add_table(plan, StatKind::ConvIp, wanted);
    add_table(plan, StatKind::Phs, wanted);
}

// The fields of the table of a kind, where it is asked for.
fn add_table(plan: &Plan, kind: StatKind, wanted: &mut FieldSet)
    ensures fields { asks_table plan.now kind ≡ true → HasFields wanted.new (table_fields kind) }
    ensures kept { (f : ℕ) → is_in wanted.old f ≡ true → is_in wanted.new f ≡ true }
{
    if asks_table(plan, kind) {
        cap_stats::add_fields(kind, wanted);
    }
}

// The fields of links, where the frames are read twice.
fn add_links(plan: &Plan, wanted: &mut FieldSet)
    ensures fields { two_of plan.now ≡ true → HasFields wanted.new link_fields }
    ensures kept { (f : ℕ) → is_in wanted.old f ≡ true → is_in wanted.new f ≡ true }
{
    if plan.two {
        second_pass::add_fields(wanted);
    }
}

/// The fields of a plan's filter and its program, of its columns, and of the lines that sum up frames.
fn wanted_fields(plan: &Plan) -> FieldSet
    ensures { HasPlan result plan.now }
{
    let mut wanted = FieldSet::none();
    add_filter(&plan.chosen, &mut wanted);
    add_columns(plan.fields.slice(), &mut wanted);
    add_summary(plan, &mut wanted);
    wanted
}

// The fields of the lines that sum up frames, where these are written.
fn add_summary(plan: &Plan, wanted: &mut FieldSet)
    ensures summary { are_summed_up plan.now ≡ true → HasFields wanted.new summary_fields }
    ensures kept { (f : ℕ) → is_in wanted.old f ≡ true → is_in wanted.new f ≡ true }
{
    if sums_up(plan) {
        add_columns(
            &[
                ids::FRAME_NUMBER,
                ids::FRAME_TIME_RELATIVE,
                ids::FRAME_LEN,
                ids::ETH_SRC,
                ids::ETH_DST,
                ids::IP_SRC,
                ids::IP_DST,
                ids::IPV6_SRC,
                ids::IPV6_DST,
            ],
            wanted,
        );
    }
}

// The fields of a filter and of its program.
fn add_filter(chosen: &Option<Compiled>, wanted: &mut FieldSet)
    ensures { HasAsked wanted.new chosen.now }
{
    match chosen {
        Some(compiled) => {
            add_fields(compiled.filter(), wanted);
            compiled.program().add_fields(wanted);
        }
        None => {}
    }
}

fn add_columns(fields: &[FieldId], wanted: &mut FieldSet)
    ensures all { HasFields wanted.new fields.now }
    ensures kept { (f : ℕ) → is_in wanted.old f ≡ true → is_in wanted.new f ≡ true }
{
    for field in fields {
        wanted.add(*field);
    }
}
