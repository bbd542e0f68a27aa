// The plan that words ask for.
ghost use Rattle.std.specs.Prelude.{◌≡◌, Ok, Err, IfOk, IfErr, IfSome, All};
ghost use Rattle.std.specs.Str.{IsUtf8};
ghost use Rattle.flt_code.specs.Decides.{Agrees, Decides};
ghost use Rattle.shark_words.specs.Sound.{AreSound, HasFrames};
ghost use Rattle.shark_words.specs.Utf8.{AreUtf8, name_in};
ghost use Rattle.shark_words.specs.Words.{texts};
ghost use Rattle.run_words.specs.Columns.{field_or_refusal, fields_named, IsNameRefused};
ghost use Rattle.run_words.specs.Plan.{IsFilterAsked, IsPlan, IsPlanFor, IsRefusal, IsRefusalFor};
ghost use Rattle.run_words.specs.PlanErrors.{Gives, IsErrorOf, IsFilterError};
ghost use Rattle.run_frames.specs.Source.{source_in as source_asked};

use crate::owned::let_go;
use crate::refused::{PlanError, Refused};
use flt_code::compile;
use flt_syntax::FilterError;
use flt_types::read_filter;
use flt_typing::Filter;
use pk_base::{NoMemory, Octets};
use pk_fields::{FieldId, by_name};
use run_frames::{Compiled, FieldList, Generated, Plan, PlanRules, PlanSource, copy_rules};
use run_texts::Text;
use shark_words::{Options, ReportList, Source, WordsError, read_words};
use std::alloc::Global;
use std::str;

// The text of bytes that are one.
fn text_of(bytes: &Octets) -> &str
    requires { IsUtf8 bytes.now }
    ensures { result.now ≡ bytes.now }
{
    match str::from_utf8(bytes.bytes()) {
        Ok(text) => text,
        Err(_) => "",
    }
}

// The field of a name, or the refusal of the name.
fn find_field(name: &Octets) -> Result<FieldId, PlanError>
    requires { IsUtf8 name.now }
    ensures { Gives result (field_or_refusal name.now) }
{
    match by_name(text_of(name)) {
        Some(field) => Ok(field),
        None => Err(PlanError::Refused(Refused::Field(name.clone()?))),
    }
}

// The fields of the names.
fn find_fields(alloc: Global, names: &[Octets]) -> Result<FieldList, PlanError>
    requires { All IsUtf8 names.now }
    ensures { Gives result (fields_named names.now) }
{
    let mut fields = Vec::new(alloc);
    for name in names {
        fields.push(find_field(name)?)?;
    }
    Ok(FieldList::from_vec(fields))
}

// A filter with its program.
fn with_program(alloc: Global, filter: Filter) -> Result<Compiled, NoMemory>
    ensures filter { IfOk result (λ compiled. compiled.filter ≡ filter) }
    ensures decides { IfOk result (λ compiled. Decides compiled.program compiled.filter) }
    ensures agrees { IfOk result (λ compiled. Agrees compiled.program compiled.filter) }
{
    let program = compile(alloc, &filter)?;
    Ok(Compiled::new(filter, program))
}

// The filter with its program, where one is asked for.
fn filter_asked(alloc: Global, filter: &Option<Octets>) -> Result<Option<Compiled>, PlanError>
    requires { IfSome filter.now IsUtf8 }
    ensures ok { IfOk result (IsFilterAsked filter.now) }
    ensures err { IfErr result (IsFilterError filter.now) }
{
    match filter {
        None => Ok(None),
        Some(text) => match read_filter(alloc, text_of(text)) {
            Ok(filter) => Ok(Some(with_program(alloc, filter)?)),
            Err(FilterError::Fault(fault)) => Err(PlanError::Refused(Refused::Filter(fault))),
            Err(FilterError::NoMemory) => Err(PlanError::NoMemory),
        },
    }
}

fn source_in(alloc: Global, source: &Source) -> Result<PlanSource, NoMemory>
    requires name { IsUtf8 (name_in source.now) }
    requires frames { HasFrames source.now }
    ensures { IfOk result (λ found. found ≡ source_asked source.now) }
{
    match source {
        Source::Named(name) => Ok(PlanSource::Named(Text::copy(alloc, text_of(name))?)),
        Source::Generated(start, frames) => {
            Ok(PlanSource::Generated(Generated::new(*start, *frames)))
        }
    }
}

fn reports_in(alloc: Global, reports: &ReportList) -> Result<ReportList, NoMemory>
    ensures { IfOk result (λ found. found ≡ reports.now) }
{
    Ok(ReportList::from_vec(Vec::from_slice(alloc, reports.slice())?))
}

// The fields of the columns, and where the frames come from.
fn columns_and_source(
    alloc: Global,
    options: &Options,
) -> Result<(FieldList, PlanSource), PlanError>
    requires utf8 { AreUtf8 options.now }
    requires sound { AreSound options.now }
    ensures fields { IfOk result (λ both. fields_named options.now.names ≡ Ok both.0) }
    ensures source { IfOk result (λ both. both.1 ≡ source_asked options.now.source) }
    ensures err { IfErr result (IsErrorOf (IsNameRefused options.now.names)) }
{
    let fields = find_fields(alloc, options.names.slice())?;
    match source_in(alloc, &options.source) {
        Ok(source) => Ok((fields, source)),
        Err(NoMemory) => {
            let_go(fields);
            Err(PlanError::NoMemory)
        }
    }
}

fn rules_and_reports(alloc: Global, options: &Options) -> Result<(PlanRules, ReportList), NoMemory>
    requires { AreSound options.now }
    ensures rules { IfOk result (λ both. both.0 ≡ options.now.decode.rules) }
    ensures reports { IfOk result (λ both. both.1 ≡ options.now.reports) }
{
    let rules = copy_rules(alloc, &options.decode.rules)?;
    match reports_in(alloc, &options.reports) {
        Ok(reports) => Ok((PlanRules::new(rules), reports)),
        Err(error) => {
            let_go(rules);
            Err(error)
        }
    }
}

// No plan, and what was read for it is given up.
fn refused<T: Drop>(error: PlanError, _read: T) -> Result<Plan, PlanError>
    ensures { result ≡ Err error }
{
    Err(error)
}

// The plan, of which these parts were read.
fn plan_from(
    alloc: Global,
    options: &Options,
    chosen: Option<Compiled>,
    fields: FieldList,
    source: PlanSource,
) -> Result<Plan, PlanError>
    requires sound { AreSound options.now }
    requires chosen { IsFilterAsked options.now.filter chosen }
    requires fields { fields_named options.now.names ≡ Ok fields }
    requires source { source ≡ source_asked options.now.source }
    ensures ok { IfOk result (IsPlanFor options.now) }
    ensures err { IfErr result (IsErrorOf (IsRefusalFor options.now)) }
{
    match rules_and_reports(alloc, options) {
        Ok((decode, reports)) => Ok(Plan {
            source,
            chosen,
            stats: options.stats,
            two: options.two,
            fields,
            most: options.most,
            decode,
            reports,
            kind: options.kind,
            style: options.style,
            quiet: options.quiet,
            written: options.written,
        }),
        Err(NoMemory) => refused(PlanError::NoMemory, (source, chosen, fields)),
    }
}

#[tactic(auto, using(crate::proofs::PlanLemmas::names_refused))]
fn plan_with(alloc: Global, options: &Options) -> Result<Plan, PlanError>
    requires utf8 { AreUtf8 options.now }
    requires sound { AreSound options.now }
    ensures ok { IfOk result (IsPlanFor options.now) }
    ensures err { IfErr result (IsErrorOf (IsRefusalFor options.now)) }
{
    let chosen = filter_asked(alloc, &options.filter)?;
    match columns_and_source(alloc, options) {
        Ok((fields, source)) => plan_from(alloc, options, chosen, fields, source),
        Err(error) => refused(error, chosen),
    }
}

/// Reads the plan that the words ask for, or refuses them: first the words, then the filter, then the names.
#[tactic(auto, unfolding(crate::specs::Plan::IsPlan, crate::specs::Plan::IsRefusal))]
pub fn read_plan(alloc: Global, words: &[String]) -> Result<Plan, PlanError>
    ensures ok { IfOk result (IsPlan (texts words.now)) }
    ensures err { IfErr result (IsErrorOf (IsRefusal (texts words.now))) }
{
    match read_words(alloc, words) {
        Ok(options) => plan_with(alloc, &options),
        Err(WordsError::Fault(fault)) => Err(PlanError::Refused(Refused::Words(fault))),
        Err(WordsError::NoMemory) => Err(PlanError::NoMemory),
    }
}
