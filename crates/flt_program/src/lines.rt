// The listing of a program.
ghost use Rattle.std.specs.Prelude.{◌≡◌, ◌++◌, ◌<◌, ◌^◌, ◌+◌, [], ◌∷◌, codes, decimal, IfOk, OnOk};
ghost use Rattle.flt_program.specs.Listing.{IsNear, choice_shown, extreme_shown, function_shown, instr_shown, line_shown, listing_of, operation_shown, pattern_at, register_shown, relation_shown, spaced};
ghost use Rattle.flt_program.specs.Literals.{constant_shown, field_shown, members_shown, ranges_shown, string_shown};
ghost use Rattle.flt_program.specs.Sources.{sources_of};

use crate::instr::Instr;
use crate::literals::{put_constant, put_field, put_members, put_ranges, put_string};
use crate::patterns::patterns_in;
use crate::program::Program;
use flt_syntax::{Arithmetic, Choice, Function, RangePart};
use flt_typed::{Constant, Extreme, Member, Pattern, Relation};
use flt_typing::Filter;
use pk_base::{Layers, NoMemory};
use pk_fields::FieldId;
use pk_text::{TextSink, put_number};
use std::alloc::Global;

/// A line for each instruction of a program, which is its place, counted from 0, and its words. The filter is the one that
/// the program is of: it has the patterns.
#[tactic(auto, unfolding(crate::specs::Listing::listing_of))]
pub fn listing(alloc: Global, program: &Program, filter: &Filter) -> Result<Vec<u8>, NoMemory>
    ensures { IfOk result (λ text. text.items ≡ listing_of program.now filter.now) }
{
    let patterns = patterns_in(alloc, filter.root())?;
    let code = program.code();
    let mut lines = Vec::new(alloc);
    for at in 0..code.len() {
        put_line(alloc, &mut lines, &patterns, at, &code[at])?;
    }
    Ok(lines)
}

/// The line of an instruction.
fn put_line(
    alloc: Global,
    line: &mut Vec<u8>,
    patterns: &[&Pattern],
    at: usize,
    instr: &Instr,
) -> Result<(), NoMemory>
    requires { IsNear at instr.now }
    ensures { OnOk result (line.new.items
        ≡ line.old.items ++ line_shown (sources_of patterns.now) at instr.now) }
{
    put_number(line, at as u64)?;
    line.put_text(" ")?;
    put_instr(alloc, line, patterns, at, instr)?;
    line.put_text("\n")
}

/// The words of an instruction.
#[tactic(auto, unfolding(crate::specs::Listing::instr_shown))]
fn put_instr(
    alloc: Global,
    line: &mut Vec<u8>,
    patterns: &[&Pattern],
    at: usize,
    instr: &Instr,
) -> Result<(), NoMemory>
    requires { IsNear at instr.now }
    ensures { OnOk result (line.new.items
        ≡ line.old.items ++ instr_shown (sources_of patterns.now) at instr.now) }
{
    match instr {
        Instr::Read(r, field, layers) => put_read(line, "READ", *r, *field, layers),
        Instr::Const(r, constant) => put_const(alloc, line, *r, constant),
        Instr::Slice(r, from, ranges) => put_slice(line, *r, *from, ranges.slice()),
        Instr::Mask(r, from, mask) => put_mask(line, *r, *from, *mask),
        Instr::Call(r, function, from) => put_call(line, *r, *function, *from),
        Instr::Count(r, field, layers) => put_read(line, "COUNT", *r, *field, layers),
        Instr::Compute(r, sign, p, q) => put_three(line, operation_word(*sign), *r, *p, *q),
        Instr::Choose(r, extreme, p, q) => put_three(line, extreme_word(*extreme), *r, *p, *q),
        Instr::Save(r) => put_one(line, "SAVE", *r),
        Instr::Test(choice, relation, p, q) => put_test(line, *choice, *relation, *p, *q),
        Instr::In(choice, r, members) => put_in(alloc, line, *choice, *r, members.slice()),
        Instr::Match(choice, r, number) => put_match(line, patterns, *choice, *r, *number),
        Instr::NonZero(r) => put_one(line, "NONZERO", *r),
        Instr::Not => line.put_text("NOT"),
        Instr::Differ(r) => put_one(line, "XOR", *r),
        Instr::JumpFalse(passed) => put_jump(line, "JF", at, *passed),
        Instr::JumpTrue(passed) => put_jump(line, "JT", at, *passed),
        Instr::Return => line.put_text("RETURN"),
    }
}

/// A word and a register.
fn put_one(line: &mut Vec<u8>, word: &str, register: usize) -> Result<(), NoMemory>
    ensures { OnOk result (line.new.items
        ≡ line.old.items ++ spaced (word.now ∷ register_shown register ∷ [])) }
{
    line.put_text(word)?;
    line.put_text(" r")?;
    put_number(line, register as u64)
}

/// A word and two registers.
fn put_two(line: &mut Vec<u8>, word: &str, left: usize, right: usize) -> Result<(), NoMemory>
    ensures { OnOk result (line.new.items ≡ line.old.items
        ++ spaced (word.now ∷ register_shown left ∷ register_shown right ∷ [])) }
{
    put_one(line, word, left)?;
    line.put_text(" r")?;
    put_number(line, right as u64)
}

/// A word and three registers.
fn put_three(
    line: &mut Vec<u8>,
    word: &str,
    register: usize,
    left: usize,
    right: usize,
) -> Result<(), NoMemory>
    ensures { OnOk result (line.new.items ≡ line.old.items
        ++ spaced (word.now ∷ register_shown register ∷ register_shown left
        ∷ register_shown right ∷ [])) }
{
    put_two(line, word, register, left)?;
    line.put_text(" r")?;
    put_number(line, right as u64)
}

/// What reads a field, or counts its values.
fn put_read(
    line: &mut Vec<u8>,
    word: &str,
    register: usize,
    field: FieldId,
    layers: &Layers,
) -> Result<(), NoMemory>
    ensures { OnOk result (line.new.items ≡ line.old.items
        ++ spaced (word.now ∷ register_shown register ∷ field_shown field layers.now ∷ [])) }
{
    put_one(line, word, register)?;
    line.put_text(" ")?;
    put_field(line, field, layers)
}

fn put_const(
    alloc: Global,
    line: &mut Vec<u8>,
    register: usize,
    constant: &Constant,
) -> Result<(), NoMemory>
    ensures { OnOk result (line.new.items ≡ line.old.items
        ++ spaced (codes "CONST" ∷ register_shown register ∷ constant_shown constant.now ∷ [])) }
{
    put_one(line, "CONST", register)?;
    line.put_text(" ")?;
    put_constant(alloc, line, constant)
}

fn put_slice(
    line: &mut Vec<u8>,
    register: usize,
    source: usize,
    ranges: &[RangePart],
) -> Result<(), NoMemory>
    ensures { OnOk result (line.new.items ≡ line.old.items
        ++ spaced (codes "SLICE" ∷ register_shown register ∷ register_shown source
        ∷ ranges_shown ranges.now ∷ [])) }
{
    put_two(line, "SLICE", register, source)?;
    line.put_text(" ")?;
    put_ranges(line, ranges)
}

fn put_mask(line: &mut Vec<u8>, register: usize, source: usize, mask: u64) -> Result<(), NoMemory>
    ensures { OnOk result (line.new.items ≡ line.old.items
        ++ spaced (codes "MASK" ∷ register_shown register ∷ register_shown source
        ∷ decimal mask ∷ [])) }
{
    put_two(line, "MASK", register, source)?;
    line.put_text(" ")?;
    put_number(line, mask)
}

fn put_call(
    line: &mut Vec<u8>,
    register: usize,
    function: Function,
    source: usize,
) -> Result<(), NoMemory>
    ensures { OnOk result (line.new.items ≡ line.old.items
        ++ spaced (codes "CALL" ∷ register_shown register ∷ function_shown function
        ∷ register_shown source ∷ [])) }
{
    put_one(line, "CALL", register)?;
    line.put_text(" ")?;
    put_one(line, function_word(function), source)
}

fn put_test(
    line: &mut Vec<u8>,
    choice: Choice,
    relation: Relation,
    left: usize,
    right: usize,
) -> Result<(), NoMemory>
    ensures { OnOk result (line.new.items ≡ line.old.items
        ++ spaced (codes "TEST" ∷ choice_shown choice ∷ relation_shown relation
        ∷ register_shown left ∷ register_shown right ∷ [])) }
{
    line.put_text("TEST ")?;
    line.put_text(choice_word(choice))?;
    line.put_text(" ")?;
    put_two(line, relation_word(relation), left, right)
}

fn put_in(
    alloc: Global,
    line: &mut Vec<u8>,
    choice: Choice,
    register: usize,
    members: &[Member],
) -> Result<(), NoMemory>
    ensures { OnOk result (line.new.items ≡ line.old.items
        ++ spaced (codes "IN" ∷ choice_shown choice ∷ register_shown register
        ∷ members_shown members.now ∷ [])) }
{
    line.put_text("IN ")?;
    put_one(line, choice_word(choice), register)?;
    line.put_text(" ")?;
    put_members(alloc, line, members)
}

fn put_match(
    line: &mut Vec<u8>,
    patterns: &[&Pattern],
    choice: Choice,
    register: usize,
    number: usize,
) -> Result<(), NoMemory>
    ensures { OnOk result (line.new.items ≡ line.old.items
        ++ spaced (codes "MATCH" ∷ choice_shown choice ∷ register_shown register
        ∷ string_shown (pattern_at (sources_of patterns.now) number) ∷ [])) }
{
    line.put_text("MATCH ")?;
    put_one(line, choice_word(choice), register)?;
    line.put_text(" ")?;
    put_pattern(line, patterns, number)
}

/// The pattern of a number, as a string.
#[tactic(auto, using(crate::proofs::ListingLemmas::source_found, crate::proofs::ListingLemmas::source_missing))]
fn put_pattern(line: &mut Vec<u8>, patterns: &[&Pattern], number: usize) -> Result<(), NoMemory>
    ensures { OnOk result (line.new.items
        ≡ line.old.items ++ string_shown (pattern_at (sources_of patterns.now) number)) }
{
    match patterns.get(number) {
        Some(pattern) => put_string(line, pattern.source()),
        None => put_string(line, b""),
    }
}

/// A jump, which says where it leads.
fn put_jump(line: &mut Vec<u8>, word: &str, at: usize, passed: usize) -> Result<(), NoMemory>
    requires { at + 1 + passed < 2 ^ 32 }
    ensures { OnOk result (line.new.items
        ≡ line.old.items ++ spaced (word.now ∷ decimal (at + 1 + passed) ∷ [])) }
{
    line.put_text(word)?;
    line.put_text(" ")?;
    put_number(line, (at + 1 + passed) as u64)
}

fn choice_word(choice: Choice) -> &'static str
    ensures { result.now ≡ choice_shown choice }
{
    match choice {
        Choice::Any => "any",
        Choice::All => "all",
    }
}

fn relation_word(relation: Relation) -> &'static str
    ensures { result.now ≡ relation_shown relation }
{
    match relation {
        Relation::Equal => "==",
        Relation::Unequal => "!=",
        Relation::Greater => ">",
        Relation::Less => "<",
        Relation::AtLeast => ">=",
        Relation::AtMost => "<=",
        Relation::Contains => "contains",
    }
}

fn function_word(function: Function) -> &'static str
    ensures { result.now ≡ function_shown function }
{
    match function {
        Function::Len => "len",
        Function::Count => "count",
        Function::Upper => "upper",
        Function::Lower => "lower",
        Function::Min => "min",
        Function::Max => "max",
    }
}

fn operation_word(operation: Arithmetic) -> &'static str
    ensures { result.now ≡ operation_shown operation }
{
    match operation {
        Arithmetic::Sum => "ADD",
        Arithmetic::Difference => "SUB",
        Arithmetic::Product => "MUL",
    }
}

fn extreme_word(extreme: Extreme) -> &'static str
    ensures { result.now ≡ extreme_shown extreme }
{
    match extreme {
        Extreme::Least => "MIN",
        Extreme::Greatest => "MAX",
    }
}
