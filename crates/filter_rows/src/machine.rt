//! How programs run: what a machine answers of a packet with the inner address 10.0.0.3 and of a tree without layers, and in how many steps.
//!
//! `run`: a filter, ` -> `, and the truth and the steps of its program, for the packet and behind a comma for the other tree. `run by hand`: what a
//! program shows, the same answers, and its instructions, a line each. A jump passes over so many, and `EQUAL` asks whether any pair is equal.
ghost use Rattle.std.specs.Prelude.{◌≡◌, ◌<◌, ◌^◌, IsTrue};
ghost use Rattle.flt_program.specs.Programs.{Fits, IsProgram};

use crate::asked::tree_of;
use flt_code::compile;
use flt_program::{Instr, Program};
use flt_syntax::Choice;
use flt_typed::{Constant, Relation};
use flt_types::read_filter;
use flt_typing::Filter;
use flt_vm::Machine;
use pk_base::{Layers, Value};
use pk_fields::by_name;
use pk_tree::Tree;
use std::alloc::Global;

static PACKET: &str = "\
ip 0+5: ip.addr=10.0.0.1 ip.addr=10.0.0.2
ip 0+5: ip.addr=10.0.0.3
tcp 0+5: tcp.port=8050 tcp.flags=18
dns 0+5: dns.qry.name=Host.test";

/// Whether a machine has this truth of a tree in so many steps.
fn answers(machine: &mut Machine<'_>, tree: &Tree, want: &str) -> Option<bool> {
    let (truth, steps) = want.split_once(' ')?;
    let verdict = machine.try_run(tree).ok()??;
    Some(truth.parse() == Ok(verdict.holds) && steps.parse() == Ok(verdict.steps))
}

/// What a machine answers, of each tree twice: what it keeps from one doesn't show at the next.
fn answers_twice(
    machine: &mut Machine<'_>,
    packet: &Tree,
    nothing: &Tree,
    want: &str,
) -> Option<bool> {
    let (first, second) = want.split_once(", ")?;
    for _ in 0..2 {
        if !answers(machine, packet, first)? || !answers(machine, nothing, second)? {
            return Some(false);
        }
    }
    Some(true)
}

fn runs_on(
    alloc: Global,
    program: &Program,
    filter: &Filter,
    packet: &Tree,
    want: &str,
) -> Option<bool> {
    let nothing = tree_of(alloc, "")?;
    let mut machine = Machine::new(alloc, program, filter).ok()?;
    answers_twice(&mut machine, packet, &nothing, want)
}

fn runs(alloc: Global, program: &Program, filter: &Filter, want: &str) -> Option<bool> {
    let packet = tree_of(alloc, PACKET)?;
    runs_on(alloc, program, filter, &packet, want)
}

fn runs_of(alloc: Global, filter: &Filter, want: &str) -> Option<bool> {
    let program = compile(alloc, filter).ok()?;
    runs(alloc, &program, filter, want)
}

pub(crate) fn is_run(alloc: Global, row: &str) -> Option<bool> {
    let (text, want) = row.split_once(" -> ")?;
    let filter = read_filter(alloc, text).ok()?;
    runs_of(alloc, &filter, want)
}

/// Whether an instruction of those that are written by hand has its registers at a place of so many, and leads to one behind it.
fn fits(instr: &Instr, registers: usize, at: usize, size: usize) -> bool
    requires { at < size }
    ensures { IsTrue result → Fits registers size at instr.now }
{
    let behind = size - at - 1;
    match instr {
        Instr::Return => true,
        Instr::JumpFalse(passed) | Instr::JumpTrue(passed) => *passed < behind,
        Instr::Read(r, _, _) | Instr::Const(r, _) => *r < registers && 0 < behind,
        Instr::Test(_, _, p, q) => *p < registers && *q < registers && 0 < behind,
        _ => false,
    }
}

/// Whether instructions are a program with so many registers.
fn is_program(registers: usize, code: &[Instr]) -> bool
    ensures { IsTrue result → IsProgram (record { registers = registers; items = code.now }) }
{
    if code.is_empty() || code.len() >= 1 << 32 {
        return false;
    }
    for at in 0..code.len() {
        if !fits(&code[at], registers, at, code.len()) {
            return false;
        }
    }
    true
}

fn number(number: u64) -> Constant {
    Constant {
        value: Value::Uint(number),
        prefix: None,
        quoted: false,
    }
}

fn instr_of(line: &str) -> Option<Instr> {
    let (name, operands) = line.split_once(' ').unwrap_or((line, ""));
    let (first, second) = operands.split_once(' ').unwrap_or((operands, ""));
    match name {
        "RETURN" => Some(Instr::Return),
        "JF" => Some(Instr::JumpFalse(first.parse().ok()?)),
        "JT" => Some(Instr::JumpTrue(first.parse().ok()?)),
        "READ" => Some(Instr::Read(register(first)?, by_name(second)?, Layers::All)),
        "CONST" => Some(Instr::Const(register(first)?, number(second.parse().ok()?))),
        "EQUAL" => Some(Instr::Test(
            Choice::Any,
            Relation::Equal,
            register(first)?,
            register(second)?,
        )),
        _ => None,
    }
}

fn register(name: &str) -> Option<usize> {
    name.strip_prefix('r')?.parse().ok()
}

fn code_of(alloc: Global, lines: &str) -> Option<Vec<Instr>> {
    let mut code = Vec::new(alloc);
    for line in lines.lines() {
        code.push(instr_of(line)?).ok()?;
    }
    Some(code)
}

fn program_of(alloc: Global, lines: &str) -> Option<Program> {
    let code = code_of(alloc, lines)?;
    if is_program(6, &code) {
        return Some(Program::new(6, code));
    }
    None
}

/// The filter is another one: these programs have no patterns.
pub(crate) fn is_run_by_hand(alloc: Global, row: &str) -> Option<bool> {
    let (_, rest) = row.split_once('\n')?;
    let (want, lines) = rest.split_once('\n')?;
    let program = program_of(alloc, lines)?;
    let filter = read_filter(alloc, "tcp").ok()?;
    runs(alloc, &program, &filter, want)
}
