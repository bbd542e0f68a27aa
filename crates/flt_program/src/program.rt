// Programs.
ghost use Rattle.std.specs.Prelude.{◌≡◌, ◌||◌, ℕ, true, length};
ghost use Rattle.flt_program.specs.Programs.{IsProgram};
ghost use Rattle.flt_program.specs.Asked.{HasCode, asks_in};
ghost use Rattle.pk_fields.specs.FieldSets.{is_in};

use crate::fields::add_asked;
use crate::instr::Instr;
use pk_fields::FieldSet;
use std::marker::Model;

/// A program: instructions, whose jumps lead forward, and of which the last one is RETURN; and how many registers they use.
pub struct Program {
    registers: usize,
    code: Vec<Instr>,
}

// The destructor is written out here, and not wherever a program is dropped.
impl Drop for Program {
    fn drop(self) {
        let Program {
            registers: _,
            code: _code,
        } = self;
    }
}

// Contracts see a program as its instructions and the number of its registers.
impl Model for Program {
    ghost use Rattle.flt_program.specs.Programs.{Code, IsProgram};

    ghost Value = { Code };

    ghost view = { λ p. record { registers = p.registers; items = p.code.items } };

    ghost invariant = { λ p. IsProgram (record { registers = p.registers; items = p.code.items }) };
}

impl Program {
    /// The program of some instructions.
    pub fn new(registers: usize, code: Vec<Instr>) -> Program
        requires { IsProgram (record { registers = registers; items = code.items }) }
        ensures { result ≡ record { registers = registers; items = code.items } }
    {
        Program { registers, code }
    }

    /// How many instructions there are.
    pub fn len(&self) -> u32
        ensures { result ≡ length self.now.items }
    {
        self.code.len() as u32
    }

    /// How many registers it has.
    pub fn registers(&self) -> usize
        ensures { result ≡ self.now.registers }
    {
        self.registers
    }

    /// Its instructions.
    pub fn code(&self) -> &[Instr]
        ensures code { result.now ≡ self.now.items }
        ensures program { IsProgram self.now }
    {
        self.code.as_slice()
    }

    /// Adds to a set the fields that it asks for, with their protocols.
    pub fn add_fields(&self, set: &mut FieldSet)
        ensures fields { HasCode set.new self.now }
        ensures added { (f : ℕ) → is_in set.new f ≡ (asks_in self.now.items f || is_in set.old f) }
        ensures kept { (f : ℕ) → is_in set.old f ≡ true → is_in set.new f ≡ true }
    {
        add_asked(self.code.as_slice(), set);
    }
}
