// A filter with its program.
ghost use Rattle.std.specs.Prelude.{◌≡◌};
ghost use Rattle.flt_vm.specs.Programs.{FitsFilter};

use flt_program::Program;
use flt_typing::Filter;
use std::marker::Model;

/// A filter, and a program that fits it and decides in its place which trees are let through.
#[derive(Drop)]
pub struct Compiled {
    filter: Filter,
    program: Program,
}

impl Model for Compiled {
    ghost use Rattle.std.specs.Coded.{codes};
    ghost use Rattle.flt_typed.specs.contracts.typed.Typed as typed;
    ghost use Rattle.flt_vm.specs.Programs.{FitsFilter};
    ghost use Rattle.run_frames.specs.Compiled.{CompiledShown};

    ghost Value = { CompiledShown };

    ghost coded = { Prim.hlevel (codes, typed.the_row.coded) };

    ghost view = { λ c. record { filter = c.filter; program = c.program } };

    ghost invariant = { λ c. FitsFilter c.program c.filter };
}

impl Compiled {
    pub fn new(filter: Filter, program: Program) -> Compiled
        requires { FitsFilter program filter }
        ensures { result ≡ record { filter = filter; program = program } }
    {
        Compiled { filter, program }
    }

    pub fn filter(&self) -> &Filter
        ensures { result.now ≡ self.now.filter }
    {
        &self.filter
    }

    pub fn program(&self) -> &Program
        ensures program { result.now ≡ self.now.program }
        ensures fits { FitsFilter self.now.program self.now.filter }
    {
        &self.program
    }
}
