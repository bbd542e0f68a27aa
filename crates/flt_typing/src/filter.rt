ghost use Rattle.std.specs.Prelude.{◌≡◌};
ghost use Rattle.flt_typing.specs.Texts.{IsFilter};

use flt_typed::Typed;
use std::marker::Model;

/// A filter: the typed filter of some text.
#[derive(Drop)]
pub struct Filter {
    root: Typed,
}

impl Model for Filter {
    ghost use Rattle.std.specs.Coded.{codes};
    ghost use Rattle.flt_typing.specs.Texts.{IsFilter};
    ghost use Rattle.flt_typed.specs.contracts.typed.Typed as typed;
    ghost use Rattle.flt_typed.specs.declared.typed.Typed.{Typed};

    ghost Value = { Typed };

    ghost coded = { Prim.hlevel (codes, typed.the_row.coded) };

    ghost view = { λ filter. filter.root };

    ghost invariant = { λ filter. IsFilter filter.root };
}

impl Filter {
    /// A typed filter, which has to be some text's.
    pub fn new(root: Typed) -> Filter
        requires { IsFilter root }
        ensures { result ≡ root }
    {
        Filter { root }
    }

    /// What it asks of a tree.
    pub fn root(&self) -> &Typed
        ensures value { result.now ≡ self.now }
        ensures filter { IsFilter self.now }
    {
        &self.root
    }
}
