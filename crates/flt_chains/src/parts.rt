// What signs and commas join.
ghost use Rattle.flt_chains.specs.Parts.{filters_in, left_of_filter, left_of_operand, left_of_term, left_of_tree, operands_in, terms_in, trees_in};

use crate::chain::Chained;
use flt_syntax::{Ast, Operand};
use flt_typed::{Term, Typed};

impl Chained for Ast {
    ghost left_of = { left_of_tree };

    ghost size = { trees_in };

    fn left(&self) -> Option<&Ast> {
        match self {
            Ast::Or(left, _) | Ast::Xor(left, _) | Ast::And(left, _) => Some(left),
            _ => None,
        }
    }
}

impl Chained for Operand {
    ghost left_of = { left_of_operand };

    ghost size = { operands_in };

    fn left(&self) -> Option<&Operand> {
        match self {
            Operand::Computed(_, _, left, _) | Operand::Arguments(left, _) => Some(left),
            _ => None,
        }
    }
}

impl Chained for Typed {
    ghost left_of = { left_of_filter };

    ghost size = { filters_in };

    fn left(&self) -> Option<&Typed> {
        match self {
            Typed::Either(left, _) | Typed::Differ(left, _) | Typed::Both(left, _) => Some(left),
            _ => None,
        }
    }
}

impl Chained for Term {
    ghost left_of = { left_of_term };

    ghost size = { terms_in };

    fn left(&self) -> Option<&Term> {
        match self {
            Term::Computed(_, left, _) | Term::Arguments(left, _) => Some(left),
            _ => None,
        }
    }
}
