// A filter's text to its tree.
ghost use Rattle.std.specs.Prelude.{◌≡◌, IfOk, IfErr, length};
ghost use Rattle.flt_syntax.specs.Filters.{IsFilterText, IsRefusal, most_bytes, most_open};
ghost use Rattle.flt_parse.specs.Parser.Reading as reading;
ghost use Rattle.flt_parse.specs.Parser.Answers.{IsReadError, refused as refused_as, tokens_read};
ghost use Rattle.flt_parse.specs.Parser.States.{state_of};
ghost use Rattle.flt_syntax.specs.Written.{written};

use crate::lexer::tokens_in;
use crate::state::{Open, Refusal, State};
use crate::steps::{no_frame, step};
use crate::whole::finish;
use flt_syntax::{Ast, FilterError, FilterFault, FilterReason, Token};
use pk_base::FILTER_LIMIT;
use std::alloc::Global;
use std::collections::VecDeque;

/// Reads the text of a filter. The answer is its tree, or its first fault: that it has more than 4,096 bytes; else the
/// first byte that begins no token, or string that doesn't end or has another escape; else the first token that no
/// filter has there, or that opens the 65th parenthesis, negation or call.
#[tactic(auto, using(crate::proofs::Parsed::of_lexical, crate::proofs::Parsed::of_length, crate::proofs::Parsed::text_refused), unfolding(flt_syntax::specs::Filters::most_bytes))]
pub fn parse(alloc: Global, text: &str) -> Result<Ast, FilterError>
    ensures ok { IfOk result (λ ast. IsFilterText text.now (written ast)) }
    ensures err { IfErr result (IsRefusal text.now) }
{
    if text.len() > FILTER_LIMIT {
        return Err(FilterError::Fault(FilterFault {
            at: FILTER_LIMIT as u32,
            reason: FilterReason::TooLong,
        }));
    }
    match tokens_in(alloc, text) {
        Ok(tokens) => read_tokens(alloc, tokens, text.len() as u32),
        Err(error) => Err(error),
    }
}

/// Reads the tokens of a text of some length.
#[tactic(auto, using(crate::proofs::Parsed::read_on, crate::proofs::Parsed::read_stop, crate::proofs::Parsed::read_whole, crate::proofs::Parsed::read_cut))]
fn read_tokens(alloc: Global, tokens: VecDeque<Token>, end: u32) -> Result<Ast, FilterError>
    ensures ok { IfOk result (λ ast.
        tokens_read most_open reading.start tokens.items ≡ reading.Whole (written ast)) }
    ensures err { IfErr result
        (IsReadError end (tokens_read most_open reading.start tokens.items)) }
{
    let mut rest = tokens;
    let mut state = start(alloc);
    'tokens: while let Some(token) = rest.pop_front() {
        let at = token.at;
        state = match step(alloc, state, token.kind) {
            Ok(next) => next,
            Err(refusal) => return Err(refused(refusal, at)),
        };
    }
    drop(rest);
    match finish(alloc, state) {
        Ok(ast) => Ok(ast),
        Err(refusal) => Err(refused(refusal, end)),
    }
}

fn start(alloc: Global) -> State
    ensures { state_of result ≡ reading.start }
{
    State::Want(Open {
        frame: no_frame(alloc),
        around: Vec::new(alloc),
    })
}

fn refused(refusal: Refusal, at: u32) -> FilterError
    ensures { result ≡ refused_as refusal at }
{
    match refusal {
        Refusal::Fault(reason) => FilterError::Fault(FilterFault { at, reason }),
        Refusal::NoMemory => FilterError::NoMemory,
    }
}
