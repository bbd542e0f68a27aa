ghost use Rattle.std.specs.Prelude.{IfOk, IfErr};
ghost use Rattle.flt_typing.specs.Texts.{IsTypedText};
ghost use Rattle.flt_types.specs.TextFaults.{IsFilterFault};

use crate::typing::check;
use flt_parse::parse;
use flt_syntax::FilterError;
use flt_typing::Filter;
use std::alloc::Global;

/// Reads the text of a filter. The error is the text's first fault, F1 to F10, with its place.
pub fn read_filter(alloc: Global, text: &str) -> Result<Filter, FilterError>
    ensures ok { IfOk result (IsTypedText text.now) }
    ensures err { IfErr result (IsFilterFault text.now) }
{
    let ast = parse(alloc, text)?;
    check(alloc, ast)
}
