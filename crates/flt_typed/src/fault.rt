ghost use Rattle.std.specs.Prelude.{◌↔◌, ◌⊎◌, ◌<◌, ◌==◌, IsTrue, length};
ghost use Rattle.std.specs.List.{list_any};
ghost use Rattle.regex.specs.Sources.{IsRefusal};
ghost use Rattle.regex.specs.Failures.{IsRightKind};
ghost use Rattle.flt_typed.specs.Patterns.{HasCause, options, sure_length};

use regex::Error;

/// Why a text isn't taken as a pattern.
#[derive(Clone, Copy, Debug)]
pub enum PatternFault {
    /// It is no UTF-8, or no pattern by `regex`'s grammar, or nested deeper than 250.
    NoPattern,
    /// It is a pattern that takes too much room, or whose search too much time. Only one of more than 64 bytes, or with a `{`, is refused so.
    Large,
    NoMemory,
}

/// How many bytes a pattern may have without being taken for a large one.
const SURE_LENGTH: usize = 64;

/// What a refusal by `regex` says of the text.
pub(crate) fn fault_of(error: Error, text: &str) -> PatternFault
    requires refused { IsRefusal options text.now error }
    requires kind { IsRightKind options text.now error }
    ensures { HasCause text.now result }
{
    match error {
        Error::Syntax(_) => PatternFault::NoPattern,
        Error::CompiledTooBig if may_be_large(text) => PatternFault::Large,
        // A short pattern without a `{` was met by a want of room alone; an internal error never comes.
        Error::CompiledTooBig | Error::Internal | Error::OutOfMemory => PatternFault::NoMemory,
    }
}

pub(crate) fn may_be_large(text: &str) -> bool
    ensures { IsTrue result ↔ ((sure_length < length text.now) ⊎ IsTrue
        (list_any (λ byte. byte == 0x7B) text.now)) }
{
    text.len() > SURE_LENGTH || text.as_bytes().contains(&b'{')
}
