// The reserved words of filters, and their functions.
ghost use Rattle.std.specs.Prelude.{◌≡◌};
ghost use Rattle.flt_syntax.specs.Tokens.{keyword_text as text_of_keyword, keyword_of as keyword_in, keyword_kind as kind_of_keyword, function_text as text_of_function, function_of as function_in};

use flt_syntax::{Choice, Function, Join, Keyword, Kind, Negation, Operator};

const KEYWORDS: [Keyword; 19] = [
    Keyword::And,
    Keyword::Or,
    Keyword::Xor,
    Keyword::Not,
    Keyword::Any,
    Keyword::All,
    Keyword::In,
    Keyword::Contains,
    Keyword::Matches,
    Keyword::Eq,
    Keyword::Ne,
    Keyword::Gt,
    Keyword::Lt,
    Keyword::Ge,
    Keyword::Le,
    Keyword::AnyEq,
    Keyword::AllNe,
    Keyword::AllEq,
    Keyword::AnyNe,
];

const FUNCTIONS: [Function; 6] = [
    Function::Len,
    Function::Count,
    Function::Upper,
    Function::Lower,
    Function::Min,
    Function::Max,
];

fn keyword_text(keyword: Keyword) -> &'static str
    ensures { result.now ≡ text_of_keyword keyword }
{
    match keyword {
        Keyword::And => "and",
        Keyword::Or => "or",
        Keyword::Xor => "xor",
        Keyword::Not => "not",
        Keyword::Any => "any",
        Keyword::All => "all",
        Keyword::In => "in",
        Keyword::Contains => "contains",
        Keyword::Matches => "matches",
        Keyword::Eq => "eq",
        Keyword::Ne => "ne",
        Keyword::Gt => "gt",
        Keyword::Lt => "lt",
        Keyword::Ge => "ge",
        Keyword::Le => "le",
        Keyword::AnyEq => "any_eq",
        Keyword::AllNe => "all_ne",
        Keyword::AllEq => "all_eq",
        Keyword::AnyNe => "any_ne",
    }
}

/// The reserved word that this is.
pub fn keyword_of(word: &str) -> Option<Keyword>
    ensures { result ≡ keyword_in word.now }
{
    for keyword in &KEYWORDS {
        if keyword_text(*keyword) == word {
            return Some(*keyword);
        }
    }
    None
}

/// What a reserved word at a place is.
pub fn keyword_kind(at: u32, keyword: Keyword) -> Kind
    ensures { result ≡ kind_of_keyword at keyword }
{
    match keyword {
        Keyword::And => Kind::Joins(Join::And),
        Keyword::Or => Kind::Joins(Join::Or),
        Keyword::Xor => Kind::Joins(Join::Xor),
        Keyword::Not => Kind::Negates(Negation::Word),
        Keyword::Any => Kind::Chooses(Choice::Any),
        Keyword::All => Kind::Chooses(Choice::All),
        Keyword::In => Kind::In,
        Keyword::Contains => Kind::Compares(Operator::Contains, at),
        Keyword::Matches => Kind::Matches(at),
        Keyword::Eq => Kind::Compares(Operator::Equal, at),
        Keyword::Ne => Kind::Compares(Operator::Unequal, at),
        Keyword::Gt => Kind::Compares(Operator::Greater, at),
        Keyword::Lt => Kind::Compares(Operator::Less, at),
        Keyword::Ge => Kind::Compares(Operator::AtLeast, at),
        Keyword::Le => Kind::Compares(Operator::AtMost, at),
        Keyword::AnyEq => Kind::Compares(Operator::AnyEqual, at),
        Keyword::AllNe => Kind::Compares(Operator::AllUnequal, at),
        Keyword::AllEq => Kind::Compares(Operator::AllEqual, at),
        Keyword::AnyNe => Kind::Compares(Operator::AnyUnequal, at),
    }
}

fn function_text(function: Function) -> &'static str
    ensures { result.now ≡ text_of_function function }
{
    match function {
        Function::Len => "len",
        Function::Count => "count",
        Function::Upper => "upper",
        Function::Lower => "lower",
        Function::Min => "min",
        Function::Max => "max",
    }
}

/// The function that this word names where `(` follows.
pub fn function_of(word: &str) -> Option<Function>
    ensures { result ≡ function_in word.now }
{
    for function in &FUNCTIONS {
        if function_text(*function) == word {
            return Some(*function);
        }
    }
    None
}
