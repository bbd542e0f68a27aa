// The signs of a filter's text outside brackets.
ghost use Rattle.std.specs.Prelude.{◌≡◌, ◌≤◌, ◌<◌, length, IfSome};
ghost use Rattle.flt_syntax.specs.Tokens.{sign_text as text_of_sign, first_sign as sign_in_front, sign_kind as kind_of_sign, bracket_kind as kind_of_bracket};

use flt_syntax::{Arithmetic, Join, Kind, Mode, Negation, Operator, Sign};

/// All signs, each before those that it begins with.
const SIGNS: [Sign; 26] = [
    Sign::AllEqual,
    Sign::AnyUnequal,
    Sign::Equal,
    Sign::Unequal,
    Sign::AtLeast,
    Sign::AtMost,
    Sign::And,
    Sign::Or,
    Sign::Xor,
    Sign::DotDot,
    Sign::Open,
    Sign::Close,
    Sign::OpenBrace,
    Sign::CloseBrace,
    Sign::OpenBracket,
    Sign::CloseBracket,
    Sign::Comma,
    Sign::Hash,
    Sign::Greater,
    Sign::Less,
    Sign::Tilde,
    Sign::Mask,
    Sign::Not,
    Sign::Plus,
    Sign::Minus,
    Sign::Star,
];

pub fn sign_text(sign: Sign) -> &'static [u8]
    ensures { result.now ≡ text_of_sign sign }
{
    match sign {
        Sign::AllEqual => b"===",
        Sign::AnyUnequal => b"!==",
        Sign::Equal => b"==",
        Sign::Unequal => b"!=",
        Sign::AtLeast => b">=",
        Sign::AtMost => b"<=",
        Sign::And => b"&&",
        Sign::Or => b"||",
        Sign::Xor => b"^^",
        Sign::DotDot => b"..",
        Sign::Open => b"(",
        Sign::Close => b")",
        Sign::OpenBrace => b"{",
        Sign::CloseBrace => b"}",
        Sign::OpenBracket => b"[",
        Sign::CloseBracket => b"]",
        Sign::Comma => b",",
        Sign::Hash => b"#",
        Sign::Greater => b">",
        Sign::Less => b"<",
        Sign::Tilde => b"~",
        Sign::Mask => b"&",
        Sign::Not => b"!",
        Sign::Plus => b"+",
        Sign::Minus => b"-",
        Sign::Star => b"*",
    }
}

/// The longest sign in front.
pub fn first_sign(bytes: &[u8]) -> Option<Sign>
    ensures value { result ≡ sign_in_front bytes.now }
    ensures within { IfSome result (λ s. (0 < length (text_of_sign s))
        × (length (text_of_sign s) ≤ length bytes.now)) }
{
    for sign in &SIGNS {
        if bytes.starts_with(sign_text(*sign)) {
            return Some(*sign);
        }
    }
    None
}

/// What a sign is at a place, where the next token stands at another.
pub fn sign_kind(mode: Mode, at: u32, next: u32, sign: Sign) -> Kind
    ensures { result ≡ kind_of_sign mode at next sign }
{
    match sign {
        Sign::AllEqual => Kind::Compares(Operator::AllEqual, at),
        Sign::AnyUnequal => Kind::Compares(Operator::AnyUnequal, at),
        Sign::Equal => Kind::Compares(Operator::Equal, at),
        Sign::Unequal => Kind::Compares(Operator::Unequal, at),
        Sign::AtLeast => Kind::Compares(Operator::AtLeast, at),
        Sign::AtMost => Kind::Compares(Operator::AtMost, at),
        Sign::And => Kind::Joins(Join::And),
        Sign::Or => Kind::Joins(Join::Or),
        Sign::Xor => Kind::Joins(Join::Xor),
        Sign::DotDot => Kind::DotDot,
        Sign::Open => Kind::Open,
        Sign::Close => Kind::Close,
        Sign::OpenBrace => Kind::OpenBrace,
        Sign::CloseBrace => Kind::CloseBrace,
        Sign::OpenBracket => bracket_kind(mode, at, next),
        Sign::CloseBracket => Kind::CloseBracket,
        Sign::Comma => Kind::Comma,
        Sign::Hash => Kind::Hash,
        Sign::Greater => Kind::Compares(Operator::Greater, at),
        Sign::Less => Kind::Compares(Operator::Less, at),
        Sign::Tilde => Kind::Matches(at),
        Sign::Mask => Kind::Mask(at),
        Sign::Not => Kind::Negates(Negation::Sign),
        Sign::Plus => Kind::Computes(Arithmetic::Sum, at),
        Sign::Minus => Kind::Computes(Arithmetic::Difference, at),
        Sign::Star => Kind::Computes(Arithmetic::Product, at),
    }
}

fn bracket_kind(mode: Mode, at: u32, next: u32) -> Kind
    ensures { result ≡ kind_of_bracket mode at next }
{
    match mode {
        Mode::BehindHash => Kind::OpenLayers(next),
        Mode::Plain | Mode::InBrackets => Kind::OpenRanges(at, next),
    }
}
