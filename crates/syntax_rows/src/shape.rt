//! The syntax trees of filters, as they are written in rows: `<` and `>` around what is joined or computed, `@` and its place behind a sign.
//!
//! `<a or <b and c>>` joins; a group keeps its parentheses, and each negation is `not `. Words stand as they are, `@0"4a"` is a string at place 0
//! of the byte 0x4a, `a#(@2 7)` the layer 7, `a[@1 @2 1:2, @7 -3]` a slice with its ranges, and `in 2 elements` a set.

use flt_syntax::{
    Arithmetic, Ast, Choice, Function, Layer, Operand, Operator, Place, Quote, RangePart,
    SliceRange, Tail,
};

fn join_of(filter: &Ast) -> &'static str {
    match filter {
        Ast::Or(_, _) => " or ",
        Ast::Xor(_, _) => " xor ",
        _ => " and ",
    }
}

/// What stands behind a filter's tree, where that stands at the front of a text.
pub(crate) fn behind_filter<'a>(filter: &Ast, text: &'a str) -> Option<&'a str> {
    match filter {
        Ast::Or(left, right) | Ast::Xor(left, right) | Ast::And(left, right) => {
            let text = behind_filter(left, text.strip_prefix('<')?)?;
            behind_filter(right, text.strip_prefix(join_of(filter))?)?.strip_prefix('>')
        }
        Ast::Not(_, inner) => behind_filter(inner, text.strip_prefix("not ")?),
        Ast::Group(inner) => behind_filter(inner, text.strip_prefix('(')?)?.strip_prefix(')'),
        Ast::Alone(operand) => behind_operand(operand, text),
        Ast::Test(choice, operand, tail) => {
            let text = text.strip_prefix(word_of(*choice))?;
            behind_tail(tail, behind_operand(operand, text)?)
        }
    }
}

fn word_of(choice: Option<Choice>) -> &'static str {
    match choice {
        Some(Choice::Any) => "any ",
        Some(Choice::All) => "all ",
        None => "",
    }
}

fn sign_of(operator: Operator) -> &'static str {
    match operator {
        Operator::Equal => " ==@",
        Operator::Unequal => " !=@",
        Operator::AnyEqual => " any_eq@",
        Operator::AllUnequal => " all_ne@",
        Operator::AllEqual => " ===@",
        Operator::AnyUnequal => " !==@",
        Operator::Greater => " >@",
        Operator::Less => " <@",
        Operator::AtLeast => " >=@",
        Operator::AtMost => " <=@",
        Operator::Contains => " contains@",
    }
}

fn behind_tail<'a>(tail: &Tail, text: &'a str) -> Option<&'a str> {
    match tail {
        Tail::Compare(operator, at, right) => {
            let text = text.strip_prefix(sign_of(*operator))?;
            behind_operand(right, behind_number(*at, text)?)
        }
        Tail::In(negated, elements) => {
            let word = if *negated { " not in " } else { " in " };
            let (count, rest) = text.strip_prefix(word)?.split_once(" elements")?;
            (count.parse() == Ok(elements.len())).then_some(rest)
        }
        Tail::Matches(_, _) => None,
    }
}

/// What stands behind a number and a blank.
fn behind_number(number: u32, text: &str) -> Option<&str> {
    let (digits, rest) = text.split_once(' ')?;
    (digits.parse() == Ok(number)).then_some(rest)
}

fn name_of(function: Function) -> &'static str {
    match function {
        Function::Len => "len(",
        Function::Count => "count(",
        Function::Upper => "upper(",
        Function::Lower => "lower(",
        Function::Min => "min(",
        Function::Max => "max(",
    }
}

fn computed_by(arithmetic: Arithmetic) -> &'static str {
    match arithmetic {
        Arithmetic::Sum => " +@",
        Arithmetic::Difference => " -@",
        Arithmetic::Product => " *@",
    }
}

fn behind_operand<'a>(operand: &Operand, text: &'a str) -> Option<&'a str> {
    match operand {
        Operand::Computed(arithmetic, at, left, right) => {
            let text = behind_operand(left, text.strip_prefix('<')?)?;
            let text = behind_number(*at, text.strip_prefix(computed_by(*arithmetic))?)?;
            behind_operand(right, text)?.strip_prefix('>')
        }
        Operand::Arguments(left, right) => {
            behind_operand(right, behind_operand(left, text)?.strip_prefix(", ")?)
        }
        Operand::Called(function, _, inner) => {
            behind_operand(inner, text.strip_prefix(name_of(*function))?)?.strip_prefix(')')
        }
        Operand::Sliced(inner, at, ranges) => {
            let text = behind_operand(inner, text)?.strip_prefix("[@")?;
            behind_ranges(ranges, behind_number(*at, text)?)
        }
        Operand::Masked(inner, _, mask) => behind_operand(inner, text)?
            .strip_prefix(" & ")?
            .strip_prefix(mask.text.as_str()),
        _ => behind_leaf(operand, text),
    }
}

fn behind_leaf<'a>(operand: &Operand, text: &'a str) -> Option<&'a str> {
    match operand {
        Operand::Named(word) => text.strip_prefix(word.text.as_str()),
        Operand::Text(quote) => behind_quote(quote, text),
        Operand::OnLayer(word, layer) => {
            behind_layer(*layer, text.strip_prefix(word.text.as_str())?)
        }
        _ => None,
    }
}

fn behind_layer(layer: Layer, text: &str) -> Option<&str> {
    let (digits, rest) = text.strip_prefix("#(@")?.split_once(')')?;
    let (at, nth) = digits.split_once(' ')?;
    (at.parse() == Ok(layer.at) && nth.parse() == Ok(layer.nth)).then_some(rest)
}

fn behind_quote<'a>(quote: &Quote, text: &'a str) -> Option<&'a str> {
    let (at, text) = text.strip_prefix('@')?.split_once('"')?;
    let (digits, rest) = text.split_once('"')?;
    (at.parse() == Ok(quote.at) && are_hex(quote.bytes.bytes(), digits)).then_some(rest)
}

/// Whether bytes are these hexadecimal digits, two for each.
fn are_hex(bytes: &[u8], digits: &str) -> bool {
    let mut rest = digits;
    for byte in bytes {
        match rest.split_at_checked(2) {
            Some((pair, behind)) if u8::from_str_radix(pair, 16) == Ok(*byte) => rest = behind,
            _ => return false,
        }
    }
    rest.is_empty()
}

fn behind_ranges<'a>(ranges: &[SliceRange], text: &'a str) -> Option<&'a str> {
    let (inner, rest) = text.split_once(']')?;
    let mut parts = inner.split(", ");
    for range in ranges {
        if !is_range(*range, parts.next()?)? {
            return None;
        }
    }
    parts.next().is_none().then_some(rest)
}

fn is_range(range: SliceRange, text: &str) -> Option<bool> {
    let text = behind_number(range.at, text.strip_prefix('@')?)?;
    match range.part {
        RangePart::One(place) => Some(is_place(place, text)),
        RangePart::Counted(place, count) => {
            let (front, end) = text.split_once(':')?;
            Some(is_place(place, front) && end.parse() == Ok(count))
        }
        _ => None,
    }
}

fn is_place(place: Place, text: &str) -> bool {
    let digits = text.strip_prefix('-');
    place.from_end == digits.is_some() && digits.unwrap_or(text).parse() == Ok(place.offset)
}
