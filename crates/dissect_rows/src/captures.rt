//! Captures, frame by frame.
//!
//! A row's first line says what it shows. In the table `rule` it is a rule instead, as `tcp 8000 http`, and in the table `asked` the
//! field that the dissector is asked for. Behind it stand the frames, each behind `> `: what is given of it (module `given`), `->`, and
//! what is told of it (module `told`). Frames are of no more than 1,000 bytes, and at most 90 in a row. A row of the table `places` is
//! read twice: by a dissector that follows streams, and by one for values alone, which keeps no byte of them. Where a frame asks for some
//! fields, a dissector for these takes all frames of its row, and what is told of it is what that one tells.
ghost use Rattle.std.specs.Prelude.{◌≡◌, ◌+◌, ◌*◌, ◌≤◌, ◌<◌, true, IfSome, OnSome};
ghost use Rattle.pk_fields.specs.Apps.{app_fits};
ghost use Rattle.pk_fields.specs.Rules.{AreRules};
ghost use Rattle.capture_read.specs.FrameList.{IsTime};

use crate::given::{fields_named, frame_of, option};
use crate::told::{PLACES, tells};
use capture_read::Frame;
use dissect::{App, DecodeAs, Dissector, PortRule, PortRules, give_up_dissector};
use pk_fields::FieldSet;
use pk_tree::Tree;
use std::alloc::Global;

/// The rules that stand for no option.
#[tactic(auto, using(crate::proofs::Rules::no_rules))]
pub(crate) fn no_rules(alloc: Global) -> DecodeAs
    ensures { AreRules result.rules }
{
    DecodeAs {
        rules: PortRules::from_vec(Vec::new(alloc)),
    }
}

/// An application that a port of TCP may have.
fn app_named(name: &str) -> Option<App>
    ensures { IfSome result (λ app. app_fits true app ≡ true) }
{
    match name {
        "http" => Some(App::Http),
        "dns" => Some(App::Dns),
        "plain" => Some(App::Plain),
        _ => None,
    }
}

/// A rule for a port of TCP.
fn rule_of(text: &str) -> Option<PortRule>
    ensures { IfSome result (λ rule. app_fits rule.tcp rule.app ≡ true) }
{
    let (port, app) = text.strip_prefix("tcp ")?.split_once(' ')?;
    let port = port.parse().ok()?;
    Some(PortRule {
        tcp: true,
        port,
        app: app_named(app)?,
    })
}

#[tactic(auto, using(crate::proofs::Rules::one_rule))]
fn one_rule(alloc: Global, rule: PortRule) -> Option<DecodeAs>
    requires { app_fits rule.tcp rule.app ≡ true }
    ensures { IfSome result (λ decode. AreRules decode.rules) }
{
    let mut rules = Vec::new(alloc);
    rules.push(rule).ok()?;
    Some(DecodeAs {
        rules: PortRules::from_vec(rules),
    })
}

/// The fields that the dissector of a table is made for.
fn fields_wanted(check: &str, title: &str) -> Option<FieldSet> {
    match check {
        "asked" => fields_named(title),
        _ => fields_named(PLACES),
    }
}

fn dissector_of(alloc: Global, check: &str, title: &str, asks: Option<&str>) -> Option<Dissector>
    ensures taken { IfSome result (λ dissector. dissector.taken ≡ 0) }
    ensures captured { IfSome result (λ dissector. dissector.captured ≡ 0) }
{
    if let Some(names) = asks {
        let wanted = fields_named(names)?;
        return Some(Dissector::for_fields(alloc, no_rules(alloc), wanted));
    }
    match check {
        "asked" | "followed" => {
            let wanted = fields_wanted(check, title)?;
            Some(Dissector::for_fields(alloc, no_rules(alloc), wanted))
        }
        "places" => {
            let wanted = fields_wanted(check, title)?;
            Some(Dissector::for_values(alloc, no_rules(alloc), wanted))
        }
        "rule" => Some(Dissector::new(alloc, one_rule(alloc, rule_of(title)?)?)),
        _ => Some(Dissector::new(alloc, no_rules(alloc))),
    }
}

fn take(dissector: &mut Dissector, frame: &Frame) -> Option<Tree>
    requires number { frame.now.number ≡ dissector.old.taken + 1 }
    requires time { IfSome frame.now.time IsTime }
    requires captured { dissector.old.captured ≤ 1000 * dissector.old.taken }
    requires few { frame.now.number < 100 }
    ensures counted { OnSome result ((dissector.new.taken ≡ frame.now.number) × (dissector.new.captured ≤ 1000 * frame.now.number)) }
{
    if frame.bytes.bytes().len() > 1_000 {
        return None;
    }
    dissector.take(frame).ok()
}

pub(crate) fn give_up_tree(_tree: Tree) {}

/// Takes a frame that is given, and compares what is told of it where it asks for the fields that the dissector was made for.
fn take_given(
    alloc: Global,
    dissector: &mut Dissector,
    number: u32,
    check: &str,
    asks: Option<&str>,
    block: &str,
) -> Option<bool>
    requires number { number ≡ dissector.old.taken + 1 }
    requires captured { dissector.old.captured ≤ 1000 * dissector.old.taken }
    requires few { number < 100 }
    ensures counted { OnSome result ((dissector.new.taken ≡ number) × (dissector.new.captured ≤ 1000 * number)) }
{
    let (given, wanted) = block.split_once("->")?;
    let frame = frame_of(alloc, number, given)?;
    let tree = take(dissector, &frame)?;
    let told = if option(given, "asks=") == asks {
        tells(alloc, check, &tree, dissector, wanted.trim_start())
    } else {
        Some(true)
    };
    give_up_tree(tree);
    told
}

/// Takes frames one after the other, and compares what is told of those that ask so.
fn take_all(
    alloc: Global,
    dissector: &mut Dissector,
    check: &str,
    asks: Option<&str>,
    frames: &str,
) -> Option<bool>
    requires taken { dissector.old.taken ≡ 0 }
    requires captured { dissector.old.captured ≡ 0 }
{
    let mut number = 0;
    for block in frames.split("\n> ") {
        if number >= 90 {
            return None;
        }
        number += 1;
        if !take_given(alloc, dissector, number, check, asks, block)? {
            return Some(false);
        }
    }
    Some(true)
}

/// Whether a dissector of a table's kind, or one for the fields that frames ask for, tells of a capture's frames what is wanted.
fn is_told_by(
    alloc: Global,
    check: &str,
    title: &str,
    asks: Option<&str>,
    frames: &str,
) -> Option<bool> {
    let mut dissector = dissector_of(alloc, check, title, asks)?;
    let told = take_all(alloc, &mut dissector, check, asks, frames);
    give_up_dissector(dissector);
    told
}

/// Whether what is wanted is told of each frame that asks for some fields, by a dissector that is made for these.
fn is_told_asked(alloc: Global, check: &str, title: &str, frames: &str) -> Option<bool> {
    for block in frames.split("\n> ") {
        let (given, _) = block.split_once("->")?;
        let asks = option(given, "asks=");
        if asks.is_some() && !is_told_by(alloc, check, title, asks, frames)? {
            return Some(false);
        }
    }
    Some(true)
}

/// Whether of a capture's frames is told what is wanted; nothing where it can't be read.
pub(crate) fn is_told(alloc: Global, check: &str, row: &str) -> Option<bool> {
    let (title, frames) = row.split_once("\n> ")?;
    if check == "places" && !is_told_by(alloc, "followed", title, None, frames)? {
        return Some(false);
    }
    Some(
        is_told_asked(alloc, check, title, frames)?
            && is_told_by(alloc, check, title, None, frames)?,
    )
}
