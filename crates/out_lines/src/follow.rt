// The report of a followed TCP stream.
ghost use Rattle.std.specs.Prelude.{◌≡◌, ◌++◌, IfOk, IfSome, OnOk};
ghost use Rattle.pk_base.specs.declared.stretch.Stretch.{Stretch};
ghost use Rattle.out_lines.specs.Follow.{AreApart, AreBehind, AreFollowed, HasEnd, bytes_line, end_of, follow_of, fronts_lines, lines_behind, lost_line, side_lines};

use crate::lines::LINE_ROOM;
use pk_base::{NoMemory, Stretch, Stretches};
use pk_text::{TextSink, put_hex, put_number};
use std::alloc::Global;

/// What each side of a stream sent: its stretches, in order.
#[derive(Drop)]
pub struct Fronts {
    pub zero: Stretches,
    pub one: Stretches,
}

/// The report of a TCP stream. Its first line has the stream's number. For side 0 and then for side 1 a line in
/// hexadecimal follows for each stretch, and before each but the first a line that tells how many bytes were lost. A side
/// without bytes has one line without digits. Where there is no stream, the first line says so and is the only one.
pub fn follow_text(alloc: Global, stream: u32, fronts: Option<Fronts>) -> Result<Vec<u8>, NoMemory>
    requires { IfSome fronts AreFollowed }
    ensures { IfOk result (λ text. text.items ≡ follow_of stream fronts) }
{
    report_of(alloc, stream, &fronts)
}

fn report_of(alloc: Global, stream: u32, fronts: &Option<Fronts>) -> Result<Vec<u8>, NoMemory>
    requires { IfSome fronts.now AreFollowed }
    ensures { IfOk result (λ text. text.items ≡ follow_of stream fronts.now) }
{
    let mut text = Vec::with_capacity(alloc, LINE_ROOM)?;
    put_report(&mut text, stream, fronts)?;
    Ok(text)
}

#[tactic(auto, unfolding(crate::specs::Follow::follow_of))]
fn put_report(text: &mut Vec<u8>, stream: u32, fronts: &Option<Fronts>) -> Result<(), NoMemory>
    requires { IfSome fronts.now AreFollowed }
    ensures { OnOk result (text.new.items ≡ text.old.items ++ follow_of stream fronts.now) }
{
    text.put_text("follow tcp ")?;
    put_number(text, u64::from(stream))?;
    put_fronts(text, fronts)
}

fn put_fronts(text: &mut Vec<u8>, fronts: &Option<Fronts>) -> Result<(), NoMemory>
    requires { IfSome fronts.now AreFollowed }
    ensures { OnOk result (text.new.items ≡ text.old.items ++ fronts_lines fronts.now) }
{
    match fronts {
        None => text.put_text(" none\n"),
        Some(fronts) => {
            text.push(b'\n')?;
            put_side(text, "0", fronts.zero.slice())?;
            put_side(text, "1", fronts.one.slice())
        }
    }
}

fn put_side(text: &mut Vec<u8>, side: &str, stretches: &[Stretch]) -> Result<(), NoMemory>
    requires { AreApart stretches.now }
    ensures { OnOk result (text.new.items ≡ text.old.items ++ side_lines side.now stretches.now) }
{
    match stretches {
        [] => put_bytes(text, side, &[]),
        [first, others @ ..] => {
            put_bytes(text, side, first.bytes.bytes())?;
            put_behind(text, side, first, others)
        }
    }
}

/// The lines of the stretches behind one.
fn put_behind(
    text: &mut Vec<u8>,
    side: &str,
    first: &Stretch,
    others: &[Stretch],
) -> Result<(), NoMemory>
    requires end { HasEnd first.now }
    requires apart { AreBehind (end_of first.now) others.now }
    ensures { OnOk result (text.new.items
        ≡ text.old.items ++ lines_behind side.now (end_of first.now) others.now) }
{
    let mut end = position_behind(first);
    let mut left = others;
    while let [stretch, more @ ..] = left {
        put_lost(text, side, stretch.start - end)?;
        put_bytes(text, side, stretch.bytes.bytes())?;
        end = position_behind(stretch);
        left = more;
    }
    Ok(())
}

fn position_behind(stretch: &Stretch) -> u64
    requires { HasEnd stretch.now }
    ensures { result ≡ end_of stretch.now }
{
    stretch.start + stretch.bytes.bytes().len() as u64
}

/// The line of a stretch's bytes.
fn put_bytes(text: &mut Vec<u8>, side: &str, bytes: &[u8]) -> Result<(), NoMemory>
    ensures { OnOk result (text.new.items ≡ text.old.items ++ bytes_line side.now bytes.now) }
{
    text.put_text(side)?;
    text.push(b' ')?;
    put_hex(text, bytes)?;
    text.put_text("\n")
}

/// The line of a gap.
fn put_lost(text: &mut Vec<u8>, side: &str, count: u64) -> Result<(), NoMemory>
    ensures { OnOk result (text.new.items ≡ text.old.items ++ lost_line side.now count) }
{
    text.put_text(side)?;
    text.put_text(" lost ")?;
    put_number(text, count)?;
    text.put_text("\n")
}
