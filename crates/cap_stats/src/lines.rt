// The parts of which the tables' lines are made.
ghost use Rattle.std.specs.Prelude.{◌≡◌, ◌∷◌, [], ◌++◌, codes, decimal, IfOk, OnOk};
ghost use Rattle.cap_stats.specs.Tables.{address_text, port_text, party_text, tally_text, ends_text, tallies_text, talk_text};

use crate::counts::{Talk, Tally};
use crate::party::Party;
use pk_base::{Address, NoMemory};
use pk_text::{Decimal, Slab, TextSink, ip6_text, put_ip4, put_number};
use std::alloc::Global;

/// A table's first line: its name, and how many lines follow.
pub(crate) fn begin_table(alloc: Global, name: &str, lines: usize) -> Result<Vec<u8>, NoMemory>
    ensures { IfOk result (λ text. text.items ≡ name.now ++ (decimal lines ++ 10 ∷ [])) }
{
    let mut text = Vec::new(alloc);
    put_count(&mut text, name, lines as u64)?;
    text.put_text("\n")?;
    Ok(text)
}

/// Appends what is counted, and how many there are.
pub(crate) fn put_count(text: &mut Vec<u8>, counted: &str, count: u64) -> Result<(), NoMemory>
    ensures { OnOk result (text.new.items ≡ text.old.items ++ (counted.now ++ decimal count)) }
{
    text.put_text(counted)?;
    put_number(text, count)
}

/// Appends both ends of a conversation, and what they sent.
pub(crate) fn put_talk(alloc: Global, line: &mut Slab, talk: &Talk) -> Result<(), NoMemory>
    ensures { OnOk result (line.new ≡ line.old ++ talk_text talk.now) }
{
    put_ends(alloc, line, talk)?;
    put_tallies(line, talk)
}

fn put_ends(alloc: Global, line: &mut Slab, talk: &Talk) -> Result<(), NoMemory>
    ensures { OnOk result (line.new ≡ line.old ++ ends_text talk.now) }
{
    put_party(alloc, line, &talk.from)?;
    put_party(alloc, line, &talk.to)
}

fn put_tallies(line: &mut Slab, talk: &Talk) -> Result<(), NoMemory>
    ensures { OnOk result (line.new ≡ line.old ++ tallies_text talk.now) }
{
    put_tally(line, &talk.there, b' ')?;
    put_tally(line, &talk.back, b'\n')
}

/// Appends an end, and a space.
fn put_party(alloc: Global, line: &mut Slab, party: &Party) -> Result<(), NoMemory>
    ensures { OnOk result (line.new
        ≡ line.old ++ (party_text party.now ++ codes " ")) }
{
    put_address(alloc, line, party.address)?;
    put_port(line, party.port)?;
    line.put_byte(b' ')
}

fn put_address(alloc: Global, line: &mut Slab, address: Address) -> Result<(), NoMemory>
    ensures { OnOk result (line.new ≡ line.old ++ address_text address) }
{
    match address {
        Address::Four(address) => put_ip4(line, address),
        Address::Six(address) => line.put_text(ip6_text(alloc, address)?.as_str()),
    }
}

fn put_port(line: &mut Slab, port: Option<u64>) -> Result<(), NoMemory>
    ensures { OnOk result (line.new ≡ line.old ++ port_text port) }
{
    match port {
        None => Ok(()),
        Some(port) => {
            line.put_byte(b' ')?;
            line.put_short(&Decimal(port))
        }
    }
}

/// Appends a tally, and what stands behind it.
fn put_tally(line: &mut Slab, tally: &Tally, behind: u8) -> Result<(), NoMemory>
    ensures { OnOk result (line.new
        ≡ line.old ++ (tally_text tally.now ++ behind ∷ [])) }
{
    line.put_short(&Decimal(tally.frames))?;
    line.put_byte(b' ')?;
    line.put_short(&Decimal(tally.bytes))?;
    line.put_byte(behind)
}
