// The file: its header, then a record for each word of the generator.
ghost use Rattle.std.specs.Prelude.{◌≡◌, ◌+◌, ◌<◌, ◌≤◌, ◌^◌, ◌++◌, length, slice_index, ℕ, IfOk, OnOk};
ghost use Rattle.capture_write.specs.Made.{client_of, frame_of, generator_after, made, record_of, records, sent_in, word_of};

use crate::made_frames::{put_answer_frame, put_arp_frame, put_query_frame, put_request_frame};
use crate::numbers::{Number, push_numbers};
use bytes::BufMut;
use pk_base::{NoMemory, Octets};
use rand_core::utils::NextWord;
use rand_pcg::Lcg64Xsh32;
use std::alloc::Global;

const STREAM: u64 = 54;

const FIRST_SECOND: u32 = 1_700_000_000;

const FILE_HEADER: [u8; 24] = [
    0xd4, 0xc3, 0xb2, 0xa1, 2, 0, 4, 0, 0, 0, 0, 0, 0, 0, 0, 0, 0, 0, 4, 0, 1, 0, 0, 0,
];

const CLIENTS: usize = 64;

/// The capture file of so many frames that a number stands for.
#[tactic(auto, unfolding(crate::specs::Made::made, crate::specs::Made::file_header))]
pub fn make(alloc: Global, start: u64, frames: u32) -> Result<Octets, NoMemory>
    requires some { 1 ≤ frames }
    requires most { frames ≤ 200_000 }
    ensures { IfOk result (λ octets. octets ≡ made start frames) }
{
    let mut out = Vec::new(alloc);
    out.put_slice(&FILE_HEADER)?;
    put_records(alloc, &mut out, start, frames)?;
    Octets::from_vec(out)
}

#[tactic(auto, using(crate::proofs::MadeLengths::frame_length, crate::proofs::Sending::sent_few), unfolding(crate::specs::Made::records, crate::specs::Made::generator_after, crate::specs::Made::word_of))]
fn put_records(alloc: Global, out: &mut Vec<u8>, start: u64, frames: u32) -> Result<(), NoMemory>
    requires { frames ≤ 200_000 }
    ensures { OnOk result (out.new.items ≡ out.old.items ++ records start frames) }
{
    let mut generator = Lcg64Xsh32::new(start, STREAM);
    let mut sent = [0; CLIENTS];
    let mut frame = Vec::new(alloc);
    'frames: for index in 0..frames {
        let word = generator.next_word();
        frame.clear();
        put_frame(&mut frame, word, &mut sent)?;
        put_record(out, index, &frame)?;
    }
    Ok(())
}

#[tactic(auto, unfolding(crate::specs::Made::record_head, crate::specs::Made::first_second))]
fn put_record(out: &mut Vec<u8>, index: u32, frame: &[u8]) -> Result<(), NoMemory>
    requires { length frame.now < 2 ^ 32 }
    ensures { OnOk result (out.new.items ≡ out.old.items ++ record_of index frame.now) }
{
    let size = frame.len() as u32;
    let numbers = [
        Number::Four(FIRST_SECOND),
        Number::Four(index),
        Number::Four(size),
        Number::Four(size),
    ];
    push_numbers(out, true, &numbers)?;
    out.put_slice(frame)?;
    Ok(())
}

/// The frame of a word. A client's next bytes follow those that it has sent.
#[tactic(auto, unfolding(crate::specs::Made::frame_of))]
fn put_frame(out: &mut Vec<u8>, word: u32, sent: &mut [u32]) -> Result<(), NoMemory>
    requires all { length sent.old ≡ 64 }
    requires few { (c : ℕ) → c < 64 → slice_index sent.old c < 2 ^ 31 }
    ensures all { length sent.new ≡ 64 }
    ensures frame { OnOk result (out.new.items
        ≡ out.old.items ++ frame_of word (slice_index sent.old (client_of word))) }
    ensures sent { OnOk result ((c : ℕ) → c < 64
        → slice_index sent.new c ≡ slice_index sent.old c + sent_in c word) }
{
    let client = (word / 256 % 64) as u8;
    match word % 4 {
        0 => put_arp_frame(out, client),
        1 => put_query_frame(out, client),
        2 => put_answer_frame(out, client),
        _ => {
            let size = (word / 65_536 % 16 + 1) as u16;
            let before = sent[usize::from(client)];
            put_request_frame(out, client, before, size)?;
            sent[usize::from(client)] = before + u32::from(size);
            Ok(())
        }
    }
}
