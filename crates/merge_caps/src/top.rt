// The top call.
ghost use Rattle.std.specs.Prelude.{◌≡◌, ◌≢◌, ◌<◌, ◌⊎◌, ℕ, List, Option, length, IfErr, IfOk, IfSome, IsErrOf, OnOk};
ghost use Rattle.pk_outside.specs.Outside.{Rose};
ghost use Rattle.shark_words.specs.Words.{texts};
ghost use Rattle.merge_caps.specs.ByTime.{WroteByTime};
ghost use Rattle.merge_caps.specs.Causes.{IsLargeAt, IsUnopened, IsUnread};
ghost use Rattle.merge_caps.specs.Reading.{AreSmallUpTo, IsLeftOfOne, files_of, read_of, so_far};
ghost use Rattle.merge_caps.specs.Stages.{IsWrittenFrom};
ghost use Rattle.merge_caps.specs.Statuses.{IsNoFault, IsRefused, IsWritten, WhenRead, WhenUnread, WhenWritten, WrotePart};
ghost use Rattle.merge_caps.specs.Texts.{Told, ToldRefusal, ToldRefusalWhole, ToldWhole};
ghost use Rattle.merge_caps.specs.Words.{wanted as wanted_by, wanted_of};
ghost use Rattle.merge_caps.specs.Written.{IsPartOf, IsWrittenOf};

use crate::order::put_in_order;
use crate::owned::let_go;
use crate::place::Entry;
use crate::read_files::read_files;
use crate::readings::Readings;
use crate::status::MergeStatus;
use crate::told::{
    are_damaged, lines_of_damage, tell_refusal, tell_stopped, tell_written, unopened_texts,
};
use crate::words::{Wanted, read_words};
use crate::write::write_file;
use capture_write::Format;
use pk_base::NoMemory;
use pk_outside::{Capture, Sink, SinkFault};
use shark_words::WordsError;
use std::alloc::Global;

// Writes the frames in the order of their places, up to the first that doesn't fit.
fn write_merged<O: Sink>(
    alloc: Global,
    format: Format,
    entries: &mut Vec<Entry>,
    out: &mut O,
) -> Result<Option<usize>, SinkFault>
    ensures written { IfOk result (λ unfit. IsWrittenOf format entries.old.items unfit
        (O.written out.old) (O.written out.new)) }
    ensures part { (out.new ≡ out.old)
        ⊎ IsPartOf format entries.old.items (O.written out.old) (O.written out.new) }
    ensures fault { IsErrOf result SinkFault.Failed → Rose (O.faults out.old) (O.faults out.new) }
    ensures no_fault { OnOk result (O.faults out.new ≡ O.faults out.old) }
    ensures starved { IsErrOf result SinkFault.NoMemory → O.faults out.new ≡ O.faults out.old }
{
    match put_in_order(entries) {
        Ok(()) => write_file(alloc, format, entries.as_slice(), out),
        Err(NoMemory) => Err(SinkFault::NoMemory),
    }
}

// Writes the frames that were read, and tells how it ended.
fn write_readings<O: Sink, E: Sink>(
    alloc: Global,
    wanted: &Wanted,
    readings: &mut Readings,
    out: &mut O,
    err: &mut E,
) -> MergeStatus
    requires { length readings.old.endings.items ≡ length wanted.now.names.items }
    ensures all_read { WhenUnread result ⊥ }
    ensures written { WhenWritten result (IsWrittenFrom wanted.now.format (so_far readings.old)
        result (O.written out.old) (O.written out.new)) }
    ensures part { (out.new ≡ out.old)
        ⊎ IsPartOf wanted.now.format readings.old.entries.items
        (O.written out.old) (O.written out.new) }
    ensures write_fault { result ≡ MergeStatus.WriteFault
        → Rose (O.faults out.old) (O.faults out.new) }
    ensures starved { result ≡ MergeStatus.NoMemory → O.faults out.new ≡ O.faults out.old }
    ensures told { (tell : List ℕ → Option (List ℕ)) (asked : List ℕ)
        → IfSome (files_of tell wanted.now.names.items) (λ files.
        so_far readings.old ≡ read_of files)
        → Told (wanted_by wanted.now) tell asked result (E.written err.old) (E.written err.new) }
    ensures told_whole { (tell : List ℕ → Option (List ℕ)) (asked : List ℕ)
        → IfSome (files_of tell wanted.now.names.items) (λ files.
        so_far readings.old ≡ read_of files)
        → ¬ Rose (E.faults err.old) (E.faults err.new)
        → ¬ Rose (E.starved err.old) (E.starved err.new)
        → ToldWhole (wanted_by wanted.now) tell asked result
        (E.written err.old) (E.written err.new) }
{
    let names = wanted.names.as_slice();
    let endings = readings.endings.as_slice();
    match lines_of_damage(alloc, names, endings) {
        Ok(lines) => {
            let damaged = are_damaged(endings);
            let written = write_merged(alloc, wanted.format, &mut readings.entries, out);
            tell_written(alloc, lines, damaged, written, err)
        }
        Err(NoMemory) => MergeStatus::NoMemory,
    }
}

// Reads the files of these names, writes their frames, and tells how it ended.
fn merge_files<C: Capture, O: Sink, E: Sink>(
    alloc: Global,
    wanted: &Wanted,
    capture: &mut C,
    out: &mut O,
    err: &mut E,
) -> MergeStatus
    ensures not_refused { result ≢ MergeStatus.BadWords }
    ensures written { WhenWritten result
        (IfSome (files_of (C.file capture.old) wanted.now.names.items) (λ files.
        IsWritten wanted.now.format files result (O.written out.old) (O.written out.new))) }
    ensures read_back { WhenWritten result
        (IfSome (files_of (C.file capture.old) wanted.now.names.items) (λ files.
        WroteByTime wanted.now.format files result (O.written out.old) (O.written out.new))) }
    ensures part { (out.new ≡ out.old)
        ⊎ IfSome (files_of (C.file capture.old) wanted.now.names.items) (λ files.
        WrotePart wanted.now.format files (O.written out.old) (O.written out.new)) }
    ensures nothing { WhenUnread result (out.new ≡ out.old) }
    ensures unopened { result ≡ MergeStatus.CannotOpen → (place : ℕ)
        × AreSmallUpTo (C.file capture.old) wanted.now.names.items place
        × IsUnopened wanted.now.names.items place (C.missed capture.old) (C.missed capture.new)
        (C.begun capture.old) (C.begun capture.new) (C.refused capture.new) (C.asked capture.new) }
    ensures unread { result ≡ MergeStatus.ReadFault → (place : ℕ)
        × AreSmallUpTo (C.file capture.old) wanted.now.names.items place
        × IsUnread wanted.now.names.items place (C.faults capture.old) (C.faults capture.new)
        (C.begun capture.old) (C.begun capture.new) (C.missed capture.old) (C.missed capture.new)
        (C.asked capture.new) }
    ensures large { result ≡ MergeStatus.TooLarge → (place : ℕ)
        × (place < length wanted.now.names.items)
        × IsLargeAt (C.file capture.old) wanted.now.names.items place }
    ensures small { WhenRead result (AreSmallUpTo (C.file capture.old) wanted.now.names.items
        (length wanted.now.names.items)) }
    ensures took { IsLeftOfOne (C.file capture.old) wanted.now.names.items
        (C.left capture.old) (C.left capture.new) }
    ensures write_fault { result ≡ MergeStatus.WriteFault
        → Rose (O.faults out.old) (O.faults out.new) }
    ensures starved { result ≡ MergeStatus.NoMemory
        → (C.missed capture.new ≡ C.missed capture.old)
        × (C.faults capture.new ≡ C.faults capture.old) × (O.faults out.new ≡ O.faults out.old) }
    ensures told { Told (wanted_by wanted.now) (C.file capture.old) (C.asked capture.new) result
        (E.written err.old) (E.written err.new) }
    ensures told_whole { ¬ Rose (E.faults err.old) (E.faults err.new)
        → ¬ Rose (E.starved err.old) (E.starved err.new)
        → ToldWhole (wanted_by wanted.now) (C.file capture.old) (C.asked capture.new) result
        (E.written err.old) (E.written err.new) }
{
    let names = wanted.names.as_slice();
    let texts = match unopened_texts(alloc, names) {
        Ok(texts) => texts,
        Err(NoMemory) => return MergeStatus::NoMemory,
    };
    let unopened = texts.as_slice();
    match read_files(alloc, names, capture) {
        Ok(mut readings) => {
            let status = write_readings(alloc, wanted, &mut readings, out, err);
            let_go(readings);
            let_go(texts);
            status
        }
        Err(stopped) => {
            let status = tell_stopped(&unopened[stopped.place], stopped.cause, err);
            let_go(texts);
            status
        }
    }
}

/// Merges the capture files that the words of a command line name: reads them in the order of the words, and writes all
/// their frames to `out` as one capture file, in the order of their times, up to the first that doesn't fit into it.
///
/// Frames of the same time stand in the order of the words and then of their files, and a frame without a time behind
/// the latest one before it in its file that has one. Nothing is written before all files are read. The frames before
/// damage count.
pub fn merge<C: Capture, O: Sink, E: Sink>(
    alloc: Global,
    words: &[String],
    capture: &mut C,
    out: &mut O,
    err: &mut E,
) -> MergeStatus
    // Words outside the grammar are refused, or find no memory, and nothing is touched; no others are refused.
    ensures refused { IfErr (wanted_of (texts words.now)) (λ _. IsRefused result
        × (capture.new ≡ capture.old) × (out.new ≡ out.old)) }
    ensures not_refused { IfOk (wanted_of (texts words.now)) (λ _. result ≢ MergeStatus.BadWords) }

    // The file of the merged frames, where all was written up to the first that doesn't fit, and never anything but
    // a front of it.
    ensures written { IfOk (wanted_of (texts words.now)) (λ wanted. WhenWritten result
        (IfSome (files_of (C.file capture.old) wanted.names) (λ files.
        IsWritten wanted.format files result (O.written out.old) (O.written out.new)))) }
    // It is read as the frames of the files, each once, in the order of their times.
    ensures read_back { IfOk (wanted_of (texts words.now)) (λ wanted. WhenWritten result
        (IfSome (files_of (C.file capture.old) wanted.names) (λ files.
        WroteByTime wanted.format files result (O.written out.old) (O.written out.new)))) }
    ensures part { IfOk (wanted_of (texts words.now)) (λ wanted. (out.new ≡ out.old)
        ⊎ IfSome (files_of (C.file capture.old) wanted.names) (λ files.
        WrotePart wanted.format files (O.written out.old) (O.written out.new))) }
    ensures nothing { WhenUnread result (out.new ≡ out.old) }

    // The causes of the other answers.
    ensures unopened { result ≡ MergeStatus.CannotOpen
        → IfOk (wanted_of (texts words.now)) (λ wanted. (place : ℕ)
        × AreSmallUpTo (C.file capture.old) wanted.names place
        × IsUnopened wanted.names place (C.missed capture.old) (C.missed capture.new)
        (C.begun capture.old) (C.begun capture.new) (C.refused capture.new) (C.asked capture.new)) }
    ensures unread { result ≡ MergeStatus.ReadFault
        → IfOk (wanted_of (texts words.now)) (λ wanted. (place : ℕ)
        × AreSmallUpTo (C.file capture.old) wanted.names place
        × IsUnread wanted.names place (C.faults capture.old) (C.faults capture.new)
        (C.begun capture.old) (C.begun capture.new) (C.missed capture.old) (C.missed capture.new)
        (C.asked capture.new)) }
    ensures large { result ≡ MergeStatus.TooLarge
        → IfOk (wanted_of (texts words.now)) (λ wanted. (place : ℕ)
        × (place < length wanted.names) × IsLargeAt (C.file capture.old) wanted.names place) }
    ensures small { WhenRead result (IfOk (wanted_of (texts words.now)) (λ wanted.
        AreSmallUpTo (C.file capture.old) wanted.names (length wanted.names))) }
    ensures write_fault { result ≡ MergeStatus.WriteFault
        → Rose (O.faults out.old) (O.faults out.new) }

    // A fault is never told as want of memory.
    ensures starved { result ≡ MergeStatus.NoMemory
        → (C.missed capture.new ≡ C.missed capture.old)
        × (C.faults capture.new ≡ C.faults capture.old) × (O.faults out.new ≡ O.faults out.old) }

    // No file is read on behind what is looked at, its first 2^28 bytes and one more.
    ensures took { IfOk (wanted_of (texts words.now)) (λ wanted.
        IsLeftOfOne (C.file capture.old) wanted.names (C.left capture.old) (C.left capture.new)) }

    // Where no fault rose, merging comes to an end, or finds no memory.
    ensures complete { ¬ Rose (C.missed capture.old) (C.missed capture.new)
        → ¬ Rose (C.faults capture.old) (C.faults capture.new)
        → ¬ Rose (O.faults out.old) (O.faults out.new) → IsNoFault result }

    // What standard error is told, whatever becomes of it.
    ensures told { IfOk (wanted_of (texts words.now)) (λ wanted.
        Told wanted (C.file capture.old) (C.asked capture.new) result
        (E.written err.old) (E.written err.new)) }
    ensures told_whole { ¬ Rose (E.faults err.old) (E.faults err.new)
        → ¬ Rose (E.starved err.old) (E.starved err.new)
        → IfOk (wanted_of (texts words.now)) (λ wanted.
        ToldWhole wanted (C.file capture.old) (C.asked capture.new) result
        (E.written err.old) (E.written err.new)) }
    ensures told_refusal { IfErr (wanted_of (texts words.now)) (λ fault.
        ToldRefusal fault result (E.written err.old) (E.written err.new)) }
    ensures told_refusal_whole { ¬ Rose (E.faults err.old) (E.faults err.new)
        → ¬ Rose (E.starved err.old) (E.starved err.new)
        → IfErr (wanted_of (texts words.now)) (λ fault.
        ToldRefusalWhole fault result (E.written err.old) (E.written err.new)) }
{
    match read_words(alloc, words) {
        Ok(wanted) => merge_files(alloc, &wanted, capture, out, err),
        Err(WordsError::Fault(fault)) => tell_refusal(alloc, fault, err),
        Err(WordsError::NoMemory) => MergeStatus::NoMemory,
    }
}
