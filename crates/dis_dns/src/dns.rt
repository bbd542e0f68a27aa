ghost use Rattle.std.specs.Prelude.{◌≡◌, List, ◌+◌, ◌<◌, ◌≤◌, ◌^◌, length, drop, IfOk, IfSome, OnOk};
ghost use Rattle.pk_tree.specs.Buffers.{IsInside, bytes_of};
ghost use Rattle.pk_fields.specs.Ids.{DNS, MDNS};
ghost use Rattle.pk_tree.specs.Entries.{repeated};
ghost use Rattle.pk_tree.specs.Layouts.{StepsFit, layer_read};
ghost use Rattle.pk_tree.specs.Values.{IsProtocol};
ghost use Rattle.pk_tree.specs.declared.layout.Step.{Step as StepValue};
ghost use Rattle.dis_dns.specs.Chains.{AreChainEnds};
ghost use Rattle.dis_dns.specs.Collected.{FitsTaken, HoldsSteps, Took, TookEntry};
ghost use Rattle.dis_dns.specs.Dns.{dns_layout, header_rows, mdns_layout, message_steps, record_count, sections};
ghost use Rattle.dis_dns.specs.Names.{ReadsNames, TellsLeaving};
ghost use Rattle.dis_dns.specs.Records.{question, resource, word_at};
ghost use Rattle.dis_dns.specs.Texts.{AllStrings};

use crate::chains::chain_ends;
use crate::fields::{DnsFields, dns_fields, mdns_fields};
use crate::records::{Message, push_question, push_record, word_at};
use crate::steps::{Steps, Taken, push_rows};
use pk_base::{Mode, NoMemory, Span};
use pk_fields::{FieldId, ids};
use pk_tree::{Step, TreeBuilder, pass_layer, read_layer};
use std::alloc::Global;

/// The bytes of a header.
const HEADER: usize = 12;
/// The bytes of the length before a message in a stream.
const PREFIX: usize = 2;

/// Reads a Domain Name System message (RFC 1035, 4.1), behind its length where it is `prefixed`, as in a stream (RFC 1035,
/// 4.2.2). Nothing follows it. `cut` says that the frame was captured only in part.
#[tactic(auto, unfolding(pk_fields::specs::Fields::row_of, pk_fields::specs::Table::rows))]
pub fn read_dns(span: Span, prefixed: bool, cut: bool, b: &mut TreeBuilder) -> Result<(), NoMemory>
    requires inside { IsInside b.old.buffers span }
    requires room { length b.old.layers + 2 < 2 ^ 32 }
    ensures layer { IfOk result (λ _.
        b.new ≡ layer_read b.old DNS span
        (dns_layout prefixed (bytes_of b.old.buffers span)) Mode.Plain cut) }
    ensures names { ReadsNames }
    ensures leaving { TellsLeaving }
    ensures texts { AllStrings }
    ensures buffers { b.new.buffers ≡ b.old.buffers }
    ensures some { OnOk result (0 < length b.new.layers) }
    ensures most { OnOk result (length b.new.layers ≤ length b.old.layers + 2) }
{
    let taken = dns_steps(b, prefixed, b.bytes(span))?;
    add_layer(b, ids::DNS, span, taken, cut)
}

/// Reads a message of multicast DNS (RFC 6762, 18). Nothing follows it. `cut` says that the frame was captured only in part.
#[tactic(auto, unfolding(pk_fields::specs::Fields::row_of, pk_fields::specs::Table::rows))]
pub fn read_mdns(span: Span, cut: bool, b: &mut TreeBuilder) -> Result<(), NoMemory>
    requires inside { IsInside b.old.buffers span }
    requires room { length b.old.layers + 2 < 2 ^ 32 }
    ensures layer { IfOk result (λ _.
        b.new ≡ layer_read b.old MDNS span
        (mdns_layout (bytes_of b.old.buffers span)) Mode.Plain cut) }
    ensures names { ReadsNames }
    ensures leaving { TellsLeaving }
    ensures texts { AllStrings }
    ensures buffers { b.new.buffers ≡ b.old.buffers }
    ensures some { OnOk result (0 < length b.new.layers) }
    ensures most { OnOk result (length b.new.layers ≤ length b.old.layers + 2) }
{
    let taken = mdns_steps(b, b.bytes(span))?;
    add_layer(b, ids::MDNS, span, taken, cut)
}

/// Adds the layer of a message whose steps were taken.
fn add_layer(
    b: &mut TreeBuilder,
    protocol: FieldId,
    span: Span,
    taken: Taken,
    cut: bool,
) -> Result<(), NoMemory>
    requires inside { IsInside b.old.buffers span }
    requires protocol { IsProtocol protocol }
    requires room { length b.old.layers + 2 < 2 ^ 32 }
    requires fits { FitsTaken b.old.wanted protocol taken }
    ensures layer { OnOk result ((layout : List StepValue) → StepsFit protocol layout
        → HoldsSteps b.old.wanted span.len layout taken
        → b.new ≡ layer_read b.old protocol span layout Mode.Plain cut) }
    ensures buffers { b.new.buffers ≡ b.old.buffers }
    ensures some { OnOk result (0 < length b.new.layers) }
    ensures most { OnOk result (length b.new.layers ≤ length b.old.layers + 2) }
{
    match taken {
        Taken::List(steps) => {
            read_layer(b, protocol, span, &steps, Mode::Plain, cut)?;
            Ok(())
        }
        Taken::Reach(reach) => pass_layer(b, protocol, span, reach, Mode::Plain, cut),
    }
}

/// The steps of a layer that has these bytes, or how far they are read where no field of it is wanted.
fn dns_steps(tree: &TreeBuilder, prefixed: bool, bytes: &[u8]) -> Result<Taken, NoMemory>
    requires { length bytes.now < 2 ^ 32 }
    ensures holds { IfOk result (λ taken.
        HoldsSteps tree.now.wanted (length bytes.now) (dns_layout prefixed bytes.now) taken) }
    ensures fits { IfOk result (λ taken. FitsTaken tree.now.wanted DNS taken) }
{
    let mut steps = Steps::new(tree, ids::DNS, bytes.len())?;
    push_dns(tree.alloc(), &mut steps, prefixed, bytes);
    steps.finish()
}

/// The same of multicast DNS.
fn mdns_steps(tree: &TreeBuilder, bytes: &[u8]) -> Result<Taken, NoMemory>
    requires { length bytes.now < 2 ^ 32 }
    ensures holds { IfOk result (λ taken.
        HoldsSteps tree.now.wanted (length bytes.now) (mdns_layout bytes.now) taken) }
    ensures fits { IfOk result (λ taken. FitsTaken tree.now.wanted MDNS taken) }
{
    let mut steps = Steps::new(tree, ids::MDNS, bytes.len())?;
    push_mdns(tree.alloc(), &mut steps, bytes);
    steps.finish()
}

#[tactic(auto, unfolding(crate::specs::Dns::dns_layout))]
fn push_dns(alloc: Global, steps: &mut Steps, prefixed: bool, bytes: &[u8])
    requires { length bytes.now < 2 ^ 32 }
    ensures { Took steps.old steps.new (dns_layout prefixed bytes.now) }
{
    if prefixed {
        steps.push(Step::Row(ids::DNS_LENGTH, 0));
        push_message(alloc, steps, dns_fields(), behind_prefix(bytes), PREFIX)
    } else {
        push_message(alloc, steps, dns_fields(), bytes, 0)
    }
}

#[tactic(auto, unfolding(crate::specs::Dns::mdns_layout))]
fn push_mdns(alloc: Global, steps: &mut Steps, bytes: &[u8])
    requires { length bytes.now < 2 ^ 32 }
    ensures { Took steps.old steps.new (mdns_layout bytes.now) }
{
    push_message(alloc, steps, mdns_fields(), bytes, 0)
}

/// Adds the steps of a message before which its layer has so many bytes.
fn push_message(alloc: Global, steps: &mut Steps, fields: DnsFields, bytes: &[u8], base: usize)
    requires base { base ≤ 2 }
    requires short { length bytes.now < 2 ^ 32 }
    ensures { Took steps.old steps.new (message_steps fields base bytes.now) }
{
    let Ok(ends) = chain_ends(alloc, bytes) else {
        return steps.give_up();
    };
    let message = Message {
        fields,
        bytes,
        chain_ends: &ends,
        base,
        alloc,
    };
    push_header(steps, &message);
    push_sections(steps, &message)
}

/// The bytes behind the length, where it is there.
fn behind_prefix(bytes: &[u8]) -> &[u8]
    ensures { result.now ≡ drop 2 bytes.now }
{
    &bytes[PREFIX.min(bytes.len())..]
}

/// Adds the rows of a message's header.
fn push_header(steps: &mut Steps, message: &Message)
    requires { message.now.base ≤ 2 }
    ensures { Took steps.old steps.new (header_rows message.now.fields.header message.now.base) }
{
    let fields = message.fields.header;
    push_rows(
        steps,
        message.base,
        &[
            (fields.id, 0),
            (fields.flags, 2),
            (fields.response, 2),
            (fields.opcode, 2),
            (fields.authoritative, 2),
            (fields.truncated, 2),
            (fields.recursion_desired, 2),
            (fields.recursion_available, 3),
            (fields.reserved, 3),
            (fields.authenticated, 3),
            (fields.checking_disabled, 3),
            (fields.response_code, 3),
            (fields.questions, 4),
            (fields.answers, 6),
            (fields.name_servers, 8),
            (fields.further_records, 10),
        ],
    )
}

/// Adds the steps of a message's questions and records.
fn push_sections(steps: &mut Steps, message: &Message)
    requires chains { AreChainEnds message.now.bytes.now message.now.chain_ends.now }
    requires base { message.now.base ≤ 2 }
    requires short { length message.now.bytes.now < 2 ^ 32 }
    ensures { Took steps.old steps.new
        (sections message.now.fields message.now.base message.now.bytes.now).steps }
{
    let questions = word_at(message.bytes, 4);
    match push_questions(steps, message, questions, HEADER) {
        Some(at) => push_records(steps, message, record_count(message.bytes), at),
        None => {}
    }
}

/// The records of the three sections behind the questions.
fn record_count(bytes: &[u8]) -> usize
    ensures { result ≡ record_count bytes.now }
{
    word_at(bytes, 6) + word_at(bytes, 8) + word_at(bytes, 10)
}

/// Adds the steps of at most so many questions from a place on, and answers where the records are.
fn push_questions(steps: &mut Steps, message: &Message, count: usize, at: usize) -> Option<usize>
    requires chains { AreChainEnds message.now.bytes.now message.now.chain_ends.now }
    requires base { message.now.base ≤ 2 }
    requires short { length message.now.bytes.now < 2 ^ 32 }
    requires place { at < 2 ^ 33 }
    ensures adds { TookEntry steps.old steps.new
        (repeated count (question message.now.fields.question message.now.base
        message.now.bytes.now) at) result }
    ensures bound { IfSome result (λ place. place < 2 ^ 33) }
{
    let mut place = at;
    for _question in 0..count {
        match push_question(steps, message, place) {
            Some(next) => place = next,
            None => return None,
        }
    }
    Some(place)
}

/// Adds the steps of at most so many records from a place on.
fn push_records(steps: &mut Steps, message: &Message, count: usize, at: usize)
    requires chains { AreChainEnds message.now.bytes.now message.now.chain_ends.now }
    requires base { message.now.base ≤ 2 }
    requires short { length message.now.bytes.now < 2 ^ 32 }
    requires place { at < 2 ^ 33 }
    ensures { Took steps.old steps.new
        (repeated count (resource message.now.fields message.now.base message.now.bytes.now)
        at).steps }
{
    let mut place = at;
    for _record in 0..count {
        match push_record(steps, message, place) {
            Some(next) => place = next,
            None => return,
        }
    }
}
