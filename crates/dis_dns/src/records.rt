ghost use Rattle.std.specs.Prelude.{◌≡◌, ℕ, List, Option, true, false, [], ◌∷◌, nat_le, Some, None, ◌+◌, ◌-◌, ◌*◌, ◌<◌, ◌≤◌, ◌^◌, length, min, IfOk, IfSome, IsTrue};
ghost use Rattle.std.specs.List.{flat_map};
ghost use Rattle.pk_tree.specs.Entries.{Entry, ends, goes_on, repeated};
ghost use Rattle.pk_base.specs.declared.value.Value.TheVariants as values;
ghost use Rattle.pk_tree.specs.declared.layout.Step.TheVariants as steps_of_layers;
ghost use Rattle.dis_dns.specs.Chains.{AreChainEnds};
ghost use Rattle.dis_dns.specs.Collected.{Took, TookEntry, is_plain, shows};
ghost use Rattle.dis_dns.specs.Names.{EndsIn, name_at};
ghost use Rattle.dis_dns.specs.Records.{class_rows, data_row, data_steps, mail_data, name_entry, question, question_tail, record_head, record_tail, resource, service_data, service_or_data, shown_name, text_string, word_at, zone_data, zone_numbers};

use crate::fields::{ClassFields, DnsFields, QuestionFields, ServiceFields};
use crate::names::{NameEnd, read_name};
use crate::steps::{Steps, push_rows};
use pk_base::{NAME_LIMIT, NoMemory, Octets};
use pk_fields::FieldId;
use pk_tree::{Step, peek};
use std::alloc::Global;

/// The types of records whose data is read (RFC 1035, 3.2.2; RFC 3596, 2.1; RFC 2782).
const ADDRESS: usize = 1;

const NAME_SERVER: usize = 2;

const CANONICAL_NAME: usize = 5;

const START_OF_AUTHORITY: usize = 6;

const POINTER: usize = 12;

const MAIL_EXCHANGE: usize = 15;

const TEXT: usize = 16;

const ADDRESS_6: usize = 28;

const SERVICE: usize = 33;

/// The bytes between a record's name and its data.
const RECORD_HEAD: usize = 10;

/// A message, where its chains of bare pointers end, how many bytes of its layer stand before it, and the fields that it
/// is shown as.
#[derive(Drop)]
pub(crate) struct Message<'a> {
    pub(crate) fields: DnsFields,
    pub(crate) bytes: &'a [u8],
    pub(crate) chain_ends: &'a [u16],
    pub(crate) base: usize,
    pub(crate) alloc: Global,
}

/// The number in two bytes from a place on, or 0 where they aren't there.
pub(crate) fn word_at(bytes: &[u8], at: usize) -> usize
    requires { at < 2 ^ 60 }
    ensures word { result ≡ word_at bytes.now at }
    ensures bound { result < 65536 }
{
    peek(bytes, 8 * at, 16) as usize
}

/// Adds the steps of the question at a place, and answers where the next one is.
pub(crate) fn push_question(steps: &mut Steps, message: &Message, at: usize) -> Option<usize>
    requires chains { AreChainEnds message.now.bytes.now message.now.chain_ends.now }
    requires base { message.now.base ≤ 2 }
    requires short { length message.now.bytes.now < 2 ^ 32 }
    requires place { at < 2 ^ 33 }
    ensures adds { TookEntry steps.old steps.new
        (question message.now.fields.question message.now.base message.now.bytes.now at) result }
    ensures bound { IfSome result (λ place. place < 2 ^ 33) }
{
    let fields = message.fields.question;
    let end = message.bytes.len();
    match push_name(steps, message, fields.name, end, at) {
        Some(at) => push_question_tail(steps, fields, message.base, at),
        None => None,
    }
}

/// Adds the steps of what follows a question's name, and answers where the next question is.
fn push_question_tail(
    steps: &mut Steps,
    fields: QuestionFields,
    base: usize,
    at: usize,
) -> Option<usize>
    requires base { base ≤ 2 }
    requires place { at < 2 ^ 32 }
    ensures adds { TookEntry steps.old steps.new (question_tail fields base at) result }
    ensures bound { IfSome result (λ place. place < 2 ^ 33) }
{
    steps.push(Step::Row(fields.kind, base + at));
    push_class(steps, fields.class, base + at + 2);
    Some(at + 4)
}

/// Adds the steps of a class.
fn push_class(steps: &mut Steps, fields: ClassFields, at: usize)
    ensures { Took steps.old steps.new (class_rows fields at) }
{
    match fields {
        ClassFields::Full(class) => steps.push(Step::Row(class, at)),
        ClassFields::Split(top, class) => {
            steps.push(Step::Row(top, at));
            steps.push(Step::Row(class, at))
        }
    }
}

/// Adds the steps of the record at a place, and answers where the next one is.
pub(crate) fn push_record(steps: &mut Steps, message: &Message, at: usize) -> Option<usize>
    requires chains { AreChainEnds message.now.bytes.now message.now.chain_ends.now }
    requires base { message.now.base ≤ 2 }
    requires short { length message.now.bytes.now < 2 ^ 32 }
    requires place { at < 2 ^ 33 }
    ensures adds { TookEntry steps.old steps.new
        (resource message.now.fields message.now.base message.now.bytes.now at) result }
    ensures bound { IfSome result (λ place. place < 2 ^ 33) }
{
    let end = message.bytes.len();
    match push_name(steps, message, message.fields.record_head.name, end, at) {
        Some(at) => push_record_tail(steps, message, at),
        None => None,
    }
}

/// Adds the steps of what follows a record's name, and answers where the next record is.
fn push_record_tail(steps: &mut Steps, message: &Message, at: usize) -> Option<usize>
    requires chains { AreChainEnds message.now.bytes.now message.now.chain_ends.now }
    requires base { message.now.base ≤ 2 }
    requires short { length message.now.bytes.now < 2 ^ 32 }
    requires place { at ≤ length message.now.bytes.now }
    ensures adds { TookEntry steps.old steps.new
        (record_tail message.now.fields message.now.base message.now.bytes.now at) result }
    ensures bound { IfSome result (λ place. place < 2 ^ 33) }
{
    let kind = word_at(message.bytes, at);
    let len = word_at(message.bytes, at + 8);
    push_record_head(steps, message, message.base + at);
    push_data(steps, message, kind, at + RECORD_HEAD, len);
    Some(at + RECORD_HEAD + len)
}

/// Adds the steps of a record's numbers, at a place of the layer.
fn push_record_head(steps: &mut Steps, message: &Message, at: usize)
    requires { at < 2 ^ 34 }
    ensures { Took steps.old steps.new (record_head message.now.fields.record_head at) }
{
    let fields = message.fields.record_head;
    steps.push(Step::Row(fields.kind, at));
    push_class(steps, fields.class, at + 2);
    push_rows(steps, at, &[(fields.time_to_live, 4), (fields.len, 8)])
}

/// Adds the steps of the data of a type, of so many bytes from a place on.
#[tactic(auto, unfolding(crate::specs::Records::data_steps))]
fn push_data(steps: &mut Steps, message: &Message, kind: usize, at: usize, len: usize)
    requires chains { AreChainEnds message.now.bytes.now message.now.chain_ends.now }
    requires base { message.now.base ≤ 2 }
    requires short { length message.now.bytes.now < 2 ^ 32 }
    requires place { at < 2 ^ 33 }
    requires len { len < 65536 }
    ensures { Took steps.old steps.new
        (data_steps message.now.fields.record_data message.now.base message.now.bytes.now kind at
        len) }
{
    let fields = message.fields.record_data;
    let place = message.base + at;
    let end = at + len;
    match (kind, len) {
        (ADDRESS, 4) => steps.push(Step::Row(fields.address, place)),
        (ADDRESS_6, 16) => steps.push(Step::Row(fields.address_6, place)),
        (NAME_SERVER, _) => push_name_within(steps, message, fields.name_server, end, at),
        (CANONICAL_NAME, _) => push_name_within(steps, message, fields.canonical_name, end, at),
        (POINTER, _) => push_name_within(steps, message, fields.pointer, end, at),
        (MAIL_EXCHANGE, _) => push_mail(steps, message, at, end),
        (START_OF_AUTHORITY, _) => push_zone(steps, message, at, end),
        (TEXT, _) => push_texts(steps, message, at, len),
        (SERVICE, _) => push_service_or_data(steps, message, at, len),
        _ => steps.push(Step::Part(fields.other, place, len)),
    }
}

/// Adds the steps of the data of a service where it has fields, else of so many bytes.
fn push_service_or_data(steps: &mut Steps, message: &Message, at: usize, len: usize)
    requires chains { AreChainEnds message.now.bytes.now message.now.chain_ends.now }
    requires base { message.now.base ≤ 2 }
    requires short { length message.now.bytes.now < 2 ^ 32 }
    requires place { at < 2 ^ 33 }
    requires len { len < 65536 }
    ensures { Took steps.old steps.new (service_or_data message.now.fields.record_data.service
        message.now.fields.record_data.other message.now.base message.now.bytes.now at
        len) }
{
    match message.fields.record_data.service {
        Some(fields) => push_service(steps, message, fields, at, at + len),
        None => steps.push(Step::Part(message.fields.record_data.other, message.base + at, len)),
    }
}

/// Adds the steps of a service, whose data ends at a place.
fn push_service(steps: &mut Steps, message: &Message, fields: ServiceFields, at: usize, end: usize)
    requires chains { AreChainEnds message.now.bytes.now message.now.chain_ends.now }
    requires base { message.now.base ≤ 2 }
    requires short { length message.now.bytes.now < 2 ^ 32 }
    requires place { at < 2 ^ 33 }
    ensures { Took steps.old steps.new
        (service_data fields message.now.base message.now.bytes.now at end) }
{
    let rows = [(fields.priority, 0), (fields.weight, 2), (fields.port, 4)];
    push_data_rows(steps, message, end, at, 2, &rows);
    push_name_within(steps, message, fields.target, end, at + 6)
}

/// Adds the steps of a name in a record's data, which ends at a place.
fn push_name_within(steps: &mut Steps, message: &Message, field: FieldId, end: usize, at: usize)
    requires chains { AreChainEnds message.now.bytes.now message.now.chain_ends.now }
    requires base { message.now.base ≤ 2 }
    requires place { at < 2 ^ 34 }
    ensures { Took steps.old steps.new (name_entry message.now.base message.now.bytes.now field
        (min end (length message.now.bytes.now)) at).steps }
{
    let limit = end.min(message.bytes.len());
    push_name(steps, message, field, limit, at);
}

/// Adds the steps of a mail exchange, whose data ends at a place.
fn push_mail(steps: &mut Steps, message: &Message, at: usize, end: usize)
    requires chains { AreChainEnds message.now.bytes.now message.now.chain_ends.now }
    requires base { message.now.base ≤ 2 }
    requires short { length message.now.bytes.now < 2 ^ 32 }
    requires place { at < 2 ^ 33 }
    ensures { Took steps.old steps.new
        (mail_data message.now.fields.record_data message.now.base message.now.bytes.now at end) }
{
    let fields = message.fields.record_data;
    push_row(steps, message, end, fields.preference, at, 2);
    push_name_within(steps, message, fields.mail_exchange, end, at + 2)
}

/// Adds the steps of a zone's start of authority, whose data ends at a place.
#[tactic(auto, unfolding(crate::specs::Records::zone_data))]
fn push_zone(steps: &mut Steps, message: &Message, at: usize, end: usize)
    requires chains { AreChainEnds message.now.bytes.now message.now.chain_ends.now }
    requires base { message.now.base ≤ 2 }
    requires short { length message.now.bytes.now < 2 ^ 32 }
    requires place { at < 2 ^ 33 }
    ensures { Took steps.old steps.new
        (zone_data message.now.fields.record_data.zone message.now.base message.now.bytes.now at
        end).steps }
{
    let fields = message.fields.record_data.zone;
    let limit = end.min(message.bytes.len());
    let Some(at) = push_name(steps, message, fields.server, limit, at) else {
        return;
    };
    let Some(at) = push_name(steps, message, fields.mailbox, limit, at) else {
        return;
    };
    push_zone_numbers(steps, message, at, end)
}

/// Adds the steps of the numbers of a zone's start of authority.
#[tactic(auto, unfolding(crate::specs::Records::zone_numbers))]
fn push_zone_numbers(steps: &mut Steps, message: &Message, at: usize, end: usize)
    requires base { message.now.base ≤ 2 }
    requires place { at < 2 ^ 33 }
    ensures { Took steps.old steps.new
        (zone_numbers message.now.fields.record_data.zone message.now.base end at).steps }
{
    let fields = message.fields.record_data.zone;
    let rows = [
        (fields.serial, 0),
        (fields.refresh, 4),
        (fields.retry, 8),
        (fields.expire, 12),
        (fields.minimum, 16),
    ];
    push_data_rows(steps, message, end, at, 4, &rows)
}

/// Adds the steps of rows of a record's data, each a field and its place behind another, of so many bytes each.
fn push_data_rows(
    steps: &mut Steps,
    message: &Message,
    end: usize,
    at: usize,
    len: usize,
    rows: &[(FieldId, u8)],
)
    requires base { message.now.base ≤ 2 }
    requires place { at < 2 ^ 33 }
    requires len { len ≤ 4 }
    ensures { Took steps.old steps.new
        (flat_map (λ row. data_row message.now.base end row.0 (at + row.1) len) rows.now) }
{
    for row in rows {
        push_row(steps, message, end, row.0, at + usize::from(row.1), len);
    }
}

/// Adds the steps of a row of a record's data, of which so many bytes must fit before its end.
fn push_row(steps: &mut Steps, message: &Message, end: usize, field: FieldId, at: usize, len: usize)
    requires base { message.now.base ≤ 2 }
    requires place { at < 2 ^ 34 }
    requires len { len ≤ 4 }
    ensures { Took steps.old steps.new (data_row message.now.base end field at len) }
{
    steps.push(Step::Room(at + len <= end));
    steps.push(Step::Row(field, message.base + at))
}

/// Adds the steps of the strings of a text, in so many bytes from a place on.
fn push_texts(steps: &mut Steps, message: &Message, at: usize, len: usize)
    requires base { message.now.base ≤ 2 }
    requires short { length message.now.bytes.now < 2 ^ 32 }
    requires place { at < 2 ^ 33 }
    requires len { len < 65536 }
    ensures { Took steps.old steps.new
        (repeated len (text_string message.now.base message.now.bytes.now
        message.now.fields.record_data.text (at + len)) at).steps }
{
    let mut place = at;
    for _string in 0..len {
        match push_text(steps, message, place, at + len) {
            Some(next) => place = next,
            None => return,
        }
    }
}

/// Adds the steps of the string at a place of a text, whose data ends at another, and answers where the next one is.
#[tactic(auto, unfolding(crate::specs::Records::text_string))]
fn push_text(steps: &mut Steps, message: &Message, at: usize, end: usize) -> Option<usize>
    requires base { message.now.base ≤ 2 }
    requires short { length message.now.bytes.now < 2 ^ 32 }
    ensures { TookEntry steps.old steps.new
        (text_string message.now.base message.now.bytes.now message.now.fields.record_data.text
        end at) result }
{
    if end <= at {
        return None;
    }
    let Some(len) = message.bytes.get(at) else {
        return push_last(steps, Step::Room(false));
    };
    push_string(steps, message, at, usize::from(*len), end)
}

/// Adds the steps of the string of so many bytes behind its length, and answers where it ends.
fn push_string(
    steps: &mut Steps,
    message: &Message,
    at: usize,
    len: usize,
    end: usize,
) -> Option<usize>
    requires base { message.now.base ≤ 2 }
    requires place { at < 2 ^ 32 }
    requires len { len < 256 }
    ensures { TookEntry steps.old steps.new (goes_on
        (steps_of_layers.Room (nat_le (at + 1 + len) end)
        ∷ steps_of_layers.Whole message.now.fields.record_data.text (message.now.base + at + 1) len
        ∷ []) (at + 1 + len)) result }
{
    let next = at + 1 + len;
    steps.push(Step::Room(next <= end));
    steps.push(Step::Whole(message.fields.record_data.text, message.base + at + 1, len));
    Some(next)
}

/// Adds a step behind which nothing is read.
fn push_last(steps: &mut Steps, step: Step) -> Option<usize>
    requires plain { IsTrue (is_plain step) }
    ensures takes { TookEntry steps.old steps.new (ends (step ∷ [])) result }
    ensures none { result ≡ None }
{
    steps.push(step);
    None
}

/// Adds the steps of the name at a place, whose first run may not go past `end`, and answers where it ends.
#[tactic(auto, unfolding(crate::specs::Records::name_entry))]
fn push_name(
    steps: &mut Steps,
    message: &Message,
    field: FieldId,
    end: usize,
    place: usize,
) -> Option<usize>
    requires chains { AreChainEnds message.now.bytes.now message.now.chain_ends.now }
    requires base { message.now.base ≤ 2 }
    requires end { end ≤ length message.now.bytes.now }
    requires place { place < 2 ^ 34 }
    ensures adds { TookEntry steps.old steps.new
        (name_entry message.now.base message.now.bytes.now field end place) result }
    ensures bound { IfSome result (λ after. after ≤ length message.now.bytes.now) }
{
    let shown = steps.shows(field);
    let room = if shown { NAME_LIMIT } else { 0 };
    let Ok(mut text) = Vec::with_capacity(message.alloc, room) else {
        return push_none(steps);
    };
    let Ok(name) = read_name(
        message.bytes,
        message.chain_ends,
        end,
        place,
        shown,
        &mut text,
    ) else {
        return push_none(steps);
    };
    match name {
        NameEnd::Name(after) => push_found(steps, message, field, place, after, text),
        NameEnd::Leaves => push_last(steps, Step::Room(false)),
        NameEnd::Fails => push_last(steps, Step::Check(false)),
    }
}

/// Takes no more, since there is no memory for it.
fn push_none(steps: &mut Steps) -> Option<usize>
    ensures takes { (entry : Entry) → (answer : Option ℕ)
        → TookEntry steps.old steps.new entry answer }
    ensures none { result ≡ None }
{
    steps.give_up();
    None
}

/// Adds the step of a name with the text of its labels, which ends before a place, and answers that.
fn push_found(
    steps: &mut Steps,
    message: &Message,
    field: FieldId,
    place: usize,
    after: usize,
    text: Vec<u8>,
) -> Option<usize>
    requires base { message.now.base ≤ 2 }
    requires place { place < 2 ^ 34 }
    requires order { place < after }
    ensures adds { (whole : List ℕ) → (shows steps.old field ≡ true → text.items ≡ whole)
        → TookEntry steps.old steps.new
        (goes_on
        (steps_of_layers.Derived field (values.Text (shown_name whole)) (message.now.base + place)
        (after - place) ∷ []) after) result }
    ensures bound { IfSome result (λ next. next ≡ after) }
{
    match name_text(message.alloc, steps.shows(field), text) {
        Ok(text) => {
            steps.push_name(field, text, message.base + place, after - place);
            Some(after)
        }
        Err(_) => push_none(steps),
    }
}

/// The text of a name by its labels where it is to be `shown`. The root's name has none.
fn name_text(alloc: Global, shown: bool, text: Vec<u8>) -> Result<Octets, NoMemory>
    ensures text { IfOk result (λ name. shown ≡ true → name ≡ shown_name text.items) }
    ensures none { IfOk result (λ name. shown ≡ false → name ≡ []) }
{
    if !shown {
        return Ok(Octets::new());
    }
    if text.is_empty() {
        Octets::copy(alloc, b"<Root>")
    } else {
        Octets::from_vec(text)
    }
}
