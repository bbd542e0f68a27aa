// The line of a dissected frame.
ghost use Rattle.std.specs.Prelude.{◌≡◌, ◌<◌, ◌++◌, true, false, length, map, IfOk, OnOk};
ghost use Rattle.pk_tree.specs.Buffers.{buffer_of};
ghost use Rattle.out_json.specs.Lines.{buffer_json, is_bare, item_json, json_line_of, layer_json, made_json, placed_json, string_text, value_json};
ghost use Rattle.out_lines.specs.ValueText.{shown_value};
ghost use Rattle.serde_json.specs.Data.{boolean};
ghost use Rattle.serde_json.specs.View.{items_of};
ghost use Rattle.serde_json.specs.Written.{compact_text, items_text};

use crate::heads::{LayerHead, LayerTail, MadeHead, PlacedHead};
use crate::strings::{put_hex_string, put_string};
use out_lines::put_value;
use pk_base::{NoMemory, Span, Value};
use pk_fields::FieldId;
use pk_text::{Decimal, Slab, TextSink};
use pk_tree::{Buffers, Item, Layer, Place, Tree};
use std::alloc::Global;

/// How many bytes a line has room for from the start.
const LINE_ROOM: usize = 4096;

/// Writes the lines of trees, one after the other, always in the same memory.
pub struct JsonWriter {
    line: Slab,
    /// The text of a value before its quotes and backslashes are escaped.
    text: Slab,
    alloc: Global,
}

impl Drop for JsonWriter {
    fn drop(self) {
        let JsonWriter {
            line: _line,
            text: _text,
            alloc: _alloc,
        } = self;
    }
}

impl JsonWriter {
    pub fn new(alloc: Global) -> JsonWriter {
        JsonWriter {
            line: Slab::new(alloc),
            text: Slab::new(alloc),
            alloc,
        }
    }

    /// Appends the line of a tree, as `json_line` makes it.
    pub fn write(&mut self, line: &mut Vec<u8>, tree: &Tree) -> Result<(), NoMemory>
        ensures { OnOk result (line.new.items ≡ line.old.items ++ json_line_of tree.now) }
    {
        self.line.clear();
        self.put_tree(tree)?;
        line.extend_from_slice(self.line.text())?;
        Ok(())
    }

    /// Appends the line of a tree to a text that others are made in.
    pub fn write_to(&mut self, line: &mut Slab, tree: &Tree) -> Result<(), NoMemory>
        ensures { OnOk result (line.new ≡ line.old ++ json_line_of tree.now) }
    {
        self.line.clear();
        self.put_tree(tree)?;
        line.put(self.line.text())
    }

    fn put_tree(&mut self, tree: &Tree) -> Result<(), NoMemory>
        ensures { OnOk result (self.new.line ≡ self.old.line ++ json_line_of tree.now) }
    {
        self.line.put_text("{\"buffers\":[")?;
        put_buffers(&mut self.line, tree.buffers())?;
        self.line.put_text(",\"layers\":[")?;
        self.put_layers(tree.layers())?;
        self.line.put_text("}\n")
    }

    /// Appends layers, and the bracket behind them.
    fn put_layers(&mut self, layers: &[Layer]) -> Result<(), NoMemory>
        ensures { OnOk result (self.new.line
            ≡ self.old.line ++ items_text false (items_of (map layer_json layers.now))) }
    {
        match layers {
            [] => self.line.put_text("]"),
            [first, others @ ..] => {
                self.put_layer(first)?;
                self.put_further_layers(others)
            }
        }
    }

    /// Appends layers behind the first, and the bracket.
    fn put_further_layers(&mut self, layers: &[Layer]) -> Result<(), NoMemory>
        ensures { OnOk result (self.new.line
            ≡ self.old.line ++ items_text true (items_of (map layer_json layers.now))) }
    {
        for layer in layers {
            self.line.put_byte(b',')?;
            self.put_layer(layer)?;
        }
        self.line.put_text("]")
    }

    fn put_layer(&mut self, layer: &Layer) -> Result<(), NoMemory>
        ensures { OnOk result (self.new.line
            ≡ self.old.line ++ compact_text (layer_json layer.now)) }
    {
        self.line.put_short(&LayerHead {
            buffer: layer.span.buffer,
        })?;
        self.put_items(layer.items.slice())?;
        self.line.put_short(&LayerTail {
            nth: layer.nth,
            span: layer.span,
            proto: layer.proto,
        })
    }

    /// Appends items, and the bracket behind them.
    fn put_items(&mut self, items: &[Item]) -> Result<(), NoMemory>
        ensures { OnOk result (self.new.line
            ≡ self.old.line ++ items_text false (items_of (map item_json items.now))) }
    {
        match items {
            [] => self.line.put_text("]"),
            [first, others @ ..] => {
                self.put_item(first)?;
                self.put_further_items(others)
            }
        }
    }

    /// Appends items behind the first, and the bracket.
    fn put_further_items(&mut self, items: &[Item]) -> Result<(), NoMemory>
        ensures { OnOk result (self.new.line
            ≡ self.old.line ++ items_text true (items_of (map item_json items.now))) }
    {
        for item in items {
            self.line.put_byte(b',')?;
            self.put_item(item)?;
        }
        self.line.put_text("]")
    }

    #[tactic(auto, unfolding(crate::specs::Lines::item_json))]
    fn put_item(&mut self, item: &Item) -> Result<(), NoMemory>
        ensures { OnOk result (self.new.line
            ≡ self.old.line ++ compact_text (item_json item.now)) }
    {
        match item.place {
            Place::Read(span) | Place::Derived(span) => self.put_placed(item, span),
            Place::Made => self.put_made(item),
        }
    }

    #[inline(always)]
    fn put_placed(&mut self, item: &Item, span: Span) -> Result<(), NoMemory>
        ensures { OnOk result (self.new.line
            ≡ self.old.line ++ compact_text (placed_json item.now span)) }
    {
        self.line.put_short(&PlacedHead {
            field: item.field,
            span,
        })?;
        self.put_field_value(item.field, &item.value)?;
        self.line.put_byte(b'}')
    }

    fn put_made(&mut self, item: &Item) -> Result<(), NoMemory>
        ensures { OnOk result (self.new.line
            ≡ self.old.line ++ compact_text (made_json item.now)) }
    {
        self.line.put_short(&MadeHead { field: item.field })?;
        self.put_field_value(item.field, &item.value)?;
        self.line.put_byte(b'}')
    }

    /// Appends a field's value.
    #[inline(always)]
    #[tactic(auto, unfolding(crate::specs::Lines::value_json, crate::specs::Lines::string_text))]
    fn put_field_value(&mut self, field: FieldId, value: &Value) -> Result<(), NoMemory>
        ensures { OnOk result (self.new.line
            ≡ self.old.line ++ compact_text (value_json field value.now)) }
    {
        match value {
            Value::Uint(number) => self.line.put_short(&Decimal(*number)),
            Value::Bool(truth) => put_truth(&mut self.line, *truth),
            Value::Text(_) => self.put_escaped_text(field, value),
            Value::Bytes(_)
            | Value::Ether(_)
            | Value::Ip4(_)
            | Value::Ip6(_)
            | Value::Time(_)
            | Value::Proto(_) => put_bare_text(self.alloc, &mut self.line, field, value),
        }
    }

    /// Appends the text of a value as a string.
    fn put_escaped_text(&mut self, field: FieldId, value: &Value) -> Result<(), NoMemory>
        requires { is_bare value.now ≡ false }
        ensures { OnOk result (self.new.line
            ≡ self.old.line ++ string_text (shown_value field value.now)) }
    {
        self.text.clear();
        put_value(self.alloc, &mut self.text, field, value)?;
        put_string(&mut self.line, self.text.text())
    }
}

fn put_truth(line: &mut Slab, truth: bool) -> Result<(), NoMemory>
    ensures { OnOk result (line.new ≡ line.old ++ compact_text (boolean truth)) }
{
    line.put_text(if truth { "true" } else { "false" })
}

/// Appends the text of a value as a string, where it has no quote and no backslash.
fn put_bare_text(
    alloc: Global,
    line: &mut Slab,
    field: FieldId,
    value: &Value,
) -> Result<(), NoMemory>
    requires { is_bare value.now ≡ true }
    ensures { OnOk result (line.new
        ≡ line.old ++ string_text (shown_value field value.now)) }
{
    line.put_byte(b'"')?;
    put_value(alloc, line, field, value)?;
    line.put_byte(b'"')?;
    Ok(())
}

/// Appends all buffers, and the bracket behind them.
#[tactic(auto, using(crate::proofs::Texts::first_buffer, crate::proofs::Texts::further_buffer, crate::proofs::Texts::last_buffer))]
fn put_buffers(line: &mut Slab, buffers: &Buffers) -> Result<(), NoMemory>
    requires { 0 < length buffers.now }
    ensures { OnOk result (line.new
        ≡ line.old ++ items_text false (items_of (map buffer_json buffers.now))) }
{
    put_buffer(line, buffers, 0)?;
    for number in 1..buffers.count() {
        line.put_byte(b',')?;
        put_buffer(line, buffers, number)?;
    }
    line.put_text("]")
}

#[tactic(auto, unfolding(crate::specs::Lines::buffer_json, crate::specs::Lines::string_text, pk_tree::specs::Buffers::bytes_of))]
fn put_buffer(line: &mut Slab, buffers: &Buffers, number: u32) -> Result<(), NoMemory>
    requires { number < length buffers.now }
    ensures { OnOk result (line.new
        ≡ line.old ++ compact_text (buffer_json (buffer_of buffers.now number))) }
{
    let whole = Span {
        buffer: number,
        start: 0,
        len: buffers.size(number),
    };
    put_hex_string(line, buffers.bytes(whole))
}

/// The line of a tree in JSON, with a line feed: its buffers in hexadecimal, and its layers with their items. The text
/// has no spaces, and the keys of each object stand in the order of their bytes. A value is a number, a truth value, or the
/// text of any other; an item without a place of its own has no `buf`, `pos` and `size`.
pub fn json_line(alloc: Global, tree: &Tree) -> Result<Vec<u8>, NoMemory>
    ensures { IfOk result (λ line. line.items ≡ json_line_of tree.now) }
{
    let mut line = Vec::with_capacity(alloc, LINE_ROOM)?;
    JsonWriter::new(alloc).write(&mut line, tree)?;
    Ok(line)
}
