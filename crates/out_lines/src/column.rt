// A column of a line, as it grows value by value.
ghost use Rattle.std.specs.Prelude.{◌≡◌, [], false, true, OnOk};
ghost use Rattle.out_lines.specs.Columns.{is_wanted, front_of, with_text, with_value};

use crate::style::{Occurrence, Style};
use crate::value_text::put_shown;
use pk_base::{NoMemory, Value};
use pk_fields::FieldId;
use pk_text::{Slab, TextSink};
use std::alloc::Global;
use std::marker::Model;

/// The text of a column so far, without quotes, and whether it has a value.
#[derive(Drop)]
pub(crate) struct Column {
    text: Slab,
    filled: bool,
}

impl Model for Column {
    ghost use Rattle.out_lines.specs.Columns.{ColumnShown};

    ghost Value = { ColumnShown };

    ghost view = { λ column. record { text = column.text; filled = column.filled } };
}

impl Column {
    pub(crate) fn new(alloc: Global) -> Column
        ensures { result ≡ record { text = []; filled = false } }
    {
        Column {
            text: Slab::new(alloc),
            filled: false,
        }
    }

    pub(crate) fn clear(&mut self)
        ensures { self.new ≡ record { text = []; filled = false } }
    {
        self.text.clear();
        self.filled = false;
    }

    pub(crate) fn text(&self) -> &[u8]
        ensures { result.now ≡ self.now.text }
    {
        self.text.text()
    }

    pub(crate) fn is_filled(&self) -> bool
        ensures { result ≡ self.now.filled }
    {
        self.filled
    }

    /// Whether one more value is shown.
    fn wants(&self, occurrence: Occurrence) -> bool
        ensures { result ≡ is_wanted occurrence self.now.filled }
    {
        match occurrence {
            Occurrence::First => !self.filled,
            Occurrence::Last | Occurrence::All => true,
        }
    }

    /// Makes ready for one more value.
    #[inline(always)]
    fn begin_value(&mut self, style: &Style) -> Result<(), NoMemory>
        ensures { OnOk result (self.new
            ≡ record {
              text = front_of style.now.occurrence style.now.aggregator self.old;
              filled = true;
            }) }
    {
        match style.occurrence {
            Occurrence::First => {}
            Occurrence::Last => self.text.clear(),
            Occurrence::All => {
                if self.filled {
                    self.text.put_byte(style.aggregator)?;
                }
            }
        }
        self.filled = true;
        Ok(())
    }

    #[tactic(auto, unfolding(crate::specs::Columns::with_value))]
    pub(crate) fn add_value(
        &mut self,
        style: &Style,
        field: FieldId,
        value: &Value,
    ) -> Result<(), NoMemory>
        ensures { OnOk result (self.new
            ≡ with_value style.now.occurrence style.now.aggregator field self.old value.now) }
    {
        if !self.wants(style.occurrence) {
            return Ok(());
        }
        self.begin_value(style)?;
        put_shown(&mut self.text, field, value)
    }

    pub(crate) fn add_text(&mut self, style: &Style, text: &str) -> Result<(), NoMemory>
        ensures { OnOk result (self.new
            ≡ with_text style.now.occurrence style.now.aggregator self.old text.now) }
    {
        if !self.wants(style.occurrence) {
            return Ok(());
        }
        self.begin_value(style)?;
        self.text.put_text(text)
    }
}
