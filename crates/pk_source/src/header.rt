use pk_base::Span;
use pk_fields::FieldId;
use pk_tree::Slot;

/// A layer all of whose rows are read, where it stands, and the table that reads it.
#[derive(Clone, Copy)]
pub struct Header {
    pub proto: FieldId,
    /// Which of the frame's layers of this protocol it is, from 1.
    pub nth: u32,
    pub span: Span,
    pub slots: &'static [Slot],
    /// The only size that the table names.
    pub size: u32,
}

/// What is told of a layer beside the rows of its table. It stands behind them.
#[derive(Clone, Copy)]
pub struct Note {
    pub field: FieldId,
    pub told: Told,
}

/// Where a value stands, or what it is.
#[derive(Clone, Copy)]
pub enum Told {
    /// The field's row reads it in these bytes.
    Read(Span),
    Number(u64),
    /// Nanoseconds.
    Moment(i128),
}
