ghost use Rattle.std.specs.Prelude.{◌≡◌};

use crate::compiled::Compiled;
use crate::rules::PlanRules;
use crate::source::PlanSource;
use capture_write::Format;
use out_lines::Style;
use pk_fields::FieldId;
use shark_words::{LineKind, ReportList};
use std::marker::Model;

/// A list of fields.
#[derive(Drop)]
pub struct FieldList {
    all: Vec<FieldId>,
}

impl Model for FieldList {
    ghost use Rattle.std.specs.Prelude.{List, ℕ};

    ghost Value = { List ℕ };

    ghost view = { λ f. f.all.items };
}

impl FieldList {
    pub fn from_vec(v: Vec<FieldId>) -> FieldList
        ensures { result ≡ v.items }
    {
        FieldList { all: v }
    }

    pub fn slice(&self) -> &[FieldId]
        ensures { result.now ≡ self.now }
    {
        self.all.as_slice()
    }
}

/// What a run is asked for.
pub struct Plan {
    /// Where the frames come from.
    pub source: PlanSource,
    /// What a frame's tree has to satisfy, where there is a filter, and the program that decides it.
    pub chosen: Option<Compiled>,
    /// Whether the listing of that program is written behind the reports, with how many steps it took.
    pub stats: bool,
    /// Whether the frames are read twice, so that trees also show what later frames bring.
    pub two: bool,
    /// The columns, in order.
    pub fields: FieldList,
    /// How many frames are read at most, where there is a limit.
    pub most: Option<u32>,
    /// The rules that take the place of the usual applications of ports.
    pub decode: PlanRules,
    /// The reports behind the lines, in order.
    pub reports: ReportList,
    /// The kind of line.
    pub kind: LineKind,
    /// How the lines of fields are written.
    pub style: Style,
    /// Whether the line of the fields' names and the lines of frames are left out.
    pub quiet: bool,
    /// The format of the capture that is written in place of all lines, where one is.
    pub written: Option<Format>,
}

impl Drop for Plan {
    fn drop(self) {
        let Plan {
            source: _source,
            chosen: _chosen,
            stats: _,
            two: _,
            fields: _fields,
            most: _,
            decode: _decode,
            reports: _reports,
            kind: _kind,
            style: _style,
            quiet: _,
            written: _written,
        } = self;
    }
}
