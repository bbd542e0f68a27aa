ghost use Rattle.std.specs.Prelude.{◌≡◌};

use cap_stats::StatKind;
use capture_write::Format;
use out_lines::Style;
use pk_base::Octets;
use pk_fields::DecodeAs;
use std::marker::Model;

/// Where the frames come from.
#[derive(Drop)]
pub enum Source {
    /// The capture file of this name.
    Named(Octets),
    /// The capture that a number stands for, of so many frames.
    Generated(u64, u32),
}

/// What kind of line a frame has.
#[derive(Clone, Copy)]
pub enum LineKind {
    /// A summary.
    Text,
    /// The values of the named fields.
    Fields,
    /// The whole tree, as JSON.
    Json,
}

/// The names of fields, in the order of the words.
#[derive(Drop)]
pub struct NameList {
    all: Vec<Octets>,
}

impl Model for NameList {
    ghost use Rattle.std.specs.Prelude.{ℕ, List};

    ghost Value = { List (List ℕ) };

    ghost view = { λ l. l.all.items };
}

impl NameList {
    pub fn from_vec(v: Vec<Octets>) -> NameList
        ensures { result ≡ v.items }
    {
        NameList { all: v }
    }

    pub fn slice(&self) -> &[Octets]
        ensures { result.now ≡ self.now }
    {
        self.all.as_slice()
    }
}

/// What stands behind the lines.
#[derive(Clone, Copy)]
pub enum Report {
    /// The bytes of the TCP stream of this number, those of each direction by themselves.
    Follow(u32),
    /// Statistics over the frames that satisfy the filter.
    Table(StatKind),
}

/// The reports, in the order of the words.
#[derive(Drop)]
pub struct ReportList {
    all: Vec<Report>,
}

impl Model for ReportList {
    ghost use Rattle.std.specs.Prelude.{List};
    ghost use Rattle.shark_words.specs.declared.options.Report.{Report};

    ghost Value = { List Report };

    ghost view = { λ l. l.all.items };
}

impl ReportList {
    pub fn from_vec(v: Vec<Report>) -> ReportList
        ensures { result ≡ v.items }
    {
        ReportList { all: v }
    }

    pub fn slice(&self) -> &[Report]
        ensures { result.now ≡ self.now }
    {
        self.all.as_slice()
    }
}

/// What the words ask for.
pub struct Options {
    pub source: Source,
    /// The display filter; none without `-Y`, and for a text of separators alone.
    pub filter: Option<Octets>,
    /// Whether `-2` asks for two passes, so that a frame also shows which later ones answer it.
    pub two: bool,
    pub kind: LineKind,
    /// The names after `-e`. Whether there are such fields isn't asked here.
    pub names: NameList,
    /// How the lines of fields are written.
    pub style: Style,
    /// How many frames are read at most.
    pub most: Option<u32>,
    /// Whether `-q` asks for no header line and no lines of frames.
    pub quiet: bool,
    /// Which ports are read as other applications than usual, in the order of the words.
    pub decode: DecodeAs,
    pub reports: ReportList,
    /// Whether the filter's program and its steps are asked for, which they are only where there is a filter.
    pub stats: bool,
    /// The format of the capture file that is written in place of all lines, where one is.
    pub written: Option<Format>,
}

impl Drop for Options {
    fn drop(self) {
        let Options {
            source: _source,
            filter: _filter,
            two: _,
            kind: _kind,
            names: _names,
            style: _style,
            most: _,
            quiet: _,
            decode: _decode,
            reports: _reports,
            stats: _,
            written: _written,
        } = self;
    }
}
