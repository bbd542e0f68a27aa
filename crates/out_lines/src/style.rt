/// Which of a field's values a column shows.
#[derive(Clone, Copy, PartialEq, Eq)]
pub enum Occurrence {
    First,
    Last,
    All,
}

/// What a column stands in.
#[derive(Clone, Copy, PartialEq, Eq)]
pub enum Quote {
    Double,
    Single,
    None,
}

/// How the lines of fields are written.
#[derive(Clone, Copy, PartialEq, Eq)]
pub struct Style {
    /// Whether the line of the fields' names stands first.
    pub header: bool,
    /// The byte between two columns.
    pub separator: u8,
    pub occurrence: Occurrence,
    /// The byte between two values of a column.
    pub aggregator: u8,
    pub quote: Quote,
}

impl Default for Style {
    ghost use Rattle.std.specs.Prelude.{◌≡◌};
    ghost use Rattle.out_lines.specs.Lines.{default_style};

    fn default() -> Style
        ensures { result ≡ default_style }
    {
        Style {
            header: false,
            separator: b'\t',
            occurrence: Occurrence::All,
            aggregator: b',',
            quote: Quote::None,
        }
    }
}
