ghost use Rattle.std.specs.Prelude.{◌≡◌};
ghost use Rattle.merge_caps.specs.Statuses.{exit_number, written_status};

/// How merging ended. The program ends with the number of this variant, 0 for `Done`.
#[derive(Clone, Copy, Debug)]
pub enum MergeStatus {
    /// All files were read, and all their frames written.
    Done,
    /// The words are outside the command line's grammar.
    BadWords,
    /// A file can't be opened.
    CannotOpen,
    /// A read of a file failed.
    ReadFault,
    /// A file is damaged; the frames before the damage were written.
    Damaged,
    /// A file is larger than is read, or the files together are. Nothing was written.
    TooLarge,
    /// A write to standard output failed.
    WriteFault,
    /// There was no memory for the answer.
    NoMemory,
    /// A frame doesn't fit into the file; those before it were written.
    CannotWrite,
}

impl MergeStatus {
    /// The number with which the program ends.
    pub fn exit_number(self) -> u8
        ensures { result ≡ exit_number self }
    {
        match self {
            MergeStatus::Done => 0,
            MergeStatus::BadWords => 1,
            MergeStatus::CannotOpen => 4,
            MergeStatus::ReadFault => 5,
            MergeStatus::Damaged => 6,
            MergeStatus::TooLarge => 7,
            MergeStatus::WriteFault => 8,
            MergeStatus::NoMemory => 9,
            MergeStatus::CannotWrite => 10,
        }
    }
}

/// The status where all was written up to the first frame that doesn't fit.
pub(crate) fn status_of(unfit: Option<usize>, damaged: bool) -> MergeStatus
    ensures { result ≡ written_status unfit damaged }
{
    match unfit {
        Some(_) => MergeStatus::CannotWrite,
        None if damaged => MergeStatus::Damaged,
        None => MergeStatus::Done,
    }
}
