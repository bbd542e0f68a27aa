use capture_read::Ending;

/// How the frames of a run end.
#[derive(Clone, Copy)]
pub enum RunEnding {
    /// All that are asked for were read, and the file ends so.
    Read(Ending),
    /// The frame of this number can't be written.
    Unfit(u32),
}
