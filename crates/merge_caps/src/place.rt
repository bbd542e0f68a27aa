use capture_read::Frame;

/// Where a frame stands among those of all files. Places are ordered by the time, then the file, then the number.
#[derive(Clone, Copy, PartialEq, Eq, PartialOrd, Ord)]
pub(crate) struct Place {
    /// The frame's time, or else the latest before it in its file: none where there is none, which comes first.
    pub(crate) time: Option<i128>,
    /// The file's place among the files.
    pub(crate) file: usize,
    /// The frame's number in its file.
    pub(crate) number: u32,
}

/// A frame and its place.
#[derive(Drop)]
pub(crate) struct Entry {
    pub(crate) place: Place,
    pub(crate) frame: Frame,
}
