use crate::place::Entry;
use capture_read::Ending;

/// What was read of the files so far.
pub(crate) struct Readings {
    /// The frames of all files, with their places.
    pub(crate) entries: Vec<Entry>,
    /// How each file ended.
    pub(crate) endings: Vec<Ending>,
    /// How many bytes were captured of all frames.
    pub(crate) captured: usize,
}

impl Drop for Readings {
    fn drop(self) {
        let Readings {
            entries: _entries,
            endings: _endings,
            captured: _,
        } = self;
    }
}

/// Why a file isn't read.
#[derive(Clone, Copy)]
pub(crate) enum Cause {
    CannotOpen,
    ReadFault,
    /// It is too large, or the files up to it together are.
    TooLarge,
    NoMemory,
}

/// At which of the files the reading stopped, and why.
#[derive(Clone, Copy)]
pub(crate) struct Stopped {
    pub(crate) place: usize,
    pub(crate) cause: Cause,
}
