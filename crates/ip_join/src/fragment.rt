ghost use Rattle.std.specs.Prelude.{◌≡◌, ◌+◌};
ghost use Rattle.ip_join.specs.Fragments.{end_of};
ghost use Rattle.ip_join.specs.Kept.{has_bytes};

use pk_base::{FragmentHead, Octets};

/// A fragment that was taken: what its headers say, its frame's number, and its bytes.
#[derive(Drop)]
pub struct Fragment {
    pub head: FragmentHead,
    pub frame: u32,
    pub bytes: Octets,
}

impl Fragment {
    /// The position behind its bytes.
    pub(crate) fn end(&self) -> u64
        ensures { result ≡ end_of self.now }
    {
        u64::from(self.head.offset) + self.bytes.bytes().len() as u64
    }

    pub(crate) fn has_bytes(&self) -> bool
        ensures { result ≡ has_bytes self.now }
    {
        !self.bytes.bytes().is_empty()
    }
}
