ghost use Rattle.std.specs.Prelude.{◌≡◌, [], slice_get, OnOk, OnErr};
ghost use Rattle.capture_write.specs.Pcapng.{place_of, is_new, links_with};

use indexmap::IndexSet;
use pk_base::NoMemory;
use std::alloc::Global;
use std::marker::Model;

/// The link types so far, in the order of their first frames.
#[derive(Drop)]
pub struct Links {
    all: IndexSet<u16>,
}

impl Model for Links {
    ghost use Rattle.std.specs.Prelude.{ℕ, List};

    ghost Value = { List ℕ };

    ghost view = { λ l. l.all.keys };

    ghost use Rattle.capture_write.specs.Pcapng.{AreLinkTypes};

    ghost invariant = { λ l. AreLinkTypes l.all.keys };
}

impl Links {
    pub fn new(alloc: Global) -> Links
        ensures { result ≡ [] }
    {
        Links {
            all: IndexSet::new(alloc),
        }
    }

    pub fn first(&self) -> Option<u16>
        ensures { result ≡ slice_get self.now 0 }
    {
        self.all.get_index(0).copied()
    }

    /// Whether no frame so far has this link type.
    #[tactic(auto, using(crate::proofs::LinkLaws::is_new_by))]
    pub fn is_new(&self, link: u16) -> bool
        ensures { result ≡ is_new link self.now }
    {
        !self.all.contains(&link)
    }

    /// The number of a link type's interface: the next one's where it is new.
    #[tactic(auto, using(crate::proofs::LinkLaws::place_by, crate::proofs::LinkLaws::place_few))]
    pub fn place(&self, link: u16) -> u32
        ensures { result ≡ place_of link self.now }
    {
        let count = self.all.len();
        let place = self.all.get_index_of(&link).unwrap_or(count);
        place as u32
    }

    #[tactic(auto, using(crate::proofs::LinkLaws::links_by, crate::proofs::LinkLaws::are_more))]
    pub fn add(&mut self, link: u16) -> Result<(), NoMemory>
        ensures ok { OnOk result (self.new ≡ links_with link self.old) }
        ensures err { OnErr result (self.new ≡ self.old) }
    {
        self.all.insert_full(link)?;
        Ok(())
    }
}
