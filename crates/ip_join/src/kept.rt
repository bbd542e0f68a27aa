ghost use Rattle.std.specs.Prelude.{◌≡◌, ◌+◌, ◌≤◌, length, IfOk};
ghost use Rattle.ip_join.specs.Forms.{place_of, lone_fragment, fragments_of};

use crate::fragment::Fragment;
use crate::parts::Parts;
use pk_base::{FragmentHead, NoMemory, Octets};
use std::alloc::Global;
use std::marker::Model;

/// The fragments of one datagram, between two that are taken.
#[derive(Drop)]
pub(crate) enum Kept {
    One(Box<Lone>),
    Many(Box<Parts>),
}

/// What the head of a fragment says beside its datagram's key.
#[derive(Clone, Copy)]
pub(crate) struct Place {
    offset: u32,
    frame: u32,
    next: u8,
    more: bool,
    whole: bool,
}

/// A fragment alone, in as little memory as may be: most of those that never become a datagram are.
#[derive(Drop)]
pub(crate) struct Lone {
    place: Place,
    bytes: Vec<u8>,
}

impl Model for Lone {
    ghost use Rattle.std.specs.Prelude.{◌+◌, ◌≤◌, ℕ, List, length};
    ghost use Rattle.ip_join.specs.declared.kept.Place.{Place as PlaceValue};

    ghost Value = { PlaceValue × List ℕ };

    ghost view = { λ lone. (lone.place, lone.bytes.items) };

    ghost invariant = { λ lone. lone.place.offset + length lone.bytes.items ≤ 65535 };
}

impl Lone {
    pub(crate) fn new(
        alloc: Global,
        head: &FragmentHead,
        frame: u32,
        payload: &Octets,
    ) -> Result<Lone, NoMemory>
        requires { head.now.offset + length payload.now ≤ 65535 }
        ensures { IfOk result (λ lone. lone ≡ (place_of head.now frame, payload.now)) }
    {
        Ok(Lone {
            place: Place {
                offset: head.offset,
                frame,
                next: head.next,
                more: head.more,
                whole: head.whole,
            },
            bytes: payload.bytes().to_vec(alloc)?,
        })
    }

    /// The fragment, by a head of the same datagram.
    fn into_fragment(self, head: &FragmentHead) -> Result<Fragment, NoMemory>
        ensures fragment { IfOk result (λ fragment. fragment ≡ lone_fragment head.now self) }
        ensures short { IfOk result (λ fragment.
            fragment.head.offset + length fragment.bytes ≤ 65535) }
    {
        let place = self.place;
        Ok(Fragment {
            head: FragmentHead {
                six: head.six,
                source: head.source,
                target: head.target,
                next: place.next,
                ident: head.ident,
                offset: place.offset,
                more: place.more,
                whole: place.whole,
            },
            frame: place.frame,
            bytes: Octets::from_vec(self.bytes)?,
        })
    }
}

impl Kept {
    /// The fragments, by a head of the same datagram.
    pub(crate) fn into_parts(self, alloc: Global, head: &FragmentHead) -> Result<Parts, NoMemory>
        ensures { IfOk result (λ parts. parts ≡ fragments_of head.now self) }
    {
        match self {
            Kept::One(lone) => {
                let fragment = Box::into_inner(lone).into_fragment(head)?;
                Parts::new(alloc).with(fragment)
            }
            Kept::Many(parts) => Ok(Box::into_inner(parts)),
        }
    }
}
