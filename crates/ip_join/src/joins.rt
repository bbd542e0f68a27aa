ghost use Rattle.std.specs.Prelude.{◌≡◌, ◌+◌, ◌≤◌, ℕ, true, [], ◌∷◌, length, map, if◌then◌else◌, List, None, Some, IfOk, OnOk};
ghost use Rattle.ip_join.specs.declared.fragment.Fragment.{Fragment as FragmentValue};
ghost use Rattle.pk_base.specs.declared.heads.FragmentHead.{FragmentHead as FragmentHeadValue};
ghost use Rattle.ip_join.specs.declared.kept.Kept.{Kept as KeptValue};
ghost use Rattle.ip_join.specs.declared.key.Key.{Key as KeyValue};
ghost use Rattle.ip_join.specs.KeyOrder.{key_of as key_value, ties};
ghost use Rattle.ip_join.specs.Stands.{Stands, StandsWithout, counted_for, joined_by, kept_at, of_key};
ghost use Rattle.ip_join.specs.Datagrams.{IsShort};
ghost use Rattle.ip_join.specs.Forms.{bytes_kept, bytes_kept_in, fragments_of};
ghost use Rattle.ip_join.specs.Fragments.{bytes_in};
ghost use Rattle.ip_join.specs.Waiting.{bytes_joined, bytes_waiting, waits_alone};
ghost use Rattle.ip_join.specs.Renumbered.{renumbered, answer_renumbered};

use crate::fragment::Fragment;
use crate::joined::Joined;
use crate::kept::{Kept, Lone};
use crate::key::{FourKey, Key, WideKey, key_of};
use crate::parts::Parts;
use pk_base::{DATAGRAM_LIMIT, FragmentHead, NoMemory, Octets};
use std::alloc::Global;
use std::collections::BTreeMap;

/// The datagrams of which some fragments were taken and which aren't whole yet, by keys.
pub struct Joins {
    alloc: Global,
    four: BTreeMap<FourKey, Kept>,
    wide: BTreeMap<WideKey, Kept>,
}

impl Drop for Joins {
    fn drop(self) {
        let Joins {
            alloc: _,
            four: _four,
            wide: _wide,
        } = self;
    }
}

impl Joins {
    /// No fragment was taken. Takes no memory.
    #[tactic(auto, unfolding(crate::specs::Stands::Stands))]
    pub fn new(alloc: Global) -> Joins
        ensures stands { Stands [] result }
        ensures waiting { bytes_waiting result ≡ 0 }
    {
        Joins {
            alloc,
            four: BTreeMap::new(alloc),
            wide: BTreeMap::new(alloc),
        }
    }

    /// Takes a fragment: its head, its frame's number and its bytes. After `NoMemory` nothing more is known of the joins.
    pub fn take(
        &mut self,
        head: &FragmentHead,
        frame: u32,
        payload: &Octets,
    ) -> Result<Joined, NoMemory>
        requires { head.now.whole ≡ true }
        ensures joined { IfOk result (λ joined. (past : List FragmentValue) → Stands past self.old
            → joined ≡ joined_by past
            (record { head = head.now; frame = frame; bytes = payload.now })) }
        ensures stands { OnOk result ((past : List FragmentValue) → Stands past self.old
            → Stands (record { head = head.now; frame = frame; bytes = payload.now } ∷ past)
            self.new) }
        // whatever else was taken, and in between
        ensures isolated { IfOk result (λ joined. (past others : List FragmentValue)
            → Stands past self.old
            → of_key head.now past ≡ of_key head.now others
            → joined ≡ joined_by others
            (record { head = head.now; frame = frame; bytes = payload.now })) }
        // and whatever the numbers of the frames: the answer names each frame by the place of its fragment
        ensures renumbered { IfOk result (λ joined.
            (past others : List FragmentValue) (one other : ℕ → ℕ) (number : ℕ)
            → Stands past self.old
            → map (renumbered one) (of_key head.now past)
            ≡ map (renumbered other) (of_key head.now others) → one frame ≡ other number
            → answer_renumbered one joined
            ≡ answer_renumbered other
            (joined_by others (record {
              head = head.now;
              frame = number;
              bytes = payload.now;
            }))) }
        ensures short { IfOk result (λ joined. IsShort joined) }
        // each byte of a datagram was brought by a fragment, which waits no more
        ensures brought { IfOk result (λ joined. bytes_joined joined + bytes_waiting self.new
            ≤ bytes_waiting self.old + length payload.now) }
    {
        self.take_next(head, frame, payload)
    }

    /// What `take` does, which states more of it.
    fn take_next(
        &mut self,
        head: &FragmentHead,
        frame: u32,
        payload: &Octets,
    ) -> Result<Joined, NoMemory>
        ensures joined { IfOk result (λ joined. (past : List FragmentValue) → Stands past self.old
            → joined ≡ joined_by past
            (record { head = head.now; frame = frame; bytes = payload.now })) }
        ensures stands { OnOk result ((past : List FragmentValue) → Stands past self.old
            → Stands (record { head = head.now; frame = frame; bytes = payload.now } ∷ past)
            self.new) }
        ensures short { IfOk result (λ joined. IsShort joined) }
        ensures brought { IfOk result (λ joined. bytes_joined joined + bytes_waiting self.new
            ≤ bytes_waiting self.old + length payload.now) }
    {
        let key = key_of(head);
        match self.remove(key) {
            Some(kept) => {
                let before = kept.into_parts(self.alloc, head)?;
                self.go_on(key, before, head, frame, payload)
            }
            None => self.begin(key, head, frame, payload),
        }
    }

    /// Takes the first fragment of a datagram.
    fn begin(
        &mut self,
        key: Key,
        head: &FragmentHead,
        frame: u32,
        payload: &Octets,
    ) -> Result<Joined, NoMemory>
        requires { key ≡ key_value head.now }
        ensures joined { IfOk result (λ joined. (past : List FragmentValue)
            → let new : FragmentValue = record { head = head.now; frame = frame; bytes = payload.now } in
            counted_for new past ≡ [] → joined ≡ joined_by past new) }
        ensures stands { OnOk result ((past : List FragmentValue)
            → let new : FragmentValue = record { head = head.now; frame = frame; bytes = payload.now } in
            counted_for new past ≡ [] → StandsWithout past head.now self.old → Stands (new ∷ past) self.new) }
        ensures short { IfOk result (λ joined. IsShort joined) }
        ensures brought { IfOk result (λ joined. bytes_joined joined + bytes_waiting self.new
            ≤ bytes_waiting self.old + length payload.now) }
    {
        if waits_alone(head, payload) {
            let lone = Lone::new(self.alloc, head, frame, payload)?;
            self.put(key, Kept::One(Box::new(self.alloc, lone)?))?;
            return Ok(Joined::Pending);
        }
        self.go_on(key, Parts::new(self.alloc), head, frame, payload)
    }

    /// Takes one more fragment, behind those that were taken out.
    fn go_on(
        &mut self,
        key: Key,
        before: Parts,
        head: &FragmentHead,
        frame: u32,
        payload: &Octets,
    ) -> Result<Joined, NoMemory>
        requires { key ≡ key_value head.now }
        ensures joined { IfOk result (λ joined. (past : List FragmentValue)
            → let new : FragmentValue = record { head = head.now; frame = frame; bytes = payload.now } in
            before ≡ counted_for new past → joined ≡ joined_by past new) }
        ensures stands { OnOk result ((past : List FragmentValue)
            → let new : FragmentValue = record { head = head.now; frame = frame; bytes = payload.now } in
            before ≡ counted_for new past → StandsWithout past head.now self.old → Stands (new ∷ past) self.new) }
        ensures short { IfOk result (λ joined. IsShort joined) }
        ensures brought { IfOk result (λ joined. bytes_joined joined + bytes_waiting self.new
            ≤ bytes_waiting self.old + (bytes_in before + length payload.now)) }
    {
        // a part would keep the whole block that was read
        match Octets::copy(self.alloc, payload.bytes()) {
            Ok(bytes) => self.join(
                key,
                before,
                Fragment {
                    head: *head,
                    frame,
                    bytes,
                },
            ),
            Err(_) => Err(NoMemory),
        }
    }

    fn join(&mut self, key: Key, before: Parts, new: Fragment) -> Result<Joined, NoMemory>
        requires { key ≡ key_value new.head }
        ensures joined { IfOk result (λ joined. (past : List FragmentValue)
            → before ≡ counted_for new past → joined ≡ joined_by past new) }
        ensures stands { OnOk result ((past : List FragmentValue)
            → before ≡ counted_for new past → StandsWithout past new.head self.old
            → Stands (new ∷ past) self.new) }
        ensures short { IfOk result (λ joined. IsShort joined) }
        ensures brought { IfOk result (λ joined. bytes_joined joined + bytes_waiting self.new
            ≤ bytes_waiting self.old + (bytes_in before + length new.bytes)) }
    {
        let head = new.head;
        if let Some(kind) = before.conflict(&new) {
            return Ok(Joined::Conflict(kind));
        }
        let parts = before.with(new)?;
        match parts.datagram(head)? {
            Some(datagram) => Ok(Joined::Whole(datagram)),
            None => {
                self.keep(key, parts)?;
                Ok(Joined::Pending)
            }
        }
    }

    /// Takes out what is kept by a key.
    fn remove(&mut self, key: Key) -> Option<Kept>
        ensures kept { result ≡ kept_at self.old key }
        ensures rest { (q : KeyValue)
            → kept_at self.new q ≡ (if ties key q then None else kept_at self.old q) }
        ensures waiting { bytes_kept_in result + bytes_waiting self.new ≡ bytes_waiting self.old }
    {
        match key {
            Key::Four(key) => self.four.remove(&key),
            Key::Wide(key) => self.wide.remove(&key),
        }
    }

    /// Keeps several fragments, of whatever datagram has that key.
    fn keep(&mut self, key: Key, parts: Parts) -> Result<(), NoMemory>
        ensures kept { OnOk result ((kept : KeptValue) × ((head : FragmentHeadValue) → fragments_of head kept ≡ parts) × ((q : KeyValue)
            → kept_at self.new q ≡ (if ties key q then Some kept else kept_at self.old q))) }
        ensures waiting { OnOk result (bytes_waiting self.new
            ≤ bytes_waiting self.old + bytes_in parts) }
    {
        let kept = Kept::Many(Box::new(self.alloc, parts)?);
        self.put(key, kept)
    }

    /// Keeps fragments by a key.
    fn put(&mut self, key: Key, kept: Kept) -> Result<(), NoMemory>
        ensures kept { OnOk result ((q : KeyValue)
            → kept_at self.new q ≡ (if ties key q then Some kept else kept_at self.old q)) }
        ensures waiting { OnOk result (bytes_waiting self.new
            ≤ bytes_waiting self.old + bytes_kept kept) }
    {
        match key {
            Key::Four(key) => match self.four.insert(key, kept) {
                Ok(_) => Ok(()),
                Err(_) => Err(NoMemory),
            },
            Key::Wide(key) => match self.wide.insert(key, kept) {
                Ok(_) => Ok(()),
                Err(_) => Err(NoMemory),
            },
        }
    }
}

/// Whether the first fragment of a datagram neither ends too far nor makes it whole.
fn waits_alone(head: &FragmentHead, payload: &Octets) -> bool
    ensures { result ≡ waits_alone (record { head = head.now; frame = 0; bytes = payload.now }) }
{
    let end = u64::from(head.offset) + payload.bytes().len() as u64;
    end <= u64::from(DATAGRAM_LIMIT) && (head.more || 0 < head.offset)
}
