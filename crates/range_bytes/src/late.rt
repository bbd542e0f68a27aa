// Pieces that came late: before the end of others.
ghost use Rattle.std.specs.Prelude.{◌≡◌, ℕ, None, List, IfSome, IfNone, OnOk, OnErr};
ghost use Rattle.std.specs.Map.{values_of, remove_entry};
ghost use Rattle.std.specs.BTreeMap.{is_at};
ghost use Rattle.std.specs.Ordering.{nat_cmp};
ghost use Rattle.std.specs.FinMap.{get};
ghost use Rattle.range_bytes.specs.Held.{IsNextHeld};
ghost use Rattle.range_bytes.specs.Pieces.{IsApart, IsKeyed, IsCover, AreFree, held_of, with_piece, with_pieces};
ghost use Rattle.range_bytes.specs.declared.piece.Piece.{Piece as PieceValue};

use crate::piece::Piece;
use pk_base::NoMemory;
use std::collections::BTreeMap;

/// The piece that holds a position.
pub(crate) fn covering(late: &BTreeMap<u64, Piece>, at: u64) -> Option<&Piece>
    requires keyed { IsKeyed late.now.entries }
    requires apart { (high : ℕ) × IsApart 0 (values_of late.now.entries) high }
    ensures some { IfSome result (λ piece.
        IsCover (held_of (values_of late.now.entries)) at piece.now) }
    ensures none { IfNone result (get (held_of (values_of late.now.entries)) at ≡ None) }
{
    match late.range(..=at).next_back() {
        Some((_, piece)) => if at < piece.end { Some(piece) } else { None },
        None => None,
    }
}

/// The least held position from `from` on, where that one isn't held.
pub(crate) fn next_start(late: &BTreeMap<u64, Piece>, from: u64) -> Option<u64>
    requires keyed { IsKeyed late.now.entries }
    requires apart { (high : ℕ) × IsApart 0 (values_of late.now.entries) high }
    requires free { get (held_of (values_of late.now.entries)) from ≡ None }
    ensures { IsNextHeld (held_of (values_of late.now.entries)) from result }
{
    match late.range(from..).next() {
        Some((start, _)) => Some(*start),
        None => None,
    }
}

fn put_one(late: &mut BTreeMap<u64, Piece>, piece: &Piece) -> Result<(), NoMemory>
    ensures ok { OnOk result (late.new.entries ≡ with_piece late.old.entries piece.now) }
    ensures err { OnErr result (late.new.entries ≡ late.old.entries) }
{
    late.insert(piece.start, piece.copy()?)?;
    Ok(())
}

/// Puts pieces in, all or none.
pub(crate) fn put_all(late: &mut BTreeMap<u64, Piece>, pieces: &[Piece]) -> Result<(), NoMemory>
    requires { AreFree late.old.entries pieces.now }
    ensures ok { OnOk result (late.new.entries ≡ with_pieces late.old.entries pieces.now) }
    ensures err { OnErr result (late.new.entries ≡ late.old.entries) }
{
    let mut count = 0;
    while count < pieces.len() {
        if let Err(no_memory) = put_one(late, &pieces[count]) {
            take_out(late, &pieces[..count]);
            return Err(no_memory);
        }
        count += 1;
    }
    Ok(())
}

/// Takes out the pieces that were put in last.
fn take_out(late: &mut BTreeMap<u64, Piece>, pieces: &[Piece])
    ensures { (before : List (ℕ × PieceValue)) → AreFree before pieces.now
        → late.old.entries ≡ with_pieces before pieces.now → late.new.entries ≡ before }
{
    let mut count = pieces.len();
    while 0 < count {
        count -= 1;
        take_one(late, &pieces[count]);
    }
}

fn take_one(late: &mut BTreeMap<u64, Piece>, piece: &Piece)
    ensures { late.new.entries ≡ remove_entry (is_at (nat_cmp piece.now.start)) late.old.entries }
{
    late.remove(&piece.start);
}
