// Pieces in a row, each behind the one before it.
ghost use Rattle.std.specs.Prelude.{◌≡◌, ℕ, ◌+◌, ◌<◌, ◌≤◌, length, slice_get, Some, None, [], ◌∷◌, ◌++◌, IfSome, IfNone, OnOk, OnErr};
ghost use Rattle.std.specs.FinMap.{get};
ghost use Rattle.range_bytes.specs.declared.piece.Piece.{Piece as PieceValue};
ghost use Rattle.range_bytes.specs.Held.{IsNextHeld};
ghost use Rattle.range_bytes.specs.Pieces.{IsApart, IsCover, held_of};

use crate::piece::Piece;
use pk_base::NoMemory;

/// How many pieces start at or before a position.
fn place_of(row: &[Piece], at: u64) -> usize
    ensures within { result ≤ length row.now }
    ensures before { (last : ℕ) (piece : PieceValue) → last + 1 ≡ result
        → slice_get row.now last ≡ Some piece → piece.start ≤ at }
    ensures behind { (piece : PieceValue) → slice_get row.now result ≡ Some piece
        → at < piece.start }
{
    let mut low = 0;
    let mut high = row.len();
    while low < high {
        let middle = low + (high - low) / 2;
        if row[middle].start <= at {
            low = middle + 1;
        } else {
            high = middle;
        }
    }
    low
}

/// The piece that holds a position.
pub(crate) fn covering(row: &[Piece], at: u64) -> Option<&Piece>
    requires { (high : ℕ) × IsApart 0 row.now high }
    ensures some { IfSome result (λ piece. IsCover (held_of row.now) at piece.now) }
    ensures none { IfNone result (get (held_of row.now) at ≡ None) }
{
    let place = place_of(row, at);
    if place == 0 {
        return None;
    }
    let piece = &row[place - 1];
    if at < piece.end { Some(piece) } else { None }
}

/// The least held position from `from` on, where that one isn't held.
pub(crate) fn next_start(row: &[Piece], from: u64) -> Option<u64>
    requires apart { (high : ℕ) × IsApart 0 row.now high }
    requires free { get (held_of row.now) from ≡ None }
    ensures { IsNextHeld (held_of row.now) from result }
{
    let place = place_of(row, from);
    if place < row.len() {
        Some(row[place].start)
    } else {
        None
    }
}

/// Puts a piece behind the others. One alone takes no more memory than it needs.
pub(crate) fn push(row: &mut Vec<Piece>, piece: Piece) -> Result<(), NoMemory>
    ensures ok { OnOk result (row.new.items ≡ row.old.items ++ piece ∷ []) }
    ensures err { OnErr result (row.new.items ≡ row.old.items) }
{
    if row.is_empty() {
        row.reserve_exact(1)?;
    }
    row.push(piece)?;
    Ok(())
}
