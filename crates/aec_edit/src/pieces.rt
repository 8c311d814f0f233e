//! Lists of places, kept as pieces of consecutive ones.

ghost use Rattle.std.specs.Prelude.{◌≡◌, ◌+◌, ◌-◌, ◌*◌, ◌<◌, ◌≤◌, ◌++◌, [], length, take, drop, vec_len, IfOk, OnOk, IfErr};
ghost use Rattle.aec_params.specs.declared.fault.Fault.TheVariants.{Memory};
ghost use Rattle.aec_edit.specs.Pieces.{piece_len, places_of, places_after, IsTaken};

use aec_params::Fault;
use std::alloc::Global;

/// The places from `first` up to `stop`.
#[derive(Clone, Copy, Debug, Drop)]
pub(crate) struct Piece {
    pub(crate) first: u64,
    pub(crate) stop: u64,
}

impl Piece {
    /// Returns the number of places.
    pub(crate) fn len(self) -> u64
        ensures { result ≡ piece_len self }
    {
        self.stop.saturating_sub(self.first)
    }
}

/// Takes the next piece that isn't empty out of a list whose next piece is the last. If there is
/// none, returns an empty one.
fn pop_piece(after: &mut Vec<Piece>) -> Piece
    ensures taken { IsTaken result after.old.items after.new.items }
    ensures some { 0 < length (places_after after.old.items) → 0 < piece_len result }
{
    let mut piece = Piece { first: 0, stop: 0 };
    while piece.len() == 0 {
        let Some(next) = after.pop() else {
            return piece;
        };
        piece = next;
    }
    piece
}

/// Takes the next piece out. If it has more than `most` places, its later ones stay. Fails with
/// `Memory` if an allocation fails.
pub(crate) fn take_next(after: &mut Vec<Piece>, most: u64) -> Result<Piece, Fault>
    ensures ok { IfOk result (λ piece. IsTaken piece after.old.items after.new.items) }
    ensures few { IfOk result (λ piece. piece_len piece ≤ most) }
    ensures some { IfOk result (λ piece. 0 < most → 0 < length (places_after after.old.items)
        → 0 < piece_len piece) }
    ensures fault { IfErr result (λ e. e ≡ Memory) }
{
    let piece = pop_piece(after);
    if piece.len() <= most {
        return Ok(piece);
    }
    let cut = piece.first + most;
    after.push(Piece {
        first: cut,
        stop: piece.stop,
    })?;
    Ok(Piece {
        first: piece.first,
        stop: cut,
    })
}

/// Takes the next `len` places out.
pub(crate) fn drop_next(after: &mut Vec<Piece>, len: u64) -> Result<(), Fault>
    requires { len ≤ length (places_after after.old.items) }
    ensures ok { OnOk result (places_after after.new.items
        ≡ drop len (places_after after.old.items)) }
    ensures fault { IfErr result (λ e. e ≡ Memory) }
{
    let mut left = len;
    while left > 0 {
        left -= take_next(after, left)?.len();
    }
    Ok(())
}

/// A list of places, cut in two: the pieces before the cut, and those after it, of which the next
/// one is the last.
#[derive(Debug, Drop)]
pub(crate) struct Pieces {
    pub(crate) before: Vec<Piece>,
    pub(crate) after: Vec<Piece>,
    /// The number of places before the cut.
    pub(crate) at: u64,
}

impl Pieces {
    ghost use Rattle.std.specs.Prelude.{◌≡◌, ◌+◌, ◌-◌, ◌<◌, ◌≤◌, ◌++◌, [], length, take, drop, vec_len, IfOk, OnOk, IfErr};
    ghost use Rattle.std.specs.List.{range_with_len};
    ghost use Rattle.aec_params.specs.declared.fault.Fault.TheVariants.{Memory};
    ghost use Rattle.aec_edit.specs.Pieces.{all_places, piece_places, places_of, places_after, IsCut};

    /// Returns the list of the first `count` places, cut before the first.
    pub(crate) fn new(alloc: Global, count: u64) -> Result<Pieces, Fault>
        ensures ok { IfOk result (λ pieces. all_places pieces ≡ range_with_len 0 count) }
        ensures cut { IfOk result (λ pieces. IsCut pieces) }
        ensures fault { IfErr result (λ e. e ≡ Memory) }
    {
        let mut after = Vec::new(alloc);
        after.push(Piece {
            first: 0,
            stop: count,
        })?;
        Ok(Pieces {
            before: Vec::new(alloc),
            after,
            at: 0,
        })
    }

    /// Moves the cut back to place `place`, if it is after it.
    pub(crate) fn back_to(&mut self, place: u64) -> Result<(), Fault>
        requires { IsCut self.old }
        ensures same { OnOk result (all_places self.new ≡ all_places self.old) }
        ensures cut { OnOk result (IsCut self.new) }
        ensures there { OnOk result (self.new.at ≤ place) }
        ensures fault { IfErr result (λ e. e ≡ Memory) }
    {
        while self.at > place {
            let Some(piece) = self.before.pop() else {
                return Ok(());
            };
            self.at -= piece.len();
            self.after.push(piece)?;
        }
        Ok(())
    }

    /// Moves the cut on to place `place`, if it is before it.
    fn forth_to(&mut self, place: u64) -> Result<(), Fault>
        requires cut { IsCut self.old }
        requires within { place ≤ length (all_places self.old) }
        ensures same { OnOk result (all_places self.new ≡ all_places self.old) }
        ensures cut { OnOk result (IsCut self.new) }
        ensures there { OnOk result (place ≤ self.new.at) }
        ensures least { OnOk result (self.old.at ≤ place → self.new.at ≡ place) }
        ensures fault { IfErr result (λ e. e ≡ Memory) }
    {
        while self.at < place {
            let piece = take_next(&mut self.after, place - self.at)?;
            self.at += piece.len();
            self.before.push(piece)?;
        }
        Ok(())
    }

    /// Exchanges the places number `from` up to number `to` for those of a piece.
    pub(crate) fn exchange(&mut self, from: u64, to: u64, piece: Piece) -> Result<(), Fault>
        requires cut { IsCut self.old }
        requires order { from ≤ to }
        requires within { to ≤ length (all_places self.old) }
        ensures ok { OnOk result (all_places self.new ≡ take from (all_places self.old)
            ++ (piece_places piece ++ drop to (all_places self.old))) }
        ensures cut { OnOk result (IsCut self.new) }
        ensures fault { IfErr result (λ e. e ≡ Memory) }
    {
        self.back_to(from)?;
        self.forth_to(from)?;
        drop_next(&mut self.after, to - from)?;
        self.after.push(piece)?;
        Ok(())
    }
}
