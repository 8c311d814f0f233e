//! Applies a list of edits in one pass.

ghost use Rattle.std.specs.Prelude.{◌≡◌, ◌+◌, ◌-◌, ◌<◌, ◌≤◌, ◌++◌, length, take, drop, OnOk, IfErr};
ghost use Rattle.aec_params.specs.declared.fault.Fault.TheVariants.{Memory};

use super::Workspace;
use crate::batch::Change;
use crate::coded::Coded;
use crate::pieces::{Piece, Pieces, drop_next, take_next};
use aec_bits::{BitBuf, BitReader, Codec};
use aec_params::{Edit, Fault};
use std::alloc::Global;

/// What a list of edits leaves, before it is coded: each sample as its place in the list of the old
/// samples and the values; and each interval as the number of an old interval with the same
/// samples, or as `FRESH` or a greater number.
#[derive(Debug, Drop)]
pub(crate) struct Draft {
    samples: Pieces,
    intervals: Pieces,
    values: Vec<i64>,
    count: u64,
}

/// A number that no interval has.
const FRESH: u64 = 1 << 33;

/// Reads old samples: those of the interval that was decoded last are kept.
#[derive(Debug, Drop)]
pub(crate) struct Reader {
    number: u64,
    opened: Vec<i64>,
    /// What was read.
    front: Vec<i64>,
}

impl Reader {
    ghost use Rattle.std.specs.Prelude.{◌≡◌, []};

    /// Returns a reader that has read nothing.
    fn new(alloc: Global) -> Reader
        ensures { result.opened.items ≡ [] }
    {
        Reader {
            number: 0,
            opened: Vec::new(alloc),
            front: Vec::new(alloc),
        }
    }
}

impl<C: Codec> Workspace<C> {
    ghost use Rattle.std.specs.Prelude.{◌≡◌, ◌+◌, ◌-◌, ◌*◌, ◌^◌, ◌<◌, ◌≤◌, ◌++◌, ◌⊎◌, [], None, Some, List, ℤ, min, length, take, drop, ℕ, IfOk, OnOk, OnErr, IfErr};
    ghost use Rattle.aec_edit.specs.Calls.{RisesAtMost};
    ghost use Rattle.aec_params.specs.declared.fault.Fault.TheVariants.{Memory};
    ghost use Rattle.aec_bits.specs.Codec.{AreHeld, IsInterval};
    ghost use Rattle.aec_edit.specs.Workspace.{interval_count};
    ghost use Rattle.aec_edit.specs.Changes.{exchanged};
    ghost use Rattle.aec_edit.specs.Unchanged.{KeepsRules, KeepsCodec};
    ghost use Rattle.aec_edit.specs.Pieces.{piece_len, places_after};
    ghost use Rattle.aec_edit.specs.Batches.{all_after, all_needed, first_refusal};
    ghost use Rattle.aec_edit.specs.Batched.{HasCount, CanBeMade, gone_by};
    ghost use Rattle.aec_edit.specs.Drafts.{AreAt, IsDraft, IsToCode, CanBeDrafted, IsReader, KeepsList, AddsNext, IsCodeOf, fresh_left};

    /// Applies edits that fit. If it fails with `Memory`, the samples are unchanged.
    pub(crate) fn rebuild(&mut self, edits: &[Edit]) -> Result<u64, Fault>
        requires fit { first_refusal (C.format self.old.codec) self.old.limit self.old.samples
            (C.called self.old.codec) 0 edits.now ≡ None }
        requires calls { C.called self.old.codec
            + all_needed (C.format self.old.codec).most self.old.samples edits.now
            ≤ 2 ^ 64 - 1 }
        ensures ok { OnOk result (self.new.samples ≡ all_after self.old.samples edits.now) }
        ensures coded { IfOk result (λ coded. C.called self.new.codec
            ≡ C.called self.old.codec + coded) }
        ensures rises { RisesAtMost
            (all_needed (C.format self.old.codec).most self.old.samples edits.now)
            (C.called self.old.codec) (C.called self.new.codec) }
        ensures err { OnErr result (self.new.samples ≡ self.old.samples) }
        ensures fault { IfErr result (λ e. e ≡ Memory) }
        ensures rules { KeepsRules C.format self.old self.new }
    {
        let mut draft = self.draft_of(edits)?;
        let before = self.calls();
        let coded = self.code_draft(&mut draft)?;
        self.take_over(coded);
        Ok(self.calls() - before)
    }

    /// Replaces the code by that of other samples.
    fn take_over(&mut self, coded: Coded)
        requires { (s : List ℤ) × HasCount (C.format self.old.codec) (length s) s
            × IsCodeOf (C.format self.old.codec) s coded × (length s ≤ self.old.limit) }
        ensures samples { (s : List ℤ) → AreHeld (C.format self.old.codec) s
            → IsCodeOf (C.format self.old.codec) s coded → self.new.samples ≡ s }
        ensures rest { KeepsCodec self.old self.new }
    {
        self.coded = coded;
    }

    /// Returns a draft of what edits that fit leave, cut before its first sample. Fails with
    /// `Memory` if an allocation fails.
    fn draft_of(&self, edits: &[Edit]) -> Result<Draft, Fault>
        requires { first_refusal (C.format self.now.codec) self.now.limit self.now.samples
            (C.called self.now.codec) 0 edits.now ≡ None }
        ensures ok { IfOk result (IsDraft (C.format self.now.codec) self.now.samples
            (all_after self.now.samples edits.now)
            (all_needed (C.format self.now.codec).most self.now.samples edits.now)) }
        ensures first { IfOk result (λ draft. (draft.samples.at ≡ 0) × (draft.intervals.at ≡ 0)) }
        ensures few { IfOk result (λ draft. draft.count ≤ self.now.limit) }
        ensures fault { IfErr result (λ e. e ≡ Memory) }
    {
        let mut draft = self.first_draft()?;
        for edit in edits {
            let change = self.change_of(draft.count, edit)?;
            self.add(&mut draft, &change)?;
        }
        draft.samples.back_to(0)?;
        draft.intervals.back_to(0)?;
        Ok(draft)
    }

    /// Returns a draft of the samples as they are.
    fn first_draft(&self) -> Result<Draft, Fault>
        ensures ok { IfOk result (IsDraft (C.format self.now.codec) self.now.samples
            self.now.samples 0) }
        ensures few { IfOk result (λ draft. draft.count ≤ self.now.limit) }
        ensures fault { IfErr result (λ e. e ≡ Memory) }
    {
        Ok(Draft {
            samples: Pieces::new(self.alloc, self.count())?,
            intervals: Pieces::new(self.alloc, self.intervals())?,
            values: Vec::new(self.alloc),
            count: self.count(),
        })
    }

    /// Exchanges places of a draft for values.
    fn add(&self, draft: &mut Draft, change: &Change<'_>) -> Result<(), Fault>
        requires { (s : List ℤ) × (most : ℕ)
            × IsDraft (C.format self.now.codec) self.now.samples s most draft.old
            × CanBeMade (C.format self.now.codec) self.now.limit s change.now }
        ensures ok { (s : List ℤ) (most : ℕ)
            → IsDraft (C.format self.now.codec) self.now.samples s most draft.old
            → CanBeMade (C.format self.now.codec) self.now.limit s change.now
            → OnOk result (IsDraft (C.format self.now.codec) self.now.samples
            (exchanged (gone_by change.now) change.now.values.now s)
            (most + change.now.needed) draft.new) }
        ensures count { OnOk result (draft.new.count ≡ change.now.count) }
        ensures fault { IfErr result (λ e. e ≡ Memory) }
    {
        let first = self.count() + draft.values.len() as u64;
        let stop = first + change.values.len() as u64;
        draft.values.extend_from_slice(change.values)?;
        draft
            .samples
            .exchange(change.first, change.stop, Piece { first, stop })?;
        let stop = FRESH + change.needed;
        draft
            .intervals
            .exchange(change.from, change.to, Piece { first: FRESH, stop })?;
        draft.count = change.count;
        Ok(())
    }

    /// Codes the samples of a draft: each interval that is no old one by a call of the codec. Fails
    /// with `Memory` if an allocation fails; some calls may have been made by then.
    fn code_draft(&mut self, draft: &mut Draft) -> Result<Coded, Fault>
        requires { (s : List ℤ) × CanBeDrafted C.format C.called self.old s draft.old
            × (draft.old.count ≡ length s) }
        ensures ok { (s : List ℤ) → CanBeDrafted C.format C.called self.old s draft.old
            → draft.old.count ≡ length s
            → IfOk result (IsCodeOf (C.format self.old.codec) s) }
        ensures same { KeepsList C.format C.called
            (fresh_left (C.format self.old.codec).most self.old.samples draft.old)
            self.old self.new }
        ensures fault { IfErr result (λ e. e ≡ Memory) }
    {
        let interval_len = self.interval_len();
        let mut reader = Reader::new(self.alloc);
        let mut coded = Coded::new(self.alloc);
        let mut left = draft.count;
        while left > 0 {
            let len = interval_len.min(left);
            self.code_step(draft, len, &mut reader, &mut coded)?;
            left -= len;
        }
        coded.count = draft.count;
        Ok(coded)
    }

    /// Appends the code of the next `len` samples of a draft, which are an interval.
    fn code_step(
        &mut self,
        draft: &mut Draft,
        len: u64,
        reader: &mut Reader,
        coded: &mut Coded,
    ) -> Result<(), Fault>
        requires rest { (rest : List ℤ) × CanBeDrafted C.format C.called self.old rest draft.old
            × (len ≡ min (C.format self.old.codec).most (length rest)) }
        requires some { 0 < len }
        requires reader { IsReader (C.format self.old.codec).most self.old.samples reader.old }
        ensures ok { (rest : List ℤ) → CanBeDrafted C.format C.called self.old rest draft.old
            → len ≡ min (C.format self.old.codec).most (length rest)
            → OnOk result (AddsNext C.format C.called rest self.old self.new
            draft.old draft.new coded.old coded.new) }
        ensures reader { OnOk result (IsReader (C.format self.old.codec).most self.old.samples
            reader.new) }
        ensures count { draft.new.count ≡ draft.old.count }
        ensures same { KeepsList C.format C.called 1 self.old self.new }
        ensures err { OnErr result (C.called self.new.codec ≡ C.called self.old.codec) }
        ensures fault { IfErr result (λ e. e ≡ Memory) }
    {
        coded.starts.push(coded.bits.len())?;
        let mark = take_next(&mut draft.intervals.after, 1)?;
        if mark.first < self.intervals() {
            drop_next(&mut draft.samples.after, len)?;
            self.copy_interval(mark.first, &mut coded.bits)?;
            return Ok(());
        }
        let values = draft.values.as_slice();
        self.gather_next(&mut draft.samples.after, len, values, reader)?;
        self.code_front(reader, &mut coded.bits)?;
        Ok(())
    }

    /// Codes the samples that a reader has read, which are an interval.
    fn code_front(&mut self, reader: &Reader, out: &mut BitBuf) -> Result<(), Fault>
        requires interval { IsInterval (C.format self.old.codec) reader.now.front.items }
        requires calls { C.called self.old.codec < 2 ^ 64 - 1 }
        ensures ok { OnOk result (out.new.list
            ≡ out.old.list ++ (C.format self.old.codec).bits_of reader.now.front.items) }
        ensures counts { OnOk result (C.called self.new.codec
            ≡ C.called self.old.codec + 1) }
        ensures err { OnErr result (C.called self.new.codec ≡ C.called self.old.codec) }
        ensures same { KeepsList C.format C.called 1 self.old self.new }
        ensures fault { IfErr result (λ e. e ≡ Memory) }
    {
        self.codec.code(&reader.front, out)
    }

    /// Appends the code of interval `i`.
    fn copy_interval(&self, i: u64, out: &mut BitBuf) -> Result<(), Fault>
        requires few { i < 2 ^ 64 - 1 }
        requires within { i < interval_count (C.format self.now.codec) self.now.samples }
        ensures ok { OnOk result (out.new.list ≡ out.old.list
            ++ (C.format self.now.codec).bits_of (take (C.format self.now.codec).most
            (drop (i * (C.format self.now.codec).most) self.now.samples))) }
        ensures fault { IfErr result (λ e. e ≡ Memory) }
    {
        let bits = &self.coded.bits;
        let start = self.start_at(i);
        let stop = self.start_at(i + 1);
        copy_bits(bits, start, stop, out)
    }

    /// Reads the samples at the next `len` places, and takes these out.
    fn gather_next(
        &mut self,
        after: &mut Vec<Piece>,
        len: u64,
        values: &[i64],
        reader: &mut Reader,
    ) -> Result<(), Fault>
        requires rest { (rest : List ℤ) × AreAt (self.old.samples ++ values.now)
            (places_after after.old.items) rest × (len ≤ length rest) }
        requires reader { IsReader (C.format self.old.codec).most self.old.samples reader.old }
        ensures ok { (rest : List ℤ) → AreAt (self.old.samples ++ values.now)
            (places_after after.old.items) rest → len ≤ length rest
            → OnOk result ((reader.new.front.items ≡ take len rest)
            × AreAt (self.old.samples ++ values.now) (places_after after.new.items)
            (drop len rest)) }
        ensures reader { OnOk result (IsReader (C.format self.old.codec).most self.old.samples
            reader.new) }
        ensures same { KeepsList C.format C.called 0 self.old self.new }
        ensures fault { IfErr result (λ e. e ≡ Memory) }
    {
        reader.front.clear();
        let mut left = len;
        while left > 0 {
            let piece = take_next(after, left)?;
            let got = self.read_piece(piece, values, reader)?;
            after.push(Piece {
                first: piece.first + got,
                stop: piece.stop,
            })?;
            left -= got;
        }
        Ok(())
    }

    /// Appends the first samples at the places of a piece to `front`: all of them, or those that
    /// are in the first place's interval. Returns how many these are.
    fn read_piece(
        &mut self,
        piece: Piece,
        values: &[i64],
        reader: &mut Reader,
    ) -> Result<u64, Fault>
        requires some { 0 < piece_len piece }
        requires within { piece.stop ≤ length self.old.samples + length values.now }
        requires reader { IsReader (C.format self.old.codec).most self.old.samples reader.old }
        ensures ok { IfOk result (λ got. reader.new.front.items ≡ reader.old.front.items
            ++ take got (drop piece.first (self.old.samples ++ values.now))) }
        ensures some { IfOk result (λ got. 0 < got) }
        ensures few { IfOk result (λ got. got ≤ piece_len piece) }
        ensures reader { OnOk result (IsReader (C.format self.old.codec).most self.old.samples
            reader.new) }
        ensures same { KeepsList C.format C.called 0 self.old self.new }
        ensures fault { IfErr result (λ e. e ≡ Memory) }
    {
        let count = self.count();
        if piece.first >= count {
            let first = (piece.first - count) as usize;
            let stop = (piece.stop - count) as usize;
            reader.front.extend_from_slice(&values[first..stop])?;
            return Ok(piece.len());
        }
        let interval_len = self.interval_len();
        self.open(piece.first / interval_len, reader)?;
        let first = (piece.first % interval_len) as usize;
        let len = (piece.len() as usize).min(reader.opened.len() - first);
        reader
            .front
            .extend_from_slice(&reader.opened[first..first + len])?;
        Ok(len as u64)
    }

    /// Decodes interval `i`, unless it was decoded last.
    fn open(&mut self, i: u64, reader: &mut Reader) -> Result<(), Fault>
        requires within { i < interval_count (C.format self.old.codec) self.old.samples }
        requires reader { IsReader (C.format self.old.codec).most self.old.samples reader.old }
        ensures ok { OnOk result (reader.new.opened.items ≡ take (C.format self.old.codec).most
            (drop (i * (C.format self.old.codec).most) self.old.samples)) }
        ensures number { OnOk result (reader.new.number ≡ i) }
        ensures front { reader.new.front ≡ reader.old.front }
        ensures same { KeepsList C.format C.called 0 self.old self.new }
        ensures fault { IfErr result (λ e. e ≡ Memory) }
    {
        if reader.number != i || reader.opened.is_empty() {
            reader.opened.clear();
            reader.number = i;
            self.decode_interval(i, &mut reader.opened)?;
        }
        Ok(())
    }
}

/// Appends the bits from place `start` up to place `stop` of another list.
fn copy_bits(from: &BitBuf, start: u64, stop: u64, out: &mut BitBuf) -> Result<(), Fault>
    requires order { start ≤ stop }
    requires within { stop ≤ length from.now.list }
    ensures ok { OnOk result (out.new.list
        ≡ out.old.list ++ take (stop - start) (drop start from.now.list)) }
    ensures fault { IfErr result (λ e. e ≡ Memory) }
{
    let mut reader = BitReader::new(from);
    reader.seek(start);
    let mut left = stop - start;
    while left > 0 {
        let width = left.min(64) as u32;
        let value = reader.read(width)?;
        out.push_bits(value, width)?;
        left -= u64::from(width);
    }
    Ok(())
}
