//! A reader of bits.

mod counted_ones;
mod ends_in_bytes;
mod ends_in_words;
mod seen_words;
mod windows;

use crate::bit_buf::{BitBuf, missing_bits};
use crate::bit_reader::counted_ones::bits_to_one;
use crate::bit_reader::seen_words::seen_sequences;
use crate::bit_reader::windows::{numbers_from, sequences_from};
use crate::words::part_of;
use aec_params::Fault;
use std::marker::Model;

/// A place in a list of bits, from which bits are read in order. Contracts see the list and the
/// place. No call allocates.
#[derive(Debug, Drop)]
pub struct BitReader<'a> {
    buf: &'a BitBuf,
    pos: u64,
}

impl<'a> Model for BitReader<'a> {
    ghost use Rattle.std.specs.Prelude.{◌≤◌, length};
    ghost use Rattle.aec_bits.specs.BitReader.{Cursor};

    ghost Value = { Cursor };

    ghost view = { λ r. record { list = r.buf.now.list; pos = r.pos } };

    ghost invariant = { λ r. r.pos ≤ length r.buf.now.list };
}

impl<'a> BitReader<'a> {
    ghost use Rattle.std.specs.Prelude.{◌≡◌, ◌+◌, ◌*◌, ◌<◌, ◌≤◌, ◌^◌, ◌++◌, min, not, true, false, Some, None, length, drop, MatchResult, IfOk, IfErr, OnOk, OnErr};
    ghost use Rattle.aec_params.specs.declared.fault.Fault.TheVariants.{Truncated};
    ghost use Rattle.aec_params.specs.Codewords.{fs, binary};
    ghost use Rattle.aec_params.specs.Cutting.{up_to_multiple};
    ghost use Rattle.std.specs.List.{flat_map};
    ghost use Rattle.aec_bits.specs.BitReader.{StaysWithin, MovesBy, has_one, behind_ones, AreBelow, StopsBefore, IsBehindWord};

    // bare: it only fills in the fields of a new value
    /// Returns a reader at the first bit.
    pub fn new(buf: &'a BitBuf) -> BitReader<'a>
        ensures list { result.list ≡ buf.now.list }
        ensures pos { result.pos ≡ 0 }
    {
        BitReader { buf, pos: 0 }
    }

    // bare: it returns a field
    /// Returns the place of the next bit.
    pub fn pos(&self) -> u64
        ensures value { result ≡ self.now.pos }
        ensures within { self.now.pos ≤ length self.now.list }
        ensures bound { length self.now.list ≤ 2 ^ 62 }
    {
        // The clauses rely on this call: it says that the list is within its bound.
        let _len = self.buf.len();
        self.pos
    }

    /// Moves to place `pos`.
    pub fn seek(&mut self, pos: u64)
        requires { pos ≤ length self.old.list }
        ensures list { self.new.list ≡ self.old.list }
        ensures pos { self.new.pos ≡ pos }
    {
        self.pos = pos;
    }

    /// Reads the number that the next `width` bits spell, the most significant first. Fails with
    /// `Truncated` and the present place if fewer bits are left.
    #[inline(always)]
    pub fn read(&mut self, width: u32) -> Result<u64, Fault>
        requires { width ≤ 64 }
        ensures fits { IfOk result (λ v. v < 2 ^ width) }
        ensures bits { IfOk result (λ v.
            drop self.old.pos self.old.list
            ≡ binary width v ++ drop (self.old.pos + width) self.old.list) }
        ensures takes { MovesBy width self.old self.new result }
    {
        let start = self.pos;
        if u64::from(width) > self.buf.len() - start {
            return Err(Fault::Truncated { bit: start });
        }
        let value = self.buf.number(start, width);
        self.pos = start + u64::from(width);
        Ok(value)
    }

    /// Reads zeros and the 1 that ends them. Returns the number of zeros. Fails with `Truncated`
    /// and the present place if no 1 is left.
    pub fn read_fs(&mut self) -> Result<u64, Fault>
        ensures bits { IfOk result (λ v.
            drop self.old.pos self.old.list ≡ fs v ++ drop (self.old.pos + v + 1) self.old.list) }
        ensures moves { IfOk result (λ v. self.new.pos ≡ self.old.pos + v + 1) }
        ensures refuses { IfErr result (λ e.
            (has_one (drop self.old.pos self.old.list) ≡ false) × (e ≡ Truncated self.old.pos)) }
        ensures stays { StaysWithin self.old self.new result }
    {
        let start = self.pos;
        match self.buf.zeros_before_one(start) {
            None => Err(Fault::Truncated { bit: start }),
            Some(zeros) => {
                self.pos = start + zeros + 1;
                Ok(zeros)
            }
        }
    }

    /// Fills `numbers` with the numbers of the next fundamental sequences, if each is below 64, and
    /// moves past them. Returns false if at one of them the next 64 bits, or those that are left,
    /// have no 1; `read_fs` may still read it. The reader then hasn't moved, and the contents of
    /// `numbers` are unspecified.
    #[inline(always)]
    pub fn read_sequences(&mut self, numbers: &mut [u32]) -> bool
        ensures bits { result ≡ true →
            drop self.old.pos self.old.list
            ≡ flat_map fs numbers.new ++ drop self.new.pos self.old.list }
        ensures below { result ≡ true → AreBelow 64 numbers.new }
        ensures refuses { result ≡ false
            → StopsBefore (length numbers.old) (drop self.old.pos self.old.list) }
        ensures len { length numbers.new ≡ length numbers.old }
        ensures within { self.new.pos ≤ length self.new.list }
        ensures list { self.new.list ≡ self.old.list }
        ensures stays { result ≡ false → self.new ≡ self.old }
    {
        match sequences_from(self.buf, self.pos, numbers) {
            None => false,
            Some(stop) => {
                self.pos = stop;
                true
            }
        }
    }

    /// Returns the word of the next 64 bits, for `read_from` and `read_sequences_from`; after the
    /// last bit it has zeros. The reader doesn't move.
    #[inline(always)]
    pub fn next_word(&self) -> u64
        ensures { IsBehindWord self.now 0 result }
    {
        self.buf.word_from(self.pos)
    }

    /// Reads the next `width` bits as `read` does, from a word that `next_word` returned `gone`
    /// bits before.
    #[inline(always)]
    pub fn read_from(&mut self, word: u64, gone: u32, width: u32) -> Result<u64, Fault>
        requires word { IsBehindWord self.old gone word }
        requires some { 0 < width }
        requires within { gone + width ≤ 64 }
        ensures fits { IfOk result (λ v. v < 2 ^ width) }
        ensures bits { IfOk result (λ v.
            drop self.old.pos self.old.list
            ≡ binary width v ++ drop (self.old.pos + width) self.old.list) }
        ensures takes { MovesBy width self.old self.new result }
    {
        let start = self.pos;
        if u64::from(width) > self.buf.len() - start {
            return Err(Fault::Truncated { bit: start });
        }
        let value = part_of(word, gone, width);
        self.pos = start + u64::from(width);
        Ok(value)
    }

    /// Reads fundamental sequences as `read_sequences` does, from a word that `next_word` returned
    /// `gone` bits before. Returns false if the word doesn't contain all of them, or at any other
    /// place: no clause says when. The reader then hasn't moved, and the contents of `numbers` are
    /// unspecified.
    #[inline(always)]
    pub fn read_sequences_from(&mut self, word: u64, gone: u32, numbers: &mut [u32]) -> bool
        requires word { IsBehindWord self.old gone word }
        requires some { 0 < gone }
        requires inside { gone < 64 }
        ensures bits { result ≡ true →
            drop self.old.pos self.old.list
            ≡ flat_map fs numbers.new ++ drop self.new.pos self.old.list }
        ensures below { result ≡ true → AreBelow 64 numbers.new }
        ensures len { length numbers.new ≡ length numbers.old }
        ensures within { self.new.pos ≤ length self.new.list }
        ensures list { self.new.list ≡ self.old.list }
        ensures stays { result ≡ false → self.new ≡ self.old }
    {
        match seen_sequences(self.buf, self.pos, word, gone, numbers) {
            None => false,
            Some(behind) => {
                self.pos = behind;
                true
            }
        }
    }

    /// Fills `numbers` with the next numbers of `width` bits each, the most significant bit first.
    /// Fails with `Truncated` and the present place if fewer bits are left than all numbers need.
    #[inline(always)]
    pub fn read_numbers(&mut self, width: u32, numbers: &mut [u32]) -> Result<(), Fault>
        requires { width ≤ 32 }
        ensures bits { OnOk result
            (drop self.old.pos self.old.list
            ≡ flat_map (binary width) numbers.new ++ drop self.new.pos self.old.list) }
        ensures below { OnOk result (AreBelow (2 ^ width) numbers.new) }
        ensures takes { MovesBy (width * length numbers.old) self.old self.new result }
        ensures len { length numbers.new ≡ length numbers.old }
        ensures err { OnErr result (numbers.new ≡ numbers.old) }
    {
        let start = self.pos;
        let bits = u64::from(width).saturating_mul(numbers.len() as u64);
        if bits > self.buf.len() - start {
            Err(Fault::Truncated { bit: start })
        } else {
            numbers_from(self.buf, start, width, numbers);
            self.pos = start + bits;
            Ok(())
        }
    }

    /// Skips the next `count` bits. Fails with `Truncated` and the present place if fewer are left.
    #[inline(always)]
    pub fn skip_bits(&mut self, count: u64) -> Result<(), Fault>
        ensures { MovesBy count self.old self.new result }
    {
        let start = self.pos;
        if count > self.buf.len() - start {
            Err(Fault::Truncated { bit: start })
        } else {
            self.pos = start + count;
            Ok(())
        }
    }

    /// Moves past the next `count` 1 bits. Returns how many bits it moved past. Fails with
    /// `Truncated` and the present place if fewer 1 bits are left.
    #[inline(always)]
    pub fn skip_ones(&mut self, count: u64) -> Result<u64, Fault>
        ensures place { MatchResult result
            (λ gone. behind_ones count (drop self.old.pos self.old.list) ≡ Some gone)
            (λ e. (behind_ones count (drop self.old.pos self.old.list) ≡ None)
            × (e ≡ Truncated self.old.pos)) }
        ensures moves { IfOk result (λ gone. self.new.pos ≡ self.old.pos + gone) }
        ensures stays { StaysWithin self.old self.new result }
    {
        let start = self.pos;
        if count == 0 {
            return Ok(0);
        }
        match bits_to_one(self.buf, start, count) {
            None => Err(Fault::Truncated { bit: start }),
            Some(gone) => {
                self.pos = start + gone;
                Ok(gone)
            }
        }
    }

    /// Moves to the next multiple of 8, or to the end if that comes first. Doesn't move from a
    /// multiple of 8.
    pub fn skip_to_byte(&mut self)
        ensures list { self.new.list ≡ self.old.list }
        ensures pos { self.new.pos
            ≡ min (self.old.pos + up_to_multiple 8 self.old.pos) (length self.old.list) }
    {
        let len = self.buf.len();
        self.pos = (self.pos + missing_bits(self.pos)).min(len);
    }

    /// Returns whether all bits that are left are zeros. True at the end.
    pub fn rest_is_zero(&self) -> bool
        ensures { result ≡ not (has_one (drop self.now.pos self.now.list)) }
    {
        self.buf.zeros_before_one(self.pos).is_none()
    }
}
