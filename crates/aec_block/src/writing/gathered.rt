//! Bits that are gathered in a word, so that a list of bits grows by many at once.

use aec_bits::BitBuf;
use std::marker::Model;

/// Up to 64 bits that are still to be appended to a list. Contracts see these bits.
#[derive(Drop)]
pub(crate) struct Gathered {
    word: u64,
    used: u32,
}

impl Model for Gathered {
    ghost use Rattle.std.specs.Prelude.{◌≤◌, ◌<◌, ◌^◌, List, Bool};
    ghost use Rattle.aec_params.specs.Codewords.{binary};

    ghost Value = { List Bool };

    ghost view = { λ g. binary g.used g.word };

    ghost invariant = { λ g. (g.used ≤ 64) × (g.word < 2 ^ g.used) };
}

#[tactic(auto, using(crate::proofs::GatheredLemmas::gathered_bits))]
impl Gathered {
    ghost use Rattle.std.specs.Prelude.{◌≡◌, ◌+◌, ◌%◌, ◌<◌, ◌≤◌, ◌^◌, ◌++◌, [], length, nat_le};
    ghost use Rattle.aec_params.specs.Codewords.{fs, binary};
    ghost use Rattle.aec_block.specs.Written.{FitsPart, Adds, GathersBits};

    /// Returns no bits.
    #[inline(always)]
    pub(crate) fn new() -> Gathered
        ensures { result ≡ [] }
    {
        Gathered { word: 0, used: 0 }
    }

    /// Returns the bits of a number.
    #[inline(always)]
    pub(crate) fn of_number(value: u64, width: u32) -> Gathered
        requires width { width ≤ 64 }
        requires fits { value < 2 ^ width }
        ensures { result ≡ binary width value }
    {
        Gathered {
            word: value,
            used: width,
        }
    }

    /// Returns whether the word has places for `width` more bits.
    #[inline(always)]
    fn has_place_for(&self, width: u32) -> bool
        ensures { result ≡ nat_le (length self.now + width) 64 }
    {
        width <= 64 - self.used
    }

    /// Returns these bits and those of a number, for which the word has places.
    #[inline(always)]
    fn joined(self, value: u64, width: u32) -> Gathered
        requires number { FitsPart width value }
        requires place { length self + width ≤ 64 }
        ensures { result ≡ self ++ binary width value }
    {
        Gathered {
            word: (self.word << width) + value,
            used: self.used + width,
        }
    }

    /// Appends these bits, for which there is room.
    #[inline(always)]
    pub(crate) fn append_to(self, out: &mut BitBuf)
        requires room { length self ≤ out.old.room }
        ensures { Adds self out.old out.new }
    {
        out.push_reserved(self.word, self.used);
    }

    /// Returns a whole word: these bits, and after them the first bits of a number, without its
    /// `over` last ones.
    #[inline(always)]
    fn filled(self, value: u64, width: u32, over: u32) -> u64
        requires number { FitsPart width value }
        requires over { length self + width ≡ 64 + over }
        ensures { binary 64 result ++ binary over (value % 2 ^ over)
            ≡ self ++ binary width value }
    {
        (self.word << (64 - self.used)) + (value >> over)
    }

    /// Gathers the bits of a number too. If the word has no places for all of them, fills the word,
    /// appends it to the list, which has room for all, and keeps the other bits. So each word is
    /// appended whole: only this test depends on how many bits were gathered.
    #[inline(always)]
    pub(crate) fn put(self, value: u64, width: u32, out: &mut BitBuf) -> Gathered
        requires number { FitsPart width value }
        requires room { length self + width ≤ out.old.room }
        ensures { GathersBits (self ++ binary width value) out.old result out.new }
    {
        if self.has_place_for(width) {
            return self.joined(value, width);
        }
        let over = width - (64 - self.used);
        out.push_reserved(self.filled(value, width, over), 64);
        Gathered::of_number(value % (1 << over), over)
    }

    /// `put` for `v` zeros and a one. Many zeros are appended at once.
    #[inline(always)]
    pub(crate) fn put_fs(self, v: u64, out: &mut BitBuf) -> Gathered
        requires room { length self + (v + 1) ≤ out.old.room }
        ensures { GathersBits (self ++ fs v) out.old result out.new }
    {
        if v < 63 {
            return self.put(1, v as u32 + 1, out);
        }
        self.append_to(out);
        out.push_fs(v).unwrap();
        Gathered::new()
    }
}
