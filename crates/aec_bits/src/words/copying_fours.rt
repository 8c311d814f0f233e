//! Copies and moves bits that begin within a word, four words at a time.

ghost use Rattle.std.specs.Prelude.{◌≡◌, ◌+◌, ◌*◌, ◌%◌, ◌<◌, ◌≤◌, length, take, drop};
ghost use Rattle.aec_bits.specs.Words.{bits_of_words};
ghost use Rattle.aec_bits.specs.Stretches.{IsInnerPlace, HaveCopied, CanCopy};

use std::simd::prelude::*;

/// Overwrites four times `fours` words from word `place` on by the bits of other words from place
/// `from` on.
pub(crate) fn copy_fours(words: &mut [u64], place: usize, with: &[u64], from: u64, fours: usize)
    requires shifted { 0 < from % 64 }
    requires copy { CanCopy from (64 * place) (256 * fours) with.now words.old }
    ensures { HaveCopied from (64 * place) (256 * fours) with.now words.old words.new }
{
    let first = (from / 64) as usize;
    let at = (from % 64) as u32;
    for i in 0..fours {
        copy_four(words, place + 4 * i, with, first + 4 * i, at);
    }
}

/// Moves bits from place `from` on to word `place` and those after it, beginning with the first
/// four words.
pub(crate) fn move_fours_down(words: &mut [u64], from: u64, place: usize, fours: usize)
    requires shifted { 0 < from % 64 }
    requires order { 64 * place ≤ from }
    requires copy { CanCopy from (64 * place) (256 * fours) words.old words.old }
    ensures { HaveCopied from (64 * place) (256 * fours) words.old words.old words.new }
{
    let first = (from / 64) as usize;
    let at = (from % 64) as u32;
    for i in 0..fours {
        move_four(words, first + 4 * i, at, place + 4 * i);
    }
}

/// Moves bits from place `from` on to word `place` and those after it, beginning with the last four
/// words.
pub(crate) fn move_fours_up(words: &mut [u64], from: u64, place: usize, fours: usize)
    requires shifted { 0 < from % 64 }
    requires order { from ≤ 64 * place }
    requires copy { CanCopy from (64 * place) (256 * fours) words.old words.old }
    ensures { HaveCopied from (64 * place) (256 * fours) words.old words.old words.new }
{
    let first = (from / 64) as usize;
    let at = (from % 64) as u32;
    let mut left = fours;
    while left > 0 {
        left -= 1;
        move_four(words, first + 4 * left, at, place + 4 * left);
    }
}

/// Returns the four words whose bits begin at place `at` of word `from`.
#[inline(always)]
fn joined_four(words: &[u64], from: usize, at: u32) -> u64x4
    requires inside { IsInnerPlace at }
    requires within { from + 5 ≤ length words.now }
    ensures bits { bits_of_words result
        ≡ take 256 (drop (64 * from + at) (bits_of_words words.now)) }
    ensures len { length result ≡ 4 }
{
    let first = u64x4::from_slice(&words[from..]);
    let second = u64x4::from_slice(&words[from + 1..]);
    (first << u64x4::splat(u64::from(at))) | (second >> u64x4::splat(u64::from(64 - at)))
}

/// Moves 256 bits from place `at` of word `from` on to word `place` and those after it.
#[inline(always)]
fn move_four(words: &mut [u64], from: usize, at: u32, place: usize)
    requires inside { IsInnerPlace at }
    requires copy { CanCopy (64 * from + at) (64 * place) 256 words.old words.old }
    ensures { HaveCopied (64 * from + at) (64 * place) 256 words.old words.old words.new }
{
    joined_four(words, from, at).copy_to_slice(&mut words[place..]);
}

/// `move_four` from other words.
#[inline(always)]
fn copy_four(words: &mut [u64], place: usize, with: &[u64], from: usize, at: u32)
    requires inside { IsInnerPlace at }
    requires copy { CanCopy (64 * from + at) (64 * place) 256 with.now words.old }
    ensures { HaveCopied (64 * from + at) (64 * place) 256 with.now words.old words.new }
{
    joined_four(with, from, at).copy_to_slice(&mut words[place..]);
}
