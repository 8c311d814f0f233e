//! Copies and moves stretches of bits in words.

ghost use Rattle.std.specs.Prelude.{◌*◌, ◌≤◌};
ghost use Rattle.aec_bits.specs.Stretches.{HaveCopied, CanCopy};

use crate::words::copying_fours::{copy_fours, move_fours_down, move_fours_up};
use crate::words::{number_at, put_number, word_at};

/// Overwrites `count` bits from place `at` on by the first bits of other words.
pub(crate) fn copy_bits(words: &mut [u64], at: u64, with: &[u64], count: u64)
    requires { CanCopy 0 at count with.now words.old }
    ensures { HaveCopied 0 at count with.now words.old words.new }
{
    let head = (64 - at % 64) % 64;
    if count <= head {
        copy_chunk(words, at, with, 0, count as u32);
        return;
    }
    let tail = (count - head) % 64;
    copy_chunk(words, at, with, 0, head as u32);
    copy_words(
        words,
        ((at + head) / 64) as usize,
        with,
        head,
        ((count - head) / 64) as usize,
    );
    copy_chunk(words, at + (count - tail), with, count - tail, tail as u32);
}

/// Overwrites up to 64 bits from place `at` on by those of other words from place `from` on.
fn copy_chunk(words: &mut [u64], at: u64, with: &[u64], from: u64, width: u32)
    requires width { width ≤ 64 }
    requires copy { CanCopy from at width with.now words.old }
    ensures { HaveCopied from at width with.now words.old words.new }
{
    put_number(words, at, width, number_at(with, from, width));
}

/// Overwrites `count` words from word `place` on by the bits of other words from place `from` on.
fn copy_words(words: &mut [u64], place: usize, with: &[u64], from: u64, count: usize)
    requires { CanCopy from (64 * place) (64 * count) with.now words.old }
    ensures { HaveCopied from (64 * place) (64 * count) with.now words.old words.new }
{
    if from % 64 == 0 {
        copy_each(words, place, with, from, count);
        return;
    }
    let fours = count / 4;
    copy_fours(words, place, with, from, fours);
    copy_each(
        words,
        place + 4 * fours,
        with,
        from + 256 * fours as u64,
        count % 4,
    );
}

/// `copy_words`, word by word.
fn copy_each(words: &mut [u64], place: usize, with: &[u64], from: u64, count: usize)
    requires { CanCopy from (64 * place) (64 * count) with.now words.old }
    ensures { HaveCopied from (64 * place) (64 * count) with.now words.old words.new }
{
    for i in 0..count {
        words[place + i] = word_at(with, from + 64 * i as u64);
    }
}

/// Moves `count` bits from place `from` on to place `to`; the two stretches may overlap.
pub(crate) fn move_bits(words: &mut [u64], from: u64, to: u64, count: u64)
    requires { CanCopy from to count words.old words.old }
    ensures { HaveCopied from to count words.old words.old words.new }
{
    if from == to {
        return;
    }
    if to < from {
        move_down(words, from, to, count);
    } else {
        move_up(words, from, to, count);
    }
}

/// `move_bits` towards the front.
fn move_down(words: &mut [u64], from: u64, to: u64, count: u64)
    requires order { to ≤ from }
    requires copy { CanCopy from to count words.old words.old }
    ensures { HaveCopied from to count words.old words.old words.new }
{
    let head = (64 - to % 64) % 64;
    if count <= head {
        move_chunk(words, from, to, count as u32);
        return;
    }
    let tail = (count - head) % 64;
    move_chunk(words, from, to, head as u32);
    move_words_down(
        words,
        from + head,
        ((to + head) / 64) as usize,
        ((count - head) / 64) as usize,
    );
    move_chunk(
        words,
        from + (count - tail),
        to + (count - tail),
        tail as u32,
    );
}

/// `move_bits` towards the end.
fn move_up(words: &mut [u64], from: u64, to: u64, count: u64)
    requires order { from ≤ to }
    requires copy { CanCopy from to count words.old words.old }
    ensures { HaveCopied from to count words.old words.old words.new }
{
    let tail = (to + count) % 64;
    if count <= tail {
        move_chunk(words, from, to, count as u32);
        return;
    }
    let head = (count - tail) % 64;
    move_chunk(
        words,
        from + (count - tail),
        to + (count - tail),
        tail as u32,
    );
    move_words_up(
        words,
        from + head,
        ((to + head) / 64) as usize,
        ((count - tail) / 64) as usize,
    );
    move_chunk(words, from, to, head as u32);
}

/// Moves up to 64 bits.
fn move_chunk(words: &mut [u64], from: u64, to: u64, width: u32)
    requires width { width ≤ 64 }
    requires copy { CanCopy from to width words.old words.old }
    ensures { HaveCopied from to width words.old words.old words.new }
{
    let value = number_at(words, from, width);
    put_number(words, to, width, value);
}

/// Moves bits from place `from` on to word `place` and those after it, beginning with the first.
fn move_words_down(words: &mut [u64], from: u64, place: usize, count: usize)
    requires order { 64 * place ≤ from }
    requires copy { CanCopy from (64 * place) (64 * count) words.old words.old }
    ensures { HaveCopied from (64 * place) (64 * count) words.old words.old words.new }
{
    if from % 64 == 0 {
        move_each_down(words, from, place, count);
        return;
    }
    let fours = count / 4;
    move_fours_down(words, from, place, fours);
    move_each_down(
        words,
        from + 256 * fours as u64,
        place + 4 * fours,
        count % 4,
    );
}

/// `move_words_down`, word by word.
fn move_each_down(words: &mut [u64], from: u64, place: usize, count: usize)
    requires order { 64 * place ≤ from }
    requires copy { CanCopy from (64 * place) (64 * count) words.old words.old }
    ensures { HaveCopied from (64 * place) (64 * count) words.old words.old words.new }
{
    for i in 0..count {
        words[place + i] = word_at(words, from + 64 * i as u64);
    }
}

/// Moves bits from place `from` on to word `place` and those after it, beginning with the last.
fn move_words_up(words: &mut [u64], from: u64, place: usize, count: usize)
    requires order { from ≤ 64 * place }
    requires copy { CanCopy from (64 * place) (64 * count) words.old words.old }
    ensures { HaveCopied from (64 * place) (64 * count) words.old words.old words.new }
{
    if from % 64 == 0 {
        move_each_up(words, from, place, count);
        return;
    }
    let rest = count % 4;
    move_fours_up(words, from + 64 * rest as u64, place + rest, count / 4);
    move_each_up(words, from, place, rest);
}

/// `move_words_up`, word by word.
fn move_each_up(words: &mut [u64], from: u64, place: usize, count: usize)
    requires order { from ≤ 64 * place }
    requires copy { CanCopy from (64 * place) (64 * count) words.old words.old }
    ensures { HaveCopied from (64 * place) (64 * count) words.old words.old words.new }
{
    let mut left = count;
    while left > 0 {
        left -= 1;
        words[place + left] = word_at(words, from + 64 * left as u64);
    }
}
