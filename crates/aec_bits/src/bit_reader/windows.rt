//! Reads several codewords at once, from a word that holds the next bits.

ghost use Rattle.std.specs.Prelude.{◌≡◌, ◌+◌, ◌-◌, ◌*◌, ◌/◌, ◌<◌, ◌≤◌, ◌^◌, ◌++◌, ◌%◌, ◌∷◌, [], nat_le, false, length, take, drop, count_ones, replicate, MatchOption};
ghost use Rattle.aec_params.specs.Codewords.{fs, binary};
ghost use Rattle.aec_bits.specs.BitReader.{has_one, StopsBefore};
ghost use Rattle.aec_bits.specs.WordBits.{word_bits};
ghost use Rattle.aec_bits.specs.Windows.{IsClearWindow, IsWholeWindow, IsTopOne, BeginsWindow, FitWord, StandsBefore, FillsNumbers, ReadsSequences, moved_to_top, numbers_of_word};

use crate::bit_buf::BitBuf;
use crate::bit_reader::ends_in_words::gaps_within;
use std::simd::prelude::*;

/// The next bits of a list: the lowest `left` bits of a word. In the list they end before place
/// `end`.
#[derive(Clone, Copy)]
pub(crate) struct Window {
    pub(crate) word: u64,
    pub(crate) left: u32,
    pub(crate) end: u64,
}

/// Returns the place of the first bit of a window.
#[inline(always)]
pub(crate) fn place_of(window: Window) -> u64
    requires { window.left ≤ window.end }
    ensures { result ≡ window.end - window.left }
{
    window.end - u64::from(window.left)
}

/// Returns the window of the 64 bits from place `start` on.
#[inline(always)]
fn window_from(buf: &BitBuf, start: u64) -> Window
    requires { start ≤ length buf.now.list }
    ensures whole { IsWholeWindow buf.now.list start result }
    ensures bound { length buf.now.list ≤ 2 ^ 62 }
{
    Window {
        word: buf.word_from(start),
        left: 64,
        end: start + 64,
    }
}

/// Returns the given window if it has a 1 bit left, else the window of the 64 bits at its place.
#[inline(always)]
fn with_one(buf: &BitBuf, window: Window) -> Window
    requires { IsClearWindow buf.now.list window }
    ensures window { IsClearWindow buf.now.list result }
    ensures place { result.end - result.left ≡ window.end - window.left }
    ensures none { result.word ≡ 0
        → has_one (take 64 (drop (window.end - window.left) buf.now.list)) ≡ false }
{
    if window.word != 0 {
        return window;
    }
    window_from(buf, place_of(window))
}

/// Returns the place of the topmost 1 bit of a word, counted from the lowest bit.
#[inline(always)]
fn top_one(word: u64) -> u32
    requires { 0 < word }
    ensures { IsTopOne word result }
{
    word.leading_zeros() ^ 63
}

/// Returns the number of the fundamental sequence that begins a window, and what is left after it.
#[inline(always)]
fn next_sequence(window: Window) -> (u32, Window)
    requires size { window.left ≤ 64 }
    requires fits { window.word < 2 ^ window.left }
    requires some { 0 < window.word }
    ensures first { BeginsWindow (fs result.0) (result.0 + 1) window result.1 }
    ensures ones { count_ones window.word ≡ 1 + count_ones result.1.word }
    ensures fits { result.1.word < 2 ^ result.1.left }
{
    let top = top_one(window.word);
    let rest = Window {
        word: window.word ^ (1 << top),
        left: top,
        end: window.end,
    };
    (window.left - top - 1, rest)
}

/// Fills `numbers` with the numbers of the next fundamental sequences, one by one. Returns the
/// window after them; `None` if the 64 bits at one of them have no 1.
#[inline(never)]
fn sequences_one_by_one(buf: &BitBuf, window: Window, numbers: &mut [u32]) -> Option<Window>
    requires { IsClearWindow buf.now.list window }
    ensures { ReadsSequences buf.now.list (window.end - window.left)
        numbers.old numbers.new result }
{
    let mut rest = window;
    for number in numbers.iter_mut() {
        rest = with_one(buf, rest);
        if rest.word == 0 {
            return None;
        }
        let (zeros, behind) = next_sequence(rest);
        *number = zeros;
        rest = behind;
    }
    Some(rest)
}

/// Fills `numbers`, one by one, with the numbers of the fundamental sequences that begin a window,
/// and returns what is left after them. The window has a 1 bit for each, so each is found.
#[inline(always)]
fn each_within(window: Window, numbers: &mut [u32]) -> Window
    requires size { window.left ≤ 64 }
    requires fits { window.word < 2 ^ window.left }
    requires some { length numbers.old ≤ count_ones window.word }
    ensures put { FillsNumbers fs 64 numbers.old numbers.new (binary result.left result.word)
        (binary window.left window.word) }
    ensures fits { result.word < 2 ^ result.left }
    ensures end { result.end ≡ window.end }
{
    let mut rest = window;
    for i in 0..numbers.len() {
        let (zeros, behind) = next_sequence(rest);
        numbers[i] = zeros;
        rest = behind;
    }
    rest
}

/// Returns the word whose top bits are those of a window; zeros follow.
#[inline(always)]
fn top_word(window: Window) -> u64
    requires size { window.left ≤ 64 }
    requires fits { window.word < 2 ^ window.left }
    ensures bits { word_bits result
        ≡ binary window.left window.word ++ replicate (64 - window.left) false }
    ensures ones { count_ones result ≡ count_ones window.word }
{
    window.word.wrapping_shl(64 - window.left)
}

/// Returns what is left of a window after its first `gone` bits.
#[inline(always)]
pub(crate) fn window_after(window: Window, gone: u32) -> Window
    requires some { 0 < gone }
    requires there { gone ≤ window.left }
    requires size { window.left ≤ 64 }
    ensures rest { binary result.left result.word ≡ drop gone (binary window.left window.word) }
    ensures fits { result.word < 2 ^ result.left }
    ensures end { result.end ≡ window.end }
{
    let left = window.left - gone;
    Window {
        word: window.word & ((1 << left) - 1),
        left,
        end: window.end,
    }
}

/// Like `each_within`, but reads 8 to 16 numbers at once: fewer are faster read one by one.
#[inline(always)]
pub(crate) fn sequences_within(window: Window, numbers: &mut [u32]) -> Window
    requires size { window.left ≤ 64 }
    requires fits { window.word < 2 ^ window.left }
    requires some { length numbers.old ≤ count_ones window.word }
    ensures put { FillsNumbers fs 64 numbers.old numbers.new (binary result.left result.word)
        (binary window.left window.word) }
    ensures fits { result.word < 2 ^ result.left }
    ensures end { result.end ≡ window.end }
{
    if numbers.len() < 8 || numbers.len() > 16 {
        return each_within(window, numbers);
    }
    window_after(window, gaps_within(top_word(window), numbers))
}

/// Returns whether a window has `count` 1 bits left.
#[inline(always)]
pub(crate) fn has_ones(window: Window, count: usize) -> bool
    ensures { result ≡ nat_le count (count_ones window.word) }
{
    count <= window.word.count_ones() as usize
}

/// Returns the given window if it has `count` 1 bits left, else that of the 64 bits at its place.
#[inline(always)]
fn with_ones(buf: &BitBuf, window: Window, count: usize) -> Window
    requires { IsClearWindow buf.now.list window }
    ensures window { IsClearWindow buf.now.list result }
    ensures place { result.end - result.left ≡ window.end - window.left }
{
    if has_ones(window, count) {
        return window;
    }
    window_from(buf, place_of(window))
}

/// Fills `numbers` with the numbers of the next fundamental sequences, with one test for all if 64
/// bits have a 1 for each. Returns the window after them; `None` if the 64 bits at one of them have
/// no 1. A copy passed out of line leaves the window in registers; for up to eight it costs more.
#[inline(always)]
fn next_sequences(buf: &BitBuf, window: Window, numbers: &mut [u32]) -> Option<Window>
    requires { IsClearWindow buf.now.list window }
    ensures { ReadsSequences buf.now.list (window.end - window.left)
        numbers.old numbers.new result }
{
    let ready = with_ones(buf, window, numbers.len());
    if has_ones(ready, numbers.len()) {
        return Some(sequences_within(ready, numbers));
    }
    if numbers.len() <= 8 {
        return sequences_one_by_one(buf, ready, numbers);
    }
    let apart = Window {
        word: ready.word,
        left: ready.left,
        end: ready.end,
    };
    sequences_one_by_one(buf, apart, numbers)
}

/// Fills `numbers` with the numbers of the fundamental sequences from place `start` on, sixteen at
/// a time. Returns the place after them; `None` if the 64 bits at one of them have no 1.
#[inline(always)]
pub(crate) fn sequences_from(buf: &BitBuf, start: u64, numbers: &mut [u32]) -> Option<u64>
    requires { start ≤ length buf.now.list }
    ensures cases { MatchOption result
        (StopsBefore (length numbers.old) (drop start buf.now.list))
        (λ stop. StandsBefore fs 64 numbers.new (drop stop buf.now.list) (drop start buf.now.list)
        × (stop ≤ length buf.now.list)) }
    ensures len { length numbers.new ≡ length numbers.old }
{
    let mut window = window_from(buf, start);
    for i in 0..numbers.len() / 16 {
        window = next_sequences(buf, window, &mut numbers[16 * i..16 * i + 16])?;
    }
    let done = 16 * (numbers.len() / 16);
    let after = next_sequences(buf, window, &mut numbers[done..])?;
    Some(place_of(after))
}

/// Returns the number that the first `width` bits of a window spell, and what is left after them.
/// At width 0 the mask clears all bits, since the shift of a whole window wraps.
#[inline(always)]
fn next_number(window: Window, width: u32) -> (u32, Window)
    requires width { width ≤ 32 }
    requires there { width ≤ window.left }
    requires size { window.left ≤ 64 }
    ensures first { BeginsWindow (binary width result.0) width window result.1 }
    ensures fits { result.0 < 2 ^ width }
    ensures word { result.1.word ≡ window.word }
{
    let left = window.left - width;
    let mask = (1 << width) - 1;
    let rest = Window {
        word: window.word,
        left,
        end: window.end,
    };
    ((window.word.wrapping_shr(left) & mask) as u32, rest)
}

/// The factors that move each of four numbers at a word's top to the top, by their width.
static POWERS: [[u32; 4]; 9] = [
    [1, 1, 1, 1],
    [1, 2, 4, 8],
    [1, 4, 16, 64],
    [1, 8, 64, 512],
    [1, 16, 256, 4096],
    [1, 32, 1024, 32768],
    [1, 64, 4096, 262144],
    [1, 128, 16384, 2097152],
    [1, 256, 65536, 16777216],
];

/// Returns the row of a width.
#[inline(always)]
fn powers_of(width: u32) -> [u32; 4]
    requires { width ≤ 8 }
    ensures { result ≡ 1 ∷ 2 ^ width ∷ 2 ^ (2 * width) ∷ 2 ^ (3 * width) ∷ [] }
{
    POWERS[width as usize]
}

/// Returns the 32 bits of a word from place `at` on.
#[inline(always)]
fn half_from(word: u64, at: u32) -> u32
    requires { at < 64 }
    ensures { result ≡ word * 2 ^ at % 2 ^ 64 / 2 ^ 32 }
{
    ((word << at) >> 32) as u32
}

/// Returns the numbers of `width` bits at the top of four lanes, after `powers` moved them there.
#[inline(always)]
fn top_numbers(halves: &[u32; 4], powers: &[u32; 4], width: u32) -> [u32; 4]
    requires { width < 32 }
    ensures { result ≡ moved_to_top width halves.now powers.now }
{
    let lanes = u32x4::from_array(*halves) * u32x4::from_array(*powers);
    ((lanes >> u32x4::splat(1)) >> u32x4::splat(31 - width)).to_array()
}

/// Returns the eight numbers of `width` bits each at the top of a word.
#[inline(always)]
fn eight_numbers(word: u64, width: u32) -> [u32; 8]
    requires { width ≤ 8 }
    ensures { result ≡ numbers_of_word width 8 64 word }
{
    let powers = powers_of(width);
    let half = half_from(word, 0);
    let first = top_numbers(&[half, half, half, half], &powers, width);
    let next = half_from(word, 4 * width);
    let second = top_numbers(&[next, next, next, next], &powers, width);
    [
        first[0], first[1], first[2], first[3], second[0], second[1], second[2], second[3],
    ]
}

/// Returns the four numbers of `width` bits each at the top of a word.
#[inline(always)]
fn four_numbers(word: u64, width: u32) -> [u32; 4]
    requires { width ≤ 16 }
    ensures { result ≡ numbers_of_word width 4 64 word }
{
    let power = 1 << width;
    let half = half_from(word, 0);
    let next = half_from(word, 2 * width);
    top_numbers(&[half, half, next, next], &[1, power, 1, power], width)
}

/// Fills `numbers`, one by one, with the numbers of `width` bits each from the first bit of a word
/// on.
#[inline(always)]
fn any_numbers_within(word: u64, width: u32, numbers: &mut [u32])
    requires { FitWord width (length numbers.old) }
    ensures { FillsNumbers (binary width) (2 ^ width) numbers.old numbers.new
        (binary (64 - width * length numbers.old) word) (word_bits word) }
{
    let mut window = Window {
        word,
        left: 64,
        end: 64,
    };
    for i in 0..numbers.len() {
        let (value, rest) = next_number(window, width);
        numbers[i] = value;
        window = rest;
    }
}

/// `any_numbers_within`, with up to eight or four numbers at once.
#[inline(always)]
fn numbers_within(word: u64, width: u32, numbers: &mut [u32])
    requires { FitWord width (length numbers.old) }
    ensures { FillsNumbers (binary width) (2 ^ width) numbers.old numbers.new
        (binary (64 - width * length numbers.old) word) (word_bits word) }
{
    if width <= 8 && numbers.len() <= 8 {
        numbers.copy_from_slice(&eight_numbers(word, width)[..numbers.len()]);
    } else if width <= 16 && numbers.len() <= 4 {
        numbers.copy_from_slice(&four_numbers(word, width)[..numbers.len()]);
    } else {
        any_numbers_within(word, width, numbers);
    }
}

/// Fills `numbers` with the next numbers, `N` at a time.
#[inline(always)]
fn numbers_by<const N: usize>(buf: &BitBuf, start: u64, width: u32, numbers: &mut [u32])
    requires some { 0 < N }
    requires fit { FitWord width N }
    requires within { start + width * length numbers.old ≤ length buf.now.list }
    ensures { FillsNumbers (binary width) (2 ^ width) numbers.old numbers.new
        (drop (start + width * length numbers.old) buf.now.list) (drop start buf.now.list) }
{
    let mut place = start;
    for i in 0..numbers.len() / N {
        numbers_within(buf.word_from(place), width, &mut numbers[N * i..N * i + N]);
        place += u64::from(width) * N as u64;
    }
    let done = N * (numbers.len() / N);
    numbers_within(buf.word_from(place), width, &mut numbers[done..]);
}

/// Fills `numbers` with the numbers of `width` bits each from place `start` on: eight, four or two
/// at a time, by their width.
#[inline(always)]
pub(crate) fn numbers_from(buf: &BitBuf, start: u64, width: u32, numbers: &mut [u32])
    requires width { width ≤ 32 }
    requires within { start + width * length numbers.old ≤ length buf.now.list }
    ensures { FillsNumbers (binary width) (2 ^ width) numbers.old numbers.new
        (drop (start + width * length numbers.old) buf.now.list) (drop start buf.now.list) }
{
    match width {
        0..=8 => numbers_by::<8>(buf, start, width, numbers),
        9..=16 => numbers_by::<4>(buf, start, width, numbers),
        _ => numbers_by::<2>(buf, start, width, numbers),
    }
}
