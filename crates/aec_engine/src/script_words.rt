//! The words of a script's line, and the numbers that they spell.

ghost use Rattle.std.specs.Prelude.{◌≡◌, ◌<◌, ◌≤◌, ◌∷◌, [], false, length, slice_index, MatchOption, IfSome};
ghost use Rattle.std.specs.List.{position_or_len};
ghost use Rattle.std.specs.Str.{IsUtf8};
ghost use Rattle.aec_engine.specs.Numerals.{decimal_in};
ghost use Rattle.aec_engine.specs.Scripts.{is_blank, words_of, value_in};

use crate::numerals::{parse_decimal, parse_signed};
use std::str;

/// Returns whether a byte separates words: a space or a tab.
fn is_blank(byte: u8) -> bool
    ensures { result ≡ is_blank byte }
{
    byte == b' ' || byte == b'\t'
}

/// Returns a line from its first word on.
fn from_first_word(line: &[u8]) -> &[u8]
    ensures words { words_of result.now ≡ words_of line.now }
    ensures starts { 0 < length result.now → is_blank (slice_index result.now 0) ≡ false }
    ensures shorter { length result.now ≤ length line.now }
{
    let mut rest = line;
    while let [b' ' | b'\t', after @ ..] = rest {
        rest = after;
    }
    rest
}

/// Returns the number of bytes before the first blank.
fn word_len(line: &[u8]) -> usize
    ensures value { result ≡ position_or_len is_blank line.now }
    ensures within { result ≤ length line.now }
{
    for (i, byte) in line.iter().enumerate() {
        if is_blank(*byte) {
            return i;
        }
    }
    line.len()
}

/// Returns the first word of a line and what follows it; `None` if the line has no word.
pub(crate) fn next_word(line: &[u8]) -> Option<(&[u8], &[u8])>
    ensures words { MatchOption result (words_of line.now ≡ [])
        (λ cut. words_of line.now ≡ cut.0.now ∷ words_of cut.1.now) }
    ensures shorter { IfSome result (λ cut. length cut.1.now < length line.now) }
    ensures some { IfSome result (λ cut. 0 < length cut.0.now) }
{
    let rest = from_first_word(line);
    if rest.is_empty() {
        return None;
    }
    Some(rest.split_at(word_len(rest)))
}

/// Returns a word as text; `None` if it isn't UTF-8, and then it is no number.
fn text_of(word: &[u8]) -> Option<&str>
    ensures { MatchOption result (¬ (IsUtf8 word.now)) (λ text. text.now ≡ word.now) }
{
    str::from_utf8(word).ok()
}

/// Parses a word of decimal digits alone as a number of 64 bits.
#[tactic(auto, using(crate::proofs::ScriptNumberLemmas::no_number))]
pub(crate) fn parse_number(word: &[u8]) -> Option<u64>
    ensures { result ≡ decimal_in 64 word.now }
{
    parse_decimal(text_of(word)?)
}

/// Parses a word of decimal digits, after a minus or nothing, as a signed number of 64 bits.
#[tactic(auto, using(crate::proofs::ScriptNumberLemmas::no_value))]
pub(crate) fn parse_value(word: &[u8]) -> Option<i64>
    ensures { result ≡ value_in word.now }
{
    parse_signed(text_of(word)?)
}
