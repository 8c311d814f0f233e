//! What one line of a script says.

ghost use Rattle.std.specs.Prelude.{◌≡◌, ◌<◌, ◌≢◌, true, ◌∷◌, length, is_some, Some, IfOk, IfErr};
ghost use Rattle.aec_params.specs.declared.fault.Fault.TheVariants.{Memory};
ghost use Rattle.aec_params.specs.declared.edit.Edit.{Edit};
ghost use Rattle.aec_engine.specs.Scripts.{nothing, unknown, meaning_of, meaning_of_words, change_if, append_in, overwrite_in, truncate_in, insert_in, remove_in, words_of, values_in};
ghost use Rattle.aec_engine.specs.ScriptLines.{said, kept, IsJudged, are_values};

use crate::script_words::{next_word, parse_number, parse_value};
use aec_params::{Edit, Fault, Samples};
use std::alloc::Global;

/// What a line says, judged before its values are kept: the values of an edit are still a text, in
/// which each word is a value.
#[derive(Drop)]
pub(crate) enum Line<'a> {
    Nothing,
    Overwrite { first: u64, values: &'a [u8] },
    Append { values: &'a [u8] },
    Truncate { count: u64 },
    Insert { first: u64, values: &'a [u8] },
    Remove { first: u64, len: u64 },
    Unknown,
}

/// Returns whether each word of a text is a value. A text is read twice, here and in `values_of`,
/// by the same `next_word` and `parse_value`: a script is judged whole before a value is kept, so
/// that a bad line fails with `Script` even if memory is lacking.
fn are_values(text: &[u8]) -> bool
    ensures { result ≡ are_values text.now }
{
    let mut rest = text;
    while let Some((word, after)) = next_word(rest) {
        if parse_value(word).is_none() {
            return false;
        }
        rest = after;
    }
    true
}

/// Parses `FIRST V..`.
fn overwrite_line(words: &[u8]) -> Line<'_>
    ensures says { said result ≡ change_if (overwrite_in (words_of words.now)) }
    ensures judged { IsJudged result }
{
    let Some((first, values)) = next_word(words) else {
        return Line::Unknown;
    };
    match parse_number(first) {
        Some(first) if are_values(values) => Line::Overwrite { first, values },
        _ => Line::Unknown,
    }
}

/// Parses `V..`.
fn append_line(values: &[u8]) -> Line<'_>
    ensures says { said result ≡ change_if (append_in (words_of values.now)) }
    ensures judged { IsJudged result }
{
    if are_values(values) {
        Line::Append { values }
    } else {
        Line::Unknown
    }
}

/// Parses `COUNT`.
fn truncate_line<'a>(words: &[u8]) -> Line<'a>
    ensures says { said result ≡ change_if (truncate_in (words_of words.now)) }
    ensures judged { IsJudged result }
{
    let Some((count, rest)) = next_word(words) else {
        return Line::Unknown;
    };
    match (parse_number(count), next_word(rest)) {
        (Some(count), None) => Line::Truncate { count },
        _ => Line::Unknown,
    }
}

/// Parses `FIRST V..`.
fn insert_line(words: &[u8]) -> Line<'_>
    ensures says { said result ≡ change_if (insert_in (words_of words.now)) }
    ensures judged { IsJudged result }
{
    let Some((first, values)) = next_word(words) else {
        return Line::Unknown;
    };
    match parse_number(first) {
        Some(first) if are_values(values) => Line::Insert { first, values },
        _ => Line::Unknown,
    }
}

/// Parses `FIRST LEN`.
fn remove_line<'a>(words: &[u8]) -> Line<'a>
    ensures says { said result ≡ change_if (remove_in (words_of words.now)) }
    ensures judged { IsJudged result }
{
    let Some((first, rest)) = next_word(words) else {
        return Line::Unknown;
    };
    let Some((len, rest)) = next_word(rest) else {
        return Line::Unknown;
    };
    match (parse_number(first), parse_number(len), next_word(rest)) {
        (Some(first), Some(len), None) => Line::Remove { first, len },
        _ => Line::Unknown,
    }
}

/// Parses a line, given its first word and what follows that word.
fn named_line<'a>(name: &[u8], words: &'a [u8]) -> Line<'a>
    requires { 0 < length name.now }
    ensures says { said result ≡ meaning_of_words (name.now ∷ words_of words.now) }
    ensures judged { IsJudged result }
{
    if name[0] == b'#' {
        return Line::Nothing;
    }
    if name == b"overwrite".as_slice() {
        return overwrite_line(words);
    }
    if name == b"append".as_slice() {
        return append_line(words);
    }
    if name == b"truncate".as_slice() {
        return truncate_line(words);
    }
    if name == b"insert".as_slice() {
        return insert_line(words);
    }
    if name == b"remove".as_slice() {
        return remove_line(words);
    }
    Line::Unknown
}

/// Returns what a line says.
pub(crate) fn parse_line(text: &[u8]) -> Line<'_>
    ensures says { said result ≡ meaning_of text.now }
    ensures judged { IsJudged result }
{
    let line = text.strip_suffix(b"\r").unwrap_or(text);
    match next_word(line) {
        None => Line::Nothing,
        Some((name, words)) => named_line(name, words),
    }
}

/// Returns the values of a text, each word of which must be a value.
fn values_of(alloc: Global, text: &[u8]) -> Result<Samples, Fault>
    requires { are_values text.now ≡ true }
    ensures ok { IfOk result (λ values. values_in (words_of text.now) ≡ Some values) }
    ensures fault { IfErr result (λ e. e ≡ Memory) }
{
    let mut values = Vec::new(alloc);
    let mut rest = text;
    while let Some((word, after)) = next_word(rest) {
        match parse_value(word) {
            Some(x) => values.push(x)?,
            None => unreachable!(),
        }
        rest = after;
    }
    Ok(Samples::new(values))
}

/// Returns the edit of a line; `None` if it says nothing.
pub(crate) fn edit_of(alloc: Global, line: Line<'_>) -> Result<Option<Edit>, Fault>
    requires judged { IsJudged line }
    requires known { said line ≢ unknown }
    ensures ok { IfOk result (λ edit. kept edit ≡ said line.entry) }
    ensures fault { IfErr result (λ e. (e ≡ Memory) × (said line.entry ≢ nothing)) }
{
    Ok(match line {
        Line::Nothing | Line::Unknown => None,
        Line::Overwrite { first, values } => Some(Edit::Overwrite {
            first,
            values: values_of(alloc, values)?,
        }),
        Line::Append { values } => Some(Edit::Append {
            values: values_of(alloc, values)?,
        }),
        Line::Truncate { count } => Some(Edit::Truncate { count }),
        Line::Insert { first, values } => Some(Edit::Insert {
            first,
            values: values_of(alloc, values)?,
        }),
        Line::Remove { first, len } => Some(Edit::Remove { first, len }),
    })
}
