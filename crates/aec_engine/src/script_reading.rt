//! Reads scripts as edits.

ghost use Rattle.std.specs.Prelude.{◌≡◌, ◌<◌, ◌≤◌, ◌∷◌, ◌+◌, ◌⊎◌, ◌≢◌, ℕ, [], Some, None, length, IfOk, IfErr, option_map};
ghost use Rattle.aec_params.specs.declared.fault.Fault.TheVariants.{Memory, Script as ScriptFault};
ghost use Rattle.aec_engine.specs.Scripts.{Listing, listed, listing_of, meaning_of};
ghost use Rattle.aec_engine.specs.ScriptLines.{after_listed, kept, lines_of, lines_left, text_left, RefusesLine, RefusesListing};

use crate::script_lines::{Line, edit_of, parse_line};
use crate::scripts::Script;
use aec_params::{Edit, Fault};
use std::alloc::Global;

/// Returns the first line of a text, and what follows its line feed, if it has one.
pub(crate) fn cut_line(text: &[u8]) -> (&[u8], Option<&[u8]>)
    ensures lines { lines_of text.now
        ≡ result.0.now ∷ lines_left (option_map (λ rest. rest.now) result.1) }
    ensures shorter { text_left (option_map (λ rest. rest.now) result.1) ≤ length text.now }
{
    for (i, byte) in text.iter().enumerate() {
        if *byte == b'\n' {
            return (&text[..i], Some(&text[i + 1..]));
        }
    }
    (text, None)
}

/// Returns the edit of a line, or `None` if the line says nothing. Fails with `Script` and the
/// line's `number` if `parse_line` doesn't know the line, and with `Memory`.
pub(crate) fn edit_on_line(alloc: Global, number: u64, text: &[u8]) -> Result<Option<Edit>, Fault>
    ensures ok { IfOk result (λ edit. kept edit ≡ meaning_of text.now) }
    ensures refuses { IfErr result (λ e. RefusesLine (meaning_of text.now) number e) }
{
    let line = parse_line(text);
    if let Line::Unknown = line {
        return Err(Fault::Script { line: number });
    }
    edit_of(alloc, line)
}

/// Appends the edit of a line, if there is one, and the line's number to a script.
fn put_edit(read: &mut Script, edit: Option<Edit>, number: u64) -> Result<(), Fault>
    ensures ok { IfOk result (λ _. (rest : Listing) →
        after_listed read.old.edits.items read.old.lines.items (listed number (kept edit) rest)
        ≡ after_listed read.new.edits.items read.new.lines.items rest) }
    ensures refuses { IfErr result (λ e. RefusesLine (kept edit) number e) }
{
    if let Some(edit) = edit {
        read.edits.push(edit)?;
        read.lines.push(number)?;
    }
    Ok(())
}

/// Reads a line, and appends its edit, if there is one, and its number to a script.
#[tactic(auto, using(crate::proofs::ScriptLineLemmas::refused_line))]
fn take_line(alloc: Global, number: u64, text: &[u8], read: &mut Script) -> Result<(), Fault>
    ensures ok { IfOk result (λ _. (rest : Listing) →
        after_listed read.old.edits.items read.old.lines.items
        (listed number (meaning_of text.now) rest)
        ≡ after_listed read.new.edits.items read.new.lines.items rest) }
    ensures refuses { let whole : Listing → Listing = λ rest.
        after_listed read.old.edits.items read.old.lines.items
        (listed number (meaning_of text.now) rest) in
        IfErr result (λ e. (rest : Listing) → RefusesListing (whole rest) number e) }
{
    let edit = edit_on_line(alloc, number, text)?;
    put_edit(read, edit, number)
}

/// Returns the edits of a script. A line ends with a line feed, which the last line may lack; one
/// carriage return before that end is no part of the line. Spaces and tabs separate words. A line
/// is `overwrite FIRST V..`, `append V..`, `insert FIRST V..`, `remove FIRST LEN` or `truncate
/// COUNT`. A line without a word, or whose first word begins with `#`, says nothing.
///
/// Fails with `Script` at the first line that is none of these, counted from 1 among all lines.
/// Fails with `Memory` only if there is an edit before that line. Takes time linear in the length.
pub fn script(alloc: Global, bytes: &[u8]) -> Result<Script, Fault>
    ensures ok { let read : Listing = listing_of bytes.now in
        IfOk result (λ s. (read.bad ≡ None) × (s.edits.items ≡ read.edits)
        × (s.lines.items ≡ read.lines)) }
    ensures refuses { let read : Listing = listing_of bytes.now in
        IfErr result (λ e. ((n : ℕ) × (read.bad ≡ Some n) × (e ≡ ScriptFault n))
        ⊎ ((e ≡ Memory) × (0 < length read.edits))) }
{
    let mut read = Script {
        edits: Vec::new(alloc),
        lines: Vec::new(alloc),
    };
    let mut rest = Some(bytes);
    let mut number: u64 = 0;
    while let Some(text) = rest {
        let (line, after) = cut_line(text);
        number += 1;
        take_line(alloc, number, line, &mut read)?;
        rest = after;
    }
    Ok(read)
}
