//! Judges whole scripts first, and reads each line again when its edit is applied.

ghost use Rattle.std.specs.Prelude.{◌≡◌, ◌≢◌, ◌+◌, ◌^◌, ◌<◌, ◌≤◌, ℕ, Some, None, IfOk, IfErr, IfSome, MatchOption};
ghost use Rattle.aec_params.specs.declared.fault.Fault.TheVariants.{Memory, Script as ScriptFault};
ghost use Rattle.aec_engine.specs.Scripts.{listed, listing_of, meaning_of, unknown};
ghost use Rattle.aec_engine.specs.ScriptLines.{text_left};
ghost use Rattle.aec_engine.specs.Planning.{listing_in, text_behind};
ghost use Rattle.aec_engine.specs.EditsAhead.{AreAhead, AreKnown, TakesNext, TakesSome, behind, left_in, no_edits, unread};

use crate::script_lines::{Line, parse_line};
use crate::script_plan::{Plan, Planned};
use crate::script_reading::{cut_line, edit_on_line};
use crate::scripts::Script;
use aec_params::{Edit, Fault};
use std::alloc::Global;

/// Fails with `Script` and the line's number if `script` doesn't read the line.
fn judge_line(number: u64, text: &[u8]) -> Result<(), Fault>
    ensures ok { IfOk result (λ _. meaning_of text.now ≢ unknown) }
    ensures refuses { IfErr result (λ e.
        (meaning_of text.now ≡ unknown) × (e ≡ ScriptFault number)) }
{
    match parse_line(text) {
        Line::Unknown => Err(Fault::Script { line: number }),
        _ => Ok(()),
    }
}

/// Judges the lines of a script, and keeps nothing. Fails with `Script` and the number of the first
/// line that `script` doesn't read.
#[tactic(auto, using(crate::proofs::ScriptLineLemmas::listed_known))]
pub(crate) fn judge_script(bytes: &[u8]) -> Result<(), Fault>
    ensures ok { IfOk result (λ _. (listing_of bytes.now).bad ≡ None) }
    ensures refuses { IfErr result (λ e.
        (n : ℕ) × ((listing_of bytes.now).bad ≡ Some n) × (e ≡ ScriptFault n)) }
{
    let mut rest = Some(bytes);
    let mut number: u64 = 0;
    while let Some(text) = rest {
        let (line, after) = cut_line(text);
        number += 1;
        judge_line(number, line)?;
        rest = after;
    }
    Ok(())
}

/// How many bytes of a script are read for edits that are applied as one. So their list takes a few
/// MiB at most, besides the values of one line.
const MAX_BYTES_AT_ONCE: usize = 1 << 18;

/// Edits on fewer lines than this, each with its line feed, are applied one by one.
const MIN_LINES_AT_ONCE: usize = 8;

/// An edit of a script and the number of its line.
#[derive(Drop)]
pub(crate) struct NextEdit {
    pub(crate) edit: Edit,
    pub(crate) line: u64,
}

/// What is left of a script: its next edit, the planned overwrites and how many of them were read,
/// how many lines of the text were read, and the text after these lines; and whether edits are
/// applied while the samples are loaded. Besides its text and its plan, only the values of one line
/// are kept.
#[derive(Drop)]
pub(crate) struct EditsAhead<'p, 'a> {
    pub(crate) next: Option<NextEdit>,
    window: &'p [Planned<'a>],
    taken: usize,
    lines_read: u64,
    rest: Option<&'a [u8]>,
    pub(crate) is_early: bool,
}

impl<'p, 'a> EditsAhead<'p, 'a> {
    /// Begins with all edits of a script ahead, as its plan has them.
    pub(crate) fn new(alloc: Global, plan: &'p Plan<'a>) -> Result<EditsAhead<'p, 'a>, Fault>
        requires sound { (listing_in plan.now).bad ≡ None }
        requires few { plan.now.lines_read + text_left (text_behind plan.now) ≤ 2 ^ 63 }
        ensures all { IfOk result (λ ahead. left_in ahead ≡ listing_in plan.now) }
        ensures early { IfOk result (λ ahead. ahead.is_early ≡ plan.now.is_early) }
        ensures ahead { IfOk result (λ ahead. AreAhead ahead) }
        ensures fault { IfErr result (λ e. e ≡ Memory) }
    {
        let mut ahead = EditsAhead {
            next: None,
            window: plan.window.as_slice(),
            taken: 0,
            lines_read: plan.lines_read,
            rest: plan.rest,
            is_early: plan.is_early,
        };
        ahead.advance(alloc)?;
        Ok(ahead)
    }

    /// Takes the next line and its number.
    fn next_line(&mut self) -> Option<(u64, &'a [u8])>
        requires { AreKnown self.old }
        ensures cut { MatchOption result (behind self.old ≡ no_edits)
            (λ cut. behind self.old ≡ listed cut.0 (meaning_of cut.1.now) (behind self.new)) }
        ensures done { result ≡ None → self.new ≡ self.old }
        ensures next { self.new.next ≡ self.old.next }
        ensures early { self.new.is_early ≡ self.old.is_early }
        ensures known { AreKnown self.new }
        ensures shorter { IfSome result (λ _. unread self.new < unread self.old) }
    {
        if let Some(planned) = self.window.get(self.taken) {
            self.taken += 1;
            return Some((planned.line, planned.text));
        }
        let text = self.rest?;
        let (line, after) = cut_line(text);
        self.lines_read += 1;
        self.rest = after;
        Some((self.lines_read, line))
    }

    /// Drops the next edit, and reads lines up to the edit after it.
    pub(crate) fn advance(&mut self, alloc: Global) -> Result<(), Fault>
        requires known { AreKnown self.old }
        ensures ok { IfOk result (λ _. left_in self.new ≡ behind self.old) }
        ensures early { self.new.is_early ≡ self.old.is_early }
        ensures ahead { IfOk result (λ _. AreAhead self.new) }
        ensures fault { IfErr result (λ e. e ≡ Memory) }
    {
        self.next = None;
        while let Some((number, line)) = self.next_line() {
            if let Some(edit) = edit_on_line(alloc, number, line)? {
                self.next = Some(NextEdit { edit, line: number });
                return Ok(());
            }
        }
        Ok(())
    }

    /// Returns whether the text that isn't read yet has too few line feeds for edits to be applied
    /// many at a time.
    pub(crate) fn are_few(&self) -> bool {
        let text = self.rest.unwrap_or(&[]);
        let ends = text.iter().filter(|byte| **byte == b'\n');
        ends.take(MIN_LINES_AT_ONCE - 1).count() < MIN_LINES_AT_ONCE - 1
    }

    /// Returns how many bytes of the text aren't read yet.
    fn bytes_left(&self) -> usize {
        self.rest.map_or(0, |text| text.len())
    }

    /// Moves the next edit and its line to the end of a script, and reads lines up to the edit
    /// after it. Returns false, and moves nothing, if no edit is left.
    fn take_next(&mut self, alloc: Global, some: &mut Script) -> Result<bool, Fault>
        requires ahead { AreAhead self.old }
        ensures taken { IfOk result (TakesNext self.old some.old self.new some.new) }
        ensures ahead { IfOk result (λ _. AreAhead self.new) }
        ensures fault { IfErr result (λ e. e ≡ Memory) }
    {
        let Some(next) = self.next.take() else {
            return Ok(false);
        };
        some.edits.push(next.edit)?;
        some.lines.push(next.line)?;
        self.advance(alloc)?;
        Ok(true)
    }

    /// Takes out the next edits and their lines: at least one, if one is left, and then those whose
    /// lines begin in the next 256 KiB of the text.
    pub(crate) fn take_some(&mut self, alloc: Global) -> Result<Script, Fault>
        requires ahead { AreAhead self.old }
        ensures taken { IfOk result (TakesSome self.old self.new) }
        ensures ahead { IfOk result (λ _. AreAhead self.new) }
        ensures fault { IfErr result (λ e. e ≡ Memory) }
    {
        let stop = self.bytes_left().saturating_sub(MAX_BYTES_AT_ONCE);
        let mut some = Script {
            edits: Vec::new(alloc),
            lines: Vec::new(alloc),
        };
        while self.take_next(alloc, &mut some)? && self.bytes_left() > stop {}
        Ok(some)
    }
}
