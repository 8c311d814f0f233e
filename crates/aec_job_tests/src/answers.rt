//! Tables of the results of engines for bytes in memory. A row: the options, with that of the
//! action; the limits of samples and of bytes; the bytes of the source, then `!` if it fails after
//! them, or `..` if it returns zeros for ever; and what is written, or the refusal.

use crate::asserts::holds_at;
use crate::shared::{Outcome, run_engine};
use crate::tables::{cell, spelled};
use aec_cli::{Job, command, settings};
use aec_engine_tests::devices::{After, Basin, Pieces};
use aec_params::Limits;
use std::alloc::Global;
use std::process::Abort;
use std::test::Fail;

#[derive(Clone, Copy)]
struct Row<'a> {
    options: &'a str,
    limits: &'a str,
    source: &'a str,
    answer: &'a str,
}

fn row_of(text: &str) -> Row<'_> {
    let (options, rest) = cell(text);
    let (limits, rest) = cell(rest);
    let (source, answer) = cell(rest);
    Row {
        options,
        limits: limits.trim(),
        source: source.trim(),
        answer: answer.trim(),
    }
}

fn limits_of(cell: &str) -> Result<Limits, Fail> {
    let (samples, bytes) = cell.split_once(' ').ok_or("two limits")?;
    Ok(Limits::new(samples.parse::<u64>()?, bytes.parse::<u64>()?).ok_or("limits")?)
}

// Returns the bytes of a source, and what it does after them.
fn given(cell: &str) -> (&str, After) {
    if let Some(bytes) = cell.strip_suffix("..") {
        return (bytes, After::Zeros);
    }
    match cell.strip_suffix("!") {
        Some(bytes) => (bytes, After::Fails),
        None => (cell, After::Ends),
    }
}

// Returns the job of these options.
fn job_of(alloc: Global, options: &str) -> Result<Job, Fail> {
    let mut words = Vec::new(alloc);
    words.push("aec")?;
    for word in options.split_whitespace() {
        words.push(word)?;
    }
    words.push("in")?;
    words.push("out")?;
    let command = command(alloc)?;
    let matches = command.try_get_matches_from(words.as_slice())?;
    Ok(settings(alloc, &matches)?)
}

// Runs the engine of a row, and returns the outcome.
fn tried(alloc: Global, row: Row<'_>) -> Result<Outcome, Fail> {
    let limits = limits_of(row.limits)?;
    let (cell, after) = given(row.source);
    let bytes = spelled(alloc, cell)?;
    let job = job_of(alloc, row.options)?;
    let source = Pieces::of(&bytes, 2, after);
    let sink = Basin::of(alloc, 64, 1 << 20);
    let left = run_engine(alloc, &job.params, &job.action, limits, source, sink);
    Ok(left)
}

// Returns whether the outcome is that of the row: bytes and one `begin`, or a refusal and no
// `begin`.
fn is_so(alloc: Global, left: &Outcome, answer: &str) -> Result<bool, Fail> {
    match left.answer {
        Ok(()) => {
            let wanted = spelled(alloc, answer)?;
            Ok(left.begins == 1 && left.written == wanted)
        }
        Err(fault) => {
            let text = fault.to_string(alloc)?;
            Ok(left.begins == 0 && left.written.is_empty() && text.as_str() == answer)
        }
    }
}

fn answers_so<R: Abort>(rt: &R, alloc: Global, text: &str) -> Result<(), Fail> {
    let row = row_of(text);
    let left = tried(alloc, row)?;
    let is_so = is_so(alloc, &left, row.answer)?;
    holds_at(rt, is_so, &(&left, &text));
    Ok(())
}

/// Checks each row of a table.
pub(crate) fn engines_answer_so<R: Abort>(rt: &R, alloc: Global, table: &str) -> Result<(), Fail> {
    for text in table.lines() {
        answers_so(rt, alloc, text)?;
    }
    Ok(())
}
