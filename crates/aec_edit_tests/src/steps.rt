//! Tables of steps on a workspace, one a line: an edit or a range, its result, and the stream after
//! it.

use crate::asserts::{same, same_at};
use crate::tables::{cell, spelled};
use aec_bits::{Codec, WriteSink};
use aec_edit::{Outcome, Workspace};
use aec_params::{Edit, Fault, Samples};
use std::alloc::Global;
use std::process::Abort;
use std::test::Fail;

// The tests call a workspace through these functions, so that its contracts stay out of their
// proofs.

pub(crate) fn apply<C: Codec>(work: &mut Workspace<C>, edit: &Edit) -> Result<u64, Fault> {
    work.apply(edit)
}

pub(crate) fn range<C: Codec>(
    work: &mut Workspace<C>,
    alloc: Global,
    first: u64,
    len: u64,
) -> Result<Vec<i64>, Fault> {
    work.range(alloc, first, len)
}

pub(crate) fn stream<C: Codec>(alloc: Global, work: &Workspace<C>) -> Result<Vec<u8>, Fault> {
    let mut sink = WriteSink::new(Vec::new(alloc));
    work.write_to(&mut sink)?;
    Ok(sink.into_inner())
}

/// Returns how many intervals have been coded.
pub(crate) fn calls<C: Codec>(work: &Workspace<C>) -> u64 {
    work.calls()
}

/// Returns how often an interval has been decoded.
pub(crate) fn reads<C: Codec>(work: &Workspace<C>) -> u64 {
    work.reads()
}

/// Returns the numbers of samples, of intervals, and of bits in the stream.
pub(crate) fn counts<C: Codec>(work: &Workspace<C>) -> (u64, u64, u64) {
    (work.count(), work.intervals(), work.stream_bits())
}

/// Returns the bit where an interval begins, if it exists.
pub(crate) fn start_of<C: Codec>(work: &Workspace<C>, i: u64) -> Option<u64> {
    work.offset(i)
}

// Returns the values that a text spells. `0*48` is forty-eight zeros.
fn values_of(alloc: Global, text: &str) -> Result<Samples, Fail> {
    let mut values = Vec::new(alloc);
    for word in text.split_whitespace() {
        let (value, times) = word.split_once('*').unwrap_or((word, "1"));
        let value = value.parse::<i64>()?;
        for _ in 0..times.parse::<u32>()? {
            values.push(value)?;
        }
    }
    Ok(Samples::new(values))
}

fn edit_of(alloc: Global, text: &str) -> Result<Edit, Fail> {
    let (kind, rest) = text.split_once(' ').unwrap_or((text, ""));
    let (first, values) = rest.split_once(' ').unwrap_or((rest, ""));
    match kind {
        "overwrite" => Ok(Edit::Overwrite {
            first: first.parse::<u64>()?,
            values: values_of(alloc, values)?,
        }),
        "append" => Ok(Edit::Append {
            values: values_of(alloc, rest)?,
        }),
        "insert" => Ok(Edit::Insert {
            first: first.parse::<u64>()?,
            values: values_of(alloc, values)?,
        }),
        "remove" => Ok(Edit::Remove {
            first: first.parse::<u64>()?,
            len: values.trim().parse::<u64>()?,
        }),
        _ => Ok(Edit::Truncate {
            count: rest.parse::<u64>()?,
        }),
    }
}

// Returns the result of an edit, as a row spells it.
fn answer_text(alloc: Global, answer: Result<u64, Fault>) -> Result<String, Fail> {
    match answer {
        Ok(coded) => Ok(format!(in alloc; "{coded}")?),
        Err(fault) => Ok(fault.to_string(alloc)?),
    }
}

// Returns the samples of a range, or why it is refused, as a row spells it.
fn range_text<C: Codec>(
    alloc: Global,
    work: &mut Workspace<C>,
    places: &str,
) -> Result<String, Fail> {
    let (first, len) = places.split_once(' ').ok_or("two places")?;
    let mut text = String::new(alloc);
    match range(work, alloc, first.parse::<u64>()?, len.parse::<u64>()?) {
        Ok(samples) => {
            for x in samples.iter() {
                text = format!(in alloc; "{text} {x}")?;
            }
        }
        Err(fault) => text = fault.to_string(alloc)?,
    }
    Ok(text)
}

// Makes a step, and returns its result as a row spells it. Checks that the calls rise by what an
// edit coded.
fn step_text<R: Abort, C: Codec>(
    rt: &R,
    alloc: Global,
    work: &mut Workspace<C>,
    step: &str,
) -> Result<String, Fail> {
    let before = calls(work);
    if let Some(places) = step.strip_prefix("range ") {
        let text = range_text(alloc, work, places)?;
        same(rt, calls(work), before);
        return Ok(text);
    }
    let answer = apply(work, &edit_of(alloc, step)?);
    let coded = answer.ok().unwrap_or(0);
    same(rt, calls(work), before.saturating_add(coded));
    answer_text(alloc, answer)
}

// Returns the number of bits in the stream, and where its intervals begin.
fn places_text<C: Codec>(alloc: Global, work: &Workspace<C>) -> Result<String, Fail> {
    let mut text = format!(in alloc; "{}", work.stream_bits())?;
    for i in 0..40u64 {
        if let Some(start) = start_of(work, i) {
            text = format!(in alloc; "{text} {start}")?;
        }
    }
    Ok(text)
}

// Checks a row: an edit or a range; its result; the stream after it; the number of bits in the
// stream, and where its intervals begin; how many intervals the step decodes.
fn expect_step<R: Abort, C: Codec>(
    rt: &R,
    alloc: Global,
    work: &mut Workspace<C>,
    row: &str,
) -> Result<(), Fail> {
    let (step, rest) = cell(row);
    let (answer, rest) = cell(rest);
    let (bytes, rest) = cell(rest);
    let (places, decoded) = cell(rest);
    let before = reads(work);
    let text = step_text(rt, alloc, work, step.trim())?;
    same_at(rt, text.as_str().trim(), answer.trim(), &row);
    same_at(rt, stream(alloc, work)?, spelled(alloc, bytes)?, &row);
    same_at(rt, places_text(alloc, work)?.as_str(), places.trim(), &row);
    let decoded = decoded.trim().parse::<u64>()?;
    same_at(rt, reads(work), before.saturating_add(decoded), &row);
    Ok(())
}

/// Checks the steps of a table, one after the other.
pub(crate) fn expect_steps<R: Abort, C: Codec>(
    rt: &R,
    alloc: Global,
    work: &mut Workspace<C>,
    table: &str,
) -> Result<(), Fail> {
    for row in table.lines() {
        expect_step(rt, alloc, work, row)?;
    }
    same(rt, start_of(work, u64::MAX), None);
    Ok(())
}

// Returns the edits of a table, and their expected results, one a line.
fn edits_of(alloc: Global, table: &str) -> Result<(Vec<Edit>, String), Fail> {
    let (mut edits, mut answers) = (Vec::new(alloc), String::new(alloc));
    for row in table.lines() {
        let (step, rest) = cell(row);
        if !step.starts_with("range ") {
            edits.push(edit_of(alloc, step.trim())?)?;
            answers = format!(in alloc; "{answers}{}\n", cell(rest).0.trim())?;
        }
    }
    Ok((edits, answers))
}

// Applies edits as one run, and returns the outcomes, one a line. The first line is an outcome that
// was in the list before.
fn run_text<C: Codec>(
    alloc: Global,
    work: &mut Workspace<C>,
    edits: &[Edit],
) -> Result<String, Fail> {
    let mut outcomes = Vec::new(alloc);
    outcomes.push(Outcome::Done { coded: 77 })?;
    work.run(edits, &mut outcomes)?;
    let mut text = String::new(alloc);
    for outcome in &outcomes {
        let line = answer_text(
            alloc,
            match outcome {
                Outcome::Done { coded } => Ok(*coded),
                Outcome::Refused { fault } => Err(*fault),
            },
        )?;
        text = format!(in alloc; "{text}{line}\n")?;
    }
    Ok(text)
}

/// Checks the edits of a table in one run.
pub(crate) fn expect_run<R: Abort, C: Codec>(
    rt: &R,
    alloc: Global,
    work: &mut Workspace<C>,
    table: &str,
) -> Result<(), Fail> {
    let (edits, answers) = edits_of(alloc, table)?;
    let text = run_text(alloc, work, &edits)?;
    same_at(rt, text, format!(in alloc; "77\n{answers}")?, &table);
    Ok(())
}

/// Applies edits up to the first one that is refused. Returns its place among them and its fault,
/// or `made` if all are applied.
pub(crate) fn stop_text<C: Codec>(
    alloc: Global,
    work: &mut Workspace<C>,
    table: &str,
) -> Result<String, Fail> {
    let (edits, _) = edits_of(alloc, table)?;
    match work.run_until_refused(&edits) {
        Ok(()) => Ok(String::from_str(alloc, "made")?),
        Err(stop) => Ok(format!(in alloc; "{} {}", stop.place, stop.fault)?),
    }
}

/// Applies edits as one. Returns how many intervals were coded, or the place and the fault of the
/// refused edit.
pub(crate) fn apply_all<C: Codec>(
    work: &mut Workspace<C>,
    edits: &[Edit],
) -> Result<u64, (u64, Fault)> {
    work.apply_all(edits)
        .map_err(|stop| (stop.place, stop.fault))
}
