//! Files as devices, step by step.

use crate::asserts::{holds_at, same_at};
use crate::tables::cell;
use aec_bits::{Sink, Source};
use aec_cli::{DestSink, FileSource};
use aec_params::Fault;
use std::alloc::{Alloc, AllocError, Global};
use std::fs;
use std::process::Abort;
use std::rt::Files;
use std::test::Fail;

// A row: the name of the file; the steps; how often the source has then failed. `4=3:n..e` asks for
// 4 bytes and gets 3, after which the buffer, which all steps share, holds `n..e`; `4!` asks for 4
// and fails; `+abc` writes the file. The rows: a file in pieces; a file that grows after a call
// with room has found its end; a file that grows after a call without room; a file that is created
// after the first call; and a folder.
const SOURCES: &str = "\
taken | +seven.. 0=0:.... 4=4:seve 4=3:n..e 4=0:n..e | 0
ended | +one 4=3:one. 4=0:one. +oneandmore 4=0:one. 0=0:one. | 0
open  | +one 4=3:one. 0=0:one. +oneand 4=3:and. 4=0:and. | 0
late  | 4! +here 4! 0! | 1
.     | 4! 4! | 1";

// Returns whether the source does what a step says.
fn gives<R: Source>(source: &mut R, buf: &mut [u8; 4], step: &str) -> Result<bool, Fail> {
    if let Some(len) = step.strip_suffix("!") {
        let len = len.parse::<usize>()?.min(4);
        return Ok(source.take(&mut buf[..len]) == Err(Fault::Read));
    }
    let (len, rest) = step.split_once('=').ok_or("a step")?;
    let (count, held) = rest.split_once(':').ok_or("a step")?;
    let len = len.parse::<usize>()?.min(4);
    let count = count.parse::<usize>()?;
    Ok(source.take(&mut buf[..len]) == Ok(count) && buf.as_slice() == held.as_bytes())
}

// Checks a row of `SOURCES`.
fn source_goes_so<R: Abort + Files + Alloc<A = Global>>(rt: &R, row: &str) -> Result<(), Fail> {
    let (name, rest) = cell(row);
    let (steps, failures) = cell(rest);
    let name = name.trim();
    let failures = failures.trim().parse::<u64>()?;
    let mut source = FileSource::new(rt, String::from_str(rt.alloc(), name)?);
    let mut buf = *b"....";
    for step in steps.split_whitespace() {
        match step.strip_prefix("+") {
            Some(bytes) => fs::write(rt, name, bytes)?,
            None => holds_at(rt, gives(&mut source, &mut buf, step)?, &(&step, &row)),
        }
    }
    same_at(rt, source.failures(), failures, &row);
    let _ = fs::remove_file(rt, name);
    Ok(())
}

#[test]
fn sources_go_step_by_step(rt: HostRuntime) -> Result<(), Fail> {
    for row in SOURCES.lines() {
        source_goes_so(&rt, row)?;
    }
    Ok(())
}

// A row: the name of the file; the steps; how often the sink has then failed and begun; how it
// ends, or `-` if it isn't finished. `abc=3` calls `put` with `abc`, of which 3 bytes are taken;
// `abc!` calls it with `abc`, and the call fails; `+abc` writes the file, and `?abc` checks that it
// holds `abc`. The rows: a file that exists and is emptied; a second `begin`; bytes before `begin`;
// a file that can't be created; a full one; one that can't be synced; a sink without `begin`.
const SINKS: &str = "\
written        | +there-before ?there-before begin ? abc=3 =0 de=2 ?abcde | 0 1 | -
kept           | begin abc=3 begin ?abc de=2 ?abcde | 0 2 | ends
early          | abc! begin! | 1 1 | -
no/such/folder | begin! abc! | 1 1 | fails
/dev/full      | begin abc! abc! begin! | 1 2 | fails
/dev/null      | begin abc=3 | 0 1 | ends
unbegun        | | 0 0 | ends";

// Returns whether the sink does what a step says.
fn takes<W: Sink>(sink: &mut W, step: &str) -> Result<bool, Fail> {
    match step {
        "begin" => return Ok(sink.begin() == Ok(())),
        "begin!" => return Ok(sink.begin() == Err(Fault::Write)),
        _ => {}
    }
    if let Some(piece) = step.strip_suffix("!") {
        return Ok(sink.put(piece.as_bytes()) == Err(Fault::Write));
    }
    let (piece, count) = step.split_once('=').ok_or("a step")?;
    Ok(sink.put(piece.as_bytes()) == Ok(count.parse::<usize>()?))
}

// Makes a step, with the sink or with its file. Returns whether it goes as the step says.
fn goes<F: Files + Alloc<A = Global>, W: Sink>(
    rt: &F,
    name: &str,
    sink: &mut W,
    step: &str,
) -> Result<bool, Fail> {
    if let Some(bytes) = step.strip_prefix("+") {
        fs::write(rt, name, bytes)?;
        return Ok(true);
    }
    match step.strip_prefix("?") {
        Some(bytes) => Ok(fs::read(rt, name)?.as_slice() == bytes.as_bytes()),
        None => takes(sink, step),
    }
}

// Returns how often the sink has failed and begun.
fn counts_of<W: Sink>(alloc: Global, sink: &W) -> Result<String, AllocError> {
    format!(in alloc; "{} {}", sink.failures(), sink.begins())
}

// Returns whether the sink ends as a word says.
fn ends<F: Files + Alloc<A = Global>>(sink: DestSink<'_, F>, word: &str) -> bool {
    match word {
        "-" => true,
        "ends" => sink.finish().is_ok(),
        _ => sink.finish() == Err(Fault::Write),
    }
}

// Checks a row of `SINKS`.
fn sink_goes_so<R: Abort + Files + Alloc<A = Global>>(
    rt: &R,
    alloc: Global,
    row: &str,
) -> Result<(), Fail> {
    let (name, rest) = cell(row);
    let (steps, rest) = cell(rest);
    let (counts, end) = cell(rest);
    let name = name.trim();
    let mut sink = DestSink::new(rt, String::from_str(alloc, name)?);
    for step in steps.split_whitespace() {
        holds_at(rt, goes(rt, name, &mut sink, step)?, &(&step, &row));
    }
    let found = counts_of(alloc, &sink)?;
    same_at(rt, found.as_str(), counts.trim(), &row);
    holds_at(rt, ends(sink, end.trim()), &row);
    Ok(())
}

#[test]
fn sinks_go_step_by_step(rt: HostRuntime) -> Result<(), Fail> {
    for row in SINKS.lines() {
        sink_goes_so(&rt, rt.alloc(), row)?;
    }
    for name in ["early", "unbegun", "no"] {
        holds_at(&rt, !fs::exists(&rt, name)?, &name);
    }
    fs::remove_file(&rt, "written")?;
    fs::remove_file(&rt, "kept")?;
    Ok(())
}
