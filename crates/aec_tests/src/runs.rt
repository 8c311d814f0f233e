//! Tables of whole runs on files. A row: the words, of which the last two name SOURCE and DEST; the
//! bytes of SOURCE, or `-` if it doesn't exist; the status; the bytes of DEST after the run or,
//! with a status above 0, the line that is printed.

use crate::asserts::same_at;
use crate::shared::run_of;
use crate::tables::{cell, spelled};
use std::alloc::{Alloc, Global};
use std::fs;
use std::process::Abort;
use std::rt::Files;
use std::test::Fail;

// The outcome of a run: its status, what it wrote to standard output and to standard error, and the
// bytes of DEST, if it exists.
#[derive(Debug, PartialEq, Eq, Drop)]
struct Ended {
    status: u8,
    out: Vec<u8>,
    err: Vec<u8>,
    dest: Option<Vec<u8>>,
}

#[derive(Clone, Copy)]
struct Row<'a> {
    words: &'a str,
    source: &'a str,
    status: &'a str,
    last: &'a str,
}

fn row_of(text: &str) -> Row<'_> {
    let (words, rest) = cell(text);
    let (source, rest) = cell(rest);
    let (status, last) = cell(rest);
    Row {
        words,
        source: source.trim(),
        status: status.trim(),
        last: last.trim(),
    }
}

// Returns the names of SOURCE and DEST.
fn names(words: &str) -> [&str; 2] {
    let mut last = ["", ""];
    for word in words.split_whitespace() {
        last = [last[1], word];
    }
    last
}

// Returns what was printed; of a text of the argument parser, the first word.
fn said(alloc: Global, err: Vec<u8>) -> Result<Vec<u8>, Fail> {
    if err.starts_with(b"error: ") {
        return Ok(b"error:\n".to_vec(alloc)?);
    }
    Ok(err)
}

// Writes these bytes to DEST if that is possible, and returns what DEST then holds.
fn placed<F: Files + Alloc<A = Global>>(
    rt: &F,
    row: Row<'_>,
    bytes: Option<&[u8]>,
) -> Option<Vec<u8>> {
    let [_, dest] = names(row.words);
    if let Some(bytes) = bytes {
        let _ = fs::write(rt, dest, bytes);
    }
    fs::read(rt, dest).ok()
}

// Runs a row, and returns the outcome. Removes both files afterwards.
fn tried<F: Files + Alloc<A = Global>>(rt: &F, alloc: Global, row: Row<'_>) -> Result<Ended, Fail> {
    let [source, dest] = names(row.words);
    if row.source != "-" {
        fs::write(rt, source, spelled(alloc, row.source)?)?;
    }
    let (status, out, err) = run_of(rt, alloc, row.words)?;
    let held = fs::read(rt, dest).ok();
    let _ = fs::remove_file(rt, source);
    let _ = fs::remove_file(rt, dest);
    Ok(Ended {
        status,
        out,
        err: said(alloc, err)?,
        dest: held,
    })
}

// Returns the outcome that the row expects if DEST holds `before`.
fn expected(alloc: Global, row: Row<'_>, before: Option<Vec<u8>>) -> Result<Ended, Fail> {
    let mut err = Vec::new(alloc);
    if row.status != "0" {
        err.extend_from_slice(row.last.as_bytes())?;
        err.push(b'\n')?;
    }
    let dest = match row.status {
        "0" => Some(spelled(alloc, row.last)?),
        _ => before,
    };
    Ok(Ended {
        status: row.status.parse::<u8>()?,
        out: Vec::new(alloc),
        err,
        dest,
    })
}

// Checks a row. DEST holds these bytes before the run, or doesn't exist.
fn ends_so<R: Abort + Files + Alloc<A = Global>>(
    rt: &R,
    alloc: Global,
    text: &str,
    bytes: Option<&[u8]>,
) -> Result<(), Fail> {
    let row = row_of(text);
    let expected = expected(alloc, row, placed(rt, row, bytes))?;
    same_at(rt, tried(rt, alloc, row)?, expected, &text);
    Ok(())
}

/// Checks each row twice: without DEST, and with more bytes in DEST than most rows write.
pub(crate) fn runs_end_so<R: Abort + Files + Alloc<A = Global>>(
    rt: &R,
    alloc: Global,
    table: &str,
) -> Result<(), Fail> {
    let long = [0xAAu8; 600];
    for text in table.lines() {
        ends_so(rt, alloc, text, None)?;
        ends_so(rt, alloc, text, Some(long.as_slice()))?;
    }
    Ok(())
}
