//! Runs that edit a file by a script.

use crate::runs::runs_end_so;
use std::alloc::{Alloc, Global};
use std::fs;
use std::process::Abort;
use std::rt::Files;
use std::test::Fail;

// The text of the script `lines`, and a run by it. A 1 in the second of three intervals of zeros;
// an empty script, for a stream of another coder; a value that is no sample; the first interval
// removed. With a count of 5: an append, and a place past the end. Of several bad values the first
// one of the first line is named. A line that is no edit is named before the stream is read, a cut
// stream before a bad edit.
const EDITS: [(&str, &str); 9] = [
    (
        "overwrite 20 1",
        "--edit lines old new | 00 04 00 10 00 40 | 0 | 00 04 40 30 C2 00 08",
    ),
    ("", "--edit lines old new | 40 15 55 80 | 0 | 20 09 24 92"),
    (
        "overwrite 0 256",
        "--edit lines old new | 00 08 | 1 | aec: line 1: sample 0 is out of range",
    ),
    (
        "remove 0 16",
        "--edit lines old new | 00 04 40 30 C2 00 08 | 0 | 10 0C 30 80 02",
    ),
    (
        "append 7",
        "--edit lines --count 5 old new | 00 78 | 0 | 00 78",
    ),
    (
        "# five\noverwrite 5 7",
        "--edit lines --count 5 old new | 00 78 | 1 | aec: line 2: position outside the 5 samples",
    ),
    (
        "overwrite 0 1 256\noverwrite 0 257",
        "--edit lines old new | 00 08 | 1 | aec: line 1: sample 1 is out of range",
    ),
    (
        "\nwrite 0 1",
        "--edit lines old new | 20 09 | 1 | aec: script line 2 is not an edit",
    ),
    (
        "overwrite 0 256",
        "--edit lines old new | 20 09 24 | 1 | aec: coded data is cut short at bit 0",
    ),
];

fn edits_so<R: Abort + Files + Alloc<A = Global>>(
    rt: &R,
    script: &str,
    row: &str,
) -> Result<(), Fail> {
    fs::write(rt, "lines", script)?;
    runs_end_so(rt, rt.alloc(), row)?;
    fs::remove_file(rt, "lines")?;
    Ok(())
}

#[test]
fn files_are_edited_by_scripts(rt: HostRuntime) -> Result<(), Fail> {
    for (script, row) in EDITS.iter() {
        edits_so(&rt, script, row)?;
    }
    Ok(())
}

// A script that doesn't exist, with a stream and without one.
const MISSING: &str = "\
  --edit no_lines old new | 00 08 | 1 | aec: read failed
      --edit none none new | - | 1 | aec: read failed";

#[test]
fn scripts_that_are_missing_are_refused(rt: HostRuntime) -> Result<(), Fail> {
    runs_end_so(&rt, rt.alloc(), MISSING)
}
