//! Scripts with a codec that the test makes: how often it is called, and what remains if too few
//! calls are left.

use crate::asserts::{holds, same, same_at};
use crate::devices::{After, Marked, Pieces};
use aec_bits::WriteSink;
use aec_edit::Workspace;
use aec_engine::{EditFault, carry_out, edit_over, script};
use aec_interval::AecCodec;
use aec_params::{Edit, Fault, Limits, Params, Samples, Settings};
use std::alloc::Global;
use std::process::Abort;
use std::test::Fail;

// Streams: 48 zeros; these with a 1 at place 20.
const ZEROS: [u8; 6] = [0x00, 0x04, 0x00, 0x10, 0x00, 0x40];

const ONE_CHANGED: [u8; 7] = [0x00, 0x04, 0x40, 0x30, 0xC2, 0x00, 0x08];

// Edits 48 zeros by a script, into a sink that holds `old`, and returns the sink's bytes. Checks
// that `begin` was called after `old`. Checks the codec's calls: one for each of the three
// intervals of zeros, and one for each interval that an edit codes.
fn counted<R: Abort>(rt: &R, alloc: Global, text: &str, calls: u64) -> Result<Vec<u8>, Fail> {
    let params = Params::new(Settings::USUAL)?;
    let limits = Limits::new(1 << 32, 1 << 40).ok_or("limits")?;
    let mut script = Pieces::of(text.as_bytes(), 5, After::Ends);
    let mut source = Pieces::of(&ZEROS, 3, After::Ends);
    let mut sink = Marked::behind(alloc, b"old")?;
    let codec = AecCodec::new(alloc, params);
    let workspace = edit_over(
        alloc,
        codec,
        &params,
        limits,
        None,
        &mut script,
        &mut source,
        &mut sink,
    )?;
    let answer = workspace.calls();
    same_at(rt, (answer, sink.mark), (calls, 3), &text);
    Ok(sink.bytes)
}

// A row: a script, and the codec's calls.
const COUNTED: [(&str, u64); 7] = [
    ("overwrite 20 1", 4),
    ("", 3),
    ("overwrite 15 1 2\noverwrite 20 1", 6),
    ("append 1", 4),
    ("truncate 40\ntruncate 16", 4),
    ("insert 16 0 0 0 0 0 0 0 0 0 0 0 0 0 0 0 0\ninsert 20 0", 8),
    ("remove 16 16\nremove 0 1", 5),
];

#[test]
fn calls_of_a_script_are_counted(rt: HostRuntime) -> Result<(), Fail> {
    for (text, calls) in &COUNTED {
        let bytes = counted(&rt, rt.alloc(), text, *calls)?;
        let written = bytes.strip_prefix(b"old");
        if *text == "overwrite 20 1" {
            same(&rt, written, Some(ONE_CHANGED.as_slice()));
        }
        same_at(&rt, written.is_some(), true, text);
    }
    Ok(())
}

// Returns a workspace of 48 zeros. Its codec had four calls left before them, and has one left.
fn with_one_call(alloc: Global) -> Result<Workspace<AecCodec>, Fault> {
    let codec = AecCodec::with_calls(alloc, Params::new(Settings::USUAL)?, u64::MAX - 4);
    let mut work = Workspace::new(alloc, codec, 65);
    work.apply(&Edit::Append {
        values: Samples::new(vec![in alloc; 0i64; 48]?),
    })?;
    Ok(work)
}

// Carries out a script on a workspace. Returns why it is refused, if it is.
fn carried<R: Abort>(
    rt: &R,
    alloc: Global,
    work: &mut Workspace<AecCodec>,
    text: &str,
) -> Result<Option<EditFault>, Fail> {
    let script = script(alloc, text.as_bytes())?;
    holds(rt, script.edits.len() <= script.lines.len());
    Ok(carry_out(work, &script).err())
}

// A row: a script on the workspace that the row before leaves; why it is refused, if it is. An edit
// that doesn't fit is refused for that, and an edit that codes nothing is applied.
const CARRIED: [(&str, Option<EditFault>); 3] = [
    (
        "overwrite 20 1\n\nremove 0 16\ninsert 4 0\noverwrite 0 256",
        Some(EditFault::Line {
            line: 4,
            fault: Fault::Spent,
        }),
    ),
    (
        "insert 33 0",
        Some(EditFault::Line {
            line: 1,
            fault: Fault::OutOfRange { count: 32 },
        }),
    ),
    ("truncate 16", None),
];

#[test]
fn an_edit_without_calls_is_named_by_its_line(rt: HostRuntime) -> Result<(), Fail> {
    let mut work = with_one_call(rt.alloc())?;
    for (text, wanted) in &CARRIED {
        same_at(
            &rt,
            carried(&rt, rt.alloc(), &mut work, text)?,
            *wanted,
            text,
        );
    }
    let mut sink = WriteSink::new(Vec::new(rt.alloc()));
    work.write_to(&mut sink)?;
    let bytes = [0x10, 0x0C, 0x30, 0x80];
    same(&rt, sink.into_inner().as_slice(), bytes.as_slice());
    same(&rt, work.calls(), u64::MAX);
    Ok(())
}
