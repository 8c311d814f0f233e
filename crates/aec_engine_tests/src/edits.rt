//! Streams edited by scripts: what is written, and which line a refusal names.

use crate::asserts::{holds_at, same_at};
use crate::devices::{After, Basin, Pieces};
use aec_bits::Sink;
use aec_engine::{EditFault, edit};
use aec_params::{Fault, Limits, Params, Settings};
use std::alloc::Global;
use std::test::Fail;

// Streams: 48 zeros; these with a 1 at place 20; the bytes 0 to 7; five samples of 7; these with 7,
// 7, 7 and 8 after them; eight zeros.
pub(crate) const ZEROS: [u8; 6] = [0x00, 0x04, 0x00, 0x10, 0x00, 0x40];

pub(crate) const ONE_CHANGED: [u8; 7] = [0x00, 0x04, 0x40, 0x30, 0xC2, 0x00, 0x08];

pub(crate) const RAMP: [u8; 4] = [0x20, 0x09, 0x24, 0x92];

const SEVENS: [u8; 2] = [0x00, 0x78];

const SEVENS_AND_EIGHT: [u8; 3] = [0x00, 0x78, 0x8F];

const EIGHT_ZEROS: [u8; 2] = [0x00, 0x08];

// The bytes 0 to 7 in another spelling.
const FOREIGN_RAMP: [u8; 4] = [0x40, 0x15, 0x55, 0x80];

// Limits far above what the tests need.
pub(crate) fn ample() -> Result<Limits, Fail> {
    Ok(Limits::new(1 << 32, 1 << 40).ok_or("limits")?)
}

// Streams: 64 zeros; `ONE_CHANGED` without its first 16 samples.
const MORE_ZEROS: [u8; 7] = [0x00, 0x04, 0x00, 0x10, 0x00, 0x40, 0x01];

const FRONT_REMOVED: [u8; 5] = [0x10, 0x0C, 0x30, 0x80, 0x02];

const OUTSIDE: Fault = Fault::OutOfRange { count: 8 };

const NO_SAMPLE: Fault = Fault::SampleRange { index: 0 };

// Edits a stream by a script within limits. Returns the result, the bytes written, and how often
// `begin` was called.
fn edited(
    alloc: Global,
    limits: Limits,
    text: &str,
    stream: &[u8],
    count: Option<u64>,
) -> Result<(Result<(), EditFault>, Vec<u8>, u64), Fail> {
    let params = Params::new(Settings::USUAL)?;
    let mut script = Pieces::of(text.as_bytes(), 5, After::Ends);
    let mut source = Pieces::of(stream, 3, After::Ends);
    let mut sink = Basin::of(alloc, 64, 1 << 20);
    let answer = edit(
        alloc,
        &params,
        limits,
        count,
        &mut script,
        &mut source,
        &mut sink,
    );
    let begins = sink.begins();
    Ok((answer, sink.bytes, begins))
}

// A row: a script; the stream that it edits; its count or none; what is written.
const WRITTEN: [(&str, &[u8], Option<u64>, &[u8]); 21] = [
    ("overwrite 20 1", &ZEROS, None, &ONE_CHANGED),
    ("overwrite 20 1\noverwrite 20 0\n", &ZEROS, None, &ZEROS),
    (
        "truncate 8\n# the ramp\noverwrite 0 0 1 2 3\noverwrite 4 4 5 6 7\n",
        &ZEROS,
        None,
        &RAMP,
    ),
    ("truncate 0\r\nappend 7 7 7 7 7", &RAMP, None, &SEVENS),
    ("truncate 0", &RAMP, None, &[]),
    ("append 0 0 0 0 0 0 0 0", &[], None, &EIGHT_ZEROS),
    // Samples are inserted and removed.
    (
        "insert 16 0 0 0 0 0 0 0 0 0 0 0 0 0 0 0 0\n",
        &ZEROS,
        None,
        &MORE_ZEROS,
    ),
    ("remove 8 16", &MORE_ZEROS, None, &ZEROS),
    ("remove 0 16", &ONE_CHANGED, None, &FRONT_REMOVED),
    ("insert 20 1\nremove 20 1", &ZEROS, None, &ZEROS),
    ("remove 3 5\ninsert 3 3 4 5 6 7", &RAMP, None, &RAMP),
    ("insert 0 0 1 2 3 4 5 6 7", &[], None, &RAMP),
    ("remove 0 8", &RAMP, None, &[]),
    ("insert 5 7 7 7 8", &SEVENS, Some(5), &SEVENS_AND_EIGHT),
    ("remove 5 4", &SEVENS_AND_EIGHT, Some(9), &SEVENS),
    // A script of nothing gives the own code of a foreign stream.
    ("", &FOREIGN_RAMP, None, &RAMP),
    ("# nothing\n\n", &FOREIGN_RAMP, Some(8), &RAMP),
    (
        "append\noverwrite 8\ntruncate 8\ninsert 3\nremove 8 0\n",
        &FOREIGN_RAMP,
        None,
        &RAMP,
    ),
    // Filling samples count where no count is given.
    ("append 7 7 7 8", &SEVENS, Some(5), &SEVENS_AND_EIGHT),
    (
        "truncate 5\nappend 7 7 7 8",
        &SEVENS,
        None,
        &SEVENS_AND_EIGHT,
    ),
    ("truncate 6\ntruncate 5", &SEVENS, None, &SEVENS),
];

#[test]
fn scripts_are_carried_out(rt: HostRuntime) -> Result<(), Fail> {
    for (text, stream, count, expected) in &WRITTEN {
        let (answer, bytes, begins) = edited(rt.alloc(), ample()?, text, stream, *count)?;
        same_at(&rt, (answer, begins), (Ok(()), 1), text);
        same_at(&rt, bytes.as_slice(), *expected, text);
    }
    Ok(())
}

// The limits of samples and of bytes.
const AMPLE: (u64, u64) = (1 << 32, 1 << 40);

// A row: the limits; a script; the stream that it edits; its count or none; the fault, and the line
// that it names, or 0 if it names none.
const REFUSED: [((u64, u64), &str, &[u8], Option<u64>, Fault, u64); 21] = [
    // Places and lengths past all samples, sums above `u64::MAX`, and a value above 8 bits.
    (AMPLE, "insert 9", &RAMP, None, OUTSIDE, 1),
    (
        AMPLE,
        "insert 18446744073709551615 1",
        &RAMP,
        None,
        OUTSIDE,
        1,
    ),
    (
        AMPLE,
        "remove 0 18446744073709551615",
        &RAMP,
        None,
        OUTSIDE,
        1,
    ),
    (
        AMPLE,
        "remove 18446744073709551615 18446744073709551615",
        &RAMP,
        None,
        OUTSIDE,
        1,
    ),
    (AMPLE, "remove 8 1", &RAMP, None, OUTSIDE, 1),
    (AMPLE, "insert 0 256", &RAMP, None, NO_SAMPLE, 1),
    (
        AMPLE,
        "remove 8 0\n# none\ninsert 8\ninsert 0 256 1",
        &RAMP,
        None,
        NO_SAMPLE,
        4,
    ),
    (AMPLE, "insert 9 256", &RAMP, None, OUTSIDE, 1),
    (
        AMPLE,
        "remove 0 1\nremove 7 1",
        &RAMP,
        None,
        Fault::OutOfRange { count: 7 },
        2,
    ),
    (
        AMPLE,
        "truncate 6",
        &SEVENS,
        Some(5),
        Fault::OutOfRange { count: 5 },
        1,
    ),
    // The first refused edit is named by its line.
    (AMPLE, "overwrite 0 256", &EIGHT_ZEROS, None, NO_SAMPLE, 1),
    (
        AMPLE,
        "append 1\n\noverwrite 0 255 -1\ntruncate 99\nappend 1\n",
        &EIGHT_ZEROS,
        None,
        Fault::SampleRange { index: 1 },
        3,
    ),
    (
        AMPLE,
        "# one more\nappend 1\noverwrite 9 1\nappend 256",
        &EIGHT_ZEROS,
        None,
        Fault::OutOfRange { count: 9 },
        3,
    ),
    // A script is refused before its stream is judged; a count above the limit is refused.
    (
        AMPLE,
        "append 1\n\ntruncate x\nappend 256",
        &[0x20],
        None,
        Fault::Script { line: 3 },
        0,
    ),
    (
        AMPLE,
        "append 256",
        &[0x20],
        None,
        Fault::Truncated { bit: 0 },
        0,
    ),
    (
        AMPLE,
        "",
        &RAMP,
        Some((1 << 32) + 1),
        Fault::TooManySamples { limit: 1 << 32 },
        0,
    ),
    // Limits hold for scripts, streams and edits.
    (
        (8, 8),
        "truncate 0",
        &RAMP,
        None,
        Fault::StreamTooLong { limit: 8 },
        0,
    ),
    (
        (8, 8),
        "append 1",
        &RAMP,
        None,
        Fault::TooManySamples { limit: 8 },
        1,
    ),
    (
        (8, 64),
        "insert 0 1",
        &RAMP,
        None,
        Fault::TooManySamples { limit: 8 },
        1,
    ),
    (
        (8, 64),
        "remove 3 2\ninsert 6 1 2\ninsert 4 256",
        &RAMP,
        None,
        Fault::TooManySamples { limit: 8 },
        3,
    ),
    ((9, 64), "insert 4 256", &RAMP, None, NO_SAMPLE, 1),
];

#[test]
fn refusals_are_named_by_their_line(rt: HostRuntime) -> Result<(), Fail> {
    for (most, text, stream, count, fault, line) in &REFUSED {
        let limits = Limits::new(most.0, most.1).ok_or("limits")?;
        let (answer, bytes, begins) = edited(rt.alloc(), limits, text, stream, *count)?;
        let (fault, line) = (*fault, *line);
        let expected = match line {
            0 => EditFault::Plain(fault),
            _ => EditFault::Line { line, fault },
        };
        same_at(&rt, (answer, begins), (Err(expected), 0), text);
        holds_at(&rt, bytes.is_empty(), text);
    }
    Ok(())
}
