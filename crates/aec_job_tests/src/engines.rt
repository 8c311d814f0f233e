//! The engines over devices in memory: what they write, also if a device fails.

use crate::asserts::same;
use crate::shared::{DEFAULTS, Outcome, engine_into, run_engine};
use aec_cli::{Action, encode};
use aec_engine_tests::devices::{After, Basin, Marked, Pieces};
use aec_params::{Fault, Limits, Params, Settings};
use std::alloc::Global;
use std::process::Abort;
use std::test::Fail;

const RAMP: [u8; 8] = [0, 1, 2, 3, 4, 5, 6, 7];

const RAMP_CODED: [u8; 4] = [0x20, 0x09, 0x24, 0x92];

const PART: Action = Action::Range {
    first: 5,
    len: 2,
    count: None,
};

// Coding, decoding and cutting out: what is read, and what is written.
const WAYS: [(Action, &[u8], &[u8]); 3] = [
    (Action::Encode, &RAMP, &RAMP_CODED),
    (Action::Decode { count: None }, &RAMP_CODED, &RAMP),
    (PART, &RAMP_CODED, &[5, 6]),
];

// Checks the outcome of one way, with the usual settings and very high limits.
fn leaves<R: Abort>(
    rt: &R,
    alloc: Global,
    action: &Action,
    source: Pieces<'_>,
    sink: Basin,
    (answer, written, begins, failures): (Result<(), Fault>, &[u8], u64, [u64; 2]),
) -> Result<(), Fail> {
    let params = Params::new(DEFAULTS)?;
    let limits = Limits::new(1 << 32, 1 << 40).ok_or("limits")?;
    let expected = Outcome {
        answer,
        written: written.to_vec(alloc)?,
        begins,
        failures,
    };
    let left = run_engine(alloc, &params, action, limits, source, sink);
    same(rt, left, expected);
    Ok(())
}

#[test]
fn samples_are_coded_and_decoded(rt: HostRuntime) -> Result<(), Fail> {
    for (action, given, wanted) in WAYS.iter() {
        for step in 1..10usize {
            let source = Pieces::of(given, step, After::Ends);
            let sink = Basin::of(rt.alloc(), step, 100);
            leaves(
                &rt,
                rt.alloc(),
                action,
                source,
                sink,
                (Ok(()), wanted, 1, [0, 0]),
            )?;
        }
    }
    Ok(())
}

#[test]
fn failed_sources_leave_nothing(rt: HostRuntime) -> Result<(), Fail> {
    for (action, given, _) in WAYS.iter() {
        for count in 0..9usize {
            let front = given.get(..count).unwrap_or(given);
            let source = Pieces::of(front, 3, After::Fails);
            let sink = Basin::of(rt.alloc(), 64, 100);
            leaves(
                &rt,
                rt.alloc(),
                action,
                source,
                sink,
                (Err(Fault::Read), &[], 0, [1, 0]),
            )?;
        }
    }
    Ok(())
}

// A sink that takes none or a part of the bytes, and one that fails at `begin`.
#[test]
fn failed_sinks_have_a_front(rt: HostRuntime) -> Result<(), Fail> {
    for (action, given, wanted) in WAYS.iter() {
        for step in 1..4usize {
            for room in 0..wanted.len() {
                let front = wanted.get(..room).ok_or("a front")?;
                let source = Pieces::of(given, 8, After::Ends);
                let sink = Basin::of(rt.alloc(), step, room);
                leaves(
                    &rt,
                    rt.alloc(),
                    action,
                    source,
                    sink,
                    (Err(Fault::Write), front, 1, [0, 1]),
                )?;
            }
        }
        let source = Pieces::of(given, 8, After::Ends);
        let sink = Basin::shut(rt.alloc());
        leaves(
            &rt,
            rt.alloc(),
            action,
            source,
            sink,
            (Err(Fault::Write), &[], 1, [0, 1]),
        )?;
    }
    Ok(())
}

// If the source is empty, each writes nothing: only `begin` can show that the sink fails.
const OF_NOTHING: [Action; 3] = [
    Action::Encode,
    Action::Decode { count: None },
    Action::Range {
        first: 0,
        len: 0,
        count: None,
    },
];

#[test]
fn empty_answers_need_a_sink_that_begins(rt: HostRuntime) -> Result<(), Fail> {
    for action in OF_NOTHING.iter() {
        let source = Pieces::of(&[], 8, After::Ends);
        let sink = Basin::shut(rt.alloc());
        leaves(
            &rt,
            rt.alloc(),
            action,
            source,
            sink,
            (Err(Fault::Write), &[], 1, [0, 1]),
        )?;
    }
    Ok(())
}

// Checks that an engine calls `begin` after the bytes `old` of a sink, and then writes.
fn writes_behind<R: Abort>(
    rt: &R,
    alloc: Global,
    action: &Action,
    given: &[u8],
    wanted: &[u8],
) -> Result<(), Fail> {
    let params = Params::new(DEFAULTS)?;
    let limits = Limits::new(1 << 32, 1 << 40).ok_or("limits")?;
    let mut source = Pieces::of(given, 3, After::Ends);
    let mut sink = Marked::behind(alloc, b"old")?;
    let answer = engine_into(alloc, &params, action, limits, &mut source, &mut sink);
    same(rt, (answer, sink.mark), (Ok(()), 3));
    same(rt, sink.bytes.strip_prefix(b"old"), Some(wanted));
    Ok(())
}

#[test]
fn sinks_are_begun_before_they_take(rt: HostRuntime) -> Result<(), Fail> {
    for (action, given, wanted) in WAYS.iter() {
        writes_behind(&rt, rt.alloc(), action, given, wanted)?;
    }
    Ok(())
}

// Samples of 5 bits, so that 32 is out of range: how often `take` is called, how many bytes it
// returns at most, the source's bytes, the limit of samples, and the result.
const FED: [(u64, usize, &[u8], u64, Result<(), Fault>); 6] = [
    (
        1,
        1,
        &[32, 0, 0, 0],
        1 << 32,
        Err(Fault::SampleRange { index: 0 }),
    ),
    (
        3,
        1,
        &[0, 0, 32, 0],
        1 << 32,
        Err(Fault::SampleRange { index: 2 }),
    ),
    (
        2,
        2,
        &[0, 0, 32, 0],
        3,
        Err(Fault::SampleRange { index: 2 }),
    ),
    (
        2,
        1,
        &[0, 0, 32, 0],
        1,
        Err(Fault::TooManySamples { limit: 1 }),
    ),
    (5, 1, &[0, 0, 0, 0], 4, Ok(())),
    (1, 1, &[], 0, Ok(())),
];

#[test]
fn a_refused_sample_is_the_last_that_is_taken(rt: HostRuntime) -> Result<(), Fail> {
    let params = Params::new(Settings {
        bits: 5,
        ..DEFAULTS
    })?;
    for (takes, step, bytes, limit, answer) in FED.iter() {
        let limits = Limits::new(*limit, 0).ok_or("limits")?;
        let mut source = Pieces::of(bytes, *step, After::Ends);
        let mut sink = Basin::of(rt.alloc(), 64, 100);
        let answered = encode(rt.alloc(), &params, limits, &mut source, &mut sink);
        same(&rt, (answered, source.takes()), (*answer, *takes));
    }
    Ok(())
}

// Samples from 128 to 254, one more than 131,072 blocks of 8 contain. Without preprocessing no
// option makes a block of them shorter than no compression: splitting with the greatest k, 5, takes
// at least 10 bits a sample. So each block takes 3 bits of identifier and 8 bits a sample.
#[test]
fn a_million_samples_come_one_a_call(rt: HostRuntime) -> Result<(), Fail> {
    let mut samples = Vec::new(rt.alloc());
    for index in 0..(1usize << 20) + 1 {
        samples.push(128 + (index % 127) as u8)?;
    }
    let params = Params::new(Settings {
        preprocess: false,
        ..DEFAULTS
    })?;
    let limits = Limits::new(1 << 32, 1 << 40).ok_or("limits")?;
    let source = Pieces::of(&samples, 1, After::Ends);
    let sink = Basin::of(rt.alloc(), 1 << 16, 1 << 21);
    let left = run_engine(rt.alloc(), &params, &Action::Encode, limits, source, sink);
    same(
        &rt,
        (left.answer, left.begins, left.failures),
        (Ok(()), 1, [0, 0]),
    );
    same(&rt, left.written.len(), 1_097_737);
    Ok(())
}
