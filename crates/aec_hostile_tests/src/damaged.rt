//! Streams, most of them from FORMAT.md, cut after each byte and with each bit inverted.

ghost use Rattle.std.specs.Prelude.{◌≤◌, ◌^◌};

use crate::compared::{Stream, expect_agreement};
use aec_params::Settings;
use std::alloc::Global;
use std::process::Abort;
use std::test::Fail;

fn stream(settings: Settings, bytes: &'static [u8], count: u64) -> Stream<'static> {
    Stream {
        settings,
        bytes,
        count: Some(count),
    }
}

const USUAL: Settings = Settings::USUAL;

const PADDED: Settings = Settings { pad: true, ..USUAL };

const WIDE: Settings = Settings {
    interval: 64,
    ..USUAL
};

const WIDEST: Settings = Settings {
    interval: 128,
    ..USUAL
};

const UNPROCESSED: Settings = Settings {
    interval: 8,
    preprocess: false,
    ..USUAL
};

const ONE_BIT: Settings = Settings {
    bits: 1,
    ..UNPROCESSED
};

const NARROW: Settings = Settings {
    bits: 3,
    signed: true,
    ..USUAL
};

const RESTRICTED: Settings = Settings {
    bits: 2,
    interval: 1,
    restricted: true,
    ..USUAL
};

const SIGNED: Settings = Settings {
    bits: 32,
    signed: true,
    ..USUAL
};

/// The least and the greatest sample of 32 bits, alternating.
const EXTREMES: [u8; 33] = [
    0xFC, 0x00, 0x00, 0x00, 0x07, 0xFF, 0xFF, 0xFF, 0xFF, 0xFF, 0xFF, 0xFF, 0xFF, 0xFF, 0xFF, 0xFF,
    0xFF, 0xFF, 0xFF, 0xFF, 0xFF, 0xFF, 0xFF, 0xFF, 0xFF, 0xFF, 0xFF, 0xFF, 0xFF, 0xFF, 0xFF, 0xFF,
    0xF8,
];

/// Returns streams of worked examples, each with a count.
fn streams() -> [Stream<'static>; 21] {
    [
        stream(USUAL, &[0x00, 0x08], 8),
        stream(USUAL, &[0x20, 0x09, 0x24, 0x92], 8),
        stream(USUAL, &[0x00, 0x78], 5),
        stream(USUAL, &[0x00, 0x04, 0x00, 0x20], 17),
        stream(PADDED, &[0x00, 0x04, 0x00, 0x08], 17),
        stream(WIDE, &[0x00, 0x00, 0x80], 40),
        stream(UNPROCESSED, &[0x00, 0x22, 0xF0], 56),
        stream(RESTRICTED, &[0x80, 0x01, 0x80], 8),
        stream(USUAL, &[0x00, 0x04, 0x00, 0x10, 0x00, 0x40], 48),
        stream(USUAL, &[0x00, 0x04, 0x40, 0x30, 0xC2, 0x00, 0x08], 48),
        stream(SIGNED, &EXTREMES, 8),
        stream(WIDEST, &[0x00, 0x00, 0x84], 520),
        stream(
            UNPROCESSED,
            &[0xE0, 0x00, 0x20, 0x40, 0x60, 0x80, 0xA0, 0xC0, 0xE0],
            8,
        ),
        // Refused without damage: a value of 2 for samples of one bit, and a run of 3 in an
        // interval of 2 blocks.
        stream(ONE_BIT, &[0x27, 0xF8], 8),
        stream(USUAL, &[0x00, 0x02], 8),
        // Not written by the coder of this project: splitting with k = 1 where k = 0 is as short; a
        // first member of a first pair that isn't 0, or is too large; ones as padding; splitting
        // and no compression where another option is shorter.
        stream(USUAL, &[0x40, 0x15, 0x55, 0x80], 8),
        stream(USUAL, &[0x10, 0x07, 0x80], 8),
        stream(RESTRICTED, &[0x60, 0x03, 0xC0], 8),
        stream(PADDED, &[0x00, 0x07, 0x00, 0x08], 17),
        stream(ONE_BIT, &[0x2A, 0xAA, 0xAF, 0xF0], 8),
        stream(NARROW, &[0xF3, 0xEB, 0x1A, 0x20], 8),
    ]
}

/// Checks that both readers agree on the bytes, with the count and without one, under limits of
/// 4096 samples and of 20, which some streams exceed.
fn expect_agreements(
    rt: &impl Abort,
    alloc: Global,
    stream: &Stream,
    bytes: &[u8],
    case: &(usize, usize),
) {
    for count in [stream.count, None] {
        let damaged = Stream {
            settings: stream.settings,
            bytes,
            count,
        };
        expect_agreement(rt, alloc, &damaged, 4096, case);
        expect_agreement(rt, alloc, &damaged, 20, case);
    }
}

/// Checks a stream cut after each byte.
fn try_cuts(rt: &impl Abort, alloc: Global, number: usize, stream: &Stream) {
    for len in 0..=stream.bytes.len() {
        if let Some(front) = stream.bytes.get(..len) {
            expect_agreements(rt, alloc, stream, front, &(number, len));
        }
    }
}

/// Returns a copy of bytes with one bit inverted.
fn turned(alloc: Global, bytes: &[u8], place: usize) -> Result<Vec<u8>, Fail> {
    let mut copy = Vec::from_slice(alloc, bytes)?;
    if let Some(byte) = copy.get_mut(place / 8) {
        *byte ^= 0x80 >> (place % 8);
    }
    Ok(copy)
}

/// Checks a stream with each of its bits inverted, one at a time.
fn try_turns(rt: &impl Abort, alloc: Global, number: usize, stream: &Stream) -> Result<(), Fail> {
    for place in 0..stream.bytes.len().saturating_mul(8) {
        let bytes = turned(alloc, stream.bytes, place)?;
        expect_agreements(rt, alloc, stream, &bytes, &(number, place));
    }
    Ok(())
}

#[test]
fn cut_streams_are_read_as_by_the_plain_reader(rt: HostRuntime) {
    for (number, stream) in streams().iter().enumerate() {
        try_cuts(&rt, rt.alloc(), number, stream);
    }
}

#[test]
fn streams_with_a_turned_bit_are_read_as_by_the_plain_reader(rt: HostRuntime) -> Result<(), Fail> {
    for (number, stream) in streams().iter().enumerate() {
        try_turns(&rt, rt.alloc(), number, stream)?;
    }
    Ok(())
}
