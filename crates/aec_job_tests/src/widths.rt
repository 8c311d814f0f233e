//! Samples of each storage size and byte order, coded and decoded.

use crate::asserts::same_at;
use crate::shared::{DEFAULTS, run_engine};
use crate::tables::{cell, spelled};
use aec_cli::Action;
use aec_engine_tests::devices::{After, Basin, Pieces};
use aec_params::{Limits, Params, Settings};
use std::alloc::{Alloc, Global};
use std::process::Abort;
use std::test::Fail;

// Bits of a sample; bytes of a stored sample; `s` if samples are signed; ten samples; their code.
const WIDTHS: &str = "\
 1 | 1 | - | 1 0 0 1 1 1 0 1 0 0             | FA 62 F0
 1 | 1 | s | 0 -1 -1 0 0 0 -1 0 -1 -1        | EA 62 F0
 3 | 1 | - | 7 0 1 3 2 6 7 7 0 2             | FF 96 72 04 04 FE
 3 | 1 | s | 3 -4 -3 -1 -2 2 3 3 -4 -2       | EF 96 72 04 04 FE
 9 | 2 | - | 511 0 1 3 2 510 511 511 0 2     | 8F F8 F1 FF 81 06 07 F0 20 0C 00 03 FF E2 00*4
 9 | 2 | s | 255 -256 -255 -253 -254 254 255 255 -256 -254 | 87 F8 F1 FF 81 06 07 F0 20 0C 00 03 FF E2 00*4
17 | 4 | - | 131071 0 1 3 2 131070 131071 131071 0 2 | \
87 FF FC 78 FF FF C0 00 80 03 00 03 FF F8 00 10 00 07 00 00 FF FF F8 00 80 00*9
17 | 4 | s | 65535 -65536 -65535 -65533 -65534 65534 65535 65535 -65536 -65534 | \
83 FF FC 78 FF FF C0 00 80 03 00 03 FF F8 00 10 00 07 00 00 FF FF F8 00 80 00*9
24 | 4 | - | 16777215 0 1 3 2 16777214 16777215 16777215 0 2 | \
BF FF FF F8 F1 FF*3 00*2 04 00*2 30 00*2 7F FF FE 00*2 08 00*2 0A 80 00 FF*3 F0 00 02 00*15
24 | 4 | s | 8388607 -8388608 -8388607 -8388605 -8388606 8388606 8388607 8388607 -8388608 -8388606 | \
BB FF FF F8 F1 FF*3 00*2 04 00*2 30 00*2 7F FF FE 00*2 08 00*2 0A 80 00 FF*3 F0 00 02 00*15
32 | 4 | - | 4294967295 0 1 3 2 4294967294 4294967295 4294967295 0 2 | \
FF*8 F8 00*3 08 00*3 18 00*3 0F FF*3 F0 00*3 10 00*3 07 40 00 7F FF*3 F8 00*2 01 00*22
32 | 4 | s | 2147483647 -2147483648 -2147483647 -2147483645 -2147483646 2147483646 2147483647 2147483647 -2147483648 -2147483646 | \
FB FF*7 F8 00*3 08 00*3 18 00*3 0F FF*3 F0 00*3 10 00*3 07 40 00 7F FF*3 F8 00*2 01 00*22";

// Returns the bytes of the samples of a cell, each stored in `len` bytes.
fn stored(alloc: Global, cell: &str, len: usize, msb_first: bool) -> Result<Vec<u8>, Fail> {
    let mut bytes = Vec::new(alloc);
    for word in cell.split_whitespace() {
        let sample = word.parse::<i64>()?;
        let [ends, starts] = [sample.to_be_bytes(), sample.to_le_bytes()];
        let part = if msb_first {
            &ends[8 - len.min(8)..]
        } else {
            &starts[..len.min(8)]
        };
        bytes.extend_from_slice(part)?;
    }
    Ok(bytes)
}

// Checks that these bytes are coded as `coded`, and that `coded` is decoded as these bytes.
fn both_ways<R: Abort>(
    rt: &R,
    alloc: Global,
    settings: Settings,
    bytes: &[u8],
    coded: &[u8],
) -> Result<(), Fail> {
    let params = Params::new(settings)?;
    let limits = Limits::new(10, 100).ok_or("limits")?;
    let decoding = Action::Decode { count: Some(10) };
    for (action, given, wanted) in [(Action::Encode, bytes, coded), (decoding, coded, bytes)] {
        let source = Pieces::of(given, 7, After::Ends);
        let sink = Basin::of(alloc, 64, 100);
        let left = run_engine(alloc, &params, &action, limits, source, sink);
        same_at(rt, left.written.as_slice(), wanted, &settings);
    }
    Ok(())
}

// Checks the samples of a row, stored in this way, in both directions.
fn row_both_ways<R: Abort + Alloc<A = Global>>(
    rt: &R,
    row: &str,
    msb_first: bool,
    three_byte: bool,
) -> Result<(), Fail> {
    let (bits, rest) = cell(row);
    let (len, rest) = cell(rest);
    let (sign, rest) = cell(rest);
    let (samples, coded) = cell(rest);
    let settings = Settings {
        bits: bits.trim().parse::<u32>()?,
        signed: sign.trim() == "s",
        msb_first,
        three_byte,
        ..DEFAULTS
    };
    let len = if three_byte && settings.bits > 16 && settings.bits <= 24 {
        3
    } else {
        len.trim().parse::<usize>()?
    };
    let coded = spelled(rt.alloc(), coded)?;
    let bytes = stored(rt.alloc(), samples, len, msb_first)?;
    both_ways(rt, rt.alloc(), settings, &bytes, &coded)
}

// Each row in both byte orders, with the three-byte flag and without it.
#[test]
fn samples_of_each_width_are_coded_and_decoded(rt: HostRuntime) -> Result<(), Fail> {
    for row in WIDTHS.lines() {
        row_both_ways(&rt, row, false, false)?;
        row_both_ways(&rt, row, false, true)?;
        row_both_ways(&rt, row, true, false)?;
        row_both_ways(&rt, row, true, true)?;
    }
    Ok(())
}
