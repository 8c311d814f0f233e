//! Samples that are fed to a `StreamCoder` in pieces.

use crate::asserts::same_at;
use crate::settings::{FIVE_BITS, PLAIN_8, SIXTEEN_BITS, USUAL, WITH_128};
use crate::shared::{MOST, expect_bits, list_of};
use aec_bits::BitBuf;
use aec_interval::StreamCoder;
use aec_params::{Fault, Params, Settings};
use std::test::Fail;

// A piece to feed; the result; how many samples are then held (`None`: any number below an
// interval); the number of bits so far.
type Call = (&'static [u8], Result<(), Fault>, Option<u64>, u64);

const MANY: Fault = Fault::TooManySamples { limit: 17 };

const ONE: Fault = Fault::TooManySamples { limit: 1 };

const NONE: Fault = Fault::TooManySamples { limit: 0 };

const BAD: Fault = Fault::SampleRange { index: 1 };

// A row: settings; the limit; the calls of `feed`; the result of `finish`; the number of bits and
// the bits.
const ROWS: [(Settings, u64, &[Call], Result<(), Fault>, u64, &[u8]); 8] = [
    // Each interval is coded when it is complete.
    (
        USUAL,
        17,
        &[
            (&[], Ok(()), Some(0), 0),
            (&[0; 5], Ok(()), Some(5), 0),
            (&[], Ok(()), Some(5), 0),
            (&[0; 12], Ok(()), Some(1), 14),
        ],
        Ok(()),
        27,
        &[0x00, 0x04, 0x00, 0x20],
    ),
    (USUAL, 17, &[], Ok(()), 0, &[]),
    // Half a sample at the end is ignored.
    (
        SIXTEEN_BITS,
        1,
        &[(&[0], Ok(()), Some(0), 0), (&[0, 0], Ok(()), Some(1), 0)],
        Ok(()),
        22,
        &[0x00, 0x00, 0x04],
    ),
    // A refusal is returned again.
    (
        USUAL,
        17,
        &[
            (&[0; 5], Ok(()), Some(5), 0),
            (&[0; 12], Ok(()), Some(1), 14),
            (&[0], Err(MANY), None, 14),
            (&[], Err(MANY), None, 14),
            (&[0; 40], Err(MANY), None, 14),
        ],
        Err(MANY),
        14,
        &[0x00, 0x04],
    ),
    // A sample past the limit is refused at its second byte, not at its first.
    (
        SIXTEEN_BITS,
        1,
        &[
            (&[0, 0, 0], Ok(()), Some(1), 0),
            (&[0], Err(ONE), None, 0),
            (&[0], Err(ONE), None, 0),
        ],
        Err(ONE),
        0,
        &[],
    ),
    (
        USUAL,
        0,
        &[(&[], Ok(()), Some(0), 0), (&[0], Err(NONE), None, 0)],
        Err(NONE),
        0,
        &[],
    ),
    // The limit is judged before the range.
    (
        FIVE_BITS,
        1,
        &[(&[0, 0x20], Err(ONE), None, 0)],
        Err(ONE),
        0,
        &[],
    ),
    (
        FIVE_BITS,
        2,
        &[(&[0, 0x20, 0], Err(BAD), None, 0)],
        Err(BAD),
        0,
        &[],
    ),
];

#[test]
fn codes_each_interval_when_it_is_complete(rt: HostRuntime) -> Result<(), Fail> {
    for (row, (settings, limit, calls, finish, len, bytes)) in ROWS.iter().enumerate() {
        let params = Params::new(*settings)?;
        let mut coder = StreamCoder::new(rt.alloc(), params, *limit);
        let mut out = BitBuf::new(rt.alloc());
        for (piece, answer, held, bits) in *calls {
            same_at(&rt, coder.feed(piece, &mut out), *answer, &row);
            same_at(&rt, out.len(), *bits, &row);
            let most = params.interval_len().saturating_sub(1);
            let wanted = held.unwrap_or(coder.held().min(most));
            same_at(&rt, coder.held(), wanted, &row);
        }
        same_at(&rt, coder.finish(&mut out), *finish, &row);
        expect_bits(&rt, rt.alloc(), &out, *len, bytes)?;
    }
    Ok(())
}

// A row: settings; samples of one byte; the number of bits of their code, and the code.
const STREAMS: [(Settings, &[(i64, usize)], u64, &[u8]); 2] = [
    (PLAIN_8, &[(0, 48), (1, 1), (0, 7)], 20, &[0x00, 0x22, 0xF0]),
    (WITH_128, &[(0, 520)], 22, &[0x00, 0x00, 0x84]),
];

#[test]
fn codes_the_same_in_pieces_of_any_size(rt: HostRuntime) -> Result<(), Fail> {
    for (settings, runs, len, code) in &STREAMS {
        let mut bytes = Vec::new(rt.alloc());
        for x in list_of(rt.alloc(), runs)?.iter() {
            bytes.push((*x & 0xFF) as u8)?;
        }
        for size in [1usize, 2, 3, 7, 64] {
            let mut coder = StreamCoder::new(rt.alloc(), Params::new(*settings)?, MOST);
            let mut out = BitBuf::new(rt.alloc());
            for piece in bytes.chunks(size) {
                coder.feed(piece, &mut out)?;
            }
            coder.finish(&mut out)?;
            expect_bits(&rt, rt.alloc(), &out, *len, code)?;
        }
    }
    Ok(())
}
