//! Stored samples: read from bytes, and written.

use crate::asserts::{holds_at, same_at};
use crate::settings::stored;
use aec_params::{Fault, Params, put_sample, read_samples};
use std::test::Fail;

// A row: the settings (bits per sample; whether samples are signed; whether 17 to 24 bits are
// stored in three bytes; whether the most significant byte comes first); bytes; their samples, or
// the index of the first that is out of range.
const LISTS: [(u32, bool, bool, bool, &[u8], Result<&[i64], u64>); 21] = [
    (
        5,
        true,
        false,
        false,
        &[0x1f, 0xff, 0xf0, 0x0f],
        Ok(&[-1, -1, -16, 15]),
    ),
    (5, true, false, false, &[0xe0], Err(0)),
    (7, false, false, false, &[0x7f, 0x00, 0x80, 0xff], Err(2)),
    (8, false, false, false, &[], Ok(&[])),
    (8, false, false, false, &[0, 0xff, 0x80], Ok(&[0, 255, 128])),
    (9, true, false, false, &[0, 0xff, 0, 0x02, 0, 0x04], Err(1)),
    (12, false, false, false, &[0xff], Ok(&[])),
    (12, true, false, false, &[0xff, 0xf7], Err(0)),
    (12, false, false, false, &[0xff, 0xff], Err(0)),
    (
        12,
        true,
        false,
        false,
        &[0xff, 0x0f, 0xff, 0xff],
        Ok(&[-1, -1]),
    ),
    (12, false, false, false, &[0x01, 0x00, 0x02], Ok(&[1])),
    (12, false, false, true, &[0x01, 0x00, 0x02], Ok(&[256])),
    (
        12,
        true,
        false,
        true,
        &[0x01, 0x02, 0xf8, 0x00],
        Ok(&[258, -2048]),
    ),
    (
        16,
        false,
        false,
        true,
        &[0xff, 0xfe, 1, 2],
        Ok(&[65534, 258]),
    ),
    (20, false, true, true, &[0x0f, 0xff, 0xff], Ok(&[1048575])),
    (20, false, true, true, &[0x10, 0x00, 0x00], Err(0)),
    (
        20,
        false,
        false,
        false,
        &[0xff, 0xff, 0x0f, 0],
        Ok(&[1048575]),
    ),
    (
        20,
        true,
        true,
        false,
        &[0xfe, 0xff, 0xff, 3, 2, 1],
        Ok(&[-2, 66051]),
    ),
    (
        20,
        true,
        true,
        true,
        &[0xff, 0xff, 0xfe, 1, 2, 3],
        Ok(&[-2, 66051]),
    ),
    (
        32,
        false,
        false,
        false,
        &[0, 0, 0, 0x80, 0xff],
        Ok(&[2147483648]),
    ),
    (
        32,
        true,
        false,
        true,
        &[0x80, 0, 0, 0, 1, 2],
        Ok(&[-2147483648]),
    ),
];

#[test]
fn reads_whole_samples(rt: HostRuntime) -> Result<(), Fail> {
    for row in &LISTS {
        let (bits, signed, three_byte, msb_first, bytes, wanted) = *row;
        let params = Params::new(stored(bits, signed, three_byte, msb_first))?;
        match read_samples(rt.alloc(), &params, bytes) {
            Ok(samples) => same_at(&rt, Ok(samples.as_slice()), wanted, row),
            Err(fault) => {
                let index = wanted.err().unwrap_or(u64::MAX);
                same_at(&rt, fault, Fault::SampleRange { index }, row);
            }
        }
    }
    Ok(())
}

// A row: the settings as above, without the order of bytes; a sample; the number of its bytes, and
// these bytes as one number.
const STORED: [(u32, bool, bool, i64, usize, u32); 23] = [
    (1, false, false, 1, 1, 0x01),
    (1, true, false, -1, 1, 0xff),
    (3, false, false, 7, 1, 0x07),
    (3, true, false, -4, 1, 0xfc),
    (3, true, true, 3, 1, 0x03),
    (5, true, false, -1, 1, 0xff),
    (5, true, false, -16, 1, 0xf0),
    (5, true, false, 15, 1, 0x0f),
    (9, false, false, 258, 2, 0x0102),
    (9, true, false, -256, 2, 0xff00),
    (9, true, true, -2, 2, 0xfffe),
    (17, false, false, 65538, 4, 0x00010002),
    (17, false, true, 65538, 3, 0x010002),
    (17, true, false, -65535, 4, 0xffff0001),
    (17, true, true, -65535, 3, 0xff0001),
    (24, false, false, 1193046, 4, 0x00123456),
    (24, false, true, 1193046, 3, 0x123456),
    (24, true, false, -8388608, 4, 0xff800000),
    (24, true, true, -8388607, 3, 0x800001),
    (32, false, false, 305419896, 4, 0x12345678),
    (32, false, false, 4294967294, 4, 0xfffffffe),
    (32, true, false, -2147483647, 4, 0x80000001),
    (32, true, true, -2, 4, 0xfffffffe),
];

// The bytes after a written sample stay as they are.
#[test]
fn stores_in_either_order(rt: HostRuntime) -> Result<(), Fail> {
    for row in &STORED {
        let (bits, signed, three_byte, x, len, number) = *row;
        let len = len.min(4);
        for msb_first in [false, true] {
            let params = Params::new(stored(bits, signed, three_byte, msb_first))?;
            holds_at(&rt, params.holds(x), row);
            let (mut out, mut wanted) = ([0xaa; 4], [0xaa; 4]);
            same_at(&rt, put_sample(&params, x, &mut out), len, row);
            if msb_first {
                wanted[..len].copy_from_slice(&number.to_be_bytes()[4 - len..]);
            } else {
                wanted[..len].copy_from_slice(&number.to_le_bytes()[..len]);
            }
            same_at(&rt, out, wanted, row);
            let samples = read_samples(rt.alloc(), &params, &out[..len])?;
            same_at(&rt, samples.as_slice(), [x].as_slice(), row);
        }
    }
    Ok(())
}
