//! Reads of several codewords at once: within a byte, at the end of the list, and past it.

use crate::asserts::same_at;
use aec_bits::{BitBuf, BitReader};
use std::test::Fail;

const SEQUENCES: u32 = 99;

// 1 01 001 0001, and six zeros
const FOUR: &[u8] = &[0xA4, 0x40];
// Eight ones up to bit 63; eight ones in a byte; eight ones that end after more than 64 bits.
const EIGHTS: &[u8] = &[
    1, 1, 1, 1, 1, 1, 1, 1, 0xFF, 1, 1, 1, 1, 1, 1, 1, 0, 1, 0x80,
];

const ONES: &[u8] = &[0xFF; 32];

const DIGITS: &[u8] = &[0x12, 0x34, 0x56, 0x78, 0x9A];

// A row: bytes; the place of a call that reads from them; bits per number, or SEQUENCES; how many
// numbers it asks for, and those that it reads, or none if it fails; the position after it.
const READS: [(&[u8], u64, u32, usize, Option<&[u32]>, u64); 22] = [
    (FOUR, 0, SEQUENCES, 4, Some(&[0, 1, 2, 3]), 10),
    (FOUR, 10, SEQUENCES, 0, Some(&[]), 10),
    (FOUR, 10, SEQUENCES, 1, None, 10),
    (FOUR, 0, SEQUENCES, 5, None, 0),
    (FOUR, 16, SEQUENCES, 1, None, 16),
    (FOUR, 16, SEQUENCES, 0, Some(&[]), 16),
    (EIGHTS, 0, SEQUENCES, 8, Some(&[7; 8]), 64),
    (EIGHTS, 64, SEQUENCES, 8, Some(&[0; 8]), 72),
    (
        EIGHTS,
        72,
        SEQUENCES,
        8,
        Some(&[7, 7, 7, 7, 7, 7, 7, 15]),
        144,
    ),
    (EIGHTS, 136, SEQUENCES, 9, None, 136),
    (ONES, 0, 32, 8, Some(&[u32::MAX; 8]), 256),
    (ONES, 0, 17, 7, Some(&[131071; 7]), 119),
    (ONES, 0, 16, 7, Some(&[65535; 7]), 112),
    (ONES, 0, 9, 7, Some(&[511; 7]), 63),
    (ONES, 0, 8, 7, Some(&[255; 7]), 56),
    (DIGITS, 0, 4, 10, Some(&[1, 2, 3, 4, 5, 6, 7, 8, 9, 10]), 40),
    (DIGITS, 40, 1, 1, None, 40),
    (DIGITS, 40, 0, 10, Some(&[0; 10]), 40),
    (
        DIGITS,
        4,
        9,
        4,
        Some(&[0b001000110, 0b100010101, 0b100111100, 0b010011010]),
        40,
    ),
    (DIGITS, 5, 9, 4, None, 5),
    (
        DIGITS,
        5,
        32,
        1,
        Some(&[0b01000110100010101100111100010011]),
        37,
    ),
    (DIGITS, 37, 32, 1, None, 37),
];

/// Returns whether the numbers are read. It has no `ensures`, so that their clauses stay out of the
/// loop's proof.
fn read(reader: &mut BitReader, width: u32, numbers: &mut [u32]) -> bool {
    if width <= 32 {
        reader.read_numbers(width, numbers).is_ok()
    } else {
        reader.read_sequences(numbers)
    }
}

#[test]
fn reads_several_at_once(rt: HostRuntime) -> Result<(), Fail> {
    for row in &READS {
        let (bytes, place, width, len, wanted, end) = *row;
        let buf = BitBuf::from_bytes(rt.alloc(), bytes)?;
        let mut reader = BitReader::new(&buf);
        if place <= buf.len() {
            reader.seek(place);
        }
        let mut numbers = vec![in rt.alloc(); 9; len]?;
        let is_read = read(&mut reader, width, &mut numbers);
        same_at(&rt, is_read.then_some(numbers.as_slice()), wanted, row);
        same_at(&rt, reader.pos(), end, row);
    }
    Ok(())
}
