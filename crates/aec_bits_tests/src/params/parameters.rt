//! Parameters, allowed and refused, and the numbers that follow from them.

use crate::asserts::{same, same_at};
use crate::settings::width;
use aec_params::{Fault, Params, Settings};
use std::test::Fail;

// A row: whether even block sizes are allowed; whether the set of options is restricted; bits per
// sample, samples per block, blocks per interval; the refusal.
const RULES: [(bool, bool, [u32; 3], Option<Fault>); 19] = [
    (false, false, [0, 8, 2], Some(Fault::BitsPerSample)),
    (false, false, [33, 10, 2], Some(Fault::BitsPerSample)),
    (false, false, [8, 10, 2], Some(Fault::BlockSize)),
    (false, false, [8, 10, 0], Some(Fault::BlockSize)),
    (false, false, [8, 8, 0], Some(Fault::Interval)),
    (false, false, [8, 8, 4097], Some(Fault::Interval)),
    (false, true, [8, 8, 2], Some(Fault::RestrictedWidth)),
    (false, true, [5, 8, 2], Some(Fault::RestrictedWidth)),
    (false, true, [4, 8, 2], None),
    (false, false, [32, 64, 4096], None),
    (true, false, [8, 10, 2], None),
    (true, false, [8, 8, 2], None),
    (true, false, [32, 62, 4096], None),
    (true, false, [8, 9, 2], Some(Fault::EvenBlockSize)),
    (true, false, [8, 6, 2], Some(Fault::EvenBlockSize)),
    (true, false, [8, 66, 2], Some(Fault::EvenBlockSize)),
    (true, false, [8, 9, 0], Some(Fault::EvenBlockSize)),
    (true, false, [33, 9, 2], Some(Fault::BitsPerSample)),
    (true, false, [8, 10, 0], Some(Fault::Interval)),
];

#[test]
fn judges_the_rules_in_order(rt: HostRuntime) {
    same(&rt, Settings::default(), Settings::USUAL);
    for row in &RULES {
        let (even_blocks, restricted, [bits, block_size, interval], wanted) = *row;
        let settings = Settings {
            bits,
            block_size,
            interval,
            restricted,
            even_blocks,
            ..Settings::USUAL
        };
        same_at(&rt, Params::new(settings).err(), wanted, row);
    }
}

// A row: bits per sample; whether samples are signed; whether the set of options is restricted;
// bits of an identifier and greatest k, by FORMAT.md's table; least and greatest sample; bytes of a
// stored sample.
const NUMBERS: [(u32, bool, bool, (u32, Option<u32>), (i64, i64), usize); 11] = [
    (1, false, true, (1, None), (0, 1), 1),
    (2, false, true, (1, None), (0, 3), 1),
    (3, false, true, (2, Some(1)), (0, 7), 1),
    (4, false, true, (2, Some(1)), (0, 15), 1),
    (1, true, false, (3, Some(5)), (-1, 0), 1),
    (8, false, false, (3, Some(5)), (0, 255), 1),
    (9, true, false, (4, Some(13)), (-256, 255), 2),
    (16, false, false, (4, Some(13)), (0, 65535), 2),
    (17, false, false, (5, Some(29)), (0, 131071), 4),
    (32, false, false, (5, Some(29)), (0, 4294967295), 4),
    (32, true, false, (5, Some(29)), (-2147483648, 2147483647), 4),
];

#[test]
fn numbers_follow_from_settings(rt: HostRuntime) -> Result<(), Fail> {
    for row in &NUMBERS {
        let (bits, signed, restricted, codes, range, storage) = *row;
        let params = Params::new(Settings {
            restricted,
            ..width(bits, signed)
        })?;
        same_at(&rt, (params.id_len(), params.k_max()), codes, row);
        same_at(&rt, (params.x_min(), params.x_max()), range, row);
        same_at(&rt, params.storage(), storage, row);
    }
    Ok(())
}

// A row: bits per sample; whether samples are signed; a sample; its pattern in two's complement.
const PATTERNS: [(u32, bool, i64, u32); 8] = [
    (1, true, -1, 1),
    (5, true, -16, 16),
    (5, true, -1, 31),
    (5, true, 15, 15),
    (8, false, 255, 255),
    (32, false, 4294967295, 4294967295),
    (32, true, -2147483648, 2147483648),
    (32, true, -1, 4294967295),
];

#[test]
fn patterns_are_twos_complement(rt: HostRuntime) -> Result<(), Fail> {
    for row in &PATTERNS {
        let (bits, signed, x, wanted) = *row;
        let params = Params::new(width(bits, signed))?;
        let pattern = params.holds(x).then(|| params.pattern(x));
        same_at(&rt, pattern, Some(wanted), row);
    }
    Ok(())
}
