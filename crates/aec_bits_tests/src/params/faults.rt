//! Texts of faults, and limits.

use crate::asserts::{same, same_at};
use aec_params::{Fault, Limits};
use std::test::Fail;

#[test]
fn limits_have_bounds(rt: HostRuntime) {
    for (samples, bytes, is_allowed) in [
        (1 << 32, 1 << 40, true),
        ((1 << 32) + 1, 0, false),
        (0, (1 << 40) + 1, false),
    ] {
        let limits = Limits::new(samples, bytes);
        let found = limits.map(|it| (it.samples(), it.bytes()));
        same(&rt, found, is_allowed.then_some((samples, bytes)));
    }
}

const TEXTS: [(Fault, &str); 17] = [
    (Fault::BitsPerSample, "bits per sample must be 1 to 32"),
    (Fault::BlockSize, "block size must be 8, 16, 32 or 64"),
    (Fault::EvenBlockSize, "block size must be even, 8 to 64"),
    (
        Fault::Interval,
        "reference sample interval must be 1 to 4096",
    ),
    (
        Fault::RestrictedWidth,
        "restricted codes need 4 bits per sample or fewer",
    ),
    (Fault::SampleRange { index: 7 }, "sample 7 is out of range"),
    (
        Fault::Truncated { bit: 9 },
        "coded data is cut short at bit 9",
    ),
    (Fault::ValueTooLarge { bit: 0 }, "value too large at bit 0"),
    (Fault::RunTooLong { bit: 34 }, "zero run too long at bit 34"),
    (Fault::TooManySamples { limit: 48 }, "more than 48 samples"),
    (
        Fault::OutOfRange { count: 12 },
        "position outside the 12 samples",
    ),
    (Fault::Spent, "coder calls are spent"),
    (Fault::Memory, "out of memory"),
    (Fault::Read, "read failed"),
    (Fault::Write, "write failed"),
    (Fault::Script { line: 3 }, "script line 3 is not an edit"),
    (
        Fault::StreamTooLong { limit: 1000 },
        "input is longer than 1000 bytes",
    ),
];

#[test]
fn faults_have_texts(rt: HostRuntime) -> Result<(), Fail> {
    for (fault, text) in &TEXTS {
        let printed = fault.to_string(rt.alloc())?;
        same_at(&rt, printed.as_str(), *text, fault);
    }
    Ok(())
}
