//! Comparisons of bits with bytes and with other bits.

use crate::asserts::{holds, same, same_at};
use aec_bits::BitBuf;
use std::process::Abort;

/// Checks the number of bits, and the bytes that the bits fill. Zeros fill up the last byte.
pub(crate) fn expect_bits(rt: &impl Abort, bits: &BitBuf, len: u64, bytes: &[u8]) {
    same(rt, bits.len(), len);
    same(rt, bits.byte_len(), bytes.len() as u64);
    for (i, byte) in bytes.iter().enumerate() {
        holds(rt, (i as u64) < bits.byte_len());
        same_at(rt, bits.byte(i as u64), *byte, &i);
    }
}

pub(crate) fn have_same_bits(bits: &BitBuf, wanted: &BitBuf) -> bool {
    if bits.len() != wanted.len() || bits.byte_len() != wanted.byte_len() {
        return false;
    }
    for i in 0..bits.byte_len() {
        if bits.byte(i) != wanted.byte(i) {
            return false;
        }
    }
    true
}
