//! Gathers the codewords of values without their low bits.

ghost use Rattle.std.specs.Prelude.{◌≡◌, ◌+◌, ◌^◌, ◌<◌, ◌≤◌, ◌++◌, nat_lt, length};
ghost use Rattle.aec_block.specs.BlockShape.{most_values};
ghost use Rattle.aec_block.specs.Lengths.{FitsLanes};
ghost use Rattle.aec_block.specs.Written.{high_parts, IsHighLen, GathersBits};

use crate::writing::gathered::Gathered;
use crate::writing::joined_high_parts::{high_word, high_word_len};
use aec_bits::BitBuf;

/// Gathers the codewords of the values without their `k` low bits, one by one.
fn put_each_high_part(values: &[u32], k: u32, mut gathered: Gathered, out: &mut BitBuf) -> Gathered
    requires k { k < 32 }
    requires room { length (gathered ++ high_parts k values.now) ≤ out.old.room }
    ensures { GathersBits (gathered ++ high_parts k values.now) out.old result out.new }
{
    for v in values {
        gathered = gathered.put_fs(u64::from(*v >> k), out);
    }
    gathered
}

/// Returns whether codewords of `bits` bits in all are gathered as one number.
#[inline(always)]
fn is_one_word(bits: u64) -> bool
    ensures { result ≡ nat_lt bits 64 }
{
    bits < 64
}

/// Gathers the codewords of eight values without their `k` low bits: as one number if they have
/// fewer than 64 bits in all, else one by one.
fn put_high_eight(values: &[u32], k: u32, gathered: Gathered, out: &mut BitBuf) -> Gathered
    requires len { length values.now ≤ most_values }
    requires lanes { FitsLanes k values.now }
    requires room { length (gathered ++ high_parts k values.now) ≤ out.old.room }
    ensures { GathersBits (gathered ++ high_parts k values.now) out.old result out.new }
{
    let bits = high_word_len(values, k);
    if is_one_word(bits) {
        return gathered.put(high_word(values, k), bits as u32, out);
    }
    put_each_high_part(values, k, gathered, out)
}

/// Gathers the codewords of the values without their `k` low bits: eight values at a time, and the
/// last few one by one.
#[inline(never)]
fn put_high_eights(values: &[u32], k: u32, mut gathered: Gathered, out: &mut BitBuf) -> Gathered
    requires lanes { FitsLanes k values.now }
    requires room { length (gathered ++ high_parts k values.now) ≤ out.old.room }
    ensures { GathersBits (gathered ++ high_parts k values.now) out.old result out.new }
{
    for i in 0..values.len() / 8 {
        gathered = put_high_eight(&values[8 * i..8 * i + 8], k, gathered, out);
    }
    let whole = 8 * (values.len() / 8);
    put_each_high_part(&values[whole..], k, gathered, out)
}

/// Gathers the codewords of sixteen values without their `k` low bits: as one number if they have
/// fewer than 64 bits in all, else eight at a time.
#[inline(always)]
fn put_high_sixteen(values: &[u32], k: u32, gathered: Gathered, out: &mut BitBuf) -> Gathered
    requires len { length values.now ≤ most_values }
    requires lanes { FitsLanes k values.now }
    requires room { length (gathered ++ high_parts k values.now) ≤ out.old.room }
    ensures { GathersBits (gathered ++ high_parts k values.now) out.old result out.new }
{
    let bits = high_word_len(values, k);
    if is_one_word(bits) {
        return gathered.put(high_word(values, k), bits as u32, out);
    }
    put_high_eights(values, k, gathered, out)
}

/// Gathers the codewords of the values without their `k` low bits: sixteen values at a time, then
/// eight, and the last few one by one.
fn put_high_groups(values: &[u32], k: u32, mut gathered: Gathered, out: &mut BitBuf) -> Gathered
    requires lanes { FitsLanes k values.now }
    requires room { length (gathered ++ high_parts k values.now) ≤ out.old.room }
    ensures { GathersBits (gathered ++ high_parts k values.now) out.old result out.new }
{
    for i in 0..values.len() / 16 {
        gathered = put_high_sixteen(&values[16 * i..16 * i + 16], k, gathered, out);
    }
    let whole = 16 * (values.len() / 16);
    put_high_eights(&values[whole..], k, gathered, out)
}

/// Gathers the codewords of the values without their `k` low bits; the codewords have `len` bits in
/// all.
#[inline(always)]
pub(crate) fn put_high_parts(
    values: &[u32],
    k: u32,
    len: u64,
    gathered: Gathered,
    out: &mut BitBuf,
) -> Gathered
    requires len { IsHighLen k values.now len }
    requires room { length (gathered ++ high_parts k values.now) ≤ out.old.room }
    ensures { GathersBits (gathered ++ high_parts k values.now) out.old result out.new }
{
    if len < 64 {
        return gathered.put(high_word(values, k), len as u32, out);
    }
    if len < 1 << 32 {
        return put_high_groups(values, k, gathered, out);
    }
    put_each_high_part(values, k, gathered, out)
}
