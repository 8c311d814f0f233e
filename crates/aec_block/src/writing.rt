//! Writes one block, or a run of zero blocks.

mod after_reference;
mod gathered;
mod high_parts;
mod joined_high_parts;
mod joined_low_parts;

ghost use Rattle.std.specs.Prelude.{◌≡◌, ◌+◌, ◌-◌, ◌*◌, ◌<◌, ◌≤◌, ◌^◌, ◌++◌, length, if◌then◌else◌};
ghost use Rattle.aec_params.specs.Params.{split_count};
ghost use Rattle.aec_params.specs.Codewords.{binary};
ghost use Rattle.aec_params.specs.CodedDataSets.{pair_bits, reference_bits, cds_bits};
ghost use Rattle.aec_params.specs.Spellings.{written_values, uncompressed, paired, split};
ghost use Rattle.aec_params.specs.Runs.{segment_len, run_code};
ghost use Rattle.aec_block.specs.Lengths.{reference_len};
ghost use Rattle.aec_block.specs.Choices.{FitsReference, IsFull, IsPrepared, IsChoice};
ghost use Rattle.aec_block.specs.Written.{high_parts, low_parts, split_parts, shortest_bits, run_bits, IsHighLen, FitsLowWord, FitsPart, Appends, Adds, GathersBits};

use crate::block::{Block, BlockRef};
use crate::choice::lengths::{head_len, pair_len};
use crate::choice::{Choice, Coding};
use crate::copies::WRITE_BLOCK;
use crate::writing::after_reference::put_seven;
use crate::writing::gathered::Gathered;
use crate::writing::high_parts::put_high_parts;
use crate::writing::joined_low_parts::low_word;
use aec_bits::BitBuf;
use aec_params::{Fault, Params};

/// Gathers the reference sample, if there is one.
#[inline(always)]
fn put_reference(
    params: &Params,
    reference: Option<u32>,
    gathered: Gathered,
    out: &mut BitBuf,
) -> Gathered
    requires reference { FitsReference params.now reference }
    requires room { length gathered + reference_len params.now reference ≤ out.old.room }
    ensures { GathersBits (gathered ++ reference_bits params.now reference) out.old result out.new }
{
    match reference {
        None => gathered,
        Some(r) => gathered.put(u64::from(r), params.bits(), out),
    }
}

/// Gathers an identifier of `width` bits, and the reference sample, if there is one.
#[inline(always)]
#[tactic(auto, using(crate::proofs::WritingLemmas::parts))]
fn put_head(
    params: &Params,
    reference: Option<u32>,
    id: u32,
    width: u32,
    out: &mut BitBuf,
) -> Gathered
    requires id { FitsPart width id }
    requires reference { FitsReference params.now reference }
    requires room { width + reference_len params.now reference ≤ out.old.room }
    ensures { GathersBits (binary width id ++ reference_bits params.now reference)
        out.old result out.new }
{
    let id = Gathered::of_number(u64::from(id), width);
    put_reference(params, reference, id, out)
}

/// Gathers the lowest `width` bits of each value, one by one.
fn put_each_low_part(
    values: &[u32],
    width: u32,
    mut gathered: Gathered,
    out: &mut BitBuf,
) -> Gathered
    requires width { width ≤ 32 }
    requires room { length (gathered ++ low_parts width values.now) ≤ out.old.room }
    ensures { GathersBits (gathered ++ low_parts width values.now) out.old result out.new }
{
    for v in values {
        gathered = gathered.put(u64::from(*v) % (1 << width), width, out);
    }
    gathered
}

/// Gathers the lowest `width` bits of each value: `N` values at a time, and the last few, fewer
/// than `N`, one by one.
#[tactic(auto, using(crate::proofs::WritingLemmas::behind))]
#[inline(always)]
fn put_low_groups<const N: usize>(
    values: &[u32],
    width: u32,
    mut gathered: Gathered,
    out: &mut BitBuf,
) -> Gathered
    requires group { FitsLowWord N width }
    requires room { length (gathered ++ low_parts width values.now) ≤ out.old.room }
    ensures { GathersBits (gathered ++ low_parts width values.now) out.old result out.new }
{
    for i in 0..values.len() / N {
        let word = low_word(&values[N * i..N * (i + 1)], width);
        gathered = gathered.put(word, N as u32 * width, out);
    }
    let whole = N * (values.len() / N);
    put_each_low_part(&values[whole..], width, gathered, out)
}

/// Gathers the lowest `width` bits of each value: seven values at once if `width` is below 10; else
/// eight, four or two at a time, so that they have fewer than 64 bits; with a width of 32 one by
/// one.
#[inline(always)]
fn put_low_parts(values: &[u32], width: u32, gathered: Gathered, out: &mut BitBuf) -> Gathered
    requires width { width ≤ 32 }
    requires room { length (gathered ++ low_parts width values.now) ≤ out.old.room }
    ensures { GathersBits (gathered ++ low_parts width values.now) out.old result out.new }
{
    if width < 10 && values.len() == 7 {
        return put_low_groups::<7>(values, width, gathered, out);
    }
    if width < 8 {
        return put_low_groups::<8>(values, width, gathered, out);
    }
    if width < 16 {
        return put_low_groups::<4>(values, width, gathered, out);
    }
    if width < 32 {
        return put_low_groups::<2>(values, width, gathered, out);
    }
    put_each_low_part(values, width, gathered, out)
}

/// Gathers the values of a block that are written one by one, split at bit `k`: first the codewords
/// of the values without their `k` low bits, `len` bits in all, then the low bits. Seven values
/// after a reference have code of their own.
#[inline(always)]
#[tactic(auto, using(crate::proofs::WritingLemmas::both))]
fn put_written(
    block: &BlockRef,
    values: &[u32],
    k: u32,
    len: u64,
    gathered: Gathered,
    out: &mut BitBuf,
) -> Gathered
    requires values { values.now ≡ written_values block.now }
    requires len { IsHighLen k values.now len }
    requires room { length gathered + length (split_parts k values.now) ≤ out.old.room }
    ensures { GathersBits (gathered ++ split_parts k values.now) out.old result out.new }
{
    if values.len() == 7 && block.reference().is_some() && len < 64 && k < 8 {
        return put_seven(block.values(), k, len, gathered, out);
    }
    let high = put_high_parts(values, k, len, gathered, out);
    put_low_parts(values, k, high, out)
}

/// Gathers the codewords of consecutive pairs.
fn put_pairs(values: &[u32], mut gathered: Gathered, out: &mut BitBuf) -> Gathered
    requires fits { length (pair_bits values.now) < 2 ^ 64 }
    requires room { length (gathered ++ pair_bits values.now) ≤ out.old.room }
    ensures { GathersBits (gathered ++ pair_bits values.now) out.old result out.new }
{
    for i in 0..values.len() / 2 {
        let number = pair_len(values[2 * i], values[2 * i + 1]) - 1;
        gathered = gathered.put_fs(number as u64, out);
    }
    gathered
}

/// Appends a block by no compression, for which there is room.
#[tactic(auto, using(crate::proofs::WritingLemmas::parts))]
#[inline(always)]
fn put_uncompressed(
    params: &Params,
    id_len: u32,
    block: &BlockRef,
    values: &[u32],
    out: &mut BitBuf,
)
    requires prepared { IsPrepared params.now id_len block.now values.now }
    requires room { length (cds_bits params.now (uncompressed block.now)) ≤ out.old.room }
    ensures { Adds (cds_bits params.now (uncompressed block.now)) out.old out.new }
{
    let all_ones = (1 << id_len) - 1;
    let head = put_head(params, block.reference(), all_ones, id_len, out);
    put_low_parts(values, params.bits(), head, out).append_to(out);
}

/// Appends a block by the second extension, for which there is room.
#[inline(never)]
#[tactic(auto, using(crate::proofs::WritingLemmas::parts))]
fn put_paired(params: &Params, id_len: u32, block: &BlockRef, out: &mut BitBuf)
    requires prepared { IsPrepared params.now id_len block.now (written_values block.now) }
    requires fits { length (cds_bits params.now (paired block.now)) < 2 ^ 64 }
    requires room { length (cds_bits params.now (paired block.now)) ≤ out.old.room }
    ensures { Adds (cds_bits params.now (paired block.now)) out.old out.new }
{
    let head = put_head(params, block.reference(), 1, id_len + 1, out);
    put_pairs(block.values(), head, out).append_to(out);
}

/// Returns how many bits of a block that is split with `k` are those of its values without their
/// low bits.
#[inline(always)]
fn high_len(
    params: &Params,
    id_len: u32,
    block: &BlockRef,
    values: &[u32],
    k: u32,
    bits: u64,
) -> u64
    requires prepared { IsPrepared params.now id_len block.now values.now }
    requires k { k < 32 }
    requires bits { bits ≡ length (cds_bits params.now (split block.now k)) }
    ensures { result ≡ length (high_parts k values.now) }
{
    let head = u64::from(head_len(params, id_len, block.reference()));
    bits - head - values.len() as u64 * u64::from(k)
}

/// Appends a block by splitting with `k`, in `bits` bits, for which there is room.
#[tactic(auto, using(crate::proofs::WritingLemmas::parts))]
#[inline(always)]
fn put_split(
    params: &Params,
    id_len: u32,
    block: &BlockRef,
    values: &[u32],
    k: u32,
    bits: u64,
    out: &mut BitBuf,
)
    requires prepared { IsPrepared params.now id_len block.now values.now }
    requires k { k < split_count params.now }
    requires bits { bits ≡ length (cds_bits params.now (split block.now k)) }
    requires room { length (cds_bits params.now (split block.now k)) ≤ out.old.room }
    ensures { Adds (cds_bits params.now (split block.now k)) out.old out.new }
{
    let len = high_len(params, id_len, block, values, k, bits);
    let head = put_head(params, block.reference(), k + 1, id_len, out);
    put_written(block, values, k, len, head, out).append_to(out);
}

/// Appends the coded data set of a block by the chosen option. `values` are those that are written
/// one by one. Fails with `Memory` if an allocation fails. `N` is for the compiler alone. Each
/// caller passes a `COPY` of its own, as `copies` says.
#[inline(always)]
pub(crate) fn write_values<const N: usize, const COPY: usize>(
    params: &Params,
    id_len: u32,
    block: &BlockRef,
    values: &[u32],
    choice: Choice,
    out: &mut BitBuf,
) -> Result<(), Fault>
    requires prepared { IsPrepared params.now id_len block.now values.now }
    requires choice { IsChoice params.now block.now choice }
    ensures { Appends (shortest_bits params.now block.now) out.old result out.new }
{
    out.reserve(choice.bits)?;
    match choice.coding {
        Coding::NoCompression => put_uncompressed(params, id_len, block, values, out),
        Coding::SecondExtension => {
            // Stays out of line. It is lent copies, so that the compiler can keep the originals in
            // registers.
            let own = *params;
            let own_block = BlockRef::new(block.reference(), block.values());
            put_paired(&own, id_len, &own_block, out);
        },
        Coding::Split(k) => put_split(params, id_len, block, values, k, choice.bits, out),
    }
    Ok(())
}

/// Appends the coded data set of a block that is in no run, by the option that `choose` returned.
/// Fails with `Memory` if an allocation fails, never if there is room for the coded data set;
/// nothing is then changed.
pub fn write_block(
    params: &Params,
    block: &Block,
    choice: Choice,
    out: &mut BitBuf,
) -> Result<(), Fault>
    requires full { IsFull params.now block.now }
    requires choice { IsChoice params.now block.now choice }
    ensures { Appends (shortest_bits params.now block.now) out.old result out.new }
{
    let view = block.view();
    write_values::<0, WRITE_BLOCK>(params, params.id_len(), &view, view.written(), choice, out)
}

/// Returns the number that the code of a run of `z` blocks spells: 4, the remainder code, for a run
/// of five or more that ends its segment.
fn code_of_run(z: u32, to_end: bool) -> u32
    requires { 1 ≤ z }
    ensures { result ≡ run_code z to_end }
{
    if z <= 4 {
        z - 1
    } else if to_end {
        4
    } else {
        z
    }
}

/// Appends the coded data set of a run of `z` zero blocks. The first has the reference, if there is
/// one; `to_end` says whether the run ends its segment. Fails with `Memory` if an allocation fails,
/// never if there is room for the coded data set; nothing is then changed.
#[inline(always)]
#[tactic(auto, using(crate::proofs::WritingLemmas::parts))]
pub fn write_run(
    params: &Params,
    reference: Option<u32>,
    z: u32,
    to_end: bool,
    out: &mut BitBuf,
) -> Result<(), Fault>
    requires reference { FitsReference params.now reference }
    requires least { 1 ≤ z }
    requires most { z ≤ (if to_end then segment_len else segment_len - 1) }
    ensures { Appends (run_bits params.now reference z to_end) out.old result out.new }
{
    let code = code_of_run(z, to_end);
    let width = params.id_len();
    out.reserve(u64::from(head_len(params, width, reference) + 1 + (code + 1)))?;
    let head = put_head(params, reference, 0, width + 1, out);
    head.put_fs(u64::from(code), out).append_to(out);
    Ok(())
}
