//! The choice of an option: worked values, and a comparison with the lengths by FORMAT.md's table.

ghost use Rattle.std.specs.Prelude.{◌≡◌, ◌<◌, ◌^◌, true};
ghost use Rattle.std.specs.Bool.{OnTrue};
ghost use Rattle.std.specs.List.{AllByRecursion};
ghost use Rattle.aec_block.specs.Choices.{FitsReference, IsFull};

use crate::asserts::{fails, holds, holds_at, same, same_at};
use crate::shared::{expect_bits, have_same_bits};
use aec_bits::{BitBuf, BitReader};
use aec_block::{
    Block, Cds, Choice, Coding, choose, map, read_cds, unmap, write_block, write_shortest_of,
};
use aec_params::{Fault, Params, Settings};
use std::alloc::Global;
use std::process::Abort;
use std::test::Fail;

/// Returns a block of the values, after the reference place if there is one.
fn block_of(alloc: Global, reference: Option<u32>, values: &[u32]) -> Block {
    let mut block = Block::new(alloc, reference);
    for v in values {
        if block.len() < 64 {
            block.push(*v);
        }
    }
    block
}

fn all_below(values: &[u32], limit: u64) -> bool
    ensures { OnTrue result (AllByRecursion (λ v. v < limit) values.now) }
{
    values.iter().all(|v| u64::from(*v) < limit)
}

/// Returns whether a reference sample, if any, fits the bits per sample.
pub(crate) fn fits_reference(params: &Params, reference: Option<u32>) -> bool
    ensures { OnTrue result (FitsReference params.now reference) }
{
    match reference {
        None => true,
        Some(r) => u64::from(r) < 1 << params.bits(),
    }
}

/// Returns whether a block is full and fits the settings.
fn is_full(params: &Params, block: &Block) -> bool
    ensures { OnTrue result (IsFull params.now block.now) }
{
    if block.len() != params.block_size() as usize {
        return false;
    }
    if !fits_reference(params, block.reference()) {
        return false;
    }
    all_below(block.values(), 1 << params.bits())
}

/// Appends the shortest coded data set of a block by code compiled for its number of values.
fn write_compiled(params: &Params, block: &Block, out: &mut BitBuf) -> Result<(), Fault>
    requires { IsFull params.now block.now }
{
    let (reference, values) = (block.reference(), block.values());
    match values.len() {
        8 => write_shortest_of::<8>(params, reference, values, out),
        10 => write_shortest_of::<10>(params, reference, values, out),
        12 => write_shortest_of::<12>(params, reference, values, out),
        14 => write_shortest_of::<14>(params, reference, values, out),
        16 => write_shortest_of::<16>(params, reference, values, out),
        32 => write_shortest_of::<32>(params, reference, values, out),
        62 => write_shortest_of::<62>(params, reference, values, out),
        64 => write_shortest_of::<64>(params, reference, values, out),
        _ => Ok(()),
    }
}

#[test]
fn maps_by_the_table(rt: HostRuntime) -> Result<(), Fail> {
    let params = Params::new(Settings::USUAL)?;
    for (p, x, m) in [(3, 10, 10), (3, 1, 3), (250, 240, 15), (250, 255, 10)] {
        holds(&rt, params.holds(p) && params.holds(x));
        same_at(&rt, map(&params, p, x), m, &(&x, &p));
    }
    holds(&rt, params.holds(250));
    same(&rt, unmap(&params, 250, 15), 240);
    Ok(())
}

/// Checks the choice for a block of the reference sample 0 and these values, and the bits that both
/// writers append.
fn expect_written(
    rt: &impl Abort,
    alloc: Global,
    settings: Settings,
    values: &[u32],
    wanted: Choice,
    bytes: &[u8],
) -> Result<(), Fail> {
    let params = Params::new(settings)?;
    let block = block_of(alloc, Some(0), values);
    holds(rt, is_full(&params, &block));
    let choice = choose(&params, &block);
    same(rt, choice, wanted);
    let mut out = BitBuf::new(alloc);
    write_block(&params, &block, choice, &mut out)?;
    expect_bits(rt, &out, wanted.bits, bytes);
    let mut shortest = BitBuf::new(alloc);
    write_compiled(&params, &block, &mut shortest)?;
    expect_bits(rt, &shortest, wanted.bits, bytes);
    Ok(())
}

// k = 0 and k = 1 have equal lengths.
#[test]
fn chooses_and_writes_the_shortest(rt: HostRuntime) -> Result<(), Fail> {
    let split = Choice {
        coding: Coding::Split(0),
        bits: 31,
    };
    let eight = [1, 2, 2, 2, 2, 2, 2];
    let bytes = [0x20, 0x09, 0x24, 0x92];
    expect_written(&rt, rt.alloc(), Settings::USUAL, &eight, split, &bytes)?;
    let settings = Settings {
        block_size: 10,
        even_blocks: true,
        ..Settings::USUAL
    };
    let split = Choice { bits: 37, ..split };
    let ten = [1, 2, 2, 2, 2, 2, 2, 2, 2];
    let bytes = [0x20, 0x09, 0x24, 0x92, 0x48];
    expect_written(&rt, rt.alloc(), settings, &ten, split, &bytes)
}

#[test]
fn takes_the_first_of_equal_lengths(rt: HostRuntime) -> Result<(), Fail> {
    // No compression and the second extension have equal lengths.
    let narrow = Params::new(Settings {
        bits: 2,
        interval: 1,
        restricted: true,
        ..Settings::USUAL
    })?;
    let block = block_of(rt.alloc(), Some(0), &[0, 0, 0, 0, 0, 0, 3]);
    holds(&rt, is_full(&narrow, &block));
    same(
        &rt,
        choose(&narrow, &block),
        Choice {
            coding: Coding::NoCompression,
            bits: 17,
        },
    );

    // The second extension and splitting with k = 0 have equal lengths.
    let params = Params::new(Settings::USUAL)?;
    let block = block_of(rt.alloc(), Some(0), &[0, 0, 0, 1, 1, 0, 0]);
    holds(&rt, is_full(&params, &block));
    same(
        &rt,
        choose(&params, &block),
        Choice {
            coding: Coding::SecondExtension,
            bits: 20,
        },
    );
    Ok(())
}

#[test]
fn adds_up_values_of_32_bits(rt: HostRuntime) -> Result<(), Fail> {
    let params = Params::new(Settings {
        bits: 32,
        preprocess: false,
        ..Settings::USUAL
    })?;
    for (reference, values, choice) in [
        (
            None,
            [1 << 31, 1 << 31, 0, 0, 0, 0, 0, 0].as_slice(),
            Choice {
                coding: Coding::Split(28),
                bits: 253,
            },
        ),
        (
            Some(1 << 31),
            [u32::MAX; 7].as_slice(),
            Choice {
                coding: Coding::NoCompression,
                bits: 261,
            },
        ),
        (
            None,
            [u32::MAX; 8].as_slice(),
            Choice {
                coding: Coding::NoCompression,
                bits: 261,
            },
        ),
    ] {
        let block = block_of(rt.alloc(), reference, values);
        holds(&rt, is_full(&params, &block));
        same(&rt, choose(&params, &block), choice);
    }
    Ok(())
}

/// Returns a value of a fixed block: zeros, ones, a ramp, a spike, greatest values, or noise of
/// some width.
fn fixed_value(case: u32, place: u32, most: u32) -> u32 {
    let seed = case.wrapping_mul(0x9E37_79B9) ^ place.wrapping_mul(0x85EB_CA6B);
    let noise = (seed ^ (seed >> 15)).wrapping_mul(0x2C1B_3C6D);
    let value = match case % 6 {
        0 => 0,
        1 => 1,
        2 => place,
        3 if place == case / 6 % 64 => most,
        3 => 0,
        4 => most,
        _ => (noise ^ (noise >> 12)).wrapping_shr(case / 6),
    };
    value & most
}

fn fixed_block(alloc: Global, params: &Params, case: u32) -> Block {
    let most = u32::MAX.wrapping_shr(32 - params.bits());
    let reference = match case % 4 {
        0 => None,
        _ => Some(fixed_value(case, 99, most)),
    };
    let mut block = Block::new(alloc, reference);
    for place in 0..64 {
        if block.len() < params.block_size() as usize && block.len() < 64 {
            block.push(fixed_value(case, place, most));
        }
    }
    block
}

/// Returns the length of a spelling by FORMAT.md's table of lengths. No sum wraps.
fn plain_length(params: &Params, block: &Block, coding: Coding) -> u128 {
    let head = u128::from(params.id_len());
    let n = u128::from(params.bits());
    let (head, skipped) = match block.reference() {
        None => (head, 0),
        Some(_) => (head + n, 1),
    };
    let mut bits = head;
    match coding {
        Coding::NoCompression => {
            for _ in block.values().iter().skip(skipped) {
                bits = bits.wrapping_add(n);
            }
        }
        Coding::SecondExtension => {
            bits += 1;
            for pair in block.values().chunks_exact(2) {
                let a = pair.first().map_or(0, |v| u128::from(*v));
                let b = pair.last().map_or(0, |v| u128::from(*v));
                let sum = a.wrapping_add(b);
                let number = (sum.wrapping_mul(sum.wrapping_add(1)) / 2).wrapping_add(b);
                bits = bits.wrapping_add(number).wrapping_add(1);
            }
        }
        Coding::Split(k) => {
            for v in block.values().iter().skip(skipped) {
                let high = u128::from(v.wrapping_shr(k));
                bits = bits
                    .wrapping_add(high)
                    .wrapping_add(1)
                    .wrapping_add(u128::from(k));
            }
        }
    }
    bits
}

fn plain_choice(params: &Params, block: &Block) -> (Coding, u128) {
    let mut best = (
        Coding::NoCompression,
        plain_length(params, block, Coding::NoCompression),
    );
    let pairs = plain_length(params, block, Coding::SecondExtension);
    if pairs < best.1 {
        best = (Coding::SecondExtension, pairs);
    }
    if let Some(most) = params.k_max() {
        for k in 0..=most {
            let split = plain_length(params, block, Coding::Split(k));
            if split < best.1 {
                best = (Coding::Split(k), split);
            }
        }
    }
    best
}

/// Checks that the bits are one coded data set, and that it decodes to the block.
fn expect_block(
    rt: &impl Abort,
    alloc: Global,
    params: &Params,
    bits: &BitBuf,
    block: &Block,
) -> Result<(), Fail> {
    let mut reader = BitReader::new(bits);
    let cds = read_cds(alloc, params, &mut reader, block.reference().is_some())?;
    same(rt, reader.pos(), bits.len());
    if let Cds::Single(read) = cds {
        same(rt, read.reference(), block.reference());
        same(rt, read.values(), block.values());
    } else {
        fails(rt, &"a run was read");
    }
    Ok(())
}

/// Compares the choice for each fixed block with that of `plain_choice`, reads the written bits
/// back, and compares them with those of the compiled code.
fn compare_choices(
    rt: &impl Abort,
    alloc: Global,
    params: &Params,
    cases: u32,
) -> Result<(), Fail> {
    for case in 0..cases {
        let block = fixed_block(alloc, params, case);
        holds(rt, is_full(params, &block));
        let choice = choose(params, &block);
        let (coding, bits) = plain_choice(params, &block);
        same_at(rt, choice.coding, coding, &case);
        same_at(rt, u128::from(choice.bits), bits, &case);
        let mut out = BitBuf::new(alloc);
        write_block(params, &block, choice, &mut out)?;
        same_at(rt, out.len(), choice.bits, &case);
        expect_block(rt, alloc, params, &out, &block)?;
        let mut compiled = BitBuf::new(alloc);
        write_compiled(params, &block, &mut compiled)?;
        holds_at(rt, have_same_bits(&compiled, &out), &case);
    }
    Ok(())
}

#[test]
fn chooses_as_plain_lengths_say(rt: HostRuntime) -> Result<(), Fail> {
    for block_size in [8, 10, 12, 14, 16, 32, 62, 64] {
        let even_blocks = ![8, 16, 32, 64].contains(&block_size);
        for bits in [1, 2, 3, 4, 5, 8, 9, 16, 17, 24, 26, 27, 32] {
            let params = Params::new(Settings {
                bits,
                block_size,
                even_blocks,
                ..Settings::USUAL
            })?;
            let cases = if [1, 8, 16, 32].contains(&bits) {
                1000
            } else {
                200
            };
            compare_choices(&rt, rt.alloc(), &params, cases)?;
            if bits <= 4 {
                let params = Params::new(Settings {
                    bits,
                    block_size,
                    restricted: true,
                    even_blocks,
                    ..Settings::USUAL
                })?;
                compare_choices(&rt, rt.alloc(), &params, 200)?;
            }
        }
    }
    Ok(())
}
