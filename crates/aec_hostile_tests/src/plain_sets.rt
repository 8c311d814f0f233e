//! A coded data set, which is read whole before any of it is judged.

use crate::plain_bits::PlainBits;
use aec_params::{Fault, Settings};
use std::alloc::Global;

/// How the blocks of a coded data set are written.
#[derive(Clone, Copy)]
enum CodeOption {
    ZeroBlock,
    SecondExtension,
    Splitting { k: u32 },
    NoCompression,
}

/// What follows the identifier and the reference sample.
#[derive(Drop)]
pub(crate) enum Data {
    /// A run of zero blocks: the number that is written for its length.
    Run(u64),
    /// The values of one block, without the one in the reference place.
    Values(Vec<u64>),
}

#[derive(Drop)]
pub(crate) struct CodedSet {
    /// The pattern of the reference sample of a reference block.
    pub(crate) reference: Option<u32>,
    pub(crate) data: Data,
}

impl CodedSet {
    /// Reads the coded data set at this place. Fails with `Truncated` if the list ends within it.
    pub(crate) fn read(
        alloc: Global,
        settings: &Settings,
        bits: &mut PlainBits,
        is_reference: bool,
    ) -> Result<CodedSet, Fault> {
        bits.begin();
        let option = read_identifier(settings, bits)?;
        let mut reference = None;
        if is_reference {
            reference = Some(bits.number(settings.bits)?);
        }
        let data = match option {
            CodeOption::ZeroBlock => Data::Run(bits.fundamental()?),
            CodeOption::SecondExtension => {
                Data::Values(read_pairs(alloc, settings, bits, is_reference)?)
            }
            CodeOption::Splitting { k } => {
                Data::Values(read_split(alloc, settings, bits, is_reference, k)?)
            }
            CodeOption::NoCompression => {
                Data::Values(read_numbers(alloc, settings, bits, is_reference)?)
            }
        };
        Ok(CodedSet { reference, data })
    }
}

/// Returns the number of bits of an identifier. Zero block and second extension have one more.
fn identifier_len(settings: &Settings) -> u32 {
    match (settings.bits, settings.restricted) {
        (1 | 2, true) => 1,
        (3 | 4, true) => 2,
        (1..=8, _) => 3,
        (9..=16, _) => 4,
        _ => 5,
    }
}

/// Reads an identifier. All zeros begin the zero block and the second extension; all ones mean no
/// compression; any other number is k + 1 for sample splitting with k.
fn read_identifier(settings: &Settings, bits: &mut PlainBits) -> Result<CodeOption, Fault> {
    let len = identifier_len(settings);
    let ones = 2u32.saturating_pow(len).saturating_sub(1);
    let number = bits.number(len)?;
    if number == ones {
        return Ok(CodeOption::NoCompression);
    }
    if number > 0 {
        return Ok(CodeOption::Splitting { k: number - 1 });
    }
    match bits.number(1)? {
        0 => Ok(CodeOption::ZeroBlock),
        _ => Ok(CodeOption::SecondExtension),
    }
}

/// Returns how many values are written one by one: those of a block, without the reference place.
fn values_written(settings: &Settings, is_reference: bool) -> u32 {
    settings.block_size.saturating_sub(u32::from(is_reference))
}

/// Reads no compression: each value in n bits.
fn read_numbers(
    alloc: Global,
    settings: &Settings,
    bits: &mut PlainBits,
    is_reference: bool,
) -> Result<Vec<u64>, Fault> {
    let mut values = Vec::new(alloc);
    for _ in 0..values_written(settings, is_reference) {
        values.push(u64::from(bits.number(settings.bits)?))?;
    }
    Ok(values)
}

/// Reads the fundamental sequences of sample splitting.
fn read_high_parts(
    alloc: Global,
    settings: &Settings,
    bits: &mut PlainBits,
    is_reference: bool,
) -> Result<Vec<u64>, Fault> {
    let mut parts = Vec::new(alloc);
    for _ in 0..values_written(settings, is_reference) {
        parts.push(bits.fundamental()?)?;
    }
    Ok(parts)
}

/// Reads sample splitting: the high parts of all values, then the k low bits of each.
fn read_split(
    alloc: Global,
    settings: &Settings,
    bits: &mut PlainBits,
    is_reference: bool,
    k: u32,
) -> Result<Vec<u64>, Fault> {
    let high_parts = read_high_parts(alloc, settings, bits, is_reference)?;
    let mut values = Vec::new(alloc);
    for high in high_parts {
        let low = u64::from(bits.number(k)?);
        values.push(
            high.saturating_mul(2u64.saturating_pow(k))
                .saturating_add(low),
        )?;
    }
    Ok(values)
}

/// Reads the second extension: a number for each two values. In a reference block the first member
/// of the first pair is ignored.
fn read_pairs(
    alloc: Global,
    settings: &Settings,
    bits: &mut PlainBits,
    is_reference: bool,
) -> Result<Vec<u64>, Fault> {
    let mut values = Vec::new(alloc);
    for pair in 0..settings.block_size / 2 {
        let (first, second) = members(bits.fundamental()?);
        if pair > 0 || !is_reference {
            values.push(first)?;
        }
        values.push(second)?;
    }
    Ok(values)
}

/// Returns the pair of a number. Pairs are numbered by their sum, and pairs of one sum by the
/// second member: (0, 0), (1, 0), (0, 1), (2, 0), (1, 1), (0, 2) and so on.
fn members(number: u64) -> (u64, u64) {
    let mut second = number;
    // No sum is greater than the number.
    for sum in 0..=number {
        if second <= sum {
            return (sum - second, second);
        }
        second -= sum + 1;
    }
    (0, 0)
}
