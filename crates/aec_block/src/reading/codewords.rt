//! Reads the codewords of a coded data set. Some functions only call the reader, and state its
//! clauses as `Takes` or `PutsNumbers`.

ghost use Rattle.std.specs.Prelude.{◌≡◌, ◌+◌, ◌≤◌, ◌<◌, ◌^◌, length, IfOk, OnOk};
ghost use Rattle.aec_bits.specs.BitReader.{AreBelow, IsBehindWord};
ghost use Rattle.aec_block.specs.ReadAt.{fs_at, binary_at, pair_with_number};
ghost use Rattle.aec_block.specs.Gathering.{as_taken, PutsNumbers, Takes};

use aec_bits::BitReader;
use aec_params::Fault;

/// Reads the number that the next `width` bits spell.
#[inline(always)]
pub(crate) fn read_number(reader: &mut BitReader, width: u32) -> Result<u64, Fault>
    requires width { width ≤ 64 }
    requires within { reader.old.pos ≤ length reader.old.list }
    ensures taken { Takes (binary_at width) reader.old (as_taken result) reader.new }
    ensures bound { IfOk result (λ v. v < 2 ^ width) }
    ensures place { OnOk result (reader.new.pos ≡ reader.old.pos + width) }
{
    reader.read(width)
}

/// `read_number`, of a number that a word has after its first `gone` bits, which were read.
#[inline(always)]
pub(crate) fn read_number_from(
    reader: &mut BitReader,
    word: u64,
    gone: u32,
    width: u32,
) -> Result<u64, Fault>
    requires word { IsBehindWord reader.old gone word }
    requires some { 0 < width }
    requires fit { gone + width ≤ 64 }
    requires within { reader.old.pos ≤ length reader.old.list }
    ensures taken { Takes (binary_at width) reader.old (as_taken result) reader.new }
    ensures bound { IfOk result (λ v. v < 2 ^ width) }
    ensures place { OnOk result (reader.new.pos ≡ reader.old.pos + width) }
{
    reader.read_from(word, gone, width)
}

/// Reads the next fundamental sequence, and returns its number.
pub(crate) fn read_sequence(reader: &mut BitReader) -> Result<u64, Fault>
    ensures { Takes fs_at reader.old (as_taken result) reader.new }
{
    reader.read_fs()
}

/// Fills `numbers` with the next numbers of `width` bits each.
#[inline(always)]
pub(crate) fn read_numbers(
    reader: &mut BitReader,
    width: u32,
    numbers: &mut [u32],
) -> Result<(), Fault>
    requires width { width ≤ 32 }
    requires within { reader.old.pos ≤ length reader.old.list }
    ensures put { PutsNumbers width reader.old numbers.old result reader.new numbers.new }
    ensures below { OnOk result (AreBelow (2 ^ width) numbers.new) }
{
    reader.read_numbers(width, numbers)
}

/// `read_numbers` for `N` numbers, out of line.
#[inline(never)]
fn read_known_numbers<const N: usize>(
    reader: &mut BitReader,
    width: u32,
    numbers: &mut [u32],
) -> Result<(), Fault>
    requires width { width ≤ 32 }
    requires within { reader.old.pos ≤ length reader.old.list }
    requires count { length numbers.old ≡ N }
    ensures { PutsNumbers width reader.old numbers.old result reader.new numbers.new }
{
    read_numbers(reader, width, &mut numbers[..N])
}

/// `read_numbers`, with code of its own for each usual count of numbers.
#[inline(always)]
pub(crate) fn read_block_numbers(
    reader: &mut BitReader,
    width: u32,
    numbers: &mut [u32],
) -> Result<(), Fault>
    requires width { width ≤ 32 }
    requires within { reader.old.pos ≤ length reader.old.list }
    ensures { PutsNumbers width reader.old numbers.old result reader.new numbers.new }
{
    // For speed alone: the counts of the standard's block sizes, with a reference and without.
    match numbers.len() {
        7 => read_known_numbers::<7>(reader, width, numbers),
        8 => read_known_numbers::<8>(reader, width, numbers),
        15 => read_known_numbers::<15>(reader, width, numbers),
        16 => read_known_numbers::<16>(reader, width, numbers),
        31 => read_known_numbers::<31>(reader, width, numbers),
        32 => read_known_numbers::<32>(reader, width, numbers),
        63 => read_known_numbers::<63>(reader, width, numbers),
        64 => read_known_numbers::<64>(reader, width, numbers),
        _ => read_numbers(reader, width, numbers),
    }
}

/// `read_numbers`, inlined for `N` numbers, the usual count here; else `read_block_numbers`. Each
/// caller passes a `COPY` of its own, as `copies` says.
#[inline(always)]
pub(crate) fn read_usual_numbers<const N: usize, const COPY: usize>(
    reader: &mut BitReader,
    width: u32,
    numbers: &mut [u32],
) -> Result<(), Fault>
    requires width { width ≤ 32 }
    requires within { reader.old.pos ≤ length reader.old.list }
    ensures { PutsNumbers width reader.old numbers.old result reader.new numbers.new }
{
    if numbers.len() == N {
        return read_numbers(reader, width, &mut numbers[..N]);
    }
    read_block_numbers(reader, width, numbers)
}

/// Returns the two members of the pair with a number. The number of steps is the members' sum,
/// which is less than the bits of the number's fundamental sequence.
pub(crate) fn pair_of(number: u64) -> (u64, u64)
    ensures first { result.0 ≡ (pair_with_number number).first }
    ensures second { result.1 ≡ (pair_with_number number).second }
{
    let mut sum = 0;
    let mut second = number;
    while second > sum {
        sum += 1;
        second -= sum;
    }
    (sum - second, second)
}
