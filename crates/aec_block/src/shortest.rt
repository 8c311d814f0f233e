//! Writes the shortest coded data set of a block, with code compiled for a known number of values.

ghost use Rattle.std.specs.Prelude.{Some, None};
ghost use Rattle.aec_block.specs.BlockShape.{block_with};
ghost use Rattle.aec_block.specs.Choices.{IsWhole};
ghost use Rattle.aec_block.specs.Written.{shortest_bits, Appends};

use crate::block::BlockRef;
use crate::choice::choose_among;
use crate::copies::{WRITE_WITH_REFERENCE, WRITE_WITHOUT_REFERENCE};
use crate::writing::write_values;
use aec_bits::BitBuf;
use aec_params::{Fault, Params};

/// Appends the shortest coded data set of a block of `N` values without a reference. Blocks with a
/// reference have a function of their own: in a single function the compiler joins code of both
/// kinds, and blocks of 8 values take up to 5 % more instructions.
#[inline(always)]
fn write_without_reference<const N: usize>(
    params: &Params,
    values: &[u32],
    out: &mut BitBuf,
) -> Result<(), Fault>
    requires { IsWhole params.now N (block_with None values.now) }
    ensures { Appends (shortest_bits params.now (block_with None values.now))
        out.old result out.new }
{
    let id_len = params.id_len();
    let values = &values[..N];
    let block = BlockRef::new(None, values);
    let choice = choose_among(params, id_len, &block, values);
    write_values::<N, WRITE_WITHOUT_REFERENCE>(params, id_len, &block, values, choice, out)
}

/// `write_without_reference` for a block of `N` values with a reference.
#[inline(always)]
fn write_with_reference<const N: usize>(
    params: &Params,
    pattern: u32,
    values: &[u32],
    out: &mut BitBuf,
) -> Result<(), Fault>
    requires { IsWhole params.now N (block_with (Some pattern) values.now) }
    ensures { Appends (shortest_bits params.now (block_with (Some pattern) values.now))
        out.old result out.new }
{
    let id_len = params.id_len();
    let all = &values[..N];
    let after = &all[1..N];
    let block = BlockRef::new(Some(pattern), all);
    let choice = choose_among(params, id_len, &block, after);
    write_values::<N, WRITE_WITH_REFERENCE>(params, id_len, &block, after, choice, out)
}

/// Appends the shortest coded data set of a block of `N` values, of which the first is 0 if there
/// is a reference. Compiled for `N`; appends the same bits as `write_block` by the option that
/// `choose` returns. Fails with `Memory` if an allocation fails, never if there is room for the
/// coded data set; nothing is then changed.
#[inline(always)]
pub fn write_shortest_of<const N: usize>(
    params: &Params,
    reference: Option<u32>,
    values: &[u32],
    out: &mut BitBuf,
) -> Result<(), Fault>
    requires { IsWhole params.now N (block_with reference values.now) }
    ensures { Appends (shortest_bits params.now (block_with reference values.now))
        out.old result out.new }
{
    match reference {
        None => write_without_reference::<N>(params, values, out),
        Some(r) => write_with_reference::<N>(params, r, values, out),
    }
}
