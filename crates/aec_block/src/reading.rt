//! Reads one coded data set.

pub(crate) mod blocks;
mod codewords;
pub(crate) mod pairs;
pub(crate) mod runs;
pub(crate) mod single_sets;
pub(crate) mod values;

ghost use Rattle.std.specs.Prelude.{◌≡◌, ◌+◌, ◌≤◌, ◌<◌, ◌^◌, ℕ, true, length, IfOk, IfErr, OnOk, OnErr};
ghost use Rattle.std.specs.Option.{is_some};
ghost use Rattle.aec_params.specs.Params.{IsAllowed, id_len};
ghost use Rattle.aec_params.specs.CodedDataSets.{CodedDataSet};
ghost use Rattle.aec_bits.specs.BitReader.{has_one, IsBehindWord};
ghost use Rattle.aec_block.specs.declared.cds.Found.TheVariants.{Single};
ghost use Rattle.aec_block.specs.declared.reading.Kind.TheVariants.{Split};
ghost use Rattle.aec_block.specs.ReadAt.{map_taken, binary_at, kind_at, reference_at, body_at, cds_at};
ghost use Rattle.aec_block.specs.Gathering.{bits_at, as_taken, as_taken_by, when, Takes};
ghost use Rattle.aec_block.specs.ReadCds.{run_len_of, checked, checked_body, as_cds, as_read, HasShortSplit, is_single, IsReadAs};
ghost use Rattle.aec_params.specs.Faults.{IsNotRead};

use crate::block::Block;
use crate::cds::{Cds, Found, RunLen};
use crate::reading::blocks::{fill_pairs, fill_split, fill_uncompressed};
use crate::reading::codewords::{read_number, read_number_from, read_sequence};
use aec_bits::BitReader;
use aec_params::{Fault, Params};
use std::alloc::Global;

/// What an identifier announces.
#[derive(Clone, Copy, Debug, PartialEq, Eq)]
pub(crate) enum Kind {
    /// A run of zero blocks.
    ZeroBlocks,
    /// One codeword for each pair of values.
    SecondExtension,
    /// The values without their k low bits, then those bits.
    Split(u32),
    /// The values as they are.
    NoCompression,
}

/// A word that was looked at, and how many of its bits were read since: none if `gone` is 0.
#[derive(Clone, Copy)]
pub(crate) struct Seen {
    pub(crate) word: u64,
    pub(crate) gone: u32,
}

/// No word.
pub(crate) const UNSEEN: Seen = Seen { word: 0, gone: 0 };

/// Reads the kind that the next bits identify; they begin the word `word`.
#[inline(always)]
pub(crate) fn read_kind_from(
    params: &Params,
    reader: &mut BitReader,
    word: u64,
) -> Result<Kind, Fault>
    requires within { reader.old.pos ≤ length reader.old.list }
    requires word { IsBehindWord reader.old 0 word }
    ensures taken { Takes (kind_at (id_len params.now)) reader.old (as_taken result) reader.new }
    ensures short { IfOk result HasShortSplit }
    ensures one { IfOk result
        (λ kind. is_single kind ≡ true → has_one (bits_at reader.old) ≡ true) }
    ensures place { IfOk result (λ kind. (k : ℕ) → kind ≡ Split k
        → reader.new.pos ≡ reader.old.pos + id_len params.now) }
    ensures allowed { IsAllowed params.now }
{
    let len = params.id_len();
    let number = read_number_from(reader, word, 0, len)?;
    if number > 0 {
        return Ok(if number == (1 << len) - 1 {
            Kind::NoCompression
        } else {
            Kind::Split(number as u32 - 1)
        });
    }
    let last = read_number(reader, 1)?;
    Ok(if last == 0 {
        Kind::ZeroBlocks
    } else {
        Kind::SecondExtension
    })
}

/// Reads the kind that the next bits identify.
#[inline(always)]
pub(crate) fn read_kind(params: &Params, reader: &mut BitReader) -> Result<Kind, Fault>
    requires within { reader.old.pos ≤ length reader.old.list }
    ensures taken { Takes (kind_at (id_len params.now)) reader.old (as_taken result) reader.new }
    ensures short { IfOk result HasShortSplit }
    ensures one { IfOk result
        (λ kind. is_single kind ≡ true → has_one (bits_at reader.old) ≡ true) }
    ensures allowed { IsAllowed params.now }
{
    let word = reader.next_word();
    read_kind_from(params, reader, word)
}

/// Reads the reference sample's pattern.
#[inline(always)]
pub(crate) fn read_pattern(params: &Params, reader: &mut BitReader) -> Result<u32, Fault>
    requires within { reader.old.pos ≤ length reader.old.list }
    ensures taken { Takes (binary_at params.now.bits) reader.old (as_taken result) reader.new }
    ensures below { IfOk result (λ pattern. pattern < 2 ^ params.now.bits) }
    ensures place { OnOk result (reader.new.pos ≡ reader.old.pos + params.now.bits) }
{
    let pattern = read_number(reader, params.bits())?;
    Ok(pattern as u32)
}

/// Reads the reference sample's pattern, if one is due.
#[inline(always)]
pub(crate) fn read_reference(
    params: &Params,
    reader: &mut BitReader,
    is_ref: bool,
) -> Result<Option<u32>, Fault>
    requires within { reader.old.pos ≤ length reader.old.list }
    ensures taken { Takes (reference_at params.now is_ref) reader.old (as_taken result) reader.new }
    ensures due { IfOk result (λ reference. is_some reference ≡ is_ref) }
{
    if !is_ref {
        return Ok(None);
    }
    let pattern = read_pattern(params, reader)?;
    Ok(Some(pattern))
}

/// Returns how many zero blocks the number of a run's code means; 4 is the remainder code.
fn run_len_of(number: u64) -> RunLen
    ensures { result ≡ run_len_of number }
{
    match number {
        0..=3 => RunLen::Blocks(number + 1),
        4 => RunLen::Rest,
        _ => RunLen::Blocks(number),
    }
}

/// Returns `Single` if the block's values fit.
fn single(fit: bool) -> Option<Found>
    ensures { result ≡ when fit Single }
{
    if fit { Some(Found::Single) } else { None }
}

/// Reads what follows the identifier and the reference sample into the block. Returns `None` if a
/// value is above the greatest that the width has.
#[inline(always)]
pub(crate) fn read_body(
    params: &Params,
    reader: &mut BitReader,
    kind: Kind,
    reference: Option<u32>,
    block: &mut Block,
) -> Result<Option<Found>, Fault>
    requires within { reader.old.pos ≤ length reader.old.list }
    requires short { HasShortSplit kind }
    ensures { Takes (λ bits. map_taken (checked_body params.now reference)
        (body_at params.now (is_some reference) kind bits)) reader.old
        (as_taken_by (λ found. as_read found block.new) result) reader.new }
{
    match kind {
        Kind::ZeroBlocks => {
            let len = run_len_of(read_sequence(reader)?);
            Ok(Some(Found::Zeros { reference, len }))
        }
        Kind::NoCompression => {
            fill_uncompressed(params, reader, reference, block)?;
            Ok(Some(Found::Single))
        }
        Kind::SecondExtension => Ok(single(fill_pairs(params, reader, reference, block)?)),
        Kind::Split(k) => Ok(single(fill_split(params, reader, reference, k, block)?)),
    }
}

/// Reads one coded data set into the block. Returns `None` if a value is above the greatest that
/// the width has.
#[inline(always)]
fn read_set(
    params: &Params,
    reader: &mut BitReader,
    is_ref: bool,
    block: &mut Block,
) -> Result<Option<Found>, Fault>
    requires within { reader.old.pos ≤ length reader.old.list }
    ensures taken { Takes (λ bits. map_taken (checked params.now) (cds_at params.now is_ref bits))
        reader.old (as_taken_by (λ found. as_read found block.new) result) reader.new }
    ensures allowed { IsAllowed params.now }
{
    let kind = read_kind(params, reader)?;
    let reference = read_reference(params, reader, is_ref)?;
    read_body(params, reader, kind, reference, block)
}

/// Reads the one coded data set that begins at the reader's place, of a block with a reference
/// sample or of another, and moves past it. If it decodes to one block, `block` then contains that
/// block, whatever it contained before. Fails with `Truncated` if none begins there, with
/// `ValueTooLarge` if a value of it is above the greatest of the width. Both faults name the
/// reader's place, and the reader hasn't moved. After a run or a refusal the contents of `block`
/// are unspecified. Never fails with `Memory`.
pub fn read_into(
    params: &Params,
    reader: &mut BitReader,
    is_ref: bool,
    block: &mut Block,
) -> Result<Found, Fault>
    ensures ok { IfOk result (λ found.
        (c : CodedDataSet)
        × IsReadAs params.now is_ref reader.old reader.new c (as_cds found block.new)) }
    ensures refuses { IfErr result (IsNotRead params.now is_ref reader.old.list reader.old.pos) }
    ensures err { OnErr result (reader.new ≡ reader.old) }
{
    let start = reader.pos();
    let fault = match read_set(params, reader, is_ref, block) {
        Ok(Some(found)) => return Ok(found),
        Ok(None) => Fault::ValueTooLarge { bit: start },
        Err(_) => Fault::Truncated { bit: start },
    };
    reader.seek(start);
    Err(fault)
}

/// Returns the coded data set that was read into a block.
fn cds_found(found: Found, block: Block) -> Cds
    ensures { result ≡ as_cds found block }
{
    match found {
        Found::Single => Cds::Single(block),
        Found::Zeros { reference, len } => Cds::Zeros { reference, len },
    }
}

// bare: it only calls `read_into`, which has edits, and wraps the result
/// Reads the one coded data set that begins at the reader's place, of a block with a reference
/// sample or of another, and moves past it. Fails with `Truncated` if none begins there, with
/// `ValueTooLarge` if a value of it is above the greatest of the width. Both faults name the
/// reader's place, and the reader hasn't moved. Never fails with `Memory`.
pub fn read_cds(
    alloc: Global,
    params: &Params,
    reader: &mut BitReader,
    is_ref: bool,
) -> Result<Cds, Fault>
    ensures ok { IfOk result
        (λ cds. (c : CodedDataSet) × IsReadAs params.now is_ref reader.old reader.new c cds) }
    ensures refuses { IfErr result (IsNotRead params.now is_ref reader.old.list reader.old.pos) }
    ensures err { OnErr result (reader.new ≡ reader.old) }
{
    let mut block = Block::new(alloc, None);
    let found = read_into(params, reader, is_ref, &mut block)?;
    Ok(cds_found(found, block))
}
