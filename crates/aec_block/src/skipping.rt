//! Skips one coded data set.

mod skipped_values;

ghost use Rattle.std.specs.Prelude.{◌≡◌, ◌≤◌, true, false, Some, length, option_map, IfOk, IfErr, OnErr};
ghost use Rattle.std.specs.Option.{is_some};
ghost use Rattle.aec_params.specs.Params.{IsAllowed};
ghost use Rattle.aec_params.specs.Blocks.{Block as Values};
ghost use Rattle.aec_params.specs.CodedDataSets.{CodedDataSet};
ghost use Rattle.aec_params.specs.Faults.{IsNotRead};
ghost use Rattle.aec_bits.specs.BitReader.{has_one};
ghost use Rattle.aec_block.specs.declared.cds.RunLen.TheVariants.{Blocks};
ghost use Rattle.aec_block.specs.ReadAt.{taken, map_taken, body_at, cds_at};
ghost use Rattle.aec_block.specs.Gathering.{bits_at, as_taken, when, Takes};
ghost use Rattle.aec_block.specs.ReadCds.{as_cds, as_read, HasShortSplit};
ghost use Rattle.aec_block.specs.SkipCds.{read_len, judged_len, judged_body_len, IsSkippedAs};

use crate::block::Block;
use crate::cds::{Found, RunLen};
use crate::reading::{Kind, read_body, read_kind, read_reference};
use crate::skipping::skipped_values::{skip_split, skip_uncompressed};
use aec_bits::BitReader;
use aec_params::{Fault, Params};

/// Returns how many blocks a coded data set that was read decodes to, if its values fit.
fn len_read(found: Option<Found>) -> Option<RunLen>
    ensures { (values : Values) → result ≡ option_map read_len (as_read found values) }
{
    found.map(|found| found.stands_for())
}

/// Returns one block, if its values fit.
fn one_block(fit: bool) -> Option<RunLen>
    ensures { result ≡ when fit (Blocks 1) }
{
    if fit { Some(RunLen::Blocks(1)) } else { None }
}

/// Moves past what follows the identifier and the reference sample. Returns how many blocks these
/// bits decode to; `None` if a value is above the greatest that the width has. Pairs, and values
/// that are split at a bit above the width, are read into the block `values`.
fn skip_body(
    params: &Params,
    reader: &mut BitReader,
    kind: Kind,
    reference: Option<u32>,
    values: &mut Block,
) -> Result<Option<RunLen>, Fault>
    requires within { reader.old.pos ≤ length reader.old.list }
    requires short { HasShortSplit kind }
    ensures { Takes (λ bits. map_taken (judged_body_len params.now reference)
        (body_at params.now (is_some reference) kind bits))
        reader.old (as_taken result) reader.new }
{
    let is_ref = reference.is_some();
    match kind {
        Kind::NoCompression => {
            skip_uncompressed(params, reader, is_ref)?;
            Ok(Some(RunLen::Blocks(1)))
        }
        Kind::Split(k) if k <= params.bits() => Ok(one_block(skip_split(
            params, reader, is_ref, k,
        )?)),
        _ => Ok(len_read(read_body(params, reader, kind, reference, values)?)),
    }
}

/// Moves past one coded data set. Returns how many blocks it decodes to; `None` if a value is above
/// the greatest that the width has.
fn skip_set(
    params: &Params,
    reader: &mut BitReader,
    is_ref: bool,
    values: &mut Block,
) -> Result<Option<RunLen>, Fault>
    requires within { reader.old.pos ≤ length reader.old.list }
    ensures taken { Takes
        (λ bits. map_taken (judged_len params.now) (cds_at params.now is_ref bits))
        reader.old (as_taken result) reader.new }
    ensures allowed { IsAllowed params.now }
{
    let kind = read_kind(params, reader)?;
    let reference = read_reference(params, reader, is_ref)?;
    skip_body(params, reader, kind, reference, values)
}

/// Moves past the one coded data set that begins at the reader's place. It may be read into the
/// block `values`, whose contents are then unspecified. Returns how many blocks the coded data set
/// decodes to: one, those of its run, or all that the segment has left. Fails as `read_into` does;
/// the reader then hasn't moved. Never fails with `Memory`.
pub fn skip_cds(
    params: &Params,
    reader: &mut BitReader,
    is_ref: bool,
    values: &mut Block,
) -> Result<RunLen, Fault>
    ensures ok { IfOk result
        (λ len. (c : CodedDataSet) × IsSkippedAs params.now is_ref reader.old reader.new c len) }
    ensures refuses { IfErr result (IsNotRead params.now is_ref reader.old.list reader.old.pos) }
    ensures err { OnErr result (reader.new ≡ reader.old) }
{
    let start = reader.pos();
    let fault = match skip_set(params, reader, is_ref, values) {
        Ok(Some(len)) => return Ok(len),
        Ok(None) => Fault::ValueTooLarge { bit: start },
        Err(_) => Fault::Truncated { bit: start },
    };
    reader.seek(start);
    Err(fault)
}

/// Moves past one coded data set by sample splitting, at a bit up to the width, or without
/// compression. Returns false or a fault if no such set comes next, or if a value of it is above
/// the greatest that the width has.
#[inline(always)]
fn skip_plain(params: &Params, reader: &mut BitReader, is_ref: bool) -> Result<bool, Fault>
    requires within { reader.old.pos ≤ length reader.old.list }
    ensures taken { IfOk result (λ plain. plain ≡ true
        → map_taken (judged_len params.now) (cds_at params.now is_ref (bits_at reader.old))
        ≡ taken (Some (Blocks 1)) (bits_at reader.new)) }
    ensures one { IfOk result (λ plain. plain ≡ true → has_one (bits_at reader.old) ≡ true) }
    ensures allowed { IsAllowed params.now }
    ensures list { reader.new.list ≡ reader.old.list }
    ensures within { reader.new.pos ≤ length reader.new.list }
{
    params.known_allowed();
    let kind = read_kind(params, reader)?;
    let reference = read_reference(params, reader, is_ref)?;
    match kind {
        Kind::NoCompression => {
            skip_uncompressed(params, reader, is_ref)?;
            Ok(true)
        }
        Kind::Split(k) if k <= params.bits() => skip_split(params, reader, is_ref, k),
        _ => Ok(false),
    }
}

/// Moves past one coded data set by sample splitting or without compression, of a block with a
/// reference sample or of another. Returns false if no such set begins at the reader's place, or if
/// a value of it is above the greatest that the width has; the reader then hasn't moved. No clause
/// says when it returns true: `skip_cds` skips what it leaves. Allocates nothing.
#[inline(always)]
pub fn skip_single(params: &Params, reader: &mut BitReader, is_ref: bool) -> bool
    ensures skipped { result ≡ true → (c : CodedDataSet)
        × IsSkippedAs params.now is_ref reader.old reader.new c (Blocks 1) }
    ensures one { result ≡ true → has_one (bits_at reader.old) ≡ true }
    ensures stays { result ≡ false → reader.new ≡ reader.old }
    ensures list { reader.new.list ≡ reader.old.list }
{
    let start = reader.pos();
    match skip_plain(params, reader, is_ref) {
        Ok(true) => true,
        _ => {
            reader.seek(start);
            false
        }
    }
}
