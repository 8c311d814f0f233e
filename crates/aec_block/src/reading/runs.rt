//! Reads runs of zero blocks, and nothing else.

ghost use Rattle.std.specs.Prelude.{◌≡◌, ◌≤◌, true, false, length, Some, IfSome, IfOk, OnErr};
ghost use Rattle.std.specs.Option.{is_some};
ghost use Rattle.aec_params.specs.CodedDataSets.{CodedDataSet};
ghost use Rattle.aec_params.specs.Faults.{IsSetAt};
ghost use Rattle.aec_params.specs.Params.{IsAllowed, id_len};
ghost use Rattle.aec_bits.specs.BitReader.{has_one};
ghost use Rattle.aec_block.specs.declared.cds.Cds.TheVariants.{Zeros};
ghost use Rattle.aec_block.specs.declared.reading.Kind.TheVariants.{ZeroBlocks};
ghost use Rattle.aec_block.specs.ReadAt.{taken, map_taken, body_at, cds_at};
ghost use Rattle.aec_block.specs.Gathering.{bits_at, as_taken_by, Takes};
ghost use Rattle.aec_block.specs.ReadCds.{checked, checked_body, is_run_body, HasNoRun, IsReadAs};

use crate::cds::RunLen;
use crate::reading::codewords::read_sequence;
use crate::reading::{Kind, read_kind, read_reference, run_len_of};
use aec_bits::BitReader;
use aec_params::{Fault, Params};

/// Reads what follows the identifier of a run and its reference sample. Returns how many zero
/// blocks the run decodes to.
#[inline(always)]
fn take_run_len(
    params: &Params,
    reader: &mut BitReader,
    reference: Option<u32>,
) -> Result<RunLen, Fault>
    requires within { reader.old.pos ≤ length reader.old.list }
    ensures { Takes (λ bits. map_taken (checked_body params.now reference)
        (body_at params.now (is_some reference) ZeroBlocks bits)) reader.old
        (as_taken_by (λ len. Some (Zeros reference len)) result) reader.new }
{
    Ok(run_len_of(read_sequence(reader)?))
}

/// Reads the next coded data set, if it is a run. Returns its reference sample, if one is due, and
/// how many zero blocks it decodes to; else `None`, or a fault.
#[inline(always)]
fn take_run(
    params: &Params,
    reader: &mut BitReader,
    is_ref: bool,
) -> Result<Option<(Option<u32>, RunLen)>, Fault>
    requires within { reader.old.pos ≤ length reader.old.list }
    ensures taken { IfOk result (λ found. IfSome found (λ run.
        map_taken (checked params.now) (cds_at params.now is_ref (bits_at reader.old))
        ≡ taken (Some (Zeros run.0 run.1)) (bits_at reader.new))) }
    ensures none { IfOk result (λ found. is_some found ≡ false
        → HasNoRun params.now is_ref (bits_at reader.old)) }
    ensures cut { OnErr result (HasNoRun params.now is_ref (bits_at reader.old)) }
    ensures allowed { IsAllowed params.now }
    ensures list { reader.new.list ≡ reader.old.list }
    ensures within { reader.new.pos ≤ length reader.new.list }
{
    let kind = read_kind(params, reader)?;
    if kind != Kind::ZeroBlocks {
        return Ok(None);
    }
    let reference = read_reference(params, reader, is_ref)?;
    let len = take_run_len(params, reader, reference)?;
    Ok(Some((reference, len)))
}

/// Reads the coded data set that begins at the reader's place, of a block with a reference sample
/// or of another, and moves past it, if it is a run of zero blocks. Returns its reference sample,
/// if there is one, and how many blocks it decodes to. Else returns `None`, and the reader hasn't
/// moved. Allocates nothing.
#[inline(always)]
pub fn read_run(
    params: &Params,
    reader: &mut BitReader,
    is_ref: bool,
) -> Option<(Option<u32>, RunLen)>
    ensures read { IfSome result (λ run. (c : CodedDataSet)
        × IsReadAs params.now is_ref reader.old reader.new c (Zeros run.0 run.1)) }
    ensures refuses { is_some result ≡ false → (c : CodedDataSet)
        → IsSetAt params.now is_ref reader.old.list reader.old.pos c
        → is_run_body c.body ≡ false }
    ensures one { is_some result ≡ true → has_one (bits_at reader.old) ≡ true }
    ensures stays { is_some result ≡ false → reader.new ≡ reader.old }
    ensures list { reader.new.list ≡ reader.old.list }
{
    let start = reader.pos();
    match take_run(params, reader, is_ref) {
        Ok(Some(run)) => Some(run),
        Ok(None) => {
            reader.seek(start);
            None
        }
        Err(_) => {
            reader.seek(start);
            None
        }
    }
}
