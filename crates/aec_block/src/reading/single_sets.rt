//! Reads single coded data sets into a list. A single coded data set codes one block and is no run
//! of zero blocks, not even of one. Nearly all coded data sets are single.

ghost use Rattle.std.specs.Prelude.{◌≡◌, ◌+◌, ◌≤◌, ◌<◌, ◌^◌, ℕ, true, false, length, Some, None, IfSome, IfOk, OnOk, OnErr};
ghost use Rattle.std.specs.Option.{is_some};
ghost use Rattle.std.specs.List.{AllByRecursion};
ghost use Rattle.aec_params.specs.CodedDataSets.{CodedDataSet, has_small_values};
ghost use Rattle.aec_params.specs.Faults.{IsSetAt};
ghost use Rattle.aec_params.specs.Params.{IsAllowed, id_len};
ghost use Rattle.aec_bits.specs.BitReader.{has_one};
ghost use Rattle.aec_block.specs.declared.cds.Cds.TheVariants.{Single};
ghost use Rattle.aec_block.specs.BlockShape.{block_with};
ghost use Rattle.aec_block.specs.declared.reading.Kind.TheVariants.{Split};
ghost use Rattle.aec_block.specs.ReadAt.{taken, map_taken, binary_at, cds_at};
ghost use Rattle.aec_block.specs.Gathering.{bits_at, as_taken, kept_members, IsSeen, Takes};
ghost use Rattle.aec_block.specs.ReadCds.{checked, is_run_body, begins_single, HasNoSingle, IsReadSingle};

use crate::copies::FILL_FIRST;
use crate::reading::codewords::{read_number_from, read_usual_numbers};
use crate::reading::pairs::{clear_reference_place, read_usual_pairs};
use crate::reading::values::read_usual_split;
use crate::reading::{Kind, Seen, UNSEEN, read_kind, read_kind_from, read_pattern};
use aec_bits::BitReader;
use aec_params::{Fault, Params};

/// Returns whether the next bits are the identifier of a single coded data set: by sample
/// splitting, no compression or the second extension. The reader doesn't move.
#[inline(always)]
pub fn is_single_next(params: &Params, reader: &mut BitReader) -> bool
    ensures value { result ≡ begins_single params.now (bits_at reader.old) }
    ensures stays { reader.new ≡ reader.old }
{
    let start = reader.pos();
    let kind = read_kind(params, reader);
    reader.seek(start);
    matches!(
        kind,
        Ok(Kind::NoCompression | Kind::Split(_) | Kind::SecondExtension)
    )
}

/// Returns a word whose first `gone` bits were read, or none if blocks have so many values (`N`)
/// that their high parts are seldom in one word.
#[inline(always)]
fn seen_in<const N: usize>(word: u64, gone: u32) -> Seen
    ensures { 0 < result.gone → (result.word ≡ word) × (result.gone ≡ gone) }
{
    if N <= 16 {
        return Seen { word, gone };
    }
    UNSEEN
}

/// Reads a single coded data set without a reference sample into `values`, and moves past it.
/// Returns false if none begins at the reader's place, or if a value of it is above the greatest
/// that the width has; the reader then hasn't moved, and the contents of `values` are unspecified.
/// Allocates nothing. Inlined for blocks of `N` values; other blocks are read too. Each
/// caller passes a `COPY` of its own, as `copies` says.
#[inline(always)]
#[tactic(auto, using(crate::proofs::NoSingleLemmas::none_stands))]
pub fn read_single<const N: usize, const COPY: usize>(
    params: &Params,
    reader: &mut BitReader,
    values: &mut [u32],
) -> bool
    requires { length values.old ≡ params.now.block_size }
    ensures read { result ≡ true
        → IsReadSingle params.now reader.old reader.new None values.new }
    ensures below { result ≡ true
        → AllByRecursion (λ v. v < 2 ^ params.now.bits) values.new }
    ensures refuses { result ≡ false → (c : CodedDataSet)
        → IsSetAt params.now false reader.old.list reader.old.pos c
        → is_run_body c.body ≡ false → has_small_values params.now c ≡ false }
    ensures seen { result ≡ true → begins_single params.now (bits_at reader.old) ≡ true }
    ensures one { result ≡ true → has_one (bits_at reader.old) ≡ true }
    ensures stays { result ≡ false → reader.new ≡ reader.old }
    ensures len { length values.new ≡ length values.old }
    ensures list { reader.new.list ≡ reader.old.list }
{
    params.known_allowed();
    let start = reader.pos();
    let word = reader.next_word();
    let read = match read_kind_from(params, reader, word) {
        Ok(Kind::NoCompression) => {
            read_usual_numbers::<N, COPY>(reader, params.bits(), values).is_ok()
        }
        Ok(Kind::Split(k)) => {
            let seen = seen_in::<N>(word, params.id_len());
            read_usual_split::<N, COPY>(params, reader, seen, k, values).unwrap_or(false)
        }
        Ok(Kind::SecondExtension) => {
            read_usual_pairs::<N>(params, reader, false, values).unwrap_or(false)
        }
        _ => false,
    };
    if !read {
        reader.seek(start);
        return false;
    }
    true
}

/// Reads the reference sample's pattern, after an identifier of this kind that begins the word
/// `word`.
#[inline(always)]
fn read_pattern_behind(
    params: &Params,
    reader: &mut BitReader,
    kind: Kind,
    word: u64,
) -> Result<u32, Fault>
    requires within { reader.old.pos ≤ length reader.old.list }
    requires word { (k : ℕ) → kind ≡ Split k → IsSeen reader.old (id_len params.now) word }
    ensures taken { Takes (binary_at params.now.bits) reader.old (as_taken result) reader.new }
    ensures below { IfOk result (λ pattern. pattern < 2 ^ params.now.bits) }
    ensures place { OnOk result (reader.new.pos ≡ reader.old.pos + params.now.bits) }
{
    let Kind::Split(_) = kind else {
        return read_pattern(params, reader);
    };
    let pattern = read_number_from(reader, word, params.id_len(), params.bits())?;
    Ok(pattern as u32)
}

/// Reads a single coded data set with a reference sample into `values`, where the caller has
/// written 0 to the reference place. Returns the pattern of the reference sample; `None` or a fault
/// if no such set comes next, or if a value of it is above the greatest that the width has.
#[inline(always)]
fn fill_first<const N: usize, const M: usize>(
    params: &Params,
    reader: &mut BitReader,
    values: &mut [u32],
) -> Result<Option<u32>, Fault>
    requires within { reader.old.pos ≤ length reader.old.list }
    requires count { length values.old ≡ params.now.block_size }
    requires placed { values.old ≡ kept_members true values.old }
    ensures taken { IfOk result (λ found. IfSome found (λ pattern.
        map_taken (checked params.now) (cds_at params.now true (bits_at reader.old))
        ≡ taken (Some (Single (block_with (Some pattern) values.new))) (bits_at reader.new))) }
    ensures none { IfOk result (λ found. is_some found ≡ false
        → HasNoSingle params.now true (bits_at reader.old)) }
    ensures cut { OnErr result (HasNoSingle params.now true (bits_at reader.old)) }
    ensures one { IfOk result
        (λ found. is_some found ≡ true → has_one (bits_at reader.old) ≡ true) }
    ensures seen { IfOk result (λ found. is_some found ≡ true
        → begins_single params.now (bits_at reader.old) ≡ true) }
    ensures below { IfOk result (λ found. IfSome found (λ pattern. pattern < 2 ^ params.now.bits)) }
    ensures allowed { IsAllowed params.now }
    ensures len { length values.new ≡ length values.old }
    ensures list { reader.new.list ≡ reader.old.list }
    ensures within { reader.new.pos ≤ length reader.new.list }
{
    params.known_allowed();
    let word = reader.next_word();
    let kind = read_kind_from(params, reader, word)?;
    let pattern = read_pattern_behind(params, reader, kind, word)?;
    match kind {
        Kind::NoCompression => {
            read_usual_numbers::<M, FILL_FIRST>(reader, params.bits(), &mut values[1..])?;
            Ok(Some(pattern))
        }
        Kind::Split(k) => {
            let seen = seen_in::<N>(word, params.id_len() + params.bits());
            if !read_usual_split::<M, FILL_FIRST>(params, reader, seen, k, &mut values[1..])? {
                return Ok(None);
            }
            Ok(Some(pattern))
        }
        Kind::SecondExtension => {
            if !read_usual_pairs::<N>(params, reader, true, values)? {
                return Ok(None);
            }
            Ok(Some(pattern))
        }
        Kind::ZeroBlocks => Ok(None),
    }
}

/// Reads a single coded data set with a reference sample into `values`, with 0 in the reference
/// place, and moves past it. Returns the pattern of the reference sample. Returns `None`
/// if no such set begins at the reader's place, or if a value of it is above the greatest that the
/// width has; the reader then hasn't moved, and the contents of `values` are unspecified. Allocates
/// nothing. Inlined for blocks of `N` values of which `M` are written; other blocks are read too.
#[inline(always)]
pub fn read_single_first<const N: usize, const M: usize>(
    params: &Params,
    reader: &mut BitReader,
    values: &mut [u32],
) -> Option<u32>
    requires { length values.old ≡ params.now.block_size }
    ensures read { IfSome result (λ pattern.
        IsReadSingle params.now reader.old reader.new (Some pattern) values.new) }
    ensures below { IfSome result (λ pattern.
        AllByRecursion (λ v. v < 2 ^ params.now.bits) values.new) }
    ensures pattern { IfSome result (λ pattern. pattern < 2 ^ params.now.bits) }
    ensures refuses { is_some result ≡ false → (c : CodedDataSet)
        → IsSetAt params.now true reader.old.list reader.old.pos c
        → is_run_body c.body ≡ false → has_small_values params.now c ≡ false }
    ensures seen { is_some result ≡ true
        → begins_single params.now (bits_at reader.old) ≡ true }
    ensures one { is_some result ≡ true → has_one (bits_at reader.old) ≡ true }
    ensures stays { is_some result ≡ false → reader.new ≡ reader.old }
    ensures len { length values.new ≡ length values.old }
    ensures list { reader.new.list ≡ reader.old.list }
{
    params.known_allowed();
    let start = reader.pos();
    clear_reference_place(true, values);
    match fill_first::<N, M>(params, reader, values) {
        Ok(Some(pattern)) => Some(pattern),
        Ok(None) => {
            reader.seek(start);
            None
        }
        Err(_) => {
            reader.seek(start);
            None
        }
    }
}
