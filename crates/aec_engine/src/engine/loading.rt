//! Loads the samples of coded bits into a workspace by whole intervals. Meanwhile it applies the
//! leading overwrites of a script to samples already loaded, while little of the stream follows
//! them.

ghost use Rattle.std.specs.Prelude.{◌≡◌, ◌≢◌, ◌+◌, ◌<◌, ◌≤◌, ◌/◌, ◌%◌, ◌-◌, ◌^◌, ◌⊎◌, ◌++◌, min, max, length, true, false, [], IfOk, IfErr, OnOk};
ghost use Rattle.std.specs.Int.{div_ceil};
ghost use Rattle.aec_params.specs.declared.fault.Fault.TheVariants.{Memory};
ghost use Rattle.aec_params.specs.Params.{IsAllowed, interval_len};
ghost use Rattle.aec_params.specs.Limits.{most_blocks, most_samples};
ghost use Rattle.aec_edit.specs.Early.{IsInside};
ghost use Rattle.aec_edit.specs.Unchanged.{KeepsRules};
ghost use Rattle.aec_interval.specs.Reached.{RefusesDecoding};
ghost use Rattle.aec_engine.specs.declared.scripts.EditFault.TheVariants.{Plain};
ghost use Rattle.aec_interval.specs.Pieces.{is_wanted_at};
ghost use Rattle.aec_engine.specs.ReadingTwice.{ReadsOn, LacksMemoryAlone};
ghost use Rattle.aec_engine.specs.Judging.{HasRoomOfRead, IsJudgedReader, IsUnread};
ghost use Rattle.aec_engine.specs.EditsAhead.{AreAhead, left_in, StopsAt};
ghost use Rattle.aec_engine.specs.EarlyEdits.{CarriesEarly, IsEmptyFor, IsEmptyOver, LoadsAll, StopsEarly, StopsLoading};

use crate::engine::two_readings::{Judged, SAMPLES_AT_ONCE, judge_all};
use crate::script_edits::EditsAhead;
use crate::scripts::EditFault;
use aec_bits::{BitBuf, Codec};
use aec_edit::Workspace;
use aec_interval::StreamReader;
use aec_params::{Edit, Fault, Limits, Params};
use std::alloc::Global;

/// Replaces `samples` by those of the next interval, and appends those of more intervals while they
/// are at most `SAMPLES_AT_ONCE` in all. Returns false if no samples are left. Each interval after
/// the first is read into `spare` first.
///
/// Fails only with `Memory` if the bits have been judged.
fn next_intervals(
    params: &Params,
    reader: &mut StreamReader,
    spare: &mut Vec<i64>,
    samples: &mut Vec<i64>,
) -> Result<bool, Fault>
    requires { reader.old.settings ≡ params.now }
    ensures more { IfOk result (λ more. more ≡ is_wanted_at reader.old) }
    ensures read { IfOk result
        (λ more. more ≡ true → ReadsOn reader.old samples.new.items reader.new) }
    ensures done { IfOk result (λ more. more ≡ false → reader.new ≡ reader.old) }
    ensures refuses { IfErr result (λ fault. LacksMemoryAlone reader.old fault) }
    ensures few { OnOk result (reader.new.block < most_blocks) }
    ensures at_once { OnOk result
        (length samples.new.items ≤ max 2048 (interval_len params.now)) }
    ensures ends { OnOk result (is_wanted_at reader.new ≡ true
        → reader.new.block % reader.new.settings.interval ≡ 0) }
{
    let last = SAMPLES_AT_ONCE.saturating_sub(params.interval_len() as usize);
    if !reader.next(samples)? {
        return Ok(false);
    }
    while samples.len() <= last && reader.next(spare)? {
        append_behind(samples, spare)?;
    }
    Ok(true)
}

/// Appends samples to others. Fails with `Memory` if an allocation fails.
fn append_behind(samples: &mut Vec<i64>, more: &[i64]) -> Result<(), Fault>
    ensures ok { OnOk result (samples.new.items ≡ samples.old.items ++ more.now) }
    ensures fault { IfErr result (λ e. e ≡ Memory) }
{
    samples.extend_from_slice(more)?;
    Ok(())
}

/// Once the coder has been called this many times, no edit is applied before all samples are
/// loaded. The number is far below `u64::MAX`, so that each edit applied before has enough calls
/// left.
const MAX_EARLY_CALLS: u64 = 1 << 62;

/// Returns whether an edit only overwrites places among the first `count`.
fn is_inside(edit: &Edit, count: u64) -> bool
    ensures inside { result ≡ true → IsInside count edit.now }
    ensures outside { result ≡ false → IsInside count edit.now → ⊥ }
{
    match edit {
        Edit::Overwrite { first, values } => {
            let len = values.as_slice().len() as u64;
            len <= count && *first <= count - len
        }
        _ => false,
    }
}

/// Applies the edits of a script that overwrite samples already loaded, up to the first other edit,
/// and leaves the others ahead. Applies none if edits aren't applied early.
///
/// These edits have the same result, whatever samples are loaded after them. If an edit is refused,
/// the fault names its line. Fails with plain `Memory` if the allocation for the values of the next
/// edit fails. Applies no edit once the coder was called `2^62` times.
fn carry_early<C: Codec>(
    alloc: Global,
    workspace: &mut Workspace<C>,
    ahead: &mut EditsAhead,
) -> Result<(), EditFault>
    requires ahead { AreAhead ahead.old }
    requires bound { workspace.old.limit ≤ most_samples }
    ensures ok { IfOk result (λ _. CarriesEarly (C.format workspace.old.codec) workspace.old.limit
        (left_in ahead.old) workspace.old.samples (C.called workspace.old.codec)
        (left_in ahead.new) workspace.new.samples (C.called workspace.new.codec)) }
    ensures stops { IfOk result (λ _. ahead.old.is_early ≡ true
        → StopsAt ahead.new (length workspace.new.samples) (C.called workspace.new.codec)) }
    ensures none { ahead.old.is_early ≡ false → workspace.new.samples ≡ workspace.old.samples }
    ensures ahead { IfOk result (λ _. AreAhead ahead.new) }
    ensures refuses { IfErr result (λ fault. (fault ≡ Plain Memory)
        ⊎ StopsEarly (C.format workspace.old.codec) workspace.old.limit (left_in ahead.old)
        workspace.old.samples fault) }
    ensures rules { KeepsRules C.format workspace.old workspace.new }
{
    if !ahead.is_early {
        return Ok(());
    }
    while let Some(next) = &ahead.next {
        if workspace.calls() >= MAX_EARLY_CALLS || !is_inside(&next.edit, workspace.count()) {
            return Ok(());
        }
        if let Err(fault) = workspace.apply(&next.edit) {
            return Err(EditFault::Line {
                line: next.line,
                fault,
            });
        }
        ahead.advance(alloc)?;
    }
    Ok(())
}

/// Appends the samples of coded bits to an empty workspace over a codec that has coded nothing, and
/// meanwhile applies edits of a script, if they are to be applied early. The edits that are left
/// are then ahead.
///
/// No clause of this call relies on `room`. It makes each caller prove that it has reserved the
/// room before the first append.
pub(crate) fn append_all<C: Codec>(
    alloc: Global,
    params: &Params,
    reader: &mut StreamReader,
    samples: &mut Vec<i64>,
    workspace: &mut Workspace<C>,
    ahead: &mut EditsAhead,
) -> Result<(), EditFault>
    requires unread { IsUnread reader.old params.now }
    requires empty { IsEmptyFor reader.old (C.format workspace.old.codec) workspace.old.limit
        workspace.old.samples (C.called workspace.old.codec) }
    requires ahead { AreAhead ahead.old }
    requires room { HasRoomOfRead reader.old workspace.old.room.bits workspace.old.room.intervals }
    ensures ok { IfOk result (λ _. LoadsAll (C.format workspace.old.codec) workspace.old.limit
        (left_in ahead.old) reader.old (left_in ahead.new) workspace.new.samples
        (C.called workspace.new.codec)) }
    ensures ahead { IfOk result (λ _. AreAhead ahead.new) }
    ensures refuses { IfErr result
        (λ fault. StopsLoading (C.format workspace.old.codec) workspace.old.limit
        (left_in ahead.old) reader.old fault) }
    ensures rules { KeepsRules C.format workspace.old workspace.new }
{
    let mut spare = Vec::new(alloc);
    while next_intervals(params, reader, &mut spare, samples)? {
        workspace.append(samples)?;
        carry_early(alloc, workspace, ahead)?;
    }
    Ok(())
}

/// Judges all bits, and returns a reader at the first bit, whose samples can be read, with the
/// result of judging. Allocates nothing. Fails as `decode_all` does, but never with `Memory`.
pub(crate) fn judged_reader<'a>(
    alloc: Global,
    params: &Params,
    limits: Limits,
    count: Option<u64>,
    bits: &'a BitBuf,
) -> Result<(StreamReader<'a>, Judged), Fault>
    ensures ok { IfOk result (λ read. IsJudgedReader params.now limits count bits.now.list read.0
        read.1.bits read.1.total) }
    ensures refuses { IfErr result
        (λ fault. RefusesDecoding params.now count limits.samples bits.now.list fault) }
    ensures fault { IfErr result (λ fault. fault ≢ Memory) }
{
    let mut reader = StreamReader::new(alloc, *params, bits, count, limits.samples())?;
    let judged = judge_all(params, &mut reader)?;
    Ok((reader, judged))
}

/// A number of bits and a number of intervals for which a workspace is to have room.
#[derive(Clone, Copy)]
pub(crate) struct Room {
    bits: u64,
    intervals: u64,
}

impl Room {
    /// Returns the room that an edit asks for: for the bits that the samples were read from and a
    /// sixteenth more, but for at most 2^64 - 1 bits, and for the starts of their intervals.
    pub(crate) fn of(params: &Params, judged: Judged) -> Room
        ensures bits { result.bits ≡ min (judged.bits + judged.bits / 16) (2 ^ 64 - 1) }
        ensures enough { judged.bits ≤ result.bits }
        ensures allowed { IsAllowed params.now }
        ensures intervals { result.intervals ≡ div_ceil judged.total (interval_len params.now) }
    {
        Room {
            bits: judged.bits.saturating_add(judged.bits / 16),
            intervals: judged.total.div_ceil(params.interval_len()),
        }
    }
}

/// Returns an empty workspace with at least this room. Fails with `Memory` if an allocation fails
/// or there would be more than 2^62 bits, but not if `room` is for 0 bits and 0 intervals.
pub(crate) fn roomy_workspace<C: Codec + Drop>(
    alloc: Global,
    codec: C,
    limits: Limits,
    room: Room,
) -> Result<Workspace<C>, Fault>
    ensures empty { IfOk result (λ w. IsEmptyOver codec limits.samples w) }
    ensures room { IfOk result (λ w.
        (room.bits ≤ w.room.bits) × (room.intervals ≤ w.room.intervals)) }
    ensures fault { IfErr result (λ e. (e ≡ Memory) × (0 < room.bits + room.intervals)) }
{
    let mut workspace = Workspace::new(alloc, codec, limits.samples());
    workspace.reserve(room.bits, room.intervals)?;
    Ok(workspace)
}
