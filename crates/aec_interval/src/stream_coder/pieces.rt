//! Takes the samples of a piece, and codes intervals as soon as they are complete.

ghost use Rattle.std.specs.Prelude.{◌≡◌, ◌+◌, ◌*◌, ◌/◌, ◌<◌, ◌≤◌, Bool, List, [], true, false, max, length, take, unwrap_or, IfOk, IfErr, MatchResult};
ghost use Rattle.std.specs.Result.{result_err};
ghost use Rattle.aec_params.specs.Params.{IsAllowed, interval_len, storage_len};
ghost use Rattle.aec_params.specs.Stored.{byte_groups, samples_of_bytes};
ghost use Rattle.aec_interval.specs.Taking.{taken_groups};
ghost use Rattle.aec_interval.specs.Feeding.{StopsFeeding};
ghost use Rattle.aec_interval.specs.Progress.{IsProgress, IsProgressWithRest, IsPart, AnswersPiece, TakesPart, FeedsFront, IsFewOrWhole, refusal_at, coder_at};

use crate::interval::append_intervals;
use crate::stream_coder::held_samples::HeldSamples;
use crate::stream_coder::rest::Rest;
use aec_bits::BitBuf;
use aec_params::{Fault, Params, first_bad};
use std::mem;

/// The fewest samples that `samples_at_once` returns.
const MIN_SAMPLES_AT_ONCE: usize = 256;

/// The most samples that `samples_at_once` returns.
const MAX_SAMPLES_AT_ONCE: usize = 4096;

/// The terms for taking samples: how they are coded, and their greatest number.
#[derive(Debug, Drop)]
pub(crate) struct Terms {
    pub(crate) params: Params,
    pub(crate) limit: u64,
}

/// The samples of the incomplete interval, and the number of samples so far.
#[derive(Debug, Drop)]
pub(crate) struct Progress {
    pub(crate) held: HeldSamples,
    pub(crate) count: u64,
}

/// Returns whether the held samples are at least those of an interval.
fn are_complete(terms: &Terms, held: &HeldSamples) -> bool
    ensures whole { result ≡ true → interval_len terms.now.params ≤ length held.now }
    ensures few { result ≡ false → length held.now < interval_len terms.now.params }
    ensures allowed { IsAllowed terms.now.params }
{
    held.len() as u64 >= terms.params.interval_len()
}

/// Takes the bytes of some samples, then codes the held samples if they are whole intervals. Fails
/// with `Memory` if an allocation fails. Nothing is then appended, but the clause allows the code
/// of some of the intervals, from the first on.
fn take_part(
    terms: &Terms,
    progress: &mut Progress,
    part: &[u8],
    out: &mut BitBuf,
) -> Result<(), Fault>
    requires progress { IsProgress terms.now progress.old }
    requires part { IsPart terms.now progress.old part.now }
    ensures { TakesPart terms.now progress.old part.now out.old.list result progress.new
        out.new.list }
{
    progress.held.push_stored(&terms.params, part)?;
    progress.count += (part.len() / terms.params.storage()) as u64;
    if are_complete(terms, &progress.held) {
        let held = &progress.held;
        let coded = append_intervals(held.alloc(), &terms.params, held.as_slice(), out);
        progress.held.clear();
        return coded;
    }
    Ok(())
}

/// Returns how many samples in some bytes come before the first bad one, or how many there are if
/// none is bad.
fn good_samples(params: &Params, bytes: &[u8]) -> u64
    ensures { result ≡ unwrap_or (result_err (samples_of_bytes params.now bytes.now))
        (length bytes.now / storage_len params.now) }
{
    let samples = (bytes.len() / params.storage()) as u64;
    first_bad(params, bytes).unwrap_or(samples)
}

/// Returns how many of the samples in some bytes are taken before one is refused, if `count`
/// samples came before these bytes.
fn taken_samples(terms: &Terms, count: u64, bytes: &[u8]) -> usize
    requires { count ≤ terms.now.limit }
    ensures value { result ≡ length
        (taken_groups terms.now.params terms.now.limit count
        (byte_groups terms.now.params bytes.now)).samples }
    ensures within { count + result ≤ terms.now.limit }
{
    good_samples(&terms.params, bytes).min(terms.limit - count) as usize
}

/// Returns why the sample with index `count + taken` is refused: `TooManySamples` at the limit,
/// else `SampleRange`.
fn refusal(terms: &Terms, count: u64, taken: usize) -> Fault
    requires { count + taken ≤ terms.now.limit }
    ensures { result ≡ refusal_at terms.now.limit (count + taken) }
{
    let limit = terms.limit;
    let index = count + taken as u64;
    if index < limit {
        Fault::SampleRange { index }
    } else {
        Fault::TooManySamples { limit }
    }
}

/// Returns how many samples are taken at once unless an interval is longer: twice as many as there
/// are places for, but 256 to 4,096. New places are cleared before they are first filled, so a
/// short call makes few.
fn samples_at_once(places: usize) -> usize
    ensures some { 256 ≤ result }
    ensures few { result ≤ 4096 }
{
    places
        .saturating_mul(2)
        .clamp(MIN_SAMPLES_AT_ONCE, MAX_SAMPLES_AT_ONCE)
}

/// Returns how many of `samples` samples are taken next. If they fill at most the interval that is
/// begun or comes next, returns all of them. Else, if an interval is begun, returns how many it
/// lacks; if none is, returns the samples of whole intervals: at most `at_once`, but at least one
/// interval.
fn part_samples(interval: usize, held: usize, samples: usize, at_once: usize) -> usize
    requires few { held < interval }
    requires some { 0 < samples }
    ensures some { 0 < result }
    ensures there { result ≤ samples }
    ensures begun { 0 < held → held + result ≤ interval }
    ensures whole { IsFewOrWhole interval (held + result) }
    ensures at_once { held + result ≤ max interval at_once }
{
    if samples <= interval - held {
        return samples;
    }
    if held > 0 {
        return interval - held;
    }
    let most = samples.min(at_once.max(interval));
    most - most % interval
}

/// Returns how many of the given bytes are taken at once: those of at least one sample, and of at
/// most 4,096 samples or one longer interval. Fails with the refusal of a sample if the interval
/// that it belongs to is the next one to be coded.
fn part_len(terms: &Terms, progress: &Progress, bytes: &[u8]) -> Result<usize, Fault>
    requires progress { IsProgress terms.now progress.now }
    requires some { storage_len terms.now.params ≤ length bytes.now }
    ensures within { IfOk result (λ len. len ≤ length bytes.now) }
    ensures part { IfOk result (λ len. IsPart terms.now progress.now (take len bytes.now)) }
    ensures few { IfOk result (λ len. len
        ≤ max 4096 (interval_len terms.now.params) * storage_len terms.now.params) }
    ensures stops { IfErr result (λ fault. (before : List Bool)
        → StopsFeeding (coder_at terms.now progress.now []) bytes.now before before fault) }
{
    let width = terms.params.storage();
    let interval = terms.params.interval_len() as usize;
    let held = &progress.held;
    let at_once = samples_at_once(held.places());
    let samples = part_samples(interval, held.len(), bytes.len() / width, at_once);
    let taken = taken_samples(terms, progress.count, &bytes[..samples * width]);
    if taken == samples {
        return Ok(samples * width);
    }
    if taken < interval {
        return Err(refusal(terms, progress.count, taken));
    }
    Ok((taken - taken % interval) * width)
}

/// Completes the sample of which some bytes are there, with the front of a piece that is long
/// enough. Returns the bytes of the piece after that front.
fn complete_rest<'a>(
    terms: &Terms,
    progress: &mut Progress,
    rest: &mut Rest,
    piece: &'a [u8],
    out: &mut BitBuf,
) -> Result<&'a [u8], Fault>
    requires begun { IsProgressWithRest terms.now progress.old rest.old }
    requires enough { storage_len terms.now.params ≤ length rest.old + length piece.now }
    ensures completes { MatchResult result
        (λ left. FeedsFront (coder_at terms.now progress.old rest.old) piece.now left.now
        out.old.list out.new.list (coder_at terms.now progress.new []))
        (λ fault. StopsFeeding (coder_at terms.now progress.old rest.old) piece.now
        out.old.list out.new.list fault) }
    ensures progress { IsProgress terms.now progress.new }
    ensures empty { rest.new ≡ [] }
{
    if rest.len() == 0 {
        return Ok(piece);
    }
    let (front, left) = piece.split_at(terms.params.storage() - rest.len());
    let mut sample = mem::replace(rest, Rest::new());
    sample.extend(front);
    let bytes = sample.as_slice();
    let len = part_len(terms, progress, bytes)?;
    take_part(terms, progress, &bytes[..len], out)?;
    Ok(left)
}

/// Takes a piece: completes the sample that was begun, takes all whole samples, and keeps the bytes
/// that are left.
pub(crate) fn take_piece(
    terms: &Terms,
    progress: &mut Progress,
    rest: &mut Rest,
    piece: &[u8],
    out: &mut BitBuf,
) -> Result<(), Fault>
    requires begun { IsProgressWithRest terms.now progress.old rest.old }
    ensures takes { AnswersPiece (coder_at terms.now progress.old rest.old) piece.now
        out.old.list result (coder_at terms.now progress.new rest.new) out.new.list }
    ensures begun { IsProgressWithRest terms.now progress.new rest.new }
{
    let width = terms.params.storage();
    if piece.len() < width - rest.len() {
        rest.extend(piece);
        return Ok(());
    }
    let mut left = complete_rest(terms, progress, rest, piece, out)?;
    while left.len() >= width {
        let len = part_len(terms, progress, left)?;
        let (part, behind) = left.split_at(len);
        take_part(terms, progress, part, out)?;
        left = behind;
    }
    rest.extend(left);
    Ok(())
}
