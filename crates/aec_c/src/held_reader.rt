//! Coded bits, with the place that reading has reached.

ghost use Rattle.std.specs.Prelude.{◌≡◌, ◌<◌, ℕ, IfOk, IfErr, OnOk};
ghost use Rattle.aec_params.specs.Limits.{most_blocks};
ghost use Rattle.aec_c.specs.Standing.{place_in, HasCounted, IsOnWay, BeginsInterval, IsFaultOnWay};

use aec_bits::BitBuf;
use aec_interval::{ReachedPlace, StreamReader};
use aec_params::{Fault, MAX_SAMPLES, Params};
use std::alloc::Global;
use std::marker::Model;

/// A place, and how many samples lie before it.
#[derive(Clone, Copy)]
struct Stand {
    place: ReachedPlace,
    before: u64,
}

/// Coded bits that are read interval by interval, from call to call. Contracts see the place that
/// reading has reached, and how many samples lie before it.
#[derive(Drop)]
pub struct HeldReader {
    params: Params,
    count: Option<u64>,
    bits: BitBuf,
    at: Stand,
}

impl Model for HeldReader {
    ghost use Rattle.aec_c.specs.Standing.{Standing, standing_at, IsStanding};

    ghost Value = { Standing };

    ghost view = { λ r.
        standing_at r.params r.count r.bits.list r.at.place.block r.at.place.bit r.at.before };

    ghost invariant = { λ r. IsStanding
        (standing_at r.params r.count r.bits.list r.at.place.block r.at.place.bit r.at.before) };
}

/// Skips `intervals` intervals, or all that are left. Returns how many samples lie before the new
/// place, if `before` lie before the old one.
fn skip_intervals(
    params: &Params,
    reader: &mut StreamReader,
    intervals: u64,
    before: u64,
) -> Result<u64, Fault>
    requires settings { reader.old.settings ≡ params.now }
    requires counted { HasCounted reader.old before }
    requires few { reader.old.block < most_blocks }
    ensures ok { IfOk result (HasCounted reader.new) }
    ensures same { OnOk result
        (reader.new ≡ place_in reader.old reader.new.block reader.new.bit) }
    ensures begins { OnOk result ((k : ℕ) → IsOnWay k intervals reader.old
        → BeginsInterval k reader.new) }
    ensures refuses { IfErr result (λ fault. (k : ℕ) → IsOnWay k intervals reader.old
        → IsFaultOnWay k reader.old fault) }
{
    params.known_allowed();
    let mut left = intervals;
    let mut total = before;
    while left > 0 {
        match reader.skip()? {
            Some(len) => {
                total += len;
                left -= 1;
            }
            None => left = 0,
        }
    }
    Ok(total)
}

impl HeldReader {
    ghost use Rattle.std.specs.Prelude.{◌≡◌, ◌<◌, ◌≤◌, ◌+◌, ◌⊎◌, List, ℤ, vec_capacity, Some, IfOk, IfErr, IfSome, IsOk, OnOk, OnErr, length};
    ghost use Rattle.std.specs.Option.{is_some};
    ghost use Rattle.aec_params.specs.declared.fault.Fault.TheVariants.{Memory};
    ghost use Rattle.aec_params.specs.Params.{IsAllowed, interval_len};
    ghost use Rattle.aec_params.specs.Codewords.{bits_of_bytes};
    ghost use Rattle.aec_params.specs.Limits.{most_samples};
    ghost use Rattle.aec_interval.specs.Reached.{count_refusal};
    ghost use Rattle.aec_interval.specs.Pieces.{is_wanted_at, IsPlace, ReadsInterval, RefusesAt};
    ghost use Rattle.aec_c.specs.Standing.{standing_at, place_in, standing_in, HasCounted, IsStanding, IsOnWay, BeginsInterval, IsFaultOnWay};

    /// Returns a reader at the first bit of coded bytes.
    pub(crate) fn new(
        alloc: Global,
        params: Params,
        count: Option<u64>,
        coded: &[u8],
    ) -> Result<HeldReader, Fault>
        ensures ok { IfOk result
            (λ made. made ≡ standing_at params count (bits_of_bytes coded.now) 0 0 0) }
        ensures refuses { IfErr result
            (λ fault. (fault ≡ Memory) ⊎ (count_refusal most_samples count ≡ Some fault)) }
    {
        let bits = BitBuf::from_bytes(alloc, coded)?;
        let place = StreamReader::new(alloc, params, &bits, count, MAX_SAMPLES)?.place();
        Ok(HeldReader {
            params,
            count,
            bits,
            at: Stand { place, before: 0 },
        })
    }

    /// Returns the parameters of the bits.
    pub(crate) fn params(&self) -> Params
        ensures settings { result ≡ self.now.place.settings }
        ensures allowed { IsAllowed result }
    {
        self.params.known_allowed();
        self.params
    }

    /// Returns a reader of the bits at the place. Allocates nothing.
    fn reader(&self, alloc: Global, place: ReachedPlace) -> Result<StreamReader<'_>, Fault>
        requires { IsPlace (place_in self.now.place place.block place.bit) }
        ensures always { IsOk result }
        ensures ok { IfOk result
            (λ reader. reader ≡ place_in self.now.place place.block place.bit) }
    {
        let mut reader = StreamReader::new(
            alloc,
            self.params,
            &self.bits,
            self.count,
            MAX_SAMPLES,
        )?;
        reader.seek(place);
        Ok(reader)
    }

    /// Reads the samples of the next interval, and stays. Returns where the interval ends; `None`
    /// if all samples were read. Fails with `Memory` only if `samples` has no room for a whole
    /// interval.
    pub(crate) fn peek(
        &self,
        alloc: Global,
        samples: &mut Vec<i64>,
    ) -> Result<Option<ReachedPlace>, Fault>
        ensures more { IfOk result (λ end. is_some end ≡ is_wanted_at self.now.place) }
        ensures read { IfOk result (λ end. IfSome end (λ end. ReadsInterval self.now.place
            samples.new.items (place_in self.now.place end.block end.bit))) }
        ensures reached { IfOk result (λ end. IfSome end
            (λ end. IsPlace (place_in self.now.place end.block end.bit))) }
        ensures refuses { IfErr result (RefusesAt self.now.place) }
        ensures full { IfErr result (λ fault. fault ≡ Memory
            → vec_capacity samples.old < interval_len self.now.place.settings) }
        ensures capacity { vec_capacity samples.old ≤ vec_capacity samples.new }
    {
        let mut reader = self.reader(alloc, self.at.place)?;
        if reader.next(samples)? {
            Ok(Some(reader.place()))
        } else {
            Ok(None)
        }
    }

    /// Goes on to the end of the next interval, after its `len` samples.
    pub(crate) fn go_on(&mut self, end: ReachedPlace, len: u64)
        requires reads { (samples : List ℤ) × ReadsInterval self.old.place samples
            (place_in self.old.place end.block end.bit) × (length samples ≡ len) }
        requires reached { IsPlace (place_in self.old.place end.block end.bit) }
        ensures { self.new ≡ record {
          place = place_in self.old.place end.block end.bit;
          before = self.old.before + len;
        } }
    {
        self.params.known_allowed();
        self.at = Stand {
            place: end,
            before: self.at.before + len,
        };
    }

    /// Returns the place at which the search for `interval` starts, and how many intervals to skip
    /// from there. The search starts at the present place, or at the first bit if the interval
    /// begins before the present place.
    fn start_of_search(&self, interval: u64) -> (Stand, u64)
        ensures standing { IsStanding (standing_in self.now.place result.0) }
        ensures way { IsOnWay interval result.1 (standing_in self.now.place result.0).place }
    {
        let first = Stand {
            place: ReachedPlace { block: 0, bit: 0 },
            before: 0,
        };
        let here = self
            .at
            .place
            .block
            .div_ceil(u64::from(self.params.interval()));
        if here <= interval {
            (self.at, interval - here)
        } else {
            (first, interval)
        }
    }

    /// Returns where an interval begins, or the end of all samples if there are fewer. Allocates
    /// nothing.
    fn find(&self, alloc: Global, interval: u64) -> Result<Stand, Fault>
        ensures ok { IfOk result (λ at. IsStanding (standing_in self.now.place at)) }
        ensures begins { IfOk result
            (λ at. BeginsInterval interval (standing_in self.now.place at).place) }
        ensures refuses { IfErr result (IsFaultOnWay interval self.now.place) }
    {
        let (start, left) = self.start_of_search(interval);
        let mut reader = self.reader(alloc, start.place)?;
        let before = skip_intervals(&self.params, &mut reader, left, start.before)?;
        Ok(Stand {
            place: reader.place(),
            before,
        })
    }

    /// Goes to where an interval begins, or to the end of all samples if there are fewer. Returns
    /// how many samples lie before it. On an error nothing is changed.
    pub(crate) fn go_to(&mut self, alloc: Global, interval: u64) -> Result<u64, Fault>
        ensures ok { IfOk result (HasCounted self.new.place) }
        ensures same { OnOk result (self.new.place ≡ place_in self.old.place self.new.place.block
            self.new.place.bit) }
        ensures begins { OnOk result (BeginsInterval interval self.new.place) }
        ensures refuses { IfErr result (IsFaultOnWay interval self.old.place) }
        ensures err { OnErr result (self.new ≡ self.old) }
    {
        self.at = self.find(alloc, interval)?;
        Ok(self.at.before)
    }
}
