//! The workspace: a coded list of samples.

pub(crate) mod fresh_coding;
pub(crate) mod rebuilding;

ghost use Rattle.aec_edit.specs.Index.{KeptSamples, one_list};

use crate::coded::{Coded, Cut};
use aec_bits::{Codec, Sink};
use aec_params::Fault;
use fresh_coding::Scratch;
use std::alloc::Global;
use std::marker::Model;

/// Samples, kept as their code and the places where its intervals begin. The samples themselves
/// aren't kept: between edits the scratch lists are empty. If an interval has n samples, these
/// lists keep room for at most 3n samples, for 256n bits of code and for 2n starts.
#[derive(Debug, Drop)]
pub struct Workspace<C: Codec> {
    coded: Coded,
    limit: u64,
    codec: C,
    alloc: Global,
    scratch: Scratch,
    ghost written: { KeptSamples (C.format codec) coded.count coded.bits.list coded.starts.items } by { one_list (C.format codec) coded.count coded.bits.list coded.starts.items (C.lawful codec) },
}

impl<C: Codec> Model for Workspace<C> {
    ghost use Rattle.std.specs.Prelude.{◌^◌, ◌-◌, ◌≤◌, vec_len, vec_capacity};
    ghost use Rattle.aec_params.specs.Limits.{most_samples};
    ghost use Rattle.aec_edit.specs.Workspace.{Contents, IsScratchRoom};
    ghost use Rattle.aec_edit.specs.Index.{kept_samples};

    ghost Value = { Contents C };

    ghost view = { λ w. record {
      samples = kept_samples w.written;
      limit = w.limit;
      codec = w.codec;
      room = record {
        bits = w.coded.bits.room;
        intervals = vec_capacity w.coded.starts - vec_len w.coded.starts;
      };
    } };

    ghost invariant = { λ w.
        (w.coded.count ≤ w.limit) × (w.limit ≤ most_samples) × (C.read w.codec ≤ 2 ^ 64 - 1)
        × IsScratchRoom (C.format w.codec).most (vec_capacity w.scratch.front)
        (vec_capacity w.scratch.back) w.scratch.coded.bits.room
        (vec_capacity w.scratch.coded.starts) };
}

impl<C: Codec> Workspace<C> {
    ghost use Rattle.std.specs.Prelude.{◌≡◌, ◌+◌, ◌<◌, ◌≤◌, ◌⊎◌, [], length, MatchOption, OnOk, OnErr, IfErr, ◌*◌, ◌++◌, take, drop, ℤ, List};
    ghost use Rattle.std.specs.Io.KnownBytes.{Appends};
    ghost use Rattle.aec_params.specs.declared.fault.Fault.TheVariants.{Memory, Write as WriteFault};
    ghost use Rattle.aec_params.specs.Codewords.{bytes_of};
    ghost use Rattle.aec_params.specs.Limits.{most_samples};
    ghost use Rattle.aec_bits.specs.Codec.{AreHeld, code_of};
    ghost use Rattle.aec_bits.specs.Devices.{AppendsFront};
    ghost use Rattle.aec_edit.specs.Workspace.{interval_count, start_of, IsSound};
    ghost use Rattle.aec_edit.specs.CodedLists.{IsCutAt};
    ghost use Rattle.aec_edit.specs.Calls.{RisesAtMost};
    ghost use Rattle.aec_edit.specs.Unchanged.{IsOnlyRead, KeepsCodec};
    ghost use Rattle.aec_edit.specs.Changes.{recoded, IsCodeFor};

    // bare: a new workspace that is not empty would break clauses of each later append
    /// Returns an empty workspace for at most `limit` samples. Allocates nothing.
    pub fn new(alloc: Global, codec: C, limit: u64) -> Workspace<C>
        requires { limit ≤ most_samples }
        ensures samples { result.samples ≡ [] }
        ensures limit { result.limit ≡ limit }
        ensures codec { result.codec ≡ codec }
        ensures room { (result.room.bits ≡ 0) × (result.room.intervals ≡ 0) }
    {
        // The type's invariant relies on this call: it bounds the codec's count of reads.
        let _reads = codec.reads();
        Workspace {
            coded: Coded::new(alloc),
            limit,
            codec,
            alloc,
            scratch: Scratch::new(alloc),
        }
    }

    /// Reserves room for `bits` more bits of code and for the starts of `intervals` more intervals.
    /// The samples and the room that was there are kept. Fails with `Memory` only if there is less
    /// room than asked for, and an allocation fails or there would be more than 2^62 bits.
    pub fn reserve(&mut self, bits: u64, intervals: u64) -> Result<(), Fault>
        ensures room { OnOk result
            ((bits ≤ self.new.room.bits) × (intervals ≤ self.new.room.intervals)) }
        ensures kept { (self.old.room.bits ≤ self.new.room.bits)
            × (self.old.room.intervals ≤ self.new.room.intervals) }
        ensures full { OnErr result
            ((self.old.room.bits < bits) ⊎ (self.old.room.intervals < intervals)) }
        ensures samples { self.new.samples ≡ self.old.samples }
        ensures limit { self.new.limit ≡ self.old.limit }
        ensures codec { self.new.codec ≡ self.old.codec }
        ensures fault { IfErr result (λ e. (e ≡ Memory) × (0 < bits + intervals)) }
    {
        self.coded.reserve(bits, intervals)
    }

    // bare: it returns a field
    /// Returns the number of samples.
    pub fn count(&self) -> u64
        ensures value { result ≡ length self.now.samples }
        ensures few { length self.now.samples ≤ self.now.limit }
        ensures bound { self.now.limit ≤ most_samples }
        ensures held { AreHeld (C.format self.now.codec) self.now.samples }
    {
        self.coded.count
    }

    // bare: it returns the length of a field
    /// Returns the number of intervals that the samples fill.
    pub fn intervals(&self) -> u64
        ensures { result ≡ interval_count (C.format self.now.codec) self.now.samples }
    {
        self.coded.starts.len() as u64
    }

    // bare: it returns the length of a field
    /// Returns the number of bits in the code of the samples.
    pub fn stream_bits(&self) -> u64
        ensures { result ≡ length (code_of (C.format self.now.codec) self.now.samples) }
    {
        self.coded.bits.len()
    }

    /// Returns the bit where interval `i` begins in the code: the number of bits in the code of the
    /// samples before it. Returns `None` if there is no such interval.
    pub fn offset(&self, i: u64) -> Option<u64>
        ensures { MatchOption result
            (interval_count (C.format self.now.codec) self.now.samples ≤ i)
            (λ start. (i < interval_count (C.format self.now.codec) self.now.samples)
            × (start ≡ start_of (C.format self.now.codec) self.now.samples i)) }
    {
        if i < self.intervals() {
            Some(self.start_at(i))
        } else {
            None
        }
    }

    /// Returns the codec's own counter of coded intervals, which need not start at 0.
    pub fn calls(&self) -> u64
        ensures { result ≡ C.called self.now.codec }
    {
        self.codec.calls()
    }

    // bare: it only calls `Codec::reads`
    /// Returns the codec's count of calls of `decode`.
    pub fn reads(&self) -> u64
        ensures { result ≡ C.read self.now.codec }
    {
        self.codec.reads()
    }

    /// Drops the workspace, and returns its codec.
    pub(crate) fn into_codec(self) -> C
        ensures { result ≡ self.codec }
    {
        let Workspace { codec, .. } = self;
        codec
    }

    // bare: it only calls `BitBuf::write_to`, which has edits
    /// Writes the bytes of the code of the samples to the sink; zeros fill the last byte. Fails
    /// with `Write` if the sink fails; the sink has then taken a prefix of these bytes. Never fails
    /// with `Memory`, and doesn't call `begin`.
    pub fn write_to<W: Sink>(&self, out: &mut W) -> Result<(), Fault>
        ensures ok { OnOk result (Appends (W.taken out.old) (W.taken out.new)
            (bytes_of (code_of (C.format self.now.codec) self.now.samples))) }
        ensures front { OnErr result (AppendsFront (W.taken out.old) (W.taken out.new)
            (bytes_of (code_of (C.format self.now.codec) self.now.samples))) }
        ensures begun { W.begun out.new ≡ W.begun out.old }
        ensures order { W.mark out.new ≡ W.mark out.old }
        ensures fault { IfErr result (λ e. (e ≡ WriteFault) × (W.failed out.new ≡ 1)) }
        ensures failures { OnOk result (W.failed out.new ≡ W.failed out.old) }
        ensures refuses { OnOk result
            (0 < length (code_of (C.format self.now.codec) self.now.samples)
            → W.failed out.old ≡ 0) }
    {
        self.coded.bits.write_to(out)
    }

    /// Returns the allocator for new memory.
    pub(crate) fn alloc(&self) -> Global {
        self.alloc
    }

    /// Returns the greatest number of samples that is allowed.
    pub(crate) fn limit(&self) -> u64
        ensures { result ≡ self.now.limit }
    {
        self.limit
    }

    /// Returns the number of samples in an interval that isn't the last.
    pub(crate) fn interval_len(&self) -> u64
        ensures value { result ≡ (C.format self.now.codec).most }
        ensures sound { IsSound (C.format self.now.codec) self.now.limit self.now.samples }
    {
        // The clause `sound` relies on this read: the type's invariant is known of what is read.
        let _ = &self.coded;
        self.codec.interval_len()
    }

    /// Returns whether `x` is a sample.
    pub(crate) fn holds(&self, x: i64) -> bool
        ensures { result ≡ (C.format self.now.codec).holds x }
    {
        self.codec.holds(x)
    }

    /// Returns the bit where interval `i` begins in the code, or where the code ends.
    fn start_at(&self, i: u64) -> u64
        requires { i ≤ interval_count (C.format self.now.codec) self.now.samples }
        ensures { result ≡ start_of (C.format self.now.codec) self.now.samples i }
    {
        if i < self.coded.starts.len() as u64 {
            self.coded.starts[i as usize]
        } else {
            self.coded.bits.len()
        }
    }

    /// Returns the cut where interval `i` begins, or where the code ends.
    fn cut_at(&self, i: u64) -> Cut
        requires { i ≤ interval_count (C.format self.now.codec) self.now.samples }
        ensures { IsCutAt (C.format self.now.codec) self.now.samples i result }
    {
        Cut {
            interval: i,
            bit: self.start_at(i),
        }
    }

    /// Appends the samples of interval `i` to `out`. Fails with `Memory` if an allocation fails;
    /// `out` is then unchanged.
    pub(crate) fn decode_interval(&mut self, i: u64, out: &mut Vec<i64>) -> Result<(), Fault>
        requires { i < interval_count (C.format self.old.codec) self.old.samples }
        ensures ok { OnOk result (out.new.items ≡ out.old.items
            ++ take (C.format self.old.codec).most
            (drop (i * (C.format self.old.codec).most) self.old.samples)) }
        ensures err { OnErr result (out.new.items ≡ out.old.items) }
        ensures fault { IfErr result (λ e. e ≡ Memory) }
        ensures read { IsOnlyRead C.format C.called C.read 1 self.old self.new }
    {
        let start = self.start_at(i);
        let interval_len = self.interval_len();
        let len = interval_len.min(self.coded.count - i * interval_len);
        self.codec.decode(&self.coded.bits, start, len, out)
    }

    /// Replaces the intervals from number `from` up to number `to` by the code of fresh samples,
    /// and moves the starts of the later ones. If it fails with `Memory`, samples, limit and codec
    /// are unchanged, but the room may have changed.
    pub(crate) fn put(&mut self, from: u64, to: u64, coded: &Coded) -> Result<(), Fault>
        requires { (fresh : List ℤ)
            × IsCodeFor (C.format self.old.codec) self.old.limit self.old.samples from to
            coded.now.bits.list coded.now.starts.items coded.now.count fresh }
        ensures ok { (fresh : List ℤ)
            → IsCodeFor (C.format self.old.codec) self.old.limit self.old.samples from to
            coded.now.bits.list coded.now.starts.items coded.now.count fresh
            → OnOk result (self.new.samples
            ≡ recoded (C.format self.old.codec) from to fresh self.old.samples) }
        ensures err { OnErr result (self.new.samples ≡ self.old.samples) }
        ensures fault { IfErr result (λ e. (e ≡ Memory) × (0 < coded.now.count)) }
        ensures rest { KeepsCodec self.old self.new }
    {
        let from = self.cut_at(from);
        let to = self.cut_at(to);
        let interval_len = self.interval_len();
        let later = self.count().saturating_sub(to.interval * interval_len);
        let count = from.interval * interval_len + coded.count + later;
        self.coded.replace(from, to, coded, count)
    }
}
