//! Reads samples back from their code.

use crate::workspace::Workspace;
use aec_bits::Codec;
use aec_params::Fault;
use std::alloc::Global;

impl<C: Codec> Workspace<C> {
    ghost use Rattle.std.specs.Prelude.{◌≡◌, ◌+◌, ◌-◌, ◌*◌, ◌^◌, ◌<◌, ◌≤◌, ◌++◌, None, Err, length, take, drop, IfOk, OnOk, IfErr};
    ghost use Rattle.aec_params.specs.Edits.{touched_intervals};
    ghost use Rattle.aec_params.specs.declared.fault.Fault.TheVariants.{Memory};
    ghost use Rattle.aec_edit.specs.Workspace.{interval_count};
    ghost use Rattle.aec_edit.specs.Calls.{RisesAtMost, range_refusal, IsDue};
    ghost use Rattle.aec_edit.specs.Unchanged.{IsOnlyRead};

    /// Returns the `len` samples from place `first` on. Fails with `OutOfRange` exactly if `first +
    /// len` exceeds the number of samples; else with `Memory` if an allocation fails, but never for
    /// a range of no samples. Decodes at most as many intervals as contain one of the samples, and
    /// none if the range is out of range. The room stays the same.
    pub fn range(&mut self, alloc: Global, first: u64, len: u64) -> Result<Vec<i64>, Fault>
        ensures ok { IfOk result (λ v. v.items ≡ take len (drop first self.old.samples)) }
        ensures within { OnOk result (range_refusal (length self.old.samples) first len ≡ None) }
        ensures refuses { IfErr result
            (λ e. IsDue (range_refusal (length self.old.samples) first len) e) }
        ensures memory { result ≡ Err Memory → 0 < len }
        ensures unread { length self.old.samples < first + len
            → C.read self.new.codec ≡ C.read self.old.codec }
        ensures read { IsOnlyRead C.format C.called C.read
            (length (touched_intervals (C.format self.old.codec).most first len))
            self.old self.new }
    {
        self.check_places(first, len)?;
        self.slice(alloc, first, len)
    }

    /// Returns the `len` samples from place `first` on, which must exist. Fails with `Memory` if an
    /// allocation fails, but never if `len` is 0.
    fn slice(&mut self, alloc: Global, first: u64, len: u64) -> Result<Vec<i64>, Fault>
        requires { first + len ≤ length self.old.samples }
        ensures ok { IfOk result (λ v. v.items ≡ take len (drop first self.old.samples)) }
        ensures fault { IfErr result (λ e. (e ≡ Memory) × (0 < len)) }
        ensures read { IsOnlyRead C.format C.called C.read
            (length (touched_intervals (C.format self.old.codec).most first len))
            self.old self.new }
    {
        let mut out = Vec::new(alloc);
        if len == 0 {
            return Ok(out);
        }
        let interval_len = self.interval_len();
        let from = first / interval_len;
        self.decode_intervals(from, (first + len).div_ceil(interval_len), &mut out)?;
        keep_part(&mut out, (first % interval_len) as usize, len as usize);
        Ok(out)
    }

    /// Appends the samples of the intervals from number `from` up to number `to`.
    fn decode_intervals(&mut self, from: u64, to: u64, out: &mut Vec<i64>) -> Result<(), Fault>
        requires order { from ≤ to }
        requires within { to ≤ interval_count (C.format self.old.codec) self.old.samples }
        ensures ok { OnOk result (out.new.items ≡ out.old.items
            ++ drop (from * (C.format self.old.codec).most)
            (take (to * (C.format self.old.codec).most) self.old.samples)) }
        ensures fault { IfErr result (λ e. e ≡ Memory) }
        ensures read { IsOnlyRead C.format C.called C.read (to - from) self.old self.new }
    {
        for i in from..to {
            self.decode_interval(i, out)?;
        }
        Ok(())
    }
}

ghost use Rattle.std.specs.Prelude.{◌≡◌, ◌+◌, ◌≤◌, take, drop, vec_len};

/// Keeps the `len` items from place `first` on.
fn keep_part(items: &mut Vec<i64>, first: usize, len: usize)
    requires { first + len ≤ vec_len items.old }
    ensures { items.new.items ≡ take len (drop first items.old.items) }
{
    items.copy_within(first..first + len, 0);
    items.truncate(len);
}
