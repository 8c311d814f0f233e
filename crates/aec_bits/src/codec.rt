//! The trait of an interval coder.

ghost use Rattle.std.specs.Prelude.{◌≡◌, ◌+◌, ◌-◌, ◌^◌, ◌⊎◌, ◌↔◌, ◌++◌, ℕ, ℤ, List, Err, OnOk, OnErr, IfErr};
ghost use Rattle.aec_params.specs.declared.fault.Fault.TheVariants.{Spent, Memory};
ghost use Rattle.aec_bits.specs.Devices.{counted};
ghost use Rattle.aec_bits.specs.Codec.{Format, IsLawful, IsInterval, BeginsAt};

use crate::bit_buf::BitBuf;
use aec_params::Fault;

/// A coder of intervals. It counts the coded intervals and the calls of `decode`.
pub trait Codec {
    /// The bits of an interval, the greatest number of samples in one, and which numbers are
    /// samples.
    ghost format: { Self → Format };

    /// The count of coded intervals, plus the count that the codec began with.
    ghost called: { Self → ℕ };

    /// The count of `decode` calls, at most `u64::MAX`.
    ghost read: { Self → ℕ };

    /// The format is lawful, as `IsLawful` says: the bits of an interval determine it among the
    /// intervals of its length.
    ghost lawful: { (c : Self) → IsLawful (format c) };

    /// Returns the greatest number of samples in an interval, 1 to 262,144.
    fn interval_len(&self) -> u64
        ensures { result ≡ (format self.now).most };

    /// Returns whether a number is a sample.
    fn holds(&self, x: i64) -> bool
        ensures { result ≡ (format self.now).holds x };

    // bare: each impl returns a field
    /// Returns the count of coded intervals, plus the count that the codec began with.
    fn calls(&self) -> u64
        ensures { result ≡ called self.now };

    // bare: each impl returns a field
    /// Returns the count of `decode` calls, at most `u64::MAX`.
    fn reads(&self) -> u64
        ensures { result ≡ read self.now };

    /// Appends the bits of an interval. Fails with `Spent` exactly if `calls` is `u64::MAX`, else
    /// with `Memory` if an allocation fails; on an error the bits and `calls` are unchanged.
    fn code(&mut self, samples: &[i64], out: &mut BitBuf) -> Result<(), Fault>
        requires { IsInterval (format self.old) samples.now }
        ensures ok { OnOk result (out.new.list
            ≡ out.old.list ++ (format self.old).bits_of samples.now) }
        ensures counts { OnOk result (called self.new ≡ called self.old + 1) }
        ensures spent { (result ≡ Err Spent) ↔ (called self.old ≡ 2 ^ 64 - 1) }
        ensures fault { IfErr result (λ e. (e ≡ Spent) ⊎ (e ≡ Memory)) }
        ensures err { OnErr result (out.new.list ≡ out.old.list) }
        ensures calls_err { OnErr result (called self.new ≡ called self.old) }
        ensures same_reads { read self.new ≡ read self.old }
        ensures same_format { format self.new ≡ format self.old };

    /// Appends the `count` samples of the interval whose bits begin at place `pos`. Fails with
    /// `Memory` if an allocation fails; the samples in `out` are then unchanged.
    fn decode(
        &mut self,
        stream: &BitBuf,
        pos: u64,
        count: u64,
        out: &mut Vec<i64>,
    ) -> Result<(), Fault>
        requires { (s : List ℤ) × BeginsAt (format self.old) stream.now.list pos count s }
        ensures ok { (s : List ℤ) → BeginsAt (format self.old) stream.now.list pos count s
            → OnOk result (out.new.items ≡ out.old.items ++ s) }
        ensures fault { IfErr result (λ e. e ≡ Memory) }
        ensures err { OnErr result (out.new.items ≡ out.old.items) }
        ensures counts { read self.new ≡ counted (read self.old) }
        ensures same_calls { called self.new ≡ called self.old }
        ensures same_format { format self.new ≡ format self.old };
}
