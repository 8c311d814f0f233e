//! The samples of an incomplete interval.

use aec_params::{Fault, Params, load_samples};
use std::alloc::Global;
use std::marker::Model;

/// Samples; contracts see their list. The places after them keep old samples, so that places are
/// made once and then filled again and again.
#[derive(Debug, Drop)]
pub(crate) struct HeldSamples {
    places: Vec<i64>,
    len: usize,
}

impl Model for HeldSamples {
    ghost use Rattle.std.specs.Prelude.{ℤ, ◌≤◌, List, take, vec_len};

    ghost Value = { List ℤ };

    ghost view = { λ h. take h.len h.places.items };

    ghost invariant = { λ h. h.len ≤ vec_len h.places };
}

impl HeldSamples {
    ghost use Rattle.std.specs.Prelude.{None, Ok, ◌≡◌, ◌+◌, ◌/◌, [], length, OnOk, OnErr, IfErr};
    ghost use Rattle.std.specs.List.{AllByRecursion};
    ghost use Rattle.std.specs.Result.{result_err};
    ghost use Rattle.aec_params.specs.declared.fault.Fault.TheVariants.{Memory};
    ghost use Rattle.aec_params.specs.Params.{IsHeld, storage_len};
    ghost use Rattle.aec_params.specs.Stored.{samples_of_bytes, samples_behind};

    /// Returns no samples. Allocates nothing.
    pub(crate) fn new(alloc: Global) -> HeldSamples
        ensures { result ≡ [] }
    {
        HeldSamples {
            places: Vec::new(alloc),
            len: 0,
        }
    }

    /// Returns the allocator.
    pub(crate) fn alloc(&self) -> Global {
        *self.places.allocator()
    }

    /// Returns the number of samples.
    pub(crate) fn len(&self) -> usize
        ensures { result ≡ length self.now }
    {
        self.len
    }

    /// Returns the number of samples for which there are places.
    pub(crate) fn places(&self) -> usize {
        self.places.len()
    }

    /// Returns the samples.
    pub(crate) fn as_slice(&self) -> &[i64]
        ensures { result.now ≡ self.now }
    {
        &self.places[..self.len]
    }

    /// Drops the samples; their places stay.
    pub(crate) fn clear(&mut self)
        ensures { self.new ≡ [] }
    {
        self.len = 0;
    }

    /// Appends the samples of bytes in which `first_bad` finds none. Fails with `Memory` if an
    /// allocation fails; the samples are then unchanged.
    pub(crate) fn push_stored(&mut self, params: &Params, bytes: &[u8]) -> Result<(), Fault>
        requires { result_err (samples_of_bytes params.now bytes.now) ≡ None }
        ensures ok { OnOk result (samples_behind self.old (samples_of_bytes params.now bytes.now)
            ≡ Ok self.new) }
        ensures len { OnOk result
            (length self.new ≡ length self.old + length bytes.now / storage_len params.now) }
        ensures held { OnOk result (AllByRecursion (IsHeld params.now) self.old
            → AllByRecursion (IsHeld params.now) self.new) }
        ensures err { OnErr result (self.new ≡ self.old) }
        ensures fault { IfErr result (λ e. e ≡ Memory) }
    {
        let end = self.len + bytes.len() / params.storage();
        make_places(&mut self.places, end)?;
        load_samples(params, bytes, &mut self.places[self.len..end]);
        self.len = end;
        Ok(())
    }
}

ghost use Rattle.std.specs.Prelude.{◌≡◌, ◌≤◌, take, vec_len, OnOk, OnErr, IfErr};
ghost use Rattle.aec_params.specs.declared.fault.Fault.TheVariants.{Memory};

/// Makes `count` places, if there are fewer. Fails with `Memory` if an allocation fails; the places
/// are then unchanged.
fn make_places(places: &mut Vec<i64>, count: usize) -> Result<(), Fault>
    ensures room { OnOk result (count ≤ vec_len places.new) }
    ensures kept { take (vec_len places.old) places.new.items ≡ places.old.items }
    ensures more { vec_len places.old ≤ vec_len places.new }
    ensures err { OnErr result (places.new.items ≡ places.old.items) }
    ensures fault { IfErr result (λ e. e ≡ Memory) }
{
    if count <= places.len() {
        return Ok(());
    }
    places.resize(count, 0)?;
    Ok(())
}
