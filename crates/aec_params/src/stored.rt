//! One stored sample: from its bytes to the sample, and back.

ghost use Rattle.std.specs.Prelude.{IfSome, ◌≡◌, ◌<◌, ◌≤◌, ◌^◌, ◌*◌, ◌%◌, ◌++◌, drop, length};
ghost use Rattle.aec_params.specs.Params.{IsHeld, pattern_value, storage_len};
ghost use Rattle.aec_params.specs.Stored.{stored_bytes, stored_number, has_sign_above, number_in, sample_of_number};

use crate::numbers::{first_number, put_number};
use crate::params::Params;
use byteorder::{BigEndian, LittleEndian};

/// Returns the sample whose bytes are `group`; `None` if its unused bits are not what its width
/// allows. Allocates nothing.
pub fn sample_of(params: &Params, group: &[u8]) -> Option<i64>
    requires { length group.now ≡ storage_len params.now }
    ensures value { result ≡ sample_of_number params.now (number_in params.now group.now) }
    ensures held { IfSome result (λ x. IsHeld params.now x) }
{
    let number = number_of(params, group);
    if number < 1u64 << params.bits() {
        return Some(params.value(number as u32));
    }
    if params.signed() && has_sign_bits(params, number) {
        return Some(low_sample(params, number));
    }
    None
}

/// Returns the number in the bytes of one sample.
fn number_of(params: &Params, group: &[u8]) -> u64
    requires { length group.now ≡ storage_len params.now }
    ensures { result ≡ number_in params.now group.now }
{
    let width = params.storage();
    if params.msb_first() {
        first_number::<BigEndian>(group, width)
    } else {
        first_number::<LittleEndian>(group, width)
    }
}

/// Returns whether the bits of a stored number from its sign bit on are all set.
fn has_sign_bits(params: &Params, number: u64) -> bool
    ensures { result ≡ has_sign_above params.now number }
{
    let low = params.bits() - 1;
    let high = 8 * params.storage() as u32 - low;
    number >> low == (1u64 << high) - 1
}

/// Returns the sample whose pattern is the low n bits of a number.
pub(crate) fn low_sample(params: &Params, number: u64) -> i64
    ensures value { result ≡ pattern_value params.now (number % 2 ^ params.now.bits) }
    ensures held { IsHeld params.now result }
{
    params.value((number % (1u64 << params.bits())) as u32)
}

/// Returns the number that all bits of a sample's bytes spell.
fn number_of_sample(params: &Params, x: i64) -> u64
    requires { IsHeld params.now x }
    ensures value { result ≡ stored_number params.now x }
    ensures fits { result < 256 ^ storage_len params.now }
{
    x.cast_unsigned() % (1u64 << (8 * params.storage()))
}

/// Writes the bytes of a sample to the front of `out` and leaves the other bytes. Returns how many
/// bytes it has written, `Params::storage`.
pub fn put_sample(params: &Params, x: i64, out: &mut [u8; 4]) -> usize
    requires { IsHeld params.now x }
    ensures bytes { out.new ≡ stored_bytes params.now x ++ drop (storage_len params.now) out.old }
    ensures len { result ≡ storage_len params.now }
{
    let width = params.storage();
    let number = number_of_sample(params, x);
    if params.msb_first() {
        put_number::<BigEndian>(&mut out[..], number, width);
    } else {
        put_number::<LittleEndian>(&mut out[..], number, width);
    }
    width
}
