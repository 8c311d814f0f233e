//! Bytes as words, eight to a word, the first at the top.

ghost use Rattle.std.specs.Prelude.{◌≡◌, ◌+◌, ◌*◌, ◌%◌, ◌≤◌, length, take, drop};
ghost use Rattle.aec_params.specs.Codewords.{binary, bits_of_bytes};
ghost use Rattle.aec_bits.specs.Packed.{CanGrow, Extends};

use crate::words::packed::push_reserved_number;

/// Appends the bits of bytes, for which there is room, to a list of `len` bits.
pub(crate) fn append_octets(words: &mut Vec<u64>, len: u64, bytes: &[u8])
    requires { CanGrow len (8 * length bytes.now) words.old }
    ensures { Extends len (8 * length bytes.now) (bits_of_bytes bytes.now) words.old words.new }
{
    let (eights, behind) = bytes.split_at(bytes.len() / 8 * 8);
    append_eights(words, len, eights);
    append_each(words, len + 8 * eights.len() as u64, behind);
}

/// `append_octets` for a multiple of eight bytes.
fn append_eights(words: &mut Vec<u64>, len: u64, bytes: &[u8])
    requires eights { length bytes.now % 8 ≡ 0 }
    requires grow { CanGrow len (8 * length bytes.now) words.old }
    ensures { Extends len (8 * length bytes.now) (bits_of_bytes bytes.now) words.old words.new }
{
    for i in 0..bytes.len() / 8 {
        let word = word_of(eight_at(bytes, 8 * i));
        push_reserved_number(words, len + 64 * i as u64, word, 64);
    }
}

/// `append_octets`, byte by byte.
fn append_each(words: &mut Vec<u64>, len: u64, bytes: &[u8])
    requires { CanGrow len (8 * length bytes.now) words.old }
    ensures { Extends len (8 * length bytes.now) (bits_of_bytes bytes.now) words.old words.new }
{
    for i in 0..bytes.len() {
        push_reserved_number(words, len + 8 * i as u64, u64::from(bytes[i]), 8);
    }
}

/// Returns the eight bytes from byte `start` on.
#[inline]
fn eight_at(bytes: &[u8], start: usize) -> [u8; 8]
    requires { start + 8 ≤ length bytes.now }
    ensures { result ≡ take 8 (drop start bytes.now) }
{
    let mut eight = [0u8; 8];
    eight.copy_from_slice(&bytes[start..start + 8]);
    eight
}

/// Returns the word of eight bytes.
#[inline]
fn word_of(eight: [u8; 8]) -> u64
    ensures { binary 64 result ≡ bits_of_bytes eight }
{
    u64::from_be_bytes(eight)
}
