//! Finds the position after n ones, by words and, in a word, by halves down to a byte.

ghost use Rattle.std.specs.Prelude.{◌≡◌, ◌+◌, ◌*◌, ◌<◌, ◌≤◌, ◌^◌, Some, length, drop, count_ones, IfSome};
ghost use Rattle.aec_params.specs.Codewords.{binary};
ghost use Rattle.aec_bits.specs.BitReader.{further, behind_ones};
ghost use Rattle.aec_bits.specs.WordBits.{word_bits};
ghost use Rattle.aec_bits.specs.Ones.{HasNthOne};

use crate::bit_buf::BitBuf;
use crate::bit_reader::ends_in_bytes::row_of;

/// A part of a word: its bits as a number, which of its 1 bits is searched (`nth`, counted from 1),
/// and the number of the word's bits before this part.
#[derive(Clone, Copy)]
struct Stretch {
    bits: u64,
    nth: u32,
    before: u32,
}

/// Returns the half of a part, of `width` bits, that contains the 1 bit that is searched.
#[inline(always)]
fn half_with_one(stretch: Stretch, width: u32) -> Stretch
    requires width { width ≤ 32 }
    requires one { HasNthOne (2 * width) stretch }
    ensures one { HasNthOne width result }
    ensures same { further stretch.before
        (behind_ones stretch.nth (binary (2 * width) stretch.bits))
        ≡ further result.before (behind_ones result.nth (binary width result.bits)) }
{
    let high = stretch.bits >> width;
    let ones = high.count_ones();
    if stretch.nth <= ones {
        return Stretch {
            bits: high,
            ..stretch
        };
    }
    Stretch {
        bits: stretch.bits % (1 << width),
        nth: stretch.nth - ones,
        before: stretch.before + width,
    }
}

/// Returns the place after the `nth` 1 bit of a byte.
#[inline(always)]
fn behind_in_byte(byte: u64, nth: u32) -> u32
    requires byte { byte < 256 }
    requires some { 0 < nth }
    requires there { nth ≤ count_ones byte }
    ensures place { Some result ≡ behind_ones nth (binary 8 byte) }
    ensures small { result ≤ 8 }
{
    u32::from(row_of(byte)[nth as usize - 1])
}

/// Returns the place after the `nth` 1 bit of a word.
#[inline(always)]
fn behind_in_word(word: u64, nth: u32) -> u32
    requires some { 0 < nth }
    requires there { nth ≤ count_ones word }
    ensures place { Some result ≡ behind_ones nth (word_bits word) }
    ensures small { result ≤ 64 }
{
    let whole = Stretch {
        bits: word,
        nth,
        before: 0,
    };
    let of_32 = half_with_one(whole, 32);
    let of_16 = half_with_one(of_32, 16);
    let of_8 = half_with_one(of_16, 8);
    of_8.before + behind_in_byte(of_8.bits, of_8.nth)
}

/// Returns how many bits from place `start` on end with the `count`-th 1; `None` if fewer follow.
#[inline(always)]
pub(crate) fn bits_to_one(buf: &BitBuf, start: u64, count: u64) -> Option<u64>
    requires within { start ≤ length buf.now.list }
    requires some { 0 < count }
    ensures place { result ≡ behind_ones count (drop start buf.now.list) }
    ensures within { IfSome result (λ gone. start + gone ≤ length buf.now.list) }
    ensures bound { length buf.now.list ≤ 2 ^ 62 }
{
    let mut place = start;
    let mut left = count;
    while place < buf.len() {
        let word = buf.word_from(place);
        let ones = u64::from(word.count_ones());
        if left <= ones {
            return Some(place - start + u64::from(behind_in_word(word, left as u32)));
        }
        left -= ones;
        place += 64;
    }
    None
}
