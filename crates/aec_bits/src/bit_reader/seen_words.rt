//! Reads from a word of which the first bits were read before.

ghost use Rattle.std.specs.Prelude.{◌≡◌, ◌-◌, ◌<◌, ◌≤◌, ◌++◌, false, IfSome, length, take, drop, replicate};
ghost use Rattle.aec_params.specs.Codewords.{fs, binary};
ghost use Rattle.aec_bits.specs.Windows.{StandsBefore};

use crate::bit_buf::BitBuf;
use crate::bit_reader::windows::{Window, has_ones, place_of, sequences_within, window_after};

/// Fills `numbers` with those of the fundamental sequences from place `start` on, if a word
/// contains all of them after its first `gone` bits: the bits before that place. Returns the place
/// after them; `None` if the word has no 1 for each.
#[inline(always)]
pub(crate) fn seen_sequences(
    buf: &BitBuf,
    start: u64,
    word: u64,
    gone: u32,
    numbers: &mut [u32],
) -> Option<u64>
    requires within { start ≤ length buf.now.list }
    requires some { 0 < gone }
    requires inside { gone < 64 }
    requires there { gone ≤ start }
    requires word { binary 64 word
        ≡ take 64 (drop (start - gone) buf.now.list ++ replicate 64 false) }
    ensures read { IfSome result (λ stop.
        StandsBefore fs 64 numbers.new (drop stop buf.now.list) (drop start buf.now.list)
        × (stop ≤ length buf.now.list)) }
    ensures len { length numbers.new ≡ length numbers.old }
{
    // The clauses rely on this call: it says that the list is within its bound.
    let _len = buf.len();
    let whole = Window {
        word,
        left: 64,
        end: start - u64::from(gone) + 64,
    };
    let rest = window_after(whole, gone);
    if !has_ones(rest, numbers.len()) {
        return None;
    }
    Some(place_of(sequences_within(rest, numbers)))
}
