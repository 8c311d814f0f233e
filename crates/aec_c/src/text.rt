//! The text of a reply.

ghost use Rattle.std.specs.Prelude.{◌≡◌, IfSome, length};
ghost use Rattle.aec_c.specs.Replies.{number_of};
ghost use Rattle.aec_c.specs.Texts.{PutsText, text_in};

use crate::reply::{BIT_OUT_OF_RANGE, NO_ROOM, NOT_OPEN, Reply};
use aec_params::Fault;
use std::alloc::{AllocError, Global};

/// Returns the refusal that a reply names.
fn fault_of(reply: &Reply) -> Option<Fault>
    ensures { IfSome result (λ fault. number_of fault ≡ reply.now.fault) }
{
    let place = reply.place;
    Some(match reply.fault {
        1 => Fault::BitsPerSample,
        2 => Fault::BlockSize,
        3 => Fault::Interval,
        4 => Fault::RestrictedWidth,
        5 => Fault::SampleRange { index: place },
        6 => Fault::Truncated { bit: place },
        7 => Fault::ValueTooLarge { bit: place },
        8 => Fault::RunTooLong { bit: place },
        9 => Fault::TooManySamples { limit: place },
        10 => Fault::OutOfRange { count: place },
        11 => Fault::Spent,
        12 => Fault::Memory,
        13 => Fault::Read,
        14 => Fault::Write,
        15 => Fault::Script { line: place },
        16 => Fault::StreamTooLong { limit: place },
        17 => Fault::EvenBlockSize,
        _ => return None,
    })
}

/// Returns the text of a reply, in the words of `Fault`.
pub(crate) fn text_of(alloc: Global, reply: &Reply) -> Result<String, AllocError> {
    match fault_of(reply) {
        Some(fault) => format!(in alloc; "{fault}"),
        None if reply.fault == 0 => format!(in alloc; "no fault"),
        None if reply.fault == NO_ROOM => {
            format!(in alloc;
                "the buffer is shorter than the answer, whose length is {}",
                reply.len
            )
        }
        None if reply.fault == NOT_OPEN => format!(in alloc;
            "the handle, coder or reader isn't open"
        ),
        None if reply.fault == BIT_OUT_OF_RANGE => format!(in alloc;
            "the bit is past the stream's {} bits or, with padding, isn't a multiple of 8",
            reply.place
        ),
        None => format!(in alloc; "no fault has the number {}", reply.fault),
    }
}

/// Writes to a buffer as much of a text as fits before a zero, and the zero after it. Returns the
/// length of the text.
pub(crate) fn put_text(text: &[u8], out: &mut [u8]) -> usize
    ensures { PutsText out.old out.new result }
{
    let Some(last) = out.len().checked_sub(1) else {
        return text.len();
    };
    let shown = last.min(text.len());
    out[..shown].copy_from_slice(&text[..shown]);
    out[shown] = 0;
    text.len()
}
