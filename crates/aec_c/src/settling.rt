//! Writes a result of bytes or of samples to a buffer.

ghost use Rattle.std.specs.Prelude.{◌≡◌, ◌≤◌, Ok, length};
ghost use Rattle.aec_engine.specs.Transfers.{answer_by};
ghost use Rattle.aec_engine.specs.Buffers.{left_of};
ghost use Rattle.aec_c.specs.Replies.{over_front, reply_to};

use crate::reply::{Reply, answered, refused, too_long};
use aec_params::Fault;

/// Writes a result to the front of a buffer that has room for it.
fn put_front<T: Copy>(answer: &[T], out: &mut [T])
    requires { length answer.now ≤ length out.old }
    ensures { out.new ≡ over_front answer.now out.old }
{
    out[..answer.len()].copy_from_slice(answer);
}

/// Writes a result to the front of a buffer if there is room for all of it, and returns the reply.
pub(crate) fn settle_slice<T: Copy>(answer: &[T], out: &mut [T]) -> Reply
    ensures left { out.new ≡ left_of (Ok answer.now) out.old }
    ensures reply { result ≡ reply_to (Ok answer.now) (length out.old) }
{
    let len = answer.len();
    if len <= out.len() {
        put_front(answer, out);
        answered(len as u64)
    } else {
        too_long(len as u64)
    }
}

/// Writes a result to the front of a buffer as `settle_slice` does, or returns the reply for a
/// refusal, which leaves the buffer unchanged.
pub(crate) fn settle<T: Copy>(answer: Result<Vec<T>, Fault>, out: &mut [T]) -> Reply
    ensures left { out.new ≡ left_of (answer_by (λ made. made.items) answer) out.old }
    ensures reply { result ≡ reply_to (answer_by (λ made. made.items) answer) (length out.old) }
{
    match answer {
        Ok(made) => settle_slice(&made, out),
        Err(fault) => refused(fault),
    }
}
