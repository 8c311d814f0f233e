//! The reply of a call from C.

ghost use Rattle.std.specs.Prelude.{◌≡◌};
ghost use Rattle.aec_c.specs.HandleCalls.{not_open};
ghost use Rattle.aec_c.specs.Replies.{done, wants_room, refused_for, reply_of};

use aec_params::Fault;

/// How a call ended. `fault` 0: success; the call's comment says what `len` counts. 18: `out` is
/// too short; the result has `len` bytes or samples. Otherwise: the number of a refusal; `place` is
/// the bit, index, line, count or limit that it names.
#[repr(C)]
#[derive(Clone, Copy)]
pub struct Reply {
    pub fault: u32,
    pub place: u64,
    pub len: u64,
}

/// The number of the reply to a call whose result is longer than the buffer.
pub(crate) const NO_ROOM: u32 = 18;

/// The number of the reply to a call on a handle, coder or reader that isn't open.
pub(crate) const NOT_OPEN: u32 = 19;

/// The number of the reply to a call that is to begin at a bit where it can't.
pub(crate) const BIT_OUT_OF_RANGE: u32 = 20;

/// Returns the reply to a call that succeeded.
pub(crate) fn answered(len: u64) -> Reply
    ensures { result ≡ done len }
{
    Reply {
        fault: 0,
        place: 0,
        len,
    }
}

/// Returns the reply to a call whose result of `len` bytes or samples is longer than the buffer.
pub(crate) fn too_long(len: u64) -> Reply
    ensures { result ≡ wants_room len }
{
    Reply {
        fault: NO_ROOM,
        place: 0,
        len,
    }
}

/// Returns the reply to a call on a handle, coder or reader that isn't open.
pub(crate) fn not_open() -> Reply
    ensures { result ≡ not_open }
{
    Reply {
        fault: NOT_OPEN,
        place: 0,
        len: 0,
    }
}

/// Returns the reply for a refusal: its number, and the bit, index, line, count or limit that it
/// names.
pub(crate) fn refused(fault: Fault) -> Reply
    ensures { result ≡ refused_for fault }
{
    let (fault, place) = match fault {
        Fault::BitsPerSample => (1, 0),
        Fault::BlockSize => (2, 0),
        Fault::Interval => (3, 0),
        Fault::RestrictedWidth => (4, 0),
        Fault::SampleRange { index } => (5, index),
        Fault::Truncated { bit } => (6, bit),
        Fault::ValueTooLarge { bit } => (7, bit),
        Fault::RunTooLong { bit } => (8, bit),
        Fault::TooManySamples { limit } => (9, limit),
        Fault::OutOfRange { count } => (10, count),
        Fault::Spent => (11, 0),
        Fault::Memory => (12, 0),
        Fault::Read => (13, 0),
        Fault::Write => (14, 0),
        Fault::Script { line } => (15, line),
        Fault::StreamTooLong { limit } => (16, limit),
        Fault::EvenBlockSize => (17, 0),
    };
    Reply {
        fault,
        place,
        len: 0,
    }
}

/// Returns the reply for a result of so many bytes, or for a refusal. `room` is the length of the
/// buffer.
pub(crate) fn reply_of(answer: Result<u64, Fault>, room: usize) -> Reply
    ensures { result ≡ reply_of answer room }
{
    match answer {
        Ok(len) if len <= room as u64 => answered(len),
        Ok(len) => too_long(len),
        Err(fault) => refused(fault),
    }
}
