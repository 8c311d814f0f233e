//! Edits a coded stream by a script, in memory.

ghost use Rattle.std.specs.Prelude.{◌≡◌, ◌⊎◌, Ok, Err, Some, IfOk, IfErr, length};
ghost use Rattle.aec_params.specs.declared.fault.Fault.TheVariants.{Memory, Write as WriteFault};
ghost use Rattle.aec_params.specs.Params.{IsAllowed};
ghost use Rattle.aec_engine.specs.declared.scripts.EditFault.TheVariants.{Plain};
ghost use Rattle.aec_engine.specs.Transfers.{answer_by};
ghost use Rattle.aec_engine.specs.Buffers.{left_of};
ghost use Rattle.aec_c.specs.Calls.{settings_of, count_of};
ghost use Rattle.aec_c.specs.Replies.{reply_to};
ghost use Rattle.aec_c.specs.StreamEdits.{IsEditing, CodesSoMany, plain_answer, line_of};
ghost use Rattle.aec_c.specs.ScriptCalls.{none_applied};

use crate::answers::{limits, params_of};
use crate::options::{Options, count_of};
use crate::reply::{Reply, refused};
use crate::settling::settle_slice;
use aec_bits::{Source, WriteSink};
use aec_engine::{EditFault, edit_at_once};
use aec_interval::AecCodec;
use aec_params::{Fault, Params};
use std::alloc::Global;
use std::io::Read;

/// How a call that applies a script ended: its reply; the line of the script whose edit is refused,
/// or 0; and how many samples there are after the edits, or 0.
#[repr(C)]
#[derive(Clone, Copy)]
pub struct EditReply {
    pub reply: Reply,
    pub line: u64,
    pub samples: u64,
}

/// The edited stream, and how many samples it codes.
#[derive(Drop)]
pub(crate) struct EditedStream {
    bytes: Vec<u8>,
    samples: u64,
}

/// Bytes in memory as a source, which never fails.
#[derive(Drop)]
struct ByteSource<'a> {
    rest: &'a [u8],
}

impl<'a> ByteSource<'a> {
    /// Returns a source of these bytes.
    fn new(bytes: &'a [u8]) -> ByteSource<'a>
        ensures { ⟦<ByteSource<'a> as Source>⟧.left result ≡ Some bytes.now }
    {
        ByteSource { rest: bytes }
    }
}

impl<'a> Source for ByteSource<'a> {
    ghost left = { λ s. Some s.rest.now };

    ghost failed = { λ _. 0 };

    fn take(&mut self, buf: &mut [u8]) -> Result<usize, Fault> {
        Ok(self.rest.read(buf).unwrap_or(0))
    }

    fn failures(&self) -> u64 {
        0
    }
}

/// Returns `Memory` for `Write`: a write to a vector fails only for lack of memory.
fn memory_for_write(fault: EditFault) -> EditFault
    ensures memory { fault ≡ Plain WriteFault → result ≡ Plain Memory }
    ensures other { (result ≡ fault) ⊎ (fault ≡ Plain WriteFault) }
{
    match fault {
        EditFault::Plain(Fault::Write) => EditFault::Plain(Fault::Memory),
        other => other,
    }
}

/// Edits coded bytes by a script, and returns the resulting stream.
fn edited_bytes(
    alloc: Global,
    params: &Params,
    count: Option<u64>,
    script: &[u8],
    bytes: &[u8],
) -> Result<EditedStream, EditFault>
    requires allowed { IsAllowed params.now }
    ensures ok { IfOk result (λ made. IsEditing params.now count script.now bytes.now
        (Ok made.bytes.items)) }
    ensures counted { IfOk result (λ made. CodesSoMany params.now made.bytes.items made.samples) }
    ensures refuses { IfErr result (λ fault. IsEditing params.now count script.now bytes.now
        (Err fault)) }
{
    let codec = AecCodec::new(alloc, *params);
    let mut from = ByteSource::new(script);
    let mut source = ByteSource::new(bytes);
    let mut sink = WriteSink::new(Vec::new(alloc));
    match edit_at_once(
        alloc,
        codec,
        params,
        limits(),
        count,
        &mut from,
        &mut source,
        &mut sink,
    ) {
        Ok(workspace) => Ok(EditedStream {
            samples: workspace.count(),
            bytes: sink.into_inner(),
        }),
        Err(fault) => Err(memory_for_write(fault)),
    }
}

/// Edits coded bytes by a script and C's options, as `edited_bytes` does.
pub(crate) fn edited_stream(
    alloc: Global,
    options: &Options,
    count: u64,
    script: &[u8],
    bytes: &[u8],
) -> Result<EditedStream, EditFault>
    ensures ok { IfOk result (λ made. IsEditing (settings_of options.now) (count_of count)
        script.now bytes.now (Ok made.bytes.items)) }
    ensures counted { IfOk result (λ made. CodesSoMany (settings_of options.now) made.bytes.items
        made.samples) }
    ensures refuses { IfErr result (λ fault. IsEditing (settings_of options.now) (count_of count)
        script.now bytes.now (Err fault)) }
{
    match params_of(options) {
        Ok(params) => edited_bytes(alloc, &params, count_of(count), script, bytes),
        Err(fault) => Err(EditFault::Plain(fault)),
    }
}

/// Returns the reply to a script that is refused, with the line of the edit if one edit is.
pub(crate) fn refused_edit(fault: EditFault) -> EditReply
    ensures { result ≡ none_applied fault }
{
    let (line, fault) = match fault {
        EditFault::Plain(fault) => (0, fault),
        EditFault::Line { line, fault } => (line, fault),
    };
    EditReply {
        reply: refused(fault),
        line,
        samples: 0,
    }
}

/// Writes an edited stream to the front of a buffer if there is room for all of it, and returns the
/// reply. A refusal leaves the buffer unchanged.
pub(crate) fn settle_edited(answer: Result<EditedStream, EditFault>, out: &mut [u8]) -> EditReply
    ensures left { out.new ≡ left_of
        (plain_answer (answer_by (λ made. made.bytes.items) answer)) out.old }
    ensures reply { result.reply ≡ reply_to
        (plain_answer (answer_by (λ made. made.bytes.items) answer)) (length out.old) }
    ensures line { result.line ≡ line_of (answer_by (λ made. made.bytes.items) answer) }
    ensures samples { IfOk answer (λ made. result.samples ≡ made.samples) }
    ensures none { IfErr answer (λ _. result.samples ≡ 0) }
{
    match answer {
        Ok(made) => EditReply {
            reply: settle_slice(&made.bytes, out),
            line: 0,
            samples: made.samples,
        },
        Err(fault) => refused_edit(fault),
    }
}
