//! Applies edits, beginning with no samples, writes the resulting stream, and reads its samples
//! back.

ghost use Rattle.std.specs.Prelude.{◌≡◌, ◌≢◌, ◌<◌, ◌≤◌, ◌⊎◌, ℕ, List, [], length, vec_capacity, Err, IfOk, OnOk, IfErr, OnErr};
ghost use Rattle.std.specs.Io.KnownBytes.{Appends, Keeps};
ghost use Rattle.aec_params.specs.declared.fault.Fault.TheVariants.{Memory, Write as WriteFault};
ghost use Rattle.aec_params.specs.Codewords.{bytes_of};
ghost use Rattle.aec_bits.specs.Codec.{code_of};
ghost use Rattle.aec_bits.specs.Devices.{AppendsFront};
ghost use Rattle.aec_edit.specs.Runs.{AnswersAll, all_left};
ghost use Rattle.aec_edit.specs.Workspace.{HasOneReading};
ghost use Rattle.aec_edit.specs.Left.{IsLeftBy};
ghost use Rattle.aec_edit.specs.Unchanged.{IsOnlyRead};
ghost use Rattle.aec_params.specs.Edits.{touched_intervals};
ghost use Rattle.aec_params.specs.Limits.{most_samples};
ghost use Rattle.aec_edit.specs.declared.outcome.Outcome.{Outcome as OutcomeOf};

use crate::outcome::Outcome;
use crate::workspace::Workspace;
use aec_bits::{Codec, Sink};
use aec_params::{Edit, Fault};
use std::alloc::Global;

/// The result of `write_edited`.
#[derive(Debug, Drop)]
pub struct Edited<C: Codec + Drop> {
    /// The outcome of each edit.
    pub outcomes: Vec<Outcome>,
    /// The number of bits in the stream.
    pub bits: u64,
    /// All samples that the stream decodes to.
    pub samples: Vec<i64>,
    /// The codec that coded the edits, with its count of calls.
    pub codec: C,
}

/// Applies edits, beginning with no samples, and writes the resulting stream.
///
/// Each edit has an outcome that is permitted for the samples that earlier edits left and for the
/// codec's count of calls then. The written bytes are, bit for bit, the code of the samples that
/// the accepted edits leave, and of no other list of as many samples. Fails with `Memory` only if
/// there are edits; nothing is written then. Fails with `Write` only if the sink has failed; the
/// sink has then taken a prefix of the stream of some permitted outcomes. Doesn't call `begin`. If
/// the sink's bytes are unknown, nothing is said about what is written.
pub fn write_edited<C: Codec + Drop, W: Sink>(
    alloc: Global,
    codec: C,
    limit: u64,
    edits: &[Edit],
    sink: &mut W,
) -> Result<Edited<C>, Fault>
    requires { limit ≤ most_samples }
    ensures answers { IfOk result (λ edited. AnswersAll (C.format codec) limit [] (C.called codec)
        edits.now edited.outcomes.items (C.called edited.codec)) }
    ensures format { IfOk result (λ edited. C.format edited.codec ≡ C.format codec) }
    ensures stream { IfOk result
        (λ edited. let left = all_left [] edits.now edited.outcomes.items in
        Appends (W.taken sink.old) (W.taken sink.new) (bytes_of (code_of (C.format codec) left))) }
    ensures bits { IfOk result (λ edited. let left = all_left [] edits.now edited.outcomes.items in
        edited.bits ≡ length (code_of (C.format codec) left)) }
    ensures samples { IfOk result
        (λ edited. edited.samples.items ≡ all_left [] edits.now edited.outcomes.items) }
    ensures reading { IfOk result
        (λ edited. let left = all_left [] edits.now edited.outcomes.items in
        HasOneReading (C.format codec) (bytes_of (code_of (C.format codec) left))
        edited.samples.items) }
    ensures fault { IfErr result (λ fault. (fault ≡ Memory) ⊎ (fault ≡ WriteFault)) }
    ensures memory { result ≡ Err Memory
        → (0 < length edits.now) × Keeps (W.taken sink.old) (W.taken sink.new) }
    ensures front { result ≡ Err WriteFault
        → (W.failed sink.new ≡ 1) × ((done : List OutcomeOf) × (calls : ℕ)
        × AnswersAll (C.format codec) limit [] (C.called codec) edits.now done calls
        × AppendsFront (W.taken sink.old) (W.taken sink.new)
        (bytes_of (code_of (C.format codec) (all_left [] edits.now done)))) }
    ensures begun { W.begun sink.new ≡ W.begun sink.old }
    ensures order { W.mark sink.new ≡ W.mark sink.old }
    ensures failures { result ≢ Err WriteFault → W.failed sink.new ≡ W.failed sink.old }
{
    let mut outcomes = Vec::new(alloc);
    let mut workspace = edit_from_nothing(alloc, codec, limit, edits, &mut outcomes)?;
    let samples = read_back(alloc, &mut workspace)?;
    workspace.write_to(sink)?;
    Ok(Edited {
        outcomes,
        bits: workspace.stream_bits(),
        samples,
        codec: workspace.into_codec(),
    })
}

/// Applies edits to an empty workspace, and appends the outcome of each to `outcomes`. Fails with
/// `Memory` only if `outcomes` has room for fewer outcomes than there are edits.
fn edit_from_nothing<C: Codec + Drop>(
    alloc: Global,
    codec: C,
    limit: u64,
    edits: &[Edit],
    outcomes: &mut Vec<Outcome>,
) -> Result<Workspace<C>, Fault>
    requires limit { limit ≤ most_samples }
    requires none { outcomes.old.items ≡ [] }
    ensures ok { IfOk result
        (IsLeftBy C.format C.called codec limit edits.now outcomes.new.items) }
    ensures full { OnErr result (vec_capacity outcomes.old < length edits.now) }
    ensures fault { IfErr result (λ e. e ≡ Memory) }
{
    let mut workspace = Workspace::new(alloc, codec, limit);
    workspace.run(edits, outcomes)?;
    Ok(workspace)
}

/// Returns all samples of a workspace, decoded from their code. Fails with `Memory` if an
/// allocation fails, but never if there are no samples.
fn read_back<C: Codec>(alloc: Global, workspace: &mut Workspace<C>) -> Result<Vec<i64>, Fault>
    ensures ok { IfOk result (λ samples. samples.items ≡ workspace.old.samples) }
    ensures reading { IfOk result (λ samples. HasOneReading (C.format workspace.old.codec)
        (bytes_of (code_of (C.format workspace.old.codec) workspace.old.samples)) samples.items) }
    ensures fault { IfErr result (λ e. (e ≡ Memory) × (0 < length workspace.old.samples)) }
    ensures read { IsOnlyRead C.format C.called C.read
        (length (touched_intervals (C.format workspace.old.codec).most
        0 (length workspace.old.samples)))
        workspace.old workspace.new }
{
    let count = workspace.count();
    workspace.range(alloc, 0, count)
}
