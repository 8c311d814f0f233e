//! What is read and written if a device of an edit fails.

use crate::asserts::same_at;
use crate::devices::{After, Basin, Pieces};
use crate::edits::{ONE_CHANGED, RAMP, ZEROS, ample};
use aec_bits::{Sink, Source};
use aec_engine::{EditFault, edit};
use aec_params::{Fault, Params, Settings};
use std::alloc::Global;
use std::test::Fail;

// Edits with these devices. Returns the result; how often script, source and sink failed, and how
// often `begin` was called; and the bytes that the sink took.
fn left(
    alloc: Global,
    mut script: Pieces<'_>,
    mut source: Pieces<'_>,
    mut sink: Basin,
) -> Result<(Result<(), EditFault>, [u64; 4], Vec<u8>), Fail> {
    let params = Params::new(Settings::USUAL)?;
    let limits = ample()?;
    let answer = edit(
        alloc,
        &params,
        limits,
        None,
        &mut script,
        &mut source,
        &mut sink,
    );
    let counts = [
        script.failures(),
        source.failures(),
        sink.failures(),
        sink.begins(),
    ];
    Ok((answer, counts, sink.bytes))
}

// A device fails: the script after so many bytes, so that the stream isn't read; the stream; or the
// sink, which takes one byte a call, or fails at `begin` (`None`). An empty edit needs a sink that
// begins, too. A row: the script, and what its source does after it; the same of the stream; how
// many bytes the sink takes; the fault; how often script, stream and sink failed, and how often
// `begin` was called.
const FAILED: [(
    (&[u8], After),
    (&[u8], After),
    Option<usize>,
    Fault,
    [u64; 4],
); 18] = [
    (
        (b"", After::Fails),
        (&[], After::Fails),
        None,
        Fault::Read,
        [1, 0, 0, 0],
    ),
    (
        (b"a", After::Fails),
        (&[], After::Fails),
        None,
        Fault::Read,
        [1, 0, 0, 0],
    ),
    (
        (b"append", After::Fails),
        (&[], After::Fails),
        None,
        Fault::Read,
        [1, 0, 0, 0],
    ),
    (
        (b"append 1", After::Fails),
        (&[], After::Fails),
        None,
        Fault::Read,
        [1, 0, 0, 0],
    ),
    (
        (b"append 1", After::Ends),
        (&[], After::Fails),
        None,
        Fault::Read,
        [0, 1, 0, 0],
    ),
    (
        (b"append 1", After::Ends),
        (&[0x20], After::Fails),
        None,
        Fault::Read,
        [0, 1, 0, 0],
    ),
    (
        (b"append 1", After::Ends),
        (&[0x20, 0x09], After::Fails),
        None,
        Fault::Read,
        [0, 1, 0, 0],
    ),
    (
        (b"append 1", After::Ends),
        (&[0x20, 0x09, 0x24], After::Fails),
        None,
        Fault::Read,
        [0, 1, 0, 0],
    ),
    (
        (b"append 1", After::Ends),
        (&RAMP, After::Fails),
        None,
        Fault::Read,
        [0, 1, 0, 0],
    ),
    (
        (b"overwrite 20 1", After::Ends),
        (&ZEROS, After::Ends),
        None,
        Fault::Write,
        [0, 0, 1, 1],
    ),
    (
        (b"overwrite 20 1", After::Ends),
        (&ZEROS, After::Ends),
        Some(0),
        Fault::Write,
        [0, 0, 1, 1],
    ),
    (
        (b"overwrite 20 1", After::Ends),
        (&ZEROS, After::Ends),
        Some(1),
        Fault::Write,
        [0, 0, 1, 1],
    ),
    (
        (b"overwrite 20 1", After::Ends),
        (&ZEROS, After::Ends),
        Some(2),
        Fault::Write,
        [0, 0, 1, 1],
    ),
    (
        (b"overwrite 20 1", After::Ends),
        (&ZEROS, After::Ends),
        Some(3),
        Fault::Write,
        [0, 0, 1, 1],
    ),
    (
        (b"overwrite 20 1", After::Ends),
        (&ZEROS, After::Ends),
        Some(4),
        Fault::Write,
        [0, 0, 1, 1],
    ),
    (
        (b"overwrite 20 1", After::Ends),
        (&ZEROS, After::Ends),
        Some(5),
        Fault::Write,
        [0, 0, 1, 1],
    ),
    (
        (b"overwrite 20 1", After::Ends),
        (&ZEROS, After::Ends),
        Some(6),
        Fault::Write,
        [0, 0, 1, 1],
    ),
    (
        (b"", After::Ends),
        (&[], After::Ends),
        None,
        Fault::Write,
        [0, 0, 1, 1],
    ),
];

#[test]
fn devices_of_an_edit_fail(rt: HostRuntime) -> Result<(), Fail> {
    for (row, (script, source, room, fault, wanted)) in FAILED.iter().enumerate() {
        let sink = match room {
            Some(room) => Basin::of(rt.alloc(), 1, *room),
            None => Basin::shut(rt.alloc()),
        };
        let script = Pieces::of(script.0, 3, script.1);
        let source = Pieces::of(source.0, 1, source.1);
        let (answer, counts, bytes) = left(rt.alloc(), script, source, sink)?;
        same_at(&rt, answer, Err(EditFault::Plain(*fault)), &row);
        same_at(&rt, counts, *wanted, &row);
        let front = ONE_CHANGED.get(..room.unwrap_or(0));
        same_at(&rt, Some(bytes.as_slice()), front, &row);
    }
    Ok(())
}
