//! Workspaces with the codec of octets, four in an interval: a stream is the bytes of its samples.

use crate::asserts::same;
use crate::steps::expect_steps;
use aec_bits::laws::Octets;
use aec_bits::{Codec, Sink, WriteSink};
use aec_edit::{Outcome, Workspace, write_edited};
use aec_params::{Edit, Fault, Samples};
use std::alloc::{AllocError, Global};
use std::test::Fail;

/// Returns an empty workspace whose codec's count begins at `calls`.
fn workspace(alloc: Global, calls: u64, limit: u64) -> Workspace<Octets> {
    Workspace::new(alloc, Octets::new(alloc, calls), limit.min(1 << 32))
}

// Where the codec's count begins, the limit, and the steps of a workspace that is empty at first.
const TABLES: [(u64, u64, &str); 10] = [
    (
        0,
        8,
        "\
append 1 2 3 4 5 | 2 | 01 02 03 04 05 | 40 0 32 | 0
overwrite 3 9 10 | 2 | 01 02 03 09 0A | 40 0 32 | 1
append 6         | 1 | 01 02 03 09 0A 06 | 48 0 32 | 1
truncate 4       | 0 | 01 02 03 09 | 32 0 | 0
truncate 3       | 1 | 01 02 03 | 24 0 | 1
overwrite 0 256  | sample 0 is out of range | 01 02 03 | 24 0 | 0
append 1*6       | more than 8 samples | 01 02 03 | 24 0 | 0",
    ),
    // Overwrites, appends and truncations that fit, and others that don't.
    (
        0,
        8,
        "\
append 1 2 3 4 5 | 2 | 01 02 03 04 05 | 40 0 32 | 0
overwrite 3 9 10 | 2 | 01 02 03 09 0A | 40 0 32 | 1
overwrite 4 7 8  | position outside the 5 samples | 01 02 03 09 0A | 40 0 32 | 0
overwrite 0 256  | sample 0 is out of range | 01 02 03 09 0A | 40 0 32 | 0
append 1*4       | more than 8 samples | 01 02 03 09 0A | 40 0 32 | 0
append 6         | 1 | 01 02 03 09 0A 06 | 48 0 32 | 1
truncate 7       | position outside the 6 samples | 01 02 03 09 0A 06 | 48 0 32 | 0
truncate 4       | 0 | 01 02 03 09 | 32 0 | 0
overwrite 4      | 0 | 01 02 03 09 | 32 0 | 0
truncate 3       | 1 | 01 02 03 | 24 0 | 1
range 0 3        | 1 2 3 | 01 02 03 | 24 0 | 1",
    ),
    // One call is left, then none. Edits that code nothing are applied; the limit is judged before
    // calls.
    (
        18446744073709551614,
        8,
        "\
append 1*5    | coder calls are spent | | 0 | 0
append 1*4    | 1 | 01*4 | 32 0 | 0
overwrite 0 2 | coder calls are spent | 01*4 | 32 0 | 0
overwrite 4   | 0 | 01*4 | 32 0 | 0
truncate 4    | 0 | 01*4 | 32 0 | 0
truncate 0    | 0 | | 0 | 0
append 1*9    | more than 8 samples | | 0 | 0",
    ),
    // The same, with a truncation that keeps samples of an interval, and an append to a list that
    // isn't empty.
    (
        18446744073709551614,
        8,
        "\
append 1*5    | coder calls are spent | | 0 | 0
append 1*4    | 1 | 01*4 | 32 0 | 0
overwrite 0 2 | coder calls are spent | 01*4 | 32 0 | 0
overwrite 4   | 0 | 01*4 | 32 0 | 0
truncate 4    | 0 | 01*4 | 32 0 | 0
truncate 3    | coder calls are spent | 01*4 | 32 0 | 0
append 1*9    | more than 8 samples | 01*4 | 32 0 | 0
truncate 0    | 0 | | 0 | 0",
    ),
    // Edits at the ends of lists of 0, 6, 8 and 9 samples.
    (
        0,
        10,
        "\
overwrite 0   | 0 | | 0 | 0
overwrite 1   | position outside the 0 samples | | 0 | 0
overwrite 0 1 | position outside the 0 samples | | 0 | 0
append        | 0 | | 0 | 0
truncate 0    | 0 | | 0 | 0
truncate 1    | position outside the 0 samples | | 0 | 0
append 1 2 3 4 5 6 | 2 | 01 02 03 04 05 06 | 48 0 32 | 0
overwrite 6   | 0 | 01 02 03 04 05 06 | 48 0 32 | 0
overwrite 7   | position outside the 6 samples | 01 02 03 04 05 06 | 48 0 32 | 0
overwrite 18446744073709551615 1 | position outside the 6 samples | 01 02 03 04 05 06 | 48 0 32 | 0
truncate 18446744073709551615 | position outside the 6 samples | 01 02 03 04 05 06 | 48 0 32 | 0
append 7 8    | 1 | 01 02 03 04 05 06 07 08 | 64 0 32 | 1
overwrite 0 9*8 | 2 | 09*8 | 64 0 32 | 0
overwrite 2 1 1 | 1 | 09 09 01 01 09*4 | 64 0 32 | 1
overwrite 7 2 | 1 | 09 09 01 01 09*3 02 | 64 0 32 | 1
overwrite 3 3 3 | 2 | 09 09 01 03 03 09 09 02 | 64 0 32 | 2
overwrite 5 4 | 1 | 09 09 01 03 03 04 09 02 | 64 0 32 | 1
append 5      | 1 | 09 09 01 03 03 04 09 02 05 | 72 0 32 64 | 0
append 1 -1   | more than 10 samples | 09 09 01 03 03 04 09 02 05 | 72 0 32 64 | 0
overwrite 0 0 -1 | sample 1 is out of range | 09 09 01 03 03 04 09 02 05 | 72 0 32 64 | 0
truncate 6    | 1 | 09 09 01 03 03 04 | 48 0 32 | 1
truncate 4    | 0 | 09 09 01 03 | 32 0 | 0
truncate 0    | 0 | | 0 | 0
append 6 7    | 1 | 06 07 | 16 0 | 0",
    ),
    (
        0,
        0,
        "append | 0 | | 0 | 0\nappend 1 | more than 0 samples | | 0 | 0\ntruncate 0 | 0 | | 0 | 0",
    ),
    // Three intervals take the last calls. Overwrites without values need none, at each place.
    (
        18446744073709551612,
        10,
        "\
append 1 2 3 4 5 6 7 8 9 | 3 | 01 02 03 04 05 06 07 08 09 | 72 0 32 64 | 0
overwrite 0  | 0 | 01 02 03 04 05 06 07 08 09 | 72 0 32 64 | 0
overwrite 1  | 0 | 01 02 03 04 05 06 07 08 09 | 72 0 32 64 | 0
overwrite 2  | 0 | 01 02 03 04 05 06 07 08 09 | 72 0 32 64 | 0
overwrite 3  | 0 | 01 02 03 04 05 06 07 08 09 | 72 0 32 64 | 0
overwrite 4  | 0 | 01 02 03 04 05 06 07 08 09 | 72 0 32 64 | 0
overwrite 5  | 0 | 01 02 03 04 05 06 07 08 09 | 72 0 32 64 | 0
overwrite 6  | 0 | 01 02 03 04 05 06 07 08 09 | 72 0 32 64 | 0
overwrite 7  | 0 | 01 02 03 04 05 06 07 08 09 | 72 0 32 64 | 0
overwrite 8  | 0 | 01 02 03 04 05 06 07 08 09 | 72 0 32 64 | 0
overwrite 9  | 0 | 01 02 03 04 05 06 07 08 09 | 72 0 32 64 | 0
overwrite 10 | position outside the 9 samples | 01 02 03 04 05 06 07 08 09 | 72 0 32 64 | 0
overwrite 18446744073709551615 | position outside the 9 samples | 01 02 03 04 05 06 07 08 09 | 72 0 32 64 | 0",
    ),
    (
        0,
        48,
        "\
range 0 0  | | | 0 | 0
range 0 1  | position outside the 0 samples | | 0 | 0
append 0 1 2 3 4 5 6 7 8 9 10 | 3 | 00 01 02 03 04 05 06 07 08 09 0A | 88 0 32 64 | 0
range 3 3  | 3 4 5 | 00 01 02 03 04 05 06 07 08 09 0A | 88 0 32 64 | 2
range 4 4  | 4 5 6 7 | 00 01 02 03 04 05 06 07 08 09 0A | 88 0 32 64 | 1
range 10 1 | 10 | 00 01 02 03 04 05 06 07 08 09 0A | 88 0 32 64 | 1
range 0 11 | 0 1 2 3 4 5 6 7 8 9 10 | 00 01 02 03 04 05 06 07 08 09 0A | 88 0 32 64 | 3
range 11 0 | | 00 01 02 03 04 05 06 07 08 09 0A | 88 0 32 64 | 0
range 5 0  | | 00 01 02 03 04 05 06 07 08 09 0A | 88 0 32 64 | 0
range 10 2 | position outside the 11 samples | 00 01 02 03 04 05 06 07 08 09 0A | 88 0 32 64 | 0
range 12 0 | position outside the 11 samples | 00 01 02 03 04 05 06 07 08 09 0A | 88 0 32 64 | 0
range 18446744073709551615 2 | position outside the 11 samples | 00 01 02 03 04 05 06 07 08 09 0A | 88 0 32 64 | 0
range 2 18446744073709551615 | position outside the 11 samples | 00 01 02 03 04 05 06 07 08 09 0A | 88 0 32 64 | 0",
    ),
    // Insertions and removals of whole intervals and of less, between intervals, within them, and
    // up to the end.
    (
        0,
        18,
        "\
append 1 2 3 4 5 6 7 8 9 10 | 3 | 01 02 03 04 05 06 07 08 09 0A | 80 0 32 64 | 0
insert 4 11 12 13 14 | 1 | 01 02 03 04 0B 0C 0D 0E 05 06 07 08 09 0A | 112 0 32 64 96 | 0
insert 2 21 22 23 24 | 2 | 01 02 15 16 17 18 03 04 0B 0C 0D 0E 05 06 07 08 09 0A | 144 0 32 64 96 128 | 1
remove 5 8   | 1 | 01 02 15 16 17 06 07 08 09 0A | 80 0 32 64 | 2
remove 2 3   | 2 | 01 02 06 07 08 09 0A | 56 0 32 | 3
remove 3 4   | 1 | 01 02 06 | 24 0 | 1
insert 3 7 8 9 10 11 | 2 | 01 02 06 07 08 09 0A 0B | 64 0 32 | 1
insert 8 1 2 3 4 | 1 | 01 02 06 07 08 09 0A 0B 01 02 03 04 | 96 0 32 64 | 0
insert 12 5*7 | more than 18 samples | 01 02 06 07 08 09 0A 0B 01 02 03 04 | 96 0 32 64 | 0
remove 0 12  | 0 | | 0 | 0
insert 0 1 2 3 4 5 | 2 | 01 02 03 04 05 | 40 0 32 | 0
insert 0 6   | 2 | 06 01 02 03 04 05 | 48 0 32 | 2
remove 0 4   | 0 | 04 05 | 16 0 | 0
remove 0 2   | 0 | | 0 | 0",
    ),
    // Three calls are left, then one, then none. An edit's place is judged before the limit, the
    // limit before the values, the values before calls.
    (
        18446744073709551612,
        16,
        "\
append 1 2 3 4 5 6 7 8 | 2 | 01 02 03 04 05 06 07 08 | 64 0 32 | 0
insert 3 9   | coder calls are spent | 01 02 03 04 05 06 07 08 | 64 0 32 | 0
insert 8 9   | 1 | 01 02 03 04 05 06 07 08 09 | 72 0 32 64 | 0
insert 4     | 0 | 01 02 03 04 05 06 07 08 09 | 72 0 32 64 | 0
insert 10 256*8 | position outside the 9 samples | 01 02 03 04 05 06 07 08 09 | 72 0 32 64 | 0
insert 4 256*8 | more than 16 samples | 01 02 03 04 05 06 07 08 09 | 72 0 32 64 | 0
insert 4 1 256 | sample 1 is out of range | 01 02 03 04 05 06 07 08 09 | 72 0 32 64 | 0
insert 4 5*4 | coder calls are spent | 01 02 03 04 05 06 07 08 09 | 72 0 32 64 | 0
insert 9 5   | coder calls are spent | 01 02 03 04 05 06 07 08 09 | 72 0 32 64 | 0
remove 2 4   | coder calls are spent | 01 02 03 04 05 06 07 08 09 | 72 0 32 64 | 0
remove 9 0   | 0 | 01 02 03 04 05 06 07 08 09 | 72 0 32 64 | 0
remove 4 4   | 0 | 01 02 03 04 09 | 40 0 32 | 0
remove 4 1   | 0 | 01 02 03 04 | 32 0 | 0
remove 3 1   | coder calls are spent | 01 02 03 04 | 32 0 | 0
remove 1 4   | position outside the 4 samples | 01 02 03 04 | 32 0 | 0
remove 5 0   | position outside the 4 samples | 01 02 03 04 | 32 0 | 0
remove 2 18446744073709551615 | position outside the 4 samples | 01 02 03 04 | 32 0 | 0
remove 18446744073709551615 18446744073709551615 | position outside the 4 samples | 01 02 03 04 | 32 0 | 0
insert 18446744073709551615 1 | position outside the 4 samples | 01 02 03 04 | 32 0 | 0
remove 0 4   | 0 | | 0 | 0
insert 0     | 0 | | 0 | 0
remove 0 0   | 0 | | 0 | 0
insert 1     | position outside the 0 samples | | 0 | 0
remove 0 1   | position outside the 0 samples | | 0 | 0
insert 0 1   | coder calls are spent | | 0 | 0",
    ),
];

#[test]
fn octets_answer_step_by_step(rt: HostRuntime) -> Result<(), Fail> {
    let alloc = rt.alloc();
    for (calls, limit, table) in TABLES {
        expect_steps(&rt, alloc, &mut workspace(alloc, calls, limit), table)?;
    }
    Ok(())
}

fn overwrite(alloc: Global, first: u64, value: i64) -> Result<Edit, AllocError> {
    Ok(Edit::Overwrite {
        first,
        values: Samples::new([value].to_vec(alloc)?),
    })
}

fn zeros(alloc: Global, len: u64) -> Result<Edit, AllocError> {
    Ok(Edit::Append {
        values: Samples::new(vec![in alloc; 0i64; len as usize]?),
    })
}

#[test]
fn writes_what_edits_leave(rt: HostRuntime) -> Result<(), Fail> {
    let alloc = rt.alloc();
    let mut sink = WriteSink::new(Vec::from_slice(alloc, &[255u8])?);
    let edits = [
        zeros(alloc, 5)?,
        overwrite(alloc, 5, 1)?,
        overwrite(alloc, 4, 7)?,
    ];
    let edited = write_edited(alloc, Octets::new(alloc, 10), 8, &edits, &mut sink)?;
    let fault = Fault::OutOfRange { count: 5 };
    let outcomes = [
        Outcome::Done { coded: 2 },
        Outcome::Refused { fault },
        Outcome::Done { coded: 1 },
    ];
    same(&rt, edited.outcomes.as_slice(), outcomes.as_slice());
    same(&rt, edited.samples.as_slice(), [0, 0, 0, 0, 7].as_slice());
    let calls = edited.codec.calls();
    same(&rt, (edited.bits, calls, sink.begins()), (40, 13, 0));
    same(
        &rt,
        sink.into_inner().as_slice(),
        [255, 0, 0, 0, 0, 7].as_slice(),
    );
    Ok(())
}
