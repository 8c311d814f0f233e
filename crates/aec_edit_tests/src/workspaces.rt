//! Workspaces with `AecCodec`, step by step.

use crate::asserts::{same, same_at};
use crate::steps::{calls, counts, expect_run, expect_steps, stop_text};
use aec_edit::Workspace;
use aec_interval::AecCodec;
use aec_params::{Params, Settings};
use std::alloc::Global;
use std::test::Fail;

/// Returns an empty workspace whose codec's count begins at `calls`.
pub(crate) fn workspace(
    alloc: Global,
    params: Params,
    calls: u64,
    limit: u64,
) -> Workspace<AecCodec> {
    let codec = AecCodec::with_calls(alloc, params, calls);
    Workspace::new(alloc, codec, limit.min(1 << 32))
}

// The steps of a workspace whose codec has one call left.
const ONE_CALL_LEFT: &str = "\
append 0*17   | coder calls are spent | | 0 | 0
append 0*16   | 1 | 00 04 | 14 0 | 0
overwrite 0 1 | coder calls are spent | 00 04 | 14 0 | 0
truncate 0    | 0 | | 0 | 0";

// Where the codec's count begins, the limit, and the steps of a workspace that is empty at first.
const TABLES: [(u64, u64, &str); 9] = [
    // One of 48 zeros is changed; ranges around it, and past the end; then zeros overwrite the
    // whole interval.
    (
        0,
        48,
        "\
append 0*48      | 3     | 00 04 00 10 00 40    | 42 0 14 28 | 0
overwrite 20 1   | 1     | 00 04 40 30 C2 00 08 | 53 0 14 39 | 1
range 19 3       | 0 1 0 | 00 04 40 30 C2 00 08 | 53 0 14 39 | 1
range 48 0       |       | 00 04 40 30 C2 00 08 | 53 0 14 39 | 0
range 47 2       | position outside the 48 samples | 00 04 40 30 C2 00 08 | 53 0 14 39 | 0
range 18446744073709551615 2 | position outside the 48 samples | 00 04 40 30 C2 00 08 | 53 0 14 39 | 0
overwrite 16 0*16 | 1    | 00 04 00 10 00 40    | 42 0 14 28 | 0",
    ),
    (
        0,
        48,
        "\
append 0*48      | 3 | 00 04 00 10 00 40 | 42 0 14 28 | 0
overwrite 47 0 0 | position outside the 48 samples | 00 04 00 10 00 40 | 42 0 14 28 | 0
overwrite 0 256  | sample 0 is out of range        | 00 04 00 10 00 40 | 42 0 14 28 | 0
overwrite 48     | 0                               | 00 04 00 10 00 40 | 42 0 14 28 | 0
append 0         | more than 48 samples            | 00 04 00 10 00 40 | 42 0 14 28 | 0",
    ),
    // Five samples of 7, whose block is filled up. The filler must not stay when samples are
    // appended.
    (
        0,
        4294967296,
        "\
append 7*5     | 1 | 00 78    | 13 0 | 0
append 7 7 7 8 | 1 | 00 78 8F | 24 0 | 1
truncate 5     | 1 | 00 78    | 13 0 | 1",
    ),
    (18446744073709551614, 4294967296, ONE_CALL_LEFT),
    // Four calls are left: three for the zeros, one for the overwrite. Then an insertion that needs
    // three calls is refused; an insertion at a bad place is refused for its place.
    (
        18446744073709551611,
        65,
        "\
append 0*48    | 3 | 00 04 00 10 00 40    | 42 0 14 28 | 0
overwrite 20 1 | 1 | 00 04 40 30 C2 00 08 | 53 0 14 39 | 1
remove 0 16    | 0 | 10 0C 30 80 02       | 39 0 25    | 0
insert 4 0     | coder calls are spent | 10 0C 30 80 02 | 39 0 25 | 0
insert 33 1    | position outside the 32 samples | 10 0C 30 80 02 | 39 0 25 | 0
truncate 16    | 0 | 10 0C 30 80          | 25 0       | 0
insert 16      | 0 | 10 0C 30 80          | 25 0       | 0",
    ),
    // Places outside an empty list; then edits of lists of one and of two intervals, within the
    // list and up to its end.
    (
        0,
        40,
        "\
append         | 0 | | 0 | 0
overwrite 0    | 0 | | 0 | 0
overwrite 1    | position outside the 0 samples | | 0 | 0
truncate 0     | 0 | | 0 | 0
truncate 1     | position outside the 0 samples | | 0 | 0
range 0 0      |   | | 0 | 0
range 0 1      | position outside the 0 samples | | 0 | 0
append 0*8     | 1 | 00 08 | 13 0 | 0
overwrite 0 0 1 2 3 4 5 6 7 | 1 | 20 09 24 92 | 31 0 | 0
overwrite 8 -1 | position outside the 8 samples | 20 09 24 92 | 31 0 | 0
append 7 -1 256 | sample 1 is out of range | 20 09 24 92 | 31 0 | 0
append -1*33   | more than 40 samples | 20 09 24 92 | 31 0 | 0
truncate 0     | 0 | | 0 | 0
append 7*9     | 1 | 00 74 | 14 0 | 0
overwrite 8 8  | 1 | 00 78 8F | 24 0 | 1
append 8*7     | 1 | 00 78 8F | 24 0 | 1
append 0*16    | 1 | 00 78 8F 00 04 | 38 0 24 | 0
overwrite 14 8 8 | 1 | 00 78 8F 00 04 | 38 0 24 | 1
overwrite 16 0*16 | 1 | 00 78 8F 00 04 | 38 0 24 | 0
overwrite 31 0 | 1 | 00 78 8F 00 04 | 38 0 24 | 1
overwrite 32   | 0 | 00 78 8F 00 04 | 38 0 24 | 0
overwrite 33   | position outside the 32 samples | 00 78 8F 00 04 | 38 0 24 | 0
overwrite 18446744073709551615 1 | position outside the 32 samples | 00 78 8F 00 04 | 38 0 24 | 0
truncate 18446744073709551615 | position outside the 32 samples | 00 78 8F 00 04 | 38 0 24 | 0
range 15 2     | 8 0 | 00 78 8F 00 04 | 38 0 24 | 2
truncate 32    | 0 | 00 78 8F 00 04 | 38 0 24 | 0
truncate 16    | 0 | 00 78 8F | 24 0 | 0
truncate 8     | 1 | 00 78 | 13 0 | 1
overwrite 0 0*8 | 1 | 00 08 | 13 0 | 0",
    ),
    (
        0,
        0,
        "append 1 | more than 0 samples | | 0 | 0\nappend | 0 | | 0 | 0",
    ),
    // Zeros are inserted and removed, by whole intervals and one by one.
    (
        0,
        65,
        "\
append 0*48    | 3 | 00 04 00 10 00 40          | 42 0 14 28       | 0
insert 16 0*16 | 1 | 00 04 00 10 00 40 01       | 56 0 14 28 42    | 0
insert 20 0    | 4 | 00 04 00 10 00 40 01 00 08 | 69 0 14 28 42 56 | 3
insert 0 0     | more than 65 samples | 00 04 00 10 00 40 01 00 08 | 69 0 14 28 42 56 | 0
remove 16 16   | 0 | 00 04 00 10 00 40 02       | 55 0 14 28 42    | 0
remove 48 1    | 0 | 00 04 00 10 00 40          | 42 0 14 28       | 0
remove 0 1     | 3 | 00 04 00 10 00 40          | 42 0 14 28       | 3
range 47 0     |   | 00 04 00 10 00 40          | 42 0 14 28       | 0
remove 40 8    | position outside the 47 samples | 00 04 00 10 00 40 | 42 0 14 28 | 0
insert 48      | position outside the 47 samples | 00 04 00 10 00 40 | 42 0 14 28 | 0
insert 47      | 0 | 00 04 00 10 00 40          | 42 0 14 28       | 0
insert 0 256   | sample 0 is out of range | 00 04 00 10 00 40 | 42 0 14 28 | 0
insert 8 0*16  | 2 | 00 04 00 10 00 40 01       | 56 0 14 28 42    | 1
remove 8 16    | 1 | 00 04 00 10 00 40          | 42 0 14 28       | 2
range 47 1     | position outside the 47 samples | 00 04 00 10 00 40 | 42 0 14 28 | 0",
    ),
    // A 1 is inserted among zeros, which codes all intervals after it anew; then edits at the end,
    // and of a list of one interval.
    (
        0,
        65,
        "\
append 0*48    | 3 | 00 04 00 10 00 40          | 42 0 14 28    | 0
insert 20 1    | 3 | 00 04 40 30 C2 00 08 00 40 | 66 0 14 39 53 | 2
range 19 3     | 0 1 0 | 00 04 40 30 C2 00 08 00 40 | 66 0 14 39 53 | 1
remove 0 16    | 0 | 10 0C 30 80 02 00 10       | 52 0 25 39    | 0
remove 4 1     | 2 | 00 04 00 10                | 28 0 14       | 3
insert 32 5    | 1 | 00 04 00 10 05 80          | 41 0 14 28    | 0
remove 32 1    | 0 | 00 04 00 10                | 28 0 14       | 0
remove 0 32    | 0 |                            | 0             | 0
insert 0 0 1 2 3 4 5 6 7 | 1 | 20 09 24 92      | 31 0          | 0
remove 4 4     | 1 | 20 09 3E                   | 23 0          | 1
insert 4 4 5 6 7 | 1 | 20 09 24 92              | 31 0          | 1
insert 2 -1    | sample 0 is out of range | 20 09 24 92 | 31 0  | 0
remove 8 1     | position outside the 8 samples | 20 09 24 92 | 31 0 | 0",
    ),
];

#[test]
fn workspaces_answer_step_by_step(rt: HostRuntime) -> Result<(), Fail> {
    let alloc = rt.alloc();
    let params = Params::new(Settings::USUAL)?;
    for (calls, limit, table) in TABLES {
        let mut work = workspace(alloc, params, calls, limit);
        expect_steps(&rt, alloc, &mut work, table)?;
        let mut work = workspace(alloc, params, calls, limit);
        expect_run(&rt, alloc, &mut work, table)?;
    }
    Ok(())
}

// How a run ends that stops at the first refused edit, and how many samples and bits it leaves.
const STOPS: [(&str, &str, u64, u64); 3] = [
    ("append 0*48\noverwrite 20 1", "made", 48, 53),
    (
        "append 0*48\noverwrite 47 0 0\ntruncate 0",
        "1 position outside the 48 samples",
        48,
        42,
    ),
    ("append 0*17", "0 coder calls are spent", 0, 0),
];

#[test]
fn a_run_stops_at_a_refused_edit(rt: HostRuntime) -> Result<(), Fail> {
    let alloc = rt.alloc();
    let params = Params::new(Settings::USUAL)?;
    for (table, wanted, count, bits) in STOPS {
        let calls = if count == 0 { u64::MAX - 1 } else { 0 };
        let mut work = workspace(alloc, params, calls, 48);
        let text = stop_text(alloc, &mut work, table)?;
        same_at(&rt, text.as_str(), wanted, &table);
        let (found, _, found_bits) = counts(&work);
        same_at(&rt, (found, found_bits), (count, bits), &table);
    }
    Ok(())
}

#[test]
fn a_run_takes_the_last_call(rt: HostRuntime) -> Result<(), Fail> {
    let alloc = rt.alloc();
    let params = Params::new(Settings::USUAL)?;
    let mut work = workspace(alloc, params, u64::MAX - 1, 1 << 32);
    expect_run(&rt, alloc, &mut work, ONE_CALL_LEFT)?;
    same(&rt, calls(&work), u64::MAX);
    same(&rt, counts(&work), (0, 0, 0));
    Ok(())
}
