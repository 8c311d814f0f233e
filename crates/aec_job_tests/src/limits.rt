//! The limits of the engines, the order in which samples are judged, and refused ranges.

use crate::answers::engines_answer_so;
use std::test::Fail;

// Sources that never end; then the code of eight samples.
const LIMITS: &str = "\
 | 20 1099511627776 | .. | more than 20 samples
 | 0 0 | .. | more than 0 samples
-n 5 | 4294967296 0 | 20 .. | sample 0 is out of range
-d | 4294967296 1000 | .. | input is longer than 1000 bytes
-d | 7 8 | 20 09 24 92 | more than 7 samples
-d | 8 4 | 20 09 24 92 | 00 01 02 03 04 05 06 07
-d | 8 3 | 20 09 24 92 | input is longer than 3 bytes
-d | 7 3 | 20 09 24 92 | input is longer than 3 bytes
-d --count 9 | 8 4 | 20 09 24 92 | more than 8 samples
-d --count 9 | 9 4 | 20 09 24 92 | coded data is cut short at bit 31
-d --count 8 | 8 4 | 20 09 24 92 | 00 01 02 03 04 05 06 07
-d --count 2 | 2 4 | 20 09 24 92 | 00 01
-d --count 0 | 0 0 | 20 09 24 92 | input is longer than 0 bytes
-d --count 0 | 0 4 | 20 09 24 92 |";

#[test]
fn limits_hold_to_the_last_sample(rt: HostRuntime) -> Result<(), Fail> {
    engines_answer_so(&rt, rt.alloc(), LIMITS)
}

// Samples of 5 bits, so that 32 is out of range, and samples of 12 bits, of two bytes each. A last
// byte that is no whole sample is ignored.
const JUDGED: &str = "\
-n 5 | 3 0 | 1F 1F 1F      | 0F C0
-n 5 | 2 0 | 1F 1F 1F      | more than 2 samples
-n 5 | 3 0 | 1F 20 1F      | sample 1 is out of range
-n 5 | 2 0 | 1F 20 1F      | sample 1 is out of range
-n 5 | 1 0 | 1F 20 1F      | more than 1 samples
-n 5 | 1 0 | 1F 1F 20      | more than 1 samples
-n 5 | 0 0 | 20            | more than 0 samples
-n 5 | 3 0 | 1F 1F 1F !    | read failed
-n 5 | 2 0 | 1F 1F 1F !    | more than 2 samples
-n 5 | 3 0 | 1F 20 1F !    | sample 1 is out of range
-n 5 | 1 0 | 1F 20 1F !    | more than 1 samples
-n 12 | 1 0 | 00 01 00      | 00 80 40
-n 12 | 0 0 | 00 01 00      | more than 0 samples
-n 12 | 1 0 | 00 01 00 !    | read failed
-n 12 | 1 0 | 00 01 00 10 ! | more than 1 samples
-n 12 | 2 0 | 00 01 00 10 ! | sample 1 is out of range
-n 12 | 2 0 | 00 01 FF      | 00 80 40
-n 12 | 1 0 | 01 00 02      | 00 00 C0
-n 12 -m | 1 0 | 01 00 02      | 00 80 40
-d -n 12 --count 1 | 1 3 | 00 00 C0      | 01 00
-d -n 12 -m --count 1 | 1 3 | 00 80 40   | 01 00";

#[test]
fn samples_are_judged_in_their_order(rt: HostRuntime) -> Result<(), Fail> {
    engines_answer_so(&rt, rt.alloc(), JUDGED)
}

// If a range is refused, `begin` isn't called.
const UNBEGUN: &str = "\
--range 7:2 | 4096 4 | 20 09 24 92       | position outside the 8 samples
--range 7:2 | 4096 4 | 20 09             | coded data is cut short at bit 0
--range 7:2 | 4096 4 | 20 09 24 92 FF FF | input is longer than 4 bytes
--range 0:1 | 4096 4 | 20 09 24 92 !     | read failed";

#[test]
fn refused_ranges_begin_nothing(rt: HostRuntime) -> Result<(), Fail> {
    engines_answer_so(&rt, rt.alloc(), UNBEGUN)
}
