//! Ranges and sample counts: the samples that are cut out, the refusals, and what isn't read with a
//! count.

use crate::runs::runs_end_so;
use std::test::Fail;

// Ranges of the ramp from 0 to 7; of eight samples of 7, with counts of 5, 0 and 8; of samples of
// 12 bits. Then decoding with counts, and without one. In the last three rows bits come after the
// last coded data set that the count needs, and are never judged: `FF FF` is a block by splitting,
// cut within its values.
const PARTS: &str = "\
              --range 2:3 part cut | 20 09 24 92       | 0 | 02 03 04
              --range 0:8 part cut | 20 09 24 92       | 0 | 00 01 02 03 04 05 06 07
              --range 0:1 part cut | 20 09 24 92       | 0 | 00
              --range 7:1 part cut | 20 09 24 92       | 0 | 07
              --range 0:0 part cut | 20 09 24 92       | 0 |
              --range 8:0 part cut | 20 09 24 92       | 0 |
           --range 007:01 part cut | 20 09 24 92       | 0 | 07
    --range 3:2 --count 5 part cut | 00 78             | 0 | 07 07
    --range 5:0 --count 5 part cut | 00 78             | 0 |
    --range 0:0 --count 0 part cut | 00 78             | 0 |
    --range 7:1 --count 8 part cut | 00 78             | 0 | 07
        -n 12 --range 6:2 part cut | 00 00 C0          | 0 | 01 00 01 00
      -n12 -m --range 0:1 part cut | 00 80 40          | 0 | 01 00
        -n 12 --range 8:0 part cut | 00 00 C0          | 0 |
             -d --count 0 part cut | 00 78             | 0 |
             -d --count 1 part cut | 00 78             | 0 | 07
             -d --count 5 part cut | 00 78             | 0 | 07*5
             -d --count 8 part cut | 00 78             | 0 | 07*8
             -d -n 8 -r 2 part cut | 00 78             | 0 | 07*8
             -d --count 8 part cut | 20 09 24 92 FF FF | 0 | 00 01 02 03 04 05 06 07
    --range 6:2 --count 8 part cut | 20 09 24 92 FF FF | 0 | 06 07
             -d --count 0 part cut | FF                | 0 |";

// Ranges of three intervals of zeros with a 1 at place 20: at the edges of each interval, and
// across them.
const EDGES: &str = "\
              --range 0:20 part cut | 00 04 40 30 C2 00 08 | 0 | 00*20
             --range 15:6 part cut | 00 04 40 30 C2 00 08 | 0 | 00*5 01
             --range 16:5 part cut | 00 04 40 30 C2 00 08 | 0 | 00*4 01
             --range 17:4 part cut | 00 04 40 30 C2 00 08 | 0 | 00*3 01
             --range 20:1 part cut | 00 04 40 30 C2 00 08 | 0 | 01
            --range 20:28 part cut | 00 04 40 30 C2 00 08 | 0 | 01 00*27
            --range 31:17 part cut | 00 04 40 30 C2 00 08 | 0 | 00*17
            --range 32:16 part cut | 00 04 40 30 C2 00 08 | 0 | 00*16
             --range 47:1 part cut | 00 04 40 30 C2 00 08 | 0 | 00
             --range 48:0 part cut | 00 04 40 30 C2 00 08 | 0 |
 --range 20:1 --count 32 part cut | 00 04 40 30 C2 00    | 0 | 01";

#[test]
fn ranges_begin_in_each_interval(rt: HostRuntime) -> Result<(), Fail> {
    runs_end_so(&rt, rt.alloc(), EDGES)
}

#[test]
fn ranges_and_counts_are_cut_out(rt: HostRuntime) -> Result<(), Fail> {
    runs_end_so(&rt, rt.alloc(), PARTS)
}

// Places outside the samples; streams that are broken after the range, with -N in the second of two
// blocks of 67 bits; counts above the number of samples, or above the limit.
const REFUSED: &str = "\
              --range 6:3 none left | 20 09 24 92 | 1 | aec: position outside the 8 samples
              --range 0:9 none left | 20 09 24 92 | 1 | aec: position outside the 8 samples
              --range 9:0 none left | 20 09 24 92 | 1 | aec: position outside the 8 samples
 --range 18446744073709551615:2 none left | 20 09 24 92 | 1 | aec: position outside the 8 samples
        --range 6:3 -r 2 none left | 00 78 | 1 | aec: position outside the 8 samples
    --range 3:3 --count 5 none left | 00 78 | 1 | aec: position outside the 5 samples
              --range 0:1 none left |  | 1 | aec: position outside the 0 samples
  --range 20:1 --count 48 none left | 00 04 40 30 C2 00 | 1 | aec: coded data is cut short at bit 39
             --range 32:17 none left | 00 04 40 30 C2 00 08 | 1 | aec: position outside the 48 samples
           -N --range 0:3 none left | E0 00 20 40 60 80 A0 C0 FF FF FB F7 F3 EF EB E7 | 1 | aec: coded data is cut short at bit 67
              --range 0:1 none left | 20 09 24 92 FF FF | 1 | aec: coded data is cut short at bit 31
             -d -n 8 -r 2 none left | 20 09 24 92 FF FF | 1 | aec: coded data is cut short at bit 31
             -d --count 9 none left | 00 78 | 1 | aec: coded data is cut short at bit 13
    --range 0:1 --count 9 none left | 00 78 | 1 | aec: coded data is cut short at bit 13
    -d --count 4294967297 none left | 00 78 | 1 | aec: more than 4294967296 samples
 -d --count 18446744073709551615 none left | 00 78 | 1 | aec: more than 4294967296 samples
 --range 0:1 --count 4294967297 none left | 00 78 | 1 | aec: more than 4294967296 samples";

#[test]
fn parts_that_are_not_there_are_refused(rt: HostRuntime) -> Result<(), Fail> {
    runs_end_so(&rt, rt.alloc(), REFUSED)
}
