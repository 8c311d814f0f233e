//! Runs that code files, and runs that decode them.

use crate::runs::runs_end_so;
use std::test::Fail;

// With the usual settings: no samples, and zero bits that decode to none; a zero block; a ramp;
// filler; two intervals. In the last two rows SOURCE is also DEST.
const USUAL: &str = "\
         in got |                         | 0 |
      -d in got |                         | 0 |
      -d in got | 00                      | 0 |
         in got | 00*8                    | 0 | 00 08
      -d in got | 00 08                   | 0 | 00*8
         in got | 00 01 02 03 04 05 06 07 | 0 | 20 09 24 92
      -d in got | 20 09 24 92             | 0 | 00 01 02 03 04 05 06 07
         in got | 07*5                    | 0 | 00 78
      -d in got | 00 78                   | 0 | 07*8
         in got | 00*17                   | 0 | 00 04 00 20
      -d in got | 00 04 00 20             | 0 | 00*24
          in in | 00 01 02 03 04 05 06 07 | 0 | 20 09 24 92
       -d in in | 20 09 24 92             | 0 | 00 01 02 03 04 05 06 07";

#[test]
fn files_are_coded_and_decoded(rt: HostRuntime) -> Result<(), Fail> {
    runs_end_so(&rt, rt.alloc(), USUAL)
}

// Each option in both directions. Without the option the result is another one.
//
// -n: two bytes a sample; a third byte is ignored.
// -m: the same bytes are another sample.
// -3: samples of 17 bits.
// -s: the least and the greatest sample of 32 bits, alternating, by no compression; samples of 3
// bits, read and written with copies of the sign.
// -N: 0 to 7 by splitting and by no compression; a run of six zero blocks, then a block by the
// second extension.
// -j: a zero block of 16 samples, and 64 zero blocks of 64.
// -r: a run to the stream's end, read to its segment's end; a run of 64 and one of 1.
// -t: no compression, which is as long as the second extension.
// -p: an interval begins at a byte; two set bits that fill a byte are skipped.
const OPTIONS: &str = "\
              -n 12 set got | 01 00 02                | 0 | 00 00 C0
           -d -n 12 set got | 00 00 C0                | 0 | 01 00 01 00 01 00 01 00 01 00 01 00 01 00 01 00
           -n 12 -m set got | 01 00 02                | 0 | 00 80 40
        -d -n 12 -m set got | 00 80 40                | 0 | 01 00 01 00 01 00 01 00 01 00 01 00 01 00 01 00
           -n 17 -3 set got | FF FF 01 00*3 01 00*2 03 00*2 02 00*2 FE FF 01 FF FF 01 FF FF 01 00*3 02 00*2 | 0 | \
87 FF FC 78 FF FF C0 00 80 03 00 03 FF F8 00 10 00 07 00 00 FF FF F8 00 80 00*9
        -d -n 17 -3 set got | 87 FF FC 78 FF FF C0 00 80 03 00 03 FF F8 00 10 00 07 00 00 FF FF F8 00 80 00*9 | 0 | \
FF FF 01 00*3 01 00*2 03 00*2 02 00*2 FE FF 01 FF FF 01 FF FF 01 00*3 \
02 00*2 02 00*2 02 00*2 02 00*2 02 00*2 02 00*2 02 00*2
           -n 32 -s set got | 00*3 80 FF*3 7F 00*3 80 FF*3 7F 00*3 80 FF*3 7F 00*3 80 FF*3 7F | 0 | FC 00*3 07 FF*27 F8
        -d -n 32 -s set got | FC 00*3 07 FF*27 F8     | 0 | 00*3 80 FF*3 7F 00*3 80 FF*3 7F 00*3 80 FF*3 7F 00*3 80 FF*3 7F
            -n 3 -s set got | 03 FC FD FF FE 02 03 03 FC FE | 0 | EF 96 72 04 04 FE
         -d -n 3 -s set got | EF 96 72 04 04 FE       | 0 | 03 FC FD FF FE 02 03 03 FC FE*7
                 -N set got | 00 01 02 03 04 05 06 07 | 0 | 5A 92 22 AA
              -d -N set got | 5A 92 22 AA             | 0 | 00 01 02 03 04 05 06 07
              -d -N set got | E0 00 20 40 60 80 A0 C0 E0 | 0 | 00 01 02 03 04 05 06 07
            -N -r 8 set got | 00*48 01 00*7           | 0 | 00 22 F0
         -d -N -r 8 set got | 00 22 F0                | 0 | 00*48 01 00*7
              -j 16 set got | 00*16                   | 0 | 00 08
           -d -j 16 set got | 00 08                   | 0 | 00*16
 -d -j 64 -r 4096   set got | 00 00 80                | 0 | 00*4096
              -r 64 set got | 00*40                   | 0 | 00 00 80
           -d -r 64 set got | 00 00 80                | 0 | 00*512
             -r 128 set got | 00*520                  | 0 | 00 00 84
          -d -r 128 set got | 00 00 84                | 0 | 00*520
       -t -n 2 -r 1 set got | 00*7 03                 | 0 | 80 01 80
      -d -t -n2 -r1 set got | 80 01 80                | 0 | 00*7 03
                 -p set got | 00*17                   | 0 | 00 04 00 08
              -d -p set got | 00 04 00 08             | 0 | 00*24
              -d -p set got | 00 07                   | 0 | 00*16
              -d -p set got | 00 07 00 08             | 0 | 00*24";

#[test]
fn each_option_changes_a_run(rt: HostRuntime) -> Result<(), Fail> {
    runs_end_so(&rt, rt.alloc(), OPTIONS)
}

// Block sizes that aren't multiples of 8, in both directions. One block in an interval: a ramp by
// splitting with k = 0, and read with k = 1; 224 to 235 by no compression, and extremes of 12 bits
// too; 8 to 21 by splitting with k = 3; the second extension, in a reference block and restricted
// too; padded zero blocks. Then two blocks in an interval, the first one a zero block, and a run to
// the end of a segment. Last, a block of eight.
const EVEN_BLOCKS: &str = "\
       --even-blocks -j 10 -r 1 ten got | 00 01 02 03 04 05 06 07 08 09 | 0 | 20 09 24 92 48
    --even-blocks -j 10 -r 1 -d ten got | 20 09 24 92 48 | 0 | 00 01 02 03 04 05 06 07 08 09
    --even-blocks -j 10 -r 1 -d ten got | 40 15 55 58 00 | 0 | 00 01 02 03 04 05 06 07 08 09
    --even-blocks -j 12 -r 1 -N ten got | E0 E1 E2 E3 E4 E5 E6 E7 E8 E9 EA EB | 0 | FC 1C 3C 5C 7C 9C BC DC FD 1D 3D 5D 60
 --even-blocks -j 12 -r 1 -N -d ten got | FC 1C 3C 5C 7C 9C BC DC FD 1D 3D 5D 60 | 0 | E0 E1 E2 E3 E4 E5 E6 E7 E8 E9 EA EB
    --even-blocks -j 14 -r 1 -N -n 12 -s ten got | 00 F8 FF 07 FF 07 FF 07 FF 07 FF 07 FF 07 FF 07 FF 07 FF 07 FF 07 FF 07 FF 07 FF FF | 0 | \
F8 00 7F F7 FF 7F F7 FF 7F F7 FF 7F F7 FF 7F F7 FF 7F F7 FF FF F0
 --even-blocks -j 14 -r 1 -N -n 12 -s -d ten got | F8 00 7F F7 FF 7F F7 FF 7F F7 FF 7F F7 FF 7F F7 FF 7F F7 FF FF F0 | 0 | \
00 F8 FF 07 FF 07 FF 07 FF 07 FF 07 FF 07 FF 07 FF 07 FF 07 FF 07 FF 07 FF 07 FF FF
    --even-blocks -j 14 -r 1 -N ten got | 08 09 0A 0B 0C 0D 0E 0F 10 11 12 13 14 15 | 0 | 8A AA A4 92 48 29 CB B8 29 CA
 --even-blocks -j 14 -r 1 -N -d ten got | 8A AA A4 92 48 29 CB B8 29 CA | 0 | 08 09 0A 0B 0C 0D 0E 0F 10 11 12 13 14 15
    --even-blocks -j 10 -r 1 -N ten got | 00*8 01 00 | 0 | 1F 40
 --even-blocks -j 10 -r 1 -N -d ten got | 1F 40 | 0 | 00*8 01 00
       --even-blocks -j 14 -r 1 ten got | 00*13 01 | 0 | 10 0F C8
    --even-blocks -j 14 -r 1 -d ten got | 10 0F C8 | 0 | 00*13 01
 --even-blocks -j 10 -r 1 -n 2 -t ten got | 00*9 03 | 0 | 4F 00 40
--even-blocks -j10 -r1 -n2 -t -d  ten got | 4F 00 40 | 0 | 00*9 03
    --even-blocks -j 10 -r 1 -p ten got | 00*11 | 0 | 00 08 00 08
 --even-blocks -j 10 -r 1 -p -d ten got | 00 08 00 08 | 0 | 00*20
            --even-blocks -j 62 ten got | 05*122 04 05 | 0 | 00 58 FF FF FF FE 01
         --even-blocks -j 62 -d ten got | 00 58 FF FF FF FE 01 | 0 | 05*122 04 05
      --even-blocks -j 10 -r 64 ten got | 00*640 | 0 | 00 00 80
   --even-blocks -j 10 -r 64 -d ten got | 00 00 80 | 0 | 00*640
                  --even-blocks ten got | 00 01 02 03 04 05 06 07 | 0 | 20 09 24 92
               --even-blocks -d ten got | 20 09 24 92 | 0 | 00 01 02 03 04 05 06 07";

#[test]
fn blocks_of_an_even_size_are_coded_and_decoded(rt: HostRuntime) -> Result<(), Fail> {
    runs_end_so(&rt, rt.alloc(), EVEN_BLOCKS)
}
