//! Runs that are refused: what they print, and that they neither create nor change DEST.

use crate::asserts::holds;
use crate::runs::runs_end_so;
use std::fs;
use std::test::Fail;

// No such file; a sample out of range; streams that are cut, or have another fault; no folder for
// DEST.
const REFUSED: &str = "\
                        none kept | - | 1 | aec: read failed
                     -d none kept | - | 1 | aec: read failed
                   -n 5 bad kept | 1F 20 20 | 1 | aec: sample 1 is out of range
                     -d bad kept | 20 09 24 | 1 | aec: coded data is cut short at bit 0
                     -d bad kept | 00 02 | 1 | aec: zero run too long at bit 0
                     -d bad kept | 00 07 | 1 | aec: coded data is cut short at bit 14
             -d -N -n 1 bad kept | 27 F8 | 1 | aec: value too large at bit 0
           bad no_such_folder/out | 20 09 24 92 | 1 | aec: write failed
        -d bad no_such_folder/out | 20 09 24 92 | 1 | aec: write failed";

#[test]
fn broken_files_are_refused(rt: HostRuntime) -> Result<(), Fail> {
    runs_end_so(&rt, rt.alloc(), REFUSED)?;
    holds(&rt, !fs::exists(&rt, "no_such_folder")?);
    Ok(())
}

// The first broken rule of the settings is named, after the rules of actions. Last, words that the
// argument parser refuses.
const WRONG_WORDS: &str = "\
           -n 40 word same | 00 | 2 | aec: bits per sample must be 1 to 32
     -n 33 -j 10 word same | 00 | 2 | aec: bits per sample must be 1 to 32
      -j 10 -r 0 word same | 00 | 2 | aec: block size must be 8, 16, 32 or 64
           -j 10 word same | 00 | 2 | aec: block size must be 8, 16, 32 or 64
 --even-blocks -j 9 word same | 00 | 2 | aec: block size must be even, 8 to 64
 --even-blocks -j 6 word same | 00 | 2 | aec: block size must be even, 8 to 64
--even-blocks -j 66 word same | 00 | 2 | aec: block size must be even, 8 to 64
 --even-blocks -j 9 -r 0 word same | 00 | 2 | aec: block size must be even, 8 to 64
 --even-blocks -j 9 -n 0 word same | 00 | 2 | aec: bits per sample must be 1 to 32
 --even-blocks -j 10 -r 0 word same | 00 | 2 | aec: reference sample interval must be 1 to 4096
            -r 0 word same | 00 | 2 | aec: reference sample interval must be 1 to 4096
   -t -r 4097 -s word same | 00 | 2 | aec: reference sample interval must be 1 to 4096
      -t -n 5 -d word same | 00 | 2 | aec: restricted codes need 4 bits per sample or fewer
  -d --range 0:1 word same | 00 | 2 | aec: only one of -d, --range and --edit may be given
  -d --range=x -n 40 word same | 00 | 2 | aec: only one of -d, --range and --edit may be given
  -d --range=0:1 --count 3 word same | 00 | 2 | aec: only one of -d, --range and --edit may be given
    -d --edit edit word same | 00 | 2 | aec: only one of -d, --range and --edit may be given
  --edit edit --range 0:1 word same | 00 | 2 | aec: only one of -d, --range and --edit may be given
  --edit edit --range x word same | 00 | 2 | aec: only one of -d, --range and --edit may be given
  -d --edit edit --range 0:1 word same | 00 | 2 | aec: only one of -d, --range and --edit may be given
  -d --edit edit --count 3 -n 40 word same | 00 | 2 | aec: only one of -d, --range and --edit may be given
  --edit edit -n 40 word same | 00 | 2 | aec: bits per sample must be 1 to 32
         --count 3 word same | 00 | 2 | aec: --count needs -d, --range or --edit
   --count 3 -n 40 word same | 00 | 2 | aec: --count needs -d, --range or --edit
    --count 0 -n 8 word same | 00 | 2 | aec: --count needs -d, --range or --edit
         --range 3 word same | 00 | 2 | aec: --range needs FIRST:LEN
   --range x -n 40 word same | 00 | 2 | aec: --range needs FIRST:LEN
 --range x --count 3 word same | 00 | 2 | aec: --range needs FIRST:LEN
 --range 0:1 -n 40 word same | 00 | 2 | aec: bits per sample must be 1 to 32
                      same |  - | 2 | error:
       -n 8 -n 8 word same | 00 | 2 | error:
           -d -d word same | 00 | 2 | error:
            -n x word same | 00 | 2 | error:
   -n 4294967296 word same | 00 | 2 | error:
   -b 18446744073709551616 word same | 00 | 2 | error:
    -d --count x word same | 00 | 2 | error:
   -d --count 18446744073709551616 word same | 00 | 2 | error:
   -d --count 1 --count 1 word same | 00 | 2 | error:
    --range -1:2 word same | 00 | 2 | error:
   --range 0:1 --range 0:1 word same | 00 | 2 | error:
   --edit edit --edit edit word same | 00 | 2 | error:
             --edit word same | 00 | 2 | error:
   --even-blocks --even-blocks word same | 00 | 2 | error:
   --even-blocks=10 word same | 00 | 2 | error:
              -x word same | 00 | 2 | error:";

#[test]
fn words_that_make_no_job_are_refused(rt: HostRuntime) -> Result<(), Fail> {
    runs_end_so(&rt, rt.alloc(), WRONG_WORDS)
}
