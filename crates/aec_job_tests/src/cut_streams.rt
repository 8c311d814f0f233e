//! Streams that are cut, and streams that end with zero bits.

use crate::answers::engines_answer_so;
use std::test::Fail;

// Two blocks by no compression, of 67 bits each: 0 to 7, and 255 down to 248. They are cut after
// each byte, and read without a count and with one.
const UNCOMPRESSED: &str = "\
-d -N | 5000 20 |  |
-d -N | 5000 20 | E0 | coded data is cut short at bit 0
-d -N | 5000 20 | E0 00 | coded data is cut short at bit 0
-d -N | 5000 20 | E0 00 20 | coded data is cut short at bit 0
-d -N | 5000 20 | E0 00 20 40 | coded data is cut short at bit 0
-d -N | 5000 20 | E0 00 20 40 60 | coded data is cut short at bit 0
-d -N | 5000 20 | E0 00 20 40 60 80 | coded data is cut short at bit 0
-d -N | 5000 20 | E0 00 20 40 60 80 A0 | coded data is cut short at bit 0
-d -N | 5000 20 | E0 00 20 40 60 80 A0 C0 | coded data is cut short at bit 0
-d -N | 5000 20 | E0 00 20 40 60 80 A0 C0 FF | coded data is cut short at bit 67
-d -N | 5000 20 | E0 00 20 40 60 80 A0 C0 FF FF | coded data is cut short at bit 67
-d -N | 5000 20 | E0 00 20 40 60 80 A0 C0 FF FF FB | coded data is cut short at bit 67
-d -N | 5000 20 | E0 00 20 40 60 80 A0 C0 FF FF FB F7 | coded data is cut short at bit 67
-d -N | 5000 20 | E0 00 20 40 60 80 A0 C0 FF FF FB F7 F3 | coded data is cut short at bit 67
-d -N | 5000 20 | E0 00 20 40 60 80 A0 C0 FF FF FB F7 F3 EF | coded data is cut short at bit 67
-d -N | 5000 20 | E0 00 20 40 60 80 A0 C0 FF FF FB F7 F3 EF EB | coded data is cut short at bit 67
-d -N | 5000 20 | E0 00 20 40 60 80 A0 C0 FF FF FB F7 F3 EF EB E7 | coded data is cut short at bit 67
-d -N | 5000 20 | E0 00 20 40 60 80 A0 C0 FF FF FB F7 F3 EF EB E7 E0 | 00 01 02 03 04 05 06 07 FF FE FD FC FB FA F9 F8
-d -N --count 5 | 5000 20 |  | coded data is cut short at bit 0
-d -N --count 5 | 5000 20 | E0 | coded data is cut short at bit 0
-d -N --count 5 | 5000 20 | E0 00 | coded data is cut short at bit 0
-d -N --count 5 | 5000 20 | E0 00 20 | coded data is cut short at bit 0
-d -N --count 5 | 5000 20 | E0 00 20 40 | coded data is cut short at bit 0
-d -N --count 5 | 5000 20 | E0 00 20 40 60 | coded data is cut short at bit 0
-d -N --count 5 | 5000 20 | E0 00 20 40 60 80 | coded data is cut short at bit 0
-d -N --count 5 | 5000 20 | E0 00 20 40 60 80 A0 | coded data is cut short at bit 0
-d -N --count 5 | 5000 20 | E0 00 20 40 60 80 A0 C0 | coded data is cut short at bit 0
-d -N --count 5 | 5000 20 | E0 00 20 40 60 80 A0 C0 FF | 00 01 02 03 04
-d -N --count 5 | 5000 20 | E0 00 20 40 60 80 A0 C0 FF FF | 00 01 02 03 04
-d -N --count 5 | 5000 20 | E0 00 20 40 60 80 A0 C0 FF FF FB | 00 01 02 03 04
-d -N --count 5 | 5000 20 | E0 00 20 40 60 80 A0 C0 FF FF FB F7 | 00 01 02 03 04
-d -N --count 5 | 5000 20 | E0 00 20 40 60 80 A0 C0 FF FF FB F7 F3 | 00 01 02 03 04
-d -N --count 5 | 5000 20 | E0 00 20 40 60 80 A0 C0 FF FF FB F7 F3 EF | 00 01 02 03 04
-d -N --count 5 | 5000 20 | E0 00 20 40 60 80 A0 C0 FF FF FB F7 F3 EF EB | 00 01 02 03 04
-d -N --count 5 | 5000 20 | E0 00 20 40 60 80 A0 C0 FF FF FB F7 F3 EF EB E7 | 00 01 02 03 04
-d -N --count 5 | 5000 20 | E0 00 20 40 60 80 A0 C0 FF FF FB F7 F3 EF EB E7 E0 | 00 01 02 03 04";

#[test]
fn a_stream_is_cut_after_each_byte(rt: HostRuntime) -> Result<(), Fail> {
    engines_answer_so(&rt, rt.alloc(), UNCOMPRESSED)
}

// A cut within a block by no compression; zero bits alone; a cut after two of seven written values.
const NO_WHOLE_BLOCK: &str = "\
-d -N | 9 9 | E0 00 | coded data is cut short at bit 0
-d | 9 9 | 00    |
-d | 9 9 | 20 09 | coded data is cut short at bit 0";

// A coded data set of twelve zero bits (identifier and reference sample) and the fundamental
// sequence of a number from 19 down; zero bits fill up the 4 bytes. The number is how many blocks
// the run has, but 3 means four, and 4 means all 32 blocks of the interval.
const ZERO_RESTS: &str = "\
-d -r 32 | 152 4 | 00 00 00 01 | 00*152
-d -r 32 | 152 4 | 00 00 00 02 | 00*144
-d -r 32 | 152 4 | 00 00 00 04 | 00*136
-d -r 32 | 152 4 | 00 00 00 08 | 00*128
-d -r 32 | 152 4 | 00 00 00 10 | 00*120
-d -r 32 | 152 4 | 00 00 00 20 | 00*112
-d -r 32 | 152 4 | 00 00 00 40 | 00*104
-d -r 32 | 152 4 | 00 00 00 80 | 00*96
-d -r 32 | 152 4 | 00 00 01 00 | 00*88
-d -r 32 | 152 4 | 00 00 02 00 | 00*80
-d -r 32 | 152 4 | 00 00 04 00 | 00*72
-d -r 32 | 152 4 | 00 00 08 00 | 00*64
-d -r 32 | 152 4 | 00 00 10 00 | 00*56
-d -r 32 | 152 4 | 00 00 20 00 | 00*48
-d -r 32 | 152 4 | 00 00 40 00 | 00*40
-d -r 32 | 256 4 | 00 00 80 00 | 00*256
-d -r 32 | 152 4 | 00 01 00 00 | 00*32";

#[test]
fn a_rest_of_zeros_ends_a_stream(rt: HostRuntime) -> Result<(), Fail> {
    engines_answer_so(&rt, rt.alloc(), NO_WHOLE_BLOCK)?;
    engines_answer_so(&rt, rt.alloc(), ZERO_RESTS)
}

// Streams that are cut after each byte, and read without a count and with one. Three intervals of
// zeros, of 14 bits each: without a count no cut is seen, since what remains of an interval is zero
// bits. Then with a 1 at place 20: the second interval has bits 14 to 38, its second block the last
// five of them. Last, a ramp of 31 bits and a zero block: without a count the cut between them
// isn't seen.
const ZERO_BLOCKS: &str = "\
-d | 99 9 |  |
-d | 99 9 | 00 |
-d | 99 9 | 00 04 | 00*16
-d | 99 9 | 00 04 00 | 00*16
-d | 99 9 | 00 04 00 10 | 00*32
-d | 99 9 | 00 04 00 10 00 | 00*32
-d | 99 9 | 00 04 00 10 00 40 | 00*48
-d --count 48 | 99 9 |  | coded data is cut short at bit 0
-d --count 48 | 99 9 | 00 | coded data is cut short at bit 0
-d --count 48 | 99 9 | 00 04 | coded data is cut short at bit 14
-d --count 48 | 99 9 | 00 04 00 | coded data is cut short at bit 14
-d --count 48 | 99 9 | 00 04 00 10 | coded data is cut short at bit 28
-d --count 48 | 99 9 | 00 04 00 10 00 | coded data is cut short at bit 28
-d --count 48 | 99 9 | 00 04 00 10 00 40 | 00*48
-d | 99 9 |  |
-d | 99 9 | 00 |
-d | 99 9 | 00 04 | 00*16
-d | 99 9 | 00 04 40 | coded data is cut short at bit 14
-d | 99 9 | 00 04 40 30 | coded data is cut short at bit 14
-d | 99 9 | 00 04 40 30 C2 | 00*20 01 00*11
-d | 99 9 | 00 04 40 30 C2 00 | 00*20 01 00*11
-d | 99 9 | 00 04 40 30 C2 00 08 | 00*20 01 00*11 00*16
-d --count 48 | 99 9 |  | coded data is cut short at bit 0
-d --count 48 | 99 9 | 00 | coded data is cut short at bit 0
-d --count 48 | 99 9 | 00 04 | coded data is cut short at bit 14
-d --count 48 | 99 9 | 00 04 40 | coded data is cut short at bit 14
-d --count 48 | 99 9 | 00 04 40 30 | coded data is cut short at bit 14
-d --count 48 | 99 9 | 00 04 40 30 C2 | coded data is cut short at bit 39
-d --count 48 | 99 9 | 00 04 40 30 C2 00 | coded data is cut short at bit 39
-d --count 48 | 99 9 | 00 04 40 30 C2 00 08 | 00*20 01 00*11 00*16
-d | 99 9 |  |
-d | 99 9 | 20 | coded data is cut short at bit 0
-d | 99 9 | 20 09 | coded data is cut short at bit 0
-d | 99 9 | 20 09 24 | coded data is cut short at bit 0
-d | 99 9 | 20 09 24 92 | 00 01 02 03 04 05 06 07
-d | 99 9 | 20 09 24 92 10 | 00 01 02 03 04 05 06 07 07*8
-d --count 16 | 99 9 |  | coded data is cut short at bit 0
-d --count 16 | 99 9 | 20 | coded data is cut short at bit 0
-d --count 16 | 99 9 | 20 09 | coded data is cut short at bit 0
-d --count 16 | 99 9 | 20 09 24 | coded data is cut short at bit 0
-d --count 16 | 99 9 | 20 09 24 92 | coded data is cut short at bit 31
-d --count 16 | 99 9 | 20 09 24 92 10 | 00 01 02 03 04 05 06 07 07*8";

#[test]
fn cuts_before_zero_bits_are_seen_by_a_count(rt: HostRuntime) -> Result<(), Fail> {
    engines_answer_so(&rt, rt.alloc(), ZERO_BLOCKS)
}

// Blocks of 10 and 14 samples: a cut in the last values; more samples than the limit, or than the
// count; a last value that is too large, by splitting with k = 0, as the last member of a pair, and
// by splitting with k = 5.
const EVEN_BLOCKS: &str = "\
-d --even-blocks -j 10 -r 1 | 10 9 | 20 09 24 92 | coded data is cut short at bit 0
-d --even-blocks -j 10 -r 1 | 9 9 | 20 09 24 92 48 | more than 9 samples
-d --even-blocks -j 10 -r 1 --count 9 | 9 9 | 20 09 24 92 48 | 00 01 02 03 04 05 06 07 08
-d --even-blocks -j 10 -r 1 --count 11 | 20 9 | 20 09 24 92 48 | coded data is cut short at bit 37
--range 8:2 --even-blocks -j 10 -r 1 | 10 9 | 20 09 24 92 48 | 08 09
-d -N -n 1 --even-blocks -j 10 -r 1 | 10 9 | 3F F2 | value too large at bit 0
-d -N -n 1 --even-blocks -j 10 -r 1 | 10 9 | 1F 04 | value too large at bit 0
-d -N -n 1 --even-blocks -j 14 -r 1 | 14 20 | DF FF 84 21 08 42 10 84 21 08 42 | 01*14
-d -N -n 1 --even-blocks -j 14 -r 1 | 14 20 | DF FF 84 21 08 42 10 84 21 08 44 | value too large at bit 0";

#[test]
fn blocks_of_an_even_size_are_judged_to_their_end(rt: HostRuntime) -> Result<(), Fail> {
    engines_answer_so(&rt, rt.alloc(), EVEN_BLOCKS)
}
