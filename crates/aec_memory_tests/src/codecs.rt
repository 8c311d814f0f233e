//! Calls of codecs that code and decode intervals.

ghost use Rattle.std.specs.Prelude.{◌≡◌, ◌++◌, length, OnOk};
ghost use Rattle.std.specs.Bool.{OnTrue};
ghost use Rattle.aec_bits.specs.Codec.{IsInterval, BeginsAt};
ghost use Rattle.aec_bits.specs.Refusals.{first_unheld as first_unheld_of};

use crate::trial::{grant, print_answer, print_bits, print_samples, refuse};
use aec_bits::laws::Octets;
use aec_bits::{BitBuf, Codec};
use aec_interval::AecCodec;
use aec_params::{Fault, Params, Settings};
use std::alloc::Global;

// Returns the index of the first number that is no sample of the codec.
fn first_unheld<C: Codec>(codec: &C, samples: &[i64]) -> Option<u64>
    ensures { result ≡ first_unheld_of (C.format codec.now).holds 0 samples.now }
{
    for (index, x) in samples.iter().enumerate() {
        if !codec.holds(*x) {
            return Some(index as u64);
        }
    }
    None
}

#[tactic(auto, using(crate::proofs::CodecLemmas::interval_of_held))]
fn is_interval<C: Codec>(codec: &C, samples: &[i64]) -> bool
    ensures { OnTrue result (IsInterval (C.format codec.now) samples.now) }
{
    if samples.is_empty() || samples.len() as u64 > codec.interval_len() {
        return false;
    }
    match first_unheld(codec, samples) {
        None => true,
        Some(_) => false,
    }
}

fn print_left<R: Print, C: Codec>(
    rt: &R,
    name: &str,
    answer: Result<(), Fault>,
    codec: &C,
    bits: &BitBuf,
    samples: &[i64],
) {
    print_answer(rt, name, answer);
    print_bits(rt, bits);
    let _ = print!(rt; ", calls {}, reads {},", codec.calls(), codec.reads());
    print_samples(rt, samples);
    let _ = rt.println("");
}

// Codes an interval, once more if this failed with `Memory`.
fn code<R: Print + Eprint, C: Codec>(
    rt: &R,
    codec: &mut C,
    samples: &[i64],
    bits: &mut BitBuf,
) -> Result<(), Fault>
    requires { IsInterval (C.format codec.old) samples.now }
    ensures bits { OnOk result
        (bits.new.list ≡ bits.old.list ++ (C.format codec.old).bits_of samples.now) }
    ensures format { C.format codec.new ≡ C.format codec.old }
{
    refuse(rt);
    let answer = codec.code(samples, bits);
    grant(rt);
    print_left(rt, "Codec::code", answer, codec, bits, &[]);
    if answer != Err(Fault::Memory) {
        return answer;
    }
    let answer = codec.code(samples, bits);
    print_left(rt, "Codec::code", answer, codec, bits, &[]);
    answer
}

// Decodes an interval, once more if this failed with `Memory`.
fn decode<R: Print + Eprint, C: Codec>(
    rt: &R,
    codec: &mut C,
    bits: &BitBuf,
    place: u64,
    samples: &[i64],
    out: &mut Vec<i64>,
) -> Result<(), Fault>
    requires { BeginsAt (C.format codec.old) bits.now.list place (length samples.now) samples.now }
{
    let count = samples.len() as u64;
    refuse(rt);
    let answer = codec.decode(bits, place, count, out);
    grant(rt);
    print_left(rt, "Codec::decode", answer, codec, bits, out);
    if answer != Err(Fault::Memory) {
        return answer;
    }
    let answer = codec.decode(bits, place, count, out);
    print_left(rt, "Codec::decode", answer, codec, bits, out);
    answer
}

// Appends the code of an interval to some bits, and decodes it again.
fn try_codec<R: Print + Eprint, C: Codec>(
    rt: &R,
    codec: &mut C,
    samples: &[i64],
    bits: &mut BitBuf,
    out: &mut Vec<i64>,
) -> Result<(), Fault> {
    if !is_interval(codec, samples) {
        return Ok(());
    }
    print_left(rt, "new", Ok(()), codec, bits, out);
    let place = bits.len();
    code(rt, codec, samples, bits)?;
    decode(rt, codec, bits, place, samples, out)
}

fn try_intervals<R: Print + Eprint>(rt: &R, alloc: Global, mut bits: BitBuf) -> Result<(), Fault> {
    let mut codec = AecCodec::new(alloc, Params::new(Settings::USUAL)?);
    let ramp = [0, 1, 2, 3, 4, 5, 6, 7];
    try_codec(rt, &mut codec, &ramp, &mut bits, &mut Vec::new(alloc))
}

fn try_octets<R: Print + Eprint>(rt: &R, alloc: Global, mut bits: BitBuf) -> Result<(), Fault> {
    let mut octets = Octets::new(alloc, 0);
    try_codec(rt, &mut octets, &[1, 2, 3], &mut bits, &mut Vec::new(alloc))
}

/// Codes and decodes by `AecCodec` and by `Octets`, after other bits and after none.
pub fn try_codecs<R: Print + Eprint>(rt: &R, alloc: Global) -> Result<(), Fault> {
    let mut bits = BitBuf::new(alloc);
    bits.push_bits(5, 3)?;
    try_intervals(rt, alloc, bits)?;
    try_intervals(rt, alloc, BitBuf::new(alloc))?;
    let mut bits = BitBuf::new(alloc);
    bits.push_bits(1, 1)?;
    try_octets(rt, alloc, bits)?;
    try_octets(rt, alloc, BitBuf::new(alloc))
}
