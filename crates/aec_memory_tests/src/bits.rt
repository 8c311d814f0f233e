//! Lists of bits.

use crate::trial::{Trial, print_bits, try_calls};
use aec_bits::BitBuf;
use aec_params::Fault;
use std::alloc::Global;

// A list of bits, and the bits 11 and 0110, which calls add to it.
#[derive(Drop)]
struct Bits {
    list: BitBuf,
    ones: BitBuf,
    middle: BitBuf,
    alloc: Global,
}

impl Bits {
    fn new(alloc: Global) -> Result<Bits, Fault> {
        let mut ones = BitBuf::new(alloc);
        ones.push_bits(3, 2)?;
        let mut middle = BitBuf::new(alloc);
        middle.push_bits(6, 4)?;
        Ok(Bits {
            list: BitBuf::new(alloc),
            ones,
            middle,
            alloc,
        })
    }

    // Replaces the third to the seventh bit, as far as these exist, by the bits 0110.
    fn splice(&mut self) -> Result<(), Fault> {
        let stop = self.list.len().min(7);
        self.list.splice(stop.min(2), stop, &self.middle)
    }

    // Keeps the first five bits, and pads them to a byte.
    fn fill_up(&mut self) -> Result<(), Fault> {
        let len = self.list.len().min(5);
        self.list.truncate(len);
        self.list.pad_to_byte()
    }

    fn read_back(&mut self) -> Result<(), Fault> {
        self.list = BitBuf::from_bytes(self.alloc, &[0x98])?;
        Ok(())
    }
}

impl Trial for Bits {
    fn call(&mut self, number: usize) -> Result<(), Fault> {
        match number {
            0 => self.list.reserve(100),
            1 => self.list.push_bits(5, 3),
            2 => self.list.push_fs(4),
            3 => self.list.append(&self.ones),
            4 => self.splice(),
            5 => self.list.append_bytes(&[0x42]),
            6 => self.fill_up(),
            _ => self.read_back(),
        }
    }

    fn show<R: Print>(&self, rt: &R) {
        print_bits(rt, &self.list);
    }
}

const WITH_ROOM: [(usize, &str); 8] = [
    (0, "BitBuf::reserve"),
    (1, "BitBuf::push_bits"),
    (2, "BitBuf::push_fs"),
    (3, "BitBuf::append"),
    (4, "BitBuf::splice"),
    (5, "BitBuf::append_bytes"),
    (6, "BitBuf::pad_to_byte"),
    (7, "BitBuf::from_bytes"),
];

/// Makes the calls on a list with reserved room, and on lists without room.
pub fn try_bits<R: Print + Eprint>(rt: &R, alloc: Global) -> Result<(), Fault> {
    try_calls(rt, &WITH_ROOM, &mut Bits::new(alloc)?);
    for call in &WITH_ROOM[1..6] {
        try_calls(rt, &[*call], &mut Bits::new(alloc)?);
    }
    Ok(())
}
