//! Tests of lists of bits, their readers, devices and codecs.

mod bits;
mod codecs;
mod devices;
mod windows;
