//! Calls that are made one after the other. Lines on standard error mark where an allocation may be
//! refused: only within the calls.

use aec_bits::BitBuf;
use aec_params::Fault;

/// A state, and calls that change it.
pub trait Trial {
    /// Makes the call with this number.
    fn call(&mut self, number: usize) -> Result<(), Fault>;

    /// Prints the state.
    fn show<R: Print>(&self, rt: &R);
}

/// Prints that from here on an allocation may be refused.
pub fn refuse<R: Eprint>(rt: &R) {
    let _ = rt.eprintln("refuse");
}

/// Prints that from here on no allocation is refused.
pub fn grant<R: Eprint>(rt: &R) {
    let _ = rt.eprintln("grant");
}

pub fn print_answer<R: Print>(rt: &R, name: &str, answer: Result<(), Fault>) {
    let _ = print!(rt; "{name}: ");
    let _ = match answer {
        Ok(()) => print!(rt; "done |"),
        Err(fault) => print!(rt; "{fault} |"),
    };
}

/// Prints the state, and then for each call its result and the state after it. A call that failed
/// with `Memory` is made once more, with no allocation refused.
pub fn try_calls<R: Print + Eprint, T: Trial>(rt: &R, calls: &[(usize, &str)], trial: &mut T) {
    print_line(rt, "new", Ok(()), trial);
    for (number, name) in calls {
        refuse(rt);
        let answer = trial.call(*number);
        grant(rt);
        print_line(rt, name, answer, trial);
        if answer == Err(Fault::Memory) {
            print_line(rt, name, trial.call(*number), trial);
        }
    }
}

fn print_line<R: Print, T: Trial>(rt: &R, name: &str, answer: Result<(), Fault>, trial: &T) {
    print_answer(rt, name, answer);
    trial.show(rt);
    let _ = rt.println("");
}

pub fn print_bits<R: Print>(rt: &R, bits: &BitBuf) {
    for i in 0..bits.byte_len() {
        let _ = print!(rt; " {:02X}", bits.byte(i));
    }
    let _ = print!(rt; " ({} bits)", bits.len());
}

pub fn print_bytes<R: Print>(rt: &R, bytes: &[u8]) {
    for byte in bytes {
        let _ = print!(rt; " {byte:02X}");
    }
}

/// Prints all samples; of more than 16 equal ones, their number and one of them.
pub fn print_samples<R: Print>(rt: &R, samples: &[i64]) {
    if let Some(first) = samples.first() {
        if samples.len() > 16 && samples.iter().all(|x| x == first) {
            let _ = print!(rt; " {} times {first}", samples.len());
            return;
        }
    }
    for x in samples {
        let _ = print!(rt; " {x}");
    }
}
