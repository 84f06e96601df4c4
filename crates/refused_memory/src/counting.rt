//! What all parts of the program share: refusals are counted, and what is refused is tried once more.
use http_messages::decimal;
use std::alloc::Global;
use std::io;
use std::io::Read;

/// How often a call is tried: once more than requests for memory are refused.
pub(crate) const TRIES: u32 = 2;

/// How many requests for memory were refused.
#[derive(Drop)]
pub(crate) struct Refusals(pub u32);

impl Refusals {
    pub(crate) fn count(&mut self) {
        self.0 = self.0.saturating_add(1);
    }
}

/// What is not as it should be ends the program.
pub(crate) fn wrong() -> io::Error {
    io::Error::from(io::ErrorKind::InvalidData)
}

/// The number that the input is.
pub(crate) fn number(input: &mut impl Read) -> io::Result<u64> {
    let mut digits = [0; 20];
    let size = input.read(&mut digits)?;
    Ok(decimal(digits.get(..size).unwrap_or(&[])).unwrap_or(0))
}

/// Takes memory so many times, and gives it back.
pub(crate) fn take_and_give(refusals: &mut Refusals, alloc: Global, times: u64) {
    for number in 0..times {
        let mut taken = Vec::new(alloc);
        if taken.push(number).is_err() {
            refusals.count();
        }
    }
}
