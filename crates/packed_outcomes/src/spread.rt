//! Words spread by their marks.
ghost use Rattle.std.specs.Prelude.{◌≡◌, ◌≤◌, ◌<◌, ◌+◌, ◌-◌, ◌^◌, length, take, drop, replicate, get_or};
ghost use Rattle.packed_outcomes.specs.Words.{word_count, outcome_of};
ghost use Rattle.packed_outcomes.specs.Marks.{spread};

use crate::words::{NUMBER_WORDS, WORD_COUNT, record_of, record_of_numbers};
use helpers::Record;

/// The word at a place among those that are kept, 0 behind them.
pub fn kept_at(kept: &[u64], place: usize) -> u64
    ensures { result ≡ get_or kept.now place 0 }
{
    match kept.get(place) {
        Some(word) => *word,
        None => 0,
    }
}

/// What is packed, as marks and the words that are kept.
pub fn split(packed: &[u64]) -> (u64, &[u64])
    ensures marks { result.0 ≡ get_or packed.now 0 0 }
    ensures kept { result.1.now ≡ drop 1 packed.now }
{
    match packed.split_first() {
        Some((marks, kept)) => (*marks, kept),
        None => (0, packed),
    }
}

/// Marks below this mark words of numbers alone.
pub const MARKS_OF_NUMBERS: u64 = 256;

/// Writes the words that these marks and these kept words stand for.
fn spread(marks: u64, kept: &[u64], words: &mut [u64])
    requires zeros { words.old ≡ replicate (length words.old) 0 }
    ensures { words.new ≡ spread (length words.old) marks kept.now }
{
    let mut left = marks;
    let mut next = 0;
    for i in 0..words.len() {
        if left == 0 {
            return;
        }
        if left % 2 != 0 {
            words[i] = kept_at(kept, next);
            next += 1;
        }
        left /= 2;
    }
}

/// The record of which numbers alone are marked.
pub fn unpack_numbers(marks: u64, kept: &[u64]) -> Record
    requires { marks < 2 ^ 8 }
    ensures { result ≡ outcome_of (spread word_count marks kept.now) }
{
    let mut words = [0; NUMBER_WORDS];
    spread(marks, kept, &mut words);
    record_of_numbers(&words)
}

/// The record of any marks.
pub fn unpack_all(marks: u64, kept: &[u64]) -> Record
    ensures { result ≡ outcome_of (spread word_count marks kept.now) }
{
    let mut words = [0; WORD_COUNT];
    spread(marks, kept, &mut words);
    record_of(&words)
}
