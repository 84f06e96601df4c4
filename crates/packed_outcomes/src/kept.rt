//! The words that are not 0, behind marks that say where they stand.
ghost use Rattle.std.specs.Prelude.{◌≡◌, ◌≤◌, ◌<◌, ◌^◌, ◌+◌, length, drop, replicate, IsTrue, IfOk, get_or};
ghost use Rattle.packed_outcomes.specs.Words.{word_count, words_of, HasNumbersAlone};
ghost use Rattle.packed_outcomes.specs.Marks.{marks_of, kept_of, packed_of};

use crate::words::{NUMBER_BYTES, NUMBER_WORDS, WORD_COUNT, read_numbers, write_words};
use helpers::Record;
use std::alloc::{AllocError, Global};

/// The marks of words, and where in its room what is kept of them begins.
#[derive(Clone, Copy)]
struct Kept {
    marks: u64,
    start: usize,
}

/// Whether all words are 0.
fn are_zero(words: &[u64]) -> bool
    ensures { IsTrue result → words.now ≡ replicate (length words.now) 0 }
{
    let mut bits = 0;
    for i in 0..words.len() {
        bits |= words[i];
    }
    bits == 0
}

/// Whether all bytes are 0.
fn are_zero_bytes(bytes: &[u8]) -> bool
    ensures { IsTrue result → bytes.now ≡ replicate (length bytes.now) 0 }
{
    let mut bits = 0;
    for i in 0..bytes.len() {
        bits |= bytes[i];
    }
    bits == 0
}

/// Whether all of a record is 0 or empty but the numbers that its context begins with.
fn has_numbers_alone(outcome: &Record) -> bool
    ensures { IsTrue result → HasNumbersAlone outcome.now }
{
    let (_, front) = outcome.context().split_at(NUMBER_BYTES);
    if outcome.tag().is_empty() && are_zero(outcome.facts()) {
        are_zero_bytes(front)
    } else {
        false
    }
}

/// Writes the words that are not 0 to the end of a room.
fn keep(words: &[u64], room: &mut [u64]) -> Kept
    requires few { length words.now ≤ word_count }
    requires room { length words.now < length room.old }
    ensures marks { result.marks ≡ marks_of words.now }
    ensures kept { drop result.start room.new ≡ kept_of words.now }
    ensures before { 1 ≤ result.start }
    ensures inside { result.start ≤ length room.new }
    ensures size { length room.new ≡ length room.old }
{
    let mut marks = 0;
    let mut start = room.len();
    for i in 0..words.len() {
        let word = words[words.len() - 1 - i];
        marks *= 2;
        if word != 0 {
            marks += 1;
            start -= 1;
            room[start] = word;
        }
    }
    Kept { marks, start }
}

/// Writes the words that are not 0 to the end of a room, behind their marks; nothing where all are 0. Answers where
/// they begin.
fn pack_words(words: &[u64], room: &mut [u64]) -> usize
    requires few { length words.now ≤ word_count }
    requires room { length words.now < length room.old }
    ensures words { drop result room.new ≡ packed_of words.now }
    ensures inside { result ≤ length room.new }
{
    let kept = keep(words, room);
    if kept.marks == 0 {
        return room.len();
    }
    let start = kept.start - 1;
    room[start] = kept.marks;
    start
}

/// What is packed of words, which are gathered in a room first.
fn pack_in(alloc: Global, words: &[u64], room: &mut [u64]) -> Result<Vec<u64>, AllocError>
    requires few { length words.now ≤ word_count }
    requires room { length words.now < length room.old }
    ensures { IfOk result (λ packed. packed.items ≡ packed_of words.now) }
{
    let start = pack_words(words, room);
    Vec::from_slice(alloc, &room[start..])
}

/// What is packed of a record of which the numbers alone are not 0.
fn pack_numbers(alloc: Global, outcome: &Record) -> Result<Vec<u64>, AllocError>
    requires { HasNumbersAlone outcome.now }
    ensures { IfOk result (λ packed. packed.items ≡ packed_of (words_of outcome.now)) }
{
    let mut words = [0; NUMBER_WORDS];
    read_numbers(outcome, &mut words);
    let mut room = [0; NUMBER_WORDS + 1];
    pack_in(alloc, &words, &mut room)
}

/// What is packed of any record.
fn pack_all(alloc: Global, outcome: &Record) -> Result<Vec<u64>, AllocError>
    ensures { IfOk result (λ packed. packed.items ≡ packed_of (words_of outcome.now)) }
{
    let mut words = [0; WORD_COUNT];
    write_words(outcome, &mut words);
    let mut room = [0; WORD_COUNT + 1];
    pack_in(alloc, &words, &mut room)
}

/// What is packed of a record. The error is want of memory.
pub fn pack(alloc: Global, outcome: &Record) -> Result<Vec<u64>, AllocError>
    ensures { IfOk result (λ packed. packed.items ≡ packed_of (words_of outcome.now)) }
{
    if has_numbers_alone(outcome) {
        pack_numbers(alloc, outcome)
    } else {
        pack_all(alloc, outcome)
    }
}
