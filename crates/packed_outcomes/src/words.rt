//! A record as a list of words, and back.
ghost use Rattle.std.specs.Prelude.{◌≡◌, ◌≤◌, ◌<◌, ◌*◌, ◌^◌, ◌++◌, length, replicate};
ghost use Rattle.std.specs.List.{AllByRecursion};
ghost use Rattle.bpf_profile.specs.Limits.{record_size};
ghost use Rattle.bpf_profile.specs.Outcomes.{IsOutcome};
ghost use Rattle.packed_outcomes.specs.Words.{words_in, words_of, outcome_of, word_count};

use bpf_profile::{FACT_COUNT, MOST_TAG_BYTES, RECORD_SIZE};
use byteorder::{ByteOrder, LittleEndian};
use helpers::Record;

/// How many words a record's context is.
const CONTEXT_WORDS: usize = 24;

/// How many words of numbers a record's context begins with, and how many bytes these are.
pub const NUMBER_WORDS: usize = 8;

pub const NUMBER_BYTES: usize = 64;

/// How many words the bytes of a tag are.
const TAG_WORDS: usize = 4;

/// How many words a record is: its context, its facts, the bytes of its tag, and how many these are.
pub const WORD_COUNT: usize = 45;

/// Reads words of eight bytes each, their lowest byte first.
fn read_words(bytes: &[u8], words: &mut [u64])
    requires { length bytes.now ≡ 8 * length words.old }
    ensures { words.new ≡ words_in (length words.old) bytes.now }
{
    LittleEndian::read_u64_into(bytes, words);
}

/// Writes the words of the numbers that a record's context begins with.
pub fn read_numbers(outcome: &Record, words: &mut [u64])
    requires { length words.old ≡ 8 }
    ensures words { words.new ≡ words_in 8 outcome.now.context }
{
    let (numbers, _) = outcome.context().split_at(NUMBER_BYTES);
    read_words(numbers, words);
}

/// Writes a record's words.
pub fn write_words(outcome: &Record, words: &mut [u64])
    requires { length words.old ≡ word_count }
    ensures { words.new ≡ words_of outcome.now }
{
    let (context, rest) = words.split_at_mut(CONTEXT_WORDS);
    let (facts, rest) = rest.split_at_mut(FACT_COUNT);
    let (tag, size) = rest.split_at_mut(TAG_WORDS);
    let mut tag_bytes = [0; MOST_TAG_BYTES];
    size[0] = outcome.copy_tag(&mut tag_bytes);
    read_words(&tag_bytes, tag);
    facts.copy_from_slice(outcome.facts());
    read_words(outcome.context(), context);
}

/// A context has its size by its type.
fn show_size(context: &[u8; RECORD_SIZE])
    ensures { length context.now ≡ record_size }
{}

/// A record is an outcome, and its context has its size.
pub fn know_record(outcome: &Record)
    ensures fits { IsOutcome record_size outcome.now }
    ensures size { length outcome.now.context ≡ record_size }
{
    show_size(outcome.context());
}

/// The record of these numbers, which has zeros behind them.
pub fn record_of_numbers(words: &[u64]) -> Record
    requires words { length words.now ≡ 8 }
    ensures { result ≡ outcome_of (words.now ++ replicate 37 0) }
{
    let mut bytes = [0; NUMBER_BYTES];
    LittleEndian::write_u64_into(words, &mut bytes);
    Record::from_beginning(&bytes)
}

/// The record of these words.
pub fn record_of(words: &[u64]) -> Record
    requires words { length words.now ≡ word_count }
    ensures { result ≡ outcome_of words.now }
{
    let (context_words, rest) = words.split_at(CONTEXT_WORDS);
    let (fact_words, rest) = rest.split_at(FACT_COUNT);
    let (tag_words, size) = rest.split_at(TAG_WORDS);
    let mut context = [0; RECORD_SIZE];
    LittleEndian::write_u64_into(context_words, &mut context);
    let mut facts = [0; FACT_COUNT];
    facts.copy_from_slice(fact_words);
    let mut tag = [0; MOST_TAG_BYTES];
    LittleEndian::write_u64_into(tag_words, &mut tag);
    let count = size[0].min(MOST_TAG_BYTES as u64) as usize;
    Record::from_parts(context, facts, &tag[..count]).unwrap()
}
