//! The record of an outcome, and the helper functions on it.
ghost use Rattle.std.specs.Prelude.{◌≡◌, ◌≤◌, ◌<◌, ◌+◌, ◌%◌, length, drop, replicate, [], IsNone, IfSome, ◌↔◌, nat_eq, slice_index};
ghost use Rattle.std.specs.List.{starts_with};
ghost use Rattle.byteorder.specs.Endian.{little_number};
ghost use Rattle.bpf_profile.specs.Limits.{record_size, front_offset, front_size, fact_count, most_tag_bytes};
ghost use Rattle.bpf_profile.specs.Helpers.{tag_front};
ghost use Rattle.bpf_profile.specs.Outcomes.{IsOutcome, duration_of};
ghost use Rattle.bpf_profile.specs.Words.{bytes_in};
ghost use Rattle.helpers.specs.Padded.{padded};

use crate::bytes::{show_bytes, show_words, write_padded};
use crate::tag::Tag;
use bpf_profile::{FACT_COUNT, FRONT_OFFSET, RECORD_SIZE, Size};
use byteorder::{ByteOrder, LittleEndian};
use std::marker::Model;

/// The size of the context that programs of layout 1 see, in bytes.
const SHORT_CONTEXT: usize = 128;

/// Where the duration stands in the context.
const DURATION: usize = 8;

/// The record of an outcome of a guarded call, as programs see it: 192 bytes of context, of which
/// programs of layout 1 see the first 128, sixteen facts, and a tag of at most 32 bytes. It takes no memory.
///
/// Numbers in the context have their lowest byte first. At offset 0 stands the kind in 32 bits
/// (response 0, timeout 1, refused 2, reset 3, error 4), at 4 the status in 32 bits, and then, in
/// 64 bits each, at 8 the duration in milliseconds, at 16 and 24 the bytes of the request and of
/// the response. At 32 stands the number of the attempt and at 36 the method (GET 1, HEAD 2, POST 3,
/// PUT 4, DELETE 5, CONNECT 6, OPTIONS 7, TRACE 8, PATCH 9, another 0), both in 32 bits, at 40 the
/// flags, at 48 the length of the body and at 56 zero, in 64 bits each, and from 64 on the
/// body's first 128 bytes, filled up with zeros.
#[derive(Clone, Copy, Debug, PartialEq)]
pub struct Record {
    context: [u8; RECORD_SIZE],
    facts: [u64; FACT_COUNT],
    tag: Tag,
}

impl Model for Record {
    ghost use Rattle.bpf_profile.specs.Outcomes.{Outcome, IsOutcome};

    ghost Value = { Outcome };

    ghost use Rattle.bpf_profile.specs.Limits.{record_size};
    ghost use Rattle.helpers.specs.RecordFields.{outcome_in};

    ghost view = { outcome_in };

    ghost invariant = { λ inside. IsOutcome record_size (outcome_in inside) };

    ghost inverse = { λ o. record { context = o.context; facts = o.facts; tag = o.tag } };
}

impl Record {
    /// The record of these parts.
    pub fn new(context: [u8; RECORD_SIZE], facts: [u64; FACT_COUNT], tag: Tag) -> Record
        ensures { result ≡ record { context = context; facts = facts; tag = tag } }
    {
        show_bytes(&context);
        show_words(&facts);
        let _tag = tag.as_bytes();
        Record {
            context,
            facts,
            tag,
        }
    }

    /// The record of these parts; None exactly where the tag has over 32 bytes.
    pub fn from_parts(
        context: [u8; RECORD_SIZE],
        facts: [u64; FACT_COUNT],
        tag: &[u8],
    ) -> Option<Record>
        ensures none { IsNone result ↔ (most_tag_bytes < length tag.now) }
        ensures some { IfSome result (λ outcome. outcome ≡ record { context = context; facts = facts; tag = tag.now }) }
    {
        let tag = Tag::new(tag)?;
        Some(Record::new(context, facts, tag))
    }

    /// The record with the 128 bytes that programs of layout 1 see, and zeros behind them; None exactly where the tag has
    /// over 32 bytes.
    pub fn from_layout1(
        context: [u8; SHORT_CONTEXT],
        facts: [u64; FACT_COUNT],
        tag: &[u8],
    ) -> Option<Record>
        ensures none { IsNone result ↔ (most_tag_bytes < length tag.now) }
        ensures some { IfSome result (λ outcome. outcome ≡ record { context = padded record_size context; facts = facts; tag = tag.now }) }
    {
        let mut whole = [0; RECORD_SIZE];
        whole[..SHORT_CONTEXT].copy_from_slice(&context);
        Record::from_parts(whole, facts, tag)
    }

    /// The record whose context begins with these bytes and has zeros behind them. Its facts are 0, and its tag is empty.
    pub fn from_beginning(bytes: &[u8]) -> Record
        requires { length bytes.now ≤ record_size }
        ensures { result ≡ record { context = padded record_size bytes.now; facts = replicate fact_count 0; tag = [] } }
    {
        let mut outcome = Record {
            context: [0; RECORD_SIZE],
            facts: [0; FACT_COUNT],
            tag: Tag::none(),
        };
        write_padded(bytes, &mut outcome.context);
        outcome
    }

    /// The context's bytes.
    pub fn context(&self) -> &[u8; RECORD_SIZE]
        ensures bytes { result.now ≡ self.now.context }
        ensures fits { IsOutcome record_size self.now }
    {
        &self.context
    }

    /// The facts, in their order.
    pub fn facts(&self) -> &[u64; FACT_COUNT]
        ensures words { result.now ≡ self.now.facts }
        ensures fits { IsOutcome record_size self.now }
    {
        &self.facts
    }

    /// The tag's bytes, at most 32.
    pub fn tag(&self) -> &[u8]
        ensures bytes { result.now ≡ self.now.tag }
        ensures fits { IsOutcome record_size self.now }
    {
        self.tag.as_bytes()
    }

    /// The number of this size at an offset of the context, its lowest byte first.
    pub fn word_at(&self, offset: usize, size: Size) -> u64
        requires aligned { offset % bytes_in size ≡ 0 }
        requires inside { offset + bytes_in size ≤ record_size }
        ensures { result ≡ little_number (bytes_in size) (drop offset self.now.context) }
    {
        let bytes = &self.context[offset..];
        match size {
            Size::Byte => u64::from(bytes[0]),
            Size::HalfWord => u64::from(LittleEndian::read_u16(bytes)),
            Size::Word => u64::from(LittleEndian::read_u32(bytes)),
            Size::DoubleWord => LittleEndian::read_u64(bytes),
        }
    }

    /// How long the call took, in milliseconds.
    pub fn duration(&self) -> u64
        ensures { result ≡ duration_of self.now }
    {
        self.word_at(DURATION, Size::DoubleWord)
    }

    /// Helper 1: a fact, by its place from 0 to 15.
    pub fn fact(&self, i: usize) -> u64
        requires { i < fact_count }
        ensures { result ≡ slice_index self.now.facts i }
    {
        self.facts[i]
    }

    /// Helper 2: a byte of the body's front, by its place from 0 to 127. Programs of layout 1 ask for the first 64.
    pub fn front_byte(&self, i: usize) -> u8
        requires { i < front_size }
        ensures { result ≡ slice_index self.now.context (front_offset + i) }
    {
        self.context[FRONT_OFFSET + i]
    }

    /// Helper 3: writes the tag's first bytes to all of `to`, with zeros past the tag's end. Returns
    /// the tag's whole length.
    pub fn copy_tag(&self, to: &mut [u8]) -> u64
        ensures bytes { to.new ≡ tag_front self.now (length to.old) }
        ensures count { result ≡ length self.now.tag }
    {
        let tag = self.tag.as_bytes();
        let count = tag.len().min(to.len());
        write_padded(&tag[..count], to);
        tag.len() as u64
    }

    /// Helper 4: whether the tag begins with these bytes.
    pub fn tag_starts(&self, with: &[u8]) -> bool
        ensures { result ≡ starts_with nat_eq self.now.tag with.now }
    {
        self.tag.as_bytes().starts_with(with)
    }
}
