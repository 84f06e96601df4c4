//! The tag of a record.
ghost use Rattle.std.specs.Prelude.{◌≡◌, ◌≤◌, ◌<◌, [], length, IsNone, IfSome, ◌↔◌};
ghost use Rattle.bpf_profile.specs.Limits.{most_tag_bytes};
ghost use Rattle.bpf_profile.specs.Outcomes.{AreBytes};

use crate::bytes::write_padded;
use bpf_profile::MOST_TAG_BYTES;
use std::marker::Model;

/// A tag: a label of at most 32 bytes that an application attaches to an outcome.
#[derive(Clone, Copy, Debug, PartialEq)]
pub struct Tag {
    /// The bytes; zeros fill the rest.
    bytes: [u8; MOST_TAG_BYTES],
    count: usize,
}

impl Model for Tag {
    ghost use Rattle.std.specs.Prelude.{ℕ, List, length, take};

    ghost Value = { List ℕ };

    ghost use Rattle.bpf_profile.specs.Limits.{most_tag_bytes};
    ghost use Rattle.helpers.specs.Padded.{padded};
    ghost use Rattle.helpers.specs.TagFields.{IsTag, tag_of_fields};

    ghost view = { λ tag. take tag.count tag.bytes };

    ghost invariant = { λ tag. IsTag tag.bytes tag.count (take tag.count tag.bytes) };

    ghost inverse = { λ bytes. record { bytes = padded most_tag_bytes bytes; count = length bytes } };

    ghost inverse_ok = { λ tag is. tag_of_fields tag is };
}

impl Tag {
    /// The tag of these bytes; None where there are over 32.
    pub fn new(bytes: &[u8]) -> Option<Tag>
        ensures none { IsNone result ↔ (most_tag_bytes < length bytes.now) }
        ensures some { IfSome result (λ tag. tag ≡ bytes.now) }
    {
        if bytes.len() > MOST_TAG_BYTES {
            return None;
        }
        let mut room = [0; MOST_TAG_BYTES];
        write_padded(bytes, &mut room);
        Some(Tag {
            bytes: room,
            count: bytes.len(),
        })
    }

    /// The empty tag.
    pub fn none() -> Tag
        ensures { result ≡ [] }
    {
        Tag {
            bytes: [0; MOST_TAG_BYTES],
            count: 0,
        }
    }

    /// The bytes.
    pub fn as_bytes(&self) -> &[u8]
        ensures bytes { result.now ≡ self.now }
        ensures short { length self.now ≤ most_tag_bytes }
        ensures in_range { AreBytes self.now }
    {
        &self.bytes[..self.count]
    }
}
