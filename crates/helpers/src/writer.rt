//! A context that is written from its start to its end.
ghost use Rattle.std.specs.Prelude.{◌≡◌, ◌≤◌, ◌+◌, ◌++◌, [], length};
ghost use Rattle.byteorder.specs.Endian.{little_bytes};
ghost use Rattle.bpf_profile.specs.Limits.{record_size};

use bpf_profile::RECORD_SIZE;
use std::marker::Model;

/// The bytes that have been written.
#[derive(Drop)]
pub struct Writer {
    room: [u8; RECORD_SIZE],
    count: usize,
}

impl Model for Writer {
    ghost use Rattle.std.specs.Prelude.{ℕ, List, take, ◌≤◌};

    ghost Value = { List ℕ };

    ghost use Rattle.bpf_profile.specs.Limits.{record_size};

    ghost view = { λ writer. take writer.count writer.room };

    ghost invariant = { λ writer. writer.count ≤ record_size };
}

impl Writer {
    pub fn new() -> Writer
        ensures { result ≡ [] }
    {
        Writer {
            room: [0; RECORD_SIZE],
            count: 0,
        }
    }

    /// Appends bytes.
    pub fn push(&mut self, bytes: &[u8])
        requires { length self.old + length bytes.now ≤ record_size }
        ensures { self.new ≡ self.old ++ bytes.now }
    {
        let end = self.count + bytes.len();
        self.room[self.count..end].copy_from_slice(bytes);
        self.count = end;
    }

    /// Writes a number, its lowest byte first.
    pub fn push_u32(&mut self, number: u32)
        requires { length self.old + 4 ≤ record_size }
        ensures { self.new ≡ self.old ++ little_bytes 4 number }
    {
        self.push(&number.to_le_bytes());
    }

    /// Writes a number, its lowest byte first.
    pub fn push_u64(&mut self, number: u64)
        requires { length self.old + 8 ≤ record_size }
        ensures { self.new ≡ self.old ++ little_bytes 8 number }
    {
        self.push(&number.to_le_bytes());
    }

    /// The bytes of a whole context.
    pub fn bytes(self) -> [u8; RECORD_SIZE]
        requires { length self ≡ record_size }
        ensures { result ≡ self }
    {
        self.room
    }
}
