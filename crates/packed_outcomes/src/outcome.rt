//! An outcome as it is kept.
ghost use Rattle.std.specs.Prelude.{◌≡◌, IfOk};
ghost use Rattle.bpf_profile.specs.Limits.{record_size};
ghost use Rattle.bpf_profile.specs.Outcomes.{IsOutcome, duration_of};

use crate::kept::pack;
use crate::spread::{MARKS_OF_NUMBERS, kept_at, split, unpack_all, unpack_numbers};
use crate::words::know_record;
use helpers::Record;
use std::alloc::{AllocError, Global};
use std::marker::Model;

/// The outcome of a guarded call, packed: of the words of its context, its facts and its tag only those that are
/// not 0 are kept, in one piece of memory of just their size. An outcome of zeros with an empty tag takes none.
#[derive(Drop)]
pub struct PackedOutcome {
    /// Marks, whose bit i is 1 where word i isn't 0, and the words that aren't 0, in their order; nothing where all are 0.
    words: Vec<u64>,
}

impl Model for PackedOutcome {
    ghost use Rattle.bpf_profile.specs.Outcomes.{Outcome, IsOutcome};

    ghost Value = { Outcome };

    ghost use Rattle.bpf_profile.specs.Limits.{record_size};
    ghost use Rattle.packed_outcomes.specs.Packed.{unpacked};

    ghost view = { λ packed. unpacked packed.words.items };

    ghost invariant = { λ packed. IsOutcome record_size (unpacked packed.words.items) };
}

impl PackedOutcome {
    /// Packs an outcome. The error is want of memory.
    pub fn pack(alloc: Global, outcome: &Record) -> Result<PackedOutcome, AllocError>
        ensures { IfOk result (λ packed. packed ≡ outcome.now) }
    {
        know_record(outcome);
        let words = pack(alloc, outcome)?;
        Ok(PackedOutcome { words })
    }

    /// The outcome's record. It takes no memory.
    pub fn unpack(&self) -> Record
        ensures outcome { result ≡ self.now }
        ensures fits { IsOutcome record_size self.now }
    {
        let (marks, kept) = split(&self.words);
        if marks < MARKS_OF_NUMBERS {
            unpack_numbers(marks, kept)
        } else {
            unpack_all(marks, kept)
        }
    }

    /// How long the call took, in milliseconds.
    pub fn duration(&self) -> u64
        ensures duration { result ≡ duration_of self.now }
        ensures fits { IsOutcome record_size self.now }
    {
        let (marks, kept) = split(&self.words);
        if marks / 2 % 2 == 0 {
            0
        } else {
            kept_at(kept, (marks % 2) as usize)
        }
    }

    /// The same outcome once more. The error is want of memory.
    pub fn try_clone(&self) -> Result<PackedOutcome, AllocError>
        ensures { IfOk result (λ copy. copy ≡ self.now) }
    {
        Ok(PackedOutcome {
            words: Vec::from_slice(*self.words.allocator(), &self.words)?,
        })
    }
}
