//! Seats: who makes calls.
ghost use Rattle.std.specs.Prelude.{◌≡◌, ◌+◌, ◌<◌, ◌≤◌, ◌^◌};
ghost use Rattle.desk.specs.Seats.{seat_of};

use std::marker::Model;
use std::sync::ledger::{Ledger, Share};

/// Who makes calls at a desk. Contracts see its number, and how many entries and how many cuts its calls have made. It
/// counts by tokens that it was given for them by the services, so that no entry is counted that no journal has, and no
/// cut that no service had.
#[derive(Drop)]
pub struct Seat<L: Ledger, M: Ledger> {
    number: u32,
    pub(crate) count: u64,
    pub(crate) entries: Share<L>,
    pub(crate) cuts: Share<M>,
}

impl<L: Ledger, M: Ledger> Model for Seat<L, M> {
    ghost use Rattle.std.specs.Prelude.{◌≡◌};
    ghost use Rattle.desk.specs.Seats.{SeatData, seat_of};

    ghost Value = { SeatData };

    ghost view = { λ seat. seat_of seat.number seat.count seat.cuts.amount };

    ghost invariant = { λ seat. (seat.entries.parts ≡ 1) × (seat.entries.amount ≡ seat.count) × (seat.cuts.parts ≡ 1) };
}

impl<L: Ledger, M: Ledger> Seat<L, M> {
    /// A seat that has made no calls.
    pub(crate) fn new(number: u32, entries: Share<L>, cuts: Share<M>) -> Seat<L, M>
        requires one_part { (entries.parts ≡ 1) × (cuts.parts ≡ 1) }
        requires none_counted { (entries.amount ≡ 0) × (cuts.amount ≡ 0) }
        ensures { result ≡ seat_of number 0 0 }
    {
        Seat {
            number,
            count: 0,
            entries,
            cuts,
        }
    }

    /// What it counts by.
    pub(crate) fn into_shares(self) -> (Share<L>, Share<M>)
        ensures one_part { (result.0.parts ≡ 1) × (result.1.parts ≡ 1) }
        ensures entries { result.0.amount ≡ self.count }
        ensures cuts { result.1.amount ≡ self.cuts }
    {
        let Seat { entries, cuts, .. } = self;
        (entries, cuts)
    }

    /// Takes tokens for so many entries.
    pub(crate) fn take_entries(&mut self, tokens: &mut Share<L>, entries: u64)
        requires room { self.old.count < 2 ^ 64 → self.old.count + entries < 2 ^ 64 }
        requires one_part { tokens.old.parts ≡ 1 }
        requires left { entries ≤ tokens.old.amount }
        ensures seat { self.new ≡ seat_of self.old.number (self.old.count + entries) self.old.cuts }
        ensures amount { tokens.new.amount + entries ≡ tokens.old.amount }
        ensures parts { tokens.new.parts ≡ 1 }
    {
        tokens.transfer(&mut self.entries, entries);
        self.count += entries;
    }

    /// Takes tokens for so many cuts.
    pub(crate) fn take_cuts(&mut self, tokens: &mut Share<M>, cuts: u64)
        requires one_part { tokens.old.parts ≡ 1 }
        requires left { cuts ≤ tokens.old.amount }
        ensures seat { self.new ≡ seat_of self.old.number self.old.count (self.old.cuts + cuts) }
        ensures amount { tokens.new.amount + cuts ≡ tokens.old.amount }
        ensures parts { tokens.new.parts ≡ 1 }
    {
        tokens.transfer(&mut self.cuts, cuts);
    }

    /// Its number at its desk, from 1 on: the entries of its calls carry it.
    pub fn number(&self) -> u32
        ensures { result ≡ self.now.number }
    {
        self.number
    }

    /// How many entries its calls have made, in all journals of its desk.
    pub fn count(&self) -> u64
        ensures { result ≡ self.now.count }
    {
        self.count
    }
}
