//! Slots, each with the book of a service, and places from which it is called.
ghost use Rattle.std.specs.Prelude.{◌≡◌, ◌<◌, ◌≤◌, ◌+◌, [], Some, IfOk, IfSome, IfNone};
ghost use Rattle.book_slot.specs.Origins.{IsOf};
ghost use Rattle.service_profile.specs.Events.{history_of};
ghost use Rattle.service_profile.specs.FirstOpening.{first_opening, first_opening_from};
ghost use Rattle.service_profile.specs.Limits.{greatest_number};
ghost use Rattle.book_slot.specs.Courses.{AreOfOne, Course, IsCourseOf, EachBegins, IsMadeBy};
ghost use Rattle.book_slot.specs.Views.{trace};
ghost use Rattle.book_slot.specs.Trying.{newcomer};
ghost use Rattle.book_slot.specs.Places.{place_of, with_dealt, with_back};

use crate::exchange::TableSeat;
use crate::view::{Deals, Gathers, Meets, Notes, OneHistory, View};
use atomic_table::{Refused, Table};
use book::{Book, Config};
use ghost_list::GhostList;
use std::alloc::{AllocError, Global};
use std::marker::Model;
use verifier::Verified;

/// Most places of a slot.
const MOST_PLACES: u32 = 128;

/// The book of a service, in a slot that many threads share. Contracts see which table it lies in, how it opened, how many places it has dealt
/// and taken back, and what those left behind that came back; the book itself is in the hands of whoever takes it.
#[derive(Drop)]
pub struct Slot {
    pub(crate) table: Table<Book, View, GhostList<Book>, OneHistory, Global>,
    dealer: TableSeat,
    dealt: u32,
    back: u32,
}

impl Model for Slot {
    ghost use Rattle.std.specs.Prelude.{◌≡◌, ◌<◌, ◌≤◌};
    ghost use Rattle.book_slot.specs.Calls.{IsDealer};
    ghost use Rattle.book_slot.specs.Places.{SlotData, slot_of};

    ghost Value = { SlotData };

    ghost view = { λ slot. slot_of slot.table.shared.table_id slot.dealer.me.0.origin slot.dealt slot.back slot.dealer.me.0.known };

    ghost invariant = { λ slot.
        (slot.table.shared.table_id.words ≡ 1) × (slot.table.shared.table_id.slots ≡ 1)
        × (slot.dealer.table_id ≡ slot.table.shared.table_id) × IsDealer slot.dealer.me slot.dealt slot.back
        × (slot.dealt < 129) × (slot.back ≤ slot.dealt) };
}

/// Who calls a book that lies in a slot. Contracts see its number, the table of its slot, and what it knows.
#[derive(Drop)]
pub struct Place {
    pub(crate) number: u32,
    pub(crate) seat: TableSeat,
}

impl Model for Place {
    ghost use Rattle.book_slot.specs.Calls.{IsAtRest};
    ghost use Rattle.book_slot.specs.Places.{PlaceData, place_of};

    ghost Value = { PlaceData };

    ghost view = { λ place. place_of place.number place.seat.table_id place.seat.me.0 };

    ghost invariant = { λ place. IsAtRest place.seat.me place.number };
}

impl Slot {
    /// Opens a book, with this program as version 1, and lays it into a slot. Errors are want of memory.
    pub fn open(alloc: Global, config: Config, program: Verified) -> Result<Slot, AllocError>
        ensures opened { IfOk result (λ slot. slot.origin ≡ Some (history_of (first_opening config program) [])) }
        ensures none_dealt { IfOk result (λ slot. (slot.dealt ≡ 0) × (slot.back ≡ 0) × (slot.known ≡ [])) }
    {
        Slot::open_from(alloc, config, program, 1)
    }

    /// The same, whose first ticket has this number, from 1 to 2^63.
    pub fn open_from(
        alloc: Global,
        config: Config,
        program: Verified,
        first_ticket: u64,
    ) -> Result<Slot, AllocError>
        requires least { 1 ≤ first_ticket }
        requires most { first_ticket ≤ greatest_number }
        ensures opened { IfOk result (λ slot. slot.origin ≡ Some (history_of (first_opening_from first_ticket config program) [])) }
        ensures none_dealt { IfOk result (λ slot. (slot.dealt ≡ 0) × (slot.back ≡ 0) × (slot.known ≡ [])) }
    {
        let book = Book::open_from(alloc, config, program, first_ticket)?;
        let mut slots = Vec::new(alloc);
        let origin = GhostList::new().and(&book);
        slots.push(book)?;
        match Table::new(alloc, &[1], slots, &origin) {
            Ok((table, dealer)) => Ok(Slot {
                table,
                dealer,
                dealt: 0,
                back: 0,
            }),
            Err(Refused { slots: _ }) => Err(AllocError),
        }
    }

    /// A new place, with the next number, which has seen nothing; or none, where 128 were dealt.
    pub fn sit(&mut self) -> Option<Place>
        ensures given { IfSome result (λ place. (place ≡ place_of (self.old.dealt + 1) self.old.table (newcomer self.old.origin (self.old.dealt + 1))) × (self.new ≡ with_dealt self.old)) }
        ensures full { IfNone result ((self.old.dealt ≡ 128) × (self.new ≡ self.old)) }
    {
        if self.dealt >= MOST_PLACES {
            return None;
        }
        let Slot {
            table,
            dealer,
            dealt,
            back: _,
        } = self;
        let seat = table.shared.split_seat::<Deals>(dealer);
        *dealt += 1;
        Some(Place {
            number: *dealt,
            seat,
        })
    }

    /// Lets two places compare what they have seen. Nothing changes.
    pub fn meet(&self, one: &mut Place, other: &mut Place)
        requires one_here { one.old.table ≡ self.now.table }
        requires other_here { other.old.table ≡ self.now.table }
        ensures one_same { one.new ≡ one.old }
        ensures other_same { other.new ≡ other.old }
        // Where both have seen one opening, what they have seen begins one good history.
        ensures met { AreOfOne one.old.view.seen other.old.view.seen }
    {
        let note = self.table.shared.split_seat::<Notes>(&mut other.seat);
        self.table.shared.join_seat::<Notes>(&mut one.seat, note);
        self.table.shared.load::<Meets>(&mut one.seat, 0);
    }

    /// Takes a place back. What it saw and what it made stay known.
    pub fn give_back(&mut self, place: Place)
        requires here { place.table ≡ self.old.table }
        requires some { self.old.back < self.old.dealt }
        ensures { self.new ≡ with_back self.old (trace place.number place.view) }
    {
        let Slot {
            table,
            dealer,
            dealt: _,
            back,
        } = self;
        let Place { seat, .. } = place;
        table.shared.join_seat::<Gathers>(dealer, seat);
        *back += 1;
    }

    /// Takes the book out for good, where all places came back.
    pub fn finish(self) -> Book
        requires all { self.back ≡ self.dealt }
        // It is good, and of the book that was laid into the slot.
        ensures good { IsOf self.origin result }
        // There is one history of each opening, of which the book's is the last, and all that any place had seen begins that of its opening.
        // Nobody but these places has changed the book: each history is the one that was laid into the slot, or one of them left it, and
        // there are as many entries and cuts as they have made.
        ensures known { (course : Course) × (course.last ≡ result) × IsCourseOf self.origin course × EachBegins course self.known × IsMadeBy self.origin course self.known }
    {
        let Slot { table, dealer, .. } = self;
        let mut closed = table.close_with(dealer);
        let book = closed.take(0);
        closed.free();
        book
    }
}

impl Place {
    /// Its number at its slot, from 1 on: the entries of its calls carry it.
    pub fn number(&self) -> u32
        ensures { result ≡ self.now.number }
    {
        self.number
    }
}
