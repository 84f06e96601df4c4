//! What seats of a slot's table know, and the rule that holds between any two of their steps.
use atomic_table::{Join, Play, Split, TableRule};
use book::{Book, Entry};
use ghost_list::GhostList;
use std::collections::LinkedList;

/// What a place leaves behind when it is given back: what it saw, and what it made. No value of it is made: proofs alone read it.
pub struct Trace {
    /// Its number.
    pub number: u64,
    /// All histories that it saw, in their order.
    pub seen: LinkedList<Book>,
    /// Those of them that it had changed and put back, in their order.
    pub left: LinkedList<Book>,
    /// How many entries it made, in all openings.
    pub entries: u64,
    /// How often it cut the journal.
    pub cuts: u64,
}

/// What a seat of the table knows. No value of it is made: proofs alone read it.
pub struct View {
    /// The book that was laid into the slot, as it opened.
    pub origin: Option<Book>,
    /// Whether it makes calls: it is no note, and was not given back.
    pub sits: bool,
    /// Its number, which the entries of its calls carry.
    pub number: u64,
    /// Whether it has the book.
    pub holds: bool,
    /// The history that it saw last, if it saw one.
    pub seen: Option<Book>,
    /// All histories that it saw, in their order: those that it took, and those that it put back.
    pub all_seen: LinkedList<Book>,
    /// Those of them that it had changed and put back, in their order.
    pub left: LinkedList<Book>,
    /// Its own entries in the history that it saw last.
    pub mine: LinkedList<Entry>,
    /// How many entries it made, in all openings.
    pub entries: u64,
    /// How often it cut the journal.
    pub cuts: u64,
    /// How often it took the book.
    pub takes: u64,
    /// How often it found the book out.
    pub misses: u64,
    /// Whether it deals the others.
    pub deals: bool,
    /// The number of the next one that is dealt.
    pub next: u64,
    /// How many of the 129 parts of the right to close the table it has.
    pub parts: u64,
    /// What a note says that another seat had seen.
    pub told: Option<Book>,
    /// What those left behind that were given back.
    pub known: LinkedList<Trace>,
}

/// There is one good history of each opening, the last one in the slot or with one seat. All that a seat has seen
/// begins the history of its opening, and each seat knows its own entries in the last one. Nobody but the seats has
/// changed the book: each history is the first one, or one of them left it.
pub struct OneHistory;

// What is remembered of the book that is laid into the slot, as it opens, is the table's key.
impl TableRule<Book, View, GhostList<Book>> for OneHistory {
    ghost use Rattle.std.specs.Prelude.{[]};
    ghost use Rattle.book_slot.specs.Rules.{Kept, dealer, origin_of};

    ghost holds = { λ key. Kept (origin_of key.items) };

    ghost first = { λ key. dealer (origin_of key.items) 1 129 [] };
}

/// A seat takes the book, or finds it out.
pub struct Takes;

impl Play<Book, View> for Takes {
    ghost use Rattle.book_slot.specs.Rules.{Took};

    ghost then = { Took };
}

/// The seat that has the book puts it back.
pub struct Puts;

impl Play<Book, View> for Puts {
    ghost use Rattle.book_slot.specs.Rules.{Put};

    ghost then = { Put };
}

/// The dealer's view is cut in two: a new seat has the next number.
pub struct Deals;

impl Split<View> for Deals {
    ghost use Rattle.book_slot.specs.Rules.{dealt, dealt_to};

    ghost left = { dealt };

    ghost right = { dealt_to };
}

/// The dealer takes a seat back, and keeps what it leaves behind.
pub struct Gathers;

impl Join<View> for Gathers {
    ghost use Rattle.book_slot.specs.Rules.{gathered};
    ghost use Rattle.book_slot.specs.Trying.{spent};

    ghost both = { gathered };

    ghost spent = { spent };
}

/// A note of what a seat has seen goes from it to another one.
pub struct Notes;

impl Split<View> for Notes {
    ghost use Rattle.book_slot.specs.Rules.{note};

    ghost left = { λ v. v };

    ghost right = { note };
}

impl Join<View> for Notes {
    ghost use Rattle.book_slot.specs.Rules.{informed};
    ghost use Rattle.book_slot.specs.Trying.{spent};

    ghost both = { informed };

    ghost spent = { spent };
}

/// A seat compares its note with what it has seen.
pub struct Meets;

impl Play<Book, View> for Meets {
    ghost use Rattle.book_slot.specs.Rules.{Met};

    ghost then = { Met };
}
