//! Tokens by which services and seats count.
ghost use Rattle.std.specs.Prelude.{◌≡◌, ◌+◌, ◌≤◌};

use std::sync::ledger::{Blank, Book, Ledger, Share};

/// A ledger, and the parts of it that nobody has yet.
#[derive(Drop)]
pub(crate) struct Tokens<L: Ledger> {
    pub(crate) book: Book<L>,
    pub(crate) left: Share<L>,
}

impl<L: Ledger> Tokens<L> {
    /// A ledger in which nothing is counted.
    pub(crate) fn new(blank: Blank) -> Tokens<L>
        requires name { blank.name ≡ L.name }
        requires parts { blank.parts ≡ L.parts }
        ensures parts { result.left.parts ≡ L.parts }
        ensures amount { result.left.amount ≡ 0 }
        ensures total { result.book.total ≡ 0 }
    {
        let (book, left) = blank.open::<L>();
        Tokens { book, left }
    }

    /// One part, with so many tokens.
    pub(crate) fn part(&mut self, tokens: u64) -> Share<L>
        requires parts { 1 ≤ self.old.left.parts }
        requires none { self.old.left.amount ≡ 0 }
        ensures one_part { result.parts ≡ 1 }
        ensures tokens { result.amount ≡ tokens }
        ensures parts { self.new.left.parts + 1 ≡ self.old.left.parts }
        ensures none { self.new.left.amount ≡ 0 }
        ensures total { self.new.book.total ≡ self.old.book.total + tokens }
    {
        let Tokens { book, left } = self;
        let mut part = left.split_off(1, 0);
        book.add(&mut part, tokens);
        part
    }

    /// Where all parts have come back, they have all tokens.
    pub(crate) fn audit(self)
        ensures { self.left.parts ≡ L.parts → self.left.amount ≡ self.book.total }
    {
        let Tokens { mut book, mut left } = self;
        book.audit(&mut left);
    }
}
