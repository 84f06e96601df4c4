//! The text of a refusal.
use crate::RefusalNumber;
use std::fmt;

/// A refusal as every error and the program show it: its number and name, and where it stands, as
/// `refused 22 AnswerRange slot 1` or `refused 41 UnknownWord line 2`. The refusals numbered 1 to 22 stand
/// at a slot of a program, 41 to 44 on a line of a text, the others nowhere.
#[derive(Clone, Copy)]
pub struct RefusalText {
    /// The refusal.
    pub number: RefusalNumber,
    /// The slot, from 0 on, or the line, from 1 on. It isn't shown where the refusal has neither.
    pub place: usize,
}

impl fmt::Display for RefusalText {
    ghost use Rattle.std.specs.Prelude.{Some};
    ghost use Rattle.refusals.specs.Texts.{refusal_text};

    ghost output = { λ shown. Some (refusal_text shown.number shown.place) };

    fn fmt<W: fmt::Write>(&self, f: &mut fmt::Formatter<W>) -> fmt::Result {
        let number = self.number.number();
        let name = self.number.name();
        let place = self.place;
        match number {
            0..=22 => write!(f, "refused {number} {name} slot {place}"),
            41..=44 => write!(f, "refused {number} {name} line {place}"),
            _ => write!(f, "refused {number} {name}"),
        }
    }
}
