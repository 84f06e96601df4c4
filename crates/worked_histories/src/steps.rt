//! Steps of histories.
use crate::answers::Answer;
use crate::entries::Entered;
use crate::parts::Part;
use crate::readings::Shown;
use crate::wishes::Wish;
use refusals::RefusalNumber;

/// What is done with a service or read from it, and what comes of that.
#[derive(Clone, Copy)]
pub enum Step<'a> {
    /// A history begins, with what it shows: of a fresh service with the default classifier, whose configuration differs in
    /// these parts from the default one.
    Fresh(&'a str, &'a [Part]),
    /// A call at a moment, and its answer. Where it makes an entry, the page behind the entries before it has just that.
    Call(u64, Wish, Answer),
    /// Calls with the tickets from one number to another, each at the moment of its number and reported there as a success:
    /// two entries a call.
    Calls(u64, u64),
    /// At a moment, what another program made of a response is reported under this ticket.
    Strange(u64, u64, Answer),
    /// The program that ignores every outcome is installed as each version from one number to another.
    Versions(u64, u64),
    /// How the service stands at a moment, where that differs from a fresh one.
    Stands(u64, &'a [Shown]),
    /// The number of the last entry.
    LastNumber(u64),
    /// How many entries there are from a number on, page by page.
    Count(u64, u64),
    /// The page from a number on.
    Page(u64, &'a [Entered]),
    /// A cut.
    Cut(Handed<'a>),
    /// A roll up to a number.
    Roll(u64, Handed<'a>),
}

/// What a cut or a roll hands out.
#[derive(Clone, Copy)]
pub enum Handed<'a> {
    These(&'a [Entered]),
    /// So many entries, of which the last one has this number and this moment; with none both are 0.
    Many(usize, u64, u64),
    Nothing(RefusalNumber),
}

/// A history: what it shows, the configuration of its service, and its steps.
#[derive(Clone, Copy)]
pub struct History<'a> {
    pub name: &'a str,
    pub parts: &'a [Part],
    pub steps: &'a [Step<'a>],
}

/// The history that begins at a place of a table. None where none does.
pub fn history_at<'a>(rows: &'a [Step<'a>], place: usize) -> Option<History<'a>> {
    let (first, behind) = rows.get(place..)?.split_first()?;
    let Step::Fresh(name, parts) = *first else {
        return None;
    };
    let count = behind.iter().take_while(|step| !is_fresh(step)).count();
    let (steps, _) = behind.split_at(count);
    Some(History { name, parts, steps })
}

fn is_fresh(step: &Step<'_>) -> bool {
    matches!(step, Step::Fresh(..))
}
