//! The breaker: decisions that change nothing, and what commits them.
ghost use Rattle.std.specs.Prelude.{◌≡◌, ◌<◌, ◌≤◌, ◌+◌, ◌-◌, ◌^◌, ◌++◌, ◌∷◌, [], IsTrue, ◌↔◌, IfOk, IfSome, OnSome};
ghost use Rattle.service_profile.specs.Standings.{is_half_open};

use crate::counters::with_note;
use crate::permissions::{has_overstayed, permission_in};
use crate::rates::after_totals;
use crate::sliding::SlidingWindow;
use service_profile::{Config, MOST_NOTES, Note, Permission, Standing, State, Totals};
use std::alloc::{AllocError, Global};
use std::marker::Model;
use windows::Window;

/// Where a breaker stands, what counts of the notes of its period, and how many permissions of the period
/// are held. Only `new` takes memory.
#[derive(Drop)]
pub struct Breaker {
    pub(crate) config: Config,
    pub(crate) standing: Standing,
    window: SlidingWindow,
    /// The totals of the notes of a period in HALF_OPEN.
    half_open: Totals,
    held: u64,
}

impl Model for Breaker {
    ghost use Rattle.breaker.specs.Situations.{HeldBreaker, AreParts};

    ghost Value = { HeldBreaker };

    ghost view = { λ b. record { config = b.config; standing = b.standing; window = b.window; half_open = b.half_open; held = b.held } };

    ghost invariant = { λ b. AreParts b.config b.window b.half_open };
}

/// Whether the notes of a period are all counted.
pub(crate) fn is_half_open(state: State) -> bool
    ensures { result ≡ is_half_open state }
{
    match state {
        State::HalfOpen => true,
        _ => false,
    }
}

impl Breaker {
    ghost use Rattle.std.specs.Prelude.{◌≡◌, ◌<◌, ◌≤◌, ◌+◌, ◌-◌, ◌^◌, ◌++◌, ◌∷◌, [], IsTrue, ◌↔◌, IfOk, IfSome, OnSome};
    ghost use Rattle.breaker.specs.Situations.{BreakerSituation, StandsFor, HasRoom, first_situation};
    ghost use Rattle.breaker.specs.Calls.{permission_of, after_stay, after_note_in, begun, with_note_in, followed, with_permission, without_permission};
    ghost use Rattle.service_profile.specs.Windows.{totals_of, windowed};
    ghost use Rattle.service_profile.specs.RunningTotals.{AreTotals};
    ghost use Rattle.windows.specs.Notes.{AreNotAfter};

    /// A breaker in CLOSED, in this period, since a moment in milliseconds. It takes all its memory here.
    pub fn new(
        alloc: Global,
        config: Config,
        period: u64,
        since: u64,
    ) -> Result<Breaker, AllocError>
        ensures { IfOk result (λ breaker. StandsFor breaker (first_situation config period since)) }
    {
        let window = SlidingWindow::new(alloc, &config)?;
        Ok(Breaker {
            config,
            standing: Standing {
                state: State::Closed,
                period,
                since,
            },
            window,
            half_open: Totals::NONE,
            held: 0,
        })
    }

    /// The configuration.
    pub fn config(&self) -> Config
        ensures { result ≡ self.now.config }
    {
        self.config
    }

    /// Where the breaker stands.
    pub fn standing(&self) -> Standing
        ensures { result ≡ self.now.standing }
    {
        self.standing
    }

    /// How many permissions of the period are held.
    pub fn permissions_held(&self) -> u64
        ensures { result ≡ self.now.held }
    {
        self.held
    }

    /// Whether one note more can be counted. A breaker with fewer than 2^64 - 8 notes in its period has
    /// room.
    pub fn has_room_for_note(&self) -> bool
        ensures { IsTrue result ↔ HasRoom self.now }
    {
        let Totals {
            total,
            failed,
            slow,
        } = self.half_open;
        if is_half_open(self.standing.state) {
            total <= MOST_NOTES && failed <= MOST_NOTES && slow <= MOST_NOTES
        } else {
            self.window.has_room_for_note()
        }
    }

    /// Where an event at a moment, in milliseconds, finds a breaker whose longest stay in HALF_OPEN is over: in OPEN, in a new
    /// period that begins with this moment. None where no stay ends. It changes nothing.
    pub fn after_stay(&self, moment: u64) -> Option<Standing>
        requires { self.now.standing.period + 1 < 2 ^ 64 }
        ensures { (s : BreakerSituation) → StandsFor self.now s → result ≡ after_stay moment s }
    {
        // A breaker in another state is known by one test.
        if !is_half_open(self.standing.state) {
            return None;
        }
        if has_overstayed(&self.config.parts(), self.standing, moment) {
            Some(self.standing.moved(State::Open, moment))
        } else {
            None
        }
    }

    /// Whether a call at a moment, in milliseconds, is permitted where it finds the breaker at the beginning of the
    /// period of `standing`, with no notes and no permission held; and where the breaker stands then. It changes
    /// nothing.
    pub fn permission_in_new_period(&self, standing: Standing, moment: u64) -> Permission
        requires { standing.period + 1 < 2 ^ 64 }
        ensures { (s : BreakerSituation) → StandsFor self.now s → result ≡ permission_of moment (begun standing s) }
    {
        permission_in(&self.config.parts(), standing, 0, 0, moment)
    }

    /// Whether a call at a moment, in milliseconds, is permitted, and where the breaker stands then: once the wait in
    /// OPEN is over, in a new period in HALF_OPEN, else as it stands. It changes nothing.
    pub fn permission(&self, moment: u64) -> Permission
        requires { self.now.standing.period + 1 < 2 ^ 64 }
        ensures exact { (s : BreakerSituation) → StandsFor self.now s → result ≡ permission_of moment s }
        ensures stays { result.standing.period ≡ self.now.standing.period → result.standing ≡ self.now.standing }
    {
        permission_in(
            &self.config.parts(),
            self.standing,
            self.half_open.total,
            self.held,
            moment,
        )
    }

    /// The totals over the notes that count at a moment.
    pub(crate) fn totals(&self, moment: u64) -> Totals
        ensures exact { (s : BreakerSituation) → StandsFor self.now s → AreNotAfter moment s.notes → result ≡ totals_of (windowed s.config s.standing.state moment s.notes) }
        ensures fits { AreTotals result.total result }
    {
        if is_half_open(self.standing.state) {
            self.half_open
        } else {
            self.window.totals(moment)
        }
    }

    /// The totals over the notes that count once there is one more, at its moment.
    fn totals_after(&self, note: Note) -> Totals
        requires { HasRoom self.now }
        ensures { (s : BreakerSituation) → StandsFor self.now s → AreNotAfter note.moment s.notes → result ≡ totals_of (windowed s.config s.standing.state note.moment (s.notes ++ note ∷ [])) }
    {
        if is_half_open(self.standing.state) {
            with_note(self.half_open, note)
        } else {
            self.window.totals_with(note.moment, note.failed, note.slow)
        }
    }

    /// Where the breaker stands after one note more, whose moment is not before that of a note of the
    /// period. It changes nothing.
    pub fn after_note(&self, note: Note) -> Standing
        requires room { HasRoom self.now }
        requires period { self.now.standing.period + 1 < 2 ^ 64 }
        ensures exact { (s : BreakerSituation) → StandsFor self.now s → AreNotAfter note.moment s.notes → result ≡ after_note_in note s }
        ensures stays { result.period ≡ self.now.standing.period → result ≡ self.now.standing }
    {
        let totals = self.totals_after(note);
        after_totals(&self.config, note.moment, self.standing, totals)
    }

    /// Begins a period, with no notes and no permission held. It takes time that goes with the notes that
    /// count.
    pub fn begin_period(&mut self, standing: Standing)
        ensures begins { (self.new.standing ≡ standing) × (self.new.held ≡ 0) }
        ensures stands { (s : BreakerSituation) → StandsFor self.old s → StandsFor self.new (begun standing s) }
    {
        self.standing = standing;
        self.window.clear();
        self.half_open = Totals::NONE;
        self.held = 0;
    }

    /// Adds a note to the present period. The moment of the note is not before that of another note of the period.
    pub fn add_note(&mut self, note: Note)
        requires { HasRoom self.old }
        ensures same { (self.new.standing ≡ self.old.standing) × (self.new.held ≡ self.old.held) }
        ensures stands { (s : BreakerSituation) → StandsFor self.old s → AreNotAfter note.moment s.notes → StandsFor self.new (with_note_in note s) }
    {
        if is_half_open(self.standing.state) {
            self.half_open = with_note(self.half_open, note);
        } else {
            self.window.record(note.moment, note.failed, note.slow);
        }
    }

    /// Takes a permission of the period.
    pub fn take_permission(&mut self)
        requires { self.old.held < 2 ^ 64 - 8 }
        ensures { self.new ≡ record self.old { held = self.old.held + 1 } }
    {
        self.held += 1;
    }

    /// Gives back a permission of the period.
    pub fn return_permission(&mut self)
        requires { 0 < self.old.held }
        ensures { self.new ≡ record self.old { held = self.old.held - 1 } }
    {
        self.held -= 1;
    }

    /// Moves the breaker to where a decision leads. Where that is the same period, it adds the note, if there is one.
    /// Where it is a new period, this begins with no notes and no permission held.
    pub fn follow(&mut self, next: Standing, note: Option<Note>)
        requires room { OnSome note (HasRoom self.old) }
        // A decision that stays in the period leaves the breaker where it stands.
        requires stays { next.period ≡ self.old.standing.period → next ≡ self.old.standing }
        ensures held { self.new.held ≤ self.old.held }
        ensures stands { (s : BreakerSituation) → StandsFor self.old s → IfSome note (λ n. AreNotAfter n.moment s.notes) → StandsFor self.new (followed next note s) }
    {
        if next.period != self.standing.period {
            self.begin_period(next);
        } else if let Some(note) = note {
            self.add_note(note);
        }
    }
}
