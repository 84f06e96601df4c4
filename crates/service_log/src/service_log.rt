//! What a log knows of services, and when it writes a line.
ghost use Rattle.service_log.specs.Lines.{IsText};

use crate::lines::{Told, line_of, refused_text, text_of};
use crate::quota::Quota;
use crate::sink::LogLines;
use book::{Reading, Reply, State};
use config_mistakes::report_mistake;
use refusals::RefusalNumber;
use service::{Gate, News};
use std::alloc::{AllocError, Global};
use std::sync::atomic::{AtomicBool, AtomicU64, Ordering};
use std::sync::{Mutex, Wait};

/// What was shown of a service last, and how many lines were written of it.
#[derive(Drop)]
struct Shown {
    state: State,
    period: u64,
    quota: Quota,
}

/// A service, and what the log knows of it.
#[derive(Drop)]
struct Logged {
    name: String,
    /// The number of the state that was shown last.
    state: AtomicU64,
    /// Whether the last event was refused, since the journal is full.
    full: AtomicBool,
    /// The number of the last entry that a page has had, or that isn't held any more.
    read: AtomicU64,
    /// The minute behind the one in which a report was told of last that can't be used; 0 where none was.
    minute: AtomicU64,
    shown: Mutex<Shown>,
}

/// The number of a state.
fn number_of(state: State) -> u64 {
    match state {
        State::Closed => 0,
        State::Open => 1,
        State::HalfOpen => 2,
        State::Disabled => 3,
        State::MetricsOnly => 4,
        State::ForcedOpen => 5,
    }
}

impl Logged {
    /// A service as it opens.
    fn new(name: String) -> Logged {
        Logged {
            name,
            state: AtomicU64::new(number_of(State::Closed)),
            full: AtomicBool::new(false),
            read: AtomicU64::new(0),
            minute: AtomicU64::new(0),
            shown: Mutex::new(Shown {
                state: State::Closed,
                period: 1,
                quota: Quota::NONE,
            }),
        }
    }

    /// Whether another state was shown last.
    fn differs(&self, state: State) -> bool {
        self.state.load(Ordering::Relaxed) != number_of(state)
    }

    /// Whether a state was shown last in which calls may be refused.
    fn refuses(&self) -> bool {
        let state = self.state.load(Ordering::Relaxed);
        state == number_of(State::Open)
            || state == number_of(State::HalfOpen)
            || state == number_of(State::ForcedOpen)
    }

    /// Notes that an entry was made, so that the journal isn't full.
    fn has_room(&self) {
        if self.full.load(Ordering::Relaxed) {
            self.full.store(false, Ordering::Relaxed);
        }
    }

    /// Whether no report that can't be used was told of in the minute of this moment, or in a later one, and notes that one is.
    fn is_first(&self, moment: u64) -> bool {
        let minute = moment / 60_000 + 1;
        self.minute.load(Ordering::Relaxed) < minute
            && self.minute.swap(minute, Ordering::Relaxed) < minute
    }

    /// Notes that entries up to this number were read, or are held no more. Answers how many of them nobody had read.
    fn reads_to(&self, last: u64) -> u64 {
        let read = self.read.load(Ordering::Relaxed);
        if read < last {
            self.read.store(last, Ordering::Relaxed);
        }
        last.saturating_sub(read)
    }
}

/// The log of some services, which all workers of a server share.
#[derive(Drop)]
pub struct ServiceLog<'a, R: Wait, L: LogLines> {
    rt: &'a R,
    alloc: Global,
    lines: &'a L,
    services: Vec<Logged>,
}

impl<'a, R: Wait, L: LogLines> ServiceLog<'a, R, L> {
    /// A log of services with these names, each in CLOSED and with no entry. The error is want of memory.
    pub fn new(
        rt: &'a R,
        alloc: Global,
        lines: &'a L,
        names: Vec<String>,
    ) -> Result<Self, AllocError> {
        let services = names
            .into_iter()
            .map(|name| Logged::new(name))
            .collect(alloc)?;
        Ok(ServiceLog {
            rt,
            alloc,
            lines,
            services,
        })
    }

    /// Writes a line at once. What there is no memory for is lost.
    fn write_line(&self, logged: &Logged, moment: u64, text: &str)
        requires text { IsText text.now }
    {
        if let Ok(line) = line_of(self.alloc, moment, &logged.name, text) {
            self.lines.log_line(&line);
        }
    }

    /// Writes a line that tells this.
    fn write_told(&self, logged: &Logged, moment: u64, told: Told) {
        if let Ok(text) = text_of(self.alloc, told) {
            self.write_line(logged, moment, &text);
        }
    }

    /// Writes a line where its second has room for it, and before it how many were left out.
    fn write(&self, logged: &Logged, shown: &mut Shown, moment: u64, told: Told) {
        let Some(left_out) = shown.quota.take(moment) else {
            return;
        };
        if left_out > 0 {
            self.write_told(logged, moment, Told::LeftOut(left_out));
        }
        self.write_told(logged, moment, told);
    }

    /// Writes a line that says nothing of the state.
    fn tell(&self, logged: &Logged, moment: u64, told: Told) {
        let mut shown = logged.shown.lock(self.rt);
        self.write(logged, &mut shown, moment, told);
    }

    /// Told what an event was answered. Answers whether the state may be another than the one that was shown last.
    fn answered(&self, logged: &Logged, moment: u64, reply: Reply) -> bool {
        match reply {
            Reply::Refused(RefusalNumber::JournalFull) => {
                if !logged.full.swap(true, Ordering::Relaxed) {
                    self.tell(logged, moment, Told::Full);
                }
                false
            }
            Reply::Refused(RefusalNumber::CallNotPermitted) => !logged.refuses(),
            Reply::Refused(_) => false,
            Reply::Permitted { state, .. }
            | Reply::Finished { state, .. }
            | Reply::Released { state } => {
                logged.has_room();
                logged.differs(state)
            }
            Reply::Installed {
                version,
                budget,
                ..
            } => {
                logged.has_room();
                self.tell(logged, moment, Told::Installed(version, budget));
                false
            }
            Reply::Moved { .. } => {
                logged.has_room();
                true
            }
        }
    }
}

impl<'a, R: Wait, L: LogLines> Gate for ServiceLog<'a, R, L> {
    fn between(&self, _ticket: u64) {}

    fn told(&self, service: usize, moment: u64, news: News) -> bool {
        let Some(logged) = self.services.get(service) else {
            return false;
        };
        match news {
            News::Answered(reply) => self.answered(logged, moment, reply),
            News::Paged(last) => {
                let _unread = logged.reads_to(last);
                false
            }
            News::Cut(last) => {
                let _unread = logged.reads_to(last);
                self.tell(logged, moment, Told::Cut(last));
                true
            }
            News::Rolled(last) => {
                let unread = logged.reads_to(last);
                if unread > 0 {
                    self.tell(logged, moment, Told::Rolled(last, unread));
                }
                false
            }
            News::Dropped(last) => {
                let unread = logged.reads_to(last);
                self.tell(logged, moment, Told::Dropped(last, unread));
                false
            }
            News::Released(ticket) => {
                self.tell(logged, moment, Told::Released(ticket));
                false
            }
        }
    }

    fn shown(&self, service: usize, moment: u64, reading: &Reading) {
        let Some(logged) = self.services.get(service) else {
            return;
        };
        let mut shown = logged.shown.lock(self.rt);
        if reading.period <= shown.period {
            return;
        }
        let before = shown.state;
        shown.state = reading.state;
        shown.period = reading.period;
        logged
            .state
            .store(number_of(reading.state), Ordering::Relaxed);
        let told = Told::State(reading.state, before, reading.period);
        self.write(logged, &mut shown, moment, told);
    }

    fn refused(&self, service: usize, moment: u64, body: &[u8]) {
        let Some(logged) = self.services.get(service) else {
            return;
        };
        if !logged.is_first(moment) {
            return;
        }
        if let Ok(Some(words)) = report_mistake(self.alloc, body)
            && let Ok(text) = refused_text(self.alloc, &words)
        {
            self.write_line(logged, moment, &text);
        }
    }
}
