//! Which lines the log of a server writes of what it is told and shown.
use crate::checks::{is_true, same, same_at};
use book::{Reading, Reply, State};
use bpf_profile::Layout;
use refusals::RefusalNumber;
use service::{Gate, News};
use service_log::{LogLines, ServiceLog};
use std::alloc::Global;
use std::process::Abort;
use std::sync::{Mutex, Wait};

/// Keeps the lines that it is given.
#[derive(Drop)]
struct Kept<'a, R: Wait> {
    rt: &'a R,
    text: Mutex<String>,
}

impl<'a, R: Wait> Kept<'a, R> {
    fn new(rt: &'a R, alloc: Global) -> Kept<'a, R> {
        Kept {
            rt,
            text: Mutex::new(String::new(alloc)),
        }
    }

    /// Whether these are the lines that it was given since it was asked last.
    fn had(&self, lines: &str) -> bool {
        let mut text = self.text.lock(self.rt);
        let found = text.as_str() == lines;
        text.clear();
        found
    }
}

impl<'a, R: Wait> LogLines for Kept<'a, R> {
    fn log_line(&self, line: &str) {
        let mut text = self.text.lock(self.rt);
        // A line that is lost is missed by the test.
        let _pushed = text.push_str(line);
    }
}

/// A log of the services `pay` and `ship`.
fn log_of<'a, R: Wait + Abort>(
    rt: &'a R,
    alloc: Global,
    lines: &'a Kept<'a, R>,
) -> ServiceLog<'a, R, Kept<'a, R>> {
    let mut names = Vec::new(alloc);
    for name in ["pay", "ship"] {
        let name = String::from_str(alloc, name).expect(rt, "ample memory");
        names.push(name).expect(rt, "ample memory");
    }
    ServiceLog::new(rt, alloc, lines, names).expect(rt, "ample memory")
}

/// A reading that shows this.
fn reading(state: State, period: u64) -> Reading {
    Reading {
        state,
        period,
        version: 1,
        budget: 6,
        total: 0,
        failed: 0,
        slow: 0,
        failure_rate: None,
        slow_rate: None,
        open_tickets: 0,
        free: 25,
        not_permitted: 0,
        entries: 3,
        oldest_ticket: None,
    }
}

#[test]
fn a_state_is_shown_where_it_may_be_another_one(rt: HostRuntime) {
    let rt = &rt;
    let alloc = rt.alloc();
    let lines = Kept::new(rt, alloc);
    let log = log_of(rt, alloc, &lines);
    let opened = Reply::Released { state: State::Open };
    let closed = Reply::Released {
        state: State::Closed,
    };
    let refused = Reply::Refused(RefusalNumber::CallNotPermitted);
    is_true(rt, !log.told(1, 5, News::Answered(closed)));
    is_true(rt, log.told(1, 5, News::Answered(refused)));
    is_true(rt, log.told(1, 6, News::Answered(opened)));
    is_true(rt, lines.had(""));
    log.shown(1, 7, &reading(State::Open, 2));
    is_true(
        rt,
        lines.had("moment=7 service=ship state=OPEN was=CLOSED period=2\n"),
    );
    is_true(rt, !log.told(1, 8, News::Answered(opened)));
    is_true(rt, !log.told(1, 8, News::Answered(refused)));
    // An answer that came late, and a reading of an earlier period, tell nothing.
    is_true(rt, log.told(1, 8, News::Answered(closed)));
    log.shown(1, 8, &reading(State::Open, 2));
    log.shown(1, 8, &reading(State::Closed, 1));
    is_true(rt, lines.had(""));
    // The other service stands where it stood, and a place with no service has no log.
    is_true(rt, !log.told(0, 8, News::Answered(closed)));
    is_true(rt, log.told(0, 8, News::Answered(opened)));
    is_true(rt, !log.told(2, 8, News::Answered(opened)));
    log.shown(2, 8, &reading(State::Open, 2));
    is_true(rt, lines.had(""));
    // A move to the same state begins a period, too.
    let moved = Reply::Moved {
        state: State::Open,
        period: 4,
    };
    is_true(rt, log.told(1, 9, News::Answered(moved)));
    log.shown(1, 9, &reading(State::Open, 4));
    is_true(
        rt,
        lines.had("moment=9 service=ship state=OPEN was=OPEN period=4\n"),
    );
}

#[test]
fn what_becomes_of_a_journal_is_told(rt: HostRuntime) {
    let rt = &rt;
    let alloc = rt.alloc();
    let lines = Kept::new(rt, alloc);
    let log = log_of(rt, alloc, &lines);
    let full = Reply::Refused(RefusalNumber::JournalFull);
    let made = Reply::Released {
        state: State::Closed,
    };
    let rows = [
        (News::Answered(full), "moment=5 service=pay journal=full\n"),
        (News::Answered(full), ""),
        (News::Answered(made), ""),
        (News::Answered(full), "moment=5 service=pay journal=full\n"),
        (News::Paged(7), ""),
        (News::Rolled(7), ""),
        (
            News::Rolled(9),
            "moment=5 service=pay journal=rolled last=9 unread=2\n",
        ),
        (News::Paged(8), ""),
        (
            News::Dropped(9),
            "moment=5 service=pay journal=dropped last=9 unread=0\n",
        ),
        (
            News::Dropped(12),
            "moment=5 service=pay journal=dropped last=12 unread=3\n",
        ),
        (
            News::Released(31),
            "moment=5 service=pay ticket=31 released by age\n",
        ),
        (
            News::Answered(Reply::Installed {
                version: 2,
                budget: 15,
                layout: Layout::One,
            }),
            "moment=5 service=pay installed version=2 budget=15\n",
        ),
        (
            News::Answered(Reply::Refused(RefusalNumber::BulkheadFull)),
            "",
        ),
    ];
    for (news, wanted) in rows {
        is_true(rt, !log.told(0, 5, news));
        same_at(rt, lines.had(wanted), true, news);
    }
    is_true(rt, log.told(0, 6, News::Cut(20)));
    is_true(rt, lines.had("moment=6 service=pay journal=cut last=20\n"));
    is_true(rt, !log.told(0, 6, News::Rolled(20)));
    is_true(rt, lines.had(""));
}

/// How many lines of a hundred and fifty in this second are written.
fn written<R: Wait + Abort>(
    log: &ServiceLog<'_, R, Kept<'_, R>>,
    lines: &Kept<'_, R>,
    moment: u64,
) -> u64 {
    let mut written = 0u64;
    for ticket in 0..150 {
        let _wants = log.told(0, moment, News::Released(ticket));
        if !lines.had("") {
            written = written.saturating_add(1);
        }
    }
    written
}

#[test]
fn a_second_has_a_hundred_lines(rt: HostRuntime) {
    let rt = &rt;
    let alloc = rt.alloc();
    let lines = Kept::new(rt, alloc);
    let log = log_of(rt, alloc, &lines);
    same(rt, written(&log, &lines, 1_999), 100);
    let _wants = log.told(0, 2_000, News::Released(7));
    is_true(
        rt,
        lines.had(
            "moment=2000 service=pay left out lines=50\nmoment=2000 service=pay ticket=7 released by age\n",
        ),
    );
    same(rt, written(&log, &lines, 2_999), 99);
    // The other service has lines of its own.
    let _wants = log.told(1, 2_999, News::Released(7));
    is_true(
        rt,
        lines.had("moment=2999 service=ship ticket=7 released by age\n"),
    );
}

#[test]
fn a_minute_has_one_report_that_is_refused(rt: HostRuntime) {
    let rt = &rt;
    let alloc = rt.alloc();
    let lines = Kept::new(rt, alloc);
    let log = log_of(rt, alloc, &lines);
    let wrong = b"{\"ticket\":1,\"outcome\":{\"duration_ms\":12.5}}";
    log.refused(0, 59_999, wrong);
    is_true(
        rt,
        lines.had(
            "moment=59999 service=pay report=refused outcome.duration_ms: 12.5 is not a whole number from 0 to 18446744073709551615\n",
        ),
    );
    log.refused(0, 59_999, wrong);
    is_true(rt, lines.had(""));
    log.refused(0, 60_000, b"{\"outcome\":{}}");
    is_true(
        rt,
        lines.had("moment=60000 service=pay report=refused ticket: the key is missing\n"),
    );
    log.refused(0, 59_999, wrong);
    is_true(rt, lines.had(""));
    log.refused(1, 60_000, b"{");
    is_true(
        rt,
        lines.had(
            "moment=60000 service=ship report=refused line 1, column 1: this is no JSON (EOF while parsing at line 1 column 1)\n",
        ),
    );
}
