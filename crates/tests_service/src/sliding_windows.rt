//! Windows by hand, and beside the plain filter over all notes.
use crate::checks::same_at;
use std::alloc::{AllocError, Global};
use std::process::Abort;
use windows::{CountWindow, Note, TimeWindow, Totals, Window};

fn totals(total: u64, failed: u64, slow: u64) -> Totals {
    Totals {
        total,
        failed,
        slow,
    }
}

/// What is done with a window, or read from it.
#[derive(Clone, Copy)]
enum Step {
    /// At a moment a note is made, of a call that failed or not, and that was slow or not.
    Note(u64, bool, bool),
    /// At a moment so many notes count, of which so many failed and so many were slow.
    Counts(u64, (u64, u64, u64)),
    Clear,
}

/// Goes through the steps of a window.
fn play<W: Window>(rt: &impl Abort, window: &mut W, steps: &[Step]) {
    for (index, step) in steps.iter().enumerate() {
        match *step {
            Step::Note(moment, failed, slow) => note(rt, window, moment, failed, slow),
            Step::Counts(moment, (total, failed, slow)) => {
                let wanted = totals(total, failed, slow);
                same_at(rt, window.totals(moment), wanted, index);
            }
            Step::Clear => window.clear(),
        }
    }
}

/// Records a note, and sees that its totals were foretold.
fn note<W: Window>(rt: &impl Abort, window: &mut W, moment: u64, failed: bool, slow: bool) {
    assert!(rt; window.has_room_for_note());
    let foretold = window.totals_with(moment, failed, slow);
    window.record(moment, failed, slow);
    same_at(rt, window.totals(moment), foretold, &moment);
}

#[test]
fn the_last_notes_count(rt: HostRuntime) {
    let mut window = CountWindow::new(rt.alloc(), 2).expect(&rt, "ample memory");
    play(
        &rt,
        &mut window,
        &[
            Step::Counts(0, (0, 0, 0)),
            Step::Note(1, true, false),
            Step::Counts(1, (1, 1, 0)),
            Step::Note(1, false, true),
            Step::Counts(9, (2, 1, 1)),
            Step::Note(2, true, true),
            Step::Counts(u64::MAX, (2, 1, 2)),
            Step::Clear,
            Step::Counts(2, (0, 0, 0)),
        ],
    );
}

#[test]
fn the_last_seconds_count(rt: HostRuntime) {
    let mut window = TimeWindow::new(rt.alloc(), 3).expect(&rt, "ample memory");
    play(
        &rt,
        &mut window,
        &[
            Step::Note(0, false, false),
            Step::Note(1000, true, false),
            Step::Note(2000, false, true),
            Step::Counts(2000, (3, 1, 1)),
            Step::Counts(2999, (3, 1, 1)),
            Step::Counts(3000, (2, 1, 1)),
            Step::Counts(4000, (1, 0, 1)),
            Step::Counts(5000, (0, 0, 0)),
            Step::Clear,
            Step::Counts(2000, (0, 0, 0)),
        ],
    );
}

#[test]
fn the_last_moment_counts(rt: HostRuntime) {
    let mut window = TimeWindow::new(rt.alloc(), 3600).expect(&rt, "ample memory");
    play(
        &rt,
        &mut window,
        &[
            Step::Note(0, false, false),
            Step::Note(u64::MAX, false, false),
            Step::Counts(u64::MAX, (1, 0, 0)),
        ],
    );
}

/// The totals over the notes from a place on that are of a second or a later one.
fn counted(notes: &[Note], first: usize, second: u64) -> Totals {
    let mut totals = totals(0, 0, 0);
    for note in notes.iter().skip(first) {
        if note.moment / 1000 >= second {
            totals.total = totals.total.saturating_add(1);
            totals.failed = totals.failed.saturating_add(u64::from(note.failed));
            totals.slow = totals.slow.saturating_add(u64::from(note.slow));
        }
    }
    totals
}

/// The second from which on notes count in a window of so many seconds.
fn first_second(seconds: u64, moment: u64) -> u64 {
    (moment / 1000).saturating_add(1).saturating_sub(seconds)
}

/// Notes at moments that go up, by up to a second and a half or, one time in eight, by up to a minute.
fn random_notes(alloc: Global, count: usize) -> Result<Vec<Note>, AllocError> {
    let mut notes = Vec::new(alloc);
    let mut random: u64 = 7;
    let mut moment: u64 = 0;
    for _ in 0..count {
        random = random
            .wrapping_mul(6_364_136_223_846_793_005)
            .wrapping_add(1_442_695_040_888_963_407);
        let drawn = random >> 40;
        let longest = if drawn % 8 == 0 { 60_000 } else { 1_500 };
        moment = moment.saturating_add(drawn / 32 % longest);
        notes.push(Note {
            moment,
            failed: drawn / 8 % 2 == 0,
            slow: drawn / 16 % 2 == 0,
        })?;
    }
    Ok(notes)
}

/// A window counts of the notes so far those that the plain filter does.
fn agrees<W: Window>(
    rt: &impl Abort,
    window: &W,
    so_far: &[Note],
    moment: u64,
    first: usize,
    second: u64,
) {
    let wanted = counted(so_far, first, second);
    same_at(rt, window.totals(moment), wanted, (&moment, &first));
}

/// A count window of 17 notes agrees with the filter behind each note.
fn counts_notes(rt: &impl Abort, window: &mut CountWindow, notes: &[Note]) {
    for (index, noted) in notes.iter().enumerate() {
        note(rt, window, noted.moment, noted.failed, noted.slow);
        let so_far = &notes[..index + 1];
        let first = so_far.len().saturating_sub(17);
        agrees(rt, window, so_far, noted.moment, first, 0);
    }
}

#[test]
fn a_count_window_is_the_last_notes(rt: HostRuntime) {
    let notes = random_notes(rt.alloc(), 300).expect(&rt, "ample memory");
    let mut window = CountWindow::new(rt.alloc(), 17).expect(&rt, "ample memory");
    counts_notes(&rt, &mut window, &notes);
}

/// A time window of 17 seconds agrees with the filter at a moment, and so long behind it.
fn counts_later(
    rt: &impl Abort,
    window: &TimeWindow,
    so_far: &[Note],
    moment: u64,
    delays: &[u64],
) {
    for delay in delays {
        let later = moment.saturating_add(*delay);
        agrees(rt, window, so_far, later, 0, first_second(17, later));
    }
}

/// A time window of 17 seconds agrees with the filter behind each note.
fn counts_seconds(rt: &impl Abort, window: &mut TimeWindow, notes: &[Note]) {
    for (index, noted) in notes.iter().enumerate() {
        note(rt, window, noted.moment, noted.failed, noted.slow);
        let so_far = &notes[..index + 1];
        let delays = &[0, 900, 5_000, 16_000, 100_000];
        counts_later(rt, window, so_far, noted.moment, delays);
    }
}

#[test]
fn a_time_window_is_the_notes_of_its_seconds(rt: HostRuntime) {
    let notes = random_notes(rt.alloc(), 300).expect(&rt, "ample memory");
    let mut window = TimeWindow::new(rt.alloc(), 17).expect(&rt, "ample memory");
    counts_seconds(&rt, &mut window, &notes);
}
