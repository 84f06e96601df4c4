//! Programs for the two layouts of a record: each version has its own, and judges what it sees.
use crate::checks::same;
use book::{Book, Config, ConfigParts, Event, Fate, Reply, State};
use bpf_profile::{Layout, Verdict};
use bpf_run::judge;
use helpers::Record;
use packed_outcomes::PackedOutcome;
use refusals::RefusalNumber;
use std::alloc::Global;
use std::process::Abort;
use std::sync::Arc;
use verifier::{Refusal, Verified, default_classifier, verify};

/// `r1 = 64`, a call of helper 2, `r0 &= 1` and `exit`: the lowest bit of the byte behind the first 64 of the body.
const BYTE_64: [u8; 32] = [
    0xb7, 1, 0, 0, 64, 0, 0, 0, 0x85, 0, 0, 0, 2, 0, 0, 0, 0x57, 0, 0, 0, 1, 0, 0, 0, 0x95, 0, 0,
    0, 0, 0, 0, 0,
];

/// `r0 = 2` and `exit`: every outcome is ignored.
const IGNORING: [u8; 16] = [0xb7, 0, 0, 0, 2, 0, 0, 0, 0x95, 0, 0, 0, 0, 0, 0, 0];

/// The program of these bytes, for a layout.
fn program(rt: &impl Abort, alloc: Global, bytes: &[u8], layout: Layout) -> Verified {
    verify(alloc, bytes, layout).expect(rt, "a program that is accepted")
}

/// Installs the program of these bytes, for a layout.
fn install(rt: &impl Abort, alloc: Global, book: &mut Book, bytes: &[u8], layout: Layout) -> Reply {
    let program = Arc::new(alloc, program(rt, alloc, bytes, layout)).expect(rt, "ample memory");
    book.apply(0, 0, Event::Install(program))
}

/// A book of the defaults with the default classifier.
fn book(rt: &impl Abort, alloc: Global) -> Book {
    let config = Config::new(ConfigParts::DEFAULT).expect(rt, "the defaults");
    let classifier = default_classifier(alloc).expect(rt, "the default classifier");
    Book::open(alloc, config, classifier).expect(rt, "ample memory")
}

/// An outcome with one byte of its context that is not 0.
fn marked(rt: &impl Abort, alloc: Global, place: usize) -> PackedOutcome {
    let mut context = [0u8; 192];
    let byte = context.get_mut(place).expect(rt, "a place of the record");
    *byte = 1;
    let record = Record::from_parts(context, [0; 16], &[]).expect(rt, "an empty tag");
    PackedOutcome::pack(alloc, &record).expect(rt, "ample memory")
}

#[test]
fn layouts_are_told_at_an_install(rt: HostRuntime) {
    let alloc = rt.alloc();
    let mut book = book(&rt, alloc);
    for (layout, version) in [(Layout::One, 2), (Layout::Two, 3), (Layout::Two, 4)] {
        let installed = Reply::Installed {
            version,
            budget: 2,
            layout,
        };
        same(
            &rt,
            install(&rt, alloc, &mut book, &IGNORING, layout),
            installed,
        );
    }
}

#[test]
fn work_for_another_layout_is_a_strangers(rt: HostRuntime) {
    let alloc = rt.alloc();
    let mut book = book(&rt, alloc);
    install(&rt, alloc, &mut book, &IGNORING, Layout::Two);
    book.apply(0, 0, Event::Acquire);
    let ignored = Reply::Finished {
        fate: Fate::Ignored,
        verdict: Verdict::Ignored,
        steps: 2,
        version: 2,
        state: State::Closed,
    };
    for (layout, reply) in [
        (Layout::One, Reply::Refused(RefusalNumber::Stranger)),
        (Layout::Two, ignored),
    ] {
        let program = Arc::new(alloc, program(&rt, alloc, &IGNORING, layout));
        let judged = judge(program.expect(&rt, "ample memory"), marked(&rt, alloc, 0));
        same(&rt, book.apply(0, 0, Event::Finish(judged, 1)), reply);
    }
}

#[test]
fn bytes_behind_the_first_layout_are_judged_by_the_second(rt: HostRuntime) {
    let alloc = rt.alloc();
    let refusal = Refusal {
        slot: 1,
        number: RefusalNumber::HelperArgument,
    };
    same(
        &rt,
        verify(alloc, &BYTE_64, Layout::One).err(),
        Some(refusal),
    );
    let mut book = book(&rt, alloc);
    install(&rt, alloc, &mut book, &BYTE_64, Layout::Two);
    for (ticket, place, verdict) in [(1, 127, Verdict::Success), (2, 128, Verdict::Failure)] {
        book.apply(0, 0, Event::Acquire);
        let program = book.look(ticket).expect(&rt, "an open ticket");
        let finished = Reply::Finished {
            fate: Fate::Recorded,
            verdict,
            steps: 4,
            version: 2,
            state: State::Closed,
        };
        let judged = judge(program, marked(&rt, alloc, place));
        same(
            &rt,
            book.apply(0, 0, Event::Finish(judged, ticket)),
            finished,
        );
    }
}
