//! Versions and tickets by hand, many tickets, and as many versions as are held.
ghost use Rattle.std.specs.Prelude.{◌≤◌};

use crate::checks::same_at;
use bpf_profile::Layout;
use refusals::RefusalNumber;
use registry::Registry;
use service_profile::OpenTicket;
use std::alloc::Global;
use std::process::Abort;
use std::sync::Arc;
use verifier::{Verified, default_classifier, verify};

/// An open ticket: its number, its version and its period.
type Ticket = (u64, u64, u64);

#[derive(Clone, Copy)]
enum Program {
    /// The default classifier, which executes at most 6 instructions.
    Default,
    /// The program that answers this, which executes 2 instructions.
    Constant(u8),
}

/// What is done with a registry or read from it, and what comes of that.
#[derive(Clone, Copy)]
enum Step {
    /// A ticket is issued in a period.
    Issue(u64, Ticket),
    /// A ticket ends.
    End(u64, Result<Ticket, RefusalNumber>),
    /// A program is installed as a version.
    Install(Program, Result<u64, RefusalNumber>),
    /// A program is installed as each version from 2 to this one.
    InstallUpTo(u64, Program),
    /// A program is held as a version, for which room was made before.
    Hold(Program, u64),
    /// The current program alone is kept, where no ticket is open.
    Keep,
    /// The programs that nobody needs any more are dropped.
    DropUnneeded,
    /// The budget of the program that judges under a ticket, which one more owner of it has, too.
    Looked(u64, Result<u32, RefusalNumber>),
    /// The budget of the program of a version, where that is held.
    Budget(u64, Option<u32>),
    /// How many versions are held, the current one, the next one, and the budget of the current program.
    Versions(usize, u64, u64, u32),
    /// The open ticket of a number, where it is open.
    Open(u64, Option<Ticket>),
    /// Whether a number was given to a ticket.
    IsIssued(u64, bool),
    /// How many tickets are open, and the number of the next one.
    Tickets(usize, u64),
}

/// A program, to be shared.
fn shared(rt: &impl Abort, alloc: Global, program: Program) -> Arc<Verified> {
    let program = match program {
        Program::Default => default_classifier(alloc).expect(rt, "the default classifier"),
        Program::Constant(answer) => constant(rt, alloc, answer),
    };
    Arc::new(alloc, program).expect(rt, "ample memory")
}

/// The program that answers a constant.
fn constant(rt: &impl Abort, alloc: Global, answer: u8) -> Verified {
    let bytes = [0xb7, 0, 0, 0, answer, 0, 0, 0, 0x95, 0, 0, 0, 0, 0, 0, 0];
    verify(alloc, &bytes, Layout::One).expect(rt, "a constant answer")
}

/// A registry that holds the default classifier as version 1.
fn registry(rt: &impl Abort, alloc: Global) -> Registry {
    Registry::new(alloc, shared(rt, alloc, Program::Default), 1, 1).expect(rt, "ample memory")
}

/// Goes through the steps of a registry that holds the default classifier as version 1.
fn play(rt: &impl Abort, alloc: Global, steps: &[Step]) {
    let mut registry = registry(rt, alloc);
    play_with(rt, alloc, &mut registry, steps);
}

/// Goes through the steps of a registry.
fn play_with(rt: &impl Abort, alloc: Global, registry: &mut Registry, steps: &[Step]) {
    for (index, step) in steps.iter().enumerate() {
        take(rt, alloc, registry, *step, index);
    }
}

/// Takes the step at this place.
fn take(rt: &impl Abort, alloc: Global, registry: &mut Registry, step: Step, index: usize) {
    match step {
        Step::Issue(period, ticket) => same_at(rt, issue(rt, registry, period), ticket, index),
        Step::End(number, ended) => same_at(rt, end(registry, number), ended, index),
        Step::Install(kind, version) => {
            let program = shared(rt, alloc, kind);
            same_at(rt, install(rt, registry, program), version, index);
        }
        Step::InstallUpTo(last, kind) => {
            install_up_to(rt, registry, last, shared(rt, alloc, kind));
        }
        Step::Hold(kind, version) => {
            let program = shared(rt, alloc, kind);
            same_at(rt, hold(rt, registry, program), version, index);
        }
        Step::Keep => keep(rt, registry),
        Step::DropUnneeded => registry.drop_unneeded(),
        Step::Looked(number, budget) => {
            same_at(rt, looked(registry, number), budget, index);
            same_at(rt, owned(registry, number), budget, index);
        }
        Step::Budget(version, wanted) => same_at(rt, budget(registry, version), wanted, index),
        Step::Versions(count, current, next, budget) => {
            let wanted = (count, current, next, (budget, budget));
            same_at(rt, versions(registry), wanted, index);
        }
        Step::Open(number, ticket) => {
            same_at(
                rt,
                open(registry, number),
                (ticket, ticket.is_some()),
                index,
            );
        }
        Step::IsIssued(number, issued) => same_at(rt, is_issued(registry, number), issued, index),
        Step::Tickets(count, next) => same_at(rt, tickets(registry), (count, next), index),
    }
}

fn told(ticket: OpenTicket) -> Ticket {
    (ticket.number, ticket.version, ticket.period)
}

/// Issues a ticket, with a number that is far from the last one, at a moment of ten times this number.
fn issue(rt: &impl Abort, registry: &mut Registry, period: u64) -> Ticket {
    let number = registry.next_ticket();
    assert!(rt; number < 1_000_000);
    let ticket = registry
        .issue(period, 10 * number)
        .expect(rt, "ample memory");
    same_at(rt, ticket.moment, 10 * number, number);
    told(ticket)
}

fn end(registry: &mut Registry, number: u64) -> Result<Ticket, RefusalNumber> {
    Ok(told(registry.end(number)?))
}

/// Installs a program, with a version that is far from the last one.
fn install(
    rt: &impl Abort,
    registry: &mut Registry,
    program: Arc<Verified>,
) -> Result<u64, RefusalNumber> {
    assert!(rt; registry.next_version() < 1_000_000);
    registry.install(program)
}

/// Installs a program as each version from 2 to the last.
fn install_up_to(rt: &impl Abort, registry: &mut Registry, last: u64, program: Arc<Verified>) {
    for version in 2..=last {
        let owner = Arc::try_clone(&program).expect(rt, "few owners");
        same_at(rt, install(rt, registry, owner), Ok(version), version);
    }
}

/// Holds a program for which room was made before.
fn hold(rt: &impl Abort, registry: &mut Registry, program: Arc<Verified>) -> u64 {
    assert!(rt; registry.next_version() < 1_000_000);
    assert!(rt; registry.version_count() < 256);
    registry.make_program_room().expect(rt, "ample memory");
    registry.hold(program)
}

/// Keeps the current program of a registry with no open ticket.
fn keep(rt: &impl Abort, registry: &mut Registry) {
    assert_eq!(rt; registry.open_count(), 0);
    registry.keep_current();
}

/// The budget of the program that judges under a ticket.
fn looked(registry: &Registry, ticket: u64) -> Result<u32, RefusalNumber> {
    Ok(registry.look(ticket)?.budget())
}

/// The same by one more owner of that program.
fn owned(registry: &Registry, ticket: u64) -> Result<u32, RefusalNumber> {
    Ok(registry.program_of(ticket)?.budget())
}

/// The budget of the program of a version, where that is held.
fn budget(registry: &Registry, version: u64) -> Option<u32> {
    Some(registry.program(version)?.budget())
}

/// How many versions are held, the current one, the next one, and the budget of the current program, twice.
fn versions(registry: &Registry) -> (usize, u64, u64, (u32, u32)) {
    let budgets = (
        registry.current_program().budget(),
        registry.current_program().budget(),
    );
    (
        registry.version_count(),
        registry.current_version(),
        registry.next_version(),
        budgets,
    )
}

/// The open ticket of a number, and whether it is open.
fn open(registry: &Registry, number: u64) -> (Option<Ticket>, bool) {
    (
        registry.open_ticket(number).map(told),
        registry.is_open(number),
    )
}

fn is_issued(registry: &Registry, number: u64) -> bool {
    registry.is_issued(number)
}

/// How many tickets are open, and the number of the next one.
fn tickets(registry: &Registry) -> (usize, u64) {
    (registry.open_count(), registry.next_ticket())
}

/// A value that may go to another thread.
fn sent<T: Send>(value: T) -> T {
    value
}

#[test]
fn a_new_registry_holds_one_program(rt: HostRuntime) {
    let classifier = shared(&rt, rt.alloc(), Program::Default);
    let registry = Registry::new(rt.alloc(), classifier, 7, 40).expect(&rt, "ample memory");
    let mut registry = sent(registry);
    play_with(
        &rt,
        rt.alloc(),
        &mut registry,
        &[
            Step::Versions(1, 7, 8, 6),
            Step::Budget(6, None),
            Step::Budget(7, Some(6)),
            Step::Budget(8, None),
            Step::Tickets(0, 40),
            Step::IsIssued(1, true),
            Step::IsIssued(39, true),
            Step::IsIssued(0, false),
            Step::IsIssued(40, false),
        ],
    );
}

#[test]
fn a_ticket_is_open_until_it_ends(rt: HostRuntime) {
    play(
        &rt,
        rt.alloc(),
        &[
            Step::End(1, Err(RefusalNumber::NoTicket)),
            Step::Issue(3, (1, 1, 3)),
            Step::Issue(4, (2, 1, 4)),
            Step::Tickets(2, 3),
            Step::Open(1, Some((1, 1, 3))),
            Step::End(1, Ok((1, 1, 3))),
            Step::End(1, Err(RefusalNumber::TicketSpent)),
            Step::End(0, Err(RefusalNumber::NoTicket)),
            Step::End(3, Err(RefusalNumber::NoTicket)),
            Step::Open(1, None),
            Step::IsIssued(1, true),
            Step::Open(2, Some((2, 1, 4))),
            Step::Tickets(1, 3),
            Step::Issue(4, (3, 1, 4)),
        ],
    );
}

#[test]
fn a_ticket_is_judged_by_its_version(rt: HostRuntime) {
    play(
        &rt,
        rt.alloc(),
        &[
            Step::Issue(1, (1, 1, 1)),
            Step::Install(Program::Constant(2), Ok(2)),
            Step::Issue(1, (2, 2, 1)),
            Step::Versions(2, 2, 3, 2),
            Step::Looked(1, Ok(6)),
            Step::Looked(2, Ok(2)),
            Step::Looked(0, Err(RefusalNumber::NoTicket)),
            Step::Looked(3, Err(RefusalNumber::NoTicket)),
            Step::End(1, Ok((1, 1, 1))),
            Step::Looked(1, Err(RefusalNumber::TicketSpent)),
            Step::Looked(2, Ok(2)),
        ],
    );
}

#[test]
fn the_current_program_is_kept_under_its_version(rt: HostRuntime) {
    play(
        &rt,
        rt.alloc(),
        &[
            Step::Hold(Program::Constant(0), 2),
            Step::Hold(Program::Constant(1), 3),
            Step::Keep,
            Step::Versions(1, 3, 4, 2),
            Step::Budget(1, None),
            Step::Budget(2, None),
            Step::Budget(3, Some(2)),
            Step::Keep,
            Step::Versions(1, 3, 4, 2),
            Step::Tickets(0, 1),
            Step::Install(Program::Default, Ok(4)),
            Step::Versions(2, 4, 5, 6),
        ],
    );
}

#[test]
fn at_most_256_versions_are_held(rt: HostRuntime) {
    play(
        &rt,
        rt.alloc(),
        &[
            Step::InstallUpTo(256, Program::Constant(1)),
            Step::Versions(256, 256, 257, 2),
            Step::Install(Program::Constant(1), Err(RefusalNumber::VersionsFull)),
            Step::Versions(256, 256, 257, 2),
            Step::Budget(1, Some(6)),
            Step::Budget(256, Some(2)),
            Step::Budget(257, None),
            Step::Keep,
            Step::Install(Program::Constant(1), Ok(257)),
        ],
    );
}

/// The number of the ticket that ends as the n-th of 10,000: multiples of 7,919, which has no factor in common
/// with their number.
fn shuffled(n: u64) -> u64
    requires { n ≤ 10000 }
{
    n * 7_919 % 10_000 + 1
}

/// Issues 10,000 tickets, of five periods in turn.
fn issue_tickets(rt: &impl Abort, registry: &mut Registry) {
    for number in 1..10_001u64 {
        let period = number % 5;
        let ticket = (number, 1, period);
        same_at(rt, issue(rt, registry, period), ticket, number);
    }
}

/// Ends 10,000 tickets, of which each is spent then.
fn end_tickets(rt: &impl Abort, registry: &mut Registry) {
    for n in 0..10_000u64 {
        let number = shuffled(n);
        let ticket = (number, 1, number % 5);
        same_at(rt, end(registry, number), Ok(ticket), number);
        let spent = Err(RefusalNumber::TicketSpent);
        same_at(rt, end(registry, number), spent, number);
    }
}

#[test]
fn tickets_end_in_another_order(rt: HostRuntime) {
    let mut registry = registry(&rt, rt.alloc());
    issue_tickets(&rt, &mut registry);
    same_at(&rt, tickets(&registry), (10_000, 10_001), 0);
    end_tickets(&rt, &mut registry);
    same_at(&rt, tickets(&registry), (0, 10_001), 0);
    same_at(&rt, issue(&rt, &mut registry, 9), (10_001, 1, 9), 0);
}

/// The number of the open ticket that was issued first, and the moment of its issue.
fn oldest(registry: &Registry) -> Option<(u64, u64)> {
    let ticket = registry.oldest_ticket()?;
    Some((ticket.number, ticket.moment))
}

#[test]
fn the_oldest_open_ticket_is_known(rt: HostRuntime) {
    let mut registry = registry(&rt, rt.alloc());
    same_at(&rt, oldest(&registry), None, 0);
    for number in 1..5u64 {
        let _ticket = issue(&rt, &mut registry, 1);
        same_at(&rt, oldest(&registry), Some((1, 10)), number);
    }
    for (ended, left) in [
        (2, Some((1, 10))),
        (1, Some((3, 30))),
        (3, Some((4, 40))),
        (4, None),
    ] {
        same_at(&rt, end(&mut registry, ended).is_ok(), true, ended);
        same_at(&rt, oldest(&registry), left, ended);
    }
    let _ticket = issue(&rt, &mut registry, 1);
    same_at(&rt, oldest(&registry), Some((5, 50)), 5);
}

#[test]
fn programs_that_nobody_needs_are_dropped(rt: HostRuntime) {
    play(
        &rt,
        rt.alloc(),
        &[
            Step::DropUnneeded,
            Step::Versions(1, 1, 2, 6),
            Step::Issue(1, (1, 1, 1)),
            Step::Install(Program::Constant(1), Ok(2)),
            Step::Issue(1, (2, 2, 1)),
            Step::Install(Program::Constant(1), Ok(3)),
            Step::DropUnneeded,
            Step::Versions(3, 3, 4, 2),
            Step::Looked(1, Ok(6)),
            Step::End(1, Ok((1, 1, 1))),
            Step::DropUnneeded,
            Step::Versions(2, 3, 4, 2),
            Step::Budget(1, None),
            Step::Budget(2, Some(2)),
            Step::Looked(2, Ok(2)),
            Step::Issue(1, (3, 3, 1)),
            Step::End(2, Ok((2, 2, 1))),
            Step::DropUnneeded,
            Step::Versions(1, 3, 4, 2),
            Step::Looked(3, Ok(2)),
            Step::End(3, Ok((3, 3, 1))),
            Step::DropUnneeded,
            Step::Versions(1, 3, 4, 2),
            Step::Tickets(0, 4),
            Step::Install(Program::Default, Ok(4)),
            Step::Versions(2, 4, 5, 6),
            Step::Budget(3, Some(2)),
        ],
    );
}

/// A ticket keeps the versions from its own on, which come between it and the last one too.
#[test]
fn an_open_ticket_keeps_all_later_versions(rt: HostRuntime) {
    play(
        &rt,
        rt.alloc(),
        &[
            Step::Issue(1, (1, 1, 1)),
            Step::InstallUpTo(256, Program::Constant(1)),
            Step::DropUnneeded,
            Step::Versions(256, 256, 257, 2),
            Step::Install(Program::Constant(1), Err(RefusalNumber::VersionsFull)),
            Step::End(1, Ok((1, 1, 1))),
            Step::DropUnneeded,
            Step::Versions(1, 256, 257, 2),
            Step::Install(Program::Constant(1), Ok(257)),
        ],
    );
}
