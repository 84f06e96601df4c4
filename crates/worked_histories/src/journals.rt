//! Histories of journals: pages, cuts, rolls, and journals and tables of versions that are full.
use crate::answers::Answer::{
    FinishedBy, IgnoredBy, Installed, Moved, Permitted, PermittedBy, Refused, Released,
};
use crate::answers::{Answer, FAILURE, FULL, NO_TICKET, SPENT, SUCCESS};
use crate::histories::HALF_A_SECOND;
use crate::readings::Shown::{
    Budget, Failed, Free, In, Last, Oldest, OpenTickets, Period, Rates, Total, Version,
};
use crate::steps::Handed::{Many, Nothing, These};
use crate::steps::Step;
use crate::steps::Step::{
    Call, Calls, Count, Cut, Fresh, LastNumber, Page, Roll, Stands, Versions,
};
use crate::wishes::Wish::{Acquire, InstallDefault, InstallIgnoring, Move, Release, Report, Reset};
use book::Fate::Recorded;
use book::State::{Closed, Disabled, HalfOpen, Open};
use bpf_profile::Verdict::Failure;
use refusals::RefusalNumber::{JournalFull, TicketsOpen, VersionsFull};

const NO_VERSION: Answer = Refused(VersionsFull);

/// The first ticket of the history below.
pub const LATER_TICKET: u64 = 1_000;

/// Calls of a service whose tickets begin at that number: those of smaller numbers are spent.
pub const LATER_TICKETS: &[Step<'static>] = &[
    Call(1, Report(LATER_TICKET - 1, 200), SPENT),
    Call(2, Release(1), SPENT),
    Call(3, Release(0), NO_TICKET),
    Call(4, Release(LATER_TICKET), NO_TICKET),
    Call(5, Acquire, Permitted(LATER_TICKET)),
    Call(6, Release(LATER_TICKET - 1), SPENT),
    Stands(
        7,
        &[
            OpenTickets(1),
            Oldest(LATER_TICKET, 1, 5),
            Free(24),
            Last(5),
        ],
    ),
    Call(8, Report(LATER_TICKET, 200), SUCCESS),
    Call(9, Report(LATER_TICKET, 200), SPENT),
    Call(10, Acquire, Permitted(LATER_TICKET + 1)),
];

/// The greatest number that a first ticket may have.
pub const LAST_TICKET: u64 = 1 << 63;

/// Calls of a service whose tickets begin at that number: behind the first one it is neither cut nor rolled, and goes on.
pub const LAST_TICKETS: &[Step<'static>] = &[
    Cut(Many(0, 0, 0)),
    Call(1, Acquire, Permitted(LAST_TICKET)),
    Call(2, Release(LAST_TICKET), Released(Closed)),
    Cut(Nothing(JournalFull)),
    Call(3, Acquire, Permitted(LAST_TICKET + 1)),
    Roll(3, Nothing(JournalFull)),
];

/// One call of each kind, and more.
pub const EACH_CALL: &[Step<'static>] = &[
    Call(1, Acquire, Permitted(1)),
    Call(2, Report(1, 500), FAILURE),
    Call(3, Acquire, Permitted(2)),
    Stands(
        4,
        &[
            Total(1),
            Failed(1),
            OpenTickets(1),
            Oldest(2, 1, 3),
            Free(24),
            Last(3),
        ],
    ),
    Call(4, Release(2), Released(Closed)),
    Call(5, InstallIgnoring, Installed(2, 2)),
    Call(6, Move(Disabled), Moved(Disabled, 2)),
    Call(7, Reset, Moved(Closed, 3)),
    Stands(8, &[Period(3), Version(2), Budget(2), Last(7)]),
    Page(
        6,
        &[
            (6, 1, Move(Disabled), 6, Moved(Disabled, 2)),
            (7, 1, Reset, 7, Moved(Closed, 3)),
        ],
    ),
    Roll(
        3,
        These(&[
            (1, 1, Acquire, 1, Permitted(1)),
            (2, 1, Report(1, 500), 2, FAILURE),
            (3, 1, Acquire, 3, Permitted(2)),
        ]),
    ),
    Cut(These(&[
        (4, 1, Release(2), 4, Released(Closed)),
        (5, 1, InstallIgnoring, 5, Installed(2, 2)),
        (6, 1, Move(Disabled), 6, Moved(Disabled, 2)),
        (7, 1, Reset, 7, Moved(Closed, 3)),
    ])),
    Call(8, Release(9), NO_TICKET),
    Page(0, &[(8, 1, Release(9), 8, NO_TICKET)]),
];

/// Histories of journals.
pub const JOURNALS: &[Step<'static>] = &[
    // A journal that is cut once its ticket has ended.
    Fresh("numbers go on over cuts", &[]),
    Call(0, Acquire, Permitted(1)),
    Cut(Nothing(TicketsOpen)),
    LastNumber(1),
    Call(1, Report(1, 200), SUCCESS),
    Cut(These(&[
        (1, 1, Acquire, 0, Permitted(1)),
        (2, 1, Report(1, 200), 1, SUCCESS),
    ])),
    Stands(0, &[Period(2), Last(2)]),
    Count(0, 0),
    Call(0, Acquire, Permitted(2)),
    LastNumber(3),
    Page(3, &[(3, 1, Acquire, 1, Permitted(2))]),
    Call(0, Report(1, 200), SPENT),
    Call(1, Report(1, 200), SPENT),
    LastNumber(3),
    // A journal that is rolled while its ticket is open.
    Fresh("numbers go on over rolls", &[]),
    Call(0, Acquire, Permitted(1)),
    Call(1, Reset, Moved(Closed, 2)),
    Roll(1, These(&[(1, 1, Acquire, 0, Permitted(1))])),
    Roll(1, These(&[])),
    LastNumber(2),
    Page(2, &[(2, 1, Reset, 1, Moved(Closed, 2))]),
    Call(0, Release(1), Released(Closed)),
    Roll(
        3,
        These(&[
            (2, 1, Reset, 1, Moved(Closed, 2)),
            (3, 1, Release(1), 1, Released(Closed)),
        ]),
    ),
    Call(0, Acquire, Permitted(2)),
    LastNumber(4),
    Page(4, &[(4, 1, Acquire, 1, Permitted(2))]),
    Fresh("a roll leaves all but its entries", &[]),
    Roll(7, Many(0, 0, 0)),
    Call(0, Acquire, Permitted(1)),
    Call(1, Acquire, Permitted(2)),
    Call(2, Report(2, 500), FAILURE),
    Roll(0, Many(0, 0, 0)),
    Roll(2, Many(2, 2, 1)),
    Roll(2, Many(0, 0, 0)),
    Roll(1, Many(0, 0, 0)),
    Count(0, 1),
    Count(3, 1),
    Count(4, 0),
    Stands(
        0,
        &[
            Total(1),
            Failed(1),
            OpenTickets(1),
            Oldest(1, 1, 0),
            Free(24),
            Last(3),
        ],
    ),
    Call(0, Release(1), Released(Closed)),
    Page(4, &[(4, 1, Release(1), 2, Released(Closed))]),
    Call(0, Release(2), SPENT),
    Roll(99, Many(3, 5, 2)),
    Count(0, 0),
    LastNumber(5),
    Cut(Many(0, 0, 0)),
    LastNumber(5),
    Fresh("a journal holds 65536 entries", &[]),
    Calls(1, 32_768),
    LastNumber(65_536),
    Page(65_536, &[(65_536, 1, Report(32_768, 200), 32_768, SUCCESS)]),
    Call(0, Report(1, 200), SPENT),
    Call(0, Acquire, FULL),
    Call(0, Release(1), FULL),
    Call(0, Reset, FULL),
    Cut(Many(65_536, 65_536, 32_768)),
    Call(0, Acquire, Permitted(32_769)),
    LastNumber(65_537),
    Fresh("a journal keeps a line for each open ticket", &[]),
    Calls(1, 32_767),
    LastNumber(65_534),
    Call(0, Reset, Moved(Closed, 2)),
    Call(0, Acquire, FULL),
    // A full journal is answered before anything else is looked at. The last entry is one of a release.
    Fresh("a full journal ends no stay", HALF_A_SECOND),
    Calls(1, 32_767),
    Call(32_767, Move(HalfOpen), Moved(HalfOpen, 2)),
    Call(33_267, Acquire, FULL),
    Stands(33_267, &[In(HalfOpen), Period(2), Last(65_535)]),
    Call(33_267, Release(1), SPENT),
    Call(33_267, Reset, FULL),
    Stands(33_267, &[In(Open), Period(3), Last(65_536)]),
    Fresh("256 versions are held", &[]),
    Versions(2, 256),
    Call(9, InstallIgnoring, NO_VERSION),
    LastNumber(255),
    Cut(Many(255, 255, 0)),
    Stands(0, &[Period(2), Version(256), Budget(2), Last(255)]),
    Call(0, InstallIgnoring, Installed(257, 2)),
    // Programs that no open ticket needs are dropped by a roll, also by one that hands out no entry.
    Fresh("versions go on past 256", &[]),
    Call(0, Acquire, Permitted(1)),
    Versions(2, 256),
    Call(0, InstallIgnoring, NO_VERSION),
    Call(0, Acquire, PermittedBy(2, 256, Closed)),
    Roll(u64::MAX, Many(257, 257, 0)),
    Call(0, InstallIgnoring, NO_VERSION),
    Call(0, Report(1, 500), FAILURE),
    Call(0, InstallIgnoring, NO_VERSION),
    Roll(0, Many(0, 0, 0)),
    Call(0, InstallDefault, Installed(257, 6)),
    Call(0, Acquire, PermittedBy(3, 257, Closed)),
    Call(0, Report(2, 500), IgnoredBy(256, Closed)),
    Call(
        0,
        Report(3, 500),
        FinishedBy(257, Recorded, Failure, Closed),
    ),
    Versions(258, 511),
    Call(0, InstallIgnoring, NO_VERSION),
    Roll(0, Many(0, 0, 0)),
    Versions(512, 766),
    Call(0, InstallIgnoring, NO_VERSION),
    Stands(
        0,
        &[Version(766), Budget(2), Total(2), Failed(2), Last(771)],
    ),
    Cut(Many(514, 771, 0)),
    Call(0, InstallIgnoring, Installed(767, 2)),
];

/// Histories of as many calls as no journal holds at once.
pub const LONG_JOURNALS: &[Step<'static>] = &[
    // A ticket that is open all the time keeps no journal from going on.
    Fresh("a journal goes on past 200000 entries", &[]),
    Call(0, Acquire, Permitted(1)),
    Calls(2, 32_768),
    LastNumber(65_535),
    Call(0, Acquire, FULL),
    Call(0, Reset, FULL),
    Cut(Nothing(TicketsOpen)),
    Roll(65_000, Many(65_000, 65_000, 32_501)),
    Calls(32_769, 65_000),
    Roll(u64::MAX, Many(64_999, 129_999, 65_000)),
    Count(0, 0),
    Calls(65_001, 97_000),
    Roll(193_999, Many(64_000, 193_999, 97_000)),
    Calls(97_001, 100_000),
    Call(100_001, Report(1, 200), SUCCESS),
    Page(200_000, &[(200_000, 1, Report(1, 200), 100_001, SUCCESS)]),
    Count(0, 6_001),
    Count(193_999, 6_001),
    Count(194_001, 6_000),
    Stands(0, &[Total(100), Rates(0, 0), Last(200_000)]),
    Cut(Many(6_001, 200_000, 100_001)),
];
