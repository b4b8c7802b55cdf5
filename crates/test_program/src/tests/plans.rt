//! Plans of devices, what holds their threads up, and what comes of them.
use super::gates::Holding::{InOrder, Rules, Yields};
use super::gates::Kind::{
    self, Cancelled, Cancelling, Cleaning, Closed, Removed, Starting, Submitted, Working,
};
use super::gates::{Holding, Rule};

/// A plan: how many IRPs, file objects, submitters, workers, cancellers, turns and busy workers there are, and how many
/// IRPs of each file object may be listed. What holds its threads up; what is told of each kind, by how often, the sum
/// of the numbers and the bits of those below 64; and the numbers of lines of its totals.
#[derive(Clone, Copy)]
pub(super) struct Row<'a> {
    pub(super) numbers: [u32; 7],
    pub(super) limits: &'a [u32],
    pub(super) holding: Holding<'a>,
    pub(super) points: &'a [(Kind, (u64, u64, u64))],
    pub(super) lines: &'a [(&'a str, u32)],
}

pub(super) const ALL: u64 = 1_000_000;

/// All threads have started before one makes a call.
const STARTED: &[(Kind, u64)] = &[(Starting, 11)];

/// All threads meet at their first points, and the cleanup waits for the inserts.
const MEETING: &[(Kind, u64)] = &[
    (Starting, 11),
    (Submitted, 3),
    (Working, 3),
    (Cancelling, 4),
    (Cleaning, 1),
];

/// Each turn of each thread, of threads that all run at once: of 300 IRPs the submitters insert 0 to 209, and the
/// cancellers cancel 0 to 279. What was not inserted is home.
pub(super) const EACH_TURN: Row<'static> = Row {
    numbers: [300, 5, 3, 3, 4, 70, 0],
    limits: &[300, 300, 300, 300, 300],
    holding: Rules(&[
        Rule {
            at: Starting,
            least: 0,
            most: 0,
            first: ALL,
            all: STARTED,
        },
        Rule {
            at: Submitted,
            least: 0,
            most: 2,
            first: ALL,
            all: MEETING,
        },
        Rule {
            at: Working,
            least: 0,
            most: 0,
            first: ALL,
            all: MEETING,
        },
        Rule {
            at: Cancelling,
            least: 0,
            most: 3,
            first: ALL,
            all: MEETING,
        },
        Rule {
            at: Cleaning,
            least: 0,
            most: 4,
            first: ALL,
            all: MEETING,
        },
        Rule {
            at: Cleaning,
            least: 0,
            most: 4,
            first: ALL,
            all: &[(Submitted, 210)],
        },
    ]),
    points: &[
        (Starting, (11, 0, 0x1)),
        (Submitted, (210, 21_945, 0xFFFF_FFFF_FFFF_FFFF)),
        (Working, (210, 7_245, 0xFFFF_FFFF_FFFF_FFFF)),
        (Cancelling, (280, 39_060, 0xFFFF_FFFF_FFFF_FFFF)),
        (Cancelled, (280, 39_060, 0xFFFF_FFFF_FFFF_FFFF)),
        (Cleaning, (1, 4, 0x10)),
    ],
    lines: &[
        ("home", 90),
        ("listed", 0),
        ("inserts", 210),
        ("removals", 210),
        ("cancels", 280),
    ],
};

/// Each step waits for the one before: of 20 IRPs 0 to 13 are inserted; 0, 1 and 2 are cancelled, then 3 to 9 removed,
/// then 11 is cleaned up.
pub(super) const IN_ORDER: Row<'static> = Row {
    numbers: [20, 3, 2, 1, 1, 7, 0],
    limits: &[20, 20, 20],
    holding: InOrder(
        13,
        &[
            Rule {
                at: Working,
                least: 0,
                most: 6,
                first: ALL,
                all: &[(Cancelled, 3)],
            },
            Rule {
                at: Cancelling,
                least: 0,
                most: 6,
                first: ALL,
                all: &[(Submitted, 14)],
            },
            Rule {
                at: Cancelling,
                least: 3,
                most: 6,
                first: ALL,
                all: &[(Removed, 7)],
            },
            Rule {
                at: Cleaning,
                least: 0,
                most: 2,
                first: ALL,
                all: &[(Cancelled, 4)],
            },
        ],
    ),
    points: &[
        (Submitted, (14, 91, 0x3FFF)),
        (Working, (7, 21, 0x7F)),
        (Removed, (7, 42, 0x3F8)),
        (Cancelling, (7, 21, 0x7F)),
        (Cancelled, (7, 21, 0x7F)),
        (Cleaning, (1, 2, 0x4)),
    ],
    lines: &[
        ("irps", 20),
        ("accounted", 20),
        ("home", 6),
        ("listed", 3),
        ("completed", 11),
        ("succeeded", 7),
        ("cancelled", 4),
        ("completed by submitters", 0),
        ("completed by workers", 7),
        ("completed by cancellers", 3),
        ("completed by cleanup", 1),
        ("inserts", 14),
        ("removals", 7),
        ("cancels", 7),
        ("cancels that took the routine", 3),
        ("cancels too early or too late", 4),
        ("cancels before the insert", 0),
        ("cancels during the insert", 0),
        ("cancels after the removal", 4),
    ],
};

/// Each submitter waits after its first insert until the last file is closed, the canceller for all inserts, and the
/// workers for all cancels: of 20 IRPs 0 to 13 are submitted; 2, 5, 8 and 11 are refused, since their file is closed.
/// 0 to 6 are cancelled, of which 2 and 5 are home, and 7, 9, 10, 12 and 13 are removed.
pub(super) const REFUSED: Row<'static> = Row {
    numbers: [20, 3, 2, 2, 1, 7, 0],
    limits: &[20, 20, 20],
    holding: Rules(&[
        Rule {
            at: Submitted,
            least: 0,
            most: 13,
            first: ALL,
            all: &[(Closed, 1)],
        },
        Rule {
            at: Working,
            least: 0,
            most: 6,
            first: ALL,
            all: &[(Cancelled, 7)],
        },
        Rule {
            at: Cancelling,
            least: 0,
            most: 6,
            first: ALL,
            all: &[(Submitted, 14)],
        },
    ]),
    points: &[
        (Submitted, (14, 91, 0x3FFF)),
        (Removed, (5, 51, 0x3680)),
        (Closed, (1, 0, 1)),
    ],
    lines: &[
        ("home", 10),
        ("listed", 0),
        ("completed", 10),
        ("succeeded", 5),
        ("cancelled", 5),
        ("completed by submitters", 0),
        ("completed by workers", 5),
        ("completed by cancellers", 5),
        ("completed by cleanup", 0),
        ("inserts", 14),
        ("removals", 14),
        ("cancels", 7),
        ("cancels before the insert", 2),
        ("cancels after the removal", 0),
    ],
};

/// The workers alone complete, each its own share: they wait for all inserts, and the canceller and the cleanup for all
/// removals. So do the two workers that come first: each has removed one IRP, and the third removes the ten others.
pub(super) const SHARES: Row<'static> = Row {
    numbers: [12, 2, 3, 3, 1, 10, 0],
    limits: &[12, 12],
    holding: Rules(&[
        Rule {
            at: Working,
            least: 0,
            most: 9,
            first: ALL,
            all: &[(Submitted, 12)],
        },
        Rule {
            at: Removed,
            least: 0,
            most: 11,
            first: 2,
            all: &[(Removed, 12)],
        },
        Rule {
            at: Cancelling,
            least: 0,
            most: 11,
            first: ALL,
            all: &[(Removed, 12)],
        },
        Rule {
            at: Cleaning,
            least: 0,
            most: 1,
            first: ALL,
            all: &[(Removed, 12)],
        },
    ]),
    points: &[(Removed, (12, 66, 0xFFF))],
    lines: &[
        ("home", 0),
        ("listed", 0),
        ("completed", 12),
        ("succeeded", 12),
        ("cancelled", 0),
        ("completed by submitters", 0),
        ("completed by workers", 12),
        ("completed by cancellers", 0),
        ("completed by cleanup", 0),
        ("inserts", 12),
        ("removals", 30),
        ("cancels", 10),
        ("cancels that took the routine", 0),
    ],
};

/// Each point of a device with two IRPs was told once, and its start by each thread.
const ONCE: &[(Kind, (u64, u64, u64))] = &[
    (Starting, (4, 0, 0x1)),
    (Submitted, (2, 1, 0x3)),
    (Working, (64, 2_016, 0xFFFF_FFFF_FFFF_FFFF)),
    (Removed, (1, 0, 0x1)),
    (Cancelling, (2, 1, 0x3)),
    (Cancelled, (2, 1, 0x3)),
    (Cleaning, (1, 0, 0x1)),
];

/// One IRP was removed, and the other one cancelled: before its insert, which then completed it, or after.
const ONE_REMOVED: &[(&str, u32)] = &[
    ("home", 0),
    ("listed", 0),
    ("completed", 2),
    ("succeeded", 1),
    ("cancelled", 1),
    ("completed by workers", 1),
    ("completed by cleanup", 0),
    ("removals", 64),
];

/// The worker waits for the first insert, the submitter and the canceller for the removal of what it inserted, the
/// worker for the second insert and the second cancel, the canceller for the worker's last turn, and the cleanup for
/// all three. So a point that is told before its call is noticed: the worker removes an IRP whose cancel is told and
/// yet to be made.
pub(super) const ONE_ANOTHER: Row<'static> = Row {
    numbers: [2, 1, 1, 1, 1, 64, 0],
    limits: &[2],
    holding: Rules(&[
        Rule {
            at: Submitted,
            least: 0,
            most: 1,
            first: ALL,
            all: &[(Removed, 1)],
        },
        Rule {
            at: Working,
            least: 0,
            most: 63,
            first: ALL,
            all: &[(Submitted, 1)],
        },
        Rule {
            at: Removed,
            least: 0,
            most: 0,
            first: ALL,
            all: &[(Submitted, 2), (Cancelled, 2)],
        },
        Rule {
            at: Cancelling,
            least: 0,
            most: 1,
            first: ALL,
            all: &[(Removed, 1)],
        },
        Rule {
            at: Cancelled,
            least: 1,
            most: 1,
            first: ALL,
            all: &[(Working, 64)],
        },
        Rule {
            at: Cleaning,
            least: 0,
            most: 0,
            first: ALL,
            all: &[(Submitted, 2), (Cancelled, 2), (Working, 64)],
        },
    ]),
    points: ONCE,
    lines: ONE_REMOVED,
};

/// The same with fewer waits: the second IRP may be listed before the first is removed.
pub(super) const AT_FEWER_POINTS: Row<'static> = Row {
    holding: Rules(&[
        Rule {
            at: Working,
            least: 0,
            most: 63,
            first: ALL,
            all: &[(Submitted, 1)],
        },
        Rule {
            at: Removed,
            least: 0,
            most: 0,
            first: ALL,
            all: &[(Cancelled, 2)],
        },
        Rule {
            at: Cancelling,
            least: 0,
            most: 1,
            first: ALL,
            all: &[(Removed, 1)],
        },
        Rule {
            at: Cleaning,
            least: 0,
            most: 0,
            first: ALL,
            all: &[(Submitted, 2), (Cancelled, 2)],
        },
    ]),
    numbers: [2, 1, 1, 1, 1, 64, 0],
    limits: &[2],
    points: ONCE,
    lines: ONE_REMOVED,
};

/// The plan of the program's defaults, whose threads yield.
pub(super) const YIELDING: Row<'static> = Row {
    numbers: [64, 4, 2, 2, 2, 64, 0],
    limits: &[64, 64, 64, 64],
    holding: Yields,
    points: &[],
    lines: &[("inserts", 64), ("removals", 128), ("cancels", 64)],
};

/// What a file object's limit refuses stays home.
pub(super) const LIMITED: Row<'static> = Row {
    numbers: [64, 4, 2, 2, 2, 64, 0],
    limits: &[1, 2, 4, 64],
    holding: Rules(&[]),
    points: &[],
    lines: &[("inserts", 64), ("removals", 128), ("cancels", 64)],
};

/// A run of which each call for memory is refused.
pub(super) const SMALL: Row<'static> = Row {
    numbers: [8, 2, 2, 2, 2, 4, 0],
    limits: &[8, 8],
    holding: Rules(&[]),
    points: &[],
    lines: &[("inserts", 8), ("removals", 8), ("cancels", 8)],
};
