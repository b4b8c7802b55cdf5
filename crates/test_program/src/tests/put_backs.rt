//! Plans with busy workers, which put back what they remove, and what comes of them.
use super::gates::Holding::{Rules, Yields};
use super::gates::Kind::{
    Busy, Cancelled, Cancelling, Cleaning, Closed, PuttingBack, Removed, Submitted, Working,
};
use super::gates::Rule;
use super::plans::{ALL, Row};

/// The busy worker puts IRP 0 back at the front, where the worker gets it before IRP 1: it waits for both inserts, and the
/// worker for its second turn. The canceller waits for the worker's removal, and then cancels IRP 0, too late, and IRP 1.
pub(super) const PUT_BACK: Row<'static> = Row {
    numbers: [2, 2, 1, 1, 1, 2, 1],
    limits: &[2, 2],
    holding: Rules(&[
        Rule {
            at: Busy,
            least: 0,
            most: 0,
            first: ALL,
            all: &[(Submitted, 2)],
        },
        Rule {
            at: Working,
            least: 0,
            most: 1,
            first: ALL,
            all: &[(Busy, 2)],
        },
        Rule {
            at: Removed,
            least: 0,
            most: 1,
            first: ALL,
            all: &[(Cancelled, 2)],
        },
        Rule {
            at: Cancelling,
            least: 0,
            most: 1,
            first: ALL,
            all: &[(Removed, 1)],
        },
        Rule {
            at: Busy,
            least: 1,
            most: 1,
            first: ALL,
            all: &[(Cancelled, 2)],
        },
        Rule {
            at: Cleaning,
            least: 1,
            most: 1,
            first: ALL,
            all: &[(Cancelled, 2)],
        },
    ]),
    points: &[
        (PuttingBack, (1, 0, 0x1)),
        (Busy, (2, 1, 0x3)),
        (Removed, (1, 0, 0x1)),
    ],
    lines: &[
        ("listed", 0),
        ("completed", 2),
        ("succeeded", 1),
        ("completed by workers", 1),
        ("completed by cancellers", 1),
        ("completed by cleanup", 0),
        ("completed by busy workers", 0),
        ("removals", 2),
        ("put-backs", 1),
    ],
};

/// The IRP is cancelled between its removal and its put-back, which returns it as cancelled: the busy worker completes it.
pub(super) const PUT_BACK_CANCELLED: Row<'static> = Row {
    numbers: [1, 2, 1, 1, 1, 2, 1],
    limits: &[1, 1],
    holding: Rules(&[
        Rule {
            at: Busy,
            least: 0,
            most: 0,
            first: ALL,
            all: &[(Submitted, 1)],
        },
        Rule {
            at: PuttingBack,
            least: 0,
            most: 0,
            first: ALL,
            all: &[(Cancelled, 1)],
        },
        Rule {
            at: Cancelling,
            least: 0,
            most: 0,
            first: ALL,
            all: &[(PuttingBack, 1)],
        },
        Rule {
            at: Working,
            least: 0,
            most: 1,
            first: ALL,
            all: &[(Busy, 2)],
        },
        Rule {
            at: Cleaning,
            least: 1,
            most: 1,
            first: ALL,
            all: &[(Busy, 2)],
        },
    ]),
    points: &[
        (PuttingBack, (1, 0, 0x1)),
        (Busy, (2, 1, 0x3)),
        (Removed, (0, 0, 0)),
    ],
    lines: &[
        ("completed", 1),
        ("cancelled", 1),
        ("completed by cancellers", 0),
        ("completed by busy workers", 1),
        ("cancels too early or too late", 1),
        ("cancels after the removal", 1),
        ("put-backs", 1),
    ],
};

/// Its file object is cleaned up between them: the put-back is refused, and the busy worker completes the IRP.
pub(super) const PUT_BACK_CLOSED: Row<'static> = Row {
    numbers: [1, 1, 1, 1, 1, 2, 1],
    limits: &[1],
    holding: Rules(&[
        Rule {
            at: Busy,
            least: 0,
            most: 0,
            first: ALL,
            all: &[(Submitted, 1)],
        },
        Rule {
            at: PuttingBack,
            least: 0,
            most: 0,
            first: ALL,
            all: &[(Closed, 1)],
        },
        Rule {
            at: Cleaning,
            least: 0,
            most: 0,
            first: ALL,
            all: &[(PuttingBack, 1)],
        },
        Rule {
            at: Cancelling,
            least: 0,
            most: 0,
            first: ALL,
            all: &[(Busy, 2)],
        },
        Rule {
            at: Working,
            least: 0,
            most: 1,
            first: ALL,
            all: &[(Busy, 2)],
        },
    ]),
    points: &[
        (PuttingBack, (1, 0, 0x1)),
        (Closed, (1, 0, 1)),
        (Removed, (0, 0, 0)),
    ],
    lines: &[
        ("completed", 1),
        ("cancelled", 1),
        ("completed by cleanup", 0),
        ("completed by cancellers", 0),
        ("completed by busy workers", 1),
        ("put-backs", 1),
    ],
};

/// Another IRP of its file object is inserted between them, which has then as many as its limit: the put-back is refused.
pub(super) const PUT_BACK_FULL: Row<'static> = Row {
    numbers: [2, 1, 1, 1, 1, 2, 1],
    limits: &[1],
    holding: Rules(&[
        Rule {
            at: Busy,
            least: 0,
            most: 0,
            first: ALL,
            all: &[(Submitted, 1)],
        },
        Rule {
            at: Submitted,
            least: 0,
            most: 0,
            first: ALL,
            all: &[(PuttingBack, 1)],
        },
        Rule {
            at: PuttingBack,
            least: 0,
            most: 0,
            first: ALL,
            all: &[(Submitted, 2)],
        },
        Rule {
            at: Cancelling,
            least: 0,
            most: 1,
            first: ALL,
            all: &[(Busy, 2)],
        },
        Rule {
            at: Busy,
            least: 1,
            most: 1,
            first: ALL,
            all: &[(Cancelled, 2)],
        },
        Rule {
            at: Working,
            least: 0,
            most: 1,
            first: ALL,
            all: &[(Cancelled, 2)],
        },
        Rule {
            at: Cleaning,
            least: 0,
            most: 0,
            first: ALL,
            all: &[(Cancelled, 2)],
        },
    ]),
    points: &[
        (Submitted, (2, 1, 0x3)),
        (PuttingBack, (1, 0, 0x1)),
        (Removed, (0, 0, 0)),
    ],
    lines: &[
        ("completed", 2),
        ("cancelled", 2),
        ("completed by cancellers", 1),
        ("completed by busy workers", 1),
        ("put-backs", 1),
    ],
};

/// Busy workers beside the others, all of whom yield.
pub(super) const BUSY: Row<'static> = Row {
    numbers: [64, 4, 2, 2, 2, 64, 3],
    limits: &[1, 2, 4, 64],
    holding: Yields,
    points: &[],
    lines: &[("inserts", 64), ("removals", 128), ("cancels", 64)],
};
