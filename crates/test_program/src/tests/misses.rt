//! Plans whose cancels take no routine, and what comes of them.
use super::gates::Holding::Rules;
use super::gates::Kind::{Cancelled, Cancelling, Cleaning, Inserting, Submitted, Working};
use super::gates::Rule;
use super::plans::{ALL, Row};

/// The canceller of IRP 1 waits for the first insert, and the submitter then for that cancel, which so comes before the
/// insert of IRP 1; that completes it. The cancel of IRP 0 comes after both inserts, and takes its routine.
pub(super) const CANCELLED_BEFORE: Row<'static> = Row {
    numbers: [2, 1, 1, 1, 2, 2, 0],
    limits: &[2],
    holding: Rules(&[
        Rule {
            at: Cancelling,
            least: 1,
            most: 1,
            first: ALL,
            all: &[(Submitted, 1)],
        },
        Rule {
            at: Submitted,
            least: 0,
            most: 0,
            first: ALL,
            all: &[(Cancelled, 1)],
        },
        Rule {
            at: Cancelling,
            least: 0,
            most: 0,
            first: ALL,
            all: &[(Submitted, 2)],
        },
        Rule {
            at: Working,
            least: 0,
            most: 1,
            first: ALL,
            all: &[(Cancelled, 2)],
        },
        Rule {
            at: Cleaning,
            least: 0,
            most: 0,
            first: ALL,
            all: &[(Cancelled, 2)],
        },
    ]),
    points: &[(Cancelled, (2, 1, 0x3)), (Submitted, (2, 1, 0x3))],
    lines: &[
        ("completed", 2),
        ("completed by submitters", 1),
        ("completed by cancellers", 1),
        ("cancels", 2),
        ("cancels too early or too late", 1),
        ("cancels before the insert", 1),
        ("cancels during the insert", 0),
        ("cancels after the removal", 0),
    ],
};

/// The canceller waits until the list is to insert each IRP, and the list for its cancel: the flag was clear before the
/// insert, which finds it set.
pub(super) const CANCELLED_DURING: Row<'static> = Row {
    numbers: [2, 2, 1, 1, 1, 2, 0],
    limits: &[2, 2],
    holding: Rules(&[
        Rule {
            at: Cancelling,
            least: 0,
            most: 0,
            first: ALL,
            all: &[(Inserting, 1)],
        },
        Rule {
            at: Inserting,
            least: 0,
            most: 0,
            first: ALL,
            all: &[(Cancelled, 1)],
        },
        Rule {
            at: Cancelling,
            least: 1,
            most: 1,
            first: ALL,
            all: &[(Inserting, 2)],
        },
        Rule {
            at: Inserting,
            least: 1,
            most: 1,
            first: ALL,
            all: &[(Cancelled, 2)],
        },
        Rule {
            at: Working,
            least: 0,
            most: 1,
            first: ALL,
            all: &[(Submitted, 2)],
        },
        Rule {
            at: Cleaning,
            least: 1,
            most: 1,
            first: ALL,
            all: &[(Submitted, 2)],
        },
    ]),
    points: &[(Inserting, (2, 1, 0x3)), (Cancelled, (2, 1, 0x3))],
    lines: &[
        ("completed", 2),
        ("completed by submitters", 2),
        ("cancels too early or too late", 2),
        ("cancels before the insert", 0),
        ("cancels during the insert", 2),
        ("cancels after the removal", 0),
    ],
};
