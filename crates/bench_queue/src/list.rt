//! Turns of a pending list alone.
use crate::Totals;
use csq_list::{Peek, PendingList, Place};
use irp_core::{FileId, IrpId};
use std::rt::Clock;
use std::time::Instant;

pub(crate) const IRPS: u32 = 1024;

pub(crate) const FILES: u32 = 256;

/// Lists every IRP, for one file after the other.
fn fill<L: PendingList>(list: &mut L) {
    for number in 0..IRPS {
        let _ = list.insert_ex(IrpId(number), FileId(number % FILES), Place::Back);
    }
}

/// Takes out what is found for a file, until nothing is. Returns how many that were.
fn empty_file<L: PendingList>(list: &mut L, file: FileId) -> u32 {
    let mut removed = 0u32;
    for _ in 0..IRPS {
        let Some(irp) = list.peek_next(None, Peek::File(file)) else {
            return removed;
        };
        list.remove(irp);
        removed = removed.wrapping_add(1);
    }
    removed
}

/// Fills a list and empties it.
fn fill_and_empty<L: PendingList>(rt: &impl Clock, list: &mut L) -> Option<Totals> {
    let start = Instant::now(rt).ok()?;
    fill(list);
    let mut completed = 0u32;
    for file in 0..FILES {
        completed = completed.wrapping_add(empty_file(list, FileId(file)));
    }
    let taken = start.elapsed(rt).ok()?.as_nanos();
    Some(Totals {
        completed,
        left: IRPS.wrapping_sub(completed),
        nanoseconds: u64::try_from(taken).unwrap_or(u64::MAX),
    })
}

/// A turn of a new list.
pub(crate) fn turn<L: PendingList + Drop>(rt: &impl Clock, list: Option<L>) -> Option<Totals> {
    let mut list = list?;
    fill_and_empty(rt, &mut list)
}
