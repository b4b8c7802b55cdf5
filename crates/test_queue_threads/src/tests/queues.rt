//! New queues and their passes, and what most of these tests do with them.
use csq_list::{PendingList, Place, VecList};
use csq_queue::{Blank, Csq, Inserted, Pass, PassRack, QueueName};
use irp_core::{FileId, IrpId, Life};
use std::process::Abort;
use std::sync::Wait;
use test_watched_list::{Watch, WatchedList};

/// The life in which all IRPs begin.
pub(super) const LIFE: Life = Life(1);

/// A list of so many IRPs and file objects in a vector.
pub(super) fn vector<R: AllocGlobal + Abort>(rt: &R, irps: u32, files: u32) -> VecList {
    match VecList::new(rt.alloc(), irps, files, irps) {
        Ok(list) => list,
        Err(_) => panic!(rt; "no list"),
    }
}

/// A list that tells a watch of its calls.
pub(super) fn watched<L: PendingList + Drop, W: Watch>(
    list: L,
    watch: &W,
) -> WatchedList<'_, L, W> {
    WatchedList { list, watch }
}

/// A new queue over this list, with so many passes.
pub(super) fn blank<L: PendingList + Drop, R: AllocGlobal + Abort>(
    rt: &R,
    list: L,
    passes: u32,
) -> Blank<L> {
    let irps = list.irps();
    match Blank::new_at(rt.alloc(), list, irps, passes, LIFE) {
        Ok(blank) => blank,
        Err(_) => panic!(rt; "no queue"),
    }
}

/// The next pass.
pub(super) fn take<N: QueueName, R: Abort>(rt: &R, rack: &mut PassRack<N>) -> Pass<N> {
    match rack.take() {
        Some(pass) => pass,
        None => panic!(rt; "no pass"),
    }
}

/// Whether an IRP is inserted last, and pending then.
pub(super) fn inserts<L: PendingList + Drop, N: QueueName, R: Wait>(
    rt: &R,
    queue: &Csq<L, N>,
    pass: &mut Pass<N>,
    irp: IrpId,
    file: FileId,
) -> bool {
    match queue.insert(rt, pass, irp, file, Place::Back) {
        Err(_) => false,
        Ok(Inserted::Pending(_)) => true,
        Ok(Inserted::Cancelled(token)) => {
            queue.complete_cancelled(pass, token);
            false
        }
    }
}

/// Gives a pass back that holds and owes nothing.
pub(super) fn give_back<L: PendingList + Drop, N: QueueName, R: Wait + Abort>(
    rt: &R,
    queue: &Csq<L, N>,
    pass: Pass<N>,
) {
    if queue.give_back(rt, pass).is_err() {
        panic!(rt; "not given back");
    }
}

/// Closes a queue with its last pass.
pub(super) fn close<L: PendingList + Drop, N: QueueName, R: Abort>(
    rt: &R,
    queue: Csq<L, N>,
    pass: Pass<N>,
    rack: PassRack<N>,
) {
    if queue.close(pass, rack).is_err() {
        panic!(rt; "not closed");
    }
}
