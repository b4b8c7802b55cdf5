//! New queues and their passes, and the calls that most of these tests make.
ghost use Rattle.std.specs.Prelude.{◌≡◌, ◌+◌, ◌-◌};
ghost use Rattle.csq_words.specs.Records.{new_pass};
ghost use Rattle.csq_queue.specs.Named.{pass_numbered};

use csq_list::{ChainList, PendingList, Place, VecList};
use csq_queue::{
    Blank, CloseCause, CloseRefused, Csq, InsertContext, Inserted, Pass, PassRack, QueueName,
};
use irp_core::{FileId, IrpId, IrpLife, Life};
use std::alloc::Allocator;
use std::process::Abort;
use std::sync::Wait;

pub(super) const ZERO: IrpId = IrpId(0);

pub(super) const ONE: IrpId = IrpId(1);

pub(super) const TWO: IrpId = IrpId(2);

pub(super) const THREE: IrpId = IrpId(3);

/// There is none of this number.
pub(super) const UNKNOWN: IrpId = IrpId(4);

/// The life in which the IRPs of these queues begin, and the next one.
pub(super) const FIRST: Life = Life(5);

pub(super) const SECOND: Life = Life(6);

/// An IRP in its first life.
pub(super) fn first(irp: IrpId) -> IrpLife {
    IrpLife { irp, life: FIRST }
}

/// An IRP in the next one.
pub(super) fn second(irp: IrpId) -> IrpLife {
    IrpLife { irp, life: SECOND }
}

/// Which rows of a test were right. A function that makes many calls has no branches but these.
#[derive(Clone, Copy)]
pub(super) struct Rows {
    made: u32,
    wrong: Option<u32>,
}

impl Rows {
    pub(super) fn new() -> Rows {
        Rows {
            made: 0,
            wrong: None,
        }
    }

    /// Notes whether the next row is right.
    pub(super) fn note(&mut self, right: bool) {
        if !right && self.wrong.is_none() {
            self.wrong = Some(self.made);
        }
        self.made = self.made.wrapping_add(1);
    }

    /// Reports the first row that wasn't.
    pub(super) fn judge(&self, rt: &impl Abort) {
        if let Some(row) = self.wrong {
            panic!(rt; "row {row} is wrong");
        }
    }
}

/// A list of 4 IRPs and 2 file objects in a vector.
pub(super) fn vector<A: Allocator + Copy, R: Abort>(rt: &R, alloc: A) -> VecList<A> {
    match VecList::new(alloc, 4, 2, 4) {
        Ok(list) => list,
        Err(_) => panic!(rt; "no list"),
    }
}

/// The same in chains.
pub(super) fn chains<A: Allocator + Copy, R: Abort>(rt: &R, alloc: A) -> ChainList<A> {
    match ChainList::new(alloc, 4, 2, 4) {
        Ok(list) => list,
        Err(_) => panic!(rt; "no list"),
    }
}

/// A new queue of 4 IRPs and so many passes over this list.
pub(super) fn blank<L: PendingList + Drop, A: Allocator + Copy, R: Abort>(
    rt: &R,
    alloc: A,
    list: L,
    passes: u32,
) -> Blank<L, A>
    ensures { result.limits.passes ≡ passes }
{
    match Blank::new_at(alloc, list, 4, passes, FIRST) {
        Ok(blank) => blank,
        Err(_) => panic!(rt; "no queue"),
    }
}

/// The next pass.
pub(super) fn take<N: QueueName, R: Abort>(rt: &R, rack: &mut PassRack<N>) -> Pass<N>
    ensures new { result ≡ new_pass (pass_numbered (N.limits.passes + 1 - rack.old)) }
    ensures left { rack.new + 1 ≡ rack.old }
{
    match rack.take() {
        Some(pass) => pass,
        None => panic!(rt; "no pass"),
    }
}

/// Inserts an IRP last, and returns its context if it is pending then. None if the insert was refused, or found
/// the IRP cancelled: that one is completed.
pub(super) fn insert<L: PendingList + Drop, N: QueueName, A: Allocator>(
    rt: &impl Wait,
    queue: &Csq<L, N, A>,
    pass: &mut Pass<N>,
    irp: IrpId,
    file: u32,
) -> Option<InsertContext<N>> {
    match queue.insert(rt, pass, irp, FileId(file), Place::Back) {
        Err(_) => None,
        Ok(Inserted::Pending(context)) => Some(context),
        Ok(Inserted::Cancelled(token)) => {
            queue.complete_cancelled(pass, token);
            None
        }
    }
}

/// Gives a pass back that holds and owes nothing.
pub(super) fn give_back<L: PendingList + Drop, N: QueueName, A: Allocator, R: Wait + Abort>(
    rt: &R,
    queue: &Csq<L, N, A>,
    pass: Pass<N>,
) {
    if queue.give_back(rt, pass).is_err() {
        panic!(rt; "not given back");
    }
}

/// Closes a queue, which is refused for this cause. Queue, pass and rack come back.
pub(super) fn close_refused<L: PendingList + Drop, N: QueueName, A: Allocator, R: Abort>(
    rt: &R,
    queue: Csq<L, N, A>,
    pass: Pass<N>,
    rack: PassRack<N>,
    cause: CloseCause,
) -> (Csq<L, N, A>, Pass<N>, PassRack<N>)
    ensures { result.1 ≡ pass }
{
    let refused = match queue.close(pass, rack) {
        Err(refused) => refused,
        Ok(_) => panic!(rt; "closed"),
    };
    assert!(rt; refused.cause == cause);
    let CloseRefused {
        cause: _,
        queue,
        pass,
        rack,
    } = refused;
    (queue, pass, rack)
}
