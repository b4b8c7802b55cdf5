//! What the handle of a queue stands for, and the calls of it.
ghost use Rattle.csq_c.specs.Bodies.{IsPassFor};
ghost use Rattle.csq_c.specs.Calls.{InsertsInto, PutsBackInto, RemovesNextFrom, RemovesFrom, RunsRoutineOn, CancelsOwedOn, ClosesFileOf, ReusesOf};

use crate::codes::{Code, of_close_file, of_insert, of_put_back, of_removal, of_reuse, of_routine};
use csq_checked::{AnyList, CheckedPass, CheckedQueue};
use csq_list::{Peek, PendingList, Place};
use csq_queue::Rest;
use irp_core::{FileId, IrpId, IrpLife};
use std::marker::Model;

/// A queue that is open, or what is left of one that was closed. A contract sees the open queue as it is
/// seen there, and of the rest the entries that are listed and the words. Own rule.
#[derive(Drop)]
pub(crate) struct QueueBody {
    pub(crate) queue: Option<CheckedQueue>,
    pub(crate) rest: Option<Rest<AnyList>>,
}

impl Model for QueueBody {
    ghost use Rattle.csq_c.specs.Bodies.{QueueBodyState, rest_of};

    ghost Value = { QueueBodyState };

    ghost view = { λ b. record {
      queue = b.queue;
      rest
          = rest_of ⟦<AnyList as PendingList>⟧.listing b.rest;
    } };
}

impl QueueBody {
    /// Inserts an IRP, if the queue is open.
    pub(crate) fn insert(
        &mut self,
        by: &mut CheckedPass,
        irp: IrpId,
        file: FileId,
        place: Place,
    ) -> (Code, Option<IrpLife>)
        requires { IsPassFor self.old by.old }
        ensures { InsertsInto irp file place self.old self.new by.old by.new result.0 result.1 }
    {
        match &mut self.queue {
            None => (Code::Closed, None),
            Some(queue) => of_insert(queue.insert(by, irp, file, place)),
        }
    }

    /// Puts an IRP back that the pass got by a removal, if the queue is open.
    pub(crate) fn put_back(
        &mut self,
        by: &mut CheckedPass,
        irp: IrpLife,
        place: Place,
    ) -> (Code, Option<IrpLife>)
        requires { IsPassFor self.old by.old }
        ensures { PutsBackInto irp place self.old self.new by.old by.new result.0 result.1 }
    {
        match &mut self.queue {
            None => (Code::Closed, None),
            Some(queue) => of_put_back(queue.put_back(by, irp, place)),
        }
    }

    /// Removes the first match, if the queue is open.
    pub(crate) fn remove_next(
        &mut self,
        by: &mut CheckedPass,
        peek: Peek,
    ) -> (Code, Option<IrpLife>)
        requires { IsPassFor self.old by.old }
        ensures { RemovesNextFrom peek self.old self.new by.old by.new result.0 result.1 }
    {
        let Some(queue) = &mut self.queue else {
            return (Code::Closed, None);
        };
        let taken = queue.remove_next(by, peek);
        (of_removal(taken), taken)
    }

    /// Removes this IRP, if the queue is open.
    pub(crate) fn remove(&mut self, by: &mut CheckedPass, irp: IrpLife) -> Code
        requires { IsPassFor self.old by.old }
        ensures { RemovesFrom irp self.old self.new by.old by.new result }
    {
        match &mut self.queue {
            None => Code::Closed,
            Some(queue) => of_removal(queue.remove(by, irp)),
        }
    }

    /// Takes out an IRP that the pass owes, if the queue is open.
    pub(crate) fn cancel_routine(&mut self, by: &mut CheckedPass, irp: IrpLife) -> Code
        requires { IsPassFor self.old by.old }
        ensures { RunsRoutineOn irp self.old self.new by.old by.new result }
    {
        match &mut self.queue {
            None => Code::Closed,
            Some(queue) => of_routine(queue.cancel_routine(by, irp)),
        }
    }

    /// Takes out an IRP that the pass owes and completes it as cancelled, if the queue is open.
    pub(crate) fn cancel_owed(&mut self, by: &mut CheckedPass, irp: IrpLife) -> Code
        requires { IsPassFor self.old by.old }
        ensures { CancelsOwedOn irp self.old self.new by.old by.new result }
    {
        match &mut self.queue {
            None => Code::Closed,
            Some(queue) => of_routine(queue.cancel_owed(by, irp)),
        }
    }

    /// Closes a file object, if the queue is open.
    pub(crate) fn close_file(&mut self, by: &mut CheckedPass, file: FileId) -> Code
        requires { IsPassFor self.old by.old }
        ensures { ClosesFileOf file self.old self.new by.old by.new result }
    {
        let Some(queue) = &mut self.queue else {
            return Code::Closed;
        };
        of_close_file(queue.close_file(by, file))
    }

    /// Begins the next life of an IRP, if the queue is open.
    pub(crate) fn reuse(&mut self, by: &mut CheckedPass, irp: IrpLife) -> (Code, Option<u32>)
        requires { IsPassFor self.old by.old }
        ensures { ReusesOf irp self.old self.new by.old by.new result.0 result.1 }
    {
        match &mut self.queue {
            None => (Code::Closed, None),
            Some(queue) => of_reuse(queue.reuse(by, irp)),
        }
    }
}
