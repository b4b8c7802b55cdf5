//! The calls that take the queue.
ghost use Rattle.std.specs.Prelude.{◌≡◌, ◌<◌, length, IfSome, true};
ghost use Rattle.csq_queue.specs.Calls.{Inserts, RemovesNext, RemovesOne};
ghost use Rattle.csq_checked.specs.Calls.{MakesCall, PutsBackRemoved, RunsOwedRoutine, CancelsOwed, ClosesKnownFile, ReusesPresentLife};
ghost use Rattle.csq_checked.specs.Passes.{IsPassIn};
ghost use Rattle.csq_checked.specs.Slots.{held_after_back, with_held};

use crate::pass::CheckedPass;
use crate::queue::CheckedQueue;
use crate::slots::{Held, Slots};
use crate::unlocked::RoutineRefused;
use csq_list::{InsertStatus, Peek, Place, UnknownFile};
use csq_queue::{InsertAnswer, OpenInserted};
use irp_core::{FileId, IrpId, IrpLife, Life};

/// Why an IRP was not put back, in the order in which the causes are tested. Own rule.
#[derive(Clone, Copy, Debug, PartialEq, Eq)]
pub enum PutBackRefused {
    /// There is no such IRP.
    UnknownIrp,
    /// The pass doesn't hold it in the life named.
    NotHeld,
    /// The pass holds it, but got it cancelled: it is completed as cancelled alone.
    NotRemoved,
    /// The queue refused it: its file object is closed, or no more IRPs may be listed for it or in all.
    ByQueue(InsertStatus),
}

/// Why an IRP was not given its next life, in the order in which the causes are tested. Own rule.
#[derive(Clone, Copy, Debug, PartialEq, Eq)]
pub enum CheckedReuseRefused {
    /// There is no such IRP.
    UnknownIrp,
    /// The life named isn't its present one.
    Stale,
    /// Its present life isn't completed.
    NotCompleted,
    /// Its present life is the last that there can be, 2^30 - 1.
    LivesSpent,
}

impl CheckedQueue {
    /// Inserts an IRP for a file object, last or first, or returns the first cause why not, as `Csq::insert`
    /// does. The pass holds an IRP that was found cancelled.
    pub fn insert(
        &mut self,
        by: &mut CheckedPass,
        irp: IrpId,
        file: FileId,
        place: Place,
    ) -> Result<OpenInserted, InsertStatus>
        requires { IsPassIn self.old.queue by.old }
        ensures call { MakesCall (Inserts irp file place result) self.old by.old self.new by.new }
    {
        let inserted = self
            .queue
            .insert(&by.words, &mut by.pass, irp, file, place)?;
        if let InsertAnswer::Cancelled(named) = &inserted {
            by.held.set(
                named.irp,
                Some(Held {
                    removed: false,
                    life: named.life,
                }),
            );
        }
        Ok(inserted)
    }

    /// Puts an IRP back that the pass got by a removal, in the life in which it got it, last or first, as
    /// `Csq::put_back` does. The pass holds it no longer then, or holds it as cancelled. A refusal is the
    /// first cause that holds, and the pass holds what it held.
    pub fn put_back(
        &mut self,
        by: &mut CheckedPass,
        irp: IrpLife,
        place: Place,
    ) -> Result<OpenInserted, PutBackRefused>
        requires { IsPassIn self.old.queue by.old }
        ensures call { PutsBackRemoved irp place result self.old by.old self.new by.new }
    {
        if !by.held.knows(irp.irp) {
            return Err(PutBackRefused::UnknownIrp);
        }
        let held = by.holding(irp).ok_or(PutBackRefused::NotHeld)?;
        if !held.removed {
            return Err(PutBackRefused::NotRemoved);
        }
        match self.queue.put_back(&by.words, &mut by.pass, irp, place) {
            Ok(back) => {
                by.held.set(irp.irp, held_after(&back));
                Ok(back)
            }
            Err(cause) => Err(PutBackRefused::ByQueue(cause)),
        }
    }

    /// Removes the first match that no canceller has, as `Csq::remove_next` does. The pass holds it then.
    pub fn remove_next(&mut self, by: &mut CheckedPass, peek: Peek) -> Option<IrpLife>
        requires { IsPassIn self.old.queue by.old }
        ensures call { MakesCall (RemovesNext peek result) self.old by.old self.new by.new }
    {
        let taken = self.queue.remove_next(&by.words, &mut by.pass, peek);
        note_removed(&mut by.held, taken);
        taken
    }

    /// Removes this IRP, unless it isn't listed in the life named or a canceller has it, as `Csq::remove`
    /// does. The pass holds it then.
    pub fn remove(&mut self, by: &mut CheckedPass, irp: IrpLife) -> Option<IrpLife>
        requires { IsPassIn self.old.queue by.old }
        ensures call { MakesCall (RemovesOne irp result) self.old by.old self.new by.new }
    {
        let taken = self.queue.remove(&by.words, &mut by.pass, irp);
        note_removed(&mut by.held, taken);
        taken
    }

    /// Takes out an IRP that the pass owes in the life named, as `Csq::cancel_routine` does. The pass holds
    /// it then. A refusal is the first cause that holds.
    pub fn cancel_routine(
        &mut self,
        by: &mut CheckedPass,
        irp: IrpLife,
    ) -> Result<(), RoutineRefused>
        requires { IsPassIn self.old.queue by.old }
        ensures call { RunsOwedRoutine irp result self.old by.old self.new by.new }
    {
        if !by.owed.knows(irp.irp) {
            return Err(RoutineRefused::UnknownIrp);
        }
        if !by.owes(irp) {
            return Err(RoutineRefused::NotOwed);
        }
        self.queue.cancel_routine(&by.words, &mut by.pass, irp);
        by.owed.set(irp.irp, None);
        by.held.set(
            irp.irp,
            Some(Held {
                removed: false,
                life: irp.life,
            }),
        );
        Ok(())
    }

    /// Takes out an IRP that the pass owes in the life named and completes it with STATUS_CANCELLED, as the
    /// WDK's queue does by CsqCompleteCanceledIrp. Refused as `cancel_routine` is.
    pub fn cancel_owed(&mut self, by: &mut CheckedPass, irp: IrpLife) -> Result<(), RoutineRefused>
        requires { IsPassIn self.old.queue by.old }
        ensures call { CancelsOwed irp result self.old by.old self.new by.new }
    {
        self.cancel_routine(by, irp)?;
        if by.complete_cancelled(irp).is_err() {
            // What a cancel routine takes out the pass holds, and no removal got it: this completion is never refused.
            unreachable!()
        }
        Ok(())
    }

    /// Closes a file object for good, as `Csq::close_file` does.
    pub fn close_file(&mut self, by: &mut CheckedPass, file: FileId) -> Result<(), UnknownFile>
        requires { IsPassIn self.old.queue by.old }
        ensures call { ClosesKnownFile file result self.old by.old self.new by.new }
    {
        self.queue.close_file(&by.words, &mut by.pass, file)
    }

    /// Begins the next life of an IRP that was completed in the life named, as `Csq::reuse` does. A refusal
    /// is the first cause that holds.
    pub fn reuse(&mut self, by: &mut CheckedPass, irp: IrpLife) -> Result<Life, CheckedReuseRefused>
        requires { IsPassIn self.old.queue by.old }
        ensures call { ReusesPresentLife irp result self.old by.old self.new by.new }
    {
        let present = self
            .queue
            .life(irp.irp)
            .ok_or(CheckedReuseRefused::UnknownIrp)?;
        if present.0 != irp.life.0 {
            return Err(CheckedReuseRefused::Stale);
        }
        match self.queue.reuse(&by.words, &mut by.pass, irp.irp) {
            Ok(life) => Ok(life),
            Err(csq_queue::ReuseRefused::NotCompleted) => Err(CheckedReuseRefused::NotCompleted),
            Err(csq_queue::ReuseRefused::LivesSpent) => Err(CheckedReuseRefused::LivesSpent),
            // Its life was found above.
            Err(csq_queue::ReuseRefused::UnknownIrp) => unreachable!(),
        }
    }
}

/// Notes that a removal got this IRP.
fn note_removed(held: &mut Slots<Held>, taken: Option<IrpLife>)
    requires { IfSome taken (λ i. i.irp.0 < length held.old) }
    ensures { held.new ≡ with_held true taken held.old }
{
    if let Some(named) = taken {
        let life = named.life;
        held.set(
            named.irp,
            Some(Held {
                removed: true,
                life,
            }),
        );
    }
}

/// How the pass holds an IRP after a put-back of it that returned this.
fn held_after(back: &OpenInserted) -> Option<Held>
    ensures { result ≡ held_after_back back.now }
{
    match back {
        InsertAnswer::Pending(_) => None,
        InsertAnswer::Cancelled(named) => Some(Held {
            removed: false,
            life: named.life,
        }),
    }
}
