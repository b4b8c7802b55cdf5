//! A queue with its one pass: what its calls make of one IRP.
ghost use Rattle.irp_core.specs.declared.ids.IrpId.{IrpId};
ghost use Rattle.std.specs.Prelude.{◌≡◌, ◌<◌, ◌↔◌, true, false, Err, IfOk, IfSome, IsSome, OnOk, OnErr};
ghost use Rattle.std.specs.Result.{result_err};
ghost use Rattle.csq_queue.specs.Calls.{CompletesOne};
ghost use Rattle.csq_queue.specs.Looks.{listed_count, listed_for};
ghost use Rattle.csq_checked.specs.Calls.{MakesOwnCall};
ghost use Rattle.csq_checked.specs.Uses.{refusal_of};
ghost use Rattle.csq_ledger.specs.Fresh.{IsFreshSingle, IsNewOfOne};
ghost use Rattle.csq_ledger.specs.Moves.{Closes, Finishes, Flags, Inserts, PutsBack, TakesFirst, TakesOut};
ghost use Rattle.csq_ledger.specs.Singles.{HoldsKnown, IsKnown, IsListedSo, limits_of, spot};

use csq_checked::{CheckedPass, CheckedQueue, CompleteRefused, PutBackRefused, QueueSize};
use csq_list::{InsertStatus, Peek, Place, UnknownFile};
use csq_queue::{InsertAnswer, OpenInserted};
use irp_core::{FileId, IrpId, IrpLife, Life, NtStatus, SizeRefused};
use std::alloc::Global;
use std::marker::Model;

/// A queue and the one pass that it has. A contract sees both.
#[derive(Drop)]
pub(crate) struct SinglePassQueue {
    pub(crate) queue: CheckedQueue,
    pass: CheckedPass,
}

impl Model for SinglePassQueue {
    ghost use Rattle.csq_ledger.specs.Singles.{IsSingle, Single};

    ghost Value = { Single };

    ghost view = { λ s. record { queue = s.queue; pass = s.pass } };

    ghost invariant = { λ s. IsSingle s.queue s.pass };
}

impl SinglePassQueue {
    /// A new queue with its one pass, for which memory is taken. Refused with `Memory` alone.
    pub(crate) fn over(
        alloc: Global,
        size: QueueSize,
        mut queue: CheckedQueue,
    ) -> Result<SinglePassQueue, SizeRefused>
        requires new { IsNewOfOne size queue }
        ensures made { IfOk result (IsFreshSingle queue.queue.limits) }
        ensures memory { OnErr result (result ≡ Err SizeRefused.Memory) }
    {
        let _ = size;
        match queue.take_pass(alloc) {
            Ok(pass) => Ok(SinglePassQueue {
                queue,
                pass: Box::into_inner(pass),
            }),
            Err(_) => Err(SizeRefused::Memory),
        }
    }

    /// Lists an IRP that isn't flagged for a file object, last or first, and returns its name, or the first
    /// cause why not.
    pub(crate) fn insert(
        &mut self,
        irp: IrpId,
        file: FileId,
        place: Place,
    ) -> Result<IrpLife, InsertStatus>
        requires unflagged { (spot self.old irp).is_flagged ≡ false }
        ensures { Inserts irp file place result self.old self.new }
    {
        match self.queue.insert(&mut self.pass, irp, file, place)? {
            InsertAnswer::Pending(name) => Ok(name),
            // An insert finds a flag, and this one isn't set.
            InsertAnswer::Cancelled(_) => unreachable!(),
        }
    }

    /// Takes the first listed IRP that matches, if there is one. The pass holds it then.
    pub(crate) fn take(&mut self, peek: Peek) -> Option<IrpLife>
        ensures { TakesFirst peek result self.old self.new }
    {
        self.queue.remove_next(&mut self.pass, peek)
    }

    /// Puts an IRP back that the pass holds, last or first, or finds it flagged. A refusal is the first cause
    /// that holds.
    pub(crate) fn put_back(
        &mut self,
        irp: IrpLife,
        place: Place,
    ) -> Result<OpenInserted, PutBackRefused>
        requires known { IsKnown irp self.old }
        requires held { (spot self.old irp.irp).is_held ≡ true }
        ensures { PutsBack irp place result self.old self.new }
    {
        self.queue.put_back(&mut self.pass, irp, place)
    }

    /// Completes an IRP that the pass holds with this status, and begins its next life. Returns whether there
    /// is none. A refusal is the first cause that holds.
    pub(crate) fn finish(&mut self, irp: IrpLife, status: NtStatus) -> Result<bool, CompleteRefused>
        requires known { IsKnown irp self.old }
        requires held { (spot self.old irp.irp).is_held ≡ true }
        ensures { Finishes irp status result self.old self.new }
    {
        match complete(&mut self.pass, irp, status) {
            // It is a present life that was completed: a refused reuse says that it was the last.
            Ok(()) => Ok(self.queue.reuse(&mut self.pass, irp).is_err()),
            Err(cause) => Err(cause),
        }
    }

    /// Takes a listed IRP out as a cancel does: it is flagged, and the pass holds it.
    pub(crate) fn take_out(&mut self, irp: IrpLife)
        requires known { IsKnown irp self.old }
        requires listed { (spot self.old irp.irp).is_listed ≡ true }
        ensures { TakesOut irp self.old self.new }
    {
        if self.pass.mark_cancel(irp.irp, irp.life).is_err() {
            // It is a present life.
            unreachable!()
        }
        if self.queue.cancel_routine(&mut self.pass, irp).is_err() {
            // What is listed has its cancel routine, which this pass has just taken.
            unreachable!()
        }
    }

    /// Flags an IRP that the pass holds, as a cancel does.
    pub(crate) fn flag(&mut self, irp: IrpLife)
        requires known { IsKnown irp self.old }
        requires held { (spot self.old irp.irp).is_held ≡ true }
        ensures { Flags irp self.old self.new }
    {
        if self.pass.mark_cancel(irp.irp, irp.life).is_err() {
            // It is a present life.
            unreachable!()
        }
    }

    /// What is listed stands in the list for the file object that it was accepted for. Nothing is run.
    pub(crate) fn listed_so(&self)
        ensures { (n : IrpId) → IsListedSo self.now n }
    {
        let _ = &self.pass;
    }

    /// The present life of an IRP. None if there is no such IRP.
    pub(crate) fn life(&self, irp: IrpId) -> Option<Life>
        ensures known { IsSome result ↔ (irp.0 < (limits_of self.now).irps) }
        ensures life { IfSome result (λ life. life.0 ≡ (spot self.now irp).life) }
    {
        self.queue.life(irp)
    }

    /// How many IRPs are listed.
    pub(crate) fn len(&self) -> u32
        ensures { result ≡ listed_count self.now.queue.queue }
    {
        self.queue.len()
    }

    /// How many IRPs are listed for a file object. None exactly if there is no such one.
    pub(crate) fn file_len(&self, file: FileId) -> Option<u32>
        ensures { result ≡ listed_for self.now.queue.queue file }
    {
        self.queue.file_len(file)
    }

    /// Closes a file object for good.
    pub(crate) fn close_file(&mut self, file: FileId) -> Result<(), UnknownFile>
        ensures { Closes file result self.old self.new }
    {
        self.queue.close_file(&mut self.pass, file)
    }
}

/// Completes an IRP with this status: with STATUS_CANCELLED what the pass holds, and with another what it got
/// by a removal. A refusal is the first cause that holds.
fn complete(pass: &mut CheckedPass, irp: IrpLife, status: NtStatus) -> Result<(), CompleteRefused>
    ensures cause { result_err result ≡ refusal_of pass.old irp status }
    ensures held { OnOk result (HoldsKnown irp pass.old) }
    ensures call { OnOk result (MakesOwnCall (CompletesOne irp status) pass.old pass.new) }
    ensures kept { OnErr result (pass.new ≡ pass.old) }
{
    if status.0 == NtStatus::CANCELLED.0 {
        pass.complete_cancelled(irp)
    } else {
        pass.complete(irp, status)
    }
}
