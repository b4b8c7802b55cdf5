//! The calls of a pass that take no queue.
ghost use Rattle.std.specs.Prelude.{◌≡◌, ◌<◌, ◌↔◌, true, IsSome, IfSome};
ghost use Rattle.irp_core.specs.Own.{holds_in, owes_in, removed_in};
ghost use Rattle.csq_queue.specs.Counts.{held_count, owed_count};
ghost use Rattle.csq_queue.specs.Calls.{MarksCancel, ReadsFlag, ReadsStatus};
ghost use Rattle.csq_checked.specs.Calls.{MakesOwnCall, CompletesRemoved, CompletesHeld};

use crate::pass::CheckedPass;
use crate::slots::Held;
use csq_queue::{CancelRefused, UnknownIrp};
use irp_core::{FinalStatus, IrpId, IrpLife, Life, NtStatus};

/// Why an IRP is not completed, in the order in which the causes are tested. Own rule.
#[derive(Clone, Copy, Debug, PartialEq, Eq)]
pub enum CompleteRefused {
    /// There is no such IRP.
    UnknownIrp,
    /// The pass doesn't hold it in the life named.
    NotHeld,
    /// The pass holds it, but got it cancelled: it is completed as cancelled alone.
    NotRemoved,
    /// STATUS_PENDING is no status to complete with.
    NotFinal,
}

/// Why a cancel routine is not run, in the order in which the causes are tested. Own rule.
#[derive(Clone, Copy, Debug, PartialEq, Eq)]
pub enum RoutineRefused {
    /// There is no such IRP.
    UnknownIrp,
    /// The pass doesn't owe it in the life named.
    NotOwed,
}

impl CheckedPass {
    /// How many IRPs the pass holds. Own rule.
    pub fn tokens(&self) -> u32
        ensures { result ≡ held_count self.now.pass.steps }
    {
        self.pass.tokens()
    }

    /// How many IRPs the pass owes. Own rule.
    pub fn claims(&self) -> u32
        ensures { result ≡ owed_count self.now.pass.steps }
    {
        self.pass.claims()
    }

    /// Sets the Cancel flag of an IRP in the life named and takes its cancel routine, as
    /// `Csq::mark_cancel` does. If the routine was there, the pass owes the IRP, which is returned.
    pub fn mark_cancel(&mut self, irp: IrpId, life: Life) -> Result<Option<IrpLife>, CancelRefused>
        ensures call { MakesOwnCall (MarksCancel irp life result) self.old self.new }
    {
        let claim = self.pass.mark_cancel(&self.words, irp, life)?;
        if claim.is_some() {
            self.owed.set(irp, Some(life));
        }
        Ok(claim)
    }

    /// How the pass holds an IRP in the life named, if it does.
    pub(crate) fn holding(&self, irp: IrpLife) -> Option<Held>
        requires { irp.irp.0 < self.now.words.size.irps }
        ensures held { IsSome result ↔ (holds_in self.now.pass.steps irp ≡ true) }
        ensures removed { IfSome result (λ held. held.removed
            ≡ removed_in self.now.pass.steps irp) }
    {
        // Counted for the proof alone: it holds no two lives of one IRP.
        let _ = self.pass.tokens();
        let held = self.held.get(irp.irp)?;
        if held.life.0 != irp.life.0 {
            return None;
        }
        Some(held)
    }

    /// Whether the pass owes an IRP in the life named.
    pub(crate) fn owes(&self, irp: IrpLife) -> bool
        requires { irp.irp.0 < self.now.words.size.irps }
        ensures { result ≡ owes_in self.now.pass.steps irp }
    {
        // Counted for the proof alone: it owes no two lives of one IRP.
        let _ = self.pass.claims();
        match self.owed.get(irp.irp) {
            Some(life) => life.0 == irp.life.0,
            None => false,
        }
    }

    /// Completes an IRP that the pass got by a removal, in the life in which it got it, with this status
    /// (`IoCompleteRequest`): nobody completed it before. A refusal is the first cause that holds.
    pub fn complete(&mut self, irp: IrpLife, status: NtStatus) -> Result<(), CompleteRefused>
        ensures call { CompletesRemoved irp status result self.old self.new }
    {
        if !self.held.knows(irp.irp) {
            return Err(CompleteRefused::UnknownIrp);
        }
        let held = self.holding(irp).ok_or(CompleteRefused::NotHeld)?;
        if !held.removed {
            return Err(CompleteRefused::NotRemoved);
        }
        let status = FinalStatus::new(status).ok_or(CompleteRefused::NotFinal)?;
        self.pass.complete(&self.words, irp, status);
        self.held.set(irp.irp, None);
        Ok(())
    }

    /// Completes an IRP that the pass holds in the life named with STATUS_CANCELLED: nobody completed it
    /// before. Refused with `UnknownIrp` or `NotHeld`.
    pub fn complete_cancelled(&mut self, irp: IrpLife) -> Result<(), CompleteRefused>
        ensures call { CompletesHeld irp result self.old self.new }
    {
        if !self.held.knows(irp.irp) {
            return Err(CompleteRefused::UnknownIrp);
        }
        if self.holding(irp).is_none() {
            return Err(CompleteRefused::NotHeld);
        }
        self.pass.complete_cancelled(&self.words, irp);
        self.held.set(irp.irp, None);
        Ok(())
    }

    /// The life that an IRP's Cancel flag stands for, and whether it is set there, as `Csq::is_cancelled`
    /// reads it.
    pub fn is_cancelled(&mut self, irp: IrpId) -> Result<(Life, bool), UnknownIrp>
        ensures call { MakesOwnCall (ReadsFlag irp result) self.old self.new }
    {
        self.pass.is_cancelled(&self.words, irp)
    }

    /// The life that an IRP's status stands for, and the status, once it is completed there, as
    /// `Csq::status` reads it.
    pub fn status(&mut self, irp: IrpId) -> Result<(Life, Option<NtStatus>), UnknownIrp>
        ensures call { MakesOwnCall (ReadsStatus irp result) self.old self.new }
    {
        self.pass.status(&self.words, irp)
    }
}
