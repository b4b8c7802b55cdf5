//! The calls of a ledger that name a request.
ghost use Rattle.std.specs.Prelude.{◌≡◌, ◌<◌, true};
ghost use Rattle.request_table.specs.Requests.{stage_of};
ghost use Rattle.csq_ledger.specs.Calls.{CancelsRequest, CutsShort, EndsRequest, Expires, FinishesRequest, PutsBackRequest};
ghost use Rattle.csq_ledger.specs.Ledgers.{knows, named_stage};
ghost use Rattle.csq_ledger.specs.Singles.{IsKnown, limits_of};

use crate::ledger::Ledger;
use crate::refusals::{CancelRefused, EndRefused, PutBackRefused, by_put_back};
use crate::request::Expired;
use csq_checked::CompleteRefused;
use csq_list::Place;
use csq_queue::InsertAnswer;
use irp_core::{IrpId, IrpLife, NtStatus};
use request_table::{Ended, Stage, Why};

impl Ledger {
    /// The stage of a request. Spent for a name that is of no present life.
    pub fn stage(&self, irp: IrpLife) -> Stage
        ensures { result ≡ named_stage self.now irp }
    {
        match self.queue.life(irp.irp) {
            Some(life) if life.0 == irp.life.0 => self.table.stage(irp.irp),
            _ => Stage::Spent,
        }
    }

    /// Whether there is such an IRP.
    pub fn knows(&self, irp: IrpId) -> bool
        ensures known { result ≡ knows self.now irp }
        ensures in_range { result ≡ true → irp.0 < (limits_of self.now.single).irps }
    {
        irp.0 < self.table.irps()
    }

    /// Lists a request that is taken again, last or first; its time stays. A refusal is the first cause that
    /// holds.
    pub fn put_back(&mut self, irp: IrpLife, place: Place) -> Result<(), PutBackRefused>
        ensures { PutsBackRequest irp place result self.old self.new }
    {
        if !self.knows(irp.irp) {
            return Err(PutBackRefused::UnknownIrp);
        }
        let Stage::Taken { .. } = self.stage(irp) else {
            return Err(PutBackRefused::NotTaken);
        };
        match self.queue.put_back(irp, place) {
            Ok(InsertAnswer::Pending(_)) => {
                self.table.list_again(irp.irp);
                Ok(())
            }
            Ok(InsertAnswer::Cancelled(_)) => Err(PutBackRefused::Cancelled),
            Err(cause) => Err(by_put_back(cause)),
        }
    }

    /// Completes a request that is taken with this status, and ends it. Returns its file object, and whether
    /// it was the last one under way for that, and for all. A refusal is the first cause that holds.
    pub fn finish(&mut self, irp: IrpLife, status: NtStatus) -> Result<Ended, CompleteRefused>
        ensures { FinishesRequest irp status result self.old self.new }
    {
        if !self.knows(irp.irp) {
            return Err(CompleteRefused::UnknownIrp);
        }
        let Stage::Taken { .. } = self.stage(irp) else {
            return Err(CompleteRefused::NotHeld);
        };
        match self.queue.finish(irp, status) {
            Ok(is_last) => Ok(self.table.finish(irp.irp, is_last)),
            Err(cause) => Err(cause),
        }
    }

    /// Completes a request that is ending with STATUS_CANCELLED, and ends it, as `finish` does. A refusal is
    /// the first cause that holds.
    pub fn end(&mut self, irp: IrpLife) -> Result<Ended, EndRefused>
        ensures { EndsRequest irp result self.old self.new }
    {
        if !self.knows(irp.irp) {
            return Err(EndRefused::UnknownIrp);
        }
        let Stage::Ending { .. } = self.stage(irp) else {
            return Err(EndRefused::NotEnding);
        };
        match self.queue.finish(irp, NtStatus::CANCELLED) {
            Ok(is_last) => Ok(self.table.finish(irp.irp, is_last)),
            // The pass holds what is ending.
            Err(_) => unreachable!(),
        }
    }

    /// Cancels a request: it is Ending if it was Listed, and named if it was Taken and not named before.
    /// Returns whether it is Ending by this cancel. A refusal is the first cause that holds.
    pub fn cancel(&mut self, irp: IrpLife, why: Why) -> Result<bool, CancelRefused>
        ensures { CancelsRequest irp why result self.old self.new }
    {
        if !self.knows(irp.irp) {
            return Err(CancelRefused::UnknownIrp);
        }
        match self.stage(irp) {
            Stage::Free | Stage::Spent => Err(CancelRefused::Stale),
            stage => {
                self.cut_short(irp, why);
                Ok(matches!(stage, Stage::Listed { .. }))
            }
        }
    }

    /// Cuts the request short that is due first, if it is due at this time or before: it is Ending if it was
    /// Listed, and named if it was Taken and not named before. It isn't due any more. None if none is due.
    pub fn expire(&mut self, now: u64) -> Option<Expired>
        ensures { Expires now result self.old self.new }
    {
        let irp = self.table.expire(now)?;
        let Some(life) = self.queue.life(irp) else {
            // What is due is known.
            unreachable!()
        };
        let name = IrpLife { irp, life };
        self.cut_short(name, Why::Due);
        let stage = self.table.stage(irp);
        Some(Expired { name, stage })
    }

    /// Takes a listed request out, or names one that is taken; leaves any other.
    fn cut_short(&mut self, irp: IrpLife, why: Why)
        requires { IsKnown irp self.old.single }
        ensures { CutsShort irp why (stage_of self.old.table irp.irp) self.old self.new }
    {
        match self.table.stage(irp.irp) {
            Stage::Listed { .. } => {
                self.queue.take_out(irp);
                self.table.begin_end(irp.irp, why);
            }
            Stage::Taken { .. } => {
                self.queue.flag(irp);
                self.table.name(irp.irp, why);
            }
            Stage::Free | Stage::Ending { .. } | Stage::Spent => {}
        }
    }
}
