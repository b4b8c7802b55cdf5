//! What a driver does with an IRP that was in its queue: it completes it, or inserts it again.
ghost use Rattle.std.specs.Prelude.{◌≡◌, ◌↔◌, IsTrue, OnOk, OnErr};
ghost use Rattle.std.specs.Result.{result_err};
ghost use Rattle.irp_core.specs.declared.status.TheConstants.NtStatus.{SUCCESS};
ghost use Rattle.csq_queue.specs.Calls.{CompletesOne};
ghost use Rattle.csq_queue.specs.Owned.{HoldsRemoved};
ghost use Rattle.csq_checked.specs.Calls.{MakesOwnCall};
ghost use Rattle.csq_checked.specs.Passes.{listed};
ghost use Rattle.csq_checked.specs.Uses.{JudgesUse, may_complete, refusal_of, refusal_verdict};
ghost use Rattle.csq_checked.specs.declared.judge.uses.UseVerdict.TheVariants.{Agrees};

use super::list::is_in_queue;
use crate::pass::CheckedPass;
use crate::queue::CheckedQueue;
use crate::unlocked::CompleteRefused;
use irp_core::{IrpId, IrpLife, NtStatus};

/// What is to be said of what a driver does with an IRP, the first that holds; the numbers are those of C's
/// `csq_use_verdict`. Own rule.
#[derive(Clone, Copy, Debug, PartialEq, Eq)]
pub enum UseVerdict {
    /// The driver has it, and may do so.
    Agrees = 0,
    /// It is in the queue.
    Listed = 1,
    /// The pass doesn't hold it in the life named: it was completed before, another pass has it, it was never
    /// inserted, or there is no such IRP.
    NotHeld = 2,
    /// It was got cancelled: it has to be completed with STATUS_CANCELLED.
    GotCancelled = 3,
    /// STATUS_PENDING is no status to complete with.
    NotFinal = 4,
}

/// Completes an IRP beside a driver that completes it with this status (`IoCompleteRequest`), by the pass that
/// holds it, or says what is wrong with that; then nothing is completed. The caller has the queue's lock.
///
/// STATUS_CANCELLED ends what the pass got in whatever way, any other final status what it got by a removal.
/// Whether an IRP is in the queue is decided by its number, and of this queue, whatever queue the pass is of. Own
/// rule.
pub fn judge_complete(
    queue: &CheckedQueue,
    by: &mut CheckedPass,
    irp: IrpLife,
    status: NtStatus,
) -> UseVerdict
    ensures agrees { (result ≡ Agrees) ↔ IsTrue (may_complete by.old irp status) }
    ensures call { JudgesUse irp status result queue.now by.old by.new }
{
    match complete(by, irp, status) {
        Ok(()) => UseVerdict::Agrees,
        Err(refused) => judge_refusal(queue, irp.irp, refused),
    }
}

/// Judges the insert of an IRP that was in the queue already, in the life that it has there. A driver may insert
/// again what it removed (`IoCsqInsertIrpEx`), not what is in a queue, or was given to it as cancelled.
///
/// If that agrees the IRP is completed with STATUS_SUCCESS in the queue beside: so its life is over, and
/// `reuse` begins the next one, in which it is inserted. Never `NotFinal`. Own rule.
pub fn judge_insert(queue: &CheckedQueue, by: &mut CheckedPass, irp: IrpLife) -> UseVerdict
    ensures agrees { (result ≡ Agrees) ↔ HoldsRemoved by.old.words.size.irps by.old.pass irp }
    ensures call { JudgesUse irp SUCCESS result queue.now by.old by.new }
{
    judge_complete(queue, by, irp, NtStatus::SUCCESS)
}

/// The completion of an IRP with this status, or the first cause why not.
fn complete(by: &mut CheckedPass, irp: IrpLife, status: NtStatus) -> Result<(), CompleteRefused>
    ensures cause { result_err result ≡ refusal_of by.old irp status }
    ensures call { OnOk result (MakesOwnCall (CompletesOne irp status) by.old by.new) }
    ensures kept { OnErr result (by.new ≡ by.old) }
{
    if status.0 == NtStatus::CANCELLED.0 {
        by.complete_cancelled(irp)
    } else {
        by.complete(irp, status)
    }
}

/// An IRP that isn't completed for this cause.
fn judge_refusal(queue: &CheckedQueue, irp: IrpId, refused: CompleteRefused) -> UseVerdict
    ensures { result ≡ refusal_verdict (listed queue.now) irp refused }
{
    match refused {
        CompleteRefused::NotRemoved => UseVerdict::GotCancelled,
        CompleteRefused::NotFinal => UseVerdict::NotFinal,
        CompleteRefused::UnknownIrp | CompleteRefused::NotHeld => {
            if is_in_queue(queue, irp) {
                UseVerdict::Listed
            } else {
                UseVerdict::NotHeld
            }
        }
    }
}
