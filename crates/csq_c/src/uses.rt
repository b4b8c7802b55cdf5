//! What is to be said of what a driver does with an IRP that was in its queue, beside an open queue and by a pass,
//! under the caller's lock. Before any other code each returns CSQ_EMPTY_HANDLE if a handle is empty, then
//! CSQ_OTHER_QUEUE if the pass is another queue's, then CSQ_CLOSED of a closed queue.
ghost use Rattle.std.specs.Prelude.{◌≡◌, Option};
ghost use Rattle.csq_checked.specs.declared.judge.remove.RemoveVerdict.{RemoveVerdict as Removal};
ghost use Rattle.csq_checked.specs.declared.judge.uses.UseVerdict.{UseVerdict as Use};
ghost use Rattle.csq_c.specs.Bodies.{IsPassFor};
ghost use Rattle.csq_c.specs.Exports.{ArePaired, OnHandles};
ghost use Rattle.csq_c.specs.Shapes.{irp_named, set_to, status_numbered};
ghost use Rattle.csq_c.specs.Uses.{JudgesCompletionOf, JudgesInsertOf, JudgesRemovalOf, remove_stored, use_stored};

use crate::body::QueueBody;
use crate::codes::Code;
use crate::handles::{CsqPass, CsqQueue, lend};
use crate::shapes::{CsqIrp, write};
use csq_checked::CheckedPass;
use csq_checked::judge::{RemoveVerdict, UseVerdict, judge_complete, judge_insert, judge_remove};
use irp_core::{IrpLife, NtStatus};

impl QueueBody {
    /// The verdict of a completion, if the queue is open.
    fn judge_complete(
        &self,
        by: &mut CheckedPass,
        irp: IrpLife,
        status: NtStatus,
    ) -> (Code, Option<UseVerdict>)
        ensures { JudgesCompletionOf irp status self.now by.old by.new result.0 result.1 }
    {
        match &self.queue {
            None => (Code::Closed, None),
            Some(queue) => (Code::Done, Some(judge_complete(queue, by, irp, status))),
        }
    }

    /// The verdict of another insert, if the queue is open.
    fn judge_insert(&self, by: &mut CheckedPass, irp: IrpLife) -> (Code, Option<UseVerdict>)
        ensures { JudgesInsertOf irp self.now by.old by.new result.0 result.1 }
    {
        match &self.queue {
            None => (Code::Closed, None),
            Some(queue) => (Code::Done, Some(judge_insert(queue, by, irp))),
        }
    }

    /// The verdict of a removal, if the queue is open.
    fn judge_remove(&mut self, by: &mut CheckedPass, irp: IrpLife) -> (Code, Option<RemoveVerdict>)
        requires { IsPassFor self.old by.old }
        ensures { JudgesRemovalOf irp self.old self.new by.old by.new result.0 result.1 }
    {
        match &mut self.queue {
            None => (Code::Closed, None),
            Some(queue) => (Code::Done, Some(judge_remove(queue, by, irp))),
        }
    }
}

/// The number of a verdict, if there is one.
fn use_of(verdict: Option<UseVerdict>) -> Option<u32>
    ensures { result ≡ use_stored verdict }
{
    Some(verdict? as u32)
}

/// The same of a removal.
fn removal_of(verdict: Option<RemoveVerdict>) -> Option<u32>
    ensures { result ≡ remove_stored verdict }
{
    Some(verdict? as u32)
}

/// Completes an IRP beside a driver that completes it with this status, through the pass that holds it, and
/// writes CSQ_USE_AGREES; else writes the first `csq_use_verdict` that holds of it, and completes nothing.
/// CSQ_OK. As `IoCompleteRequest`.
#[unsafe(no_mangle)]
pub extern "C" fn csq_judge_complete(
    queue: &mut CsqQueue,
    pass: &mut CsqPass,
    irp: CsqIrp,
    status: u32,
    verdict: &mut u32,
) -> u32
    requires { ArePaired queue.old pass.old }
    ensures { OnHandles queue.old queue.new pass.old pass.new result
        (verdict.new ≡ verdict.old)
        (λ body body' p p' code. (stored : Option Use) × (body' ≡ body)
        × JudgesCompletionOf (irp_named irp) (status_numbered status) body p p' code stored
        × (verdict.new ≡ set_to (use_stored stored) verdict.old)) }
{
    lend!(body in queue, by in pass);
    let (code, judged) = body.judge_complete(by, irp.named(), NtStatus(status));
    write(verdict, use_of(judged));
    code.number()
}

/// Judges the insert of an IRP that was in the queue before, in the life that it has there: writes
/// CSQ_USE_AGREES if the pass got it by a removal, and completes it, so that `csq_reuse` begins its next
/// life, in which it is inserted; else another `csq_use_verdict`, never CSQ_USE_NOT_FINAL. CSQ_OK. As
/// `IoCsqInsertIrpEx`.
#[unsafe(no_mangle)]
pub extern "C" fn csq_judge_insert(
    queue: &mut CsqQueue,
    pass: &mut CsqPass,
    irp: CsqIrp,
    verdict: &mut u32,
) -> u32
    requires { ArePaired queue.old pass.old }
    ensures { OnHandles queue.old queue.new pass.old pass.new result
        (verdict.new ≡ verdict.old)
        (λ body body' p p' code. (stored : Option Use) × (body' ≡ body)
        × JudgesInsertOf (irp_named irp) body p p' code stored
        × (verdict.new ≡ set_to (use_stored stored) verdict.old)) }
{
    lend!(body in queue, by in pass);
    let (code, judged) = body.judge_insert(by, irp.named());
    write(verdict, use_of(judged));
    code.number()
}

/// Removes an IRP beside a driver that removes it, and writes CSQ_REMOVE_AGREES; the pass holds it then. Else
/// writes CSQ_REMOVE_CLAIMED if its number is listed (a canceller has it, or it is in another life), or
/// CSQ_REMOVE_NOT_LISTED. CSQ_OK. As `IoCsqRemoveIrp`.
#[unsafe(no_mangle)]
pub extern "C" fn csq_judge_remove(
    queue: &mut CsqQueue,
    pass: &mut CsqPass,
    irp: CsqIrp,
    verdict: &mut u32,
) -> u32
    requires { ArePaired queue.old pass.old }
    ensures { OnHandles queue.old queue.new pass.old pass.new result
        (verdict.new ≡ verdict.old)
        (λ body body' p p' code. (stored : Option Removal)
        × JudgesRemovalOf (irp_named irp) body body' p p' code stored
        × (verdict.new ≡ set_to (remove_stored stored) verdict.old)) }
{
    lend!(body in queue, by in pass);
    let (code, judged) = body.judge_remove(by, irp.named());
    write(verdict, removal_of(judged));
    code.number()
}
