//! What is to be said of a driver's queue callbacks, beside an open queue, under the caller's lock. Before any other
//! code each returns CSQ_EMPTY_HANDLE if the handle is empty, then CSQ_CLOSED of a closed queue.
ghost use Rattle.std.specs.Prelude.{◌≡◌, Option};
ghost use Rattle.csq_checked.specs.declared.judge.cleanup.CleanupVerdict.{CleanupVerdict as Left};
ghost use Rattle.csq_checked.specs.declared.judge.peek.PeekVerdict.{PeekVerdict as Verdict};
ghost use Rattle.csq_c.specs.Exports.{IsQueueKept};
ghost use Rattle.csq_c.specs.Judges.{JudgesCleanupOf, JudgesPeekOf, left_stored, skipped_by, skipped_stored, verdict_number, verdict_stored};
ghost use Rattle.csq_c.specs.Lefts.{start_of};
ghost use Rattle.csq_c.specs.Looks.{OnQueueHandle};
ghost use Rattle.csq_c.specs.Shapes.{file_numbered, peek_of, set_to};

use crate::body::QueueBody;
use crate::codes::Code;
use crate::handles::{CsqQueue, lend};
use crate::shapes::{peek, start, write};
use csq_checked::judge::{CleanupVerdict, PeekVerdict, judge_cleanup, judge_peek};
use csq_list::Peek;
use irp_core::{FileId, IrpId};

impl QueueBody {
    /// The verdict of a peek's answer, if the queue is open.
    fn judge_peek(
        &self,
        after: Option<IrpId>,
        peek: Peek,
        answer: Option<IrpId>,
    ) -> (Code, Option<PeekVerdict>)
        ensures { JudgesPeekOf after peek answer self.now result.0 result.1 }
    {
        let Some(queue) = &self.queue else {
            return (Code::Closed, None);
        };
        match judge_peek(queue, after, peek, answer) {
            Ok(verdict) => (Code::Done, Some(verdict)),
            Err(_) => (Code::NotListed, None),
        }
    }

    /// The verdict of what a cleanup left, if the queue is open and has such a file object.
    fn judge_cleanup(&self, file: FileId, excused: &[u32]) -> (Code, Option<CleanupVerdict>)
        ensures { JudgesCleanupOf file excused.now self.now result.0 result.1 }
    {
        let Some(queue) = &self.queue else {
            return (Code::Closed, None);
        };
        match queue.file_len(file) {
            None => (Code::UnknownFile, None),
            Some(_) => (Code::Done, Some(judge_cleanup(queue, file, excused))),
        }
    }
}

/// The number of a verdict, and of the IRP that is skipped.
fn numbers_of(verdict: PeekVerdict) -> (u32, Option<u32>)
    ensures { result ≡ (verdict_number verdict, skipped_by verdict) }
{
    match verdict {
        PeekVerdict::Agrees => (0, None),
        PeekVerdict::Skips(irp) => (1, Some(irp.0)),
        PeekVerdict::Backwards => (2, None),
        PeekVerdict::NoMatch => (3, None),
        PeekVerdict::NotListed => (4, None),
    }
}

/// Those of a verdict, if there is one.
fn stored(verdict: Option<PeekVerdict>) -> (Option<u32>, Option<u32>)
    ensures { result ≡ (verdict_stored verdict, skipped_stored verdict) }
{
    let Some(verdict) = verdict else {
        return (None, None);
    };
    let (number, skipped) = numbers_of(verdict);
    (Some(number), skipped)
}

/// Compares the answer of a driver's `CsqPeekNextIrp` with the queue's list: `answer`, or none by the largest
/// number, to a peek that went on after `after` (or from the first, by the largest number) for IRPs of a
/// file object (or of all, by the largest number). Writes the first `csq_peek_verdict` that holds, and of
/// CSQ_PEEK_SKIPS in `skipped` the match that comes first. CSQ_OK, or CSQ_NOT_LISTED if `after` isn't
/// listed. Own rule.
#[unsafe(no_mangle)]
pub extern "C" fn csq_judge_peek(
    queue: &mut CsqQueue,
    after: u32,
    file: u32,
    answer: u32,
    verdict: &mut u32,
    skipped: &mut u32,
) -> u32
    ensures same { IsQueueKept queue.old queue.new }
    ensures judged { OnQueueHandle queue.old.boxed.body result
        ((verdict.new ≡ verdict.old) × (skipped.new ≡ skipped.old))
        (λ body code. (stored : Option Verdict)
        × JudgesPeekOf (start_of after) (peek_of file) (start_of answer) body code stored
        × (verdict.new ≡ set_to (verdict_stored stored) verdict.old)
        × (skipped.new ≡ set_to (skipped_stored stored) skipped.old)) }
{
    lend!(body in queue);
    let (code, judged) = body.judge_peek(start(after), peek(file), start(answer));
    let (number, first) = stored(judged);
    write(verdict, number);
    write(skipped, first);
    code.number()
}

/// The number of the IRP that is left, or the largest one, if there is a verdict.
fn left_of(verdict: Option<CleanupVerdict>) -> Option<u32>
    ensures { result ≡ left_stored verdict }
{
    match verdict? {
        CleanupVerdict::Clean => Some(u32::MAX),
        CleanupVerdict::Leaves(irp) => Some(irp.0),
    }
}

/// Looks for what a driver's `IRP_MJ_CLEANUP` left of a file object in the list, except IRPs of these
/// numbers, which it may leave. Writes the first IRP that is left, or the largest number: CSQ_OK, or
/// CSQ_UNKNOWN_FILE if there is no such file object. Own rule.
#[unsafe(no_mangle)]
pub extern "C" fn csq_judge_cleanup(
    queue: &mut CsqQueue,
    file: u32,
    excused: &[u32],
    left: &mut u32,
) -> u32
    ensures same { IsQueueKept queue.old queue.new }
    ensures judged { OnQueueHandle queue.old.boxed.body result (left.new ≡ left.old)
        (λ body code. (stored : Option Left)
        × JudgesCleanupOf (file_numbered file) excused.now body code stored
        × (left.new ≡ set_to (left_stored stored) left.old)) }
{
    lend!(body in queue);
    let (code, judged) = body.judge_cleanup(FileId(file), excused);
    write(left, left_of(judged));
    code.number()
}
