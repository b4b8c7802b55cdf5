//! What a driver's `CsqPeekNextIrp` returns, beside the queue's list.
ghost use Rattle.std.specs.Prelude.{◌≡◌, ◌↔◌, Ok, Some, IsOk, IfOk};
ghost use Rattle.csq_list.specs.Searches.{IsStartIn, first_match, is_listed, rest_after};
ghost use Rattle.csq_checked.specs.Passes.{listed};
ghost use Rattle.csq_checked.specs.Peeks.{irp_verdict, matching, peek_verdict, stray_verdict, verdict_beside};
ghost use Rattle.csq_checked.specs.declared.judge.peek.PeekVerdict.TheVariants.{Agrees};

use super::list::{is_in_queue, is_same, match_after, next_match};
use crate::queue::CheckedQueue;
use csq_list::Peek;
use csq_queue::NotListed;
use irp_core::IrpId;

/// What is to be said of the answer of a `CsqPeekNextIrp`. Own rule.
#[derive(Clone, Copy, Debug, PartialEq, Eq)]
pub enum PeekVerdict {
    /// It is what the queue's list gives.
    Agrees,
    /// It is none, or a later match: this match comes first.
    Skips(IrpId),
    /// It is a match, but none that stands after the IRP from which the peek went on.
    Backwards,
    /// It is in the queue, but no match.
    NoMatch,
    /// It isn't in the queue.
    NotListed,
}

/// Compares the answer of a driver's `CsqPeekNextIrp` with the queue's list, whose lock the caller has:
/// it was asked for the first match after an IRP, or in the whole queue.
///
/// `NotListed` comes exactly if the peek went on from an IRP that isn't in the queue. Own rule.
pub fn judge_peek(
    queue: &CheckedQueue,
    after: Option<IrpId>,
    peek: Peek,
    answer: Option<IrpId>,
) -> Result<PeekVerdict, NotListed>
    ensures start { IsOk result ↔ IsStartIn (listed queue.now) after }
    ensures agrees { (result ≡ Ok Agrees) ↔ (IsStartIn (listed queue.now) after
        × (answer ≡ first_match peek (rest_after after (listed queue.now)))) }
    ensures verdict { IfOk result
        (λ verdict. verdict ≡ peek_verdict (listed queue.now) after peek answer) }
{
    let first = next_match(queue, after, peek)?;
    Ok(judge_beside(queue, first, peek, answer))
}

/// An answer, if this is the first match after the start, if there is one.
fn judge_beside(
    queue: &CheckedQueue,
    first: Option<IrpId>,
    peek: Peek,
    answer: Option<IrpId>,
) -> PeekVerdict
    requires { IsStartIn (listed queue.now) first }
    ensures { result ≡ verdict_beside (listed queue.now) peek first answer }
{
    match (first, answer) {
        (None, None) => PeekVerdict::Agrees,
        (Some(first), None) => PeekVerdict::Skips(first),
        (None, Some(irp)) => judge_stray(queue, peek, irp),
        (Some(first), Some(irp)) => judge_irp(queue, first, peek, irp),
    }
}

/// An answer that is an IRP, if this is the first match after the start.
fn judge_irp(queue: &CheckedQueue, first: IrpId, peek: Peek, irp: IrpId) -> PeekVerdict
    requires { IsStartIn (listed queue.now) (Some first) }
    ensures { result ≡ irp_verdict (listed queue.now) peek first irp }
{
    if is_same(first, irp) {
        PeekVerdict::Agrees
    } else if stands_after(queue, Some(first), peek, irp) {
        // It is a match after the start too, but the driver passed the first one over.
        PeekVerdict::Skips(first)
    } else {
        judge_stray(queue, peek, irp)
    }
}

/// An answer that is no match after the start.
fn judge_stray(queue: &CheckedQueue, peek: Peek, irp: IrpId) -> PeekVerdict
    ensures { result ≡ stray_verdict (listed queue.now) peek irp }
{
    if stands_after(queue, None, peek, irp) {
        PeekVerdict::Backwards
    } else if is_in_queue(queue, irp) {
        PeekVerdict::NoMatch
    } else {
        PeekVerdict::NotListed
    }
}

/// Whether an IRP is among the matches after another one, or in the whole queue.
fn stands_after(queue: &CheckedQueue, from: Option<IrpId>, peek: Peek, irp: IrpId) -> bool
    requires { IsStartIn (listed queue.now) from }
    ensures { result ≡ is_listed (matching peek (rest_after from (listed queue.now))) irp }
{
    // No search has more matches than IRPs are listed, so the search ends before the bound.
    let mut at = from;
    'matches: for _ in 0..queue.len() {
        let Some(next) = match_after(queue, at, peek) else {
            return false;
        };
        if is_same(next, irp) {
            return true;
        }
        at = Some(next);
    }
    false
}
