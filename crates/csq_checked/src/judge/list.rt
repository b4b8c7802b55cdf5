//! Looks at the queue's list, beside which a driver's is judged.
ghost use Rattle.std.specs.Prelude.{◌≡◌, ◌↔◌, IsOk, IfOk};
ghost use Rattle.irp_core.specs.Steps.{same_id};
ghost use Rattle.csq_list.specs.Searches.{IsStartIn, first_match, is_listed, rest_after};
ghost use Rattle.csq_checked.specs.Passes.{listed};

use crate::queue::CheckedQueue;
use csq_list::Peek;
use csq_queue::NotListed;
use irp_core::IrpId;

/// The first match after an IRP, or in the whole queue, by its number.
pub(crate) fn next_match(
    queue: &CheckedQueue,
    after: Option<IrpId>,
    peek: Peek,
) -> Result<Option<IrpId>, NotListed>
    ensures start { IsOk result ↔ IsStartIn (listed queue.now) after }
    ensures first { IfOk result
        (λ first. first ≡ first_match peek (rest_after after (listed queue.now))) }
{
    match queue.peek_next(after, peek) {
        Ok(Some(next)) => Ok(Some(next.irp)),
        Ok(None) => Ok(None),
        Err(refusal) => Err(refusal),
    }
}

/// The first match after an IRP that is in the queue, or in the whole queue.
pub(crate) fn match_after(queue: &CheckedQueue, after: Option<IrpId>, peek: Peek) -> Option<IrpId>
    requires { IsStartIn (listed queue.now) after }
    ensures { result ≡ first_match peek (rest_after after (listed queue.now)) }
{
    match next_match(queue, after, peek) {
        Ok(first) => first,
        // The search starts at an IRP that is listed, or at the head: no start is refused.
        Err(_) => unreachable!(),
    }
}

/// Whether an IRP is in the queue, by its number.
pub(crate) fn is_in_queue(queue: &CheckedQueue, irp: IrpId) -> bool
    ensures { result ≡ is_listed (listed queue.now) irp }
{
    next_match(queue, Some(irp), Peek::Any).is_ok()
}

/// Whether two numbers are of one IRP.
#[tactic(auto, unfolding(irp_core::specs::Steps::same_id))]
pub(crate) fn is_same(one: IrpId, other: IrpId) -> bool
    ensures { result ≡ same_id one other }
{
    one.0 == other.0
}
