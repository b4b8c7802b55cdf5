//! What a driver removes from its queue.
ghost use Rattle.std.specs.Prelude.{◌≡◌, if◌then◌else◌};
ghost use Rattle.csq_queue.specs.Calls.{RemovesOne};
ghost use Rattle.csq_checked.specs.Calls.{MakesCall};
ghost use Rattle.csq_checked.specs.Passes.{IsPassIn, listed};
ghost use Rattle.csq_checked.specs.Removes.{removed_by, unremoved_verdict};
ghost use Rattle.csq_checked.specs.declared.judge.remove.RemoveVerdict.TheVariants.{Agrees};

use super::list::is_in_queue;
use crate::pass::CheckedPass;
use crate::queue::CheckedQueue;
use irp_core::IrpLife;

/// What is to be said of a removal; the numbers are those of C's `csq_remove_verdict`. Own rule.
#[derive(Clone, Copy, Debug, PartialEq, Eq)]
pub enum RemoveVerdict {
    /// The queue gives the IRP to the pass too.
    Agrees = 0,
    /// It is in the queue, by its number, and not to be had: a canceller has it, or it is in another life.
    Claimed = 1,
    /// It isn't in the queue.
    NotListed = 2,
}

/// Removes an IRP beside a driver that removes it (`IoCsqRemoveIrp`), or says why it isn't to be had. The
/// caller has the queue's lock.
///
/// `Agrees` comes exactly if the queue's own removal gets it, in the life named. Else whether it is in the
/// queue is decided by its number. Own rule.
pub fn judge_remove(queue: &mut CheckedQueue, by: &mut CheckedPass, irp: IrpLife) -> RemoveVerdict
    requires { IsPassIn queue.old.queue by.old }
    ensures call { MakesCall (RemovesOne irp (removed_by result irp))
        queue.old by.old queue.new by.new }
    ensures verdict { ¬ (result ≡ Agrees)
        → result ≡ unremoved_verdict (listed queue.old) irp.irp }
{
    let is_listed = is_in_queue(queue, irp.irp);
    match queue.remove(by, irp) {
        Some(_) => RemoveVerdict::Agrees,
        None => judge_unremoved(is_listed),
    }
}

/// An IRP that no removal gets.
fn judge_unremoved(is_listed: bool) -> RemoveVerdict
    ensures { result ≡ (if is_listed then RemoveVerdict.Claimed else RemoveVerdict.NotListed) }
{
    if is_listed {
        RemoveVerdict::Claimed
    } else {
        RemoveVerdict::NotListed
    }
}
