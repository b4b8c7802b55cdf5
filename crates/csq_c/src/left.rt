//! What a closed queue reports.
ghost use Rattle.std.specs.Prelude.{◌≡◌, None};
ghost use Rattle.csq_c.specs.Exports.{IsQueueKept};
ghost use Rattle.csq_c.specs.Lefts.{OnRest, left_code, left_of, left_written, next_after, next_code, number_stored, start_of};
ghost use Rattle.csq_c.specs.Looks.{OnQueueHandle};
ghost use Rattle.csq_c.specs.Shapes.{irp_numbered, set_to};

use crate::body::QueueBody;
use crate::codes::Code;
use crate::handles::{CsqQueue, lend};
use crate::shapes::{CsqLeft, start, write};
use csq_list::PendingList;
use irp_core::IrpId;

impl QueueBody {
    /// The listed IRP after this one, or the first, if the queue is closed.
    fn next_listed(&self, after: Option<IrpId>) -> (Code, Option<u32>)
        ensures { OnRest self.now result.0 (result.1 ≡ None) (λ rest. result
            ≡ (next_code rest.entries after, number_stored (next_after rest.entries after))) }
    {
        let Some(rest) = &self.rest else {
            return (Code::NotClosed, None);
        };
        if let Some(irp) = after
            && !rest.list.is_listed(irp)
        {
            return (Code::NotListed, None);
        }
        match rest.next_listed(after) {
            Some(next) => (Code::Done, Some(next.0)),
            None => (Code::Nothing, None),
        }
    }

    /// What is left of an IRP, if the queue is closed.
    fn left(&self, irp: IrpId) -> (Code, Option<CsqLeft>)
        ensures { OnRest self.now result.0 (result.1 ≡ None) (λ rest. result
            ≡ (left_code (left_of rest.finals irp), left_of rest.finals irp)) }
    {
        let Some(rest) = &self.rest else {
            return (Code::NotClosed, None);
        };
        let Some(life) = rest.life(irp) else {
            return (Code::UnknownIrp, None);
        };
        let status = rest.status(irp);
        let left = CsqLeft {
            life: life.0,
            cancelled: u32::from(rest.cancelled(irp)),
            completed: u32::from(status.is_some()),
            status: match status {
                Some(status) => status.0,
                None => 0,
            },
        };
        (Code::Done, Some(left))
    }
}

/// Writes the listed IRP after this one, or the first by the largest number, of a closed queue:
/// CSQ_OK, or CSQ_NONE after the last, else CSQ_EMPTY_HANDLE, CSQ_NOT_CLOSED, or CSQ_NOT_LISTED
/// if that one isn't listed. Own rule.
#[unsafe(no_mangle)]
pub extern "C" fn csq_read_listed(queue: &mut CsqQueue, after: u32, irp: &mut u32) -> u32
    ensures same { IsQueueKept queue.old queue.new }
    ensures next { OnQueueHandle queue.old.boxed.body result (irp.new ≡ irp.old)
        (λ body code. OnRest body code (irp.new ≡ irp.old)
        (λ rest. (code ≡ next_code rest.entries (start_of after))
        × (irp.new ≡ set_to (number_stored (next_after rest.entries (start_of after))) irp.old))) }
{
    lend!(body in queue);
    let (code, next) = body.next_listed(start(after));
    write(irp, next);
    code.number()
}

/// Writes what is left of an IRP of a closed queue: CSQ_OK, else CSQ_EMPTY_HANDLE, CSQ_NOT_CLOSED
/// or CSQ_UNKNOWN_IRP. Own rule.
#[unsafe(no_mangle)]
pub extern "C" fn csq_read_left(queue: &mut CsqQueue, irp: u32, left: &mut CsqLeft) -> u32
    ensures same { IsQueueKept queue.old queue.new }
    ensures left { OnQueueHandle queue.old.boxed.body result (left.new ≡ left.old)
        (λ body code. OnRest body code (left.new ≡ left.old)
        (λ rest. (code ≡ left_code (left_of rest.finals (irp_numbered irp)))
        × (left.new ≡ left_written (left_of rest.finals (irp_numbered irp)) left.old))) }
{
    lend!(body in queue);
    let (code, stored) = body.left(IrpId(irp));
    left.write(stored);
    code.number()
}
