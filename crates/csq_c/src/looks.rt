//! What an open queue shows without a pass, under the caller's lock. Before any other code each returns
//! CSQ_EMPTY_HANDLE if the handle is empty, then CSQ_CLOSED of a closed queue.
ghost use Rattle.std.specs.Prelude.{◌≡◌, ℕ, Option};
ghost use Rattle.irp_core.specs.declared.ids.IrpLife.{IrpLife};
ghost use Rattle.csq_c.specs.Exports.{IsQueueKept};
ghost use Rattle.csq_c.specs.Lefts.{start_of};
ghost use Rattle.csq_c.specs.Looks.{CountsListed, CountsListedFor, OnQueueHandle, PeeksNextOf};
ghost use Rattle.csq_c.specs.Shapes.{file_numbered, peek_of, set_to, written};

use crate::body::QueueBody;
use crate::codes::Code;
use crate::handles::{CsqQueue, lend};
use crate::shapes::{CsqIrp, peek, start, write};
use csq_list::Peek;
use irp_core::{FileId, IrpId, IrpLife};

impl QueueBody {
    /// How many IRPs are listed, if the queue is open.
    fn len(&self) -> (Code, Option<u32>)
        ensures { CountsListed self.now result.0 result.1 }
    {
        match &self.queue {
            None => (Code::Closed, None),
            Some(queue) => (Code::Done, Some(queue.len())),
        }
    }

    /// How many are listed for a file object, if the queue is open.
    fn file_len(&self, file: FileId) -> (Code, Option<u32>)
        ensures { CountsListedFor file self.now result.0 result.1 }
    {
        let Some(queue) = &self.queue else {
            return (Code::Closed, None);
        };
        match queue.file_len(file) {
            Some(len) => (Code::Done, Some(len)),
            None => (Code::UnknownFile, None),
        }
    }

    /// The next match after this IRP, or the first one, if the queue is open.
    fn peek_next(&self, after: Option<IrpId>, peek: Peek) -> (Code, Option<IrpLife>)
        ensures { PeeksNextOf after peek self.now result.0 result.1 }
    {
        let Some(queue) = &self.queue else {
            return (Code::Closed, None);
        };
        match queue.peek_next(after, peek) {
            Ok(Some(next)) => (Code::Done, Some(next)),
            Ok(None) => (Code::Nothing, None),
            Err(_) => (Code::NotListed, None),
        }
    }
}

/// Writes how many IRPs are listed, with those whose canceller has taken the cancel routine already:
/// CSQ_OK. Own rule.
#[unsafe(no_mangle)]
pub extern "C" fn csq_len(queue: &mut CsqQueue, len: &mut u32) -> u32
    ensures same { IsQueueKept queue.old queue.new }
    ensures look { OnQueueHandle queue.old.boxed.body result (len.new ≡ len.old)
        (λ body code. (stored : Option ℕ) × CountsListed body code stored
        × (len.new ≡ set_to stored len.old)) }
{
    lend!(body in queue);
    let (code, stored) = body.len();
    write(len, stored);
    code.number()
}

/// Writes how many IRPs are listed for a file object: CSQ_OK, or CSQ_UNKNOWN_FILE if there is none.
/// Own rule.
#[unsafe(no_mangle)]
pub extern "C" fn csq_file_len(queue: &mut CsqQueue, file: u32, len: &mut u32) -> u32
    ensures same { IsQueueKept queue.old queue.new }
    ensures look { OnQueueHandle queue.old.boxed.body result (len.new ≡ len.old)
        (λ body code. (stored : Option ℕ) × CountsListedFor (file_numbered file) body code stored
        × (len.new ≡ set_to stored len.old)) }
{
    lend!(body in queue);
    let (code, stored) = body.file_len(FileId(file));
    write(len, stored);
    code.number()
}

/// Writes the first listed IRP after `after`, or from the first on by the largest number, of a file
/// object or of all by the largest number, in its present life: CSQ_OK, or CSQ_NONE if there is
/// none, else CSQ_NOT_LISTED if `after` isn't listed. The IRP stays listed; its canceller may have
/// taken the cancel routine already, and no removal gets it then. As `CsqPeekNextIrp`.
#[unsafe(no_mangle)]
pub extern "C" fn csq_peek_next(
    queue: &mut CsqQueue,
    after: u32,
    file: u32,
    irp: &mut CsqIrp,
) -> u32
    ensures same { IsQueueKept queue.old queue.new }
    ensures look { OnQueueHandle queue.old.boxed.body result (irp.new ≡ irp.old)
        (λ body code. (stored : Option IrpLife)
        × PeeksNextOf (start_of after) (peek_of file) body code stored
        × (irp.new ≡ written stored irp.old)) }
{
    lend!(body in queue);
    let (code, stored) = body.peek_next(start(after), peek(file));
    irp.write(stored);
    code.number()
}
