//! The calls that take an open queue, by a pass, under the caller's lock. Before any other code
//! each returns CSQ_EMPTY_HANDLE if a handle is empty, then CSQ_OTHER_QUEUE if the pass is
//! another queue's, then CSQ_CLOSED of a closed queue.
ghost use Rattle.std.specs.Prelude.{◌≡◌, ℕ, Option};
ghost use Rattle.irp_core.specs.declared.ids.IrpLife.{IrpLife};
ghost use Rattle.csq_c.specs.Calls.{InsertsInto, PutsBackInto, RemovesNextFrom, RemovesFrom, RunsRoutineOn, CancelsOwedOn, ClosesFileOf, ReusesOf};
ghost use Rattle.csq_c.specs.Exports.{OnHandles, ArePaired};
ghost use Rattle.csq_c.specs.Shapes.{irp_numbered, file_numbered, irp_named, place_numbered, peek_of, written, set_to};

use crate::codes::Code;
use crate::handles::{CsqPass, CsqQueue, lend};
use crate::shapes::{CsqIrp, peek, place, write};
use irp_core::{FileId, IrpId};

/// Inserts an IRP for a file object, first unless `front` is 0, and writes its insert context:
/// CSQ_OK where it is pending, CSQ_CANCELLED where it was found cancelled, and the pass holds it
/// then. Else CSQ_UNKNOWN_IRP to CSQ_FILE_FULL, the first cause why it isn't taken. As
/// `IoCsqInsertIrpEx`.
#[unsafe(no_mangle)]
pub extern "C" fn csq_insert(
    queue: &mut CsqQueue,
    pass: &mut CsqPass,
    irp: u32,
    file: u32,
    front: u32,
    context: &mut CsqIrp,
) -> u32
    requires { ArePaired queue.old pass.old }
    ensures { OnHandles queue.old queue.new pass.old pass.new result
        (context.new ≡ context.old)
        (λ body body' p p' code. (stored : Option IrpLife)
        × InsertsInto (irp_numbered irp) (file_numbered file)
        (place_numbered front) body body' p p' code stored
        × (context.new ≡ written stored context.old)) }
{
    lend!(body in queue, by in pass);
    let (code, stored) = body.insert(by, IrpId(irp), FileId(file), place(front));
    context.write(stored);
    code.number()
}

/// Puts an IRP back that the pass got by a removal in the life named, first unless `front` is 0, and
/// writes its insert context: CSQ_OK where it is pending, and the pass holds it no longer then,
/// CSQ_CANCELLED where it was found cancelled, and the pass holds it as cancelled then. Else
/// CSQ_UNKNOWN_IRP, CSQ_NOT_HELD or CSQ_NOT_REMOVED, as `csq_complete` returns, or CSQ_FILE_CLOSED,
/// CSQ_FILE_FULL or CSQ_FULL, as `csq_insert` does. As `IoCsqInsertIrpEx` of an IRP that
/// `IoCsqRemoveNextIrp` or `IoCsqRemoveIrp` returned.
#[unsafe(no_mangle)]
pub extern "C" fn csq_put_back(
    queue: &mut CsqQueue,
    pass: &mut CsqPass,
    irp: CsqIrp,
    front: u32,
    context: &mut CsqIrp,
) -> u32
    requires { ArePaired queue.old pass.old }
    ensures { OnHandles queue.old queue.new pass.old pass.new result
        (context.new ≡ context.old)
        (λ body body' p p' code. (stored : Option IrpLife)
        × PutsBackInto (irp_named irp) (place_numbered front) body body' p p' code stored
        × (context.new ≡ written stored context.old)) }
{
    lend!(body in queue, by in pass);
    let (code, stored) = body.put_back(by, irp.named(), place(front));
    context.write(stored);
    code.number()
}

/// Removes the first match that no canceller has, of a file object or of all by the largest number,
/// and writes it: CSQ_OK if there is one, and the pass holds it then, else CSQ_NONE. As
/// `IoCsqRemoveNextIrp`.
#[unsafe(no_mangle)]
pub extern "C" fn csq_remove_next(
    queue: &mut CsqQueue,
    pass: &mut CsqPass,
    file: u32,
    irp: &mut CsqIrp,
) -> u32
    requires { ArePaired queue.old pass.old }
    ensures { OnHandles queue.old queue.new pass.old pass.new result
        (irp.new ≡ irp.old)
        (λ body body' p p' code. (stored : Option IrpLife)
        × RemovesNextFrom (peek_of file) body body' p p' code stored
        × (irp.new ≡ written stored irp.old)) }
{
    lend!(body in queue, by in pass);
    let (code, stored) = body.remove_next(by, peek(file));
    irp.write(stored);
    code.number()
}

/// Removes this IRP: CSQ_OK, and the pass holds it then, or CSQ_NONE if it isn't listed in the
/// life named or a canceller has it. As `IoCsqRemoveIrp`.
#[unsafe(no_mangle)]
pub extern "C" fn csq_remove(queue: &mut CsqQueue, pass: &mut CsqPass, irp: CsqIrp) -> u32
    requires { ArePaired queue.old pass.old }
    ensures { OnHandles queue.old queue.new pass.old pass.new result (Unit {0})
        (λ body body' p p' code. RemovesFrom (irp_named irp) body body' p p' code) }
{
    lend!(body in queue, by in pass);
    body.remove(by, irp.named()).number()
}

/// Runs the cancel routine of an IRP that the pass owes in the life named: CSQ_OK, and the pass
/// holds it then. Else CSQ_UNKNOWN_IRP or CSQ_NOT_OWED. As the cancel routine that the WDK's queue
/// sets, which takes the IRP out under the lock.
#[unsafe(no_mangle)]
pub extern "C" fn csq_cancel_routine(queue: &mut CsqQueue, pass: &mut CsqPass, irp: CsqIrp) -> u32
    requires { ArePaired queue.old pass.old }
    ensures { OnHandles queue.old queue.new pass.old pass.new result (Unit {0})
        (λ body body' p p' code. RunsRoutineOn (irp_named irp) body body' p p' code) }
{
    lend!(body in queue, by in pass);
    body.cancel_routine(by, irp.named()).number()
}

/// Runs the cancel routine of an IRP that the pass owes in the life named, and completes the IRP with
/// STATUS_CANCELLED: CSQ_OK. Else CSQ_UNKNOWN_IRP or CSQ_NOT_OWED. As the cancel routine that the
/// WDK's queue sets, which takes the IRP out under the lock and then calls
/// `CsqCompleteCanceledIrp`.
#[unsafe(no_mangle)]
pub extern "C" fn csq_cancel_owed(queue: &mut CsqQueue, pass: &mut CsqPass, irp: CsqIrp) -> u32
    requires { ArePaired queue.old pass.old }
    ensures { OnHandles queue.old queue.new pass.old pass.new result (Unit {0})
        (λ body body' p p' code. CancelsOwedOn (irp_named irp) body body' p p' code) }
{
    lend!(body in queue, by in pass);
    body.cancel_owed(by, irp.named()).number()
}

/// Closes a file object for good: CSQ_OK, or CSQ_UNKNOWN_FILE if there is none. The first step
/// of `IRP_MJ_CLEANUP`.
#[unsafe(no_mangle)]
pub extern "C" fn csq_close_file(queue: &mut CsqQueue, pass: &mut CsqPass, file: u32) -> u32
    requires { ArePaired queue.old pass.old }
    ensures { OnHandles queue.old queue.new pass.old pass.new result (Unit {0})
        (λ body body' p p' code. ClosesFileOf (file_numbered file) body body' p p' code) }
{
    lend!(body in queue, by in pass);
    body.close_file(by, FileId(file)).number()
}

/// Begins the next life of an IRP that was completed in the life named, and writes it: CSQ_OK, else
/// CSQ_UNKNOWN_IRP, CSQ_STALE if the life named isn't the present one, CSQ_NOT_COMPLETED or
/// CSQ_LIVES_SPENT. As `IoReuseIrp`.
#[unsafe(no_mangle)]
pub extern "C" fn csq_reuse(
    queue: &mut CsqQueue,
    pass: &mut CsqPass,
    irp: CsqIrp,
    life: &mut u32,
) -> u32
    requires { ArePaired queue.old pass.old }
    ensures { OnHandles queue.old queue.new pass.old pass.new result
        (life.new ≡ life.old)
        (λ body body' p p' code. (stored : Option ℕ)
        × ReusesOf (irp_named irp) body body' p p' code stored
        × (life.new ≡ set_to stored life.old)) }
{
    lend!(body in queue, by in pass);
    let (code, stored) = body.reuse(by, irp.named());
    write(life, stored);
    code.number()
}
