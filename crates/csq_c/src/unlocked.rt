//! The calls of a pass that take no queue, and no lock. Before any other code each returns
//! CSQ_EMPTY_HANDLE if the pass's handle is empty.
ghost use Rattle.std.specs.Prelude.{◌≡◌, Bool, Option, Result};
ghost use Rattle.irp_core.specs.declared.ids.{IrpLife.{IrpLife}, Life.{Life}};
ghost use Rattle.irp_core.specs.declared.status.NtStatus.{NtStatus as Status};
ghost use Rattle.csq_queue.specs.Counts.{held_count, owed_count};
ghost use Rattle.csq_queue.specs.declared.refusals.{CancelRefused.{CancelRefused}, UnknownIrp.{UnknownIrp}};
ghost use Rattle.csq_queue.specs.Calls.{MarksCancel, ReadsFlag, ReadsStatus};
ghost use Rattle.csq_checked.specs.Calls.{MakesOwnCall, CompletesRemoved, CompletesHeld};
ghost use Rattle.csq_checked.specs.declared.unlocked.CompleteRefused.{CompleteRefused};
ghost use Rattle.csq_c.specs.Codes.{mark_code, claim_stored, complete_code, flag_code, flag_life_stored, flag_stored, status_code, status_life_stored, status_stored};
ghost use Rattle.csq_c.specs.Exports.{OnPass};
ghost use Rattle.csq_c.specs.Shapes.{irp_named, irp_numbered, life_numbered, status_numbered, set_to};

use crate::codes::{Code, of_complete, of_flag, of_mark, of_status};
use crate::handles::{CsqPass, lend};
use crate::shapes::{CsqIrp, write};
use irp_core::{IrpId, Life, NtStatus};

/// Sets the Cancel flag of an IRP in the life named and takes its cancel routine: CSQ_OK, and in
/// `found` 1 if the routine was there, and the pass owes the IRP then, else 0. Refused with
/// CSQ_UNKNOWN_IRP or CSQ_STALE. As `IoCancelIrp`, up to the call of the routine.
#[unsafe(no_mangle)]
pub extern "C" fn csq_mark_cancel(pass: &mut CsqPass, irp: CsqIrp, found: &mut u32) -> u32
    ensures { OnPass pass.old pass.new result (found.new ≡ found.old)
        (λ p p' code. (answer : Result (Option IrpLife) CancelRefused)
        × MakesOwnCall (MarksCancel (irp_numbered irp.irp) (life_numbered irp.life) answer) p p'
        × (code ≡ mark_code answer) × (found.new ≡ set_to (claim_stored answer) found.old)) }
{
    lend!(by in pass);
    let (code, stored) = of_mark(by.mark_cancel(IrpId(irp.irp), Life(irp.life)));
    write(found, stored);
    code.number()
}

/// Completes an IRP that the pass got by a removal, in the life named, with this status: CSQ_OK,
/// else CSQ_UNKNOWN_IRP, CSQ_NOT_HELD, CSQ_NOT_REMOVED or CSQ_NOT_FINAL. As `IoCompleteRequest`.
#[unsafe(no_mangle)]
pub extern "C" fn csq_complete(pass: &mut CsqPass, irp: CsqIrp, status: u32) -> u32
    ensures { OnPass pass.old pass.new result (Unit {0})
        (λ p p' code. (answer : Result (Unit {0}) CompleteRefused)
        × CompletesRemoved (irp_named irp) (status_numbered status) answer p p'
        × (code ≡ complete_code answer)) }
{
    lend!(by in pass);
    of_complete(by.complete(irp.named(), NtStatus(status))).number()
}

/// Completes an IRP that the pass holds in the life named with STATUS_CANCELLED: CSQ_OK, else
/// CSQ_UNKNOWN_IRP or CSQ_NOT_HELD. As `IoCompleteRequest`.
#[unsafe(no_mangle)]
pub extern "C" fn csq_complete_cancelled(pass: &mut CsqPass, irp: CsqIrp) -> u32
    ensures { OnPass pass.old pass.new result (Unit {0})
        (λ p p' code. (answer : Result (Unit {0}) CompleteRefused)
        × CompletesHeld (irp_named irp) answer p p' × (code ≡ complete_code answer)) }
{
    lend!(by in pass);
    of_complete(by.complete_cancelled(irp.named())).number()
}

/// The life that an IRP's Cancel flag stands for, and whether it is set there: CSQ_OK, or
/// CSQ_UNKNOWN_IRP. As the field `Irp->Cancel`.
#[unsafe(no_mangle)]
pub extern "C" fn csq_read_cancel(
    pass: &mut CsqPass,
    irp: u32,
    life: &mut u32,
    cancelled: &mut u32,
) -> u32
    ensures { OnPass pass.old pass.new result
        ((life.new ≡ life.old) × (cancelled.new ≡ cancelled.old))
        (λ p p' code. (answer : Result (Life × Bool) UnknownIrp)
        × MakesOwnCall (ReadsFlag (irp_numbered irp) answer) p p' × (code ≡ flag_code answer)
        × (life.new ≡ set_to (flag_life_stored answer) life.old)
        × (cancelled.new ≡ set_to (flag_stored answer) cancelled.old)) }
{
    lend!(by in pass);
    let (code, lived, flag) = of_flag(by.is_cancelled(IrpId(irp)));
    write(life, lived);
    write(cancelled, flag);
    code.number()
}

/// The life that an IRP's status stands for, and the status: CSQ_OK, or CSQ_NONE if it isn't
/// completed in that life, or CSQ_UNKNOWN_IRP. As the field `Irp->IoStatus.Status`.
#[unsafe(no_mangle)]
pub extern "C" fn csq_read_status(
    pass: &mut CsqPass,
    irp: u32,
    life: &mut u32,
    status: &mut u32,
) -> u32
    ensures { OnPass pass.old pass.new result
        ((life.new ≡ life.old) × (status.new ≡ status.old))
        (λ p p' code. (answer : Result (Life × Option Status) UnknownIrp)
        × MakesOwnCall (ReadsStatus (irp_numbered irp) answer) p p' × (code ≡ status_code answer)
        × (life.new ≡ set_to (status_life_stored answer) life.old)
        × (status.new ≡ set_to (status_stored answer) status.old)) }
{
    lend!(by in pass);
    let (code, lived, stored) = of_status(by.status(IrpId(irp)));
    write(life, lived);
    write(status, stored);
    code.number()
}

/// How many IRPs the pass holds and owes: CSQ_OK. Own rule.
#[unsafe(no_mangle)]
pub extern "C" fn csq_count_held(pass: &mut CsqPass, held: &mut u32, owed: &mut u32) -> u32
    ensures { OnPass pass.old pass.new result
        ((held.new ≡ held.old) × (owed.new ≡ owed.old)) (λ p p' code. (p' ≡ p) × (code ≡ Code.Done)
        × (held.new ≡ held_count p.pass.steps) × (owed.new ≡ owed_count p.pass.steps)) }
{
    lend!(by in pass);
    let (tokens, claims) = (by.tokens(), by.claims());
    *held = tokens;
    *owed = claims;
    Code::Done.number()
}
