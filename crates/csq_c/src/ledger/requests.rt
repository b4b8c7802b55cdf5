//! The way of a request through a ledger, under the caller's lock. Before any other code each
//! returns CSQ_EMPTY_HANDLE if the handle is empty.
ghost use Rattle.std.specs.Prelude.{◌≡◌, Bool, Option, Result};
ghost use Rattle.std.specs.Result.{result_ok};
ghost use Rattle.irp_core.specs.declared.ids.IrpLife.{IrpLife};
ghost use Rattle.request_table.specs.Times.{due_at};
ghost use Rattle.request_table.specs.declared.stage.Ended.{Ended};
ghost use Rattle.csq_checked.specs.declared.unlocked.CompleteRefused.{CompleteRefused};
ghost use Rattle.csq_ledger.specs.Calls.{Begins, CancelsRequest, EndsRequest, Expires, FinishesRequest, PutsBackRequest, TakesRequest, drained_by, taken_by};
ghost use Rattle.csq_ledger.specs.declared.refusals.{BeginRefused.{BeginRefused}, CancelRefused.{CancelRefused}, EndRefused.{EndRefused}, PutBackRefused.{PutBackRefused}, TakeRefused.{TakeRefused}};
ghost use Rattle.csq_ledger.specs.declared.request.{Expired.{Expired}, Request.{Request}};
ghost use Rattle.csq_c.specs.LedgerCalls.{OnLedger, OnWhy};
ghost use Rattle.csq_c.specs.LedgerCodes.{begin_code, cancel_code, end_code, expire_code, expired_name, expired_stage, finish_code, put_back_code, take_code, taken_file, taken_name};
ghost use Rattle.csq_c.specs.LedgerShapes.{ended_written};
ghost use Rattle.csq_c.specs.Shapes.{file_numbered, irp_named, peek_of, place_numbered, set_to, status_numbered, written};

use crate::codes::Code;
use crate::handles::{CsqLedger, lend};
use crate::ledger::codes::{
    of_begin, of_cancel, of_end, of_expire, of_finish, of_put_back, of_take,
};
use crate::ledger::shapes::{CsqEnded, due_at, why_numbered};
use crate::shapes::{CsqIrp, peek, place, write};
use irp_core::{FileId, NtStatus};

/// Lists a new request under the number that has been free longest, for a file object, first unless
/// `front` is 0, due at `due` or never by the largest number, and writes its name: CSQ_OK,
/// otherwise CSQ_UNKNOWN_FILE, CSQ_CLOSED, CSQ_FILE_CLOSED, CSQ_LIVES_SPENT, CSQ_FULL,
/// CSQ_FILE_FULL or CSQ_FULL, the first cause that holds. As `IoCsqInsertIrpEx`.
#[unsafe(no_mangle)]
pub extern "C" fn csq_ledger_begin(
    ledger: &mut CsqLedger,
    file: u32,
    front: u32,
    due: u64,
    name: &mut CsqIrp,
) -> u32
    ensures { OnLedger ledger.old ledger.new result (name.new ≡ name.old)
        (λ s s' code. (answer : Result IrpLife BeginRefused)
        × Begins (file_numbered file) (place_numbered front) (due_at due) answer s s'
        × (code ≡ begin_code answer) × (name.new ≡ written (result_ok answer) name.old)) }
{
    lend!(body in ledger);
    let (code, begun) = of_begin(body.begin(FileId(file), place(front), due_at(due)));
    name.write(begun);
    code.number()
}

/// Takes the first that is listed for a file object, or for any by the largest number, and writes
/// its name and its file object: CSQ_OK, otherwise CSQ_UNKNOWN_FILE or CSQ_NONE. As
/// `IoCsqRemoveNextIrp`.
#[unsafe(no_mangle)]
pub extern "C" fn csq_ledger_take(
    ledger: &mut CsqLedger,
    file: u32,
    name: &mut CsqIrp,
    of_file: &mut u32,
) -> u32
    ensures { OnLedger ledger.old ledger.new result
        ((name.new ≡ name.old) × (of_file.new ≡ of_file.old))
        (λ s s' code. (answer : Result Request TakeRefused)
        × TakesRequest (peek_of file) taken_by answer s s' × (code ≡ take_code answer)
        × (name.new ≡ written (taken_name answer) name.old)
        × (of_file.new ≡ set_to (taken_file answer) of_file.old)) }
{
    lend!(body in ledger);
    let (code, taken, taken_file) = of_take(body.take(peek(file)));
    name.write(taken);
    write(of_file, taken_file);
    code.number()
}

/// Lists a request again that is taken, first unless `front` is 0: CSQ_OK, otherwise
/// CSQ_UNKNOWN_IRP, CSQ_NOT_HELD, CSQ_NOT_REMOVED, CSQ_FILE_CLOSED, CSQ_FILE_FULL, CSQ_FULL or
/// CSQ_CANCELLED, the first cause that holds. As `IoCsqInsertIrpEx` of an IRP that
/// `IoCsqRemoveNextIrp` returned.
#[unsafe(no_mangle)]
pub extern "C" fn csq_ledger_put_back(ledger: &mut CsqLedger, name: CsqIrp, front: u32) -> u32
    ensures { OnLedger ledger.old ledger.new result (Unit {0})
        (λ s s' code. (answer : Result (Unit {0}) PutBackRefused)
        × PutsBackRequest (irp_named name) (place_numbered front) answer s s'
        × (code ≡ put_back_code answer)) }
{
    lend!(body in ledger);
    of_put_back(body.put_back(name.named(), place(front))).number()
}

/// Completes a request that is taken with this status, ends it, and writes how it ended: CSQ_OK,
/// otherwise CSQ_UNKNOWN_IRP, CSQ_NOT_HELD, CSQ_NOT_REMOVED or CSQ_NOT_FINAL. As
/// `IoCompleteRequest`.
#[unsafe(no_mangle)]
pub extern "C" fn csq_ledger_finish(
    ledger: &mut CsqLedger,
    name: CsqIrp,
    status: u32,
    ended: &mut CsqEnded,
) -> u32
    ensures { OnLedger ledger.old ledger.new result (ended.new ≡ ended.old)
        (λ s s' code. (answer : Result Ended CompleteRefused)
        × FinishesRequest (irp_named name) (status_numbered status) answer s s'
        × (code ≡ finish_code answer)
        × (ended.new ≡ ended_written (result_ok answer) ended.old)) }
{
    lend!(body in ledger);
    let (code, stored) = of_finish(body.finish(name.named(), NtStatus(status)));
    ended.write(stored);
    code.number()
}

/// Cancels a request by its name, for this reason: CSQ_OK if it was listed, and it is ending then,
/// otherwise CSQ_BAD_SIZE, CSQ_UNKNOWN_IRP, CSQ_STALE, or CSQ_NONE if it is taken or ending. As
/// `IoCancelIrp`.
#[unsafe(no_mangle)]
pub extern "C" fn csq_ledger_cancel(ledger: &mut CsqLedger, name: CsqIrp, why: u32) -> u32
    ensures { OnLedger ledger.old ledger.new result (Unit {0})
        (λ s s' code. OnWhy why code (s' ≡ s) (λ reason. (answer : Result Bool CancelRefused)
        × CancelsRequest (irp_named name) reason answer s s' × (code ≡ cancel_code answer))) }
{
    lend!(body in ledger);
    let Some(reason) = why_numbered(why) else {
        return Code::BadSize.number();
    };
    of_cancel(body.cancel(name.named(), reason)).number()
}

/// Takes out the first that is listed for a file object, or for any by the largest number, for this
/// reason, and writes its name and its file object: CSQ_OK, otherwise CSQ_BAD_SIZE,
/// CSQ_UNKNOWN_FILE or CSQ_NONE. As a step of `IRP_MJ_CLEANUP`.
#[unsafe(no_mangle)]
pub extern "C" fn csq_ledger_drain_next(
    ledger: &mut CsqLedger,
    file: u32,
    why: u32,
    name: &mut CsqIrp,
    of_file: &mut u32,
) -> u32
    ensures { OnLedger ledger.old ledger.new result
        ((name.new ≡ name.old) × (of_file.new ≡ of_file.old))
        (λ s s' code. OnWhy why code
        ((s' ≡ s) × (name.new ≡ name.old) × (of_file.new ≡ of_file.old))
        (λ reason. (answer : Result Request TakeRefused)
        × TakesRequest (peek_of file) (drained_by reason) answer s s'
        × (code ≡ take_code answer) × (name.new ≡ written (taken_name answer) name.old)
        × (of_file.new ≡ set_to (taken_file answer) of_file.old))) }
{
    lend!(body in ledger);
    let Some(reason) = why_numbered(why) else {
        return Code::BadSize.number();
    };
    let (code, taken, taken_file) = of_take(body.drain_next(peek(file), reason));
    name.write(taken);
    write(of_file, taken_file);
    code.number()
}

/// Names one request that is due at `now` or before, than which none is due earlier, and writes its
/// name and its stage then: CSQ_OK, or CSQ_NONE if none is due. Own rule.
#[unsafe(no_mangle)]
pub extern "C" fn csq_ledger_expire(
    ledger: &mut CsqLedger,
    now: u64,
    name: &mut CsqIrp,
    stage: &mut u32,
) -> u32
    ensures { OnLedger ledger.old ledger.new result
        ((name.new ≡ name.old) × (stage.new ≡ stage.old))
        (λ s s' code. (answer : Option Expired) × Expires now answer s s'
        × (code ≡ expire_code answer) × (name.new ≡ written (expired_name answer) name.old)
        × (stage.new ≡ set_to (expired_stage answer) stage.old)) }
{
    lend!(body in ledger);
    let (code, expired, expired_stage) = of_expire(body.expire(now));
    name.write(expired);
    write(stage, expired_stage);
    code.number()
}

/// Completes a request that is ending with STATUS_CANCELLED, ends it, and writes how it ended:
/// CSQ_OK, otherwise CSQ_UNKNOWN_IRP or CSQ_NOT_HELD. As `CsqCompleteCanceledIrp`.
#[unsafe(no_mangle)]
pub extern "C" fn csq_ledger_end(ledger: &mut CsqLedger, name: CsqIrp, ended: &mut CsqEnded) -> u32
    ensures { OnLedger ledger.old ledger.new result (ended.new ≡ ended.old)
        (λ s s' code. (answer : Result Ended EndRefused)
        × EndsRequest (irp_named name) answer s s' × (code ≡ end_code answer)
        × (ended.new ≡ ended_written (result_ok answer) ended.old)) }
{
    lend!(body in ledger);
    let (code, stored) = of_end(body.end(name.named()));
    ended.write(stored);
    code.number()
}
