//! How a ledger is made, closed and freed.
ghost use Rattle.std.specs.Prelude.{◌≡◌, ◌⊎◌, ◌<◌, ◌↔◌, Err, IfOk, IfSome, IsTrue, None, Result, replicate, true};
ghost use Rattle.csq_list.specs.Listing.{are_file_limits};
ghost use Rattle.csq_list.specs.declared.refusals.UnknownFile.{UnknownFile};
ghost use Rattle.csq_ledger.specs.Calls.{ClosesFile};
ghost use Rattle.csq_c.specs.Codes.{close_file_code, number_of};
ghost use Rattle.csq_c.specs.LedgerCalls.{IsGoodLedgerSize, IsNewLedger, OnLedger, free_ledger_code};
ghost use Rattle.csq_c.specs.Shapes.{file_numbered};

use crate::codes::{Code, of_close_file};
use crate::handles::{CsqLedger, lend};
use crate::hold::{boxed, fill, put, take};
use crate::shapes::CsqSize;
use csq_ledger::Ledger;
use irp_core::{FileId, SizeRefused};
use std::alloc::Global;

/// A ledger of this size, whose file objects have no limit of their own.
fn made(alloc: Global, size: &CsqSize) -> Result<Ledger, SizeRefused>
    ensures made { IfOk result
        (IsNewLedger size.now (replicate size.now.files size.now.irps)) }
    ensures bad_size { (result ≡ Err SizeRefused.BadSize) ↔ ¬ IsGoodLedgerSize size.now }
{
    let Some(size) = size.given() else {
        return Err(SizeRefused::BadSize);
    };
    Ledger::new(alloc, size)
}

/// A ledger of this size, each file object with a limit of its own.
fn made_with(alloc: Global, size: &CsqSize, file_limits: &[u32]) -> Result<Ledger, SizeRefused>
    ensures made { IfOk result (IsNewLedger size.now file_limits.now) }
    ensures bad_size { (result ≡ Err SizeRefused.BadSize)
        ↔ ¬ (IsGoodLedgerSize size.now
        × IsTrue (are_file_limits size.now.irps size.now.files file_limits.now)) }
{
    let Some(size) = size.given() else {
        return Err(SizeRefused::BadSize);
    };
    Ledger::with_file_limits(alloc, size, file_limits)
}

/// Makes a ledger over a new queue of this size, whose number of passes isn't looked at, and whose
/// file objects have no limit of their own: CSQ_OK, otherwise CSQ_NOT_EMPTY, CSQ_BAD_SIZE or
/// CSQ_NO_MEMORY. Own rule.
#[unsafe(no_mangle)]
pub extern "C" fn csq_ledger_new(alloc: Global, ledger: &mut CsqLedger, size: &CsqSize) -> u32
    ensures filled { (result ≡ number_of Code.NotEmpty) ↔ ¬ (ledger.old.boxed.body ≡ None) }
    ensures bad_size { ledger.old.boxed.body ≡ None → ((result ≡ number_of Code.BadSize)
        ↔ ¬ IsGoodLedgerSize size.now) }
    ensures made { result ≡ number_of Code.Done → IfSome ledger.new.boxed.body
        (IsNewLedger size.now (replicate size.now.files size.now.irps)) }
    ensures there { result ≡ number_of Code.Done → ¬ (ledger.new.boxed.body ≡ None) }
    ensures kept { 0 < result → ledger.new.boxed.body ≡ ledger.old.boxed.body }
    ensures cause { ledger.old.boxed.body ≡ None → (result ≡ number_of Code.Done)
        ⊎ ((result ≡ number_of Code.BadSize) ⊎ (result ≡ number_of Code.NoMemory)) }
{
    fill!(ledger, alloc, made(alloc, size))
}

/// Makes a ledger over a new queue of this size, each file object with a limit of its own: as
/// `csq_ledger_new`, and CSQ_BAD_SIZE also if the limits aren't one for each file object, each 1 to
/// the number of IRPs. Own rule.
#[unsafe(no_mangle)]
pub extern "C" fn csq_ledger_new_with_file_limits(
    alloc: Global,
    ledger: &mut CsqLedger,
    size: &CsqSize,
    file_limits: &[u32],
) -> u32
    ensures filled { (result ≡ number_of Code.NotEmpty) ↔ ¬ (ledger.old.boxed.body ≡ None) }
    ensures bad_size { ledger.old.boxed.body ≡ None → ((result ≡ number_of Code.BadSize)
        ↔ ¬ (IsGoodLedgerSize size.now
        × IsTrue (are_file_limits size.now.irps size.now.files file_limits.now))) }
    ensures made { result ≡ number_of Code.Done → IfSome ledger.new.boxed.body
        (IsNewLedger size.now file_limits.now) }
    ensures there { result ≡ number_of Code.Done → ¬ (ledger.new.boxed.body ≡ None) }
    ensures kept { 0 < result → ledger.new.boxed.body ≡ ledger.old.boxed.body }
    ensures cause { ledger.old.boxed.body ≡ None → (result ≡ number_of Code.Done)
        ⊎ ((result ≡ number_of Code.BadSize) ⊎ (result ≡ number_of Code.NoMemory)) }
{
    fill!(ledger, alloc, made_with(alloc, size, file_limits))
}

/// Frees a ledger: CSQ_OK, and its handle is empty, otherwise CSQ_EMPTY_HANDLE, or CSQ_HOLDING if
/// requests are under way. Own rule.
#[unsafe(no_mangle)]
pub extern "C" fn csq_ledger_free(alloc: Global, ledger: &mut CsqLedger) -> u32
    ensures code { result ≡ number_of (free_ledger_code ledger.old.boxed.body) }
    ensures freed { result ≡ number_of Code.Done → ledger.new.boxed.body ≡ None }
    ensures kept { 0 < result → ledger.new.boxed.body ≡ ledger.old.boxed.body }
{
    lend!(body in ledger);
    if !body.is_quiet() {
        return Code::Holding.number();
    }
    drop(take(&mut ledger.boxed, alloc));
    Code::Done.number()
}

/// Refuses each further begin as CSQ_CLOSED: CSQ_OK, also if it is closed already, otherwise
/// CSQ_EMPTY_HANDLE. Own rule.
#[unsafe(no_mangle)]
pub extern "C" fn csq_ledger_close(ledger: &mut CsqLedger) -> u32
    ensures { OnLedger ledger.old ledger.new result (Unit {0})
        (λ s s' code. (s' ≡ record s { table = record s.table { closed = true } })
        × (code ≡ Code.Done)) }
{
    lend!(body in ledger);
    body.close();
    Code::Done.number()
}

/// Closes a file object for good: CSQ_OK, also if it is closed already, otherwise CSQ_EMPTY_HANDLE
/// or CSQ_UNKNOWN_FILE. The first step of `IRP_MJ_CLEANUP`.
#[unsafe(no_mangle)]
pub extern "C" fn csq_ledger_close_file(ledger: &mut CsqLedger, file: u32) -> u32
    ensures { OnLedger ledger.old ledger.new result (Unit {0})
        (λ s s' code. (answer : Result (Unit {0}) UnknownFile)
        × ClosesFile (file_numbered file) answer s s' × (code ≡ close_file_code answer)) }
{
    lend!(body in ledger);
    of_close_file(body.close_file(FileId(file))).number()
}
