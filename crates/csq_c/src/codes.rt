//! The codes that calls return.
ghost use Rattle.std.specs.Prelude.{◌≡◌};
ghost use Rattle.csq_c.specs.Codes.{number_of, refusal_code, insert_code, inserted_irp, put_back_code, put_back_irp, removal_code, routine_code, close_file_code, reuse_code, life_stored, mark_code, claim_stored, complete_code, flag_code, flag_life_stored, flag_stored, status_code, status_life_stored, status_stored, new_code, pass_code};

use csq_checked::{
    CheckedReuseRefused, CompleteRefused, PassRefused, PutBackRefused, RoutineRefused,
};
use csq_list::{InsertStatus, UnknownFile};
use csq_queue::{CancelRefused, InsertAnswer, OpenInserted, UnknownIrp};
use irp_core::{IrpLife, Life, NtStatus, SizeRefused};

/// What a call returns. Each has its number and its name in `csq.h`. Own rule.
#[derive(Clone, Copy)]
pub(crate) enum Code {
    Done = 0,
    UnknownIrp = 1,
    UnknownFile = 2,
    NotHome = 3,
    FileClosed = 4,
    Full = 5,
    FileFull = 6,
    Cancelled = 7,
    Nothing = 8,
    Stale = 9,
    NotCompleted = 10,
    LivesSpent = 11,
    NotHeld = 12,
    NotOwed = 13,
    NotRemoved = 14,
    NotFinal = 15,
    Holding = 16,
    PassesOut = 17,
    NoPass = 18,
    BadSize = 19,
    NoMemory = 20,
    EmptyHandle = 21,
    NotEmpty = 22,
    NotListed = 23,
    Closed = 24,
    NotClosed = 25,
    OtherQueue = 26,
    UnknownPass = 27,
    LockHeld = 28,
    NotNext = 29,
}

impl Code {
    /// Its number.
    pub(crate) fn number(self) -> u32
        ensures { result ≡ number_of self }
    {
        self as u32
    }
}

/// Why no IRP was inserted.
fn refusal(cause: InsertStatus) -> Code
    ensures { result ≡ refusal_code cause }
{
    match cause {
        InsertStatus::UnknownIrp => Code::UnknownIrp,
        InsertStatus::UnknownFile => Code::UnknownFile,
        InsertStatus::NotHome => Code::NotHome,
        InsertStatus::FileClosed => Code::FileClosed,
        InsertStatus::FileFull => Code::FileFull,
        InsertStatus::Full => Code::Full,
    }
}

/// What an insert returned, and the IRP that it stored.
pub(crate) fn of_insert(answer: Result<OpenInserted, InsertStatus>) -> (Code, Option<IrpLife>)
    ensures { result ≡ (insert_code answer, inserted_irp answer) }
{
    match answer {
        Ok(InsertAnswer::Pending(context)) => (Code::Done, Some(context)),
        Ok(InsertAnswer::Cancelled(token)) => (Code::Cancelled, Some(token)),
        Err(cause) => (refusal(cause), None),
    }
}

/// What a put-back returned, and the IRP that it stored.
pub(crate) fn of_put_back(answer: Result<OpenInserted, PutBackRefused>) -> (Code, Option<IrpLife>)
    ensures { result ≡ (put_back_code answer, put_back_irp answer) }
{
    match answer {
        Ok(back) => of_insert(Ok(back)),
        Err(PutBackRefused::UnknownIrp) => (Code::UnknownIrp, None),
        Err(PutBackRefused::NotHeld) => (Code::NotHeld, None),
        Err(PutBackRefused::NotRemoved) => (Code::NotRemoved, None),
        Err(PutBackRefused::ByQueue(cause)) => (refusal(cause), None),
    }
}

/// Whether a removal got an IRP.
pub(crate) fn of_removal(taken: Option<IrpLife>) -> Code
    ensures { result ≡ removal_code taken }
{
    match taken {
        Some(_) => Code::Done,
        None => Code::Nothing,
    }
}

/// What a cancel routine returned.
pub(crate) fn of_routine(answer: Result<(), RoutineRefused>) -> Code
    ensures { result ≡ routine_code answer }
{
    match answer {
        Ok(()) => Code::Done,
        Err(RoutineRefused::UnknownIrp) => Code::UnknownIrp,
        Err(RoutineRefused::NotOwed) => Code::NotOwed,
    }
}

/// What the closing of a file object returned.
pub(crate) fn of_close_file(answer: Result<(), UnknownFile>) -> Code
    ensures { result ≡ close_file_code answer }
{
    match answer {
        Ok(()) => Code::Done,
        Err(UnknownFile) => Code::UnknownFile,
    }
}

/// What a reuse returned, and the life that it stored.
pub(crate) fn of_reuse(answer: Result<Life, CheckedReuseRefused>) -> (Code, Option<u32>)
    ensures { result ≡ (reuse_code answer, life_stored answer) }
{
    match answer {
        Ok(life) => (Code::Done, Some(life.0)),
        Err(CheckedReuseRefused::UnknownIrp) => (Code::UnknownIrp, None),
        Err(CheckedReuseRefused::Stale) => (Code::Stale, None),
        Err(CheckedReuseRefused::NotCompleted) => (Code::NotCompleted, None),
        Err(CheckedReuseRefused::LivesSpent) => (Code::LivesSpent, None),
    }
}

/// What a cancel returned, and whether the routine was there.
pub(crate) fn of_mark(answer: Result<Option<IrpLife>, CancelRefused>) -> (Code, Option<u32>)
    ensures { result ≡ (mark_code answer, claim_stored answer) }
{
    match answer {
        Ok(Some(_)) => (Code::Done, Some(1)),
        Ok(None) => (Code::Done, Some(0)),
        Err(CancelRefused::UnknownIrp) => (Code::UnknownIrp, None),
        Err(CancelRefused::Stale(_)) => (Code::Stale, None),
    }
}

/// What a completion returned.
pub(crate) fn of_complete(answer: Result<(), CompleteRefused>) -> Code
    ensures { result ≡ complete_code answer }
{
    match answer {
        Ok(()) => Code::Done,
        Err(CompleteRefused::UnknownIrp) => Code::UnknownIrp,
        Err(CompleteRefused::NotHeld) => Code::NotHeld,
        Err(CompleteRefused::NotRemoved) => Code::NotRemoved,
        Err(CompleteRefused::NotFinal) => Code::NotFinal,
    }
}

/// What a look at the Cancel flag returned: a code, the life and whether the flag is set.
pub(crate) fn of_flag(answer: Result<(Life, bool), UnknownIrp>) -> (Code, Option<u32>, Option<u32>)
    ensures { result ≡ (flag_code answer, flag_life_stored answer, flag_stored answer) }
{
    match answer {
        Ok((life, true)) => (Code::Done, Some(life.0), Some(1)),
        Ok((life, false)) => (Code::Done, Some(life.0), Some(0)),
        Err(UnknownIrp) => (Code::UnknownIrp, None, None),
    }
}

/// What a look at the status returned: a code, the life and the status.
pub(crate) fn of_status(
    answer: Result<(Life, Option<NtStatus>), UnknownIrp>,
) -> (Code, Option<u32>, Option<u32>)
    ensures { result ≡ (status_code answer, status_life_stored answer, status_stored answer) }
{
    match answer {
        Ok((life, Some(status))) => (Code::Done, Some(life.0), Some(status.0)),
        Ok((life, None)) => (Code::Nothing, Some(life.0), None),
        Err(UnknownIrp) => (Code::UnknownIrp, None, None),
    }
}

/// Why there is no queue.
pub(crate) fn of_new(refused: SizeRefused) -> Code
    ensures { result ≡ new_code refused }
{
    match refused {
        SizeRefused::BadSize => Code::BadSize,
        SizeRefused::Memory => Code::NoMemory,
    }
}

/// Why there is no pass.
pub(crate) fn of_pass(refused: PassRefused) -> Code
    ensures { result ≡ pass_code refused }
{
    match refused {
        PassRefused::NoPass => Code::NoPass,
        PassRefused::Memory => Code::NoMemory,
    }
}
