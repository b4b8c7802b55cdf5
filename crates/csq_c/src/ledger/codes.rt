//! The codes that the calls of a ledger return, and what they store.
ghost use Rattle.std.specs.Prelude.{◌≡◌};
ghost use Rattle.std.specs.Result.{result_ok};
ghost use Rattle.csq_c.specs.LedgerCodes.{begin_code, cancel_code, end_code, expire_code, expired_name, expired_stage, finish_code, put_back_code, take_code, taken_file, taken_name};

use crate::codes::{Code, of_complete};
use crate::ledger::shapes::stage_number;
use csq_checked::CompleteRefused;
use csq_ledger::{
    BeginRefused, CancelRefused, EndRefused, Expired, PutBackRefused, Request, TakeRefused,
};
use irp_core::IrpLife;
use request_table::Ended;

/// What a begin returned, and the name that it stored.
pub(crate) fn of_begin(answer: Result<IrpLife, BeginRefused>) -> (Code, Option<IrpLife>)
    ensures { result ≡ (begin_code answer, result_ok answer) }
{
    match answer {
        Ok(name) => (Code::Done, Some(name)),
        Err(BeginRefused::UnknownFile) => (Code::UnknownFile, None),
        Err(BeginRefused::Closed) => (Code::Closed, None),
        Err(BeginRefused::FileClosed) => (Code::FileClosed, None),
        Err(BeginRefused::AllSpent) => (Code::LivesSpent, None),
        Err(BeginRefused::AllUnderWay) => (Code::Full, None),
        Err(BeginRefused::FileFull) => (Code::FileFull, None),
        Err(BeginRefused::Full) => (Code::Full, None),
    }
}

/// What a removal of the first match returned, and the name and the file object that it stored.
pub(crate) fn of_take(answer: Result<Request, TakeRefused>) -> (Code, Option<IrpLife>, Option<u32>)
    ensures { result ≡ (take_code answer, taken_name answer, taken_file answer) }
{
    match answer {
        Ok(request) => (Code::Done, Some(request.name), Some(request.file.0)),
        Err(TakeRefused::UnknownFile) => (Code::UnknownFile, None, None),
        Err(TakeRefused::NoneListed) => (Code::Nothing, None, None),
    }
}

/// What a put-back returned.
pub(crate) fn of_put_back(answer: Result<(), PutBackRefused>) -> Code
    ensures { result ≡ put_back_code answer }
{
    match answer {
        Ok(()) => Code::Done,
        Err(PutBackRefused::UnknownIrp) => Code::UnknownIrp,
        Err(PutBackRefused::NotTaken) => Code::NotHeld,
        Err(PutBackRefused::NotRemoved) => Code::NotRemoved,
        Err(PutBackRefused::FileClosed) => Code::FileClosed,
        Err(PutBackRefused::FileFull) => Code::FileFull,
        Err(PutBackRefused::Full) => Code::Full,
        Err(PutBackRefused::Cancelled) => Code::Cancelled,
    }
}

/// What a completion returned, and the end that it stored.
pub(crate) fn of_finish(answer: Result<Ended, CompleteRefused>) -> (Code, Option<Ended>)
    ensures { result ≡ (finish_code answer, result_ok answer) }
{
    match answer {
        Ok(ended) => (Code::Done, Some(ended)),
        Err(cause) => (of_complete(Err(cause)), None),
    }
}

/// What the second half of an end returned, and the end that it stored.
pub(crate) fn of_end(answer: Result<Ended, EndRefused>) -> (Code, Option<Ended>)
    ensures { result ≡ (end_code answer, result_ok answer) }
{
    match answer {
        Ok(ended) => (Code::Done, Some(ended)),
        Err(EndRefused::UnknownIrp) => (Code::UnknownIrp, None),
        Err(EndRefused::NotEnding) => (Code::NotHeld, None),
    }
}

/// What a cancel returned.
pub(crate) fn of_cancel(answer: Result<bool, CancelRefused>) -> Code
    ensures { result ≡ cancel_code answer }
{
    match answer {
        Ok(true) => Code::Done,
        Ok(false) => Code::Nothing,
        Err(CancelRefused::UnknownIrp) => Code::UnknownIrp,
        Err(CancelRefused::Stale) => Code::Stale,
    }
}

/// Whether a request was due, and the name and the number of the stage that it stored.
pub(crate) fn of_expire(answer: Option<Expired>) -> (Code, Option<IrpLife>, Option<u32>)
    ensures { result ≡ (expire_code answer, expired_name answer, expired_stage answer) }
{
    match answer {
        Some(expired) => {
            let stage = stage_number(expired.stage);
            (Code::Done, Some(expired.name), Some(stage))
        }
        None => (Code::Nothing, None, None),
    }
}
