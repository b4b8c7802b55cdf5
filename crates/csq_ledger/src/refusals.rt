//! Why a call of a ledger is refused.
ghost use Rattle.std.specs.Prelude.{◌≡◌, true};
ghost use Rattle.csq_ledger.specs.Refusals.{by_put_back, by_queue, by_table, is_crowded, may_refuse};

use csq_checked::PutBackRefused as NotPutBack;
use csq_list::InsertStatus;

/// Why no request begins, in the order in which the causes are tested. Own rule.
#[derive(Clone, Copy, Debug, PartialEq, Eq)]
pub enum BeginRefused {
    /// There is no such file object.
    UnknownFile,
    /// The ledger was closed.
    Closed,
    /// The file object was closed.
    FileClosed,
    /// Each number is past its last life.
    AllSpent,
    /// Each number that isn't past its last life is under way.
    AllUnderWay,
    /// As many requests are listed for the file object as its limit allows.
    FileFull,
    /// As many requests are listed as the limit allows.
    Full,
}

/// Why no request is taken out of the list, in the order in which the causes are tested. Own rule.
#[derive(Clone, Copy, Debug, PartialEq, Eq)]
pub enum TakeRefused {
    /// There is no such file object.
    UnknownFile,
    /// No request that matches is listed.
    NoneListed,
}

/// Why a request isn't listed again, in the order in which the causes are tested. Own rule.
#[derive(Clone, Copy, Debug, PartialEq, Eq)]
pub enum PutBackRefused {
    /// There is no such IRP.
    UnknownIrp,
    /// The request isn't taken.
    NotTaken,
    /// A put-back of it was refused as `Cancelled` before.
    NotRemoved,
    /// Its file object was closed.
    FileClosed,
    /// As many requests are listed for its file object as its limit allows.
    FileFull,
    /// As many requests are listed as the limit allows.
    Full,
    /// It was named: it stays taken, and is finished with STATUS_CANCELLED alone.
    Cancelled,
}

/// Why a request isn't cancelled, in the order in which the causes are tested. Own rule.
#[derive(Clone, Copy, Debug, PartialEq, Eq)]
pub enum CancelRefused {
    /// There is no such IRP.
    UnknownIrp,
    /// The request isn't under way.
    Stale,
}

/// Why the end of a request isn't completed, in the order in which the causes are tested. Own rule.
#[derive(Clone, Copy, Debug, PartialEq, Eq)]
pub enum EndRefused {
    /// There is no such IRP.
    UnknownIrp,
    /// The request isn't ending.
    NotEnding,
}

/// Why no request begins, by the table.
pub(crate) fn by_table(cause: request_table::BeginRefused) -> BeginRefused
    ensures { result ≡ by_table cause }
{
    match cause {
        request_table::BeginRefused::UnknownFile => BeginRefused::UnknownFile,
        request_table::BeginRefused::Closed => BeginRefused::Closed,
        request_table::BeginRefused::FileClosed => BeginRefused::FileClosed,
        request_table::BeginRefused::AllSpent => BeginRefused::AllSpent,
        request_table::BeginRefused::AllUnderWay => BeginRefused::AllUnderWay,
    }
}

/// Why no request begins, by the queue, which refuses it for its list alone.
pub(crate) fn by_queue(cause: InsertStatus) -> BeginRefused
    requires { is_crowded cause ≡ true }
    ensures { result ≡ by_queue cause }
{
    match cause {
        InsertStatus::FileFull => BeginRefused::FileFull,
        InsertStatus::Full => BeginRefused::Full,
        // The caller has seen that it is one of these.
        InsertStatus::UnknownIrp
        | InsertStatus::UnknownFile
        | InsertStatus::NotHome
        | InsertStatus::FileClosed => unreachable!(),
    }
}

/// Why a request that is taken isn't listed again, by the queue.
pub(crate) fn by_put_back(cause: NotPutBack) -> PutBackRefused
    requires { may_refuse cause ≡ true }
    ensures { result ≡ by_put_back cause }
{
    match cause {
        NotPutBack::NotRemoved => PutBackRefused::NotRemoved,
        NotPutBack::ByQueue(InsertStatus::FileClosed) => PutBackRefused::FileClosed,
        NotPutBack::ByQueue(InsertStatus::FileFull) => PutBackRefused::FileFull,
        NotPutBack::ByQueue(InsertStatus::Full) => PutBackRefused::Full,
        // The pass holds what is taken, and the queue knows it.
        NotPutBack::UnknownIrp | NotPutBack::NotHeld | NotPutBack::ByQueue(_) => unreachable!(),
    }
}
