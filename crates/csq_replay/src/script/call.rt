//! The calls of a script, and what they return.
use csq_list::{InsertStatus, Peek, Place};
use irp_core::{FileId, IrpId, IrpLife, Life, NtStatus};
use std::fmt;

/// A call of the script's one pass. If it names no life, it is of the IRP's present one.
#[derive(Clone, Copy)]
pub enum ScriptCall {
    /// `IoCsqInsertIrpEx` of the IRP for the file object, at the place.
    Insert(IrpId, FileId, Place),
    /// `IoCsqRemoveNextIrp` with the peek context.
    Next(Peek),
    /// `IoCsqRemoveIrp` with the context that the insert of the IRP in this life gave.
    Remove(IrpLife),
    /// `IoCancelIrp` of this life without the routine: sets the Cancel flag and takes the cancel routine.
    Mark(IrpLife),
    /// The cancel routine of an IRP that is owed, and its completion.
    Routine(IrpId),
    /// `IoCancelIrp` of this life.
    Cancel(IrpLife),
    /// The completion of an IRP that is held, with this status.
    Complete(IrpId, NtStatus),
    /// Refuses inserts and put-backs for the file object from now on.
    Close(FileId),
    /// `IRP_MJ_CLEANUP`: closes the file object, and completes what is queued for it as cancelled.
    Cleanup(FileId),
    /// Reads the Cancel flag.
    Flag(IrpId),
    /// Reads the status.
    Status(IrpId),
    /// `IoReuseIrp`: begins the next life.
    Reuse(IrpId),
    /// `IoCsqInsertIrpEx` once more, of an IRP that a removal got and the pass holds: at the place, for
    /// the file object that it was inserted for.
    PutBack(IrpId, Place),
}

/// Why a call is refused, what an insert or a put-back of the list is refused for aside. Own rule.
#[derive(Clone, Copy)]
pub enum CallRefused {
    /// There is no IRP of this number.
    UnknownIrp,
    /// There is no file object of this number.
    UnknownFile,
    /// The pass doesn't owe the IRP.
    NoClaim,
    /// The pass doesn't hold the IRP.
    NotHeld,
    /// An IRP isn't completed with `STATUS_PENDING`.
    StatusPending,
    /// The life that is named isn't the present one, which is this.
    Stale(Life),
    /// The present life isn't completed.
    NotCompleted,
    /// The present life is the last that there can be.
    LivesSpent,
}

/// What an insert or a put-back returns that isn't refused.
#[derive(Clone, Copy)]
pub(crate) enum InsertOutcome {
    /// The IRP is listed.
    Pending,
    /// The IRP was found cancelled, and is completed.
    Cancelled,
}

/// What is reported for a call.
#[derive(Clone, Copy)]
pub enum Reply {
    /// The IRP is listed.
    Pending,
    /// The insert or the put-back found the IRP cancelled, and completed it.
    Cancelled,
    /// The insert or the put-back is refused.
    InsertRefused(InsertStatus),
    /// The removal took this IRP, and the pass holds it.
    Removed(IrpId),
    /// The removal took none.
    NoIrp,
    /// The mark took the routine, and the pass owes the IRP.
    Claimed,
    /// The mark found no routine.
    Unclaimed,
    /// The IRP is completed with this status.
    Completed(NtStatus),
    /// Whether the cancel found the routine, and completed the IRP.
    CancelAnswered(bool),
    /// The file object is closed.
    Closed,
    /// So many IRPs of the file object were completed.
    Cleaned(u32),
    /// Whether the Cancel flag is set.
    Flag(bool),
    /// The IRP isn't completed.
    Unset,
    /// The status with which the IRP was completed.
    Status(NtStatus),
    /// This life has begun.
    Begun(Life),
    /// The call is refused.
    Refused(CallRefused),
}

/// Its name, with the present life where it is `Stale`.
impl fmt::Display for CallRefused {
    ghost use Rattle.std.specs.Prelude.{Some};
    ghost use Rattle.csq_replay.specs.ReplyText.{refusal_name};

    ghost output = { λ refusal. Some (refusal_name refusal) };

    fn fmt<W: fmt::Write>(&self, f: &mut fmt::Formatter<W>) -> fmt::Result {
        match self {
            CallRefused::UnknownIrp => write!(f, "UnknownIrp"),
            CallRefused::UnknownFile => write!(f, "UnknownFile"),
            CallRefused::NoClaim => write!(f, "NoClaim"),
            CallRefused::NotHeld => write!(f, "NotHeld"),
            CallRefused::StatusPending => write!(f, "StatusPending"),
            CallRefused::Stale(life) => write!(f, "Stale {life}"),
            CallRefused::NotCompleted => write!(f, "NotCompleted"),
            CallRefused::LivesSpent => write!(f, "LivesSpent"),
        }
    }
}

/// The words of the answer, as `irp 1` or `refused Full C000009A`.
impl fmt::Display for Reply {
    ghost use Rattle.std.specs.Prelude.{Some};
    ghost use Rattle.csq_replay.specs.ReplyText.{reply_text};

    ghost output = { λ reply. Some (reply_text reply) };

    fn fmt<W: fmt::Write>(&self, f: &mut fmt::Formatter<W>) -> fmt::Result {
        match self {
            Reply::Pending => write!(f, "pending"),
            Reply::Cancelled => write!(f, "cancelled"),
            Reply::InsertRefused(cause) => match cause.nt() {
                Some(status) => write!(f, "refused {cause} {status}"),
                None => write!(f, "refused {cause}"),
            },
            Reply::Removed(irp) => write!(f, "irp {irp}"),
            Reply::NoIrp => write!(f, "none"),
            Reply::Claimed => write!(f, "claimed"),
            Reply::Unclaimed => write!(f, "unclaimed"),
            Reply::Completed(status) => write!(f, "completed {status}"),
            Reply::CancelAnswered(true) => write!(f, "true"),
            Reply::CancelAnswered(false) => write!(f, "false"),
            Reply::Closed => write!(f, "closed"),
            Reply::Cleaned(count) => write!(f, "cleaned {count}"),
            Reply::Flag(true) => write!(f, "1"),
            Reply::Flag(false) => write!(f, "0"),
            Reply::Unset => write!(f, "unset"),
            Reply::Status(status) => write!(f, "{status}"),
            Reply::Begun(life) => write!(f, "life {life}"),
            Reply::Refused(refusal) => write!(f, "refused {refusal}"),
        }
    }
}
