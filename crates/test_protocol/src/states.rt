//! What the tests' fixture knows of an IRP and of a pass, for its invariant to speak of.

use irp_core::Life;

/// How far the calls under the lock are with the IRP. In each but the last it is in its present
/// life.
#[derive(Clone, Copy)]
pub enum Stage {
    /// It may be inserted.
    Home,
    /// Pass 1 inserts it: its routine is set.
    Armed,
    /// It found the flag set then.
    FlagSeen,
    /// It is listed.
    Listed,
    /// It was removed.
    Removed,
    /// Pass 3 puts it back: its routine is set again.
    Rearmed,
    /// The put-back found the flag set then.
    FlagSeenAgain,
    /// An exchange found its routine taken, or an insert or a put-back took it back.
    Taken,
    /// Pass 1 reuses it, and looked at its status.
    Looked,
    /// It renewed the status.
    StatusRenewed,
    /// It is inserted no more.
    Ended,
}

/// What a pass does, or has to do, with the IRP in a life.
#[derive(Clone, Copy)]
pub enum Doing {
    /// Nothing.
    Nothing,
    /// It flagged the IRP, and has to take the routine.
    Cancelling(Life),
    /// It took the routine.
    Owing(Life),
    /// It holds the IRP, which its insert or its put-back took back.
    Holding(Life),
    /// It holds the IRP, which it removed.
    HoldingRemoved(Life),
}

/// Where a pass's seat is.
#[derive(Clone, Copy)]
pub enum Hand {
    /// Away, since the pass is under the lock.
    Away,
    /// Here, and the pass does this.
    Here(Doing),
}
