//! What a turn does, and which IRPs each of its threads inserts.
use csq_list::Peek;
use irp_core::{FileId, IrpId};

/// How many IRPs there are.
const IRPS: u32 = 1024;

/// How many there are beside those that stay listed, where IRPs are used again.
const REUSED_IRPS: u32 = 64;

/// How many inserts a turn makes then.
const REUSES: u32 = 262_144;

/// How many threads there may be.
pub(crate) const MOST_THREADS: u32 = 8;

/// How an inserted IRP ends.
#[derive(Clone, Copy)]
pub(crate) enum End {
    // Whichever IRP is the first is removed and completed.
    Next,
    // It is removed itself and completed.
    One,
    // It is cancelled.
    Cancel,
}

/// What a turn does: its inserts are shared by so many threads, each with a file object of its own or all with
/// one, while so many other IRPs are listed.
#[derive(Drop)]
pub(crate) struct Work {
    pub(crate) end: End,
    // Whether an IRP is used again, once it was completed.
    pub(crate) again: bool,
    pub(crate) threads: u32,
    pub(crate) listed: u32,
    pub(crate) owned: bool,
}

impl Work {
    /// How many IRPs the threads share, to insert them.
    fn inserted(&self) -> u32 {
        if self.again {
            REUSED_IRPS
        } else {
            IRPS.saturating_sub(self.listed)
        }
    }

    /// Whether there are enough IRPs for all threads, and so many threads can be started.
    pub(crate) fn is_possible(&self) -> bool {
        matches!(self.threads, 1 | 2 | 4 | 8) && self.listed <= IRPS - REUSED_IRPS
    }

    /// How many IRPs a queue has.
    pub(crate) fn irps(&self) -> u32 {
        self.listed.saturating_add(self.inserted())
    }

    /// How many inserts a turn makes.
    pub(crate) fn inserts(&self) -> u32 {
        if self.again { REUSES } else { self.inserted() }
    }

    /// How many of them each thread makes.
    pub(crate) fn share(&self) -> u32 {
        self.inserts().checked_div(self.threads).unwrap_or(0)
    }

    /// The IRPs that are a thread's own.
    pub(crate) fn own(&self, thread: u32) -> Own {
        let own = self.inserted().checked_div(self.threads).unwrap_or(0);
        let first = self.listed.wrapping_add(thread.wrapping_mul(own));
        Own {
            first,
            end: first.wrapping_add(own),
        }
    }

    /// The IRP that a thread inserts after this one, once one was completed: if any may be removed, the one
    /// that was, so that each thread has one to insert; else the next of its own.
    pub(crate) fn next(&self, own: Own, irp: IrpId, completed: IrpId) -> IrpId {
        match (self.again, self.end) {
            (true, End::Next) => completed,
            _ => own.after(irp),
        }
    }

    /// The file object of the thread of this number.
    pub(crate) fn file(&self, thread: u32) -> FileId {
        FileId(if self.owned { thread } else { 0 })
    }

    /// The peek context of the thread of this number.
    pub(crate) fn peek(&self, thread: u32) -> Peek {
        if self.owned {
            Peek::File(FileId(thread))
        } else {
            Peek::Any
        }
    }
}

/// The IRPs that a thread inserts: the first, and the one behind the last.
#[derive(Clone, Copy)]
pub(crate) struct Own {
    pub(crate) first: u32,
    end: u32,
}

impl Own {
    /// The one that comes after this one.
    fn after(self, irp: IrpId) -> IrpId {
        let next = irp.0.wrapping_add(1);
        IrpId(if next < self.end { next } else { self.first })
    }
}
