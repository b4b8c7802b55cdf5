//! What a queue without a lock shows without a pass, and the calls that it makes, over both lists.
ghost use Rattle.csq_queue.specs.Opens.{IsPassOn, IsQueueOn};

use super::queues::{
    FIRST, ONE, Rows, SECOND, THREE, TWO, UNKNOWN, ZERO, blank, chains, first, second, vector,
};
use csq_list::{ChainList, Peek, PendingList, Place, UnknownFile, VecList};
use csq_queue::{Blank, InsertAnswer, NewCause, NotListed, OpenPass, OpenQueue};
use csq_words::Words;
use irp_core::{FileId, FinalStatus, IrpId, IrpLife, NtStatus};
use std::alloc::Allocator;
use std::process::Abort;

/// A queue, its words and its first pass.
#[derive(Drop)]
struct Open<L: PendingList + Drop, A: Allocator> {
    queue: OpenQueue<L, A>,
    words: Words<A>,
    pass: OpenPass,
    ghost queue_fits: { IsQueueOn words queue },
    ghost pass_fits: { IsPassOn words pass },
}

impl<L: PendingList + Drop, A: Allocator> Open<L, A> {
    /// Whether an IRP is inserted last, and pending then, which is returned as STATUS_PENDING.
    fn insert(&mut self, irp: IrpId, file: u32) -> bool {
        match self.queue.insert(&self.words, &mut self.pass, irp, FileId(file), Place::Back) {
            Err(_) => false,
            Ok(inserted) => {
                let nt = inserted.nt();
                match inserted {
                    InsertAnswer::Pending(_) => nt == NtStatus::PENDING,
                    InsertAnswer::Cancelled(_) => false,
                }
            }
        }
    }

    /// Removes the first listed IRP and completes it, and returns which.
    fn serve(&mut self) -> Option<IrpLife> {
        let irp = self
            .queue
            .remove_next(&self.words, &mut self.pass, Peek::Any)?;
        self.pass.complete(&self.words, irp, FinalStatus::success());
        Some(irp)
    }

    /// Removes the first listed IRP and puts it back at the front, and returns which.
    fn return_first(&mut self) -> Option<IrpLife> {
        let irp = self
            .queue
            .remove_next(&self.words, &mut self.pass, Peek::Any)?;
        match self
            .queue
            .put_back(&self.words, &mut self.pass, irp, Place::Front)
        {
            Ok(InsertAnswer::Pending(again)) => Some(again),
            Ok(InsertAnswer::Cancelled(_)) => None,
            Err(_) => None,
        }
    }

    /// Removes this one and completes it.
    fn serve_named(&mut self, irp: IrpLife) -> Option<IrpLife> {
        let irp = self.queue.remove(&self.words, &mut self.pass, irp)?;
        self.pass.complete(&self.words, irp, FinalStatus::success());
        Some(irp)
    }

    /// Cancels an IRP: takes its cancel routine, takes it out and completes it. Returns how many are listed in between.
    fn cancel(&mut self, irp: IrpLife) -> Option<u32> {
        let Ok(Some(irp)) = self.pass.mark_cancel(&self.words, irp.irp, irp.life) else {
            return None;
        };
        let len = self.queue.len();
        self.queue.cancel_routine(&self.words, &mut self.pass, irp);
        self.pass.complete_cancelled(&self.words, irp);
        Some(len)
    }

    /// Begins the next life of an IRP.
    fn reuse(&mut self, irp: IrpId) -> bool {
        self.queue.reuse(&self.words, &mut self.pass, irp) == Ok(SECOND)
    }

    /// Closes a file object.
    fn close_file(&mut self, file: u32) -> Result<(), UnknownFile> {
        self.queue
            .close_file(&self.words, &mut self.pass, FileId(file))
    }
}

/// An empty list.
fn look_at_none<L: PendingList + Drop, A: Allocator>(queue: &OpenQueue<L, A>, rows: &mut Rows) {
    rows.note(queue.len() == 0);
    rows.note(queue.file_len(FileId(1)) == Some(0));
    rows.note(queue.file_len(FileId(2)).is_none());
    rows.note(queue.peek_next(None, Peek::Any) == Ok(None));
    rows.note(queue.peek_next(Some(ZERO), Peek::Any) == Err(NotListed));
}

/// Of the first file object 0 and 2 are listed, of the other 1.
fn look_at_three<L: PendingList + Drop, A: Allocator>(queue: &OpenQueue<L, A>, rows: &mut Rows) {
    rows.note(queue.len() == 3);
    rows.note(queue.file_len(FileId(0)) == Some(2));
    rows.note(queue.peek_next(None, Peek::Any) == Ok(Some(first(ZERO))));
    rows.note(queue.peek_next(Some(ZERO), Peek::Any) == Ok(Some(first(ONE))));
    rows.note(queue.peek_next(Some(ZERO), Peek::File(FileId(0))) == Ok(Some(first(TWO))));
    rows.note(queue.peek_next(Some(TWO), Peek::Any) == Ok(None));
    rows.note(queue.peek_next(Some(THREE), Peek::Any) == Err(NotListed));
}

/// The first IRP is in its next life, and is listed alone.
fn look_at_one<L: PendingList + Drop, A: Allocator>(queue: &OpenQueue<L, A>, rows: &mut Rows) {
    rows.note(queue.len() == 1);
    rows.note(queue.peek_next(None, Peek::Any) == Ok(Some(second(ZERO))));
    rows.note(queue.life(ZERO) == Some(SECOND));
    rows.note(queue.life(ONE) == Some(FIRST));
    rows.note(queue.life(UNKNOWN).is_none());
}

/// Looks at a new queue, at one in which three IRPs are listed, and after these were cancelled and removed.
fn look_through<L: PendingList + Drop, A: Allocator>(open: &mut Open<L, A>, rows: &mut Rows) {
    look_at_none(&open.queue, rows);
    rows.note(open.insert(ZERO, 0));
    rows.note(open.insert(ONE, 1));
    rows.note(open.insert(TWO, 0));
    look_at_three(&open.queue, rows);
    rows.note(open.cancel(first(ONE)) == Some(3));
    rows.note(open.serve_named(first(TWO)) == Some(first(TWO)));
    rows.note(open.return_first() == Some(first(ZERO)));
    rows.note(open.serve() == Some(first(ZERO)));
    rows.note(open.reuse(ZERO));
    rows.note(open.insert(ZERO, 1));
    look_at_one(&open.queue, rows);
    rows.note(open.close_file(0) == Ok(()));
}

/// A queue without a lock, and its first pass.
fn begin<L: PendingList + Drop, A: Allocator, R: Abort>(rt: &R, blank: Blank<L, A>) -> Open<L, A> {
    let (queue, words, mut rack) = blank.into_open();
    match rack.take() {
        Some(pass) => Open { queue, words, pass },
        None => panic!(rt; "no pass"),
    }
}

/// Looks at a queue over this list.
fn look_over<L: PendingList + Drop, A: Allocator + Copy, R: Abort>(rt: &R, alloc: A, list: L) {
    let mut rows = Rows::new();
    look_through(&mut begin(rt, blank(rt, alloc, list, 1)), &mut rows);
    rows.judge(rt);
}

#[test]
fn a_queue_without_a_lock_shows_what_is_listed(rt: HostRuntime) {
    look_over(&rt, rt.alloc(), vector(&rt, rt.alloc()));
    look_over(&rt, rt.alloc(), chains(&rt, rt.alloc()));
}

/// The last IRP of the largest queue.
const LAST: IrpId = IrpId(65_534);

/// Serves and cancels the last IRP, for the last file object.
fn serve_last<L: PendingList + Drop, A: Allocator>(open: &mut Open<L, A>, rows: &mut Rows) {
    rows.note(!open.insert(IrpId(65_535), 0));
    rows.note(!open.insert(LAST, 16_384));
    rows.note(open.insert(LAST, 16_383));
    rows.note(open.queue.file_len(FileId(16_383)) == Some(1));
    rows.note(open.cancel(first(LAST)) == Some(1));
    rows.note(open.reuse(LAST));
    rows.note(open.insert(LAST, 0));
    rows.note(open.return_first() == Some(second(LAST)));
    rows.note(open.serve() == Some(second(LAST)));
}

/// Serves the last IRP of the largest queue over this list.
fn serve_large<L: PendingList + Drop, A: Allocator + Copy, R: Abort>(rt: &R, alloc: A, list: L) {
    let mut rows = Rows::new();
    match Blank::large(alloc, list, 65_535, 1_024, FIRST) {
        Ok(blank) => serve_last(&mut begin(rt, blank), &mut rows),
        Err(_) => panic!(rt; "no queue"),
    }
    rows.judge(rt);
}

#[test]
fn the_largest_queue_serves_its_last_irp(rt: HostRuntime) {
    let (Ok(vector), Ok(chains)) = (
        VecList::large(rt.alloc(), 65_535, 16_384, 65_535),
        ChainList::large_with_file_limits(rt.alloc(), 65_535, 16_384, 65_535, &[1; 16_384]),
    ) else {
        panic!(rt; "no lists")
    };
    serve_large(&rt, rt.alloc(), vector);
    serve_large(&rt, rt.alloc(), chains);
}

/// Why there is no large queue of this size, over a list of 4 IRPs.
fn large_refusal<R: Abort + AllocGlobal>(rt: &R, irps: u32, passes: u32) -> Option<NewCause> {
    let refused = Blank::large(rt.alloc(), vector(rt, rt.alloc()), irps, passes, FIRST).err()?;
    Some(refused.cause)
}

#[test]
fn a_larger_queue_is_refused(rt: HostRuntime) {
    for (irps, passes, cause) in [
        (4, 1_024, None),
        (65_536, 1, Some(NewCause::BadSize)),
        (4, 1_025, Some(NewCause::BadSize)),
        (65_535, 1, Some(NewCause::ListNotFresh)),
    ] {
        assert!(rt; large_refusal(&rt, irps, passes) == cause);
    }
}
