//! Turns of a queue.
ghost use Rattle.std.specs.Prelude.{◌≡◌};

use crate::Totals;
use crate::shares::{End, MOST_THREADS, Work};
use csq_list::{Peek, PendingList, Place};
use csq_queue::{Blank, Csq, InsertContext, Inserted, Pass, PassRack, QueueName};
use irp_core::{FileId, FinalStatus, IrpId};
use std::marker::Brand;
use std::rt::Clock;
use std::sync::Wait;
use std::thread::{Threads, for_each_mut};
use std::time::Instant;

/// A thread's number and pass, and how many IRPs the thread completed in the turn.
#[derive(Drop)]
struct Seat<N: QueueName> {
    thread: u32,
    pass: Pass<N>,
    completed: u32,
}

/// What makes a turn's calls: a queue, and the work over it.
#[derive(Drop)]
struct Runner<'a, L: PendingList + Drop, N: QueueName, R: Wait> {
    rt: &'a R,
    queue: &'a Csq<L, N>,
    work: &'a Work,
}

impl<L: PendingList + Drop, N: QueueName, R: Wait> Runner<'_, L, N, R> {
    /// Inserts an IRP at the back. Returns its context, if it is pending.
    fn insert(&self, pass: &mut Pass<N>, irp: IrpId, file: FileId) -> Option<InsertContext<N>> {
        let inserted = self.queue.insert(self.rt, pass, irp, file, Place::Back);
        match inserted.ok()? {
            Inserted::Pending(context) => Some(context),
            Inserted::Cancelled(token) => {
                self.queue.complete_cancelled(pass, token);
                None
            }
        }
    }

    /// Ends an inserted IRP. Returns the one that was completed.
    fn finish(
        &self,
        pass: &mut Pass<N>,
        peek: Peek,
        irp: IrpId,
        context: InsertContext<N>,
    ) -> Option<IrpId> {
        let token = match self.work.end {
            End::Cancel => {
                let cancelled = self.queue.cancel(self.rt, pass, irp, context.life()) == Ok(true);
                return if cancelled { Some(irp) } else { None };
            }
            End::One => self.queue.remove(self.rt, pass, context)?,
            End::Next => self.queue.remove_next(self.rt, pass, peek)?,
        };
        let removed = token.irp();
        self.queue.complete(pass, token, FinalStatus::success());
        Some(removed)
    }

    /// Lists so many IRPs before a turn, for one file object after the other.
    fn fill(&self, pass: &mut Pass<N>) {
        for number in 0..self.work.listed {
            let thread = number.checked_rem(self.work.threads).unwrap_or(0);
            let _ = self.insert(pass, IrpId(number), self.work.file(thread));
        }
    }

    /// One thread's share of the turn. Returns how many IRPs it completed.
    fn share(&self, pass: &mut Pass<N>, thread: u32) -> u32 {
        let work = self.work;
        let (own, file, peek) = (work.own(thread), work.file(thread), work.peek(thread));
        let (mut completed, mut irp) = (0u32, IrpId(own.first));
        for _ in 0..work.share() {
            let Some(context) = self.insert(pass, irp, file) else {
                continue;
            };
            let Some(ended) = self.finish(pass, peek, irp, context) else {
                continue;
            };
            if work.again && self.queue.reuse(self.rt, pass, ended).is_err() {
                continue;
            }
            completed = completed.wrapping_add(1);
            irp = work.next(own, irp, ended);
        }
        completed
    }
}

/// The shares of all threads, each in a thread of its own; one of them is this one.
fn share_all<L, N, R>(rt: &R, queue: &Csq<L, N>, seats: &mut [Seat<N>], work: &Work)
where
    L: PendingList + Drop + Send,
    N: QueueName + Send + Sync,
    R: Threads + Wait + Sync,
{
    for_each_mut(
        rt,
        seats,
        MOST_THREADS as usize,
        &|_, seat| {
            let runner = Runner { rt, queue, work };
            seat.completed = runner.share(&mut seat.pass, seat.thread);
        },
    );
}

/// How many IRPs the threads completed.
fn completed<N: QueueName>(seats: &[Seat<N>]) -> u32 {
    let mut completed = 0u32;
    for seat in seats {
        completed = completed.wrapping_add(seat.completed);
    }
    completed
}

/// Fills the list, and times a turn's shares.
fn time<L, N, R>(rt: &R, queue: &Csq<L, N>, seats: &mut [Seat<N>], work: &Work) -> Option<Totals>
where
    L: PendingList + Drop + Send,
    N: QueueName + Send + Sync,
    R: Clock + Threads + Wait + Sync,
{
    Runner { rt, queue, work }.fill(&mut seats.first_mut()?.pass);
    let start = Instant::now(rt).ok()?;
    share_all(rt, queue, seats, work);
    let taken = start.elapsed(rt).ok()?.as_nanos();
    let completed = completed(seats);
    Some(Totals {
        completed,
        left: work.inserts().wrapping_sub(completed),
        nanoseconds: u64::try_from(taken).unwrap_or(u64::MAX),
    })
}

/// So many passes, or fewer if there are no more, or no memory.
fn take_seats<N: QueueName>(
    rt: &impl AllocGlobal,
    rack: &mut PassRack<N>,
    count: u32,
) -> Vec<Seat<N>> {
    let mut seats = Vec::new(rt.alloc());
    for thread in 0..count {
        if let Some(pass) = rack.take() {
            drop(seats.push(Seat {
                thread,
                pass,
                completed: 0,
            }));
        }
    }
    seats
}

/// One turn over a new queue.
fn turn<L, N, R>(rt: &R, blank: Blank<L>, work: &Work) -> Option<Totals>
where
    L: PendingList + Drop + Send,
    N: QueueName + Send + Sync,
    R: Clock + Threads + Wait + AllocGlobal + Sync,
    requires { blank ≡ record { table = N.table; limits = N.limits } }
{
    let (queue, mut rack) = blank.into_queue::<N>();
    let mut seats = take_seats(rt, &mut rack, work.threads);
    let totals = time(rt, &queue, &mut seats, work);
    // By a call, since the drops that the compiler adds at the end of a scope are dear to prove.
    drop((seats, rack, queue));
    totals
}

/// One turn over a new queue with this list.
pub(crate) fn turn_over<L, R>(rt: &R, list: Option<L>, work: &Work) -> Option<Totals>
where
    L: PendingList + Drop + Send,
    R: Clock + Threads + Wait + AllocGlobal + Sync,
{
    let Ok(blank) = Blank::new(rt.alloc(), list?, work.irps(), MOST_THREADS) else {
        return None;
    };
    turn::<_, Brand, _>(rt, blank, work)
}
