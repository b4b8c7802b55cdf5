//! Cancels and completions while another call has the lock.
ghost use Rattle.std.specs.Prelude.{◌≡◌};

use super::queues::{LIFE, blank, close, give_back, inserts, take, vector, watched};
use super::signals::Signals;
use csq_list::{Peek, PendingList};
use csq_queue::{Blank, CancelRefused, Csq, Pass, QueueName};
use irp_core::{FileId, FinalStatus, IrpId, Life, NtStatus};
use std::marker::Brand;
use std::process::Abort;
use std::sync::Wait;
use std::sync::atomic::{AtomicBool, Ordering};
use std::thread::{Threads, join, yield_now};
use test_watched_list::wait_for;

/// The one that was removed before the lock is held, and is only to be completed.
const REMOVED: IrpId = IrpId(0);

/// The one that was cancelled before, and is only to be completed.
const TAKEN: IrpId = IrpId(1);

/// The one that is cancelled while the lock is held.
const CANCELLED: IrpId = IrpId(2);

/// The one that is marked while the lock is held.
const MARKED: IrpId = IrpId(3);

/// The one that isn't inserted.
const HOME: IrpId = IrpId(4);

/// How often a thread yields at most before it gives up.
const PATIENCE: u32 = 1_000_000;

/// Whether all but one were inserted.
fn insert_all<L: PendingList + Drop, N: QueueName, R: Wait>(
    rt: &R,
    queue: &Csq<L, N>,
    pass: &mut Pass<N>,
) -> bool {
    let mut all = true;
    for irp in [REMOVED, TAKEN, CANCELLED, MARKED] {
        all &= inserts(rt, queue, pass, irp, FileId(0));
    }
    all
}

/// Makes cancels that find no routine, and reads a flag and a status. Returns whether each returned so.
fn cancel_in_vain<L: PendingList + Drop, N: QueueName, R: Wait>(
    rt: &R,
    queue: &Csq<L, N>,
    pass: &mut Pass<N>,
) -> bool {
    let home = queue.cancel(rt, pass, HOME, LIFE);
    let completed = queue.cancel(rt, pass, TAKEN, LIFE);
    let older = queue.cancel(rt, pass, MARKED, Life(0));
    let later = queue.cancel(rt, pass, MARKED, Life(2));
    let unknown = queue.cancel(rt, pass, IrpId(5), LIFE);
    let flag = queue.is_cancelled(pass, MARKED);
    let status = queue.status(pass, TAKEN);
    home == Ok(false)
        && completed == Ok(false)
        && older == Err(CancelRefused::Stale(LIFE))
        && later == Err(CancelRefused::Stale(LIFE))
        && unknown == Err(CancelRefused::UnknownIrp)
        && flag == Ok((LIFE, false))
        && status == Ok((LIFE, Some(NtStatus::CANCELLED)))
}

/// Yields until an IRP's Cancel flag is set, or gives up. If some wait gave up, this one doesn't go on.
fn wait_for_cancel<L: PendingList + Drop, N: QueueName>(
    queue: &Csq<L, N>,
    pass: &mut Pass<N>,
    gave_up: &AtomicBool,
) {
    for _ in 0..PATIENCE {
        let cancelled = queue.is_cancelled(pass, CANCELLED);
        if cancelled == Ok((LIFE, true)) || gave_up.load(Ordering::SeqCst) {
            return;
        }
        yield_now();
    }
    gave_up.store(true, Ordering::SeqCst);
}

/// What is made past a held lock, except the completions: the cancels in vain, and once another cancel has set its flag
/// a mark. Then it lets the call go on, and takes out what it has marked.
fn cancel_past<L: PendingList + Drop, N: QueueName, R: Wait>(
    rt: &R,
    queue: &Csq<L, N>,
    pass: &mut Pass<N>,
    signals: &Signals,
) -> bool {
    let in_vain = cancel_in_vain(rt, queue, pass);
    wait_for_cancel(queue, pass, &signals.gave_up);
    let marked = queue.mark_cancel(pass, MARKED, LIFE);
    signals.give(&signals.go_on);
    match marked {
        Ok(Some(claim)) => {
            let token = queue.cancel_routine(rt, pass, claim);
            queue.complete_cancelled(pass, token);
            in_vain
        }
        Ok(None) => false,
        Err(_) => false,
    }
}

/// Takes an IRP out as its canceller. Once a call is then inside the lock, completes it, and cancels.
fn take_out_and_cancel<L: PendingList + Drop, N: QueueName, R: Wait>(
    rt: &R,
    queue: &Csq<L, N>,
    pass: &mut Pass<N>,
    signals: &Signals,
) -> bool {
    match queue.mark_cancel(pass, TAKEN, LIFE) {
        Ok(Some(claim)) => {
            let token = queue.cancel_routine(rt, pass, claim);
            signals.give(&signals.held);
            signals.wait_for(&signals.inside);
            queue.complete_cancelled(pass, token);
            cancel_past(rt, queue, pass, signals)
        }
        Ok(None) => false,
        Err(_) => false,
    }
}

/// Removes an IRP. Once a call is then inside the lock, completes it, and cancels another.
fn remove_and_cancel<L: PendingList + Drop, N: QueueName, R: Wait>(
    rt: &R,
    queue: &Csq<L, N>,
    pass: &mut Pass<N>,
    signals: &Signals,
) -> bool {
    let Some(token) = queue.remove_next(rt, pass, Peek::Any) else {
        return false;
    };
    signals.give(&signals.held);
    signals.wait_for(&signals.inside);
    queue.complete(pass, token, FinalStatus::success());
    queue.cancel(rt, pass, CANCELLED, LIFE) == Ok(true)
}

/// What the cancels have left: all but the removed one and the one at home were completed as cancelled. The lock is free
/// again.
fn judge<L: PendingList + Drop, N: QueueName, R: Wait + Abort>(
    rt: &R,
    queue: &Csq<L, N>,
    pass: &mut Pass<N>,
) {
    for irp in [TAKEN, CANCELLED, MARKED] {
        assert!(rt; queue.status(pass, irp) == Ok((LIFE, Some(NtStatus::CANCELLED))));
    }
    assert!(rt; queue.status(pass, REMOVED) == Ok((LIFE, Some(NtStatus::SUCCESS))));
    assert!(rt; queue.is_cancelled(pass, HOME) == Ok((LIFE, true)));
    assert!(rt; queue.close_file(rt, pass, FileId(0)) == Ok(()));
}

/// One thread closes a file slowly, while two others complete and cancel.
fn close_file_and_cancel<L, N, R>(
    rt: &R,
    queue: &Csq<L, N>,
    closer: &mut Pass<N>,
    one: &mut Pass<N>,
    two: &mut Pass<N>,
    signals: &Signals,
)
where
    L: PendingList + Drop + Send,
    N: QueueName + Send + Sync,
    R: Threads + Wait + Abort + Sync,
{
    assert!(rt; insert_all(rt, queue, closer));
    let (closed, (one_cancelled, two_cancelled)) = join(
        rt,
        || {
            wait_for(&signals.held, 2, &signals.gave_up);
            queue.close_file(rt, closer, FileId(0)).is_ok()
        },
        || {
            join(
                rt,
                || take_out_and_cancel(rt, queue, one, signals),
                || remove_and_cancel(rt, queue, two, signals),
            )
        },
    );
    assert!(rt; closed && one_cancelled && two_cancelled);
    assert!(rt; !signals.gave_up.load(Ordering::SeqCst));
    judge(rt, queue, one);
}

fn cancel_at_the_lock<L, N, R>(rt: &R, blank: Blank<L>, signals: &Signals)
where
    L: PendingList + Drop + Send,
    N: QueueName + Send + Sync,
    R: Threads + Wait + Abort + Sync,
    requires { blank ≡ record { table = N.table; limits = N.limits } }
{
    let (queue, mut rack) = blank.into_queue::<N>();
    let mut closer = take(rt, &mut rack);
    let mut one = take(rt, &mut rack);
    let mut two = take(rt, &mut rack);
    close_file_and_cancel(rt, &queue, &mut closer, &mut one, &mut two, signals);
    give_back(rt, &queue, one);
    give_back(rt, &queue, two);
    close(rt, queue, closer, rack);
}

/// The same with a new queue over this list, which is watched.
fn cancel_over<L, R>(rt: &R, list: L)
where
    L: PendingList + Drop + Send,
    R: Threads + Wait + AllocGlobal + Abort + Sync,
{
    let signals = Signals::new();
    let list = watched(list, &signals);
    cancel_at_the_lock::<_, Brand, R>(rt, blank(rt, list, 3), &signals);
}

#[test]
fn cancels_and_completions_take_no_lock(rt: HostRuntime) {
    cancel_over(&rt, vector(&rt, 5, 1));
}
