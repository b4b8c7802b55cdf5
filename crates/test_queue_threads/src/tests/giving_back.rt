//! A pass is given back while another call has the lock.
ghost use Rattle.std.specs.Prelude.{◌≡◌};

use super::queues::{blank, close, take, vector, watched};
use super::signals::Signals;
use csq_list::PendingList;
use csq_queue::{Blank, Csq, Pass, QueueName};
use irp_core::FileId;
use std::marker::Brand;
use std::process::Abort;
use std::sync::Wait;
use std::sync::atomic::Ordering;
use std::thread::{Threads, join, yield_now};

/// How often a thread yields, so that another comes to the lock.
const WHILE: u32 = 1000;

/// Lets a call that has the lock go on, a while after a pass is about to be given back.
fn let_go_on(signals: &Signals) {
    signals.wait_for(&signals.giving);
    for _ in 0..WHILE {
        yield_now();
    }
    signals.give(&signals.go_on);
}

/// One thread closes a file slowly, while another gives its pass back.
fn close_file_and_give_back<L, N, R>(
    rt: &R,
    queue: &Csq<L, N>,
    one: &mut Pass<N>,
    two: Pass<N>,
    signals: &Signals,
)
where
    L: PendingList + Drop + Send,
    N: QueueName + Send + Sync,
    R: Threads + Wait + Abort + Sync,
{
    let (closed, (given, ())) = join(
        rt,
        || queue.close_file(rt, one, FileId(0)).is_ok(),
        || {
            join(
                rt,
                || {
                    signals.wait_for(&signals.inside);
                    signals.give(&signals.giving);
                    queue.give_back(rt, two).is_ok()
                },
                || let_go_on(signals),
            )
        },
    );
    assert!(rt; closed && given);
    assert!(rt; !signals.gave_up.load(Ordering::SeqCst));
}

/// Once both threads are done no pass is out, and the queue is closed.
fn give_back_at_the_lock<L, N, R>(rt: &R, blank: Blank<L>, signals: &Signals)
where
    L: PendingList + Drop + Send,
    N: QueueName + Send + Sync,
    R: Threads + Wait + Abort + Sync,
    requires { blank ≡ record { table = N.table; limits = N.limits } }
{
    let (queue, mut rack) = blank.into_queue::<N>();
    let mut one = take(rt, &mut rack);
    let two = take(rt, &mut rack);
    close_file_and_give_back(rt, &queue, &mut one, two, signals);
    close(rt, queue, one, rack);
}

/// The same with a new queue over this list, which is watched.
fn give_back_over<L, R>(rt: &R, list: L)
where
    L: PendingList + Drop + Send,
    R: Threads + Wait + AllocGlobal + Abort + Sync,
{
    let signals = Signals::new();
    let list = watched(list, &signals);
    give_back_at_the_lock::<_, Brand, R>(rt, blank(rt, list, 2), &signals);
}

#[test]
fn a_pass_is_given_back_past_a_held_lock(rt: HostRuntime) {
    give_back_over(&rt, vector(&rt, 1, 1));
}
