//! One thread leads IRPs through their lives, while another one cancels them.
ghost use Rattle.std.specs.Prelude.{◌≡◌};

use super::queues::{LIFE, blank, close, give_back, take, vector};
use csq_list::{Peek, PendingList, Place};
use csq_queue::{Blank, CancelRefused, Csq, Inserted, Pass, QueueName};
use irp_core::{FileId, FinalStatus, IrpId, Life};
use std::marker::Brand;
use std::process::Abort;
use std::sync::Wait;
use std::sync::atomic::{AtomicBool, AtomicU64, Ordering};
use std::thread::{Threads, join, yield_now};

/// How many IRPs there are.
const IRPS: u32 = 16;

/// How many lives each IRP has.
const LIVES: u32 = 10_000;

/// What both threads count.
#[derive(Drop)]
struct Counts {
    completed: AtomicU64,
    // Answers that must not come.
    wrong: AtomicU64,
    // All lives are over.
    done: AtomicBool,
}

impl Counts {
    fn complete(&self) {
        self.completed.fetch_add(1, Ordering::SeqCst);
    }

    fn expect(&self, right: bool) {
        if !right {
            self.wrong.fetch_add(1, Ordering::SeqCst);
        }
    }
}

/// Inserts each. It is pending, or found cancelled.
fn insert_each<L: PendingList + Drop, N: QueueName, R: Wait>(
    rt: &R,
    queue: &Csq<L, N>,
    pass: &mut Pass<N>,
    counts: &Counts,
) {
    for number in 0..IRPS {
        match queue.insert(rt, pass, IrpId(number), FileId(0), Place::Back) {
            Err(_) => counts.expect(false),
            Ok(Inserted::Pending(_)) => {}
            Ok(Inserted::Cancelled(token)) => {
                queue.complete_cancelled(pass, token);
                counts.complete();
            }
        }
    }
}

/// Removes what is left of them and completes it.
fn remove_each<L: PendingList + Drop, N: QueueName, R: Wait>(
    rt: &R,
    queue: &Csq<L, N>,
    pass: &mut Pass<N>,
    counts: &Counts,
) {
    for _ in 0..IRPS {
        if let Some(token) = queue.remove_next(rt, pass, Peek::Any) {
            queue.complete(pass, token, FinalStatus::success());
            counts.complete();
        }
    }
}

/// Begins the next life of each, once it is completed, by its canceller perhaps.
fn reuse_each<L: PendingList + Drop, N: QueueName, R: Wait>(
    rt: &R,
    queue: &Csq<L, N>,
    pass: &mut Pass<N>,
    next: Life,
    counts: &Counts,
) {
    for number in 0..IRPS {
        for _ in rt.forever() {
            if !matches!(queue.status(pass, IrpId(number)), Ok((_, None))) {
                break;
            }
            yield_now();
        }
        counts.expect(queue.reuse(rt, pass, IrpId(number)) == Ok(next));
    }
}

/// Leads all IRPs through their lives.
fn submit<L: PendingList + Drop, N: QueueName, R: Wait>(
    rt: &R,
    queue: &Csq<L, N>,
    pass: &mut Pass<N>,
    counts: &Counts,
) {
    for life in 0..LIVES {
        let next = Life(LIFE.0.wrapping_add(life).wrapping_add(1));
        insert_each(rt, queue, pass, counts);
        remove_each(rt, queue, pass, counts);
        reuse_each(rt, queue, pass, next, counts);
    }
    counts.done.store(true, Ordering::SeqCst);
}

/// Cancels an IRP in the life in which it was just now, or in one behind that, which must be stale.
fn cancel_one<L: PendingList + Drop, N: QueueName, R: Wait>(
    rt: &R,
    queue: &Csq<L, N>,
    pass: &mut Pass<N>,
    irp: IrpId,
    behind: u32,
    counts: &Counts,
) {
    let life = match queue.is_cancelled(pass, irp) {
        Ok((life, _)) => life,
        Err(_) => LIFE,
    };
    let named = Life(life.0.saturating_sub(behind));
    match queue.cancel(rt, pass, irp, named) {
        Ok(true) => {
            counts.expect(named == life);
            counts.complete();
        }
        Ok(false) => counts.expect(named == life),
        Err(CancelRefused::Stale(found)) => counts.expect(found.0 >= life.0),
        Err(CancelRefused::UnknownIrp) => counts.expect(false),
    }
}

/// Cancels IRPs in a random order, in their present lives and in lives behind them, until all are over.
fn cancel_at_random<L: PendingList + Drop, N: QueueName, R: Wait>(
    rt: &R,
    queue: &Csq<L, N>,
    pass: &mut Pass<N>,
    counts: &Counts,
) {
    let mut random = 3u32;
    for _ in rt.forever() {
        if counts.done.load(Ordering::SeqCst) {
            break;
        }
        random = random.wrapping_mul(1_664_525).wrapping_add(1_013_904_223);
        let irp = IrpId((random >> 28) % IRPS);
        cancel_one(rt, queue, pass, irp, (random >> 24) % 4, counts);
    }
}

/// As many completions are counted as there are lives. No life is followed by another before it was completed.
fn submit_beside_cancels<L, N, R>(
    rt: &R,
    queue: &Csq<L, N>,
    one: &mut Pass<N>,
    two: &mut Pass<N>,
    counts: &Counts,
)
where
    L: PendingList + Drop + Send,
    N: QueueName + Send + Sync,
    R: Threads + Wait + Abort + Sync,
{
    join(
        rt,
        || submit(rt, queue, one, counts),
        || cancel_at_random(rt, queue, two, counts),
    );
    assert!(rt; counts.wrong.load(Ordering::SeqCst) == 0);
    let lives = u64::from(IRPS) * u64::from(LIVES);
    assert!(rt; counts.completed.load(Ordering::SeqCst) == lives);
}

fn submit_and_cancel<L, N, R>(rt: &R, blank: Blank<L>)
where
    L: PendingList + Drop + Send,
    N: QueueName + Send + Sync,
    R: Threads + Wait + Abort + Sync,
    requires { blank ≡ record { table = N.table; limits = N.limits } }
{
    let counts = Counts {
        completed: AtomicU64::new(0),
        wrong: AtomicU64::new(0),
        done: AtomicBool::new(false),
    };
    let (queue, mut rack) = blank.into_queue::<N>();
    let mut one = take(rt, &mut rack);
    let mut two = take(rt, &mut rack);
    submit_beside_cancels(rt, &queue, &mut one, &mut two, &counts);
    give_back(rt, &queue, two);
    close(rt, queue, one, rack);
}

#[test]
fn each_life_is_completed_once(rt: HostRuntime) {
    let list = vector(&rt, IRPS, 1);
    submit_and_cancel::<_, Brand, _>(&rt, blank(&rt, list, 2));
}
