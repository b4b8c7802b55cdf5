//! Inserts between two removals of a cleanup.
ghost use Rattle.std.specs.Prelude.{◌≡◌};

use super::queues::{blank, close, give_back, inserts, take, watched};
use csq_list::{ChainList, PendingList};
use csq_queue::{Blank, Csq, Pass, QueueName};
use irp_core::{FileId, IrpId};
use std::marker::Brand;
use std::process::Abort;
use std::sync::Wait;
use std::sync::atomic::{AtomicBool, AtomicU64, Ordering};
use std::test::Fail;
use std::thread::{Threads, join};
use test_watched_list::{Moment, Watch, wait_for};

/// How many IRPs are cleaned up.
const SHARE: u32 = 1000;

/// How many cleanups there are at most. The lock isn't handed on in turn, so that an insert may find it taken
/// again by each next removal; a lock that is kept for all of them lets no insert in between, ever.
const ROUNDS: u32 = 200;

/// What a list and the threads of a test tell each other.
#[derive(Drop)]
struct Counts {
    // How many IRPs are removed, or being removed.
    removing: AtomicU64,
    // How many inserts are about to be made.
    inserting: AtomicU64,
    // One found some of the IRPs removed, and not all.
    between: AtomicBool,
    // Some wait came to its end unanswered.
    gave_up: AtomicBool,
}

/// A list waits at its first removal for an insert to be about to be made. An insert for file 1 then tells
/// whether it came between two removals.
impl Watch for Counts {
    fn at(&self, moment: Moment) {
        match moment {
            Moment::Inserting(FileId(1)) => {
                let removed = self.removing.load(Ordering::SeqCst);
                if 0 < removed && removed < u64::from(SHARE) {
                    self.between.store(true, Ordering::SeqCst);
                }
            }
            Moment::Removing => {
                if self.removing.fetch_add(1, Ordering::SeqCst) == 0 {
                    wait_for(&self.inserting, 1, &self.gave_up);
                }
            }
            Moment::Inserting(_) | Moment::Closing | Moment::Closed => {}
        }
    }
}

/// Inserts all that is to be cleaned up.
fn insert_share<L: PendingList + Drop, N: QueueName, R: Wait>(
    rt: &R,
    queue: &Csq<L, N>,
    pass: &mut Pass<N>,
) -> bool {
    let mut all = true;
    for number in 0..SHARE {
        all &= inserts(rt, queue, pass, IrpId(number), FileId(0));
    }
    all
}

/// One thread cleans a file up, and another inserts for another file once the first IRP is being removed.
fn clean_up_and_insert<L, N, R>(
    rt: &R,
    queue: &Csq<L, N>,
    one: &mut Pass<N>,
    two: &mut Pass<N>,
    counts: &Counts,
)
where
    L: PendingList + Drop + Send,
    N: QueueName + Send + Sync,
    R: Threads + Wait + Abort + Sync,
{
    assert!(rt; insert_share(rt, queue, one));
    let (cleaned, inserted) = join(
        rt,
        || queue.cleanup(rt, one, FileId(0)),
        || {
            wait_for(&counts.removing, 1, &counts.gave_up);
            counts.inserting.fetch_add(1, Ordering::SeqCst);
            inserts(rt, queue, two, IrpId(SHARE), FileId(1))
        },
    );
    assert!(rt; cleaned == Ok(SHARE));
    assert!(rt; inserted);
}

fn clean_up_beside_an_insert<L, N, R>(rt: &R, blank: Blank<L>, counts: &Counts)
where
    L: PendingList + Drop + Send,
    N: QueueName + Send + Sync,
    R: Threads + Wait + Abort + Sync,
    requires { blank ≡ record { table = N.table; limits = N.limits } }
{
    let (queue, mut rack) = blank.into_queue::<N>();
    let mut one = take(rt, &mut rack);
    let mut two = take(rt, &mut rack);
    clean_up_and_insert(rt, &queue, &mut one, &mut two, counts);
    give_back(rt, &queue, two);
    close(rt, queue, one, rack);
}

/// The same with a new queue over this list, which is watched.
fn clean_up<L, R>(rt: &R, list: L, counts: &Counts)
where
    L: PendingList + Drop + Send,
    R: Threads + Wait + AllocGlobal + Abort + Sync,
{
    let list = watched(list, counts);
    clean_up_beside_an_insert::<_, Brand, R>(rt, blank(rt, list, 2), counts);
}

/// A list in chains, of which a removal is short, so that the lock is free for a larger part of the time.
fn chains<R: AllocGlobal + Abort>(rt: &R) -> ChainList {
    match ChainList::new(rt.alloc(), SHARE + 1, 2, SHARE + 1) {
        Ok(list) => list,
        Err(_) => panic!(rt; "no list"),
    }
}

/// Whether an insert came between two removals of a cleanup.
fn comes_between<R: Threads + Wait + AllocGlobal + Abort + Sync>(rt: &R) -> bool {
    let counts = Counts {
        removing: AtomicU64::new(0),
        inserting: AtomicU64::new(0),
        between: AtomicBool::new(false),
        gave_up: AtomicBool::new(false),
    };
    clean_up(rt, chains(rt), &counts);
    assert!(rt; !counts.gave_up.load(Ordering::SeqCst));
    counts.between.load(Ordering::SeqCst)
}

#[test]
fn a_cleanup_lets_others_in(rt: HostRuntime) -> Result<(), Fail> {
    for _ in 0..ROUNDS {
        if comes_between(&rt) {
            return Ok(());
        }
    }
    Err(Fail::from("no insert came between two removals"))
}
