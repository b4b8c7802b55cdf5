//! Each call of a queue, over both lists, by one of two passes after the other. All memory is refused once the queue
//! is made, and all of it is given back at the end.
ghost use Rattle.std.specs.Prelude.{◌≡◌};

use super::queues::{
    FIRST, ONE, Rows, SECOND, THREE, TWO, UNKNOWN, ZERO, blank, chains, first, give_back, insert,
    second, take, vector,
};
use csq_list::{Peek, PendingList, Place, UnknownFile};
use csq_queue::{
    Blank, CancelRefused, CloseCause, Csq, InsertContext, Inserted, NotListed, Pass, QueueName,
    Rest, ReuseRefused, UnknownIrp,
};
use irp_core::{FileId, FinalStatus, IrpId, IrpLife, Life, NtStatus};
use linked_list_allocator::LocalHeap;
use std::alloc::Allocator;
use std::marker::Brand;
use std::process::Abort;
use std::sync::Wait;
use test_heap::RefusingHeap;

/// The first match, which is completed with STATUS_SUCCESS.
fn serve<L: PendingList + Drop, N: QueueName, A: Allocator>(
    rt: &impl Wait,
    queue: &Csq<L, N, A>,
    pass: &mut Pass<N>,
    peek: Peek,
) -> Option<IrpLife> {
    match queue.remove_next(rt, pass, peek) {
        None => None,
        Some(token) => {
            let (irp, life) = (token.irp(), token.life());
            queue.complete(pass, token, FinalStatus::success());
            Some(IrpLife { irp, life })
        }
    }
}

/// The same of the IRP that a context names.
fn serve_named<L: PendingList + Drop, N: QueueName, A: Allocator>(
    rt: &impl Wait,
    queue: &Csq<L, N, A>,
    pass: &mut Pass<N>,
    context: &Option<InsertContext<N>>,
) -> Option<IrpLife> {
    let Some(context) = context else {
        return None;
    };
    match queue.remove(rt, pass, *context) {
        None => None,
        Some(token) => {
            let (irp, life) = (token.irp(), token.life());
            queue.complete(pass, token, FinalStatus::success());
            Some(IrpLife { irp, life })
        }
    }
}

/// What a context names.
fn named<N: QueueName>(context: &Option<InsertContext<N>>) -> Option<IrpLife> {
    match context {
        None => None,
        Some(context) => Some(IrpLife {
            irp: context.irp(),
            life: context.life(),
        }),
    }
}

/// A context names its IRP in its life, and removes it once. What was completed is used again, in its next life.
fn remove_and_reuse<L: PendingList + Drop, N: QueueName, A: Allocator, R: Wait>(
    rt: &R,
    queue: &Csq<L, N, A>,
    one: &mut Pass<N>,
    two: &mut Pass<N>,
    rows: &mut Rows,
) {
    let context = insert(rt, queue, one, ZERO, 0);
    rows.note(named(&context) == Some(first(ZERO)));
    rows.note(queue.reuse(rt, two, ZERO) == Err(ReuseRefused::NotCompleted));
    rows.note(serve(rt, queue, two, Peek::File(FileId(1))).is_none());
    rows.note(serve_named(rt, queue, two, &context) == Some(first(ZERO)));
    rows.note(serve_named(rt, queue, two, &context).is_none());
    rows.note(queue.status(one, ZERO) == Ok((FIRST, Some(NtStatus::SUCCESS))));
    rows.note(queue.reuse(rt, one, ZERO) == Ok(SECOND));
    rows.note(queue.status(two, ZERO) == Ok((SECOND, None)));
    let later = insert(rt, queue, one, ZERO, 0);
    rows.note(named(&later) == Some(second(ZERO)));
    rows.note(serve_named(rt, queue, two, &context).is_none());
    rows.note(serve(rt, queue, two, Peek::Any) == Some(second(ZERO)));
}

/// Whether an insert at the front finds its IRP cancelled.
fn finds_cancelled<L: PendingList + Drop, N: QueueName, A: Allocator>(
    rt: &impl Wait,
    queue: &Csq<L, N, A>,
    pass: &mut Pass<N>,
    irp: IrpId,
) -> bool {
    match queue.insert(rt, pass, irp, FileId(0), Place::Front) {
        Err(_) => false,
        Ok(Inserted::Pending(_)) => false,
        Ok(Inserted::Cancelled(token)) => {
            let named = (token.irp() == irp) & (token.life() == FIRST);
            queue.complete_cancelled(pass, token);
            named
        }
    }
}

/// A cancel completes what is listed in the life that it names, and flags what isn't.
fn cancel_each<L: PendingList + Drop, N: QueueName, A: Allocator, R: Wait>(
    rt: &R,
    queue: &Csq<L, N, A>,
    one: &mut Pass<N>,
    two: &mut Pass<N>,
    rows: &mut Rows,
) {
    rows.note(insert(rt, queue, one, ONE, 0).is_some());
    rows.note(queue.cancel(rt, two, ONE, SECOND) == Err(CancelRefused::Stale(FIRST)));
    rows.note(queue.is_cancelled(one, ONE) == Ok((FIRST, false)));
    rows.note(queue.cancel(rt, two, ONE, FIRST) == Ok(true));
    rows.note(queue.cancel(rt, two, ONE, FIRST) == Ok(false));
    rows.note(queue.is_cancelled(one, ONE) == Ok((FIRST, true)));
    rows.note(queue.status(one, ONE) == Ok((FIRST, Some(NtStatus::CANCELLED))));
    rows.note(queue.reuse(rt, one, ONE) == Ok(SECOND));
    rows.note(queue.cancel(rt, two, ONE, FIRST) == Err(CancelRefused::Stale(SECOND)));
    rows.note(queue.is_cancelled(one, ONE) == Ok((SECOND, false)));
    rows.note(queue.cancel(rt, two, TWO, FIRST) == Ok(false));
    rows.note(finds_cancelled(rt, queue, one, TWO));
}

/// Claims an IRP, and cleans up beside it. Returns whether the cleanup completed one IRP, and left the claimed one.
fn clean_up_beside<L: PendingList + Drop, N: QueueName, A: Allocator>(
    rt: &impl Wait,
    queue: &Csq<L, N, A>,
    one: &mut Pass<N>,
    two: &mut Pass<N>,
    irp: IrpId,
) -> bool {
    match queue.mark_cancel(two, irp, SECOND) {
        Ok(Some(claim)) => {
            let named = (claim.irp() == irp) & (claim.life() == SECOND);
            let cleaned = queue.cleanup(rt, one, FileId(1));
            let token = queue.cancel_routine(rt, two, claim);
            queue.complete_cancelled(two, token);
            named & (cleaned == Ok(1))
        }
        Ok(None) => false,
        Err(_) => false,
    }
}

/// A cleanup completes what is listed for its file object and isn't claimed, and closes the file object.
fn clean_up<L: PendingList + Drop, N: QueueName, A: Allocator, R: Wait>(
    rt: &R,
    queue: &Csq<L, N, A>,
    one: &mut Pass<N>,
    two: &mut Pass<N>,
    rows: &mut Rows,
) {
    rows.note(insert(rt, queue, one, ONE, 1).is_some());
    rows.note(insert(rt, queue, one, THREE, 1).is_some());
    rows.note(clean_up_beside(rt, queue, one, two, ONE));
    rows.note(queue.status(two, THREE) == Ok((FIRST, Some(NtStatus::CANCELLED))));
    rows.note(queue.is_cancelled(two, THREE) == Ok((FIRST, false)));
    rows.note(queue.cleanup(rt, two, FileId(1)) == Ok(0));
    rows.note(queue.reuse(rt, one, ZERO) == Ok(Life(7)));
    rows.note(insert(rt, queue, one, ZERO, 1).is_none());
    rows.note(insert(rt, queue, one, ZERO, 0).is_some());
    rows.note(queue.close_file(rt, one, FileId(0)) == Ok(()));
}

/// What isn't there is refused. Each refusal has its number.
fn refuse_unknown<L: PendingList + Drop, N: QueueName, A: Allocator, R: Wait>(
    rt: &R,
    queue: &Csq<L, N, A>,
    pass: &mut Pass<N>,
    rows: &mut Rows,
) {
    rows.note(queue.cancel(rt, pass, UNKNOWN, FIRST) == Err(CancelRefused::UnknownIrp));
    rows.note(queue.reuse(rt, pass, UNKNOWN) == Err(ReuseRefused::UnknownIrp));
    rows.note(queue.is_cancelled(pass, UNKNOWN) == Err(UnknownIrp));
    rows.note(queue.status(pass, UNKNOWN) == Err(UnknownIrp));
    rows.note(queue.close_file(rt, pass, FileId(2)) == Err(UnknownFile));
    rows.note(queue.cleanup(rt, pass, FileId(2)) == Err(UnknownFile));
    rows.note(CancelRefused::Stale(FIRST).number() == 2 && UnknownIrp.number() == 1);
    rows.note(ReuseRefused::NotCompleted.number() == 2 && NotListed.number() == 1);
    rows.note(CloseCause::Holding(1, 0).number() == 1);
}

/// The present life of an IRP, whether no insert accepted it there, its Cancel flag and its status.
type State = (Option<Life>, bool, bool, Option<NtStatus>);

fn state_of<L: PendingList + Drop, A: Allocator>(rest: &Rest<L, A>, irp: IrpId) -> State {
    (
        rest.life(irp),
        rest.is_home(irp),
        rest.cancelled(irp),
        rest.status(irp),
    )
}

/// What is left of each IRP. The first one is listed, alone.
fn check_rest<L: PendingList + Drop, A: Allocator>(rest: &Rest<L, A>, rows: &mut Rows) {
    let cancelled = Some(NtStatus::CANCELLED);
    let listed = rest.next_listed(None);
    rows.note(listed == Some(ZERO));
    rows.note(rest.next_listed(listed).is_none());
    rows.note(state_of(rest, ZERO) == (Some(Life(7)), false, false, None));
    rows.note(state_of(rest, ONE) == (Some(SECOND), false, true, cancelled));
    rows.note(state_of(rest, TWO) == (Some(FIRST), false, true, cancelled));
    rows.note(state_of(rest, THREE) == (Some(FIRST), false, false, cancelled));
    rows.note(state_of(rest, UNKNOWN) == (None, false, false, None));
}

fn make_each<L: PendingList + Drop, N: QueueName, A: Allocator, R: Wait>(
    rt: &R,
    queue: &Csq<L, N, A>,
    one: &mut Pass<N>,
    two: &mut Pass<N>,
    rows: &mut Rows,
) {
    remove_and_reuse(rt, queue, one, two, rows);
    cancel_each(rt, queue, one, two, rows);
    clean_up(rt, queue, one, two, rows);
    refuse_unknown(rt, queue, one, rows);
    queue.meet(rt, one, two);
}

/// Makes the calls with a queue and its two passes, and closes it.
fn begin_and_end<L: PendingList + Drop, N: QueueName, A: Allocator, R: Wait + Abort>(
    rt: &R,
    blank: Blank<L, A>,
    rows: &mut Rows,
)
    requires { blank ≡ record { table = N.table; limits = N.limits } }
{
    let (queue, mut rack) = blank.into_queue::<N>();
    let mut one = take(rt, &mut rack);
    let mut two = take(rt, &mut rack);
    make_each(rt, &queue, &mut one, &mut two, rows);
    give_back(rt, &queue, two);
    match queue.close(one, rack) {
        Ok(rest) => check_rest(&rest, rows),
        Err(_) => panic!(rt; "not closed"),
    }
}

/// Makes a queue on the heap of its list, and refuses all memory from then on.
fn run<B: Allocator, L: PendingList + Drop, R: Wait + Abort>(
    rt: &R,
    heap: &RefusingHeap<B>,
    list: L,
) {
    let mut rows = Rows::new();
    let blank = blank(rt, heap, list, 2);
    heap.refuse_all();
    begin_and_end::<L, Brand, _, R>(rt, blank, &mut rows);
    rows.judge(rt);
}

fn run_over_vector<R: Wait + Abort>(rt: &R, room: &LocalHeap) {
    let heap = RefusingHeap::new(room, 1000);
    run(rt, &heap, vector(rt, &heap));
}

fn run_over_chains<R: Wait + Abort>(rt: &R, room: &LocalHeap) {
    let heap = RefusingHeap::new(room, 1000);
    run(rt, &heap, chains(rt, &heap));
}

fn run_in_room<R: Wait + Abort>(rt: &R, room: &LocalHeap) {
    run_over_vector(rt, room);
    assert!(rt; room.used() == 0);
    run_over_chains(rt, room);
    assert!(rt; room.used() == 0);
}

#[test]
fn each_call_of_a_queue_answers_without_memory(rt: HostRuntime) {
    match LocalHeap::new(rt.alloc(), 1 << 16) {
        Ok(room) => run_in_room(&rt, &room),
        Err(_) => panic!(rt; "no room"),
    }
}
