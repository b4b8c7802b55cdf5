//! A checked queue and its passes, handed to other threads, which cancel the same IRPs.
ghost use Rattle.std.specs.Prelude.{◌≡◌};
ghost use Rattle.csq_checked.specs.Passes.{IsPassIn};

use csq_checked::{CheckedPass, CheckedQueue, ListKind, QueueSize};
use csq_list::Place;
use csq_queue::{CancelRefused, InsertAnswer};
use irp_core::{FileId, IrpId, Life};
use std::process::Abort;
use std::thread::{Threads, join};

/// A queue of two passes for one IRP.
fn made<R: AllocGlobal + Abort>(rt: &R, list: ListKind) -> CheckedQueue {
    let size = QueueSize {
        irps: 1,
        files: 1,
        limit: 1,
        passes: 2,
        first: Life(0),
        list,
    };
    match CheckedQueue::new(rt.alloc(), size) {
        Ok(queue) => queue,
        Err(_) => panic!(rt; "no queue"),
    }
}

/// The next pass.
fn take<R: AllocGlobal + Abort>(rt: &R, queue: &mut CheckedQueue) -> Box<CheckedPass>
    ensures pass { IsPassIn queue.new.queue result.value }
    ensures queue { queue.new.queue ≡ queue.old.queue }
{
    match queue.take_pass(rt.alloc()) {
        Ok(pass) => pass,
        Err(_) => panic!(rt; "no pass"),
    }
}

/// Inserts the IRP.
fn insert<R: Abort>(rt: &R, queue: &mut CheckedQueue, pass: &mut CheckedPass)
    requires { IsPassIn queue.old.queue pass.old }
{
    match queue.insert(pass, IrpId(0), FileId(0), Place::Back) {
        Ok(InsertAnswer::Pending(_)) => {}
        Ok(InsertAnswer::Cancelled(_)) => panic!(rt; "found cancelled"),
        Err(_) => panic!(rt; "refused"),
    }
}

/// Cancels the IRP, and returns whether its cancel routine was there.
fn claims(mut pass: Box<CheckedPass>) -> Result<bool, CancelRefused> {
    match pass.mark_cancel(IrpId(0), Life(0)) {
        Ok(claim) => Ok(claim.is_some()),
        Err(cause) => Err(cause),
    }
}

/// What a queue and its two passes return in two threads.
type Answers = (
    (u32, Result<bool, CancelRefused>),
    Result<bool, CancelRefused>,
);

fn hand_over<R: Threads>(
    rt: &R,
    queue: CheckedQueue,
    one: Box<CheckedPass>,
    two: Box<CheckedPass>,
) -> Answers {
    join(
        rt,
        move || (queue.passes_out(), claims(one)),
        move || claims(two),
    )
}

/// Hands a queue and its passes over.
fn answers<R: Threads + AllocGlobal + Abort>(rt: &R, list: ListKind) -> Answers {
    let mut queue = made(rt, list);
    let mut one = take(rt, &mut queue);
    insert(rt, &mut queue, &mut one);
    let two = take(rt, &mut queue);
    hand_over(rt, queue, one, two)
}

#[test]
fn a_queue_and_its_passes_go_to_other_threads(rt: HostRuntime) {
    for list in [ListKind::Vector, ListKind::Chains] {
        let ((out, one), two) = answers(&rt, list);
        assert!(rt; out == 2);
        assert!(rt; (one == Ok(true) && two == Ok(false)) || (one == Ok(false) && two == Ok(true)));
    }
}
