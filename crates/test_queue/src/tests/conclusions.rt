//! What a caller can conclude from the contracts of a queue's calls alone: all that its passes see is of one
//! execution. Each function of the modules makes a few calls, and its contract is the conclusion. The tests make each
//! once over a queue of two passes.
ghost use Rattle.std.specs.Prelude.{◌≡◌, ◌≢◌};
ghost use Rattle.csq_queue.specs.Owned.{HoldsRemoved};

mod flags;
mod owners;
mod reads;
mod statuses;
mod told;

use super::queues::{FIRST, Rows, SECOND, ZERO, blank, insert, take, vector};
use csq_list::{Peek, PendingList, Place, VecList};
use csq_queue::{Blank, Csq, Inserted, Pass, QueueName, Seen, Token};
use irp_core::{FileId, FinalStatus, Life, NtStatus};
use std::marker::Brand;
use std::process::Abort;
use std::sync::Wait;
use std::thread::{Threads, join};

/// The next IRP, which is listed.
fn remove<L: PendingList + Drop, N: QueueName, R: Wait + Abort>(
    rt: &R,
    queue: &Csq<L, N>,
    pass: &mut Pass<N>,
) -> Token<N>
    ensures { HoldsRemoved N.limits.irps pass.new result }
{
    match queue.remove_next(rt, pass, Peek::Any) {
        Some(token) => token,
        None => panic!(rt; "none is listed"),
    }
}

/// Whether an insert after a flag finds it.
fn finds_flag<L: PendingList + Drop, N: QueueName, R: Wait>(
    rt: &R,
    queue: &Csq<L, N>,
    one: &mut Pass<N>,
    two: &mut Pass<N>,
) -> bool {
    match flags::insert_after_flag(queue, rt, one, two, ZERO, FileId(0), Place::Back) {
        Err(_) => false,
        Ok(Inserted::Pending(_)) => false,
        Ok(Inserted::Cancelled(token)) => {
            queue.complete_cancelled(two, token);
            true
        }
    }
}

/// Whether a put-back after a flag finds it.
fn finds_flag_again<L: PendingList + Drop, N: QueueName, R: Wait + Abort>(
    rt: &R,
    queue: &Csq<L, N>,
    one: &mut Pass<N>,
    two: &mut Pass<N>,
) -> bool {
    let token = remove(rt, queue, two);
    let (irp, life) = (token.irp(), token.life());
    let missed = queue.cancel(rt, one, irp, life) == Ok(false);
    match flags::put_back_after_flag(queue, rt, one, two, token, Place::Front) {
        Err((_, token)) => {
            queue.complete(two, token, FinalStatus::success());
            false
        }
        Ok(Inserted::Pending(_)) => false,
        Ok(Inserted::Cancelled(token)) => {
            queue.complete_cancelled(two, token);
            missed
        }
    }
}

/// A reuse after a status that was read, and after a completion that was told.
fn reuse_twice<L: PendingList + Drop, N: QueueName, R: Wait + Abort>(
    rt: &R,
    queue: &Csq<L, N>,
    one: &mut Pass<N>,
    two: &mut Pass<N>,
    rows: &mut Rows,
) {
    let (read, again) = statuses::read_and_reuse(queue, rt, one, ZERO);
    rows.note(read == Ok((FIRST, Some(NtStatus::CANCELLED))));
    rows.note(again == Ok(SECOND));
    rows.note(insert(rt, queue, two, ZERO, 0).is_some());
    let token = remove(rt, queue, one);
    let again = statuses::complete_and_reuse(queue, rt, one, two, token, FinalStatus::success());
    rows.note(again == Ok(Life(7)));
}

/// Two reads each, and an IRP that is served.
fn read_twice<L: PendingList + Drop, N: QueueName, R: Wait>(
    rt: &R,
    queue: &Csq<L, N>,
    pass: &mut Pass<N>,
    rows: &mut Rows,
) {
    let (earlier, later) = reads::read_flags(queue, pass, ZERO);
    rows.note(earlier == Ok((Life(7), false)) && later == earlier);
    rows.note(insert(rt, queue, pass, ZERO, 0).is_some());
    rows.note(reads::serve_next(queue, rt, pass, FinalStatus::success()) == Some(ZERO));
    let (earlier, later) = reads::read_statuses(queue, pass, ZERO);
    rows.note(earlier == Ok((Life(7), Some(NtStatus::SUCCESS))) && later == earlier);
}

/// Draws all conclusions with two passes.
fn draw_each<L: PendingList + Drop, N: QueueName, R: Wait + Abort>(
    rt: &R,
    queue: &Csq<L, N>,
    one: &mut Pass<N>,
    two: &mut Pass<N>,
)
    requires apart { one.old.pass ≢ two.old.pass }
{
    let mut rows = Rows::new();
    owners::meet(queue, rt, one, two);
    rows.note(queue.cancel(rt, one, ZERO, FIRST) == Ok(false));
    rows.note(finds_flag(rt, queue, one, two));
    reuse_twice(rt, queue, one, two, &mut rows);
    read_twice(rt, queue, two, &mut rows);
    rows.note(queue.reuse(rt, two, ZERO).is_ok() && insert(rt, queue, one, ZERO, 0).is_some());
    rows.note(finds_flag_again(rt, queue, one, two));
    rows.judge(rt);
}

/// Draws them over a queue of this name.
fn draw_all<N: QueueName, R: Wait + Abort>(rt: &R, blank: Blank<VecList>)
    requires { blank ≡ record { table = N.table; limits = N.limits } }
{
    let (queue, mut rack) = blank.into_queue::<N>();
    let mut one = take(rt, &mut rack);
    let mut two = take(rt, &mut rack);
    draw_each(rt, &queue, &mut one, &mut two);
}

#[test]
fn conclusions_hold_of_a_queue_of_two_passes(rt: HostRuntime) {
    let list = vector(&rt, rt.alloc());
    draw_all::<Brand, _>(&rt, blank(&rt, rt.alloc(), list, 2));
}

/// Whether an insert by a pass that was told of a cancel finds it.
fn finds_what_was_told<L: PendingList + Drop, N: QueueName, R: Wait>(
    rt: &R,
    queue: &Csq<L, N>,
    pass: &mut Pass<N>,
    seen: Seen<N>,
) -> bool {
    match told::insert_told(queue, rt, pass, seen, ZERO, FileId(0), Place::Back) {
        Err(_) => false,
        Ok(Inserted::Pending(_)) => false,
        Ok(Inserted::Cancelled(token)) => {
            queue.complete_cancelled(pass, token);
            true
        }
    }
}

/// Whether a removal by a pass that was told finds none.
fn finds_none<L: PendingList + Drop, N: QueueName, R: Wait>(
    rt: &R,
    queue: &Csq<L, N>,
    pass: &mut Pass<N>,
    seen: Seen<N>,
) -> bool {
    match told::remove_told(queue, rt, pass, seen) {
        None => true,
        Some(token) => {
            queue.complete(pass, token, FinalStatus::success());
            false
        }
    }
}

/// A cancel in one thread, and an insert in another that was told of it: nobody met. Then a removal, told of both.
fn tell_each<L, N, R>(rt: &R, queue: &Csq<L, N>, one: &mut Pass<N>, two: &mut Pass<N>)
where
    L: PendingList + Drop + Send,
    N: QueueName + Send + Sync,
    R: Threads + Wait + Abort + Sync,
{
    let ((done, mut seen), ()) = join(
        rt,
        || told::cancel_and_tell(queue, rt, one, ZERO, FIRST),
        || (),
    );
    let (again, third) = (queue.seen_again(&mut seen), queue.seen_again(&mut seen));
    told::learn_order(queue, one, third);
    let (found, ()) = join(rt, || finds_what_was_told(rt, queue, two, seen), || ());
    let none = finds_none(rt, queue, one, again);
    assert!(rt; done == Ok(false) && found && none);
}

/// Lets two threads tell each other over a queue of this name.
fn tell_over<N: QueueName + Send + Sync, R: Threads + Wait + Abort + Sync>(
    rt: &R,
    blank: Blank<VecList>,
)
    requires { blank ≡ record { table = N.table; limits = N.limits } }
{
    let (queue, mut rack) = blank.into_queue::<N>();
    let mut one = take(rt, &mut rack);
    let mut two = take(rt, &mut rack);
    tell_each(rt, &queue, &mut one, &mut two);
}

#[test]
fn a_pass_that_learned_of_a_cancel_finds_it(rt: HostRuntime) {
    let list = vector(&rt, rt.alloc());
    tell_over::<Brand, _>(&rt, blank(&rt, rt.alloc(), list, 2));
}
