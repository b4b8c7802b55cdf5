//! Requests that a pass removed and puts back, over both lists: with nothing in between, with a cancel, and with
//! their file object closed. What was put back is left lying, so that a later call finds it.
ghost use Rattle.std.specs.Prelude.{◌≡◌};
ghost use Rattle.csq_queue.specs.Owned.{HoldsRemoved};

use super::queues::{
    FIRST, ONE, Rows, THREE, TWO, ZERO, blank, chains, give_back, insert, take, vector,
};
use csq_list::{InsertStatus, Peek, PendingList, Place};
use csq_queue::{Blank, Csq, Inserted, Pass, QueueName, Token};
use irp_core::{FileId, FinalStatus, IrpId, Life, NtStatus};
use std::alloc::Allocator;
use std::marker::Brand;
use std::process::Abort;
use std::sync::Wait;

/// What comes between a removal and the put-back.
#[derive(Clone, Copy)]
enum Between {
    Nothing,
    // The other pass cancels the request, and finds no routine.
    Cancel,
    // It closes the file object.
    Close(FileId),
}

/// What became of a put-back.
#[derive(Clone, Copy, PartialEq, Eq)]
enum Returned {
    // There was nothing to remove.
    Nothing,
    Pending,
    // It was then completed with STATUS_CANCELLED.
    Cancelled,
    // It was then completed with STATUS_SUCCESS.
    Refused(InsertStatus),
}

/// Puts a request back, and completes what isn't listed then.
fn return_one<L: PendingList + Drop, N: QueueName, A: Allocator>(
    rt: &impl Wait,
    queue: &Csq<L, N, A>,
    pass: &mut Pass<N>,
    token: Token<N>,
    place: Place,
) -> Returned
    requires { HoldsRemoved N.limits.irps pass.old token }
{
    match queue.put_back(rt, pass, token, place) {
        Ok(Inserted::Pending(_)) => Returned::Pending,
        Ok(Inserted::Cancelled(token)) => {
            queue.complete_cancelled(pass, token);
            Returned::Cancelled
        }
        Err((cause, token)) => {
            queue.complete(pass, token, FinalStatus::success());
            Returned::Refused(cause)
        }
    }
}

/// What the other pass does meanwhile. Returns whether it was as expected.
fn meanwhile<L: PendingList + Drop, N: QueueName, A: Allocator>(
    rt: &impl Wait,
    queue: &Csq<L, N, A>,
    other: &mut Pass<N>,
    irp: IrpId,
    life: Life,
    between: Between,
) -> bool {
    match between {
        Between::Nothing => true,
        Between::Cancel => queue.cancel(rt, other, irp, life) == Ok(false),
        Between::Close(file) => queue.close_file(rt, other, file) == Ok(()),
    }
}

/// Removes the first request and puts it back.
fn remove_and_return<L: PendingList + Drop, N: QueueName, A: Allocator>(
    rt: &impl Wait,
    queue: &Csq<L, N, A>,
    one: &mut Pass<N>,
    two: &mut Pass<N>,
    between: Between,
    place: Place,
) -> Returned {
    match queue.remove_next(rt, one, Peek::Any) {
        None => Returned::Nothing,
        Some(token) => {
            let expected = meanwhile(rt, queue, two, token.irp(), token.life(), between);
            let returned = return_one(rt, queue, one, token, place);
            if expected {
                returned
            } else {
                Returned::Nothing
            }
        }
    }
}

/// The first request, which is completed.
fn serve<L: PendingList + Drop, N: QueueName, A: Allocator>(
    rt: &impl Wait,
    queue: &Csq<L, N, A>,
    pass: &mut Pass<N>,
) -> Option<IrpId> {
    match queue.remove_next(rt, pass, Peek::Any) {
        None => None,
        Some(token) => {
            let irp = token.irp();
            queue.complete(pass, token, FinalStatus::success());
            Some(irp)
        }
    }
}

/// What is put back stands first or last, as often as it is, and a later cancel finds its routine.
fn return_and_find<L: PendingList + Drop, N: QueueName, A: Allocator, R: Wait>(
    rt: &R,
    queue: &Csq<L, N, A>,
    one: &mut Pass<N>,
    two: &mut Pass<N>,
    rows: &mut Rows,
) {
    let (first, last) = (Place::Front, Place::Back);
    rows.note(insert(rt, queue, one, ZERO, 0).is_some());
    rows.note(insert(rt, queue, one, ONE, 0).is_some());
    rows.note(remove_and_return(rt, queue, one, two, Between::Nothing, first) == Returned::Pending);
    rows.note(remove_and_return(rt, queue, two, one, Between::Nothing, first) == Returned::Pending);
    rows.note(queue.status(two, ZERO) == Ok((FIRST, None)));
    rows.note(serve(rt, queue, two) == Some(ZERO));
    rows.note(insert(rt, queue, one, TWO, 0).is_some());
    rows.note(remove_and_return(rt, queue, one, two, Between::Nothing, last) == Returned::Pending);
    rows.note(queue.cancel(rt, two, ONE, FIRST) == Ok(true));
    rows.note(queue.status(one, ONE) == Ok((FIRST, Some(NtStatus::CANCELLED))));
    rows.note(serve(rt, queue, one) == Some(TWO));
}

/// A cancel that came while the pass had the request isn't lost, and a closed file object takes it no longer.
fn return_too_late<L: PendingList + Drop, N: QueueName, A: Allocator, R: Wait>(
    rt: &R,
    queue: &Csq<L, N, A>,
    one: &mut Pass<N>,
    two: &mut Pass<N>,
    rows: &mut Rows,
) {
    let first = Place::Front;
    let refused = Returned::Refused(InsertStatus::FileClosed);
    rows.note(queue.reuse(rt, one, ZERO).is_ok());
    rows.note(insert(rt, queue, one, ZERO, 0).is_some());
    rows.note(
        remove_and_return(rt, queue, one, two, Between::Cancel, first) == Returned::Cancelled,
    );
    rows.note(queue.status(two, ZERO) == Ok((Life(6), Some(NtStatus::CANCELLED))));
    rows.note(insert(rt, queue, one, THREE, 1).is_some());
    let closes = Between::Close(FileId(1));
    rows.note(remove_and_return(rt, queue, one, two, closes, first) == refused);
    rows.note(queue.status(two, THREE) == Ok((FIRST, Some(NtStatus::SUCCESS))));
    rows.note(remove_and_return(rt, queue, one, two, Between::Nothing, first) == Returned::Nothing);
}

/// Makes the calls with a queue and its two passes, and closes it.
fn begin_and_end<L: PendingList + Drop, N: QueueName, A: Allocator, R: Wait + Abort>(
    rt: &R,
    blank: Blank<L, A>,
    rows: &mut Rows,
)
    requires { blank ≡ record { table = N.table; limits = N.limits } }
{
    let (queue, mut rack) = blank.into_queue::<N>();
    let mut one = take(rt, &mut rack);
    let mut two = take(rt, &mut rack);
    return_and_find(rt, &queue, &mut one, &mut two, rows);
    return_too_late(rt, &queue, &mut one, &mut two, rows);
    give_back(rt, &queue, two);
    match queue.close(one, rack) {
        Ok(rest) => rows.note(rest.next_listed(None).is_none()),
        Err(_) => panic!(rt; "not closed"),
    }
}

/// Makes a queue over this list.
fn run<L: PendingList + Drop, A: Allocator + Copy, R: Wait + Abort>(rt: &R, alloc: A, list: L) {
    let mut rows = Rows::new();
    begin_and_end::<L, Brand, _, R>(rt, blank(rt, alloc, list, 2), &mut rows);
    rows.judge(rt);
}

#[test]
fn what_was_removed_is_put_back(rt: HostRuntime) {
    run(&rt, rt.alloc(), vector(&rt, rt.alloc()));
    run(&rt, rt.alloc(), chains(&rt, rt.alloc()));
}
