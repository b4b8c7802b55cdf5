//! Passes that are out keep a queue open, and those that hold or owe IRPs aren't given back. Those that were given back
//! don't keep it open, with their receipts or without.
ghost use Rattle.std.specs.Prelude.{◌≡◌};
ghost use Rattle.csq_queue.specs.Owned.{HoldsRemoved, Owes};

use super::queues::{
    FIRST, ONE, ZERO, blank, chains, close_refused, give_back, insert, take, vector,
};
use csq_list::{Peek, PendingList};
use csq_queue::{
    Back, Blank, Claim, CloseCause, CloseRefused, Csq, Pass, PassRack, QueueName, Rest, Token,
};
use irp_core::{FinalStatus, NtStatus};
use std::alloc::Allocator;
use std::marker::Brand;
use std::process::Abort;
use std::sync::Wait;

/// What a pass removed and has yet to complete, and what it claimed and has yet to take out.
struct Busy<N: QueueName> {
    pass: Pass<N>,
    token: Token<N>,
    claim: Claim<N>,
    ghost holds: { HoldsRemoved N.limits.irps pass token },
    ghost owes: { Owes pass claim },
}

/// Removes the first IRP.
fn remove<L: PendingList + Drop, N: QueueName, A: Allocator, R: Wait + Abort>(
    rt: &R,
    queue: &Csq<L, N, A>,
    pass: &mut Pass<N>,
) -> Token<N>
    ensures { HoldsRemoved N.limits.irps pass.new result }
{
    match queue.remove_next(rt, pass, Peek::Any) {
        Some(token) => token,
        None => panic!(rt; "none is listed"),
    }
}

/// Claims another, beside the one that is held.
fn claim<L: PendingList + Drop, N: QueueName, A: Allocator, R: Wait + Abort>(
    rt: &R,
    queue: &Csq<L, N, A>,
    mut pass: Pass<N>,
    token: Token<N>,
) -> Busy<N>
    requires { HoldsRemoved N.limits.irps pass token }
{
    match queue.mark_cancel(&mut pass, ONE, FIRST) {
        Ok(Some(claim)) => Busy { pass, token, claim },
        Ok(None) => panic!(rt; "no claim"),
        Err(_) => panic!(rt; "refused"),
    }
}

/// Gives a busy pass back, which is refused.
fn give_busy_back<L: PendingList + Drop, N: QueueName, A: Allocator, R: Wait + Abort>(
    rt: &R,
    queue: &Csq<L, N, A>,
    busy: Busy<N>,
) -> Busy<N> {
    let Busy { pass, token, claim } = busy;
    let Err(refused) = queue.give_back(rt, pass) else {
        panic!(rt; "given back");
    };
    assert!(rt; refused.tokens == 1 && refused.claims == 1 && refused.number() == 1);
    let pass = refused.pass;
    Busy { pass, token, claim }
}

/// Completes what a busy pass holds, and what it owes.
fn settle<L: PendingList + Drop, N: QueueName, A: Allocator, R: Wait + Abort>(
    rt: &R,
    queue: &Csq<L, N, A>,
    busy: Busy<N>,
) -> Pass<N> {
    let Busy {
        mut pass,
        token,
        claim,
    } = busy;
    queue.complete(&mut pass, token, FinalStatus::success());
    let token = queue.cancel_routine(rt, &mut pass, claim);
    queue.complete_cancelled(&mut pass, token);
    pass
}

/// A queue with the pass that is to close it, and its rack.
#[derive(Drop)]
struct Closing<L: PendingList + Drop, N: QueueName> {
    queue: Csq<L, N>,
    pass: Pass<N>,
    rack: PassRack<N>,
}

/// Closes a queue, which is refused for this cause.
fn refuse<L: PendingList + Drop, N: QueueName, R: Abort>(
    rt: &R,
    closing: Closing<L, N>,
    cause: CloseCause,
) -> Closing<L, N> {
    let Closing { queue, pass, rack } = closing;
    let (queue, pass, rack) = close_refused(rt, queue, pass, rack, cause);
    Closing { queue, pass, rack }
}

/// Closes a queue with the receipt of the third pass while the second is out, which is refused.
fn refuse_with<L: PendingList + Drop, N: QueueName, R: Abort>(
    rt: &R,
    closing: Closing<L, N>,
    receipts: &mut [Back<N>],
) -> Closing<L, N> {
    let Closing { queue, pass, rack } = closing;
    let refused = match queue.close_with(pass, rack, receipts) {
        Err(refused) => refused,
        Ok(_) => panic!(rt; "closed"),
    };
    assert!(rt; refused.cause == CloseCause::PassesOut(1));
    let CloseRefused {
        cause: _,
        queue,
        pass,
        rack,
    } = refused;
    Closing { queue, pass, rack }
}

/// Closes a queue with a busy pass, which is refused.
fn close_busy<L: PendingList + Drop, N: QueueName, R: Abort>(
    rt: &R,
    queue: Csq<L, N>,
    busy: Busy<N>,
    rack: PassRack<N>,
) -> (Csq<L, N>, Busy<N>, PassRack<N>) {
    let Busy { pass, token, claim } = busy;
    let cause = CloseCause::Holding(1, 1);
    let (queue, pass, rack) = close_refused(rt, queue, pass, rack, cause);
    (queue, Busy { pass, token, claim }, rack)
}

/// A pass that holds and owes an IRP is neither given back nor closes its queue, until it has completed both.
fn keep_busy<L: PendingList + Drop, N: QueueName, R: Wait + Abort>(
    rt: &R,
    closing: Closing<L, N>,
    mut two: Pass<N>,
) -> (Closing<L, N>, Pass<N>) {
    let Closing { queue, pass, rack } = closing;
    let token = remove(rt, &queue, &mut two);
    let busy = claim(rt, &queue, two, token);
    let busy = give_busy_back(rt, &queue, busy);
    let (queue, busy, rack) = close_busy(rt, queue, busy, rack);
    let two = settle(rt, &queue, busy);
    (Closing { queue, pass, rack }, two)
}

/// Gives a pass back that holds and owes nothing, for its receipt.
fn receipt<L: PendingList + Drop, N: QueueName, A: Allocator, R: Wait + Abort>(
    rt: &R,
    queue: &Csq<L, N, A>,
    pass: Pass<N>,
) -> Back<N> {
    match queue.give_back(rt, pass) {
        Ok(back) => back,
        Err(_) => panic!(rt; "not given back"),
    }
}

/// One IRP was removed, and the other one cancelled.
fn check_rest<L: PendingList + Drop, A: Allocator, R: Abort>(rt: &R, rest: &Rest<L, A>) {
    assert!(rt; rest.next_listed(None).is_none());
    assert!(rt; rest.status(ZERO) == Some(NtStatus::SUCCESS));
    assert!(rt; rest.status(ONE) == Some(NtStatus::CANCELLED));
}

/// Lets a pass learn what a pass that is back had seen.
fn learn_from<L: PendingList + Drop, N: QueueName>(
    queue: &Csq<L, N>,
    pass: &mut Pass<N>,
    back: &mut Back<N>,
) {
    let seen = queue.seen_by_back(back);
    queue.learn(pass, seen);
}

/// Closes a queue with the receipts of both other passes.
fn close_with_both<L: PendingList + Drop, N: QueueName, R: Wait + Abort>(
    rt: &R,
    closing: Closing<L, N>,
    two: Pass<N>,
    third: Back<N>,
) {
    let Closing {
        queue,
        mut pass,
        rack,
    } = closing;
    let mut second = receipt(rt, &queue, two);
    learn_from(&queue, &mut pass, &mut second);
    let mut receipts = [second, third];
    match queue.close_with(pass, rack, &mut receipts) {
        Ok(rest) => check_rest(rt, &rest),
        Err(_) => panic!(rt; "not closed"),
    }
}

fn insert_two<L: PendingList + Drop, N: QueueName, R: Wait>(
    rt: &R,
    queue: &Csq<L, N>,
    pass: &mut Pass<N>,
) {
    let _ = insert(rt, queue, pass, ZERO, 0);
    let _ = insert(rt, queue, pass, ONE, 0);
}

/// Asks for the close while two passes are out, then one, which is counted, and then none.
fn close_early<L: PendingList + Drop, N: QueueName, R: Wait + Abort>(rt: &R, blank: Blank<L>)
    requires { blank ≡ record { table = N.table; limits = N.limits } }
{
    let (queue, mut rack) = blank.into_queue::<N>();
    let mut pass = take(rt, &mut rack);
    let (two, three) = (take(rt, &mut rack), take(rt, &mut rack));
    insert_two(rt, &queue, &mut pass);
    let closing = Closing { queue, pass, rack };
    let closing = refuse(rt, closing, CloseCause::PassesOut(2));
    let mut receipts = [receipt(rt, &closing.queue, three)];
    let closing = refuse_with(rt, closing, &mut receipts);
    let [third] = receipts;
    let (closing, two) = keep_busy(rt, closing, two);
    close_with_both(rt, closing, two, third);
}

fn close_early_over<L: PendingList + Drop, R: Wait + AllocGlobal + Abort>(rt: &R, list: L) {
    close_early::<L, Brand, R>(rt, blank(rt, rt.alloc(), list, 3));
}

#[test]
fn passes_that_are_out_or_busy_keep_a_queue_open(rt: HostRuntime) {
    close_early_over(&rt, vector(&rt, rt.alloc()));
    close_early_over(&rt, chains(&rt, rt.alloc()));
}

/// Inserts an IRP through a pass, and lets the pass go: it isn't given back.
fn insert_and_let_go<L: PendingList + Drop, N: QueueName, A: Allocator, R: Wait>(
    rt: &R,
    queue: &Csq<L, N, A>,
    mut pass: Pass<N>,
) {
    let _ = insert(rt, queue, &mut pass, ZERO, 0);
}

/// Closes a queue whose second pass was let go, which is refused each time. Then gives the last pass back, and lets the
/// queue go.
fn close_without_a_pass<L: PendingList + Drop, N: QueueName, R: Wait + Abort>(
    rt: &R,
    blank: Blank<L>,
)
    requires { blank ≡ record { table = N.table; limits = N.limits } }
{
    let (queue, mut rack) = blank.into_queue::<N>();
    let pass = take(rt, &mut rack);
    insert_and_let_go(rt, &queue, take(rt, &mut rack));
    let closing = Closing { queue, pass, rack };
    let closing = refuse(rt, closing, CloseCause::PassesOut(1));
    let closing = refuse(rt, closing, CloseCause::PassesOut(1));
    let Closing {
        queue,
        pass,
        rack: _rack,
    } = closing;
    give_back(rt, &queue, pass);
}

fn let_go_over<L: PendingList + Drop, R: Wait + AllocGlobal + Abort>(rt: &R, list: L) {
    close_without_a_pass::<L, Brand, R>(rt, blank(rt, rt.alloc(), list, 3));
}

#[test]
fn a_pass_that_is_let_go_stays_out(rt: HostRuntime) {
    let_go_over(&rt, vector(&rt, rt.alloc()));
    let_go_over(&rt, chains(&rt, rt.alloc()));
}
