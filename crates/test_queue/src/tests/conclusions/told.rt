//! Callers that were told of each other's calls, each in a thread of its own: one hands on what its pass had seen,
//! and the other's pass learns it.
ghost use Rattle.csq_words.specs.Traces.{steps_in, entries_in, StandInOrder};
ghost use Rattle.std.specs.Prelude.{◌≡◌, Ok, None, Bool, true, IfOk, IfSome};
ghost use Rattle.irp_core.specs.declared.ids.IrpLife.{IrpLife};
ghost use Rattle.irp_core.specs.Owners.{taken, listed};
ghost use Rattle.irp_core.specs.Words.{flagged, was_armed};
ghost use Rattle.csq_queue.specs.Inserts.{given_by};
ghost use Rattle.csq_words.specs.History.{IsExtendedBy, calls_of};
ghost use Rattle.csq_queue.specs.Named.{named};
ghost use Rattle.csq_queue.specs.Order.{LockedCall, ComesBefore};
ghost use Rattle.csq_queue.specs.Owned.{Holds, HoldsRemoved};
ghost use Rattle.csq_queue.specs.declared.tokens.InsertAnswer.TheVariants.{Pending};

use csq_list::{InsertStatus, Peek, PendingList, Place};
use csq_queue::{CancelRefused, Csq, Inserted, Pass, QueueName, Seen, Token};
use irp_core::{FileId, IrpId, Life};
use std::alloc::Allocator;
use std::sync::Wait;

/// Cancels an IRP, and returns what the canceller has seen then, to be handed to whoever is told of the cancel:
/// the IRP is flagged in it.
pub(crate) fn cancel_and_tell<L: PendingList + Drop, N: QueueName, A: Allocator>(
    queue: &Csq<L, N, A>,
    rt: &impl Wait,
    canceller: &mut Pass<N>,
    irp: IrpId,
    life: Life,
) -> (Result<bool, CancelRefused>, Seen<N>)
    ensures flagged { (done : Bool) → result.0 ≡ Ok done
        → flagged (steps_in result.1.trace) (named irp life) ≡ true }
{
    let done = queue.cancel(rt, canceller, irp, life);
    let seen = queue.seen(canceller);
    (done, seen)
}

/// Lets a pass learn what another had seen. Both had seen a beginning of the history that it has seen then, which is
/// that of the execution.
pub(crate) fn learn_order<L: PendingList + Drop, N: QueueName, A: Allocator>(
    queue: &Csq<L, N, A>,
    pass: &mut Pass<N>,
    seen: Seen<N>,
)
    ensures own { IsExtendedBy pass.old.seen pass.new.seen }
    ensures told { IsExtendedBy seen.history pass.new.seen }
    ensures calls { pass.new.mine ≡ calls_of pass.new.pass pass.new.seen }
    ensures order { StandInOrder N.limits.first pass.new.trace × (entries_in pass.new.trace ≡ pass.new.seen) }
{
    queue.learn(pass, seen);
}

/// Inserts an IRP after what this caller was told of. If the IRP was flagged in what was seen then, and the
/// insert leaves it pending, some canceller has its routine.
pub(crate) fn insert_told<L: PendingList + Drop, N: QueueName, A: Allocator>(
    queue: &Csq<L, N, A>,
    rt: &impl Wait,
    inserter: &mut Pass<N>,
    seen: Seen<N>,
    irp: IrpId,
    file: FileId,
    place: Place,
) -> Result<Inserted<N>, InsertStatus>
    ensures token { IfOk result
        (λ inserted. IfSome (given_by inserted) (Holds N.limits.irps inserter.new)) }
    ensures claimed { (i : IrpLife) → result ≡ Ok (Pending i) → flagged (steps_in seen.trace) i ≡ true
        → taken (steps_in inserter.new.trace) i ≡ true }
{
    queue.learn(inserter, seen);
    queue.insert(rt, inserter, irp, file, place)
}

/// Removes the next IRP after what this caller was told of: the removal comes after each call that had been seen
/// then. If it returns none, each IRP whose insert had been seen then has left the list, or some canceller has
/// its routine.
pub(crate) fn remove_told<L: PendingList + Drop, N: QueueName, A: Allocator>(
    queue: &Csq<L, N, A>,
    rt: &impl Wait,
    remover: &mut Pass<N>,
    seen: Seen<N>,
) -> Option<Token<N>>
    ensures token { IfSome result (HoldsRemoved N.limits.irps remover.new) }
    ensures after { (d : LockedCall N.limits) × (d.new ≡ remover.new)
        × ((c : LockedCall N.limits) → IsExtendedBy c.new.seen seen.history → ComesBefore c d) }
    ensures gone { result ≡ None → (i : IrpLife) → was_armed (steps_in seen.trace) i ≡ true
        → (was_armed (steps_in remover.new.trace) i ≡ true)
        × (listed (steps_in remover.new.trace) i ≡ true → taken (steps_in remover.new.trace) i ≡ true) }
{
    queue.learn(remover, seen);
    queue.remove_next(rt, remover, Peek::Any)
}
