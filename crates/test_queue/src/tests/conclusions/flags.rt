//! A cancel that came before its insert, or before a put-back.
ghost use Rattle.csq_words.specs.Traces.{steps_in};
ghost use Rattle.std.specs.Prelude.{◌≡◌, Ok, true, IfOk, IfErr, IfSome};
ghost use Rattle.irp_core.specs.declared.ids.IrpLife.{IrpLife};
ghost use Rattle.irp_core.specs.Owners.{taken};
ghost use Rattle.irp_core.specs.Words.{flagged};
ghost use Rattle.csq_queue.specs.Inserts.{given_by};
ghost use Rattle.csq_queue.specs.Owned.{Holds, HoldsRemoved};
ghost use Rattle.csq_queue.specs.declared.tokens.InsertAnswer.TheVariants.{Pending};

use csq_list::{InsertStatus, PendingList, Place};
use csq_queue::{Csq, Inserted, Pass, QueueName, Token};
use irp_core::{FileId, IrpId};
use std::alloc::Allocator;
use std::sync::Wait;

/// Lets a canceller and an inserter meet, and inserts an IRP then. If the canceller had flagged the IRP
/// and the insert leaves it pending, some canceller has its routine: it isn't listed with nobody in charge.
pub(crate) fn insert_after_flag<L: PendingList + Drop, N: QueueName, A: Allocator>(
    queue: &Csq<L, N, A>,
    rt: &impl Wait,
    canceller: &mut Pass<N>,
    inserter: &mut Pass<N>,
    irp: IrpId,
    file: FileId,
    place: Place,
) -> Result<Inserted<N>, InsertStatus>
    ensures token { IfOk result
        (λ inserted. IfSome (given_by inserted) (Holds N.limits.irps inserter.new)) }
    ensures claimed { (i : IrpLife) → result ≡ Ok (Pending i) → flagged canceller.old.steps i ≡ true
        → taken (steps_in inserter.new.trace) i ≡ true }
{
    queue.meet(rt, canceller, inserter);
    queue.insert(rt, inserter, irp, file, place)
}

/// Lets a canceller and a worker meet, and then puts an IRP back that the worker removed. If the canceller had
/// flagged the IRP and the put-back leaves it pending, some canceller has its routine: no cancel is lost.
pub(crate) fn put_back_after_flag<L: PendingList + Drop, N: QueueName, A: Allocator>(
    queue: &Csq<L, N, A>,
    rt: &impl Wait,
    canceller: &mut Pass<N>,
    worker: &mut Pass<N>,
    token: Token<N>,
    place: Place,
) -> Result<Inserted<N>, (InsertStatus, Token<N>)>
    requires held { HoldsRemoved N.limits.irps worker.old token }
    ensures token { IfOk result
        (λ answer. IfSome (given_by answer) (Holds N.limits.irps worker.new)) }
    ensures kept { IfErr result (λ refused. HoldsRemoved N.limits.irps worker.new refused.1) }
    ensures claimed { (i : IrpLife) → result ≡ Ok (Pending i) → flagged canceller.old.steps i ≡ true
        → taken (steps_in worker.new.trace) i ≡ true }
{
    queue.meet(rt, canceller, worker);
    queue.put_back(rt, worker, token, place)
}
