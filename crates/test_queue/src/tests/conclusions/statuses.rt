//! A reuse of an IRP that is known to be completed.
ghost use Rattle.std.specs.Prelude.{◌≡◌, Some, Ok};
ghost use Rattle.irp_core.specs.declared.ids.IrpLife.{IrpLife};
ghost use Rattle.irp_core.specs.declared.ids.Life.{Life as LifeNumber};
ghost use Rattle.irp_core.specs.declared.status.NtStatus.{NtStatus as Status};
ghost use Rattle.csq_queue.specs.Named.{named};
ghost use Rattle.csq_queue.specs.Owned.{HoldsRemoved};
ghost use Rattle.test_queue.specs.Conclusions.{IsLater};

use csq_list::PendingList;
use csq_queue::{Csq, Pass, QueueName, ReuseRefused, Token, UnknownIrp};
use irp_core::{FinalStatus, IrpId, Life, NtStatus};
use std::alloc::Allocator;
use std::sync::Wait;

/// What `read_and_reuse` read, and what its reuse returned.
pub type ReadAndReuse = (
    Result<(Life, Option<NtStatus>), UnknownIrp>,
    Result<Life, ReuseRefused>,
);

/// Reads a status, and reuses the IRP. If the status was set, `NotCompleted` is of a later life.
pub(crate) fn read_and_reuse<L: PendingList + Drop, N: QueueName, A: Allocator>(
    queue: &Csq<L, N, A>,
    rt: &impl Wait,
    pass: &mut Pass<N>,
    irp: IrpId,
) -> ReadAndReuse
    ensures later { (life : LifeNumber) (status : Status) → result.0 ≡ Ok (life, Some status)
        → IsLater N.limits.first (named irp life) pass.new result.1 }
{
    let read = queue.status(pass, irp);
    (read, queue.reuse(rt, pass, irp))
}

/// Completes a removed IRP by one pass, lets it meet another, and reuses the IRP by that one. `NotCompleted`
/// is of a later life.
pub(crate) fn complete_and_reuse<L: PendingList + Drop, N: QueueName, A: Allocator>(
    queue: &Csq<L, N, A>,
    rt: &impl Wait,
    one: &mut Pass<N>,
    other: &mut Pass<N>,
    token: Token<N>,
    status: FinalStatus,
) -> Result<Life, ReuseRefused>
    requires token { HoldsRemoved N.limits.irps one.old token }
    ensures later { IsLater N.limits.first token other.new result }
{
    let irp = token.irp();
    queue.complete(one, token, status);
    queue.meet(rt, one, other);
    queue.reuse(rt, other, irp)
}
