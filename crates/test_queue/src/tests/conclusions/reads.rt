//! Two reads, one after the other, and calls that go on from one another.
ghost use Rattle.csq_words.specs.History.{IsExtendedBy};
ghost use Rattle.std.specs.Prelude.{◌≡◌, is_some, IfOk};
ghost use Rattle.test_queue.specs.Conclusions.{StaysSet};

use csq_list::{Peek, PendingList};
use csq_queue::{Csq, Pass, QueueName, UnknownIrp};
use irp_core::{FinalStatus, IrpId, Life, NtStatus};
use std::alloc::Allocator;
use std::sync::Wait;

/// Two reads of a Cancel flag.
pub type Flags = (
    Result<(Life, bool), UnknownIrp>,
    Result<(Life, bool), UnknownIrp>,
);

/// Reads a Cancel flag twice. A flag that is set stays set in its life.
pub(crate) fn read_flags<L: PendingList + Drop, N: QueueName, A: Allocator>(
    queue: &Csq<L, N, A>,
    pass: &mut Pass<N>,
    irp: IrpId,
) -> Flags
    ensures stays { IfOk result.0 (λ earlier. IfOk result.1 (λ later. StaysSet earlier later)) }
{
    let earlier = queue.is_cancelled(pass, irp);
    (earlier, queue.is_cancelled(pass, irp))
}

/// Two reads of a status.
pub type Statuses = (
    Result<(Life, Option<NtStatus>), UnknownIrp>,
    Result<(Life, Option<NtStatus>), UnknownIrp>,
);

/// Reads a status twice. A status that is set stays set in its life.
pub(crate) fn read_statuses<L: PendingList + Drop, N: QueueName, A: Allocator>(
    queue: &Csq<L, N, A>,
    pass: &mut Pass<N>,
    irp: IrpId,
) -> Statuses
    ensures stays { IfOk result.0
        (λ earlier. IfOk result.1 (λ later. StaysSet (earlier.0, is_some earlier.1)
        (later.0, is_some later.1))) }
{
    let earlier = queue.status(pass, irp);
    (earlier, queue.status(pass, irp))
}

/// Takes the next IRP, completes it and reads its status. What the pass has then seen of the execution goes
/// on from what it had seen.
pub(crate) fn serve_next<L: PendingList + Drop, N: QueueName, A: Allocator>(
    queue: &Csq<L, N, A>,
    rt: &impl Wait,
    pass: &mut Pass<N>,
    status: FinalStatus,
) -> Option<IrpId>
    ensures follows { IsExtendedBy pass.old.trace pass.new.trace }
{
    let token = queue.remove_next(rt, pass, Peek::Any)?;
    let irp = token.irp();
    queue.complete(pass, token, status);
    let _ = queue.status(pass, irp);
    Some(irp)
}
