//! Two passes that have met.
ghost use Rattle.std.specs.Prelude.{◌≡◌, ◌≢◌, true, false};
ghost use Rattle.irp_core.specs.declared.ids.IrpLife.{IrpLife};
ghost use Rattle.test_queue.specs.Conclusions.{has};

use csq_list::PendingList;
use csq_queue::{Csq, Pass, QueueName};
use std::alloc::Allocator;
use std::sync::Wait;

/// Lets two passes meet. What one of them owes or holds then, the other neither owes nor holds.
pub(crate) fn meet<L: PendingList + Drop, N: QueueName, A: Allocator>(
    queue: &Csq<L, N, A>,
    rt: &impl Wait,
    one: &mut Pass<N>,
    other: &mut Pass<N>,
)
    requires apart { one.old.pass ≢ other.old.pass }
    ensures owner { (i : IrpLife) → has one.new i ≡ true → has other.new i ≡ false }
{
    queue.meet(rt, one, other);
}
