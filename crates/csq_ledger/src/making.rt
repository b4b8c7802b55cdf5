//! How a ledger is made.
ghost use Rattle.std.specs.Prelude.{◌≡◌, ◌↔◌, Err, IfOk, IsTrue, replicate};
ghost use Rattle.irp_core.specs.Runs.{IsInLargeLimits};
ghost use Rattle.request_table.specs.Requests.{IsTableSize};
ghost use Rattle.csq_list.specs.Listing.{IsLargeListSize, are_file_limits};
ghost use Rattle.csq_checked.specs.Sizes.{limits_given, size_in};
ghost use Rattle.csq_ledger.specs.Fresh.{IsFreshLedger, IsNewOfOne, with_one_pass};

use crate::ledger::Ledger;
use crate::single::SinglePassQueue;
use csq_checked::{CheckedQueue, QueueSize};
use irp_core::SizeRefused;
use request_table::RequestTable;
use std::alloc::Global;

impl Ledger {
    /// A ledger over a new queue of this size, whose number of passes isn't looked at, and whose file objects
    /// have no limit of their own. All memory is taken here. `BadSize` comes if a number is out of its range.
    pub fn new(alloc: Global, size: QueueSize) -> Result<Ledger, SizeRefused>
        ensures made { IfOk result (IsFreshLedger size
            (limits_given (with_one_pass size) (replicate size.files size.irps))) }
        ensures bad_size { (result ≡ Err SizeRefused.BadSize)
            ↔ ¬ (IsInLargeLimits (size_in (with_one_pass size))
            × IsLargeListSize size.irps size.files size.limit) }
    {
        match CheckedQueue::new(alloc, one_pass(size)) {
            Ok(queue) => Ledger::over(alloc, size, queue),
            Err(cause) => Err(cause),
        }
    }

    /// The same, each file object with a limit of its own. `BadSize` comes also if the limits aren't one for
    /// each file object, each 1 to `irps`.
    pub fn with_file_limits(
        alloc: Global,
        size: QueueSize,
        file_limits: &[u32],
    ) -> Result<Ledger, SizeRefused>
        ensures made { IfOk result (IsFreshLedger size
            (limits_given (with_one_pass size) file_limits.now)) }
        ensures bad_size { (result ≡ Err SizeRefused.BadSize)
            ↔ ¬ (IsInLargeLimits (size_in (with_one_pass size))
            × IsLargeListSize size.irps size.files size.limit
            × IsTrue (are_file_limits size.irps size.files file_limits.now)) }
    {
        match CheckedQueue::with_file_limits(alloc, one_pass(size), file_limits) {
            Ok(queue) => Ledger::over(alloc, size, queue),
            Err(cause) => Err(cause),
        }
    }

    /// A ledger over this new queue.
    fn over(alloc: Global, size: QueueSize, queue: CheckedQueue) -> Result<Ledger, SizeRefused>
        requires new { IsNewOfOne size queue }
        ensures made { IfOk result (IsFreshLedger size queue.queue.limits) }
        ensures bad_size { result ≡ Err SizeRefused.BadSize
            → ¬ IsTableSize size.irps size.files }
    {
        let queue = SinglePassQueue::over(alloc, size, queue)?;
        let table = RequestTable::new(alloc, size.irps, size.files)?;
        Ok(Ledger { queue, table })
    }
}

/// The same size with one pass.
fn one_pass(size: QueueSize) -> QueueSize
    ensures { result ≡ with_one_pass size }
{
    QueueSize { passes: 1, ..size }
}
