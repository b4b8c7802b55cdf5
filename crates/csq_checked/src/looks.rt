//! What a queue shows without a pass.
ghost use Rattle.std.specs.Prelude.{◌≡◌, ◌<◌, ◌↔◌, IsTrue, IsSome, IfSome};
ghost use Rattle.csq_list.specs.Searches.{is_distinct};
ghost use Rattle.csq_queue.specs.Looks.{PeeksNext, listed_count, listed_for};
ghost use Rattle.csq_queue.specs.Named.{named};
ghost use Rattle.csq_checked.specs.Calls.{IsPresentIn};
ghost use Rattle.csq_checked.specs.Passes.{listed};

use crate::queue::CheckedQueue;
use csq_list::Peek;
use csq_queue::NotListed;
use irp_core::{FileId, IrpId, IrpLife, Life};

impl CheckedQueue {
    /// How many IRPs are listed, each once, as `OpenQueue::len` counts them.
    pub fn len(&self) -> u32
        ensures count { result ≡ listed_count self.now.queue }
        ensures each_once { IsTrue (is_distinct (listed self.now)) }
    {
        self.queue.len()
    }

    /// How many IRPs are listed for a file object, as `OpenQueue::file_len` counts them. None exactly for an
    /// unknown file object.
    pub fn file_len(&self, file: FileId) -> Option<u32>
        ensures { result ≡ listed_for self.now.queue file }
    {
        self.queue.file_len(file)
    }

    /// The first match after a listed IRP, or from the first listed one on, in its present life, as
    /// `OpenQueue::peek_next` answers it. It may be one whose canceller has taken the cancel routine
    /// already. `NotListed` comes exactly if `after` isn't listed.
    pub fn peek_next(&self, after: Option<IrpId>, peek: Peek) -> Result<Option<IrpLife>, NotListed>
        ensures call { PeeksNext after peek result self.now.queue }
    {
        self.queue.peek_next(after, peek)
    }
    /// The present life of an IRP, as `OpenQueue::life` returns it. None if there is no such IRP.
    pub fn life(&self, irp: IrpId) -> Option<Life>
        ensures known { IsSome result ↔ (irp.0 < self.now.queue.limits.irps) }
        ensures present { IfSome result (λ life. IsPresentIn self.now.queue (named irp life)) }
    {
        self.queue.life(irp)
    }
}
