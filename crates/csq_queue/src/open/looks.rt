//! What an open queue shows without a pass. No look is noted in the history: it changes nothing, and says
//! what the calls before it left.
ghost use Rattle.std.specs.Prelude.{◌≡◌, ◌↔◌, IsTrue};
ghost use Rattle.csq_list.specs.Searches.{IsStartIn, is_distinct};
ghost use Rattle.csq_queue.specs.Looks.{PeeksNext, listed_count, listed_for, present_listing};

use crate::open::OpenQueue;
use crate::refusals::NotListed;
use csq_list::{Peek, PendingList};
use irp_core::{FileId, IrpId, IrpLife};
use std::alloc::Allocator;

impl<L: PendingList + Drop, A: Allocator> OpenQueue<L, A> {
    /// How many IRPs are listed, each once. An IRP whose canceller has taken the cancel routine is listed
    /// until that canceller takes it out. Own rule.
    pub fn len(&self) -> u32
        ensures count { result ≡ listed_count self.now }
        ensures each_once { IsTrue (is_distinct (present_listing self.now).entries) }
    {
        self.list.len()
    }

    /// How many IRPs are listed for a file object, those among them that a canceller has. None exactly for
    /// an unknown file object. Own rule.
    pub fn file_len(&self, file: FileId) -> Option<u32>
        ensures { result ≡ listed_for self.now file }
    {
        if file.0 >= self.list.files() {
            return None;
        }
        Some(self.list.file_len(file))
    }

    /// The first match after a listed IRP, or from the first listed one on, in its present life, as
    /// `CsqPeekNextIrp` answers it. It stays listed, and may be one whose canceller has taken the cancel
    /// routine already: no removal gets that one. `NotListed` comes exactly if `after` isn't listed.
    pub fn peek_next(&self, after: Option<IrpId>, peek: Peek) -> Result<Option<IrpLife>, NotListed>
        ensures call { PeeksNext after peek result self.now }
    {
        if !is_start(&self.list, after) {
            return Err(NotListed);
        }
        let Some(irp) = self.list.peek_next(after, peek) else {
            return Ok(None);
        };
        Ok(Some(self.kept.present(irp)))
    }
}

/// Whether a look may start after it: from the head on, or after a listed IRP.
fn is_start<L: PendingList>(list: &L, after: Option<IrpId>) -> bool
    ensures { IsTrue result ↔ IsStartIn (L.listing list.now).entries after }
{
    match after {
        None => true,
        Some(irp) => list.is_listed(irp),
    }
}
