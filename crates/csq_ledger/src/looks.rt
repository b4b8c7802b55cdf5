//! How a ledger is closed, and what it shows.
ghost use Rattle.std.specs.Prelude.{◌≡◌, ◌==◌, IfNone, IfSome, true};
ghost use Rattle.request_table.specs.Requests.{under_way_of_all};
ghost use Rattle.request_table.specs.Times.{IsNextDue, NoneIsDue};
ghost use Rattle.csq_queue.specs.Looks.{listed_count};
ghost use Rattle.csq_ledger.specs.Calls.{ClosesFile, counts_for};

use crate::ledger::Ledger;
use csq_list::UnknownFile;
use irp_core::FileId;

/// How many requests are listed, and how many are under way, those among them. Own rule.
#[derive(Clone, Copy, Debug, PartialEq, Eq)]
pub struct Counts {
    pub listed: u32,
    pub under_way: u32,
}

impl Ledger {
    /// Refuses each further `begin` as Closed. A closed ledger may be closed again.
    pub fn close(&mut self)
        ensures { self.new ≡ record self.old { table = record self.old.table { closed = true } } }
    {
        self.table.close();
    }

    /// Closes a file object for good: no further request begins for it, and none is listed again.
    pub fn close_file(&mut self, file: FileId) -> Result<(), UnknownFile>
        ensures { ClosesFile file result self.old self.new }
    {
        match self.queue.close_file(file) {
            Ok(()) => {
                self.table.close_file(file);
                Ok(())
            }
            Err(cause) => Err(cause),
        }
    }

    /// How many requests are listed for a file object, and under way. None exactly if there is no such one.
    pub fn len(&self, file: FileId) -> Option<Counts>
        ensures { result ≡ counts_for self.now file }
    {
        let listed = self.queue.file_len(file)?;
        let under_way = self.table.len(file);
        Some(Counts { listed, under_way })
    }

    /// How many requests are listed for all file objects, and under way.
    pub fn len_of_all(&self) -> Counts
        ensures listed { result.listed ≡ listed_count self.now.single.queue.queue }
        ensures under_way { result.under_way ≡ under_way_of_all self.now.table }
    {
        Counts {
            listed: self.queue.len(),
            under_way: self.table.len_of_all(),
        }
    }

    /// Whether no request is under way.
    pub fn is_quiet(&self) -> bool
        ensures { result ≡ (under_way_of_all self.now.table == 0) }
    {
        self.table.len_of_all() == 0
    }

    /// The least time at which a request is due. None if none is due.
    pub fn next_due(&self) -> Option<u64>
        ensures some { IfSome result (IsNextDue self.now.table.dues) }
        ensures none { IfNone result (NoneIsDue self.now.table.dues) }
    {
        self.table.next_due()
    }
}
