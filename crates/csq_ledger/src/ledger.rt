//! The ledger: its calls that begin a request, take it out of the list, and put it back.
ghost use Rattle.std.specs.Prelude.{◌≡◌, ◌<◌, IfOk, OnErr, Some, Err};
ghost use Rattle.std.specs.Option.{ForSome};
ghost use Rattle.std.specs.Result.{result_err};
ghost use Rattle.request_table.specs.declared.dues.TheConstants.{NEVER};
ghost use Rattle.request_table.specs.Requests.{stage_of};
ghost use Rattle.csq_ledger.specs.Calls.{Begins, Removes, TakesRequest, drained_by, is_known, taken_by};
ghost use Rattle.csq_ledger.specs.Ledgers.{IsLinked, ListAgrees};

use crate::refusals::{BeginRefused, TakeRefused, by_queue, by_table};
use crate::request::Request;
use crate::single::SinglePassQueue;
use csq_list::{Peek, Place};
use irp_core::{FileId, IrpLife};
use request_table::{RequestTable, Stage, Why};
use std::marker::Model;

/// A queue with the bookkeeping of its requests: which is under way, for which file object, in which stage,
/// and when it is due. A contract sees the queue with its one pass, and the table. Own rule.
#[derive(Drop)]
pub struct Ledger {
    pub(crate) queue: SinglePassQueue,
    pub(crate) table: RequestTable,
}

impl Model for Ledger {
    ghost use Rattle.csq_ledger.specs.Ledgers.{IsLinked, LedgerState};

    ghost Value = { LedgerState };

    ghost view = { λ s. record { single = s.queue; table = s.table } };

    ghost invariant = { λ s. IsLinked s.queue s.table };
}

impl Ledger {
    /// What holds of every ledger: what the table says of each number, and of each file object, is so in the
    /// queue, and a number stands in the list exactly if its stage is Listed, for that file object. Nothing is
    /// run.
    pub fn linked(&self)
        ensures linked { IsLinked self.now.single self.now.table }
        ensures list { ListAgrees self.now }
    {
        self.queue.listed_so();
    }

    /// Lists a new request under the number that has been free longest, for a file object, last or first, due
    /// at this time or never, and returns its name. A refusal is the first cause that holds.
    pub fn begin(
        &mut self,
        file: FileId,
        place: Place,
        due: Option<u64>,
    ) -> Result<IrpLife, BeginRefused>
        requires time { ForSome due (λ time. time < NEVER) }
        ensures { Begins file place due result self.old self.new }
    {
        if let Some(cause) = self.table.refusal_to_begin(file) {
            return Err(by_table(cause));
        }
        let Some(irp) = self.table.next_free() else {
            // A request may begin only if a number is free.
            unreachable!()
        };
        match self.queue.insert(irp, file, place) {
            Ok(name) => {
                self.table.list(file, due);
                Ok(name)
            }
            Err(cause) => Err(by_queue(cause)),
        }
    }

    /// Hands the first listed request that matches to a worker: it is Taken then. A refusal is the first cause
    /// that holds.
    pub fn take(&mut self, peek: Peek) -> Result<Request, TakeRefused>
        ensures { TakesRequest peek taken_by result self.old self.new }
    {
        let request = remove_first(&mut self.queue, &self.table, peek)?;
        self.table.take(request.name.irp);
        Ok(request)
    }

    /// Takes the first listed request that matches out: it is Ending then, for this reason. A refusal is the
    /// first cause that holds.
    pub fn drain_next(&mut self, peek: Peek, why: Why) -> Result<Request, TakeRefused>
        ensures { TakesRequest peek (drained_by why) result self.old self.new }
    {
        let request = remove_first(&mut self.queue, &self.table, peek)?;
        self.table.begin_end(request.name.irp, why);
        Ok(request)
    }
}

/// Removes the first listed request that matches from the queue.
fn remove_first(
    queue: &mut SinglePassQueue,
    table: &RequestTable,
    peek: Peek,
) -> Result<Request, TakeRefused>
    requires { IsLinked queue.old table.now }
    ensures { Removes peek result queue.old table.now queue.new }
{
    if !is_known(table, peek) {
        return Err(TakeRefused::UnknownFile);
    }
    let Some(name) = queue.take(peek) else {
        return Err(TakeRefused::NoneListed);
    };
    let Stage::Listed { file } = table.stage(name.irp) else {
        // What is in the queue is Listed.
        unreachable!()
    };
    Ok(Request { name, file })
}

/// Whether a peek is for any file object, or for one that there is.
fn is_known(table: &RequestTable, peek: Peek) -> bool
    ensures { result ≡ is_known table.now peek }
{
    match peek {
        Peek::Any => true,
        Peek::File(file) => file.0 < table.files(),
    }
}
