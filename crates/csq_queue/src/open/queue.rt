//! A queue without a lock and without a name: whoever has it makes one call at a time of those that take
//! it. Its words are shared by its passes, which cancel and complete without it.
ghost use Rattle.std.specs.Prelude.{◌≡◌, ◌+◌, ◌-◌, ◌<◌, ◌≤◌, ◌↔◌, false, Err, OnOk, OnErr, IfSome, IsSome};
ghost use Rattle.irp_core.specs.declared.ids.IrpId.{IrpId as IrpNumber};
ghost use Rattle.irp_core.specs.Steps.{own};
ghost use Rattle.csq_words.specs.Finals.{AllBack, IsFinal, IsLeft, KeepsRecords};
ghost use Rattle.csq_words.specs.History.{IsLegal, IsExtendedBy, calls_of, end_of};
ghost use Rattle.csq_words.specs.Queue.{present_in, plain_listing};
ghost use Rattle.csq_words.specs.Records.{caught_up, entered, queue_of, with_trace, with_back, with_shown};
ghost use Rattle.irp_core.specs.declared.inside.Inside.TheVariants as inner;
ghost use Rattle.csq_words.specs.Traces.{steps_in, entries_in, IsTrace};
ghost use Rattle.csq_words.specs.Rule.{IsHistoryOf, QueueAndPassHaveRun};
ghost use Rattle.csq_words.specs.Seats.{pass_at, pass_record, IsHere};
ghost use Rattle.csq_queue.specs.Calls.{Inserts, PutsBack, RemovesNext, RemovesOne, RunsRoutine, ClosesFile, Reuses};
ghost use Rattle.csq_queue.specs.Named.{named, queue_size, out_count};
ghost use Rattle.csq_queue.specs.Opens.{IsQueueOn, IsPassOn, IsRackOn, after_call};
ghost use Rattle.csq_queue.specs.Owned.{HoldsRemoved, Owes};
ghost use Rattle.csq_queue.specs.Rests.{HoldsNothing, FirstAreBack, GivenBack, IsClosed};
ghost use Rattle.csq_queue.specs.Effects.{SeesRun, count_given};
ghost use Rattle.csq_queue.specs.Inserts.{given_in, count_spent};

use crate::irp_table::IrpTable;
use crate::open::{OpenInserted, OpenPass, OpenRack};
use crate::protocol::{leave, list_irp, relist_irp, renew_irp, take_match, take_one, take_owed};
use crate::refusals::ReuseRefused;
use crate::rest::Rest;
use crate::tokens::InsertAnswer;
use csq_list::{InsertStatus, Peek, PendingList, Place, UnknownFile};
use csq_words::{Call, Note, QueueSeat, Receipt, Words};
use irp_core::{FileId, IrpId, IrpLife, Life};
use std::alloc::{Allocator, Global};
use std::marker::Model;

/// A queue without a lock. A contract sees the table of its words, the limits of its list, and what its
/// seat knows. Own rule.
#[derive(Drop)]
pub struct OpenQueue<L: PendingList + Drop, A: Allocator = Global> {
    pub(crate) list: L,
    pub(crate) seat: QueueSeat,
    // The present life and the file object of each IRP.
    pub(crate) kept: IrpTable<A>,
    // Which passes are back.
    pub(crate) back: Vec<bool, A>,
}

impl<L: PendingList + Drop, A: Allocator> Model for OpenQueue<L, A> {
    ghost use Rattle.std.specs.Prelude.{length};
    ghost use Rattle.csq_words.specs.Queue.{limits_of};
    ghost use Rattle.csq_queue.specs.Opens.{OpenState};
    ghost use Rattle.csq_queue.specs.Named.{IsLockedOf};

    ghost Value = { OpenState };

    ghost view = { λ q. record {
      table = q.seat.table;
      limits
          = limits_of (length q.back.items) q.seat.queue.first (L.listing q.list);
      queue
          = q.seat.queue;
    } };

    ghost invariant = { λ q. IsLockedOf q.seat.table
        (limits_of (length q.back.items) q.seat.queue.first (L.listing q.list)) (L.listing q.list)
        q.kept q.seat q.back.items };
}

impl<L: PendingList + Drop, A: Allocator> OpenQueue<L, A> {
    /// Inserts an IRP for a file object, last or first, or returns the first cause why not, as `Csq::insert`
    /// does.
    #[tactic(auto, using(crate::proofs::Spending::cancelled_holds))]
    pub fn insert(
        &mut self,
        words: &Words<A>,
        pass: &mut OpenPass,
        irp: IrpId,
        file: FileId,
        place: Place,
    ) -> Result<OpenInserted, InsertStatus>
        requires queue { IsQueueOn words.now self.old }
        requires pass { IsPassOn words.now pass.old }
        ensures call { Inserts irp file place result self.old.limits self.old.queue.history
            pass.old.pass pass.new.pass }
        ensures seen { self.new ≡ after_call pass.new.pass self.old }
        ensures place { pass.new ≡ record pass.old { pass = pass.new.pass } }
    {
        self.seat.enter(words, &mut pass.seat);
        let inserted = list_irp::<L, A>(
            &mut self.list,
            &mut self.seat,
            &mut self.kept,
            words,
            irp,
            file,
            place,
        );
        let cancelled = count_cancelled(&inserted);
        // Mostly there is none. Then the count isn't read and written between the last atomic step and the one that
        // frees the lock, which would wait for that.
        if cancelled > 0 {
            pass.tokens += cancelled;
        }
        leave(&mut self.seat, words, &mut pass.seat);
        inserted
    }

    /// Puts an IRP back that the pass got by a removal, last or first, or returns the first cause why not, as
    /// `Csq::put_back` does.
    pub fn put_back(
        &mut self,
        words: &Words<A>,
        pass: &mut OpenPass,
        irp: IrpLife,
        place: Place,
    ) -> Result<OpenInserted, InsertStatus>
        requires queue { IsQueueOn words.now self.old }
        requires pass { IsPassOn words.now pass.old }
        requires held { HoldsRemoved self.old.limits.irps pass.old.pass irp }
        ensures call { PutsBack irp place result self.old.limits self.old.queue.history
            pass.old.pass pass.new.pass }
        ensures seen { self.new ≡ after_call pass.new.pass self.old }
        ensures place { pass.new ≡ record pass.old { pass = pass.new.pass } }
    {
        self.seat.enter(words, &mut pass.seat);
        let back = relist_irp::<L, A>(
            &mut self.list,
            &mut self.seat,
            &self.kept,
            words,
            irp,
            place,
        );
        pass.tokens -= count_spent(&back);
        leave(&mut self.seat, words, &mut pass.seat);
        back
    }

    /// Removes the first match that no canceller has, as `Csq::remove_next` does. The pass holds it then.
    pub fn remove_next(
        &mut self,
        words: &Words<A>,
        pass: &mut OpenPass,
        peek: Peek,
    ) -> Option<IrpLife>
        requires queue { IsQueueOn words.now self.old }
        requires pass { IsPassOn words.now pass.old }
        ensures call { RemovesNext peek result self.old.limits self.old.queue.history
            pass.old.pass pass.new.pass }
        ensures seen { self.new ≡ after_call pass.new.pass self.old }
        ensures place { pass.new ≡ record pass.old { pass = pass.new.pass } }
    {
        self.seat.enter(words, &mut pass.seat);
        let taken = take_match::<L, A>(&mut self.list, &mut self.seat, &self.kept, words, peek);
        pass.tokens += count(taken);
        leave(&mut self.seat, words, &mut pass.seat);
        taken
    }

    /// Removes this IRP, unless it isn't listed in the life named or a canceller has it, as `Csq::remove`
    /// does. The pass holds it then.
    pub fn remove(&mut self, words: &Words<A>, pass: &mut OpenPass, irp: IrpLife) -> Option<IrpLife>
        requires queue { IsQueueOn words.now self.old }
        requires pass { IsPassOn words.now pass.old }
        ensures call { RemovesOne irp result self.old.limits self.old.queue.history
            pass.old.pass pass.new.pass }
        ensures seen { self.new ≡ after_call pass.new.pass self.old }
        ensures place { pass.new ≡ record pass.old { pass = pass.new.pass } }
    {
        self.seat.enter(words, &mut pass.seat);
        let taken = take_one::<L, A>(&mut self.list, &mut self.seat, &self.kept, words, irp);
        pass.tokens += count(taken);
        leave(&mut self.seat, words, &mut pass.seat);
        taken
    }

    /// Takes out an IRP that the pass owes, as `Csq::cancel_routine` does. The pass holds it then.
    pub fn cancel_routine(&mut self, words: &Words<A>, pass: &mut OpenPass, irp: IrpLife)
        requires queue { IsQueueOn words.now self.old }
        requires pass { IsPassOn words.now pass.old }
        requires owed { Owes pass.old.pass irp }
        ensures call { RunsRoutine irp self.old.limits self.old.queue.history
            pass.old.pass pass.new.pass }
        ensures seen { self.new ≡ after_call pass.new.pass self.old }
        ensures place { pass.new ≡ record pass.old { pass = pass.new.pass } }
    {
        self.seat.enter(words, &mut pass.seat);
        take_owed::<L, A>(&mut self.list, &mut self.seat, &self.kept, words, irp);
        pass.claims -= 1;
        pass.tokens += 1;
        leave(&mut self.seat, words, &mut pass.seat);
    }

    /// Closes a file object for good, as `Csq::close_file` does.
    pub fn close_file(
        &mut self,
        words: &Words<A>,
        pass: &mut OpenPass,
        file: FileId,
    ) -> Result<(), UnknownFile>
        requires queue { IsQueueOn words.now self.old }
        requires pass { IsPassOn words.now pass.old }
        ensures call { ClosesFile file result self.old.limits self.old.queue.history
            pass.old.pass pass.new.pass }
        ensures seen { OnOk result (self.new ≡ after_call pass.new.pass self.old) }
        ensures place { pass.new ≡ record pass.old { pass = pass.new.pass } }
        ensures unknown { OnErr result (self.new ≡ self.old) }
    {
        self.list.close_file(file)?;
        self.seat.enter(words, &mut pass.seat);
        self.seat.note(words, Call::CloseFile(file), Note::Event);
        leave(&mut self.seat, words, &mut pass.seat);
        Ok(())
    }

    /// Begins the next life of an IRP, if its present one was completed and isn't the last, as
    /// `Csq::reuse` does.
    pub fn reuse(
        &mut self,
        words: &Words<A>,
        pass: &mut OpenPass,
        irp: IrpId,
    ) -> Result<Life, ReuseRefused>
        requires queue { IsQueueOn words.now self.old }
        requires pass { IsPassOn words.now pass.old }
        ensures call { Reuses irp result self.old.limits self.old.queue.history
            pass.old.pass pass.new.pass }
        ensures seen { irp.0 < self.old.limits.irps → self.new ≡ after_call pass.new.pass self.old }
        ensures place { pass.new ≡ record pass.old { pass = pass.new.pass } }
        ensures unknown { result ≡ Err ReuseRefused.UnknownIrp → self.new ≡ self.old }
    {
        if irp.0 >= pass.irps {
            return Err(ReuseRefused::UnknownIrp);
        }
        self.seat.enter(words, &mut pass.seat);
        let life = renew_irp::<L, A>(&mut self.list, &mut self.seat, &mut self.kept, words, irp);
        leave(&mut self.seat, words, &mut pass.seat);
        life
    }

    /// The present life of an IRP: the first one, and after each reuse the next. None if there is no such
    /// IRP. Own rule.
    pub fn life(&self, irp: IrpId) -> Option<Life>
        ensures known { IsSome result ↔ (irp.0 < self.now.limits.irps) }
        ensures present { IfSome result (λ life. named irp life
            ≡ present_in (end_of self.now.limits.first self.now.queue.history) irp) }
    {
        self.kept.get(irp)
    }

    /// Lets a pass see the whole history, and the execution so far.
    pub(crate) fn show(&mut self, words: &Words<A>, pass: &mut OpenPass)
        requires queue { IsQueueOn words.now self.old }
        requires pass { IsPassOn words.now pass.old }
        ensures queue { self.new ≡ record self.old
            { queue = with_trace pass.new.pass.trace (entered self.old.queue) } }
        ensures legal { IsLegal self.old.limits self.old.queue.history }
        ensures agrees { IsHistoryOf (queue_size self.old.limits) (steps_in self.new.queue.trace) self.new.queue
            inner.Nothing }
        ensures traced { (IsTrace self.new.queue.first self.new.queue.trace)
            × (entries_in self.new.queue.trace ≡ self.new.queue.history) }
        ensures sees { SeesRun (queue_size self.old.limits) pass.new.pass }
        ensures shown { pass.new ≡ record pass.old
            { pass = caught_up self.new.queue pass.old.pass } }
        ensures follows { IsExtendedBy pass.old.pass.trace pass.new.pass.trace }
        ensures since { IsExtendedBy self.old.queue.trace pass.new.pass.trace }
        ensures begins { IsExtendedBy pass.old.pass.seen self.old.queue.history }
        ensures mine { pass.old.pass.mine ≡ calls_of pass.old.pass.pass self.old.queue.history }
    {
        self.seat.enter(words, &mut pass.seat);
        // A load that serves the proof alone, since no step of a call observes the execution here.
        self.seat.observe(words);
        leave(&mut self.seat, words, &mut pass.seat);
    }

    /// Lets a pass see what was shown last, if it took no step since it saw the execution before.
    pub(crate) fn catch_up(&mut self, words: &Words<A>, pass: &mut OpenPass)
        requires queue { IsQueueOn words.now self.old }
        requires pass { IsPassOn words.now pass.old }
        requires steps { pass.old.pass.steps ≡ own pass.old.pass.pass (steps_in pass.old.pass.trace) }
        requires since { IsExtendedBy pass.old.pass.trace self.old.queue.trace }
        requires agrees { IsHistoryOf (queue_size self.old.limits) (steps_in self.old.queue.trace) self.old.queue
            inner.Nothing }
        requires traced { (IsTrace self.old.queue.first self.old.queue.trace)
            × (entries_in self.old.queue.trace ≡ self.old.queue.history) }
        ensures same { self.new ≡ record self.old { queue = entered self.old.queue } }
        ensures shown { pass.new ≡ record pass.old
            { pass = caught_up self.old.queue pass.old.pass } }
        ensures sees { SeesRun (queue_size self.old.limits) pass.new.pass }
    {
        self.seat.enter(words, &mut pass.seat);
        self.seat.leave(words, &mut pass.seat);
    }

    /// Notes that a pass, which holds and owes nothing, is back, and returns its receipt. Own rule.
    pub fn give_back(&mut self, words: &Words<A>, mut pass: OpenPass) -> Receipt
        requires queue { IsQueueOn words.now self.old }
        requires pass { IsPassOn words.now pass }
        requires nothing { HoldsNothing pass.pass }
        ensures back { self.new ≡ record self.old { queue = with_back pass.pass (entered self.old.queue) } }
        ensures begins { IsExtendedBy pass.pass.seen self.old.queue.history }
        ensures receipt { result ≡ pass_at words.now.table pass.pass }
    {
        self.seat.enter(words, &mut pass.seat);
        self.seat.note(words, Call::GiveBack, Note::Event);
        self.back[pass.number as usize - 1] = true;
        self.seat.receipt(words)
    }

    /// Takes in what a receipt shows.
    pub(crate) fn see(&mut self, words: &Words<A>, receipt: &mut Receipt)
        requires queue { IsQueueOn words.now self.old }
        requires receipt { IsHere words.now.table receipt.old }
        ensures shown { self.new ≡ record self.old
            { queue = with_shown (pass_record receipt.old) self.old.queue } }
        ensures kept { receipt.new ≡ receipt.old }
    {
        self.seat.show(words, receipt);
    }

    /// Observes the execution, and returns what is known of the queue by its passes that are back and by this
    /// one, which stays as it is.
    pub(crate) fn observe(&mut self, words: &Words<A>, pass: &mut OpenPass)
        requires queue { IsQueueOn words.now self.old }
        requires pass { IsPassOn words.now pass.old }
        ensures step { self.new ≡ record self.old
            { queue = with_trace self.new.queue.trace (entered self.old.queue) } }
        ensures kept { pass.new ≡ pass.old }
        ensures agreed { QueueAndPassHaveRun words.now.size self.new.queue pass.old.pass }
        ensures made { self.new.queue.made ≡ self.new.limits.passes }
    {
        self.seat.observe_with(words, &mut pass.seat);
    }

    /// How many of the first passes, so many of which were taken, are not back, beside this one. Own rule.
    pub fn out(&self, taken: u32, own: u32) -> u32
        requires { taken ≤ self.now.limits.passes }
        ensures count { result ≡ out_count own self.now.queue.back taken }
        ensures all { result ≡ 0 → own ≡ 0 → FirstAreBack taken self.now.queue.back }
    {
        let mut out = 0;
        'passes: for next in 0..taken {
            if next + 1 != own && !self.back[next as usize] {
                out += 1;
            }
        }
        out
    }

    /// Gives the passes back that are left in the rack, once all others are back, and ends the queue. It
    /// takes no memory. Own rule.
    pub fn close(mut self, words: Words<A>, rack: OpenRack) -> Rest<L, A>
        requires queue { IsQueueOn words self }
        requires rack { IsRackOn words rack }
        requires back { FirstAreBack (self.limits.passes - rack.left) self.queue.back }
        ensures rest { IsClosed self.limits (self.limits.passes - rack.left) self.queue
            (L.listing result.list) result.finals }
    {
        // Looked at for the proof alone: what holds of each queue holds of this one.
        let _ = &self.list;
        self.give_rest(&words, rack);
        self.into_rest(words)
    }

    /// Gives back the passes that were not handed out, once all others are back.
    fn give_rest(&mut self, words: &Words<A>, mut rack: OpenRack)
        requires queue { IsQueueOn words.now self.old }
        requires rack { IsRackOn words.now rack }
        requires back { FirstAreBack (self.old.limits.passes - rack.left) self.old.queue.back }
        requires made { self.old.queue.made ≡ self.old.limits.passes }
        ensures given { GivenBack (self.old.limits.passes - rack.left) self.old.limits.passes
            self.old.queue self.new.queue }
        ensures all { AllBack self.new.queue }
        ensures place { (self.new.table ≡ self.old.table) × (self.new.limits ≡ self.old.limits) }
    {
        'rest: for _ in 0..rack.left() {
            let Some(pass) = rack.take() else {
                // The rack has as many passes left as there are turns.
                unreachable!()
            };
            self.give_back(words, pass);
        }
    }

    /// What is left, once all passes are back.
    fn into_rest(self, words: Words<A>) -> Rest<L, A>
        requires queue { IsQueueOn words self }
        requires back { AllBack self.queue }
        ensures irps { result.finals.irps ≡ self.limits.irps }
        ensures queue { result.finals.queue ≡ with_trace result.finals.queue.trace self.queue }
        ensures follows { IsExtendedBy self.queue.trace result.finals.queue.trace }
        ensures last { IsFinal (queue_size self.limits) result.finals.words result.finals.queue }
        ensures left { (n : IrpNumber) → n.0 < self.limits.irps
            → IsLeft result.finals.words result.finals.queue n }
        ensures records { KeepsRecords result.finals }
        ensures list { L.listing result.list
            ≡ plain_listing self.limits (queue_of result.finals.queue) }
        ensures legal { IsLegal self.limits result.finals.queue.history }
        ensures first { result.finals.queue.first ≡ self.limits.first }
        ensures made { result.finals.queue.made ≡ self.limits.passes }
    {
        let OpenQueue { list, seat, .. } = self;
        Rest {
            list,
            finals: words.close(seat),
        }
    }
}

/// How many IRPs a removal takes.
fn count(taken: Option<IrpLife>) -> u32
    ensures { result ≡ count_given taken }
{
    match taken {
        Some(_) => 1,
        None => 0,
    }
}

/// How many IRPs the pass holds no longer after a put-back.
fn count_spent(answer: &Result<OpenInserted, InsertStatus>) -> u32
    ensures { result ≡ count_spent answer.now }
{
    match answer {
        Ok(InsertAnswer::Pending(_)) => 1,
        Ok(InsertAnswer::Cancelled(_)) | Err(_) => 0,
    }
}

/// How many IRPs an insert gives back to be completed.
fn count_cancelled(answer: &Result<OpenInserted, InsertStatus>) -> u32
    ensures { result ≡ count_given (given_in answer.now) }
{
    match answer {
        Ok(InsertAnswer::Cancelled(_)) => 1,
        Ok(InsertAnswer::Pending(_)) | Err(_) => 0,
    }
}
