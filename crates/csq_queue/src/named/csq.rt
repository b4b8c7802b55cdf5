//! The queue that threads share: an open queue behind a lock, under a name that its tokens bear.
ghost use Rattle.std.specs.Prelude.{◌≡◌, ℕ, ◌+◌, ◌-◌, ◌<◌, ◌≤◌, ◌↔◌, true, false, List, [], ◌∷◌, length, IsOk, OnOk, OnErr, IfOk, IfErr};
ghost use Rattle.irp_core.specs.declared.ids.IrpLife.{IrpLife};
ghost use Rattle.irp_core.specs.declared.status.TheConstants.NtStatus.{CANCELLED};
ghost use Rattle.irp_core.specs.declared.step.Kind.TheVariants.{Flag, Take, Done};
ghost use Rattle.csq_words.specs.declared.views.{HistoryEntry.{HistoryEntry}, Event.TheVariants.{Out}, PassRecord.{PassRecord}};
ghost use Rattle.csq_words.specs.Calls.{due_mark};
ghost use Rattle.csq_words.specs.History.{IsLegal, IsExtendedBy, calls_of, end_of};
ghost use Rattle.csq_words.specs.Records.{saw, with_step, with_completion};
ghost use Rattle.csq_words.specs.Rule.{FindsUnset};
ghost use Rattle.csq_queue.specs.Calls.{Inserts, PutsBack, RemovesNext, RemovesOne, RunsRoutine, ClosesFile, Reuses, MarksCancel, CompletesOne, ReadsFlag, ReadsStatus};
ghost use Rattle.csq_queue.specs.Cleanups.{cancelled_by, cleanup_calls, Cancels, CleansUp, SeesCalls, CompletesAll, NothingIsLeft};
ghost use Rattle.csq_queue.specs.Counts.{held_count, owed_count};
ghost use Rattle.csq_queue.specs.Inserts.{without_token};
ghost use Rattle.csq_queue.specs.Named.{named, queue_size};
ghost use Rattle.csq_queue.specs.Owned.{Holds, HoldsRemoved, Owes, EndsWithTake, MissedTheRoutine};
ghost use Rattle.csq_queue.specs.Refusals.{IsCancelRefusal};
ghost use Rattle.csq_queue.specs.Rests.{FirstAreBack, IsRestOf, KeepsRecord, HoldsNothing, IsCloseCause};
ghost use Rattle.csq_queue.specs.Effects.{SeesRun, AddsEvents};

use crate::back::{Back, see};
use crate::named::waiting::wait_for;
use crate::named::{Locked, Pass, PassRack, QueueName};
use crate::refusals::{CancelRefused, ReuseRefused, UnknownIrp};
use crate::rest::{CloseCause, CloseRefused, Holding, Rest};
use crate::tokens::{CancelToken, Claim, InsertContext, Inserted, Token};
use csq_list::{InsertStatus, Peek, PendingList, Place, UnknownFile};
use csq_words::Words;
use irp_core::{FileId, FinalStatus, IrpId, LARGE_MAX_IRPS, Life, NtStatus};
use std::alloc::{Allocator, Global};
use std::marker::{Model, PhantomData};
use std::sync::{Mutex, MutexGuard, Wait};

/// A cancel-safe queue named N over the list L. A contract sees its number of IRPs.
#[derive(Drop)]
pub struct Csq<L: PendingList + Drop, N: QueueName, A: Allocator = Global> {
    pub(crate) words: Words<A>,
    pub(crate) locked: Mutex<Locked<L, N, A>>,
}

impl<L: PendingList + Drop, N: QueueName, A: Allocator> Model for Csq<L, N, A> {
    ghost use Rattle.std.specs.Prelude.{◌≡◌, ◌≤◌, ℕ};
    ghost use Rattle.irp_core.specs.declared.limits.TheConstants.{LARGE_MAX_IRPS};
    ghost use Rattle.csq_queue.specs.Named.{queue_size};

    ghost Value = { ℕ };

    ghost view = { λ q. q.words.size.irps };

    ghost invariant = { λ q. (q.words.table ≡ N.table) × (q.words.size ≡ queue_size N.limits)
        × (N.limits.irps ≤ LARGE_MAX_IRPS) };
}

impl<L: PendingList + Drop, N: QueueName, A: Allocator> Csq<L, N, A> {
    pub(crate) fn new(words: Words<A>, locked: Locked<L, N, A>) -> Csq<L, N, A>
        requires table { words.table ≡ N.table }
        requires words { words.size ≡ queue_size N.limits }
        requires most { N.limits.irps ≤ LARGE_MAX_IRPS }
        ensures { result ≡ N.limits.irps }
    {
        Csq {
            words,
            locked: Mutex::new(locked),
        }
    }

    /// The lock. It is tried once before it is waited for: where it is free, that is the shorter way.
    #[inline(always)]
    pub(crate) fn lock(&self, rt: &impl Wait) -> MutexGuard<'_, Locked<L, N, A>> {
        match self.locked.try_lock() {
            Some(guard) => guard,
            None => wait_for(&self.locked, rt),
        }
    }

    /// The number of IRPs.
    pub(crate) fn irps(&self) -> u32
        ensures { result ≡ N.limits.irps }
    {
        self.words.irps()
    }

    /// Inserts an IRP for a file object, last or first (`IoCsqInsertIrpEx`). It lists the IRP, sets its
    /// cancel routine and tests its Cancel flag; if that is set and the routine is still there, the
    /// IRP leaves the list again and the answer is `Cancelled`. A refusal is the first cause of
    /// `InsertStatus` that holds, and the IRP stays with the caller.
    #[tactic(auto, using(crate::proofs::Spending::cancelled_holds))]
    pub fn insert(
        &self,
        rt: &impl Wait,
        pass: &mut Pass<N>,
        irp: IrpId,
        file: FileId,
        place: Place,
    ) -> Result<Inserted<N>, InsertStatus>
        ensures call { (history : List HistoryEntry)
            × Inserts irp file place result N.limits history pass.old pass.new }
    {
        let mut locked = self.lock(rt);
        let inserted = locked
            .open
            .insert(&self.words, &mut pass.open, irp, file, place)?;
        Ok(Inserted::of(inserted))
    }

    /// Puts back an IRP that the pass removed and couldn't serve, last or first, for the file object that
    /// it was inserted for, in the same life (`IoCsqInsertIrpEx` once more). As an insert it lists the IRP,
    /// sets its cancel routine and tests its Cancel flag. The flag is never cleared in a life, so no cancel
    /// is lost that came while the pass had the IRP: the put-back then returns `Cancelled`, unless a later
    /// cancel has the IRP. After `Pending` the contexts and the name of the IRP are as good as before. A
    /// refusal is the first of `FileClosed`, `FileFull` and `Full` that holds, and the token comes back:
    /// the pass still has the IRP. The token has to be spent through the pass that got it.
    pub fn put_back(
        &self,
        rt: &impl Wait,
        pass: &mut Pass<N>,
        token: Token<N>,
        place: Place,
    ) -> Result<Inserted<N>, (InsertStatus, Token<N>)>
        requires token { HoldsRemoved N.limits.irps pass.old token }
        ensures call { (history : List HistoryEntry) × PutsBack token place (without_token result)
            N.limits history pass.old pass.new }
        ensures kept { IfErr result (λ refused. refused.1 ≡ token) }
    {
        let irp = token.spend();
        let mut locked = self.lock(rt);
        match locked
            .open
            .put_back(&self.words, &mut pass.open, irp, place)
        {
            Ok(back) => Ok(Inserted::of(back)),
            Err(cause) => Err((cause, Token::new(irp))),
        }
    }

    /// Removes the first match that no canceller has (`IoCsqRemoveNextIrp`). None if no match is
    /// left.
    pub fn remove_next(&self, rt: &impl Wait, pass: &mut Pass<N>, peek: Peek) -> Option<Token<N>>
        ensures call { (history : List HistoryEntry)
            × RemovesNext peek result N.limits history pass.old pass.new }
    {
        let mut locked = self.lock(rt);
        let irp = locked.open.remove_next(&self.words, &mut pass.open, peek)?;
        Some(Token::new(irp))
    }

    /// Removes the IRP that was inserted with this context (`IoCsqRemoveIrp`). None where it was
    /// removed or cancelled, or is being cancelled, or is in another life.
    pub fn remove(
        &self,
        rt: &impl Wait,
        pass: &mut Pass<N>,
        context: InsertContext<N>,
    ) -> Option<Token<N>>
        ensures call { (history : List HistoryEntry)
            × RemovesOne context result N.limits history pass.old pass.new }
    {
        let mut locked = self.lock(rt);
        let irp = locked
            .open
            .remove(&self.words, &mut pass.open, context.named())?;
        Some(Token::new(irp))
    }

    /// Sets the Cancel flag of an IRP in the life named and takes its cancel routine, as `IoCancelIrp`
    /// does. If the routine was there, the pass owes the IRP, and the answer is a claim. None if
    /// the IRP isn't listed, or some pass has its routine. `UnknownIrp` comes exactly for an unknown
    /// IRP; `Stale` where the IRP is in another life, which it names: nothing changed then. Takes no
    /// lock.
    pub fn mark_cancel(
        &self,
        pass: &mut Pass<N>,
        irp: IrpId,
        life: Life,
    ) -> Result<Option<Claim<N>>, CancelRefused>
        ensures call { MarksCancel irp life result (queue_size N.limits) pass.old pass.new }
    {
        match pass.open.mark_cancel(&self.words, irp, life)? {
            None => Ok(None),
            // Still listed: the claim has to be spent on the cancel routine, which takes the IRP out.
            Some(named) => Ok(Some(Claim::new(named))),
        }
    }

    /// The queue's cancel routine, up to the completion: takes the IRP out of the list. The claim has
    /// to be spent through the pass that got it.
    pub fn cancel_routine(
        &self,
        rt: &impl Wait,
        pass: &mut Pass<N>,
        claim: Claim<N>,
    ) -> CancelToken<N>
        requires owed { Owes pass.old claim }
        ensures irp { result ≡ claim }
        ensures call { (history : List HistoryEntry)
            × RunsRoutine claim N.limits history pass.old pass.new }
    {
        let irp = claim.spend();
        let mut locked = self.lock(rt);
        locked.open.cancel_routine(&self.words, &mut pass.open, irp);
        CancelToken::new(irp)
    }

    /// Completes a removed IRP with a status (`IoCompleteRequest`): nobody completed it before. The token
    /// has to be spent through the pass that got it. Takes no lock.
    pub fn complete(&self, pass: &mut Pass<N>, token: Token<N>, status: FinalStatus)
        requires token { HoldsRemoved N.limits.irps pass.old token }
        ensures call { CompletesOne token status (queue_size N.limits) pass.old pass.new }
    {
        // With its token goes the right to complete the IRP, so a second completion doesn't compile.
        let irp = token.spend();
        pass.open.complete(&self.words, irp, status);
    }

    /// Completes a cancelled IRP with STATUS_CANCELLED: nobody completed it before. The token has to be
    /// spent through the pass that got it. Takes no lock.
    pub fn complete_cancelled(&self, pass: &mut Pass<N>, token: CancelToken<N>)
        requires token { Holds N.limits.irps pass.old token }
        ensures call { CompletesOne token CANCELLED (queue_size N.limits) pass.old pass.new }
    {
        let irp = token.spend();
        pass.open.complete_cancelled(&self.words, irp);
    }

    /// Cancels an IRP in the life named, as `IoCancelIrp` does: sets its Cancel flag and takes its
    /// routine, and if that was there runs the cancel routine and completes the IRP with
    /// STATUS_CANCELLED. Returns whether the IRP was completed here. Refused as `mark_cancel` is.
    pub fn cancel(
        &self,
        rt: &impl Wait,
        pass: &mut Pass<N>,
        irp: IrpId,
        life: Life,
    ) -> Result<bool, CancelRefused>
        ensures known { IsOk result → irp.0 < N.limits.irps }
        ensures calls { Cancels irp life result N.limits pass.old pass.new }
        ensures call { IfOk result (λ done. done ≡ true → (history : List HistoryEntry)
            × (out : PassRecord) × AddsEvents N.limits history pass.old out
            (Out (named irp life) ∷ due_mark (named irp life) (end_of N.limits.first history))
            × (pass.new ≡ saw pass.new.trace (with_completion (named irp life) CANCELLED
            (with_step (Done (named irp life)) 0 out)))
            × FindsUnset (queue_size N.limits) (named irp life) out pass.new) }
        ensures done { IfOk result (λ done. done ≡ true → (flag : ℕ)
            × (pass.new ≡ record (cancelled_by (named irp life) flag pass.old)
            { seen = pass.new.seen; mine = pass.new.mine; trace = pass.new.trace })) }
        ensures left { IfOk result (λ done. done ≡ false → (flag : ℕ)
            × (pass.new ≡ saw pass.new.trace (with_step (Take (named irp life)) 0
            (with_step (Flag (named irp life)) flag pass.old)))
            × EndsWithTake (queue_size N.limits) (named irp life) flag 0 pass.old pass.new) }
        ensures missed { IfOk result (λ done. done ≡ false
            → MissedTheRoutine (named irp life) pass.new) }
        ensures refused { IfErr result (IsCancelRefusal (queue_size N.limits) (named irp life)
            pass.old pass.new) }
    {
        match self.mark_cancel(pass, irp, life)? {
            None => Ok(false),
            Some(claim) => {
                // The lock is taken only now, and free again at the completion.
                let token = self.cancel_routine(rt, pass, claim);
                self.complete_cancelled(pass, token);
                Ok(true)
            }
        }
    }

    /// Handles `IRP_MJ_CLEANUP` of a file object: closes it, then removes its IRPs until none is
    /// answered, and completes each with STATUS_CANCELLED. Returns how many it completed. The lock is
    /// free between two of them. An IRP that a canceller has claimed is left to that canceller.
    pub fn cleanup(
        &self,
        rt: &impl Wait,
        pass: &mut Pass<N>,
        file: FileId,
    ) -> Result<u32, UnknownFile>
        ensures known { IsOk result ↔ (file.0 < N.limits.files) }
        ensures cleaned { IfOk result (λ count. (taken : List IrpLife) × (count ≡ length taken)
            × SeesCalls N.limits pass.old pass.new (cleanup_calls file taken)
            × CompletesAll taken pass.old pass.new
            × CleansUp N.limits file taken pass.old pass.new) }
        ensures sees { OnOk result (SeesRun (queue_size N.limits) pass.new) }
        ensures follows { OnOk result (IsExtendedBy pass.old.trace pass.new.trace) }
        ensures left { IfOk result (λ count. NothingIsLeft N.limits file pass.new.seen) }
        ensures unknown { OnErr result (pass.new ≡ pass.old) }
    {
        // Closed first, so that no insert comes in behind the removals.
        self.close_file(rt, pass, file)?;
        let irps = self.irps();
        let mut completed = 0;
        'cleanup: while let Some(token) = self.remove_next(rt, pass, Peek::File(file)) {
            self.complete(pass, token, FinalStatus::cancelled());
            prove!(completed < irps);
            completed += 1;
        }
        Ok(completed)
    }

    /// Closes a file object for good: from then on inserts and put-backs for it are refused. What is listed
    /// for it stays.
    pub fn close_file(
        &self,
        rt: &impl Wait,
        pass: &mut Pass<N>,
        file: FileId,
    ) -> Result<(), UnknownFile>
        ensures call { (history : List HistoryEntry)
            × ClosesFile file result N.limits history pass.old pass.new }
    {
        let mut locked = self.lock(rt);
        locked.open.close_file(&self.words, &mut pass.open, file)
    }

    /// Begins the next life of a completed IRP, which is then home with a clear Cancel flag and no
    /// status (`IoReuseIrp`; lives are own). `UnknownIrp` comes exactly for an unknown IRP, then
    /// `NotCompleted` where the present life isn't completed, then `LivesSpent` where it is the last.
    /// Any pass may call it.
    pub fn reuse(
        &self,
        rt: &impl Wait,
        pass: &mut Pass<N>,
        irp: IrpId,
    ) -> Result<Life, ReuseRefused>
        ensures call { (history : List HistoryEntry)
            × Reuses irp result N.limits history pass.old pass.new }
    {
        if irp.0 >= pass.open.irps {
            return Err(ReuseRefused::UnknownIrp);
        }
        let mut locked = self.lock(rt);
        locked.open.reuse(&self.words, &mut pass.open, irp)
    }

    /// The life that an IRP's Cancel flag stands for, and whether it is set there. It is set if this pass
    /// set it, or has seen in the history that it was, unless the life is a later one. Takes no lock.
    pub fn is_cancelled(&self, pass: &mut Pass<N>, irp: IrpId) -> Result<(Life, bool), UnknownIrp>
        ensures call { ReadsFlag irp result (queue_size N.limits) pass.old pass.new }
    {
        pass.open.is_cancelled(&self.words, irp)
    }

    /// The life that an IRP's status stands for, and the status, once it is completed there. It is None
    /// in a life that this pass owes or holds, and what this pass completed it with from then on, until
    /// the life is a later one. Takes no lock.
    pub fn status(
        &self,
        pass: &mut Pass<N>,
        irp: IrpId,
    ) -> Result<(Life, Option<NtStatus>), UnknownIrp>
        ensures call { ReadsStatus irp result (queue_size N.limits) pass.old pass.new }
    {
        pass.open.status(&self.words, irp)
    }

    /// Lets two passes see the same history and the same execution. Own rule.
    pub fn meet(&self, rt: &impl Wait, one: &mut Pass<N>, other: &mut Pass<N>)
        ensures same { one.new.seen ≡ other.new.seen }
        ensures run { one.new.trace ≡ other.new.trace }
        ensures legal { IsLegal N.limits one.new.seen }
        ensures one_sees { SeesRun (queue_size N.limits) one.new }
        ensures other_sees { SeesRun (queue_size N.limits) other.new }
        ensures one_begins { IsExtendedBy one.old.seen one.new.seen }
        ensures other_begins { IsExtendedBy other.old.seen other.new.seen }
        ensures one_kept { one.new ≡ record one.old { seen = one.new.seen; trace = one.new.trace } }
        ensures other_kept { other.new ≡ record other.old {
          seen = other.new.seen;
          trace
              = other.new.trace;
        } }
        ensures one_follows { IsExtendedBy one.old.trace one.new.trace }
        ensures other_follows { IsExtendedBy other.old.trace other.new.trace }
        ensures one_calls { one.new.mine ≡ calls_of one.new.pass one.new.seen }
        ensures other_calls { other.new.mine ≡ calls_of other.new.pass other.new.seen }
    {
        let mut locked = self.lock(rt);
        locked.open.show(&self.words, &mut one.open);
        locked.open.show(&self.words, &mut other.open);
        // The first pass took no step since it was shown the execution, so what the other was shown is
        // its execution too.
        locked.open.catch_up(&self.words, &mut one.open);
    }

    /// Gives a pass back, so that the queue may be closed without it, and returns a receipt. Refused
    /// if the pass holds or owes IRPs: `Holding` has their numbers and the pass. A pass that was given
    /// back isn't handed out again. Own rule.
    pub fn give_back(&self, rt: &impl Wait, pass: Pass<N>) -> Result<Back<N>, Holding<N>>
        ensures pass { IfErr result (λ holding. holding.pass ≡ pass) }
        ensures tokens { IfErr result (λ holding. holding.tokens ≡ held_count pass.steps) }
        ensures claims { IfErr result (λ holding. holding.claims ≡ owed_count pass.steps) }
        ensures some { IfErr result (λ holding. 0 < holding.tokens + holding.claims) }
        ensures none { OnOk result (HoldsNothing pass) }
        ensures receipt { IfOk result (λ back. back ≡ pass) }
    {
        let (tokens, claims) = (pass.open.tokens(), pass.open.claims());
        if tokens > 0 || claims > 0 {
            return Err(Holding {
                tokens,
                claims,
                pass,
            });
        }
        let Pass { open, .. } = pass;
        let receipt = self.lock(rt).open.give_back(&self.words, open);
        Ok(Back {
            receipt,
            name: PhantomData,
        })
    }

    /// Gives this pass and those in the rack back, and ends the queue. `Holding` comes exactly if
    /// the pass holds or owes IRPs; then `PassesOut` if other passes were taken and not given back.
    /// Queue, pass and rack come back with a refusal. It takes neither the lock nor memory. A queue of
    /// which no other pass was taken is closed by a pass that holds and owes nothing. Own rule.
    pub fn close(
        self,
        pass: Pass<N>,
        rack: PassRack<N>,
    ) -> Result<Rest<L, A>, CloseRefused<L, N, A>>
        ensures rest { IfOk result (λ rest. IsRestOf N.limits pass [] (N.limits.passes - rack)
            (L.listing rest.list) rest.finals) }
        ensures records { IfOk result (λ rest. KeepsRecord N.limits pass rest.finals) }
        ensures none { OnOk result (HoldsNothing pass) }
        ensures cause { IfErr result (λ refused. IsCloseCause N.limits pass []
            (N.limits.passes - rack) refused.cause) }
        ensures closes { HoldsNothing pass → FirstAreBack (N.limits.passes - rack) (pass ∷ [])
            → IsOk result }
        ensures handed_back { IfErr result (λ refused. (refused.queue ≡ self)
            × (refused.pass ≡ pass) × (refused.rack ≡ rack)) }
    {
        let mut none = [];
        self.close_with(pass, rack, &mut none)
    }

    /// As `close`, with the receipts of passes that were given back. If it returns Ok, these passes came
    /// back with the records of their receipts; if it returns `PassesOut`, they aren't among those that
    /// are out, so with the receipts of all others it doesn't. The receipts stay as they are. Own rule.
    pub fn close_with(
        self,
        mut pass: Pass<N>,
        rack: PassRack<N>,
        receipts: &mut [Back<N>],
    ) -> Result<Rest<L, A>, CloseRefused<L, N, A>>
        ensures rest { IfOk result (λ rest. IsRestOf N.limits pass receipts.old
            (N.limits.passes - rack) (L.listing rest.list) rest.finals) }
        ensures records { IfOk result (λ rest. KeepsRecord N.limits pass rest.finals) }
        ensures none { OnOk result (HoldsNothing pass) }
        ensures cause { IfErr result (λ refused. IsCloseCause N.limits pass receipts.old
            (N.limits.passes - rack) refused.cause) }
        ensures closes { HoldsNothing pass → FirstAreBack (N.limits.passes - rack) (pass
            ∷ receipts.old) → IsOk result }
        ensures handed_back { IfErr result (λ refused. (refused.queue ≡ self)
            × (refused.pass ≡ pass) × (refused.rack ≡ rack)) }
        ensures receipts { receipts.new ≡ receipts.old }
    {
        let (tokens, claims) = (pass.open.tokens(), pass.open.claims());
        if tokens > 0 || claims > 0 {
            return Err(CloseRefused {
                cause: CloseCause::Holding(tokens, claims),
                queue: self,
                pass,
                rack,
            });
        }
        let Csq { words, locked } = self;
        let mut locked = locked.into_inner();
        see::<L, N, A>(&mut locked.open, &words, receipts);
        locked.open.observe(&words, &mut pass.open);
        let out = locked.open.out(rack.open.taken(), pass.open.number());
        if out > 0 {
            return Err(CloseRefused {
                cause: CloseCause::PassesOut(out),
                queue: Csq::new(words, locked),
                pass,
                rack,
            });
        }
        let Locked { mut open, .. } = locked;
        let (Pass { open: last, .. }, PassRack { open: rack, .. }) = (pass, rack);
        open.give_back(&words, last);
        Ok(open.close(words, rack))
    }
}
