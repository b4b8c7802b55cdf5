//! A driver of one pass: it makes the calls of a script over a machine and a list.
ghost use Rattle.std.specs.Prelude.{◌≡◌, ◌≤◌, ◌<◌, ◌↔◌, ◌&&◌, ℕ, List, IsTrue, IfOk};
ghost use Rattle.irp_core.specs.declared.step.Made.{Made};
ghost use Rattle.irp_core.specs.MachineState.{Agrees, size_of};
ghost use Rattle.irp_core.specs.Owners.{owes, holds};
ghost use Rattle.irp_core.specs.Runs.{IsRun};
ghost use Rattle.irp_core.specs.Words.{found_by};
ghost use Rattle.irp_core.specs.Lives.{present};
ghost use Rattle.irp_core.specs.Steps.{number, same_irp};
ghost use Rattle.csq_list.specs.Listing.{IsFresh};
ghost use Rattle.csq_list.specs.Searches.{is_listed};
ghost use Rattle.csq_words.specs.Queue.{Limits, limits_of};
ghost use Rattle.csq_replay.specs.declared.script.call.ScriptCall.TheVariants as call;
ghost use Rattle.csq_replay.specs.declared.script.call.Reply.TheVariants as reply;
ghost use Rattle.csq_replay.specs.Calls.{Script, script_pass, new_script, next_step, present_of, completing, after_routine, status_reply, Cleans};
ghost use Rattle.csq_replay.specs.Drivers.{Keeps, IsKeeping, StandsAt, IsStanding, IsOwing, IsHolding, Called, Did, DidNext, keeping};
ghost use Rattle.csq_replay.specs.Replies.{reported, insert_reply, taken_reply, mark_reply};

use crate::script::call::{CallRefused, InsertOutcome};
use csq_list::{InsertStatus, Peek, PendingList, Place};
use irp_core::{
    FileId, FinalStatus, IrpId, IrpLife, IrpPlace, Kind, Life, Machine, NtStatus, PassId, Step,
};
use std::alloc::{AllocError, Allocator};

/// The one pass of a script.
const PASS: PassId = PassId(1);

/// A machine with one pass, a list, the statuses of the IRPs that were completed in their present lives,
/// the file objects of those that were inserted, and where its texts are made.
#[derive(Drop)]
pub struct Driver<L, A: Allocator> {
    /// Where its texts are made.
    pub alloc: A,
    /// What the steps of its calls are made on.
    pub machine: Machine<A>,
    /// The list of the queue.
    pub list: L,
    /// With which status each IRP was completed in its present life, if it was.
    pub statuses: Vec<Option<NtStatus>, A>,
    /// The file object that an insert last accepted each IRP for; 0 if none did.
    pub files: Vec<FileId, A>,
}

/// Makes a step of the pass, which is one that may come next, and returns the value that it found.
fn make<A: Allocator>(machine: &mut Machine<A>, kind: Kind) -> u64
    requires { (E : List Made) × Agrees machine.old E
        × IsRun (size_of machine.old) (next_step E kind) }
    ensures made { (E : List Made) → Agrees machine.old E → Agrees machine.new (next_step E kind)
        × (result ≡ found_by E kind) }
    ensures size { size_of machine.new ≡ size_of machine.old }
{
    machine.step(Step { pass: PASS, kind }).unwrap()
}

impl<L: PendingList, A: Allocator> Driver<L, A> {
    /// A driver that made no call yet. The list is fresh and has 1 to 1,024 IRPs. Refused if there is too
    /// little memory. Own rule.
    pub fn new(alloc: A, list: L) -> Result<Driver<L, A>, AllocError>
    where
        L: Drop,
        A: Copy,
        requires fresh { IsFresh (L.listing list) }
        requires irps { (1 ≤ (L.listing list).irps) × ((L.listing list).irps ≤ 1024) }
        ensures { IfOk result (λ driver. StandsAt (limits_of 1 0 (L.listing list))
            (keeping L.listing driver) (new_script (limits_of 1 0 (L.listing list)))) }
    {
        let irps = list.irps();
        let Ok(machine) = Machine::new(alloc, irps, 1) else {
            return Err(AllocError);
        };
        Ok(Driver {
            alloc,
            machine,
            list,
            statuses: vec![in alloc; None; irps as usize]?,
            files: vec![in alloc; FileId(0); irps as usize]?,
        })
    }

    fn is_known(&self, irp: IrpId) -> bool
        ensures { IsTrue result ↔ (irp.0 < (size_of self.now.machine).irps) }
    {
        irp.0 < self.machine.irps()
    }

    /// The IRP in its present life.
    fn present(&self, irp: IrpId) -> IrpLife
        requires { irp.0 < (size_of self.now.machine).irps }
        ensures { (E : List Made) → Agrees self.now.machine E
            → result ≡ present (size_of self.now.machine).first E irp }
    {
        IrpLife {
            irp,
            life: self.machine.life(irp).unwrap(),
        }
    }

    /// Whether the IRP is listed, and in this life.
    #[tactic(auto, unfolding(irp_core::specs::Steps::same_irp))]
    fn lists(&self, name: IrpLife) -> bool
        requires { number name < (size_of self.now.machine).irps }
        ensures { (E : List Made) → Agrees self.now.machine E
            → result ≡ (same_irp (present (size_of self.now.machine).first E name.irp) name
            && is_listed (L.listing self.now.list).entries name.irp) }
    {
        self.present(name.irp) == name && self.list.is_listed(name.irp)
    }

    /// Whether the pass holds the IRP in its present life.
    #[tactic(auto, unfolding(irp_core::specs::Steps::same_pass))]
    pub(crate) fn holds(&self, irp: IrpId) -> bool
        requires { irp.0 < (size_of self.now.machine).irps }
        ensures { (E : List Made) → Agrees self.now.machine E
            → result ≡ holds E script_pass (present (size_of self.now.machine).first E irp) }
    {
        match self.machine.place(irp).unwrap() {
            IrpPlace::HeldBy(pass) => pass == PASS,
            IrpPlace::Home | IrpPlace::Listed | IrpPlace::Completed(..) => false,
        }
    }

    /// Whether the pass owes the IRP in its present life.
    pub(crate) fn owes(&self, irp: IrpId) -> bool
        ensures { (E : List Made) → Agrees self.now.machine E
            → result ≡ owes E script_pass (present (size_of self.now.machine).first E irp) }
    {
        self.machine.owes(PASS, irp)
    }

    /// Completes an IRP that the pass holds.
    fn finish(&mut self, irp: IrpId, status: FinalStatus)
        requires { IsHolding (keeping L.listing self.old) irp }
        ensures { (l : Limits) (s : Script) → Keeps l (keeping L.listing self.old) s
            → Keeps l (keeping L.listing self.new) (completing (present_of s irp) status s) }
    {
        let name = self.present(irp);
        make(&mut self.machine, Kind::Done(name));
        self.statuses[irp.0 as usize] = Some(status.status());
    }

    /// Takes out an IRP that the pass owes, and completes it as cancelled.
    fn run_routine(&mut self, irp: IrpId)
        requires { IsOwing (keeping L.listing self.old) irp }
        ensures { (l : Limits) (s : Script) → Keeps l (keeping L.listing self.old) s
            → Keeps l (keeping L.listing self.new) (after_routine irp s) }
    {
        let name = self.present(irp);
        make(&mut self.machine, Kind::Out(name));
        self.list.remove(irp);
        self.finish(irp, FinalStatus::cancelled());
    }

    /// Lists an IRP, or completes it where it is found cancelled.
    pub(crate) fn insert(
        &mut self,
        irp: IrpId,
        file: FileId,
        place: Place,
    ) -> Result<InsertOutcome, InsertStatus>
        requires { IsKeeping (keeping L.listing self.old) }
        ensures { Called (keeping L.listing self.old) (call.Insert irp file place)
            (insert_reply result) (keeping L.listing self.new) }
    {
        self.list.insert_ex(irp, file, place)?;
        self.files[irp.0 as usize] = file;
        let name = self.present(irp);
        make(&mut self.machine, Kind::Arm(name));
        if make(&mut self.machine, Kind::Test(name)) == 0 {
            return Ok(InsertOutcome::Pending);
        }
        // The one pass cancels nothing between the two steps, so its disarm finds the routine.
        make(&mut self.machine, Kind::Disarm(name));
        self.list.remove(irp);
        self.finish(irp, FinalStatus::cancelled());
        Ok(InsertOutcome::Cancelled)
    }

    /// Lists an IRP again that the pass got by a removal and holds, for the file object that it was inserted
    /// for, or completes it where it is found cancelled.
    pub(crate) fn put_back(
        &mut self,
        irp: IrpId,
        place: Place,
    ) -> Result<Result<InsertOutcome, InsertStatus>, CallRefused>
        requires { IsStanding (keeping L.listing self.old) }
        ensures { DidNext (keeping L.listing self.old) (call.PutBack irp place)
            (reported insert_reply result) (keeping L.listing self.new) }
    {
        if !self.is_known(irp) {
            return Err(CallRefused::UnknownIrp);
        }
        if !self.holds(irp) {
            return Err(CallRefused::NotHeld);
        }
        let file = self.files[irp.0 as usize];
        if let Err(cause) = self.list.put_back_ex(irp, file, place) {
            return Ok(Err(cause));
        }
        let name = self.present(irp);
        make(&mut self.machine, Kind::Rearm(name));
        if make(&mut self.machine, Kind::Test(name)) == 0 {
            return Ok(Ok(InsertOutcome::Pending));
        }
        // As in an insert, the disarm finds the routine.
        make(&mut self.machine, Kind::Disarm(name));
        self.list.remove(irp);
        self.finish(irp, FinalStatus::cancelled());
        Ok(Ok(InsertOutcome::Cancelled))
    }

    /// Removes the first match that no cancel claimed.
    pub(crate) fn next(&mut self, peek: Peek) -> Option<IrpId>
        requires { IsKeeping (keeping L.listing self.old) }
        ensures { Called (keeping L.listing self.old) (call.Next peek) (taken_reply result)
            (keeping L.listing self.new) }
    {
        let mut after = None;
        while let Some(irp) = self.list.peek_next(after, peek) {
            let name = self.present(irp);
            if make(&mut self.machine, Kind::Disarm(name)) == 1 {
                self.list.remove(irp);
                return Some(irp);
            }
            // A canceller has it: it stays listed until its cancel routine takes it out.
            after = Some(irp);
        }
        make(&mut self.machine, Kind::End);
        None
    }

    /// Removes an IRP, where it is listed in this life and no cancel claimed it.
    pub(crate) fn remove(&mut self, name: IrpLife) -> Result<Option<IrpId>, CallRefused>
        requires { IsKeeping (keeping L.listing self.old) }
        ensures { Called (keeping L.listing self.old) (call.Remove name) (reported taken_reply result)
            (keeping L.listing self.new) }
    {
        if !self.is_known(name.irp) {
            return Err(CallRefused::UnknownIrp);
        }
        if !self.lists(name) {
            make(&mut self.machine, Kind::End);
            return Ok(None);
        }
        if make(&mut self.machine, Kind::Disarm(name)) != 1 {
            // A canceller has it, so the removal ends with nothing.
            make(&mut self.machine, Kind::End);
            return Ok(None);
        }
        self.list.remove(name.irp);
        Ok(Some(name.irp))
    }

    /// Sets the Cancel flag and takes the cancel routine. Returns whether the routine was there.
    #[tactic(auto, unfolding(irp_core::specs::Steps::same_irp))]
    pub(crate) fn mark(&mut self, name: IrpLife) -> Result<bool, CallRefused>
        requires { IsKeeping (keeping L.listing self.old) }
        ensures { Called (keeping L.listing self.old) (call.Mark name) (reported mark_reply result)
            (keeping L.listing self.new) }
    {
        if !self.is_known(name.irp) {
            return Err(CallRefused::UnknownIrp);
        }
        let present = self.present(name.irp);
        if present != name {
            return Err(CallRefused::Stale(present.life));
        }
        make(&mut self.machine, Kind::Flag(name));
        Ok(make(&mut self.machine, Kind::Take(name)) != 0)
    }

    /// Runs the cancel routine of an IRP that the pass owes. Answers the status of its completion.
    pub(crate) fn routine(&mut self, irp: IrpId) -> Result<NtStatus, CallRefused>
        requires { IsKeeping (keeping L.listing self.old) }
        ensures { Called (keeping L.listing self.old) (call.Routine irp)
            (reported reply.Completed result) (keeping L.listing self.new) }
    {
        if !self.is_known(irp) {
            return Err(CallRefused::UnknownIrp);
        }
        if !self.owes(irp) {
            return Err(CallRefused::NoClaim);
        }
        self.run_routine(irp);
        Ok(NtStatus::CANCELLED)
    }

    /// Marks an IRP, and runs its routine where it was there. Returns whether it was.
    pub(crate) fn cancel(&mut self, name: IrpLife) -> Result<bool, CallRefused>
        requires { IsKeeping (keeping L.listing self.old) }
        ensures { Did (keeping L.listing self.old) (call.Cancel name)
            (reported reply.CancelAnswered result) (keeping L.listing self.new) }
    {
        let claimed = self.mark(name)?;
        if !claimed {
            return Ok(false);
        }
        self.run_routine(name.irp);
        Ok(true)
    }

    /// Completes an IRP that the pass holds. Answers the status.
    pub(crate) fn complete(&mut self, irp: IrpId, status: NtStatus) -> Result<NtStatus, CallRefused>
        requires { IsKeeping (keeping L.listing self.old) }
        ensures { Called (keeping L.listing self.old) (call.Complete irp status)
            (reported reply.Completed result) (keeping L.listing self.new) }
    {
        if !self.is_known(irp) {
            return Err(CallRefused::UnknownIrp);
        }
        if !self.holds(irp) {
            return Err(CallRefused::NotHeld);
        }
        let Some(last) = FinalStatus::new(status) else {
            return Err(CallRefused::StatusPending);
        };
        self.finish(irp, last);
        Ok(status)
    }

    /// Closes a file object.
    pub(crate) fn close(&mut self, file: FileId) -> Result<(), CallRefused>
        requires { IsKeeping (keeping L.listing self.old) }
        ensures { Called (keeping L.listing self.old) (call.Close file)
            (reported (λ _. reply.Closed) result) (keeping L.listing self.new) }
    {
        match self.list.close_file(file) {
            Ok(()) => Ok(()),
            Err(_) => Err(CallRefused::UnknownFile),
        }
    }

    /// Closes a file object, and completes what is queued for it as cancelled. Returns how many it completed.
    pub(crate) fn cleanup(&mut self, file: FileId) -> Result<u32, CallRefused>
        requires { IsKeeping (keeping L.listing self.old) }
        ensures { Did (keeping L.listing self.old) (call.Cleanup file) (reported reply.Cleaned result)
            (keeping L.listing self.new) }
    {
        self.close(file)?;
        Ok(self.remove_all(file))
    }

    /// Completes the IRPs of a file object as cancelled, until no removal returns one. Returns how many.
    fn remove_all(&mut self, file: FileId) -> u32
        requires { IsKeeping (keeping L.listing self.old) }
        ensures { (l : Limits) (s : Script) → Keeps l (keeping L.listing self.old) s → (t : Script)
            × Cleans l file s result t × Keeps l (keeping L.listing self.new) t }
    {
        let mut completed = 0;
        while let Some(removed) = self.next(Peek::File(file)) {
            self.finish(removed, FinalStatus::cancelled());
            completed += 1;
        }
        completed
    }

    /// Whether the Cancel flag is set.
    pub(crate) fn flag(&self, irp: IrpId) -> Result<bool, CallRefused>
        requires { IsKeeping (keeping L.listing self.now) }
        ensures { Called (keeping L.listing self.now) (call.Flag irp) (reported reply.Flag result)
            (keeping L.listing self.now) }
    {
        if self.is_known(irp) {
            Ok(self.machine.cancelled(irp))
        } else {
            Err(CallRefused::UnknownIrp)
        }
    }

    /// The status with which the present life was completed, if it was.
    pub(crate) fn status(&self, irp: IrpId) -> Result<Option<NtStatus>, CallRefused>
        requires { IsKeeping (keeping L.listing self.now) }
        ensures { Called (keeping L.listing self.now) (call.Status irp) (reported status_reply result)
            (keeping L.listing self.now) }
    {
        if self.is_known(irp) {
            Ok(self.statuses[irp.0 as usize])
        } else {
            Err(CallRefused::UnknownIrp)
        }
    }

    /// Begins the next life, and returns it.
    pub(crate) fn reuse(&mut self, irp: IrpId) -> Result<Life, CallRefused>
        requires { IsKeeping (keeping L.listing self.old) }
        ensures { Called (keeping L.listing self.old) (call.Reuse irp) (reported reply.Begun result)
            (keeping L.listing self.new) }
    {
        if !self.is_known(irp) {
            return Err(CallRefused::UnknownIrp);
        }
        if self.statuses[irp.0 as usize].is_none() {
            return Err(CallRefused::NotCompleted);
        }
        let ended = self.present(irp);
        if ended.life.0 >= Life::LAST.0 {
            return Err(CallRefused::LivesSpent);
        }
        make(&mut self.machine, Kind::Renew(ended));
        self.list.renew(irp);
        self.statuses[irp.0 as usize] = None;
        Ok(Life(ended.life.0 + 1))
    }
}
