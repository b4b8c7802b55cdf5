//! What a call does while its pass is joined with the queue's seat.
ghost use Rattle.std.specs.Prelude.{◌≡◌, ◌<◌, ◌==◌, ◌&&◌, length, slice_index, ◌≤◌, None, Some, true, false, List, [], ◌∷◌, IfOk, IfErr, IfSome};
ghost use Rattle.std.specs.Option.{is_some};
ghost use Rattle.irp_core.specs.declared.ids.IrpLife.{IrpLife};
ghost use Rattle.irp_core.specs.declared.inside.Inside.TheVariants.{Nothing};
ghost use Rattle.irp_core.specs.declared.step.Kind.TheVariants.{Out as StepOut};
ghost use Rattle.csq_list.specs.Searches.{is_listed};
ghost use Rattle.csq_words.specs.declared.views.{Event.{Event, TheVariants.{Insert, RemoveNext, Remove, Out, PutBack}}, InsertReply.TheVariants.{Refused}, Reusing.TheVariants.{Nothing as IdleQueue}};
ghost use Rattle.irp_core.specs.Own.{inside_of, owes_in};
ghost use Rattle.csq_words.specs.Calls.{due_mark};
ghost use Rattle.csq_words.specs.Queue.{present_in, refusal, back_refusal};
ghost use Rattle.csq_words.specs.History.{end_of};
ghost use Rattle.csq_words.specs.Records.{queue_of, caught_up, with_trace, with_step};
ghost use Rattle.csq_words.specs.Seats.{IsJoined, joined_record, pass_at, pass_record};
ghost use Rattle.csq_words.specs.Rule.{CallAgrees};
ghost use Rattle.irp_core.specs.Inside.{has_lock};
ghost use Rattle.csq_queue.specs.Effects.{IsNew};
ghost use Rattle.csq_queue.specs.Steps.{MakesSteps, insert_steps, put_back_steps, remove_next_steps, remove_steps, reuse_steps};
ghost use Rattle.csq_queue.specs.Opens.{limits_on};
ghost use Rattle.csq_queue.specs.Adding.{IsEntered, Adds};
ghost use Rattle.csq_queue.specs.Inserts.{IsInsert, IsPutBack, given_in};
ghost use Rattle.csq_queue.specs.Owned.{HoldsRemoved};
ghost use Rattle.irp_core.specs.Lives.{last_life};
ghost use Rattle.csq_queue.specs.Refusals.{reuse_events, IsLookRefusal};
ghost use Rattle.csq_queue.specs.Searches.{marked};

use crate::irp_table::IrpTable;
use crate::open::OpenInserted;
use crate::refusals::ReuseRefused;
use crate::tokens::InsertAnswer;
use csq_list::{InsertStatus, Peek, PendingList, Place};
use csq_words::{Call, Note, PassSeat, QueueSeat, Words, is_set, status_read};
use irp_core::{FileId, IrpId, IrpLife, Life};
use std::alloc::Allocator;

/// Gives the pass its record back, with the whole history and the execution so far, which the call's last
/// step observed. It adds nothing to the seat's own call but what its contract says of the execution.
pub(crate) fn leave<A: Allocator>(seat: &mut QueueSeat, words: &Words<A>, pass: &mut PassSeat)
    requires words { seat.old.table ≡ words.now.table }
    requires joined { IsJoined seat.old }
    requires ended { has_lock (inside_of (joined_record seat.old).steps) ≡ false }
    requires idle { seat.old.queue.reusing ≡ IdleQueue }
    requires agreed { CallAgrees words.now.size seat.old.queue (joined_record seat.old) }
    ensures queue { seat.new ≡ record seat.old
        { joined = None; queue = with_trace (pass_record pass.new).trace seat.old.queue } }
    ensures pass { pass.new ≡ pass_at words.now.table
        (caught_up (with_trace (pass_record pass.new).trace seat.old.queue) (joined_record seat.old)) }
    ensures run { CallAgrees words.now.size
        (with_trace (pass_record pass.new).trace seat.old.queue) (joined_record seat.old) }
    ensures last { (pass_record pass.new).trace ≡ seat.old.queue.trace }
{
    seat.leave(words, pass);
}

/// Lists an IRP, arms it and tests its Cancel flag. If that is set and the routine is still there,
/// the IRP leaves again.
pub(crate) fn list_irp<L: PendingList, A: Allocator>(
    list: &mut L,
    seat: &mut QueueSeat,
    kept: &mut IrpTable<A>,
    words: &Words<A>,
    irp: IrpId,
    file: FileId,
    place: Place,
) -> Result<OpenInserted, InsertStatus>
    requires entered { IsEntered words.now.table (limits_on words.now (L.listing list.old))
        (L.listing list.old) kept.old seat.old }
    ensures accepted { IfOk result (λ inserted. (events : List Event)
        × IsInsert (present_in (queue_of seat.old.queue) irp) file place inserted events
        × Adds (limits_on words.now (L.listing list.old)) seat.old events (L.listing list.new)
        kept.new seat.new) }
    ensures steps { MakesSteps (insert_steps result
        (end_of words.now.size.first seat.new.queue.history)) (joined_record seat.old)
        (joined_record seat.new) }
    ensures new { IfSome (given_in result) (IsNew (limits_on words.now (L.listing list.old))
        (joined_record seat.old)) }
    ensures refused { IfErr result (λ cause. Adds (limits_on words.now (L.listing list.old))
        seat.old (Insert irp file place (Refused cause) ∷ []) (L.listing list.new) kept.new
        seat.new) }
    ensures cause { IfErr result (λ cause. refusal (limits_on words.now (L.listing list.old))
        (queue_of seat.old.queue) irp file ≡ Some cause) }
    ensures agreed { CallAgrees words.now.size seat.new.queue (joined_record seat.new) }
    ensures outside { inside_of (joined_record seat.new).steps ≡ Nothing }
{
    let call = Call::Insert(irp, file, place);
    if let Err(cause) = list.insert_ex(irp, file, place) {
        // Linearization point: this load. The list is as it was, and nothing was armed.
        seat.note(words, call, Note::Refused(cause));
        return Err(cause);
    }
    let present = kept.present(irp);
    // So that a put-back finds the file object, which the list forgets when the IRP leaves it.
    kept.set_file(irp, file);
    // The insert arms, then tests; a canceller flags, then takes. Each writes its word before it looks
    // at the other's (Dekker's pattern), so that at least one of the two sees what the other wrote.
    seat.arm(words, call, present);
    // Linearization point where the flag is clear. A flag that is set from now on is followed by a take
    // that finds the routine, unless another exchange has found it before.
    if !is_set(seat.test(words, call, irp)) {
        return Ok(InsertAnswer::Pending(present));
    }
    // The flag is set: a canceller may want the IRP too. This exchange decides, and is the
    // linearization point either way. If it finds no routine, the canceller has the IRP, and takes
    // it out under the lock.
    if !is_set(seat.disarm(words, call, present)) {
        return Ok(InsertAnswer::Pending(present));
    }
    // No canceller can get the IRP any more: this pass has to complete it.
    list.remove(irp);
    Ok(InsertAnswer::Cancelled(present))
}

/// Lists an IRP again that the joined pass got by a removal, for the file object that it was accepted for:
/// an insert's own steps, in the same life.
pub(crate) fn relist_irp<L: PendingList, A: Allocator>(
    list: &mut L,
    seat: &mut QueueSeat,
    kept: &IrpTable<A>,
    words: &Words<A>,
    irp: IrpLife,
    place: Place,
) -> Result<OpenInserted, InsertStatus>
    requires entered { IsEntered words.now.table (limits_on words.now (L.listing list.old))
        (L.listing list.old) kept.now seat.old }
    requires held { HoldsRemoved words.now.size.irps (joined_record seat.old) irp }
    ensures accepted { IfOk result (λ answer. (events : List Event)
        × IsPutBack irp ((queue_of seat.old.queue).file_of irp.irp) place answer events
        × Adds (limits_on words.now (L.listing list.old)) seat.old events (L.listing list.new)
        kept.now seat.new) }
    ensures steps { MakesSteps (put_back_steps result
        (end_of words.now.size.first seat.new.queue.history)) (joined_record seat.old)
        (joined_record seat.new) }
    ensures refused { IfErr result (λ cause. Adds (limits_on words.now (L.listing list.old))
        seat.old (PutBack irp ((queue_of seat.old.queue).file_of irp.irp) place (Refused cause)
        ∷ []) (L.listing list.new) kept.now seat.new) }
    ensures cause { IfErr result (λ cause. back_refusal
        (limits_on words.now (L.listing list.old)) (queue_of seat.old.queue) irp
        ((queue_of seat.old.queue).file_of irp.irp) ≡ Some cause) }
    ensures agreed { CallAgrees words.now.size seat.new.queue (joined_record seat.new) }
    ensures outside { inside_of (joined_record seat.new).steps ≡ Nothing }
{
    let file = kept.file(irp.irp);
    let call = Call::PutBack(irp, file, place);
    if let Err(cause) = list.put_back_ex(irp.irp, file, place) {
        // Linearization point: this load. The list is as it was, and the pass still holds the IRP.
        seat.note(words, call, Note::Refused(cause));
        return Err(cause);
    }
    // As an insert does, the put-back sets the routine, then tests. The Cancel flag is never cleared in a
    // life: a cancel that came while the pass held the IRP found no routine, and the test sees its flag.
    seat.rearm(words, call, irp);
    // Linearization point if the flag is clear. A cancel that comes later finds the routine.
    if !is_set(seat.test(words, call, irp.irp)) {
        return Ok(InsertAnswer::Pending(irp));
    }
    // The exchange decides between the put-back and a second cancel, whose take came after the rearm, and is
    // the linearization point either way.
    if !is_set(seat.disarm(words, call, irp)) {
        return Ok(InsertAnswer::Pending(irp));
    }
    // The cancel that came before is not lost: this pass has to complete the IRP as cancelled.
    list.remove(irp.irp);
    Ok(InsertAnswer::Cancelled(irp))
}

/// Takes out the first match that no canceller has. Those before it are marked.
pub(crate) fn take_match<L: PendingList, A: Allocator>(
    list: &mut L,
    seat: &mut QueueSeat,
    kept: &IrpTable<A>,
    words: &Words<A>,
    peek: Peek,
) -> Option<IrpLife>
    requires entered { IsEntered words.now.table (limits_on words.now (L.listing list.old))
        (L.listing list.old) kept.now seat.old }
    ensures adds { (marks : List IrpLife)
        × Adds (limits_on words.now (L.listing list.old)) seat.old
        (RemoveNext peek result ∷ marked marks) (L.listing list.new) kept.now seat.new }
    ensures steps { MakesSteps (remove_next_steps peek result (queue_of seat.old.queue))
        (joined_record seat.old) (joined_record seat.new) }
    ensures new { IfSome result (IsNew (limits_on words.now (L.listing list.old))
        (joined_record seat.old)) }
    ensures agreed { CallAgrees words.now.size seat.new.queue (joined_record seat.new) }
    ensures outside { inside_of (joined_record seat.new).steps ≡ Nothing }
{
    let call = Call::RemoveNext(peek);
    let mut after = None;
    'search: while let Some(next) = list.peek_next(after, peek) {
        let present = kept.present(next);
        // Linearization point where this finds the routine: no cancel can get the IRP any more.
        if is_set(seat.disarm(words, call, present)) {
            list.remove(next);
            return Some(present);
        }
        // A canceller's exchange was first, and the IRP stays listed until that canceller has the lock.
        // The search goes on behind it: what waits there is to be had.
        after = Some(next);
    }
    // Linearization point of None: this load. Every match that is left is a canceller's.
    seat.note(words, call, Note::Event);
    None
}

/// Whether an IRP is listed in the life named.
fn is_here<L: PendingList, A: Allocator>(list: &L, kept: &IrpTable<A>, irp: IrpLife) -> bool
    requires { is_listed (L.listing list.now).entries irp.irp ≡ true
        → irp.irp.0 < length kept.now.lives }
    ensures { result ≡ (is_listed (L.listing list.now).entries irp.irp
        && (slice_index kept.now.lives irp.irp.0 == irp.life.0)) }
{
    list.is_listed(irp.irp) && kept.is_present(irp)
}

/// Takes out this IRP, unless it isn't listed in the life named or a canceller has it.
pub(crate) fn take_one<L: PendingList, A: Allocator>(
    list: &mut L,
    seat: &mut QueueSeat,
    kept: &IrpTable<A>,
    words: &Words<A>,
    irp: IrpLife,
) -> Option<IrpLife>
    requires entered { IsEntered words.now.table (limits_on words.now (L.listing list.old))
        (L.listing list.old) kept.now seat.old }
    ensures irp { IfSome result (λ taken. taken ≡ irp) }
    ensures adds { (marks : List IrpLife)
        × Adds (limits_on words.now (L.listing list.old)) seat.old
        (Remove irp (is_some result) ∷ marked marks) (L.listing list.new) kept.now seat.new }
    ensures steps { MakesSteps (remove_steps irp result (queue_of seat.old.queue))
        (joined_record seat.old) (joined_record seat.new) }
    ensures new { IfSome result (IsNew (limits_on words.now (L.listing list.old))
        (joined_record seat.old)) }
    ensures agreed { CallAgrees words.now.size seat.new.queue (joined_record seat.new) }
    ensures outside { inside_of (joined_record seat.new).steps ≡ Nothing }
{
    let call = Call::Remove(irp);
    if !is_here(list, kept, irp) {
        // No exchange: it would write a life that may be over. Linearization point: this load.
        seat.note(words, call, Note::Event);
        return None;
    }
    // Linearization point where this finds the routine: no cancel can get the IRP any more.
    if is_set(seat.disarm(words, call, irp)) {
        list.remove(irp.irp);
        return Some(irp);
    }
    // A canceller's exchange was first; the IRP stays listed for it. Linearization point: this load.
    seat.note(words, call, Note::Event);
    None
}

/// Takes out an IRP that the joined pass owes.
pub(crate) fn take_owed<L: PendingList, A: Allocator>(
    list: &mut L,
    seat: &mut QueueSeat,
    kept: &IrpTable<A>,
    words: &Words<A>,
    irp: IrpLife,
)
    requires entered { IsEntered words.now.table (limits_on words.now (L.listing list.old))
        (L.listing list.old) kept.now seat.old }
    requires owed { owes_in (joined_record seat.old).steps irp ≡ true }
    ensures adds { Adds (limits_on words.now (L.listing list.old)) seat.old
        (Out irp ∷ due_mark irp (queue_of seat.old.queue)) (L.listing list.new) kept.now seat.new }
    ensures steps { (joined_record seat.new).steps
        ≡ (with_step (StepOut irp) 0 (joined_record seat.old)).steps }
    ensures known { irp.irp.0 < words.now.size.irps }
    ensures agreed { CallAgrees words.now.size seat.new.queue (joined_record seat.new) }
    ensures outside { inside_of (joined_record seat.new).steps ≡ Nothing }
{
    // No exchange: the pass's own take found the routine, so nobody else has taken the IRP out.
    // Linearization point: this load.
    seat.note(words, Call::CancelRoutine(irp.irp), Note::Event);
    list.remove(irp.irp);
}

/// Begins the next life of an IRP, if its present one was completed and isn't the last.
pub(crate) fn renew_irp<L: PendingList, A: Allocator>(
    list: &mut L,
    seat: &mut QueueSeat,
    kept: &mut IrpTable<A>,
    words: &Words<A>,
    irp: IrpId,
) -> Result<Life, ReuseRefused>
    requires first { words.now.size.first ≤ last_life }
    requires entered { IsEntered words.now.table (limits_on words.now (L.listing list.old))
        (L.listing list.old) kept.old seat.old }
    requires known { irp.0 < words.now.size.irps }
    ensures adds { Adds (limits_on words.now (L.listing list.old)) seat.old
        (reuse_events irp result) (L.listing list.new) kept.new seat.new }
    ensures steps { MakesSteps (reuse_steps irp result) (joined_record seat.old)
        (joined_record seat.new) }
    ensures refused { IfErr result (IsLookRefusal (present_in (queue_of seat.new.queue) irp)
        (joined_record seat.old) seat.new.queue) }
    ensures agreed { CallAgrees words.now.size seat.new.queue (joined_record seat.new) }
    ensures outside { inside_of (joined_record seat.new).steps ≡ Nothing }
{
    let call = Call::Reuse(irp);
    // Only a completed life may end: nobody owes or holds the IRP then, and it isn't listed.
    let (life, status) = status_read(seat.look(words, call, irp));
    if status.is_none() {
        return Err(ReuseRefused::NotCompleted);
    }
    if life.0 == Life::LAST.0 {
        return Err(ReuseRefused::LivesSpent);
    }
    let present = IrpLife { irp, life };
    // The flag comes last, and is the linearization point. Until then a late cancel flags the life that
    // ends, if no routine is left to take; from then on it finds another life. The routine's word stays
    // as it is: none is set there, and a cancel takes that of its own life alone.
    seat.renew_status(words, call, present);
    seat.renew_cancel(words, call, present);
    // Still under the lock, so no call that takes it sees list, lives and words apart.
    list.renew(irp);
    kept.begin_next(irp);
    Ok(Life(life.0 + 1))
}
