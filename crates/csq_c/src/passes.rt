//! How passes are handed out, given back and abandoned.
ghost use Rattle.std.specs.Prelude.{◌≡◌, ◌⊎◌, ◌<◌, ◌↔◌, Some, None, IfSome};
ghost use Rattle.csq_checked.specs.Passes.{CheckedPassState};
ghost use Rattle.csq_c.specs.Bodies.{QueueBodyState, open_of};
ghost use Rattle.csq_c.specs.Codes.{number_of};
ghost use Rattle.csq_c.specs.Exports.{ArePaired, AreHandlesKept, IsPassKept};
ghost use Rattle.csq_checked.specs.Idle.{NoneIsIdle};
ghost use Rattle.csq_c.specs.Ends.{IsHandedOut, IsTakenBack, abandon_code, give_back_code, take_cause};

use crate::codes::Code;
use crate::handles::{CsqPass, CsqQueue, lend};
use crate::hold::{put, take};
use std::alloc::Global;

/// Hands out a pass, one that came back before a new one, under the caller's lock: CSQ_OK, else
/// CSQ_EMPTY_HANDLE (also for a queue whose number is still 0), CSQ_NOT_EMPTY,
/// CSQ_CLOSED, CSQ_NO_PASS or CSQ_NO_MEMORY. Own rule.
#[unsafe(no_mangle)]
pub extern "C" fn csq_take_pass(alloc: Global, queue: &mut CsqQueue, pass: &mut CsqPass) -> u32
    ensures numberless { queue.old.number ≡ 0 → result ≡ number_of Code.EmptyHandle }
    ensures refused { 0 < queue.old.number → IfSome
        (take_cause queue.old.boxed.body pass.old.boxed.body)
        (λ cause. result ≡ number_of cause) }
    ensures none { 0 < queue.old.number → IfSome (open_of queue.old.boxed.body)
        (λ q. pass.old.boxed.body ≡ None → ((result ≡ number_of Code.NoPass)
        ↔ ((q.left ≡ 0) × NoneIsIdle q.idle))) }
    ensures cause { 0 < queue.old.number → IfSome (open_of queue.old.boxed.body)
        (λ q. pass.old.boxed.body ≡ None → (result ≡ number_of Code.Done)
        ⊎ ((result ≡ number_of Code.NoPass) ⊎ (result ≡ number_of Code.NoMemory))) }
    ensures made { result ≡ number_of Code.Done → (body body' : QueueBodyState)
        × (p : CheckedPassState) × (queue.old.boxed.body ≡ Some body)
        × (queue.new.boxed.body ≡ Some body') × (pass.new.boxed.body ≡ Some p)
        × (pass.new.queue ≡ queue.old.number) × IsHandedOut body body' p }
    ensures number { queue.new.number ≡ queue.old.number }
    ensures kept { 0 < result → AreHandlesKept queue.old queue.new pass.old pass.new }
{
    lend!(body in queue);
    // By its number a queue knows its passes, so one without a number has none.
    if queue.number == 0 {
        return Code::EmptyHandle.number();
    }
    if pass.boxed.is_filled() {
        return Code::NotEmpty.number();
    }
    match body.take_pass(alloc) {
        Err(code) => code.number(),
        Ok(by) => {
            put(&mut pass.boxed, by);
            pass.queue = queue.number;
            Code::Done.number()
        }
    }
}

/// Gives a pass back, under the caller's lock: CSQ_OK, and its handle is empty, else
/// CSQ_EMPTY_HANDLE, CSQ_OTHER_QUEUE where it is another queue's, CSQ_CLOSED, or CSQ_HOLDING where
/// it holds or owes IRPs. Own rule.
#[unsafe(no_mangle)]
pub extern "C" fn csq_give_back(alloc: Global, queue: &mut CsqQueue, pass: &mut CsqPass) -> u32
    requires { ArePaired queue.old pass.old }
    ensures empty { (queue.old.boxed.body ≡ None) ⊎ (pass.old.boxed.body ≡ None)
        → result ≡ number_of Code.EmptyHandle }
    ensures other { IfSome queue.old.boxed.body (λ body. IfSome pass.old.boxed.body
        (λ p. ¬ (pass.old.queue ≡ queue.old.number) → result ≡ number_of Code.OtherQueue)) }
    ensures code { IfSome queue.old.boxed.body (λ body. IfSome pass.old.boxed.body
        (λ p. pass.old.queue ≡ queue.old.number → result ≡ number_of (give_back_code body p))) }
    ensures back { result ≡ number_of Code.Done
        → (pass.new.boxed.body ≡ None) × (body body' : QueueBodyState) × (p : CheckedPassState)
        × (queue.old.boxed.body ≡ Some body) × (pass.old.boxed.body ≡ Some p)
        × (queue.new.boxed.body ≡ Some body') × IsTakenBack body body' p.pass }
    ensures number { queue.new.number ≡ queue.old.number }
    ensures kept { 0 < result → AreHandlesKept queue.old queue.new pass.old pass.new }
{
    lend!(body in queue);
    // An empty handle has whatever number C gave it, so it is looked at only of a pass.
    if pass.boxed.is_filled() && pass.queue != queue.number {
        return Code::OtherQueue.number();
    }
    let Some(by) = take(&mut pass.boxed, alloc) else {
        return Code::EmptyHandle.number();
    };
    match body.give_back(by) {
        Ok(()) => Code::Done.number(),
        Err((code, by)) => {
            put(&mut pass.boxed, by);
            code.number()
        }
    }
}

/// Frees a pass without giving it back, so that its queue is never closed: CSQ_OK, and the handle
/// is empty, else CSQ_EMPTY_HANDLE, or CSQ_HOLDING if it holds or owes IRPs. Own rule.
#[unsafe(no_mangle)]
pub extern "C" fn csq_abandon_pass(alloc: Global, pass: &mut CsqPass) -> u32
    ensures code { result ≡ number_of (abandon_code pass.old.boxed.body) }
    ensures freed { result ≡ number_of Code.Done → pass.new.boxed.body ≡ None }
    ensures kept { 0 < result → IsPassKept pass.old pass.new }
{
    lend!(by in pass);
    if by.tokens() > 0 || by.claims() > 0 {
        return Code::Holding.number();
    }
    drop(take(&mut pass.boxed, alloc));
    Code::Done.number()
}
