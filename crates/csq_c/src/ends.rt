//! How what a queue's handle stands for is made, gives out passes, and ends.
ghost use Rattle.std.specs.Prelude.{◌≡◌, ◌⊎◌, ◌↔◌, Ok, Err, Some, None, IsOk, IfOk, IfErr, OnOk, OnErr, IfSome};
ghost use Rattle.csq_c.specs.Bodies.{IsPassFor};
ghost use Rattle.csq_checked.specs.Idle.{NoneIsIdle};
ghost use Rattle.csq_c.specs.Ends.{IsHandedOut, IsLeftOf, IsTakenBack, give_back_code, out_left, out_of_open};

use crate::body::QueueBody;
use crate::codes::{Code, of_new, of_pass};
use csq_checked::{CheckedPass, CheckedQueue};
use irp_core::SizeRefused;
use std::alloc::Global;

impl QueueBody {
    /// A queue that was made, or why there is none.
    pub(crate) fn opened(
        alloc: Global,
        made: Result<CheckedQueue, SizeRefused>,
    ) -> Result<Box<QueueBody>, Code>
        ensures opened { IfOk result (λ body. IfOk made
            (λ queue. body.value ≡ record { queue = Some queue; rest = None })) }
        ensures made { IsOk result → IsOk made }
        ensures bad_size { (result ≡ Err Code.BadSize) ↔ (made ≡ Err SizeRefused.BadSize) }
        ensures cause { IfErr result (λ code. (code ≡ Code.BadSize) ⊎ (code ≡ Code.NoMemory)) }
    {
        let queue = match made {
            Ok(queue) => queue,
            Err(refused) => return Err(of_new(refused)),
        };
        let body = QueueBody {
            queue: Some(queue),
            rest: None,
        };
        match Box::new(alloc, body) {
            Ok(body) => Ok(body),
            Err(_) => Err(Code::NoMemory),
        }
    }

    /// A pass, if the queue is open: the first that is idle, else the next new one.
    pub(crate) fn take_pass(&mut self, alloc: Global) -> Result<Box<CheckedPass>, Code>
        ensures closed { self.old.queue ≡ None → result ≡ Err Code.Closed }
        ensures none { IfSome self.old.queue (λ q. (result ≡ Err Code.NoPass)
            ↔ ((q.left ≡ 0) × NoneIsIdle q.idle)) }
        ensures cause { IfSome self.old.queue
            (λ q. IfErr result (λ code. (code ≡ Code.NoPass) ⊎ (code ≡ Code.NoMemory))) }
        ensures pass { IfOk result (λ pass. IsHandedOut self.old self.new pass.value) }
        ensures kept { OnErr result (self.new ≡ self.old) }
    {
        let Some(queue) = &mut self.queue else {
            return Err(Code::Closed);
        };
        match queue.take_pass(alloc) {
            Ok(pass) => Ok(pass),
            Err(refused) => Err(of_pass(refused)),
        }
    }

    /// Takes a pass back that holds and owes nothing, if the queue is open.
    pub(crate) fn give_back(
        &mut self,
        pass: Box<CheckedPass>,
    ) -> Result<(), (Code, Box<CheckedPass>)>
        requires { IsPassFor self.old pass.value }
        ensures done { OnOk result (give_back_code self.old pass.value ≡ Code.Done) }
        ensures back { OnOk result (IsTakenBack self.old self.new pass.value.pass) }
        ensures cause { IfErr result (λ kept. (kept.0 ≡ Code.Closed) ⊎ (kept.0 ≡ Code.Holding)) }
        ensures refused { IfErr result (λ kept. (kept.0 ≡ give_back_code self.old pass.value)
            × (kept.1 ≡ pass) × (self.new ≡ self.old)) }
    {
        let Some(queue) = &mut self.queue else {
            return Err((Code::Closed, pass));
        };
        match queue.give_back(pass) {
            Ok(()) => Ok(()),
            Err(pass) => Err((Code::Holding, pass)),
        }
    }

    /// How many passes are out, if the queue is open.
    pub(crate) fn passes_out(&self) -> Option<u32>
        ensures { result ≡ out_of_open self.now.queue }
    {
        match &self.queue {
            None => None,
            Some(queue) => Some(queue.passes_out()),
        }
    }

    /// How many passes are out, of a queue that is open or closed.
    pub(crate) fn out_left(&self) -> u32
        ensures { result ≡ out_left self.now.queue }
    {
        match &self.queue {
            None => 0,
            Some(queue) => queue.passes_out(),
        }
    }

    /// Closes the queue, where it is open and no pass is out.
    pub(crate) fn close(&mut self) -> Code
        ensures closed { self.old.queue ≡ None → (result ≡ Code.Closed) × (self.new ≡ self.old) }
        ensures cause { IfSome self.old.queue
            (λ q. (result ≡ Code.Done) ⊎ ((result ≡ Code.PassesOut) × (self.new ≡ self.old))) }
        ensures rest { result ≡ Code.Done → (self.new.queue ≡ None)
            × IfSome self.old.queue (λ q. IfSome self.new.rest (IsLeftOf q)) }
        ensures some { result ≡ Code.Done → ¬ (self.new.rest ≡ None) }
    {
        let Some(queue) = self.queue.take() else {
            return Code::Closed;
        };
        match queue.close() {
            Ok(rest) => {
                self.rest = Some(rest);
                Code::Done
            }
            Err(queue) => {
                self.queue = Some(queue);
                Code::PassesOut
            }
        }
    }
}
