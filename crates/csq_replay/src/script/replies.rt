//! What is reported for each call.
ghost use Rattle.std.specs.Prelude.{◌≡◌};
ghost use Rattle.csq_words.specs.Queue.{Limits};
ghost use Rattle.csq_replay.specs.Calls.{Script, Does, status_reply};
ghost use Rattle.csq_replay.specs.CallOutcomes.{CallComesTo};
ghost use Rattle.csq_replay.specs.Drivers.{StandsAt, IsStanding, DidNext, keeping};
ghost use Rattle.csq_replay.specs.Replies.{reported, insert_reply, taken_reply, mark_reply};

use crate::lines::{MAX_LINE, is_skipped};
use crate::script::call::{CallRefused, InsertOutcome, Reply, ScriptCall};
use crate::script::call_line::parse_call;
use crate::script::driver::Driver;
use crate::script::outcome::{CallOutcome, CallStop};
use csq_list::{InsertStatus, PendingList};
use irp_core::{IrpId, NtStatus};
use std::alloc::Allocator;

fn insert_reply(answer: Result<InsertOutcome, InsertStatus>) -> Reply
    ensures { result ≡ insert_reply answer }
{
    match answer {
        Ok(InsertOutcome::Pending) => Reply::Pending,
        Ok(InsertOutcome::Cancelled) => Reply::Cancelled,
        Err(cause) => Reply::InsertRefused(cause),
    }
}

fn taken_reply(taken: Option<IrpId>) -> Reply
    ensures { result ≡ taken_reply taken }
{
    match taken {
        Some(irp) => Reply::Removed(irp),
        None => Reply::NoIrp,
    }
}

fn mark_reply(claimed: bool) -> Reply
    ensures { result ≡ mark_reply claimed }
{
    if claimed {
        Reply::Claimed
    } else {
        Reply::Unclaimed
    }
}

fn status_reply(status: Option<NtStatus>) -> Reply
    ensures { result ≡ status_reply status }
{
    match status {
        Some(status) => Reply::Status(status),
        None => Reply::Unset,
    }
}

impl<L: PendingList, A: Allocator> Driver<L, A> {
    /// Makes the call that a line names, and returns what comes of the line. Own rule.
    pub fn handle(&mut self, line: &[u8]) -> CallOutcome
        requires { IsStanding (keeping L.listing self.old) }
        ensures { (l : Limits) (s : Script) → StandsAt l (keeping L.listing self.old) s
            → (t : Script) × CallComesTo l s line.now result t
            × StandsAt l (keeping L.listing self.new) t }
    {
        if line.len() > MAX_LINE {
            return CallOutcome::Stopped(CallStop::TooLong);
        }
        if is_skipped(line) {
            return CallOutcome::Skipped;
        }
        let Some(call) = parse_call(line) else {
            return CallOutcome::Stopped(CallStop::Malformed);
        };
        let reply = self.answer(call);
        CallOutcome::Answered(call, reply)
    }

    /// Makes a call, and returns its reply.
    fn answer(&mut self, call: ScriptCall) -> Reply
        requires { IsStanding (keeping L.listing self.old) }
        ensures { (l : Limits) (s : Script) → StandsAt l (keeping L.listing self.old) s
            → (t : Script) × Does l s call result t × StandsAt l (keeping L.listing self.new) t }
    {
        match self.report(call) {
            Ok(reply) => reply,
            Err(refusal) => Reply::Refused(refusal),
        }
    }

    /// Makes a call, and returns its reply if it isn't refused.
    fn report(&mut self, call: ScriptCall) -> Result<Reply, CallRefused>
        requires { IsStanding (keeping L.listing self.old) }
        ensures { DidNext (keeping L.listing self.old) call (reported (λ reply. reply) result)
            (keeping L.listing self.new) }
    {
        match call {
            ScriptCall::Insert(irp, file, place) => Ok(insert_reply(self.insert(irp, file, place))),
            ScriptCall::Next(peek) => Ok(taken_reply(self.next(peek))),
            ScriptCall::Remove(name) => Ok(taken_reply(self.remove(name)?)),
            ScriptCall::Mark(name) => Ok(mark_reply(self.mark(name)?)),
            ScriptCall::Routine(irp) => Ok(Reply::Completed(self.routine(irp)?)),
            ScriptCall::Cancel(name) => Ok(Reply::CancelAnswered(self.cancel(name)?)),
            ScriptCall::Complete(irp, status) => Ok(Reply::Completed(self.complete(irp, status)?)),
            ScriptCall::Close(file) => {
                self.close(file)?;
                Ok(Reply::Closed)
            }
            ScriptCall::Cleanup(file) => Ok(Reply::Cleaned(self.cleanup(file)?)),
            ScriptCall::Flag(irp) => Ok(Reply::Flag(self.flag(irp)?)),
            ScriptCall::Status(irp) => Ok(status_reply(self.status(irp)?)),
            ScriptCall::Reuse(irp) => Ok(Reply::Begun(self.reuse(irp)?)),
            ScriptCall::PutBack(irp, place) => Ok(insert_reply(self.put_back(irp, place)?)),
        }
    }
}
