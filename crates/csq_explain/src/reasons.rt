//! Why a line ends a schedule, in a sentence.
ghost use Rattle.std.specs.Prelude.{◌≡◌};
ghost use Rattle.csq_explain.specs.Reasons.{call_name, pass_asked};

use crate::irps::IrpState;
use crate::passes::PassNow;
use csq_replay::{MAX_LINE, Stop};
use irp_core::{Inside, Kind, PassId, Step, StepRefused};
use std::fmt;

/// Why a line ends the handling: the numbers of IRPs and passes, and what is known of the pass that it
/// comes from and of the IRP that it names.
#[derive(Clone, Copy)]
pub struct Reason {
    /// Why the line can't go on.
    pub stop: Stop,
    /// How many IRPs there are.
    pub irps: u32,
    /// How many passes there are.
    pub passes: u32,
    /// Who has the lock, or else the pass of the step.
    pub now: PassNow,
    /// Where the IRP of the step is.
    pub irp: IrpState,
}

/// The pass that a line's end concerns: the one that has the lock, otherwise the one that would make the step.
pub(crate) fn pass_asked(stop: Stop) -> PassId
    ensures { result ≡ pass_asked stop }
{
    match stop {
        Stop::Refused(_, StepRefused::LockHeld(pass)) => pass,
        Stop::Refused(step, _) => step.pass,
        Stop::TooLong | Stop::Malformed => PassId(0),
    }
}

/// The call that a pass is inside of, as `an insert`.
fn call_name(inside: Inside) -> &'static str
    ensures { result.now ≡ call_name inside }
{
    match inside {
        Inside::Nothing => "no call",
        Inside::Armed(_) | Inside::FlagSeen(_) => "an insert",
        Inside::Removing => "a removal",
        Inside::Cancelling(_) => "a cancel",
        Inside::Rearmed(_) | Inside::FlagSeenAgain(_) => "a put-back",
    }
}

/// The next step of a pass, by what it is inside of.
#[derive(Clone, Copy)]
struct NextStep(Inside);

/// As `test 0`.
impl fmt::Display for NextStep {
    ghost use Rattle.std.specs.Prelude.{Some};
    ghost use Rattle.csq_explain.specs.Reasons.{next_step};

    ghost output = { λ call. Some (next_step call.0) };

    fn fmt<W: fmt::Write>(&self, f: &mut fmt::Formatter<W>) -> fmt::Result {
        match self.0 {
            Inside::Nothing => write!(f, "the first of a call"),
            Inside::Armed(irp) | Inside::Rearmed(irp) => write!(f, "test {irp}"),
            Inside::FlagSeen(irp) | Inside::FlagSeenAgain(irp) => write!(f, "disarm {irp}"),
            Inside::Removing => write!(f, "a disarm or an end"),
            Inside::Cancelling(irp) => write!(f, "take {irp}"),
        }
    }
}

/// Why a step is refused.
#[derive(Clone, Copy)]
struct StepRefusal(Reason, Step, StepRefused);

/// As `p3 has had the lock since line 5, inside a removal; its next step is a disarm or an end`.
impl fmt::Display for StepRefusal {
    ghost use Rattle.std.specs.Prelude.{Some};
    ghost use Rattle.csq_explain.specs.Reasons.{cause_text};

    ghost output = { λ reported. Some (cause_text
        reported.0.irps reported.0.passes reported.0.now reported.1.pass reported.1.kind reported.2) };

    fn fmt<W: fmt::Write>(&self, f: &mut fmt::Formatter<W>) -> fmt::Result {
        let StepRefusal(reason, step, cause) = *self;
        let (pass, now) = (step.pass, reason.now);
        let (line, call, next) = (now.line, call_name(now.inside), NextStep(now.inside));
        match cause {
            StepRefused::UnknownIrp => write!(f, "an IRP's number is below {}", reason.irps),
            StepRefused::UnknownPass => write!(f, "a pass's number is 1 to {}", reason.passes),
            StepRefused::LockHeld(owner) => write!(
                f,
                "{owner} has had the lock since line {line}, inside {call}; its next step is {next}"
            ),
            StepRefused::NotNext => match now.inside {
                Inside::Nothing => write!(
                    f,
                    "{pass} is inside no call: an insert begins with arm, a put-back with rearm, a cancel with flag"
                ),
                _ => write!(
                    f,
                    "{pass} has been inside {call} since line {line}; its next step is {next}"
                ),
            },
            StepRefused::NotHome => write!(f, "the IRP was armed before in that life"),
            StepRefused::NotListed => write!(f, "the IRP isn't listed in that life"),
            StepRefused::NotOwed => write!(f, "{pass} doesn't owe the IRP in that life"),
            StepRefused::NotHeld => match step.kind {
                Kind::Rearm(_) => write!(
                    f,
                    "{pass} got the IRP by no removal in that life, or holds it no longer"
                ),
                _ => write!(f, "{pass} doesn't hold the IRP in that life"),
            },
            StepRefused::Stale(life) => write!(f, "the IRP is in its life {life}"),
            StepRefused::NotCompleted => write!(f, "the IRP isn't completed in that life"),
            StepRefused::LivesSpent => write!(f, "the IRP is in its last life"),
        }
    }
}

/// As `a line has at most 64 bytes`, or as the refusal of a step.
impl fmt::Display for Reason {
    ghost use Rattle.std.specs.Prelude.{Some};
    ghost use Rattle.csq_explain.specs.Reasons.{reason_text};

    ghost output = { λ reason. Some (reason_text reason) };

    #[tactic(auto, unfolding(crate::specs::Reasons::reason_text))]
    fn fmt<W: fmt::Write>(&self, f: &mut fmt::Formatter<W>) -> fmt::Result {
        match self.stop {
            Stop::TooLong => write!(f, "a line has at most {MAX_LINE} bytes"),
            Stop::Malformed => write!(
                f,
                "this is no step, as p1 arm 0: arm, test, disarm, flag, take, out, done, renew or rearm, or p1 end"
            ),
            Stop::Refused(step, cause) => write!(f, "{}", StepRefusal(*self, step, cause)),
        }
    }
}
