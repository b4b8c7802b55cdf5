//! What comes of a line of a schedule.
ghost use Rattle.std.specs.Prelude.{◌≡◌, List};
ghost use Rattle.irp_core.specs.declared.step.Made.{Made};
ghost use Rattle.irp_core.specs.MachineState.{Agrees, size_of};
ghost use Rattle.csq_replay.specs.Outcomes.{ComesTo, run_after};

use crate::lines::{MAX_LINE, is_skipped};
use crate::schedule::step_line::parse_step;
use irp_core::{Machine, Made, Step, StepRefused};
use std::alloc::Allocator;
use std::fmt;

/// Why a line ends the handling of a schedule. Own rule.
#[derive(Clone, Copy)]
pub enum Stop {
    /// It has more than 64 bytes.
    TooLong,
    /// It names no step.
    Malformed,
    /// It names this step, which can't come next, for this cause.
    Refused(Step, StepRefused),
}

/// As it is reported after the line's number: `too long`, `malformed`, or as `refused NotHome`.
impl fmt::Display for Stop {
    ghost use Rattle.std.specs.Prelude.{Some};
    ghost use Rattle.csq_replay.specs.Outcomes.{stop_text};

    ghost output = { λ stop. Some (stop_text stop) };

    fn fmt<W: fmt::Write>(&self, f: &mut fmt::Formatter<W>) -> fmt::Result {
        match self {
            Stop::TooLong => write!(f, "too long"),
            Stop::Malformed => write!(f, "malformed"),
            Stop::Refused(_, cause) => write!(f, "refused {cause}"),
        }
    }
}

/// What comes of a line of a schedule.
#[derive(Clone, Copy)]
pub enum Outcome {
    /// Nothing: it is empty, or a comment.
    Skipped,
    /// Its step was made.
    Accepted(Made),
    /// It ends the handling.
    Stopped(Stop),
}

/// Makes the step that a line names, if it may come next. Of every run that the machine agrees with, what
/// is returned is what comes of the line after that run, and the machine then agrees with the run that it
/// leads to. Own rule. In line, since each line of a schedule calls it, which saves a sixth of the time.
#[inline(always)]
pub fn handle_line<A: Allocator>(machine: &mut Machine<A>, line: &[u8]) -> Outcome
    ensures comes { (E : List Made) → Agrees machine.old E
        → ComesTo (size_of machine.old) E line.now result
        × Agrees machine.new (run_after E result) }
    ensures size { size_of machine.new ≡ size_of machine.old }
{
    if line.len() > MAX_LINE {
        return Outcome::Stopped(Stop::TooLong);
    }
    if is_skipped(line) {
        return Outcome::Skipped;
    }
    let Some(step) = parse_step(line) else {
        return Outcome::Stopped(Stop::Malformed);
    };
    match machine.step(step) {
        Ok(found) => Outcome::Accepted(Made {
            pass: step.pass,
            kind: step.kind,
            found,
        }),
        Err(cause) => Outcome::Stopped(Stop::Refused(step, cause)),
    }
}
