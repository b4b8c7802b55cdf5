//! What comes of a line of a script.
use crate::script::call::{Reply, ScriptCall};
use std::fmt;

/// Why a line ends a script. Own rule.
#[derive(Clone, Copy)]
pub enum CallStop {
    /// It has more than 64 bytes.
    TooLong,
    /// It names no call.
    Malformed,
}

/// As it is reported after the line's number: `too long`, or `malformed`.
impl fmt::Display for CallStop {
    ghost use Rattle.std.specs.Prelude.{Some};
    ghost use Rattle.csq_replay.specs.CallOutcomes.{call_stop_text};

    ghost output = { λ stop. Some (call_stop_text stop) };

    fn fmt<W: fmt::Write>(&self, f: &mut fmt::Formatter<W>) -> fmt::Result {
        match self {
            CallStop::TooLong => write!(f, "too long"),
            CallStop::Malformed => write!(f, "malformed"),
        }
    }
}

/// What comes of a line of a script.
#[derive(Clone, Copy)]
pub enum CallOutcome {
    /// Nothing: it is empty, or a comment.
    Skipped,
    /// Its call was made, and answered so.
    Answered(ScriptCall, Reply),
    /// It ends the handling.
    Stopped(CallStop),
}
