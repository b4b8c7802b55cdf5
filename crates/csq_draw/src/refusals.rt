//! The first step of a schedule that the protocol refuses.
ghost use Rattle.std.specs.Prelude.{◌≡◌};
ghost use Rattle.csq_draw.specs.Refusals.{legality_of, first_refusal, noted_step};

use crate::marks::Legality;
use csq_explain::{Reason, goes_on};
use csq_replay::Stop;
use irp_core::{Step, StepRefused};

/// The line and the row of a step that the protocol refuses, and why.
#[derive(Clone, Copy)]
pub struct FirstRefusal {
    pub(crate) line: usize,
    pub(crate) row: u32,
    pub(crate) reason: Reason,
}

/// How a step that the execution refuses stands to the protocol, after this refusal.
pub(crate) fn legality_of(before: Option<FirstRefusal>, cause: StepRefused) -> Legality
    ensures { result ≡ legality_of before cause }
{
    match before {
        Some(_) => Legality::Later,
        None => Legality::Refused(cause),
    }
}

/// The first refusal, after this one.
pub(crate) fn first_refusal(before: Option<FirstRefusal>, refusal: FirstRefusal) -> FirstRefusal
    ensures { result ≡ first_refusal before refusal }
{
    match before {
        Some(first) => first,
        None => refusal,
    }
}

/// The step that a drawing goes on after, if it goes on after refused ones, and why it is refused.
pub(crate) fn noted_step(wrong: bool, stop: Stop) -> Option<(Step, StepRefused)>
    ensures { result ≡ noted_step wrong stop }
{
    match stop {
        Stop::Refused(step, cause) if wrong && goes_on(stop) => Some((step, cause)),
        _ => None,
    }
}
