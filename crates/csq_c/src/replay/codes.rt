//! The codes of the causes that refuse a step.
ghost use Rattle.std.specs.Prelude.{◌≡◌};
ghost use Rattle.csq_c.specs.ReplayShapes.{cause_code, life_asked, pass_asked};

use crate::codes::Code;
use irp_core::{PassId, StepRefused};

/// Why a step was refused.
pub(crate) fn of_cause(cause: StepRefused) -> Code
    ensures { result ≡ cause_code cause }
{
    match cause {
        StepRefused::UnknownIrp => Code::UnknownIrp,
        StepRefused::UnknownPass => Code::UnknownPass,
        StepRefused::LockHeld(_) => Code::LockHeld,
        StepRefused::NotNext => Code::NotNext,
        StepRefused::NotHome => Code::NotHome,
        StepRefused::NotListed => Code::NotListed,
        StepRefused::NotOwed => Code::NotOwed,
        StepRefused::NotHeld => Code::NotHeld,
        StepRefused::Stale(_) => Code::Stale,
        StepRefused::NotCompleted => Code::NotCompleted,
        StepRefused::LivesSpent => Code::LivesSpent,
    }
}

/// The pass that the refusal of this pass's step is about.
pub(crate) fn pass_asked(pass: PassId, cause: StepRefused) -> PassId
    ensures { result ≡ pass_asked pass cause }
{
    match cause {
        StepRefused::LockHeld(holder) => holder,
        _ => pass,
    }
}

/// The present life of the IRP, if the step names another.
pub(crate) fn life_asked(cause: StepRefused) -> u32
    ensures { result ≡ life_asked cause }
{
    match cause {
        StepRefused::Stale(life) => life.0,
        _ => 0,
    }
}
