//! Diagnoses of schedules.
ghost use Rattle.std.specs.Prelude.{IfOk};
ghost use Rattle.irp_core.specs.Runs.{IsInLimits};
ghost use Rattle.csq_explain.specs.Explaining.{IsScheduleText};
ghost use Rattle.csq_diagnose.specs.Reports.{IsReport};
ghost use Rattle.csq_diagnose.specs.Schedules.{IsScheduleDiagnosis, IsWrongReport};

use crate::diagnosed::{Report, report_input};
use csq_explain::{Explanation, WrongOrder};
use std::alloc::{AllocError, Allocator};

/// Replays a schedule once: its answer, with `claims` with each claim and with `explains` with a sentence after each
/// line, and which line ended it and why. `irps` is 1 to 1,024 and `passes` 1 to 64. Refused if there is too little
/// memory. Own rule.
pub fn report_schedule<A: Allocator + Copy>(
    alloc: A,
    irps: u32,
    passes: u32,
    claims: bool,
    explains: bool,
    input: &[u8],
) -> Result<Report<A>, AllocError>
    requires { IsInLimits (record { irps = irps; passes = passes; first = 0 }) }
    ensures { IfOk result
        (IsReport (IsScheduleText explains (record { irps = irps; passes = passes; first = 0 }) claims)
        (IsScheduleDiagnosis (record { irps = irps; passes = passes; first = 0 })) input.now) }
{
    let mut explanation = Explanation::new(alloc, irps, passes, claims, explains)?;
    report_input(alloc, &mut explanation, input)
}

/// Follows a schedule that may break the protocol, as `WrongOrder` does: each step with the value that it found, after
/// the first one that the protocol refuses by the words alone; whether the protocol was kept, and what goes wrong; and
/// which line ended it and why. `irps` is 1 to 1,024 and `passes` 1 to 64. Refused if there is too little memory. Own
/// rule.
pub fn report_wrong_order<A: Allocator + Copy>(
    alloc: A,
    irps: u32,
    passes: u32,
    input: &[u8],
) -> Result<Report<A>, AllocError>
    requires { IsInLimits (record { irps = irps; passes = passes; first = 0 }) }
    ensures { IfOk result
        (IsWrongReport (record { irps = irps; passes = passes; first = 0 }) input.now) }
{
    let mut order = WrongOrder::new(alloc, irps, passes)?;
    report_input(alloc, &mut order, input)
}
