//! Diagnoses of schedules that are drawn.
ghost use Rattle.std.specs.Prelude.{IfOk};
ghost use Rattle.irp_core.specs.Runs.{IsInLimits};
ghost use Rattle.csq_diagnose.specs.Drawings.{ReportsDrawingEnd};

use crate::diagnosed::{Report, report_input};
use csq_draw::{Drawing, PictureView};
use std::alloc::{AllocError, Allocator};

/// Draws what a view shows of a schedule: its picture, and which line ended it and why. `irps` is 1 to 1,024 and `passes`
/// 1 to 64. Refused if there is too little memory. Own rule.
pub fn report_drawing<A: Allocator + Copy>(
    alloc: A,
    irps: u32,
    passes: u32,
    view: PictureView,
    input: &[u8],
) -> Result<Report<A>, AllocError>
    requires { IsInLimits (record { irps = irps; passes = passes; first = 0 }) }
    ensures { IfOk result
        (ReportsDrawingEnd (record { irps = irps; passes = passes; first = 0 }) view.wrong input.now) }
{
    let mut drawing = Drawing::new(alloc, irps, passes, view)?;
    report_input(alloc, &mut drawing, input)
}
