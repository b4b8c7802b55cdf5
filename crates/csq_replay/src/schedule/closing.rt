//! The closing lines of a schedule.
ghost use Rattle.std.specs.Prelude.{◌≡◌, ◌<◌, List};
ghost use Rattle.irp_core.specs.declared.step.Made.{Made};
ghost use Rattle.irp_core.specs.Lives.{present};
ghost use Rattle.irp_core.specs.MachineState.{Agrees, size_of};
ghost use Rattle.csq_replay.specs.Schedule.{is_silent, reported_of, IsReportedOf};

use irp_core::{IrpId, IrpLife, IrpPlace, Machine};
use std::alloc::Allocator;
use std::fmt;

/// What is reported for an IRP in the end, in its present life.
#[derive(Clone, Copy)]
pub struct IrpLine {
    pub name: IrpLife,
    pub place: IrpPlace,
    /// Whether its Cancel flag is set.
    pub cancelled: bool,
}

/// As `irp 0 listed cancel 1`.
impl fmt::Display for IrpLine {
    ghost use Rattle.std.specs.Prelude.{Some};
    ghost use Rattle.csq_replay.specs.Schedule.{irp_line_text};

    ghost output = { λ line. Some (irp_line_text line) };

    fn fmt<W: fmt::Write>(&self, f: &mut fmt::Formatter<W>) -> fmt::Result {
        let (name, place, flag) = (self.name, self.place, u64::from(self.cancelled));
        write!(f, "irp {name} {place} cancel {flag}")
    }
}

/// Whether an IRP isn't reported: one that is home in life 0, and not cancelled.
fn is_silent(line: IrpLine) -> bool
    ensures { result ≡ is_silent line }
{
    !line.cancelled && matches!(line.place, IrpPlace::Home) && line.name.life.0 == 0
}

/// What is reported for an IRP, if it is reported: an IRP that is home in life 0 with a clear Cancel flag isn't.
/// Own rule.
pub fn irp_line<A: Allocator>(machine: &Machine<A>, irp: IrpId) -> Option<IrpLine>
    requires { irp.0 < (size_of machine.now).irps }
    ensures { (E : List Made) → Agrees machine.now E
        → IsReportedOf E (present (size_of machine.now).first E irp) (reported_of result) }
{
    let life = machine.life(irp).unwrap();
    let name = IrpLife { irp, life };
    let place = machine.place(irp).unwrap();
    let cancelled = machine.cancelled(irp);
    let line = IrpLine {
        name,
        place,
        cancelled,
    };
    if is_silent(line) { None } else { Some(line) }
}
