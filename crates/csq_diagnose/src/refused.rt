//! Steps that are refused, in words.
ghost use Rattle.std.specs.Prelude.{◌≡◌};
ghost use Rattle.csq_diagnose.specs.Columns.{words_before};

use crate::source::{Mark, push_marked};
use csq_explain::{LastMove, Reason};
use irp_core::{IrpLife, Kind, MAX_IRPS, MAX_PASSES, PassId, Step, StepRefused};
use std::alloc::{AllocError, Allocator};
use std::fmt;

/// How many words of a line stand before the one that a refusal is about: none before the pass, one before what the step
/// does, and two before the IRP.
pub(crate) fn words_before(cause: StepRefused) -> usize
    ensures { result ≡ words_before cause }
{
    match cause {
        StepRefused::UnknownPass | StepRefused::LockHeld(_) => 0,
        StepRefused::NotNext => 1,
        _ => 2,
    }
}

/// Where an IRP is.
#[derive(Clone, Copy)]
struct IrpPlaced(IrpLife, LastMove);

/// As `p3 has held IRP 0 since line 3`.
impl fmt::Display for IrpPlaced {
    fn fmt<W: fmt::Write>(&self, f: &mut fmt::Formatter<W>) -> fmt::Result {
        let IrpPlaced(irp, moved) = *self;
        match moved {
            LastMove::Unmoved => write!(f, "IRP {irp} was never in the list"),
            LastMove::Pending(line) => write!(
                f,
                "IRP {irp} has been in the list since line {line}"
            ),
            LastMove::OwedBy(pass, line) => {
                write!(f, "{pass} has owed IRP {irp} since line {line}")
            }
            LastMove::GotBy(pass, line) => write!(f, "{pass} has held IRP {irp} since line {line}"),
            LastMove::CompletedBy(pass, line) => {
                write!(f, "{pass} completed IRP {irp} in line {line}")
            }
            LastMove::Renewed(line) => write!(
                f,
                "IRP {irp} hasn't been in the list since its life began in line {line}"
            ),
        }
    }
}

/// A step that is refused, and why.
#[derive(Clone, Copy)]
pub(crate) struct Refusal {
    pub(crate) step: Step,
    pub(crate) cause: StepRefused,
    pub(crate) reason: Reason,
}

impl Refusal {
    /// The IRP that a step names, if it is in that life, and where it is tells why the step is refused.
    fn misplaced(self) -> Option<IrpLife> {
        let name = self.step.kind.name()?;
        match self.cause {
            StepRefused::NotHome
            | StepRefused::NotListed
            | StepRefused::NotOwed
            | StepRefused::NotHeld
            | StepRefused::NotCompleted
                if self.reason.irp.is_in(name.life) => { Some(name) }
            _ => None,
        }
    }

    /// What more keeps its pass from a put-back of an IRP that it holds.
    fn got_otherwise(self) -> &'static str {
        match (self.step.kind, self.reason.irp.moved) {
            (Kind::Rearm(_), LastMove::GotBy(pass, _)) if pass == self.step.pass => {
                ", and got it by no removal"
            }
            _ => "",
        }
    }
}

/// As `p3 has held IRP 0 since line 3`, or another reason.
impl fmt::Display for Refusal {
    fn fmt<W: fmt::Write>(&self, f: &mut fmt::Formatter<W>) -> fmt::Result {
        let reason = self.reason;
        match self.misplaced() {
            Some(irp) => {
                let (placed, more) = (IrpPlaced(irp, reason.irp.moved), self.got_otherwise());
                write!(f, "{placed}{more}")
            }
            None => write!(f, "{reason}"),
        }
    }
}

/// The option that would allow a step, or the step that may be meant.
#[derive(Clone, Copy)]
pub(crate) enum Cure {
    /// There is none.
    Nothing,
    /// The least number of IRPs with which the one that the step names exists.
    Irps(u32),
    /// The least number of passes with which the one that makes the step exists.
    Passes(u32),
    /// A rearm, in the place of a second arm.
    Rearm,
}

/// As ` (--irps 9 allows it)`, or nothing.
impl fmt::Display for Cure {
    fn fmt<W: fmt::Write>(&self, f: &mut fmt::Formatter<W>) -> fmt::Result {
        match self {
            Cure::Nothing => write!(f, ""),
            Cure::Irps(irps) => write!(f, " (--irps {irps} allows it)"),
            Cure::Passes(passes) => write!(f, " (--passes {passes} allows it)"),
            Cure::Rearm => write!(f, " (rearm puts back what a removal got)"),
        }
    }
}

impl Cure {
    /// The option that would allow a step that is refused for this cause, if it names an IRP or a pass that there
    /// isn't, and can be; of an arm of what was armed before, the step that may be meant.
    pub(crate) fn of(step: Step, cause: StepRefused) -> Cure {
        match cause {
            StepRefused::UnknownIrp => irps_for(step.kind),
            StepRefused::UnknownPass => passes_for(step.pass),
            StepRefused::NotHome => Cure::Rearm,
            _ => Cure::Nothing,
        }
    }
}

/// The least number of IRPs with which the one that a step names exists, if there may be that many.
fn irps_for(kind: Kind) -> Cure {
    match kind.name() {
        Some(name) if name.irp.0 < MAX_IRPS => Cure::Irps(name.irp.0 + 1),
        _ => Cure::Nothing,
    }
}

/// The least number of passes with which this one exists, if there may be that many.
fn passes_for(pass: PassId) -> Cure {
    if 1 <= pass.0 && pass.0 <= MAX_PASSES {
        Cure::Passes(pass.0)
    } else {
        Cure::Nothing
    }
}

/// As `p2 arm 0 is refused: p1 has had the lock since line 1, inside an insert; its next step is test 0`, and the line with
/// a mark below what is at fault.
pub(crate) fn refused_words<A: Allocator>(
    alloc: A,
    line: &[u8],
    refusal: Refusal,
    mark: Mark,
) -> Result<String<A>, AllocError> {
    let step = refusal.step;
    let cure = Cure::of(step, refusal.cause);
    let mut words = String::new(alloc);
    writeln!(words, "{step} is refused: {refusal}{cure}")?;
    push_marked(line, mark, &mut words)?;
    Ok(words)
}
