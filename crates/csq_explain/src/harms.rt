//! What goes wrong in an order that may break the protocol.
use crate::line_steps::{Completed, InLine, LineStep};
use irp_core::IrpLife;
use std::fmt;

/// What is reported of lines in which no harm is found.
pub const NO_HARM: &str = "harm: none found in these lines";

/// What goes wrong at a step.
#[derive(Clone, Copy)]
pub enum Harm {
    /// It completes an IRP again: this step completed it first.
    Twice(LineStep),
    /// It completes an IRP whose cancel routine is set, so that a cancel will call it.
    RoutineSet,
    /// It takes an IRP out of the list, which this step completed first.
    TakenOut(LineStep),
    /// It takes an IRP out of a list that it isn't in.
    NotListed,
    /// It lists an IRP that this step completed first.
    Relisted(LineStep),
    /// It lists an IRP that is in the list, into which this step put it.
    ListedTwice(LineStep),
    /// It begins the next life of an IRP that is in the list, into which this step put it.
    Reused(LineStep),
    /// It takes out or completes an IRP in another life than its present one, which is named here.
    OtherLife(IrpLife),
    /// It takes the routine of an IRP that isn't cancelled.
    Stray,
    /// It sets the routine of this IRP, which is cancelled, and no later step takes it.
    Lost(IrpLife),
    /// It completes this IRP, which is in the list in the end.
    StillListed(IrpLife),
}

/// An IRP that is in the list, and the step that put it there.
#[derive(Clone, Copy)]
struct Linked(LineStep);

impl fmt::Display for Linked {
    ghost use Rattle.std.specs.Prelude.{Some};
    ghost use Rattle.csq_explain.specs.Harms.{linked_text};

    ghost output = { λ it. Some (linked_text it.0) };

    fn fmt<W: fmt::Write>(&self, f: &mut fmt::Formatter<W>) -> fmt::Result {
        write!(
            f,
            "an IRP that has been in the list since line {}",
            self.0.line
        )
    }
}

/// An IRP whose cancel is lost, and the step that set its routine last.
#[derive(Clone, Copy)]
struct LostCancel(IrpLife, LineStep);

impl fmt::Display for LostCancel {
    ghost use Rattle.std.specs.Prelude.{Some};
    ghost use Rattle.csq_explain.specs.Harms.{lost_text};

    ghost output = { λ it. Some (lost_text it.1 it.0) };

    fn fmt<W: fmt::Write>(&self, f: &mut fmt::Formatter<W>) -> fmt::Result {
        let LostCancel(name, LineStep { line, made }) = *self;
        write!(
            f,
            "IRP {name} loses its cancel: its Cancel flag is set, and no line after line {line} takes the routine that {} set there",
            made.pass
        )
    }
}

/// An IRP that is in the list in the end, and the step that completed it.
#[derive(Clone, Copy)]
struct LeftListed(IrpLife, LineStep);

impl fmt::Display for LeftListed {
    ghost use Rattle.std.specs.Prelude.{Some};
    ghost use Rattle.csq_explain.specs.Harms.{left_text};

    ghost output = { λ it. Some (left_text it.1 it.0) };

    fn fmt<W: fmt::Write>(&self, f: &mut fmt::Formatter<W>) -> fmt::Result {
        let LeftListed(name, first) = *self;
        let LineStep { line, made } = first;
        write!(
            f,
            "IRP {name} is in the list in the end, though {} completed it in line {line}",
            made.pass
        )
    }
}

/// A step, and what goes wrong at it.
#[derive(Clone, Copy)]
pub struct HarmAt {
    /// The step.
    pub step: LineStep,
    /// What goes wrong.
    pub harm: Harm,
}

/// As `harm: p2 done 0 in line 7 completes what p1 completed in line 4: MULTIPLE_IRP_COMPLETE_REQUESTS (0x44)`.
impl fmt::Display for HarmAt {
    ghost use Rattle.std.specs.Prelude.{Some};
    ghost use Rattle.csq_explain.specs.Harms.{harm_text};

    ghost output = { λ at. Some (harm_text at.step at.harm) };

    fn fmt<W: fmt::Write>(&self, f: &mut fmt::Formatter<W>) -> fmt::Result {
        let step = InLine(self.step);
        match self.harm {
            Harm::Twice(first) => write!(
                f,
                "harm: {step} completes what {}: MULTIPLE_IRP_COMPLETE_REQUESTS (0x44)",
                Completed(first)
            ),
            Harm::RoutineSet => write!(
                f,
                "harm: {step} completes an IRP whose cancel routine is set: CANCEL_STATE_IN_COMPLETED_IRP (0x48)"
            ),
            Harm::TakenOut(first) => { write!(f, "harm: {step} unlinks what {}", Completed(first)) }
            Harm::NotListed => write!(f, "harm: {step} unlinks an IRP that isn't in the list"),
            Harm::Relisted(first) => write!(f, "harm: {step} lists what {}", Completed(first)),
            Harm::ListedTwice(listed) => write!(f, "harm: {step} lists {}", Linked(listed)),
            Harm::Reused(listed) => write!(f, "harm: {step} reuses {}", Linked(listed)),
            Harm::OtherLife(name) => write!(
                f,
                "harm: {step} is for another life of the IRP, whose present life is {name}"
            ),
            Harm::Stray => write!(
                f,
                "harm: {step} takes the routine of an IRP that isn't cancelled: its Cancel flag is clear"
            ),
            Harm::Lost(name) => write!(f, "harm: {}", LostCancel(name, self.step)),
            Harm::StillListed(name) => write!(f, "harm: {}", LeftListed(name, self.step)),
        }
    }
}
