//! The steps of an order that may break the protocol, each with the value that it finds and its line.
ghost use Rattle.std.specs.Prelude.{◌≡◌};
ghost use Rattle.csq_explain.specs.Harms.{at_step};

use crate::harms::{Harm, HarmAt};
use irp_core::Made;
use std::fmt;

/// A step with the value that it found, and the number of the line that names it.
#[derive(Clone, Copy)]
pub struct LineStep {
    /// The line.
    pub line: usize,
    /// The step.
    pub made: Made,
}

impl LineStep {
    /// This goes wrong at the step.
    pub(crate) fn with_harm(self, harm: Harm) -> HarmAt
        ensures { result ≡ at_step self harm }
    {
        HarmAt { step: self, harm }
    }
}

/// As `p2 take 0 found 1`.
impl fmt::Display for LineStep {
    ghost use Rattle.std.specs.Prelude.{Some};
    ghost use Rattle.csq_explain.specs.LineSteps.{line_step_text};

    ghost output = { λ step. Some (line_step_text step) };

    fn fmt<W: fmt::Write>(&self, f: &mut fmt::Formatter<W>) -> fmt::Result {
        let Made { pass, kind, found } = self.made;
        write!(f, "{pass} {kind} found {found}")
    }
}

/// A step and its line, as `p2 take 0 in line 3`.
#[derive(Clone, Copy)]
pub(crate) struct InLine(pub(crate) LineStep);

impl fmt::Display for InLine {
    ghost use Rattle.std.specs.Prelude.{Some};
    ghost use Rattle.csq_explain.specs.LineSteps.{step_in_line};

    ghost output = { λ it. Some (step_in_line it.0) };

    fn fmt<W: fmt::Write>(&self, f: &mut fmt::Formatter<W>) -> fmt::Result {
        let LineStep { line, made } = self.0;
        write!(f, "{} {} in line {line}", made.pass, made.kind)
    }
}

/// Whose completion a step is, and its line, as `p1 completed in line 4`.
#[derive(Clone, Copy)]
pub(crate) struct Completed(pub(crate) LineStep);

impl fmt::Display for Completed {
    ghost use Rattle.std.specs.Prelude.{Some};
    ghost use Rattle.csq_explain.specs.LineSteps.{completed_in_line};

    ghost output = { λ it. Some (completed_in_line it.0) };

    fn fmt<W: fmt::Write>(&self, f: &mut fmt::Formatter<W>) -> fmt::Result {
        let LineStep { line, made } = self.0;
        write!(f, "{} completed in line {line}", made.pass)
    }
}
