//! Schedules, answered line by line, plainly or with a sentence after each line.
ghost use Rattle.std.specs.Prelude.{◌≡◌, ◌++◌, [], if◌then◌else◌, string_bytes, IfOk, IfSome, OnOk};
ghost use Rattle.irp_core.specs.Runs.{IsInLimits};
ghost use Rattle.csq_replay.specs.Lines.{GrewBy};
ghost use Rattle.csq_explain.specs.Explaining.{remark};
ghost use Rattle.csq_explain.specs.Explanations.{ExplainsAfter, irps_text, rest_line, noted_claim};

use crate::endings::{IrpSentence, RestSentence};
use crate::execution::{Execution, Explained};
use crate::reasons::Reason;
use crate::sentences::Sentence;
use csq_replay::{Answerer, IrpLine, Line};
use irp_core::{Kind, Made};
use std::alloc::{AllocError, Allocator};
use std::{fmt, str};

/// An execution, a line for each claim that its steps made, whether these lines are asked for, and whether
/// sentences are.
#[derive(Drop)]
pub struct Explanation<A: Allocator> {
    pub(crate) alloc: A,
    pub(crate) execution: Execution<A>,
    pub(crate) claims: String<A>,
    pub(crate) asks: bool,
    pub(crate) explains: bool,
}

/// Adds a sentence as a line of its own, if sentences are asked for.
pub(crate) fn add_remark<D: fmt::Display + Copy, A: Allocator>(
    explains: bool,
    sentence: D,
    text: &mut String<A>,
) -> Result<(), AllocError>
    ensures { OnOk result (IfSome (D.output sentence) (λ said.
        GrewBy (string_bytes text.old) (string_bytes text.new) (if explains then remark said else []))) }
{
    if explains {
        writeln!(text, "  {sentence}")?;
    }
    Ok(())
}

/// Notes the line of the claim that a step made, which this line of the schedule names, as
/// `claim 3 line 7 p1`, and where it is asked for a sentence; nothing if it made none.
#[tactic(auto, unfolding(irp_core::specs::Steps::same_irp))]
fn note_claim<A: Allocator>(
    claims: &mut String<A>,
    explains: bool,
    number: usize,
    made: Made,
) -> Result<(), AllocError>
    ensures { OnOk result (string_bytes claims.new
        ≡ string_bytes claims.old ++ noted_claim explains (record { line = number; step = made })) }
{
    match made.kind {
        Kind::Disarm(name) | Kind::Take(name) if made.found == 1 => {
            let pass = made.pass;
            writeln!(claims, "claim {name} line {number} {pass}")?;
            if explains {
                writeln!(
                    claims,
                    "  IRP {name} was claimed by {pass}, whose exchange found the cancel routine"
                )?;
            }
            Ok(())
        }
        _ => Ok(()),
    }
}

impl<A: Allocator + Copy> Explanation<A> {
    /// The answer before the first line of a schedule of IRPs 0 to `irps` - 1 and passes 1 to `passes`, with the
    /// claims where they are asked for, and where `explains` with a sentence after each line. Refused if there is too
    /// little memory. Own rule.
    pub fn new(
        alloc: A,
        irps: u32,
        passes: u32,
        claims: bool,
        explains: bool,
    ) -> Result<Explanation<A>, AllocError>
        requires { IsInLimits (record { irps = irps; passes = passes; first = 0 }) }
        ensures { IfOk result (λ explanation. ExplainsAfter explanation
            (record { irps = irps; passes = passes; first = 0 }, claims, explains) []) }
    {
        Ok(Explanation {
            alloc,
            execution: Execution::new(alloc, irps, passes)?,
            claims: String::new(alloc),
            asks: claims,
            explains,
        })
    }

    /// Adds the closing lines of the IRPs.
    fn close_irps(&self, reported: &[IrpLine], text: &mut String<A>) -> Result<(), AllocError>
        ensures { OnOk result (GrewBy (string_bytes text.old) (string_bytes text.new)
            (irps_text self.now.explains reported.now)) }
    {
        for line in reported {
            writeln!(text, "{line}")?;
            add_remark(self.explains, IrpSentence(*line), text)?;
        }
        Ok(())
    }

    /// Adds whether all is at rest.
    fn close_rest(&self, rest: bool, text: &mut String<A>) -> Result<(), AllocError>
        ensures { OnOk result (GrewBy (string_bytes text.old) (string_bytes text.new)
            (rest_line self.now.explains rest)) }
    {
        let answer = if rest { "yes" } else { "no" };
        writeln!(text, "rest {answer}")?;
        add_remark(self.explains, RestSentence(rest), text)
    }

    /// Adds the claims, where they are asked for.
    fn push_claims(&self, text: &mut String<A>) -> Result<(), AllocError>
        ensures { OnOk result (GrewBy (string_bytes text.old) (string_bytes text.new)
            (if self.now.asks then string_bytes self.now.claims else [])) }
    {
        if self.asks {
            return text.push_str(self.claims.as_str());
        }
        Ok(())
    }
}

impl<A: Allocator + Copy> Answerer<A, Reason> for Explanation<A> {
    ghost use Rattle.std.specs.Prelude.{Bool, List};
    ghost use Rattle.irp_core.specs.Runs.{Size};
    ghost use Rattle.csq_replay.specs.Schedule.{Numbered, ReportsLine};
    ghost use Rattle.csq_explain.specs.Executions.{StopsFor};
    ghost use Rattle.csq_explain.specs.Explanations.{ExplainsAfter, line_text, IsTextClosing};

    ghost Kind = { Size × Bool × Bool };

    ghost State = { List Numbered };

    ghost stands = { λ explanation c W. ExplainsAfter explanation c W };

    ghost answers = { λ c W. ReportsLine (line_text c.2 c.0) c.0 W };

    ghost stops = { λ c W. StopsFor c.0 W };

    ghost closes = { λ c W. IsTextClosing c.2 c.0 c.1 W };

    fn answer_line(
        &mut self,
        line: Line<'_>,
        text: &mut String<A>,
    ) -> Result<Option<Reason>, AllocError> {
        match self.execution.handle(line) {
            Explained::Skipped => Ok(None),
            Explained::Accepted(step) => {
                let Ok(written) = str::from_utf8(line.bytes) else {
                    // A line that was accepted is ASCII, as its grammar is.
                    unreachable!()
                };
                let found = step.made.found;
                note_claim(&mut self.claims, self.explains, line.number, step.made)?;
                text.push_str(written)?;
                writeln!(text, " found {found}")?;
                add_remark(self.explains, Sentence(step), text)?;
                Ok(None)
            }
            Explained::Stopped(reason) => {
                let (number, stop) = (line.number, reason.stop);
                writeln!(text, "line {number} {stop}")?;
                add_remark(self.explains, reason, text)?;
                Ok(Some(reason))
            }
        }
    }

    fn close(&self, text: &mut String<A>) -> Result<(), AllocError> {
        let closing = self.execution.close(self.alloc)?;
        self.close_irps(&closing.reported, text)?;
        self.close_rest(closing.rest, text)?;
        self.push_claims(text)?;
        Ok(())
    }
}
