//! A schedule that may break the protocol: after the first step that the protocol refuses it goes on by the two words of
//! each IRP alone, and says what comes of it.
ghost use Rattle.std.specs.Prelude.{◌≡◌, ◌<◌, ◌∷◌, ℕ, List, string_bytes, IfOk, OnOk};
ghost use Rattle.irp_core.specs.Runs.{IsInLimits, OfIrp};
ghost use Rattle.irp_core.specs.Steps.{number};
ghost use Rattle.csq_replay.specs.Lines.{GrewBy};
ghost use Rattle.csq_explain.specs.declared.line_steps.LineStep.{LineStep as LineStepOf};
ghost use Rattle.csq_explain.specs.Harms.{harms_of};
ghost use Rattle.csq_explain.specs.Orders.{irps_in, OrderStands};
ghost use Rattle.csq_explain.specs.WrongOrders.{accepted_step, refused_step, accepted_text, refused_text, broken_at, WrongAfter, new_wrong, harms_text, harms_report, goes_on, broken_text, end_text, why_ended, steps_after, stopped_text, broken_after, IsOfKnown};

use crate::execution::{Execution, Explained};
use crate::harms::{HarmAt, NO_HARM};
use crate::line_steps::LineStep;
use crate::order::Order;
use crate::reasons::Reason;
use csq_replay::{Answerer, Line, Stop};
use irp_core::{Made, Step, StepRefused};
use std::alloc::{AllocError, Allocator};

/// A schedule that may break the protocol: the execution of the steps that the protocol allows, the order of all steps, and
/// the line of the first one that it refuses, or 0.
#[derive(Drop)]
pub struct WrongOrder<A: Allocator> {
    pub(crate) alloc: A,
    pub(crate) execution: Execution<A>,
    pub(crate) order: Order<A>,
    pub(crate) broken: usize,
}

impl<A: Allocator + Copy> WrongOrder<A> {
    /// Before the first line of a schedule of IRPs 0 to `irps` - 1 and passes 1 to `passes`. Refused if there is too
    /// little memory. Own rule.
    pub fn new(alloc: A, irps: u32, passes: u32) -> Result<WrongOrder<A>, AllocError>
        requires { IsInLimits (record { irps = irps; passes = passes; first = 0 }) }
        ensures { IfOk result (λ order. WrongAfter order
            (record { irps = irps; passes = passes; first = 0 }) new_wrong) }
    {
        Ok(WrongOrder {
            alloc,
            execution: Execution::new(alloc, irps, passes)?,
            order: Order::new(alloc, irps)?,
            broken: 0,
        })
    }

    /// Adds a step that the execution made: as it made it, or after a refused one by the words.
    fn add_accepted(
        &mut self,
        line: usize,
        made: Made,
        text: &mut String<A>,
    ) -> Result<(), AllocError>
        requires { OfIrp (λ i. number i < irps_in self.old.order) made.kind }
        ensures added { OnOk result ((irps : ℕ) (V : List LineStepOf) → OrderStands self.old.order irps V
            → (OrderStands self.new.order irps (accepted_step V self.old.broken line made ∷ V))
            × (GrewBy (string_bytes text.old) (string_bytes text.new)
            (accepted_text V self.old.broken line made))) }
        ensures execution { self.new.execution ≡ self.old.execution }
        ensures broken { self.new.broken ≡ self.old.broken }
    {
        let step = accepted_step(&self.order, self.broken, line, made);
        writeln!(text, "{step}")?;
        self.order.add(step)?;
        Ok(())
    }

    /// Adds a step that the protocol refuses, by the words.
    fn add_refused(
        &mut self,
        line: usize,
        step: Step,
        cause: StepRefused,
        text: &mut String<A>,
    ) -> Result<(), AllocError>
        requires { OfIrp (λ i. number i < irps_in self.old.order) step.kind }
        ensures added { OnOk result ((irps : ℕ) (V : List LineStepOf) → OrderStands self.old.order irps V
            → (OrderStands self.new.order irps (refused_step V line step ∷ V))
            × (GrewBy (string_bytes text.old) (string_bytes text.new)
            (refused_text V self.old.broken line step cause))) }
        ensures execution { self.new.execution ≡ self.old.execution }
        ensures broken { OnOk result (self.new.broken ≡ broken_at self.old.broken line) }
    {
        let step = self.order.by_words(line, step.pass, step.kind);
        if self.broken == 0 {
            self.broken = line;
            writeln!(text, "{step} refused {cause}")?;
        } else {
            writeln!(text, "{step}")?;
        }
        self.order.add(step)?;
        Ok(())
    }

    /// Adds a line that the execution stops at: a step that the protocol refuses, or one that ends the handling.
    fn add_stopped(
        &mut self,
        line: usize,
        stop: Stop,
        text: &mut String<A>,
    ) -> Result<(), AllocError>
        requires { IsOfKnown (irps_in self.old.order) stop }
        ensures added { OnOk result ((irps : ℕ) (V : List LineStepOf) → OrderStands self.old.order irps V
            → (OrderStands self.new.order irps (steps_after V line stop))
            × (GrewBy (string_bytes text.old) (string_bytes text.new)
            (stopped_text V self.old.broken line stop))) }
        ensures execution { self.new.execution ≡ self.old.execution }
        ensures broken { OnOk result (self.new.broken ≡ broken_after self.old.broken line stop) }
    {
        match stop {
            Stop::Refused(step, cause) if goes_on(stop) => {
                self.add_refused(line, step, cause, text)?;
                Ok(())
            }
            _ => {
                writeln!(text, "line {line} {stop}")?;
                Ok(())
            }
        }
    }
}

/// A step that the execution made, as it made it; or after a refused one, whose line isn't 0, by the words.
fn accepted_step<A: Allocator + Copy>(
    order: &Order<A>,
    broken: usize,
    line: usize,
    made: Made,
) -> LineStep
    requires { OfIrp (λ i. number i < irps_in order.now) made.kind }
    ensures kind { result.made.kind ≡ made.kind }
    ensures step { (irps : ℕ) (V : List LineStepOf) → OrderStands order.now irps V
        → result ≡ accepted_step V broken line made }
{
    if broken == 0 {
        LineStep { line, made }
    } else {
        order.by_words(line, made.pass, made.kind)
    }
}

/// Whether an order may go on after a line that ends a schedule: it names a step, and there are its IRP and its pass. Own
/// rule.
pub fn goes_on(stop: Stop) -> bool
    ensures { result ≡ goes_on stop }
{
    match stop {
        Stop::Refused(_, StepRefused::UnknownIrp | StepRefused::UnknownPass) => false,
        Stop::Refused(_, _) => true,
        Stop::TooLong | Stop::Malformed => false,
    }
}

/// Why a line that the execution stops at ends the handling, if it does. Own rule.
pub fn why_ended(reason: Reason) -> Option<Reason>
    ensures { result ≡ why_ended reason }
{
    if goes_on(reason.stop) {
        None
    } else {
        Some(reason)
    }
}

/// Adds the line in which the protocol was broken.
fn add_broken<A: Allocator>(broken: usize, text: &mut String<A>) -> Result<(), AllocError>
    ensures { OnOk result (GrewBy (string_bytes text.old) (string_bytes text.new)
        (broken_text broken)) }
{
    writeln!(text, "the protocol is broken in line {broken}")
}

/// Adds what goes wrong, each on a line of its own.
fn add_each_harm<A: Allocator>(harms: &[HarmAt], text: &mut String<A>) -> Result<(), AllocError>
    ensures { OnOk result (GrewBy (string_bytes text.old) (string_bytes text.new)
        (harms_text harms.now)) }
{
    for harm in harms {
        writeln!(text, "{harm}")?;
    }
    Ok(())
}

/// Adds what goes wrong, each on a line of its own, or that nothing does. Refused if there is too little memory. Own rule.
pub fn add_harms<A: Allocator>(harms: &[HarmAt], text: &mut String<A>) -> Result<(), AllocError>
    ensures { OnOk result (GrewBy (string_bytes text.old) (string_bytes text.new)
        (harms_report harms.now)) }
{
    if harms.is_empty() {
        writeln!(text, "{NO_HARM}")
    } else {
        add_each_harm(harms, text)
    }
}

/// Adds what goes wrong in an order.
fn add_harms_of<A: Allocator + Copy>(
    alloc: A,
    order: &Order<A>,
    text: &mut String<A>,
) -> Result<(), AllocError>
    ensures { OnOk result ((irps : ℕ) (V : List LineStepOf) → OrderStands order.now irps V
        → GrewBy (string_bytes text.old) (string_bytes text.new) (harms_report (harms_of irps V))) }
{
    let harms = order.harms(alloc)?;
    add_harms(&harms, text)?;
    Ok(())
}

/// Adds whether the protocol was kept, and otherwise what goes wrong. (If it was kept, what is unfinished isn't wrong.)
fn add_end<A: Allocator + Copy>(
    alloc: A,
    broken: usize,
    order: &Order<A>,
    text: &mut String<A>,
) -> Result<(), AllocError>
    ensures { OnOk result ((irps : ℕ) (V : List LineStepOf) → OrderStands order.now irps V
        → GrewBy (string_bytes text.old) (string_bytes text.new) (end_text irps broken V)) }
{
    if broken == 0 {
        return writeln!(text, "the protocol is kept");
    }
    add_broken(broken, text)?;
    add_harms_of(alloc, order, text)?;
    Ok(())
}

impl<A: Allocator + Copy> Answerer<A, Reason> for WrongOrder<A> {
    ghost use Rattle.irp_core.specs.Runs.{Size};
    ghost use Rattle.csq_explain.specs.Executions.{StopsFor};
    ghost use Rattle.csq_explain.specs.WrongOrders.{Wrong, WrongLine, WrongCloses};

    ghost Kind = { Size };

    ghost State = { Wrong };

    ghost stands = { λ order size d. WrongAfter order size d };

    ghost answers = { λ size d. WrongLine size d };

    ghost stops = { λ size d. StopsFor size d.own };

    ghost closes = { λ size d. WrongCloses size d };

    fn answer_line(
        &mut self,
        line: Line<'_>,
        text: &mut String<A>,
    ) -> Result<Option<Reason>, AllocError> {
        match self.execution.handle(line) {
            Explained::Skipped => Ok(None),
            Explained::Accepted(step) => {
                self.add_accepted(line.number, step.made, text)?;
                Ok(None)
            }
            Explained::Stopped(reason) => {
                let why = why_ended(reason);
                self.add_stopped(line.number, reason.stop, text)?;
                Ok(why)
            }
        }
    }

    fn close(&self, text: &mut String<A>) -> Result<(), AllocError> {
        add_end(self.alloc, self.broken, &self.order, text)?;
        Ok(())
    }
}
