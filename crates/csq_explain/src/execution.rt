//! An execution, followed line by line.
ghost use Rattle.std.specs.Prelude.{◌≡◌, ◌<◌, ◌≤◌, ◌+◌, ◌++◌, List, [], length, slice_index_or, slice_set, vec_len, IfOk, OnOk};
ghost use Rattle.irp_core.specs.declared.step.Made.{Made as MadeOf};
ghost use Rattle.irp_core.specs.Lives.{present};
ghost use Rattle.irp_core.specs.MachineState.{Agrees, size_of};
ghost use Rattle.irp_core.specs.Runs.{Size, OfIrp, IsInLimits};
ghost use Rattle.irp_core.specs.Steps.{number};
ghost use Rattle.csq_replay.specs.declared.schedule.closing.IrpLine.{IrpLine as IrpLineOf};
ghost use Rattle.csq_replay.specs.Schedule.{Numbered, run_of, AreReportedOf, IsReportedOf, Closes};
ghost use Rattle.csq_explain.specs.Executions.{Follows, IsFollowing, Explains, IsStatusAfter};
ghost use Rattle.csq_explain.specs.Passes.{new_pass_now, pass_after};
ghost use Rattle.csq_explain.specs.Reasons.{reason_by};

use crate::irps::{IrpState, irp_asked, new_irps, note_irp};
use crate::passes::{PassNow, new_passes, pass_after};
use crate::reasons::{Reason, pass_asked};
use crate::sentences::StepInCall;
use csq_replay::{IrpLine, Line, Outcome, Stop, handle_line, irp_line};
use irp_core::{Inside, IrpId, IrpPlace, Kind, Machine, Made, NtStatus};
use std::alloc::{AllocError, Allocator};

/// A machine, and what is known of each pass and of each IRP, by its number; pass 0 makes no step.
#[derive(Drop)]
pub struct Execution<A: Allocator> {
    /// What the steps were made on.
    pub machine: Machine<A>,
    /// What each pass is inside of.
    pub passes: Vec<PassNow, A>,
    /// Where each IRP is.
    pub irps: Vec<IrpState, A>,
}

/// What comes of a line of a schedule, and what is known of it.
#[derive(Clone, Copy)]
pub enum Explained {
    /// Nothing: it is empty, or a comment.
    Skipped,
    /// Its step was made.
    Accepted(StepInCall),
    /// It ends the handling, for this reason.
    Stopped(Reason),
}

/// What is reported in the end.
#[derive(Drop)]
pub struct Closing<A: Allocator> {
    /// Of each IRP that is reported.
    pub reported: Vec<IrpLine, A>,
    /// Whether all is at rest.
    pub rest: bool,
}

/// The status of an IRP after a step of this kind, if that completed it. In line, since each line of a
/// schedule calls it.
#[inline(always)]
fn status_after<A: Allocator>(machine: &Machine<A>, kind: Kind) -> Option<NtStatus>
    requires { OfIrp (λ i. number i < (size_of machine.now).irps) kind }
    ensures { (E : List MadeOf) → Agrees machine.now E
        → IsStatusAfter (size_of machine.now) E kind result }
{
    let Kind::Done(name) = kind else {
        return None;
    };
    match machine.place(name.irp).unwrap() {
        IrpPlace::Completed(status, _) => Some(status),
        _ => None,
    }
}

impl<A: Allocator + Copy> Execution<A> {
    /// An execution without a step, of IRPs 0 to `irps` - 1 and passes 1 to `passes`. Own rule.
    pub fn new(alloc: A, irps: u32, passes: u32) -> Result<Execution<A>, AllocError>
        requires { IsInLimits (record { irps = irps; passes = passes; first = 0 }) }
        ensures { IfOk result (λ execution. Follows
            (record { irps = irps; passes = passes; first = 0 }) execution []) }
    {
        let Ok(machine) = Machine::new(alloc, irps, passes) else {
            return Err(AllocError);
        };
        Ok(Execution {
            machine,
            passes: new_passes(alloc, passes as usize + 1)?,
            irps: new_irps(alloc, irps as usize)?,
        })
    }

    /// Makes the step that the line of this number names, if it may come next, and returns what is known of
    /// what comes of the line. Own rule. In line, as `status_after` is.
    #[inline(always)]
    pub fn handle(&mut self, line: Line<'_>) -> Explained
        requires { IsFollowing self.old }
        ensures { (size : Size) (W : List Numbered) → Follows size self.old W
            → Explains size W line.entry.number line.entry.bytes.now result self.new }
    {
        match handle_line(&mut self.machine, line.bytes) {
            Outcome::Skipped => Explained::Skipped,
            Outcome::Accepted(made) => {
                let inside = self.note_pass(line.number, made);
                note_irp(&mut self.irps, line.number, made);
                let status = status_after(&self.machine, made.kind);
                Explained::Accepted(StepInCall {
                    made,
                    inside,
                    status,
                })
            }
            Outcome::Stopped(stop) => Explained::Stopped(self.reason(stop)),
        }
    }

    /// Notes a step that was made, which this line names. Returns what its pass was inside of before it. In
    /// line, as `status_after` is.
    #[inline(always)]
    fn note_pass(&mut self, line: usize, made: Made) -> Inside
        requires { made.pass.0 < length self.old.passes.items }
        ensures inside { result
            ≡ (slice_index_or self.old.passes.items made.pass.0 new_pass_now).inside }
        ensures passes { self.new.passes.items ≡ slice_set self.old.passes.items made.pass.0
            (pass_after (slice_index_or self.old.passes.items made.pass.0 new_pass_now)
            (record { line = line; step = made })) }
        ensures irps { self.new.irps ≡ self.old.irps }
        ensures machine { self.new.machine ≡ self.old.machine }
    {
        let at = made.pass.0 as usize;
        let before = self.passes[at];
        self.passes[at] = pass_after(before, line, made);
        before.inside
    }

    /// Why a line ends the handling.
    fn reason(&self, stop: Stop) -> Reason
        ensures { result ≡ reason_by (size_of self.now.machine) self.now.passes.items
            self.now.irps.items stop }
    {
        let asked = pass_asked(stop).0 as usize;
        Reason {
            stop,
            irps: self.machine.irps(),
            passes: self.machine.passes(),
            now: self.passes.get(asked).copied().unwrap_or(PassNow::NEW),
            irp: irp_asked(&self.irps, stop),
        }
    }

    /// What is reported in the end: each IRP but those that are home in life 0 with a clear Cancel flag, by rising
    /// number, and whether all is at rest. Own rule.
    pub fn close(&self, alloc: A) -> Result<Closing<A>, AllocError>
        ensures closes { IfOk result (λ closing. (size : Size) (W : List Numbered)
            → Follows size self.now W → Closes size (run_of W) closing.reported.items closing.rest) }
        ensures few { IfOk result
            (λ closing. vec_len closing.reported ≤ (size_of self.now.machine).irps) }
    {
        Ok(Closing {
            reported: reported_irps(alloc, &self.machine)?,
            rest: self.machine.at_rest(),
        })
    }
}

/// What is reported for the IRPs in the end.
fn reported_irps<A: Allocator>(
    alloc: A,
    machine: &Machine<A>,
) -> Result<Vec<IrpLine, A>, AllocError>
    ensures reported { IfOk result (λ reported. (E : List MadeOf) → Agrees machine.now E
        → AreReportedOf (size_of machine.now).first E
        (size_of machine.now).irps reported.items) }
    ensures few { IfOk result (λ reported. vec_len reported ≤ (size_of machine.now).irps) }
{
    let mut reported = Vec::new(alloc);
    for number in 0..machine.irps() {
        push_reported(machine, IrpId(number), &mut reported)?;
    }
    Ok(reported)
}

/// Adds what is reported for an IRP, if it is reported.
fn push_reported<A: Allocator>(
    machine: &Machine<A>,
    irp: IrpId,
    reported: &mut Vec<IrpLine, A>,
) -> Result<(), AllocError>
    requires { irp.0 < (size_of machine.now).irps }
    ensures reported { OnOk result ((more : List IrpLineOf) × (reported.new.items ≡ reported.old.items ++ more)
        × ((E : List MadeOf) → Agrees machine.now E
        → IsReportedOf E (present (size_of machine.now).first E irp) more)) }
    ensures few { OnOk result (vec_len reported.new ≤ vec_len reported.old + 1) }
{
    let Some(line) = irp_line(machine, irp) else {
        return Ok(());
    };
    reported.push(line)?;
    Ok(())
}
