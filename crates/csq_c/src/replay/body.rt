//! What the handle of a replay stands for: the machine, and what each pass is inside of.
ghost use Rattle.std.specs.Prelude.{◌≡◌, ◌↔◌, ◌+◌, ◌<◌, Err, List, IfOk, IfSome, IsSome, IsTrue, length, replicate, slice_index_or, slice_set};
ghost use Rattle.irp_core.specs.Lives.{present};
ghost use Rattle.irp_core.specs.Runs.{IsAtRest};
ghost use Rattle.csq_c.specs.Replays.{Follows, IsGoodReplaySize, IsNewReplay, IsOwner, MakesStep, Numbered, call_after, call_at, no_call, run_of, size_in};
ghost use Rattle.csq_c.specs.ReplayShapes.{IsPlacedSo, refusal_by};

use crate::replay::codes::{life_asked, pass_asked};
use crate::replay::pass_call::PassCall;
use crate::replay::shapes::{CsqInside, CsqPlaced, CsqRefusal};
use crate::shapes::CsqSize;
use irp_core::{IrpId, Life, Machine, Made, PassId, SizeRefused, Step, StepRefused};
use std::alloc::{AllocError, Global};
use std::marker::Model;

/// The machine, and what each pass is inside of, by its number; pass 0 makes no step. A contract
/// sees the machine as it is seen there.
#[derive(Drop)]
pub(crate) struct ReplayBody {
    machine: Machine<Global>,
    calls: Vec<PassCall, Global>,
}

impl Model for ReplayBody {
    ghost use Rattle.csq_c.specs.Replays.{IsFollowed, ReplayState};

    ghost Value = { ReplayState };

    ghost view = { λ b. record { machine = b.machine; calls = b.calls.items } };

    ghost invariant = { λ b. IsFollowed (record { machine = b.machine; calls = b.calls.items }) };
}

/// So many passes and pass 0, of which none has made a step.
fn no_calls(alloc: Global, passes: u32) -> Result<Vec<PassCall, Global>, AllocError>
    ensures { IfOk result (λ calls. calls.items ≡ replicate (passes + 1) no_call) }
{
    vec![in alloc; PassCall::NONE; passes as usize + 1]
}

/// Notes what a pass is inside of after its step, which has this number.
fn note(calls: &mut Vec<PassCall, Global>, number: u64, made: Made)
    requires { made.pass.0 < length calls.old.items }
    ensures { calls.new.items ≡ slice_set calls.old.items made.pass.0 (call_after
        (slice_index_or calls.old.items made.pass.0 no_call) number made) }
{
    let at = made.pass.0 as usize;
    calls[at] = calls[at].after(number, made);
}

impl ReplayBody {
    /// A replay of this size, without a step.
    pub(crate) fn new(alloc: Global, size: &CsqSize) -> Result<ReplayBody, SizeRefused>
        ensures made { IfOk result (IsNewReplay size.now) }
        ensures bad_size { (result ≡ Err SizeRefused.BadSize) ↔ ¬ IsGoodReplaySize size.now }
    {
        let machine = Machine::large(alloc, size.irps, size.passes, Life(size.first_life))?;
        let calls = no_calls(alloc, size.passes)?;
        Ok(ReplayBody { machine, calls })
    }

    /// Makes a step with this number, if it may come next, and returns what it finds.
    pub(crate) fn step(&mut self, number: u64, step: Step) -> Result<u32, StepRefused>
        ensures { MakesStep number step result self.old self.new }
    {
        let found = self.machine.step(step)?;
        let made = Made {
            pass: step.pass,
            kind: step.kind,
            found,
        };
        note(&mut self.calls, number, made);
        Ok(found as u32)
    }

    /// What a pass is inside of; one that there isn't, of none.
    fn call_at(&self, pass: PassId) -> PassCall
        ensures { result ≡ call_at self.now pass }
    {
        self.calls
            .get(pass.0 as usize)
            .copied()
            .unwrap_or(PassCall::NONE)
    }

    /// Whom the refusal of a pass's step is about.
    pub(crate) fn refusal(&self, pass: PassId, cause: StepRefused) -> CsqRefusal
        ensures { result ≡ refusal_by (call_at self.now) pass cause }
    {
        let asked = pass_asked(pass, cause);
        CsqRefusal {
            pass: asked.0,
            life: life_asked(cause),
            inside: CsqInside::of(self.call_at(asked)),
        }
    }

    /// Whether each call has made its last step, and no pass owes or holds an IRP.
    pub(crate) fn at_rest(&self) -> bool
        ensures { (W : List Numbered) → Follows self.now W
            → (IsTrue result ↔ IsAtRest (run_of W)) }
    {
        self.machine.at_rest()
    }

    /// The pass that owes an IRP in its present life, if one does.
    fn owner(&self, irp: IrpId) -> Option<PassId>
        ensures { (W : List Numbered) → Follows self.now W → IsOwner (size_in self.now) (run_of W)
            (present (size_in self.now).first (run_of W) irp) result }
    {
        for before in 0..self.machine.passes() {
            let pass = PassId(before + 1);
            if self.machine.owes(pass, irp) {
                return Some(pass);
            }
        }
        None
    }

    /// Where an IRP is, if there is such an IRP.
    pub(crate) fn placed(&self, irp: IrpId) -> Option<CsqPlaced>
        ensures known { IsSome result ↔ (irp.0 < (size_in self.now).irps) }
        ensures placed { (W : List Numbered) → Follows self.now W
            → IfSome result (IsPlacedSo (size_in self.now) (run_of W) irp) }
    {
        let life = self.machine.life(irp)?;
        let place = self.machine.place(irp)?;
        let cancelled = self.machine.cancelled(irp);
        Some(CsqPlaced::at(life, place, self.owner(irp), cancelled))
    }
}
