//! How a replay is made and freed, its steps, and what they led to. Before any other code each but
//! `csq_replay_new` returns CSQ_EMPTY_HANDLE if the handle is empty.
ghost use Rattle.std.specs.Prelude.{◌≡◌, ◌⊎◌, ◌<◌, ◌↔◌, IfSome, None};
ghost use Rattle.csq_c.specs.Codes.{number_of};
ghost use Rattle.csq_c.specs.Handled.{LooksAtHandle, OnHandle, OnNumber};
ghost use Rattle.csq_c.specs.ReplayCalls.{ShowsIrp, ShowsRest, Steps, free_replay_code};
ghost use Rattle.csq_c.specs.ReplayShapes.{step_named};
ghost use Rattle.csq_c.specs.Replays.{IsGoodReplaySize, IsNewReplay};
ghost use Rattle.csq_c.specs.Shapes.{irp_numbered};

use crate::codes::Code;
use crate::handles::{CsqReplay, lend};
use crate::hold::{boxed, fill, put, take};
use crate::replay::body::ReplayBody;
use crate::replay::codes::of_cause;
use crate::replay::shapes::{CsqPlaced, CsqRefusal, CsqStep};
use crate::shapes::CsqSize;
use irp_core::IrpId;
use std::alloc::Global;

/// Makes a replay without a step, of so many IRPs and passes, with all IRPs in this life: CSQ_OK,
/// otherwise CSQ_NOT_EMPTY, CSQ_BAD_SIZE or CSQ_NO_MEMORY. Own rule.
#[unsafe(no_mangle)]
pub extern "C" fn csq_replay_new(alloc: Global, replay: &mut CsqReplay, size: &CsqSize) -> u32
    ensures filled { (result ≡ number_of Code.NotEmpty) ↔ ¬ (replay.old.boxed.body ≡ None) }
    ensures bad_size { replay.old.boxed.body ≡ None → ((result ≡ number_of Code.BadSize)
        ↔ ¬ IsGoodReplaySize size.now) }
    ensures made { result ≡ number_of Code.Done
        → IfSome replay.new.boxed.body (IsNewReplay size.now) }
    ensures there { result ≡ number_of Code.Done → ¬ (replay.new.boxed.body ≡ None) }
    ensures kept { 0 < result → replay.new.boxed.body ≡ replay.old.boxed.body }
    ensures cause { replay.old.boxed.body ≡ None → (result ≡ number_of Code.Done)
        ⊎ ((result ≡ number_of Code.BadSize) ⊎ (result ≡ number_of Code.NoMemory)) }
{
    fill!(replay, alloc, ReplayBody::new(alloc, size))
}

/// Frees a replay: CSQ_OK, and its handle is empty, otherwise CSQ_EMPTY_HANDLE. Own rule.
#[unsafe(no_mangle)]
pub extern "C" fn csq_replay_free(alloc: Global, replay: &mut CsqReplay) -> u32
    ensures code { result ≡ number_of (free_replay_code replay.old.boxed.body) }
    ensures freed { replay.new.boxed.body ≡ None }
{
    match take(&mut replay.boxed, alloc) {
        None => Code::EmptyHandle.number(),
        Some(body) => {
            drop(body);
            Code::Done.number()
        }
    }
}

/// Makes a step, if it may come next, and writes what it finds: CSQ_OK. Otherwise CSQ_BAD_SIZE if
/// its kind is none, or the code of the first cause that refuses it, and writes whom that is about.
/// Own rule.
#[unsafe(no_mangle)]
pub extern "C" fn csq_replay_step(
    replay: &mut CsqReplay,
    step: &CsqStep,
    found: &mut u32,
    refusal: &mut CsqRefusal,
) -> u32
    ensures { OnHandle replay.old.boxed.body replay.new.boxed.body result
        ((found.new ≡ found.old) × (refusal.new ≡ refusal.old))
        (λ s s' code. OnNumber (step_named step.now) code
        ((s' ≡ s) × (found.new ≡ found.old) × (refusal.new ≡ refusal.old))
        (λ named. Steps step.now named s s' code found.old found.new refusal.old refusal.new)) }
{
    lend!(body in replay);
    let Some(named) = step.named() else {
        return Code::BadSize.number();
    };
    match body.step(step.number, named) {
        Ok(value) => {
            *found = value;
            Code::Done.number()
        }
        Err(cause) => {
            *refusal = body.refusal(named.pass, cause);
            of_cause(cause).number()
        }
    }
}

/// Whether each call has made its last step, and nobody owes or holds an IRP: CSQ_OK, otherwise
/// CSQ_HOLDING. Own rule.
#[unsafe(no_mangle)]
pub extern "C" fn csq_replay_rest(replay: &mut CsqReplay) -> u32
    ensures { LooksAtHandle replay.old.boxed.body replay.new.boxed.body result (Unit {0})
        (λ s code. ShowsRest s code) }
{
    lend!(body in replay);
    if body.at_rest() {
        Code::Done.number()
    } else {
        Code::Holding.number()
    }
}

/// Writes where an IRP is: CSQ_OK, or CSQ_UNKNOWN_IRP. Own rule.
#[unsafe(no_mangle)]
pub extern "C" fn csq_replay_irp(replay: &mut CsqReplay, irp: u32, placed: &mut CsqPlaced) -> u32
    ensures { LooksAtHandle replay.old.boxed.body replay.new.boxed.body result
        (placed.new ≡ placed.old)
        (λ s code. ShowsIrp (irp_numbered irp) s code placed.old placed.new) }
{
    lend!(body in replay);
    let Some(there) = body.placed(IrpId(irp)) else {
        return Code::UnknownIrp.number();
    };
    *placed = there;
    Code::Done.number()
}
