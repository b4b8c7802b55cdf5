//! What C reads and writes beside the handle of a replay.
ghost use Rattle.std.specs.Prelude.{◌≡◌};
ghost use Rattle.csq_c.specs.ReplayShapes.{c_name, inside_of, kind_numbered, placed_at, step_named};

use crate::replay::pass_call::PassCall;
use crate::shapes::CsqIrp;
use irp_core::{Inside, IrpLife, IrpPlace, Kind, Life, PassId, Step};

/// The kind of a step by its number, of this IRP: none by a number that isn't in `csq_replay.h`.
fn kind_numbered(number: u32, name: IrpLife) -> Option<Kind>
    ensures { result ≡ kind_numbered number name }
{
    match number {
        1 => Some(Kind::Arm(name)),
        2 => Some(Kind::Test(name)),
        3 => Some(Kind::Disarm(name)),
        4 => Some(Kind::End),
        5 => Some(Kind::Flag(name)),
        6 => Some(Kind::Take(name)),
        7 => Some(Kind::Out(name)),
        8 => Some(Kind::Done(name)),
        9 => Some(Kind::Renew(name)),
        10 => Some(Kind::Rearm(name)),
        _ => None,
    }
}

/// A step that a pass is to make.
#[repr(C)]
#[derive(Clone, Copy)]
pub struct CsqStep {
    /// The caller's own number of it.
    pub number: u64,
    /// The pass.
    pub pass: u32,
    /// The number of its kind.
    pub kind: u32,
    /// The IRP that it names, if it names one.
    pub irp: CsqIrp,
}

impl CsqStep {
    /// The step, if its kind is one.
    pub(crate) fn named(&self) -> Option<Step>
        ensures { result ≡ step_named self.now }
    {
        let pass = PassId(self.pass);
        match kind_numbered(self.kind, self.irp.named()) {
            Some(kind) => Some(Step { pass, kind }),
            None => None,
        }
    }
}

/// An IRP, as C names it.
fn c_name(name: IrpLife) -> CsqIrp
    ensures { result ≡ c_name name }
{
    CsqIrp {
        irp: name.irp.0,
        life: name.life.0,
    }
}

/// What a pass is inside of.
#[repr(C)]
#[derive(Clone, Copy)]
pub struct CsqInside {
    /// The number of the call, or 0.
    pub call: u32,
    /// The number of the kind of its next step, or 0.
    pub next: u32,
    /// The IRP that its next step names, or 0s.
    pub irp: CsqIrp,
    /// The number of the call's first step, or 0.
    pub since: u64,
}

impl CsqInside {
    /// What a pass is inside of.
    pub(crate) fn of(call: PassCall) -> CsqInside
        ensures { result ≡ inside_of call }
    {
        let none = CsqIrp { irp: 0, life: 0 };
        let (number, next, irp, since) = match call.inside {
            Inside::Nothing => (0, 0, none, 0),
            Inside::Armed(name) => (1, 2, c_name(name), call.since),
            Inside::FlagSeen(name) => (1, 3, c_name(name), call.since),
            Inside::Removing => (2, 3, none, call.since),
            Inside::Cancelling(name) => (3, 6, c_name(name), call.since),
            Inside::Rearmed(name) => (4, 2, c_name(name), call.since),
            Inside::FlagSeenAgain(name) => (4, 3, c_name(name), call.since),
        };
        CsqInside {
            call: number,
            next,
            irp,
            since,
        }
    }
}

/// Whom the refusal of a step is about.
#[repr(C)]
#[derive(Clone, Copy)]
pub struct CsqRefusal {
    /// The pass that has the lock, if that is why, otherwise the step's own.
    pub pass: u32,
    /// The IRP's present life, if the step names another, otherwise 0.
    pub life: u32,
    /// What that pass is inside of.
    pub inside: CsqInside,
}

/// Where an IRP is.
#[repr(C)]
#[derive(Clone, Copy)]
pub struct CsqPlaced {
    /// Its present life.
    pub life: u32,
    /// The number of its place.
    pub place: u32,
    /// Who owes it, holds it or completed it, or 0.
    pub pass: u32,
    /// The status that it was completed with, or 0.
    pub status: u32,
    /// 1 if its Cancel flag is set, otherwise 0.
    pub cancelled: u32,
}

impl CsqPlaced {
    /// An IRP at this place, which this pass owes if one does.
    pub(crate) fn at(
        life: Life,
        place: IrpPlace,
        owner: Option<PassId>,
        cancelled: bool,
    ) -> CsqPlaced
        ensures { result ≡ placed_at life.0 place owner cancelled }
    {
        let (number, pass, status) = match (place, owner) {
            (IrpPlace::Home, _) => (0, 0, 0),
            (IrpPlace::Listed, None) => (1, 0, 0),
            (IrpPlace::Listed, Some(owner)) => (2, owner.0, 0),
            (IrpPlace::HeldBy(pass), _) => (3, pass.0, 0),
            (IrpPlace::Completed(status, pass), _) => (4, pass.0, status.0),
        };
        CsqPlaced {
            life: life.0,
            place: number,
            pass,
            status,
            cancelled: u32::from(cancelled),
        }
    }
}
