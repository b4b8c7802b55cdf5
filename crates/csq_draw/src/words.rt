//! The two words of an IRP after a step: its Cancel flag, and its cancel routine.
ghost use Rattle.std.specs.Prelude.{◌≡◌, ◌<◌};
ghost use Rattle.irp_core.specs.MachineState.{size_of};
ghost use Rattle.irp_core.specs.Runs.{OfIrp};
ghost use Rattle.irp_core.specs.Steps.{number};
ghost use Rattle.csq_draw.specs.Words.{routine_at, AreWordsNamed};

use crate::owners::Owner;
use csq_explain::WordValues;
use irp_core::{IrpLife, IrpPlace, Kind, Machine};
use std::alloc::Allocator;

/// Whether the routine is set of an IRP at this place, which has this owner: as long as it is listed and no
/// pass owes it.
fn routine_at(place: IrpPlace, owner: Option<Owner>) -> bool
    ensures { result ≡ routine_at place owner }
{
    match place {
        IrpPlace::Listed => owner.is_none(),
        _ => false,
    }
}

/// The words of the IRP that a step of this kind names, which has this owner after it.
pub(crate) fn words_named<A: Allocator>(
    machine: &Machine<A>,
    kind: Kind,
    owner: Option<Owner>,
) -> Option<WordValues>
    requires { OfIrp (λ i. number i < (size_of machine.now).irps) kind }
    ensures { AreWordsNamed machine.now kind owner result }
{
    let irp = kind.name()?.irp;
    let life = machine.life(irp).unwrap();
    let place = machine.place(irp).unwrap();
    Some(WordValues {
        name: IrpLife { irp, life },
        flag: machine.cancelled(irp),
        routine: routine_at(place, owner),
    })
}

/// Whether a step changed the Cancel flag, or began it anew.
pub(crate) fn changes_flag(kind: Kind, found: u64) -> bool {
    match kind {
        Kind::Flag(_) => found == 0,
        Kind::Renew(_) => true,
        _ => false,
    }
}

/// Whether a step changed the cancel routine, or began it anew.
pub(crate) fn changes_routine(kind: Kind, found: u64) -> bool {
    match kind {
        Kind::Arm(_) | Kind::Rearm(_) => found == 0,
        Kind::Disarm(_) | Kind::Take(_) => found == 1,
        Kind::Renew(_) => true,
        _ => false,
    }
}
