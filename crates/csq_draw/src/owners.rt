//! Who owes an IRP, or holds it, and in which lane beside the column of that pass its line is drawn.
ghost use Rattle.std.specs.Prelude.{◌≡◌, ◌<◌, length, replicate, IfOk};
ghost use Rattle.irp_core.specs.Runs.{OfIrp};
ghost use Rattle.irp_core.specs.Steps.{number};
ghost use Rattle.csq_draw.specs.Owners.{having_after, owner_after, ended_by};
ghost use Rattle.csq_draw.specs.Drawings.{owner_in, with_owner};

use crate::lanes::lane_for;
use irp_core::{IrpLife, Kind, Made, PassId};
use std::alloc::{AllocError, Allocator};
use std::fmt;

/// How a pass has an IRP that it claimed.
#[derive(Clone, Copy)]
pub(crate) enum Having {
    Owes,
    Holds,
}

impl fmt::Display for Having {
    fn fmt<W: fmt::Write>(&self, f: &mut fmt::Formatter<W>) -> fmt::Result {
        match *self {
            Having::Owes => write!(f, "owes"),
            Having::Holds => write!(f, "holds"),
        }
    }
}

/// How the pass of a step has its IRP from then on, if the step claims the IRP or takes it out.
pub(crate) fn having_after(made: Made) -> Option<Having>
    ensures { result ≡ having_after made.kind made.found }
{
    match made.kind {
        Kind::Take(_) if made.found == 1 => Some(Having::Owes),
        Kind::Disarm(_) if made.found == 1 => Some(Having::Holds),
        Kind::Out(_) => Some(Having::Holds),
        _ => None,
    }
}

/// An IRP, the pass that owes or holds it, the row of the step by which it came to, and the lane of its line.
#[derive(Clone, Copy)]
pub(crate) struct Owner {
    pub(crate) name: IrpLife,
    pub(crate) pass: PassId,
    pub(crate) having: Having,
    pub(crate) row: u32,
    pub(crate) lane: u32,
}

/// This number of IRPs, none of which has an owner.
pub(crate) fn new_owners<A: Allocator>(
    alloc: A,
    count: usize,
) -> Result<Vec<Option<Owner>, A>, AllocError>
    ensures { IfOk result (λ owners. owners.items ≡ replicate count None) }
{
    vec![in alloc; None; count]
}

/// Who has an IRP after a step of it on this row, before which these were the owners of all IRPs.
fn owner_after(
    owners: &[Option<Owner>],
    before: Option<Owner>,
    made: Made,
    row: u32,
) -> Option<Owner>
    ensures { result ≡ owner_after owners.now before made row }
{
    let pass = made.pass;
    match (made.kind.name(), having_after(made)) {
        (Some(name), Some(having)) => Some(Owner {
            name,
            pass,
            having,
            row,
            lane: lane_for(owners, pass, before),
        }),
        _ => match made.kind {
            Kind::Done(_) | Kind::Rearm(_) => None,
            _ => before,
        },
    }
}

/// Whose time with an IRP a step of this kind ends, of the owner before it.
pub(crate) fn ended_by(kind: Kind, before: Option<Owner>) -> Option<Owner>
    ensures { result ≡ ended_by kind before }
{
    match kind {
        Kind::Out(_) | Kind::Done(_) | Kind::Rearm(_) => before,
        _ => None,
    }
}

/// The owner of the IRP that a step of this kind names.
pub(crate) fn owner_in(owners: &[Option<Owner>], kind: Kind) -> Option<Owner>
    requires { OfIrp (λ i. number i < length owners.now) kind }
    ensures { result ≡ owner_in owners.now kind }
{
    owners[kind.name()?.irp.0 as usize]
}

/// Notes the owner of an IRP after a step of it on this row.
pub(crate) fn note_owner(owners: &mut [Option<Owner>], made: Made, row: u32)
    requires { OfIrp (λ i. number i < length owners.old) made.kind }
    ensures { owners.new ≡ with_owner owners.old made row }
{
    if let Some(name) = made.kind.name() {
        let number = name.irp.0 as usize;
        let owner = owner_after(owners, owners[number], made, row);
        owners[number] = owner;
    }
}
