//! Where each IRP is, and since which line.
ghost use Rattle.std.specs.Prelude.{◌≡◌, replicate, IfOk};
ghost use Rattle.csq_explain.specs.Irps.{irp_asked, irp_at, irps_moved, is_in, moved_by, new_irp};

use csq_replay::Stop;
use irp_core::{IrpId, Kind, Life, Made, PassId};
use std::alloc::{AllocError, Allocator};

/// Where the last step that moved an IRP has put it, and the line of that step.
#[derive(Clone, Copy)]
pub enum LastMove {
    /// No step has moved it.
    Unmoved,
    /// It has been in the list since this line, and no exchange has taken its cancel routine since.
    Pending(usize),
    /// This pass took its cancel routine in this line, and has to complete it as cancelled.
    OwedBy(PassId, usize),
    /// This pass got it in this line, and has to complete it.
    GotBy(PassId, usize),
    /// This pass completed it in this line.
    CompletedBy(PassId, usize),
    /// This line ended its life.
    Renewed(usize),
}

/// The last step that moved an IRP, and the life that this step named; a renew names the life that it ends.
#[derive(Clone, Copy)]
pub struct IrpState {
    /// Where that step has put it.
    pub moved: LastMove,
    /// The life that the step named; 0 before the first.
    pub life: Life,
}

impl IrpState {
    /// An IRP that no step has moved.
    pub(crate) const NEW: IrpState = IrpState {
        moved: LastMove::Unmoved,
        life: Life(0),
    };

    /// An IRP after a step of it of this kind, which found this value, by this pass in this line.
    pub(crate) fn after(self, kind: Kind, found: u64, pass: PassId, line: usize) -> IrpState
        ensures { result ≡ moved_by kind found pass line self }
    {
        let (name, moved) = match kind {
            Kind::Arm(name) | Kind::Rearm(name) => (name, LastMove::Pending(line)),
            Kind::Take(name) if found == 1 => (name, LastMove::OwedBy(pass, line)),
            Kind::Disarm(name) if found == 1 => (name, LastMove::GotBy(pass, line)),
            Kind::Out(name) => (name, LastMove::GotBy(pass, line)),
            Kind::Done(name) => (name, LastMove::CompletedBy(pass, line)),
            Kind::Renew(name) => (name, LastMove::Renewed(line)),
            _ => return self,
        };
        IrpState {
            moved,
            life: name.life,
        }
    }

    /// Whether the IRP is in this life. Own rule.
    pub fn is_in(self, life: Life) -> bool
        ensures { result ≡ is_in self life }
    {
        match self.moved {
            LastMove::Renewed(_) => u64::from(life.0) == u64::from(self.life.0) + 1,
            _ => life.0 == self.life.0,
        }
    }
}

/// Where an IRP is.
pub(crate) fn irp_at(irps: &[IrpState], irp: IrpId) -> IrpState
    ensures { result ≡ irp_at irps.now irp }
{
    irps.get(irp.0 as usize).copied().unwrap_or(IrpState::NEW)
}

/// These IRPs, of which no step has moved one.
pub(crate) fn new_irps<A: Allocator>(alloc: A, count: usize) -> Result<Vec<IrpState, A>, AllocError>
    ensures { IfOk result (λ irps. irps.items ≡ replicate count new_irp) }
{
    vec![in alloc; IrpState::NEW; count]
}

/// Notes a step that was made, which this line names. In line, since each line of a schedule calls it.
#[inline(always)]
pub(crate) fn note_irp<A: Allocator>(irps: &mut Vec<IrpState, A>, line: usize, made: Made)
    ensures { irps.new.items ≡ irps_moved irps.old.items (record { line = line; step = made }) }
{
    if let Some(name) = made.kind.name() {
        let number = name.irp.0 as usize;
        if number < irps.len() {
            irps[number] = irps[number].after(made.kind, made.found, made.pass, line);
        }
    }
}

/// Where the IRP is that a line's end is a matter of, if there is one.
pub(crate) fn irp_asked(irps: &[IrpState], stop: Stop) -> IrpState
    ensures { result ≡ irp_asked irps.now stop }
{
    let Stop::Refused(step, _) = stop else {
        return IrpState::NEW;
    };
    match step.kind.name() {
        Some(name) => irp_at(irps, name.irp),
        None => IrpState::NEW,
    }
}
