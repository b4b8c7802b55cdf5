//! What C reads and writes beside the handles.
ghost use Rattle.std.specs.Prelude.{◌≡◌, IfSome};
ghost use Rattle.csq_c.specs.Sizes.{given_size};
ghost use Rattle.csq_c.specs.Lefts.{start_of, left_written};
ghost use Rattle.csq_c.specs.Shapes.{irp_named, place_numbered, peek_of, written, set_to};

use csq_checked::{ListKind, QueueSize};
use csq_list::{Peek, Place};
use irp_core::{FileId, IrpId, IrpLife, Life};

/// An IRP in one of its lives, as the insert context of `IoCsqInsertIrpEx` names it.
#[repr(C)]
#[derive(Clone, Copy)]
pub struct CsqIrp {
    pub irp: u32,
    pub life: u32,
}

impl CsqIrp {
    /// The IRP that it names.
    pub(crate) fn named(self) -> IrpLife
        ensures { result ≡ irp_named self }
    {
        IrpLife {
            irp: IrpId(self.irp),
            life: Life(self.life),
        }
    }

    /// Writes an IRP, if there is one.
    pub(crate) fn write(&mut self, irp: Option<IrpLife>)
        ensures { self.new ≡ written irp self.old }
    {
        if let Some(named) = irp {
            self.irp = named.irp.0;
            self.life = named.life.0;
        }
    }
}

/// Writes a number, if there is one.
pub(crate) fn write(to: &mut u32, number: Option<u32>)
    ensures { to.new ≡ set_to number to.old }
{
    if let Some(number) = number {
        *to = number;
    }
}

/// Where an insert puts its IRP: first unless the number is 0.
pub(crate) fn place(front: u32) -> Place
    ensures { result ≡ place_numbered front }
{
    if front == 0 {
        Place::Back
    } else {
        Place::Front
    }
}

/// Which IRPs a removal takes: any by the largest number, else those of the file object.
pub(crate) fn peek(file: u32) -> Peek
    ensures { result ≡ peek_of file }
{
    if file == u32::MAX {
        Peek::Any
    } else {
        Peek::File(FileId(file))
    }
}

/// How large a queue is to be.
#[repr(C)]
#[derive(Clone, Copy)]
pub struct CsqSize {
    /// The number of IRPs, 1 to `LARGE_MAX_IRPS`.
    pub irps: u32,
    /// The number of file objects, 1 to `LARGE_MAX_FILES`.
    pub files: u32,
    /// How many IRPs may be listed at a time, 1 to `irps`.
    pub limit: u32,
    /// The number of passes, 1 to `LARGE_MAX_PASSES`.
    pub passes: u32,
    /// The life in which all IRPs begin, at most 2^30 - 1.
    pub first_life: u32,
    /// How the list is kept: 0 in one vector, 1 in chains, 2 as `ListKind::for_irps` chooses.
    pub list: u32,
}

impl CsqSize {
    /// The size, if its list is of a kind that there is.
    pub(crate) fn given(&self) -> Option<QueueSize>
        ensures given { result ≡ given_size self.now }
        ensures numbers { IfSome result (λ size. size
            ≡ record {
              irps = self.now.irps;
              files = self.now.files;
              limit = self.now.limit;
              passes
                  = self.now.passes;
              first = record { 0 = self.now.first_life };
              list = size.list;
            }) }
    {
        let list = match self.list {
            0 => ListKind::Vector,
            1 => ListKind::Chains,
            2 => ListKind::for_irps(self.irps),
            _ => return None,
        };
        Some(QueueSize {
            irps: self.irps,
            files: self.files,
            limit: self.limit,
            passes: self.passes,
            first: Life(self.first_life),
            list,
        })
    }
}

/// What is left of an IRP once its queue is closed.
#[repr(C)]
#[derive(Clone, Copy)]
pub struct CsqLeft {
    /// Its present life.
    pub life: u32,
    /// 1 if its Cancel flag is set, else 0.
    pub cancelled: u32,
    /// 1 where it was completed, else 0.
    pub completed: u32,
    /// The status that it was completed with, or 0.
    pub status: u32,
}

impl CsqLeft {
    /// Writes what is left, if there is something.
    pub(crate) fn write(&mut self, left: Option<CsqLeft>)
        ensures { self.new ≡ left_written left self.old }
    {
        if let Some(left) = left {
            *self = left;
        }
    }
}

/// The IRP after which the next one is asked for: none by the largest number.
pub(crate) fn start(after: u32) -> Option<IrpId>
    ensures { result ≡ start_of after }
{
    if after == u32::MAX {
        None
    } else {
        Some(IrpId(after))
    }
}
