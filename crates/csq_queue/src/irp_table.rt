//! What is kept of each IRP under the lock, beside the list.
ghost use Rattle.std.specs.Prelude.{◌≡◌, ◌+◌, ◌<◌, ◌==◌, ◌↔◌, length, slice_index, slice_set, IfOk, IfSome, IsSome};
ghost use Rattle.irp_core.specs.Lives.{last_life};
ghost use Rattle.csq_queue.specs.Named.{new_table};

use irp_core::{FileId, IrpId, IrpLife, Life};
use std::alloc::{AllocError, Allocator};
use std::marker::Model;

/// The present life of each IRP, and the file object that it was accepted for last, which a list forgets as
/// the IRP leaves it. A contract sees their numbers.
#[derive(Drop)]
pub(crate) struct IrpTable<A: Allocator> {
    lives: Vec<u32, A>,
    files: Vec<u32, A>,
}

impl<A: Allocator> Model for IrpTable<A> {
    ghost use Rattle.csq_queue.specs.Named.{IrpNumbers};

    ghost Value = { IrpNumbers };

    ghost view = { λ t. record { lives = t.lives.items; files = t.files.items } };
}

impl<A: Allocator> IrpTable<A> {
    /// So many IRPs, all in this life, and of no file object yet.
    pub(crate) fn new(alloc: A, irps: u32, first: Life) -> Result<IrpTable<A>, AllocError>
    where
        A: Copy,
        ensures { IfOk result (λ kept. kept ≡ new_table irps first.0) }
    {
        let lives = vec![in alloc; first.0; irps as usize]?;
        let files = vec![in alloc; 0; irps as usize]?;
        Ok(IrpTable { lives, files })
    }

    /// An IRP in its present life.
    pub(crate) fn present(&self, irp: IrpId) -> IrpLife
        requires { irp.0 < length self.now.lives }
        ensures { result ≡ record {
          irp = irp;
          life = record
              { 0 = slice_index self.now.lives irp.0 };
        } }
    {
        let life = Life(self.lives[irp.0 as usize]);
        IrpLife { irp, life }
    }

    /// The present life of an IRP. None if there is no such IRP.
    pub(crate) fn get(&self, irp: IrpId) -> Option<Life>
        ensures known { IsSome result ↔ (irp.0 < length self.now.lives) }
        ensures present { IfSome result (λ life. life.0 ≡ slice_index self.now.lives irp.0) }
    {
        Some(Life(*self.lives.get(irp.0 as usize)?))
    }

    /// Whether an IRP is named in its present life.
    pub(crate) fn is_present(&self, irp: IrpLife) -> bool
        requires { irp.irp.0 < length self.now.lives }
        ensures { result ≡ (slice_index self.now.lives irp.irp.0 == irp.life.0) }
    {
        self.lives[irp.irp.0 as usize] == irp.life.0
    }

    /// Begins the next life of an IRP.
    pub(crate) fn begin_next(&mut self, irp: IrpId)
        requires known { irp.0 < length self.old.lives }
        requires few { slice_index self.old.lives irp.0 < last_life }
        ensures { self.new ≡ record self.old
            { lives = slice_set self.old.lives irp.0 (slice_index self.old.lives irp.0 + 1) } }
    {
        self.lives[irp.0 as usize] += 1;
    }

    /// The file object that an IRP was accepted for last.
    pub(crate) fn file(&self, irp: IrpId) -> FileId
        requires { irp.0 < length self.now.files }
        ensures { result ≡ record { 0 = slice_index self.now.files irp.0 } }
    {
        FileId(self.files[irp.0 as usize])
    }

    /// Notes that an IRP was accepted for a file object.
    pub(crate) fn set_file(&mut self, irp: IrpId, file: FileId)
        requires { irp.0 < length self.old.files }
        ensures { self.new ≡ record self.old
            { files = slice_set self.old.files irp.0 file.0 } }
    {
        self.files[irp.0 as usize] = file.0;
    }
}
