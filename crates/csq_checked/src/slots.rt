//! What a pass knows of each IRP of its queue.
ghost use Rattle.std.specs.Prelude.{◌≡◌, ◌<◌, nat_lt, length, replicate, slice_set, None, IfOk};
ghost use Rattle.csq_checked.specs.Slots.{slot_at};

use irp_core::{IrpId, Life};
use std::alloc::{AllocError, Global};
use std::marker::Model;

/// How a pass holds an IRP.
#[derive(Clone, Copy)]
pub struct Held {
    /// Whether it got it by a removal.
    pub removed: bool,
    /// The life in which it holds it.
    pub life: Life,
}

/// A slot for each IRP. A contract sees what is in each.
#[derive(Drop)]
pub(crate) struct Slots<T: Copy + Drop> {
    slots: Vec<Option<T>>,
}

impl<T: Copy + Drop> Model for Slots<T> {
    ghost use Rattle.std.specs.Prelude.{List, Option};

    ghost Value = { List (Option T) };

    ghost view = { λ s. s.slots.items };
}

impl<T: Copy + Drop> Slots<T> {
    /// Empty slots for so many IRPs.
    pub(crate) fn new(alloc: Global, irps: u32) -> Result<Slots<T>, AllocError>
        ensures { IfOk result (λ slots. slots ≡ replicate irps None) }
    {
        let slots = vec![in alloc; None; irps as usize]?;
        Ok(Slots { slots })
    }

    /// Whether there is such an IRP.
    pub(crate) fn knows(&self, irp: IrpId) -> bool
        ensures { result ≡ nat_lt irp.0 (length self.now) }
    {
        (irp.0 as usize) < self.slots.len()
    }

    /// What is in the slot of an IRP. None also for an unknown one.
    pub(crate) fn get(&self, irp: IrpId) -> Option<T>
        ensures { result ≡ slot_at self.now irp.0 }
    {
        *self.slots.get(irp.0 as usize)?
    }

    /// Puts this into the slot of a known IRP, or empties it.
    pub(crate) fn set(&mut self, irp: IrpId, slot: Option<T>)
        requires { irp.0 < length self.old }
        ensures { self.new ≡ slice_set self.old irp.0 slot }
    {
        self.slots[irp.0 as usize] = slot;
    }
}
