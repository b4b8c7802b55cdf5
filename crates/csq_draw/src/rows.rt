//! The rows of a picture: one for each step.
ghost use Rattle.std.specs.Prelude.{◌≡◌, ◌<◌, ◌^◌, IfErr, IfOk};

use crate::marks::Legality;
use crate::owners::Owner;
use csq_explain::{StepInCall, WordValues};
use irp_core::PassId;
use std::alloc::AllocError;

/// A step: its row, from 0 on, the number of its line, how it stands to the protocol, who had the lock then, whose time
/// with its IRP it ended, and the words of that IRP after it.
#[derive(Clone, Copy)]
pub(crate) struct Row {
    pub(crate) row: u32,
    pub(crate) line: usize,
    pub(crate) step: StepInCall,
    pub(crate) legality: Legality,
    pub(crate) lock: Option<PassId>,
    pub(crate) ended: Option<Owner>,
    pub(crate) words: Option<WordValues>,
}

/// This number as a `u32`: no input has more lines than that.
pub(crate) fn count(number: usize) -> Result<u32, AllocError>
    ensures counted { IfOk result (λ count. count ≡ number) }
    ensures refused { IfErr result (λ _. ¬ (number < 2 ^ 32)) }
{
    u32::try_from(number).map_err(|_| AllocError)
}
