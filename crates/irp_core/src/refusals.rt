//! Why the machine refuses a step, and why nothing of some size is made.
ghost use Rattle.std.specs.Prelude.{◌≡◌, Some};
ghost use Rattle.irp_core.specs.Refusals.{refusal_number};
ghost use Rattle.irp_core.specs.Texts.{refusal_text};
ghost use Rattle.irp_core.specs.declared.refusals.SizeRefused.TheVariants.{Memory};

use crate::ids::{Life, PassId};
use std::alloc::AllocError;
use std::fmt;

/// Why a step is refused. The causes are tested in this order, and a refusal changes nothing (own rule).
#[derive(Clone, Copy, Debug, PartialEq, Eq)]
pub enum StepRefused {
    /// The IRP's number isn't below the machine's number of IRPs.
    UnknownIrp,
    /// The pass isn't one of 1 to the machine's number of passes.
    UnknownPass,
    /// The step is made under the lock, and this other pass has it: it is inside an insert, a
    /// put-back or a removal.
    LockHeld(PassId),
    /// The pass is inside a program that has another next step, or inside none, and no program begins so.
    NotNext,
    /// An Arm of an IRP that was armed before in the life named.
    NotHome,
    /// A Disarm of an IRP that isn't listed in the life named.
    NotListed,
    /// An Out of an IRP that the pass doesn't owe in the life named.
    NotOwed,
    /// A Done of an IRP that the pass doesn't hold in the life named, or a Rearm of one that it doesn't hold or
    /// didn't get by a removal.
    NotHeld,
    /// An Arm, Flag or Renew of an IRP that is in another life, this one.
    Stale(Life),
    /// A Renew of an IRP that wasn't completed in its present life.
    NotCompleted,
    /// A Renew of an IRP in the last life that there can be.
    LivesSpent,
}

impl StepRefused {
    /// The place among the causes, from 1, in the order in which they are tested.
    pub fn number(self) -> u8
        ensures { result ≡ refusal_number self }
    {
        match self {
            StepRefused::UnknownIrp => 1,
            StepRefused::UnknownPass => 2,
            StepRefused::LockHeld(_) => 3,
            StepRefused::NotNext => 4,
            StepRefused::NotHome => 5,
            StepRefused::NotListed => 6,
            StepRefused::NotOwed => 7,
            StepRefused::NotHeld => 8,
            StepRefused::Stale(_) => 9,
            StepRefused::NotCompleted => 10,
            StepRefused::LivesSpent => 11,
        }
    }
}

/// Its name; `LockHeld` is followed by the pass that has the lock, as `LockHeld p1`, and `Stale` by the life
/// that is present, as `Stale 1`.
impl fmt::Display for StepRefused {
    ghost output = { λ cause. Some (refusal_text cause) };

    fn fmt<W: fmt::Write>(&self, f: &mut fmt::Formatter<W>) -> fmt::Result {
        match self {
            StepRefused::UnknownIrp => write!(f, "UnknownIrp"),
            StepRefused::UnknownPass => write!(f, "UnknownPass"),
            StepRefused::LockHeld(pass) => write!(f, "LockHeld {pass}"),
            StepRefused::NotNext => write!(f, "NotNext"),
            StepRefused::NotHome => write!(f, "NotHome"),
            StepRefused::NotListed => write!(f, "NotListed"),
            StepRefused::NotOwed => write!(f, "NotOwed"),
            StepRefused::NotHeld => write!(f, "NotHeld"),
            StepRefused::Stale(life) => write!(f, "Stale {life}"),
            StepRefused::NotCompleted => write!(f, "NotCompleted"),
            StepRefused::LivesSpent => write!(f, "LivesSpent"),
        }
    }
}

/// Why no machine, list, words or queue of a size is made.
#[derive(Clone, Copy, Debug, PartialEq, Eq)]
pub enum SizeRefused {
    /// One of the numbers is outside its range.
    BadSize = 1,
    /// The memory that it needs was refused.
    Memory = 2,
}

impl SizeRefused {
    /// The number of the refusal: 1 for `BadSize`, 2 for `Memory` (own rule).
    pub fn number(self) -> u8
        ensures bad_size { self ≡ SizeRefused.BadSize → result ≡ 1 }
        ensures memory { self ≡ SizeRefused.Memory → result ≡ 2 }
    {
        self as u8
    }
}

impl From<AllocError> for SizeRefused {
    ghost from_gives = { λ _ e. e ≡ Memory };

    fn from(_: AllocError) -> Self {
        SizeRefused::Memory
    }
}
