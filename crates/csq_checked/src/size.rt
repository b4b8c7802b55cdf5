//! How large a queue is to be, and why one is not made.
ghost use Rattle.std.specs.Prelude.{◌↔◌, IsTrue};
ghost use Rattle.irp_core.specs.Runs.{IsInLargeLimits};
ghost use Rattle.csq_checked.specs.Sizes.{size_in};

use csq_list::ListKind;
use irp_core::{Life, are_in_large_limits};

/// How large a queue is to be. Own rule.
#[derive(Clone, Copy, Debug, PartialEq, Eq)]
pub struct QueueSize {
    /// The number of IRPs, 1 to `LARGE_MAX_IRPS`.
    pub irps: u32,
    /// The number of file objects, 1 to `LARGE_MAX_FILES`.
    pub files: u32,
    /// How many IRPs may be listed at a time, 1 to `irps`.
    pub limit: u32,
    /// The number of passes, 1 to `LARGE_MAX_PASSES`.
    pub passes: u32,
    /// The life in which all IRPs begin, at most 2^30 - 1.
    pub first: Life,
    /// How the list is kept.
    pub list: ListKind,
}

impl QueueSize {
    /// Whether the numbers of the words are in their ranges.
    pub(crate) fn is_in_limits(&self) -> bool
        ensures { IsTrue result ↔ IsInLargeLimits (size_in self.now) }
    {
        are_in_large_limits(self.irps, self.passes, self.first)
    }
}

/// Why no pass is handed out, in the order in which the causes are tested. Own rule.
#[derive(Clone, Copy, Debug, PartialEq, Eq)]
pub enum PassRefused {
    /// All passes are out.
    NoPass,
    /// Memory that the pass needs was refused. It can still be handed out.
    Memory,
}
