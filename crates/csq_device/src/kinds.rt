//! The calls that the threads of a device make of its queue, except the cleanup.
ghost use Rattle.std.specs.Prelude.{◌≡◌, ◌+◌, ◌<◌, ◌^◌};
ghost use Rattle.csq_device.specs.Duties.{AddsUp, completed_by};

use crate::calls::CallCounts;

/// The calls of submitters, workers, cancellers and busy workers. What a busy worker removes it puts back: its
/// removals aren't among the others.
#[derive(Clone, Copy)]
pub(crate) struct CallsByKind {
    pub(crate) inserts: CallCounts,
    /// The inserts that completed an IRP whose Cancel flag was clear just before them.
    pub(crate) raced: u32,
    pub(crate) removals: CallCounts,
    pub(crate) cancels: CallCounts,
    pub(crate) put_backs: CallCounts,
}

impl CallsByKind {
    /// No calls.
    pub(crate) fn none() -> CallsByKind
        ensures inserts { result.inserts.made ≡ 0 }
        ensures removals { result.removals.made ≡ 0 }
        ensures cancels { result.cancels.made ≡ 0 }
        ensures put_backs { result.put_backs.made ≡ 0 }
        ensures raced { result.raced ≡ 0 }
        ensures completed { completed_by result ≡ 0 }
    {
        CallsByKind {
            inserts: CallCounts::none(),
            raced: 0,
            removals: CallCounts::none(),
            cancels: CallCounts::none(),
            put_backs: CallCounts::none(),
        }
    }

    /// How many IRPs these calls completed.
    pub(crate) fn completed(self) -> u64
        ensures sum { result ≡ completed_by self }
        ensures few { result < 2 ^ 34 }
    {
        u64::from(self.inserts.completed)
            + u64::from(self.removals.completed)
            + u64::from(self.cancels.completed)
            + u64::from(self.put_backs.completed)
    }

    /// These calls and others.
    pub(crate) fn plus(self, other: CallsByKind) -> CallsByKind
        requires inserts { self.inserts.made + other.inserts.made < 2 ^ 32 }
        requires raced { self.raced + other.raced < 2 ^ 32 }
        requires removals { self.removals.made + other.removals.made < 2 ^ 32 }
        requires cancels { self.cancels.made + other.cancels.made < 2 ^ 32 }
        requires put_backs { self.put_backs.made + other.put_backs.made < 2 ^ 32 }
        ensures inserts { AddsUp self.inserts other.inserts result.inserts }
        ensures raced { result.raced ≡ self.raced + other.raced }
        ensures removals { AddsUp self.removals other.removals result.removals }
        ensures cancels { AddsUp self.cancels other.cancels result.cancels }
        ensures put_backs { AddsUp self.put_backs other.put_backs result.put_backs }
    {
        CallsByKind {
            inserts: self.inserts.plus(other.inserts),
            raced: self.raced + other.raced,
            removals: self.removals.plus(other.removals),
            cancels: self.cancels.plus(other.cancels),
            put_backs: self.put_backs.plus(other.put_backs),
        }
    }
}
