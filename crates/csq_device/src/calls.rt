//! Calls of one kind.
ghost use Rattle.std.specs.Prelude.{◌≡◌, ◌+◌, ◌<◌, ◌≤◌, ◌^◌};

/// Calls of one kind. Each completes one IRP or none.
#[derive(Clone, Copy, PartialEq, Eq)]
pub struct CallCounts {
    /// How many calls were made.
    pub made: u32,
    /// How many of them completed an IRP.
    pub completed: u32,
    pub ghost most: { completed ≤ made },
}

impl CallCounts {
    /// No calls.
    pub(crate) fn none() -> CallCounts
        ensures made { result.made ≡ 0 }
        ensures completed { result.completed ≡ 0 }
    {
        CallCounts {
            made: 0,
            completed: 0,
        }
    }

    /// One call, which completed so many IRPs: one or none.
    pub(crate) fn one(completed: u32) -> CallCounts
        requires { completed ≤ 1 }
        ensures made { result.made ≡ 1 }
        ensures completed { result.completed ≡ completed }
    {
        CallCounts { made: 1, completed }
    }

    /// The calls that completed no IRP.
    pub fn missed(&self) -> u32
        ensures { result + self.now.completed ≡ self.now.made }
    {
        self.made - self.completed
    }

    /// These calls and others.
    pub(crate) fn plus(self, other: CallCounts) -> CallCounts
        requires { self.made + other.made < 2 ^ 32 }
        ensures made { result.made ≡ self.made + other.made }
        ensures completed { result.completed ≡ self.completed + other.completed }
    {
        CallCounts {
            made: self.made + other.made,
            completed: self.completed + other.completed,
        }
    }
}
