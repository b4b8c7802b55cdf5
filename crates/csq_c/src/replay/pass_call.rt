//! What a pass is inside of, and since which step.
ghost use Rattle.std.specs.Prelude.{◌≡◌};
ghost use Rattle.csq_c.specs.Replays.{call_after};

use irp_core::{Inside, Made};

/// What a pass is inside of, and the number of the step with which that call began.
#[derive(Clone, Copy)]
pub(crate) struct PassCall {
    /// The call that the pass has begun, and how far it is.
    pub(crate) inside: Inside,
    /// The number of the first step of that call, or of the pass's last one; 0 before its first.
    pub(crate) since: u64,
}

impl PassCall {
    /// A pass that made no step.
    pub(crate) const NONE: PassCall = PassCall {
        inside: Inside::Nothing,
        since: 0,
    };

    /// What the pass is inside of after its step, which has this number.
    pub(crate) fn after(self, number: u64, made: Made) -> PassCall
        ensures { result ≡ call_after self number made }
    {
        let begins = matches!(self.inside, Inside::Nothing);
        PassCall {
            inside: self.inside.after(made.kind, made.found),
            since: if begins { number } else { self.since },
        }
    }
}
