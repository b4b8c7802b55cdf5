//! How an IRP stands in one of its lives: who is to complete it, and what each step makes of that.
ghost use Rattle.std.specs.Prelude.{◌≡◌, Some};
ghost use Rattle.irp_core.specs.Standings.{moved, place_of, is_free, is_finished, is_waiting, stands_home, stands_listed, is_owed_by, is_held_by, is_removed_by};
ghost use Rattle.irp_core.specs.Texts.{place_text};

use crate::ids::PassId;
use crate::inside::Inside;
use crate::status::NtStatus;
use crate::step::{Kind, Step};
use std::fmt;

/// How an IRP stands in one of its lives, and with it who is to do what about it.
#[derive(Clone, Copy, Debug, PartialEq, Eq)]
pub enum Standing {
    /// It was never armed.
    Home,
    /// It is listed, and its routine is set.
    Waiting,
    /// It is listed, and this pass took its routine.
    Owed(PassId),
    /// This pass got it, and is to complete it with this status.
    Held(PassId, NtStatus),
    /// It was completed with this status, by this pass.
    Finished(NtStatus, PassId),
}

impl Standing {
    /// Whether the routine is set.
    pub(crate) fn is_waiting(self) -> bool
        ensures { result ≡ is_waiting self }
    {
        matches!(self, Standing::Waiting)
    }

    /// Where the IRP is.
    pub(crate) fn place(self) -> IrpPlace
        ensures { result ≡ place_of self }
    {
        match self {
            Standing::Home => IrpPlace::Home,
            Standing::Waiting | Standing::Owed(_) => IrpPlace::Listed,
            Standing::Held(pass, _) => IrpPlace::HeldBy(pass),
            Standing::Finished(status, pass) => IrpPlace::Completed(status, pass),
        }
    }

    /// Whether nobody owes or holds the IRP.
    pub(crate) fn is_free(self) -> bool
        ensures { result ≡ is_free self }
    {
        !matches!(self, Standing::Owed(_) | Standing::Held(..))
    }

    pub(crate) fn is_home(self) -> bool
        ensures { result ≡ stands_home self }
    {
        matches!(self, Standing::Home)
    }

    pub(crate) fn is_finished(self) -> bool
        ensures { result ≡ is_finished self }
    {
        matches!(self, Standing::Finished(..))
    }

    pub(crate) fn is_listed(self) -> bool
        ensures { result ≡ stands_listed self }
    {
        matches!(self, Standing::Waiting | Standing::Owed(_))
    }

    #[tactic(auto, unfolding(crate::specs::Steps::same_pass))]
    pub(crate) fn is_owed_by(self, pass: PassId) -> bool
        ensures { result ≡ is_owed_by pass self }
    {
        matches!(self, Standing::Owed(owner) if owner == pass)
    }

    #[tactic(auto, unfolding(crate::specs::Steps::same_pass))]
    pub(crate) fn is_held_by(self, pass: PassId) -> bool
        ensures { result ≡ is_held_by pass self }
    {
        matches!(self, Standing::Held(holder, _) if holder == pass)
    }

    #[tactic(auto, unfolding(crate::specs::Steps::same_pass))]
    pub(crate) fn is_removed_by(self, pass: PassId) -> bool
        ensures { result ≡ is_removed_by pass self }
    {
        matches!(self, Standing::Held(holder, status) if holder == pass && status.0 == 0)
    }

    /// How the IRP stands after a step of it, by a pass that is inside of this.
    pub(crate) fn after(self, step: Step, inside: Inside) -> Standing
        ensures { result ≡ moved step.kind self step.pass inside }
    {
        match (self, step.kind) {
            (Standing::Home, Kind::Arm(_)) => Standing::Waiting,
            // The exchange that found the routine decides: what an insert or a put-back takes back was cancelled.
            (Standing::Waiting, Kind::Disarm(_)) => {
                let status = if inside.is_insert() {
                    NtStatus::CANCELLED
                } else {
                    NtStatus::SUCCESS
                };
                Standing::Held(step.pass, status)
            }
            (Standing::Waiting, Kind::Take(_)) => Standing::Owed(step.pass),
            (Standing::Owed(_), Kind::Out(_)) => Standing::Held(step.pass, NtStatus::CANCELLED),
            (Standing::Held(_, status), Kind::Done(_)) => Standing::Finished(status, step.pass),
            (Standing::Held(..), Kind::Rearm(_)) => Standing::Waiting,
            // An exchange that found no routine came too late, and changes nothing.
            _ => self,
        }
    }
}

/// Where an IRP is, in its present life.
#[derive(Clone, Copy, Debug, PartialEq, Eq)]
pub enum IrpPlace {
    /// It wasn't inserted yet.
    Home,
    /// It is in the queue, claimed by a cancel or not.
    Listed,
    /// This pass got it, and is to complete it.
    HeldBy(PassId),
    /// It was completed with this status, by this pass.
    Completed(NtStatus, PassId),
}

/// The place, with the pass that got the IRP and the status, as `completed C0000120 by p2`.
impl fmt::Display for IrpPlace {
    ghost output = { λ place. Some (place_text place) };

    fn fmt<W: fmt::Write>(&self, f: &mut fmt::Formatter<W>) -> fmt::Result {
        match self {
            IrpPlace::Home => write!(f, "home"),
            IrpPlace::Listed => write!(f, "listed"),
            IrpPlace::HeldBy(pass) => write!(f, "held by {pass}"),
            IrpPlace::Completed(status, pass) => write!(f, "completed {status} by {pass}"),
        }
    }
}
