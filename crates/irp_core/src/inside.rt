//! What a pass is inside of between two of its steps: which call it has begun, and how far it is.

use crate::ids::IrpLife;
use crate::step::Kind;

/// What a pass is inside of: the program that it has begun, and how far it is.
#[derive(Clone, Copy, Debug, PartialEq, Eq)]
pub enum Inside {
    /// No program.
    Nothing,
    /// An insert that has set the routine.
    Armed(IrpLife),
    /// An insert that has found the Cancel flag set.
    FlagSeen(IrpLife),
    /// A removal.
    Removing,
    /// A cancel that has set the flag.
    Cancelling(IrpLife),
    /// A put-back that has set the routine again.
    Rearmed(IrpLife),
    /// A put-back that has found the Cancel flag set.
    FlagSeenAgain(IrpLife),
}

impl Inside {
    ghost use Rattle.std.specs.Prelude.{◌≡◌};
    ghost use Rattle.irp_core.specs.Inside.{inside_after, follows, has_lock, in_insert, is_outside};

    /// Whether such a step is a next one here.
    #[tactic(auto, unfolding(crate::specs::Steps::same_irp))]
    pub(crate) fn has_next(self, kind: Kind) -> bool
        ensures { result ≡ follows self kind }
    {
        match (self, kind) {
            // A test is of an insert or a put-back that was begun, and a take of a cancel.
            (Inside::Nothing, Kind::Test(_) | Kind::Take(_)) => false,
            (Inside::Nothing, _) => true,
            (Inside::Armed(irp), Kind::Test(tested)) => irp == tested,
            (Inside::FlagSeen(irp), Kind::Disarm(disarmed)) => irp == disarmed,
            (Inside::Rearmed(irp), Kind::Test(tested)) => irp == tested,
            (Inside::FlagSeenAgain(irp), Kind::Disarm(disarmed)) => irp == disarmed,
            (Inside::Removing, Kind::Disarm(_) | Kind::End) => true,
            (Inside::Cancelling(irp), Kind::Take(taken)) => irp == taken,
            _ => false,
        }
    }

    /// What such a step leads to.
    pub fn after(self, kind: Kind, found: u64) -> Inside
        ensures { result ≡ inside_after self kind found }
    {
        match kind {
            Kind::Arm(irp) => Inside::Armed(irp),
            Kind::Rearm(irp) => Inside::Rearmed(irp),
            Kind::Test(irp) if found != 0 && matches!(self, Inside::Rearmed(_)) => {
                Inside::FlagSeenAgain(irp)
            }
            Kind::Test(irp) if found != 0 => Inside::FlagSeen(irp),
            // A removal that finds no routine passes the IRP over, since a canceller has it, and goes on to the next;
            // an insert ends with its disarm whatever that finds.
            Kind::Disarm(_)
                if found == 0 && !matches!(self, Inside::FlagSeen(_) | Inside::FlagSeenAgain(_)) =>
                { Inside::Removing }
            Kind::Flag(irp) => Inside::Cancelling(irp),
            _ => Inside::Nothing,
        }
    }

    /// Whether the pass has the lock here.
    pub fn has_lock(self) -> bool
        ensures { result ≡ has_lock self }
    {
        matches!(
            self,
            Inside::Armed(_)
                | Inside::FlagSeen(_)
                | Inside::Removing
                | Inside::Rearmed(_)
                | Inside::FlagSeenAgain(_)
        )
    }

    pub(crate) fn is_outside(self) -> bool
        ensures { result ≡ is_outside self }
    {
        matches!(self, Inside::Nothing)
    }

    pub(crate) fn is_insert(self) -> bool
        ensures { result ≡ in_insert self }
    {
        matches!(
            self,
            Inside::Armed(_) | Inside::FlagSeen(_) | Inside::Rearmed(_) | Inside::FlagSeenAgain(_)
        )
    }
}
