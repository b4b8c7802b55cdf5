//! The two words of an IRP, and the life that they are of: a step of another life finds nothing in them and changes
//! nothing.
ghost use Rattle.std.specs.Prelude.{◌≡◌};
ghost use Rattle.irp_core.specs.Standings.{names};
ghost use Rattle.csq_explain.specs.WordValues.{clear_words, renewed, changed, words_with, value_in, found_in};

use irp_core::{IrpId, IrpLife, Kind, Life};

/// An IRP in the life that its words are of, and whether its Cancel flag and its cancel routine are set.
#[derive(Clone, Copy)]
pub struct WordValues {
    /// The IRP, in that life.
    pub name: IrpLife,
    /// Whether the Cancel flag is set.
    pub flag: bool,
    /// Whether the cancel routine is set.
    pub routine: bool,
}

impl WordValues {
    /// Both words are clear, in this life of an IRP.
    pub(crate) fn clear(irp: IrpId, life: Life) -> WordValues
        ensures { result ≡ clear_words irp life.0 }
    {
        WordValues {
            name: IrpLife { irp, life },
            flag: false,
            routine: false,
        }
    }

    /// The words that a renew begins: clear, in the next life, if there is one.
    fn renewed(self) -> WordValues
        ensures { result ≡ renewed self }
    {
        let IrpLife { irp, life } = self.name;
        if life.0 < Life::LAST.0 {
            WordValues::clear(irp, Life(life.0 + 1))
        } else {
            self
        }
    }

    /// Whether a step of this kind is of their life.
    #[tactic(auto, unfolding(irp_core::specs::Steps::same_irp))]
    pub(crate) fn are_of(self, kind: Kind) -> bool
        ensures { result ≡ names self.name kind }
    {
        match kind.name() {
            Some(name) => name == self.name,
            None => false,
        }
    }

    /// The words after a step of their life.
    pub(crate) fn changed(self, kind: Kind) -> WordValues
        ensures { result ≡ changed self kind }
    {
        let WordValues {
            name,
            flag,
            routine,
        } = self;
        let (flag, routine) = match kind {
            Kind::Arm(_) | Kind::Rearm(_) => (flag, true),
            Kind::Disarm(_) | Kind::Take(_) => (flag, false),
            Kind::Flag(_) => (true, routine),
            Kind::Renew(_) => return self.renewed(),
            Kind::Test(_) | Kind::End | Kind::Out(_) | Kind::Done(_) => (flag, routine),
        };
        WordValues {
            name,
            flag,
            routine,
        }
    }

    /// The words after a step of this kind. Own rule: one of another life changes nothing.
    pub fn after(self, kind: Kind) -> WordValues
        ensures { result ≡ words_with self kind }
    {
        if self.are_of(kind) {
            self.changed(kind)
        } else {
            self
        }
    }

    /// The value that a step of their life finds in them.
    fn value(self, kind: Kind) -> u64
        ensures { result ≡ value_in self kind }
    {
        match kind {
            Kind::Test(_) | Kind::Flag(_) => u64::from(self.flag),
            Kind::Arm(_) | Kind::Rearm(_) | Kind::Disarm(_) | Kind::Take(_) => {
                u64::from(self.routine)
            }
            Kind::End | Kind::Out(_) | Kind::Done(_) | Kind::Renew(_) => 0,
        }
    }

    /// The value that a step of this kind finds in them: 0 if it is of another life.
    pub(crate) fn found(self, kind: Kind) -> u64
        ensures { result ≡ found_in self kind }
    {
        if self.are_of(kind) {
            self.value(kind)
        } else {
            0
        }
    }
}
