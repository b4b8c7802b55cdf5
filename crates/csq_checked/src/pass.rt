//! A pass that knows what it holds and owes.
ghost use Rattle.std.specs.Prelude.{◌≡◌, ◌≤◌};

use crate::slots::{Held, Slots};
use csq_queue::OpenPass;
use csq_words::Words;
use irp_core::Life;
use std::marker::Model;
use std::sync::Arc;

/// A pass that knows which IRPs it holds and owes, and in which life. A contract sees the words that it is
/// of, and what is known of the pass. Own rule.
#[derive(Drop)]
pub struct CheckedPass {
    pub(crate) words: Arc<Words>,
    pub(crate) pass: OpenPass,
    pub(crate) held: Slots<Held>,
    pub(crate) owed: Slots<Life>,
}

impl Model for CheckedPass {
    ghost use Rattle.std.specs.Arc.{arc_value};
    ghost use Rattle.csq_checked.specs.Passes.{CheckedPassState, IsCheckedPass};

    ghost Value = { CheckedPassState };

    ghost view = { λ p. record { words = arc_value p.words; pass = p.pass.pass } };

    ghost invariant = { λ p. IsCheckedPass (arc_value p.words) p.pass p.held p.owed };
}

impl CheckedPass {
    /// The number of the pass, from 1.
    pub(crate) fn number(&self) -> u32
        ensures number { result ≡ self.now.pass.pass.0 }
        ensures range { (1 ≤ result) × (result ≤ self.now.words.size.passes) }
    {
        self.pass.number()
    }
}
