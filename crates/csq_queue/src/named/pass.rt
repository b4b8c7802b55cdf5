//! The passes through which threads call a queue.
use crate::named::QueueName;
use crate::open::OpenPass;
use std::marker::{Model, PhantomData};

/// A pass of the queue N, through which one thread at a time makes its calls. A contract sees what is
/// known of the pass: the history that it has seen and the execution as it last saw it, its calls, the
/// steps that it made, what it completed, and the lives that its cancels found. Own rule.
#[derive(Drop)]
pub struct Pass<N: QueueName> {
    pub(crate) open: OpenPass,
    pub(crate) name: PhantomData<N>,
}

impl<N: QueueName> Model for Pass<N> {
    ghost use Rattle.std.specs.Prelude.{◌≡◌};
    ghost use Rattle.csq_words.specs.declared.views.PassRecord.{PassRecord};

    ghost Value = { PassRecord };

    ghost view = { λ p. p.open.pass };

    ghost invariant = { λ p. (p.open.table ≡ N.table) × (p.open.irps ≡ N.limits.irps)
        × (p.open.passes ≡ N.limits.passes) };
}
