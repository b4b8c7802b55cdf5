//! The passes that were not handed out.
ghost use Rattle.std.specs.Prelude.{◌≡◌, ◌+◌, ◌-◌, ◌≤◌, ◌↔◌, IfSome, IsNone};
ghost use Rattle.csq_words.specs.Records.{new_pass};
ghost use Rattle.csq_queue.specs.Named.{pass_numbered};

use crate::named::{Pass, QueueName};
use crate::open::OpenRack;
use std::marker::{Model, PhantomData};

/// The passes of the queue N that were not handed out. A contract sees how many they are.
#[derive(Drop)]
pub struct PassRack<N: QueueName> {
    pub(crate) open: OpenRack,
    pub(crate) name: PhantomData<N>,
}

impl<N: QueueName> Model for PassRack<N> {
    ghost use Rattle.std.specs.Prelude.{◌≡◌, ◌<◌, ℕ};

    ghost Value = { ℕ };

    ghost view = { λ r. r.open.left };

    ghost invariant = { λ r. (0 < r.open.left → r.open.table ≡ N.table)
        × (r.open.irps ≡ N.limits.irps) × (r.open.passes ≡ N.limits.passes) };
}

impl<N: QueueName> PassRack<N> {
    /// The next pass: 1, 2, and so on. It has seen and done nothing. None if all were taken.
    pub fn take(&mut self) -> Option<Pass<N>>
        ensures none { IsNone result ↔ (self.old ≡ 0) }
        ensures kept { IsNone result → self.new ≡ self.old }
        ensures new { IfSome result (λ pass. pass
            ≡ new_pass (pass_numbered (N.limits.passes + 1 - self.old))) }
        ensures left { IfSome result (λ pass. self.new + 1 ≡ self.old) }
        ensures most { self.old ≤ N.limits.passes }
    {
        let open = self.open.take()?;
        Some(Pass {
            open,
            name: PhantomData,
        })
    }
}
