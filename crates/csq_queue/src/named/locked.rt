//! What lies behind the lock.
use crate::named::QueueName;
use crate::open::OpenQueue;
use csq_list::PendingList;
use std::alloc::Allocator;
use std::marker::{Model, PhantomData};

/// The queue N without its lock. A contract sees what its seat knows.
#[derive(Drop)]
pub(crate) struct Locked<L: PendingList + Drop, N: QueueName, A: Allocator> {
    pub(crate) open: OpenQueue<L, A>,
    pub(crate) name: PhantomData<N>,
}

impl<L: PendingList + Drop, N: QueueName, A: Allocator> Model for Locked<L, N, A> {
    ghost use Rattle.std.specs.Prelude.{◌≡◌};
    ghost use Rattle.csq_words.specs.declared.views.QueueRecord.{QueueRecord};

    ghost Value = { QueueRecord };

    ghost view = { λ l. l.open.queue };

    ghost invariant = { λ l. (l.open.table ≡ N.table) × (l.open.limits ≡ N.limits) };
}
