//! What a pass had seen, to be handed to other passes.
ghost use Rattle.std.specs.Prelude.{◌≡◌};
ghost use Rattle.csq_words.specs.Records.{prefix_of};
ghost use Rattle.csq_queue.specs.Calls.{Learns};
ghost use Rattle.csq_queue.specs.Named.{queue_size};

use crate::back::Back;
use crate::named::{Csq, Pass, QueueName};
use csq_list::PendingList;
use csq_words::SeenPrefix;
use std::alloc::Allocator;
use std::marker::{Model, PhantomData};

/// What a pass of the queue N had seen of the history and of the execution when this was made: a lower bound
/// of both, which only grow. It has no bytes at run time, and may go to other threads. A contract sees the
/// two prefixes. Own rule.
#[derive(Drop)]
pub struct Seen<N: QueueName> {
    pub(crate) open: SeenPrefix,
    pub(crate) name: PhantomData<N>,
}

impl<N: QueueName> Model for Seen<N> {
    ghost use Rattle.std.specs.Prelude.{◌≡◌};
    ghost use Rattle.csq_words.specs.declared.views.Prefix.{Prefix};

    ghost Value = { Prefix };

    ghost view = { λ s. s.open.prefix };

    ghost invariant = { λ s. s.open.table ≡ N.table };
}

impl<N: QueueName> Seen<N> {
    /// Of this prefix.
    fn of(prefix: SeenPrefix) -> Seen<N>
        requires { prefix.table ≡ N.table }
        ensures { result ≡ prefix.prefix }
    {
        Seen {
            open: prefix,
            name: PhantomData,
        }
    }
}

/// The calls of a queue that hand it on. None takes the lock.
impl<L: PendingList + Drop, N: QueueName, A: Allocator> Csq<L, N, A> {
    /// What the pass has seen of the history and of the execution. Whoever is told that a call of this pass
    /// returned can be handed it with the news, and let another pass learn it: the calls of that pass then
    /// come after this one. Takes no lock. Own rule.
    pub fn seen(&self, pass: &mut Pass<N>) -> Seen<N>
        ensures same { pass.new ≡ pass.old }
        ensures prefix { result ≡ prefix_of pass.old }
    {
        Seen::of(pass.open.seen(&self.words))
    }

    /// What a pass had seen when it was given back. Takes no lock. Own rule.
    pub fn seen_by_back(&self, back: &mut Back<N>) -> Seen<N>
        ensures same { back.new ≡ back.old }
        ensures prefix { result ≡ prefix_of back.old }
    {
        Seen::of(back.receipt.seen(&self.words))
    }

    /// The same once more, for one more receiver. Takes no lock. Own rule.
    pub fn seen_again(&self, seen: &mut Seen<N>) -> Seen<N>
        ensures same { seen.new ≡ seen.old }
        ensures again { result ≡ seen.old }
    {
        Seen::of(seen.open.again(&self.words))
    }

    /// Learns what another pass had seen: the pass has then seen the history and the execution so far, which
    /// begin with what it had seen itself and with what is handed to it. Each later call of the pass comes
    /// after that. Takes no lock. Own rule.
    pub fn learn(&self, pass: &mut Pass<N>, seen: Seen<N>)
        ensures call { Learns seen (queue_size N.limits) pass.old pass.new }
    {
        pass.open.learn(&self.words, seen.open);
    }
}
