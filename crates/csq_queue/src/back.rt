//! What a pass that was given back leaves.
ghost use Rattle.std.specs.Prelude.{◌≡◌};
ghost use Rattle.csq_words.specs.Records.{with_shown};
ghost use Rattle.csq_queue.specs.Opens.{IsQueueOn};
ghost use Rattle.csq_queue.specs.Rests.{HasShown};

use crate::named::QueueName;
use crate::open::OpenQueue;
use csq_list::PendingList;
use csq_words::{Receipt, Words};
use std::alloc::Allocator;
use std::marker::{Model, PhantomData};

/// The receipt of a pass of the queue N that was given back. It holds nothing at run time. A contract
/// sees the record that the pass had. Own rule.
#[derive(Drop)]
pub struct Back<N: QueueName> {
    pub(crate) receipt: Receipt,
    pub(crate) name: PhantomData<N>,
}

impl<N: QueueName> Model for Back<N> {
    ghost use Rattle.csq_words.specs.declared.views.PassRecord.{PassRecord};
    ghost use Rattle.csq_words.specs.Seats.{pass_record, IsHere};

    ghost Value = { PassRecord };

    ghost view = { λ b. pass_record b.receipt };

    ghost invariant = { λ b. IsHere N.table b.receipt };
}

/// Takes in what the receipts show.
pub(crate) fn see<L: PendingList + Drop, N: QueueName, A: Allocator>(
    queue: &mut OpenQueue<L, A>,
    words: &Words<A>,
    receipts: &mut [Back<N>],
)
    requires queue { IsQueueOn words.now queue.old }
    requires table { words.now.table ≡ N.table }
    ensures queue { queue.new ≡ record queue.old {
      queue
          = record queue.old.queue { shown = queue.new.queue.shown };
    } }
    ensures kept { receipts.new ≡ receipts.old }
    ensures shown { HasShown queue.new.queue receipts.old }
{
    'receipts: for next in 0..receipts.len() {
        see_one::<L, N, A>(queue, words, &mut receipts[next]);
    }
}

/// Takes in what a receipt shows.
fn see_one<L: PendingList + Drop, N: QueueName, A: Allocator>(
    queue: &mut OpenQueue<L, A>,
    words: &Words<A>,
    back: &mut Back<N>,
)
    requires queue { IsQueueOn words.now queue.old }
    requires table { words.now.table ≡ N.table }
    ensures queue { queue.new ≡ record queue.old { queue = with_shown back.old queue.old.queue } }
    ensures kept { back.new ≡ back.old }
{
    queue.see(words, &mut back.receipt);
}
