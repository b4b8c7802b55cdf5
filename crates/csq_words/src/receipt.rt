//! The receipt of a pass that is back.
ghost use Rattle.std.specs.Prelude.{◌≡◌};
ghost use Rattle.csq_words.specs.Records.{prefix_of};
ghost use Rattle.csq_words.specs.Seats.{pass_record, seen_at, IsHere};

use crate::pass_seat::here;
use crate::rule::{CutSeen, WordSeat};
use crate::seen::SeenPrefix;
use crate::words::Words;
use std::alloc::Allocator;
use std::marker::Model;

/// The receipt of a pass that is back. A contract sees the table that it belongs to and the record
/// that the pass had, or None while it is shown.
#[derive(Drop)]
pub struct Receipt {
    pub(crate) seat: Option<WordSeat>,
}

impl Model for Receipt {
    ghost use Rattle.std.specs.Prelude.{Option};
    ghost use Rattle.std.specs.Option.{option_map};
    ghost use Rattle.csq_words.specs.Seats.{PassSeatState, receipt_seat_of, IsReceipt};

    ghost Value = { Option PassSeatState };

    ghost view = { λ r. option_map receipt_seat_of r.seat };

    ghost invariant = { λ r. IsReceipt r.seat };
}

impl Receipt {
    /// What the pass had seen when it came back, to be handed to other passes.
    pub fn seen<A: Allocator>(&mut self, words: &Words<A>) -> SeenPrefix
        requires words { IsHere words.now.table self.old }
        ensures same { self.new ≡ self.old }
        ensures prefix { result ≡ seen_at words.now.table (prefix_of (pass_record self.old)) }
    {
        here!(seat in self);
        let seat = words.table.shared.split_seat::<CutSeen>(seat);
        SeenPrefix { seat }
    }
}
