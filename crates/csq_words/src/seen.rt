//! What a pass had seen, to be handed to other passes.
ghost use Rattle.std.specs.Prelude.{◌≡◌};

use crate::rule::{CopySeen, WordSeat};
use crate::words::Words;
use std::alloc::Allocator;
use std::marker::Model;

/// What a pass had seen of the history and of the execution when this was made: a lower bound of both,
/// which only grow. It has no bytes at run time, and may go to other threads. A contract sees the table
/// that it belongs to, and the two prefixes. Own rule.
#[derive(Drop)]
pub struct SeenPrefix {
    pub(crate) seat: WordSeat,
}

impl Model for SeenPrefix {
    ghost use Rattle.csq_words.specs.Seats.{SeenState, seen_seat_of, IsSeenSeat};

    ghost Value = { SeenState };

    ghost view = { λ s. seen_seat_of s.seat };

    ghost invariant = { λ s. IsSeenSeat s.seat };
}

impl SeenPrefix {
    /// The same once more.
    pub fn again<A: Allocator>(&mut self, words: &Words<A>) -> SeenPrefix
        requires words { self.old.table ≡ words.now.table }
        ensures same { self.new ≡ self.old }
        ensures again { result ≡ self.old }
    {
        let seat = words.table.shared.split_seat::<CopySeen>(&mut self.seat);
        SeenPrefix { seat }
    }
}
