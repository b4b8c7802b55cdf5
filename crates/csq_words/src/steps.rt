//! The atomic steps on the table of words. Each reports what its use picks for S. What `_of` names does
//! nothing at run time: what is picked can speak of a step's arguments alone.
ghost use Rattle.std.specs.Prelude.{◌≡◌, ◌==◌};
ghost use prog.Atomic.{either};
ghost use Rattle.csq_words.specs.Rule.{table_size};
ghost use Rattle.csq_words.specs.Plays.{MayStep};

use crate::rule::{Act, Reports, SharedWords, WordSeat};

/// Loads a word.
pub(crate) fn load<S: Reports, T: Copy>(
    words: &SharedWords,
    seat: &mut WordSeat,
    _of: T,
    word: usize,
) -> u64
    requires { MayStep words.now.table_id (table_size words.now.key) seat.old word (λ n. n)
        (S.then seat.old.me) }
    ensures table { seat.new.table_id ≡ seat.old.table_id }
    ensures agreed { S.then seat.old.me result seat.new.me }
{
    words.load::<Act<S>>(seat, word)
}

/// Exchanges a word for another.
pub(crate) fn swap<S: Reports, T: Copy>(
    words: &SharedWords,
    seat: &mut WordSeat,
    _of: T,
    word: usize,
    new: u64,
) -> u64
    requires { MayStep words.now.table_id (table_size words.now.key) seat.old word (λ _. new)
        (S.then seat.old.me) }
    ensures table { seat.new.table_id ≡ seat.old.table_id }
    ensures agreed { S.then seat.old.me result seat.new.me }
{
    words.swap::<Act<S>>(seat, word, new)
}

/// Exchanges a word for another if it is this one.
pub(crate) fn compare_exchange<S: Reports, T: Copy>(
    words: &SharedWords,
    seat: &mut WordSeat,
    _of: T,
    word: usize,
    old: u64,
    new: u64,
) -> u64
    requires { MayStep words.now.table_id (table_size words.now.key) seat.old word
        (λ n. either (n == old) new n) (S.then seat.old.me) }
    ensures table { seat.new.table_id ≡ seat.old.table_id }
    ensures agreed { S.then seat.old.me result seat.new.me }
{
    words.compare_exchange::<Act<S>>(seat, word, old, new)
}
