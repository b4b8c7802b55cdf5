//! What the threads of a test tell each other.
use std::sync::atomic::{AtomicBool, AtomicU64, Ordering};
use test_watched_list::{Moment, Watch, wait_for};

/// Each is counted once it is so.
#[derive(Drop)]
pub(crate) struct Signals {
    /// An IRP is held.
    pub(crate) held: AtomicU64,
    /// A pass is about to be given back.
    pub(crate) giving: AtomicU64,
    /// A call is inside the lock.
    pub(crate) inside: AtomicU64,
    /// It may go on.
    pub(crate) go_on: AtomicU64,
    /// Some wait came to its end unanswered.
    pub(crate) gave_up: AtomicBool,
}

impl Signals {
    pub(crate) fn new() -> Signals {
        Signals {
            held: AtomicU64::new(0),
            giving: AtomicU64::new(0),
            inside: AtomicU64::new(0),
            go_on: AtomicU64::new(0),
            gave_up: AtomicBool::new(false),
        }
    }

    /// Waits for a signal, or gives up.
    pub(crate) fn wait_for(&self, signal: &AtomicU64) {
        wait_for(signal, 1, &self.gave_up);
    }

    /// Gives a signal.
    pub(crate) fn give(&self, signal: &AtomicU64) {
        signal.fetch_add(1, Ordering::SeqCst);
    }
}

/// A list waits, as it closes a file object, until it is told to go on.
impl Watch for Signals {
    fn at(&self, moment: Moment) {
        if matches!(moment, Moment::Closing) {
            self.give(&self.inside);
            self.wait_for(&self.go_on);
        }
    }
}
