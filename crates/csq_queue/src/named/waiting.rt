//! How a thread waits for the queue's lock: by exponential backoff first, and then asleep.
use std::hint::spin_loop;
use std::sync::{Mutex, MutexGuard, Wait};

/// How many spin-loop hints a thread lets pass before it tries the lock again. Before each further try they are
/// twice as many, up to the longest pause.
const FIRST_PAUSE: u32 = 128;

const LONGEST_PAUSE: u32 = 1024;

/// How many such tries there are, before the lock's own way to wait, in which the thread sleeps.
const TRIES: u32 = 11;

/// The lock, waited for. Most calls hold it for less time than a sleep and a wake take, so it is tried again
/// before the thread sleeps. The pauses grow, since each try takes the lock's word, and what lies beside it, from
/// the cache of the thread that has the lock.
#[cold]
#[inline(never)]
pub(crate) fn wait_for<'a, T>(lock: &'a Mutex<T>, rt: &impl Wait) -> MutexGuard<'a, T> {
    let mut hints = FIRST_PAUSE;
    for _ in 0..TRIES {
        pause(hints);
        if let Some(guard) = lock.try_lock() {
            return guard;
        }
        hints = hints.saturating_mul(2).min(LONGEST_PAUSE);
    }
    lock.lock(rt)
}

/// Lets so many spin-loop hints pass.
fn pause(hints: u32) {
    for _ in 0..hints {
        spin_loop();
    }
}
