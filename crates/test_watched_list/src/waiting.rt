//! A wait that comes to an end.
use std::sync::atomic::{AtomicBool, AtomicU64, Ordering};
use std::thread::yield_now;

/// How often a thread yields at most before it gives up.
const PATIENCE: u32 = 1_000_000;

/// Yields until so many were counted, or gives up after a million turns and says so. If some wait gave
/// up, none goes on. Own rule.
pub fn wait_for(counted: &AtomicU64, wanted: u64, gave_up: &AtomicBool) {
    for _ in 0..PATIENCE {
        let enough = counted.load(Ordering::SeqCst) >= wanted;
        if enough || gave_up.load(Ordering::SeqCst) {
            return;
        }
        yield_now();
    }
    gave_up.store(true, Ordering::SeqCst);
}
