//! The gate of the devices that the program runs.
use csq_device::{Gate, Plan, Point};
use std::sync::atomic::{AtomicU64, Ordering};
use std::thread::yield_now;

/// At one point in this many, the thread there waits for others.
const ONE_IN: u64 = 4;

/// It waits until this many more points were reached.
const LEAD: u64 = 16;

/// The cleanup waits for more, so that there is something to clean up.
const CLEANUP_LEAD: u64 = 64;

/// After this many points no thread waits, so that a run of many turns takes hardly longer.
const MOST_POINTS: u64 = 1_024;

/// How often a thread that waits yields the processor at most.
const MOST_YIELDS: u32 = 32;

/// The same at the start and before the cleanup, where each thread waits once.
const MOST_YIELDS_ONCE: u32 = 1_000;

/// Lets the threads of a device race: they start together, and at some points a thread that is ahead waits
/// until others have come further. A wait ends after a number of yields of the processor in any case, since the
/// others may have ended, or were never started. Own rule.
#[derive(Drop)]
pub(crate) struct Race {
    threads: u64,
    reached: AtomicU64,
}

impl Race {
    /// The gate of one run of a device of this plan.
    pub(crate) fn new(plan: Plan) -> Race {
        let roles = plan.submitters + plan.workers + plan.cancellers + plan.busy_workers;
        Race {
            // One more thread cleans up.
            threads: u64::from(roles) + 1,
            reached: AtomicU64::new(0),
        }
    }

    /// Waits until `points` points were reached in all, but for at most `most_yields` yields.
    fn wait_for(&self, points: u64, most_yields: u32) {
        for _yield in 0..most_yields {
            if self.reached.load(Ordering::SeqCst) >= points {
                return;
            }
            yield_now();
        }
    }
}

impl Gate for Race {
    fn at(&self, point: Point) {
        let before = self.reached.fetch_add(1, Ordering::SeqCst);
        let waits = before % ONE_IN == 0 && before < MOST_POINTS;
        match point {
            Point::Starting => self.wait_for(self.threads, MOST_YIELDS_ONCE),
            Point::Cleaning(_) => {
                self.wait_for(before.saturating_add(CLEANUP_LEAD), MOST_YIELDS_ONCE);
            }
            _ if waits => self.wait_for(before.saturating_add(LEAD), MOST_YIELDS),
            _ => {}
        }
    }
}
