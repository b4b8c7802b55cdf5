//! A gate of a device that counts what it is told, and has threads wait for one another.
use csq_device::{Gate, Point};
use irp_core::{FileId, IrpId};
use std::alloc::Global;
use std::process::Abort;
use std::sync::atomic::{AtomicBool, AtomicU64, Ordering};
use std::thread::yield_now;
use test_heap::RefusingHeap;
use test_watched_list::{Moment, Watch, wait_for};

/// What is told: the points of a device, and that its list is to insert an IRP, or has closed a file object.
#[derive(Clone, Copy, PartialEq, Eq)]
pub(super) enum Kind {
    Starting,
    Submitted,
    Working,
    Removed,
    Busy,
    PuttingBack,
    Cancelling,
    Cancelled,
    Cleaning,
    Inserting,
    Closed,
}

/// The kind of a point, and its number.
fn kind_of(point: Point) -> (Kind, u32) {
    match point {
        Point::Starting => (Kind::Starting, 0),
        Point::Submitted(IrpId(irp)) => (Kind::Submitted, irp),
        Point::Working(turn) => (Kind::Working, turn),
        Point::Removed(IrpId(irp)) => (Kind::Removed, irp),
        Point::Busy(turn) => (Kind::Busy, turn),
        Point::PuttingBack(IrpId(irp)) => (Kind::PuttingBack, irp),
        Point::Cancelling(IrpId(irp)) => (Kind::Cancelling, irp),
        Point::Cancelled(IrpId(irp)) => (Kind::Cancelled, irp),
        Point::Cleaning(FileId(file)) => (Kind::Cleaning, file),
    }
}

/// Who waits at a point, and for what: those with a number from `least` to `most`, and of these only those that are
/// told before so many others, wait until each of `all` was told so often.
#[derive(Clone, Copy)]
pub(super) struct Rule<'a> {
    pub(super) at: Kind,
    pub(super) least: u32,
    pub(super) most: u32,
    pub(super) first: u64,
    pub(super) all: &'a [(Kind, u64)],
}

/// What holds the threads of a device up.
#[derive(Clone, Copy)]
pub(super) enum Holding<'a> {
    /// They wait for one another.
    Rules(&'a [Rule<'a>]),
    /// Each insert waits until the one after it was answered too, up to the last of this number; and so on by rules.
    InOrder(u32, &'a [Rule<'a>]),
    /// Each yields the processor up to six times.
    Yields,
}

/// How often a kind was told, the sum of the numbers, and the bits of those below 64.
#[derive(Drop)]
pub(super) struct Count {
    times: AtomicU64,
    sum: AtomicU64,
    bits: AtomicU64,
}

impl Count {
    fn none() -> Count {
        Count {
            times: AtomicU64::new(0),
            sum: AtomicU64::new(0),
            bits: AtomicU64::new(0),
        }
    }

    /// Counts a number. Returns how often the kind was told before.
    fn add(&self, number: u32) -> u64 {
        self.sum.fetch_add(u64::from(number), Ordering::SeqCst);
        self.bits.fetch_or(bit(number), Ordering::SeqCst);
        self.times.fetch_add(1, Ordering::SeqCst)
    }

    /// The times, the sum and the bits.
    pub(super) fn told(&self) -> (u64, u64, u64) {
        let times = self.times.load(Ordering::SeqCst);
        let sum = self.sum.load(Ordering::SeqCst);
        (times, sum, self.bits.load(Ordering::SeqCst))
    }
}

/// The bit that stands for a number, if there is one.
fn bit(number: u32) -> u64 {
    1u64.checked_shl(number).unwrap_or(0)
}

/// What a device's gate was told, and what was wrong.
#[derive(Drop)]
pub(super) struct Told {
    starting: Count,
    submitted: Count,
    working: Count,
    removed: Count,
    busy: Count,
    putting_back: Count,
    cancelling: Count,
    cancelled: Count,
    cleaning: Count,
    inserting: Count,
    closed: Count,
    // Some wait came to its end unanswered.
    gave_up: AtomicBool,
    // A cancel was answered before it was told of, or a thread ran once memory was refused.
    wrong: AtomicBool,
}

impl Told {
    pub(super) fn nothing() -> Told {
        Told {
            starting: Count::none(),
            submitted: Count::none(),
            working: Count::none(),
            removed: Count::none(),
            busy: Count::none(),
            putting_back: Count::none(),
            cancelling: Count::none(),
            cancelled: Count::none(),
            cleaning: Count::none(),
            inserting: Count::none(),
            closed: Count::none(),
            gave_up: AtomicBool::new(false),
            wrong: AtomicBool::new(false),
        }
    }

    /// What was told of this kind.
    pub(super) fn of(&self, kind: Kind) -> &Count {
        match kind {
            Kind::Starting => &self.starting,
            Kind::Submitted => &self.submitted,
            Kind::Working => &self.working,
            Kind::Removed => &self.removed,
            Kind::Busy => &self.busy,
            Kind::PuttingBack => &self.putting_back,
            Kind::Cancelling => &self.cancelling,
            Kind::Cancelled => &self.cancelled,
            Kind::Cleaning => &self.cleaning,
            Kind::Inserting => &self.inserting,
            Kind::Closed => &self.closed,
        }
    }

    /// No wait was in vain, and nothing was told too early.
    pub(super) fn find_right(&self, rt: &impl Abort) {
        assert!(rt; !self.gave_up.load(Ordering::SeqCst));
        assert!(rt; !self.wrong.load(Ordering::SeqCst));
    }

    /// Waits as the rules say, at a point that was told so often before.
    fn wait(&self, rules: &[Rule<'_>], kind: Kind, number: u32, before: u64) {
        for rule in rules {
            let is_met = rule.at == kind && rule.least <= number && number <= rule.most;
            if is_met && before < rule.first {
                self.wait_for_all(rule.all);
            }
        }
    }

    fn wait_for_all(&self, all: &[(Kind, u64)]) {
        for (kind, times) in all {
            wait_for(&self.of(*kind).times, *times, &self.gave_up);
        }
    }

    /// Looks whether a cancel that is answered was told of before.
    fn judge(&self, kind: Kind, number: u32) {
        let begun = self.cancelling.bits.load(Ordering::SeqCst);
        if kind == Kind::Cancelled && bit(number) & !begun != 0 {
            self.wrong.store(true, Ordering::SeqCst);
        }
    }
}

/// The gate of a device whose memory is of this heap, and the watch of its list.
#[derive(Clone, Copy)]
pub(super) struct Held<'a> {
    pub(super) told: &'a Told,
    pub(super) holding: Holding<'a>,
    pub(super) heap: &'a RefusingHeap<Global>,
}

impl Held<'_> {
    /// Counts what is told, and waits as it is held up there.
    fn hold(&self, kind: Kind, number: u32) {
        let told = self.told;
        told.judge(kind, number);
        if self.heap.has_refused() {
            told.wrong.store(true, Ordering::SeqCst);
        }
        let before = told.of(kind).add(number);
        match self.holding {
            Holding::Rules(rules) => told.wait(rules, kind, number, before),
            Holding::InOrder(last, rules) => {
                if kind == Kind::Submitted && number < last {
                    told.wait_for_all(&[(Kind::Submitted, u64::from(number) + 2)]);
                }
                told.wait(rules, kind, number, before);
            }
            Holding::Yields => {
                for _ in 0..before % 7 {
                    yield_now();
                }
            }
        }
    }
}

impl Gate for Held<'_> {
    fn at(&self, point: Point) {
        let (kind, number) = kind_of(point);
        self.hold(kind, number);
    }
}

impl Watch for Held<'_> {
    fn at(&self, moment: Moment) {
        match moment {
            Moment::Inserting(FileId(file)) => self.hold(Kind::Inserting, file),
            Moment::Closed => self.hold(Kind::Closed, 0),
            _ => {}
        }
    }
}
