//! Devices whose threads wait for one another: a device that served them one after the other would not get on.
ghost use Rattle.csq_device.specs.Plans.{IsListFor};

use super::gates::{Held, Kind, Told};
use super::misses::{CANCELLED_BEFORE, CANCELLED_DURING};
use super::plans::{
    AT_FEWER_POINTS, EACH_TURN, IN_ORDER, LIMITED, ONE_ANOTHER, REFUSED, Row, SHARES, SMALL,
    YIELDING,
};
use super::put_backs::{BUSY, PUT_BACK, PUT_BACK_CANCELLED, PUT_BACK_CLOSED, PUT_BACK_FULL};
use csq_device::Plan;
use csq_list::{AnyList, ListKind, PendingList};
use csq_program::{RunFault, answer_run};
use std::alloc::Global;
use std::process::Abort;
use std::rt::Clock;
use std::sync::Wait;
use std::test::Fail;
use std::thread::{Threads, yield_now};
use test_heap::RefusingHeap;
use test_watched_list::WatchedList;

/// How a run ended, and what was written.
#[derive(Drop)]
struct Ran {
    answered: Result<(), RunFault>,
    text: Vec<u8>,
}

/// Runs a device of this plan over this list, and tells all of it.
fn run_over<L, R>(rt: &R, list: L, plan: Plan, gate: Held<'_>, heap: &RefusingHeap<Global>) -> Ran
where
    L: PendingList + Drop + Send,
    R: AllocGlobal + Clock + Threads + Wait + Abort + Sync,
    requires { IsListFor plan.irps plan.files (L.listing list) }
{
    let mut text = Vec::new(rt.alloc());
    let answered = answer_run(rt, heap, plan, list, gate, true, &mut text);
    Ran { answered, text }
}

/// Runs a device of a row over a list of this kind.
fn run_row<R>(
    rt: &R,
    row: Row<'_>,
    kind: ListKind,
    told: &Told,
    heap: &RefusingHeap<Global>,
) -> Result<Ran, Fail>
where
    R: AllocGlobal + Clock + Threads + Wait + Abort + Sync,
{
    let [
        irps,
        files,
        submitters,
        workers,
        cancellers,
        turns,
        busy_workers,
    ] = row.numbers;
    let plan = Plan::new(irps, files, submitters, workers, cancellers, turns)
        .ok_or("a plan")?
        .with_busy_workers(busy_workers)
        .ok_or("a plan with busy workers")?;
    let list = AnyList::with_file_limits(rt.alloc(), kind, irps, files, irps, row.limits)?;
    let gate = Held {
        told,
        holding: row.holding,
        heap,
    };
    let watched = WatchedList { list, watch: &gate };
    Ok(run_over(rt, watched, plan, gate, heap))
}

/// The number of a line that has these words before it.
fn number_in(line: &str, words: &str) -> Option<u32> {
    line.strip_prefix(words)?
        .strip_prefix(" ")?
        .parse::<u32>()
        .ok()
}

/// The number of the first line that has these words before it.
fn number_of(text: &str, words: &str) -> Option<u64> {
    for line in text.lines() {
        if let Some(number) = number_in(line, words) {
            return Some(u64::from(number));
        }
    }
    None
}

/// What is told of a device was done by its threads; and each IRP is home, listed or was completed by one thread, with
/// one of two statuses.
fn find_counts(rt: &impl Abort, told: &Told, text: &str, row: Row<'_>) {
    for (words, kind) in [
        ("inserts", Kind::Submitted),
        ("removals", Kind::Working),
        ("removals that found an IRP", Kind::Removed),
        ("succeeded", Kind::Removed),
        ("completed by workers", Kind::Removed),
        ("cancels", Kind::Cancelled),
        ("cancels", Kind::Cancelling),
    ] {
        let (times, _, _) = told.of(kind).told();
        assert_eq!(rt; number_of(text, words), Some(times), "{words}");
    }
    find_put_backs(rt, told, text, row);
    find_misses(rt, text);
    assert_eq!(rt; told.of(Kind::Cleaning).told().0, 1);
    let irps = Some(u64::from(row.numbers[0]));
    assert_eq!(rt;
        [number_of(text, "irps"), number_of(text, "accounted")],
        [irps, irps]
    );
    assert_eq!(rt; number_of(text, "cancelled and listed"), Some(0));
    assert_eq!(rt; sum_of(text, ["home", "listed", "completed"]), irps);
    let completed = number_of(text, "completed");
    assert_eq!(rt;
        sum_of(text, ["succeeded", "cancelled", "cancelled and listed"]),
        completed
    );
}

/// Each cancel that took no routine came before its insert, during it or after a removal.
fn find_misses(rt: &impl Abort, text: &str) {
    let misses = [
        "cancels before the insert",
        "cancels during the insert",
        "cancels after the removal",
    ];
    let missed = number_of(text, "cancels too early or too late");
    assert_eq!(rt; sum_of(text, misses), missed);
}

/// The put-backs are written if there are busy workers, each of which takes each turn.
fn find_put_backs(rt: &impl Abort, told: &Told, text: &str, row: Row<'_>) {
    let [_, _, _, _, _, turns, busy_workers] = row.numbers;
    let wanted = if busy_workers == 0 {
        None
    } else {
        Some(told.of(Kind::PuttingBack).told().0)
    };
    assert_eq!(rt; number_of(text, "put-backs"), wanted);
    let busy_turns = u64::from(busy_workers).wrapping_mul(u64::from(turns));
    assert_eq!(rt; told.of(Kind::Busy).told().0, busy_turns);
}

/// The sum of three numbers.
fn sum_of(text: &str, words: [&str; 3]) -> Option<u64> {
    let mut sum = 0u64;
    for each in words {
        sum = sum.wrapping_add(number_of(text, each)?);
    }
    Some(sum)
}

/// What a row says was told, and the numbers of its lines.
fn find_row(rt: &impl Abort, told: &Told, text: &str, row: Row<'_>) {
    for (kind, wanted) in row.points {
        assert_eq!(rt; told.of(*kind).told(), *wanted);
    }
    for (words, number) in row.lines {
        assert_eq!(rt; number_of(text, words), Some(u64::from(*number)), "{words}");
    }
}

/// A run of a row ends well, and so it is told.
fn find_run(rt: &impl Abort, ran: &Ran, told: &Told, row: Row<'_>) {
    assert_eq!(rt; ran.answered, Ok(()));
    let Ok(text) = str::from_utf8(ran.text.as_slice()) else {
        panic!(rt; "no text");
    };
    told.find_right(rt);
    find_counts(rt, told, text, row);
    find_row(rt, told, text, row);
}

/// Runs a device of a row over a list of this kind, and looks for what comes of it, after so many yields.
fn find_one<R>(rt: &R, row: Row<'_>, kind: ListKind, yields: u32) -> Result<(), Fail>
where
    R: AllocGlobal + Clock + Threads + Wait + Abort + Sync,
{
    let told = Told::nothing();
    let heap = RefusingHeap::new(rt.alloc(), 1_000_000);
    let ran = run_row(rt, row, kind, &told, &heap)?;
    for _ in 0..yields {
        yield_now();
    }
    find_run(rt, &ran, &told, row);
    Ok(())
}

/// Runs so many devices of a row over each list.
fn find_runs<R>(rt: &R, row: Row<'_>, runs: u32, yields: u32) -> Result<(), Fail>
where
    R: AllocGlobal + Clock + Threads + Wait + Abort + Sync,
{
    for _ in 0..runs {
        find_one(rt, row, ListKind::Vector, yields)?;
        find_one(rt, row, ListKind::Chains, yields)?;
    }
    Ok(())
}

const WAITING: &[Row<'static>] = &[
    EACH_TURN,
    IN_ORDER,
    REFUSED,
    SHARES,
    ONE_ANOTHER,
    PUT_BACK,
    PUT_BACK_CANCELLED,
    PUT_BACK_CLOSED,
    PUT_BACK_FULL,
    CANCELLED_BEFORE,
    CANCELLED_DURING,
];

#[test]
fn threads_wait_for_one_another(rt: HostRuntime) -> Result<(), Fail> {
    for row in WAITING {
        find_runs(&rt, *row, 1, 0)?;
    }
    find_runs(&rt, AT_FEWER_POINTS, 10, 0)
}

/// Yields take long if other programs are busy, so the runs are two tests.
#[test]
fn each_irp_is_accounted_for_in_fifty_schedules(rt: HostRuntime) -> Result<(), Fail> {
    find_runs(&rt, YIELDING, 50, 0)
}

#[test]
fn each_irp_is_accounted_for_in_fifty_more_schedules(rt: HostRuntime) -> Result<(), Fail> {
    find_runs(&rt, YIELDING, 50, 0)
}

/// The gate of a run that has ended is told no more: it was told what the run's totals say.
#[test]
fn no_thread_outlives_a_run(rt: HostRuntime) -> Result<(), Fail> {
    find_runs(&rt, LIMITED, 20, 1000)?;
    find_runs(&rt, BUSY, 20, 1000)
}

/// Refuses one call for memory of a run. Returns whether its threads had run by then, if it came to that call.
fn refuse_run<R>(rt: &R, kind: ListKind, call: u64) -> Result<Option<bool>, Fail>
where
    R: AllocGlobal + Clock + Threads + Wait + Abort + Sync,
{
    let told = Told::nothing();
    let heap = RefusingHeap::new(rt.alloc(), call);
    let ran = run_row(rt, SMALL, kind, &told, &heap)?;
    if heap.has_refused() {
        return Ok(Some(find_refused(rt, &ran, &told)));
    }
    find_run(rt, &ran, &told, SMALL);
    Ok(None)
}

/// The run was refused, and nothing was written; and all threads ran to their ends, or none was started.
fn find_refused(rt: &impl Abort, ran: &Ran, told: &Told) -> bool {
    assert_eq!(rt; ran.answered, Err(RunFault::Memory));
    assert_eq!(rt; ran.text.len(), 0);
    told.find_right(rt);
    let have_run = told.of(Kind::Cleaning).told().0 == 1;
    let turns = if have_run { 8 } else { 0 };
    for kind in [
        Kind::Submitted,
        Kind::Working,
        Kind::Cancelling,
        Kind::Cancelled,
    ] {
        assert_eq!(rt; told.of(kind).told().0, turns);
    }
    have_run
}

/// How often the text of a run's totals asks for memory: it doubles from 8 bytes to 512.
const CALLS_OF_TEXT: u32 = 7;

/// Refuses each call in turn, over a list of this kind. The last calls are the text's; before all others no thread was
/// started.
fn refuse_runs<R>(rt: &R, kind: ListKind) -> Result<(), Fail>
where
    R: AllocGlobal + Clock + Threads + Wait + Abort + Sync,
{
    let mut late = 0u32;
    for call in 0..100 {
        match refuse_run(rt, kind, call)? {
            Some(true) => late = late.wrapping_add(1),
            Some(false) => assert_eq!(rt; late, 0),
            None => {
                assert!(rt;
                    call > u64::from(CALLS_OF_TEXT),
                    "no call of the device was refused"
                );
                assert_eq!(rt; late, CALLS_OF_TEXT);
                return Ok(());
            }
        }
    }
    Err(Fail::from("each call was refused"))
}

#[test]
fn a_run_is_refused_for_want_of_memory(rt: HostRuntime) -> Result<(), Fail> {
    refuse_runs(&rt, ListKind::Vector)?;
    refuse_runs(&rt, ListKind::Chains)
}
