//! A driver's way through the cancel-safe queue: two dispatch routines queue requests, a worker completes
//! them, a caller cancels some, a file object is cleaned up, and the queue is closed.
#![tactic(auto)]

ghost use Rattle.std.specs.Prelude.{◌≡◌};

use anyhow::{Result, bail};
use csq_list::{InsertStatus, Peek, Place, VecList};
use csq_queue::{Blank, CancelRefused, Csq, Inserted, Pass, PassRack, QueueName, Rest};
use irp_core::{FileId, FinalStatus, IrpId, Life};
use std::marker::Brand;
use std::sync::Wait;
use std::thread::{Threads, for_each_mut};

/// How many requests are made for each of the two file objects.
const SHARE: u32 = 8;

const READS: FileId = FileId(0);

const WRITES: FileId = FileId(1);

/// A request that is made late, and one that is made too late.
const LATE: IrpId = IrpId(16);

const TOO_LATE: IrpId = IrpId(17);

const IRPS: u32 = 18;

/// What a thread of the driver runs.
#[derive(Clone, Copy)]
enum Routine {
    // A dispatch routine, of the requests for a file object.
    Dispatch(FileId),
    Work,
    // A caller's cancels.
    Cancel,
}

const ROUTINES: [Routine; 4] = [
    Routine::Dispatch(READS),
    Routine::Dispatch(WRITES),
    Routine::Work,
    Routine::Cancel,
];

/// A thread of the driver. It has a pass of its own.
#[derive(Drop)]
struct Runner<N: QueueName> {
    routine: Routine,
    pass: Pass<N>,
    refused: bool,
}

/// What the driver keeps of its device (the device extension): the queue, the threads with their passes, and
/// the rack that these were taken from.
#[derive(Drop)]
struct DeviceExtension<N: QueueName> {
    queue: Csq<VecList, N>,
    runners: Vec<Runner<N>>,
    rack: PassRack<N>,
}

/// Why the driver ended too early.
type Cause = &'static str;

/// Makes a request pending (`IoMarkIrpPending`) and queues it (`IoCsqInsertIrpEx`).
fn queue_one<N: QueueName>(
    rt: &impl Wait,
    queue: &Csq<VecList, N>,
    pass: &mut Pass<N>,
    irp: IrpId,
    file: FileId,
) -> Result<(), InsertStatus> {
    match queue.insert(rt, pass, irp, file, Place::Back)? {
        // The context could remove just this request later (`IoCsqRemoveIrp`).
        Inserted::Pending(_context) => {}
        // The caller was faster: the insert found the request cancelled.
        Inserted::Cancelled(token) => queue.complete_cancelled(pass, token),
    }
    Ok(())
}

/// A dispatch routine (`IRP_MJ_READ`, `IRP_MJ_WRITE`) of all the requests for one file object.
fn dispatch<N: QueueName>(
    rt: &impl Wait,
    queue: &Csq<VecList, N>,
    pass: &mut Pass<N>,
    file: FileId,
) -> Result<(), InsertStatus> {
    for number in 0..SHARE {
        let irp = IrpId(file.0.wrapping_mul(SHARE).wrapping_add(number));
        queue_one(rt, queue, pass, irp, file)?;
    }
    Ok(())
}

/// The worker takes what is queued for reading (`IoCsqRemoveNextIrp`), and completes it
/// (`IoCompleteRequest`). What it takes nobody can cancel any more.
fn work<N: QueueName>(rt: &impl Wait, queue: &Csq<VecList, N>, pass: &mut Pass<N>) {
    for _ in 0..SHARE {
        if let Some(token) = queue.remove_next(rt, pass, Peek::File(READS)) {
            queue.complete(pass, token, FinalStatus::success());
        }
    }
}

/// A caller cancels two requests, queued or not (`IoCancelIrp`).
fn cancel<N: QueueName>(
    rt: &impl Wait,
    queue: &Csq<VecList, N>,
    pass: &mut Pass<N>,
) -> Result<(), CancelRefused> {
    for irp in [IrpId(3), IrpId(11)] {
        // Whether the cancel completed it: else its dispatch routine or the worker does.
        let _completed = queue.cancel(rt, pass, irp, Life(0))?;
    }
    Ok(())
}

/// What one thread does.
fn run_one<N: QueueName>(rt: &impl Wait, queue: &Csq<VecList, N>, runner: &mut Runner<N>) {
    let pass = &mut runner.pass;
    runner.refused = match runner.routine {
        Routine::Dispatch(file) => dispatch(rt, queue, pass, file).is_err(),
        Routine::Work => {
            work(rt, queue, pass);
            false
        }
        Routine::Cancel => cancel(rt, queue, pass).is_err(),
    };
}

/// The two dispatch routines, the worker and the caller, each in a thread of its own.
fn serve<N: QueueName + Send + Sync, R: Threads + Wait + Sync>(
    rt: &R,
    queue: &Csq<VecList, N>,
    runners: &mut [Runner<N>],
) -> Result<(), Cause> {
    for_each_mut(
        rt,
        runners,
        ROUTINES.len(),
        &|_, runner| run_one(rt, queue, runner),
    );
    for runner in runners {
        if runner.refused {
            return Err("a thread was refused");
        }
    }
    Ok(())
}

/// The threads are through. The rest is done by this one.
fn finish<N: QueueName>(
    rt: &impl Wait,
    queue: &Csq<VecList, N>,
    pass: &mut Pass<N>,
) -> Result<(), Cause> {
    work(rt, queue, pass);
    // The last handle to the file object goes: what is queued for it is cancelled (`IRP_MJ_CLEANUP`).
    if queue.cleanup(rt, pass, WRITES).is_err() {
        return Err("no such file object");
    }
    // Left on purpose, to show what a closed queue reports: a driver cleans each file object up before that.
    if queue_one(rt, queue, pass, LATE, READS).is_err() {
        return Err("a request was refused");
    }
    // For a file object that was cleaned up nothing is queued any more.
    match queue_one(rt, queue, pass, TOO_LATE, WRITES) {
        Err(InsertStatus::FileClosed) => Ok(()),
        _ => Err("a late request was not refused"),
    }
}

/// Serves the device, and finishes what its threads left.
fn run<N: QueueName + Send + Sync, R: Threads + Wait + Sync>(
    rt: &R,
    queue: &Csq<VecList, N>,
    runners: &mut [Runner<N>],
) -> Result<(), Cause> {
    serve(rt, queue, runners)?;
    match runners.first_mut() {
        Some(first) => finish(rt, queue, &mut first.pass),
        None => Err("no thread"),
    }
}

/// A thread for each routine, with the next pass.
fn new_runners<N: QueueName>(rt: &impl AllocGlobal, rack: &mut PassRack<N>) -> Vec<Runner<N>> {
    let mut runners = Vec::new(rt.alloc());
    for routine in ROUTINES {
        if let Some(pass) = rack.take() {
            let refused = false;
            // If there is no memory for it, the pass is lost, and the queue can't be closed.
            drop(runners.push(Runner {
                routine,
                pass,
                refused,
            }));
        }
    }
    runners
}

/// Starts the device: its queue has a name from here on, and its threads have their passes.
fn start<N: QueueName>(rt: &impl AllocGlobal, blank: Blank<VecList>) -> DeviceExtension<N>
    requires { blank ≡ record { table = N.table; limits = N.limits } }
{
    let (queue, mut rack) = blank.into_queue::<N>();
    let runners = new_runners(rt, &mut rack);
    DeviceExtension {
        queue,
        runners,
        rack,
    }
}

/// All passes but one come back. One that hasn't spent what it took doesn't, and the queue can't be closed.
fn give_back<N: QueueName>(rt: &impl Wait, queue: &Csq<VecList, N>, runners: &mut Vec<Runner<N>>) {
    for _ in 1..runners.len() {
        if let Some(Runner { pass, .. }) = runners.pop() {
            drop(queue.give_back(rt, pass));
        }
    }
}

/// How many requests were completed, and which one is left.
fn report(rest: &Rest<VecList>) -> (u32, Option<IrpId>) {
    let mut completed = 0u32;
    for irp in 0..IRPS {
        if rest.status(IrpId(irp)).is_some() {
            completed = completed.wrapping_add(1);
        }
    }
    (completed, rest.next_listed(None))
}

/// Closes the queue with the pass that is out, and reports what is left of it.
fn close<N: QueueName>(
    queue: Csq<VecList, N>,
    last: Option<Runner<N>>,
    rack: PassRack<N>,
) -> Option<(u32, Option<IrpId>)> {
    let Runner { pass, .. } = last?;
    match queue.close(pass, rack) {
        Ok(rest) => Some(report(&rest)),
        Err(_) => None,
    }
}

/// Ends the device, and reports what is left of its queue.
fn end<N: QueueName>(rt: &impl Wait, device: DeviceExtension<N>) -> Option<(u32, Option<IrpId>)> {
    let DeviceExtension {
        queue,
        mut runners,
        rack,
    } = device;
    give_back(rt, &queue, &mut runners);
    let last = runners.pop();
    drop(runners);
    close(queue, last, rack)
}

/// Runs the driver, and returns what is left of its queue. Its device is ended in any case.
fn drive<N: QueueName + Send + Sync, R: Threads + Wait + AllocGlobal + Sync>(
    rt: &R,
    blank: Blank<VecList>,
) -> Result<(u32, Option<IrpId>), Cause>
    requires { blank ≡ record { table = N.table; limits = N.limits } }
{
    let mut device = start::<N>(rt, blank);
    let served = run(rt, &device.queue, &mut device.runners);
    let left = end(rt, device);
    served.and(left.ok_or("the queue was not closed"))
}

/// A queue without a name: a list of the requests for two file objects, and a pass for each thread.
fn new_queue(rt: &impl AllocGlobal) -> Option<Blank<VecList>> {
    let list = VecList::new(rt.alloc(), IRPS, 2, IRPS).ok()?;
    match Blank::new(rt.alloc(), list, IRPS, 4) {
        Ok(blank) => Some(blank),
        Err(_) => None,
    }
}

fn main(rt: HostRuntime) -> Result<()> {
    let Some(blank) = new_queue(&rt) else {
        bail!("out of memory");
    };
    let (completed, left) = match drive::<Brand, _>(&rt, blank) {
        Ok(reported) => reported,
        Err(cause) => bail!(cause),
    };
    println!(rt; "{completed} requests were completed")?;
    match left {
        Some(irp) => println!(rt; "request {irp} is left in the queue")?,
        None => println!(rt; "none is left in the queue")?,
    }
    Ok(())
}
