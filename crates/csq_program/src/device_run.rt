//! Devices that the program runs.
ghost use Rattle.std.specs.Prelude.{◌≡◌, ◌≢◌, None, string_bytes, OnOk, IfErr, IfOk};
ghost use Rattle.std.specs.Io.KnownBytes.{Keeps};
ghost use Rattle.csq_device.specs.Plans.{IsListFor};
ghost use Rattle.csq_program.specs.Replays.{IsWriteFault};
ghost use Rattle.csq_program.specs.Totals.{IsRunText, WritesRun, WritesRuns, WritesFewerRuns};
ghost use Rattle.csq_program.specs.declared.device_run.RunFault.TheVariants.{Spawn, NotClosed};

use crate::gate::Race;
use crate::program::ProgramFault;
use crate::totals_text::write_run;
use csq_device::{Device, DeviceCause, Gate, Plan, RunRefused};
use csq_list::{AnyList, ListKind, PendingList};
use std::alloc::{AllocError, Allocator};
use std::io::Write;
use std::rt::Clock;
use std::sync::Wait;
use std::thread::Threads;
use std::time::{Duration, Instant};
use thiserror::Error;

/// Why a device's totals were not written.
#[derive(Clone, Copy, Debug, PartialEq, Eq, Error)]
pub enum RunFault {
    /// 1: there is too little memory. Nothing was written.
    #[error("out of memory")]
    Memory = 1,
    /// 2: a thread could not be started. Nothing was written.
    #[error("thread refused")]
    Spawn = 2,
    /// 3: the queue was not closed. Nothing was written.
    #[error("close refused")]
    NotClosed = 3,
    /// 4: the writer gave a fault or took nothing. How much was written isn't said.
    #[error("write failed")]
    Write = 4,
}

impl RunFault {
    /// The number of the fault, from 1. Own rule.
    pub fn number(self) -> u8
        ensures memory { self ≡ RunFault.Memory → result ≡ 1 }
        ensures spawn { self ≡ Spawn → result ≡ 2 }
        ensures not_closed { self ≡ NotClosed → result ≡ 3 }
        ensures write { self ≡ RunFault.Write → result ≡ 4 }
    {
        self as u8
    }
}

impl From<AllocError> for RunFault {
    ghost use Rattle.std.specs.Prelude.{◌≡◌};
    ghost use Rattle.csq_program.specs.declared.device_run.RunFault.TheVariants.{Memory};

    ghost from_gives = { λ _ fault. fault ≡ Memory };

    fn from(_: AllocError) -> Self {
        RunFault::Memory
    }
}

impl From<RunRefused> for RunFault {
    ghost use Rattle.std.specs.Prelude.{◌≡◌};
    ghost use Rattle.csq_program.specs.Totals.{fault_of};

    ghost from_gives = { λ refused fault. fault ≡ fault_of refused };

    fn from(refused: RunRefused) -> Self {
        match refused {
            RunRefused::Memory => RunFault::Memory,
            RunRefused::Spawn => RunFault::Spawn,
            RunRefused::NotClosed => RunFault::NotClosed,
        }
    }
}

/// The time since this was read from the clock, if it was read and the clock can be read now.
fn time_since<R: Clock>(rt: &R, start: Option<Instant>) -> Option<Duration>
    ensures { start ≡ None → result ≡ None }
{
    start?.elapsed(rt).ok()
}

/// Runs a device of this plan over a list that fits it, its threads held up by the gate, and returns what is reported for
/// it: as `answer_run` writes it.
fn device_text<L, G, R, A>(
    rt: &R,
    alloc: A,
    plan: Plan,
    list: L,
    gate: G,
    totals: bool,
) -> Result<String<A>, RunFault>
where
    L: PendingList + Drop + Send,
    G: Gate + Drop,
    R: Clock + Threads + Wait + Sync,
    A: Allocator + Copy + Send + Sync,
    requires { IsListFor plan.irps plan.files (L.listing list) }
    ensures reported { IfOk result (λ text. IsRunText plan totals (string_bytes text)) }
    ensures fault { IfErr result (λ fault. fault ≢ RunFault.Write) }
{
    let device = match Device::new(alloc, plan, list, gate) {
        Ok(device) => device,
        Err(refused) => match refused.cause {
            DeviceCause::Memory => return Err(RunFault::Memory),
            // The list was made for this plan, and nothing was inserted into it.
            DeviceCause::ListNotFresh => unreachable!(),
        },
    };
    let start = Instant::now(rt).ok();
    let found = device.run(rt, alloc)?;
    let took = time_since(rt, start);
    let mut text = String::new(alloc);
    write_run(&found, totals, plan.busy_workers > 0, took, &mut text)?;
    Ok(text)
}

/// Runs a device of this plan over a list that fits it, its threads held up by the gate, and writes how
/// many IRPs there are, how many are home, listed or were completed by a thread's own count, and how many
/// are cancelled and listed; with `totals` each count by itself too, the calls that the threads made, and
/// how many milliseconds the run took, or that the clock failed. All memory is of `alloc`.
///
/// Faults: 1 Memory, 2 Spawn if a thread could not be started, 3 NotClosed if the queue was not
/// closed, after each of which nothing was written; 4 Write. Own rule.
pub fn answer_run<L, G, R, A, W>(
    rt: &R,
    alloc: A,
    plan: Plan,
    list: L,
    gate: G,
    totals: bool,
    writer: &mut W,
) -> Result<(), RunFault>
where
    L: PendingList + Drop + Send,
    G: Gate + Drop,
    R: Clock + Threads + Wait + Sync,
    A: Allocator + Copy + Send + Sync,
    W: Write,
    requires { IsListFor plan.irps plan.files (L.listing list) }
    ensures written { OnOk result (WritesRun plan totals (W.contents writer.old)
        (W.contents writer.new)) }
    ensures unwritten { IfErr result (λ fault. fault ≢ RunFault.Write
        → Keeps (W.contents writer.old) (W.contents writer.new)) }
{
    let text = device_text(rt, alloc, plan, list, gate, totals)?;
    match writer.write_all(text.as_bytes()) {
        Ok(()) => Ok(()),
        Err(_) => Err(RunFault::Write),
    }
}

/// Runs `repeat` devices of this plan, one after the other, each over a fresh list of this kind, and writes
/// of each what `answer_run` writes. The first fault ends it, which is as there, or Memory if there is
/// too little for a list; unless the writer gave it, what was written is all of the devices before.
pub(crate) fn answer_runs<R, W>(
    rt: &R,
    plan: Plan,
    kind: ListKind,
    totals: bool,
    repeat: u32,
    writer: &mut W,
) -> Result<(), ProgramFault>
where
    R: AllocGlobal + Clock + Threads + Wait + Sync,
    W: Write,
    ensures written { OnOk result (WritesRuns plan totals repeat (W.contents writer.old)
        (W.contents writer.new)) }
    ensures unwritten { IfErr result (λ fault. ¬ IsWriteFault fault
        → WritesFewerRuns plan totals repeat (W.contents writer.old) (W.contents writer.new)) }
{
    let Plan { irps, files, .. } = plan;
    for _run in 0..repeat {
        let Ok(list) = AnyList::new(rt.alloc(), kind, irps, files, irps) else {
            return Err(ProgramFault::from(AllocError));
        };
        let text = device_text(rt, rt.alloc(), plan, list, Race::new(plan), totals)?;
        if let Err(cause) = writer.write_all(text.as_bytes()) {
            return Err(ProgramFault::Write(cause));
        }
    }
    Ok(())
}
