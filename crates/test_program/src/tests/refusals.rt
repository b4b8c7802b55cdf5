//! What no run comes to: plans and devices that are refused, numbers of faults, and texts of what never comes.
use csq_device::{Device, DeviceCause, DeviceNew, Free, Plan, RunRefused};
use csq_explain::AnsweredCall;
use csq_list::{AnyList, ListKind, PendingList, Place};
use csq_program::{CommandFault, CrossedLines, NoSuchIrp, ProgramFault, RunFault, status_of};
use csq_replay::{CallRefused, Reply, ScriptCall, SimFault};
use irp_core::{FileId, IrpId};
use linked_list_allocator::LocalHeap;
use std::process::Abort;
use std::test::Fail;
use test_heap::RefusingHeap;

/// The most that each number of a plan may be.
const MOST: [u32; 6] = [1024, 256, 20, 20, 20, 100_000];

fn plan_of(numbers: [u32; 6]) -> Option<Plan> {
    let [irps, files, submitters, workers, cancellers, turns] = numbers;
    Plan::new(irps, files, submitters, workers, cancellers, turns)
}

#[test]
fn a_plan_has_its_ranges(rt: HostRuntime) {
    let least = [1; 6];
    assert!(rt; plan_of(least).is_some() && plan_of(MOST).is_some());
    for place in 0..6 {
        for numbers in [least, MOST] {
            for wrong in [0, MOST[place] + 1] {
                let mut numbers = numbers;
                numbers[place] = wrong;
                assert!(rt; plan_of(numbers).is_none());
            }
        }
    }
}

/// With the most other threads there is room for 3.
#[test]
fn busy_workers_have_passes(rt: HostRuntime) -> Result<(), Fail> {
    let few = plan_of([1; 6]).ok_or("a plan")?;
    let many = plan_of(MOST).ok_or("a plan")?;
    for (plan, most, wrong) in [(few, 20, 21), (many, 3, 4)] {
        assert_eq!(rt; plan.busy_workers, 0);
        for busy_workers in [0, 1, most] {
            let with = plan.with_busy_workers(busy_workers).ok_or("a plan")?;
            assert_eq!(rt; with.busy_workers, busy_workers);
        }
        for busy_workers in [wrong, 64, u32::MAX] {
            assert!(rt; plan.with_busy_workers(busy_workers).is_none());
        }
    }
    Ok(())
}

/// A list of a kind with so many IRPs and file objects and this limit, into which an IRP was inserted or not.
fn list_of<R: AllocGlobal>(rt: &R, kind: ListKind, sizes: [u32; 4]) -> Result<AnyList, Fail> {
    let [irps, files, limit, len] = sizes;
    let mut list = AnyList::new(rt.alloc(), kind, irps, files, limit)?;
    if len == 1 {
        let _ = list.insert_ex(IrpId(1), FileId(0), Place::Back);
    }
    Ok(list)
}

/// The list came back as it was, and no memory was kept. Returns the number of the cause.
fn find_back(rt: &impl Abort, back: &DeviceNew<AnyList, Free>, sizes: [u32; 4], kept: usize) -> u8 {
    let list = &back.list;
    assert_eq!(rt;
        [list.irps(), list.files(), list.limit(), list.len()],
        sizes
    );
    assert_eq!(rt; (list.is_fresh(), kept), (sizes[3] == 0, 0));
    back.cause.number()
}

/// Makes a device of 4 IRPs, 2 file objects and the most threads over a list of these sizes, with one call for memory
/// refused. Returns the number of the cause, if it is refused.
fn make(
    rt: &(impl AllocGlobal + Abort),
    kind: ListKind,
    sizes: [u32; 4],
    refused: u64,
) -> Result<Option<u8>, Fail> {
    let plan = plan_of([4, 2, 20, 20, 20, 1])
        .ok_or("a plan")?
        .with_busy_workers(3)
        .ok_or("a plan with busy workers")?;
    let list = list_of(rt, kind, sizes)?;
    let room = LocalHeap::new(rt.alloc(), 1 << 14)?;
    let heap = RefusingHeap::new(&room, refused);
    match Device::new(&heap, plan, list, Free) {
        Ok(_) => Ok(None),
        Err(back) => Ok(Some(find_back(rt, &back, sizes, room.used()))),
    }
}

const KINDS: [ListKind; 2] = [ListKind::Vector, ListKind::Chains];

/// Lists with another limit, other IRPs and other file objects, and one into which an IRP was inserted.
#[test]
fn a_list_that_does_not_fit_comes_back(rt: HostRuntime) -> Result<(), Fail> {
    let wanted = Some(DeviceCause::ListNotFresh.number());
    assert_eq!(rt; wanted, Some(2));
    for sizes in [[4, 2, 3, 0], [5, 2, 4, 0], [4, 3, 4, 0], [4, 2, 4, 1]] {
        for kind in KINDS {
            assert_eq!(rt; make(&rt, kind, sizes, 1_000_000)?, wanted);
        }
    }
    Ok(())
}

#[test]
fn a_device_is_refused_for_want_of_memory(rt: HostRuntime) -> Result<(), Fail> {
    let wanted = Some(DeviceCause::Memory.number());
    assert_eq!(rt; wanted, Some(1));
    for call in 0..100 {
        for kind in KINDS {
            let cause = make(&rt, kind, [4, 2, 4, 0], call)?;
            if cause.is_none() {
                assert!(rt; call > 0, "no call was refused");
                return Ok(());
            }
            assert_eq!(rt; cause, wanted);
        }
    }
    Err(Fail::from("each call was refused"))
}

/// A fault of the program has this text, and ends it with status 1.
fn find_text(rt: &(impl AllocGlobal + Abort), fault: ProgramFault, text: &str) -> Result<(), Fail> {
    let told = format!(in rt.alloc(); "{fault}")?;
    assert_eq!(rt; (told.as_str(), status_of(&Err(fault))), (text, 1));
    Ok(())
}

/// The refusals of a picture's part have these numbers.
fn find_part_refusals(rt: &impl Abort) -> Result<(), Fail> {
    let (crossed, no_irp) = (
        CrossedLines { from: 2, to: 1 },
        NoSuchIrp { irp: 8, irps: 8 },
    );
    let numbers = [
        CommandFault::Crossed(crossed).number(),
        CommandFault::NoSuchIrp(no_irp).number(),
    ];
    assert_eq!(rt; numbers, [4, 5]);
    Ok(())
}

/// What a whole run reads and writes is told by other faults than those of answers.
#[test]
fn faults_have_numbers_and_texts(rt: HostRuntime) -> Result<(), Fail> {
    for (refused, number, text) in [
        (RunRefused::Memory, 1, "out of memory"),
        (RunRefused::Spawn, 2, "thread refused"),
        (RunRefused::NotClosed, 3, "close refused"),
    ] {
        let fault = RunFault::from(refused);
        assert_eq!(rt; [refused.number(), fault.number()], [number, number]);
        find_text(&rt, ProgramFault::Run(fault), text)?;
    }
    for (fault, number, text) in [
        (SimFault::Memory, 1, "out of memory"),
        (SimFault::Read, 2, "read failed"),
        (SimFault::Write, 3, "write failed"),
    ] {
        assert_eq!(rt; fault.number(), number);
        find_text(&rt, ProgramFault::Replay(fault), text)?;
    }
    assert_eq!(rt;
        [RunFault::Write.number(), CommandFault::Memory.number()],
        [4, 1]
    );
    find_part_refusals(&rt)?;
    find_text(&rt, ProgramFault::Run(RunFault::Write), "write failed")
}

/// The IRP is one after a thousand million lives, which no script comes to.
#[test]
fn an_answer_that_no_script_has_is_explained(rt: HostRuntime) -> Result<(), Fail> {
    let answered = AnsweredCall {
        irps: 8,
        files: 4,
        call: ScriptCall::Reuse(IrpId(0)),
        reply: Reply::Refused(CallRefused::LivesSpent),
    };
    let told = format!(in rt.alloc(); "{answered}")?;
    assert_eq!(rt; told.as_str(), "IRP 0 is in its last life");
    Ok(())
}
