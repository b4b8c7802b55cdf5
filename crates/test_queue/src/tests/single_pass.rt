//! What the contracts tell the only caller of a queue.
ghost use Rattle.std.specs.Prelude.{◌≡◌, true, Some, IfOk, IfSome};
ghost use Rattle.irp_core.specs.declared.ids.IrpLife.{IrpLife};
ghost use Rattle.irp_core.specs.Words.{flagged};
ghost use Rattle.csq_queue.specs.Named.{pass_numbered};
ghost use Rattle.csq_queue.specs.Inserts.{given_by};
ghost use Rattle.csq_queue.specs.Owned.{Holds};

use super::queues::{FIRST, ZERO, blank, take, vector};
use csq_list::{InsertStatus, PendingList, Place};
use csq_queue::{Blank, Csq, Inserted, Pass, QueueName};
use irp_core::{FileId, IrpId};
use std::alloc::Allocator;
use std::marker::Brand;
use std::process::Abort;
use std::sync::Wait;

/// An insert into a queue of one pass. If it finds its IRP cancelled, that pass has set the Cancel
/// flag, since no other could: the contract of the call alone shows it.
fn insert_alone<L: PendingList + Drop, N: QueueName, A: Allocator>(
    rt: &impl Wait,
    queue: &Csq<L, N, A>,
    pass: &mut Pass<N>,
    irp: IrpId,
    file: FileId,
) -> Result<Inserted<N>, InsertStatus>
    requires one { N.limits.passes ≡ 1 }
    requires first { pass.old.pass ≡ pass_numbered 1 }
    ensures token { IfOk result
        (λ inserted. IfSome (given_by inserted) (Holds N.limits.irps pass.new)) }
    ensures flagged { IfOk result
        (λ inserted. (i : IrpLife) → given_by inserted ≡ Some i → flagged pass.old.steps i ≡ true) }
{
    queue.insert(rt, pass, irp, file, Place::Back)
}

/// Sets the Cancel flag of an IRP, and finds it by an insert.
fn find_flag<L: PendingList + Drop, N: QueueName, A: Allocator, R: Wait + Abort>(
    rt: &R,
    queue: &Csq<L, N, A>,
    pass: &mut Pass<N>,
)
    requires one { N.limits.passes ≡ 1 }
    requires first { pass.old.pass ≡ pass_numbered 1 }
{
    assert_eq!(rt; queue.cancel(rt, pass, ZERO, FIRST), Ok(false));
    match insert_alone(rt, queue, pass, ZERO, FileId(0)) {
        Ok(Inserted::Cancelled(token)) => queue.complete_cancelled(pass, token),
        Ok(Inserted::Pending(_)) => panic!(rt; "pending"),
        Err(_) => panic!(rt; "refused"),
    }
}

fn find_flag_alone<L: PendingList + Drop, N: QueueName, A: Allocator, R: Wait + Abort>(
    rt: &R,
    blank: Blank<L, A>,
)
    requires named { blank ≡ record { table = N.table; limits = N.limits } }
    requires one { N.limits.passes ≡ 1 }
{
    let (queue, mut rack) = blank.into_queue::<N>();
    let mut pass = take(rt, &mut rack);
    find_flag(rt, &queue, &mut pass);
    let _ = queue.close(pass, rack);
}

#[test]
fn a_lone_pass_finds_its_own_flag(rt: HostRuntime) {
    let list = vector(&rt, rt.alloc());
    let blank = blank(&rt, rt.alloc(), list, 1);
    find_flag_alone::<_, Brand, _, _>(&rt, blank);
}
