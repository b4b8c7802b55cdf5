//! Which lists a queue isn't made over. They come back, and the refusal tells why.
use super::queues::{FIRST, ZERO, chains, vector};
use csq_list::{PendingList, Place};
use csq_queue::{Blank, NewCause};
use irp_core::FileId;
use std::alloc::Allocator;
use std::process::Abort;

/// Asks for a queue of so many IRPs over a list, which comes back as it was.
fn refuse<L: PendingList + Drop, A: Allocator + Copy, R: Abort>(
    rt: &R,
    alloc: A,
    list: L,
    irps: u32,
    cause: NewCause,
) {
    let (listed, size) = (list.is_listed(ZERO), list.irps());
    match Blank::new_at(alloc, list, irps, 2, FIRST) {
        Ok(_) => panic!(rt; "a queue"),
        Err(refused) => {
            assert!(rt; refused.cause == cause);
            assert!(rt; refused.list.is_listed(ZERO) == listed && refused.list.irps() == size);
        }
    }
}

/// Over a list into which an IRP was inserted.
fn refuse_used<L: PendingList + Drop, A: Allocator + Copy, R: Abort>(
    rt: &R,
    alloc: A,
    mut list: L,
) {
    assert!(rt; list.insert_ex(ZERO, FileId(0), Place::Back) == Ok(()));
    refuse(rt, alloc, list, 4, NewCause::ListNotFresh);
}

/// Over a list with a closed file object.
fn refuse_closed<L: PendingList + Drop, A: Allocator + Copy, R: Abort>(
    rt: &R,
    alloc: A,
    mut list: L,
) {
    assert!(rt; list.close_file(FileId(1)) == Ok(()));
    refuse(rt, alloc, list, 4, NewCause::ListNotFresh);
}

#[test]
fn a_list_that_is_not_fresh_comes_back(rt: HostRuntime) {
    refuse_used(&rt, rt.alloc(), vector(&rt, rt.alloc()));
    refuse_used(&rt, rt.alloc(), chains(&rt, rt.alloc()));
    refuse_closed(&rt, rt.alloc(), vector(&rt, rt.alloc()));
    refuse_closed(&rt, rt.alloc(), chains(&rt, rt.alloc()));
    assert!(rt; NewCause::ListNotFresh.number() == 3);
}

/// For a queue of another size than its list, and of one that no queue has.
#[test]
fn a_list_of_another_size_comes_back(rt: HostRuntime) {
    for (irps, cause) in [
        (3, NewCause::ListNotFresh),
        (5, NewCause::ListNotFresh),
        (1025, NewCause::BadSize),
    ] {
        refuse(&rt, rt.alloc(), vector(&rt, rt.alloc()), irps, cause);
        refuse(&rt, rt.alloc(), chains(&rt, rt.alloc()), irps, cause);
    }
}
