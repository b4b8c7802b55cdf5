//! A list takes all its memory when it is made, or none if there is too little.

use super::list_calls::{Answer, Call, make};
use super::lists::Size;
use csq_list::{InsertStatus, PendingList, Place};
use irp_core::{FileId, IrpId, SizeRefused};
use linked_list_allocator::LocalHeap;
use std::process::Abort;
use std::test::Fail;

const IRPS: u32 = 64;

const FILES: u32 = 32;

/// Without limits of the files, and with just as many as are listed of each.
const SIZES: [Size<'static>; 2] = [
    Size {
        irps: IRPS,
        files: FILES,
        limit: IRPS,
        file_limits: None,
    },
    Size {
        irps: IRPS,
        files: FILES,
        limit: IRPS,
        file_limits: Some(&[2; 32]),
    },
];

/// Fills a list from both ends, where it takes out and puts back each, empties it again and renews what was
/// used. It takes no memory.
fn use_without_memory<L: PendingList>(rt: &impl Abort, heap: &LocalHeap, list: &mut L) {
    let used = heap.used();
    for number in 0..IRPS {
        let (irp, file) = (IrpId(number), FileId(number % FILES));
        let place = if number % 2 == 0 {
            Place::Back
        } else {
            Place::Front
        };
        let insert = Call::Insert(irp, file, place);
        assert!(rt; make(list, insert) == Answer::Made);
        assert!(rt; make(list, insert) == Answer::Refused(InsertStatus::NotHome));
        assert!(rt; make(list, Call::Remove(irp)) == Answer::Made);
        assert!(rt; make(list, Call::PutBack(irp, file, place)) == Answer::Made);
    }
    assert!(rt; make(list, Call::CloseFile(FileId(0))) == Answer::Made);
    for number in 0..IRPS {
        assert!(rt; make(list, Call::Remove(IrpId(number))) == Answer::Made);
        assert!(rt; make(list, Call::Renew(IrpId(number))) == Answer::Made);
    }
    assert!(rt; heap.used() == used);
}

/// There was no memory, and none is kept.
fn expect_none_kept(rt: &impl Abort, heap: &LocalHeap, cause: SizeRefused) {
    assert!(rt; cause == SizeRefused::Memory && heap.used() == 0);
}

/// Uses a list in one vector, if it can be made on the heap. Returns whether it can.
fn use_a_vector(rt: &impl Abort, heap: &LocalHeap, size: Size<'_>) -> bool {
    match size.vector(heap) {
        Ok(mut list) => {
            use_without_memory(rt, heap, &mut list);
            true
        }
        Err(cause) => {
            expect_none_kept(rt, heap, cause);
            false
        }
    }
}

/// And one in chains.
fn use_chains(rt: &impl Abort, heap: &LocalHeap, size: Size<'_>) -> bool {
    match size.chains(heap) {
        Ok(mut list) => {
            use_without_memory(rt, heap, &mut list);
            true
        }
        Err(cause) => {
            expect_none_kept(rt, heap, cause);
            false
        }
    }
}

/// On a heap of so many blocks: whether there is room for a list, of either kind.
fn try_on_a_heap<R: AllocGlobal + Abort>(
    rt: &R,
    blocks: usize,
    size: Size<'_>,
) -> Result<(bool, bool), Fail> {
    let heap = LocalHeap::new(rt.alloc(), blocks.saturating_mul(16))?;
    let vector = use_a_vector(rt, &heap, size);
    let chains = use_chains(rt, &heap, size);
    Ok((vector, chains))
}

/// A list is refused on each heap that is too small, and keeps no memory then; on each other, the smallest among
/// them, no call asks for more.
#[test]
fn lists_take_no_memory_later(rt: HostRuntime) -> Result<(), Fail> {
    for size in SIZES {
        let (mut no_vector, mut no_chains) = (false, false);
        for blocks in 1..512 {
            let (vector, chains) = try_on_a_heap(&rt, blocks, size)?;
            no_vector |= !vector;
            no_chains |= !chains;
        }
        assert!(rt; no_vector && no_chains, "no heap was too small");
        assert!(rt; try_on_a_heap(&rt, 4096, size)? == (true, true));
    }
    Ok(())
}
