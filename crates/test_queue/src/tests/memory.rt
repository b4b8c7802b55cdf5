//! Each call for memory is refused in turn, until one run meets no refusal. What was made takes no memory later, and
//! machines and words of each size can be made.
ghost use Rattle.std.specs.Prelude.{◌≡◌};
ghost use Rattle.csq_words.specs.Seats.{new_seats};

use super::queues::{chains, vector};
use csq_list::{ChainList, PendingList, VecList};
use csq_queue::{Blank, NewCause};
use csq_words::{PassSeats, Words};
use irp_core::{FileId, IrpId, IrpLife, Kind, Life, Machine, PassId, SizeRefused, Step};
use linked_list_allocator::LocalHeap;
use std::alloc::Allocator;
use std::process::Abort;
use test_heap::RefusingHeap;

const IRPS: u32 = 64;

const PASSES: u32 = 16;

const LAST: IrpLife = IrpLife {
    irp: IrpId(IRPS - 1),
    life: Life(0),
};

const NEXT: IrpLife = IrpLife {
    irp: IrpId(IRPS - 1),
    life: Life(1),
};

/// A life that is cancelled past a removal, and one that is removed, with each kind of step and what it finds.
const STEPS: [(u32, Kind, u64); 12] = [
    (1, Kind::Arm(LAST), 0),
    (1, Kind::Test(LAST), 0),
    (2, Kind::Flag(LAST), 0),
    (2, Kind::Take(LAST), 1),
    (3, Kind::Disarm(LAST), 0),
    (3, Kind::End, 0),
    (2, Kind::Out(LAST), 0),
    (2, Kind::Done(LAST), 0),
    (1, Kind::Renew(LAST), 0),
    (1, Kind::Arm(NEXT), 0),
    (1, Kind::Test(NEXT), 0),
    (3, Kind::Disarm(NEXT), 1),
];

/// More than the memory of what is made here.
const ROOM: usize = 1 << 16;

/// More than the calls for memory of what is made here.
const CALLS: u64 = 64;

/// What is made.
#[derive(Clone, Copy)]
enum Product {
    Machine,
    Words,
    Vector,
    Chains,
    // A queue over a vector or over chains, whose list comes back fresh.
    Queue,
    ChainedQueue,
    // A queue over a list in which a file object was closed: it isn't made, and want of memory is told first.
    UsedQueue,
}

/// How it ended.
#[derive(Clone, Copy, PartialEq, Eq)]
enum Outcome {
    // It was made and works, or its list was told not to be fresh.
    Done,
    WantOfMemory,
    Wrong,
}

/// Makes these steps. The room has as much in use after each as before.
fn step_in_room<A: Allocator>(rt: &impl Abort, room: &LocalHeap, machine: &mut Machine<A>) {
    let used = room.used();
    for (pass, kind, found) in STEPS {
        let step = Step {
            pass: PassId(pass),
            kind,
        };
        assert!(rt; machine.step(step) == Ok(found));
        assert!(rt; room.used() == used);
    }
    assert!(rt; !machine.at_rest());
}

fn make_machine<A: Allocator + Copy>(rt: &impl Abort, heap: A, room: &LocalHeap) -> Outcome {
    match Machine::new(heap, IRPS, PASSES) {
        Ok(mut machine) => {
            step_in_room(rt, room, &mut machine);
            Outcome::Done
        }
        Err(SizeRefused::Memory) => Outcome::WantOfMemory,
        Err(_) => Outcome::Wrong,
    }
}

/// A pass finds the last IRP neither flagged nor armed.
fn flag_and_take<A: Allocator>(rt: &impl Abort, words: &Words<A>, seats: &mut PassSeats)
    requires size { words.now.size.irps ≡ 64 }
    requires seats { seats.old ≡ new_seats words.now.table 1 16 }
{
    let Some(mut pass) = seats.take() else {
        panic!(rt; "no pass");
    };
    assert!(rt; pass.flag(words, LAST) == 0);
    assert!(rt; pass.take(words, LAST) == 0);
}

/// Words take nothing of the room that is left.
fn make_words<A: Allocator + Copy>(rt: &impl Abort, heap: A, room: &LocalHeap) -> Outcome {
    match Words::new(heap, IRPS, PASSES) {
        Ok((words, _queue, mut seats)) => {
            let used = room.used();
            flag_and_take(rt, &words, &mut seats);
            assert!(rt; room.used() == used);
            Outcome::Done
        }
        Err(SizeRefused::Memory) => Outcome::WantOfMemory,
        Err(_) => Outcome::Wrong,
    }
}

fn done_if(right: bool) -> Outcome {
    if right { Outcome::Done } else { Outcome::Wrong }
}

fn make_vector<A: Allocator + Copy>(heap: A) -> Outcome {
    match VecList::with_file_limits(heap, IRPS, 2, IRPS, &[IRPS, 1]) {
        Ok(list) => done_if(list.is_fresh()),
        Err(SizeRefused::Memory) => Outcome::WantOfMemory,
        Err(_) => Outcome::Wrong,
    }
}

fn make_chains<A: Allocator + Copy>(heap: A) -> Outcome {
    match ChainList::with_file_limits(heap, IRPS, 2, IRPS, &[IRPS, 1]) {
        Ok(list) => done_if(list.is_fresh()),
        Err(SizeRefused::Memory) => Outcome::WantOfMemory,
        Err(_) => Outcome::Wrong,
    }
}

fn make_queue<L: PendingList + Drop, A: Allocator + Copy>(heap: A, list: L) -> Outcome {
    match Blank::new(heap, list, 4, 2) {
        Ok(_) => Outcome::Done,
        Err(refused) => {
            if refused.cause == NewCause::Memory && refused.list.is_fresh() {
                Outcome::WantOfMemory
            } else {
                Outcome::Wrong
            }
        }
    }
}

fn make_over_used<L: PendingList + Drop, A: Allocator + Copy>(
    rt: &impl Abort,
    heap: A,
    mut list: L,
) -> Outcome {
    let closed = list.close_file(FileId(1));
    assert!(rt; closed == Ok(()));
    match Blank::new(heap, list, 4, 2) {
        Ok(_) => Outcome::Wrong,
        Err(refused) => match refused.cause {
            NewCause::Memory => Outcome::WantOfMemory,
            NewCause::ListNotFresh => Outcome::Done,
            NewCause::BadSize => Outcome::Wrong,
        },
    }
}

/// Makes something on a heap that refuses one call for memory of this room. The list of a queue is on
/// another heap.
fn make<A: Allocator + Copy>(
    rt: &(impl AllocGlobal + Abort),
    product: Product,
    heap: A,
    room: &LocalHeap,
) -> Outcome {
    match product {
        Product::Machine => make_machine(rt, heap, room),
        Product::Words => make_words(rt, heap, room),
        Product::Vector => make_vector(heap),
        Product::Chains => make_chains(heap),
        Product::Queue => make_queue(heap, vector(rt, rt.alloc())),
        Product::ChainedQueue => make_queue(heap, chains(rt, rt.alloc())),
        Product::UsedQueue => make_over_used(rt, heap, vector(rt, rt.alloc())),
    }
}

/// Refuses one call for memory. Returns whether it came to that call: want of memory is told then, and
/// not otherwise.
fn refuse_call(
    rt: &(impl AllocGlobal + Abort),
    product: Product,
    room: &LocalHeap,
    call: u64,
) -> bool {
    let heap = RefusingHeap::new(room, call);
    let outcome = make(rt, product, &heap, room);
    let refused = heap.has_refused();
    let right = outcome != Outcome::Wrong && (outcome == Outcome::WantOfMemory) == refused;
    assert!(rt; right, "at call {call}");
    refused
}

/// Refuses one call for memory, and finds that all memory was given back.
fn refuse_and_give_back(rt: &(impl AllocGlobal + Abort), product: Product, call: u64) -> bool {
    let room = match LocalHeap::new(rt.alloc(), ROOM) {
        Ok(room) => room,
        Err(_) => panic!(rt; "no room"),
    };
    let refused = refuse_call(rt, product, &room, call);
    assert!(rt; room.used() == 0, "at call {call}");
    refused
}

/// Refuses each call for memory in turn. Returns how many there are, which is at least one.
fn refuse_each_call(rt: &(impl AllocGlobal + Abort), product: Product) -> u64 {
    for call in 0..CALLS {
        if !refuse_and_give_back(rt, product, call) {
            assert!(rt; call > 0, "no call was refused");
            return call;
        }
    }
    panic!(rt; "each call was refused")
}

/// A queue makes as many calls for memory over one list as over the other, and over one that isn't fresh: that is
/// looked for once all memory was had.
#[test]
fn each_call_for_memory_is_refused_in_turn(rt: HostRuntime) {
    for product in [
        Product::Machine,
        Product::Words,
        Product::Vector,
        Product::Chains,
    ] {
        refuse_each_call(&rt, product);
    }
    let calls = refuse_each_call(&rt, Product::Queue);
    assert!(rt; refuse_each_call(&rt, Product::ChainedQueue) == calls);
    assert!(rt; refuse_each_call(&rt, Product::UsedQueue) == calls);
}

fn is_machine_made(rt: &impl AllocGlobal, irps: u32) -> bool {
    Machine::new(rt.alloc(), irps, 1).is_ok()
}

fn are_words_made(rt: &impl AllocGlobal, irps: u32) -> bool {
    Words::new(rt.alloc(), irps, 1).is_ok()
}

#[test]
fn a_machine_and_words_are_made_of_each_size(rt: HostRuntime) {
    for irps in 1..=1024 {
        assert!(rt; is_machine_made(&rt, irps), "a machine of {irps} IRPs");
        assert!(rt; are_words_made(&rt, irps), "words of {irps} IRPs");
    }
}
