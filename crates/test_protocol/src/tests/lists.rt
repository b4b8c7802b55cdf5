//! Both lists answer every short sequence of calls as a plain list of pairs does, and long ones too. A
//! function that owns lists only passes them on.

use super::list_calls::{Answer, Call, make};
use super::pairs::Pairs;
use csq_list::{ChainList, InsertStatus, Peek, PendingList, Place, VecList};
use irp_core::{FileId, IrpId, SizeRefused};
use rand_core::Rng;
use rand_pcg::Pcg32;
use std::alloc::Allocator;
use std::process::Abort;

/// The numbers of IRPs and files of a list and its limit, and the limits of its files if it is made
/// with limits.
#[derive(Clone, Copy)]
pub(super) struct Size<'a> {
    pub(super) irps: u32,
    pub(super) files: u32,
    pub(super) limit: u32,
    pub(super) file_limits: Option<&'a [u32]>,
}

/// Both lists, and the pairs beside them.
#[derive(Drop)]
struct Lists<'a> {
    vector: VecList,
    chains: ChainList,
    pairs: Pairs<'a>,
}

impl Size<'_> {
    /// A list in one vector, of this size.
    pub(super) fn vector<A: Allocator + Clone>(self, alloc: A) -> Result<VecList<A>, SizeRefused> {
        let Size { irps, files, .. } = self;
        match self.file_limits {
            None => VecList::new(alloc, irps, files, self.limit),
            Some(limits) => VecList::with_file_limits(alloc, irps, files, self.limit, limits),
        }
    }

    /// One in chains.
    pub(super) fn chains<A: Allocator + Clone>(
        self,
        alloc: A,
    ) -> Result<ChainList<A>, SizeRefused> {
        let Size { irps, files, .. } = self;
        match self.file_limits {
            None => ChainList::new(alloc, irps, files, self.limit),
            Some(limits) => ChainList::with_file_limits(alloc, irps, files, self.limit, limits),
        }
    }
}

/// A list, which has to be made.
fn made<L: Drop>(rt: &impl Abort, list: Result<L, SizeRefused>) -> L {
    match list {
        Ok(list) => list,
        Err(_) => panic!(rt; "no list"),
    }
}

fn lists_of<'a>(rt: &(impl Abort + AllocGlobal), size: Size<'a>) -> Lists<'a> {
    Lists {
        vector: made(rt, size.vector(rt.alloc())),
        chains: made(rt, size.chains(rt.alloc())),
        pairs: Pairs::new(rt, size),
    }
}

/// Makes a call of all, and compares the answers.
fn follow(rt: &impl Abort, lists: &mut Lists<'_>, call: Call) -> Answer {
    let answer = lists.pairs.answer(rt, call);
    assert!(rt; make(&mut lists.vector, call) == answer);
    assert!(rt; make(&mut lists.chains, call) == answer);
    answer
}

/// Compares what is found after a place, for any file and for each.
fn compare_from(rt: &impl Abort, lists: &mut Lists<'_>, size: Size<'_>, after: Option<IrpId>) {
    follow(rt, lists, Call::PeekNext(after, Peek::Any));
    for file in 0..=size.files {
        let peek = Peek::File(FileId(file));
        follow(rt, lists, Call::PeekNext(after, peek));
    }
}

/// Compares all that can be asked.
fn compare(rt: &impl Abort, lists: &mut Lists<'_>, size: Size<'_>) {
    for call in [
        Call::Irps,
        Call::Files,
        Call::Limit,
        Call::Len,
        Call::IsFresh,
    ] {
        follow(rt, lists, call);
    }
    for file in 0..=size.files {
        follow(rt, lists, Call::FileLen(FileId(file)));
        follow(rt, lists, Call::FileLimit(FileId(file)));
    }
    compare_from(rt, lists, size, None);
    for irp in 0..=size.irps {
        follow(rt, lists, Call::IsHome(IrpId(irp)));
        if follow(rt, lists, Call::IsListed(IrpId(irp))) == Answer::Is(true) {
            compare_from(rt, lists, size, Some(IrpId(irp)));
        }
    }
}

/// The lists that every sequence of calls is tried on.
const SMALL: Size<'static> = Size {
    irps: 3,
    files: 2,
    limit: 2,
    file_limits: Some(&[1, 3]),
};

const CALLS: u32 = 28;

/// One of the calls of such a list, with known numbers and unknown ones.
fn numbered(number: u32) -> Call {
    let irp = IrpId(number % 3);
    let file = FileId(number % 2);
    match number {
        0..6 => Call::Insert(irp, file, Place::Back),
        6..12 => Call::Insert(irp, file, Place::Front),
        12 => Call::Insert(IrpId(3), file, Place::Back),
        13 => Call::Insert(irp, FileId(2), Place::Front),
        14..17 => Call::Remove(irp),
        17..20 => Call::Renew(irp),
        20..22 => Call::CloseFile(file),
        22 => Call::CloseFile(FileId(2)),
        23..25 => Call::PutBack(irp, file, Place::Back),
        25..27 => Call::PutBack(irp, file, Place::Front),
        _ => Call::Remove(IrpId(3)),
    }
}

/// Makes so many calls, whose numbers are digits to base `CALLS`, and compares all that can be asked in the
/// end. Returns whether a file was full.
fn play(rt: &impl Abort, lists: &mut Lists<'_>, length: u32, digits: u32) -> bool {
    let mut full = false;
    let mut left = digits;
    for _ in 0..length {
        let answer = follow(rt, lists, numbered(left % CALLS));
        full |= answer == Answer::Refused(InsertStatus::FileFull);
        left /= CALLS;
    }
    compare(rt, lists, SMALL);
    full
}

#[test]
fn every_short_sequence_is_answered_as_by_pairs(rt: HostRuntime) {
    let mut full = false;
    // How many calls are tried one after another, and how many sequences of so many there are.
    for (length, sequences) in [(1, 28), (2, 784), (3, 21_952), (4, 614_656)] {
        for digits in 0..sequences {
            full |= play(&rt, &mut lists_of(&rt, SMALL), length, digits);
        }
    }
    assert!(rt; full, "no file was full");
}

/// The lists that long sequences are tried on.
const LARGE: Size<'static> = Size {
    irps: 256,
    files: 8,
    limit: 96,
    file_limits: Some(&[1, 2, 4, 8, 16, 32, 64, 256]),
};

/// The same without limits of the files: each may have all IRPs.
const UNLIMITED: Size<'static> = Size {
    file_limits: None,
    ..LARGE
};

const MANY_CALLS: u32 = 2048;

const SEED: u64 = 0x5eed_0f11_57c0_9a1e;

/// A call of such a list: more inserts than removals, as many renewals, fewer put-backs, and few closings.
fn drawn<G: Rng>(rng: &mut G) -> Call {
    let irp = IrpId(rng.next_u32() % 257);
    let file = FileId(rng.next_u32() % 9);
    match rng.next_u32() % 576 {
        0 => Call::CloseFile(file),
        1..160 => Call::Insert(irp, file, Place::Back),
        160..320 => Call::Insert(irp, file, Place::Front),
        320..416 => Call::Renew(irp),
        416..448 => Call::PutBack(irp, file, Place::Back),
        448..480 => Call::PutBack(irp, file, Place::Front),
        _ => Call::Remove(irp),
    }
}

/// Makes the calls that a stream of random numbers draws. Returns whether a file was full.
fn play_stream(rt: &impl Abort, lists: &mut Lists<'_>, size: Size<'_>, stream: u64) -> bool {
    let mut rng = Pcg32::new(SEED, stream);
    let mut full = false;
    for turn in 0..MANY_CALLS {
        let answer = follow(rt, lists, drawn(&mut rng));
        full |= answer == Answer::Refused(InsertStatus::FileFull);
        follow(rt, lists, Call::Len);
        compare_from(rt, lists, size, None);
        if turn % 64 == 0 {
            compare(rt, lists, size);
        }
    }
    full
}

#[test]
fn long_sequences_are_answered_as_by_pairs(rt: HostRuntime) {
    let mut full = false;
    for stream in 0..16 {
        full |= play_stream(&rt, &mut lists_of(&rt, LARGE), LARGE, stream);
    }
    play_stream(&rt, &mut lists_of(&rt, UNLIMITED), UNLIMITED, 16);
    assert!(rt; full, "no file was full");
}

/// The lists of three IRPs, of which one or two are listed at a time.
const SHIFTING: Size<'static> = Size {
    irps: 3,
    files: 1,
    limit: 3,
    file_limits: None,
};

/// 60,000 inserts at a place, so that the positions of a vector move far from the middle. Each time the oldest
/// IRP of three goes.
fn keep_coming(rt: &impl Abort, lists: &mut Lists<'_>, place: Place) {
    for turn in 0u32..60_000 {
        let oldest = IrpId(turn.wrapping_add(1) % 3);
        follow(rt, lists, Call::Insert(IrpId(turn % 3), FileId(0), place));
        follow(rt, lists, Call::Remove(oldest));
        follow(rt, lists, Call::Renew(oldest));
        follow(rt, lists, Call::PeekNext(None, Peek::Any));
        follow(rt, lists, Call::PeekNext(Some(IrpId(turn % 3)), Peek::Any));
    }
    assert!(rt; follow(rt, lists, Call::Len) == Answer::Count(2));
}

#[test]
fn positions_that_come_to_an_end_are_counted_anew(rt: HostRuntime) {
    for place in [Place::Back, Place::Front] {
        keep_coming(&rt, &mut lists_of(&rt, SHIFTING), place);
    }
}

/// A look after the first of four IRPs finds this one, and reads so many records.
fn expect_reads(rt: &impl Abort, list: &ChainList, peek: Peek, found: Option<IrpId>, reads: u32) {
    assert!(rt; list.is_listed(IrpId(0)));
    assert!(rt; list.peek_counted(Some(IrpId(0)), peek) == (found, reads));
}

fn expect_removal_reads(rt: &impl Abort, list: &mut ChainList, irp: IrpId, reads: u32) {
    assert!(rt; list.is_listed(irp));
    assert!(rt; list.remove_counted(irp) == reads);
}

/// IRPs 0, 1 and 3 of the first file, and 2 of the second. A look from the head reads no record, one along a
/// chain reads one, and one along another chain each up to what it finds. A removal reads its own and those
/// beside it.
fn count_reads(rt: &impl Abort, list: &mut ChainList) {
    for (irp, file) in [(0, 0), (1, 0), (2, 1), (3, 0)] {
        make(list, Call::Insert(IrpId(irp), FileId(file), Place::Back));
    }
    assert!(rt; list.peek_counted(None, Peek::File(FileId(1))) == (Some(IrpId(2)), 0));
    expect_reads(rt, list, Peek::Any, Some(IrpId(1)), 1);
    expect_reads(rt, list, Peek::File(FileId(0)), Some(IrpId(1)), 1);
    expect_reads(rt, list, Peek::File(FileId(1)), Some(IrpId(2)), 3);
    expect_reads(rt, list, Peek::File(FileId(2)), None, 4);
    expect_removal_reads(rt, list, IrpId(1), 5);
    expect_removal_reads(rt, list, IrpId(2), 3);
}

#[test]
fn few_records_are_read(rt: HostRuntime) {
    let size = Size {
        irps: 4,
        files: 2,
        limit: 4,
        file_limits: None,
    };
    count_reads(&rt, &mut made(&rt, size.chains(rt.alloc())));
}
