//! Of which sizes lists, machines and words are made.

use super::lists::Size;
use csq_list::{ChainList, VecList};
use csq_words::Words;
use irp_core::{Life, Machine, SizeRefused};
use std::process::Abort;

/// Both lists are made of this size, or are refused for this cause.
fn expect_lists<R: AllocGlobal + Abort>(rt: &R, size: Size<'_>, refusal: Option<SizeRefused>) {
    assert!(rt; size.vector(rt.alloc()).err() == refusal);
    assert!(rt; size.chains(rt.alloc()).err() == refusal);
}

fn size_of(irps: u32, files: u32, limit: u32) -> Size<'static> {
    Size {
        irps,
        files,
        limit,
        file_limits: None,
    }
}

#[test]
fn lists_have_sizes(rt: HostRuntime) {
    for irps in 1..=1024 {
        expect_lists(&rt, size_of(irps, 1, irps), None);
    }
    for files in 1..=256 {
        expect_lists(&rt, size_of(1, files, 1), None);
    }
    expect_lists(&rt, size_of(1024, 256, 1024), None);
    for (irps, files, limit) in [
        (0, 1, 1),
        (1025, 1, 1),
        (4, 0, 1),
        (4, 257, 1),
        (4, 1, 0),
        (4, 1, 5),
    ] {
        expect_lists(&rt, size_of(irps, files, limit), Some(SizeRefused::BadSize));
    }
}

/// Each file has one limit, from 1 to the number of IRPs.
#[test]
fn file_limits_have_sizes(rt: HostRuntime) {
    let limits = [1; 256];
    for files in 1..=256 {
        let size = Size {
            file_limits: Some(&limits[..files as usize]),
            ..size_of(1, files, 1)
        };
        expect_lists(&rt, size, None);
    }
    for limits in [
        [0, 4].as_slice(),
        [1, 5].as_slice(),
        [1].as_slice(),
        [1, 4, 4].as_slice(),
    ] {
        let size = Size {
            file_limits: Some(limits),
            ..size_of(4, 2, 2)
        };
        expect_lists(&rt, size, Some(SizeRefused::BadSize));
    }
}

/// Large lists of both kinds are made of this size, or are refused for this cause.
fn expect_large_lists<R: AllocGlobal + Abort>(
    rt: &R,
    (irps, files, limit): (u32, u32, u32),
    refusal: Option<SizeRefused>,
) {
    assert!(rt; VecList::large(rt.alloc(), irps, files, limit).err() == refusal);
    assert!(rt; ChainList::large(rt.alloc(), irps, files, limit).err() == refusal);
}

#[test]
fn large_lists_have_sizes(rt: HostRuntime) {
    expect_large_lists(&rt, (1, 1, 1), None);
    expect_large_lists(&rt, (65_535, 16_384, 65_535), None);
    for size in [
        (0, 1, 1),
        (65_536, 1, 1),
        (4, 0, 1),
        (4, 16_385, 1),
        (4, 1, 0),
        (4, 1, 5),
    ] {
        expect_large_lists(&rt, size, Some(SizeRefused::BadSize));
    }
}

/// The number of the cause for which something isn't made, or 0.
fn refusal<T: Drop>(made: Result<T, SizeRefused>) -> u8 {
    match made {
        Ok(_) => 0,
        Err(cause) => cause.number(),
    }
}

#[test]
fn machines_and_words_have_sizes(rt: HostRuntime) {
    for (irps, passes, first, number) in [
        (1, 1, 0, 0),
        (1024, 64, 0, 0),
        (1, 1, 1_073_741_822, 0),
        (1, 1, 1_073_741_823, 0),
        (0, 1, 0, 1),
        (1025, 1, 0, 1),
        (1, 0, 0, 1),
        (1, 65, 0, 1),
        (1, 1, 1_073_741_824, 1),
    ] {
        let first = Life(first);
        assert!(rt; refusal(Machine::new_at(rt.alloc(), irps, passes, first)) == number);
        assert!(rt; refusal(Words::new_at(rt.alloc(), irps, passes, first)) == number);
    }
}

#[test]
fn large_machines_and_words_have_sizes(rt: HostRuntime) {
    for (irps, passes, first, number) in [
        (1, 1, 0, 0),
        (65_535, 1_024, 1_073_741_823, 0),
        (0, 1, 0, 1),
        (65_536, 1, 0, 1),
        (1, 0, 0, 1),
        (1, 1_025, 0, 1),
        (1, 1, 1_073_741_824, 1),
    ] {
        let first = Life(first);
        assert!(rt; refusal(Machine::large(rt.alloc(), irps, passes, first)) == number);
        assert!(rt; refusal(Words::large(rt.alloc(), irps, passes, first)) == number);
    }
}
