//! The numbers of refusals and statuses, and the words by their bits, as they were written by hand.

use csq_list::{InsertStatus, UnknownFile};
use csq_words::{bit_word, flag_read, is_set, status_read};
use irp_core::{FinalStatus, Life, NtStatus, PassId, SizeRefused, StepRefused};

#[test]
fn refusals_have_numbers(rt: HostRuntime) {
    let steps = [
        StepRefused::UnknownIrp,
        StepRefused::UnknownPass,
        StepRefused::LockHeld(PassId(1)),
        StepRefused::NotNext,
        StepRefused::NotHome,
        StepRefused::NotListed,
        StepRefused::NotOwed,
        StepRefused::NotHeld,
        StepRefused::Stale(Life(0)),
        StepRefused::NotCompleted,
        StepRefused::LivesSpent,
    ];
    for (n, refused) in steps.iter().enumerate() {
        assert!(rt; refused.number() as usize == n + 1);
    }
    assert!(rt; [SizeRefused::BadSize.number(), SizeRefused::Memory.number()] == [1, 2]);
    assert!(rt; UnknownFile.number() == 1);
}

#[test]
fn refusals_of_inserts_have_numbers_and_statuses(rt: HostRuntime) {
    let full = Some(NtStatus(0xC000_009A));
    for (cause, number, nt) in [
        (InsertStatus::UnknownIrp, 1, None),
        (InsertStatus::UnknownFile, 2, None),
        (InsertStatus::NotHome, 3, None),
        (InsertStatus::FileClosed, 4, Some(NtStatus(0xC000_0128))),
        (InsertStatus::Full, 5, full),
        (InsertStatus::FileFull, 6, full),
    ] {
        assert!(rt; (cause.number(), cause.nt()) == (number, nt));
    }
}

#[test]
fn an_irp_is_not_completed_as_pending(rt: HostRuntime) {
    assert!(rt; FinalStatus::new(NtStatus(0x103)).is_none());
    assert!(rt; FinalStatus::new(NtStatus(0xC000_0120)) == Some(FinalStatus::cancelled()));
    assert!(rt; FinalStatus::success().status() == NtStatus::SUCCESS);
    assert!(rt; NtStatus(0x7FFF_FFFF).is_success() && !NtStatus(0x8000_0000).is_success());
}

/// A word of a flag or a routine has its life above its bit, and a word of a status above its status.
#[test]
fn words_have_lives_above_their_bits(rt: HostRuntime) {
    for (life, set, word) in [
        (0, false, 0),
        (0, true, 1),
        (3, false, 6),
        (3, true, 7),
        (0x3FFF_FFFF, true, 0x7FFF_FFFF),
    ] {
        assert!(rt; bit_word(Life(life), set) == word && is_set(word) == set);
        assert!(rt; flag_read(word) == (Life(life), set));
    }
    for (word, life, status) in [
        (0, 0, None),
        (0x1_0000_0000, 0, Some(NtStatus(0))),
        (0x1_C000_0120, 0, Some(NtStatus(0xC000_0120))),
        (0x6_0000_0000, 3, None),
        (
            0x7FFF_FFFF_FFFF_FFFF,
            0x3FFF_FFFF,
            Some(NtStatus(0xFFFF_FFFF)),
        ),
    ] {
        assert!(rt; status_read(word) == (Life(life), status));
    }
}
