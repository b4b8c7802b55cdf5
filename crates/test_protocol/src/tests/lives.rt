//! Reuses of an IRP, with cancels of its lives between their steps, and what passes read of it.

use super::FIRST;
use super::actions::{Action, play};
use super::fixture::By;
use irp_core::{Life, NtStatus, StepRefused};

const SECOND: Life = Life(1);

const FIFTH: Life = Life(5);

const SIXTH: Life = Life(6);

const LAST: Life = Life(0x3FFF_FFFF);

const LAST_BUT_ONE: Life = Life(0x3FFF_FFFE);

const SUCCESS: NtStatus = NtStatus::SUCCESS;

/// `STATUS_IO_DEVICE_ERROR`: neither success nor cancelled.
const DEVICE_ERROR: NtStatus = NtStatus(0xC000_0185);

const LARGEST: NtStatus = NtStatus(0xFFFF_FFFF);

const CANCELS_COME_BETWEEN_THE_RENEWALS: &[Action] = &[
    Action::Insert,
    Action::Remove,
    Action::Complete(SUCCESS),
    Action::Look(SUCCESS),
    Action::FlagStale(SIXTH, false),
    Action::RenewStatus(SUCCESS),
    Action::Find(By::Canceller, (FIFTH, false), (SIXTH, None)),
    // The flag is still of the old life when the status is renewed, and so is the routine, which is
    // gone. A flag of the next life changes no word.
    Action::Flag,
    Action::Take(10),
    Action::FlagStale(SIXTH, true),
    Action::RenewCancel(true),
    // Now the flag is of the next life too, and clear.
    Action::FlagStale(FIFTH, false),
    Action::FindUnflagged(By::Canceller, SIXTH, None),
    Action::Insert,
    Action::Flag,
    Action::Take(13),
    Action::Finish,
    Action::FindCompleted(By::Canceller, NtStatus::CANCELLED),
    Action::FindRest,
];

const A_STALE_FLAG_CHANGES_NO_WORD: &[Action] = &[
    Action::FlagStale(FIRST, false),
    Action::FlagStale(LAST, false),
    Action::Insert,
    Action::FlagStale(FIRST, false),
    Action::FlagStale(SIXTH, false),
    Action::Remove,
    Action::FlagStale(SIXTH, false),
    Action::Complete(SUCCESS),
    Action::Look(SUCCESS),
    Action::FlagStale(FIRST, false),
    Action::RenewStatus(SUCCESS),
    Action::FlagStale(FIRST, false),
    Action::FlagStale(FIRST, false),
    Action::RenewCancel(false),
    Action::FlagStale(FIFTH, false),
    Action::Insert,
    Action::FlagStale(FIFTH, false),
    Action::FindUnflagged(By::Canceller, SIXTH, None),
];

const A_STALE_FLAG_FINDS_THE_FLAG_OF_THE_PRESENT_LIFE: &[Action] = &[
    Action::Insert,
    Action::FlagStale(FIRST, false),
    Action::FlagStale(SIXTH, false),
    Action::Remove,
    Action::Flag,
    Action::Take(10),
    Action::FlagStale(FIRST, true),
    Action::FlagStale(SIXTH, true),
    Action::Complete(SUCCESS),
    Action::FlagStale(FIRST, true),
    Action::Reuse(true),
    Action::FlagStale(FIFTH, false),
];

const THE_LAST_LIFE_IS_NOT_RENEWED: &[Action] = &[
    Action::Insert,
    Action::FlagStale(LAST_BUT_ONE, false),
    Action::Remove,
    Action::LookAlone(None),
    Action::RefuseRenewal(StepRefused::NotCompleted),
    Action::Complete(SUCCESS),
    Action::LookAlone(Some(SUCCESS)),
    Action::RefuseRenewal(StepRefused::LivesSpent),
    Action::FindUnflagged(By::Canceller, LAST, Some(SUCCESS)),
];

const THE_LIFE_BEFORE_THE_LAST_IS_RENEWED: &[Action] = &[
    Action::Insert,
    Action::Remove,
    Action::Complete(SUCCESS),
    Action::Reuse(false),
    Action::FindUnflagged(By::Inserter, LAST, None),
    Action::Insert,
];

/// Pass 2 has flagged the IRP, which pass 3 has removed and then completes. Its take comes once pass
/// 1 has inserted the IRP again, and finds nothing: the new life is removed and completed.
const A_LATE_TAKE_LEAVES_THE_NEXT_LIFE_ALONE: &[Action] = &[
    Action::Insert,
    Action::Remove,
    Action::Flag,
    Action::Complete(SUCCESS),
    Action::Reuse(true),
    Action::Insert,
    Action::Take(3),
    Action::Remove,
    Action::Complete(SUCCESS),
    Action::FindUnflagged(By::Canceller, SECOND, Some(SUCCESS)),
    Action::FindRest,
];

/// The take comes between the reuse and the next insert.
const A_LATE_TAKE_COMES_BEFORE_THE_INSERT: &[Action] = &[
    Action::Insert,
    Action::Remove,
    Action::Flag,
    Action::Complete(SUCCESS),
    Action::Reuse(true),
    // The routine's word is still of the old life: no reuse renews it.
    Action::Take(0),
    Action::Insert,
    Action::FindUnflagged(By::Canceller, SECOND, None),
    Action::FindRest,
];

const EACH_PASS_READS_THE_STATUS_OF_A_COMPLETION: &[Action] = &[
    Action::Insert,
    Action::Remove,
    Action::FindUnflagged(By::Canceller, FIRST, None),
    Action::Complete(DEVICE_ERROR),
    Action::FindUnflagged(By::Inserter, FIRST, Some(DEVICE_ERROR)),
    Action::FindUnflagged(By::Canceller, FIRST, Some(DEVICE_ERROR)),
    Action::FindUnflagged(By::Remover, FIRST, Some(DEVICE_ERROR)),
    Action::Look(DEVICE_ERROR),
    Action::RenewStatus(DEVICE_ERROR),
    Action::Find(By::Canceller, (FIRST, false), (SECOND, None)),
    Action::RenewCancel(false),
    Action::FindUnflagged(By::Remover, SECOND, None),
];

/// What was put back is in the same life, and has no status. Its next life begins by a reuse, as ever.
const A_PUT_BACK_BEGINS_NO_LIFE: &[Action] = &[
    Action::Insert,
    Action::Remove,
    Action::PutBack,
    Action::FlagStale(SIXTH, false),
    Action::FindUnflagged(By::Canceller, FIFTH, None),
    Action::Remove,
    Action::Complete(SUCCESS),
    Action::FindUnflagged(By::Canceller, FIFTH, Some(SUCCESS)),
    Action::Reuse(false),
    Action::Insert,
    Action::FlagStale(FIFTH, false),
    Action::FindUnflagged(By::Canceller, SIXTH, None),
];

/// No status word is larger than that of the largest status in the last life.
const THE_LARGEST_STATUS_IS_READ_IN_THE_LAST_LIFE: &[Action] = &[
    Action::Insert,
    Action::Remove,
    Action::Complete(LARGEST),
    Action::LookAlone(Some(LARGEST)),
    Action::FindUnflagged(By::Canceller, LAST, Some(LARGEST)),
];

const LIVES: &[(Life, &[Action])] = &[
    (FIFTH, CANCELS_COME_BETWEEN_THE_RENEWALS),
    (FIFTH, A_STALE_FLAG_CHANGES_NO_WORD),
    (FIFTH, A_STALE_FLAG_FINDS_THE_FLAG_OF_THE_PRESENT_LIFE),
    (LAST, THE_LAST_LIFE_IS_NOT_RENEWED),
    (LAST_BUT_ONE, THE_LIFE_BEFORE_THE_LAST_IS_RENEWED),
    (FIRST, A_LATE_TAKE_LEAVES_THE_NEXT_LIFE_ALONE),
    (FIRST, A_LATE_TAKE_COMES_BEFORE_THE_INSERT),
    (FIRST, EACH_PASS_READS_THE_STATUS_OF_A_COMPLETION),
    (FIFTH, A_PUT_BACK_BEGINS_NO_LIFE),
    (LAST, THE_LARGEST_STATUS_IS_READ_IN_THE_LAST_LIFE),
];

#[test]
fn an_irp_is_used_again(rt: HostRuntime) {
    play(&rt, LIVES);
}
