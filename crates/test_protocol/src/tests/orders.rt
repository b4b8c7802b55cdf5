//! Every order of an insert's arm and test with a cancel's flag and take, of a removal's disarm with
//! them, and of a removal's disarm and a put-back's rearm and test with them. Each goes on to its end:
//! the IRP is completed once, by the pass whose exchange found the routine last.

use super::FIRST;
use super::actions::{Action, play};
use super::fixture::By;
use irp_core::{Life, NtStatus};

/// How each order ends.
const CANCELLED: Action = Action::FindCompleted(By::Canceller, NtStatus::CANCELLED);

const TAKEN_BACK: Action = Action::FindCompleted(By::Inserter, NtStatus::CANCELLED);

const REMOVED: Action = Action::FindCompleted(By::Remover, NtStatus::SUCCESS);

const TAKEN_BACK_AGAIN: Action = Action::FindCompleted(By::Remover, NtStatus::CANCELLED);

/// The insert is pending, and the canceller gets the IRP.
const ARM_TEST_FLAG_TAKE: &[Action] = &[
    Action::Arm,
    Action::FindClear,
    Action::Flag,
    Action::Take(1),
    Action::Finish,
    CANCELLED,
];

/// The insert finds the flag, and the canceller is faster.
const ARM_FLAG_TEST_TAKE: &[Action] = &[
    Action::Arm,
    Action::Flag,
    Action::FindSet,
    Action::Take(1),
    Action::TakeBack(0),
    Action::Finish,
    CANCELLED,
];

/// The insert finds the flag, and is faster.
const ARM_FLAG_TEST_DISARM: &[Action] = &[
    Action::Arm,
    Action::Flag,
    Action::FindSet,
    Action::TakeBack(1),
    Action::Take(0),
    Action::CompleteOwn,
    TAKEN_BACK,
];

/// The canceller gets the IRP before the insert looks.
const ARM_FLAG_TAKE_TEST: &[Action] = &[
    Action::Arm,
    Action::Flag,
    Action::Take(1),
    Action::FindSet,
    Action::TakeBack(0),
    Action::Finish,
    CANCELLED,
];

/// The flag comes first, and the canceller is faster.
const FLAG_ARM_TEST_TAKE: &[Action] = &[
    Action::Flag,
    Action::Arm,
    Action::FindSet,
    Action::Take(1),
    Action::TakeBack(0),
    Action::Finish,
    CANCELLED,
];

/// The flag comes first, and the insert is faster.
const FLAG_ARM_TEST_DISARM: &[Action] = &[
    Action::Flag,
    Action::Arm,
    Action::FindSet,
    Action::TakeBack(1),
    Action::Take(0),
    Action::CompleteOwn,
    TAKEN_BACK,
];

/// The flag comes first, and the canceller gets the IRP before the insert looks.
const FLAG_ARM_TAKE_TEST: &[Action] = &[
    Action::Flag,
    Action::Arm,
    Action::Take(1),
    Action::FindSet,
    Action::TakeBack(0),
    Action::Finish,
    CANCELLED,
];

/// The cancel comes before the insert, which gets the IRP itself.
const FLAG_TAKE_ARM_TEST: &[Action] = &[
    Action::Flag,
    Action::Take(0),
    Action::Arm,
    Action::FindSet,
    Action::TakeBack(1),
    Action::CompleteOwn,
    TAKEN_BACK,
];

/// A removal gets the IRP, and the cancel comes too late.
const DISARM_FLAG_TAKE: &[Action] = &[
    Action::Insert,
    Action::Remove,
    Action::Flag,
    Action::Take(0),
    Action::Complete(NtStatus::SUCCESS),
    REMOVED,
];

/// A removal gets the flagged IRP, and the take comes too late.
const FLAG_DISARM_TAKE: &[Action] = &[
    Action::Insert,
    Action::Flag,
    Action::Remove,
    Action::Take(0),
    Action::Complete(NtStatus::SUCCESS),
    REMOVED,
];

/// The canceller gets the IRP, and the removal leaves it to it.
const FLAG_TAKE_DISARM: &[Action] = &[
    Action::Insert,
    Action::Flag,
    Action::Take(1),
    Action::FindTaken,
    Action::Finish,
    CANCELLED,
];

/// The cancel finds that pass 3 has the IRP, and the put-back finds the flag.
const FLAG_DISARM_TAKE_REARM_TEST: &[Action] = &[
    Action::Insert,
    Action::Flag,
    Action::Remove,
    Action::Take(0),
    Action::Rearm,
    Action::FindSetAgain,
    Action::TakeBackAgain(1),
    Action::CompleteTakenBack,
    TAKEN_BACK_AGAIN,
];

/// The flag comes before the removal, and the canceller gets the IRP before the put-back looks.
const FLAG_DISARM_REARM_TAKE_TEST: &[Action] = &[
    Action::Insert,
    Action::Flag,
    Action::Remove,
    Action::Rearm,
    Action::Take(1),
    Action::FindSetAgain,
    Action::TakeBackAgain(0),
    Action::Finish,
    CANCELLED,
];

/// The flag comes before the removal, and the canceller is faster.
const FLAG_DISARM_REARM_TEST_TAKE: &[Action] = &[
    Action::Insert,
    Action::Flag,
    Action::Remove,
    Action::Rearm,
    Action::FindSetAgain,
    Action::Take(1),
    Action::TakeBackAgain(0),
    Action::Finish,
    CANCELLED,
];

/// The flag comes before the removal, and the put-back is faster.
const FLAG_DISARM_REARM_TEST_DISARM: &[Action] = &[
    Action::Insert,
    Action::Flag,
    Action::Remove,
    Action::Rearm,
    Action::FindSetAgain,
    Action::TakeBackAgain(1),
    Action::Take(0),
    Action::CompleteTakenBack,
    TAKEN_BACK_AGAIN,
];

/// The cancel comes while pass 3 has the IRP, and the put-back finds the flag.
const DISARM_FLAG_TAKE_REARM_TEST: &[Action] = &[
    Action::Insert,
    Action::Remove,
    Action::Flag,
    Action::Take(0),
    Action::Rearm,
    Action::FindSetAgain,
    Action::TakeBackAgain(1),
    Action::CompleteTakenBack,
    TAKEN_BACK_AGAIN,
];

/// The flag comes while pass 3 has the IRP, and the canceller gets it before the put-back looks.
const DISARM_FLAG_REARM_TAKE_TEST: &[Action] = &[
    Action::Insert,
    Action::Remove,
    Action::Flag,
    Action::Rearm,
    Action::Take(1),
    Action::FindSetAgain,
    Action::TakeBackAgain(0),
    Action::Finish,
    CANCELLED,
];

/// The flag comes while pass 3 has the IRP, and the canceller is faster.
const DISARM_FLAG_REARM_TEST_TAKE: &[Action] = &[
    Action::Insert,
    Action::Remove,
    Action::Flag,
    Action::Rearm,
    Action::FindSetAgain,
    Action::Take(1),
    Action::TakeBackAgain(0),
    Action::Finish,
    CANCELLED,
];

/// The flag comes while pass 3 has the IRP, and the put-back is faster.
const DISARM_FLAG_REARM_TEST_DISARM: &[Action] = &[
    Action::Insert,
    Action::Remove,
    Action::Flag,
    Action::Rearm,
    Action::FindSetAgain,
    Action::TakeBackAgain(1),
    Action::Take(0),
    Action::CompleteTakenBack,
    TAKEN_BACK_AGAIN,
];

/// The canceller gets the IRP before the put-back looks.
const REARM_FLAG_TAKE_TEST: &[Action] = &[
    Action::Insert,
    Action::Remove,
    Action::Rearm,
    Action::Flag,
    Action::Take(1),
    Action::FindSetAgain,
    Action::TakeBackAgain(0),
    Action::Finish,
    CANCELLED,
];

/// The put-back finds the flag, and the canceller is faster.
const REARM_FLAG_TEST_TAKE: &[Action] = &[
    Action::Insert,
    Action::Remove,
    Action::Rearm,
    Action::Flag,
    Action::FindSetAgain,
    Action::Take(1),
    Action::TakeBackAgain(0),
    Action::Finish,
    CANCELLED,
];

/// The put-back finds the flag, and is faster.
const REARM_FLAG_TEST_DISARM: &[Action] = &[
    Action::Insert,
    Action::Remove,
    Action::Rearm,
    Action::Flag,
    Action::FindSetAgain,
    Action::TakeBackAgain(1),
    Action::Take(0),
    Action::CompleteTakenBack,
    TAKEN_BACK_AGAIN,
];

/// The put-back is pending, and the canceller gets the IRP, which was left lying.
const REARM_TEST_FLAG_TAKE: &[Action] = &[
    Action::Insert,
    Action::Remove,
    Action::Rearm,
    Action::FindClearAgain,
    Action::FindRest,
    Action::Flag,
    Action::Take(1),
    Action::Finish,
    CANCELLED,
];

/// It was put back twice before.
const PUT_BACK_TWICE_FLAG_TAKE: &[Action] = &[
    Action::Insert,
    Action::Remove,
    Action::PutBack,
    Action::Remove,
    Action::PutBack,
    Action::FindRest,
    Action::Flag,
    Action::Take(1),
    Action::Finish,
    CANCELLED,
];

/// The cancel comes while pass 3 has the IRP again, and its second put-back finds the flag.
const PUT_BACK_DISARM_FLAG_TAKE_REARM_TEST: &[Action] = &[
    Action::Insert,
    Action::Remove,
    Action::PutBack,
    Action::Remove,
    Action::Flag,
    Action::Take(0),
    Action::Rearm,
    Action::FindSetAgain,
    Action::TakeBackAgain(1),
    Action::CompleteTakenBack,
    TAKEN_BACK_AGAIN,
];

/// Pass 3 removes what it put back, and the cancel comes too late.
const PUT_BACK_DISARM_FLAG_TAKE: &[Action] = &[
    Action::Insert,
    Action::Remove,
    Action::PutBack,
    Action::Remove,
    Action::Flag,
    Action::Take(0),
    Action::Complete(NtStatus::SUCCESS),
    REMOVED,
];

const ORDERS: &[(Life, &[Action])] = &[
    (FIRST, ARM_TEST_FLAG_TAKE),
    (FIRST, ARM_FLAG_TEST_TAKE),
    (FIRST, ARM_FLAG_TEST_DISARM),
    (FIRST, ARM_FLAG_TAKE_TEST),
    (FIRST, FLAG_ARM_TEST_TAKE),
    (FIRST, FLAG_ARM_TEST_DISARM),
    (FIRST, FLAG_ARM_TAKE_TEST),
    (FIRST, FLAG_TAKE_ARM_TEST),
    (FIRST, DISARM_FLAG_TAKE),
    (FIRST, FLAG_DISARM_TAKE),
    (FIRST, FLAG_TAKE_DISARM),
    (FIRST, FLAG_DISARM_TAKE_REARM_TEST),
    (FIRST, FLAG_DISARM_REARM_TAKE_TEST),
    (FIRST, FLAG_DISARM_REARM_TEST_TAKE),
    (FIRST, FLAG_DISARM_REARM_TEST_DISARM),
    (FIRST, DISARM_FLAG_TAKE_REARM_TEST),
    (FIRST, DISARM_FLAG_REARM_TAKE_TEST),
    (FIRST, DISARM_FLAG_REARM_TEST_TAKE),
    (FIRST, DISARM_FLAG_REARM_TEST_DISARM),
    (FIRST, REARM_FLAG_TAKE_TEST),
    (FIRST, REARM_FLAG_TEST_TAKE),
    (FIRST, REARM_FLAG_TEST_DISARM),
    (FIRST, REARM_TEST_FLAG_TAKE),
    (FIRST, PUT_BACK_TWICE_FLAG_TAKE),
    (FIRST, PUT_BACK_DISARM_FLAG_TAKE_REARM_TEST),
    (FIRST, PUT_BACK_DISARM_FLAG_TAKE),
];

#[test]
fn every_order_completes_the_irp_once(rt: HostRuntime) {
    play(&rt, ORDERS);
}
