//! What the three passes do, as values.

use super::ZERO;
use super::fixture::{By, Case, Status};
use irp_core::{IrpPlace, Life, NtStatus, PassId, StepRefused};
use std::process::Abort;

/// What a pass does with the IRP, and what it has to find.
#[derive(Clone, Copy)]
pub(super) enum Action {
    // Pass 1 sets the routine of the IRP, which it lists.
    Arm,
    // It finds the flag clear, and the IRP is pending.
    FindClear,
    // It finds the flag set.
    FindSet,
    // It exchanges the routine, and finds this word.
    TakeBack(u64),
    // It completes what it took back.
    CompleteOwn,
    // A whole insert, of which the IRP is pending.
    Insert,
    // It begins a reuse, and finds this status.
    Look(NtStatus),
    // It renews the status, which is this one.
    RenewStatus(NtStatus),
    // It renews the Cancel flag, which is set or clear before. The next life begins.
    RenewCancel(bool),
    // A whole reuse after a success, whose Cancel flag is set or clear before.
    Reuse(bool),
    // It looks for a reuse in the last life, finds this status, and begins none.
    LookAlone(Option<NtStatus>),
    // Pass 2 flags the IRP.
    Flag,
    // It exchanges the routine, and finds this word.
    Take(u64),
    // It takes out what it owes, and completes it.
    Finish,
    // It flags a life that isn't the present one; the flag of the present life is set or clear.
    FlagStale(Life, bool),
    // Pass 3 removes the IRP.
    Remove,
    // It finds that the routine was taken, and removes nothing.
    FindTaken,
    // It completes what it removed, with this status.
    Complete(NtStatus),
    // It puts back what it removed, whose routine it sets again.
    Rearm,
    // It finds the flag clear, and the IRP is pending.
    FindClearAgain,
    // It finds the flag set.
    FindSetAgain,
    // It exchanges the routine, and finds this word.
    TakeBackAgain(u64),
    // It completes what it took back.
    CompleteTakenBack,
    // A whole put-back, of which the IRP is pending.
    PutBack,
    // A pass reads this life and Cancel flag, and this life and status.
    Find(By, (Life, bool), Status),
    // It reads this life of both, a clear Cancel flag, and this status.
    FindUnflagged(By, Life, Option<NtStatus>),
    // The IRP is completed by this pass with this status, and was flagged.
    FindCompleted(By, NtStatus),
    // The machine refuses to end the present life.
    RefuseRenewal(StepRefused),
    // Nothing is left to do.
    FindRest,
}

impl Case {
    /// The machine and another pass find that the flagged IRP was completed.
    fn find_completed(&mut self, rt: &impl Abort, by: By, status: NtStatus) {
        let place = IrpPlace::Completed(status, PassId(by.number()));
        assert!(rt; self.machine.place(ZERO) == Some(place));
        let reader = match by {
            By::Canceller => By::Inserter,
            _ => By::Canceller,
        };
        let life = self.life;
        self.find(rt, reader, (life, true), (life, Some(status)));
    }

    /// Does it.
    fn act(&mut self, rt: &impl Abort, action: Action) {
        match action {
            Action::Arm => self.arm(rt),
            Action::FindClear => self.find_clear(rt),
            Action::FindSet => self.find_set(rt),
            Action::TakeBack(word) => self.take_back(rt, word),
            Action::CompleteOwn => self.complete_own(rt),
            Action::Insert => self.insert(rt),
            Action::Look(due) => self.look(rt, due),
            Action::RenewStatus(due) => self.renew_status(rt, due),
            Action::RenewCancel(set) => self.renew_cancel(rt, set),
            Action::Reuse(set) => self.reuse(rt, set),
            Action::LookAlone(due) => self.look_alone(rt, due),
            Action::Flag => self.flag(rt),
            Action::Take(word) => self.take(rt, word),
            Action::Finish => self.finish(rt),
            Action::FlagStale(life, set) => self.flag_stale(rt, life, set),
            Action::Remove => self.remove(rt),
            Action::FindTaken => self.find_taken(rt),
            Action::Complete(status) => self.complete(rt, status),
            Action::Rearm => self.rearm(rt),
            Action::FindClearAgain => self.find_clear_again(rt),
            Action::FindSetAgain => self.find_set_again(rt),
            Action::TakeBackAgain(word) => self.take_back_again(rt, word),
            Action::CompleteTakenBack => self.complete_taken_back(rt),
            Action::PutBack => self.put_back(rt),
            Action::Find(by, flag, status) => self.find(rt, by, flag, status),
            Action::FindUnflagged(by, life, status) => {
                self.find(rt, by, (life, false), (life, status))
            }
            Action::FindCompleted(by, status) => self.find_completed(rt, by, status),
            Action::RefuseRenewal(cause) => self.refuse_renewal(rt, cause),
            Action::FindRest => assert!(rt; self.machine.at_rest()),
        }
    }
}

fn act_on(rt: &impl Abort, case: &mut Case, actions: &[Action]) {
    for action in actions {
        case.act(rt, *action);
    }
}

/// Does each row's actions with an IRP that is home in the row's life.
pub(super) fn play<R: AllocGlobal + Abort>(rt: &R, rows: &[(Life, &[Action])]) {
    for (first, actions) in rows {
        let mut case = Case::begin(rt, *first);
        act_on(rt, &mut case, actions);
    }
}
