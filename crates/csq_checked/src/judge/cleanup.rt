//! What a driver's `IRP_MJ_CLEANUP` leaves in its queue.
ghost use Rattle.std.specs.Prelude.{◌≡◌, ◌↔◌, None};
ghost use Rattle.csq_checked.specs.Cleanups.{cleanup_verdict, first_left, is_excused};
ghost use Rattle.csq_checked.specs.Passes.{listed};
ghost use Rattle.csq_checked.specs.declared.judge.cleanup.CleanupVerdict.TheVariants.{Clean};

use super::list::match_after;
use crate::queue::CheckedQueue;
use csq_list::Peek;
use irp_core::{FileId, IrpId};

/// What is to be said of a cleanup. Own rule.
#[derive(Clone, Copy, Debug, PartialEq, Eq)]
pub enum CleanupVerdict {
    /// It left nothing of its file object in the queue, except what it may leave.
    Clean,
    /// It left this IRP, the first of them.
    Leaves(IrpId),
}

/// Looks for what a driver's `IRP_MJ_CLEANUP` left of its file object in the queue, whose lock the caller has.
///
/// `excused` has the numbers of IRPs that it may leave, in any order: those that a canceller has, and those that
/// were queued after it began. Nothing is left of an unknown file object. Own rule, after the page of
/// `IRP_MJ_CLEANUP` in the WDK.
pub fn judge_cleanup(queue: &CheckedQueue, file: FileId, excused: &[u32]) -> CleanupVerdict
    ensures clean { (result ≡ Clean) ↔ (first_left excused.now file (listed queue.now) ≡ None) }
    ensures verdict { result ≡ cleanup_verdict (first_left excused.now file (listed queue.now)) }
{
    match find_left(queue, file, excused) {
        Some(irp) => CleanupVerdict::Leaves(irp),
        None => CleanupVerdict::Clean,
    }
}

/// The first IRP of a file object that isn't excused.
fn find_left(queue: &CheckedQueue, file: FileId, excused: &[u32]) -> Option<IrpId>
    ensures { result ≡ first_left excused.now file (listed queue.now) }
{
    // No search has more matches than IRPs are listed, so the search ends before the bound.
    let mut at = None;
    'matches: for _ in 0..queue.len() {
        let Some(irp) = match_after(queue, at, Peek::File(file)) else {
            return None;
        };
        if !may_stay(excused, irp) {
            return Some(irp);
        }
        at = Some(irp);
    }
    None
}

/// Whether a cleanup may leave an IRP.
fn may_stay(excused: &[u32], irp: IrpId) -> bool
    ensures { result ≡ is_excused excused.now irp }
{
    excused.iter().any(|number| *number == irp.0)
}
