//! What C reads and writes beside the handle of a ledger.
ghost use Rattle.std.specs.Prelude.{◌≡◌, ◌<◌};
ghost use Rattle.std.specs.Option.{ForSome};
ghost use Rattle.request_table.specs.Times.{due_at};
ghost use Rattle.csq_c.specs.LedgerShapes.{ended_written, look_of, named_number, stage_number, why_number, why_numbered};

use request_table::{Ended, NEVER, Stage, Why};

/// Why a request ends, by its number: none by 0, nor by a number that isn't in `csq_ledger.h`.
pub(crate) fn why_numbered(number: u32) -> Option<Why>
    ensures { result ≡ why_numbered number }
{
    match number {
        1 => Some(Why::Cancel),
        2 => Some(Why::Drain),
        3 => Some(Why::Cleanup),
        4 => Some(Why::QueueFreed),
        5 => Some(Why::Due),
        _ => None,
    }
}

/// When a request is due: never by `NEVER`.
pub(crate) fn due_at(time: u64) -> Option<u64>
    ensures due { result ≡ due_at time }
    ensures time { ForSome result (λ t. t < NEVER) }
{
    if time < NEVER { Some(time) } else { None }
}

/// The number of a reason.
fn why_number(why: Why) -> u32
    ensures { result ≡ why_number why }
{
    match why {
        Why::Cancel => 1,
        Why::Drain => 2,
        Why::Cleanup => 3,
        Why::QueueFreed => 4,
        Why::Due => 5,
    }
}

/// The number of what named a taken request first: 0 if nothing did.
fn named_number(named: Option<Why>) -> u32
    ensures { result ≡ named_number named }
{
    match named {
        Some(why) => why_number(why),
        None => 0,
    }
}

/// The number of a stage: 0 if nothing is under way.
pub(crate) fn stage_number(stage: Stage) -> u32
    ensures { result ≡ stage_number stage }
{
    match stage {
        Stage::Free | Stage::Spent => 0,
        Stage::Listed { .. } => 1,
        Stage::Taken { .. } => 2,
        Stage::Ending { .. } => 3,
    }
}

/// What is known of a request.
#[repr(C)]
#[derive(Clone, Copy)]
pub struct CsqLook {
    /// The number of its stage, or 0 if it isn't under way.
    pub stage: u32,
    /// Its file object, or 0.
    pub file: u32,
    /// The number of the reason why it ends, or of what named it first, or 0.
    pub why: u32,
}

impl CsqLook {
    /// What is known of a request in this stage.
    pub(crate) fn of(stage: Stage) -> CsqLook
        ensures { result ≡ look_of stage }
    {
        let number = stage_number(stage);
        let (file, why) = match stage {
            Stage::Free | Stage::Spent => (0, 0),
            Stage::Listed { file } => (file.0, 0),
            Stage::Taken { file, named } => (file.0, named_number(named)),
            Stage::Ending { file, why } => (file.0, why_number(why)),
        };
        CsqLook {
            stage: number,
            file,
            why,
        }
    }
}

/// The end of a request.
#[repr(C)]
#[derive(Clone, Copy)]
pub struct CsqEnded {
    /// Its file object.
    pub file: u32,
    /// 1 if it was the last one under way for that, otherwise 0.
    pub file_is_quiet: u32,
    /// 1 if it was the last one under way for all, otherwise 0.
    pub all_are_quiet: u32,
}

impl CsqEnded {
    /// Writes how a request ended, if it did.
    pub(crate) fn write(&mut self, ended: Option<Ended>)
        ensures { self.new ≡ ended_written ended self.old }
    {
        if let Some(ended) = ended {
            self.file = ended.file.0;
            self.file_is_quiet = u32::from(ended.file_is_quiet);
            self.all_are_quiet = u32::from(ended.all_are_quiet);
        }
    }
}
