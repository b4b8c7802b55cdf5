//! Where the request of a number is.
ghost use Rattle.std.specs.Prelude.{◌≡◌};
ghost use Rattle.request_table.specs.Stages.{file_of};

use irp_core::FileId;

/// Why a request ends without a worker, or what named first one that a worker has taken. Own rule.
#[derive(Clone, Copy, Debug, PartialEq, Eq)]
pub enum Why {
    /// It was cancelled by its name.
    Cancel,
    /// Its file object was drained, or all were.
    Drain,
    /// Its file object was closed for good.
    Cleanup,
    /// Its queue is freed.
    QueueFreed,
    /// Its time was over.
    Due,
}

/// The stage of a number. A request is under way while its number is Listed, Taken or Ending. Own rule.
#[derive(Clone, Copy, Debug, PartialEq, Eq)]
pub enum Stage {
    /// No request has the number.
    Free,
    /// The request waits in the queue.
    Listed { file: FileId },
    /// A worker has the request. What named it first is kept, if anything did.
    Taken { file: FileId, named: Option<Why> },
    /// The request left the queue for this reason, and hasn't ended yet.
    Ending { file: FileId, why: Why },
    /// No request will have the number again.
    Spent,
}

impl Stage {
    /// The file object of a request under way, else None.
    pub fn file(self) -> Option<FileId>
        ensures { result ≡ file_of self }
    {
        match self {
            Stage::Free | Stage::Spent => None,
            Stage::Listed { file } | Stage::Taken { file, .. } | Stage::Ending { file, .. } => {
                Some(file)
            }
        }
    }
}

/// How a request ended: its file object, and whether it was the last one under way for it, and for all.
#[derive(Clone, Copy, Debug, PartialEq, Eq)]
pub struct Ended {
    pub file: FileId,
    pub file_is_quiet: bool,
    pub all_are_quiet: bool,
}
