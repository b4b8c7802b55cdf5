//! What is to be said of what a driver does with its queue, beside a queue that is proved: of its answers, of what it
//! removes, completes and inserts again, and of what a cleanup leaves.
mod cleanup;
mod list;
mod peek;
mod remove;
mod uses;

pub use cleanup::{CleanupVerdict, judge_cleanup};
pub use peek::{PeekVerdict, judge_peek};
pub use remove::{RemoveVerdict, judge_remove};
pub use uses::{UseVerdict, judge_complete, judge_insert};
