//! The bookkeeping of requests over a pool of IRPs: which number is free, listed, taken, ending or spent, for
//! which file object, and when it is due. It has no queue and no lock, and starts no thread.
#![tactic(auto)]

mod dues;
pub mod laws;
mod refusals;
mod stage;
mod table;

pub use dues::NEVER;
pub use refusals::BeginRefused;
pub use stage::{Ended, Stage, Why};
pub use table::{MAX_FILES, RequestTable};
