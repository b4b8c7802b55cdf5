//! A queue with the bookkeeping of its requests, for callers that hold a lock of their own: which request is
//! under way, for which file object, in which stage, and when it is due.
#![tactic(auto)]

mod by_name;
mod ledger;
mod looks;
mod making;
mod refusals;
mod request;
mod single;

pub use ledger::Ledger;
pub use looks::Counts;
pub use refusals::{BeginRefused, CancelRefused, EndRefused, PutBackRefused, TakeRefused};
pub use request::{Expired, Request};
