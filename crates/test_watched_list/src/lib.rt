//! A pending list that tells a watch of its calls, and a wait that comes to an end: for tests of threads.
#![tactic(auto)]

mod waiting;
mod watched;

pub use waiting::wait_for;
pub use watched::{Moment, Watch, WatchedList};
