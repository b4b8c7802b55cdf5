//! A queue for callers that hold a lock of their own and keep no tokens: each pass knows which IRPs it
//! holds and owes, and refuses to complete any other. Beside such a queue the calls of a driver are judged.
#![tactic(auto)]

mod calls;
mod idle;
pub mod judge;
pub mod laws;
mod looks;
mod pass;
mod queue;
mod size;
mod slots;
mod unlocked;

pub use calls::{CheckedReuseRefused, PutBackRefused};
pub use csq_list::{AnyList, ListKind};
pub use pass::CheckedPass;
pub use queue::CheckedQueue;
pub use size::{PassRefused, QueueSize};
pub use unlocked::{CompleteRefused, RoutineRefused};
