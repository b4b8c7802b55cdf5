//! An allocator that refuses one of its calls, for tests of what a caller does then.
#![tactic(auto)]

mod heap;

pub use heap::{Ration, RefusingHeap};
