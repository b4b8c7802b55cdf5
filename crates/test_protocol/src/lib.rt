//! Tests of what a queue is made of: irp_core's machine beside the definitions, both lists beside a plain one,
//! and interleavings of the words' exchanges beside the machine. Beside the tests there are only the enums
//! that say how far a test's IRP and passes are, since definitions name them.
#![tactic(auto)]

mod states;

pub use states::{Doing, Hand, Stage};

#[cfg(test)]
mod tests;
