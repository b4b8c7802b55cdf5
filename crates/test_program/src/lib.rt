//! Tests of csq_replay, csq_explain, csq_draw, csq_device and csq_program by what no command line of csqsim can do:
//! readers and writers that fail, allocators that refuse, gates that hold a device's threads up, and values that are
//! made by hand. Whole command lines, with all that comes of them, are rows of `outside/run-tests`. There is no other
//! code here.
#![tactic(auto)]

#[cfg(test)]
mod tests;
