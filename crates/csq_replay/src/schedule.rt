//! Schedules: steps of passes.
pub(crate) mod closing;
pub(crate) mod outcome;
pub(crate) mod step_line;
