//! Scripts: calls of one pass over a machine and a list.
pub(crate) mod call;
mod call_line;
pub(crate) mod driver;
pub(crate) mod outcome;
pub(crate) mod remains;
mod replies;
