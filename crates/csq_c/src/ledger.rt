//! The calls of `csq_ledger.h`.

mod codes;
pub(crate) mod ends;
pub(crate) mod looks;
pub(crate) mod requests;
pub(crate) mod shapes;
