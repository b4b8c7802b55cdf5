//! The calls of `csq_replay.h`.

mod body;
pub(crate) mod calls;
mod codes;
mod pass_call;
pub(crate) mod shapes;

pub(crate) use crate::replay::body::ReplayBody;
