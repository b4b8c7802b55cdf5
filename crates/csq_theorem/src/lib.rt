//! The theorem of the queue, for whoever wants to read it alone: `specs/Headline.antt` says it over the atomic steps and
//! the queue of one thread.
#![tactic(auto)]

pub mod laws;
