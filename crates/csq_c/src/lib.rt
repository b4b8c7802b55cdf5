//! The cancel-safe queue for programs in C, which bring a lock of their own.
#![tactic(auto)]

mod body;
mod codes;
mod ends;
mod handles;
mod hold;
mod judges;
mod ledger;
mod left;
mod locked;
mod looks;
mod passes;
mod queues;
mod replay;
mod shapes;
mod unlocked;
mod uses;
mod version;
