//! Tests of a queue's calls from several threads. There is no other code here.
#![tactic(auto)]

#[cfg(test)]
mod tests;
