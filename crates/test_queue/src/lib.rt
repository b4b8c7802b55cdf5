//! Tests of a queue's calls from one thread, of what a caller can conclude from them, and of what happens when
//! memory is refused: to a machine, words, the lists and a queue. There is no other code here.
#![tactic(auto)]

#[cfg(test)]
mod tests;
