//! What no contract says: that a queue can be made and closed, what its calls return one after the other, and
//! which causes come first. `c/tests` has the rows of what C can show, over both lists.
mod calls;
mod conclusions;
mod making;
mod memory;
mod open;
mod passes;
mod put_backs;
mod queues;
mod single_pass;
