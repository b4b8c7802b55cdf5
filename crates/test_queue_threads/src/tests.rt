//! What no contract says: that threads which share a queue come to an end, and complete each life once between them,
//! which calls get on while another has the lock, and that a checked queue and its passes go to another thread. The
//! other races of threads are in `c/tests`, over both lists.
mod checked;
mod cleanups;
mod giving_back;
mod held_lock;
mod queues;
mod reuses;
mod signals;
