//! Two tables, each with what runs a row: answers, which are held up at each byte and at each call for memory, and
//! devices, whose threads wait for one another. Beside them what no run comes to.
mod answers;
mod devices;
mod gates;
mod held_up;
mod misses;
mod plans;
mod put_backs;
mod refusals;
mod streams;
