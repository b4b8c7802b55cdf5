//! The words that begin the lines of schedules and scripts.

/// The words that say what a step does, after its pass.
pub const STEPS: [&str; 10] = [
    "arm", "test", "disarm", "end", "flag", "take", "out", "done", "renew", "rearm",
];

/// The words that begin a call of a script.
pub const CALLS: [&str; 13] = [
    "insert", "next", "remove", "mark", "routine", "cancel", "complete", "close", "cleanup",
    "flag", "status", "reuse", "put_back",
];
