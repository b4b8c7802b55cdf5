//! What holds of all calls of a table together. Each function stands for a law: its contract is the law, and
//! there is nothing to run.
ghost use Rattle.request_table.specs.Laws.{EachRequestIsFinishedOnce};

/// Each request that was begun is finished once: over any calls of a table, each number was listed as often
/// as it was finished, or once more while its request is under way.
pub fn each_request_is_finished_once()
    ensures { EachRequestIsFinishedOnce }
{}
