//! The theorem of the queue. Each function stands for a law: its contract is the law, and there is nothing to run.
ghost use Rattle.csq_theorem.specs.Laws.{ClosedQueuesAreCorrect, OpenQueuesAreCorrect, EventsLeftAreOfCalls, EventsOfOpenQueuesAreOfCalls, CallsAreInTheExecution, ExecutionsAreTraces, ExecutionsAreRuns, StaysAreOfTheirExecution};
ghost use Rattle.csq_theorem.specs.Waiting.{ACallWaitsForFewOthers};

/// If `Csq::close` or `Csq::close_with` returns `Ok`, the execution that is left is correct: it is an execution, its
/// history is one of the queue of one thread, in real time, and each request has one story in each life.
pub fn closed_queues_are_correct()
    ensures { ClosedQueuesAreCorrect }
{}

/// So it is if `OpenQueue::close` returns.
pub fn open_queues_are_correct()
    ensures { OpenQueuesAreCorrect }
{}

/// Each pass of a queue that `Csq::close` or `Csq::close_with` closed had seen a beginning of that execution, and its
/// steps and events in it are those of its record. Each call says which events it adds to that, so no event is without
/// its call.
pub fn events_left_are_of_calls()
    ensures { EventsLeftAreOfCalls }
{}

/// So it is of a queue that `OpenQueue::close` closed.
pub fn events_of_open_queues_are_of_calls()
    ensures { EventsOfOpenQueuesAreOfCalls }
{}

/// What a call under the lock promises its caller places the call in the execution: it entered after all that its pass
/// had seen, and its events are the only ones that were added since it entered.
pub fn calls_are_in_the_execution()
    ensures { CallsAreInTheExecution }
{}

/// An execution of the headline is one of the invariant's: it admits no step and no event that this excludes, so the
/// wrong executions that are refuted of the one are none of the other.
pub fn executions_are_traces()
    ensures { ExecutionsAreTraces }
{}

/// The steps of an execution of the headline are a run: so irp_core's laws of runs hold in each execution of the
/// headline.
pub fn executions_are_runs()
    ensures { ExecutionsAreRuns }
{}

/// If the lock is fair, so that passes get it in the order in which they asked for it, then while a pass waits at most
/// one call of each other pass enters. That it is fair is a premise: the lock of the queue needn't be, and `Csq::meet`
/// enters for two passes while it has it.
pub fn a_call_waits_for_few_others()
    ensures { ACallWaitsForFewOthers }
{}

/// If a put-back ends a stay of an IRP in the queue, the story of that stay is one of the execution up to the end of that
/// call: what came later plays no part in it.
pub fn stays_are_of_their_execution()
    ensures { StaysAreOfTheirExecution }
{}
