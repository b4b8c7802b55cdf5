//! What happened to each IRP of a queue, and what its passes have seen. Each function stands for a law: its
//! contract is the law, and there is nothing to run.
ghost use Rattle.csq_queue.specs.Stories.{EachIrpSeenIsGivenOnce, EachIrpLeftHasAStory, EachIrpOfAnOpenQueueHasAStory, EachStayLeftHasAStory, EachStayInAnOpenQueueHasAStory, ClosingPassesSeeOneHistory, PassesOfAnOpenQueueSeeOneHistory};
ghost use Rattle.csq_queue.specs.Order.{CallsAreOrdered, CallsComeAfterWhatWasSeen, StepsComeAfterWhatWasSeen, CallsToldOfCameFirst, EventsLeftStandInOrder, EventsOfAnOpenQueueStandInOrder};
ghost use Rattle.csq_queue.specs.Bounds.{CallsAreShort};
ghost use Rattle.csq_queue.specs.Moments.{CallsAreInRealTime, CallsLeftAreInRealTime, CallsOfAnOpenQueueAreInRealTime};

/// If the history and the run that a pass has seen agree, as after each of its calls under the lock: an IRP,
/// in each of its lives, was inserted by at most one pass and given to at most one, since it was last put
/// back. By that run this one made the one exchange that took its routine since then, and none but this one
/// completed it.
pub fn each_irp_seen_is_given_once()
    ensures { EachIrpSeenIsGivenOnce }
{}

/// If `Csq::close` or `Csq::close_with` returns `Ok`, the history of all calls and the execution of all
/// passes, which are left, give one story of each IRP in each life that has begun. It was never inserted. Or
/// one pass inserted it, and it is listed. Or one pass inserted it, and one pass was given it, by a removal, by
/// a cancel or by its own insert: that pass made the one exchange that took its routine and the one completion,
/// with the status that it recorded. In the present life that is the status that is left. If the IRP was put
/// back, this is the story since then, and whoever put it back last stands for whoever inserted it.
pub fn each_irp_left_has_a_story()
    ensures { EachIrpLeftHasAStory }
{}

/// The same if `OpenQueue::close` returns, of the history that the queue had.
pub fn each_irp_of_an_open_queue_has_a_story()
    ensures { EachIrpOfAnOpenQueueHasAStory }
{}

/// If `Csq::close` or `Csq::close_with` returns `Ok`, so has each earlier stay of an IRP in the queue, which a
/// put-back ended: one pass had inserted the IRP, or put it back before, and it was given to one pass, which put
/// it back.
pub fn each_stay_left_has_a_story()
    ensures { EachStayLeftHasAStory }
{}

/// The same if `OpenQueue::close` returns, of the history that the queue had.
pub fn each_stay_in_an_open_queue_has_a_story()
    ensures { EachStayInAnOpenQueueHasAStory }
{}

/// If `Csq::close` or `Csq::close_with` returns `Ok`, the closing pass and those of the receipts have seen
/// one history and one execution: these begin with what each has seen, and have of each pass the calls and the
/// steps that it made, in the order in which it made them. So of what two of them have seen, one begins with the
/// other.
pub fn closing_passes_see_one_history()
    ensures { ClosingPassesSeeOneHistory }
{}

/// The same if `OpenQueue::close` returns, of all passes that came back, and the history that the queue had.
pub fn passes_of_an_open_queue_see_one_history()
    ensures { PassesOfAnOpenQueueSeeOneHistory }
{}

/// The calls under the lock that add an event are in one order, that of the history: a call comes before another
/// that found a history which begins with the one that it left. If a pass learned what another had seen when a call
/// returned (`Csq::seen`, `Csq::learn`), by however many hands, its calls come after that one; so does a later call
/// of the same pass. In the history the events of both stand in this order, each where its own call left them. Of
/// two calls of different passes that stand in one history, one comes before the other.
pub fn calls_are_ordered()
    ensures { CallsAreOrdered }
{}

/// Whatever its pass had seen of the history before it, a call comes after it, and so do the calls of a cleanup.
/// What was seen may have been handed on by a caller of any call, with the lock or without it.
pub fn calls_come_after_what_was_seen()
    ensures { CallsComeAfterWhatWasSeen }
{}

/// Whatever its pass had seen of the execution before it, the steps of a call under the lock come after it. Of a
/// call without the lock its own contract says so.
pub fn steps_come_after_what_was_seen()
    ensures { StepsComeAfterWhatWasSeen }
{}

/// If `Csq::close` or `Csq::close_with` returns `Ok`, a call of the closing pass, or of one whose receipt is
/// shown, stands in the history that is left after each call that it was told of.
pub fn calls_told_of_came_first()
    ensures { CallsToldOfCameFirst }
{}

/// The calls under the lock are in real time: if one had returned before another began, it comes before it. That it had
/// returned is said of a moment between the two, at which the rule of the words holds (as it does at each): the pass of
/// the one has seen by then what its call left, and that of the other has the record that its call begins with. Nobody
/// needs to have been told of anything.
pub fn calls_are_in_real_time()
    ensures { CallsAreInRealTime }
{}

/// If `Csq::close` or `Csq::close_with` returns `Ok`, the calls of the closing pass, and of those whose receipts are
/// shown, stand in the history that is left in real time.
pub fn calls_left_are_in_real_time()
    ensures { CallsLeftAreInRealTime }
{}

/// The same if `OpenQueue::close` returns, of all passes, and the history that the queue had.
pub fn calls_of_an_open_queue_are_in_real_time()
    ensures { CallsOfAnOpenQueueAreInRealTime }
{}

/// If `Csq::close` or `Csq::close_with` returns `Ok`, the history that is left is that of the execution that is
/// left: each of its events stands at a step of its own pass, in the order of these steps, and each step under the
/// lock has its events there. Only the events of calls that make no step (a refused insert, a closed file object)
/// stand between two steps.
pub fn events_left_stand_in_order()
    ensures { EventsLeftStandInOrder }
{}

/// The same if `OpenQueue::close` returns, of the history that the queue had.
pub fn events_of_an_open_queue_stand_in_order()
    ensures { EventsOfAnOpenQueueStandInOrder }
{}

/// Each call makes a bounded number of atomic steps. Without the lock: a cancel two (its flag and its take), a completion
/// one. Under the lock: an insert and a put-back three, a removal of one IRP two, a cancel routine and a reuse one (its
/// renewal is one step, of two exchanges), and a removal of the next match one more than the matches that it passes
/// over, which are at most as many as the list may hold.
pub fn calls_are_short()
    ensures { CallsAreShort }
{}
