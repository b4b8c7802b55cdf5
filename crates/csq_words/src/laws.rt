//! What happens to each IRP, and what the passes have seen, whatever the run. Each function stands
//! for a law: its contract is the law, and there is nothing to run.
ghost use Rattle.csq_words.specs.Stories.{EachIrpHasAStory, EachIrpIsGivenOnce, EachStayHasAStory, NoIrpHasTwoStories, JoinedPassesSeeOneHistory, PassesBackSeeOneHistory, PassesAtTheEndSeeOneHistory, StoriesHaveTheStatusRecorded};
ghost use Rattle.csq_words.specs.Traces.{EventsStandInOrder, HistoriesAreInRealTime};

/// At every step, in each of its lives, an IRP that isn't just being put back was inserted by at most
/// one pass and given to at most one, since it was last put back: this one made its one claim since
/// then by the run, and none but this one completes it.
pub fn each_irp_is_given_once()
    ensures { EachIrpIsGivenOnce }
{}

/// At every step, each stay of an IRP in the queue that a put-back ended has its story: one pass had
/// inserted the IRP, or put it back before, and it was given to one pass, which put it back.
pub fn each_stay_has_a_story()
    ensures { EachStayHasAStory }
{}

/// If every pass is back, each IRP has one story in each life that has begun: it was never
/// inserted; or one pass inserted it, and it is listed; or one pass inserted it, and it was given
/// to one pass, which made its one claim by the run and its one completion, with the status that it
/// recorded. If it was put back, this is the story since then, and whoever put it back last stands
/// for whoever inserted it.
pub fn each_irp_has_a_story()
    ensures { EachIrpHasAStory }
{}

/// An IRP has no two of these stories in one life: it was never inserted, it is listed, or it has
/// ended.
pub fn no_irp_has_two_stories()
    ensures { NoIrpHasTwoStories }
{}

/// In the story of a life that has ended, whether it is present or over, the status is the one that
/// a pass recorded, and that pass is the one that the IRP was given to.
pub fn stories_have_the_status_recorded()
    ensures { StoriesHaveTheStatusRecorded }
{}

/// The history is that of the execution: each of its events stands at a step of its own pass, in the
/// order of these steps, and each step under the lock has its events there. Events of calls that
/// make no step (a refused insert or put-back, a closed file object) stand between two steps.
pub fn events_stand_in_order()
    ensures { EventsStandInOrder }
{}

/// In every execution the calls under the lock exclude each other, each step under the lock and each event
/// of the history comes while a call of its own pass is on its way, and if one call left before another
/// entered, its events stand before those of the other. This holds by what an execution is; which events
/// are those of a call, and that the call entered after all that its pass had seen, is a clause of that call.
pub fn histories_are_in_real_time()
    ensures { HistoriesAreInRealTime }
{}

/// Passes that were joined with the record of a queue have seen one history and one execution:
/// these begin with what each has seen, and have of each pass the calls and the steps that it made,
/// in the order in which it made them. So of what two passes have seen, one begins with the other.
pub fn joined_passes_see_one_history()
    ensures { JoinedPassesSeeOneHistory }
{}

/// So have all passes that are back, by what the rule says of the queue's record.
pub fn passes_back_see_one_history()
    ensures { PassesBackSeeOneHistory }
{}

/// So have all passes that are back when the words are closed.
pub fn passes_at_the_end_see_one_history()
    ensures { PassesAtTheEndSeeOneHistory }
{}
