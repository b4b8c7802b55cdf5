//! What holds of every schedule, and of every script. Each function stands for a law: its contract is the
//! law, and there is nothing to run.
ghost use Rattle.std.specs.Prelude.{ℕ, Bool, List};
ghost use Rattle.irp_core.specs.Runs.{Size};
ghost use Rattle.csq_words.specs.Queue.{Limits};
ghost use Rattle.csq_replay.specs.Laws.{HasOneAnswer, HasOneScriptAnswer, EachInsertedIrpIsAccountedFor};

/// A schedule has at most one answer, so the relation that `answer_schedule` meets names its bytes.
pub fn a_schedule_has_one_answer()
    ensures { (size : Size) (claims : Bool) (input : List ℕ) → HasOneAnswer size claims input }
{}

/// A script has at most one answer, so the relation that `answer_script` meets names its bytes.
pub fn a_script_has_one_answer()
    ensures { (l : Limits) (input : List ℕ) → HasOneScriptAnswer l input }
{}

/// The answer to a script that is handled to its end closes with the lines of what the calls of its lines
/// led to: the list of the queue of one thread, and what is held and owed. There, each life of an IRP that
/// an insert accepted is listed, held, or completed with the status that the script is given for it.
pub fn each_inserted_irp_is_accounted_for()
    ensures { (l : Limits) → EachInsertedIrpIsAccountedFor l }
{}
