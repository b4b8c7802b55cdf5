//! What holds of every explanation, of a schedule and of a script, and of the words that wrong orders go by. Each
//! function stands for a law: its contract is the law, and there is nothing to run.
ghost use Rattle.std.specs.Prelude.{ℕ, Bool, List, []};
ghost use Rattle.irp_core.specs.Runs.{Size, IsRun, EachRunFrom};
ghost use Rattle.csq_words.specs.Queue.{Limits};
ghost use Rattle.csq_explain.specs.declared.line_steps.LineStep.{LineStep};
ghost use Rattle.csq_explain.specs.LineSteps.{made_in};
ghost use Rattle.csq_explain.specs.Laws.{HasOneExplanation, HasOneScriptExplanation, TheWordsAreTheRuns, EachNextStepFindsTheWords, NothingGoesWrongAtRest, BrokenLawsAreHarms};

/// A schedule has at most one explanation, so the relation that `answer_schedule` meets names its bytes.
pub fn a_schedule_has_one_explanation()
    ensures { (size : Size) (claims : Bool) (input : List ℕ) → HasOneExplanation size claims input }
{}

/// A script has at most one explanation, so the relation that `answer_script` meets names its bytes.
pub fn a_script_has_one_explanation()
    ensures { (l : Limits) (input : List ℕ) → HasOneScriptExplanation l input }
{}

/// As long as the protocol is kept, the words of each IRP are those that the protocol says its present life has.
pub fn the_words_are_those_of_the_run()
    ensures { EachRunFrom TheWordsAreTheRuns }
{}

/// As long as the protocol is kept, the next step that it allows, with the value that it says that one finds, is the step
/// by the words.
pub fn each_next_step_finds_the_words()
    ensures { (size : Size) (V : List LineStep) → IsRun size (made_in V)
        → EachNextStepFindsTheWords size V }
{}

/// In an execution that has come to rest nothing goes wrong.
pub fn nothing_goes_wrong_at_rest()
    ensures { (size : Size) (V : List LineStep) → IsRun size (made_in V) → NothingGoesWrongAtRest size V }
{}

/// If an order ends with a life that was completed twice, or was completed and is still listed or armed, or is flagged and
/// listed and owed by no pass, something is reported.
pub fn each_broken_law_is_a_harm()
    ensures { (irps : ℕ) (W U : List LineStep) → BrokenLawsAreHarms irps W U }
{}
