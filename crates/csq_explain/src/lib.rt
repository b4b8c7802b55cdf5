//! The answers to schedules and scripts of a cancel-safe IRP queue, and each of their lines in a sentence.
#![tactic(auto)]

mod call_sentences;
mod endings;
mod execution;
mod explanation;
mod harms;
mod irp_record;
mod irps;
mod laws;
mod line_steps;
mod order;
mod passes;
mod reasons;
mod script_endings;
mod script_explanation;
mod sentences;
mod word_values;
mod words;
mod wrong;

pub use call_sentences::{AnsweredCall, CallStopSentence};
pub use endings::{IrpSentence, RestSentence};
pub use execution::{Closing, Execution, Explained};
pub use explanation::Explanation;
pub use harms::{Harm, HarmAt, NO_HARM};
pub use irps::{IrpState, LastMove};
pub use laws::{
    a_schedule_has_one_explanation, a_script_has_one_explanation, each_broken_law_is_a_harm,
    each_next_step_finds_the_words, nothing_goes_wrong_at_rest, the_words_are_those_of_the_run,
};
pub use line_steps::LineStep;
pub use order::Order;
pub use passes::PassNow;
pub use reasons::Reason;
pub use script_explanation::ScriptExplanation;
pub use sentences::{DueStatus, InsertWord, Sentence, StatusName, StepInCall};
pub use word_values::WordValues;
pub use words::{CALLS, STEPS};
pub use wrong::{WrongOrder, add_harms, goes_on, why_ended};
