//! Schedules of the steps of a cancel-safe IRP queue, and scripts of its calls: how each line is read, made
//! and answered.
#![tactic(auto)]

mod laws;
mod lines;
mod schedule;
mod script;

pub use laws::{
    a_schedule_has_one_answer, a_script_has_one_answer, each_inserted_irp_is_accounted_for,
};
pub use lines::answer::{Ended, MAX_INPUT, SimFault, exit_status, read_input, write_answer};
pub use lines::names::parse_name;
pub use lines::pieces::{parse_number, parse_status, split_piece};
pub use lines::{Answerer, Ending, Line, MAX_LINE, answer_input, is_skipped};
pub use schedule::closing::{IrpLine, irp_line};
pub use schedule::outcome::{Outcome, Stop, handle_line};
pub use schedule::step_line::parse_pass;
pub use script::call::{CallRefused, Reply, ScriptCall};
pub use script::driver::Driver;
pub use script::outcome::{CallOutcome, CallStop};
pub use script::remains::{Kept, Remains, write_kept, write_left};
