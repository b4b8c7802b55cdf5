//! The program `csqsim`: its command line, and what its commands do.
#![tactic(auto)]

mod answer;
mod command;
mod cut;
mod device_run;
mod draw_options;
mod gate;
mod help;
mod program;
mod replay;
mod run_options;
mod source;
mod stream;
mod totals_text;
mod visible;

pub use answer::{answer_schedule, answer_script, write_drawing, write_schedule, write_script};
pub use command::{CommandFault, Job, read_command, refuse_bytes};
pub use device_run::{RunFault, answer_run};
pub use draw_options::{CrossedLines, NoSuchIrp};
pub use program::{ProgramFault, run_program, status_of};
pub use run_options::TooManyBusyWorkers;
pub use source::{Source, SourceFault};
