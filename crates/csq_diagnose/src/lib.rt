//! Diagnoses of schedules and scripts: which line ended the handling, in which column, what stands there and
//! what may stand there, or why its step is refused.
#![tactic(auto)]

mod diagnosed;
mod drawing;
mod expected;
mod found;
mod grammar;
mod malformed;
mod misfit;
mod nearest;
mod refused;
mod schedule;
mod script;
mod source;
mod texts;

pub use diagnosed::{Diagnose, Report, report_input};
pub use drawing::report_drawing;
pub use expected::Expected;
pub use found::Found;
pub use grammar::Grammar;
pub use malformed::Malformed;
pub use misfit::Misfit;
pub use nearest::Near;
pub use schedule::{report_schedule, report_wrong_order};
pub use script::report_script;
