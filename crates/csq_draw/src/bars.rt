//! The words of an IRP between two of its steps, as bars.
use crate::layout::{flag_x, routine_x, top};
use csq_explain::WordValues;
use std::fmt;

/// The bars of the two words that an IRP has from a row to the next one that names it, between the circles of the two;
/// or to the end, where they stop at the upper edge of the row below all steps.
#[derive(Clone, Copy)]
pub(crate) struct Bars {
    pub(crate) columns: u32,
    pub(crate) place: u32,
    pub(crate) from: u32,
    pub(crate) to: u32,
    pub(crate) to_the_end: bool,
    pub(crate) words: WordValues,
}

/// A bar is wide if its word is set.
fn set_class(set: bool) -> &'static str {
    if set { "on" } else { "off" }
}

impl fmt::Display for Bars {
    fn fmt<W: fmt::Write>(&self, f: &mut fmt::Formatter<W>) -> fmt::Result {
        let words = self.words;
        let colour = words.name.irp.0 % 8;
        let from = top(self.from) + 38;
        let to = top(self.to) + if self.to_the_end { 0 } else { 22 };
        let (flag, routine) = (set_class(words.flag), set_class(words.routine));
        let x = flag_x(self.columns, self.place);
        write!(
            f,
            "<path class='k{colour} bar {flag}' d='M{x} {from}V{to}'/>"
        )?;
        let x = routine_x(self.columns, self.place);
        write!(
            f,
            "<path class='k{colour} bar {routine}' d='M{x} {from}V{to}'/>"
        )
    }
}
