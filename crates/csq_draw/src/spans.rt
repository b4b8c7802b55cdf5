//! The lines that run down the column of a pass while it owes an IRP, or holds it.
ghost use Rattle.std.specs.Prelude.{◌≤◌};

use crate::layout::{left, top};
use crate::owners::Owner;
use std::fmt;

/// How the line of an owner ends.
#[derive(Clone, Copy)]
pub(crate) enum LineEnd {
    /// In the middle of the row of the step that ended the owner's time with the IRP.
    Step,
    /// At the upper edge of the first row that the protocol refuses.
    Refusal,
    /// At the upper edge of the row below all steps.
    Last,
}

/// How far below the upper edge of its last row a line ends.
fn line_edge(end: LineEnd) -> u64
    ensures { result ≤ 30 }
{
    match end {
        LineEnd::Step => 30,
        LineEnd::Refusal | LineEnd::Last => 0,
    }
}

/// When a line ends whose end isn't that of the owner's time with the IRP.
fn line_end(end: LineEnd) -> &'static str {
    match end {
        LineEnd::Step => "",
        LineEnd::Refusal => " up to the refused step",
        LineEnd::Last => " in the end",
    }
}

/// A line from the row on which an owner came to have an IRP to the one on which it ends.
#[derive(Clone, Copy)]
pub(crate) struct Span {
    pub(crate) column: u32,
    pub(crate) owner: Owner,
    pub(crate) to: u32,
    pub(crate) end: LineEnd,
}

impl fmt::Display for Span {
    fn fmt<W: fmt::Write>(&self, f: &mut fmt::Formatter<W>) -> fmt::Result {
        let owner = self.owner;
        let (name, pass, having) = (owner.name, owner.pass, owner.having);
        let colour = name.irp.0 % 8;
        let lane = left(self.column) + 236 + 5 * u64::from(owner.lane);
        let (from, to) = (top(owner.row) + 30, top(self.to) + line_edge(self.end));
        let end = line_end(self.end);
        write!(
            f,
            "<path class='k{colour} {having}' d='M{lane} {from}V{to}'>"
        )?;
        write!(f, "<title>{pass} {having} IRP {name}{end}</title></path>")
    }
}
