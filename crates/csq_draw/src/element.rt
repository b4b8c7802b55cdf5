//! The elements of a picture.
use crate::arrows::Arrow;
use crate::bars::Bars;
use crate::calls::CallLine;
use crate::circles::WordColumns;
use crate::ending::{Below, BelowRows};
use crate::harm_marks::HarmMark;
use crate::heading::Column;
use crate::layout::{left, top};
use crate::marks::{Mark, Number, Shade};
use crate::spans::Span;
use std::fmt;

/// An element of a picture, which stands on a line of its own.
#[derive(Clone, Copy)]
pub(crate) enum Element {
    /// What the numbers at the left are.
    Lines,
    /// The names of the two words of an IRP over their columns.
    WordColumns(WordColumns),
    /// The name of a pass over its column.
    Column(Column),
    /// The number of a line.
    Number(Number),
    /// Who has the lock at a step.
    Shade(Shade),
    /// A time with an IRP.
    Span(Span),
    /// The words of an IRP between two of its steps.
    Bars(Bars),
    /// Which step wrote what a step found.
    Arrow(Arrow),
    /// A step.
    Mark(Mark),
    /// The call that it is of.
    Call(CallLine),
    /// What goes wrong at a step.
    HarmMark(HarmMark),
    /// What stands below this number of rows: the line that ended the handling, or what is reported in the end.
    Below(u32, Below),
}

impl fmt::Display for Element {
    fn fmt<W: fmt::Write>(&self, f: &mut fmt::Formatter<W>) -> fmt::Result {
        match *self {
            Element::Lines => write!(f, "<text class='n s' x='46' y='26'>line</text>"),
            Element::WordColumns(columns) => columns.fmt(f),
            Element::Column(Column { column, pass, rows }) => {
                let (x, bottom) = (left(column) + 114, top(rows));
                write!(f, "<path class='g' d='M{x} 36V{bottom}'/>")?;
                write!(f, "<text class='p' x='{x}' y='26'>{pass}</text>")
            }
            Element::Number(Number { row, line }) => {
                let y = top(row) + 34;
                write!(f, "<text class='n' x='46' y='{y}'>{line}</text>")
            }
            Element::Shade(shade) => shade.fmt(f),
            Element::Span(span) => span.fmt(f),
            Element::Bars(bars) => bars.fmt(f),
            Element::Arrow(arrow) => arrow.fmt(f),
            Element::Mark(mark) => mark.fmt(f),
            Element::Call(line) => line.fmt(f),
            Element::HarmMark(mark) => mark.fmt(f),
            Element::Below(rows, below) => BelowRows(rows, below).fmt(f),
        }
    }
}
