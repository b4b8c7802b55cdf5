//! An arrow from the step that wrote a word to the one that found it.
ghost use Rattle.std.specs.Prelude.{◌≡◌};
ghost use Rattle.csq_draw.specs.Arrows.{found_in, found_at};

use crate::irps::{IrpNow, Spot};
use crate::layout::{left, top};
use crate::rows::Row;
use irp_core::{Kind, Made};
use std::fmt;

/// An arrow to a step in one column from a step in another.
#[derive(Clone, Copy)]
pub(crate) struct Arrow {
    pub(crate) from_column: u32,
    pub(crate) from: Spot,
    pub(crate) column: u32,
    pub(crate) row: u32,
    pub(crate) line: usize,
}

/// The step that wrote what a step of an IRP found set, of what was known of the IRP before.
fn found_in(before: IrpNow, made: Made) -> Option<Spot>
    ensures { result ≡ found_in before made.kind made.found }
{
    match made.kind {
        Kind::Test(_) | Kind::Flag(_) if made.found == 1 => before.flag,
        Kind::Disarm(_) | Kind::Take(_) if made.found == 1 => before.routine,
        _ => None,
    }
}

/// The step that wrote what the step of a row found set.
pub(crate) fn found_at(before: IrpNow, row: Row) -> Option<Spot>
    ensures { result ≡ found_at before row }
{
    found_in(before, row.step.made)
}

/// The side of a box in one column that faces another one.
fn side(column: u32, other: u32) -> u64 {
    if column < other {
        left(column) + 220
    } else {
        left(column) + 8
    }
}

/// The middle of the space beside a column, on the side that faces another one.
fn gutter(column: u32, other: u32) -> u64 {
    if column < other {
        left(column) + 256
    } else {
        left(column) - 28
    }
}

/// Whether no box stands between two columns.
fn is_near(column: u32, other: u32) -> bool {
    u64::from(column) <= u64::from(other) + 1 && u64::from(other) <= u64::from(column) + 1
}

/// The way of an arrow past the boxes between its columns.
#[derive(Clone, Copy)]
struct Detour(Arrow);

/// Beside its column to the upper edge of its row, along that, and on beside the other column; nothing for columns that
/// have no other between them.
impl fmt::Display for Detour {
    fn fmt<W: fmt::Write>(&self, f: &mut fmt::Formatter<W>) -> fmt::Result {
        let (from, to) = (self.0.from_column, self.0.column);
        if is_near(from, to) {
            return Ok(());
        }
        let (x, y, other) = (gutter(from, to), top(self.0.row), gutter(to, from));
        write!(f, "{x} {y}H{other}L")
    }
}

/// It runs between the facing sides of the two boxes, past those between.
impl fmt::Display for Arrow {
    fn fmt<W: fmt::Write>(&self, f: &mut fmt::Formatter<W>) -> fmt::Result {
        let x = side(self.from_column, self.column);
        let (y, detour) = (top(self.from.row) + 30, Detour(*self));
        write!(f, "<path class='a' d='M{x} {y}L{detour}")?;
        let x = side(self.column, self.from_column);
        let y = top(self.row) + 30;
        let (line, from) = (self.line, self.from.line);
        write!(
            f,
            "{x} {y}'><title>line {line} found what line {from} wrote</title></path>"
        )
    }
}
