//! What goes wrong at a step, in red in the box of the step.
ghost use Rattle.std.specs.Prelude.{◌≡◌, ◌≤◌, length, IfOk, OnOk};
ghost use Rattle.csq_draw.specs.Elements.{Drew};
ghost use Rattle.csq_draw.specs.HarmMarks.{first_harm, harm_mark, harm_on, harms_by_line, lines_in, noted_harm, noted_harms, row_harm};
ghost use Rattle.csq_draw.specs.Pictures.{each, harm_marks};

use crate::canvas::{Canvas, draw_each};
use crate::element::Element;
use crate::layout::{left, top};
use crate::passes::column_of;
use crate::rows::Row;
use csq_explain::{Harm, HarmAt, PassNow};
use std::alloc::{AllocError, Allocator};
use std::fmt;

/// What goes wrong at a step.
#[derive(Clone, Copy)]
pub(crate) struct HarmMark {
    pub(crate) row: u32,
    pub(crate) column: u32,
    pub(crate) harm: HarmAt,
}

/// The few words for it: the sentence below the picture says more.
fn harm_words(harm: Harm) -> &'static str {
    match harm {
        Harm::Twice(_) => "completed twice: 0x44",
        Harm::RoutineSet => "routine set: 0x48",
        Harm::TakenOut(_) | Harm::Relisted(_) => "already completed",
        Harm::NotListed => "not in the list",
        Harm::ListedTwice(_) => "already in the list",
        Harm::Reused(_) => "still in the list",
        Harm::OtherLife(_) => "of another life",
        Harm::Stray => "IRP not cancelled",
        Harm::Lost(_) => "its cancel is lost",
        Harm::StillListed(_) => "stays in the list",
    }
}

impl fmt::Display for HarmMark {
    fn fmt<W: fmt::Write>(&self, f: &mut fmt::Formatter<W>) -> fmt::Result {
        let (harm, words) = (self.harm, harm_words(self.harm.harm));
        let (edge, upper) = (left(self.column) + 8, top(self.row) + 4);
        let (end, y) = (edge + 203, upper + 46);
        write!(
            f,
            "<g class='x'><title>{harm}</title><rect x='{edge}' y='{upper}' width='212' height='52' rx='6'/>"
        )?;
        write!(f, "<text x='{end}' y='{y}'>{words}</text></g>")
    }
}

/// One more line than the last of these rows has.
fn lines_in(rows: &[Row]) -> Result<usize, AllocError>
    ensures { IfOk result (λ count. count ≡ lines_in rows.now) }
{
    match rows.last() {
        Some(row) => row.line.checked_add(1).ok_or(AllocError),
        None => Ok(0),
    }
}

/// Of two things that go wrong at one line, the first: it comes of the step itself.
fn first_harm(first: Option<HarmAt>, harm: HarmAt) -> Option<HarmAt>
    ensures { result ≡ first_harm first harm }
{
    match first {
        Some(first) => Some(first),
        None => Some(harm),
    }
}

/// Notes what goes wrong at the line of its step.
fn note_harm(lines: &mut [Option<HarmAt>], harm: HarmAt)
    ensures { lines.new ≡ noted_harm lines.old harm }
{
    let line = harm.step.line;
    if line < lines.len() {
        lines[line] = first_harm(lines[line], harm);
    }
}

/// Notes all that goes wrong.
fn note_harms(lines: &mut [Option<HarmAt>], harms: &[HarmAt])
    ensures { lines.new ≡ noted_harms lines.old harms.now }
{
    for harm in harms {
        note_harm(lines, *harm);
    }
}

/// What goes wrong at each line up to the last of these rows.
fn harms_by_line<A: Allocator>(
    alloc: A,
    rows: &[Row],
    harms: &[HarmAt],
) -> Result<Vec<Option<HarmAt>, A>, AllocError>
    ensures { IfOk result (λ lines. lines.items ≡ harms_by_line rows.now harms.now) }
{
    let mut lines = vec![in alloc; None; lines_in(rows)?]?;
    note_harms(&mut lines, harms);
    Ok(lines)
}

/// What goes wrong at the line of a row.
fn harm_on(lines: &[Option<HarmAt>], row: Row) -> Option<HarmAt>
    ensures { result ≡ harm_on lines.now row }
{
    if row.line < lines.len() {
        lines[row.line]
    } else {
        None
    }
}

/// What goes wrong on a row, if something does.
fn draw_harm_mark<C: Canvas>(
    passes: &[PassNow],
    row: Row,
    harm: Option<HarmAt>,
    out: &mut C,
) -> Result<(), AllocError>
    requires { length passes.now ≤ 65 }
    ensures { OnOk result (Drew C.added (C.image out.old) (C.image out.new)
        (harm_mark passes.now row harm)) }
{
    let Some(harm) = harm else {
        return Ok(());
    };
    let mark = HarmMark {
        row: row.row,
        column: column_of(passes, row.step.made.pass),
        harm,
    };
    out.draw(Element::HarmMark(mark))
}

/// What goes wrong on a row, by its line.
fn draw_row_harm<C: Canvas>(
    passes: &[PassNow],
    lines: &[Option<HarmAt>],
    row: Row,
    out: &mut C,
) -> Result<(), AllocError>
    requires { length passes.now ≤ 65 }
    ensures { OnOk result (Drew C.added (C.image out.old) (C.image out.new)
        (harm_mark passes.now row (harm_on lines.now row))) }
{
    draw_harm_mark(passes, row, harm_on(lines, row), out)
}

/// What goes wrong on each of these rows, by their lines.
fn draw_row_harms<C: Canvas>(
    passes: &[PassNow],
    lines: &[Option<HarmAt>],
    rows: &[Row],
    out: &mut C,
) -> Result<(), AllocError>
    requires { length passes.now ≤ 65 }
    ensures { OnOk result (Drew C.added (C.image out.old) (C.image out.new)
        (each (row_harm passes.now lines.now) 0 rows.now)) }
{
    draw_each(
        rows,
        |_, row, out| draw_row_harm(passes, lines, row, out),
        out,
    )
}

/// What goes wrong on each of these rows.
pub(crate) fn draw_harm_marks<A: Allocator, C: Canvas>(
    alloc: A,
    passes: &[PassNow],
    rows: &[Row],
    harms: &[HarmAt],
    out: &mut C,
) -> Result<(), AllocError>
    requires { length passes.now ≤ 65 }
    ensures { OnOk result (Drew C.added (C.image out.old) (C.image out.new)
        (harm_marks passes.now rows.now harms.now)) }
{
    let lines = harms_by_line(alloc, rows, harms)?;
    draw_row_harms(passes, &lines, rows, out)?;
    Ok(())
}
