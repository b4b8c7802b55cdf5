//! The row of a step, element by element.
ghost use Rattle.std.specs.Prelude.{◌≡◌, ◌≤◌, ◌∷◌, [], length, OnOk};
ghost use Rattle.csq_draw.specs.Arrows.{found_at};
ghost use Rattle.csq_draw.specs.Elements.{Drew};
ghost use Rattle.csq_draw.specs.Irps.{irp_named, with_irp};
ghost use Rattle.csq_draw.specs.Pictures.{shade_elements, bars_elements, arrow_elements, words_until, place_named, number_element, mark_element, call_elements, behind_elements, row_after, fresh_irps, rows_elements};

use crate::arrows::{Arrow, found_at};
use crate::bars::Bars;
use crate::calls::CallLine;
use crate::canvas::Canvas;
use crate::element::Element;
use crate::irps::{IrpNow, LastSeen, Spot, irp_column, irp_named, new_irps, note_irp};
use crate::marks::{Legality, Mark, Number, Shade, lets_go, takes_lock};
use crate::passes::{column_of, columns};
use crate::picture::draw_line;
use crate::rows::Row;
use crate::spans::LineEnd;
use csq_explain::PassNow;
use irp_core::Kind;
use std::alloc::{AllocError, Allocator};

/// The shade behind a row, if a pass has the lock there.
fn draw_shade<C: Canvas>(passes: &[PassNow], row: Row, out: &mut C) -> Result<(), AllocError>
    requires { length passes.now ≤ 65 }
    ensures { OnOk result (Drew C.added (C.image out.old) (C.image out.new)
        (shade_elements passes.now row row.lock)) }
{
    let Some(pass) = row.lock else {
        return Ok(());
    };
    let shade = Shade {
        row: row.row,
        column: column_of(passes, pass),
        first: takes_lock(row.step),
        last: lets_go(row.step),
    };
    out.draw(Element::Shade(shade))
}

/// The words of the IRP at this place from its last step to a row, or to the end.
pub(crate) fn draw_bars<C: Canvas>(
    columns: u32,
    place: u32,
    to: u32,
    to_the_end: bool,
    last: Option<LastSeen>,
    out: &mut C,
) -> Result<(), AllocError>
    ensures { OnOk result (Drew C.added (C.image out.old) (C.image out.new)
        (bars_elements columns place to to_the_end last)) }
{
    let Some(LastSeen { row: from, words }) = last else {
        return Ok(());
    };
    let bars = Bars {
        columns,
        place,
        from,
        to,
        to_the_end,
        words,
    };
    out.draw(Element::Bars(bars))
}

/// An arrow from the step that wrote what a row's step found, if it was another pass's.
#[tactic(auto, unfolding(irp_core::specs::Steps::same_pass))]
fn draw_arrow<C: Canvas>(
    passes: &[PassNow],
    row: Row,
    found: Option<Spot>,
    out: &mut C,
) -> Result<(), AllocError>
    requires { length passes.now ≤ 65 }
    ensures { OnOk result (Drew C.added (C.image out.old) (C.image out.new)
        (arrow_elements passes.now row found)) }
{
    let (pass, row, line) = (row.step.made.pass, row.row, row.line);
    match found {
        Some(from) if from.pass != pass => {
            let arrow = Arrow {
                from_column: column_of(passes, from.pass),
                from,
                column: column_of(passes, pass),
                row,
                line,
            };
            out.draw(Element::Arrow(arrow))
        }
        _ => Ok(()),
    }
}

/// The place of the IRP that a step of this kind names, among those that the picture shows.
fn place_named(irps: &[IrpNow], kind: Kind) -> u32
    requires { length irps.now ≤ 1024 }
    ensures { result ≡ place_named irps.now kind }
{
    match kind.name() {
        Some(name) => irp_column(irps, name.irp),
        None => 0,
    }
}

/// The words that the IRP of a step had until then.
fn draw_words<C: Canvas>(
    passes: &[PassNow],
    irps: &[IrpNow],
    before: IrpNow,
    row: Row,
    out: &mut C,
) -> Result<(), AllocError>
    requires few { length passes.now ≤ 65 }
    requires irps { length irps.now ≤ 1024 }
    ensures { OnOk result (Drew C.added (C.image out.old) (C.image out.new)
        (words_until passes.now irps.now before row)) }
{
    if row.words.is_none() {
        return Ok(());
    }
    let (columns, place) = (columns(passes), place_named(irps, row.step.made.kind));
    draw_bars(columns, place, row.row, false, before.last, out)
}

/// Who wrote what a step found.
fn draw_found<C: Canvas>(
    passes: &[PassNow],
    before: IrpNow,
    row: Row,
    out: &mut C,
) -> Result<(), AllocError>
    requires { length passes.now ≤ 65 }
    ensures { OnOk result (Drew C.added (C.image out.old) (C.image out.new)
        (arrow_elements passes.now row (found_at before row))) }
{
    let found = found_at(before, row);
    draw_arrow(passes, row, found, out)
}

/// What stands behind the box of a step, by what was known of its IRP before the step.
fn draw_behind<C: Canvas>(
    passes: &[PassNow],
    irps: &[IrpNow],
    before: IrpNow,
    row: Row,
    out: &mut C,
) -> Result<(), AllocError>
    requires few { length passes.now ≤ 65 }
    requires irps { length irps.now ≤ 1024 }
    ensures { OnOk result (Drew C.added (C.image out.old) (C.image out.new)
        (behind_elements passes.now irps.now before row)) }
{
    draw_shade(passes, row, out)?;
    draw_line(passes, row.row, LineEnd::Step, row.ended, out)?;
    draw_words(passes, irps, before, row, out)?;
    draw_found(passes, before, row, out)?;
    Ok(())
}

/// The number of the line that names a step.
fn draw_number<C: Canvas>(row: Row, out: &mut C) -> Result<(), AllocError>
    ensures { OnOk result (Drew C.added (C.image out.old) (C.image out.new)
        (number_element row ∷ [])) }
{
    let number = Number {
        row: row.row,
        line: row.line,
    };
    out.draw(Element::Number(number))
}

/// A step, in the column of its pass.
fn draw_mark<C: Canvas>(
    passes: &[PassNow],
    irps: &[IrpNow],
    row: Row,
    out: &mut C,
) -> Result<(), AllocError>
    requires few { length passes.now ≤ 65 }
    requires irps { length irps.now ≤ 1024 }
    ensures { OnOk result (Drew C.added (C.image out.old) (C.image out.new)
        (mark_element passes.now irps.now row ∷ [])) }
{
    let mark = Mark {
        row: row.row,
        column: column_of(passes, row.step.made.pass),
        columns: columns(passes),
        place: place_named(irps, row.step.made.kind),
        step: row.step,
        legality: row.legality,
        words: row.words,
    };
    out.draw(Element::Mark(mark))
}

/// The call that a step is of, by what was known of its IRP before. From a refusal on nothing is known of calls.
fn draw_call<C: Canvas>(
    passes: &[PassNow],
    before: IrpNow,
    row: Row,
    out: &mut C,
) -> Result<(), AllocError>
    requires { length passes.now ≤ 65 }
    ensures { OnOk result (Drew C.added (C.image out.old) (C.image out.new)
        (call_elements passes.now before row row.legality)) }
{
    if !matches!(row.legality, Legality::Legal) {
        return Ok(());
    }
    let call = CallLine {
        row: row.row,
        column: column_of(passes, row.step.made.pass),
        step: row.step,
        claim: before.claim,
    };
    out.draw(Element::Call(call))
}

/// The row of a step, by what was known of its IRP before.
fn draw_row<C: Canvas>(
    passes: &[PassNow],
    irps: &[IrpNow],
    before: IrpNow,
    row: Row,
    out: &mut C,
) -> Result<(), AllocError>
    requires few { length passes.now ≤ 65 }
    requires irps { length irps.now ≤ 1024 }
    ensures { OnOk result (Drew C.added (C.image out.old) (C.image out.new)
        (row_after passes.now irps.now before row)) }
{
    draw_number(row, out)?;
    draw_behind(passes, irps, before, row, out)?;
    draw_mark(passes, irps, row, out)?;
    draw_call(passes, before, row, out)?;
    Ok(())
}

/// The row of the next step, by what was known of the IRPs before it.
fn draw_next<C: Canvas>(
    passes: &[PassNow],
    irps: &[IrpNow],
    known: &[IrpNow],
    row: Row,
    out: &mut C,
) -> Result<(), AllocError>
    requires few { length passes.now ≤ 65 }
    requires irps { length irps.now ≤ 1024 }
    ensures { OnOk result (Drew C.added (C.image out.old) (C.image out.new)
        (row_after passes.now irps.now (irp_named known.now row.step.made.kind) row)) }
{
    let before = irp_named(known, row.step.made.kind);
    draw_row(passes, irps, before, row, out)
}

/// Notes the next step.
fn note_next<A: Allocator>(known: &mut Vec<IrpNow, A>, row: Row)
    ensures { known.new.items ≡ with_irp known.old.items row }
{
    note_irp(known, row);
}

/// The rows of all steps. What is known of the IRPs grows with them.
pub(crate) fn draw_rows<A: Allocator + Copy, C: Canvas>(
    alloc: A,
    passes: &[PassNow],
    irps: &[IrpNow],
    rows: &[Row],
    out: &mut C,
) -> Result<(), AllocError>
    requires few { length passes.now ≤ 65 }
    requires irps { length irps.now ≤ 1024 }
    ensures { OnOk result (Drew C.added (C.image out.old) (C.image out.new)
        (rows_elements passes.now irps.now (fresh_irps irps.now) rows.now)) }
{
    let mut known = new_irps(alloc, irps.len())?;
    for row in rows {
        draw_next(passes, irps, &known, *row, out)?;
        note_next(&mut known, *row);
    }
    Ok(())
}
