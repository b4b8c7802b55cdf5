//! A picture, element by element.
ghost use Rattle.std.specs.Prelude.{◌≡◌, ◌≤◌, ◌∷◌, [], length, OnOk};
ghost use Rattle.csq_draw.specs.Elements.{Drew};
ghost use Rattle.csq_draw.specs.Passes.{columns};
ghost use Rattle.csq_draw.specs.Pictures.{each, column_elements, word_elements, last_elements, span_elements, open_elements, owners_elements, past_elements, closing_elements, closed_elements, above_elements, shown_by, shown_elements, refused_elements, harm_elements, harms_elements, broken_elements, end_of, picture_of};

use crate::canvas::{Canvas, draw_each};
use crate::circles::WordColumns;
use crate::element::Element;
use crate::ending::{Below, PictureEnd, RestState, count_with};
use crate::harm_marks::draw_harm_marks;
use crate::heading::Column;
use crate::irps::{IrpNow, irp_at, irp_column};
use crate::lives::PastLife;
use crate::marks::Number;
use crate::owners::Owner;
use crate::passes::{column_of, columns};
use crate::row_picture::{draw_bars, draw_rows};
use crate::rows::count;
use crate::sheet::Sheet;
use crate::spans::{LineEnd, Span};
use csq_explain::{HarmAt, PassNow, Reason};
use csq_replay::IrpLine;
use irp_core::{IrpId, PassId};
use std::alloc::{AllocError, Allocator};

/// The column of a pass, if it makes a step.
fn draw_maker<C: Canvas>(
    passes: &[PassNow],
    rows: u32,
    pass: PassId,
    now: PassNow,
    out: &mut C,
) -> Result<(), AllocError>
    requires { length passes.now ≤ 65 }
    ensures { OnOk result (Drew C.added (C.image out.old) (C.image out.new)
        (column_elements passes.now rows pass.0 now)) }
{
    if !now.makes {
        return Ok(());
    }
    let column = Column {
        column: column_of(passes, pass),
        pass,
        rows,
    };
    out.draw(Element::Column(column))
}

/// The words that an IRP has in the end, if a step names it.
fn draw_last<C: Canvas>(
    passes: &[PassNow],
    irps: &[IrpNow],
    rows: u32,
    irp: IrpId,
    now: IrpNow,
    out: &mut C,
) -> Result<(), AllocError>
    requires few { length passes.now ≤ 65 }
    requires irps { length irps.now ≤ 1024 }
    ensures { OnOk result (Drew C.added (C.image out.old) (C.image out.new)
        (last_elements passes.now irps.now rows irp.0 now)) }
{
    let (columns, place) = (columns(passes), irp_column(irps, irp));
    draw_bars(columns, place, rows, true, now.last, out)
}

/// The names of the words of an IRP, if a step names it.
fn draw_name<C: Canvas>(
    passes: &[PassNow],
    irps: &[IrpNow],
    irp: IrpId,
    now: IrpNow,
    out: &mut C,
) -> Result<(), AllocError>
    requires few { length passes.now ≤ 65 }
    requires irps { length irps.now ≤ 1024 }
    ensures { OnOk result (Drew C.added (C.image out.old) (C.image out.new)
        (word_elements passes.now irps.now irp.0 now)) }
{
    if now.last.is_none() {
        return Ok(());
    }
    let names = WordColumns {
        columns: columns(passes),
        place: irp_column(irps, irp),
        irp,
    };
    out.draw(Element::WordColumns(names))
}

/// The line of an owner to a row, if there is one that came to have its IRP on an earlier row.
pub(crate) fn draw_line<C: Canvas>(
    passes: &[PassNow],
    to: u32,
    end: LineEnd,
    owner: Option<Owner>,
    out: &mut C,
) -> Result<(), AllocError>
    requires { length passes.now ≤ 65 }
    ensures { OnOk result (Drew C.added (C.image out.old) (C.image out.new)
        (span_elements passes.now to end owner)) }
{
    match owner {
        Some(owner) if owner.row < to => {
            let span = Span {
                column: column_of(passes, owner.pass),
                owner,
                to,
                end,
            };
            out.draw(Element::Span(span))
        }
        _ => Ok(()),
    }
}

/// The lines of the owners that have their IRPs after all rows.
fn draw_open_all<C: Canvas>(
    passes: &[PassNow],
    to: u32,
    end: LineEnd,
    owners: &[Option<Owner>],
    out: &mut C,
) -> Result<(), AllocError>
    requires { length passes.now ≤ 65 }
    ensures { OnOk result (Drew C.added (C.image out.old) (C.image out.new)
        (each (open_elements passes.now to end) 0 owners.now)) }
{
    draw_each(
        owners,
        |_, owner, out| draw_line(passes, to, end, owner, out),
        out,
    )
}

/// The lines of the owners after all rows: they end where the protocol was broken, if it was.
fn draw_owners<C: Canvas>(sheet: Sheet<'_>, count: u32, out: &mut C) -> Result<(), AllocError>
    requires { length sheet.passes.now ≤ 65 }
    ensures { OnOk result (Drew C.added (C.image out.old) (C.image out.new)
        (owners_elements sheet.entry.passes.now count sheet.entry.refused
        sheet.entry.owners.now)) }
{
    let (passes, owners) = (sheet.passes, sheet.owners);
    match sheet.refused {
        Some(row) => draw_open_all(passes, row, LineEnd::Refusal, owners, out),
        None => draw_open_all(passes, count, LineEnd::Last, owners, out),
    }
}

/// How an earlier life of an IRP ended, as the nth line below these rows.
fn draw_past<C: Canvas>(
    rows: u32,
    nth: usize,
    life: PastLife,
    out: &mut C,
) -> Result<(), AllocError>
    ensures { OnOk result (Drew C.added (C.image out.old) (C.image out.new)
        (past_elements rows nth life)) }
{
    let nth = count(nth)?;
    out.draw(Element::Below(rows, Below::Past(nth, life)))
}

/// Where an IRP is in the end, as the nth line after the first ones below these rows.
fn draw_ending<C: Canvas>(
    irps: &[IrpNow],
    rows: u32,
    first: u32,
    nth: usize,
    line: IrpLine,
    out: &mut C,
) -> Result<(), AllocError>
    ensures { OnOk result (Drew C.added (C.image out.old) (C.image out.new)
        (closing_elements irps.now rows first nth line)) }
{
    let (nth, now) = (count_with(nth, first)?, irp_at(irps, line.name.irp));
    out.draw(Element::Below(rows, Below::Irp(nth, line, now)))
}

/// How the earlier lives of IRPs ended, where each IRP is in the end, and whether all is at rest.
fn draw_closed<C: Canvas>(
    irps: &[IrpNow],
    lives: &[PastLife],
    rows: u32,
    reported: &[IrpLine],
    rest: RestState,
    out: &mut C,
) -> Result<(), AllocError>
    ensures { OnOk result (Drew C.added (C.image out.old) (C.image out.new)
        (closed_elements irps.now lives.now reported.now rest rows)) }
{
    let first = count(lives.len())?;
    let nth = count_with(reported.len(), first)?;
    draw_each(lives, |nth, life, out| draw_past(rows, nth, life, out), out)?;
    draw_each(
        reported,
        |nth, line, out| draw_ending(irps, rows, first, nth, line, out),
        out,
    )?;
    out.draw(Element::Below(rows, Below::AtRest(nth, rest)))?;
    Ok(())
}

/// What stands above this number of rows of these passes and IRPs, and the words that are kept to the end.
fn draw_above<C: Canvas>(
    passes: &[PassNow],
    irps: &[IrpNow],
    count: u32,
    out: &mut C,
) -> Result<(), AllocError>
    requires few { length passes.now ≤ 65 }
    requires irps { length irps.now ≤ 1024 }
    ensures { OnOk result (Drew C.added (C.image out.old) (C.image out.new)
        (above_elements passes.now irps.now count)) }
{
    out.draw(Element::Lines)?;
    draw_each(
        passes,
        |number, now, out| draw_maker(passes, count, PassId(number as u32), now, out),
        out,
    )?;
    draw_each(
        irps,
        |number, now, out| draw_name(passes, irps, IrpId(number as u32), now, out),
        out,
    )?;
    draw_each(
        irps,
        |number, now, out| draw_last(passes, irps, count, IrpId(number as u32), now, out),
        out,
    )?;
    Ok(())
}

/// What a picture begins with, its rows, and the owners after them.
fn draw_shown<A: Allocator + Copy, C: Canvas>(
    alloc: A,
    sheet: Sheet<'_>,
    count: u32,
    out: &mut C,
) -> Result<(), AllocError>
    requires few { length sheet.passes.now ≤ 65 }
    requires irps { length sheet.irps.now ≤ 1024 }
    ensures { OnOk result (Drew C.added (C.image out.old) (C.image out.new)
        (shown_elements (shown_by sheet.entry) count)) }
{
    draw_above(sheet.passes, sheet.irps, count, out)?;
    draw_rows(alloc, sheet.passes, sheet.irps, sheet.rows, out)?;
    draw_owners(sheet, count, out)?;
    Ok(())
}

/// The line that ended the handling, and why.
fn draw_refused<C: Canvas>(
    rows: u32,
    line: usize,
    reason: Reason,
    out: &mut C,
) -> Result<(), AllocError>
    ensures { OnOk result (Drew C.added (C.image out.old) (C.image out.new)
        (refused_elements rows line reason)) }
{
    let row = rows;
    out.draw(Element::Below(rows, Below::Bar))?;
    out.draw(Element::Number(Number { row, line }))?;
    out.draw(Element::Below(rows, Below::Refused(reason.stop)))?;
    out.draw(Element::Below(rows, Below::Because(reason)))
}

/// What goes wrong at a step, as the nth line below where and why the protocol was broken.
fn draw_harm<C: Canvas>(rows: u32, nth: usize, harm: HarmAt, out: &mut C) -> Result<(), AllocError>
    ensures { OnOk result (Drew C.added (C.image out.old) (C.image out.new)
        (harm_elements rows nth harm)) }
{
    let nth = count(nth)?;
    out.draw(Element::Below(rows, Below::Harm(nth, harm)))
}

/// What goes wrong at each step, below where and why the protocol was broken.
fn draw_each_harm<C: Canvas>(rows: u32, harms: &[HarmAt], out: &mut C) -> Result<(), AllocError>
    ensures { OnOk result (Drew C.added (C.image out.old) (C.image out.new)
        (each (harm_elements rows) 0 harms.now)) }
{
    draw_each(harms, |nth, harm, out| draw_harm(rows, nth, harm, out), out)
}

/// What goes wrong at each step, or that nothing does.
fn draw_harms<C: Canvas>(rows: u32, harms: &[HarmAt], out: &mut C) -> Result<(), AllocError>
    ensures { OnOk result (Drew C.added (C.image out.old) (C.image out.new)
        (harms_elements rows harms.now)) }
{
    if harms.is_empty() {
        out.draw(Element::Below(rows, Below::NoHarm))
    } else {
        draw_each_harm(rows, harms, out)
    }
}

/// The line in which the protocol was broken, and what goes wrong.
fn draw_broken<C: Canvas>(
    rows: u32,
    line: usize,
    reason: Reason,
    harms: &[HarmAt],
    out: &mut C,
) -> Result<(), AllocError>
    ensures { OnOk result (Drew C.added (C.image out.old) (C.image out.new)
        (broken_elements line reason harms.now rows)) }
{
    out.draw(Element::Below(rows, Below::Broken(line, reason)))?;
    draw_harms(rows, harms, out)?;
    Ok(())
}

/// How a picture of this number of rows ends.
pub(crate) fn draw_end<C: Canvas>(
    rows: u32,
    ending: PictureEnd<'_>,
    out: &mut C,
) -> Result<(), AllocError>
    ensures { OnOk result (Drew C.added (C.image out.old) (C.image out.new)
        ((end_of ending.entry).below rows)) }
{
    match ending {
        PictureEnd::Stopped(line, reason) => draw_refused(rows, line, reason, out),
        PictureEnd::Closed(irps, lives, reported, rest) => {
            draw_closed(irps, lives, rows, reported, rest, out)
        }
        PictureEnd::Broken(line, reason, harms) => draw_broken(rows, line, reason, harms, out),
    }
}

/// What a picture has of its end on the rows: what goes wrong, if the protocol was broken.
fn draw_on_rows<A: Allocator, C: Canvas>(
    alloc: A,
    sheet: Sheet<'_>,
    ending: PictureEnd<'_>,
    out: &mut C,
) -> Result<(), AllocError>
    requires { length sheet.passes.now ≤ 65 }
    ensures { OnOk result (Drew C.added (C.image out.old) (C.image out.new)
        ((end_of ending.entry).on_rows (shown_by sheet.entry))) }
{
    match ending {
        PictureEnd::Stopped(_, _) | PictureEnd::Closed(_, _, _, _) => Ok(()),
        PictureEnd::Broken(_, _, harms) => {
            draw_harm_marks(alloc, sheet.passes, sheet.rows, harms, out)
        }
    }
}

/// A picture of this number of rows, below its head.
pub(crate) fn draw_picture<A: Allocator + Copy, C: Canvas>(
    alloc: A,
    sheet: Sheet<'_>,
    rows: u32,
    ending: PictureEnd<'_>,
    out: &mut C,
) -> Result<(), AllocError>
    requires few { length sheet.passes.now ≤ 65 }
    requires irps { length sheet.irps.now ≤ 1024 }
    ensures { OnOk result (Drew C.added (C.image out.old) (C.image out.new)
        (picture_of (shown_by sheet.entry) rows (end_of ending.entry))) }
{
    draw_shown(alloc, sheet, rows, out)?;
    draw_on_rows(alloc, sheet, ending, out)?;
    draw_end(rows, ending, out)?;
    Ok(())
}
