//! What a picture shows, and how much of it a window does.
ghost use Rattle.std.specs.Prelude.{◌≤◌, length, OnOk};
ghost use Rattle.csq_draw.specs.Elements.{Drew};
ghost use Rattle.csq_draw.specs.Pictures.{by_places, elements_of, end_of, seen, shown_by};
ghost use Rattle.csq_draw.specs.Windows.{places};

use crate::canvas::Canvas;
use crate::ending::PictureEnd;
use crate::extent::Extent;
use crate::irps::{IrpNow, irps_after};
use crate::owners::Owner;
use crate::picture::draw_picture;
use crate::rows::{Row, count};
use crate::view::Window;
use crate::window::{cut, open_owners, place_of, places, shown_passes};
use csq_explain::PassNow;
use std::alloc::{AllocError, Allocator};

/// What a picture shows: the passes, what is known of the IRPs after the rows, the rows, the owners after them, and the
/// row of the first step that the protocol refuses.
#[derive(Clone, Copy)]
pub(crate) struct Sheet<'a> {
    pub(crate) passes: &'a [PassNow],
    pub(crate) irps: &'a [IrpNow],
    pub(crate) rows: &'a [Row],
    pub(crate) owners: &'a [Option<Owner>],
    pub(crate) refused: Option<u32>,
}

/// Draws this sheet, which ends so.
fn draw_sheet<A: Allocator + Copy, C: Canvas>(
    alloc: A,
    sheet: Sheet<'_>,
    ending: PictureEnd<'_>,
    out: &mut C,
) -> Result<(), AllocError>
    requires few { length sheet.passes.now ≤ 65 }
    requires irps { length sheet.irps.now ≤ 1024 }
    ensures { OnOk result (Drew C.added (C.image out.old) (C.image out.new)
        (elements_of (shown_by sheet.entry) (end_of ending.entry))) }
{
    let rows = count(sheet.rows.len())?;
    let extent = Extent::of(alloc, sheet, rows, ending)?;
    out.begin(sheet.passes, extent)?;
    draw_picture(alloc, sheet, rows, ending, out)?;
    Ok(())
}

/// Draws what a window shows of this sheet, which ends so.
fn draw_window<A: Allocator + Copy, C: Canvas>(
    alloc: A,
    window: Window,
    sheet: Sheet<'_>,
    ending: PictureEnd<'_>,
    out: &mut C,
) -> Result<(), AllocError>
    requires few { length sheet.passes.now ≤ 65 }
    requires irps { length sheet.irps.now ≤ 1024 }
    ensures { OnOk result (Drew C.added (C.image out.old) (C.image out.new) (elements_of
        (by_places window (places window 0 sheet.entry.rows.now) (shown_by sheet.entry))
        (end_of ending.entry))) }
{
    let places = places(alloc, window, sheet.rows)?;
    let rows = cut(alloc, window, &places, sheet.rows)?;
    let owners = open_owners(alloc, window, &places, sheet.owners)?;
    let irps = irps_after(alloc, sheet.irps.len(), &rows)?;
    let refused = place_of(&places, sheet.refused);
    let passes = shown_passes(alloc, sheet.passes, &rows, &owners)?;
    let shown = Sheet {
        passes: &passes,
        irps: &irps,
        rows: &rows,
        owners: &owners,
        refused,
    };
    draw_sheet(alloc, shown, ending, out)?;
    Ok(())
}

/// Draws what a window, if there is one, shows of this sheet, which ends so.
pub(crate) fn draw_seen<A: Allocator + Copy, C: Canvas>(
    alloc: A,
    window: Option<Window>,
    sheet: Sheet<'_>,
    ending: PictureEnd<'_>,
    out: &mut C,
) -> Result<(), AllocError>
    requires few { length sheet.passes.now ≤ 65 }
    requires irps { length sheet.irps.now ≤ 1024 }
    ensures { OnOk result (Drew C.added (C.image out.old) (C.image out.new)
        (elements_of (seen window (shown_by sheet.entry)) (end_of ending.entry))) }
{
    match window {
        Some(window) => draw_window(alloc, window, sheet, ending, out),
        None => draw_sheet(alloc, sheet, ending, out),
    }
}
