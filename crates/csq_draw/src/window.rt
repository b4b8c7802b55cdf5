//! The part of a picture that a window shows: its rows follow each other, the lines of owners move with them, and a pass
//! that it doesn't show has no column.
ghost use Rattle.std.specs.Prelude.{◌≡◌, ◌≤◌, ◌++◌, ◌∷◌, [], length, map, IfOk, OnOk};
ghost use Rattle.std.specs.List.{list_any};
ghost use Rattle.std.specs.Option.{option_map};
ghost use Rattle.csq_draw.specs.Windows.{is_wanted, shows, next, places, place, moved_owner, moved, cut, open_in, is_pass, is_owner, has_line, row_shows, shown_pass, shown_passes};

use crate::owners::Owner;
use crate::rows::{Row, count};
use crate::view::Window;
use csq_explain::PassNow;
use irp_core::{IrpId, PassId};
use std::alloc::{AllocError, Allocator};

/// Whether this is the IRP that a window is of, if it is of one.
#[tactic(auto, unfolding(irp_core::specs::Steps::same_id))]
fn is_wanted(wanted: Option<IrpId>, irp: IrpId) -> bool
    ensures { result ≡ is_wanted wanted irp }
{
    match wanted {
        Some(wanted) => irp.0 == wanted.0,
        None => true,
    }
}

/// Whether a window shows a row. One that is of an IRP shows no step that names none.
fn shows(window: Window, row: Row) -> bool
    ensures { result ≡ shows window row }
{
    let wanted = match row.step.made.kind.name() {
        Some(name) => is_wanted(window.irp, name.irp),
        None => window.irp.is_none(),
    };
    window.from <= row.line && wanted
}

/// How many rows are shown up to this one.
fn next(window: Window, row: Row, shown: u32) -> Result<u32, AllocError>
    ensures { IfOk result (λ count. count ≡ next window row shown) }
{
    if shows(window, row) {
        shown.checked_add(1).ok_or(AllocError)
    } else {
        Ok(shown)
    }
}

/// The window position of each row, counting from 0.
pub(crate) fn places<A: Allocator>(
    alloc: A,
    window: Window,
    rows: &[Row],
) -> Result<Vec<u32, A>, AllocError>
    ensures { IfOk result (λ found. found.items ≡ places window 0 rows.now) }
{
    let mut places = Vec::new(alloc);
    let mut shown = 0;
    for row in rows {
        places.push(shown)?;
        shown = next(window, *row, shown)?;
    }
    Ok(places)
}

/// How many rows are shown before this one.
fn place(places: &[u32], row: u32) -> u32
    ensures { result ≡ place places.now row }
{
    let number = row as usize;
    if number < places.len() {
        places[number]
    } else {
        0
    }
}

/// The same of a row, if there is one.
pub(crate) fn place_of(places: &[u32], row: Option<u32>) -> Option<u32>
    ensures { result ≡ option_map (place places.now) row }
{
    match row {
        Some(row) => Some(place(places, row)),
        None => None,
    }
}

/// An owner whose line begins on its row among those that are shown, or if that isn't shown on the next one that is.
fn moved_owner(places: &[u32], owner: Owner) -> Owner
    ensures { result ≡ moved_owner places.now owner }
{
    let mut moved = owner;
    moved.row = place(places, owner.row);
    moved
}

/// A row that is shown as the one of this number.
fn moved(places: &[u32], number: u32, row: Row) -> Row
    ensures { result ≡ moved places.now number row }
{
    let mut moved = row;
    moved.row = number;
    moved.ended = match row.ended {
        Some(owner) => Some(moved_owner(places, owner)),
        None => None,
    };
    moved
}

/// Adds a row, if a window shows it.
fn push_shown<A: Allocator>(
    window: Window,
    places: &[u32],
    row: Row,
    shown: &mut Vec<Row, A>,
) -> Result<(), AllocError>
    ensures { OnOk result (shown.new.items
        ≡ shown.old.items ++ cut window places.now (length shown.old.items) (row ∷ [])) }
{
    if shows(window, row) {
        let number = count(shown.len())?;
        shown.push(moved(places, number, row))?;
    }
    Ok(())
}

/// The rows that a window shows.
pub(crate) fn cut<A: Allocator>(
    alloc: A,
    window: Window,
    places: &[u32],
    rows: &[Row],
) -> Result<Vec<Row, A>, AllocError>
    ensures { IfOk result (λ shown. shown.items ≡ cut window places.now 0 rows.now) }
{
    let mut shown = Vec::new(alloc);
    for row in rows {
        push_shown(window, places, *row, &mut shown)?;
    }
    Ok(shown)
}

/// An owner after all rows, if a window shows its line.
fn open_in(window: Window, places: &[u32], owner: Option<Owner>) -> Option<Owner>
    ensures { result ≡ open_in window places.now owner }
{
    match owner {
        Some(owner) if is_wanted(window.irp, owner.name.irp) => Some(moved_owner(places, owner)),
        _ => None,
    }
}

/// The owners after all rows whose lines a window shows.
pub(crate) fn open_owners<A: Allocator>(
    alloc: A,
    window: Window,
    places: &[u32],
    owners: &[Option<Owner>],
) -> Result<Vec<Option<Owner>, A>, AllocError>
    ensures { IfOk result (λ lines. lines.items ≡ map (open_in window places.now) owners.now) }
{
    let mut lines = Vec::new(alloc);
    for owner in owners {
        lines.push(open_in(window, places, *owner))?;
    }
    Ok(lines)
}

/// Whether this is a pass, and the one that is asked for.
#[tactic(auto, unfolding(irp_core::specs::Steps::same_pass))]
fn is_pass(pass: PassId, found: Option<PassId>) -> bool
    ensures { result ≡ is_pass pass found }
{
    match found {
        Some(found) => found.0 == pass.0,
        None => false,
    }
}

/// Whether there is an owner, and this pass is it.
#[tactic(auto, unfolding(irp_core::specs::Steps::same_pass))]
fn is_owner(pass: PassId, owner: Option<Owner>) -> bool
    ensures { result ≡ is_owner pass owner }
{
    match owner {
        Some(owner) => owner.pass.0 == pass.0,
        None => false,
    }
}

/// Whether a row shows a pass: it makes the step, has the lock, or no longer owes or holds an IRP.
#[tactic(auto, unfolding(irp_core::specs::Steps::same_pass))]
fn row_shows(pass: PassId, row: Row) -> bool
    ensures { result ≡ row_shows pass row }
{
    row.step.made.pass.0 == pass.0 || is_pass(pass, row.lock) || is_owner(pass, row.ended)
}

/// Whether one of these rows shows a pass.
fn has_row(rows: &[Row], pass: PassId) -> bool
    ensures { result ≡ list_any (row_shows pass) rows.now }
{
    rows.iter().any(|row| row_shows(pass, *row))
}

/// Whether an owner after `count` rows is this pass, and has a line on them.
#[tactic(auto, unfolding(irp_core::specs::Steps::same_pass))]
fn has_line(count: usize, pass: PassId, owner: Option<Owner>) -> bool
    ensures { result ≡ has_line count pass owner }
{
    match owner {
        Some(owner) => (owner.row as usize) < count && owner.pass.0 == pass.0,
        None => false,
    }
}

/// Whether one of these owners after `count` rows is this pass, and has a line on them.
fn has_owner(count: usize, owners: &[Option<Owner>], pass: PassId) -> bool
    ensures { result ≡ list_any (has_line count pass) owners.now }
{
    owners.iter().any(|owner| has_line(count, pass, *owner))
}

/// What is known of a pass in a window: it has a column if it is shown.
fn shown_pass(now: PassNow, shown: bool) -> PassNow
    ensures { result ≡ shown_pass now shown }
{
    let mut known = now;
    known.makes = shown;
    known
}

/// These passes, of which just those have columns that these rows show, or these owners after them.
pub(crate) fn shown_passes<A: Allocator>(
    alloc: A,
    passes: &[PassNow],
    rows: &[Row],
    owners: &[Option<Owner>],
) -> Result<Vec<PassNow, A>, AllocError>
    requires { length passes.now ≤ 65 }
    ensures { IfOk result (λ shown. shown.items ≡ shown_passes passes.now rows.now owners.now) }
{
    let mut shown = Vec::new(alloc);
    for number in 0..passes.len() {
        let pass = PassId(number as u32);
        let is_shown = has_row(rows, pass) || has_owner(rows.len(), owners, pass);
        shown.push(shown_pass(passes[number], is_shown))?;
    }
    Ok(shown)
}
