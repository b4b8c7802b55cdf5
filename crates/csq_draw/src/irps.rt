//! What is known of each IRP as its steps are drawn: its last step, who wrote its words, who has it, and who
//! completed it.
ghost use Rattle.std.specs.Prelude.{◌≡◌, ◌<◌, ◌≤◌, length, replicate, take, IfOk};
ghost use Rattle.csq_draw.specs.Irps.{flag_after, routine_after, claim_by, done_after, last_after, irp_after, irp_at, irp_named, with_irp, irps_after, irp_columns, irp_column, new_irp};

use crate::rows::Row;
use csq_explain::{StepInCall, WordValues};
use irp_core::{Inside, IrpId, Kind, PassId};
use std::alloc::{AllocError, Allocator};

/// A step: its row, the number of its line, and its pass.
#[derive(Clone, Copy)]
pub(crate) struct Spot {
    pub(crate) row: u32,
    pub(crate) line: usize,
    pub(crate) pass: PassId,
}

/// The step by which the owner of an IRP came to have it, and what its pass was inside of as it claimed it.
#[derive(Clone, Copy)]
pub(crate) struct Claim {
    pub(crate) spot: Spot,
    pub(crate) by: Inside,
}

/// The row of a step of an IRP, and the words of the IRP after it.
#[derive(Clone, Copy)]
pub(crate) struct LastSeen {
    pub(crate) row: u32,
    pub(crate) words: WordValues,
}

/// What is known of an IRP, of its present life.
#[derive(Clone, Copy)]
pub(crate) struct IrpNow {
    /// The last step that named it, in any life.
    pub(crate) last: Option<LastSeen>,
    /// The step that set its Cancel flag.
    pub(crate) flag: Option<Spot>,
    /// The step that set its cancel routine, which no exchange has found since.
    pub(crate) routine: Option<Spot>,
    /// How its owner came to have it, if a pass owes or holds it.
    pub(crate) claim: Option<Claim>,
    /// The step that completed it.
    pub(crate) done: Option<Spot>,
}

impl IrpNow {
    /// An IRP that no step has named.
    pub(crate) const NEW: IrpNow = IrpNow {
        last: None,
        flag: None,
        routine: None,
        claim: None,
        done: None,
    };
}

/// Who set the Cancel flag, after a step of this kind.
fn flag_after(kind: Kind, found: u64, spot: Spot, before: Option<Spot>) -> Option<Spot>
    ensures { result ≡ flag_after kind found spot before }
{
    match kind {
        Kind::Flag(_) if found == 0 => Some(spot),
        Kind::Renew(_) => None,
        _ => before,
    }
}

/// Who set the cancel routine that is there, after a step of this kind.
fn routine_after(kind: Kind, found: u64, spot: Spot, before: Option<Spot>) -> Option<Spot>
    ensures { result ≡ routine_after kind found spot before }
{
    match kind {
        Kind::Arm(_) | Kind::Rearm(_) => Some(spot),
        Kind::Disarm(_) | Kind::Take(_) if found == 1 => None,
        Kind::Renew(_) => None,
        _ => before,
    }
}

/// How its owner came to have an IRP, after this step of it.
fn claim_after(step: StepInCall, spot: Spot, before: Option<Claim>) -> Option<Claim>
    ensures { result ≡ claim_by step.made.kind step.made.found step.inside spot before }
{
    let by = match step.made.kind {
        Kind::Take(name) if step.made.found == 1 => Inside::Cancelling(name),
        Kind::Disarm(_) if step.made.found == 1 => step.inside,
        Kind::Out(name) => Inside::Cancelling(name),
        Kind::Done(_) | Kind::Rearm(_) | Kind::Renew(_) => return None,
        _ => return before,
    };
    Some(Claim { spot, by })
}

/// Who completed an IRP, after a step of this kind.
fn done_after(kind: Kind, spot: Spot, before: Option<Spot>) -> Option<Spot>
    ensures { result ≡ done_after kind spot before }
{
    match kind {
        Kind::Done(_) => Some(spot),
        Kind::Renew(_) => None,
        _ => before,
    }
}

/// What is known of an IRP after a step that names it.
fn irp_after(before: IrpNow, row: Row) -> IrpNow
    ensures { result ≡ irp_after before row }
{
    let (kind, found) = (row.step.made.kind, row.step.made.found);
    let spot = Spot {
        row: row.row,
        line: row.line,
        pass: row.step.made.pass,
    };
    IrpNow {
        last: last_after(row, before.last),
        flag: flag_after(kind, found, spot, before.flag),
        routine: routine_after(kind, found, spot, before.routine),
        claim: claim_after(row.step, spot, before.claim),
        done: done_after(kind, spot, before.done),
    }
}

/// The last step that named an IRP, after this one.
fn last_after(row: Row, before: Option<LastSeen>) -> Option<LastSeen>
    ensures { result ≡ last_after row before }
{
    match row.words {
        Some(words) => Some(LastSeen {
            row: row.row,
            words,
        }),
        None => before,
    }
}

/// This number of IRPs that no step has named.
pub(crate) fn new_irps<A: Allocator>(alloc: A, count: usize) -> Result<Vec<IrpNow, A>, AllocError>
    ensures { IfOk result (λ irps. irps.items ≡ replicate count new_irp) }
{
    vec![in alloc; IrpNow::NEW; count]
}

/// What is known of the IRP that a step of this kind names.
pub(crate) fn irp_named(irps: &[IrpNow], kind: Kind) -> IrpNow
    ensures { result ≡ irp_named irps.now kind }
{
    match kind.name() {
        Some(name) => irp_at(irps, name.irp),
        None => IrpNow::NEW,
    }
}

/// What is known of an IRP.
pub(crate) fn irp_at(irps: &[IrpNow], irp: IrpId) -> IrpNow
    ensures { result ≡ irp_at irps.now irp }
{
    let number = irp.0 as usize;
    if number < irps.len() {
        irps[number]
    } else {
        IrpNow::NEW
    }
}

/// Notes a step of an IRP's words. One that shows none is of another life, or of no IRP, and changes nothing.
pub(crate) fn note_irp(irps: &mut [IrpNow], row: Row)
    ensures { irps.new ≡ with_irp irps.old row }
{
    if let Some(words) = row.words {
        let number = words.name.irp.0 as usize;
        if number < irps.len() {
            irps[number] = irp_after(irps[number], row);
        }
    }
}

/// Notes all these steps.
fn note_irps(irps: &mut [IrpNow], rows: &[Row])
    ensures { irps.new ≡ irps_after irps.old rows.now }
{
    for row in rows {
        note_irp(irps, *row);
    }
}

/// What is known of this number of IRPs after these rows.
pub(crate) fn irps_after<A: Allocator>(
    alloc: A,
    count: usize,
    rows: &[Row],
) -> Result<Vec<IrpNow, A>, AllocError>
    ensures { IfOk result (λ irps. irps.items ≡ irps_after (replicate count new_irp) rows.now) }
{
    let mut irps = new_irps(alloc, count)?;
    note_irps(&mut irps, rows);
    Ok(irps)
}

/// How many of these IRPs a step names: each has a column for each of its words.
pub(crate) fn irp_columns(irps: &[IrpNow]) -> u32
    requires { length irps.now ≤ 1024 }
    ensures { result ≡ irp_columns irps.now }
{
    irps.iter().filter(|now| now.last.is_some()).count() as u32
}

/// The place of an IRP among those that a step names, from 0 on.
pub(crate) fn irp_column(irps: &[IrpNow], irp: IrpId) -> u32
    requires { length irps.now ≤ 1024 }
    ensures { result ≡ irp_column irps.now irp }
{
    let before = irps.len().min(irp.0 as usize);
    irp_columns(&irps[..before])
}
