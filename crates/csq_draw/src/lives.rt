//! The earlier lives of the IRPs that were used again, each with the step that ended it.
ghost use Rattle.std.specs.Prelude.{◌≡◌, ◌++◌, IfOk, OnOk};
ghost use Rattle.csq_draw.specs.Lives.{was_reused, past_of, past_lives};

use crate::irps::{IrpNow, irp_at};
use crate::rows::Row;
use irp_core::{IrpLife, Kind, PassId};
use std::alloc::{AllocError, Allocator};
use std::fmt;

/// An earlier life of an IRP: the pass that completed it, and the number of its line.
#[derive(Clone, Copy)]
pub(crate) struct PastLife {
    pub(crate) name: IrpLife,
    pub(crate) pass: PassId,
    pub(crate) line: usize,
}

/// As `IRP 0 was completed by p3 in line 11, and used again`.
impl fmt::Display for PastLife {
    fn fmt<W: fmt::Write>(&self, f: &mut fmt::Formatter<W>) -> fmt::Result {
        let PastLife { name, pass, line } = *self;
        write!(
            f,
            "IRP {name} was completed by {pass} in line {line}, and used again"
        )
    }
}

/// Whether an IRP was used again after this life: by what is known of it, its words are of another one.
fn was_reused(name: IrpLife, now: IrpNow) -> bool
    ensures { result ≡ was_reused name now }
{
    match now.last {
        Some(seen) => seen.words.name.life.0 != name.life.0,
        None => false,
    }
}

/// Adds the life that a step ended, if it completed an IRP that was used again.
fn push_past<A: Allocator>(
    irps: &[IrpNow],
    row: Row,
    lives: &mut Vec<PastLife, A>,
) -> Result<(), AllocError>
    ensures { OnOk result (lives.new.items
        ≡ lives.old.items ++ past_of irps.now row row.step.made.kind) }
{
    match row.step.made.kind {
        Kind::Done(name) if was_reused(name, irp_at(irps, name.irp)) => {
            lives.push(PastLife {
                name,
                pass: row.step.made.pass,
                line: row.line,
            })?;
            Ok(())
        }
        _ => Ok(()),
    }
}

/// The lives that these steps ended, of IRPs that were used again, by what is known of the IRPs after all steps. The
/// sentence of an IRP in the end is of its present life, and would leave out how an earlier one ended.
pub(crate) fn past_lives<A: Allocator>(
    alloc: A,
    irps: &[IrpNow],
    rows: &[Row],
) -> Result<Vec<PastLife, A>, AllocError>
    ensures { IfOk result (λ lives. lives.items ≡ past_lives irps.now rows.now) }
{
    let mut lives = Vec::new(alloc);
    for row in rows {
        push_past(irps, *row, &mut lives)?;
    }
    Ok(lives)
}
