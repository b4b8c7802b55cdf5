//! Who has the lock as a step is made, and the columns of the passes.
ghost use Rattle.std.specs.Prelude.{◌≡◌, ◌<◌, ◌≤◌, length, position, IfSome};
ghost use Rattle.irp_core.specs.Inside.{has_lock};
ghost use Rattle.csq_draw.specs.Passes.{lock_of, lock_at, makes_step, columns, column_of};

use csq_explain::PassNow;
use irp_core::{Made, PassId};

/// The number of the pass that has the lock.
fn lock_number(passes: &[PassNow]) -> Option<usize>
    ensures number { result ≡ position (λ now. has_lock now.inside) passes.now }
    ensures bound { IfSome result (λ number. number < length passes.now) }
{
    passes.iter().position(|now| now.inside.has_lock())
}

/// The pass that has the lock.
pub(crate) fn lock_of(passes: &[PassNow]) -> Option<PassId>
    requires { length passes.now ≤ 65 }
    ensures { result ≡ lock_of passes.now }
{
    match lock_number(passes) {
        Some(number) => Some(PassId(number as u32)),
        None => None,
    }
}

/// The pass that has the lock as a step is made: the one that makes it, if it needs the lock, otherwise the one before.
pub(crate) fn lock_at(held: Option<PassId>, made: Made) -> Option<PassId>
    ensures { result ≡ lock_at held made }
{
    if made.kind.needs_lock() {
        Some(made.pass)
    } else {
        held
    }
}

/// Whether a pass makes a step.
pub(crate) fn makes_step(passes: &[PassNow], pass: PassId) -> bool
    ensures { result ≡ makes_step passes.now pass }
{
    let number = pass.0 as usize;
    if number < passes.len() {
        passes[number].makes
    } else {
        false
    }
}

/// How many of these passes make a step: each has a column.
pub(crate) fn columns(passes: &[PassNow]) -> u32
    requires { length passes.now ≤ 65 }
    ensures { result ≡ columns passes.now }
{
    passes.iter().filter(|now| now.makes).count() as u32
}

/// The column of a pass, from 0 on: as many passes before it make a step.
pub(crate) fn column_of(passes: &[PassNow], pass: PassId) -> u32
    requires { length passes.now ≤ 65 }
    ensures { result ≡ column_of passes.now pass }
{
    let before = passes.len().min(pass.0 as usize);
    columns(&passes[..before])
}
