//! What each pass is inside of, and since which line.
ghost use Rattle.std.specs.Prelude.{◌≡◌, replicate, IfOk};
ghost use Rattle.csq_explain.specs.Passes.{new_pass_now, pass_after};

use irp_core::{Inside, Made};
use std::alloc::{AllocError, Allocator};

/// What a pass is inside of, the line on which that call began, and whether the pass made a step.
#[derive(Clone, Copy)]
pub struct PassNow {
    /// The call that the pass has begun, and how far it is.
    pub inside: Inside,
    /// The line of the first step of that call, or of the pass's last one; 0 before its first.
    pub line: usize,
    /// Whether it made a step.
    pub makes: bool,
}

impl PassNow {
    /// A pass that made no step.
    pub(crate) const NEW: PassNow = PassNow {
        inside: Inside::Nothing,
        line: 0,
        makes: false,
    };
}

/// What is known of a pass after its step, which this line names.
pub(crate) fn pass_after(before: PassNow, line: usize, made: Made) -> PassNow
    ensures { result ≡ pass_after before (record { line = line; step = made }) }
{
    let begun = matches!(before.inside, Inside::Nothing);
    PassNow {
        inside: before.inside.after(made.kind, made.found),
        line: if begun { line } else { before.line },
        makes: true,
    }
}

/// These passes, of which none has made a step.
pub(crate) fn new_passes<A: Allocator>(
    alloc: A,
    count: usize,
) -> Result<Vec<PassNow, A>, AllocError>
    ensures { IfOk result (λ passes. passes.items ≡ replicate count new_pass_now) }
{
    vec![in alloc; PassNow::NEW; count]
}
