//! How many IRPs and passes there may be.
ghost use Rattle.std.specs.Prelude.{◌↔◌, IsTrue};
ghost use Rattle.irp_core.specs.Runs.{IsInLimits, IsInLargeLimits};

use crate::ids::Life;

/// The most IRPs of what `new` and `new_at` make. This project's own limit.
pub const MAX_IRPS: u32 = 1024;

/// The most passes of what `new` and `new_at` make. This project's own limit.
pub const MAX_PASSES: u32 = 64;

/// The most IRPs that there can be: those of what `large` makes. This project's own limit.
pub const LARGE_MAX_IRPS: u32 = 65_535;

/// The most passes that there can be: those of what `large` makes. This project's own limit.
pub const LARGE_MAX_PASSES: u32 = 1_024;

/// Whether there may be so many IRPs and passes, 1 to `MAX_IRPS` and 1 to `MAX_PASSES`, with all IRPs in
/// this life, at most 2^30 - 1. This project's own limits.
pub fn are_in_limits(irps: u32, passes: u32, first: Life) -> bool
    ensures { IsTrue result
        ↔ IsInLimits (record { irps = irps; passes = passes; first = first.0 }) }
{
    (1..=MAX_IRPS).contains(&irps) && (1..=MAX_PASSES).contains(&passes) && first.0 <= Life::LAST.0
}

/// As `are_in_limits`, but up to `LARGE_MAX_IRPS` and `LARGE_MAX_PASSES`. Own rule.
pub fn are_in_large_limits(irps: u32, passes: u32, first: Life) -> bool
    ensures { IsTrue result
        ↔ IsInLargeLimits (record { irps = irps; passes = passes; first = first.0 }) }
{
    (1..=LARGE_MAX_IRPS).contains(&irps)
        && (1..=LARGE_MAX_PASSES).contains(&passes)
        && first.0 <= Life::LAST.0
}
