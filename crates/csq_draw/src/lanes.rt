//! The lanes beside the column of a pass, in which the lines of the IRPs run that it owes or holds.
ghost use Rattle.std.specs.Prelude.{◌≡◌};
ghost use Rattle.csq_draw.specs.Lanes.{is_in_lane, is_taken, free_lane, lane_for};

use crate::owners::Owner;
use irp_core::PassId;

/// How many lanes beside a column have one line at a time. In the lane after them further lines run on each
/// other. Own rule.
pub(crate) const LANES: u32 = 8;

/// Whether an IRP's owner is this pass, in this lane.
#[tactic(auto, unfolding(irp_core::specs::Steps::same_pass))]
fn is_in_lane(pass: PassId, lane: u32, owner: Option<Owner>) -> bool
    ensures { result ≡ is_in_lane pass lane owner }
{
    match owner {
        Some(owner) => owner.pass == pass && owner.lane == lane,
        None => false,
    }
}

/// Whether a pass has one of the IRPs with these owners in this lane.
fn is_taken(owners: &[Option<Owner>], pass: PassId, lane: u32) -> bool
    ensures { result ≡ is_taken owners.now pass lane }
{
    owners.iter().any(|owner| is_in_lane(pass, lane, *owner))
}

/// The first lane that a pass has free, or the one after all lanes.
fn free_lane(owners: &[Option<Owner>], pass: PassId) -> u32
    ensures { result ≡ free_lane owners.now pass }
{
    for lane in 0..LANES {
        if !is_taken(owners, pass, lane) {
            return lane;
        }
    }
    LANES
}

/// In which lane a pass comes to have an IRP: if it has the IRP already, the lane stays.
#[tactic(auto, unfolding(irp_core::specs::Steps::same_pass))]
pub(crate) fn lane_for(owners: &[Option<Owner>], pass: PassId, before: Option<Owner>) -> u32
    ensures { result ≡ lane_for owners.now pass before }
{
    match before {
        Some(owner) if owner.pass == pass => owner.lane,
        _ => free_lane(owners, pass),
    }
}
