//! When each number is due.
ghost use Rattle.std.specs.Prelude.{◌≡◌, ◌<◌, ◌≤◌, ◌-◌, ◌+◌, IfOk, IfSome, IfNone, length, drop, replicate, slice_index, slice_set, None};
ghost use Rattle.std.specs.Option.{ForSome};
ghost use Rattle.request_table.specs.Times.{IsFirstDue, NoneIsDue, IsTree};

use irp_core::IrpId;
use std::alloc::{AllocError, Allocator};
use std::marker::Model;

/// The time that never comes: each time at which a number is due is below it. Times are milliseconds of the
/// caller's clock. Own rule.
pub const NEVER: u64 = u64::MAX;

/// When each number is due, in a tree: `times[leaves + n]` is the time of number n, and each node k from 1 to
/// `leaves - 1` has the least of the times of nodes 2k and 2k + 1. So `times[1]` is the least of all.
#[derive(Drop)]
pub(crate) struct Dues<A: Allocator> {
    times: Vec<u64, A>,
    leaves: usize,
}

impl<A: Allocator> Model for Dues<A> {
    ghost use Rattle.std.specs.Prelude.{ℕ, List, Option};

    ghost Value = { List (Option ℕ) };

    ghost use Rattle.request_table.specs.Times.{dues_of, IsTree};

    ghost view = { λ d. dues_of d.leaves d.times.items };

    ghost invariant = { λ d. IsTree d.leaves d.times.items };
}

/// A number that is due, and when.
#[derive(Clone, Copy)]
pub(crate) struct Due {
    pub(crate) irp: IrpId,
    pub(crate) time: u64,
}

impl<A: Allocator> Dues<A> {
    /// No number is due.
    pub(crate) fn new(alloc: A, irps: u32) -> Result<Dues<A>, AllocError>
        requires { 1 ≤ irps }
        ensures { IfOk result (λ dues. dues ≡ replicate irps None) }
    {
        let leaves = irps as usize;
        let times = vec![in alloc; NEVER; 2 * leaves]?;
        Ok(Dues { times, leaves })
    }

    /// Makes a number due at a time, or never. If it was due just then, the tree stays as it is.
    pub(crate) fn set(&mut self, irp: IrpId, due: Option<u64>)
        requires known { irp.0 < length self.old }
        requires time { ForSome due (λ time. time < NEVER) }
        ensures { self.new ≡ slice_set self.old irp.0 due }
    {
        let time = due.unwrap_or(NEVER);
        let leaf = self.leaves + irp.0 as usize;
        if self.times[leaf] != time {
            write_leaf(&mut self.times, self.leaves, leaf, time);
        }
    }

    /// The number that is due first: of those at the least time any one. None if none is due.
    pub(crate) fn first(&self) -> Option<Due>
        ensures first { IfSome result (λ due. IsFirstDue self.now due.irp due.time) }
        ensures none { IfNone result (NoneIsDue self.now) }
    {
        let time = self.times[1];
        if time == NEVER {
            return None;
        }
        let leaf = least_leaf(&self.times, self.leaves);
        Some(Due {
            irp: IrpId((leaf - self.leaves) as u32),
            time,
        })
    }
}

/// Writes the time of a leaf, and then of each node above it.
fn write_leaf(times: &mut [u64], leaves: usize, leaf: usize, time: u64)
    requires tree { IsTree leaves times.old }
    requires leaf { leaves ≤ leaf }
    requires within { leaf < length times.old }
    ensures tree { IsTree leaves times.new }
    ensures times { drop leaves times.new ≡ slice_set (drop leaves times.old) (leaf - leaves) time }
{
    times[leaf] = time;
    let mut node = leaf;
    while node > 1 {
        node /= 2;
        times[node] = times[2 * node].min(times[2 * node + 1]);
    }
}

/// A leaf with the time of node 1, found by going down from there.
fn least_leaf(times: &[u64], leaves: usize) -> usize
    requires { IsTree leaves times.now }
    ensures leaf { leaves ≤ result }
    ensures within { result < length times.now }
    ensures least { slice_index times.now result ≡ slice_index times.now 1 }
{
    let mut node = 1;
    while node < leaves {
        let left = 2 * node;
        node = if times[left] == times[node] {
            left
        } else {
            left + 1
        };
    }
    node
}
