//! Memory in which nothing lies, and how it is cut in two.
ghost use Rattle.std.specs.Prelude.{◌≡◌, ℕ, ◌-◌, ◌*◌, ◌^◌, ◌≤◌, ◌<◌};
ghost use Rattle.csq_bump.specs.Rooms.{room_of};

use std::marker::Model;

/// Pieces of 16 bytes, aligned to 16, in which nothing lies. Its holder owns them.
#[repr(C)]
pub(crate) struct Room {
    pub(crate) at: *mut u8,
    /// How many.
    pub(crate) ghost pieces: { ℕ },
}

impl Model for Room {
    ghost also_owns = { λ r. room_of r.pieces r.at };
}

impl Room {
    /// The first pieces, and the others.
    pub(crate) fn cut(self, pieces: usize) -> (Room, Room)
        requires { (pieces ≤ self.pieces) × (pieces * 16 < 2 ^ 64) }
        ensures { (result.0.pieces ≡ pieces) × (result.1.pieces ≡ self.pieces - pieces) }
    {
        let Room { at } = self;
        let rest = unsafe { at.add(pieces * 16) };
        (Room { at }, Room { at: rest })
    }
}
