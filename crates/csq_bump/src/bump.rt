//! The allocator.
ghost use Rattle.std.specs.Prelude.{◌≡◌, ◌+◌, ◌*◌, ◌≤◌, ◌<◌, ◌^◌, IfSome, MatchOption};
ghost use base.Fml.{ftrue};

use crate::room::Room;
use std::alloc::{AllocError, Allocator};
use std::cell::Cell;
use std::mem::ManuallyDrop;

/// How long a piece is, and how it is aligned.
const PIECE: usize = 16;

/// The memory that a host hands in: a room, and how many pieces of 16 bytes it has.
#[repr(C)]
pub struct Memory {
    room: Room,
    pieces: usize,
    ghost counted: { room.pieces ≡ pieces },
}

impl Memory {
    /// A room of this size from the front, and the rest.
    fn take(self, pieces: usize) -> (Option<Room>, Memory)
        requires { pieces * 16 < 2 ^ 64 }
        ensures room { MatchOption result.0 (self.pieces < pieces)
            (λ room. (pieces ≤ self.pieces) × (room.pieces ≡ pieces)) }
        ensures rest { MatchOption result.0 (result.1.pieces ≡ self.pieces)
            (λ _. result.1.pieces + pieces ≡ self.pieces) }
    {
        let Memory { room, pieces: had } = self;
        if pieces > had {
            return (None, Memory { room, pieces: had });
        }
        let (front, rest) = room.cut(pieces);
        (
            Some(front),
            Memory {
                room: rest,
                pieces: had - pieces,
            },
        )
    }
}

// What is left is lost: blocks may be out, and the host asked for nothing back.
impl Drop for Memory {
    fn drop(self) {
        let Memory { room, pieces: _ } = self;
        let _lost = unsafe { ManuallyDrop::new_unchecked(room) };
    }
}

/// Gives each block from the front of what is left, and takes none back. A `&` to it is an allocator that can be copied.
#[derive(Drop)]
pub struct Bump {
    // It holds nothing only while `take` runs.
    left: Cell<Option<Memory>>,
}

impl Bump {
    /// An allocator over this memory.
    pub fn new(memory: Memory) -> Bump {
        Bump {
            left: Cell::new(Some(memory)),
        }
    }

    /// Room for this number of bytes with this alignment, from the front of what is left. None if that is too little, and then
    /// it stays as it is; none for an alignment above 16 either.
    fn take(&self, size: usize, align: usize) -> Option<Room>
        ensures { IfSome result (λ room. (size ≤ room.pieces * 16) × (size < 2 ^ 63) × (align ≤ 16)) }
    {
        if align > PIECE || size > isize::MAX as usize {
            return None;
        }
        let (room, rest) = self.left.take()?.take(size.div_ceil(PIECE));
        self.left.set(Some(rest));
        room
    }
}

unsafe impl Allocator for Bump {
    ghost dealloc_token = { λ _ _ _. ftrue };

    fn allocate(&self, size: usize, align: usize) -> Result<*mut u8, AllocError> {
        match self.take(size, align) {
            Some(Room { at }) => Ok(at),
            None => Err(AllocError),
        }
    }

    unsafe fn deallocate(&self, _ptr: *mut u8, _size: usize, _align: usize) {}
}
