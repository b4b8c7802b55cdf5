//! The allocator, and how it counts its calls.
ghost use Rattle.std.specs.Prelude.{◌≡◌};

use std::alloc::{AllocError, Allocator};
use std::sync::atomic::{AtomicBool, AtomicU64, Ordering};

/// Which call for memory is refused.
#[derive(Drop)]
pub struct Ration {
    /// The number of the call that is refused; the first has number 0.
    pub refused: u64,
    calls: AtomicU64,
    is_used_up: AtomicBool,
}

impl Ration {
    /// Counts a call, and returns whether it is refused.
    fn refuses(&self) -> bool {
        let call = self.calls.fetch_add(1, Ordering::SeqCst);
        call == self.refused || self.is_used_up.load(Ordering::SeqCst)
    }

    /// Whether the one call that is refused was made.
    fn has_refused(&self) -> bool {
        self.calls.load(Ordering::SeqCst) > self.refused
    }
}

/// Passes each call on to another allocator, except one call for memory, which it refuses. Threads may
/// share it. What is freed goes back to the other one. Own rule.
#[derive(Drop)]
pub struct RefusingHeap<B: Allocator> {
    /// Whose memory it is.
    pub inner: B,
    /// Which call is refused.
    pub ration: Ration,
}

impl<B: Allocator> RefusingHeap<B> {
    /// Memory of `inner`, of which the call of this number is refused; the first has number 0. Own rule.
    pub fn new(inner: B, refused: u64) -> RefusingHeap<B>
        ensures inner { result.inner ≡ inner }
        ensures refused { result.ration.refused ≡ refused }
    {
        RefusingHeap {
            inner,
            ration: Ration {
                refused,
                calls: AtomicU64::new(0),
                is_used_up: AtomicBool::new(false),
            },
        }
    }

    /// Whether the one call that is refused was made. Own rule.
    pub fn has_refused(&self) -> bool {
        self.ration.has_refused()
    }

    /// Each call for memory is refused from now on. Own rule.
    pub fn refuse_all(&self) {
        self.ration.is_used_up.store(true, Ordering::SeqCst);
    }
}

unsafe impl<B: Allocator> Allocator for RefusingHeap<B> {
    ghost dealloc_token = { λ heap ty ptr. B.dealloc_token heap.inner ty ptr };

    fn allocate(&self, size: usize, align: usize) -> Result<*mut u8, AllocError> {
        if self.ration.refuses() {
            return Err(AllocError);
        }
        self.inner.allocate(size, align)
    }

    unsafe fn deallocate(&self, ptr: *mut u8, size: usize, align: usize) {
        self.inner.deallocate(ptr, size, align);
    }
}

#[cfg(test)]
mod tests {
    use super::RefusingHeap;
    use std::test::Fail;

    /// The call of each number is refused alone, and what is asked for before and after is had.
    #[test]
    fn one_call_is_refused(rt: HostRuntime) -> Result<(), Fail> {
        for refused in 0..4 {
            let heap = RefusingHeap::new(rt.alloc(), refused);
            for call in 0..4 {
                assert_eq!(rt; heap.has_refused(), call > refused);
                let piece = Vec::<u64, _>::with_capacity(&heap, 8);
                assert_eq!(rt; piece.is_ok(), call != refused);
            }
        }
        Ok(())
    }

    /// From then on no call is granted; what was had before is had, and can be given back.
    #[test]
    fn all_calls_are_refused(rt: HostRuntime) -> Result<(), Fail> {
        let heap = RefusingHeap::new(rt.alloc(), 100);
        let mut text = String::from_str(&heap, "kept")?;
        heap.refuse_all();
        for _ in 0..4 {
            assert!(rt; Vec::<u64, _>::with_capacity(&heap, 8).is_err());
        }
        assert!(rt; text.push_str(" and no longer than this").is_err());
        assert_eq!(rt; text.as_str(), "kept");
        assert!(rt; !heap.has_refused());
        Ok(())
    }
}
