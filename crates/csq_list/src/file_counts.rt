//! How many IRPs each file has listed, and how many it may have.
ghost use Rattle.std.specs.Prelude.{◌≡◌, ◌<◌, ◌≤◌, ◌+◌, ◌-◌, ◌^◌, ◌==◌, ◌&&◌, nat_lt, if◌then◌else◌, Some, None, IfOk, length, replicate, set, slice_index_or};

use irp_core::FileId;
use std::alloc::{AllocError, Allocator};

/// For each file how many IRPs are listed for it, and how many may be.
#[derive(Drop)]
pub(crate) struct FileCounts<A: Allocator> {
    lens: Vec<u32, A>,
    limits: Vec<u32, A>,
    ghost same_files: { length lens.items ≡ length limits.items },
}

impl<A: Allocator> FileCounts<A> {
    /// Nothing is listed, and each file may have as many as this.
    pub(crate) fn new(alloc: &A, files: u32, limit: u32) -> Result<FileCounts<A>, AllocError>
    where
        A: Clone,
        ensures none { IfOk result (λ counts. counts.lens.items ≡ replicate files 0) }
        ensures limits { IfOk result (λ counts. counts.limits.items ≡ replicate files limit) }
    {
        let limits = vec![in alloc.clone()?; limit; files as usize]?;
        let lens = vec![in alloc.clone()?; 0; files as usize]?;
        Ok(FileCounts { lens, limits })
    }

    /// Nothing is listed, and each file has its limit.
    pub(crate) fn with_limits(alloc: &A, limits: &[u32]) -> Result<FileCounts<A>, AllocError>
    where
        A: Clone,
        ensures none { IfOk result (λ counts. counts.lens.items ≡ replicate (length limits.now) 0) }
        ensures limits { IfOk result (λ counts. counts.limits.items ≡ limits.now) }
    {
        let lens = vec![in alloc.clone()?; 0; limits.len()]?;
        let limits = Vec::from_slice(alloc.clone()?, limits)?;
        Ok(FileCounts { lens, limits })
    }

    /// How many are listed for a file.
    pub(crate) fn len(&self, file: FileId) -> u32
        ensures { result ≡ slice_index_or self.now.lens.items file.0 0 }
    {
        if file.0 as usize >= self.lens.len() {
            return 0;
        }
        self.lens[file.0 as usize]
    }

    /// How many may be, if there is such a file.
    pub(crate) fn limit(&self, file: FileId) -> Option<u32>
        ensures { result ≡ (if nat_lt file.0 (length self.now.limits.items)
            then Some (slice_index_or self.now.limits.items file.0 0) else None) }
    {
        if file.0 as usize >= self.limits.len() {
            return None;
        }
        Some(self.limits[file.0 as usize])
    }

    /// Whether as many are as may be.
    pub(crate) fn is_full(&self, file: FileId) -> bool
        ensures { result ≡ (nat_lt file.0 (length self.now.limits.items)
            && (slice_index_or self.now.lens.items file.0 0 == slice_index_or self.now.limits.items
            file.0 0)) }
    {
        (file.0 as usize) < self.limits.len()
            && self.lens[file.0 as usize] == self.limits[file.0 as usize]
    }

    /// One more is listed.
    pub(crate) fn add(&mut self, file: FileId)
        requires known { file.0 < length self.old.lens.items }
        requires fits { slice_index_or self.old.lens.items file.0 0 + 1 < 2 ^ 32 }
        ensures lens { self.new.lens.items
            ≡ set self.old.lens.items file.0 (slice_index_or self.old.lens.items file.0 0 + 1) }
        ensures limits { self.new.limits ≡ self.old.limits }
    {
        self.lens[file.0 as usize] += 1;
    }

    /// One less is listed.
    pub(crate) fn take(&mut self, file: FileId)
        requires known { file.0 < length self.old.lens.items }
        requires some { 1 ≤ slice_index_or self.old.lens.items file.0 0 }
        ensures lens { self.new.lens.items
            ≡ set self.old.lens.items file.0 (slice_index_or self.old.lens.items file.0 0 - 1) }
        ensures limits { self.new.limits ≡ self.old.limits }
    {
        self.lens[file.0 as usize] -= 1;
    }
}
