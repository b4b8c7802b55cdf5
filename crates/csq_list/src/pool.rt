//! What every list keeps beside its entries.
ghost use Rattle.std.specs.Prelude.{◌≡◌, ◌≤◌, ◌<◌, ◌==◌, ◌↔◌, ◌&&◌, nat_lt, false, not, List, [], length, replicate, slice_index_or, IsTrue, IfOk, OnOk, IsOk};
ghost use Rattle.std.specs.List.{list_all, find};
ghost use Rattle.std.specs.Result.{result_err};
ghost use Rattle.irp_core.specs.declared.ids.IrpId.{IrpId};
ghost use Rattle.irp_core.specs.declared.limits.TheConstants.{LARGE_MAX_IRPS};
ghost use Rattle.csq_list.specs.declared.entry.Entry.{Entry};
ghost use Rattle.csq_list.specs.declared.size.TheConstants.{LARGE_MAX_FILES};
ghost use Rattle.csq_list.specs.Causes.{is_cause, first_cause, last_causes};
ghost use Rattle.csq_list.specs.Listing.{IsLargeListSize, are_file_limits, fresh, is_file_full, renewed};
ghost use Rattle.csq_list.specs.VecParts.{listing_of, HasFileLens};

use crate::file_counts::FileCounts;
use crate::refusals::InsertStatus;
use crate::size::{are_file_limits, is_large_list_size};
use irp_core::{FileId, IrpId, SizeRefused};
use std::alloc::{AllocError, Allocator};

/// Which IRPs are used, which file objects are closed, how many IRPs may be listed, and how many are
/// and may be for each file object.
#[derive(Drop)]
pub(crate) struct Pool<A: Allocator> {
    pub(crate) used: Vec<bool, A>,
    pub(crate) closed: Vec<bool, A>,
    pub(crate) limit: u32,
    pub(crate) counts: FileCounts<A>,
    ghost files_counted: { length counts.limits.items ≡ length closed.items },
    ghost limit_within: { limit ≤ length used.items },
    ghost irps_small: { length used.items ≤ LARGE_MAX_IRPS },
    ghost files_small: { length closed.items ≤ LARGE_MAX_FILES },
}

fn are_clear(flags: &[bool]) -> bool
    ensures { result ≡ list_all not flags.now }
{
    flags.iter().all(|flag| !*flag)
}

impl<A: Allocator> Pool<A> {
    /// Unused IRPs and open file objects, numbered from 0, and a limit; that of each file object is the
    /// number of IRPs. BadSize if a list may not be made so, and then want of memory.
    pub(crate) fn new(alloc: &A, irps: u32, files: u32, limit: u32) -> Result<Pool<A>, SizeRefused>
    where
        A: Clone,
        ensures made { IfOk result
            (λ pool. listing_of [] pool.used.items pool.closed.items pool.limit
            pool.counts.limits.items ≡ fresh irps files limit (replicate files irps)) }
        ensures none { IfOk result (λ pool. HasFileLens pool.counts.lens.items []) }
        ensures bad_size { (result ≡ Err SizeRefused.BadSize) ↔ ¬ IsLargeListSize irps files limit }
    {
        if !is_large_list_size(irps, files, limit) {
            return Err(SizeRefused::BadSize);
        }
        let counts = FileCounts::new(alloc, files, irps)?;
        Ok(Pool::with_counts(alloc, irps, files, limit, counts)?)
    }

    /// What `new` makes, with a limit for each file object. BadSize also if these aren't such limits.
    pub(crate) fn with_file_limits(
        alloc: &A,
        irps: u32,
        files: u32,
        limit: u32,
        file_limits: &[u32],
    ) -> Result<Pool<A>, SizeRefused>
    where
        A: Clone,
        ensures made { IfOk result
            (λ pool. listing_of [] pool.used.items pool.closed.items pool.limit
            pool.counts.limits.items ≡ fresh irps files limit file_limits.now) }
        ensures none { IfOk result (λ pool. HasFileLens pool.counts.lens.items []) }
        ensures bad_size { (result ≡ Err SizeRefused.BadSize)
            ↔ ¬ (IsLargeListSize irps files limit
            × IsTrue (are_file_limits irps files file_limits.now)) }
    {
        if !is_large_list_size(irps, files, limit) || !are_file_limits(irps, files, file_limits) {
            return Err(SizeRefused::BadSize);
        }
        let counts = FileCounts::with_limits(alloc, file_limits)?;
        Ok(Pool::with_counts(alloc, irps, files, limit, counts)?)
    }

    /// Unused IRPs and open file objects, with these counts.
    fn with_counts(
        alloc: &A,
        irps: u32,
        files: u32,
        limit: u32,
        counts: FileCounts<A>,
    ) -> Result<Pool<A>, AllocError>
    where
        A: Clone,
        requires size { IsLargeListSize irps files limit }
        requires counted { length counts.limits.items ≡ files }
        ensures made { IfOk result
            (λ pool. listing_of [] pool.used.items pool.closed.items pool.limit
            pool.counts.limits.items ≡ fresh irps files limit counts.limits.items) }
        ensures counts { IfOk result (λ pool. pool.counts ≡ counts) }
    {
        let used = vec![in alloc.clone()?; false; irps as usize]?;
        let closed = vec![in alloc.clone()?; false; files as usize]?;
        Ok(Pool {
            used,
            closed,
            limit,
            counts,
        })
    }

    pub(crate) fn irps(&self) -> u32
        ensures { result ≡ length self.now.used.items }
    {
        self.used.len() as u32
    }

    pub(crate) fn files(&self) -> u32
        ensures { result ≡ length self.now.closed.items }
    {
        self.closed.len() as u32
    }

    /// Whether no IRP is used, and no file object closed.
    pub(crate) fn is_clear(&self) -> bool
        ensures { result ≡ (list_all not self.now.used.items
            && list_all not self.now.closed.items) }
    {
        are_clear(&self.used) && are_clear(&self.closed)
    }

    /// Whether the IRP is known and unused.
    pub(crate) fn is_home(&self, irp: IrpId) -> bool
        ensures { result ≡ (nat_lt irp.0 (length self.now.used.items)
            && not (slice_index_or self.now.used.items irp.0 false)) }
    {
        (irp.0 as usize) < self.used.len() && !self.used[irp.0 as usize]
    }

    /// Refuses an insert for the first cause that holds, if the counts are those of the entries.
    /// Whether the list is full is for the caller to say.
    pub(crate) fn may_insert(
        &self,
        full: bool,
        irp: IrpId,
        file: FileId,
    ) -> Result<(), InsertStatus>
        ensures cause { (entries : List Entry) → HasFileLens self.now.counts.lens.items entries
            → full ≡ (length entries == self.now.limit)
            → result_err result ≡ first_cause
            (listing_of entries self.now.used.items self.now.closed.items self.now.limit
            self.now.counts.limits.items) irp file }
        ensures known { OnOk result
            ((irp.0 < length self.now.used.items) × (file.0 < length self.now.closed.items)) }
        ensures home { OnOk result (slice_index_or self.now.used.items irp.0 false ≡ false) }
        ensures file_room { (entries : List Entry) → HasFileLens self.now.counts.lens.items entries
            → OnOk result (is_file_full
            (listing_of entries self.now.used.items self.now.closed.items self.now.limit
            self.now.counts.limits.items) file ≡ false) }
        ensures room { OnOk result (full ≡ false) }
    {
        if irp.0 as usize >= self.used.len() {
            return Err(InsertStatus::UnknownIrp);
        }
        if file.0 as usize >= self.closed.len() {
            return Err(InsertStatus::UnknownFile);
        }
        if self.used[irp.0 as usize] {
            return Err(InsertStatus::NotHome);
        }
        self.may_list(full, file)
    }

    /// Refuses a put-back of a known IRP for the first cause that holds of an insert of it once it were
    /// renewed, if the counts are those of the entries. Whether the list is full is for the caller to
    /// say.
    pub(crate) fn may_put_back(&self, full: bool, file: FileId) -> Result<(), InsertStatus>
        ensures cause { (entries : List Entry) → HasFileLens self.now.counts.lens.items entries
            → full ≡ (length entries == self.now.limit)
            → (irp : IrpId) → irp.0 < length self.now.used.items
            → result_err result ≡ first_cause (renewed irp
            (listing_of entries self.now.used.items self.now.closed.items self.now.limit
            self.now.counts.limits.items)) irp file }
        ensures known { OnOk result (file.0 < length self.now.closed.items) }
        ensures file_room { (entries : List Entry) → HasFileLens self.now.counts.lens.items entries
            → OnOk result (is_file_full
            (listing_of entries self.now.used.items self.now.closed.items self.now.limit
            self.now.counts.limits.items) file ≡ false) }
        ensures room { OnOk result (full ≡ false) }
    {
        if file.0 as usize >= self.closed.len() {
            return Err(InsertStatus::UnknownFile);
        }
        self.may_list(full, file)
    }

    /// Refuses to list an IRP for a known file object, for the first of the causes that are tested last.
    #[inline(always)]
    fn may_list(&self, full: bool, file: FileId) -> Result<(), InsertStatus>
        requires known { file.0 < length self.now.closed.items }
        ensures cause { (entries : List Entry) → HasFileLens self.now.counts.lens.items entries
            → full ≡ (length entries == self.now.limit)
            → (irp : IrpId) → result_err result ≡ find (is_cause
            (listing_of entries self.now.used.items self.now.closed.items self.now.limit
            self.now.counts.limits.items) irp file) last_causes }
        ensures file_room { (entries : List Entry) → HasFileLens self.now.counts.lens.items entries
            → OnOk result (is_file_full
            (listing_of entries self.now.used.items self.now.closed.items self.now.limit
            self.now.counts.limits.items) file ≡ false) }
        ensures room { OnOk result (full ≡ false) }
    {
        if self.closed[file.0 as usize] {
            return Err(InsertStatus::FileClosed);
        }
        if self.counts.is_full(file) {
            return Err(InsertStatus::FileFull);
        }
        if full {
            return Err(InsertStatus::Full);
        }
        Ok(())
    }
}
