//! The table of requests.
ghost use Rattle.std.specs.Prelude.{◌≡◌, ◌==◌, ◌<◌, ◌≤◌, ◌+◌, ◌-◌, ◌↔◌, Err, IfOk, IfSome, IfNone, IsTrue, None, Some, true, length, drop, slice_get, slice_set, IsSome};
ghost use Rattle.std.specs.Option.{ForSome};
ghost use Rattle.std.specs.VecDeque.{deque_capacity, deque_len};
ghost use Rattle.request_table.specs.Stages.{file_of, is_under_way, is_listed, is_taken, may_be_due, may_finish, as_taken, as_listed, as_named, as_ending};
ghost use Rattle.request_table.specs.Times.{IsOver, NoneIsOver, IsNextDue, NoneIsDue};
ghost use Rattle.request_table.specs.Requests.{IsSound, IsTableSize, stage_of, due_of, under_way, under_way_of_all, fresh, ids_below, begun, with_stage, with_due, stage_after, free_after, finished};
ghost use Rattle.request_table.specs.Refusals.{refusal_to_begin};

use crate::dues::{Dues, NEVER};
use crate::refusals::BeginRefused;
use crate::stage::{Ended, Stage, Why};
use irp_core::{FileId, IrpId, LARGE_MAX_IRPS, SizeRefused};
use std::alloc::{AllocError, Allocator, Global};
use std::collections::VecDeque;
use std::marker::Model;

/// The most file objects of a table. This project's own limit.
pub const MAX_FILES: u32 = 65_535;

/// Which number is free, listed, taken, ending or spent, for which file object, and when it is due. A call
/// takes constant time, except that `expire`, `next_due` and a call by which a number becomes due or stops
/// being due take time in proportion to the logarithm of the number of IRPs, and `new` in proportion to the
/// numbers of IRPs and file objects. Only `new` takes memory. Own rule.
#[derive(Drop)]
pub struct RequestTable<A: Allocator = Global> {
    stages: Vec<Stage, A>,
    // Used as a ring: the first has been free longest.
    free: VecDeque<IrpId, A>,
    dues: Dues<A>,
    // How many requests are under way for each file, and for all.
    lens: Vec<u32, A>,
    all: u32,
    closed: bool,
    closed_files: Vec<bool, A>,
}

impl<A: Allocator> Model for RequestTable<A> {
    ghost use Rattle.std.specs.VecDeque.{deque_capacity};
    ghost use Rattle.request_table.specs.Requests.{Requests};
    ghost use Rattle.request_table.specs.Parts.{IsKept, requests_of};

    ghost Value = { Requests };

    ghost view = { λ t. requests_of t.stages.items t.free.items t.dues t.closed
        t.closed_files.items };

    ghost invariant = { λ t. IsKept t.lens.items t.all (deque_capacity t.free)
        (requests_of t.stages.items t.free.items t.dues t.closed t.closed_files.items) };
}

impl<A: Allocator> RequestTable<A> {
    /// A table of this many IRPs and file objects, numbered from 0. Each number is free, the lowest one
    /// first, and no file object is closed. All memory is taken here, from `alloc`.
    ///
    /// `BadSize` comes exactly if `irps` is outside 1 to `LARGE_MAX_IRPS` or `files` outside 1 to
    /// `MAX_FILES` (this project's own limits), then `Memory`.
    pub fn new(alloc: A, irps: u32, files: u32) -> Result<RequestTable<A>, SizeRefused>
    where
        A: Clone,
        ensures made { IfOk result (λ table. table ≡ fresh irps files) }
        ensures bad_size { (result ≡ Err SizeRefused.BadSize) ↔ ¬ IsTableSize irps files }
    {
        if !(1..=LARGE_MAX_IRPS).contains(&irps) || !(1..=MAX_FILES).contains(&files) {
            return Err(SizeRefused::BadSize);
        }
        Ok(RequestTable::with_size(alloc, irps, files)?)
    }

    /// A table of a size that is in range.
    fn with_size(alloc: A, irps: u32, files: u32) -> Result<RequestTable<A>, AllocError>
    where
        A: Clone,
        requires size { IsTableSize irps files }
        ensures made { IfOk result (λ table. table ≡ fresh irps files) }
    {
        Ok(RequestTable {
            stages: vec![in alloc.clone()?; Stage::Free; irps as usize]?,
            free: all_numbers(alloc.clone()?, irps)?,
            dues: Dues::new(alloc.clone()?, irps)?,
            lens: vec![in alloc.clone()?; 0; files as usize]?,
            all: 0,
            closed: false,
            closed_files: vec![in alloc; false; files as usize]?,
        })
    }

    /// What holds of every table: a number stands among the free ones once if its stage is Free and else
    /// never, what is due is Listed or Taken, and what is under way is for a known file. Nothing is run.
    pub fn sound(&self)
        ensures { IsSound self.now }
    {
        let _ = &self.closed;
    }

    /// The number of IRPs, which are numbered from 0.
    pub fn irps(&self) -> u32
        ensures { result ≡ length self.now.stages }
    {
        self.stages.len() as u32
    }

    /// The number of file objects, which are numbered from 0.
    pub fn files(&self) -> u32
        ensures { result ≡ length self.now.closed_files }
    {
        self.closed_files.len() as u32
    }

    /// The stage of a number; Spent for one that there isn't.
    pub fn stage(&self, irp: IrpId) -> Stage
        ensures { result ≡ stage_of self.now irp }
    {
        if irp.0 as usize >= self.stages.len() {
            return Stage::Spent;
        }
        self.stages[irp.0 as usize]
    }

    /// How many requests are under way for a file: Listed, Taken or Ending. 0 for an unknown file.
    pub fn len(&self, file: FileId) -> u32
        ensures { result ≡ under_way self.now file }
    {
        if file.0 as usize >= self.lens.len() {
            return 0;
        }
        self.lens[file.0 as usize]
    }

    /// How many requests are under way for all files.
    pub fn len_of_all(&self) -> u32
        ensures { result ≡ under_way_of_all self.now }
    {
        self.all
    }

    /// Why no request for this file may begin: the first cause that holds, in the order of
    /// `BeginRefused`. None if one may.
    pub fn refusal_to_begin(&self, file: FileId) -> Option<BeginRefused>
        ensures { result ≡ refusal_to_begin self.now file }
    {
        if file.0 as usize >= self.closed_files.len() {
            return Some(BeginRefused::UnknownFile);
        }
        if self.closed {
            return Some(BeginRefused::Closed);
        }
        if self.closed_files[file.0 as usize] {
            return Some(BeginRefused::FileClosed);
        }
        if !self.free.is_empty() {
            return None;
        }
        if self.all == 0 {
            return Some(BeginRefused::AllSpent);
        }
        Some(BeginRefused::AllUnderWay)
    }

    /// The number that the next request gets: the one that has been free longest. None if none is free.
    pub fn next_free(&self) -> Option<IrpId>
        ensures first { result ≡ slice_get self.now.free 0 }
        ensures known { IfSome result (λ irp. irp.0 < length self.now.stages) }
        ensures free { IfSome result (λ irp. stage_of self.now irp ≡ Stage.Free) }
    {
        self.free.front().copied()
    }

    /// Begins a request for a file: the number that has been free longest becomes Listed, due at this time,
    /// in milliseconds of the caller's clock, or never, and is returned.
    pub fn list(&mut self, file: FileId, due: Option<u64>) -> IrpId
        requires may_begin { refusal_to_begin self.old file ≡ None }
        requires time { ForSome due (λ time. time < NEVER) }
        ensures first { slice_get self.old.free 0 ≡ Some result }
        ensures listed { self.new ≡ with_due result due (begun result file self.old) }
    {
        let irp = self.list_first(file);
        self.set_due(irp, due);
        irp
    }

    /// Hands a listed request to a worker: it becomes Taken, and nothing has named it. Its time stays.
    pub fn take(&mut self, irp: IrpId)
        requires { IsTrue (is_listed (stage_of self.old irp)) }
        ensures { self.new ≡ with_stage irp (as_taken (stage_of self.old irp)) self.old }
    {
        let Stage::Listed { file } = self.stage(irp) else {
            unreachable!()
        };
        self.set_stage(irp, Stage::Taken { file, named: None });
    }

    /// Lists a taken request again. Its time stays, and what named it is forgotten.
    pub fn list_again(&mut self, irp: IrpId)
        requires { IsTrue (is_taken (stage_of self.old irp)) }
        ensures { self.new ≡ with_stage irp (as_listed (stage_of self.old irp)) self.old }
    {
        let Stage::Taken { file, .. } = self.stage(irp) else {
            unreachable!()
        };
        self.set_stage(irp, Stage::Listed { file });
    }

    /// Names a taken request. What named it first stays.
    pub fn name(&mut self, irp: IrpId, why: Why)
        requires { IsTrue (is_taken (stage_of self.old irp)) }
        ensures { self.new ≡ with_stage irp (as_named why (stage_of self.old irp)) self.old }
    {
        if let Stage::Taken { file, named: None } = self.stage(irp) {
            let named = Some(why);
            self.set_stage(irp, Stage::Taken { file, named });
        }
    }

    /// Begins the end of a listed request, for this reason: it becomes Ending, and isn't due any more.
    pub fn begin_end(&mut self, irp: IrpId, why: Why)
        requires { IsTrue (is_listed (stage_of self.old irp)) }
        ensures { self.new ≡ with_due irp None
            (with_stage irp (as_ending why (stage_of self.old irp)) self.old) }
    {
        let Stage::Listed { file } = self.stage(irp) else {
            unreachable!()
        };
        self.set_due(irp, None);
        self.set_stage(irp, Stage::Ending { file, why });
    }

    /// Ends a request that is Taken or Ending. Its number is spent if the caller says so; else it is free
    /// again, as the last of those that are. It isn't due any more. Returns its file, and whether no
    /// request is under way any more for the file, and for all.
    pub fn finish(&mut self, irp: IrpId, spent: bool) -> Ended
        requires { IsTrue (may_finish (stage_of self.old irp)) }
        ensures finished { self.new ≡ with_due irp None (finished irp spent self.old) }
        ensures file { file_of (stage_of self.old irp) ≡ Some result.file }
        ensures file_is_quiet { result.file_is_quiet ≡ (under_way self.new result.file == 0) }
        ensures all_are_quiet { result.all_are_quiet ≡ (under_way_of_all self.new == 0) }
    {
        let Some(file) = self.stage(irp).file() else {
            unreachable!()
        };
        self.set_due(irp, None);
        self.let_go(irp, file, spent);
        Ended {
            file,
            file_is_quiet: self.len(file) == 0,
            all_are_quiet: self.len_of_all() == 0,
        }
    }

    /// A number that is due at this time or before: the one that is due first, of several at the same time
    /// any one. It is Listed or Taken, stays so, and isn't due any more. None if none is due by then.
    pub fn expire(&mut self, now: u64) -> Option<IrpId>
        ensures over { IfSome result (IsOver self.old.dues now) }
        ensures waits { IfSome result (λ irp. IsTrue (may_be_due (stage_of self.old irp))) }
        ensures expired { IfSome result (λ irp. self.new ≡ with_due irp None self.old) }
        ensures none_over { IfNone result (NoneIsOver self.old.dues now) }
        ensures none { IfNone result (self.new ≡ self.old) }
    {
        let first = self.dues.first()?;
        if first.time > now {
            return None;
        }
        self.set_due(first.irp, None);
        Some(first.irp)
    }

    /// The least time at which a number is due. None if none is.
    pub fn next_due(&self) -> Option<u64>
        ensures some { IfSome result (IsNextDue self.now.dues) }
        ensures none { IfNone result (NoneIsDue self.now.dues) }
    {
        let first = self.dues.first()?;
        Some(first.time)
    }

    /// Refuses further requests as Closed. A closed table may be closed again.
    pub fn close(&mut self)
        ensures { self.new ≡ record self.old { closed = true } }
    {
        self.closed = true;
    }

    /// Refuses further requests for a file as FileClosed. A closed file may be closed again.
    pub fn close_file(&mut self, file: FileId)
        requires { file.0 < length self.old.closed_files }
        ensures { self.new ≡ record self.old
            { closed_files = slice_set self.old.closed_files file.0 true } }
    {
        self.closed_files[file.0 as usize] = true;
    }

    /// Lists the number that has been free longest, for a file.
    fn list_first(&mut self, file: FileId) -> IrpId
        requires { refusal_to_begin self.old file ≡ None }
        ensures first { slice_get self.old.free 0 ≡ Some result }
        ensures known { result.0 < length self.new.stages }
        ensures waits { IsTrue (may_be_due (stage_of self.new result)) }
        ensures begun { self.new ≡ begun result file self.old }
    {
        let Some(irp) = self.free.pop_front() else {
            // A request may begin only if a number is free.
            unreachable!()
        };
        self.lens[file.0 as usize] += 1;
        self.all += 1;
        self.stages[irp.0 as usize] = Stage::Listed { file };
        irp
    }

    /// Makes a number due at a time, or never.
    fn set_due(&mut self, irp: IrpId, due: Option<u64>)
        requires known { irp.0 < length self.old.stages }
        requires time { ForSome due (λ time. time < NEVER) }
        requires waits { IsSome due → IsTrue (may_be_due (stage_of self.old irp)) }
        ensures { self.new ≡ with_due irp due self.old }
    {
        self.dues.set(irp, due);
    }

    /// Writes the stage of a request that stays under way for its file.
    fn set_stage(&mut self, irp: IrpId, stage: Stage)
        requires under_way { IsTrue (is_under_way (stage_of self.old irp)) }
        requires file { file_of stage ≡ file_of (stage_of self.old irp) }
        requires waits { IsSome (due_of self.old irp) → IsTrue (may_be_due stage) }
        ensures { self.new ≡ with_stage irp stage self.old }
    {
        self.stages[irp.0 as usize] = stage;
    }

    /// Frees or spends the number of a request for this file.
    fn let_go(&mut self, irp: IrpId, file: FileId, spent: bool)
        requires file { file_of (stage_of self.old irp) ≡ Some file }
        requires due { due_of self.old irp ≡ None }
        ensures { self.new ≡ finished irp spent self.old }
    {
        self.lens[file.0 as usize] -= 1;
        self.all -= 1;
        self.stages[irp.0 as usize] = stage_after(spent);
        put_back(&mut self.free, irp, spent);
    }
}

/// All numbers below this one, in order, with room for no more.
fn all_numbers<A: Allocator>(alloc: A, irps: u32) -> Result<VecDeque<IrpId, A>, AllocError>
    ensures numbers { IfOk result (λ free. free.items ≡ ids_below irps) }
    ensures room { IfOk result (λ free. deque_capacity free ≡ irps) }
{
    let mut free = VecDeque::with_capacity(alloc, irps as usize)?;
    for number in 0..irps {
        free.push_back_reserved(IrpId(number));
    }
    Ok(free)
}

/// The stage of a number whose request has ended.
fn stage_after(spent: bool) -> Stage
    ensures { result ≡ stage_after spent }
{
    if spent { Stage::Spent } else { Stage::Free }
}

/// Puts a number last among the free ones, unless it is spent.
fn put_back<A: Allocator>(free: &mut VecDeque<IrpId, A>, irp: IrpId, spent: bool)
    requires { deque_len free.old < deque_capacity free.old }
    ensures free { free.new.items ≡ free_after spent irp free.old.items }
    ensures room { deque_capacity free.new ≡ deque_capacity free.old }
{
    if !spent {
        free.push_back_reserved(irp);
    }
}
