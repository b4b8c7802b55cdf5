//! A list whose kind is chosen when it is made.
ghost use Rattle.std.specs.Prelude.{◌≡◌, ◌↔◌, IfOk, Err, IsTrue, replicate};
ghost use Rattle.csq_list.specs.Listing.{fresh, IsLargeListSize, are_file_limits};
ghost use Rattle.csq_list.specs.AnyLists.{kind_of, kind_for, any_listing, any_sound};

use crate::chain_list::ChainList;
use crate::entry::{Peek, Place};
use crate::pending::PendingList;
use crate::refusals::{InsertStatus, UnknownFile};
use crate::vec_list::VecList;
use irp_core::{FileId, IrpId, SizeRefused};
use std::alloc::Global;

/// How a list is kept. Own rule.
#[derive(Clone, Copy, Debug, PartialEq, Eq)]
pub enum ListKind {
    /// In one vector (`VecList`).
    Vector,
    /// In chains (`ChainList`).
    Chains,
}

/// For up to how many IRPs `for_irps` chooses the vector. A compromise: with 64 listed the vector's ends are
/// somewhat faster than the chains', and its middle takes twice as long. This project's own choice.
pub const VECTOR_IRPS: u32 = 64;

impl ListKind {
    /// The kind for so many IRPs, if nothing is known of how they will be removed: the vector for up to
    /// `VECTOR_IRPS`, since a removal from its middle moves few entries then, else the chains. Own rule.
    pub fn for_irps(irps: u32) -> ListKind
        ensures { result ≡ kind_for irps }
    {
        if irps <= VECTOR_IRPS {
            ListKind::Vector
        } else {
            ListKind::Chains
        }
    }
}

/// A pending list of either kind. Own rule.
#[derive(Drop)]
pub enum AnyList {
    Vector(VecList),
    Chains(ChainList),
}

/// Makes a call on the list inside, of whichever kind it is. Own rule.
macro_rules! inner {
    ($any:expr, $list:ident => $call:expr) => {
        match $any {
            AnyList::Vector($list) => $call,
            AnyList::Chains($list) => $call,
        }
    };
}

impl AnyList {
    /// An empty list of this kind, as `VecList::large` makes it. `BadSize` comes exactly if a number is out
    /// of its range, then `Memory` if an allocation was refused.
    pub fn new(
        alloc: Global,
        kind: ListKind,
        irps: u32,
        files: u32,
        limit: u32,
    ) -> Result<AnyList, SizeRefused>
        ensures made { IfOk result (λ list. ⟦<AnyList as PendingList>⟧.listing list
            ≡ fresh irps files limit (replicate files irps)) }
        ensures kind { IfOk result (λ list. kind_of list ≡ kind) }
        ensures bad_size { (result ≡ Err SizeRefused.BadSize) ↔ ¬ IsLargeListSize irps files limit }
    {
        match kind {
            ListKind::Vector => Ok(AnyList::Vector(VecList::large(alloc, irps, files, limit)?)),
            ListKind::Chains => Ok(AnyList::Chains(ChainList::large(alloc, irps, files, limit)?)),
        }
    }

    /// An empty list of this kind with a limit for each file object, as
    /// `VecList::large_with_file_limits` makes it. Refused as `new` is, and with `BadSize` also if the
    /// limits aren't one for each file object, or one of them isn't 1 to `irps`.
    pub fn with_file_limits(
        alloc: Global,
        kind: ListKind,
        irps: u32,
        files: u32,
        limit: u32,
        file_limits: &[u32],
    ) -> Result<AnyList, SizeRefused>
        ensures made { IfOk result (λ list. ⟦<AnyList as PendingList>⟧.listing list
            ≡ fresh irps files limit file_limits.now) }
        ensures kind { IfOk result (λ list. kind_of list ≡ kind) }
        ensures bad_size { (result ≡ Err SizeRefused.BadSize)
            ↔ ¬ (IsLargeListSize irps files limit
            × IsTrue (are_file_limits irps files file_limits.now)) }
    {
        match kind {
            ListKind::Vector => {
                let list = VecList::large_with_file_limits(alloc, irps, files, limit, file_limits)?;
                Ok(AnyList::Vector(list))
            }
            ListKind::Chains => {
                let list = ChainList::large_with_file_limits(
                    alloc,
                    irps,
                    files,
                    limit,
                    file_limits,
                )?;
                Ok(AnyList::Chains(list))
            }
        }
    }
}

impl PendingList for AnyList {
    ghost listing = { any_listing ⟦<VecList as PendingList>⟧.listing
        ⟦<ChainList as PendingList>⟧.listing };

    ghost sound = { any_sound ⟦<VecList as PendingList>⟧.listing
        ⟦<ChainList as PendingList>⟧.listing (λ list. list.sound) (λ list. list.sound) };

    fn irps(&self) -> u32 {
        inner!(self, list => list.irps())
    }

    fn files(&self) -> u32 {
        inner!(self, list => list.files())
    }

    fn limit(&self) -> u32 {
        inner!(self, list => list.limit())
    }

    fn file_len(&self, file: FileId) -> u32 {
        inner!(self, list => list.file_len(file))
    }

    fn file_limit(&self, file: FileId) -> Option<u32> {
        inner!(self, list => list.file_limit(file))
    }

    fn len(&self) -> u32 {
        inner!(self, list => list.len())
    }

    fn is_fresh(&self) -> bool {
        inner!(self, list => list.is_fresh())
    }

    fn is_home(&self, irp: IrpId) -> bool {
        inner!(self, list => list.is_home(irp))
    }

    fn is_listed(&self, irp: IrpId) -> bool {
        inner!(self, list => list.is_listed(irp))
    }

    fn insert_ex(&mut self, irp: IrpId, file: FileId, place: Place) -> Result<(), InsertStatus> {
        inner!(self, list => list.insert_ex(irp, file, place))
    }

    fn put_back_ex(&mut self, irp: IrpId, file: FileId, place: Place) -> Result<(), InsertStatus> {
        inner!(self, list => list.put_back_ex(irp, file, place))
    }

    fn peek_next(&self, after: Option<IrpId>, peek: Peek) -> Option<IrpId> {
        inner!(self, list => list.peek_next(after, peek))
    }

    fn remove(&mut self, irp: IrpId) {
        inner!(self, list => list.remove(irp))
    }

    fn renew(&mut self, irp: IrpId) {
        inner!(self, list => list.renew(irp))
    }

    fn close_file(&mut self, file: FileId) -> Result<(), UnknownFile> {
        inner!(self, list => list.close_file(file))
    }
}
