//! A lawful list that tells a watch of its calls.
ghost use Rattle.csq_list.specs.Listing.{Listing};

use csq_list::{InsertStatus, Peek, PendingList, Place, UnknownFile};
use irp_core::{FileId, IrpId};

/// What a list is about to do, or has done.
#[derive(Clone, Copy)]
pub enum Moment {
    /// An IRP is to be inserted for this file object.
    Inserting(FileId),
    /// An IRP is to be removed.
    Removing,
    /// A file object is to be closed.
    Closing,
    /// A file object was closed, or is unknown.
    Closed,
}

/// What a list tells of its calls. It may wait.
pub trait Watch {
    /// Is told of a moment.
    fn at(&self, moment: Moment);
}

/// A list that does what the list in it does, and tells a watch of it. Own rule.
#[derive(Drop)]
pub struct WatchedList<'a, L: PendingList + Drop, W: Watch> {
    /// The list that is watched.
    pub list: L,
    /// Who is told.
    pub watch: &'a W,
}

impl<'a, L: PendingList + Drop, W: Watch> PendingList for WatchedList<'a, L, W> {
    ghost listing = { λ list. L.listing list.list };

    ghost sound = { λ list. L.sound list.list };

    fn irps(&self) -> u32 {
        self.list.irps()
    }

    fn files(&self) -> u32 {
        self.list.files()
    }

    fn limit(&self) -> u32 {
        self.list.limit()
    }

    fn file_len(&self, file: FileId) -> u32 {
        self.list.file_len(file)
    }

    fn file_limit(&self, file: FileId) -> Option<u32> {
        self.list.file_limit(file)
    }

    fn len(&self) -> u32 {
        self.list.len()
    }

    fn is_fresh(&self) -> bool {
        self.list.is_fresh()
    }

    fn is_home(&self, irp: IrpId) -> bool {
        self.list.is_home(irp)
    }

    fn is_listed(&self, irp: IrpId) -> bool {
        self.list.is_listed(irp)
    }

    fn insert_ex(&mut self, irp: IrpId, file: FileId, place: Place) -> Result<(), InsertStatus> {
        self.watch.at(Moment::Inserting(file));
        self.list.insert_ex(irp, file, place)
    }

    fn put_back_ex(&mut self, irp: IrpId, file: FileId, place: Place) -> Result<(), InsertStatus> {
        self.watch.at(Moment::Inserting(file));
        self.list.put_back_ex(irp, file, place)
    }

    fn peek_next(&self, after: Option<IrpId>, peek: Peek) -> Option<IrpId> {
        self.list.peek_next(after, peek)
    }

    fn remove(&mut self, irp: IrpId) {
        self.watch.at(Moment::Removing);
        self.list.remove(irp);
    }

    fn renew(&mut self, irp: IrpId) {
        self.list.renew(irp);
    }

    fn close_file(&mut self, file: FileId) -> Result<(), UnknownFile> {
        self.watch.at(Moment::Closing);
        let answer = self.list.close_file(file);
        self.watch.at(Moment::Closed);
        answer
    }
}
