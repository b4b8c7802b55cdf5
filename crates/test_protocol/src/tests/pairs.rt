//! A list of pairs, as plainly as it can be kept, which answers the calls of a pending list.

use super::list_calls::{Answer, Call};
use super::lists::Size;
use csq_list::{InsertStatus, Peek, Place};
use irp_core::{FileId, IrpId};
use std::alloc::AllocError;
use std::process::Abort;

/// The listed IRPs with their files, the used IRPs and the closed files.
#[derive(Drop)]
pub(super) struct Pairs<'a> {
    size: Size<'a>,
    listed: Vec<(IrpId, FileId)>,
    used: Vec<IrpId>,
    closed: Vec<FileId>,
}

impl<'a> Pairs<'a> {
    pub(super) fn new(rt: &impl AllocGlobal, size: Size<'a>) -> Pairs<'a> {
        Pairs {
            size,
            listed: Vec::new(rt.alloc()),
            used: Vec::new(rt.alloc()),
            closed: Vec::new(rt.alloc()),
        }
    }

    fn is_listed(&self, irp: IrpId) -> bool {
        for pair in &self.listed {
            if pair.0 == irp {
                return true;
            }
        }
        false
    }

    /// How many are listed for a file.
    fn file_len(&self, file: FileId) -> u32 {
        let mut len = 0u32;
        for pair in &self.listed {
            if pair.1 == file {
                len = len.wrapping_add(1);
            }
        }
        len
    }

    fn len(&self) -> u32 {
        u32::try_from(self.listed.len()).unwrap_or(u32::MAX)
    }

    /// How many may be listed for a file.
    fn file_limit(&self, file: FileId) -> Option<u32> {
        if file.0 >= self.size.files {
            return None;
        }
        match self.size.file_limits {
            None => Some(self.size.irps),
            Some(limits) => match limits.get(file.0 as usize) {
                Some(limit) => Some(*limit),
                None => None,
            },
        }
    }

    /// Why an insert is refused.
    fn refusal(&self, irp: IrpId, file: FileId) -> Option<InsertStatus> {
        if irp.0 >= self.size.irps {
            return Some(InsertStatus::UnknownIrp);
        }
        if file.0 >= self.size.files {
            return Some(InsertStatus::UnknownFile);
        }
        if self.used.contains(&irp) {
            return Some(InsertStatus::NotHome);
        }
        if self.closed.contains(&file) {
            return Some(InsertStatus::FileClosed);
        }
        if self.file_limit(file) == Some(self.file_len(file)) {
            return Some(InsertStatus::FileFull);
        }
        if self.len() == self.size.limit {
            return Some(InsertStatus::Full);
        }
        None
    }

    fn insert(&mut self, irp: IrpId, file: FileId, place: Place) -> Result<(), AllocError> {
        self.used.push(irp)?;
        match place {
            Place::Back => self.listed.push((irp, file))?,
            Place::Front => self.listed.insert(0, (irp, file))?,
        }
        Ok(())
    }

    fn try_insert(&mut self, rt: &impl Abort, irp: IrpId, file: FileId, place: Place) -> Answer {
        if let Some(cause) = self.refusal(irp, file) {
            return Answer::Refused(cause);
        }
        if self.insert(irp, file, place).is_err() {
            panic!(rt; "no memory");
        }
        Answer::Made
    }

    fn remove(&mut self, irp: IrpId) -> Answer {
        if !self.is_listed(irp) {
            return Answer::Unmade;
        }
        self.listed.retain(move |pair| pair.0 != irp);
        Answer::Made
    }

    fn renew(&mut self, irp: IrpId) -> Answer {
        if !self.used.contains(&irp) || self.is_listed(irp) {
            return Answer::Unmade;
        }
        self.used.retain(move |used| *used != irp);
        Answer::Made
    }

    /// An insert, as if the IRP were renewed. A refusal leaves it used.
    fn put_back(&mut self, rt: &impl Abort, irp: IrpId, file: FileId, place: Place) -> Answer {
        if self.renew(irp) == Answer::Unmade {
            return Answer::Unmade;
        }
        let answer = self.try_insert(rt, irp, file, place);
        if answer != Answer::Made && self.used.push(irp).is_err() {
            panic!(rt; "no memory");
        }
        answer
    }

    fn close_file(&mut self, rt: &impl Abort, file: FileId) -> Answer {
        if file.0 >= self.size.files {
            return Answer::Unmade;
        }
        if self.closed.push(file).is_err() {
            panic!(rt; "no memory");
        }
        Answer::Made
    }

    fn peek_next(&self, after: Option<IrpId>, peek: Peek) -> Answer {
        let mut is_behind = after.is_none();
        for pair in &self.listed {
            let is_wanted = peek == Peek::Any || peek == Peek::File(pair.1);
            if is_behind && is_wanted {
                return Answer::Found(Some(pair.0));
            }
            is_behind = is_behind || after == Some(pair.0);
        }
        if is_behind {
            Answer::Found(None)
        } else {
            Answer::Unmade
        }
    }

    pub(super) fn answer(&mut self, rt: &impl Abort, call: Call) -> Answer {
        match call {
            Call::Insert(irp, file, place) => self.try_insert(rt, irp, file, place),
            Call::PutBack(irp, file, place) => self.put_back(rt, irp, file, place),
            Call::CloseFile(file) => self.close_file(rt, file),
            Call::Remove(irp) => self.remove(irp),
            Call::Renew(irp) => self.renew(irp),
            Call::PeekNext(after, peek) => self.peek_next(after, peek),
            Call::IsListed(irp) => Answer::Is(self.is_listed(irp)),
            Call::IsHome(irp) => Answer::Is(irp.0 < self.size.irps && !self.used.contains(&irp)),
            Call::IsFresh => Answer::Is(self.used.is_empty() && self.closed.is_empty()),
            Call::Len => Answer::Count(self.len()),
            Call::FileLen(file) => Answer::Count(self.file_len(file)),
            Call::FileLimit(file) => Answer::FileLimit(self.file_limit(file)),
            Call::Irps => Answer::Count(self.size.irps),
            Call::Files => Answer::Count(self.size.files),
            Call::Limit => Answer::Count(self.size.limit),
        }
    }
}
