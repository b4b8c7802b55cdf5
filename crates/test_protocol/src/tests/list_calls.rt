//! The calls of a list as values, so that they are made of any list.
ghost use Rattle.std.specs.Prelude.{◌≡◌, true, false, IsTrue};
ghost use Rattle.csq_list.specs.Searches.{is_listed};

use csq_list::{InsertStatus, Peek, PendingList, Place};
use irp_core::{FileId, IrpId};

/// A call of a list, with known numbers and unknown ones.
#[derive(Clone, Copy)]
pub(super) enum Call {
    Insert(IrpId, FileId, Place),
    // Lists the IRP again, if it was used and isn't listed.
    PutBack(IrpId, FileId, Place),
    // Takes the IRP out, if it is listed.
    Remove(IrpId),
    // Makes the IRP home, if it was used and isn't listed.
    Renew(IrpId),
    CloseFile(FileId),
    // Looks from the head on, or after an IRP, if it is listed.
    PeekNext(Option<IrpId>, Peek),
    IsListed(IrpId),
    IsHome(IrpId),
    IsFresh,
    Len,
    FileLen(FileId),
    FileLimit(FileId),
    Irps,
    Files,
    Limit,
}

/// What a call returns.
#[derive(Clone, Copy, PartialEq, Eq)]
pub(super) enum Answer {
    // It was made, and changed the list.
    Made,
    // It wasn't made: the IRP isn't as the call wants it, or there is no such file object.
    Unmade,
    // An insert or a put-back was refused.
    Refused(InsertStatus),
    // A look found this IRP, or none.
    Found(Option<IrpId>),
    Is(bool),
    Count(u32),
    FileLimit(Option<u32>),
}

/// Whether an IRP was used and isn't listed.
fn is_renewable<L: PendingList>(list: &L, irp: IrpId) -> bool
    ensures used { result ≡ true → IsTrue ((L.listing list.now).used irp) }
    ensures unlisted { result ≡ true → is_listed (L.listing list.now).entries irp ≡ false }
{
    irp.0 < list.irps() && !list.is_home(irp) && !list.is_listed(irp)
}

/// An insert's or a put-back's answer.
fn listed(reply: Result<(), InsertStatus>) -> Answer {
    match reply {
        Ok(()) => Answer::Made,
        Err(cause) => Answer::Refused(cause),
    }
}

fn put_back<L: PendingList>(list: &mut L, irp: IrpId, file: FileId, place: Place) -> Answer {
    if !is_renewable(list, irp) {
        return Answer::Unmade;
    }
    listed(list.put_back_ex(irp, file, place))
}

fn remove<L: PendingList>(list: &mut L, irp: IrpId) -> Answer {
    if !list.is_listed(irp) {
        return Answer::Unmade;
    }
    list.remove(irp);
    Answer::Made
}

fn renew<L: PendingList>(list: &mut L, irp: IrpId) -> Answer {
    if !is_renewable(list, irp) {
        return Answer::Unmade;
    }
    list.renew(irp);
    Answer::Made
}

fn peek_next<L: PendingList>(list: &L, after: Option<IrpId>, peek: Peek) -> Answer {
    match after {
        None => Answer::Found(list.peek_next(None, peek)),
        Some(irp) => {
            if !list.is_listed(irp) {
                return Answer::Unmade;
            }
            Answer::Found(list.peek_next(Some(irp), peek))
        }
    }
}

/// Makes a call.
pub(super) fn make<L: PendingList>(list: &mut L, call: Call) -> Answer {
    match call {
        Call::Insert(irp, file, place) => listed(list.insert_ex(irp, file, place)),
        Call::PutBack(irp, file, place) => put_back(list, irp, file, place),
        Call::Remove(irp) => remove(list, irp),
        Call::Renew(irp) => renew(list, irp),
        Call::CloseFile(file) => match list.close_file(file) {
            Ok(()) => Answer::Made,
            Err(_) => Answer::Unmade,
        },
        Call::PeekNext(after, peek) => peek_next(list, after, peek),
        Call::IsListed(irp) => Answer::Is(list.is_listed(irp)),
        Call::IsHome(irp) => Answer::Is(list.is_home(irp)),
        Call::IsFresh => Answer::Is(list.is_fresh()),
        Call::Len => Answer::Count(list.len()),
        Call::FileLen(file) => Answer::Count(list.file_len(file)),
        Call::FileLimit(file) => Answer::FileLimit(list.file_limit(file)),
        Call::Irps => Answer::Count(list.irps()),
        Call::Files => Answer::Count(list.files()),
        Call::Limit => Answer::Count(list.limit()),
    }
}
