//! What a call of a script did, or why it was refused, in the words of the WDK.
ghost use Rattle.std.specs.Prelude.{◌≡◌};
ghost use Rattle.csq_explain.specs.CallSentences.{named_file, routine_name};

use crate::sentences::StatusName;
use csq_list::{InsertStatus, Peek, Place};
use csq_replay::{CallRefused, CallStop, MAX_LINE, Reply, ScriptCall};
use irp_core::FileId;
use std::fmt;

/// The routine that a call stands for, or the field that it reads, as `IoCsqInsertIrpEx`.
fn routine_name(call: ScriptCall) -> &'static str
    ensures { result.now ≡ routine_name call }
{
    match call {
        ScriptCall::Insert(..) | ScriptCall::PutBack(..) => "IoCsqInsertIrpEx",
        ScriptCall::Next(_) => "IoCsqRemoveNextIrp",
        ScriptCall::Remove(_) => "IoCsqRemoveIrp",
        ScriptCall::Mark(_) | ScriptCall::Cancel(_) => "IoCancelIrp",
        ScriptCall::Routine(_) => "the cancel routine",
        ScriptCall::Complete(..) => "IoCompleteRequest",
        ScriptCall::Close(_) => "the driver",
        ScriptCall::Cleanup(_) => "IRP_MJ_CLEANUP",
        ScriptCall::Flag(_) => "Irp->Cancel",
        ScriptCall::Status(_) => "Irp->IoStatus.Status",
        ScriptCall::Reuse(_) => "IoReuseIrp",
    }
}

/// The file object that a call names, if it names one.
fn named_file(call: ScriptCall) -> Option<FileId>
    ensures { result ≡ named_file call }
{
    match call {
        ScriptCall::Insert(_, file, _)
        | ScriptCall::Next(Peek::File(file))
        | ScriptCall::Close(file)
        | ScriptCall::Cleanup(file) => Some(file),
        _ => None,
    }
}

/// The file object that is named, or any.
#[derive(Clone, Copy)]
struct FileWords(Option<FileId>);

/// As `file object 1`.
impl fmt::Display for FileWords {
    ghost use Rattle.std.specs.Prelude.{Some};
    ghost use Rattle.csq_explain.specs.CallSentences.{file_words};

    ghost output = { λ reported. Some (file_words reported.0) };

    fn fmt<W: fmt::Write>(&self, f: &mut fmt::Formatter<W>) -> fmt::Result {
        match self.0 {
            Some(file) => write!(f, "file object {}", file.0),
            None => write!(f, "any file object"),
        }
    }
}

/// What a call is of.
#[derive(Clone, Copy)]
struct ObjectName(ScriptCall);

/// As `IRP 0@1`, or `file object 1`.
impl fmt::Display for ObjectName {
    ghost use Rattle.std.specs.Prelude.{Some};
    ghost use Rattle.csq_explain.specs.CallSentences.{object_name};

    ghost output = { λ reported. Some (object_name reported.0) };

    #[tactic(auto, unfolding(crate::specs::CallSentences::object_name))]
    fn fmt<W: fmt::Write>(&self, f: &mut fmt::Formatter<W>) -> fmt::Result {
        match self.0 {
            ScriptCall::Remove(irp) | ScriptCall::Mark(irp) | ScriptCall::Cancel(irp) => write!(
                f,
                "IRP {irp}"
            ),
            ScriptCall::Insert(irp, ..)
            | ScriptCall::Routine(irp)
            | ScriptCall::Complete(irp, _)
            | ScriptCall::Flag(irp)
            | ScriptCall::Status(irp)
            | ScriptCall::Reuse(irp)
            | ScriptCall::PutBack(irp, _) => write!(f, "IRP {irp}"),
            ScriptCall::Next(_) | ScriptCall::Close(_) | ScriptCall::Cleanup(_) => {
                write!(f, "{}", FileWords(named_file(self.0)))
            }
        }
    }
}

/// Where an insert or a put-back puts its IRP.
#[derive(Clone, Copy)]
struct QueueEnd(ScriptCall);

/// As ` for file object 1 at the back`, or ` again at the back`; nothing for another call.
impl fmt::Display for QueueEnd {
    ghost use Rattle.std.specs.Prelude.{Some};
    ghost use Rattle.csq_explain.specs.CallSentences.{place_words};

    ghost output = { λ reported. Some (place_words reported.0) };

    fn fmt<W: fmt::Write>(&self, f: &mut fmt::Formatter<W>) -> fmt::Result {
        match self.0 {
            ScriptCall::Insert(_, file, Place::Back) => {
                write!(f, " for file object {} at the back", file.0)
            }
            ScriptCall::Insert(_, file, Place::Front) => {
                write!(f, " for file object {} at the front", file.0)
            }
            ScriptCall::PutBack(_, Place::Back) => write!(f, " again at the back"),
            ScriptCall::PutBack(_, Place::Front) => write!(f, " again at the front"),
            _ => Ok(()),
        }
    }
}

/// A call of a script, what it was answered, and how many IRPs and file objects there are. It is printed as a
/// sentence.
#[derive(Clone, Copy)]
pub struct AnsweredCall {
    /// How many IRPs there are.
    pub irps: u32,
    /// How many file objects there are.
    pub files: u32,
    /// The call.
    pub call: ScriptCall,
    /// Its answer.
    pub reply: Reply,
}

/// Why a removal took no IRP: the one that it names, or any of the file object, if that exists.
#[derive(Clone, Copy)]
struct NoneWords(AnsweredCall);

/// As `no IRP is listed for file object 1, or a cancel has each of them`.
impl fmt::Display for NoneWords {
    ghost use Rattle.std.specs.Prelude.{Some};
    ghost use Rattle.csq_explain.specs.CallSentences.{none_words};

    ghost output = { λ reported. Some (none_words reported.0.files reported.0.call) };

    fn fmt<W: fmt::Write>(&self, f: &mut fmt::Formatter<W>) -> fmt::Result {
        let (files, call) = (self.0.files, self.0.call);
        match (call, named_file(call)) {
            (ScriptCall::Remove(irp), _) => {
                write!(f, "IRP {irp} isn't listed in that life, or a cancel has it")
            }
            (_, Some(file)) if file.0 >= files => {
                write!(f, "a file object's number is below {files}")
            }
            (_, file) => write!(
                f,
                "no IRP is listed for {}, or a cancel has each of them",
                FileWords(file)
            ),
        }
    }
}

/// What a mark, a cancel or a completion did.
#[derive(Clone, Copy)]
struct CancelWords(AnsweredCall);

/// As ` returned FALSE: it set the Cancel flag of IRP 0, and found no cancel routine`.
impl fmt::Display for CancelWords {
    ghost use Rattle.std.specs.Prelude.{Some};
    ghost use Rattle.csq_explain.specs.CallSentences.{cancel_words};

    ghost output = { λ reported. Some (cancel_words reported.0.call reported.0.reply) };

    fn fmt<W: fmt::Write>(&self, f: &mut fmt::Formatter<W>) -> fmt::Result {
        let call = self.0.call;
        let irp = ObjectName(call);
        match self.0.reply {
            Reply::Claimed => write!(
                f,
                " set the Cancel flag of {irp} and took its cancel routine: the pass owes the IRP now"
            ),
            Reply::Unclaimed => write!(
                f,
                " set the Cancel flag of {irp}, and found no cancel routine"
            ),
            Reply::CancelAnswered(true) => write!(
                f,
                " returned TRUE: it set the Cancel flag of {irp} and ran the cancel routine, which completed the IRP with STATUS_CANCELLED"
            ),
            Reply::CancelAnswered(false) => write!(
                f,
                " returned FALSE: it set the Cancel flag of {irp}, and found no cancel routine"
            ),
            Reply::Completed(status) => match call {
                ScriptCall::Routine(irp) => write!(
                    f,
                    " took IRP {irp} out of the list (CsqRemoveIrp), and completed it with {}",
                    StatusName(status)
                ),
                call => write!(
                    f,
                    " completed {} with {}",
                    ObjectName(call),
                    StatusName(status)
                ),
            },
            _ => Ok(()),
        }
    }
}

/// The file object of an insert or a put-back, which names none.
#[derive(Clone, Copy)]
struct RefusedFile(ScriptCall);

/// As `file object 1`, or `the file object of IRP 0`.
impl fmt::Display for RefusedFile {
    ghost use Rattle.std.specs.Prelude.{Some};
    ghost use Rattle.csq_explain.specs.CallSentences.{refused_file};

    ghost output = { λ reported. Some (refused_file reported.0) };

    fn fmt<W: fmt::Write>(&self, f: &mut fmt::Formatter<W>) -> fmt::Result {
        match self.0 {
            ScriptCall::PutBack(irp, _) => write!(f, "the file object of IRP {irp}"),
            call => write!(f, "{}", FileWords(named_file(call))),
        }
    }
}

/// Why a call that was answered so is refused.
#[derive(Clone, Copy)]
struct RefusedCall(AnsweredCall);

/// As `file object 1 was closed by a cleanup or a close: STATUS_FILE_CLOSED`.
impl fmt::Display for RefusedCall {
    ghost use Rattle.std.specs.Prelude.{Some};
    ghost use Rattle.csq_explain.specs.CallSentences.{call_refusal};

    ghost output = { λ reported. Some
        (call_refusal reported.0.irps reported.0.files reported.0.call reported.0.reply) };

    fn fmt<W: fmt::Write>(&self, f: &mut fmt::Formatter<W>) -> fmt::Result {
        let (irps, files, call) = (self.0.irps, self.0.files, self.0.call);
        let (irp, file) = (ObjectName(call), RefusedFile(call));
        match self.0.reply {
            Reply::InsertRefused(cause) => match cause {
                InsertStatus::UnknownIrp => write!(f, "an IRP's number is below {irps}"),
                InsertStatus::UnknownFile => write!(f, "a file object's number is below {files}"),
                InsertStatus::NotHome => write!(f, "{irp} was inserted before in its present life"),
                InsertStatus::FileClosed => write!(
                    f,
                    "{file} was closed by a cleanup or a close: STATUS_FILE_CLOSED"
                ),
                InsertStatus::FileFull => write!(
                    f,
                    "{file} has as many IRPs listed as its limit: STATUS_INSUFFICIENT_RESOURCES"
                ),
                InsertStatus::Full => write!(
                    f,
                    "the list has as many IRPs as its limit: STATUS_INSUFFICIENT_RESOURCES"
                ),
            },
            Reply::Refused(cause) => match cause {
                CallRefused::UnknownIrp => write!(f, "an IRP's number is below {irps}"),
                CallRefused::UnknownFile => write!(f, "a file object's number is below {files}"),
                CallRefused::NoClaim => write!(
                    f,
                    "the pass doesn't owe {irp}: no mark claimed it, or its cancel routine has run"
                ),
                CallRefused::NotHeld => write!(
                    f,
                    "the pass doesn't hold {irp}: no removal took it, or it was completed or put back since"
                ),
                CallRefused::StatusPending => write!(f, "no IRP is completed with STATUS_PENDING"),
                CallRefused::Stale(life) => write!(f, "the IRP is in its life {life}"),
                CallRefused::NotCompleted => write!(f, "{irp} isn't completed in its present life"),
                CallRefused::LivesSpent => write!(f, "{irp} is in its last life"),
            },
            _ => Ok(()),
        }
    }
}

/// As `IoCsqInsertIrpEx listed IRP 0 for file object 1 at the back, and returned STATUS_PENDING`.
impl fmt::Display for AnsweredCall {
    ghost use Rattle.std.specs.Prelude.{Some};
    ghost use Rattle.csq_explain.specs.CallSentences.{call_sentence};

    ghost output = { λ reported. Some (call_sentence reported) };

    fn fmt<W: fmt::Write>(&self, f: &mut fmt::Formatter<W>) -> fmt::Result {
        let (call, routine) = (self.call, routine_name(self.call));
        let (object, place) = (ObjectName(call), QueueEnd(call));
        match self.reply {
            Reply::Pending => write!(
                f,
                "{routine} listed {object}{place}, and returned STATUS_PENDING"
            ),
            Reply::Cancelled => write!(
                f,
                "{routine} found the Cancel flag of {object} set, completed it with STATUS_CANCELLED (CsqCompleteCanceledIrp), and returned STATUS_PENDING"
            ),
            Reply::Removed(irp) => write!(
                f,
                "{routine} took IRP {irp} out of the list, and the pass holds it now"
            ),
            Reply::NoIrp => write!(f, "{routine} returned NULL: {}", NoneWords(*self)),
            Reply::Closed => write!(
                f,
                "{routine} closed {object}: inserts for it are refused from now on"
            ),
            Reply::Cleaned(count) => write!(
                f,
                "{routine} closed {object}, and completed {count} of its IRPs with STATUS_CANCELLED"
            ),
            Reply::Flag(true) => write!(f, "{routine} of {object} is TRUE"),
            Reply::Flag(false) => write!(f, "{routine} of {object} is FALSE"),
            Reply::Unset => write!(
                f,
                "{routine} of {object} isn't set: the IRP isn't completed"
            ),
            Reply::Status(status) => write!(f, "{routine} of {object} is {}", StatusName(status)),
            Reply::Begun(life) => write!(f, "{routine} began life {life} of {object}"),
            Reply::InsertRefused(_) | Reply::Refused(_) => write!(f, "{}", RefusedCall(*self)),
            Reply::Claimed | Reply::Unclaimed | Reply::CancelAnswered(_) | Reply::Completed(_) => {
                write!(f, "{routine}{}", CancelWords(*self))
            }
        }
    }
}

/// Why a line ends a script, in a sentence.
#[derive(Clone, Copy)]
pub struct CallStopSentence(pub CallStop);

/// As `a line has at most 64 bytes`.
impl fmt::Display for CallStopSentence {
    ghost use Rattle.std.specs.Prelude.{Some};
    ghost use Rattle.csq_explain.specs.CallSentences.{call_stop_sentence};

    ghost output = { λ reported. Some (call_stop_sentence reported.0) };

    fn fmt<W: fmt::Write>(&self, f: &mut fmt::Formatter<W>) -> fmt::Result {
        match self.0 {
            CallStop::TooLong => write!(f, "a line has at most {MAX_LINE} bytes"),
            CallStop::Malformed => write!(
                f,
                "this is no call, as insert 0 1 back: insert, next, remove, mark, routine, cancel, complete, close, cleanup, flag, status, reuse or put_back"
            ),
        }
    }
}
