//! What a step did, in the words of the WDK.
use irp_core::Inside::{Cancelling, Nothing, Removing};
use irp_core::{Inside, Kind, Made, NtStatus};
use std::fmt;

/// A step that was made, and what is known of it beside the line that names it.
#[derive(Clone, Copy)]
pub struct StepInCall {
    /// The step, with the value that it found.
    pub made: Made,
    /// What its pass was inside of before it.
    pub inside: Inside,
    /// The status with which it completed its IRP, if it did.
    pub status: Option<NtStatus>,
}

/// A status by its name in the WDK, if a schedule gives it, else as eight hexadecimal digits.
#[derive(Clone, Copy)]
pub struct StatusName(pub NtStatus);

/// As `STATUS_CANCELLED`.
impl fmt::Display for StatusName {
    ghost use Rattle.std.specs.Prelude.{Some};
    ghost use Rattle.csq_explain.specs.Sentences.{status_name};

    ghost output = { λ name. Some (status_name name.0) };

    #[tactic(auto, unfolding(crate::specs::Sentences::status_name))]
    fn fmt<W: fmt::Write>(&self, f: &mut fmt::Formatter<W>) -> fmt::Result {
        let StatusName(status) = *self;
        match status.0 {
            0 => write!(f, "STATUS_SUCCESS"),
            0xC000_0120 => write!(f, "STATUS_CANCELLED"),
            _ => write!(f, "{status}"),
        }
    }
}

/// The status of a completion, as a schedule knows it. Of an IRP that a removal got it has STATUS_SUCCESS, though there
/// the caller of the removal chooses the status.
#[derive(Clone, Copy)]
pub struct DueStatus(pub NtStatus);

/// As `STATUS_CANCELLED`.
impl fmt::Display for DueStatus {
    ghost use Rattle.std.specs.Prelude.{Some};
    ghost use Rattle.csq_explain.specs.Sentences.{due_status_words};

    ghost output = { λ due. Some (due_status_words due.0) };

    fn fmt<W: fmt::Write>(&self, f: &mut fmt::Formatter<W>) -> fmt::Result {
        let DueStatus(status) = *self;
        match status.0 {
            0 => write!(f, "a status that a schedule doesn't name"),
            _ => StatusName(status).fmt(f),
        }
    }
}

/// With which status an IRP was completed, if it is known.
#[derive(Clone, Copy)]
struct WithStatus(Option<NtStatus>);

/// As ` with STATUS_CANCELLED`, or nothing.
impl fmt::Display for WithStatus {
    ghost use Rattle.std.specs.Prelude.{Some};
    ghost use Rattle.csq_explain.specs.Sentences.{with_status};

    ghost output = { λ reported. Some (with_status reported.0) };

    fn fmt<W: fmt::Write>(&self, f: &mut fmt::Formatter<W>) -> fmt::Result {
        match self.0 {
            Some(status) => write!(f, " with {}", DueStatus(status)),
            None => Ok(()),
        }
    }
}

/// The call of an insert's steps, which a put-back makes too, by what the pass is inside of.
#[derive(Clone, Copy)]
pub struct InsertWord(pub Inside);

/// As `insert`, or `put-back`.
impl fmt::Display for InsertWord {
    ghost use Rattle.std.specs.Prelude.{Some};
    ghost use Rattle.csq_explain.specs.Sentences.{insert_word};

    ghost output = { λ reported. Some (insert_word reported.0) };

    fn fmt<W: fmt::Write>(&self, f: &mut fmt::Formatter<W>) -> fmt::Result {
        match self.0 {
            Inside::Rearmed(_) | Inside::FlagSeenAgain(_) => write!(f, "put-back"),
            _ => write!(f, "insert"),
        }
    }
}

/// What a read of the Cancel flag or an exchange of the routine with none found.
#[derive(Clone, Copy)]
struct Finding(StepInCall);

/// As ` took the cancel routine of IRP 0 (IoSetCancelRoutine(Irp, NULL) in IoCancelIrp), and owes it now`.
impl fmt::Display for Finding {
    ghost use Rattle.std.specs.Prelude.{Some, ◌==◌, not};
    ghost use Rattle.csq_explain.specs.Sentences.{finding};

    ghost output = { λ reported. Some
        (finding reported.0.inside reported.0.made.kind (not (reported.0.made.found == 0))) };

    fn fmt<W: fmt::Write>(&self, f: &mut fmt::Formatter<W>) -> fmt::Result {
        let (made, inside) = (self.0.made, self.0.inside);
        let insert = InsertWord(inside);
        match (made.kind, inside, made.found != 0) {
            (Kind::Test(irp), _, false) => write!(
                f,
                " found the Cancel flag of IRP {irp} clear (if (Irp->Cancel), as in IoCsqInsertIrpEx): the {insert} ends, and the IRP is pending"
            ),
            (Kind::Test(irp), _, true) => write!(
                f,
                " found the Cancel flag of IRP {irp} set (if (Irp->Cancel), as in IoCsqInsertIrpEx)"
            ),
            (Kind::Disarm(irp), Nothing | Removing | Cancelling(_), true) => write!(
                f,
                " took the cancel routine of IRP {irp} (IoSetCancelRoutine(Irp, NULL), as in IoCsqRemoveNextIrp or IoCsqRemoveIrp), and holds it now: the removal ends"
            ),
            (Kind::Disarm(irp), Nothing | Removing | Cancelling(_), false) => write!(
                f,
                " found no cancel routine of IRP {irp} (IoSetCancelRoutine(Irp, NULL), as in IoCsqRemoveNextIrp or IoCsqRemoveIrp): a cancel has it, and the removal goes on without it"
            ),
            (Kind::Disarm(irp), _, true) => write!(
                f,
                " took the cancel routine of IRP {irp} back (IoSetCancelRoutine(Irp, NULL), as in IoCsqInsertIrpEx), and holds it now"
            ),
            (Kind::Disarm(irp), _, false) => write!(
                f,
                " found no cancel routine of IRP {irp} (IoSetCancelRoutine(Irp, NULL), as in IoCsqInsertIrpEx): a cancel has it, and the {insert} ends"
            ),
            (Kind::Take(irp), _, true) => write!(
                f,
                " took the cancel routine of IRP {irp} (IoSetCancelRoutine(Irp, NULL) in IoCancelIrp), and owes it now"
            ),
            (Kind::Take(irp), _, false) => write!(
                f,
                " found no cancel routine of IRP {irp} (IoSetCancelRoutine(Irp, NULL) in IoCancelIrp): the cancel ends, and returns FALSE"
            ),
            _ => Ok(()),
        }
    }
}

/// A step, described in a sentence.
#[derive(Clone, Copy)]
pub struct Sentence(pub StepInCall);

/// As `p2 took the cancel routine of IRP 0 (IoSetCancelRoutine(Irp, NULL) in IoCancelIrp), and owes it now`.
impl fmt::Display for Sentence {
    ghost use Rattle.std.specs.Prelude.{Some};
    ghost use Rattle.csq_explain.specs.Sentences.{sentence};

    ghost output = { λ reported. Some (sentence reported.0) };

    fn fmt<W: fmt::Write>(&self, f: &mut fmt::Formatter<W>) -> fmt::Result {
        let Sentence(step) = *self;
        let pass = step.made.pass;
        match (step.made.kind, step.made.found != 0) {
            (Kind::Arm(irp), _) => write!(
                f,
                "{pass} set the cancel routine of IRP {irp} (IoSetCancelRoutine(Irp, routine), as in IoCsqInsertIrpEx)"
            ),
            (Kind::End, _) => write!(
                f,
                "{pass} ended its removal without an IRP (as where IoCsqRemoveNextIrp or IoCsqRemoveIrp returns NULL)"
            ),
            (Kind::Flag(irp), false) => write!(
                f,
                "{pass} set the Cancel flag of IRP {irp} (Irp->Cancel = TRUE in IoCancelIrp)"
            ),
            (Kind::Flag(irp), true) => write!(
                f,
                "{pass} found the Cancel flag of IRP {irp} set already (Irp->Cancel = TRUE in IoCancelIrp)"
            ),
            (Kind::Out(irp), _) => write!(
                f,
                "{pass} took IRP {irp} out of the list (in the cancel routine, as CsqRemoveIrp does), and holds it now"
            ),
            (Kind::Done(irp), _) => {
                let status = WithStatus(step.status);
                write!(f, "{pass} completed IRP {irp}{status} (IoCompleteRequest)")
            }
            (Kind::Renew(irp), _) => write!(
                f,
                "{pass} began the life that comes after IRP {irp} (IoReuseIrp)"
            ),
            (Kind::Rearm(irp), _) => write!(
                f,
                "{pass} put IRP {irp} back and set its cancel routine again (IoSetCancelRoutine(Irp, routine), as in IoCsqInsertIrpEx), and holds it no longer"
            ),
            (Kind::Test(_) | Kind::Disarm(_) | Kind::Take(_), _) => {
                write!(f, "{pass}{}", Finding(step))
            }
        }
    }
}
