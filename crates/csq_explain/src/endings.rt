//! Where an IRP is in the end, and whether all is at rest, in sentences.
use crate::sentences::DueStatus;
use csq_replay::IrpLine;
use irp_core::IrpPlace;
use std::fmt;

/// Where an IRP is.
#[derive(Clone, Copy)]
struct PlaceWords(IrpPlace);

/// As ` was completed by p2 with STATUS_CANCELLED`.
impl fmt::Display for PlaceWords {
    ghost use Rattle.std.specs.Prelude.{Some};
    ghost use Rattle.csq_explain.specs.Endings.{place_words};

    ghost output = { λ reported. Some (place_words reported.0) };

    fn fmt<W: fmt::Write>(&self, f: &mut fmt::Formatter<W>) -> fmt::Result {
        match self.0 {
            IrpPlace::Home => write!(f, " wasn't inserted"),
            IrpPlace::Listed => write!(f, " is in the list"),
            IrpPlace::HeldBy(pass) => write!(f, " is out of the list, and {pass} holds it"),
            IrpPlace::Completed(status, pass) => {
                write!(f, " was completed by {pass} with {}", DueStatus(status))
            }
        }
    }
}

/// A closing line of a schedule, in a sentence.
#[derive(Clone, Copy)]
pub struct IrpSentence(pub IrpLine);

/// As `IRP 0 was completed by p2 with STATUS_CANCELLED; its Cancel flag is set`.
impl fmt::Display for IrpSentence {
    ghost use Rattle.std.specs.Prelude.{Some};
    ghost use Rattle.csq_explain.specs.Endings.{irp_sentence};

    ghost output = { λ reported. Some (irp_sentence reported.0) };

    fn fmt<W: fmt::Write>(&self, f: &mut fmt::Formatter<W>) -> fmt::Result {
        let IrpSentence(line) = *self;
        let (irp, place) = (line.name, PlaceWords(line.place));
        if line.cancelled {
            write!(f, "IRP {irp}{place}; its Cancel flag is set")
        } else {
            write!(f, "IRP {irp}{place}; its Cancel flag is clear")
        }
    }
}

/// Whether all is at rest, in a sentence.
#[derive(Clone, Copy)]
pub struct RestSentence(pub bool);

impl fmt::Display for RestSentence {
    ghost use Rattle.std.specs.Prelude.{Some};
    ghost use Rattle.csq_explain.specs.Endings.{rest_sentence};

    ghost output = { λ reported. Some (rest_sentence reported.0) };

    fn fmt<W: fmt::Write>(&self, f: &mut fmt::Formatter<W>) -> fmt::Result {
        if self.0 {
            write!(
                f,
                "all is at rest: no call is unfinished, and nobody owes or holds an IRP"
            )
        } else {
            write!(
                f,
                "not all is at rest: a call is unfinished, or a pass owes or holds an IRP"
            )
        }
    }
}
