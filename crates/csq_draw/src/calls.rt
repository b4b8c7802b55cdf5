//! The call that a step is of, and what the call returns if it ends with the step; and whether its pass has the IRP
//! from then on.
use crate::irps::Claim;
use crate::layout::{left, top};
use crate::owners::having_after;
use csq_explain::{InsertWord, StepInCall};
use irp_core::{Inside, IrpLife, Kind};
use std::fmt;

/// A completion, and how the IRP was claimed. A cancel and an insert that found the IRP cancelled return after it.
#[derive(Clone, Copy)]
struct CompletionCall(IrpLife, Option<Claim>);

/// As `cancel 0`, with what the call returns, or `completion` of what a removal got. Nothing, if the step that claimed the
/// IRP isn't shown.
impl fmt::Display for CompletionCall {
    fn fmt<W: fmt::Write>(&self, f: &mut fmt::Formatter<W>) -> fmt::Result {
        let CompletionCall(name, claim) = *self;
        let Some(claim) = claim else {
            return Ok(());
        };
        match claim.by {
            Inside::Cancelling(_) => write!(f, "cancel {name} &#8594; TRUE"),
            Inside::FlagSeen(_) => write!(f, "insert {name} &#8594; pending"),
            Inside::FlagSeenAgain(_) => write!(f, "put-back {name} &#8594; pending"),
            _ => write!(f, "completion"),
        }
    }
}

/// The call that a step is of, and how its IRP was claimed before it.
#[derive(Clone, Copy)]
pub(crate) struct CallOf(pub(crate) StepInCall, pub(crate) Option<Claim>);

/// As `insert 0`, and with what the call returns if the step ends it.
impl fmt::Display for CallOf {
    fn fmt<W: fmt::Write>(&self, f: &mut fmt::Formatter<W>) -> fmt::Result {
        let CallOf(step, claim) = *self;
        let StepInCall { made, inside, .. } = step;
        let insert = InsertWord(inside);
        match (made.kind, inside, made.found != 0) {
            (Kind::Arm(name), _, _) => write!(f, "insert {name}"),
            (Kind::Rearm(name), _, _) => write!(f, "put-back {name}"),
            (Kind::Test(name), _, true) => write!(f, "{insert} {name}"),
            (Kind::Disarm(_), Inside::Nothing | Inside::Removing | Inside::Cancelling(_), false) =>
                { write!(f, "removal") }
            (
                Kind::Disarm(name),
                Inside::Nothing | Inside::Removing | Inside::Cancelling(_),
                true,
            ) => { write!(f, "removal &#8594; IRP {name}") }
            (Kind::Test(name) | Kind::Disarm(name), _, false) => {
                write!(f, "{insert} {name} &#8594; pending")
            }
            (Kind::Disarm(name), _, true) => write!(f, "{insert} {name}, cancelled"),
            (Kind::End, _, _) => write!(f, "removal &#8594; none"),
            (Kind::Flag(name), _, _) => write!(f, "cancel {name}"),
            (Kind::Take(name), _, false) => write!(f, "cancel {name} &#8594; FALSE"),
            (Kind::Take(name), _, true) => write!(f, "cancel {name}"),
            (Kind::Out(_), _, _) => write!(f, "cancel routine"),
            (Kind::Done(name), _, _) => CompletionCall(name, claim).fmt(f),
            (Kind::Renew(_), _, _) => write!(f, "reuse"),
        }
    }
}

/// The last line in the box of a step: its call, and at the right whether its pass has the IRP from then on.
#[derive(Clone, Copy)]
pub(crate) struct CallLine {
    pub(crate) row: u32,
    pub(crate) column: u32,
    pub(crate) step: StepInCall,
    pub(crate) claim: Option<Claim>,
}

impl fmt::Display for CallLine {
    fn fmt<W: fmt::Write>(&self, f: &mut fmt::Formatter<W>) -> fmt::Result {
        let call = CallOf(self.step, self.claim);
        let (x, end, y) = (
            left(self.column) + 17,
            left(self.column) + 211,
            top(self.row) + 49,
        );
        write!(f, "<text class='s' x='{x}' y='{y}'>{call}</text>")?;
        write!(f, "<text class='s v' x='{end}' y='{y}'>")?;
        if let Some(having) = having_after(self.step.made) {
            write!(f, "{having} it now")?;
        }
        write!(f, "</text>")
    }
}
