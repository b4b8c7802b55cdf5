//! What is drawn on the row of a step: the number of its line, and the step itself; and who has the lock.
ghost use Rattle.std.specs.Prelude.{◌≡◌};
ghost use Rattle.csq_draw.specs.Marks.{takes_lock, lets_go};

use crate::circles::Circles;
use crate::layout::{left, top};
use csq_explain::{Sentence, StatusName, StepInCall, WordValues};
use irp_core::{Kind, Made, NtStatus, StepRefused};
use std::fmt;

/// The number of a line, at the left of its row.
#[derive(Clone, Copy)]
pub(crate) struct Number {
    pub(crate) row: u32,
    pub(crate) line: usize,
}

/// The shade behind a row, in the column of the pass that has the lock. It is a pixel higher than the row, so
/// that there is no gap to the next one, but lower if the pass lets the lock go. The first one says so in words.
#[derive(Clone, Copy)]
pub(crate) struct Shade {
    pub(crate) row: u32,
    pub(crate) column: u32,
    pub(crate) first: bool,
    pub(crate) last: bool,
}

/// How high the shade behind a row is, which may be the last of its time.
fn shade_height(last: bool) -> u64 {
    if last { 57 } else { 61 }
}

/// What stands at the left of a shade.
#[derive(Clone, Copy)]
struct LockLabel(Shade);

/// That it is of the lock, beside the first shade of that time. No arrow of the row's own step crosses it: the ones that leave
/// a step run downwards from the middle of its row, and a step that lets the lock go at once wrote nothing that is found; the
/// others come from above.
impl fmt::Display for LockLabel {
    fn fmt<W: fmt::Write>(&self, f: &mut fmt::Formatter<W>) -> fmt::Result {
        let Shade {
            row,
            column,
            first,
            last,
        } = self.0;
        if !first {
            return Ok(());
        }
        let (x, middle) = (left(column), top(row) + if last { 46 } else { 14 });
        write!(
            f,
            "<text class='q' dy='-4' transform='translate({x} {middle})rotate(-90)'>lock</text>"
        )
    }
}

impl fmt::Display for Shade {
    fn fmt<W: fmt::Write>(&self, f: &mut fmt::Formatter<W>) -> fmt::Result {
        let (x, y) = (left(self.column), top(self.row));
        let (height, label) = (shade_height(self.last), LockLabel(*self));
        write!(
            f,
            "<rect class='l' x='{x}' y='{y}' width='228' height='{height}'/>"
        )?;
        write!(
            f,
            "<rect class='h' x='{x}' y='{y}' width='3' height='{height}'/>"
        )?;
        label.fmt(f)
    }
}

/// Whether a step is the first of its pass's time with the lock: it needs the lock, which the pass hasn't got
/// before it.
pub(crate) fn takes_lock(step: StepInCall) -> bool
    ensures { result ≡ takes_lock step }
{
    step.made.kind.needs_lock() && !step.inside.has_lock()
}

/// Whether a step is the last of its pass's time with the lock: it needs the lock, which the pass hasn't got
/// after it.
pub(crate) fn lets_go(step: StepInCall) -> bool
    ensures { result ≡ lets_go step }
{
    let made = step.made;
    made.kind.needs_lock() && !step.inside.after(made.kind, made.found).has_lock()
}

/// Whether a step is an exchange that found the cancel routine, and so claims its IRP.
fn claims(made: Made) -> bool {
    match made.kind {
        Kind::Disarm(_) | Kind::Take(_) => made.found == 1,
        _ => false,
    }
}

/// How a step looks: in the colour of its IRP, and bold if it claims it.
#[derive(Clone, Copy)]
struct StepClass(Made);

impl fmt::Display for StepClass {
    fn fmt<W: fmt::Write>(&self, f: &mut fmt::Formatter<W>) -> fmt::Result {
        match (claims(self.0), self.0.kind.name()) {
            (true, Some(name)) => write!(f, "c k{}", name.irp.0 % 8),
            (false, Some(name)) => write!(f, "k{}", name.irp.0 % 8),
            (_, None) => write!(f, "e"),
        }
    }
}

/// The call of the WDK that a step of this kind is; of one that a callback makes, or a cancel routine by hand, what it does.
fn wdk_call(kind: Kind) -> &'static str {
    match kind {
        Kind::Arm(_) | Kind::Rearm(_) => "IoSetCancelRoutine(Irp, routine)",
        Kind::Test(_) => "if (Irp->Cancel)",
        Kind::Disarm(_) | Kind::Take(_) => "IoSetCancelRoutine(Irp, NULL)",
        Kind::End => "return NULL",
        Kind::Flag(_) => "Irp->Cancel = TRUE",
        Kind::Out(_) => "out of the list",
        Kind::Done(_) => "IoCompleteRequest",
        Kind::Renew(_) => "IoReuseIrp",
    }
}

/// What a step found, beside these words of its IRP after it.
#[derive(Clone, Copy)]
pub(crate) struct FoundText(pub(crate) StepInCall, pub(crate) Option<WordValues>);

/// As `found it`; of a step of another life than the words', which finds nothing in them, that it is.
impl fmt::Display for FoundText {
    fn fmt<W: fmt::Write>(&self, f: &mut fmt::Formatter<W>) -> fmt::Result {
        let FoundText(StepInCall { made, status, .. }, words) = *self;
        if words.is_none() && made.kind.name().is_some() {
            return write!(f, "another life");
        }
        match (made.kind, made.found != 0, status) {
            (Kind::Arm(_) | Kind::Rearm(_), false, _) => write!(f, "was none"),
            (Kind::Test(_), false, _) => write!(f, "is clear"),
            (Kind::Test(_), true, _) => write!(f, "is set"),
            (Kind::Disarm(_) | Kind::Take(_), false, _) => write!(f, "found none"),
            (Kind::Disarm(_) | Kind::Take(_), true, _) => write!(f, "found it"),
            (Kind::Flag(_), false, _) => write!(f, "was clear"),
            (Kind::Arm(_) | Kind::Rearm(_) | Kind::Flag(_), true, _) => write!(f, "was set"),
            (Kind::Done(_), _, Some(NtStatus(0))) => write!(f, "any status"),
            (Kind::Done(_), _, Some(status)) => StatusName(status).fmt(f),
            (Kind::End | Kind::Out(_) | Kind::Done(_), _, _) => Ok(()),
            (Kind::Renew(_), _, _) => write!(f, "next life"),
        }
    }
}

/// How a step stands to the protocol.
#[derive(Clone, Copy)]
pub(crate) enum Legality {
    /// The protocol allows it, and each one before it.
    Legal,
    /// It is the first one that the protocol refuses.
    Refused(StepRefused),
    /// It comes after a refused one.
    Later,
}

/// How a mark looks.
#[derive(Clone, Copy)]
struct MarkClass(Legality, StepInCall);

/// Red if the protocol refuses the step; and after that grey within the colour of its IRP, and bold if it claims it.
impl fmt::Display for MarkClass {
    fn fmt<W: fmt::Write>(&self, f: &mut fmt::Formatter<W>) -> fmt::Result {
        match self.0 {
            Legality::Legal => StepClass(self.1.made).fmt(f),
            Legality::Refused(_) => write!(f, "bad"),
            Legality::Later => {
                let class = StepClass(self.1.made);
                write!(f, "d {class}")
            }
        }
    }
}

/// What a step after the refused one does by the two words of its IRP.
#[derive(Clone, Copy)]
struct ByWords(Made);

/// As `p2 took the cancel routine of IRP 0`. (After the refused step nothing is known of calls.)
impl fmt::Display for ByWords {
    fn fmt<W: fmt::Write>(&self, f: &mut fmt::Formatter<W>) -> fmt::Result {
        let Made { pass, kind, found } = self.0;
        match (kind, found != 0) {
            (Kind::Arm(irp), _) => write!(f, "{pass} set the cancel routine of IRP {irp}"),
            (Kind::Rearm(irp), _) => {
                write!(f, "{pass} put IRP {irp} back, and set its cancel routine")
            }
            (Kind::Test(irp), false) => write!(
                f,
                "{pass} found the Cancel flag of IRP {irp} clear"
            ),
            (Kind::Test(irp), true) => write!(f, "{pass} found the Cancel flag of IRP {irp} set"),
            (Kind::Disarm(irp) | Kind::Take(irp), false) => {
                write!(f, "{pass} found no cancel routine of IRP {irp}")
            }
            (Kind::Disarm(irp) | Kind::Take(irp), true) => {
                write!(f, "{pass} took the cancel routine of IRP {irp}")
            }
            (Kind::End, _) => write!(f, "{pass} ended its removal without an IRP"),
            (Kind::Flag(irp), false) => write!(f, "{pass} set the Cancel flag of IRP {irp}"),
            (Kind::Flag(irp), true) => {
                write!(f, "{pass} found the Cancel flag of IRP {irp} set already")
            }
            (Kind::Out(irp), _) => write!(f, "{pass} took IRP {irp} out of the list"),
            (Kind::Done(irp), _) => write!(f, "{pass} completed IRP {irp}"),
            (Kind::Renew(irp), _) => {
                write!(f, "{pass} began the life that comes after IRP {irp}")
            }
        }
    }
}

/// A mark in words.
#[derive(Clone, Copy)]
struct MarkTitle(Legality, StepInCall);

/// A sentence, and from the refused step on what the two words make of it.
impl fmt::Display for MarkTitle {
    fn fmt<W: fmt::Write>(&self, f: &mut fmt::Formatter<W>) -> fmt::Result {
        let by_words = ByWords(self.1.made);
        match self.0 {
            Legality::Legal => Sentence(self.1).fmt(f),
            Legality::Refused(cause) => {
                write!(f, "{by_words}, which the protocol refuses: {cause}")
            }
            Legality::Later => write!(f, "{by_words}, after the refused step"),
        }
    }
}

/// The refusal of a step, in its box at this place.
#[derive(Clone, Copy)]
struct RefusalAt(u64, u64, Legality);

/// Nothing if the step isn't the refused one.
impl fmt::Display for RefusalAt {
    fn fmt<W: fmt::Write>(&self, f: &mut fmt::Formatter<W>) -> fmt::Result {
        let RefusalAt(x, y, legality) = *self;
        match legality {
            Legality::Refused(_) => write!(f, "<text x='{x}' y='{y}'>not allowed</text>"),
            Legality::Legal | Legality::Later => Ok(()),
        }
    }
}

/// A step in the column of its pass, with what it found and its call of the WDK, and right of all columns, at
/// the place of its IRP, the words of the IRP after it.
#[derive(Clone, Copy)]
pub(crate) struct Mark {
    pub(crate) row: u32,
    pub(crate) column: u32,
    pub(crate) columns: u32,
    pub(crate) place: u32,
    pub(crate) step: StepInCall,
    pub(crate) legality: Legality,
    pub(crate) words: Option<WordValues>,
}

impl fmt::Display for Mark {
    fn fmt<W: fmt::Write>(&self, f: &mut fmt::Formatter<W>) -> fmt::Result {
        let (step, kind, legality) = (self.step, self.step.made.kind, self.legality);
        let (class, title) = (MarkClass(legality, step), MarkTitle(legality, step));
        let found = FoundText(step, self.words);
        let (wdk, circles) = (wdk_call(kind), Circles(*self));
        let (left, top) = (left(self.column), top(self.row));
        let (x, y, end) = (left + 17, top + 20, left + 211);
        let (second, edge, upper) = (top + 35, left + 8, top + 4);
        let refusal = RefusalAt(x, top + 50, legality);
        write!(
            f,
            "<g class='{class}'><title>{title}</title><rect x='{edge}' y='{upper}' width='212' height='52' rx='6'/>"
        )?;
        write!(f, "<text class='w' x='{x}' y='{y}'>{kind}</text>")?;
        write!(f, "<text class='w v' x='{end}' y='{y}'>{found}</text>")?;
        write!(
            f,
            "<text class='m' x='{x}' y='{second}'>{wdk}</text>{refusal}</g>"
        )?;
        circles.fmt(f)
    }
}
