//! What stands below the rows of a picture: why a line ended the handling, or where each IRP is in the end.
ghost use Rattle.std.specs.Prelude.{◌≡◌, ◌<◌, ◌≤◌, ◌+◌, length, position, IfOk, IfSome};
ghost use Rattle.irp_core.specs.Inside.{is_outside};
ghost use Rattle.csq_draw.specs.Endings.{is_unfinished, rest_of};

use crate::circles::word_text;
use crate::irps::{Claim, IrpNow, Spot};
use crate::layout::top;
use crate::lives::PastLife;
use crate::rows::count;
use csq_explain::{DueStatus, HarmAt, NO_HARM, PassNow, Reason};
use csq_replay::{IrpLine, Stop};
use irp_core::{Inside, IrpPlace, PassId};
use std::alloc::AllocError;
use std::fmt;

/// A line that ended the handling, as it is reported: its step, if it names one, and why it ended it.
#[derive(Clone, Copy)]
struct StopText(Stop);

impl fmt::Display for StopText {
    fn fmt<W: fmt::Write>(&self, f: &mut fmt::Formatter<W>) -> fmt::Result {
        let stop = self.0;
        match stop {
            Stop::Refused(step, _) => write!(f, "{step} {stop}"),
            Stop::TooLong | Stop::Malformed => write!(f, "{stop}"),
        }
    }
}

/// Who owes an IRP, or holds it, and since which line.
#[derive(Clone, Copy)]
struct HavingSince(Option<Claim>, &'static str);

/// As `, and p2 has owed it since line 4`.
impl fmt::Display for HavingSince {
    fn fmt<W: fmt::Write>(&self, f: &mut fmt::Formatter<W>) -> fmt::Result {
        let HavingSince(claim, verb) = *self;
        match claim {
            Some(Claim { spot, .. }) => {
                write!(f, ", and {} {verb} it since line {}", spot.pass, spot.line)
            }
            None => Ok(()),
        }
    }
}

/// In which line a step was made.
#[derive(Clone, Copy)]
struct InLine(Option<Spot>);

/// As ` in line 11`.
impl fmt::Display for InLine {
    fn fmt<W: fmt::Write>(&self, f: &mut fmt::Formatter<W>) -> fmt::Result {
        match self.0 {
            Some(spot) => write!(f, " in line {}", spot.line),
            None => Ok(()),
        }
    }
}

/// Where an IRP is in the end, who has it since which line, and in which line it was completed.
#[derive(Clone, Copy)]
struct Whereabouts(IrpPlace, IrpNow);

/// As ` was completed once, by p2 in line 11, with STATUS_CANCELLED`.
impl fmt::Display for Whereabouts {
    fn fmt<W: fmt::Write>(&self, f: &mut fmt::Formatter<W>) -> fmt::Result {
        let Whereabouts(place, IrpNow { claim, done, .. }) = *self;
        match place {
            IrpPlace::Home => write!(f, " wasn't inserted"),
            IrpPlace::Listed => write!(f, " is in the list{}", HavingSince(claim, "has owed")),
            IrpPlace::HeldBy(_) => write!(
                f,
                " is out of the list{}",
                HavingSince(claim, "has held")
            ),
            IrpPlace::Completed(status, pass) => {
                let (line, status) = (InLine(done), DueStatus(status));
                write!(f, " was completed once, by {pass}{line}, with {status}")
            }
        }
    }
}

/// Where an IRP is in the end, in a sentence.
#[derive(Clone, Copy)]
struct IrpEnding(IrpLine, IrpNow);

/// As `IRP 0 is in the list, and p2 has owed it since line 4; its Cancel flag is set`.
impl fmt::Display for IrpEnding {
    fn fmt<W: fmt::Write>(&self, f: &mut fmt::Formatter<W>) -> fmt::Result {
        let IrpEnding(line, now) = *self;
        let (irp, place) = (line.name, Whereabouts(line.place, now));
        let flag = word_text(line.cancelled);
        write!(f, "IRP {irp}{place}; its Cancel flag is {flag}")
    }
}

/// Whether all is at rest in the end, and else the pass whose call is unfinished and the line in which that began,
/// if there is one.
#[derive(Clone, Copy)]
pub(crate) struct RestState {
    pub(crate) at_rest: bool,
    pub(crate) unfinished: Option<(PassId, usize)>,
}

impl fmt::Display for RestState {
    fn fmt<W: fmt::Write>(&self, f: &mut fmt::Formatter<W>) -> fmt::Result {
        match (self.at_rest, self.unfinished) {
            (true, _) => write!(
                f,
                "all is at rest: no call is unfinished, and nobody owes or holds an IRP"
            ),
            (false, Some((pass, line))) => write!(
                f,
                "not all is at rest: the call of {pass} that began in line {line} is unfinished"
            ),
            (false, None) => write!(f, "not all is at rest: a pass owes or holds an IRP"),
        }
    }
}

/// Whether a pass is inside of a call.
fn is_unfinished(now: PassNow) -> bool
    ensures { result ≡ is_unfinished now }
{
    !matches!(now.inside, Inside::Nothing)
}

/// The number of the first pass whose call is unfinished.
fn unfinished_number(passes: &[PassNow]) -> Option<usize>
    ensures number { result ≡ position is_unfinished passes.now }
    ensures bound { IfSome result (λ number. number < length passes.now) }
{
    passes.iter().position(|now| is_unfinished(*now))
}

/// Whether all is at rest in the end, and the first pass whose call is unfinished.
pub(crate) fn rest_of(passes: &[PassNow], at_rest: bool) -> RestState
    requires { length passes.now ≤ 65 }
    ensures { result ≡ rest_of passes.now at_rest }
{
    match unfinished_number(passes) {
        Some(number) => RestState {
            at_rest,
            unfinished: Some((PassId(number as u32), passes[number].line)),
        },
        None => RestState {
            at_rest,
            unfinished: None,
        },
    }
}

/// How a picture ends.
#[derive(Clone, Copy)]
pub(crate) enum PictureEnd<'a> {
    /// The line of this number ended the handling, for this reason.
    Stopped(usize, Reason),
    /// All lines were handled: what is known of the IRPs, their earlier lives, where each is, and whether all is at rest.
    Closed(&'a [IrpNow], &'a [PastLife], &'a [IrpLine], RestState),
    /// The protocol was broken in the line of this number, for this reason, and this goes wrong.
    Broken(usize, Reason, &'a [HarmAt]),
}

/// The sum of a number and another one, as a `u32`.
pub(crate) fn count_with(number: usize, more: u32) -> Result<u32, AllocError>
    ensures { IfOk result (λ count. count ≡ number + more) }
{
    count(number)?.checked_add(more).ok_or(AllocError)
}

impl PictureEnd<'_> {
    /// How many lines of text it takes.
    pub(crate) fn lines(self) -> Result<u32, AllocError> {
        match self {
            PictureEnd::Stopped(_, _) | PictureEnd::Broken(_, _, []) => Ok(3),
            PictureEnd::Closed(_, lives, reported, _) => {
                count_with(reported.len(), count_with(lives.len(), 1)?)
            }
            PictureEnd::Broken(_, _, harms) => count_with(harms.len(), 2),
        }
    }
}

/// What stands below the rows of a picture.
#[derive(Clone, Copy)]
pub(crate) enum Below {
    /// The bar of the line that ended the handling, on the row below the last step.
    Bar,
    /// What is reported for that line, in its bar.
    Refused(Stop),
    /// Why it ended the handling, below its bar.
    Because(Reason),
    /// How an earlier life of an IRP ended, as the nth line.
    Past(u32, PastLife),
    /// Where an IRP is in the end, as the nth line.
    Irp(u32, IrpLine, IrpNow),
    /// Whether all is at rest in the end, as the nth line.
    AtRest(u32, RestState),
    /// The line in which the protocol was broken, and below it why.
    Broken(usize, Reason),
    /// What goes wrong at a step after it, as the nth line below that.
    Harm(u32, HarmAt),
    /// That nothing does.
    NoHarm,
}

/// In a sentence, of a line that breaks the protocol without the reason.
impl fmt::Display for Below {
    fn fmt<W: fmt::Write>(&self, f: &mut fmt::Formatter<W>) -> fmt::Result {
        match *self {
            Below::Bar => Ok(()),
            Below::Refused(stop) => StopText(stop).fmt(f),
            Below::Because(reason) => write!(f, "{reason}"),
            Below::Past(_, life) => life.fmt(f),
            Below::Irp(_, line, now) => IrpEnding(line, now).fmt(f),
            Below::AtRest(_, rest) => rest.fmt(f),
            Below::Broken(line, reason) => write!(
                f,
                "the protocol is broken in line {line}: {}",
                StopText(reason.stop)
            ),
            Below::Harm(_, harm) => write!(f, "{harm}"),
            Below::NoHarm => write!(f, "{NO_HARM}"),
        }
    }
}

/// What stands below this number of rows of a picture, as SVG.
#[derive(Clone, Copy)]
pub(crate) struct BelowRows(pub(crate) u32, pub(crate) Below);

impl fmt::Display for BelowRows {
    fn fmt<W: fmt::Write>(&self, f: &mut fmt::Formatter<W>) -> fmt::Result {
        let BelowRows(rows, below) = *self;
        let y = top(rows);
        match below {
            Below::Bar => write!(
                f,
                "<rect class='bad' x='64' y='{}' width='660' height='52' rx='6'/>",
                y + 4
            ),
            Below::Refused(_) => write!(f, "<text x='73' y='{}'>{below}</text>", y + 34),
            Below::Because(_) => write!(f, "<text x='73' y='{}'>{below}</text>", y + 76),
            Below::Past(nth, _) | Below::Irp(nth, _, _) | Below::AtRest(nth, _) => {
                let y = y + 28 + 20 * u64::from(nth);
                write!(f, "<text x='56' y='{y}'>{below}</text>")
            }
            Below::Broken(_, reason) => {
                let (first, second) = (y + 28, y + 48);
                write!(f, "<text class='f' x='56' y='{first}'>{below}</text>")?;
                write!(f, "<text x='56' y='{second}'>{reason}</text>")
            }
            Below::Harm(nth, _) => {
                let y = y + 68 + 20 * u64::from(nth);
                write!(f, "<text x='56' y='{y}'>{below}</text>")
            }
            Below::NoHarm => write!(f, "<text x='56' y='{}'>{below}</text>", y + 68),
        }
    }
}
