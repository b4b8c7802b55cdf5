//! The command line of a picture.
ghost use Rattle.std.specs.Prelude.{◌≡◌, ◌≤◌, ◌<◌, codes, IfErr, IfOk, IfSome};
ghost use Rattle.csq_program.specs.Parts.{is_text, window_of, AreInOrder};
ghost use Rattle.csq_program.specs.Jobs.{AreCrossed, IsFlag, IsGivenNumber, IsInRange, IsJobOf, IsNoIrp, IsNumberOption, RefusesOptions, ReportsJobFlag, ReportsNumbers, ReportsSource};

use crate::command::{
    CommandFault, Job, NumberOption, WRONG_HELP, given_in, machine_command, machine_size,
    source_in, with_flag,
};
use crate::help::{DRAW_ABOUT, DRAW_HELP};
use clap::{ArgMatches, Command};
use csq_draw::{Format, PictureView, Window};
use irp_core::{IrpId, MAX_IRPS};
use std::alloc::{AllocError, Global};
use std::error::Error;
use std::fmt;

/// The heading under which the options are listed that draw a part of a schedule.
const PART: &str = "Part";

/// The last line that may be named: one more than an input can have.
const LAST_LINE: u32 = 1_048_577;

/// The command with an option that names a line.
fn with_line<'a>(
    alloc: Global,
    command: Command<'a>,
    name: &'a str,
    help: &'a str,
) -> Result<Command<'a>, AllocError> {
    let line = NumberOption {
        name,
        help,
        least: 1,
        most: LAST_LINE,
        heading: PART,
        default: None,
    };
    command.arg(line.arg(alloc).value_name("LINE"))
}

/// The command with the option that names an IRP.
fn with_irp<'a>(alloc: Global, command: Command<'a>) -> Result<Command<'a>, AllocError> {
    let irp = NumberOption {
        name: "irp",
        help: "Draws the steps of this IRP alone, 0 to 1023",
        least: 0,
        most: MAX_IRPS - 1,
        heading: PART,
        default: None,
    };
    command.arg(irp.arg(alloc))
}

/// The command line of a picture.
pub(crate) fn draw_command<'a>(alloc: Global) -> Result<Command<'a>, AllocError> {
    let command = machine_command(alloc, "draw")?
        .about(DRAW_ABOUT)
        .after_help(DRAW_HELP);
    let help = "Draws for a terminal, in letters alone";
    let command = with_flag(alloc, command, "text", help)?;
    let command = with_flag(alloc, command, "wrong", WRONG_HELP)?;
    let command = with_line(
        alloc,
        command,
        "from",
        "Begins with this line, 1 to 1048577",
    )?;
    let command = with_line(alloc, command, "to", "Ends after this line, 1 to 1048577")?;
    with_irp(alloc, command)
}

/// A picture was to begin after the line that it ends with. Own rule.
#[derive(Clone, Copy, Debug, PartialEq, Eq, thiserror::Error)]
#[error("--from {from} is above --to, {to}")]
pub struct CrossedLines {
    /// The line that it was to begin with.
    pub from: u32,
    /// The line that it was to end with.
    pub to: u32,
}

/// A picture is to be of the steps of an IRP that there isn't. Own rule.
#[derive(Clone, Copy, Debug, PartialEq, Eq)]
pub struct NoSuchIrp {
    /// The IRP that was asked for.
    pub irp: u32,
    /// How many IRPs there are.
    pub irps: u32,
}

/// As `--irp 8 is not below the number of IRPs, 8 (--irps 9 allows it)`.
impl fmt::Display for NoSuchIrp {
    fn fmt<W: fmt::Write>(&self, f: &mut fmt::Formatter<W>) -> fmt::Result {
        let (irp, irps, wanted) = (self.irp, self.irps, self.irp.saturating_add(1));
        write!(
            f,
            "--irp {irp} is not below the number of IRPs, {irps} (--irps {wanted} allows it)"
        )
    }
}

impl Error for NoSuchIrp {}

/// As what a schedule is drawn: as text if the flag for it is set.
fn format_in(options: &ArgMatches<'_>) -> Format
    ensures { IsFlag options.now (codes "text") (is_text result) }
{
    if options.get_flag("text") {
        Format::Text
    } else {
        Format::Svg
    }
}

/// The lines that a picture begins and ends with, where they are named.
fn lines_in(options: &ArgMatches<'_>) -> Result<(Option<u32>, Option<u32>), CrossedLines>
    ensures from_range { IfOk result (λ lines.
        IfSome lines.0 (λ line. (1 ≤ line) × (line ≤ 1048577))) }
    ensures to_range { IfOk result (λ lines.
        IfSome lines.1 (λ line. (1 ≤ line) × (line ≤ 1048577))) }
    ensures order { IfOk result (λ lines. AreInOrder lines.0 lines.1) }
    ensures from { IfOk result (λ lines.
        IsGivenNumber options.now (codes "from") 1 1048577 lines.0) }
    ensures to { IfOk result (λ lines.
        IsGivenNumber options.now (codes "to") 1 1048577 lines.1) }
    ensures refused { IfErr result (λ refused. AreCrossed options.now refused.from refused.to) }
{
    let from = given_in(options, "from", 1, LAST_LINE);
    let to = given_in(options, "to", 1, LAST_LINE);
    match (from, to) {
        (Some(from), Some(to)) if from > to => Err(CrossedLines { from, to }),
        _ => Ok((from, to)),
    }
}

/// The IRP whose steps are drawn, if one is named. Refused if its number isn't below the number of IRPs.
fn irp_in(options: &ArgMatches<'_>, irps: u32) -> Result<Option<u32>, NoSuchIrp>
    requires irps { IsNumberOption options.now (codes "irps") 1024 8 irps }
    ensures below { IfOk result (λ irp. IfSome irp (λ n. n < irps)) }
    ensures irp { IfOk result (IsGivenNumber options.now (codes "irp") 0 1023) }
    ensures refused { IfErr result (λ refused. (refused.irps ≡ irps)
        × IsNoIrp options.now refused.irp irps) }
{
    let irp = given_in(options, "irp", 0, MAX_IRPS - 1);
    match irp {
        Some(irp) if irp >= irps => Err(NoSuchIrp { irp, irps }),
        _ => Ok(irp),
    }
}

/// Which steps are drawn: those of this line and later ones, and of this IRP; all, if neither is named.
fn window_of(from: Option<u32>, irp: Option<u32>) -> Option<Window>
    ensures { result ≡ window_of from irp }
{
    match (from, irp) {
        (None, None) => None,
        (Some(from), None) => Some(Window {
            from: from as usize,
            irp: None,
        }),
        (None, Some(irp)) => Some(Window {
            from: 1,
            irp: Some(IrpId(irp)),
        }),
        (Some(from), Some(irp)) => Some(Window {
            from: from as usize,
            irp: Some(IrpId(irp)),
        }),
    }
}

/// What a picture is asked to show, unless its lines are crossed or its IRP isn't there.
pub(crate) fn draw_job<'a>(options: &ArgMatches<'a>) -> Result<Job<'a>, CommandFault>
    ensures range { IfOk result IsInRange }
    ensures command { IfOk result (IsJobOf (codes "draw")) }
    ensures source { IfOk result (ReportsSource options.now) }
    ensures flag { IfOk result (ReportsJobFlag options.now) }
    ensures numbers { IfOk result (ReportsNumbers options.now) }
    ensures refused { IfErr result (RefusesOptions (codes "draw") options.now) }
{
    let (irps, passes) = machine_size(options);
    let (from, to) = match lines_in(options) {
        Ok(lines) => lines,
        Err(refused) => return Err(CommandFault::Crossed(refused)),
    };
    let irp = match irp_in(options, irps) {
        Ok(irp) => irp,
        Err(refused) => return Err(CommandFault::NoSuchIrp(refused)),
    };
    Ok(Job::Draw {
        source: source_in(options),
        irps,
        passes,
        view: PictureView {
            format: format_in(options),
            window: window_of(from, irp),
            wrong: options.get_flag("wrong"),
        },
        to,
    })
}
