//! The command line.
ghost use Rattle.std.specs.Prelude.{◌≡◌, ◌≤◌, codes, IfErr, IfOk, IfSome};
ghost use Rattle.irp_core.specs.Runs.{IsInLimits};
ghost use Rattle.csq_list.specs.AnyLists.{is_chained};
ghost use Rattle.csq_program.specs.Jobs.{IsFlag, IsGivenNumber, IsInRange, IsJobOf, IsNumberOption, IsRefusalOf, IsSource, RefusesOptions, ReportsJobFlag, ReportsNumbers, ReportsSource, fault_number};

use crate::draw_options::{CrossedLines, NoSuchIrp, draw_command, draw_job};
use crate::help::{ABOUT, HELP, SCHEDULE_ABOUT, SCHEDULE_HELP, SCRIPT_ABOUT, SCRIPT_HELP, VERSION};
use crate::run_options::{TooManyBusyWorkers, device_job, run_command};
use crate::source::Source;
use clap::error::ErrorKind;
use clap::{Arg, ArgAction, ArgMatches, Command, value_parser};
use csq_device::Plan;
use csq_draw::PictureView;
use csq_list::{ListKind, MAX_FILES};
use irp_core::{MAX_IRPS, MAX_PASSES};
use std::alloc::{AllocError, Global};
use std::convert::AsStr;
use thiserror::Error;

/// What the program is asked to do.
#[derive(Clone, Copy, Debug, PartialEq, Eq)]
pub enum Job<'a> {
    /// To replay a schedule over this many IRPs and passes, and to report its claims and explain each line
    /// of the answer, or not; or to go on after a step that the protocol refuses.
    Schedule {
        source: Source<'a>,
        irps: u32,
        passes: u32,
        claims: bool,
        explain: bool,
        wrong: bool,
    },
    /// To draw a schedule over this many IRPs and passes in this view, as if it ended after line `to` if one is named.
    Draw {
        source: Source<'a>,
        irps: u32,
        passes: u32,
        view: PictureView,
        to: Option<u32>,
    },
    /// To make the calls of a script over this many IRPs and file objects, of which `limit` IRPs may
    /// be listed at a time, and `file_limit` for each file object: all, if none is given. The list is
    /// of this kind. Each line of the answer is explained, or not.
    Script {
        source: Source<'a>,
        irps: u32,
        files: u32,
        limit: Option<u32>,
        file_limit: Option<u32>,
        list: ListKind,
        explain: bool,
    },
    /// To run `repeat` devices of this plan, one after the other, and to report all totals of each or not.
    /// The lists are of this kind.
    Run {
        plan: Plan,
        list: ListKind,
        totals: bool,
        repeat: u32,
    },
}

/// Why a command line asks for nothing that can be done.
#[derive(Debug, Drop, Error)]
pub enum CommandFault {
    /// 1: there is too little memory.
    #[error("out of memory")]
    Memory,
    /// 2: it was refused, or asks for help.
    #[error("{0}")]
    Refused(clap::Error),
    /// 3: it asks for more busy workers than the other threads leave passes for.
    #[error(transparent)]
    BusyWorkers(#[from] TooManyBusyWorkers),
    /// 4: it has a picture begin after the line that it ends with.
    #[error(transparent)]
    Crossed(#[from] CrossedLines),
    /// 5: it asks for the steps of an IRP that there isn't.
    #[error(transparent)]
    NoSuchIrp(#[from] NoSuchIrp),
}

impl CommandFault {
    /// The number of the fault, from 1. Own rule.
    pub fn number(&self) -> u8
        ensures { result ≡ fault_number self.now }
    {
        match self {
            CommandFault::Memory => 1,
            CommandFault::Refused(_) => 2,
            CommandFault::BusyWorkers(_) => 3,
            CommandFault::Crossed(_) => 4,
            CommandFault::NoSuchIrp(_) => 5,
        }
    }
}

impl From<AllocError> for CommandFault {
    fn from(_: AllocError) -> Self {
        CommandFault::Memory
    }
}

impl From<clap::Error> for CommandFault {
    fn from(error: clap::Error) -> Self {
        if error.kind() == ErrorKind::OutOfMemory {
            CommandFault::Memory
        } else {
            CommandFault::Refused(error)
        }
    }
}

/// The headings under which options are listed: others are listed as options.
const SIZE: &str = "Size";

const LIMITS: &str = "Limits";

/// An option that takes a number in a range.
#[derive(Clone, Copy)]
pub(crate) struct NumberOption<'a> {
    pub(crate) name: &'a str,
    pub(crate) help: &'a str,
    pub(crate) least: u32,
    pub(crate) most: u32,
    pub(crate) heading: &'a str,
    pub(crate) default: Option<&'a str>,
}

impl<'a> NumberOption<'a> {
    /// The option as `clap` has it.
    pub(crate) fn arg(self, alloc: Global) -> Arg<'a> {
        let arg = Arg::new(alloc, self.name)
            .long(self.name)
            .value_name("N")
            .help(self.help)
            .help_heading(self.heading)
            .value_parser(value_parser!(u32).range(i64::from(self.least)..=i64::from(self.most)));
        match self.default {
            Some(number) => arg.default_value(number),
            None => arg,
        }
    }
}

/// How many IRPs there are, which each command has to know.
pub(crate) fn irps_option<'a>(default: &'a str) -> NumberOption<'a> {
    NumberOption {
        name: "irps",
        help: "IRPs, 1 to 1024",
        least: 1,
        most: MAX_IRPS,
        heading: SIZE,
        default: Some(default),
    }
}

/// How many file objects there are.
pub(crate) fn files_option<'a>() -> NumberOption<'a> {
    NumberOption {
        name: "files",
        help: "File objects, 1 to 256",
        least: 1,
        most: MAX_FILES,
        heading: SIZE,
        default: Some("4"),
    }
}

/// A limit of how many IRPs may be listed, which is their number if none is given.
fn limit_option<'a>(name: &'a str, help: &'a str) -> NumberOption<'a> {
    NumberOption {
        name,
        help,
        least: 1,
        most: MAX_IRPS,
        heading: LIMITS,
        default: None,
    }
}

/// A command with options that take numbers, in this order.
pub(crate) fn number_command<'a>(
    alloc: Global,
    name: &'a str,
    numbers: &[NumberOption<'a>],
) -> Result<Command<'a>, AllocError> {
    let mut command = Command::new(alloc, name);
    for number in numbers {
        command = command.arg(number.arg(alloc))?;
    }
    Ok(command)
}

/// The command with a flag.
pub(crate) fn with_flag<'a>(
    alloc: Global,
    command: Command<'a>,
    name: &'a str,
    help: &'a str,
) -> Result<Command<'a>, AllocError> {
    let flag = Arg::new(alloc, name)
        .long(name)
        .help(help)
        .action(ArgAction::SetTrue);
    command.arg(flag)
}

/// What the flag for wrong orders does.
pub(crate) const WRONG_HELP: &str = "Goes on after a refused step, by the two words alone";

/// The command with the flag for wrong orders, of which neither claims nor sentences are reported.
fn with_wrong<'a>(alloc: Global, command: Command<'a>) -> Result<Command<'a>, AllocError> {
    let flag = Arg::new(alloc, "wrong")
        .long("wrong")
        .help(WRONG_HELP)
        .action(ArgAction::SetTrue)
        .conflicts_with("claims")?
        .conflicts_with("explain")?;
    command.arg(flag)
}

/// The command with the flag for sentences.
fn with_explain<'a>(alloc: Global, command: Command<'a>) -> Result<Command<'a>, AllocError> {
    let help = "Explains each line of the answer in a sentence below it";
    with_flag(alloc, command, "explain", help)
}

/// The command with the name of the file that it reads.
fn with_file<'a>(alloc: Global, command: Command<'a>) -> Result<Command<'a>, AllocError> {
    let file = Arg::new(alloc, "file")
        .value_name("FILE")
        .help("File to read; - or none for standard input");
    command.arg(file)
}

/// A command that reads a schedule, with how many IRPs and passes there are.
pub(crate) fn machine_command<'a>(alloc: Global, name: &'a str) -> Result<Command<'a>, AllocError> {
    let passes = NumberOption {
        name: "passes",
        help: "Passes, 1 to 64",
        least: 1,
        most: MAX_PASSES,
        heading: SIZE,
        default: Some("4"),
    };
    let command = number_command(alloc, name, &[irps_option("8"), passes])?;
    with_file(alloc, command)
}

/// The command line of a schedule.
fn schedule_command<'a>(alloc: Global) -> Result<Command<'a>, AllocError> {
    let command = machine_command(alloc, "schedule")?
        .about(SCHEDULE_ABOUT)
        .after_help(SCHEDULE_HELP);
    let help = "Reports each claim too: the IRP, the line and the pass";
    let command = with_flag(alloc, command, "claims", help)?;
    let command = with_wrong(alloc, command)?;
    with_explain(alloc, command)
}

/// The command line of a script.
fn script_command<'a>(alloc: Global) -> Result<Command<'a>, AllocError> {
    let help = "IRPs listed at a time, at most --irps [default: --irps]";
    let limit = limit_option("limit", help);
    let help = "The same for each file object [default: --irps]";
    let file_limit = limit_option("file-limit", help);
    let numbers = [irps_option("8"), files_option(), limit, file_limit];
    let command = number_command(alloc, "script", &numbers)?
        .about(SCRIPT_ABOUT)
        .after_help(SCRIPT_HELP);
    let command = with_file(alloc, command)?;
    let help = "Keeps the list in linked chains; the answers are the same";
    let command = with_flag(alloc, command, "chain", help)?;
    with_explain(alloc, command)
}

/// The command with one of its own, if there was memory for that.
fn with_subcommand<'a>(
    command: Command<'a>,
    of: Result<Command<'a>, AllocError>,
) -> Result<Command<'a>, AllocError> {
    command.subcommand(of?)
}

/// The command line that the program takes.
fn program<'a>(alloc: Global) -> Result<Command<'a>, AllocError> {
    let command = Command::new(alloc, "csqsim")
        .bin_name("csqsim")?
        .about(ABOUT)
        .after_help(HELP)
        .version(VERSION)
        .subcommand_required(true)
        .arg_required_else_help(true);
    let command = with_subcommand(command, schedule_command(alloc))?;
    let command = with_subcommand(command, draw_command(alloc))?;
    let command = with_subcommand(command, script_command(alloc))?;
    with_subcommand(command, run_command(alloc))
}

/// The number of an option, or the default if its text is no number from 1 to `most`.
pub(crate) fn number_in(options: &ArgMatches<'_>, name: &str, most: u32, default: u32) -> u32
    requires least { 1 ≤ default }
    requires most { default ≤ most }
    ensures least { 1 ≤ result }
    ensures most { result ≤ most }
    ensures number { IsNumberOption options.now name.now most default result }
{
    match options.get_one::<u32>(name) {
        Some(number) if 1 <= number && number <= most => number,
        _ => default,
    }
}

/// The number of an option without a default, if one is given whose text is a number from `least` to `most`.
pub(crate) fn given_in(options: &ArgMatches<'_>, name: &str, least: u32, most: u32) -> Option<u32>
    ensures range { IfSome result (λ number. (least ≤ number) × (number ≤ most)) }
    ensures number { IsGivenNumber options.now name.now least most result }
{
    match options.get_one::<u32>(name) {
        Some(number) if least <= number && number <= most => Some(number),
        _ => None,
    }
}

/// How the list is kept: in chains if the flag for them is set.
pub(crate) fn list_kind(options: &ArgMatches<'_>) -> ListKind
    ensures { IsFlag options.now (codes "chain") (is_chained result) }
{
    if options.get_flag("chain") {
        ListKind::Chains
    } else {
        ListKind::Vector
    }
}

/// Where the command reads from: a file that is named, other than by -, or else standard input.
pub(crate) fn source_in<'a>(options: &ArgMatches<'a>) -> Source<'a>
    ensures { IsSource options.now result }
{
    match options.get_str("file") {
        Some(name) if name != "-" => Source::File(name),
        _ => Source::Standard,
    }
}

/// How many IRPs and passes a machine has.
pub(crate) fn machine_size(options: &ArgMatches<'_>) -> (u32, u32)
    ensures range { IsInLimits (record { irps = result.0; passes = result.1; first = 0 }) }
    ensures irps { IsNumberOption options.now (codes "irps") 1024 8 result.0 }
    ensures passes { IsNumberOption options.now (codes "passes") 64 4 result.1 }
{
    let irps = number_in(options, "irps", MAX_IRPS, 8);
    let passes = number_in(options, "passes", MAX_PASSES, 4);
    (irps, passes)
}

fn schedule_job<'a>(options: &ArgMatches<'a>) -> Job<'a>
    ensures range { IsInRange result }
    ensures command { IsJobOf (codes "schedule") result }
    ensures source { ReportsSource options.now result }
    ensures flag { ReportsJobFlag options.now result }
    ensures numbers { ReportsNumbers options.now result }
{
    let (irps, passes) = machine_size(options);
    Job::Schedule {
        source: source_in(options),
        irps,
        passes,
        claims: options.get_flag("claims"),
        explain: options.get_flag("explain"),
        wrong: options.get_flag("wrong"),
    }
}

fn script_job<'a>(options: &ArgMatches<'a>) -> Job<'a>
    ensures range { IsInRange result }
    ensures command { IsJobOf (codes "script") result }
    ensures source { ReportsSource options.now result }
    ensures flag { ReportsJobFlag options.now result }
    ensures numbers { ReportsNumbers options.now result }
{
    Job::Script {
        source: source_in(options),
        irps: number_in(options, "irps", MAX_IRPS, 8),
        files: number_in(options, "files", MAX_FILES, 4),
        limit: given_in(options, "limit", 1, MAX_IRPS),
        file_limit: given_in(options, "file-limit", 1, MAX_IRPS),
        list: list_kind(options),
        explain: options.get_flag("explain"),
    }
}

/// What the command of this name is asked to do; the remaining command is `schedule`. A `run` is refused if it
/// has too many busy workers, and a `draw` if its lines are crossed or its IRP isn't there.
fn job_of<'a>(name: &str, options: &ArgMatches<'a>) -> Result<Job<'a>, CommandFault>
    ensures range { IfOk result IsInRange }
    ensures command { IfOk result (IsJobOf name.now) }
    ensures source { IfOk result (ReportsSource options.now) }
    ensures flag { IfOk result (ReportsJobFlag options.now) }
    ensures numbers { IfOk result (ReportsNumbers options.now) }
    ensures refused { IfErr result (RefusesOptions name.now options.now) }
{
    match name {
        "draw" => draw_job(options),
        "script" => Ok(script_job(options)),
        "run" => match device_job(options) {
            Ok(job) => Ok(job),
            Err(refused) => Err(CommandFault::BusyWorkers(refused)),
        },
        _ => Ok(schedule_job(options)),
    }
}

/// Reads a command line, the program's name first.
///
/// Refused: 1 Memory; 2 Refused, with `clap`'s error, which also carries the help that was asked for; 3
/// BusyWorkers, if a run has more of these than the other threads leave passes for; 4 Crossed, if a picture
/// begins after the line that it ends with; 5 NoSuchIrp, if it is of the steps of an IRP that there isn't.
/// Own rule.
pub fn read_command<'a, S: AsStr>(alloc: Global, words: &'a [S]) -> Result<Job<'a>, CommandFault>
    ensures { IfOk result IsInRange }
{
    let matches = program(alloc)?.try_get_matches_from(words)?;
    match matches.subcommand() {
        Some((name, options)) => Ok(job_of(name, options)?),
        None => Err(refusal(alloc, ErrorKind::MissingSubcommand, "no command")),
    }
}

/// The refusal of a command line with an argument that isn't UTF-8, or Memory.
pub fn refuse_bytes(alloc: Global) -> CommandFault
    ensures { IsRefusalOf ErrorKind.InvalidValue result }
{
    refusal(alloc, ErrorKind::InvalidValue, "an argument isn't UTF-8")
}

/// A refusal for this reason, as `clap` reports its own, or Memory.
fn refusal(alloc: Global, kind: ErrorKind, reason: &str) -> CommandFault
    ensures { IsRefusalOf kind result }
{
    let Ok(mut command) = program(alloc) else {
        return CommandFault::Memory;
    };
    match command.error(kind, reason) {
        Ok(error) => CommandFault::Refused(error),
        Err(AllocError) => CommandFault::Memory,
    }
}
