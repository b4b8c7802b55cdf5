//! The command line of a run.
ghost use Rattle.std.specs.Prelude.{◌≤◌, codes, IfErr, IfOk};
ghost use Rattle.csq_program.specs.Jobs.{ArePlanned, AreTooMany, IsCountOption, IsInRange, IsJobOf, ReportsJobFlag, ReportsNumbers, ReportsSource};

use crate::command::{
    Job, NumberOption, files_option, irps_option, list_kind, number_command, number_in, with_flag,
};
use crate::help::{RUN_ABOUT, RUN_HELP};
use clap::{ArgMatches, Command};
use csq_device::{MAX_THREADS, MAX_TURNS, Plan};
use csq_list::MAX_FILES;
use irp_core::{MAX_IRPS, MAX_PASSES};
use std::alloc::{AllocError, Global};
use thiserror::Error;

/// The headings under which options are listed.
const THREADS: &str = "Threads";

const RUNS: &str = "Runs";

/// The most runs that may be asked for. This project's own limit.
const MAX_RUNS: u32 = 1_000;

/// How many threads there are of one kind.
fn threads_option<'a>(name: &'a str, help: &'a str) -> NumberOption<'a> {
    NumberOption {
        name,
        help,
        least: 1,
        most: MAX_THREADS,
        heading: THREADS,
        default: Some("2"),
    }
}

/// How many busy workers there are.
fn busy_workers_option<'a>() -> NumberOption<'a> {
    NumberOption {
        least: 0,
        default: Some("0"),
        ..threads_option("busy-workers", "Threads that put back, 0 to 20")
    }
}

/// The command line of a run.
pub(crate) fn run_command<'a>(alloc: Global) -> Result<Command<'a>, AllocError> {
    let turns = NumberOption {
        name: "turns",
        help: "Turns of each, 1 to 100000",
        least: 1,
        most: MAX_TURNS,
        heading: THREADS,
        default: Some("64"),
    };
    let repeat = NumberOption {
        name: "repeat",
        help: "Runs, one after the other, 1 to 1000",
        least: 1,
        most: MAX_RUNS,
        heading: RUNS,
        default: Some("1"),
    };
    let numbers = [
        irps_option("64"),
        files_option(),
        threads_option("submitters", "Threads that insert, 1 to 20"),
        threads_option("workers", "Threads that remove, 1 to 20"),
        threads_option("cancellers", "Threads that cancel, 1 to 20"),
        busy_workers_option(),
        turns,
        repeat,
    ];
    let command = number_command(alloc, "run", &numbers)?
        .about(RUN_ABOUT)
        .after_help(RUN_HELP);
    let command = with_flag(alloc, command, "chain", "Keeps the list in linked chains")?;
    with_flag(
        alloc,
        command,
        "totals",
        "Tells all counts of a run, and its time",
    )
}

/// There are more busy workers than the other threads leave passes for: a queue has at most 64, and the
/// cleanup takes one. Own rule.
#[derive(Clone, Copy, Debug, PartialEq, Eq, Error)]
#[error("--busy-workers {busy_workers} is above the passes that the other threads leave, {left}")]
pub struct TooManyBusyWorkers {
    /// How many busy workers were asked for.
    pub busy_workers: u32,
    /// How many passes are left for them.
    pub left: u32,
}

/// How many busy workers there are: none if the option's text is no number up to 20.
fn busy_workers_in(options: &ArgMatches<'_>) -> u32
    ensures most { result ≤ 20 }
    ensures count { IsCountOption options.now (codes "busy-workers") 20 result }
{
    match options.get_one::<u32>("busy-workers") {
        Some(count) if count <= MAX_THREADS => count,
        _ => 0,
    }
}

/// The plan of these options, unless it has too many busy workers.
fn plan_in(options: &ArgMatches<'_>) -> Result<Plan, TooManyBusyWorkers>
    ensures planned { IfOk result (ArePlanned options.now) }
    ensures refused { IfErr result (λ refused. AreTooMany options.now refused.busy_workers
        refused.left) }
{
    let Some(plan) = Plan::new(
        number_in(options, "irps", MAX_IRPS, 64),
        number_in(options, "files", MAX_FILES, 4),
        number_in(options, "submitters", MAX_THREADS, 2),
        number_in(options, "workers", MAX_THREADS, 2),
        number_in(options, "cancellers", MAX_THREADS, 2),
        number_in(options, "turns", MAX_TURNS, 64),
    ) else {
        // Each number is within the plan's limits, as the options' ranges or `number_in` left it.
        unreachable!()
    };
    let busy_workers = busy_workers_in(options);
    match plan.with_busy_workers(busy_workers) {
        Some(plan) => Ok(plan),
        None => Err(TooManyBusyWorkers {
            busy_workers,
            left: MAX_PASSES - 1 - plan.submitters - plan.workers - plan.cancellers,
        }),
    }
}

/// What a run is asked to do, unless it has too many busy workers.
pub(crate) fn device_job<'a>(options: &ArgMatches<'a>) -> Result<Job<'a>, TooManyBusyWorkers>
    ensures range { IfOk result IsInRange }
    ensures command { IfOk result (IsJobOf (codes "run")) }
    ensures source { IfOk result (ReportsSource options.now) }
    ensures flag { IfOk result (ReportsJobFlag options.now) }
    ensures numbers { IfOk result (ReportsNumbers options.now) }
    ensures refused { IfErr result (λ refused. AreTooMany options.now refused.busy_workers
        refused.left) }
{
    Ok(Job::Run {
        plan: plan_in(options)?,
        list: list_kind(options),
        totals: options.get_flag("totals"),
        repeat: number_in(options, "repeat", MAX_RUNS, 1),
    })
}
