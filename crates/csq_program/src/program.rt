//! The program: its exit status, and what each command does.
ghost use Rattle.std.specs.Prelude.{◌≡◌, IfOk, IfErr};
ghost use Rattle.csq_program.specs.Jobs.{IsInRange};
ghost use Rattle.csq_program.specs.Replays.{WritesJob};

use crate::command::{CommandFault, Job, read_command, refuse_bytes};
use crate::device_run::{RunFault, answer_runs};
use crate::replay::{ScriptLimits, run_drawing, run_limited_script, run_schedule};
use crate::source::SourceFault;
use crate::stream::WithFault;
use crate::visible::Visible;
use csq_replay::SimFault;
use std::alloc::AllocError;
use std::io;
use std::io::{ErrorKind, Write};
use std::process::ExitCode;
use std::rt::{Clock, Env, Files};
use std::sync::Wait;
use std::thread::Threads;
use thiserror::Error;

/// Why the program did not do what it was asked for.
#[derive(Debug, Drop, Error)]
pub enum ProgramFault {
    /// A schedule or a script could not be read.
    #[error(transparent)]
    Source(#[from] SourceFault),
    /// A schedule or a script has no answer.
    #[error(transparent)]
    Replay(#[from] SimFault),
    /// A device has no totals.
    #[error(transparent)]
    Run(#[from] RunFault),
    /// What is said on standard output could not be written, for this cause.
    #[error("write failed: {0}")]
    Write(io::Error),
}

impl ProgramFault {
    /// Whether the reader of standard output has closed it, so that nothing can be reported to it.
    fn is_closed_pipe(&self) -> bool {
        match self {
            ProgramFault::Write(cause) => cause.kind() == ErrorKind::BrokenPipe,
            _ => false,
        }
    }
}

impl From<AllocError> for ProgramFault {
    ghost use Rattle.std.specs.Prelude.{◌≡◌};
    ghost use Rattle.csq_replay.specs.declared.lines.answer.SimFault.TheVariants.{Memory};
    ghost use Rattle.csq_program.specs.declared.program.ProgramFault.TheVariants.{Replay};

    ghost from_gives = { λ _ fault. fault ≡ Replay Memory };

    fn from(_: AllocError) -> Self {
        ProgramFault::Replay(SimFault::Memory)
    }
}

/// The exit status if all went well.
const DONE: u8 = 0;

/// The exit status of a fault.
const FAULTY: u8 = 1;

/// The exit status of a refused command line, and of a list whose size is refused.
pub(crate) const REFUSED: u8 = 2;

/// The words of this process's command line.
fn read_words<R: AllocGlobal + Env>(rt: &R) -> Result<Vec<String>, CommandFault> {
    match std::env::args(rt) {
        Ok(arguments) => Ok(arguments.collect(rt.alloc())?),
        Err(error) if error.kind() == ErrorKind::OutOfMemory => Err(CommandFault::Memory),
        Err(_) => Err(refuse_bytes(rt.alloc())),
    }
}

/// Does what the command line asks for, and returns the exit status.
fn run_command_line<R>(rt: &R) -> Result<u8, ProgramFault>
where
    R: AllocGlobal + Print + Eprint + Input + Clock + Env + Files + Threads + Wait + Sync,
{
    match read_words(rt) {
        Ok(words) => run_words(rt, words.as_slice()),
        Err(fault) => report_command_fault(rt, fault),
    }
}

/// Does what these words ask for, to standard output.
fn run_words<R>(rt: &R, words: &[String]) -> Result<u8, ProgramFault>
where
    R: AllocGlobal + Print + Eprint + Input + Clock + Files + Threads + Wait + Sync,
{
    match read_command(rt.alloc(), words) {
        Ok(job) => run_job(rt, job, &mut WithFault::new(io::writer(rt))),
        Err(fault) => report_command_fault(rt, fault),
    }
}

/// Prints why clap refuses a command line, of which the text may show words.
fn print_refusal<R: AllocGlobal + Print + Eprint>(rt: &R, error: &clap::Error) {
    let _ = match format!(in rt.alloc(); "{error}") {
        Ok(text) => eprint!(rt; "{}", Visible::lines(&text)),
        Err(AllocError) => error.print(rt),
    };
}

/// Prints why a command line was refused, or the help that it asks for. A refusal that can't be written is
/// one all the same; a help that can't be written is a fault.
fn report_command_fault<R: AllocGlobal + Print + Eprint>(
    rt: &R,
    fault: CommandFault,
) -> Result<u8, ProgramFault> {
    match fault {
        CommandFault::Memory => Err(ProgramFault::from(AllocError)),
        CommandFault::Refused(error) => {
            if error.use_stderr() {
                print_refusal(rt, &error);
                return Ok(REFUSED);
            }
            match error.print(rt) {
                Ok(()) => Ok(DONE),
                Err(cause) => Err(ProgramFault::Write(cause)),
            }
        }
        refused => {
            let _ = eprintln!(rt; "csqsim: {refused}");
            Ok(REFUSED)
        }
    }
}

/// Runs a command, and writes its answer.
fn run_job<R, W>(rt: &R, job: Job<'_>, writer: &mut WithFault<W>) -> Result<u8, ProgramFault>
where
    R: AllocGlobal + Eprint + Input + Clock + Files + Threads + Wait + Sync,
    W: Write,
    requires { IsInRange job }
    ensures { IfOk result (WritesJob job.entry
        (W.contents writer.old.stream) (W.contents writer.new.stream)) }
{
    match job {
        Job::Schedule {
            source,
            irps,
            passes,
            claims,
            explain,
            wrong,
        } => run_schedule(rt, source, irps, passes, claims, explain, wrong, writer),
        Job::Draw {
            source,
            irps,
            passes,
            view,
            to,
        } => run_drawing(rt, source, irps, passes, view, to, writer),
        Job::Script {
            source,
            irps,
            files,
            limit,
            file_limit,
            list,
            explain,
        } => {
            let limits = ScriptLimits::new(irps, files, limit, file_limit);
            run_limited_script(rt, source, list, limits, explain, writer)
        }
        Job::Run {
            plan,
            list,
            totals,
            repeat,
        } => {
            answer_runs(rt, plan, list, totals, repeat, writer)?;
            Ok(DONE)
        }
    }
}

/// The exit status of what the program did, or could not do.
pub fn status_of(ended: &Result<u8, ProgramFault>) -> u8
    ensures done { IfOk ended.now (λ status. result ≡ status) }
    ensures faulty { IfErr ended.now (λ _. result ≡ 1) }
{
    match ended {
        Ok(status) => *status,
        Err(_) => FAULTY,
    }
}

/// Does what the command line of this process asks for, and returns the exit status: 0 if all went
/// well, 2 where a line ended the handling or the command line or the size of the list was refused, and 1
/// with a line on standard error if there was a fault; with none if the reader of standard output has closed it.
/// Own rule.
pub fn run_program<R>(rt: &R) -> ExitCode
where
    R: AllocGlobal + Print + Eprint + Input + Clock + Env + Files + Threads + Wait + Sync,
{
    let ended = run_command_line(rt);
    match &ended {
        Err(fault) if !fault.is_closed_pipe() => {
            let _ = eprintln!(rt; "csqsim: {fault}");
        }
        _ => {}
    }
    ExitCode::from(status_of(&ended))
}
