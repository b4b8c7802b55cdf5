//! Schedules and scripts of the command line: read from their source, and answered.
ghost use Rattle.std.specs.Prelude.{◌≡◌, ◌≤◌, Ok, Err, IfOk, IfErr, replicate};
ghost use Rattle.std.specs.Io.KnownBytes.{Keeps};
ghost use Rattle.irp_core.specs.Runs.{IsInLimits};
ghost use Rattle.irp_core.specs.declared.refusals.SizeRefused.TheVariants.{BadSize};
ghost use Rattle.csq_list.specs.Listing.{IsFresh};
ghost use Rattle.csq_words.specs.Queue.{limits_of};
ghost use Rattle.csq_diagnose.specs.Drawings.{ReportsDrawingEnd};
ghost use Rattle.csq_program.specs.declared.program.ProgramFault.TheVariants.{Replay};
ghost use Rattle.csq_program.specs.Replays.{limits_or_all, IsWriteFault, IsReplayReport, IsCutReport, IsScriptReport, LeadsTo, WritesReport, WritesScript};

use crate::answer::{write_drawing, write_schedule, write_script, write_wrong_order};
use crate::program::{ProgramFault, REFUSED};
use crate::source::Source;
use crate::stream::WithFault;
use csq_diagnose::Report;
use csq_draw::PictureView;
use csq_list::{AnyList, ListKind, PendingList};
use csq_replay::{Ended, SimFault, exit_status};
use irp_core::SizeRefused;
use std::alloc::{AllocError, Allocator, Global};
use std::fmt;
use std::io::{Error, Write};
use std::rt::Files;

/// Replays a schedule, plainly or with a sentence after each line of its answer, or as one that may break the protocol.
pub(crate) fn run_schedule<R: AllocGlobal + Eprint + Input + Files, W: Write>(
    rt: &R,
    source: Source<'_>,
    irps: u32,
    passes: u32,
    claims: bool,
    explain: bool,
    wrong: bool,
    writer: &mut WithFault<W>,
) -> Result<u8, ProgramFault>
    requires { IsInLimits (record { irps = irps; passes = passes; first = 0 }) }
    ensures answered { IfOk result (WritesReport (IsReplayReport
        (record { irps = irps; passes = passes; first = 0 }) claims explain wrong)
        (W.contents writer.old.stream) (W.contents writer.new.stream)) }
    ensures unwritten { IfErr result (λ fault. ¬ IsWriteFault fault
        → Keeps (W.contents writer.old.stream) (W.contents writer.new.stream)) }
{
    let mut reader = source.open(rt)?;
    let answered = if wrong {
        write_wrong_order(rt.alloc(), irps, passes, &mut reader, writer)
    } else {
        write_schedule(
            rt.alloc(),
            irps,
            passes,
            claims,
            explain,
            &mut reader,
            writer,
        )
    };
    finish(rt, source, answered, reader.fault, writer.fault)
}

/// Draws a schedule up to the line that is named.
pub(crate) fn run_drawing<R: AllocGlobal + Eprint + Input + Files, W: Write>(
    rt: &R,
    source: Source<'_>,
    irps: u32,
    passes: u32,
    view: PictureView,
    to: Option<u32>,
    writer: &mut WithFault<W>,
) -> Result<u8, ProgramFault>
    requires { IsInLimits (record { irps = irps; passes = passes; first = 0 }) }
    ensures answered { IfOk result (WritesReport (IsCutReport to
        (ReportsDrawingEnd (record { irps = irps; passes = passes; first = 0 }) view.wrong))
        (W.contents writer.old.stream) (W.contents writer.new.stream)) }
    ensures unwritten { IfErr result (λ fault. ¬ IsWriteFault fault
        → Keeps (W.contents writer.old.stream) (W.contents writer.new.stream)) }
{
    let mut reader = source.open(rt)?;
    let answered = write_drawing(rt.alloc(), irps, passes, view, to, &mut reader, writer);
    finish(rt, source, answered, reader.fault, writer.fault)
}

/// What stands between the name of a file and a diagnosis: nothing before a line and a column, else a space.
fn before_diagnosis(diagnosis: &str) -> &'static str {
    match diagnosis.as_bytes().first() {
        Some(first) if first.is_ascii_digit() => "",
        _ => " ",
    }
}

/// Says on standard error why a line ended the handling, if one did. If that can't be written, nothing else changes.
fn print_diagnosis<E: Eprint>(rt: &E, source: Source<'_>, report: &Report<Global>) {
    if let Ended::Stopped = report.ended {
        let diagnosis = report.diagnosis.as_str();
        let between = before_diagnosis(diagnosis);
        let _ = eprint!(rt; "{source}{between}{diagnosis}");
    }
}

/// What an answer leads to: the exit status, after it is said on standard error why a line ended the handling; or the
/// program's fault, for the cause that the reader or the writer has kept.
fn finish<R: AllocGlobal + Eprint>(
    rt: &R,
    source: Source<'_>,
    answered: Result<Report<Global>, SimFault>,
    read: Error,
    written: Error,
) -> Result<u8, ProgramFault>
    ensures { LeadsTo answered result }
{
    match answered {
        Ok(report) => {
            print_diagnosis(rt, source, &report);
            Ok(exit_status(report.ended))
        }
        Err(SimFault::Memory) => Err(ProgramFault::from(AllocError)),
        Err(SimFault::Read) => Err(ProgramFault::Source(source.fault(rt.alloc(), read))),
        Err(SimFault::Write) => Err(ProgramFault::Write(written)),
    }
}

/// The sizes of a script's list.
#[derive(Clone, Copy)]
pub(crate) struct ScriptLimits {
    /// The IRPs.
    pub(crate) irps: u32,
    /// The file objects.
    pub(crate) files: u32,
    /// How many IRPs may be listed at a time.
    pub(crate) limit: u32,
    /// How many of one file object.
    pub(crate) file_limit: u32,
}

impl ScriptLimits {
    /// The sizes with these limits, each of which is the number of IRPs if none is given.
    pub(crate) fn new(
        irps: u32,
        files: u32,
        limit: Option<u32>,
        file_limit: Option<u32>,
    ) -> ScriptLimits
        ensures { result ≡ limits_or_all irps files limit file_limit }
    {
        ScriptLimits {
            irps,
            files,
            limit: limit.unwrap_or(irps),
            file_limit: file_limit.unwrap_or(irps),
        }
    }
}

/// The limit of each file object.
fn file_limits_of<A: Allocator>(
    alloc: A,
    files: u32,
    file_limit: u32,
) -> Result<Vec<u32, A>, AllocError>
    ensures { IfOk result (λ limits. limits.items ≡ replicate files file_limit) }
{
    vec![in alloc; file_limit; files as usize]
}

/// Runs a script over a list of this kind and these sizes.
pub(crate) fn run_limited_script<R: AllocGlobal + Eprint + Input + Files, W: Write>(
    rt: &R,
    source: Source<'_>,
    kind: ListKind,
    limits: ScriptLimits,
    explain: bool,
    writer: &mut WithFault<W>,
) -> Result<u8, ProgramFault>
    requires { (1 ≤ limits.irps) × (limits.irps ≤ 1024) }
    ensures answered { IfOk result (WritesScript limits explain
        (W.contents writer.old.stream) (W.contents writer.new.stream)) }
    ensures unwritten { IfErr result (λ fault. ¬ IsWriteFault fault
        → Keeps (W.contents writer.old.stream) (W.contents writer.new.stream)) }
{
    let ScriptLimits {
        irps,
        files,
        limit,
        file_limit,
    } = limits;
    let file_limits = file_limits_of(rt.alloc(), files, file_limit)?;
    let list = AnyList::with_file_limits(rt.alloc(), kind, irps, files, limit, &file_limits);
    run_script(rt, source, limits, list, explain, writer)
}

/// Runs a script over a fresh list, if there is one. Its size is refused before anything is read.
fn run_script<L: PendingList + Drop, R: AllocGlobal + Eprint + Input + Files, W: Write>(
    rt: &R,
    source: Source<'_>,
    limits: ScriptLimits,
    list: Result<L, SizeRefused>,
    explain: bool,
    writer: &mut WithFault<W>,
) -> Result<u8, ProgramFault>
    requires fresh { IfOk list (λ l. IsFresh (L.listing l)) }
    requires irps { IfOk list (λ l. (1 ≤ (L.listing l).irps) × ((L.listing l).irps ≤ 1024)) }
    ensures memory { IfErr list
        (λ refused. refused ≡ SizeRefused.Memory → result ≡ Err (Replay SimFault.Memory)) }
    ensures bad_size { IfErr list (λ refused. refused ≡ BadSize → result ≡ Ok 2) }
    ensures answered { IfOk list (λ l. IfOk result (WritesReport
        (IsScriptReport (limits_of 1 0 (L.listing l)) explain)
        (W.contents writer.old.stream) (W.contents writer.new.stream))) }
    ensures kept { IfErr list (λ refused.
        Keeps (W.contents writer.old.stream) (W.contents writer.new.stream)) }
    ensures unwritten { IfErr result (λ fault. ¬ IsWriteFault fault
        → Keeps (W.contents writer.old.stream) (W.contents writer.new.stream)) }
{
    match list {
        Ok(list) => run_list(rt, source, list, explain, writer),
        Err(SizeRefused::Memory) => Err(ProgramFault::from(AllocError)),
        Err(SizeRefused::BadSize) => {
            report_bad_size(rt, limits);
            Ok(REFUSED)
        }
    }
}

/// Runs a script over a fresh list.
fn run_list<L: PendingList + Drop, R: AllocGlobal + Eprint + Input + Files, W: Write>(
    rt: &R,
    source: Source<'_>,
    list: L,
    explain: bool,
    writer: &mut WithFault<W>,
) -> Result<u8, ProgramFault>
    requires fresh { IsFresh (L.listing list) }
    requires irps { (1 ≤ (L.listing list).irps) × ((L.listing list).irps ≤ 1024) }
    ensures answered { IfOk result (WritesReport
        (IsScriptReport (limits_of 1 0 (L.listing list)) explain)
        (W.contents writer.old.stream) (W.contents writer.new.stream)) }
    ensures unwritten { IfErr result (λ fault. ¬ IsWriteFault fault
        → Keeps (W.contents writer.old.stream) (W.contents writer.new.stream)) }
{
    let mut reader = source.open(rt)?;
    let answered = write_script(rt.alloc(), list, explain, &mut reader, writer);
    finish(rt, source, answered, reader.fault, writer.fault)
}

/// A limit that is above the number of IRPs.
#[derive(Clone, Copy)]
struct HighLimit<'a> {
    option: &'a str,
    limit: u32,
    irps: u32,
}

/// As `--limit 9 is above the number of IRPs, 8 (--irps 9 allows it)`.
impl fmt::Display for HighLimit<'_> {
    fn fmt<W: fmt::Write>(&self, f: &mut fmt::Formatter<W>) -> fmt::Result {
        let (option, limit, irps) = (self.option, self.limit, self.irps);
        write!(
            f,
            "{option} {limit} is above the number of IRPs, {irps} (--irps {limit} allows it)"
        )
    }
}

/// Says on standard error that the size is refused, and which limits are above the number of IRPs.
fn report_bad_size<R: Eprint>(rt: &R, limits: ScriptLimits) {
    let (irps, limit, file_limit) = (limits.irps, limits.limit, limits.file_limit);
    let _ = eprintln!(rt; "csqsim: bad size");
    for (option, limit) in [("--limit", limit), ("--file-limit", file_limit)] {
        if irps < limit {
            let high = HighLimit {
                option,
                limit,
                irps,
            };
            let _ = eprintln!(rt; "csqsim: {high}");
        }
    }
}
