//! Answers to schedules and scripts: each input is read from a reader, and its answer is written to a writer.
ghost use Rattle.std.specs.Prelude.{◌≢◌, ◌≤◌, IfOk, IfErr};
ghost use Rattle.std.specs.Io.KnownBytes.{Keeps};
ghost use Rattle.irp_core.specs.Runs.{IsInLimits};
ghost use Rattle.csq_list.specs.Listing.{IsFresh};
ghost use Rattle.csq_words.specs.Queue.{limits_of};
ghost use Rattle.csq_replay.specs.Schedule.{RepliesToSchedule};
ghost use Rattle.csq_replay.specs.ScriptAnswer.{RepliesToScript};
ghost use Rattle.csq_diagnose.specs.Drawings.{ReportsDrawingEnd};
ghost use Rattle.csq_diagnose.specs.Schedules.{IsWrongReport};
ghost use Rattle.csq_program.specs.Cuts.{drawn_input};
ghost use Rattle.csq_program.specs.Replays.{AnswersInput, IsScheduleReport, IsScriptReport, IsCutReport};

use crate::cut::cut_input;
use csq_diagnose::{Report, report_drawing, report_schedule, report_script, report_wrong_order};
use csq_draw::PictureView;
use csq_list::PendingList;
use csq_replay::{Ended, SimFault, read_input, write_answer};
use std::alloc::{AllocError, Allocator};
use std::io::{Read, Write};

/// Reads a schedule, replays its steps over a machine of IRPs 0 to `irps` - 1 and passes 1 to `passes`, and writes
/// what each line is answered, and then where each IRP is and whether all is at rest; with `claims` also each claim,
/// and with `explains` a sentence after each line. Returns what was written, how the handling ended, and which line
/// ended it and why.
///
/// All of the input is read, up to 1,048,577 bytes; more stays unread. `irps` is 1 to 1,024 and `passes` 1 to 64.
/// Faults: 1 Memory and 2 Read, after which nothing was written; 3 Write. Own rule.
pub fn write_schedule<A: Allocator + Copy, R: Read, W: Write>(
    alloc: A,
    irps: u32,
    passes: u32,
    claims: bool,
    explains: bool,
    reader: &mut R,
    writer: &mut W,
) -> Result<Report<A>, SimFault>
    requires { IsInLimits (record { irps = irps; passes = passes; first = 0 }) }
    ensures answered { IfOk result (AnswersInput
        (IsScheduleReport (record { irps = irps; passes = passes; first = 0 }) claims explains)
        (R.remaining reader.old) (R.remaining reader.new)
        (W.contents writer.old) (W.contents writer.new)) }
    ensures unwritten { IfErr result (λ fault. fault ≢ SimFault.Write
        → Keeps (W.contents writer.old) (W.contents writer.new)) }
{
    let input = read_input(alloc, reader)?;
    let report = report_schedule(alloc, irps, passes, claims, explains, &input)?;
    write_answer(writer, report.text.as_bytes())?;
    Ok(report)
}

/// Answers a schedule without sentences, as `write_schedule` does, and returns how its handling ended. Own rule.
pub fn answer_schedule<A: Allocator + Copy, R: Read, W: Write>(
    alloc: A,
    irps: u32,
    passes: u32,
    claims: bool,
    reader: &mut R,
    writer: &mut W,
) -> Result<Ended, SimFault>
    requires { IsInLimits (record { irps = irps; passes = passes; first = 0 }) }
    ensures answered { IfOk result
        (RepliesToSchedule (record { irps = irps; passes = passes; first = 0 }) claims
        (R.remaining reader.old) (R.remaining reader.new)
        (W.contents writer.old) (W.contents writer.new)) }
    ensures unwritten { IfErr result (λ fault. fault ≢ SimFault.Write
        → Keeps (W.contents writer.old) (W.contents writer.new)) }
{
    let report = write_schedule(alloc, irps, passes, claims, false, reader, writer)?;
    Ok(report.ended)
}

/// Answers a schedule that may break the protocol, as `write_schedule` does, by csq_explain's `WrongOrder`.
pub(crate) fn write_wrong_order<A: Allocator + Copy, R: Read, W: Write>(
    alloc: A,
    irps: u32,
    passes: u32,
    reader: &mut R,
    writer: &mut W,
) -> Result<Report<A>, SimFault>
    requires { IsInLimits (record { irps = irps; passes = passes; first = 0 }) }
    ensures answered { IfOk result (AnswersInput
        (IsWrongReport (record { irps = irps; passes = passes; first = 0 }))
        (R.remaining reader.old) (R.remaining reader.new)
        (W.contents writer.old) (W.contents writer.new)) }
    ensures unwritten { IfErr result (λ fault. fault ≢ SimFault.Write
        → Keeps (W.contents writer.old) (W.contents writer.new)) }
{
    let input = read_input(alloc, reader)?;
    let report = report_wrong_order(alloc, irps, passes, &input)?;
    write_answer(writer, report.text.as_bytes())?;
    Ok(report)
}

/// Draws a schedule up to the line that is named, and diagnoses it.
fn report_cut_drawing<A: Allocator + Copy>(
    alloc: A,
    irps: u32,
    passes: u32,
    view: PictureView,
    to: Option<u32>,
    input: &[u8],
) -> Result<Report<A>, AllocError>
    requires { IsInLimits (record { irps = irps; passes = passes; first = 0 }) }
    ensures { IfOk result (ReportsDrawingEnd (record { irps = irps; passes = passes; first = 0 }) view.wrong
        (drawn_input to input.now)) }
{
    report_drawing(alloc, irps, passes, view, cut_input(input, to))
}

/// Reads a schedule, and writes csq_draw's picture of its steps, up to the line that is named, if one is. It reads,
/// returns and fails as `write_schedule` does. Own rule.
pub fn write_drawing<A: Allocator + Copy, R: Read, W: Write>(
    alloc: A,
    irps: u32,
    passes: u32,
    view: PictureView,
    to: Option<u32>,
    reader: &mut R,
    writer: &mut W,
) -> Result<Report<A>, SimFault>
    requires { IsInLimits (record { irps = irps; passes = passes; first = 0 }) }
    ensures answered { IfOk result (AnswersInput (IsCutReport to
        (ReportsDrawingEnd (record { irps = irps; passes = passes; first = 0 }) view.wrong))
        (R.remaining reader.old) (R.remaining reader.new)
        (W.contents writer.old) (W.contents writer.new)) }
    ensures unwritten { IfErr result (λ fault. fault ≢ SimFault.Write
        → Keeps (W.contents writer.old) (W.contents writer.new)) }
{
    let input = read_input(alloc, reader)?;
    let report = report_cut_drawing(alloc, irps, passes, view, to, &input)?;
    write_answer(writer, report.text.as_bytes())?;
    Ok(report)
}

/// Reads a script, makes its calls as one pass over a machine and this list, and writes what each is answered, and
/// then what is listed, held and owed; with `explains` a sentence after each line. Returns what was written, how the
/// handling ended, and which line ended it and why.
///
/// All of the input is read, up to 1,048,577 bytes; more stays unread. The list is fresh and has 1 to 1,024 IRPs.
/// Faults: 1 Memory and 2 Read, after which nothing was written; 3 Write. Own rule.
pub fn write_script<L: PendingList + Drop, A: Allocator + Copy, R: Read, W: Write>(
    alloc: A,
    list: L,
    explains: bool,
    reader: &mut R,
    writer: &mut W,
) -> Result<Report<A>, SimFault>
    requires fresh { IsFresh (L.listing list) }
    requires irps { (1 ≤ (L.listing list).irps) × ((L.listing list).irps ≤ 1024) }
    ensures answered { IfOk result (AnswersInput
        (IsScriptReport (limits_of 1 0 (L.listing list)) explains)
        (R.remaining reader.old) (R.remaining reader.new)
        (W.contents writer.old) (W.contents writer.new)) }
    ensures unwritten { IfErr result (λ fault. fault ≢ SimFault.Write
        → Keeps (W.contents writer.old) (W.contents writer.new)) }
{
    let input = read_input(alloc, reader)?;
    let report = report_script(alloc, list, explains, &input)?;
    write_answer(writer, report.text.as_bytes())?;
    Ok(report)
}

/// Answers a script without sentences, as `write_script` does, and returns how its handling ended. Own rule.
pub fn answer_script<L: PendingList + Drop, A: Allocator + Copy, R: Read, W: Write>(
    alloc: A,
    list: L,
    reader: &mut R,
    writer: &mut W,
) -> Result<Ended, SimFault>
    requires fresh { IsFresh (L.listing list) }
    requires irps { (1 ≤ (L.listing list).irps) × ((L.listing list).irps ≤ 1024) }
    ensures answered { IfOk result (RepliesToScript (limits_of 1 0 (L.listing list))
        (R.remaining reader.old) (R.remaining reader.new)
        (W.contents writer.old) (W.contents writer.new)) }
    ensures unwritten { IfErr result (λ fault. fault ≢ SimFault.Write
        → Keeps (W.contents writer.old) (W.contents writer.new)) }
{
    let report = write_script(alloc, list, false, reader, writer)?;
    Ok(report.ended)
}
