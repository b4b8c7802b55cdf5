//! The text of a device's totals.
ghost use Rattle.std.specs.Prelude.{◌≡◌, ◌++◌, codes, if◌then◌else◌, string_bytes, OnOk};
ghost use Rattle.csq_program.specs.Totals.{line_if, totals_text, states_text, completions_text, missed_text, calls_text, time_text, reported_text};

use csq_device::Totals;
use std::alloc::{AllocError, Allocator};
use std::time::Duration;

/// The lines that each run has.
fn write_totals<A: Allocator>(totals: &Totals, text: &mut String<A>) -> Result<(), AllocError>
    ensures { OnOk result (string_bytes text.new
        ≡ string_bytes text.old ++ totals_text totals.now) }
{
    let irps = totals.irps;
    let accounted = totals.accounted();
    let flagged = totals.flagged_listed;
    writeln!(text, "irps {irps}")?;
    writeln!(text, "accounted {accounted}")?;
    writeln!(text, "cancelled and listed {flagged}")
}

/// The lines of where the IRPs are, and with which status they were completed.
fn write_states<A: Allocator>(totals: &Totals, text: &mut String<A>) -> Result<(), AllocError>
    ensures { OnOk result (string_bytes text.new
        ≡ string_bytes text.old ++ states_text totals.now) }
{
    let Totals {
        home,
        listed,
        completed,
        succeeded,
        cancelled,
        ..
    } = *totals;
    writeln!(text, "home {home}")?;
    writeln!(text, "listed {listed}")?;
    writeln!(text, "completed {completed}")?;
    writeln!(text, "succeeded {succeeded}")?;
    writeln!(text, "cancelled {cancelled}")
}

/// The line of what the busy workers completed, if there are some.
fn write_busy_completions<A: Allocator>(
    totals: &Totals,
    busy: bool,
    text: &mut String<A>,
) -> Result<(), AllocError>
    ensures { OnOk result (string_bytes text.new ≡ string_bytes text.old
        ++ line_if busy (codes "completed by busy workers ") totals.now.put_backs.completed) }
{
    if !busy {
        return Ok(());
    }
    let completed = totals.put_backs.completed;
    writeln!(text, "completed by busy workers {completed}")
}

/// The lines of who completed them.
fn write_completions<A: Allocator>(
    totals: &Totals,
    busy: bool,
    text: &mut String<A>,
) -> Result<(), AllocError>
    ensures { OnOk result (string_bytes text.new
        ≡ string_bytes text.old ++ completions_text busy totals.now) }
{
    let submitters = totals.inserts.completed;
    let workers = totals.removals.completed;
    let cancellers = totals.cancels.completed;
    let cleanup = totals.cleaned;
    writeln!(text, "completed by submitters {submitters}")?;
    writeln!(text, "completed by workers {workers}")?;
    writeln!(text, "completed by cancellers {cancellers}")?;
    writeln!(text, "completed by cleanup {cleanup}")?;
    write_busy_completions(totals, busy, text)
}

/// The line of the put-backs, if there are busy workers.
fn write_put_backs<A: Allocator>(
    totals: &Totals,
    busy: bool,
    text: &mut String<A>,
) -> Result<(), AllocError>
    ensures { OnOk result (string_bytes text.new ≡ string_bytes text.old
        ++ line_if busy (codes "put-backs ") totals.now.put_backs.made) }
{
    if !busy {
        return Ok(());
    }
    let made = totals.put_backs.made;
    writeln!(text, "put-backs {made}")
}

/// The lines of the cancels that took no routine, by when they came.
fn write_missed<A: Allocator>(totals: &Totals, text: &mut String<A>) -> Result<(), AllocError>
    ensures { OnOk result (string_bytes text.new
        ≡ string_bytes text.old ++ missed_text totals.now) }
{
    let missed = totals.cancels.missed();
    let before = totals.missed_before();
    let during = totals.missed_during();
    let after = totals.missed_after();
    writeln!(text, "cancels too early or too late {missed}")?;
    writeln!(text, "cancels before the insert {before}")?;
    writeln!(text, "cancels during the insert {during}")?;
    writeln!(text, "cancels after the removal {after}")
}

/// The lines of the calls that the threads made.
fn write_calls<A: Allocator>(
    totals: &Totals,
    busy: bool,
    text: &mut String<A>,
) -> Result<(), AllocError>
    ensures { OnOk result (string_bytes text.new
        ≡ string_bytes text.old ++ calls_text busy totals.now) }
{
    let Totals {
        inserts,
        removals,
        cancels,
        ..
    } = *totals;
    let inserts = inserts.made;
    let (removals, found) = (removals.made, removals.completed);
    let (cancels, took) = (cancels.made, cancels.completed);
    writeln!(text, "inserts {inserts}")?;
    writeln!(text, "removals {removals}")?;
    writeln!(text, "removals that found an IRP {found}")?;
    writeln!(text, "cancels {cancels}")?;
    writeln!(text, "cancels that took the routine {took}")?;
    write_missed(totals, text)?;
    write_put_backs(totals, busy, text)
}

/// The line of the time that a run took, in milliseconds, unless the clock failed.
fn write_time<A: Allocator>(took: Option<Duration>, text: &mut String<A>) -> Result<(), AllocError>
    ensures { OnOk result (string_bytes text.new ≡ string_bytes text.old ++ time_text took) }
{
    match took {
        Some(took) => {
            let milliseconds = took.as_millis();
            let thousandths = took.as_micros() % 1_000;
            writeln!(text, "milliseconds {milliseconds}.{thousandths:03}")
        }
        None => writeln!(text, "milliseconds unknown"),
    }
}

/// What is reported for a run that took this long: the lines that each run has, and with `all` the further ones,
/// those of busy workers among them if there are some.
pub(crate) fn write_run<A: Allocator>(
    totals: &Totals,
    all: bool,
    busy: bool,
    took: Option<Duration>,
    text: &mut String<A>,
) -> Result<(), AllocError>
    ensures { OnOk result (string_bytes text.new
        ≡ string_bytes text.old ++ reported_text all busy totals.now took) }
{
    write_totals(totals, text)?;
    if !all {
        return Ok(());
    }
    write_states(totals, text)?;
    write_completions(totals, busy, text)?;
    write_calls(totals, busy, text)?;
    write_time(took, text)
}
