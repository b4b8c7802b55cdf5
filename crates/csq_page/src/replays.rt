//! Schedules, replayed.
ghost use Rattle.std.specs.Prelude.{◌≡◌, ◌↔◌, IfOk, string_bytes};
ghost use Rattle.irp_core.specs.Runs.{IsInLimits};
ghost use Rattle.csq_explain.specs.Explaining.{IsScheduleText};
ghost use Rattle.csq_diagnose.specs.Schedules.{IsScheduleDiagnosis};
ghost use Rattle.csq_page.specs.Codes.{number_of};
ghost use Rattle.csq_page.specs.Answers.{Both, IsTold, Tells, TellsWrong};

use crate::codes::Code;
use crate::hand_out::{Lengths, hand_out};
use csq_bump::{Bump, Memory};
use csq_diagnose::{Report, report_schedule, report_wrong_order};
use irp_core::{Life, are_in_limits};
use std::alloc::{AllocError, Allocator};

/// Replays a schedule, with the claims and with a sentence after each line if these are asked for.
fn tell_schedule<A: Allocator + Copy>(
    alloc: A,
    irps: u32,
    passes: u32,
    claims: bool,
    explains: bool,
    input: &[u8],
    text: &mut [u8],
    diagnosis: &mut [u8],
    lengths: &mut Lengths,
) -> Code
    ensures told { IsTold
        (Both (IsScheduleText explains (record { irps = irps; passes = passes; first = 0 }) claims)
        (IsScheduleDiagnosis (record { irps = irps; passes = passes; first = 0 })) input.now)
        text.new diagnosis.new lengths.new result }
    ensures bad_size { (result ≡ Code.BadSize)
        ↔ ¬ IsInLimits (record { irps = irps; passes = passes; first = 0 }) }
{
    if !are_in_limits(irps, passes, Life(0)) {
        return Code::BadSize;
    }
    let made = report_schedule(alloc, irps, passes, claims, explains, input);
    hand_out(made, text, diagnosis, lengths)
}

/// Follows a schedule that may break the protocol, and diagnoses it.
fn make_wrong_order<A: Allocator + Copy>(
    alloc: A,
    irps: u32,
    passes: u32,
    input: &[u8],
) -> Result<Report<A>, AllocError>
    requires { IsInLimits (record { irps = irps; passes = passes; first = 0 }) }
    ensures { IfOk result
        (λ report. TellsWrong (record { irps = irps; passes = passes; first = 0 }) input.now
        (string_bytes report.text) (string_bytes report.diagnosis) report.ended) }
{
    report_wrong_order(alloc, irps, passes, input)
}

/// Follows a schedule that may break the protocol.
fn tell_wrong_order<A: Allocator + Copy>(
    alloc: A,
    irps: u32,
    passes: u32,
    input: &[u8],
    text: &mut [u8],
    diagnosis: &mut [u8],
    lengths: &mut Lengths,
) -> Code
    ensures told { IsTold
        (TellsWrong (record { irps = irps; passes = passes; first = 0 }) input.now)
        text.new diagnosis.new lengths.new result }
    ensures bad_size { (result ≡ Code.BadSize)
        ↔ ¬ IsInLimits (record { irps = irps; passes = passes; first = 0 }) }
{
    if !are_in_limits(irps, passes, Life(0)) {
        return Code::BadSize;
    }
    let made = make_wrong_order(alloc, irps, passes, input);
    hand_out(made, text, diagnosis, lengths)
}

/// What `csqsim schedule` answers, with `--claims` and `--explain` if these are asked for.
#[unsafe(no_mangle)]
pub extern "C" fn csq_page_schedule(
    memory: Memory,
    irps: u32,
    passes: u32,
    claims: bool,
    explains: bool,
    input: &[u8],
    text: &mut [u8],
    diagnosis: &mut [u8],
    lengths: &mut Lengths,
) -> u32
    ensures told { Tells
        (Both (IsScheduleText explains (record { irps = irps; passes = passes; first = 0 }) claims)
        (IsScheduleDiagnosis (record { irps = irps; passes = passes; first = 0 })) input.now)
        text.new diagnosis.new lengths.new result }
    ensures bad_size { (result ≡ number_of Code.BadSize)
        ↔ ¬ IsInLimits (record { irps = irps; passes = passes; first = 0 }) }
{
    let heap = Bump::new(memory);
    let code = tell_schedule(
        &heap, irps, passes, claims, explains, input, text, diagnosis, lengths,
    );
    code.number()
}

/// What `csqsim schedule --wrong` answers.
#[unsafe(no_mangle)]
pub extern "C" fn csq_page_wrong_schedule(
    memory: Memory,
    irps: u32,
    passes: u32,
    input: &[u8],
    text: &mut [u8],
    diagnosis: &mut [u8],
    lengths: &mut Lengths,
) -> u32
    ensures told { Tells
        (TellsWrong (record { irps = irps; passes = passes; first = 0 }) input.now)
        text.new diagnosis.new lengths.new result }
    ensures bad_size { (result ≡ number_of Code.BadSize)
        ↔ ¬ IsInLimits (record { irps = irps; passes = passes; first = 0 }) }
{
    let heap = Bump::new(memory);
    let code = tell_wrong_order(&heap, irps, passes, input, text, diagnosis, lengths);
    code.number()
}
