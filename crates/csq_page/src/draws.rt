//! Schedules, drawn.
ghost use Rattle.std.specs.Prelude.{◌≡◌, ◌↔◌, true, false, IfOk, string_bytes};
ghost use Rattle.irp_core.specs.Runs.{IsInLimits};
ghost use Rattle.csq_page.specs.Codes.{number_of};
ghost use Rattle.csq_page.specs.Answers.{IsTold, Tells, TellsDrawing, view_of};

use crate::codes::Code;
use crate::hand_out::{Lengths, hand_out};
use csq_bump::{Bump, Memory};
use csq_diagnose::{Report, report_drawing};
use csq_draw::{Format, PictureView};
use irp_core::{Life, are_in_limits};
use std::alloc::{AllocError, Allocator};

/// The whole schedule, as text or as a picture, up to a refused step or past it.
fn view_of(as_text: bool, wrong: bool) -> PictureView
    ensures { result ≡ view_of as_text wrong }
{
    PictureView {
        format: if as_text { Format::Text } else { Format::Svg },
        window: None,
        wrong,
    }
}

/// Draws a schedule, and diagnoses it.
fn make_drawing<A: Allocator + Copy>(
    alloc: A,
    irps: u32,
    passes: u32,
    view: PictureView,
    input: &[u8],
) -> Result<Report<A>, AllocError>
    requires { IsInLimits (record { irps = irps; passes = passes; first = 0 }) }
    ensures { IfOk result (λ report.
        TellsDrawing (record { irps = irps; passes = passes; first = 0 }) view.wrong input.now
        (string_bytes report.text) (string_bytes report.diagnosis) report.ended) }
{
    report_drawing(alloc, irps, passes, view, input)
}

/// Draws a schedule.
fn tell_drawing<A: Allocator + Copy>(
    alloc: A,
    irps: u32,
    passes: u32,
    view: PictureView,
    input: &[u8],
    text: &mut [u8],
    diagnosis: &mut [u8],
    lengths: &mut Lengths,
) -> Code
    ensures told { IsTold
        (TellsDrawing (record { irps = irps; passes = passes; first = 0 }) view.wrong input.now)
        text.new diagnosis.new lengths.new result }
    ensures bad_size { (result ≡ Code.BadSize)
        ↔ ¬ IsInLimits (record { irps = irps; passes = passes; first = 0 }) }
{
    if !are_in_limits(irps, passes, Life(0)) {
        return Code::BadSize;
    }
    let made = make_drawing(alloc, irps, passes, view, input);
    hand_out(made, text, diagnosis, lengths)
}

/// What `csqsim draw` draws, with `--text` if that is asked for.
#[unsafe(no_mangle)]
pub extern "C" fn csq_page_draw(
    memory: Memory,
    irps: u32,
    passes: u32,
    as_text: bool,
    input: &[u8],
    text: &mut [u8],
    diagnosis: &mut [u8],
    lengths: &mut Lengths,
) -> u32
    ensures told { Tells
        (TellsDrawing (record { irps = irps; passes = passes; first = 0 }) false input.now)
        text.new diagnosis.new lengths.new result }
    ensures bad_size { (result ≡ number_of Code.BadSize)
        ↔ ¬ IsInLimits (record { irps = irps; passes = passes; first = 0 }) }
{
    let heap = Bump::new(memory);
    let view = view_of(as_text, false);
    let code = tell_drawing(&heap, irps, passes, view, input, text, diagnosis, lengths);
    code.number()
}

/// What `csqsim draw --wrong` draws, with `--text` if that is asked for.
#[unsafe(no_mangle)]
pub extern "C" fn csq_page_wrong_draw(
    memory: Memory,
    irps: u32,
    passes: u32,
    as_text: bool,
    input: &[u8],
    text: &mut [u8],
    diagnosis: &mut [u8],
    lengths: &mut Lengths,
) -> u32
    ensures told { Tells
        (TellsDrawing (record { irps = irps; passes = passes; first = 0 }) true input.now)
        text.new diagnosis.new lengths.new result }
    ensures bad_size { (result ≡ number_of Code.BadSize)
        ↔ ¬ IsInLimits (record { irps = irps; passes = passes; first = 0 }) }
{
    let heap = Bump::new(memory);
    let view = view_of(as_text, true);
    let code = tell_drawing(&heap, irps, passes, view, input, text, diagnosis, lengths);
    code.number()
}
