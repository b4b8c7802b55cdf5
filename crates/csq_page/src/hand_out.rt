//! How an answer is handed to the page.
ghost use Rattle.std.specs.Prelude.{◌≡◌, ◌⊎◌, ◌<◌, ◌≤◌, take, length, string_bytes, IfOk, IfErr};
ghost use Rattle.csq_page.specs.Codes.{code_of};

use crate::codes::Code;
use csq_diagnose::Report;
use std::alloc::{AllocError, Allocator};

/// How many bytes an answer and its diagnosis have: of one without room too, so that the page can ask again with more.
#[repr(C)]
#[derive(Clone, Copy)]
pub struct Lengths {
    pub answer: usize,
    pub diagnosis: usize,
}

/// Puts bytes in front in a place that has room for them.
fn put(bytes: &[u8], place: &mut [u8])
    requires { length bytes.now ≤ length place.old }
    ensures { take (length bytes.now) place.new ≡ bytes.now }
{
    place[..bytes.len()].copy_from_slice(bytes);
}

/// Hands out an answer and its diagnosis, and how long they are. Neither is handed out if one is longer than its place.
pub(crate) fn hand_out<A: Allocator>(
    made: Result<Report<A>, AllocError>,
    text: &mut [u8],
    diagnosis: &mut [u8],
    lengths: &mut Lengths,
) -> Code
    ensures memory { IfErr made (λ _. result ≡ Code.NoMemory) }
    ensures answer_length { IfOk made (λ report.
        lengths.new.answer ≡ length (string_bytes report.text)) }
    ensures diagnosis_length { IfOk made (λ report.
        lengths.new.diagnosis ≡ length (string_bytes report.diagnosis)) }
    ensures fits { IfOk made (λ report. ¬ (result ≡ Code.NoRoom)
        → (lengths.new.answer ≤ length text.new) × (lengths.new.diagnosis ≤ length diagnosis.new)) }
    ensures room { IfOk made (λ report. result ≡ Code.NoRoom
        → (length text.old < length (string_bytes report.text))
        ⊎ (length diagnosis.old < length (string_bytes report.diagnosis))) }
    ensures code { IfOk made (λ report. ¬ (result ≡ Code.NoRoom) → result ≡ code_of report.ended) }
    ensures text { IfOk made (λ report. ¬ (result ≡ Code.NoRoom)
        → take lengths.new.answer text.new ≡ string_bytes report.text) }
    ensures diagnosis { IfOk made (λ report. ¬ (result ≡ Code.NoRoom)
        → take lengths.new.diagnosis diagnosis.new ≡ string_bytes report.diagnosis) }
{
    let Ok(report) = made else {
        return Code::NoMemory;
    };
    let (answer, why) = (report.text.as_bytes(), report.diagnosis.as_bytes());
    *lengths = Lengths {
        answer: answer.len(),
        diagnosis: why.len(),
    };
    if answer.len() > text.len() || why.len() > diagnosis.len() {
        return Code::NoRoom;
    }
    put(answer, text);
    put(why, diagnosis);
    Code::of(report.ended)
}
