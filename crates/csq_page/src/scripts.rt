//! Scripts of calls.
ghost use Rattle.std.specs.Prelude.{◌≡◌, ◌↔◌, replicate};
ghost use Rattle.csq_list.specs.Listing.{IsListSize, fresh};
ghost use Rattle.csq_words.specs.Queue.{limits_of};
ghost use Rattle.csq_explain.specs.ExplainingCalls.{IsScriptText};
ghost use Rattle.csq_diagnose.specs.Diagnoses.{IsScriptDiagnosis};
ghost use Rattle.csq_page.specs.Codes.{number_of};
ghost use Rattle.csq_page.specs.Answers.{Both, IsTold, Tells};

use crate::codes::Code;
use crate::hand_out::{Lengths, hand_out};
use csq_bump::{Bump, Memory};
use csq_diagnose::report_script;
use csq_list::VecList;
use irp_core::SizeRefused;
use std::alloc::Allocator;

/// Makes the calls of a script over a list of this number of IRPs and file objects, of which up to `limit` may be listed.
fn tell_script<A: Allocator + Copy>(
    alloc: A,
    irps: u32,
    files: u32,
    limit: u32,
    explains: bool,
    input: &[u8],
    text: &mut [u8],
    diagnosis: &mut [u8],
    lengths: &mut Lengths,
) -> Code
    ensures told { IsTold
        (Both (IsScriptText explains (limits_of 1 0 (fresh irps files limit (replicate files irps))))
        IsScriptDiagnosis input.now)
        text.new diagnosis.new lengths.new result }
    ensures bad_size { (result ≡ Code.BadSize) ↔ ¬ IsListSize irps files limit }
{
    match VecList::new(alloc, irps, files, limit) {
        Ok(list) => {
            let made = report_script(alloc, list, explains, input);
            hand_out(made, text, diagnosis, lengths)
        }
        Err(SizeRefused::Memory) => Code::NoMemory,
        Err(SizeRefused::BadSize) => Code::BadSize,
    }
}

/// What `csqsim script` answers, with `--explain` if that is asked for.
#[unsafe(no_mangle)]
pub extern "C" fn csq_page_script(
    memory: Memory,
    irps: u32,
    files: u32,
    limit: u32,
    explains: bool,
    input: &[u8],
    text: &mut [u8],
    diagnosis: &mut [u8],
    lengths: &mut Lengths,
) -> u32
    ensures told { Tells
        (Both (IsScriptText explains (limits_of 1 0 (fresh irps files limit (replicate files irps))))
        IsScriptDiagnosis input.now)
        text.new diagnosis.new lengths.new result }
    ensures bad_size { (result ≡ number_of Code.BadSize) ↔ ¬ IsListSize irps files limit }
{
    let heap = Bump::new(memory);
    let code = tell_script(
        &heap, irps, files, limit, explains, input, text, diagnosis, lengths,
    );
    code.number()
}
