//! Diagnoses of scripts.
ghost use Rattle.std.specs.Prelude.{◌≤◌, IfOk};
ghost use Rattle.csq_list.specs.Listing.{IsFresh};
ghost use Rattle.csq_words.specs.Queue.{limits_of};
ghost use Rattle.csq_explain.specs.ExplainingCalls.{IsScriptText};
ghost use Rattle.csq_diagnose.specs.Diagnoses.{IsScriptDiagnosis};
ghost use Rattle.csq_diagnose.specs.Reports.{IsReport};

use crate::diagnosed::{Report, report_input};
use csq_explain::ScriptExplanation;
use csq_list::PendingList;
use std::alloc::{AllocError, Allocator};

/// Makes the calls of a script once, over this list: its answer, with `explains` with a sentence after each line, and
/// which line ended it and why. The list is fresh and has 1 to 1,024 IRPs. Refused if there is too little memory. Own
/// rule.
pub fn report_script<L: PendingList + Drop, A: Allocator + Copy>(
    alloc: A,
    list: L,
    explains: bool,
    input: &[u8],
) -> Result<Report<A>, AllocError>
    requires fresh { IsFresh (L.listing list) }
    requires irps { (1 ≤ (L.listing list).irps) × ((L.listing list).irps ≤ 1024) }
    ensures { IfOk result (IsReport (IsScriptText explains (limits_of 1 0 (L.listing list)))
        IsScriptDiagnosis input.now) }
{
    let mut explanation = ScriptExplanation::new(alloc, list, explains)?;
    report_input(alloc, &mut explanation, input)
}
