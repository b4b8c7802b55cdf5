//! Scripts, answered line by line, plainly or with a sentence after each line.
ghost use Rattle.std.specs.Prelude.{◌≡◌, ◌≤◌, IfOk};
ghost use Rattle.csq_list.specs.Listing.{Listing, IsFresh};
ghost use Rattle.csq_words.specs.Queue.{limits_of};
ghost use Rattle.csq_replay.specs.Calls.{new_script};
ghost use Rattle.csq_explain.specs.ScriptExplanations.{ExplainsScriptAfter};

use crate::call_sentences::{AnsweredCall, CallStopSentence};
use crate::explanation::add_remark;
use crate::script_endings::explain_remains;
use csq_list::PendingList;
use csq_replay::{Answerer, CallOutcome, CallStop, Driver, Line};
use std::alloc::{AllocError, Allocator};

/// A driver, and whether its calls are explained.
#[derive(Drop)]
pub struct ScriptExplanation<L, A: Allocator> {
    pub(crate) driver: Driver<L, A>,
    pub(crate) explains: bool,
}

impl<L: PendingList + Drop, A: Allocator + Copy> ScriptExplanation<L, A> {
    /// The answer before the first line of a script over this list, and where `explains` with a sentence after each
    /// line. The list is fresh and has 1 to 1,024 IRPs. Refused if there is too little memory. Own rule.
    pub fn new(alloc: A, list: L, explains: bool) -> Result<ScriptExplanation<L, A>, AllocError>
        requires fresh { IsFresh (L.listing list) }
        requires irps { (1 ≤ (L.listing list).irps) × ((L.listing list).irps ≤ 1024) }
        ensures { IfOk result (λ explanation. ExplainsScriptAfter L.listing explanation
            (limits_of 1 0 (L.listing list), explains) (new_script (limits_of 1 0 (L.listing list)))) }
    {
        let driver = Driver::new(alloc, list)?;
        Ok(ScriptExplanation { driver, explains })
    }
}

impl<L: PendingList, A: Allocator + Copy> Answerer<A, CallStop> for ScriptExplanation<L, A> {
    ghost use Rattle.std.specs.Prelude.{Bool};
    ghost use Rattle.csq_words.specs.Queue.{Limits};
    ghost use Rattle.csq_replay.specs.Calls.{Script};
    ghost use Rattle.csq_replay.specs.ScriptAnswer.{ReportsCall};
    ghost use Rattle.csq_explain.specs.ScriptExplanations.{ExplainsScriptAfter, call_line_text, closing_text, CallStopsFor};

    ghost Kind = { Limits × Bool };

    ghost State = { Script };

    ghost stands = { λ explanation c s. ExplainsScriptAfter L.listing explanation c s };

    ghost answers = { λ c s. ReportsCall (call_line_text c.1 c.0) c.0 s };

    ghost stops = { λ c s. CallStopsFor c.0 s };

    ghost closes = { λ c s text. text ≡ closing_text c.1 c.0 s };

    fn answer_line(
        &mut self,
        line: Line<'_>,
        text: &mut String<A>,
    ) -> Result<Option<CallStop>, AllocError> {
        match self.driver.handle(line.bytes) {
            CallOutcome::Skipped => Ok(None),
            CallOutcome::Answered(call, reply) => {
                let answered = AnsweredCall {
                    irps: self.driver.machine.irps(),
                    files: self.driver.list.files(),
                    call,
                    reply,
                };
                writeln!(text, "{reply}")?;
                add_remark(self.explains, answered, text)?;
                Ok(None)
            }
            CallOutcome::Stopped(stop) => {
                let number = line.number;
                writeln!(text, "line {number} {stop}")?;
                add_remark(self.explains, CallStopSentence(stop), text)?;
                Ok(Some(stop))
            }
        }
    }

    fn close(&self, text: &mut String<A>) -> Result<(), AllocError> {
        let remains = self.driver.remains()?;
        if self.explains {
            explain_remains(self.driver.alloc, &remains, text)?;
            return Ok(());
        }
        remains.write_lines(text)?;
        Ok(())
    }
}
