//! Answers to inputs, each with its diagnosis.
ghost use Rattle.std.specs.Prelude.{ℕ, List, Option, OnOk, IfOk, MatchOption, string_bytes};
ghost use Rattle.csq_replay.specs.Lines.{GrewBy};
ghost use Rattle.csq_replay.specs.Pieces.{words_of};
ghost use Rattle.csq_diagnose.specs.declared.malformed.Malformed.{Malformed as MalformedOf};
ghost use Rattle.csq_diagnose.specs.Grammars.{AreLineWords};
ghost use Rattle.csq_diagnose.specs.Malforms.{IsMalformed};
ghost use Rattle.csq_diagnose.specs.Columns.{GrewAt, IsOfFault, at_text, column_after, words_before};
ghost use Rattle.csq_diagnose.specs.Reports.{IsEndDiagnosis, IsReportUntil};

use crate::grammar::Grammar;
use crate::malformed::Malformed;
use crate::refused::{Refusal, refused_words, words_before};
use crate::source::Mark;
use crate::texts::fault_words;
use csq_explain::Reason;
use csq_replay::{Answerer, CallStop, Ended, Ending, Line, MAX_LINE, Stop, answer_input};
use std::alloc::{AllocError, Allocator};

/// The answer to an input, and why a line ended its handling.
#[derive(Drop)]
pub struct Report<A: Allocator> {
    /// How the handling ended.
    pub ended: Ended,
    /// The answer.
    pub text: String<A>,
    /// Which line ended the handling, and why; empty if all lines were handled.
    pub diagnosis: String<A>,
}

/// Adds the numbers of a line and of a column of it, and what is said of them.
fn add_at<A: Allocator>(
    line: Line<'_>,
    column: usize,
    words: &str,
    text: &mut String<A>,
) -> Result<(), AllocError>
    ensures { OnOk result (GrewBy (string_bytes text.old) (string_bytes text.new)
        (at_text line.entry.number column words.now)) }
{
    let number = line.number;
    write!(text, "{number}:{column}: {words}")
}

/// Adds that a line is too long, of its first byte too many.
fn add_long<A: Allocator + Copy>(
    alloc: A,
    line: Line<'_>,
    text: &mut String<A>,
) -> Result<(), AllocError>
    ensures { OnOk result (GrewAt line.entry.number 65
        (string_bytes text.old) (string_bytes text.new)) }
{
    let length = line.bytes.len();
    let mut words = String::new(alloc);
    writeln!(
        words,
        "the line has {length} bytes, and at most {MAX_LINE} are allowed"
    )?;
    add_at(line, MAX_LINE + 1, words.as_str(), text)
}

/// Adds what names no step, or no call, in a line: what is wrong, the line with a mark, and which words are expected.
fn add_fault<A: Allocator + Copy>(
    alloc: A,
    line: Line<'_>,
    fault: Malformed<'_>,
    text: &mut String<A>,
) -> Result<(), AllocError>
    ensures { OnOk result (GrewAt line.entry.number fault.entry.column
        (string_bytes text.old) (string_bytes text.new)) }
{
    let words = fault_words(alloc, line, fault)?;
    add_at(line, fault.column, words.as_str(), text)
}

/// Adds what names no step, or no call, in a line; nothing if it names one.
fn add_malformed<A: Allocator + Copy>(
    alloc: A,
    grammar: Grammar,
    line: Line<'_>,
    text: &mut String<A>,
) -> Result<(), AllocError>
    ensures { OnOk result ((fault : Option MalformedOf) × MatchOption fault
        (AreLineWords grammar (words_of line.entry.bytes.now)) (IsMalformed grammar line.entry.bytes.now)
        × (added : List ℕ) × GrewBy (string_bytes text.old) (string_bytes text.new) added
        × IsOfFault line.entry.number fault added) }
{
    let Some(fault) = Malformed::find(alloc, grammar, line.bytes)? else {
        return Ok(());
    };
    add_fault(alloc, line, fault, text)?;
    Ok(())
}

/// Adds why the step of a line is refused, and the line with a mark below what is at fault.
fn add_refused<A: Allocator + Copy>(
    alloc: A,
    line: Line<'_>,
    refusal: Refusal,
    text: &mut String<A>,
) -> Result<(), AllocError>
    ensures { OnOk result (GrewAt line.entry.number
        (column_after line.entry.bytes.now (words_before refusal.cause))
        (string_bytes text.old) (string_bytes text.new)) }
{
    let mark = Mark::of_word(line.bytes, words_before(refusal.cause));
    let words = refused_words(alloc, line.bytes, refusal, mark)?;
    add_at(line, mark.column, words.as_str(), text)
}

/// Why a line ends the handling of an input.
pub trait Diagnose<A: Allocator> {
    /// The line of this number, which ends the handling for this reason, is reported so.
    ghost reports: { Self → ℕ → List ℕ → List ℕ → Type 0 };

    /// Adds that this line ends the handling, and why.
    fn diagnose(self, alloc: A, line: Line<'_>, text: &mut String<A>) -> Result<(), AllocError>
        ensures { OnOk result ((added : List ℕ)
            × GrewBy (string_bytes text.old) (string_bytes text.new) added
            × reports self line.entry.number line.entry.bytes.now added) };
}

impl<A: Allocator + Copy> Diagnose<A> for Reason {
    ghost use Rattle.csq_diagnose.specs.Schedules.{ReportsReason};

    ghost reports = { λ reason n line text. ReportsReason reason n line text };

    fn diagnose(self, alloc: A, line: Line<'_>, text: &mut String<A>) -> Result<(), AllocError> {
        match self.stop {
            Stop::TooLong => add_long(alloc, line, text),
            Stop::Malformed => add_malformed(alloc, Grammar::Schedule, line, text),
            Stop::Refused(step, cause) => {
                let refusal = Refusal {
                    step,
                    cause,
                    reason: self,
                };
                add_refused(alloc, line, refusal, text)
            }
        }
    }
}

impl<A: Allocator + Copy> Diagnose<A> for CallStop {
    ghost use Rattle.csq_diagnose.specs.Diagnoses.{ReportsCallStop};

    ghost reports = { λ stop n line text. ReportsCallStop stop n line text };

    fn diagnose(self, alloc: A, line: Line<'_>, text: &mut String<A>) -> Result<(), AllocError> {
        match self {
            CallStop::TooLong => add_long(alloc, line, text),
            CallStop::Malformed => add_malformed(alloc, Grammar::Script, line, text),
        }
    }
}

/// Adds how the handling of an input ended, unless all lines were handled.
fn add_diagnosis<A: Allocator, W: Diagnose<A>>(
    alloc: A,
    ending: Ending<'_, W>,
    text: &mut String<A>,
) -> Result<(), AllocError>
    ensures { OnOk result ((added : List ℕ)
        × GrewBy (string_bytes text.old) (string_bytes text.new) added
        × IsEndDiagnosis W.reports ending.entry added) }
{
    match ending {
        Ending::AllHandled => Ok(()),
        Ending::TooLong => writeln!(text, "input too long"),
        Ending::StoppedAt(line, why) => why.diagnose(alloc, line, text),
    }
}

/// Answers an input, and diagnoses it: each of its lines is handled once. Refused if there is too little memory.
/// Own rule.
pub fn report_input<X: Answerer<A, W>, A: Allocator + Copy, W: Diagnose<A> + Copy>(
    alloc: A,
    answerer: &mut X,
    input: &[u8],
) -> Result<Report<A>, AllocError>
    requires { (c : X.Kind) × (s : X.State) × X.stands answerer.old c s }
    ensures { (c : X.Kind) (s : X.State) → X.stands answerer.old c s → IfOk result
        (IsReportUntil (X.answers c) (X.stops c) (X.closes c) W.reports s input.now) }
{
    let mut text = String::new(alloc);
    let ending = answer_input(answerer, input, &mut text)?;
    let ended = ending.ended();
    let mut diagnosis = String::new(alloc);
    add_diagnosis(alloc, ending, &mut diagnosis)?;
    Ok(Report {
        ended,
        text,
        diagnosis,
    })
}
