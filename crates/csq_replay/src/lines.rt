//! Lines, answered one after the other.
ghost use Rattle.std.specs.Prelude.{◌≡◌, ◌↔◌, ℕ, List, Option, string_bytes, IfOk, OnOk, IsTrue};
ghost use Rattle.csq_replay.specs.Pieces.{lines_of};
ghost use Rattle.csq_replay.specs.Lines.{IsSkipped, GrewBy, Leaves, AnswersAll, AnswersUntil, IsAnswerUntil, ended_of};

pub(crate) mod answer;
pub(crate) mod names;
pub(crate) mod pieces;

use crate::lines::answer::{Ended, MAX_INPUT};
use crate::lines::pieces::split_line;
use std::alloc::{AllocError, Allocator};

/// The most bytes of a line, without its line feed. Own rule.
pub const MAX_LINE: usize = 64;

/// A line of an input.
#[derive(Clone, Copy)]
pub struct Line<'a> {
    /// Its number, from 1.
    pub number: usize,
    /// Its bytes, without its line feed.
    pub bytes: &'a [u8],
}

/// How the handling of an input ended, and at which line.
#[derive(Clone, Copy)]
pub enum Ending<'a, W> {
    /// All lines were handled.
    AllHandled,
    /// No line was, since the input has more than 1,048,576 bytes.
    TooLong,
    /// This line ended it, for this reason.
    StoppedAt(Line<'a>, W),
}

impl<W> Ending<'_, W> {
    /// How it ended, whatever the line and the reason. Own rule.
    pub fn ended(&self) -> Ended
        ensures { result ≡ ended_of self.now }
    {
        match self {
            Ending::AllHandled => Ended::AllHandled,
            Ending::TooLong | Ending::StoppedAt(..) => Ended::Stopped,
        }
    }
}

/// Whether a line is empty or a comment.
pub fn is_skipped(line: &[u8]) -> bool
    ensures { IsTrue result ↔ IsSkipped line.now }
{
    match line.first() {
        Some(byte) => *byte == b'#',
        None => true,
    }
}

/// What answers lines, some of which end the handling for a reason `W`.
pub trait Answerer<A: Allocator, W> {
    /// What no line changes.
    ghost Kind: { Type 0 };

    /// What the lines so far led to.
    ghost State: { Type 0 };

    /// It is of this kind, and stands at this state.
    ghost stands: { Self → Self.Kind → Self.State → Type 0 };

    /// After a state the line of this number is answered this text, and leads to another state, if the handling goes on.
    ghost answers: { Self.Kind → Self.State → ℕ → List ℕ → List ℕ → Option Self.State → Type 0 };

    /// After a state the line of this number ends the handling, for this reason.
    ghost stops: { Self.Kind → Self.State → ℕ → List ℕ → W → Type 0 };

    /// The closing lines after a state.
    ghost closes: { Self.Kind → Self.State → List ℕ → Type 0 };

    /// Answers a line, and returns why it ends the handling, if it does.
    fn answer_line(&mut self, line: Line<'_>, text: &mut String<A>) -> Result<Option<W>, AllocError>
        requires { (c : Self.Kind) × (s : Self.State) × stands self.old c s }
        ensures { (c : Self.Kind) (s : Self.State) → stands self.old c s → IfOk result (λ why.
            (added : List ℕ) × GrewBy (string_bytes text.old) (string_bytes text.new) added
            × ((more : Option Self.State) × answers c s line.entry.number line.entry.bytes.now added more
            × Leaves (stands self.new c) (stops c s line.entry.number line.entry.bytes.now) why more)) };

    /// Writes the closing lines.
    fn close(&self, text: &mut String<A>) -> Result<(), AllocError>
        requires { (c : Self.Kind) × (s : Self.State) × stands self.now c s }
        ensures { OnOk result ((c : Self.Kind) (s : Self.State) → stands self.now c s
            → (added : List ℕ) × GrewBy (string_bytes text.old) (string_bytes text.new) added
            × closes c s added) };
}

/// Answers each line, one after the other, and closes.
fn answer_lines<'a, X: Answerer<A, W>, A: Allocator, W: Copy>(
    answerer: &mut X,
    input: &'a [u8],
    text: &mut String<A>,
) -> Result<Ending<'a, W>, AllocError>
    requires { (c : X.Kind) × (s : X.State) × X.stands answerer.old c s }
    ensures { (c : X.Kind) (s : X.State) → X.stands answerer.old c s → IfOk result (λ ending.
        (added : List ℕ) × GrewBy (string_bytes text.old) (string_bytes text.new) added
        × AnswersAll (AnswersUntil (X.answers c) (X.stops c) ending) (X.closes c) s 1 (lines_of input.now) added
        (ended_of ending)) }
{
    let mut rest = input;
    let mut number = 1;
    'lines: while !rest.is_empty() {
        let (bytes, after) = split_line(rest);
        let line = Line { number, bytes };
        if let Some(why) = answerer.answer_line(line, text)? {
            return Ok(Ending::StoppedAt(line, why));
        }
        rest = after;
        number += 1;
    }
    answerer.close(text)?;
    Ok(Ending::AllHandled)
}

/// Adds what an input is answered: line after line, and then the closing lines, or `input too long`. Returns
/// which line ended the handling, and why, if one did. Own rule.
pub fn answer_input<'a, X: Answerer<A, W>, A: Allocator, W: Copy>(
    answerer: &mut X,
    input: &'a [u8],
    text: &mut String<A>,
) -> Result<Ending<'a, W>, AllocError>
    requires { (c : X.Kind) × (s : X.State) × X.stands answerer.old c s }
    ensures { (c : X.Kind) (s : X.State) → X.stands answerer.old c s → IfOk result (λ ending.
        (added : List ℕ) × GrewBy (string_bytes text.old) (string_bytes text.new) added
        × IsAnswerUntil (X.answers c) (X.stops c) (X.closes c) s input.now added ending) }
{
    if input.len() > MAX_INPUT {
        writeln!(text, "input too long")?;
        return Ok(Ending::TooLong);
    }
    answer_lines(answerer, input, text)
}
