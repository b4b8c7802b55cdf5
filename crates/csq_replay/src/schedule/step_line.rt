//! Lines that name a step.
ghost use Rattle.std.specs.Prelude.{◌≡◌, Some, MatchOption};
ghost use Rattle.irp_core.specs.declared.ids.PassId.{PassId};
ghost use Rattle.irp_core.specs.declared.step.{Kind.{Kind}, Step.{Step}};
ghost use Rattle.irp_core.specs.Steps.{name_of};
ghost use Rattle.csq_replay.specs.Pieces.{words_of};
ghost use Rattle.csq_replay.specs.StepLine.{verb_of, IsPassWord, AreKindWords, IsStepLine};

use crate::lines::names::parse_name;
use crate::lines::pieces::{parse_number, split_piece};
use irp_core::{IrpLife, Kind, PassId, Step};

/// The pass that a word names.
pub fn parse_pass(word: &[u8]) -> Option<PassId>
    ensures { MatchOption result ((p : PassId) → ¬ IsPassWord word.now p) (IsPassWord word.now) }
{
    Some(PassId(parse_number(word.strip_prefix(b"p")?)?))
}

/// The kind that does this, of this IRP.
fn kind_named(verb: &[u8], name: IrpLife) -> Option<Kind>
    ensures { MatchOption result
        ((k : Kind) → ¬ ((verb_of k ≡ verb.now) × (name_of k ≡ Some name)))
        (λ k. (verb_of k ≡ verb.now) × (name_of k ≡ Some name)) }
{
    match verb {
        b"arm" => Some(Kind::Arm(name)),
        b"test" => Some(Kind::Test(name)),
        b"disarm" => Some(Kind::Disarm(name)),
        b"flag" => Some(Kind::Flag(name)),
        b"take" => Some(Kind::Take(name)),
        b"out" => Some(Kind::Out(name)),
        b"done" => Some(Kind::Done(name)),
        b"renew" => Some(Kind::Renew(name)),
        b"rearm" => Some(Kind::Rearm(name)),
        _ => None,
    }
}

fn parse_kind(text: &[u8]) -> Option<Kind>
    ensures { MatchOption result
        ((k : Kind) → ¬ AreKindWords (words_of text.now) k)
        (AreKindWords (words_of text.now)) }
{
    let (verb, operand) = split_piece(text, b' ');
    match operand {
        Some(operand) => kind_named(verb, parse_name(operand)?),
        None if verb == b"end".as_slice() => Some(Kind::End),
        None => None,
    }
}

/// The step that a line names.
pub(crate) fn parse_step(line: &[u8]) -> Option<Step>
    ensures { MatchOption result ((s : Step) → ¬ IsStepLine line.now s) (IsStepLine line.now) }
{
    let (pass, rest) = split_piece(line, b' ');
    let pass = parse_pass(pass)?;
    let kind = parse_kind(rest?)?;
    Some(Step { pass, kind })
}
