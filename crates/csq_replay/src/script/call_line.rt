//! Lines that name a call.
ghost use Rattle.std.specs.Prelude.{◌≡◌, ◌≢◌, ◌<◌, ◌↔◌, [], ◌∷◌, Some, codes, decimal, IsTrue, MatchOption};
ghost use Rattle.csq_list.specs.declared.entry.Place.{Place};
ghost use Rattle.csq_replay.specs.declared.script.call.ScriptCall.{ScriptCall};
ghost use Rattle.csq_replay.specs.Pieces.{words_of};
ghost use Rattle.csq_replay.specs.CallLine.{call_name, named_life, place_word, IsLifeName, IsCallLine, IsNamed};

use crate::lines::names::parse_name;
use crate::lines::pieces::{parse_number, parse_status, split_piece};
use crate::script::call::ScriptCall;
use csq_list::{Peek, Place};
use irp_core::{FileId, IrpId, IrpLife};

fn parse_place(word: &[u8]) -> Option<Place>
    ensures { MatchOption result ((place : Place) → ¬ (word.now ≡ place_word place))
        (λ place. word.now ≡ place_word place) }
{
    match word {
        b"back" => Some(Place::Back),
        b"front" => Some(Place::Front),
        _ => None,
    }
}

/// Of an IRP, a file object and a place.
fn parse_insert(operands: &[u8]) -> Option<ScriptCall>
    ensures { MatchOption result ((c : ScriptCall) → ¬ IsNamed (codes "insert") (words_of operands.now) c) (IsNamed (codes "insert") (words_of operands.now)) }
{
    let (irp, rest) = split_piece(operands, b' ');
    let irp = IrpId(parse_number(irp)?);
    let (file, place) = split_piece(rest?, b' ');
    let file = FileId(parse_number(file)?);
    Some(ScriptCall::Insert(irp, file, parse_place(place?)?))
}

/// Of an IRP and a place.
fn parse_put_back(operands: &[u8]) -> Option<ScriptCall>
    ensures { MatchOption result ((c : ScriptCall) → ¬ IsNamed (codes "put_back") (words_of operands.now) c) (IsNamed (codes "put_back") (words_of operands.now)) }
{
    let (irp, place) = split_piece(operands, b' ');
    let irp = IrpId(parse_number(irp)?);
    Some(ScriptCall::PutBack(irp, parse_place(place?)?))
}

/// Of a file object, or of any.
fn parse_next(operand: &[u8]) -> Option<ScriptCall>
    ensures { MatchOption result ((c : ScriptCall) → ¬ IsNamed (codes "next") (words_of operand.now) c) (IsNamed (codes "next") (words_of operand.now)) }
{
    if operand == b"*".as_slice() {
        return Some(ScriptCall::Next(Peek::Any));
    }
    Some(ScriptCall::Next(Peek::File(FileId(parse_number(operand)?))))
}

/// Of an IRP and a status.
fn parse_complete(operands: &[u8]) -> Option<ScriptCall>
    ensures { MatchOption result ((c : ScriptCall) → ¬ IsNamed (codes "complete") (words_of operands.now) c) (IsNamed (codes "complete") (words_of operands.now)) }
{
    let (irp, status) = split_piece(operands, b' ');
    let irp = IrpId(parse_number(irp)?);
    Some(ScriptCall::Complete(irp, parse_status(status?)?))
}

/// Whether calls of this name name an IRP in one of its lives.
fn names_life(name: &[u8]) -> bool
    ensures { IsTrue result ↔ IsLifeName name.now }
{
    name == b"remove".as_slice() || name == b"mark".as_slice() || name == b"cancel".as_slice()
}

/// The call of this name, of an IRP in one of its lives.
fn call_of_life(name: &[u8], irp: IrpLife) -> Option<ScriptCall>
    ensures { MatchOption result
        ((c : ScriptCall) → ¬ ((call_name c ≡ name.now) × (named_life c ≡ Some irp)))
        (λ c. (call_name c ≡ name.now) × (named_life c ≡ Some irp)) }
{
    match name {
        b"remove" => Some(ScriptCall::Remove(irp)),
        b"mark" => Some(ScriptCall::Mark(irp)),
        b"cancel" => Some(ScriptCall::Cancel(irp)),
        _ => None,
    }
}

/// The call of this name whose one operand is this number.
fn call_of_number(name: &[u8], number: u32) -> Option<ScriptCall>
    requires short { number < 1000000000 }
    requires other { name.now ≢ codes "next" }
    requires no_life { ¬ IsLifeName name.now }
    ensures { MatchOption result ((c : ScriptCall) → ¬ IsNamed name.now (decimal number ∷ []) c)
        (IsNamed name.now (decimal number ∷ [])) }
{
    match name {
        b"routine" => Some(ScriptCall::Routine(IrpId(number))),
        b"close" => Some(ScriptCall::Close(FileId(number))),
        b"cleanup" => Some(ScriptCall::Cleanup(FileId(number))),
        b"flag" => Some(ScriptCall::Flag(IrpId(number))),
        b"status" => Some(ScriptCall::Status(IrpId(number))),
        b"reuse" => Some(ScriptCall::Reuse(IrpId(number))),
        _ => None,
    }
}

fn parse_operands(name: &[u8], operands: &[u8]) -> Option<ScriptCall>
    ensures { MatchOption result ((c : ScriptCall) → ¬ IsNamed name.now (words_of operands.now) c)
        (IsNamed name.now (words_of operands.now)) }
{
    if name == b"insert".as_slice() {
        return parse_insert(operands);
    }
    if name == b"next".as_slice() {
        return parse_next(operands);
    }
    if name == b"complete".as_slice() {
        return parse_complete(operands);
    }
    if name == b"put_back".as_slice() {
        return parse_put_back(operands);
    }
    if names_life(name) {
        return call_of_life(name, parse_name(operands)?);
    }
    call_of_number(name, parse_number(operands)?)
}

/// The call that a line names.
pub(crate) fn parse_call(line: &[u8]) -> Option<ScriptCall>
    ensures { MatchOption result ((c : ScriptCall) → ¬ IsCallLine line.now c) (IsCallLine line.now) }
{
    let (name, operands) = split_piece(line, b' ');
    parse_operands(name, operands?)
}
