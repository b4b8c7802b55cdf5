//! What may stand in each place of a line.
ghost use Rattle.std.specs.Prelude.{◌≡◌};
ghost use Rattle.csq_replay.specs.Pieces.{pieces, words_of};
ghost use Rattle.csq_diagnose.specs.Grammars.{call_places, first_word, places_of, second_word, step_places};

use crate::expected::Expected;
use crate::expected::Expected::{
    File, Irp, IrpInLife, Pass, Peek, Place, ScriptCall, Status, Step,
};
use csq_replay::split_piece;

/// What the lines of a text name. Own rule.
#[derive(Clone, Copy)]
pub enum Grammar {
    /// Steps: the text is a schedule.
    Schedule,
    /// Calls: the text is a script.
    Script,
}

/// What stands before the first byte of this value in a text.
pub(crate) fn first_piece(text: &[u8], byte: u8) -> &[u8]
    ensures { result.now ≡ first_word (pieces byte text.now) }
{
    split_piece(text, byte).0
}

/// What stands between the first and the second one, or nothing.
pub(crate) fn second_piece(text: &[u8], byte: u8) -> &[u8]
    ensures { result.now ≡ second_word (pieces byte text.now) }
{
    match split_piece(text, byte).1 {
        Some(rest) => first_piece(rest, byte),
        None => &[],
    }
}

/// What may stand in each place of a step with this second word.
fn step_places(verb: &[u8]) -> &'static [Expected]
    ensures { result.now ≡ step_places verb.now }
{
    match verb {
        b"end" => &[Pass, Step],
        _ => &[Pass, Step, IrpInLife],
    }
}

/// What may stand in each place of a call with this first word.
fn call_places(name: &[u8]) -> &'static [Expected]
    ensures { result.now ≡ call_places name.now }
{
    if name == b"insert".as_slice() {
        return &[ScriptCall, Irp, File, Place];
    }
    if name == b"next".as_slice() {
        return &[ScriptCall, Peek];
    }
    if name == b"complete".as_slice() {
        return &[ScriptCall, Irp, Status];
    }
    if name == b"put_back".as_slice() {
        return &[ScriptCall, Irp, Place];
    }
    if name == b"remove".as_slice() || name == b"mark".as_slice() || name == b"cancel".as_slice() {
        return &[ScriptCall, IrpInLife];
    }
    if name == b"close".as_slice() || name == b"cleanup".as_slice() {
        return &[ScriptCall, File];
    }
    &[ScriptCall, Irp]
}

impl Grammar {
    /// What may stand in each place of a line, by the word that says what its step or call does.
    pub(crate) fn places(self, line: &[u8]) -> &'static [Expected]
        ensures { result.now ≡ places_of self (words_of line.now) }
    {
        match self {
            Grammar::Schedule => step_places(second_piece(line, b' ')),
            Grammar::Script => call_places(first_piece(line, b' ')),
        }
    }
}
