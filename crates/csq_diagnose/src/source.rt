//! The line that ends a schedule or a script, with a mark below what is wrong.
ghost use Rattle.std.specs.Prelude.{◌≡◌, ◌≤◌, drop, length};
ghost use Rattle.std.specs.Option.{ForSome};
ghost use Rattle.csq_replay.specs.Pieces.{words_of};
ghost use Rattle.csq_diagnose.specs.Columns.{column_after};
ghost use Rattle.csq_diagnose.specs.Misfits.{words_left};

use crate::found::Found;
use crate::malformed::Malformed;
use csq_replay::split_piece;
use std::alloc::{AllocError, Allocator};

/// A byte of the line as it is shown: a question mark if it isn't printable ASCII.
fn shown(byte: u8) -> char {
    if byte.is_ascii_graphic() || byte == b' ' {
        char::from(byte)
    } else {
        '?'
    }
}

/// Adds the bytes of the line as they are shown.
fn push_shown<A: Allocator>(line: &[u8], text: &mut String<A>) -> Result<(), AllocError> {
    for byte in line {
        text.push(shown(*byte))?;
    }
    Ok(())
}

/// Adds a sign, `count` times.
fn push_repeated<A: Allocator>(
    count: usize,
    sign: char,
    text: &mut String<A>,
) -> Result<(), AllocError> {
    for _ in 0..count {
        text.push(sign)?;
    }
    Ok(())
}

/// Bytes of a line that are marked.
#[derive(Clone, Copy)]
pub(crate) struct Mark {
    /// The column of the first, from 1 on.
    pub(crate) column: usize,
    /// How many they are.
    pub(crate) width: usize,
}

/// How many bytes are marked of what is wrong: those of a word, and otherwise one.
fn marked(found: Found<'_>) -> usize {
    match found {
        Found::Word(word) => word.len(),
        _ => 1,
    }
}

impl Mark {
    /// The bytes that are wrong in a line that names no step, or no call.
    pub(crate) fn of_fault(fault: Malformed<'_>) -> Mark {
        Mark {
            column: fault.column,
            width: marked(fault.found),
        }
    }

    /// The word of a line that stands after the given number of words, if there is one.
    pub(crate) fn of_word(line: &[u8], before: usize) -> Mark
        ensures { result.column ≡ column_after line.now before }
    {
        match text_after(line, before) {
            Some(text) => Mark {
                column: line.len() - text.len() + 1,
                width: split_piece(text, b' ').0.len(),
            },
            None => Mark {
                column: line.len() + 1,
                width: 0,
            },
        }
    }
}

/// What stands after the first `count` words of a line, if it has more.
fn text_after(line: &[u8], count: usize) -> Option<&[u8]>
    ensures words { words_left result ≡ drop count (words_of line.now) }
    ensures short { ForSome result (λ text. length text.now ≤ length line.now) }
{
    let mut text = Some(line);
    for _ in 0..count {
        text = match text {
            Some(left) => split_piece(left, b' ').1,
            None => None,
        };
    }
    text
}

/// Adds the line, and a mark below what is wrong.
pub(crate) fn push_marked<A: Allocator>(
    line: &[u8],
    mark: Mark,
    text: &mut String<A>,
) -> Result<(), AllocError> {
    text.push_str("    ")?;
    push_shown(line, text)?;
    text.push_str("\n    ")?;
    push_repeated(mark.column.saturating_sub(1), ' ', text)?;
    push_repeated(mark.width, '^', text)?;
    text.push_str("\n")?;
    Ok(())
}
