//! What stands where a line is no step, or no call.
ghost use Rattle.std.specs.Prelude.{◌≡◌, ◌+◌, ◌<◌, ◌≤◌, ◌^◌, length, position, IfSome};
ghost use Rattle.csq_diagnose.specs.Founds.{is_strange, IsSpace, IsFoundIn};

use crate::misfit::Misfit;
use std::str;

/// What stands where a line is no step, or no call. Own rule.
#[derive(Clone, Copy)]
pub enum Found<'a> {
    /// The line ends.
    End,
    /// A space that begins the line.
    FirstSpace,
    /// A second space between two words.
    TwoSpaces,
    /// A space that ends the line.
    LastSpace,
    /// A byte that no word has: a carriage return, a tab, one above 127 or another that isn't printed.
    Byte(u8),
    /// A word of bytes that are printed.
    Word(&'a str),
}

/// The place in a word of its first byte that no word has.
fn first_strange(word: &[u8]) -> Option<usize>
    ensures place { result ≡ position is_strange word.now }
    ensures bound { IfSome result (λ at. at < length word.now) }
{
    word.iter().position(|byte| !byte.is_ascii_graphic())
}

impl<'a> Misfit<'a> {
    /// What stands there, and its column.
    pub(crate) fn found(&self) -> (Found<'a>, usize)
        requires { IfSome self.now.word (λ word. self.now.column + length word.now ≤ 2 ^ 63) }
        ensures { IsFoundIn self.now result.0 result.1 }
    {
        let Some(word) = self.word else {
            return (Found::End, self.column);
        };
        if word.is_empty() {
            return self.space();
        }
        match first_strange(word) {
            Some(at) => (Found::Byte(word[at]), self.column + at),
            None => match str::from_utf8(word) {
                Ok(text) => (Found::Word(text), self.column),
                // A word without a strange byte is ASCII.
                Err(_) => unreachable!(),
            },
        }
    }

    /// Which space stands there, where the word is empty, and its column. One that ends the line has no word
    /// after it, and stands before the place of that.
    fn space(&self) -> (Found<'a>, usize)
        requires { IsSpace self.now }
        ensures { IsFoundIn self.now result.0 result.1 }
    {
        if self.before == 0 {
            (Found::FirstSpace, self.column)
        } else if self.is_last {
            (Found::LastSpace, self.column.saturating_sub(1))
        } else {
            (Found::TwoSpaces, self.column)
        }
    }
}
