//! The first word of a line that may not stand in its place.
ghost use Rattle.std.specs.Prelude.{◌≡◌, ◌<◌, ◌≤◌, length, IfNone, IfSome, MatchOption};
ghost use Rattle.csq_replay.specs.Pieces.{words_of};
ghost use Rattle.csq_diagnose.specs.Grammars.{AreLineWords, Fit};
ghost use Rattle.csq_diagnose.specs.Misfits.{IsEnd, IsFirstMisfit, IsMisfit};

use crate::expected::Expected;
use crate::grammar::Grammar;
use csq_replay::split_piece;

/// Where a line is no step, or no call: its first word that may not stand in its place, or its end, where a
/// word is missing.
#[derive(Clone, Copy)]
pub struct Misfit<'a> {
    /// How many words stand before it, each in its place.
    pub before: usize,
    /// Its column, from 1 on: one more than how many bytes stand before it.
    pub column: usize,
    /// The word that stands there, if the line doesn't end.
    pub word: Option<&'a [u8]>,
    /// Whether no word follows.
    pub is_last: bool,
    /// What may stand there.
    pub expected: Expected,
}

/// The first misfit of a line, if it has one, by what may stand in each of its places.
fn first_misfit<'a>(places: &[Expected], line: &'a [u8]) -> Option<Misfit<'a>>
    requires { 0 < length places.now }
    ensures { MatchOption result (Fit places.now (words_of line.now))
        (IsFirstMisfit places.now line.now) }
{
    let mut text = line;
    let mut before = 0;
    for expected in places {
        let column = line.len() - text.len() + 1;
        let (word, after) = split_piece(text, b' ');
        if !expected.admits(word) {
            return Some(Misfit {
                before,
                column,
                word: Some(word),
                is_last: after.is_none(),
                expected: *expected,
            });
        }
        before += 1;
        let Some(rest) = after else {
            return missing(places, line, before);
        };
        text = rest;
    }
    let (word, after) = split_piece(text, b' ');
    Some(Misfit {
        before,
        column: line.len() - text.len() + 1,
        word: Some(word),
        is_last: after.is_none(),
        expected: Expected::Nothing,
    })
}

/// The misfit of a line that ends after `before` words, if more are expected.
fn missing<'a>(places: &[Expected], line: &'a [u8], before: usize) -> Option<Misfit<'a>>
    ensures none { IfNone result (length places.now ≤ before) }
    ensures some { IfSome result (λ m. IsEnd places.now line.now before m) }
{
    let expected = places.get(before)?;
    Some(Misfit {
        before,
        column: line.len() + 1,
        word: None,
        is_last: true,
        expected: *expected,
    })
}

impl<'a> Misfit<'a> {
    /// The first misfit of a line that names no step, or no call; none if it names one. Own rule.
    pub fn find(grammar: Grammar, line: &'a [u8]) -> Option<Misfit<'a>>
        ensures { MatchOption result (AreLineWords grammar (words_of line.now))
            (IsMisfit grammar line.now) }
    {
        first_misfit(grammar.places(line), line)
    }
}
