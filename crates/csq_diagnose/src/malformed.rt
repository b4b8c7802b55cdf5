//! Lines that name no step, or no call.
ghost use Rattle.std.specs.Prelude.{IfOk, MatchOption};
ghost use Rattle.csq_replay.specs.Pieces.{words_of};
ghost use Rattle.csq_diagnose.specs.Grammars.{AreLineWords};
ghost use Rattle.csq_diagnose.specs.Malforms.{IsMalformed, IsNearTo};

use crate::expected::Expected;
use crate::found::Found;
use crate::grammar::Grammar;
use crate::misfit::Misfit;
use crate::nearest::Near;
use std::alloc::{AllocError, Allocator};

/// Why a line names no step, or no call.
#[derive(Clone, Copy)]
pub struct Malformed<'a> {
    /// The column, from 1 on: one more than how many bytes stand before what was found.
    pub column: usize,
    /// What stands there.
    pub found: Found<'a>,
    /// What may stand there.
    pub expected: Expected,
    /// The nearest word that may stand there, if these words can be listed and a word was found. Small
    /// and capital letters are one here.
    pub near: Option<Near>,
}

/// The nearest word to what was found, written in small letters.
fn nearest_to<A: Allocator + Copy>(
    alloc: A,
    found: Found<'_>,
    expected: Expected,
) -> Result<Option<Near>, AllocError>
    ensures { IfOk result (IsNearTo expected found.entry) }
{
    match found {
        Found::Word(word) => {
            let small = word.to_ascii_lowercase(alloc)?;
            Near::find(alloc, &small, expected.words())
        }
        _ => Ok(None),
    }
}

impl<'a> Malformed<'a> {
    /// Why a line names no step, or no call; none if it names one. Own rule.
    pub fn find<A: Allocator + Copy>(
        alloc: A,
        grammar: Grammar,
        line: &'a [u8],
    ) -> Result<Option<Malformed<'a>>, AllocError>
        ensures { IfOk result (λ fault. MatchOption fault
            (AreLineWords grammar (words_of line.now)) (IsMalformed grammar line.now)) }
    {
        let Some(misfit) = Misfit::find(grammar, line) else {
            return Ok(None);
        };
        let expected = misfit.expected;
        let (found, column) = misfit.found();
        let near = nearest_to(alloc, found, expected)?;
        Ok(Some(Malformed {
            column,
            found,
            expected,
            near,
        }))
    }
}
