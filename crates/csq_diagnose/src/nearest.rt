//! The word that somebody may have meant.
ghost use Rattle.std.specs.Prelude.{◌≡◌, [], map, IfOk, MatchOption};
ghost use Rattle.csq_diagnose.specs.Nearness.{IsNearest, nearer};

use std::alloc::{AllocError, Allocator};
use strsim::osa_distance;

/// A word, and how many edits lead to it: a letter is added, taken out or replaced, or two neighbours are swapped.
#[derive(Clone, Copy)]
pub struct Near {
    pub word: &'static str,
    pub edits: usize,
}

/// The nearer of two, the first one if both are as near.
fn nearer(best: Option<Near>, other: Near) -> Near
    ensures { result ≡ nearer best other }
{
    match best {
        Some(best) if best.edits <= other.edits => best,
        _ => other,
    }
}

impl Near {
    /// The first of these words to which the fewest edits lead; none if there are no words. Own rule.
    pub fn find<A: Allocator + Copy>(
        alloc: A,
        word: &str,
        words: &[&'static str],
    ) -> Result<Option<Near>, AllocError>
        ensures { IfOk result (λ near. MatchOption near (words.now ≡ [])
            (IsNearest (map (λ one. one.now) words.now) word.now)) }
    {
        let mut best = None;
        for one in words {
            let edits = osa_distance(alloc, word, one)?;
            best = Some(nearer(best, Near { word: one, edits }));
        }
        Ok(best)
    }
}
