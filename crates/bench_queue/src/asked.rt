//! What the command line asks for.
use crate::shares::{End, Work};

pub(crate) const USAGE: &str =
    "usage: bench_queue remove|cancel|remove-again|cancel-again|reuse vector|chains 1|2|4|8 LISTED shared|owned TURNS
or: bench_queue list vector|chains TURNS; at most 960 are LISTED";

/// What is done in each turn, over which kind of list.
#[derive(Drop)]
pub(crate) enum Asked {
    Vector(Work),
    Chains(Work),
    // The list alone.
    ListVector,
    ListChains,
}

/// How an inserted IRP ends, and whether it is used again, from a word.
fn read_end(word: &str) -> Option<(End, bool)> {
    match word {
        "remove" => Some((End::Next, false)),
        "cancel" => Some((End::Cancel, false)),
        "remove-again" => Some((End::Next, true)),
        "cancel-again" => Some((End::Cancel, true)),
        "reuse" => Some((End::One, true)),
        _ => None,
    }
}

/// The work, from its words but that for the kind of list.
fn read_work(end: &str, threads: &str, listed: &str, owned: &str) -> Option<Work> {
    let (end, again) = read_end(end)?;
    let work = Work {
        end,
        again,
        threads: threads.parse::<u32>().ok()?,
        listed: listed.parse::<u32>().ok()?,
        // Whether each thread has a file object of its own.
        owned: match owned {
            "shared" => false,
            "owned" => true,
            _ => return None,
        },
    };
    if work.is_possible() { Some(work) } else { None }
}

/// What all words ask for, and for how many turns.
pub(crate) fn read(words: &[String]) -> Option<(Asked, u32)> {
    let asked = match words {
        [_, kind, _] => match kind.as_str() {
            "vector" => Asked::ListVector,
            "chains" => Asked::ListChains,
            _ => return None,
        },
        [end, kind, threads, listed, owned, _] => {
            let work = read_work(
                end.as_str(),
                threads.as_str(),
                listed.as_str(),
                owned.as_str(),
            )?;
            match kind.as_str() {
                "vector" => Asked::Vector(work),
                "chains" => Asked::Chains(work),
                _ => return None,
            }
        }
        _ => return None,
    };
    let turns = words.last()?.as_str().parse::<u32>().ok()?;
    Some((asked, turns))
}
