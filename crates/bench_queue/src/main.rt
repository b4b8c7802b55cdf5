//! Inserts into a cancel-safe queue and completes what was inserted, turn after turn: what `bench/queue` and
//! `bench/figures` time. Or fills a pending list and empties it file by file: what `bench/lists` times.
#![tactic(auto)]

mod asked;
mod list;
mod queue;
mod shares;

use anyhow::{Context, Result, bail};
use asked::{Asked, USAGE, read};
use csq_list::{ChainList, VecList};
use list::{FILES, IRPS};
use shares::MOST_THREADS;
use std::env;
use std::rt::{Clock, Env};
use std::sync::Wait;
use std::thread::Threads;

/// What turns did: how many IRPs were completed, or removed from a list, how many weren't, and the time it took.
#[derive(Clone, Copy, Default)]
struct Totals {
    completed: u32,
    left: u32,
    nanoseconds: u64,
}

impl Totals {
    /// These and those of one more turn.
    fn plus(self, turn: Totals) -> Totals {
        Totals {
            completed: self.completed.saturating_add(turn.completed),
            left: self.left.saturating_add(turn.left),
            nanoseconds: self.nanoseconds.saturating_add(turn.nanoseconds),
        }
    }
}

/// One turn, unless there is no memory or no clock.
fn turn<R: Clock + Threads + Wait + AllocGlobal + Sync>(rt: &R, asked: &Asked) -> Option<Totals> {
    match asked {
        Asked::Vector(work) => {
            let list = VecList::new(rt.alloc(), work.irps(), MOST_THREADS, work.irps());
            queue::turn_over(rt, list.ok(), work)
        }
        Asked::Chains(work) => {
            let list = ChainList::new(rt.alloc(), work.irps(), MOST_THREADS, work.irps());
            queue::turn_over(rt, list.ok(), work)
        }
        Asked::ListVector => list::turn(rt, VecList::new(rt.alloc(), IRPS, FILES, IRPS).ok()),
        Asked::ListChains => list::turn(rt, ChainList::new(rt.alloc(), IRPS, FILES, IRPS).ok()),
    }
}

fn run<R>(rt: &R, asked: &Asked, turns: u32) -> Option<Totals>
where
    R: Clock + Threads + Wait + AllocGlobal + Sync,
{
    let mut totals = Totals::default();
    for _ in 0..turns {
        totals = totals.plus(turn(rt, asked)?);
    }
    Some(totals)
}

/// The words of the command line.
fn words_of(rt: &(impl Env + AllocGlobal)) -> Result<Vec<String>> {
    let mut words = Vec::new(rt.alloc());
    for word in env::args(rt)?.skip(1) {
        words.push(word)?;
    }
    Ok(words)
}

fn main(rt: HostRuntime) -> Result<()> {
    let words = words_of(&rt)?;
    let (asked, turns) = read(words.as_slice()).context(USAGE)?;
    let totals = run(&rt, &asked, turns).context("no memory, or no clock")?;
    println!(rt; "completed {}, left {}", totals.completed, totals.left)?;
    eprintln!(rt; "{} ns", totals.nanoseconds)?;
    if totals.left > 0 {
        bail!("not every insert was completed");
    }
    Ok(())
}
