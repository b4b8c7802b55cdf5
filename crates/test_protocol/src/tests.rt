//! The machine: `definitions`, `every_sequence` and `excluded`, which is of histories too. The lists: `lists`, with
//! `list_calls` and `pairs`, and `list_memory`. The words: `orders` and `lives` are lists of actions of three passes, which one interpreter,
//! `actions`, carries out on the words and on the machine. `sizes` and `numbers` are of all three. A function
//! that owns only passes on what it owns.
use csq_list::Place;
use csq_words::Call;
use irp_core::{FileId, IrpId, Life};

mod actions;
mod cancels;
mod definitions;
mod every_sequence;
mod excluded;
mod fixture;
mod inserts;
mod list_calls;
mod list_memory;
mod lists;
mod lives;
mod numbers;
mod orders;
mod pairs;
mod put_backs;
mod removals;
mod reuses;
mod sizes;

const ZERO: IrpId = IrpId(0);

const FIRST: Life = Life(0);

const INSERT: Call = Call::Insert(ZERO, FileId(0), Place::Back);
