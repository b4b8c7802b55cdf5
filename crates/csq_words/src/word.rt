//! The layout of the words: which word, which bits and which life. No other code knows it.
//!
//! An IRP has three words, which lie side by side. Each says for which life of the IRP it stands,
//! and its value in that life:
//!
//! | word      | lies at       | life          | value                               |
//! |-----------|---------------|---------------|-------------------------------------|
//! | `Cancel`  | `3 * irp`     | bits 1 to 63  | bit 0: the Cancel flag is set       |
//! | `Routine` | `3 * irp + 1` | bits 1 to 63  | bit 0: the cancel routine is set    |
//! | `Status`  | `3 * irp + 2` | bits 33 to 63 | bit 32: it is set; bits 0 to 31: it |
//!
//! A life is below 2^30, so that each word has room for every life. If a status isn't set, bits
//! 0 to 31 are 0. Flag and status stand for one life, but while a reuse renews them. The routine's
//! word stands for the last life in which it was set.
ghost use Rattle.std.specs.Prelude.{◌≡◌, ◌+◌, ◌≤◌, ◌<◌, true, false, IfOk};
ghost use Rattle.irp_core.specs.Lives.{last_life};
ghost use Rattle.irp_core.specs.Words.{bit};
ghost use Rattle.csq_words.specs.Words.{word_at, bit_word, life_in, bit_in, unset_word, status_word, status_in, new_words};
ghost use Rattle.csq_words.specs.Plays.{flag_read, status_read};

use irp_core::{IrpId, LARGE_MAX_IRPS, Life, NtStatus};
use std::alloc::{AllocError, Allocator};

/// How many words an IRP has.
const IRP_WORDS: usize = 3;

/// The bit of a status word that is set where the IRP is completed.
const COMPLETED: u64 = 1 << 32;

/// The least bit of a status word's life.
const LIFE_SHIFT: u32 = 33;

/// A word of an IRP.
#[derive(Clone, Copy)]
pub(crate) enum Word {
    /// The Cancel flag.
    Cancel,
    /// The cancel routine.
    Routine,
    /// The status.
    Status,
}

impl Word {
    /// Where the word lies in the table.
    pub(crate) fn place(self, irp: IrpId) -> usize
        ensures { result ≡ word_at self irp }
    {
        let first = IRP_WORDS * irp.0 as usize;
        match self {
            Word::Cancel => first,
            Word::Routine => first + 1,
            Word::Status => first + 2,
        }
    }
}

/// The word of a Cancel flag or of a routine in this life, set or not.
pub fn bit_word(life: Life, set: bool) -> u64
    ensures { result ≡ bit_word life.0 (bit set) }
{
    2 * u64::from(life.0) + u64::from(set)
}

/// The word of a Cancel flag that isn't set in the life after this one.
pub(crate) fn next_clear(life: Life) -> u64
    ensures { result ≡ bit_word (life.0 + 1) 0 }
{
    2 * (u64::from(life.0) + 1)
}

/// Whether a Cancel flag or a routine is set, in whatever life its word stands for.
pub fn is_set(word: u64) -> bool
    ensures set { result ≡ true → bit_in word ≡ 1 }
    ensures clear { result ≡ false → bit_in word ≡ 0 }
{
    word % 2 == 1
}

/// The life that a Cancel flag's word stands for, and whether the flag is set there.
pub fn flag_read(word: u64) -> (Life, bool)
    requires { life_in word ≤ last_life }
    ensures { result ≡ flag_read word }
{
    (Life((word / 2) as u32), is_set(word))
}

/// The word of a status that isn't set in this life.
pub(crate) fn unset_word(life: Life) -> u64
    ensures { life.0 ≤ last_life → result ≡ unset_word life.0 }
{
    u64::from(life.0) << LIFE_SHIFT
}

/// The word of a status that isn't set in the life after this one.
pub(crate) fn next_unset(life: Life) -> u64
    ensures { life.0 < last_life → result ≡ unset_word (life.0 + 1) }
{
    (u64::from(life.0) + 1) << LIFE_SHIFT
}

/// The word of this status in this life.
pub(crate) fn status_word(life: Life, status: NtStatus) -> u64
    ensures { life.0 ≤ last_life → result ≡ status_word life.0 status }
{
    (u64::from(life.0) << LIFE_SHIFT) + (COMPLETED + u64::from(status.0))
}

/// The status that a status word says.
pub(crate) fn status_in(word: u64) -> Option<NtStatus>
    ensures { result ≡ status_in word }
{
    let value = word % (1 << LIFE_SHIFT);
    if value < COMPLETED {
        return None;
    }
    Some(NtStatus((value - COMPLETED) as u32))
}

/// The life that a status word stands for, and the status there, where it is set.
pub fn status_read(word: u64) -> (Life, Option<NtStatus>)
    ensures { result ≡ status_read word }
{
    (Life((word >> LIFE_SHIFT) as u32), status_in(word))
}

/// The words of so many IRPs, all in this life.
pub(crate) fn first_words<A: Allocator>(
    alloc: A,
    irps: u32,
    first: Life,
) -> Result<Vec<u64, A>, AllocError>
    requires irps { irps ≤ LARGE_MAX_IRPS }
    requires first { first.0 ≤ last_life }
    ensures { IfOk result (λ v. v.items ≡ new_words first.0 irps) }
{
    let clear = bit_word(first, false);
    let unset = unset_word(first);
    let mut words = Vec::new(alloc);
    for _ in 0..irps {
        words.push(clear)?;
        words.push(clear)?;
        words.push(unset)?;
    }
    Ok(words)
}
