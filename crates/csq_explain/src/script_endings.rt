//! What is left in the end of a script, in sentences.
ghost use Rattle.std.specs.Prelude.{◌≡◌, ◌++◌, string_bytes, IfOk, OnOk};
ghost use Rattle.csq_explain.specs.ScriptEndings.{after_commas, joined_numbers, explained_left, explained_kept, explained_remains};

use csq_replay::{Kept, Remains, write_kept, write_left};
use irp_core::IrpId;
use std::alloc::{AllocError, Allocator};
use std::fmt;

/// How many IRPs are listed, and their numbers.
#[derive(Clone, Copy)]
struct LeftSentence<'a> {
    count: usize,
    numbers: &'a str,
}

/// As `2 IRPs are listed, in this order: 2, 0`.
impl fmt::Display for LeftSentence<'_> {
    ghost use Rattle.std.specs.Prelude.{Some};
    ghost use Rattle.csq_explain.specs.ScriptEndings.{left_words};

    ghost output = { λ reported. Some (left_words reported.count reported.numbers.now) };

    fn fmt<W: fmt::Write>(&self, f: &mut fmt::Formatter<W>) -> fmt::Result {
        let LeftSentence { count, numbers } = *self;
        match count {
            0 => write!(f, "no IRP is listed"),
            1 => write!(f, "IRP {numbers} is listed"),
            _ => write!(f, "{count} IRPs are listed, in this order: {numbers}"),
        }
    }
}

/// How many IRPs the pass keeps so, and their numbers.
#[derive(Clone, Copy)]
struct KeptSentence<'a> {
    kept: Kept,
    count: usize,
    numbers: &'a str,
}

/// As `the pass holds IRP 1, and must complete it`.
impl fmt::Display for KeptSentence<'_> {
    ghost use Rattle.std.specs.Prelude.{Some};
    ghost use Rattle.csq_explain.specs.ScriptEndings.{kept_words};

    ghost output = { λ reported. Some (kept_words reported.kept reported.count reported.numbers.now) };

    fn fmt<W: fmt::Write>(&self, f: &mut fmt::Formatter<W>) -> fmt::Result {
        let (numbers, is_one) = (self.numbers, self.count == 1);
        match self.kept {
            Kept::Held if is_one => write!(f, "the pass holds IRP {numbers}, and must complete it"),
            Kept::Held => write!(f, "the pass holds IRPs {numbers}, and must complete them"),
            Kept::Owed if is_one => write!(
                f,
                "the pass owes IRP {numbers}: its cancel routine must run"
            ),
            Kept::Owed => write!(
                f,
                "the pass owes IRPs {numbers}: their cancel routines must run"
            ),
        }
    }
}

/// Adds the numbers of these IRPs, each after a comma.
fn push_after_commas<A: Allocator>(irps: &[IrpId], text: &mut String<A>) -> Result<(), AllocError>
    ensures { OnOk result
        (string_bytes text.new ≡ string_bytes text.old ++ after_commas irps.now) }
{
    for irp in irps {
        write!(text, ", {irp}")?;
    }
    Ok(())
}

/// Adds the numbers of these IRPs, with a comma between two.
fn push_joined<A: Allocator>(irps: &[IrpId], text: &mut String<A>) -> Result<(), AllocError>
    ensures { OnOk result
        (string_bytes text.new ≡ string_bytes text.old ++ joined_numbers irps.now) }
{
    match irps {
        [] => Ok(()),
        [first, rest @ ..] => {
            write!(text, "{first}")?;
            push_after_commas(rest, text)
        }
    }
}

/// The numbers of these IRPs, with a comma between two.
fn joined_numbers<A: Allocator>(alloc: A, irps: &[IrpId]) -> Result<String<A>, AllocError>
    ensures { IfOk result (λ numbers. string_bytes numbers ≡ joined_numbers irps.now) }
{
    let mut numbers = String::new(alloc);
    push_joined(irps, &mut numbers)?;
    Ok(numbers)
}

/// The closing line of what is listed, and a sentence.
fn explain_left<A: Allocator>(
    alloc: A,
    irps: &[IrpId],
    text: &mut String<A>,
) -> Result<(), AllocError>
    ensures { OnOk result
        (string_bytes text.new ≡ string_bytes text.old ++ explained_left irps.now) }
{
    let numbers = joined_numbers(alloc, irps)?;
    let sentence = LeftSentence {
        count: irps.len(),
        numbers: numbers.as_str(),
    };
    write_left(irps, text)?;
    writeln!(text, "  {sentence}")
}

/// The closing line of what the pass keeps so, and a sentence, if there is any.
fn explain_kept<A: Allocator>(
    alloc: A,
    kept: Kept,
    irps: &[IrpId],
    text: &mut String<A>,
) -> Result<(), AllocError>
    ensures { OnOk result
        (string_bytes text.new ≡ string_bytes text.old ++ explained_kept kept irps.now) }
{
    if irps.is_empty() {
        return Ok(());
    }
    let numbers = joined_numbers(alloc, irps)?;
    let sentence = KeptSentence {
        kept,
        count: irps.len(),
        numbers: numbers.as_str(),
    };
    write_kept(kept, irps, text)?;
    writeln!(text, "  {sentence}")
}

/// The closing lines of a script, each with a sentence.
pub(crate) fn explain_remains<A: Allocator + Copy>(
    alloc: A,
    remains: &Remains<A>,
    text: &mut String<A>,
) -> Result<(), AllocError>
    ensures { OnOk result (string_bytes text.new ≡ string_bytes text.old
        ++ explained_remains remains.now.listed.items remains.now.held.items remains.now.owed.items) }
{
    explain_left(alloc, &remains.listed, text)?;
    explain_kept(alloc, Kept::Held, &remains.held, text)?;
    explain_kept(alloc, Kept::Owed, &remains.owed, text)?;
    Ok(())
}
