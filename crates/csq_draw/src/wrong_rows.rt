//! The rows of a refused step, and of what comes after it by the two words of each IRP alone.
ghost use Rattle.std.specs.Prelude.{◌≡◌, ◌<◌, ℕ, List, IfOk};
ghost use Rattle.irp_core.specs.Runs.{OfIrp};
ghost use Rattle.irp_core.specs.Steps.{number};
ghost use Rattle.csq_explain.specs.declared.line_steps.LineStep.{LineStep as LineStepOf};
ghost use Rattle.csq_explain.specs.Orders.{irps_in, OrderStands};
ghost use Rattle.csq_draw.specs.WrongRows.{words_in, words_by, wrong_row, with_maker, makers, shown_makers};

use crate::marks::Legality;
use crate::refusals::FirstRefusal;
use crate::rows::Row;
use csq_explain::{LineStep, Order, PassNow, StepInCall, WordValues};
use irp_core::{Inside, IrpLife, Kind, PassId};
use std::alloc::{AllocError, Allocator};

/// These words after a step of this kind, which names an IRP so: none if they are of another life, which the step doesn't
/// change.
#[tactic(auto, unfolding(irp_core::specs::Steps::same_irp))]
fn words_in(words: WordValues, name: IrpLife, kind: Kind) -> Option<WordValues>
    ensures { result ≡ words_in words name kind }
{
    if name == words.name {
        Some(words.after(kind))
    } else {
        None
    }
}

/// The words of the IRP that a step of this kind names, after this order and that step.
fn words_by<A: Allocator + Copy>(order: &Order<A>, kind: Kind) -> Option<WordValues>
    requires { OfIrp (λ i. number i < irps_in order.now) kind }
    ensures { (irps : ℕ) (V : List LineStepOf) → OrderStands order.now irps V → result ≡ words_by V kind }
{
    match kind.name() {
        Some(name) => words_in(order.words(name.irp), name, kind),
        None => None,
    }
}

/// The row of this number, of a step after this order. After a refused step nothing is known of calls, of the lock and of
/// owners.
pub(crate) fn wrong_row<A: Allocator + Copy>(
    order: &Order<A>,
    row: u32,
    step: LineStep,
    legality: Legality,
) -> Row
    requires { OfIrp (λ i. number i < irps_in order.now) step.made.kind }
    ensures { (irps : ℕ) (V : List LineStepOf) → OrderStands order.now irps V
        → result ≡ wrong_row V row step legality }
{
    let LineStep { line, made } = step;
    Row {
        row,
        line,
        step: StepInCall {
            made,
            inside: Inside::Nothing,
            status: None,
        },
        legality,
        lock: None,
        ended: None,
        words: words_by(order, made.kind),
    }
}

/// Notes that a pass makes a step.
fn note_maker(passes: &mut [PassNow], pass: PassId)
    ensures { passes.new ≡ with_maker passes.old pass }
{
    let number = pass.0 as usize;
    if number < passes.len() {
        passes[number].makes = true;
    }
}

/// Notes the passes that make the steps of these rows.
fn note_makers(passes: &mut [PassNow], rows: &[Row])
    ensures { passes.new ≡ makers passes.old rows.now }
{
    for row in rows {
        note_maker(passes, row.step.made.pass);
    }
}

/// The passes of a picture, and which of them make steps: of an order that broke the protocol so, those of its rows too.
pub(crate) fn shown_makers<A: Allocator>(
    alloc: A,
    refusal: Option<FirstRefusal>,
    passes: &[PassNow],
    rows: &[Row],
) -> Result<Vec<PassNow, A>, AllocError>
    ensures { IfOk result (λ found. found.items ≡ shown_makers refusal passes.now rows.now) }
{
    let mut found = Vec::from_slice(alloc, passes)?;
    match refusal {
        Some(_) => {
            note_makers(&mut found, rows);
            Ok(found)
        }
        None => Ok(found),
    }
}
