//! An order that may break the protocol, followed step by step: what each finds by the two words of each IRP alone, and what
//! goes wrong.
ghost use Rattle.std.specs.Prelude.{◌≡◌, ◌<◌, ◌≤◌, ℕ, List, [], ◌∷◌, ◌++◌, length, slice_index_or, slice_set, IfOk, OnOk};
ghost use Rattle.irp_core.specs.Runs.{OfIrp};
ghost use Rattle.irp_core.specs.Steps.{number};
ghost use Rattle.csq_explain.specs.declared.line_steps.LineStep.{LineStep as LineStepOf};
ghost use Rattle.csq_explain.specs.Harms.{harms_of, harm_at, harm_list};
ghost use Rattle.csq_explain.specs.IrpRecords.{new_record, record_with};
ghost use Rattle.csq_explain.specs.LineSteps.{by_words, made_in};
ghost use Rattle.csq_explain.specs.Orders.{irps_in, OrderStands};
ghost use Rattle.csq_explain.specs.WordValues.{words_after, found_after};

use crate::harms::HarmAt;
use crate::irp_record::IrpRecord;
use crate::line_steps::LineStep;
use crate::word_values::WordValues;
use irp_core::{IrpId, Kind, Life, Made, PassId};
use std::alloc::{AllocError, Allocator};

/// What an order has done to each IRP, and what went wrong at its steps.
#[derive(Drop)]
pub struct Order<A: Allocator> {
    pub(crate) records: Vec<IrpRecord, A>,
    pub(crate) harms: Vec<HarmAt, A>,
}

impl<A: Allocator + Copy> Order<A> {
    /// An order without a step, of IRPs 0 to `irps` - 1. Refused if there is too little memory. Own rule.
    pub fn new(alloc: A, irps: u32) -> Result<Order<A>, AllocError>
        ensures { IfOk result (λ order. OrderStands order irps []) }
    {
        let mut records = Vec::new(alloc);
        for number in 0..irps {
            records.push(IrpRecord::new(IrpId(number), Life(0)))?;
        }
        Ok(Order {
            records,
            harms: Vec::new(alloc),
        })
    }

    /// The words of an IRP. Own rule.
    pub fn words(&self, irp: IrpId) -> WordValues
        requires { irp.0 < irps_in self.now }
        ensures { (irps : ℕ) (V : List LineStepOf) → OrderStands self.now irps V
            → result ≡ words_after (made_in V) irp }
    {
        self.records[irp.0 as usize].words
    }

    /// The value that a step of this kind finds: what the words of its IRP hold, whether the protocol allows the step or not.
    fn found(&self, kind: Kind) -> u64
        requires { OfIrp (λ i. number i < irps_in self.now) kind }
        ensures { (irps : ℕ) (V : List LineStepOf) → OrderStands self.now irps V
            → result ≡ found_after (made_in V) kind }
    {
        match kind.name() {
            Some(name) => self.words(name.irp).found(kind),
            None => 0,
        }
    }

    /// The next step, which this line names, with the value that it finds by the words alone. Own rule.
    pub fn by_words(&self, line: usize, pass: PassId, kind: Kind) -> LineStep
        requires { OfIrp (λ i. number i < irps_in self.now) kind }
        ensures kind { result.made.kind ≡ kind }
        ensures step { (irps : ℕ) (V : List LineStepOf) → OrderStands self.now irps V
            → result ≡ by_words V line pass kind }
    {
        let found = self.found(kind);
        LineStep {
            line,
            made: Made { pass, kind, found },
        }
    }

    /// Adds a step. Refused if there is too little memory. Own rule.
    pub fn add(&mut self, step: LineStep) -> Result<(), AllocError>
        requires { OfIrp (λ i. number i < irps_in self.old) step.made.kind }
        ensures { OnOk result ((irps : ℕ) (V : List LineStepOf) → OrderStands self.old irps V
            → OrderStands self.new irps (step ∷ V)) }
    {
        match step.made.kind.name() {
            Some(name) => {
                self.add_named(name.irp, step)?;
                Ok(())
            }
            None => Ok(()),
        }
    }

    /// Adds a step of this IRP.
    fn add_named(&mut self, irp: IrpId, step: LineStep) -> Result<(), AllocError>
        requires { irp.0 < irps_in self.old }
        ensures records { OnOk result (self.new.records.items
            ≡ slice_set self.old.records.items irp.0
            (record_with (slice_index_or self.old.records.items irp.0 (new_record irp 0)) step)) }
        ensures harms { OnOk result (self.new.harms.items ≡ self.old.harms.items
            ++ harm_list (harm_at (slice_index_or self.old.records.items irp.0 (new_record irp 0)) step)) }
    {
        let at = irp.0 as usize;
        let record = self.records[at];
        push_harm(record.harm_at(step), &mut self.harms)?;
        self.records[at] = record.after(step);
        Ok(())
    }

    /// What goes wrong, at the steps in their order and then in the end with each IRP. Refused if there is too little memory.
    /// Own rule.
    pub fn harms(&self, alloc: A) -> Result<Vec<HarmAt, A>, AllocError>
        ensures { IfOk result (λ harms. (irps : ℕ) (V : List LineStepOf) → OrderStands self.now irps V
            → harms.items ≡ harms_of irps V) }
    {
        let mut harms = Vec::from_slice(alloc, &self.harms)?;
        for record in &self.records {
            push_harm(record.end_harm(), &mut harms)?;
        }
        Ok(harms)
    }
}

/// Adds what goes wrong, if something does.
fn push_harm<A: Allocator>(
    harm: Option<HarmAt>,
    harms: &mut Vec<HarmAt, A>,
) -> Result<(), AllocError>
    ensures { OnOk result (harms.new.items ≡ harms.old.items ++ harm_list harm) }
{
    if let Some(harm) = harm {
        harms.push(harm)?;
    }
    Ok(())
}
