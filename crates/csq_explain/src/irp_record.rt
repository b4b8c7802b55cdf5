//! What an order that may break the protocol has done to an IRP in its present life, and what goes wrong at its next step
//! or in the end.
ghost use Rattle.std.specs.Prelude.{◌≡◌};
ghost use Rattle.csq_explain.specs.Harms.{stray_harm, done_harm, out_harm, list_harm, reuse_harm, own_harm, other_harm, harm_at, lost_harm, open_harm, left_harm, end_harm};
ghost use Rattle.csq_explain.specs.IrpRecords.{new_record, renewed_record, first_done, moved, record_with};

use crate::harms::{Harm, HarmAt};
use crate::line_steps::LineStep;
use crate::word_values::WordValues;
use irp_core::{IrpId, IrpLife, Kind, Life};

/// What is known of an IRP in its present life. A step of another life changes nothing of it.
#[derive(Clone, Copy)]
pub(crate) struct IrpRecord {
    /// The IRP's two words, and the life.
    pub(crate) words: WordValues,
    /// The step that put it into the list, if it is there.
    pub(crate) listed: Option<LineStep>,
    /// The first step that completed it.
    pub(crate) done: Option<LineStep>,
    /// The last take that found its routine while its Cancel flag was clear, until the flag is set.
    pub(crate) stray: Option<LineStep>,
}

impl IrpRecord {
    /// Nothing was done to the IRP in this life.
    pub(crate) fn new(irp: IrpId, life: Life) -> IrpRecord
        ensures { result ≡ new_record irp life.0 }
    {
        IrpRecord {
            words: WordValues::clear(irp, life),
            listed: None,
            done: None,
            stray: None,
        }
    }

    /// After a renew, which begins the next life, if there is one.
    fn renewed(self) -> IrpRecord
        ensures { result ≡ renewed_record self }
    {
        let IrpLife { irp, life } = self.words.name;
        if life.0 < Life::LAST.0 {
            IrpRecord::new(irp, Life(life.0 + 1))
        } else {
            self
        }
    }

    /// After a step of its life. An arm or a rearm lists it, a disarm that finds the routine and an out take it out of the
    /// list, and a take that finds the routine is a stray one as long as the flag is clear.
    fn moved(self, step: LineStep) -> IrpRecord
        ensures { result ≡ moved self step step.made.kind }
    {
        let words = self.words.changed(step.made.kind);
        let found = step.made.found == 1;
        let IrpRecord {
            mut listed,
            mut done,
            mut stray,
            ..
        } = self;
        match step.made.kind {
            Kind::Arm(_) | Kind::Rearm(_) => listed = Some(step),
            Kind::Disarm(_) if found => listed = None,
            Kind::Out(_) => listed = None,
            Kind::Take(_) if !self.words.flag && found => stray = Some(step),
            Kind::Flag(_) => stray = None,
            Kind::Done(_) => done = Some(first_done(done, step)),
            Kind::Renew(_) => return self.renewed(),
            Kind::Test(_) | Kind::Disarm(_) | Kind::End | Kind::Take(_) => {}
        }
        IrpRecord {
            words,
            listed,
            done,
            stray,
        }
    }

    /// After a step.
    pub(crate) fn after(self, step: LineStep) -> IrpRecord
        ensures { result ≡ record_with self step }
    {
        if self.words.are_of(step.made.kind) {
            self.moved(step)
        } else {
            self
        }
    }

    /// What goes wrong at a completion.
    fn done_harm(self, step: LineStep) -> Option<HarmAt>
        ensures { result ≡ done_harm self step self.done }
    {
        match self.done {
            Some(first) => Some(step.with_harm(Harm::Twice(first))),
            None if self.words.routine => Some(step.with_harm(Harm::RoutineSet)),
            None => stray_harm(self.stray),
        }
    }

    /// What goes wrong at a renew.
    fn reuse_harm(self, step: LineStep) -> Option<HarmAt>
        ensures { result ≡ reuse_harm step self.listed }
    {
        match self.listed {
            Some(listed) => Some(step.with_harm(Harm::Reused(listed))),
            None => None,
        }
    }

    /// What goes wrong at a step of its life.
    fn own_harm(self, step: LineStep) -> Option<HarmAt>
        ensures { result ≡ own_harm self step step.made.kind }
    {
        match step.made.kind {
            Kind::Arm(_) | Kind::Rearm(_) => list_harm(step, self.done, self.listed),
            Kind::Out(_) => out_harm(step, self.done, self.listed),
            Kind::Done(_) => self.done_harm(step),
            Kind::Renew(_) => self.reuse_harm(step),
            Kind::Test(_) | Kind::Disarm(_) | Kind::End | Kind::Flag(_) | Kind::Take(_) => None,
        }
    }

    /// What goes wrong at a step of another life: nothing compares the life of what is taken out or completed.
    fn other_harm(self, step: LineStep) -> Option<HarmAt>
        ensures { result ≡ other_harm self step step.made.kind }
    {
        match step.made.kind {
            Kind::Out(_) | Kind::Done(_) => Some(step.with_harm(Harm::OtherLife(self.words.name))),
            _ => None,
        }
    }

    /// What goes wrong at a step that names the IRP.
    pub(crate) fn harm_at(self, step: LineStep) -> Option<HarmAt>
        ensures { result ≡ harm_at self step }
    {
        if self.words.are_of(step.made.kind) {
            self.own_harm(step)
        } else {
            self.other_harm(step)
        }
    }

    /// What goes wrong if it is never completed: a stray take claimed it, or it is in the list with both words set, and no
    /// step after the one that listed it takes its routine.
    fn open_harm(self) -> Option<HarmAt>
        ensures { result ≡ open_harm self self.stray }
    {
        match (self.stray, self.listed) {
            (Some(take), _) => Some(take.with_harm(Harm::Stray)),
            (None, Some(listed)) if self.words.flag && self.words.routine => {
                Some(listed.with_harm(Harm::Lost(self.words.name)))
            }
            _ => None,
        }
    }

    /// What goes wrong if it was completed, first by this step: it is in the list. (If its routine is set too, that is told at
    /// the step that completed it, or that set it.)
    fn left_harm(self, first: LineStep) -> Option<HarmAt>
        ensures { result ≡ left_harm self first self.listed }
    {
        match self.listed {
            Some(_) if !self.words.routine => {
                Some(first.with_harm(Harm::StillListed(self.words.name)))
            }
            _ => None,
        }
    }

    /// What goes wrong with it in the end.
    pub(crate) fn end_harm(self) -> Option<HarmAt>
        ensures { result ≡ end_harm self }
    {
        match self.done {
            Some(first) => self.left_harm(first),
            None => self.open_harm(),
        }
    }
}

/// The first of two completions.
fn first_done(before: Option<LineStep>, step: LineStep) -> LineStep
    ensures { result ≡ first_done before step }
{
    match before {
        Some(first) => first,
        None => step,
    }
}

/// An IRP that isn't cancelled was claimed by this take, if there is one.
fn stray_harm(stray: Option<LineStep>) -> Option<HarmAt>
    ensures { result ≡ stray_harm stray }
{
    match stray {
        Some(take) => Some(take.with_harm(Harm::Stray)),
        None => None,
    }
}

/// What goes wrong at a step that takes an IRP out of the list: it was completed before, or isn't there.
fn out_harm(step: LineStep, done: Option<LineStep>, listed: Option<LineStep>) -> Option<HarmAt>
    ensures { result ≡ out_harm step done listed }
{
    match (done, listed) {
        (Some(first), _) => Some(step.with_harm(Harm::TakenOut(first))),
        (None, Some(_)) => None,
        (None, None) => Some(step.with_harm(Harm::NotListed)),
    }
}

/// What goes wrong at a step that lists an IRP: it was completed before, or is there already.
fn list_harm(step: LineStep, done: Option<LineStep>, listed: Option<LineStep>) -> Option<HarmAt>
    ensures { result ≡ list_harm step done listed }
{
    match (done, listed) {
        (Some(first), _) => Some(step.with_harm(Harm::Relisted(first))),
        (None, Some(listed)) => Some(step.with_harm(Harm::ListedTwice(listed))),
        (None, None) => None,
    }
}
