//! Passes that came back, until they are handed out again.
ghost use Rattle.std.specs.Prelude.{◌≡◌, ◌≤◌, ◌<◌, length, replicate, None, Some, IfOk, IfErr, IfSome, IfNone, slice_set};
ghost use Rattle.std.specs.Arc.{arc_value};
ghost use Rattle.csq_queue.specs.Opens.{OpenPassState, IsPassOn, IsQueueOn};
ghost use Rattle.csq_queue.specs.Rests.{FirstAreBack, HoldsNothing};
ghost use Rattle.csq_checked.specs.Idle.{AreIdle, IsFirstIdle, NoneIsIdle, count_out, with_one_back, with_idle_back};
ghost use Rattle.csq_checked.specs.Passes.{open_state};
ghost use Rattle.csq_checked.specs.Slots.{slot_at};

use crate::pass::CheckedPass;
use crate::slots::{Held, Slots};
use csq_list::AnyList;
use csq_queue::{OpenPass, OpenQueue};
use csq_words::Words;
use irp_core::Life;
use std::alloc::{AllocError, Global};
use std::marker::Model;
use std::sync::Arc;

/// A pass without its share of the queue's words. A contract sees the pass.
#[derive(Drop)]
pub(crate) struct BarePass {
    pass: OpenPass,
    held: Slots<Held>,
    owed: Slots<Life>,
}

impl Model for BarePass {
    ghost use Rattle.csq_queue.specs.Opens.{OpenPassState};
    ghost use Rattle.csq_checked.specs.Slots.{KnowsItsOwn};

    ghost Value = { OpenPassState };

    ghost view = { λ p. p.pass };

    ghost invariant = { λ p. KnowsItsOwn p.pass.irps p.pass.pass.steps p.held p.owed };
}

impl BarePass {
    /// The pass, without its share of the words.
    fn of(pass: CheckedPass) -> BarePass
        ensures { result ≡ open_state pass }
    {
        let CheckedPass {
            pass,
            held,
            owed,
            ..
        } = pass;
        BarePass { pass, held, owed }
    }

    /// The pass, with a share of its words.
    fn with_words(self, words: Arc<Words>) -> CheckedPass
        requires { IsPassOn (arc_value words) self }
        ensures { result ≡ record { words = arc_value words; pass = self.pass } }
    {
        let BarePass { pass, held, owed } = self;
        CheckedPass {
            words,
            pass,
            held,
            owed,
        }
    }
}

/// How an idle pass is kept.
#[derive(Drop)]
pub(crate) enum IdleForm {
    /// In the box in which it came back, with its share of the words: so it is handed out again
    /// without memory (tested, in C).
    Boxed(Box<CheckedPass>),
    /// Without a share, since a close takes the words whole.
    Bare(BarePass),
}

/// A pass that came back. A contract sees the pass.
#[derive(Drop)]
pub(crate) struct IdlePass {
    form: IdleForm,
}

impl Model for IdlePass {
    ghost use Rattle.csq_queue.specs.Opens.{OpenPassState};
    ghost use Rattle.csq_checked.specs.Forms.{idle_state};

    ghost Value = { OpenPassState };

    ghost view = { λ p. idle_state p.form };
}

impl IdlePass {
    /// The pass in this box.
    pub(crate) fn of(pass: Box<CheckedPass>) -> IdlePass
        ensures { result ≡ open_state pass.value }
    {
        IdlePass {
            form: IdleForm::Boxed(pass),
        }
    }

    /// The pass in a box, with this share of its words. No memory is taken where it is in one. Where
    /// memory is refused, the pass comes back.
    pub(crate) fn into_box(
        self,
        alloc: Global,
        words: Arc<Words>,
    ) -> Result<Box<CheckedPass>, IdlePass>
        requires { IsPassOn (arc_value words) self }
        ensures boxed { IfOk result
            (λ pass. pass.value ≡ record { words = arc_value words; pass = self.pass }) }
        ensures kept { IfErr result (λ same. same ≡ self) }
    {
        match self.form {
            IdleForm::Boxed(mut pass) => {
                pass.words = words;
                Ok(pass)
            }
            IdleForm::Bare(pass) => boxed(alloc, pass, words),
        }
    }

    /// The pass, without its share of the words.
    fn without_words(self) -> IdlePass
        ensures { result ≡ self }
    {
        match self.form {
            IdleForm::Boxed(pass) => IdlePass {
                form: IdleForm::Bare(BarePass::of(Box::into_inner(pass))),
            },
            form => IdlePass { form },
        }
    }

    /// The pass as its queue takes it back.
    fn into_open(self) -> OpenPass
        ensures { result ≡ self }
    {
        let bare = match self.form {
            IdleForm::Boxed(pass) => BarePass::of(Box::into_inner(pass)),
            IdleForm::Bare(pass) => pass,
        };
        bare.pass
    }
}

/// A bare pass in a new box, with this share of its words.
fn boxed(alloc: Global, pass: BarePass, words: Arc<Words>) -> Result<Box<CheckedPass>, IdlePass>
    requires { IsPassOn (arc_value words) pass }
    ensures boxed { IfOk result
        (λ boxed. boxed.value ≡ record { words = arc_value words; pass = pass.pass }) }
    ensures kept { IfErr result (λ same. same ≡ pass) }
{
    match Box::new(alloc, pass.with_words(words)) {
        Ok(pass) => Ok(pass),
        Err(refused) => Err(IdlePass {
            form: IdleForm::Bare(BarePass::of(refused.value)),
        }),
    }
}

/// A slot for each pass. A contract sees what is in each.
#[derive(Drop)]
pub(crate) struct IdlePasses {
    slots: Vec<Option<IdlePass>>,
}

impl Model for IdlePasses {
    ghost use Rattle.csq_checked.specs.Idle.{IdleSlots};

    ghost Value = { IdleSlots };

    ghost view = { λ i. i.slots.items };
}

impl IdlePasses {
    /// Empty slots for so many passes. No other call takes memory.
    #[tactic(auto, using(std::proofs::lemmas::List::replicate_more))]
    pub(crate) fn new(alloc: Global, passes: u32) -> Result<IdlePasses, AllocError>
        ensures { IfOk result (λ idle. idle ≡ replicate passes None) }
    {
        let mut slots = Vec::with_capacity(alloc, passes as usize)?;
        'slots: for _ in 0..passes {
            slots.push(None)?;
        }
        Ok(IdlePasses { slots })
    }

    /// The first slot that has a pass.
    pub(crate) fn first(&self) -> Option<usize>
        ensures none { IfNone result (NoneIsIdle self.now) }
        ensures first { IfSome result (IsFirstIdle self.now) }
    {
        'slots: for at in 0..self.slots.len() {
            if self.slots[at].is_some() {
                return Some(at);
            }
        }
        None
    }

    /// What is in a slot, which is empty then.
    pub(crate) fn take(&mut self, at: usize) -> Option<IdlePass>
        requires { at < length self.old }
        ensures taken { result ≡ slot_at self.old at }
        ensures left { self.new ≡ slice_set self.old at None }
    {
        self.slots[at].take()
    }

    /// Puts a pass into a slot.
    pub(crate) fn put(&mut self, at: usize, pass: IdlePass)
        requires { at < length self.old }
        ensures { self.new ≡ slice_set self.old at (Some pass) }
    {
        self.slots[at] = Some(pass);
    }

    /// Takes each idle pass's share of the words from it, so that a close has them whole (tested: a pass
    /// is seen here without its share).
    pub(crate) fn let_words_go(&mut self)
        ensures { self.new ≡ self.old }
    {
        'slots: for at in 0..self.slots.len() {
            self.let_go(at);
        }
    }

    /// Takes its share of the words from the pass in a slot, if there is one.
    #[tactic(auto, using(crate::proofs::Idling::put_same, crate::proofs::Idling::put_none))]
    fn let_go(&mut self, at: usize)
        requires { at < length self.old }
        ensures { self.new ≡ self.old }
    {
        if let Some(pass) = self.take(at) {
            self.put(at, pass.without_words());
        }
    }

    /// Gives the idle ones among the first passes back to their queue, so many of which were taken.
    pub(crate) fn give_back(mut self, queue: &mut OpenQueue<AnyList>, words: &Words, taken: u32)
        requires queue { IsQueueOn words.now queue.old }
        requires idle { AreIdle words.now self }
        requires taken { taken ≤ length self }
        requires all { count_out self taken ≡ 0 }
        ensures back { queue.new
            ≡ record queue.old { queue = with_idle_back self taken queue.old.queue } }
        ensures all { FirstAreBack taken queue.new.queue.back }
    {
        'passes: for at in 0..taken {
            give_one(queue, words, self.take(at as usize));
        }
    }

    /// How many of the first passes, so many of which were taken, aren't here.
    pub(crate) fn out(&self, taken: u32) -> u32
        requires { taken ≤ length self.now }
        ensures { result ≡ count_out self.now taken }
    {
        let mut out = 0;
        'passes: for next in 0..taken {
            if self.slots[next as usize].is_none() {
                out += 1;
            }
        }
        out
    }
}

/// Gives a pass back to its queue, if there is one.
fn give_one(queue: &mut OpenQueue<AnyList>, words: &Words, pass: Option<IdlePass>)
    requires queue { IsQueueOn words.now queue.old }
    requires pass { IfSome pass (λ p. IsPassOn words.now p × HoldsNothing p.pass) }
    ensures { queue.new ≡ record queue.old { queue = with_one_back pass queue.old.queue } }
{
    if let Some(pass) = pass {
        queue.give_back(words, pass.into_open());
    }
}
