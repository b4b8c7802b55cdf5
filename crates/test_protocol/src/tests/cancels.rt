//! Cancels by pass 2, and flags that name another life than the present one.
ghost use Rattle.std.specs.Prelude.{◌≡◌, ◌<◌, None, true};
ghost use Rattle.irp_core.specs.Steps.{life_of};
ghost use Rattle.irp_core.specs.declared.inside.Inside.TheVariants.{Nothing, Cancelling};
ghost use Rattle.irp_core.specs.Own.{inside_of, owes_in};
ghost use Rattle.csq_words.specs.Seats.{pass_record, IsHere};
ghost use Rattle.csq_words.specs.declared.views.Reusing.TheVariants as Reusing;
ghost use Rattle.csq_words.specs.Words.{bit_word};
ghost use Rattle.test_protocol.specs.Listed.{IsIrpZero};

use super::ZERO;
use super::fixture::{Case, FREE, compare, compare_bit, read};
use crate::states::{Doing, Hand, Stage};
use csq_words::{Call, Note, PassSeat, QueueSeat, Words, bit_word, flag_read};
use irp_core::{FinalStatus, IrpLife, Kind, Life, Machine, PassId, Step, StepRefused};
use std::process::Abort;

/// It takes the routine, and returns the word found.
fn take(
    rt: &impl Abort,
    machine: &mut Machine,
    words: &Words,
    pass: &mut PassSeat,
    name: IrpLife,
) -> u64
    requires irp { name.irp.0 < words.now.size.irps }
    requires here { IsHere words.now.table pass.old }
    requires flagged { inside_of (pass_record pass.old).steps ≡ Cancelling name }
    ensures here { IsHere words.now.table pass.new }
    ensures outside { inside_of (pass_record pass.new).steps ≡ Nothing }
    ensures owed { result ≡ bit_word (life_of name) 1
        → owes_in (pass_record pass.new).steps name ≡ true }
{
    let found = pass.take(words, name);
    let taken = found == bit_word(name.life, true);
    compare(rt, machine, 2, Kind::Take(name), u64::from(taken));
    found
}

/// The cancel routine takes the IRP out, and the pass completes it.
fn finish(
    rt: &impl Abort,
    machine: &mut Machine,
    words: &Words,
    queue: &mut QueueSeat,
    pass: &mut PassSeat,
    name: IrpLife,
)
    requires words { queue.old.table ≡ words.now.table }
    requires irp { name.irp.0 < words.now.size.irps }
    requires alone { queue.old.joined ≡ None }
    requires present { IsIrpZero name queue.old.queue }
    requires idle { queue.old.queue.reusing ≡ Reusing.Nothing }
    requires here { IsHere words.now.table pass.old }
    requires outside { inside_of (pass_record pass.old).steps ≡ Nothing }
    requires owed { owes_in (pass_record pass.old).steps name ≡ true }
    ensures words { queue.new.table ≡ words.now.table }
{
    queue.enter(words, pass);
    queue.note(words, Call::CancelRoutine(ZERO), Note::Event);
    compare(rt, machine, 2, Kind::Out(name), 0);
    queue.leave(words, pass);
    pass.done(words, name, FinalStatus::cancelled());
    compare(rt, machine, 2, Kind::Done(name), 0);
}

/// A flag that names another life than the present one changes no word, and returns the flag found.
fn flag_stale(
    rt: &impl Abort,
    machine: &mut Machine,
    words: &Words,
    pass: &mut PassSeat,
    name: IrpLife,
    present: IrpLife,
) -> bool
    requires irp { name.irp.0 < words.now.size.irps }
    requires here { IsHere words.now.table pass.old }
    requires outside { inside_of (pass_record pass.old).steps ≡ Nothing }
    requires other { (life_of name ≡ life_of present) → ⊥ }
    ensures here { IsHere words.now.table pass.new }
    ensures outside { inside_of (pass_record pass.new).steps ≡ Nothing }
{
    let before = read(words, pass);
    let found = pass.flag(words, name);
    let (life, set) = flag_read(found);
    assert!(rt; life == present.life);
    let step = Step {
        pass: PassId(2),
        kind: Kind::Flag(name),
    };
    assert!(rt; machine.step(step) == Err(StepRefused::Stale(present.life)));
    assert!(rt; read(words, pass) == before);
    set
}

impl Case {
    /// Pass 2 flags the IRP in its present life.
    pub(super) fn flag(&mut self, rt: &impl Abort) {
        let Hand::Here(Doing::Nothing) = self.canceller else {
            panic!(rt; "pass 2 is busy");
        };
        let life = self.life;
        let name = IrpLife { irp: ZERO, life };
        let found = self.two.flag(&self.words, name);
        let (found_life, _) = flag_read(found);
        assert!(rt; found_life == life);
        compare_bit(rt, &mut self.machine, 2, Kind::Flag(name), found);
        self.canceller = Hand::Here(Doing::Cancelling(self.life));
    }

    /// Its exchange of the routine finds this word. If that is the routine of the life that it
    /// flagged, it owes the IRP.
    pub(super) fn take(&mut self, rt: &impl Abort, word: u64) {
        let Hand::Here(Doing::Cancelling(life)) = self.canceller else {
            panic!(rt; "pass 2 flagged nothing");
        };
        let name = IrpLife { irp: ZERO, life };
        let found = take(rt, &mut self.machine, &self.words, &mut self.two, name);
        assert!(rt; found == word);
        if found == bit_word(life, true) {
            self.canceller = Hand::Here(Doing::Owing(life));
        } else {
            self.canceller = FREE;
        }
    }

    /// Its cancel routine takes the IRP out, and completes it.
    pub(super) fn finish(&mut self, rt: &impl Abort) {
        let Hand::Here(Doing::Owing(life)) = self.canceller else {
            panic!(rt; "pass 2 owes nothing");
        };
        if life != self.life {
            panic!(rt; "pass 2 owes another life");
        }
        let name = IrpLife { irp: ZERO, life };
        match self.stage {
            Stage::Listed => finish(
                rt,
                &mut self.machine,
                &self.words,
                &mut self.queue,
                &mut self.two,
                name,
            ),
            Stage::Taken => finish(
                rt,
                &mut self.machine,
                &self.words,
                &mut self.queue,
                &mut self.two,
                name,
            ),
            _ => panic!(rt; "the IRP isn't listed"),
        }
        self.stage = Stage::Ended;
        self.canceller = Hand::Away;
    }

    /// Pass 2 flags another life than the present one, and finds the flag of the present life so.
    pub(super) fn flag_stale(&mut self, rt: &impl Abort, life: Life, wanted: bool) {
        let Hand::Here(Doing::Nothing) = self.canceller else {
            panic!(rt; "pass 2 is busy");
        };
        let present = IrpLife {
            irp: ZERO,
            life: self.life,
        };
        if life.0 == present.life.0 {
            panic!(rt; "the life is the present one");
        }
        let name = IrpLife { irp: ZERO, life };
        let (machine, words) = (&mut self.machine, &self.words);
        let found = flag_stale(rt, machine, words, &mut self.two, name, present);
        assert!(rt; found == wanted);
    }
}
