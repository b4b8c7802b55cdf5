//! Removals by pass 3, and completions.
ghost use Rattle.std.specs.Prelude.{◌≡◌, ◌<◌, None, [], true};
ghost use Rattle.irp_core.specs.declared.inside.Inside.TheVariants.{Nothing};
ghost use Rattle.irp_core.specs.Own.{inside_of, holds_in, removed_in};
ghost use Rattle.csq_words.specs.Seats.{pass_record, IsHere};
ghost use Rattle.csq_words.specs.declared.views.Reusing.TheVariants as Reusing;
ghost use Rattle.csq_words.specs.Words.{bit_in};
ghost use Rattle.test_protocol.specs.Listed.{IsInserted, IsIrpZero, only_entry};

use super::ZERO;
use super::fixture::{Case, FREE, compare, compare_bit};
use crate::states::{Doing, Hand, Stage};
use csq_words::{Call, Note, PassSeat, QueueSeat, Words, bit_word, is_set};
use irp_core::{FinalStatus, IrpLife, Kind, Machine, NtStatus};
use std::process::Abort;

/// An exchange found the routine.
fn expect_found(rt: &impl Abort, found: u64)
    ensures { bit_in found ≡ 1 }
{
    assert!(rt; is_set(found));
}

/// A removal by pass 3 takes the routine of the IRP, and the pass then holds the IRP.
fn remove(
    rt: &impl Abort,
    machine: &mut Machine,
    words: &Words,
    queue: &mut QueueSeat,
    pass: &mut PassSeat,
    name: IrpLife,
)
    requires words { queue.old.table ≡ words.now.table }
    requires irp { name.irp.0 < words.now.size.irps }
    requires alone { queue.old.joined ≡ None }
    requires inserted { IsInserted name (only_entry name) queue.old.queue }
    requires here { IsHere words.now.table pass.old }
    requires outside { inside_of (pass_record pass.old).steps ≡ Nothing }
    ensures words { queue.new.table ≡ words.now.table }
    ensures alone { queue.new.joined ≡ None }
    ensures inserted { IsInserted name [] queue.new.queue }
    ensures here { IsHere words.now.table pass.new }
    ensures outside { inside_of (pass_record pass.new).steps ≡ Nothing }
    ensures held { holds_in (pass_record pass.new).steps name ≡ true }
    ensures removed { removed_in (pass_record pass.new).steps name ≡ true }
{
    queue.enter(words, pass);
    let found = queue.disarm(words, Call::Remove(name), name);
    compare_bit(rt, machine, 3, Kind::Disarm(name), found);
    expect_found(rt, found);
    queue.leave(words, pass);
}

/// Pass 3 finds that the routine was taken, and its removal ends with no IRP.
fn find_taken(
    rt: &impl Abort,
    machine: &mut Machine,
    words: &Words,
    queue: &mut QueueSeat,
    pass: &mut PassSeat,
    name: IrpLife,
)
    requires words { queue.old.table ≡ words.now.table }
    requires irp { name.irp.0 < words.now.size.irps }
    requires alone { queue.old.joined ≡ None }
    requires inserted { IsInserted name (only_entry name) queue.old.queue }
    requires here { IsHere words.now.table pass.old }
    requires outside { inside_of (pass_record pass.old).steps ≡ Nothing }
    ensures words { queue.new.table ≡ words.now.table }
    ensures alone { queue.new.joined ≡ None }
    ensures present { IsIrpZero name queue.new.queue }
    ensures idle { queue.new.queue.reusing ≡ Reusing.Nothing }
{
    queue.enter(words, pass);
    let call = Call::Remove(name);
    let found = queue.disarm(words, call, name);
    compare_bit(rt, machine, 3, Kind::Disarm(name), found);
    assert!(rt; !is_set(found));
    assert!(rt; found == bit_word(name.life, false));
    queue.note(words, call, Note::Event);
    compare(rt, machine, 3, Kind::End, 0);
    queue.leave(words, pass);
}

impl Case {
    /// Pass 3 removes the IRP.
    pub(super) fn remove(&mut self, rt: &impl Abort) {
        let Stage::Listed = self.stage else {
            panic!(rt; "the IRP isn't listed");
        };
        let Hand::Here(Doing::Nothing) = self.remover else {
            panic!(rt; "pass 3 is busy");
        };
        let life = self.life;
        let name = IrpLife { irp: ZERO, life };
        remove(
            rt,
            &mut self.machine,
            &self.words,
            &mut self.queue,
            &mut self.three,
            name,
        );
        self.stage = Stage::Removed;
        self.remover = Hand::Here(Doing::HoldingRemoved(self.life));
    }

    /// Its removal finds that the routine was taken.
    pub(super) fn find_taken(&mut self, rt: &impl Abort) {
        let Stage::Listed = self.stage else {
            panic!(rt; "the IRP isn't listed");
        };
        let Hand::Here(Doing::Nothing) = self.remover else {
            panic!(rt; "pass 3 is busy");
        };
        let life = self.life;
        let name = IrpLife { irp: ZERO, life };
        find_taken(
            rt,
            &mut self.machine,
            &self.words,
            &mut self.queue,
            &mut self.three,
            name,
        );
        self.stage = Stage::Taken;
        self.remover = Hand::Away;
    }

    /// It completes what it removed.
    pub(super) fn complete(&mut self, rt: &impl Abort, status: NtStatus) {
        let Hand::Here(Doing::HoldingRemoved(life)) = self.remover else {
            panic!(rt; "pass 3 holds nothing");
        };
        let name = IrpLife { irp: ZERO, life };
        let Some(status) = FinalStatus::new(status) else {
            panic!(rt; "no final status");
        };
        self.three.done(&self.words, name, status);
        compare(rt, &mut self.machine, 3, Kind::Done(name), 0);
        self.remover = FREE;
    }

    /// It completes what its put-back took back.
    pub(super) fn complete_taken_back(&mut self, rt: &impl Abort) {
        let Hand::Here(Doing::Holding(life)) = self.remover else {
            panic!(rt; "pass 3 holds nothing that it took back");
        };
        let name = IrpLife { irp: ZERO, life };
        self.three.done(&self.words, name, FinalStatus::cancelled());
        compare(rt, &mut self.machine, 3, Kind::Done(name), 0);
        self.remover = FREE;
    }

    /// Pass 1 completes what its insert took back.
    pub(super) fn complete_own(&mut self, rt: &impl Abort) {
        let Hand::Here(Doing::Holding(life)) = self.inserter else {
            panic!(rt; "pass 1 holds nothing");
        };
        let name = IrpLife { irp: ZERO, life };
        self.one.done(&self.words, name, FinalStatus::cancelled());
        compare(rt, &mut self.machine, 1, Kind::Done(name), 0);
        self.inserter = FREE;
    }
}
