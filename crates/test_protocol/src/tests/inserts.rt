//! Inserts by pass 1.
ghost use Rattle.std.specs.Prelude.{◌≡◌, ◌<◌, None, true};
ghost use Rattle.irp_core.specs.declared.inside.Inside.TheVariants.{Nothing, Armed, FlagSeen};
ghost use Rattle.irp_core.specs.Own.{inside_of, holds_in};
ghost use Rattle.csq_words.specs.Seats.{joined_record, pass_record, IsHere, IsJoined};
ghost use Rattle.csq_words.specs.declared.views.Reusing.TheVariants as Reusing;
ghost use Rattle.csq_words.specs.Words.{bit_in};
ghost use Rattle.test_protocol.specs.Listed.{IsHome, IsInserted, IsIrpZero, only_entry};

use super::fixture::{Case, FREE, compare_bit};
use super::{INSERT, ZERO};
use crate::states::{Doing, Hand, Stage};
use csq_words::{PassSeat, QueueSeat, Words, is_set};
use irp_core::{IrpLife, Kind, Machine};
use std::process::Abort;

/// The pass tests the flag, and finds it clear. Its insert ends.
fn find_clear(
    rt: &impl Abort,
    machine: &mut Machine,
    words: &Words,
    queue: &mut QueueSeat,
    pass: &mut PassSeat,
    name: IrpLife,
)
    requires words { queue.old.table ≡ words.now.table }
    requires irp { name.irp.0 < words.now.size.irps }
    requires joined { IsJoined queue.old }
    requires home { IsHome name queue.old.queue }
    requires armed { inside_of (joined_record queue.old).steps ≡ Armed name }
    ensures words { queue.new.table ≡ words.now.table }
    ensures alone { queue.new.joined ≡ None }
    ensures inserted { IsInserted name (only_entry name) queue.new.queue }
    ensures here { IsHere words.now.table pass.new }
    ensures outside { inside_of (pass_record pass.new).steps ≡ Nothing }
{
    let found = queue.test(words, INSERT, ZERO);
    compare_bit(rt, machine, 1, Kind::Test(name), found);
    assert!(rt; !is_set(found));
    queue.leave(words, pass);
}

/// The pass exchanges the routine that it set, and its insert ends. It holds the IRP if it found
/// it.
fn take_back(
    rt: &impl Abort,
    machine: &mut Machine,
    words: &Words,
    queue: &mut QueueSeat,
    pass: &mut PassSeat,
    name: IrpLife,
) -> u64
    requires words { queue.old.table ≡ words.now.table }
    requires irp { name.irp.0 < words.now.size.irps }
    requires joined { IsJoined queue.old }
    requires home { IsHome name queue.old.queue }
    requires seen { inside_of (joined_record queue.old).steps ≡ FlagSeen name }
    ensures words { queue.new.table ≡ words.now.table }
    ensures alone { queue.new.joined ≡ None }
    ensures present { IsIrpZero name queue.new.queue }
    ensures idle { queue.new.queue.reusing ≡ Reusing.Nothing }
    ensures here { IsHere words.now.table pass.new }
    ensures outside { inside_of (pass_record pass.new).steps ≡ Nothing }
    ensures held { bit_in result ≡ 1 → holds_in (pass_record pass.new).steps name ≡ true }
{
    let found = queue.disarm(words, INSERT, name);
    compare_bit(rt, machine, 1, Kind::Disarm(name), found);
    queue.leave(words, pass);
    found
}

impl Case {
    /// Pass 1 lists the IRP, and sets its routine.
    pub(super) fn arm(&mut self, rt: &impl Abort) {
        let Stage::Home = self.stage else {
            panic!(rt; "the IRP isn't home");
        };
        let Hand::Here(Doing::Nothing) = self.inserter else {
            panic!(rt; "pass 1 is busy");
        };
        let life = self.life;
        let name = IrpLife { irp: ZERO, life };
        self.queue.enter(&self.words, &mut self.one);
        let found = self.queue.arm(&self.words, INSERT, name);
        compare_bit(rt, &mut self.machine, 1, Kind::Arm(name), found);
        self.stage = Stage::Armed;
        self.inserter = Hand::Away;
    }

    /// It finds the flag clear, and the IRP is pending.
    pub(super) fn find_clear(&mut self, rt: &impl Abort) {
        let Stage::Armed = self.stage else {
            panic!(rt; "the routine wasn't set");
        };
        let life = self.life;
        let name = IrpLife { irp: ZERO, life };
        find_clear(
            rt,
            &mut self.machine,
            &self.words,
            &mut self.queue,
            &mut self.one,
            name,
        );
        self.stage = Stage::Listed;
        self.inserter = FREE;
    }

    /// It finds the flag set.
    pub(super) fn find_set(&mut self, rt: &impl Abort) {
        let Stage::Armed = self.stage else {
            panic!(rt; "the routine wasn't set");
        };
        let life = self.life;
        let name = IrpLife { irp: ZERO, life };
        let found = self.queue.test(&self.words, INSERT, ZERO);
        compare_bit(rt, &mut self.machine, 1, Kind::Test(name), found);
        assert!(rt; is_set(found));
        self.stage = Stage::FlagSeen;
    }

    /// Its exchange of the routine then finds this word. If the routine was there, it holds the
    /// IRP.
    pub(super) fn take_back(&mut self, rt: &impl Abort, word: u64) {
        let Stage::FlagSeen = self.stage else {
            panic!(rt; "the flag wasn't found set");
        };
        let life = self.life;
        let name = IrpLife { irp: ZERO, life };
        let found = take_back(
            rt,
            &mut self.machine,
            &self.words,
            &mut self.queue,
            &mut self.one,
            name,
        );
        assert!(rt; found == word);
        self.stage = Stage::Taken;
        if is_set(found) {
            self.inserter = Hand::Here(Doing::Holding(self.life));
        } else {
            self.inserter = FREE;
        }
    }

    /// A whole insert, of which the IRP is pending.
    pub(super) fn insert(&mut self, rt: &impl Abort) {
        self.arm(rt);
        self.find_clear(rt);
    }
}
