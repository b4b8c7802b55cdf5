//! Put-backs by pass 3, of what it removed.
ghost use Rattle.std.specs.Prelude.{◌≡◌, ◌<◌, None, [], true};
ghost use Rattle.irp_core.specs.declared.inside.Inside.TheVariants.{Nothing, Rearmed, FlagSeenAgain};
ghost use Rattle.irp_core.specs.Own.{inside_of, holds_in};
ghost use Rattle.csq_words.specs.Seats.{joined_record, pass_record, IsHere, IsJoined};
ghost use Rattle.csq_words.specs.declared.views.Reusing.TheVariants as Reusing;
ghost use Rattle.csq_words.specs.Words.{bit_in};
ghost use Rattle.test_protocol.specs.Listed.{IsInserted, IsIrpZero, only_entry};

use super::ZERO;
use super::fixture::{Case, FREE, compare_bit};
use crate::states::{Doing, Hand, Stage};
use csq_list::Place;
use csq_words::{Call, PassSeat, QueueSeat, Words, is_set};
use irp_core::{FileId, IrpLife, Kind, Machine};
use std::process::Abort;

/// The pass tests the flag, and finds it clear. Its put-back ends.
fn find_clear_again(
    rt: &impl Abort,
    machine: &mut Machine,
    words: &Words,
    queue: &mut QueueSeat,
    pass: &mut PassSeat,
    name: IrpLife,
)
    requires words { queue.old.table ≡ words.now.table }
    requires irp { name.irp.0 < words.now.size.irps }
    requires joined { IsJoined queue.old }
    requires inserted { IsInserted name [] queue.old.queue }
    requires rearmed { inside_of (joined_record queue.old).steps ≡ Rearmed name }
    ensures words { queue.new.table ≡ words.now.table }
    ensures alone { queue.new.joined ≡ None }
    ensures inserted { IsInserted name (only_entry name) queue.new.queue }
    ensures here { IsHere words.now.table pass.new }
    ensures outside { inside_of (pass_record pass.new).steps ≡ Nothing }
{
    let call = Call::PutBack(name, FileId(0), Place::Back);
    let found = queue.test(words, call, ZERO);
    compare_bit(rt, machine, 3, Kind::Test(name), found);
    assert!(rt; !is_set(found));
    queue.leave(words, pass);
}

/// The pass exchanges the routine that it set again, and its put-back ends. It holds the IRP if it
/// found it.
fn take_back_again(
    rt: &impl Abort,
    machine: &mut Machine,
    words: &Words,
    queue: &mut QueueSeat,
    pass: &mut PassSeat,
    name: IrpLife,
) -> u64
    requires words { queue.old.table ≡ words.now.table }
    requires irp { name.irp.0 < words.now.size.irps }
    requires joined { IsJoined queue.old }
    requires inserted { IsInserted name [] queue.old.queue }
    requires seen { inside_of (joined_record queue.old).steps ≡ FlagSeenAgain name }
    ensures words { queue.new.table ≡ words.now.table }
    ensures alone { queue.new.joined ≡ None }
    ensures present { IsIrpZero name queue.new.queue }
    ensures idle { queue.new.queue.reusing ≡ Reusing.Nothing }
    ensures here { IsHere words.now.table pass.new }
    ensures outside { inside_of (pass_record pass.new).steps ≡ Nothing }
    ensures held { bit_in result ≡ 1 → holds_in (pass_record pass.new).steps name ≡ true }
{
    let call = Call::PutBack(name, FileId(0), Place::Back);
    let found = queue.disarm(words, call, name);
    compare_bit(rt, machine, 3, Kind::Disarm(name), found);
    queue.leave(words, pass);
    found
}

impl Case {
    /// Pass 3 lists the IRP again, which it removed, and sets its routine.
    pub(super) fn rearm(&mut self, rt: &impl Abort) {
        let Stage::Removed = self.stage else {
            panic!(rt; "the IRP wasn't removed");
        };
        let Hand::Here(Doing::HoldingRemoved(life)) = self.remover else {
            panic!(rt; "pass 3 holds nothing that it removed");
        };
        if life != self.life {
            panic!(rt; "pass 3 holds another life");
        }
        let name = IrpLife { irp: ZERO, life };
        let call = Call::PutBack(name, FileId(0), Place::Back);
        self.queue.enter(&self.words, &mut self.three);
        let found = self.queue.rearm(&self.words, call, name);
        compare_bit(rt, &mut self.machine, 3, Kind::Rearm(name), found);
        self.stage = Stage::Rearmed;
        self.remover = Hand::Away;
    }

    /// It finds the flag clear, and the IRP is pending.
    pub(super) fn find_clear_again(&mut self, rt: &impl Abort) {
        let Stage::Rearmed = self.stage else {
            panic!(rt; "the routine wasn't set again");
        };
        let life = self.life;
        let name = IrpLife { irp: ZERO, life };
        find_clear_again(
            rt,
            &mut self.machine,
            &self.words,
            &mut self.queue,
            &mut self.three,
            name,
        );
        self.stage = Stage::Listed;
        self.remover = FREE;
    }

    /// It finds the flag set.
    pub(super) fn find_set_again(&mut self, rt: &impl Abort) {
        let Stage::Rearmed = self.stage else {
            panic!(rt; "the routine wasn't set again");
        };
        let life = self.life;
        let name = IrpLife { irp: ZERO, life };
        let call = Call::PutBack(name, FileId(0), Place::Back);
        let found = self.queue.test(&self.words, call, ZERO);
        compare_bit(rt, &mut self.machine, 3, Kind::Test(name), found);
        assert!(rt; is_set(found));
        self.stage = Stage::FlagSeenAgain;
    }

    /// Its exchange of the routine then finds this word. If the routine was there, it holds the
    /// IRP.
    pub(super) fn take_back_again(&mut self, rt: &impl Abort, word: u64) {
        let Stage::FlagSeenAgain = self.stage else {
            panic!(rt; "the flag wasn't found set");
        };
        let life = self.life;
        let name = IrpLife { irp: ZERO, life };
        let found = take_back_again(
            rt,
            &mut self.machine,
            &self.words,
            &mut self.queue,
            &mut self.three,
            name,
        );
        assert!(rt; found == word);
        self.stage = Stage::Taken;
        if is_set(found) {
            self.remover = Hand::Here(Doing::Holding(self.life));
        } else {
            self.remover = FREE;
        }
    }

    /// A whole put-back, of which the IRP is pending.
    pub(super) fn put_back(&mut self, rt: &impl Abort) {
        self.rearm(rt);
        self.find_clear_again(rt);
    }
}
