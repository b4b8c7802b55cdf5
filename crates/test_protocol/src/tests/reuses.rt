//! Reuses by pass 1, step by step.
ghost use Rattle.std.specs.Prelude.{◌≡◌, ◌<◌, None, []};
ghost use Rattle.irp_core.specs.Lives.{last_life};
ghost use Rattle.irp_core.specs.Steps.{life_of};
ghost use Rattle.irp_core.specs.declared.inside.Inside.TheVariants.{Nothing};
ghost use Rattle.irp_core.specs.Own.{inside_of};
ghost use Rattle.csq_words.specs.Records.{with_reusing};
ghost use Rattle.csq_words.specs.Rule.{next_life};
ghost use Rattle.csq_words.specs.Seats.{joined_record, pass_record, IsHere, IsJoined};
ghost use Rattle.csq_words.specs.declared.views.Reusing.TheVariants as Reusing;
ghost use Rattle.test_protocol.specs.Listed.{IsHome, IsInserted};

use super::ZERO;
use super::fixture::{Case, FREE, compare};
use crate::states::{Doing, Hand, Stage};
use csq_words::{Call, PassSeat, QueueSeat, Words, flag_read, status_read};
use irp_core::{IrpLife, Kind, Life, Machine, NtStatus, PassId, Step, StepRefused};
use std::process::Abort;

const REUSE: Call = Call::Reuse(ZERO);

/// It renews the Cancel flag, which begins the next life. The reuse ends.
fn renew_cancel(
    rt: &impl Abort,
    machine: &mut Machine,
    words: &Words,
    queue: &mut QueueSeat,
    pass: &mut PassSeat,
    name: IrpLife,
) -> (Life, bool)
    requires words { queue.old.table ≡ words.now.table }
    requires irp { name.irp.0 < words.now.size.irps }
    requires joined { IsJoined queue.old }
    requires inserted { IsInserted name [] (with_reusing Reusing.Nothing queue.old.queue) }
    requires few { life_of name < last_life }
    requires renewed { queue.old.queue.reusing ≡ Reusing.StatusRenewed name }
    requires outside { inside_of (joined_record queue.old).steps ≡ Nothing }
    ensures words { queue.new.table ≡ words.now.table }
    ensures alone { queue.new.joined ≡ None }
    ensures home { IsHome (next_life name) queue.new.queue }
    ensures here { IsHere words.now.table pass.new }
    ensures outside { inside_of (pass_record pass.new).steps ≡ Nothing }
{
    let found = queue.renew_cancel(words, REUSE, name);
    compare(rt, machine, 1, Kind::Renew(name), 0);
    queue.leave(words, pass);
    flag_read(found)
}

/// A look by pass 1 that begins no reuse.
fn look_alone(
    words: &Words,
    queue: &mut QueueSeat,
    pass: &mut PassSeat,
    name: IrpLife,
) -> (Life, Option<NtStatus>)
    requires words { queue.old.table ≡ words.now.table }
    requires irp { name.irp.0 < words.now.size.irps }
    requires last { life_of name ≡ last_life }
    requires alone { queue.old.joined ≡ None }
    requires inserted { IsInserted name [] queue.old.queue }
    requires here { IsHere words.now.table pass.old }
    requires outside { inside_of (pass_record pass.old).steps ≡ Nothing }
    ensures words { queue.new.table ≡ words.now.table }
    ensures alone { queue.new.joined ≡ None }
    ensures inserted { IsInserted name [] queue.new.queue }
    ensures here { IsHere words.now.table pass.new }
    ensures outside { inside_of (pass_record pass.new).steps ≡ Nothing }
{
    queue.enter(words, pass);
    let found = queue.look(words, REUSE, ZERO);
    queue.leave(words, pass);
    status_read(found)
}

impl Case {
    /// Pass 1 finds this status, and begins a reuse.
    pub(super) fn look(&mut self, rt: &impl Abort, due: NtStatus) {
        let Stage::Removed = self.stage else {
            panic!(rt; "the IRP wasn't removed");
        };
        let Hand::Here(Doing::Nothing) = self.inserter else {
            panic!(rt; "pass 1 is busy");
        };
        if self.life.0 >= Life::LAST.0 {
            panic!(rt; "the life is the last");
        }
        let life = self.life;
        let name = IrpLife { irp: ZERO, life };
        self.queue.enter(&self.words, &mut self.one);
        let (read, status) = status_read(self.queue.look(&self.words, REUSE, ZERO));
        assert!(rt; status.is_some());
        assert!(rt; read == life && status == Some(due));
        self.stage = Stage::Looked;
        self.inserter = Hand::Away;
    }

    /// It renews the status.
    pub(super) fn renew_status(&mut self, rt: &impl Abort, due: NtStatus) {
        let Stage::Looked = self.stage else {
            panic!(rt; "no reuse has begun");
        };
        let life = self.life;
        let name = IrpLife { irp: ZERO, life };
        let found = self.queue.renew_status(&self.words, REUSE, name);
        assert!(rt; status_read(found) == (life, Some(due)));
        self.stage = Stage::StatusRenewed;
    }

    /// It renews the Cancel flag, which it finds so. The next life begins.
    pub(super) fn renew_cancel(&mut self, rt: &impl Abort, set: bool) {
        let Stage::StatusRenewed = self.stage else {
            panic!(rt; "the status wasn't renewed");
        };
        let life = self.life;
        let name = IrpLife { irp: ZERO, life };
        let found = renew_cancel(
            rt,
            &mut self.machine,
            &self.words,
            &mut self.queue,
            &mut self.one,
            name,
        );
        assert!(rt; found == (life, set));
        self.stage = Stage::Home;
        self.life = Life(self.life.0 + 1);
        self.inserter = FREE;
    }

    /// A whole reuse of an IRP that was completed with success, whose Cancel flag was set or clear.
    pub(super) fn reuse(&mut self, rt: &impl Abort, set: bool) {
        self.look(rt, NtStatus::SUCCESS);
        self.renew_status(rt, NtStatus::SUCCESS);
        self.renew_cancel(rt, set);
    }

    /// It finds this status in the last life, and begins no reuse.
    pub(super) fn look_alone(&mut self, rt: &impl Abort, due: Option<NtStatus>) {
        let Stage::Removed = self.stage else {
            panic!(rt; "the IRP wasn't removed");
        };
        let Hand::Here(Doing::Nothing) = self.inserter else {
            panic!(rt; "pass 1 is busy");
        };
        if self.life.0 != Life::LAST.0 {
            panic!(rt; "the life isn't the last");
        }
        let life = self.life;
        let name = IrpLife { irp: ZERO, life };
        let found = look_alone(&self.words, &mut self.queue, &mut self.one, name);
        assert!(rt; found == (life, due));
    }

    /// The machine refuses to end the present life.
    pub(super) fn refuse_renewal(&mut self, rt: &impl Abort, cause: StepRefused) {
        let life = self.life;
        let name = IrpLife { irp: ZERO, life };
        let step = Step {
            pass: PassId(1),
            kind: Kind::Renew(name),
        };
        assert!(rt; self.machine.step(step) == Err(cause));
    }
}
