//! One IRP in the words, with the machine beside them: the queue's seat, and those of three passes,
//! of which the first inserts and reuses, the second cancels and the third removes and puts back.
ghost use Rattle.std.specs.Prelude.{◌≡◌, ◌<◌, ◌∷◌, None};
ghost use Rattle.csq_words.specs.Records.{new_queue};
ghost use Rattle.csq_words.specs.Seats.{new_seats, pass_record, IsHere};

use super::ZERO;
use crate::states::{Doing, Hand, Stage};
use csq_words::{PassSeat, PassSeats, QueueSeat, Words, is_set};
use irp_core::{Kind, Life, Machine, NtStatus, PassId, Step};
use std::marker::Model;
use std::process::Abort;

pub(super) const FREE: Hand = Hand::Here(Doing::Nothing);

/// The passes, by what they do.
#[derive(Clone, Copy)]
pub(super) enum By {
    Inserter,
    Canceller,
    Remover,
}

impl By {
    pub(super) fn number(self) -> u32 {
        match self {
            By::Inserter => 1,
            By::Canceller => 2,
            By::Remover => 3,
        }
    }
}

/// A life and the status of a completion in it.
pub(super) type Status = (Life, Option<NtStatus>);

#[derive(Drop)]
pub(super) struct Case {
    pub(super) machine: Machine,
    pub(super) words: Words,
    pub(super) queue: QueueSeat,
    pub(super) stage: Stage,
    // The present life.
    pub(super) life: Life,
    pub(super) one: PassSeat,
    pub(super) inserter: Hand,
    pub(super) two: PassSeat,
    pub(super) canceller: Hand,
    pub(super) three: PassSeat,
    pub(super) remover: Hand,
}

impl Model for Case {
    ghost use Rattle.irp_core.specs.declared.ids.Life.{Life};
    ghost use Rattle.test_protocol.specs.Stages.{IsCase, irp_in};

    ghost Value = { Life };

    ghost view = { λ c. c.life };

    ghost invariant = { λ c. IsCase c.words c.stage (irp_in c.life) c.queue c.inserter c.one
        c.canceller c.two c.remover c.three };
}

/// A step finds what the machine finds.
pub(super) fn compare(rt: &impl Abort, machine: &mut Machine, pass: u32, kind: Kind, found: u64) {
    let step = Step {
        pass: PassId(pass),
        kind,
    };
    assert!(rt; machine.step(step) == Ok(found));
}

/// A step on a Cancel flag or a routine finds the bit that the machine finds.
pub(super) fn compare_bit(
    rt: &impl Abort,
    machine: &mut Machine,
    pass: u32,
    kind: Kind,
    word: u64,
) {
    compare(rt, machine, pass, kind, u64::from(is_set(word)));
}

fn new_machine<R: AllocGlobal + Abort>(rt: &R, life: Life) -> Machine {
    match Machine::new_at(rt.alloc(), 1, 3, life) {
        Ok(machine) => machine,
        Err(_) => panic!(rt; "no machine"),
    }
}

/// Words of one IRP, which is in this life, and the seats.
fn new_words<R: AllocGlobal + Abort>(rt: &R, life: Life) -> (Words, QueueSeat, PassSeats)
    ensures size { result.0.size.irps ≡ 1 }
    ensures queue { result.1
        ≡ record { table = result.0.table; queue = new_queue life.0 3; joined = None } }
    ensures seats { result.2 ≡ new_seats result.0.table 1 3 }
{
    match Words::new_at(rt.alloc(), 1, 3, life) {
        Ok(made) => made,
        Err(_) => panic!(rt; "no words"),
    }
}

/// The next seat, if so many are left.
fn take_seat(rt: &impl Abort, seats: &mut PassSeats, left: u32) -> PassSeat
    ensures { seats.old ≡ result ∷ seats.new }
{
    assert!(rt; seats.left() == left);
    match seats.take() {
        Some(seat) => seat,
        None => panic!(rt; "no seat"),
    }
}

/// What a pass reads of the Cancel flag and of the status.
pub(super) fn read(words: &Words, pass: &mut PassSeat) -> ((Life, bool), Status)
    requires irp { 0 < words.now.size.irps }
    requires here { IsHere words.now.table pass.old }
    ensures here { IsHere words.now.table pass.new }
    ensures steps { (pass_record pass.new).steps ≡ (pass_record pass.old).steps }
{
    (pass.read_cancel(words, ZERO), pass.read_status(words, ZERO))
}

impl Case {
    /// The IRP is home, in this life.
    pub(super) fn begin<R: AllocGlobal + Abort>(rt: &R, life: Life) -> Case {
        let machine = new_machine(rt, life);
        let (words, queue, mut seats) = new_words(rt, life);
        let one = take_seat(rt, &mut seats, 3);
        let two = take_seat(rt, &mut seats, 2);
        let three = take_seat(rt, &mut seats, 1);
        Case {
            machine,
            words,
            queue,
            stage: Stage::Home,
            life,
            one,
            inserter: FREE,
            two,
            canceller: FREE,
            three,
            remover: FREE,
        }
    }

    /// A pass reads this life and Cancel flag, and this life and status.
    pub(super) fn find(&mut self, rt: &impl Abort, by: By, flag: (Life, bool), status: Status) {
        let (found_flag, found_status) = self.read(rt, by);
        assert!(rt; found_flag == flag);
        assert!(rt; found_status == status);
    }

    /// What a pass reads of the Cancel flag and of the status.
    fn read(&mut self, rt: &impl Abort, by: By) -> ((Life, bool), Status) {
        match by {
            By::Inserter => {
                let Hand::Here(_) = self.inserter else {
                    panic!(rt; "pass 1 is under the lock");
                };
                read(&self.words, &mut self.one)
            }
            By::Canceller => {
                let Hand::Here(_) = self.canceller else {
                    panic!(rt; "pass 2 is under the lock");
                };
                read(&self.words, &mut self.two)
            }
            By::Remover => {
                let Hand::Here(_) = self.remover else {
                    panic!(rt; "pass 3 is under the lock");
                };
                read(&self.words, &mut self.three)
            }
        }
    }
}
