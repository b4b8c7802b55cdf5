//! The machine beside the definitions, over every sequence of a few steps.
use super::definitions::{Size, found, has, is_at_rest, place, present, push, refusal};
use irp_core::{IrpId, IrpLife, Kind, Life, Machine, Made, PassId, Step};
use std::process::Abort;

/// What is asked: the size, the lives that steps name, and how long the sequences are.
#[derive(Clone, Copy)]
struct Question<'a> {
    size: Size,
    lives: &'a [u32],
    steps: usize,
}

/// How many kinds of step name an IRP.
const KINDS: u32 = 9;

/// One of these kinds.
fn kind_of(number: u32, irp: IrpLife) -> Kind {
    match number {
        0 => Kind::Arm(irp),
        1 => Kind::Test(irp),
        2 => Kind::Disarm(irp),
        3 => Kind::Flag(irp),
        4 => Kind::Take(irp),
        5 => Kind::Out(irp),
        6 => Kind::Done(irp),
        7 => Kind::Renew(irp),
        _ => Kind::Rearm(irp),
    }
}

fn machine_of<R: Abort + AllocGlobal>(rt: &R, size: Size) -> Machine {
    match Machine::new_at(rt.alloc(), size.irps, size.passes, Life(size.first)) {
        Ok(machine) => machine,
        Err(_) => panic!(rt; "no machine"),
    }
}

/// The machine shows what the definitions say of the run.
fn compare_state(rt: &(impl Abort + AllocGlobal), machine: &Machine, size: Size, run: &[Made]) {
    for number in 0..size.irps {
        let irp = IrpId(number);
        let now = present(run, size.first, irp);
        assert!(rt; machine.life(irp) == Some(now.life), "{run:?}");
        assert!(rt; machine.place(irp) == Some(place(run, now)), "{run:?}");
        assert!(rt;
            machine.cancelled(irp) == has(run, Kind::Flag(now)),
            "{run:?}"
        );
    }
    assert!(rt; machine.at_rest() == is_at_rest(rt, size, run), "{run:?}");
}

/// The machine accepts or refuses the last step of the longer run as the definitions say. Returns whether it
/// accepts it.
fn compare(
    rt: &(impl Abort + AllocGlobal),
    machine: &mut Machine,
    size: Size,
    run: &[Made],
    longer: &[Made],
    last: Made,
) -> bool {
    for made in run {
        let step = Step {
            pass: made.pass,
            kind: made.kind,
        };
        assert!(rt; machine.step(step) == Ok(made.found), "{run:?}");
    }
    let step = Step {
        pass: last.pass,
        kind: last.kind,
    };
    let answer = machine.step(step);
    if let Some(cause) = refusal(rt, size, run, longer, step) {
        assert!(rt; answer == Err(cause), "{longer:?}");
        return false;
    }
    assert!(rt; answer == Ok(last.found), "{longer:?}");
    compare_state(rt, machine, size, longer);
    true
}

/// Adds the run with this step to the longer ones, if it is one.
fn try_step(
    rt: &(impl Abort + AllocGlobal),
    size: Size,
    run: &[Made],
    step: Step,
    all: &mut Vec<Made>,
) {
    let Step { pass, kind } = step;
    let found = found(run, kind);
    let last = Made { pass, kind, found };
    let mut longer = Vec::new(rt.alloc());
    extend(rt, &mut longer, run);
    push(rt, &mut longer, last);
    let mut machine = machine_of(rt, size);
    if compare(rt, &mut machine, size, run, longer.as_slice(), last) {
        extend(rt, all, longer.as_slice());
    }
}

fn extend(rt: &impl Abort, steps: &mut Vec<Made>, more: &[Made]) {
    if steps.extend_from_slice(more).is_err() {
        panic!(rt; "no memory");
    }
}

/// Tries each step of a pass: of the IRPs in these lives and of one that is unknown.
fn try_steps(
    rt: &(impl Abort + AllocGlobal),
    question: Question<'_>,
    run: &[Made],
    pass: PassId,
    all: &mut Vec<Made>,
) {
    let size = question.size;
    let kind = Kind::End;
    try_step(rt, size, run, Step { pass, kind }, all);
    for number in 0..=size.irps {
        for life in question.lives {
            let irp = IrpLife {
                irp: IrpId(number),
                life: Life(*life),
            };
            for of_irp in 0..KINDS {
                let kind = kind_of(of_irp, irp);
                try_step(rt, size, run, Step { pass, kind }, all);
            }
        }
    }
}

/// The runs that one more step makes of these, which have this length. They stand one behind the other. The
/// first and the last pass here are unknown.
fn lengthen(
    rt: &(impl Abort + AllocGlobal),
    question: Question<'_>,
    runs: &[Made],
    length: usize,
    count: usize,
) -> Vec<Made> {
    let mut all = Vec::new(rt.alloc());
    for number in 0..count {
        let start = number.saturating_mul(length);
        let run = runs.get(start..start.saturating_add(length)).unwrap_or(&[]);
        for pass in 0..=question.size.passes.saturating_add(1) {
            try_steps(rt, question, run, PassId(pass), &mut all);
        }
    }
    all
}

/// How many runs of so many steps there are. An enumeration in another language gives the same numbers.
fn count_runs(rt: &(impl Abort + AllocGlobal), question: Question<'_>) -> usize {
    let mut runs = Vec::new(rt.alloc());
    let mut count = 1;
    for length in 0..question.steps {
        runs = lengthen(rt, question, runs.as_slice(), length, count);
        count = runs
            .len()
            .checked_div(length.saturating_add(1))
            .unwrap_or(0);
    }
    count
}

fn expect_count(rt: &(impl Abort + AllocGlobal), question: Question<'_>, runs: usize) {
    assert_eq!(rt; count_runs(rt, question), runs);
}

#[test]
fn every_sequence_of_six_steps_is_as_defined(rt: HostRuntime) {
    let size = Size {
        irps: 2,
        passes: 2,
        first: 0,
    };
    let question = Question {
        size,
        lives: &[0],
        steps: 6,
    };
    expect_count(&rt, question, 33_892);
}

#[test]
fn every_sequence_of_an_irp_is_as_defined(rt: HostRuntime) {
    let size = Size {
        irps: 1,
        passes: 2,
        first: 0,
    };
    let question = Question {
        size,
        lives: &[0, 1],
        steps: 8,
    };
    expect_count(&rt, question, 89_032);
}

#[test]
fn every_sequence_of_the_last_lives_is_as_defined(rt: HostRuntime) {
    let size = Size {
        irps: 1,
        passes: 1,
        first: 1_073_741_822,
    };
    let question = Question {
        size,
        lives: &[1_073_741_821, 1_073_741_822, 1_073_741_823],
        steps: 10,
    };
    expect_count(&rt, question, 3_927);
}
