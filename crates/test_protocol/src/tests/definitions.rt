//! What may follow a run, by the definitions alone: each question looks at the list of steps, oldest
//! first, and nothing is kept beside it. It is slow, and shares no code with the machine.
ghost use Rattle.std.specs.Prelude.{◌≤◌, length, IfSome};

use irp_core::{IrpId, IrpLife, IrpPlace, Kind, Life, Made, NtStatus, PassId, Step, StepRefused};
use std::process::Abort;

/// How many IRPs and passes there are, and the life in which all IRPs begin.
#[derive(Clone, Copy)]
pub(super) struct Size {
    pub(super) irps: u32,
    pub(super) passes: u32,
    pub(super) first: u32,
}

/// Adds a step to a list.
pub(super) fn push(rt: &impl Abort, steps: &mut Vec<Made>, made: Made) {
    if steps.push(made).is_err() {
        panic!(rt; "no memory");
    }
}

/// The IRP in its present life: the first one, and one more for each Renew.
pub(super) fn present(run: &[Made], first: u32, irp: IrpId) -> IrpLife {
    let mut life = first;
    for made in run {
        if matches!(made.kind, Kind::Renew(renewed) if renewed.irp == irp) {
            life = life.saturating_add(1);
        }
    }
    IrpLife {
        irp,
        life: Life(life),
    }
}

/// Whether a step of this kind was made.
pub(super) fn has(run: &[Made], kind: Kind) -> bool {
    for made in run {
        if made.kind == kind {
            return true;
        }
    }
    false
}

/// Whether the IRP's routine is set: of the steps that exchange it the last is an Arm or a Rearm.
fn is_armed(run: &[Made], irp: IrpLife) -> bool {
    let mut armed = false;
    for made in run {
        if made.kind == Kind::Arm(irp) || made.kind == Kind::Rearm(irp) {
            armed = true;
        }
        if made.kind == Kind::Disarm(irp) || made.kind == Kind::Take(irp) {
            armed = false;
        }
    }
    armed
}

/// Whether the step takes the IRP out of the list.
fn delists(made: &Made, irp: IrpLife) -> bool {
    made.kind == Kind::Out(irp) || (made.kind == Kind::Disarm(irp) && made.found == 1)
}

/// Whether the pass took the IRP's routine by a cancel, and hasn't taken the IRP out since.
fn owes(run: &[Made], pass: PassId, irp: IrpLife) -> bool {
    let mut owes = false;
    for made in run {
        if made.pass == pass && made.kind == Kind::Take(irp) && made.found == 1 {
            owes = true;
        }
        if made.pass == pass && made.kind == Kind::Out(irp) {
            owes = false;
        }
    }
    owes
}

/// Whether the IRP's cancel routine took it out of the list, or its insert or a put-back found the flag. What
/// a pass holds otherwise it got by a removal.
fn is_cancelled(run: &[Made], irp: IrpLife) -> bool {
    for made in run {
        if made.kind == Kind::Out(irp) || (made.kind == Kind::Test(irp) && made.found == 1) {
            return true;
        }
    }
    false
}

/// The status with which the IRP is completed.
fn final_status(run: &[Made], irp: IrpLife) -> NtStatus {
    if is_cancelled(run, irp) {
        NtStatus::CANCELLED
    } else {
        NtStatus::SUCCESS
    }
}

/// Where the IRP is after the run.
pub(super) fn place(run: &[Made], irp: IrpLife) -> IrpPlace {
    let mut place = IrpPlace::Home;
    for made in run {
        if made.kind == Kind::Arm(irp) || made.kind == Kind::Rearm(irp) {
            place = IrpPlace::Listed;
        }
        if delists(made, irp) {
            place = IrpPlace::HeldBy(made.pass);
        }
        if made.kind == Kind::Done(irp) {
            place = IrpPlace::Completed(final_status(run, irp), made.pass);
        }
    }
    place
}

/// The steps of a pass, in their order.
fn word(rt: &(impl Abort + AllocGlobal), run: &[Made], pass: PassId) -> Vec<Made> {
    let mut own = Vec::new(rt.alloc());
    for made in run {
        if made.pass == pass {
            push(rt, &mut own, *made);
        }
    }
    own
}

/// The length of the removal that the word begins with, if that is whole.
fn removal_len(word: &[Made]) -> Option<usize>
    ensures { IfSome result (λ len. len ≤ length word.now) }
{
    for (n, made) in word.iter().enumerate() {
        match made.kind {
            Kind::Disarm(_) if made.found == 0 => {}
            Kind::Disarm(_) | Kind::End => return Some(n + 1),
            _ => return None,
        }
    }
    None
}

/// The length of the insert or put-back that the word begins with, if that is whole.
fn insert_len(irp: IrpLife, word: &[Made]) -> Option<usize>
    ensures { IfSome result (λ len. len ≤ length word.now) }
{
    match word {
        [_, test, ..] if test.kind == Kind::Test(irp) && test.found == 0 => Some(2),
        [_, test, disarm, ..]
            if test.kind == Kind::Test(irp)
                && test.found == 1
                && disarm.kind == Kind::Disarm(irp) => { Some(3) }
        _ => None,
    }
}

/// The length of the program that the word begins with, if that is whole.
fn program_len(word: &[Made]) -> Option<usize>
    ensures { IfSome result (λ len. len ≤ length word.now) }
{
    match word.first()?.kind {
        Kind::Arm(irp) | Kind::Rearm(irp) => insert_len(irp, word),
        Kind::Disarm(_) | Kind::End => removal_len(word),
        Kind::Flag(irp) => match word {
            [_, take, ..] if take.kind == Kind::Take(irp) => Some(2),
            _ => None,
        },
        Kind::Out(_) | Kind::Done(_) | Kind::Renew(_) => Some(1),
        Kind::Test(_) | Kind::Take(_) => None,
    }
}

/// What follows the whole program that the word begins with.
fn after_program(word: &[Made]) -> Option<&[Made]> {
    let len = program_len(word)?;
    Some(&word[len..])
}

/// Whether the word is exchanges of a removal that found no routine, or empty.
fn is_missing(word: &[Made]) -> bool {
    for made in word {
        if !matches!(made.kind, Kind::Disarm(_)) || made.found != 0 {
            return false;
        }
    }
    true
}

/// Whether the word is the beginning of a program, and not the whole.
fn is_begun(word: &[Made]) -> bool {
    match word {
        [first] if matches!(first.kind, Kind::Arm(_) | Kind::Rearm(_) | Kind::Flag(_)) => true,
        [set, test]
            if matches!(set.kind, Kind::Arm(irp) | Kind::Rearm(irp) if test.kind == Kind::Test(irp)) =>
            { test.found == 1 }
        misses => is_missing(misses),
    }
}

/// What a pass's steps are, in the end.
#[derive(Clone, Copy, PartialEq, Eq)]
enum Ending {
    /// Whole programs.
    Whole,
    /// Whole programs and a begun one, which begins with a step of this kind.
    Begun(Kind),
    /// Neither.
    Broken,
}

/// What the word is in the end.
fn ending_of(word: &[Made]) -> Ending {
    let mut rest = word;
    for _ in 0..word.len() {
        let Some(after) = after_program(rest) else {
            break;
        };
        rest = after;
    }
    match rest.first() {
        None => Ending::Whole,
        Some(first) => {
            if is_begun(rest) {
                Ending::Begun(first.kind)
            } else {
                Ending::Broken
            }
        }
    }
}

/// What the pass's steps are in the end.
fn end_of(rt: &(impl Abort + AllocGlobal), run: &[Made], pass: PassId) -> Ending {
    ending_of(word(rt, run, pass).as_slice())
}

/// A pass beside this one that has the lock: it is inside an insert, a removal or a put-back.
fn other_holder(
    rt: &(impl Abort + AllocGlobal),
    size: Size,
    run: &[Made],
    pass: PassId,
) -> Option<PassId> {
    for number in 1..=size.passes {
        let other = PassId(number);
        let end = end_of(rt, run, other);
        if other != pass
            && matches!(
                end,
                Ending::Begun(Kind::Arm(_) | Kind::Disarm(_) | Kind::Rearm(_))
            )
        {
            return Some(other);
        }
    }
    None
}

/// The IRP and life that such a step names.
fn named(kind: Kind) -> Option<IrpLife> {
    match kind {
        Kind::Arm(irp) | Kind::Test(irp) | Kind::Disarm(irp) | Kind::Flag(irp) => Some(irp),
        Kind::Take(irp) | Kind::Out(irp) | Kind::Done(irp) | Kind::Renew(irp) => Some(irp),
        Kind::Rearm(irp) => Some(irp),
        Kind::End => None,
    }
}

/// What a step of this kind finds.
pub(super) fn found(run: &[Made], kind: Kind) -> u64 {
    match kind {
        Kind::Arm(irp) | Kind::Disarm(irp) | Kind::Take(irp) | Kind::Rearm(irp) => {
            u64::from(is_armed(run, irp))
        }
        Kind::Test(irp) | Kind::Flag(irp) => u64::from(has(run, Kind::Flag(irp))),
        Kind::End | Kind::Out(_) | Kind::Done(_) | Kind::Renew(_) => 0,
    }
}

/// What the present life lacks for a next one.
fn end_refusal(run: &[Made], irp: IrpLife) -> Option<StepRefused> {
    if !has(run, Kind::Done(irp)) {
        return Some(StepRefused::NotCompleted);
    }
    if irp.life.0 >= 1_073_741_823 {
        return Some(StepRefused::LivesSpent);
    }
    None
}

/// What the step's IRP lacks for it.
fn irp_refusal(run: &[Made], first: u32, step: Step) -> Option<StepRefused> {
    match step.kind {
        Kind::Arm(irp) if has(run, Kind::Arm(irp)) => Some(StepRefused::NotHome),
        Kind::Disarm(irp) if place(run, irp) != IrpPlace::Listed => Some(StepRefused::NotListed),
        Kind::Out(irp) if !owes(run, step.pass, irp) => Some(StepRefused::NotOwed),
        Kind::Done(irp) | Kind::Rearm(irp) if place(run, irp) != IrpPlace::HeldBy(step.pass) => {
            Some(StepRefused::NotHeld)
        }
        Kind::Rearm(irp) if is_cancelled(run, irp) => Some(StepRefused::NotHeld),
        Kind::Arm(irp) | Kind::Flag(irp) | Kind::Renew(irp) => {
            let present = present(run, first, irp.irp);
            if irp != present {
                return Some(StepRefused::Stale(present.life));
            }
            if step.kind == Kind::Renew(irp) {
                return end_refusal(run, irp);
            }
            None
        }
        _ => None,
    }
}

/// The first cause against a step after a run; `longer` is the run and the step.
pub(super) fn refusal(
    rt: &(impl Abort + AllocGlobal),
    size: Size,
    run: &[Made],
    longer: &[Made],
    step: Step,
) -> Option<StepRefused> {
    let Step { pass, kind } = step;
    if let Some(name) = named(kind)
        && name.irp.0 >= size.irps
    {
        return Some(StepRefused::UnknownIrp);
    }
    if pass.0 < 1 || pass.0 > size.passes {
        return Some(StepRefused::UnknownPass);
    }
    if !matches!(kind, Kind::Flag(_) | Kind::Take(_) | Kind::Done(_))
        && let Some(holder) = other_holder(rt, size, run, pass)
    {
        return Some(StepRefused::LockHeld(holder));
    }
    if end_of(rt, longer, pass) == Ending::Broken {
        return Some(StepRefused::NotNext);
    }
    irp_refusal(run, size.first, step)
}

/// Whether the pass owes and holds none of the IRPs that its steps name.
fn has_none(run: &[Made], pass: PassId) -> bool {
    for made in run {
        if let Some(irp) = named(made.kind)
            && (owes(run, pass, irp) || place(run, irp) == IrpPlace::HeldBy(pass))
        {
            return false;
        }
    }
    true
}

/// Whether every pass is inside no program, and owes and holds nothing.
pub(super) fn is_at_rest(rt: &(impl Abort + AllocGlobal), size: Size, run: &[Made]) -> bool {
    for number in 1..=size.passes {
        let pass = PassId(number);
        if end_of(rt, run, pass) != Ending::Whole || !has_none(run, pass) {
            return false;
        }
    }
    true
}
