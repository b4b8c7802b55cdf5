//! What is left in the end of a script, and its closing lines.
ghost use Rattle.std.specs.Prelude.{◌≡◌, ◌<◌, ◌++◌, List, map, filter, string_bytes, IfOk, OnOk};
ghost use Rattle.irp_core.specs.declared.step.Made.{Made};
ghost use Rattle.irp_core.specs.MachineState.{Agrees, size_of};
ghost use Rattle.irp_core.specs.Lives.{present};
ghost use Rattle.csq_words.specs.Queue.{Limits};
ghost use Rattle.csq_replay.specs.Calls.{Script};
ghost use Rattle.csq_replay.specs.Drivers.{StandsAt, keeping};
ghost use Rattle.csq_replay.specs.ScriptAnswer.{numbers, left_line, named_line, left_lines, irps_below, is_kept, kept_name, AreLeft};

use crate::script::driver::Driver;
use csq_list::{Peek, PendingList};
use irp_core::IrpId;
use std::alloc::{AllocError, Allocator};

/// What is left in the end of a script: IRPs, each in its present life.
#[derive(Drop)]
pub struct Remains<A: Allocator> {
    /// What is listed, in the list's order.
    pub listed: Vec<IrpId, A>,
    /// What the pass holds, by rising number.
    pub held: Vec<IrpId, A>,
    /// What the pass owes, by rising number.
    pub owed: Vec<IrpId, A>,
}

/// How the pass may keep an IRP in its present life.
#[derive(Clone, Copy)]
pub enum Kept {
    /// It removed the IRP, and is to complete it.
    Held,
    /// It claimed the IRP by a mark, and is to run its cancel routine.
    Owed,
}

impl Kept {
    fn name(self) -> &'static str
        ensures { result.now ≡ kept_name self }
    {
        match self {
            Kept::Held => "held",
            Kept::Owed => "owed",
        }
    }
}

/// The listed IRPs, in the list's order.
fn listed_irps<L: PendingList, A: Allocator>(
    alloc: A,
    list: &L,
) -> Result<Vec<IrpId, A>, AllocError>
    ensures { IfOk result
        (λ irps. irps.items ≡ map (λ e. e.irp) (L.listing list.now).entries) }
{
    let mut irps = Vec::new(alloc);
    let mut after = None;
    while let Some(irp) = list.peek_next(after, Peek::Any) {
        irps.push(irp)?;
        after = Some(irp);
    }
    Ok(irps)
}

/// Whether the pass keeps the IRP so, in its present life.
fn is_kept<L: PendingList, A: Allocator>(driver: &Driver<L, A>, kept: Kept, irp: IrpId) -> bool
    requires { irp.0 < (size_of driver.now.machine).irps }
    ensures { (E : List Made) → Agrees driver.now.machine E
        → result ≡ is_kept kept E (present (size_of driver.now.machine).first E irp) }
{
    match kept {
        Kept::Held => driver.holds(irp),
        Kept::Owed => driver.owes(irp),
    }
}

/// The IRPs that the pass keeps so, by rising number.
fn kept_irps<L: PendingList, A: Allocator + Copy>(
    driver: &Driver<L, A>,
    kept: Kept,
) -> Result<Vec<IrpId, A>, AllocError>
    ensures { IfOk result (λ irps. (E : List Made) → Agrees driver.now.machine E
        → irps.items ≡ filter (λ n. is_kept kept E
        (present (size_of driver.now.machine).first E n))
        (irps_below (size_of driver.now.machine).irps)) }
{
    let mut irps = Vec::new(driver.alloc);
    for number in 0..driver.machine.irps() {
        let irp = IrpId(number);
        if is_kept(driver, kept, irp) {
            irps.push(irp)?;
        }
    }
    Ok(irps)
}

impl<L: PendingList, A: Allocator + Copy> Driver<L, A> {
    /// What is left after the calls so far. Refused if there is too little memory. Own rule.
    pub fn remains(&self) -> Result<Remains<A>, AllocError>
        ensures { IfOk result (λ remains. (l : Limits) (s : Script)
            → StandsAt l (keeping L.listing self.now) s
            → AreLeft l s remains.listed.items remains.held.items remains.owed.items) }
    {
        Ok(Remains {
            listed: listed_irps(self.alloc, &self.list)?,
            held: kept_irps(self, Kept::Held)?,
            owed: kept_irps(self, Kept::Owed)?,
        })
    }
}

/// The numbers of these IRPs, each after a space.
fn write_numbers<A: Allocator>(irps: &[IrpId], text: &mut String<A>) -> Result<(), AllocError>
    ensures { OnOk result (string_bytes text.new ≡ string_bytes text.old ++ numbers irps.now) }
{
    for irp in irps {
        write!(text, " {irp}")?;
    }
    Ok(())
}

/// Writes the closing line of what is listed. Refused if there is too little memory. Own rule.
pub fn write_left<A: Allocator>(irps: &[IrpId], text: &mut String<A>) -> Result<(), AllocError>
    ensures { OnOk result
        (string_bytes text.new ≡ string_bytes text.old ++ left_line irps.now) }
{
    if irps.is_empty() {
        return writeln!(text, "left none");
    }
    write!(text, "left")?;
    write_numbers(irps, text)?;
    writeln!(text)
}

/// Writes the closing line of what the pass keeps so; none if there is nothing. Refused if there is too
/// little memory. Own rule.
pub fn write_kept<A: Allocator>(
    kept: Kept,
    irps: &[IrpId],
    text: &mut String<A>,
) -> Result<(), AllocError>
    ensures { OnOk result (string_bytes text.new
        ≡ string_bytes text.old ++ named_line (kept_name kept) irps.now) }
{
    if irps.is_empty() {
        return Ok(());
    }
    text.push_str(kept.name())?;
    write_numbers(irps, text)?;
    writeln!(text)
}

impl<A: Allocator> Remains<A> {
    /// Writes the closing lines.
    pub fn write_lines(&self, text: &mut String<A>) -> Result<(), AllocError>
        ensures { OnOk result (string_bytes text.new ≡ string_bytes text.old
            ++ left_lines self.now.listed.items self.now.held.items self.now.owed.items) }
    {
        write_left(&self.listed, text)?;
        write_kept(Kept::Held, &self.held, text)?;
        write_kept(Kept::Owed, &self.owed, text)?;
        Ok(())
    }
}
