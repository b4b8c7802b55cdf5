//! Schedules, drawn: up to the first step that the protocol refuses by their execution, and from there on, if the drawing
//! goes on, by the two words of each IRP alone.
ghost use Rattle.std.specs.Prelude.{◌≡◌, ◌<◌, ◌≤◌, ◌∷◌, ◌++◌, [], ℕ, List, None, Option, Some, length, replicate, string_bytes, IfOk, OnOk};
ghost use Rattle.std.specs.Option.{option_map};
ghost use Rattle.irp_core.specs.MachineState.{size_of};
ghost use Rattle.irp_core.specs.Runs.{Size, OfIrp, IsInLimits};
ghost use Rattle.irp_core.specs.Steps.{number};
ghost use Rattle.csq_explain.specs.declared.line_steps.LineStep.{LineStep as LineStepOf};
ghost use Rattle.csq_explain.specs.declared.word_values.WordValues.{WordValues};
ghost use Rattle.csq_explain.specs.LineSteps.{by_words};
ghost use Rattle.csq_explain.specs.Orders.{irps_in, OrderStands};
ghost use Rattle.csq_draw.specs.Drawings.{Drawn, DrawingStands, EndsAs, Grew, NotesStep, StandsInView, drawn_shown, new_drawn, owner_in};
ghost use Rattle.csq_draw.specs.Refusals.{first_refusal, legality_of};
ghost use Rattle.csq_draw.specs.Elements.{Drew};
ghost use Rattle.csq_draw.specs.Irps.{irps_after, new_irp};
ghost use Rattle.csq_draw.specs.Pictures.{EndShown, elements_of, end_of, seen, shown_by, stopped_end};
ghost use Rattle.csq_draw.specs.Words.{AreWordsNamed};
ghost use Rattle.csq_draw.specs.WrongRows.{wrong_row};

use crate::canvas::Canvas;
use crate::caption::Caption;
use crate::ending::{PictureEnd, rest_of};
use crate::irps::{IrpNow, irps_after};
use crate::lives::past_lives;
use crate::marks::Legality;
use crate::owners::{Owner, ended_by, new_owners, note_owner, owner_in};
use crate::page::Page;
use crate::passes::{lock_at, lock_of};
use crate::refusals::{FirstRefusal, first_refusal, legality_of, noted_step};
use crate::rows::{Row, count};
use crate::sheet::{Sheet, draw_seen};
use crate::view::PictureView;
use crate::words::words_named;
use crate::wrong_rows::{shown_makers, wrong_row};
use csq_explain::{Execution, Explained, LineStep, Order, PassNow, Reason, StepInCall};
use csq_replay::{Answerer, Line};
use irp_core::{Kind, PassId, Step, StepRefused};
use std::alloc::{AllocError, Allocator};

/// The caption of a schedule, its execution, the order of all its steps, their rows, what is known of each IRP's owner,
/// and the first refused step. Up to that the rows are those of the execution, and from there on they go by the words.
#[derive(Drop)]
pub struct Drawing<A: Allocator> {
    pub(crate) alloc: A,
    pub(crate) view: PictureView,
    pub(crate) caption: Caption<A>,
    pub(crate) execution: Execution<A>,
    pub(crate) order: Order<A>,
    pub(crate) rows: Vec<Row, A>,
    pub(crate) owners: Vec<Option<Owner>, A>,
    pub(crate) refusal: Option<FirstRefusal>,
}

impl<A: Allocator + Copy> Drawing<A> {
    /// The drawing before the first line of a schedule of IRPs 0 to `irps` - 1 and passes 1 to `passes`. Refused if
    /// there is too little memory. Own rule.
    pub fn new(
        alloc: A,
        irps: u32,
        passes: u32,
        view: PictureView,
    ) -> Result<Drawing<A>, AllocError>
        requires { IsInLimits (record { irps = irps; passes = passes; first = 0 }) }
        ensures { IfOk result (λ drawing. StandsInView drawing
            (record { irps = irps; passes = passes; first = 0 }, view) new_drawn) }
    {
        Ok(Drawing {
            alloc,
            view,
            caption: Caption::new(alloc),
            execution: Execution::new(alloc, irps, passes)?,
            order: Order::new(alloc, irps)?,
            rows: Vec::new(alloc),
            owners: new_owners(alloc, irps as usize)?,
            refusal: None,
        })
    }

    /// Notes a step of the execution, which this line names, and before which this pass had the lock, while the protocol
    /// is kept. It ends the caption.
    fn note_kept(
        &mut self,
        line: usize,
        step: StepInCall,
        held: Option<PassId>,
    ) -> Result<(), AllocError>
        requires owner { OfIrp (λ i. number i < length self.old.owners.items) step.made.kind }
        requires irp { OfIrp (λ i. number i < (size_of self.old.execution.machine).irps)
            step.made.kind }
        requires order { OfIrp (λ i. number i < irps_in self.old.order) step.made.kind }
        ensures noted { OnOk result ((words : Option WordValues)
            × AreWordsNamed self.old.execution.machine step.made.kind
            (owner_in self.new.owners.items step.made.kind) words
            × NotesStep self.old.rows.items self.old.owners.items line step held words
            self.new.rows.items self.new.owners.items) }
        ensures order { OnOk result ((irps : ℕ) (V : List LineStepOf) → OrderStands self.old.order irps V
            → OrderStands self.new.order irps (record { line = line; made = step.made } ∷ V)) }
        ensures execution { self.new.execution ≡ self.old.execution }
        ensures refusal { self.new.refusal ≡ self.old.refusal }
        ensures view { self.new.view ≡ self.old.view }
    {
        let row = count(self.rows.len())?;
        let made = step.made;
        let lock = lock_at(held, made);
        let ended = ended_by(made.kind, owner_in(&self.owners, made.kind));
        note_owner(&mut self.owners, made, row);
        let owner = owner_in(&self.owners, made.kind);
        let words = words_named(&self.execution.machine, made.kind, owner);
        self.order.add(LineStep { line, made })?;
        self.rows.push(Row {
            row,
            line,
            step,
            legality: Legality::Legal,
            lock,
            ended,
            words,
        })?;
        self.caption.end();
        Ok(())
    }

    /// Notes a step from the refused one on, by the words.
    fn note_by_words(
        &mut self,
        line: usize,
        pass: PassId,
        kind: Kind,
        legality: Legality,
    ) -> Result<(), AllocError>
        requires { OfIrp (λ i. number i < irps_in self.old.order) kind }
        ensures order { OnOk result ((irps : ℕ) (V : List LineStepOf) → OrderStands self.old.order irps V
            → OrderStands self.new.order irps (by_words V line pass kind ∷ V)) }
        ensures rows { OnOk result ((irps : ℕ) (V : List LineStepOf) → OrderStands self.old.order irps V
            → self.new.rows.items ≡ self.old.rows.items
            ++ wrong_row V (length self.old.rows.items) (by_words V line pass kind) legality ∷ []) }
        ensures execution { self.new.execution ≡ self.old.execution }
        ensures owners { self.new.owners ≡ self.old.owners }
        ensures refusal { self.new.refusal ≡ self.old.refusal }
        ensures view { self.new.view ≡ self.old.view }
    {
        let number = count(self.rows.len())?;
        let step = self.order.by_words(line, pass, kind);
        let row = wrong_row(&self.order, number, step, legality);
        self.order.add(step)?;
        self.rows.push(row)?;
        Ok(())
    }

    /// Notes a step that the execution refuses. It ends the caption.
    fn note_refused(
        &mut self,
        line: usize,
        step: Step,
        cause: StepRefused,
        reason: Reason,
    ) -> Result<(), AllocError>
        requires { OfIrp (λ i. number i < irps_in self.old.order) step.kind }
        ensures order { OnOk result ((irps : ℕ) (V : List LineStepOf) → OrderStands self.old.order irps V
            → OrderStands self.new.order irps (by_words V line step.pass step.kind ∷ V)) }
        ensures rows { OnOk result ((irps : ℕ) (V : List LineStepOf) → OrderStands self.old.order irps V
            → self.new.rows.items ≡ self.old.rows.items
            ++ wrong_row V (length self.old.rows.items) (by_words V line step.pass step.kind)
            (legality_of self.old.refusal cause) ∷ []) }
        ensures refusal { OnOk result (self.new.refusal ≡ Some (first_refusal self.old.refusal
            (record { line = line; row = length self.old.rows.items; reason = reason }))) }
        ensures execution { self.new.execution ≡ self.old.execution }
        ensures owners { self.new.owners ≡ self.old.owners }
        ensures view { self.new.view ≡ self.old.view }
    {
        let row = count(self.rows.len())?;
        let legality = legality_of(self.refusal, cause);
        self.refusal = Some(first_refusal(self.refusal, FirstRefusal { line, row, reason }));
        self.caption.end();
        self.note_by_words(line, step.pass, step.kind, legality)
    }

    /// What is known of each IRP after the rows.
    fn irps_now(&self) -> Result<Vec<IrpNow, A>, AllocError>
        ensures { IfOk result (λ irps. irps.items
            ≡ irps_after (replicate (length self.now.owners.items) new_irp) self.now.rows.items) }
    {
        irps_after(self.alloc, self.owners.len(), &self.rows)
    }

    /// The sheet of all rows, with these passes and what is known of the IRPs.
    fn sheet<'a>(&'a self, passes: &'a [PassNow], irps: &'a [IrpNow]) -> Sheet<'a>
        ensures passes { result.passes.now ≡ passes.now }
        ensures irps { result.irps.now ≡ irps.now }
        ensures rows { result.rows.now ≡ self.now.rows.items }
        ensures owners { result.owners.now ≡ self.now.owners.items }
        ensures refused { result.refused ≡ option_map (λ refusal. refusal.row) self.now.refusal }
    {
        Sheet {
            passes,
            irps,
            rows: &self.rows,
            owners: &self.owners,
            refused: self.refusal.map(|refusal| refusal.row),
        }
    }

    /// Draws what the view shows of the rows, after which this is known of the IRPs, and which end so.
    fn draw<C: Canvas>(
        &self,
        irps: &[IrpNow],
        ending: PictureEnd<'_>,
        out: &mut C,
    ) -> Result<(), AllocError>
        requires few { length self.now.execution.passes.items ≤ 65 }
        requires irps { length self.now.owners.items ≤ 1024 }
        requires known { irps.now
            ≡ irps_after (replicate (length self.now.owners.items) new_irp) self.now.rows.items }
        ensures { OnOk result ((size : Size) (d : Drawn) → DrawingStands self.now size d
            → Drew C.added (C.image out.old) (C.image out.new)
            (elements_of (seen self.now.view.window (drawn_shown size d d.refusal))
            (end_of ending.entry))) }
    {
        let passes = shown_makers(self.alloc, self.refusal, &self.execution.passes, &self.rows)?;
        let sheet = self.sheet(&passes, irps);
        draw_seen(self.alloc, self.view.window, sheet, ending, out)?;
        Ok(())
    }

    /// Draws the steps, and the line of this number, which ended the handling.
    fn draw_stop<C: Canvas>(
        &self,
        line: usize,
        reason: Reason,
        out: &mut C,
    ) -> Result<(), AllocError>
        requires few { length self.now.execution.passes.items ≤ 65 }
        requires irps { length self.now.owners.items ≤ 1024 }
        ensures { OnOk result ((size : Size) (d : Drawn) → DrawingStands self.now size d
            → Drew C.added (C.image out.old) (C.image out.new)
            (elements_of (seen self.now.view.window (drawn_shown size d d.refusal))
            (stopped_end line reason))) }
    {
        let irps = self.irps_now()?;
        self.draw(&irps, PictureEnd::Stopped(line, reason), out)
    }

    /// Draws the steps, which kept the protocol, and what is reported in the end.
    fn draw_kept<C: Canvas>(&self, out: &mut C) -> Result<(), AllocError>
        requires few { length self.now.execution.passes.items ≤ 65 }
        requires irps { length self.now.owners.items ≤ 1024 }
        ensures { OnOk result ((size : Size) (d : Drawn) → DrawingStands self.now size d
            → self.now.refusal ≡ None → (e : EndShown) × EndsAs size d None e
            × Drew C.added (C.image out.old) (C.image out.new)
            (elements_of (seen self.now.view.window (drawn_shown size d d.refusal)) e)) }
    {
        let closing = self.execution.close(self.alloc)?;
        let irps = self.irps_now()?;
        let lives = past_lives(self.alloc, &irps, &self.rows)?;
        let rest = rest_of(&self.execution.passes, closing.rest);
        let ending = PictureEnd::Closed(&irps, &lives, &closing.reported, rest);
        self.draw(&irps, ending, out)?;
        Ok(())
    }

    /// Draws the order, which broke the protocol so, and what goes wrong.
    fn draw_broken<C: Canvas>(&self, refusal: FirstRefusal, out: &mut C) -> Result<(), AllocError>
        requires few { length self.now.execution.passes.items ≤ 65 }
        requires irps { length self.now.owners.items ≤ 1024 }
        ensures { OnOk result ((size : Size) (d : Drawn) → DrawingStands self.now size d
            → (e : EndShown) × EndsAs size d (Some refusal) e
            × Drew C.added (C.image out.old) (C.image out.new)
            (elements_of (seen self.now.view.window (drawn_shown size d d.refusal)) e)) }
    {
        let harms = self.order.harms(self.alloc)?;
        let irps = self.irps_now()?;
        let FirstRefusal { line, reason, .. } = refusal;
        self.draw(&irps, PictureEnd::Broken(line, reason, &harms), out)?;
        Ok(())
    }

    /// Draws the steps, and how they end: what is reported, or what goes wrong.
    fn draw_end<C: Canvas>(&self, out: &mut C) -> Result<(), AllocError>
        requires few { length self.now.execution.passes.items ≤ 65 }
        requires irps { length self.now.owners.items ≤ 1024 }
        ensures { OnOk result ((size : Size) (d : Drawn) → DrawingStands self.now size d
            → (e : EndShown) × EndsAs size d self.now.refusal e
            × Drew C.added (C.image out.old) (C.image out.new)
            (elements_of (seen self.now.view.window (drawn_shown size d d.refusal)) e)) }
    {
        match self.refusal {
            Some(refusal) => self.draw_broken(refusal, out),
            None => self.draw_kept(out),
        }
    }

    /// An empty page of the form that is asked for.
    fn page(&self) -> Page<'_, A> {
        Page::new(self.alloc, self.view.format, &self.caption)
    }

    /// Adds the picture of the steps and of the line of this number, which ended the handling.
    fn write_stop(
        &self,
        line: usize,
        reason: Reason,
        text: &mut String<A>,
    ) -> Result<(), AllocError>
        requires few { length self.now.execution.passes.items ≤ 65 }
        requires irps { length self.now.owners.items ≤ 1024 }
        ensures { OnOk result (Grew (string_bytes text.old) (string_bytes text.new)) }
    {
        let mut page = self.page();
        self.draw_stop(line, reason, &mut page)?;
        page.add_to(text)
    }

    /// Adds the picture of the steps, and of how they end.
    fn write_end(&self, text: &mut String<A>) -> Result<(), AllocError>
        requires few { length self.now.execution.passes.items ≤ 65 }
        requires irps { length self.now.owners.items ≤ 1024 }
        ensures { OnOk result (Grew (string_bytes text.old) (string_bytes text.new)) }
    {
        let mut page = self.page();
        self.draw_end(&mut page)?;
        page.add_to(text)
    }
}

impl<A: Allocator + Copy> Answerer<A, Reason> for Drawing<A> {
    ghost use Rattle.csq_explain.specs.Executions.{StopsFor};
    ghost use Rattle.csq_draw.specs.declared.view.PictureView.{PictureView as ViewOf};
    ghost use Rattle.csq_draw.specs.Drawings.{NotesLine};

    ghost Kind = { Size × ViewOf };

    ghost State = { Drawn };

    ghost stands = { λ drawing k d. StandsInView drawing k d };

    ghost answers = { λ k d. NotesLine k.0 k.1.wrong d };

    ghost stops = { λ k d. StopsFor k.0 d.own };

    ghost closes = { λ k d text. Unit {0} };

    fn answer_line(
        &mut self,
        line: Line<'_>,
        text: &mut String<A>,
    ) -> Result<Option<Reason>, AllocError> {
        let held = lock_of(&self.execution.passes);
        match self.execution.handle(line) {
            Explained::Skipped => {
                self.caption.note(self.alloc, line.bytes)?;
                Ok(None)
            }
            Explained::Accepted(step) => match self.refusal {
                None => {
                    self.note_kept(line.number, step, held)?;
                    Ok(None)
                }
                Some(_) => {
                    let made = step.made;
                    self.note_by_words(line.number, made.pass, made.kind, Legality::Later)?;
                    Ok(None)
                }
            },
            Explained::Stopped(reason) => match noted_step(self.view.wrong, reason.stop) {
                Some((step, cause)) => {
                    self.note_refused(line.number, step, cause, reason)?;
                    Ok(None)
                }
                None => {
                    self.write_stop(line.number, reason, text)?;
                    Ok(Some(reason))
                }
            },
        }
    }

    fn close(&self, text: &mut String<A>) -> Result<(), AllocError> {
        self.write_end(text)?;
        Ok(())
    }
}
