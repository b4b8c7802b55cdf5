//! What holds of every picture. Each function stands for a law: its contract is the law, and there is
//! nothing to run.
ghost use Rattle.std.specs.Prelude.{ℕ, List};
ghost use Rattle.irp_core.specs.declared.step.Made.{Made};
ghost use Rattle.irp_core.specs.Runs.{Size, EachRunFrom};
ghost use Rattle.csq_replay.specs.Schedule.{Numbered};
ghost use Rattle.csq_draw.specs.declared.view.Window.{Window};
ghost use Rattle.csq_draw.specs.declared.refusals.FirstRefusal.{FirstRefusal};
ghost use Rattle.csq_draw.specs.Drawings.{Drawn};
ghost use Rattle.csq_draw.specs.Laws.{EachStepHasOneMark, EachStepShowsItsWords, EachLineHasItsNumber, EachShadeIsOfTheLock, EachArrowIsFromTheWrite, EachBarShowsTheWords, EachStepOfAnOrderHasOneMark, EachShownStepHasOneMark, EachPassHasItsColumn, EachShownPassHasItsColumn, EachIrpHasItsPlace, TheShadedPassHasTheLock, EachDrawnOwnerOwesOrHolds, NoTwoLinesShareALane, TheNinthLaneIsLast};

/// The marks of a picture are one for each step of its run, in order, each on the row of its number and in
/// the column of its pass, with the value that it found.
pub fn each_step_has_one_mark()
    ensures { (size : Size) (W : List Numbered) → EachStepHasOneMark size W }
{}

/// At the right of each step of an IRP stand the two words of that IRP after it, in its present life: by the run,
/// whether its Cancel flag and its cancel routine are set. A step of no IRP has none.
pub fn each_step_shows_its_words()
    ensures { (size : Size) (W : List Numbered) → EachStepShowsItsWords size W }
{}

/// At the left of each step stands the number of its line, and of the line that ended the handling its own.
pub fn each_line_has_its_number()
    ensures { (size : Size) (W : List Numbered) → EachLineHasItsNumber size W }
{}

/// A shade stands behind a step where a pass has the lock as it is made, in the column of that pass, and
/// nowhere else. It is the last of its time where the step lets the lock go.
pub fn each_shade_is_of_the_lock()
    ensures { (size : Size) (W : List Numbered) → EachShadeIsOfTheLock size W }
{}

/// Of every run, an arrow runs to each step that found a word set, from the step that set it, if that was another
/// pass's: the newest step before it that changed the word. There are no other arrows.
pub fn each_arrow_is_from_the_write()
    ensures { (size : Size) (W : List Numbered) → EachArrowIsFromTheWrite size W }
{}

/// Of every run, in the whole picture, a pair of bars runs from each step of an IRP to its next step, or to the end if
/// there is none, and shows the two words of that IRP after the step that it runs from, in its present life, by the
/// run. There are no other bars.
pub fn each_bar_shows_the_words()
    ensures { (size : Size) (W : List Numbered) → EachBarShowsTheWords size W }
{}

/// In a picture of an order that broke the protocol each step up to the refusal has the mark that it has in the picture
/// of any schedule with these columns, and each row from the refused step on has exactly one mark.
pub fn each_step_of_an_order_has_one_mark()
    ensures { (size : Size) (d : Drawn) (refusal : FirstRefusal)
        → EachStepOfAnOrderHasOneMark size d refusal }
{}

/// In a window the marks of a picture are one for each step that the window shows, in order, from the first row on, with
/// the value that it found.
pub fn each_shown_step_has_one_mark()
    ensures { (size : Size) (W : List Numbered) (w : Window) → EachShownStepHasOneMark size W w }
{}

/// Passes that made a step of the run have columns of their own, in the order of their numbers.
pub fn each_pass_has_its_column()
    ensures { (size : Size) (W : List Numbered) → EachPassHasItsColumn size W }
{}

/// In a window just those passes have columns that it shows, in the order of their numbers: those that make a step there,
/// have the lock at one, or owe or hold an IRP.
pub fn each_shown_pass_has_its_column()
    ensures { (size : Size) (W : List Numbered) (w : Window)
        → EachShownPassHasItsColumn size W w }
{}

/// IRPs that a step of the run names have places of their own at the right, in the order of their numbers.
pub fn each_irp_has_its_place()
    ensures { (size : Size) (W : List Numbered) → EachIrpHasItsPlace size W }
{}

/// Of every run, the pass whose column is shaded behind a step is the one that has the lock as it is made:
/// the pass that makes it, if it needs the lock, and otherwise the pass that has the lock before it.
pub fn the_shaded_pass_has_the_lock()
    ensures { (size : Size) (W : List Numbered) → TheShadedPassHasTheLock size W }
{}

/// Of every run, the pass that is drawn as owing an IRP after it is the one that owes the IRP by the run, in
/// the IRP's present life, and the pass that is drawn as holding it the one that holds it; if none is
/// drawn, none owes or holds it.
pub fn each_drawn_owner_owes_or_holds()
    ensures { EachRunFrom EachDrawnOwnerOwesOrHolds }
{}

/// The lines of two IRPs that a pass owes or holds at one time run in lanes of their own, or both in the ninth.
/// A line begins in the ninth lane only if the pass has one in each of the eight others.
pub fn no_two_lines_share_a_lane()
    ensures apart { (irps : ℕ) (E : List Made) → NoTwoLinesShareALane irps E }
    ensures last { (irps : ℕ) (E : List Made) → TheNinthLaneIsLast irps E }
{}
