//! The circles of the two words of a step's IRP, at the right of its row, and what stands above them.
use crate::layout::{flag_x, routine_x, top};
use crate::marks::Mark;
use crate::words::{changes_flag, changes_routine};
use csq_explain::WordValues;
use irp_core::IrpId;
use std::fmt;

/// The names of the two words of an IRP over their columns, right of the columns of passes.
#[derive(Clone, Copy)]
pub(crate) struct WordColumns {
    pub(crate) columns: u32,
    pub(crate) place: u32,
    pub(crate) irp: IrpId,
}

impl fmt::Display for WordColumns {
    fn fmt<W: fmt::Write>(&self, f: &mut fmt::Formatter<W>) -> fmt::Result {
        let (flag, routine) = (
            flag_x(self.columns, self.place),
            routine_x(self.columns, self.place),
        );
        let (middle, irp) = (flag + 21, self.irp);
        write!(f, "<text class='o s' x='{middle}' y='16'>IRP {irp}</text>")?;
        write!(
            f,
            "<text class='o s' x='{flag}' y='29'>flag</text><text class='o s' x='{routine}' y='29'>routine</text>"
        )
    }
}

/// Whether a word is set.
pub(crate) fn word_text(set: bool) -> &'static str {
    if set { "set" } else { "clear" }
}

/// A circle is filled if its word is set, and bold if the step changed it.
fn circle_class(set: bool, changed: bool) -> &'static str {
    match (set, changed) {
        (true, true) => "on b",
        (true, false) => "on",
        (false, true) => "off b",
        (false, false) => "off",
    }
}

/// The circle of a word.
#[derive(Clone, Copy)]
struct Circle {
    x: u64,
    y: u64,
    class: &'static str,
}

impl fmt::Display for Circle {
    fn fmt<W: fmt::Write>(&self, f: &mut fmt::Formatter<W>) -> fmt::Result {
        let Circle { x, y, class } = *self;
        write!(f, "<circle class='{class}' cx='{x}' cy='{y}' r='7'/>")
    }
}

/// The life that an IRP is in after a step that names another one, or ends it, below its circles.
#[derive(Clone, Copy)]
struct OtherLife(Mark, WordValues);

/// As `now 0@1`, or nothing after a step of the IRP's present life.
impl fmt::Display for OtherLife {
    fn fmt<W: fmt::Write>(&self, f: &mut fmt::Formatter<W>) -> fmt::Result {
        let OtherLife(mark, words) = *self;
        match mark.step.made.kind.name() {
            Some(named) if named.life.0 != words.name.life.0 => {
                let x = flag_x(mark.columns, mark.place) + 21;
                let y = top(mark.row) + 52;
                let name = words.name;
                write!(f, "<text class='o s' x='{x}' y='{y}'>now {name}</text>")
            }
            _ => Ok(()),
        }
    }
}

/// The circle of the Cancel flag, with this value after the step of a mark.
fn flag_circle(mark: Mark, set: bool) -> Circle {
    let made = mark.step.made;
    Circle {
        x: flag_x(mark.columns, mark.place),
        y: top(mark.row) + 30,
        class: circle_class(set, changes_flag(made.kind, made.found)),
    }
}

/// The circle of the cancel routine.
fn routine_circle(mark: Mark, set: bool) -> Circle {
    let made = mark.step.made;
    Circle {
        x: routine_x(mark.columns, mark.place),
        y: top(mark.row) + 30,
        class: circle_class(set, changes_routine(made.kind, made.found)),
    }
}

/// The circles of a mark, in the colour of its IRP, if its step names one.
#[derive(Clone, Copy)]
pub(crate) struct Circles(pub(crate) Mark);

impl fmt::Display for Circles {
    fn fmt<W: fmt::Write>(&self, f: &mut fmt::Formatter<W>) -> fmt::Result {
        let mark = self.0;
        let Some(words) = mark.words else {
            return Ok(());
        };
        let (name, colour) = (words.name, words.name.irp.0 % 8);
        let (flag, routine) = (word_text(words.flag), word_text(words.routine));
        write!(
            f,
            "<g class='k{colour}'><title>IRP {name}: the Cancel flag is {flag}, the cancel routine is {routine}</title>"
        )?;
        let (flag, routine) = (
            flag_circle(mark, words.flag),
            routine_circle(mark, words.routine),
        );
        let life = OtherLife(mark, words);
        write!(f, "{flag}{routine}{life}</g>")
    }
}
