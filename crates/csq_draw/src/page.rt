//! A page, on which elements are written: as an SVG picture, each on a line of its own, or as lines of text for a
//! terminal, one for each step. What is written of an element is tested, and no contract tells it.
ghost use Rattle.std.specs.Prelude.{string_bytes, OnOk};
ghost use Rattle.csq_draw.specs.Drawings.{Grew};

use crate::canvas::Canvas;
use crate::caption::Caption;
use crate::circles::word_text;
use crate::element::Element;
use crate::ending::Below;
use crate::extent::Extent;
use crate::heading::{Head, write_names};
use crate::marks::{FoundText, Legality, Mark};
use crate::owners::having_after;
use crate::view::Format;
use csq_explain::{PassNow, WordValues};
use irp_core::PassId;
use std::alloc::{AllocError, Allocator};
use std::fmt;

/// What stands above the rows of a page of text.
const TEXT_HEAD: &str =
    "line  lock pass step          found            owner        IRP: flag routine\n";

/// Who has the lock at a step, and from a refused one on how it stands to the protocol.
#[derive(Clone, Copy)]
struct StateCell(Legality, Option<PassId>);

/// As `p1`, a hyphen if none has it, a mark at the refused step, and a question mark after that.
impl fmt::Display for StateCell {
    fn fmt<W: fmt::Write>(&self, f: &mut fmt::Formatter<W>) -> fmt::Result {
        match *self {
            StateCell(Legality::Legal, Some(pass)) => write!(f, "{pass}"),
            StateCell(Legality::Legal, None) => write!(f, "-"),
            StateCell(Legality::Refused(_), _) => write!(f, "!"),
            StateCell(Legality::Later, _) => write!(f, "?"),
        }
    }
}

/// Whether the pass of a step owes its IRP from then on, or holds it. From a refusal on that isn't known.
#[derive(Clone, Copy)]
struct OwnerCell(Mark);

/// As `p2 owes it`.
impl fmt::Display for OwnerCell {
    fn fmt<W: fmt::Write>(&self, f: &mut fmt::Formatter<W>) -> fmt::Result {
        let made = self.0.step.made;
        match (self.0.legality, having_after(made)) {
            (Legality::Legal, Some(having)) => write!(f, "{} {having} it", made.pass),
            _ => Ok(()),
        }
    }
}

/// The words of an IRP, if there are any.
#[derive(Clone, Copy)]
struct WordsCell(Option<WordValues>);

/// As `0: set clear`: the IRP in its present life, the Cancel flag and the cancel routine.
impl fmt::Display for WordsCell {
    fn fmt<W: fmt::Write>(&self, f: &mut fmt::Formatter<W>) -> fmt::Result {
        let Some(words) = self.0 else {
            return Ok(());
        };
        let (flag, routine) = (word_text(words.flag), word_text(words.routine));
        write!(f, "{}: {flag} {routine}", words.name)
    }
}

/// A page, below a caption. A page of text keeps the passes of the columns, and of the row that it is at the number of its
/// line and who has the lock.
#[derive(Drop)]
pub(crate) struct Page<'a, A: Allocator> {
    format: Format,
    caption: &'a Caption<A>,
    text: String<A>,
    row: String<A>,
    columns: Vec<PassId, A>,
    line: usize,
    lock: Option<PassId>,
}

impl<A: Allocator + Copy> Page<'_, A> {
    /// An empty one.
    pub(crate) fn new(alloc: A, format: Format, caption: &Caption<A>) -> Page<'_, A> {
        Page {
            format,
            caption,
            text: String::new(alloc),
            row: String::new(alloc),
            columns: Vec::new(alloc),
            line: 0,
            lock: None,
        }
    }
}

impl<A: Allocator> Page<'_, A> {
    /// What was written.
    pub(crate) fn as_bytes(&self) -> &[u8] {
        self.text.as_bytes()
    }

    /// Adds what was written to a text, and the end of a picture.
    pub(crate) fn add_to(self, text: &mut String<A>) -> Result<(), AllocError>
        ensures { OnOk result (Grew (string_bytes text.old) (string_bytes text.new)) }
    {
        let Page {
            format,
            text: written,
            ..
        } = self;
        append(written, text)?;
        match format {
            Format::Svg => text.push_str("</svg>\n"),
            Format::Text => Ok(()),
        }
    }

    /// Adds a cell to the row, and spaces after it up to this width, but at least one.
    fn push_cell<T: fmt::Display + Copy>(
        &mut self,
        cell: T,
        width: usize,
    ) -> Result<(), AllocError> {
        let before = self.row.len();
        write!(self.row, "{cell}")?;
        let cell = self.row.len().saturating_sub(before);
        for _ in 0..width.saturating_sub(cell).max(1) {
            self.row.push(' ')?;
        }
        Ok(())
    }

    /// Writes the row of a step: its line, who has the lock, the pass, what it did and found, whether it owes or holds its
    /// IRP from then on, and the words of that.
    fn write_step(&mut self, mark: Mark) -> Result<(), AllocError> {
        let made = mark.step.made;
        self.row.clear();
        self.push_cell(self.line, 6)?;
        self.push_cell(StateCell(mark.legality, self.lock), 5)?;
        self.push_cell(made.pass, 5)?;
        self.push_cell(made.kind, 14)?;
        self.push_cell(FoundText(mark.step, mark.words), 17)?;
        self.push_cell(OwnerCell(mark), 13)?;
        write!(self.row, "{}", WordsCell(mark.words))?;
        writeln!(self.text, "{}", self.row.as_str().trim_end())
    }

    /// Writes an element of a picture that is a line of text, or of which a later one is told.
    fn write_line(&mut self, element: Element) -> Result<(), AllocError> {
        match element {
            Element::Column(column) => {
                self.columns.push(column.pass)?;
                Ok(())
            }
            Element::Number(number) => {
                self.line = number.line;
                self.lock = None;
                Ok(())
            }
            Element::Shade(shade) => {
                self.lock = self.columns.get(shade.column as usize).copied();
                Ok(())
            }
            Element::Mark(mark) => self.write_step(mark),
            Element::Below(_, Below::Bar) => Ok(()),
            Element::Below(_, Below::Refused(stop)) => {
                writeln!(self.text, "line {}: {}", self.line, Below::Refused(stop))
            }
            Element::Below(_, Below::Because(reason)) => writeln!(self.text, "  {reason}"),
            Element::Below(_, Below::Broken(line, reason)) => {
                writeln!(self.text, "{}\n  {reason}", Below::Broken(line, reason))
            }
            Element::Below(_, below) => writeln!(self.text, "{below}"),
            Element::Lines
            | Element::WordColumns(_)
            | Element::Span(_)
            | Element::Bars(_)
            | Element::Arrow(_)
            | Element::Call(_)
            | Element::HarmMark(_) => Ok(()),
        }
    }
}

/// Adds a text to another one, which it replaces if that is empty: then the picture isn't in memory twice.
fn append<A: Allocator>(added: String<A>, text: &mut String<A>) -> Result<(), AllocError>
    ensures { OnOk result (Grew (string_bytes text.old) (string_bytes text.new)) }
{
    if text.is_empty() {
        *text = added;
        Ok(())
    } else {
        text.push_str(added.as_str())
    }
}

impl<A: Allocator> Canvas for Page<'_, A> {
    ghost Image = { Unit {0} };

    ghost image = { λ page. tt };

    ghost added = { λ image element. tt };

    fn begin(&mut self, passes: &[PassNow], extent: Extent) -> Result<(), AllocError> {
        let caption = self.caption;
        match self.format {
            Format::Svg => {
                write!(self.text, "{}", Head::new(extent, caption))?;
                write_names(passes, &caption.names, &mut self.text)
            }
            Format::Text => write!(self.text, "{}{TEXT_HEAD}", caption.plain),
        }
    }

    fn draw(&mut self, element: Element) -> Result<(), AllocError> {
        match self.format {
            Format::Svg => writeln!(self.text, "{element}"),
            Format::Text => self.write_line(element),
        }
    }
}
