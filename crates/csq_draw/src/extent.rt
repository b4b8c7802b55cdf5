//! How much a picture shows, and how large it is.
ghost use Rattle.std.specs.Prelude.{◌<◌, ◌≤◌, ◌^◌, length};

use crate::caption::Caption;
use crate::ending::PictureEnd;
use crate::irps::irp_columns;
use crate::layout::{flag_x, top};
use crate::page::Page;
use crate::passes::columns;
use crate::picture::draw_end;
use crate::rows::count;
use crate::sheet::Sheet;
use crate::view::Format;
use std::alloc::{AllocError, Allocator};

/// The least width of a picture: a line that ended the handling has a bar of 724 pixels. Own rule.
const LEAST_WIDTH: u64 = 780;

/// How much a picture shows: the numbers of its columns of passes, of its IRPs, of its rows and of the lines of text
/// below them, and how many pixels the widest of these lines takes.
#[derive(Clone, Copy)]
pub(crate) struct Extent {
    pub(crate) columns: u32,
    pub(crate) irps: u32,
    pub(crate) rows: u32,
    pub(crate) lines: u32,
    pub(crate) text_width: u32,
}

impl Extent {
    /// That of the picture of a sheet with this number of rows, which ends so.
    pub(crate) fn of<A: Allocator + Copy>(
        alloc: A,
        sheet: Sheet<'_>,
        rows: u32,
        ending: PictureEnd<'_>,
    ) -> Result<Extent, AllocError>
        requires few { length sheet.passes.now ≤ 65 }
        requires irps { length sheet.irps.now ≤ 1024 }
    {
        Ok(Extent {
            columns: columns(sheet.passes),
            irps: irp_columns(sheet.irps),
            rows,
            lines: ending.lines()?,
            text_width: width_below(alloc, ending)?,
        })
    }

    /// The picture's width, at least that of its widest line of text, which begins 56 pixels from the left.
    pub(crate) fn width(&self) -> u64 {
        let text = 56 + u64::from(self.text_width) + 8;
        (flag_x(self.columns, self.irps) + 8)
            .max(LEAST_WIDTH)
            .max(text)
    }

    /// The picture's height without its caption.
    pub(crate) fn height(&self) -> u64
        ensures { result < 2 ^ 40 }
    {
        top(self.rows) + 20 * u64::from(self.lines) + 44
    }
}

/// How wide a letter of a text below a picture is taken to be, in pixels: a capital letter is wider. Own rule.
fn letter_width(byte: u8) -> usize {
    if byte.is_ascii_uppercase() { 9 } else { 6 }
}

/// How wide the widest line of a text is, in pixels.
fn widest_line(text: &[u8]) -> usize {
    let (mut widest, mut width) = (0_usize, 0_usize);
    for byte in text {
        if *byte == b'\n' {
            width = 0;
        } else {
            width = width.saturating_add(letter_width(*byte));
            widest = widest.max(width);
        }
    }
    widest
}

/// How wide the widest line of text is with which a picture ends, in pixels: it has the lines of a page of text.
fn width_below<A: Allocator + Copy>(alloc: A, ending: PictureEnd<'_>) -> Result<u32, AllocError> {
    let caption = Caption::new(alloc);
    let mut page = Page::new(alloc, Format::Text, &caption);
    draw_end(0, ending, &mut page)?;
    count(widest_line(page.as_bytes()))
}
