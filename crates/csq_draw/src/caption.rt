//! The comment at the head of a schedule, as it stands above its picture: a title, a caption, and names of passes.
use crate::characters::characters;
use irp_core::PassId;
use std::alloc::{AllocError, Allocator};

/// How many lines of a comment stand above a picture at most. Own rule.
const MAX_LINES: u32 = 8;

/// How many characters of a name of a pass stand over its column at most: between the number of the pass and the next
/// column are 154 pixels, of which a letter takes some six. Own rule.
const MAX_NAME: usize = 24;

/// How wide they may be, in pixels, and so how wide a name of wide letters is drawn. Own rule.
const NAME_WIDTH: usize = 154;

/// What a line of the comment says that a pass is called, as XML writes it, after the end of its element's tag.
#[derive(Drop)]
pub(crate) struct PassName<A: Allocator> {
    pub(crate) pass: PassId,
    pub(crate) name: String<A>,
}

/// A caption: the first line of the comment and the lines below it, as XML writes them; the names of passes; all
/// lines, as plain text; how many of them are no names, and whether the comment has ended.
#[derive(Drop)]
pub(crate) struct Caption<A: Allocator> {
    pub(crate) title: String<A>,
    pub(crate) below: String<A>,
    pub(crate) names: Vec<PassName<A>, A>,
    pub(crate) plain: String<A>,
    pub(crate) lines: u32,
    ended: bool,
}

/// Adds characters, each as XML writes it.
fn push_escaped<A: Allocator>(characters: &[char], text: &mut String<A>) -> Result<(), AllocError> {
    for character in characters {
        match *character {
            '&' => text.push_str("&amp;")?,
            '<' => text.push_str("&lt;")?,
            '>' => text.push_str("&gt;")?,
            other => text.push(other)?,
        }
    }
    Ok(())
}

/// Adds a line as plain text.
fn push_plain<A: Allocator>(line: &[char], text: &mut String<A>) -> Result<(), AllocError> {
    for character in line {
        text.push(*character)?;
    }
    text.push('\n')
}

/// The text without the space that it may begin with.
fn unspaced(text: &[u8]) -> &[u8] {
    match text {
        [b' ', rest @ ..] => rest,
        _ => text,
    }
}

/// The pass that a line names, and what it is called, as in `p1: ReadFile`.
fn pass_named(text: &[u8]) -> Option<(PassId, &[u8])> {
    match text {
        [b'p', d, b':', b' ', name @ ..] if d.is_ascii_digit() => {
            Some((PassId(u32::from(*d - b'0')), name))
        }
        [b'p', d, e, b':', b' ', name @ ..] if d.is_ascii_digit() && e.is_ascii_digit() => {
            Some((
                PassId(10 * u32::from(*d - b'0') + u32::from(*e - b'0')),
                name,
            ))
        }
        _ => None,
    }
}

/// Whether a letter is wide: a capital, an m, a w, or one of a script whose letters are as wide as they are high.
fn is_wide_letter(character: char) -> bool {
    matches!(character, 'A'..='Z' | 'm' | 'w' | '\u{1100}'..)
}

/// Whether a name may be wider than its column, of whose letters six pixels are taken for each, and ten for a wide one.
/// Own rule.
fn is_wide(name: &[char]) -> bool {
    let shown = &name[..name.len().min(MAX_NAME)];
    let wide = shown.iter().filter(|it| is_wide_letter(**it)).count();
    6 * shown.len() + 4 * wide > NAME_WIDTH
}

/// A name, as it stands over its column, after the end of its element's tag: one that may be wider than its column is drawn
/// at the column's width, since it would run over the heading beside it, and of a longer one than the column holds stand
/// the characters in front, and an ellipsis.
fn drawn_name<A: Allocator + Copy>(alloc: A, name: &[u8]) -> Result<String<A>, AllocError> {
    let name = characters(alloc, name)?;
    let mut text = String::new(alloc);
    if is_wide(&name) {
        write!(
            text,
            " textLength='{NAME_WIDTH}' lengthAdjust='spacingAndGlyphs'"
        )?;
    }
    text.push('>')?;
    if name.len() <= MAX_NAME {
        push_escaped(&name, &mut text)?;
    } else {
        push_escaped(&name[..MAX_NAME - 1], &mut text)?;
        text.push('…')?;
    }
    Ok(text)
}

impl<A: Allocator + Copy> Caption<A> {
    /// Before the first line of a schedule.
    pub(crate) fn new(alloc: A) -> Caption<A> {
        Caption {
            title: String::new(alloc),
            below: String::new(alloc),
            names: Vec::new(alloc),
            plain: String::new(alloc),
            lines: 0,
            ended: false,
        }
    }

    /// Adds the next line of the comment, as long as there are few: the first is the title.
    fn push_line(&mut self, line: &[char]) -> Result<(), AllocError> {
        match self.lines {
            0 => push_escaped(line, &mut self.title)?,
            MAX_LINES.. => return Ok(()),
            _ => {
                self.below.push_str("<tspan x='56' dy='18'>")?;
                push_escaped(line, &mut self.below)?;
                self.below.push_str("</tspan>")?;
            }
        }
        self.lines += 1;
        push_plain(line, &mut self.plain)
    }

    /// Adds the name of a pass, which this line of the comment has.
    fn push_name(
        &mut self,
        alloc: A,
        pass: PassId,
        name: &[u8],
        line: &[char],
    ) -> Result<(), AllocError> {
        let name = drawn_name(alloc, name)?;
        self.names.push(PassName { pass, name })?;
        push_plain(line, &mut self.plain)
    }

    /// Adds a line of the comment, whose bytes may be no UTF-8: the first name of a pass, or what stands above the picture.
    fn push_comment(&mut self, alloc: A, text: &[u8]) -> Result<(), AllocError> {
        let line = characters(alloc, text)?;
        match pass_named(text) {
            Some((pass, name)) if !self.names.iter().any(|it| it.pass.0 == pass.0) => {
                self.push_name(alloc, pass, name, &line)
            }
            _ => self.push_line(&line),
        }
    }

    /// Notes a line that was skipped, as long as the comment goes on: a comment is added, and an empty line ends it.
    pub(crate) fn note(&mut self, alloc: A, line: &[u8]) -> Result<(), AllocError> {
        match line {
            _ if self.ended => Ok(()),
            [_, text @ ..] => self.push_comment(alloc, unspaced(text)),
            [] => {
                self.end();
                Ok(())
            }
        }
    }

    /// Ends the comment.
    pub(crate) fn end(&mut self) {
        self.ended = true;
    }
}
