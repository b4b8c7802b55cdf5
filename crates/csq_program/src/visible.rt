//! Texts of a command line, as they are shown.
use std::fmt;

/// A text of a command line, with each character that a terminal obeys as its code.
#[derive(Clone, Copy)]
pub(crate) struct Visible<'a> {
    text: &'a str,
    has_lines: bool,
}

impl<'a> Visible<'a> {
    /// A text that stands on one line.
    pub(crate) fn word(text: &'a str) -> Visible<'a> {
        Visible {
            text,
            has_lines: false,
        }
    }

    /// A text whose lines stay lines.
    pub(crate) fn lines(text: &'a str) -> Visible<'a> {
        Visible {
            text,
            has_lines: true,
        }
    }

    /// Whether a character stands for itself.
    fn keeps(self, character: char) -> bool {
        !character.is_control() || self.has_lines && character == '\n'
    }
}

/// As `a\x1b[31mb`.
impl fmt::Display for Visible<'_> {
    fn fmt<W: fmt::Write>(&self, f: &mut fmt::Formatter<W>) -> fmt::Result {
        for character in self.text.chars() {
            if self.keeps(character) {
                write!(f, "{character}")?;
            } else {
                write!(f, "\\x{:02x}", u32::from(character))?;
            }
        }
        Ok(())
    }
}
