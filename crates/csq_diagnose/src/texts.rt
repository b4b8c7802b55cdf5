//! Diagnoses of lines that name no step, or no call, in words.

use crate::expected::{Expected, is_call_word};
use crate::found::Found;
use crate::grammar::{first_piece, second_piece};
use crate::malformed::Malformed;
use crate::nearest::Near;
use crate::source::{Mark, push_marked};
use csq_replay::Line;
use std::alloc::{AllocError, Allocator};
use std::fmt;

/// What is expected, as `step`.
fn noun(expected: Expected) -> &'static str {
    match expected {
        Expected::Pass => "pass",
        Expected::Step => "step",
        Expected::ScriptCall => "call",
        Expected::IrpInLife | Expected::Irp => "IRP",
        Expected::File => "file object",
        Expected::Peek => "file object or *",
        Expected::Place => "place",
        Expected::Status => "status",
        Expected::Nothing => "end",
    }
}

/// Which words are expected, as `a place is back or front`.
fn rule(expected: Expected) -> &'static str {
    match expected {
        Expected::Pass => "a pass is the letter p and its number, as p1",
        Expected::Step => "a step is arm, test, disarm, end, flag, take, out, done, renew or rearm",
        Expected::ScriptCall => {
            "a call is insert, next, remove, mark, routine, cancel, complete, close,\n  cleanup, flag, status, reuse or put_back"
        }
        Expected::IrpInLife => "an IRP is its number, as 0, or in its life 1 as 0@1",
        Expected::Irp => "an IRP is its number, as 0",
        Expected::File => "a file object is its number, as 0",
        Expected::Peek => "a file object is its number, as 0, and any is *",
        Expected::Place => "a place is back or front",
        Expected::Status => "a status is eight hexadecimal digits, as C0000120",
        Expected::Nothing => "the line may end before it",
    }
}

/// A byte that no word has, and whether it is the first of the input.
#[derive(Clone, Copy)]
struct Strange {
    byte: u8,
    begins_input: bool,
}

/// As `a tab: words are separated by one space`.
impl fmt::Display for Strange {
    fn fmt<W: fmt::Write>(&self, f: &mut fmt::Formatter<W>) -> fmt::Result {
        let Strange { byte, begins_input } = *self;
        match byte {
            b'\r' => write!(
                f,
                "a carriage return: a line ends in a line feed alone, so save the file with LF"
            ),
            b'\t' => write!(f, "a tab: words are separated by one space"),
            239 if begins_input => write!(
                f,
                "byte 239 is above 127, as of a byte order mark: save the file without one"
            ),
            254.. if begins_input => write!(
                f,
                "byte {byte} is above 127, as of UTF-16: save the file as ASCII"
            ),
            128.. => write!(
                f,
                "byte {byte} is above 127: words are of ASCII letters and digits"
            ),
            _ => write!(f, "byte {byte} is no letter, digit or sign"),
        }
    }
}

/// A word that may not stand in its place.
#[derive(Clone, Copy)]
struct Misplaced<'a> {
    word: &'a str,
    expected: Expected,
}

/// As `"tset" is no step`.
impl fmt::Display for Misplaced<'_> {
    fn fmt<W: fmt::Write>(&self, f: &mut fmt::Formatter<W>) -> fmt::Result {
        let (word, noun) = (self.word, noun(self.expected));
        match self.expected {
            Expected::Nothing if word.as_bytes().first() == Some(&b'#') => {
                write!(f, "a comment stands on a line of its own")
            }
            Expected::Nothing => write!(f, "\"{word}\" is one word too many"),
            _ => write!(f, "\"{word}\" is no {noun}"),
        }
    }
}

/// A word that may be meant by a word of this many letters: it is at most a third as many edits away, or one. Own
/// rule, as rustc's.
#[derive(Clone, Copy)]
struct Hint(Option<Near>, usize);

/// As `; did you mean "test"?`, or nothing.
impl fmt::Display for Hint {
    fn fmt<W: fmt::Write>(&self, f: &mut fmt::Formatter<W>) -> fmt::Result {
        let Hint(near, letters) = *self;
        match near {
            Some(near) if near.edits <= (letters / 3).max(1) => {
                write!(f, "; did you mean \"{}\"?", near.word)
            }
            _ => Ok(()),
        }
    }
}

/// Which steps a call of a script is in a schedule: a further line, or nothing.
fn in_steps(word: &str) -> &'static str {
    match word {
        "insert" => "\n  an insert is arm, test and, if the test finds 1, disarm",
        "remove" => "\n  a removal is disarm, and after one that finds 0 another, or end",
        "cancel" => "\n  a cancel is flag, take and, if the take finds 1, out and done",
        _ => "",
    }
}

/// The same if a step is expected.
fn steps_meant(expected: Expected, word: &str) -> &'static str {
    match expected {
        Expected::Step => in_steps(word),
        _ => "",
    }
}

/// Whether a word is of digits alone.
fn is_number(word: &[u8]) -> bool {
    word.iter().all(|byte| is_digit(*byte))
}

/// Whether a zero stands in front of other bytes.
fn begins_with_zero(word: &[u8]) -> bool {
    match word {
        [first, _, ..] => *first == b'0',
        _ => false,
    }
}

/// Whether a word begins as a number does, with or without a sign.
fn begins_as_number(word: &[u8]) -> bool {
    match word {
        [first, ..] => is_digit(*first) || *first == b'-' || *first == b'+',
        [] => false,
    }
}

/// Which rule of numbers a word breaks: a further line, or nothing.
fn number_rule(word: &[u8]) -> &'static str {
    match (is_number(word), word.len() > 9, begins_with_zero(word)) {
        (true, true, _) => "\n  a number has at most nine digits",
        (true, false, true) => "\n  a number has no zero in front",
        (false, _, _) if begins_as_number(word) => "\n  a number is of decimal digits",
        _ => "",
    }
}

/// Whether a word breaks none of these rules.
fn keeps_rules(word: &[u8]) -> bool {
    is_number(word) && word.len() <= 9 && !begins_with_zero(word)
}

/// What stands after the letter of a pass, if that begins a word.
fn after_letter(word: &[u8]) -> &[u8] {
    match word {
        [b'p', number @ ..] => number,
        _ => &[],
    }
}

/// The number of an IRP in one of its lives; that of the life, if the IRP's is one.
fn wrong_in_life(word: &[u8]) -> &[u8] {
    let irp = first_piece(word, b'@');
    if keeps_rules(irp) {
        second_piece(word, b'@')
    } else {
        irp
    }
}

/// Which part of a word has to be a number, or isn't one where two have to be; nothing if none has to be.
fn number_in(expected: Expected, word: &[u8]) -> &[u8] {
    match expected {
        Expected::Pass => after_letter(word),
        Expected::IrpInLife => wrong_in_life(word),
        Expected::Irp | Expected::File | Expected::Peek => word,
        _ => &[],
    }
}

/// Whether a byte is a digit.
fn is_digit(byte: u8) -> bool {
    byte >= b'0' && byte <= b'9'
}

/// Whether a word begins with the letter p and a digit, as a pass does.
fn begins_a_step(word: &[u8]) -> bool {
    match word {
        [letter, digit, ..] => *letter == b'p' && *digit >= b'0' && *digit <= b'9',
        _ => false,
    }
}

/// Which command reads a line that begins with this word, if it isn't the one that was given: a further
/// line, as `a script has calls: csqsim script reads it`, or nothing.
fn other_input(expected: Expected, word: &str) -> &'static str {
    match expected {
        Expected::Pass if is_call_word(word.as_bytes()) => {
            "\n  a script has calls: csqsim script reads it"
        }
        Expected::ScriptCall if begins_a_step(word.as_bytes()) => {
            "\n  a schedule has steps: csqsim schedule reads it"
        }
        _ => "",
    }
}

/// What is wrong, and whether with the first byte of the input.
#[derive(Clone, Copy)]
struct Wrong<'a> {
    fault: Malformed<'a>,
    begins_input: bool,
}

/// As `"tset" is no step; did you mean "test"?`.
impl fmt::Display for Wrong<'_> {
    fn fmt<W: fmt::Write>(&self, f: &mut fmt::Formatter<W>) -> fmt::Result {
        let Wrong {
            fault,
            begins_input,
        } = *self;
        let expected = fault.expected;
        let noun = noun(expected);
        match fault.found {
            Found::End => write!(f, "the line ends before its {noun}"),
            Found::FirstSpace => write!(f, "a space begins the line"),
            Found::TwoSpaces => write!(f, "two spaces: words are separated by one"),
            Found::LastSpace => write!(f, "a space ends the line"),
            Found::Byte(byte) => write!(f, "{}", Strange { byte, begins_input }),
            Found::Word(word) => {
                let (misplaced, hint) = (
                    Misplaced { word, expected },
                    Hint(fault.near, word.len()),
                );
                write!(f, "{misplaced}{hint}")
            }
        }
    }
}

/// Which words are expected if one is missing or is another one, each rule on a line of its own.
#[derive(Clone, Copy)]
struct Notes<'a>(Malformed<'a>);

impl fmt::Display for Notes<'_> {
    fn fmt<W: fmt::Write>(&self, f: &mut fmt::Formatter<W>) -> fmt::Result {
        let expected = self.0.expected;
        let rule = rule(expected);
        match self.0.found {
            Found::End => writeln!(f, "  {rule}"),
            Found::Word(word) => {
                let number = number_rule(number_in(expected, word.as_bytes()));
                let steps = steps_meant(expected, word);
                let other = other_input(expected, word);
                writeln!(f, "  {rule}{number}{steps}{other}")
            }
            _ => Ok(()),
        }
    }
}

/// As `"tset" is no step; did you mean "test"?`, the line with a mark below what is wrong, and which words are expected.
pub(crate) fn fault_words<A: Allocator>(
    alloc: A,
    line: Line<'_>,
    fault: Malformed<'_>,
) -> Result<String<A>, AllocError> {
    let begins_input = line.number == 1 && fault.column == 1;
    let mut words = String::new(alloc);
    writeln!(
        words,
        "{}",
        Wrong {
            fault,
            begins_input
        }
    )?;
    push_marked(line.bytes, Mark::of_fault(fault), &mut words)?;
    write!(words, "{}", Notes(fault))?;
    Ok(words)
}
