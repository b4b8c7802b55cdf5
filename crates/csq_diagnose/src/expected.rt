//! What may stand in a place of a line.
ghost use Rattle.std.specs.Prelude.{◌≡◌, ◌↔◌, map, IsTrue};
ghost use Rattle.std.specs.List.{list_any};
ghost use Rattle.std.specs.Str.{bytes_eq};
ghost use Rattle.csq_diagnose.specs.Expecting.{Admits, IsOneOf, expected_words};

use csq_explain::{CALLS, STEPS};
use csq_replay::{parse_name, parse_number, parse_pass, parse_status};

/// What may stand in a place of a line. Own rule.
#[derive(Clone, Copy)]
pub enum Expected {
    /// A pass, as `p1`.
    Pass,
    /// What a step does, as `arm`.
    Step,
    /// What a call does, as `insert`.
    ScriptCall,
    /// An IRP in one of its lives, as `0` or `0@1`.
    IrpInLife,
    /// An IRP in its present life, as `0`.
    Irp,
    /// A file object, as `0`.
    File,
    /// A file object, or `*` for any.
    Peek,
    /// `back` or `front`.
    Place,
    /// A status of eight hexadecimal digits, as `C0000120`.
    Status,
    /// No word: the line ends here.
    Nothing,
}

// Where an insert or a put-back puts its IRP.
const PLACES: [&str; 2] = ["back", "front"];

/// The test for one of these words, by their bytes.
fn has_word(words: &[&str], word: &[u8]) -> bool
    ensures { result ≡ list_any (λ one. bytes_eq one.now word.now) words.now }
{
    words.iter().any(|one| one.as_bytes() == word)
}

/// Whether the word is one of these.
fn is_one_of(word: &[u8], words: &[&str]) -> bool
    ensures { IsTrue result ↔ IsOneOf (map (λ one. one.now) words.now) word.now }
{
    has_word(words, word)
}

/// Whether a word begins a call.
pub(crate) fn is_call_word(word: &[u8]) -> bool {
    has_word(&CALLS, word)
}

impl Expected {
    /// The words that may stand here, if they can be listed: of a step, of a call and of a place.
    pub fn words(self) -> &'static [&'static str]
        ensures { map (λ word. word.now) result.now ≡ expected_words self }
    {
        match self {
            Expected::Step => &STEPS,
            Expected::ScriptCall => &CALLS,
            Expected::Place => &PLACES,
            _ => &[],
        }
    }

    /// Whether a word may stand here.
    pub fn admits(self, word: &[u8]) -> bool
        ensures { IsTrue result ↔ Admits self word.now }
    {
        match self {
            Expected::Pass => parse_pass(word).is_some(),
            Expected::Step => is_one_of(word, &STEPS),
            Expected::ScriptCall => is_one_of(word, &CALLS),
            Expected::Place => is_one_of(word, &PLACES),
            Expected::IrpInLife => parse_name(word).is_some(),
            Expected::Irp | Expected::File => parse_number(word).is_some(),
            Expected::Peek => word == b"*".as_slice() || parse_number(word).is_some(),
            Expected::Status => parse_status(word).is_some(),
            Expected::Nothing => false,
        }
    }
}
