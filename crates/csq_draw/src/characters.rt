//! The characters of a comment, whose bytes may be no UTF-8.
ghost use Rattle.std.specs.Prelude.{◌≡◌, length, take, drop, map, chars, IfOk, OnOk};
ghost use Rattle.std.specs.Str.{IsUtf8};
ghost use Rattle.std.specs.Str.Lossy.{utf8_valid_len};
ghost use Rattle.csq_replay.specs.Lines.{GrewBy};
ghost use Rattle.csq_draw.specs.Characters.{is_hidden, shown, marked, after_mark, characters};

use std::alloc::{AllocError, Allocator};

/// A character as it is shown: a question mark for a control character, for one that turns the direction of a text, and
/// for U+FFFE and U+FFFF, which XML 1.0 forbids.
fn shown(character: char) -> char
    ensures { result ≡ shown character }
{
    if character.is_control() || is_hidden(character) {
        '?'
    } else {
        character
    }
}

/// Whether a character turns the direction of a text or marks it (U+061C, U+200E, U+200F, U+202A to U+202E, U+2066 to
/// U+2069), or is one that XML 1.0 forbids.
fn is_hidden(character: char) -> bool
    ensures { result ≡ is_hidden character }
{
    matches!(
        character,
        '\u{061C}' | '\u{200E}'..='\u{200F}' | '\u{202A}'..='\u{202E}' | '\u{2066}'..='\u{2069}' | '\u{FFFE}' | '\u{FFFF}'
    )
}

/// The longest front of some bytes that is UTF-8.
fn utf8_front(bytes: &[u8]) -> &str
    ensures value { result.now ≡ take (utf8_valid_len bytes.now) bytes.now }
    ensures utf8 { IsUtf8 result.now }
    ensures len { length result.now ≡ utf8_valid_len bytes.now }
{
    match bytes.utf8_chunks().next() {
        Some(chunk) => chunk.valid(),
        None => "",
    }
}

/// Adds the characters of a text, as they are shown.
fn push_shown<A: Allocator>(text: &str, to: &mut Vec<char, A>) -> Result<(), AllocError>
    ensures { OnOk result (GrewBy to.old.items to.new.items (map shown (chars text.now))) }
{
    for character in text.chars() {
        to.push(shown(character))?;
    }
    Ok(())
}

/// Adds a question mark for the first of these bytes, which is part of no character, and returns those after it.
fn push_mark<'a, A: Allocator>(
    bytes: &'a [u8],
    to: &mut Vec<char, A>,
) -> Result<&'a [u8], AllocError>
    ensures marks { OnOk result (GrewBy to.old.items to.new.items (marked bytes.now)) }
    ensures rest { IfOk result (λ rest. rest.now ≡ after_mark bytes.now) }
{
    let [_, rest @ ..] = bytes else {
        return Ok(bytes);
    };
    to.push('?')?;
    Ok(rest)
}

/// The characters of some bytes, as they are shown: a question mark for a control character, for one that turns the
/// direction of a text, and for each byte that is not part of a character in UTF-8. Own rule.
pub(crate) fn characters<A: Allocator>(alloc: A, bytes: &[u8]) -> Result<Vec<char, A>, AllocError>
    ensures value { IfOk result (λ made. made.items ≡ characters bytes.now) }
    ensures kept { IfOk result (λ made. IsUtf8 bytes.now
        → made.items ≡ map shown (chars bytes.now)) }
{
    let mut made = Vec::new(alloc);
    let mut rest = bytes;
    'fronts: while !rest.is_empty() {
        let text = utf8_front(rest);
        push_shown(text, &mut made)?;
        rest = push_mark(&rest[text.len()..], &mut made)?;
    }
    Ok(made)
}
