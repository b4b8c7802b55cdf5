//! Bytes, cut into lines and words.
ghost use Rattle.std.specs.Prelude.{◌≡◌, ◌↔◌, ◌<◌, ◌==◌, ◌^◌, ◌∷◌, [], ℕ, Some, length, position, decimal, IsTrue, IfNone, MatchOption};
ghost use Rattle.std.specs.Option.{option_map_or, ForSome};
ghost use Rattle.irp_core.specs.declared.status.NtStatus.{NtStatus};
ghost use Rattle.csq_replay.specs.Pieces.{pieces, lines_of, IsNumber};
ghost use Rattle.csq_replay.specs.CallLine.{IsHexStatus};

use irp_core::NtStatus;
use itoa::Buffer;
use std::str;

/// Above the greatest number that a text may have. Own rule: nine digits.
const NUMBER_LIMIT: u32 = 1_000_000_000;

fn first_index(bytes: &[u8], byte: u8) -> Option<usize>
    ensures { result ≡ position (λ b. b == byte) bytes.now }
{
    bytes.iter().position(|b| *b == byte)
}

/// The first piece before a byte of this value, and the bytes after that byte, if there is one.
pub fn split_piece(bytes: &[u8], byte: u8) -> (&[u8], Option<&[u8]>)
    ensures pieces { pieces byte bytes.now
        ≡ result.0.now ∷ option_map_or (λ rest. pieces byte rest.now) result.1 [] }
    ensures shorter { ForSome result.1 (λ rest. length rest.now < length bytes.now) }
    ensures whole { IfNone result.1 (result.0.now ≡ bytes.now) }
{
    match first_index(bytes, byte) {
        Some(at) => (&bytes[..at], Some(&bytes[at + 1..])),
        None => (bytes, None),
    }
}

/// The first line, and the bytes after it.
pub(crate) fn split_line(bytes: &[u8]) -> (&[u8], &[u8])
    requires { 0 < length bytes.now }
    ensures lines { lines_of bytes.now ≡ result.0.now ∷ lines_of result.1.now }
    ensures shorter { length result.1.now < length bytes.now }
{
    let (line, rest) = split_piece(bytes, b'\n');
    match rest {
        Some(rest) => (line, rest),
        None => (line, &[]),
    }
}

fn parse_decimal(word: &[u8]) -> Option<u32>
    ensures { (n : ℕ) → n < 2 ^ 32 → word.now ≡ decimal n → result ≡ Some n }
{
    let Ok(text) = str::from_utf8(word) else {
        return None;
    };
    text.parse().ok()
}

fn is_decimal(word: &[u8], number: u32) -> bool
    ensures { IsTrue result ↔ (word.now ≡ decimal number) }
{
    Buffer::new().format(number).as_bytes() == word
}

/// The number of at most nine digits that a word is, with no leading zero.
pub fn parse_number(word: &[u8]) -> Option<u32>
    ensures { MatchOption result ((n : ℕ) → ¬ IsNumber word.now n) (IsNumber word.now) }
{
    let number = parse_decimal(word)?;
    if number < NUMBER_LIMIT && is_decimal(word, number) {
        Some(number)
    } else {
        None
    }
}

/// How many hexadecimal digits a status has.
const STATUS_DIGITS: usize = 8;

/// The status that eight hexadecimal digits write, in either case.
pub fn parse_status(word: &[u8]) -> Option<NtStatus>
    ensures { MatchOption result ((status : NtStatus) → ¬ IsHexStatus word.now status.0)
        (λ status. IsHexStatus word.now status.0) }
{
    if word.len() != STATUS_DIGITS || word.first() == Some(&b'+') {
        return None;
    }
    let Ok(text) = str::from_utf8(word) else {
        return None;
    };
    Some(NtStatus(u32::from_str_radix(text, 16).ok()?))
}
