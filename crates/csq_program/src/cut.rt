//! How much of an input is drawn.
ghost use Rattle.std.specs.Prelude.{◌≡◌, ◌≤◌, length, take, IfSome};
ghost use Rattle.csq_replay.specs.Inputs.{input_limit};
ghost use Rattle.csq_replay.specs.Pieces.{lines_of};
ghost use Rattle.csq_program.specs.Cuts.{drawn_input, first_lines};

use csq_replay::MAX_INPUT;

/// The first `count` lines of a text: all, if it has fewer.
fn first_lines(text: &[u8], count: u32) -> &[u8]
    ensures bytes { result.now ≡ first_lines count text.now }
    ensures lines { lines_of result.now ≡ take count (lines_of text.now) }
{
    let mut left = count;
    for at in 0..text.len() {
        if left == 0 {
            return &text[..at];
        }
        if text[at] == b'\n' {
            left -= 1;
        }
    }
    text
}

/// The lines of an input up to the one that is named, if one is. An input that is too long stays so, and is
/// answered so.
pub(crate) fn cut_input(input: &[u8], to: Option<u32>) -> &[u8]
    ensures cut { result.now ≡ drawn_input to input.now }
    ensures lines { length input.now ≤ input_limit
        → IfSome to (λ line. lines_of result.now ≡ take line (lines_of input.now)) }
{
    match to {
        Some(line) if input.len() <= MAX_INPUT => first_lines(input, line),
        _ => input,
    }
}
