//! Words that name an IRP in one of its lives.
ghost use Rattle.std.specs.Prelude.{MatchOption};
ghost use Rattle.irp_core.specs.declared.ids.IrpLife.{IrpLife};
ghost use Rattle.csq_replay.specs.StepLine.{IsNameWord};

use crate::lines::pieces::{parse_number, split_piece};
use irp_core::{IrpId, IrpLife, Life};

/// The IRP and life that a word names.
pub fn parse_name(word: &[u8]) -> Option<IrpLife>
    ensures { MatchOption result ((i : IrpLife) → ¬ IsNameWord word.now i) (IsNameWord word.now) }
{
    let (number, life) = split_piece(word, b'@');
    let irp = IrpId(parse_number(number)?);
    match life {
        Some(life) => Some(IrpLife {
            irp,
            life: Life(parse_number(life)?),
        }),
        None => Some(IrpLife { irp, life: Life(0) }),
    }
}
