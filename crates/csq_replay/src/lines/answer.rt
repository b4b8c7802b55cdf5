//! How an input is read, and how its answer is written.
ghost use Rattle.std.specs.Prelude.{◌≡◌, ◌≢◌, ◌≤◌, ◌<◌, take, length, IfOk, IfErr, OnOk};
ghost use Rattle.std.specs.Io.KnownBytes.{Appends, Consumes, IsAtEnd};
ghost use Rattle.csq_replay.specs.Inputs.{ReadsInput};

use std::alloc::{AllocError, Allocator};
use std::io::{ErrorKind, Read, Write};
use thiserror::Error;

/// The most bytes of an input. Own rule.
pub const MAX_INPUT: usize = 1_048_576;

/// How the handling of an input ended.
#[derive(Clone, Copy, Debug, PartialEq, Eq)]
pub enum Ended {
    /// All lines were handled.
    AllHandled,
    /// A line ended the handling, or the input was too long.
    Stopped,
}

/// The exit status of a program whose input's handling ended so: 0 or 2. Own rule.
pub fn exit_status(ended: Ended) -> u8
    ensures all { ended ≡ Ended.AllHandled → result ≡ 0 }
    ensures stopped { ended ≡ Ended.Stopped → result ≡ 2 }
{
    match ended {
        Ended::AllHandled => 0,
        Ended::Stopped => 2,
    }
}

/// Why there is no answer.
#[derive(Clone, Copy, Debug, PartialEq, Eq, Error)]
pub enum SimFault {
    /// 1: there is too little memory. Nothing was written.
    #[error("out of memory")]
    Memory = 1,
    /// 2: the reader gave a fault. Nothing was written.
    #[error("read failed")]
    Read = 2,
    /// 3: the writer gave a fault or took nothing. How much was written isn't said.
    #[error("write failed")]
    Write = 3,
}

impl SimFault {
    /// The number of the fault, from 1. Own rule.
    pub fn number(self) -> u8
        ensures memory { self ≡ SimFault.Memory → result ≡ 1 }
        ensures read { self ≡ SimFault.Read → result ≡ 2 }
        ensures write { self ≡ SimFault.Write → result ≡ 3 }
    {
        self as u8
    }
}

impl From<AllocError> for SimFault {
    ghost use Rattle.std.specs.Prelude.{◌≡◌};
    ghost use Rattle.csq_replay.specs.declared.lines.answer.SimFault.TheVariants.{Memory};

    ghost from_gives = { λ _ e. e ≡ Memory };

    fn from(_: AllocError) -> Self {
        SimFault::Memory
    }
}

/// How many bytes are asked of a reader at once.
const PIECE: usize = 4096;

/// One read, again where it was interrupted; 0 at the end.
fn read_piece<R: Read>(reader: &mut R, piece: &mut [u8]) -> Result<usize, SimFault>
    ensures bytes { IfOk result
        (λ n. (n ≤ length piece.new)
        × Consumes (R.remaining reader.old) (R.remaining reader.new) (take n piece.new)
        × (n ≡ 0 → 0 < length piece.new → IsAtEnd (R.remaining reader.new))) }
    ensures fault { IfErr result (λ fault. fault ≡ SimFault.Read) }
{
    for _ in 0..u64::MAX {
        match reader.read(piece) {
            Ok(count) => return Ok(count),
            Err(error) if error.kind() == ErrorKind::Interrupted => {}
            Err(_) => return Err(SimFault::Read),
        }
    }
    Err(SimFault::Read)
}

/// All bytes of a reader, or the first 1,048,577 if there are more.
pub fn read_input<A: Allocator, R: Read>(alloc: A, reader: &mut R) -> Result<Vec<u8, A>, SimFault>
    ensures read { IfOk result
        (λ input. ReadsInput (R.remaining reader.old) (R.remaining reader.new) input.items) }
    ensures fault { IfErr result (λ fault. fault ≢ SimFault.Write) }
{
    let mut input = Vec::new(alloc);
    let mut piece = [0u8; PIECE];
    'reading: while input.len() <= MAX_INPUT {
        let wanted = PIECE.min(MAX_INPUT + 1 - input.len());
        let count = read_piece(reader, &mut piece[..wanted])?;
        if count == 0 {
            return Ok(input);
        }
        input.extend_from_slice(&piece[..count])?;
    }
    Ok(input)
}

/// Writes a whole answer.
pub fn write_answer<W: Write>(writer: &mut W, text: &[u8]) -> Result<(), SimFault>
    ensures ok { OnOk result (Appends (W.contents writer.old) (W.contents writer.new) text.now) }
    ensures fault { IfErr result (λ fault. fault ≡ SimFault.Write) }
{
    writer.write_all(text).map_err(|_| SimFault::Write)
}
