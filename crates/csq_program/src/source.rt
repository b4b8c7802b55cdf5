//! Where a schedule or a script is read from.
use crate::stream::WithFault;
use crate::visible::Visible;
use either::{Either, Left, Right};
use std::alloc::{AllocError, Global};
use std::io::ErrorKind;
use std::rt::Files;
use std::{fmt, fs, io};
use thiserror::Error;

/// Where a schedule or a script is read from. Own rule.
#[derive(Clone, Copy, Debug, PartialEq, Eq)]
pub enum Source<'a> {
    /// From standard input.
    Standard,
    /// From the file of this name.
    File(&'a str),
}

/// The name of a file and a colon, before the line and the column of which something is said, as compilers and
/// editors have it: `race.txt:`, and `<stdin>:` for standard input.
impl fmt::Display for Source<'_> {
    fn fmt<W: fmt::Write>(&self, f: &mut fmt::Formatter<W>) -> fmt::Result {
        match self {
            Source::Standard => write!(f, "<stdin>:"),
            Source::File(name) => write!(f, "{}:", Visible::word(name)),
        }
    }
}

/// Why a source has no bytes.
#[derive(Debug, Drop, Error)]
pub enum SourceFault {
    /// 1: there is too little memory.
    #[error("out of memory")]
    Memory,
    /// 2: standard input could not be read, for this cause.
    #[error("read failed: {0}")]
    Standard(io::Error),
    /// 3: the file of this name, as it is shown, could not be opened or read, for this cause.
    #[error("{name}: {cause}")]
    File { name: String, cause: io::Error },
}

impl From<AllocError> for SourceFault {
    fn from(_: AllocError) -> Self {
        SourceFault::Memory
    }
}

impl<'a> Source<'a> {
    /// Why this source could not be read, if an operation on it failed so.
    pub(crate) fn fault(self, alloc: Global, cause: io::Error) -> SourceFault {
        if cause.kind() == ErrorKind::OutOfMemory {
            return SourceFault::Memory;
        }
        match self {
            Source::Standard => SourceFault::Standard(cause),
            Source::File(name) => match format!(in alloc; "{}", Visible::word(name)) {
                Ok(name) => SourceFault::File { name, cause },
                Err(AllocError) => SourceFault::Memory,
            },
        }
    }

    /// Opens it.
    pub(crate) fn open<R: AllocGlobal + Input + Files>(
        self,
        rt: &R,
    ) -> Result<WithFault<Either<R::Reader, R::File>>, SourceFault> {
        match self {
            Source::Standard => Ok(WithFault::new(Left(rt.reader()))),
            Source::File(name) => match fs::open(rt, name) {
                Ok(file) => Ok(WithFault::new(Right(file))),
                Err(cause) => Err(self.fault(rt.alloc(), cause)),
            },
        }
    }
}
