//! Streams that keep why they failed, since the fault of an answer doesn't say it.
ghost use Rattle.std.specs.Prelude.{◌≡◌};

use std::io;
use std::io::{Error, ErrorKind, Read, Write};

/// A reader or a writer, and why a call on it failed last: `Other`, if none has.
#[derive(Drop)]
pub(crate) struct WithFault<S> {
    /// What is read or written.
    pub(crate) stream: S,
    /// Why a call on it failed last.
    pub(crate) fault: Error,
}

impl<S> WithFault<S> {
    /// A stream on which no call has failed.
    pub(crate) fn new(stream: S) -> WithFault<S>
        ensures { result.stream ≡ stream }
    {
        WithFault {
            stream,
            fault: Error::from(ErrorKind::Other),
        }
    }

    /// Keeps why a call failed, if it did.
    fn note<T>(&mut self, done: io::Result<T>) -> io::Result<T>
        ensures done { result ≡ done }
        ensures stream { self.new.stream ≡ self.old.stream }
    {
        match done {
            Ok(value) => Ok(value),
            Err(fault) => {
                self.fault = fault;
                Err(fault)
            }
        }
    }
}

impl<S: Read> Read for WithFault<S> {
    ghost remaining = { λ own. S.remaining own.stream };

    fn read(&mut self, buf: &mut [u8]) -> io::Result<usize> {
        let done = self.stream.read(buf);
        self.note(done)
    }
}

impl<S: Write> Write for WithFault<S> {
    ghost contents = { λ own. S.contents own.stream };

    fn write(&mut self, buf: &[u8]) -> io::Result<usize> {
        let done = self.stream.write(buf);
        self.note(done)
    }

    fn flush(&mut self) -> io::Result<()> {
        let done = self.stream.flush();
        self.note(done)
    }

    fn write_all(&mut self, buf: &[u8]) -> io::Result<()> {
        let done = self.stream.write_all(buf);
        self.note(done)
    }
}
