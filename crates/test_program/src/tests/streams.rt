//! A reader and a writer that go a byte at a time, may be interrupted, and may fail after any of them.
use std::io;
use std::io::{Error, ErrorKind, Read, Write};

/// Gives so many of its bytes at most, one at a time, is interrupted so often before each, and fails so behind the last,
/// or ends there.
#[derive(Drop)]
pub(super) struct Feed<'a> {
    pub(super) bytes: &'a [u8],
    pub(super) given: usize,
    pub(super) interruptions: u32,
    pub(super) to_come: u32,
    pub(super) fault: Option<ErrorKind>,
}

impl Feed<'_> {
    /// The next byte, if one is to be given.
    fn next(&mut self) -> Option<u8> {
        if self.given == 0 {
            return None;
        }
        let (first, rest) = self.bytes.split_first()?;
        self.bytes = rest;
        self.given -= 1;
        self.to_come = self.interruptions;
        Some(*first)
    }
}

impl Read for Feed<'_> {
    fn read(&mut self, buf: &mut [u8]) -> io::Result<usize> {
        if self.to_come > 0 {
            self.to_come -= 1;
            return Err(Error::from(ErrorKind::Interrupted));
        }
        if buf.is_empty() {
            return Ok(0);
        }
        match (self.next(), self.fault) {
            (Some(byte), _) => {
                buf[0] = byte;
                Ok(1)
            }
            (None, Some(fault)) => Err(Error::from(fault)),
            (None, None) => Ok(0),
        }
    }
}

/// Is interrupted before each byte, takes one at a time, and behind so many fails or takes nothing.
#[derive(Drop)]
pub(super) struct Sink {
    pub(super) text: Vec<u8>,
    pub(super) room: usize,
    pub(super) fails: bool,
    pub(super) interrupted: bool,
}

impl Write for Sink {
    fn write(&mut self, buf: &[u8]) -> io::Result<usize> {
        self.interrupted = !self.interrupted;
        if self.interrupted {
            return Err(Error::from(ErrorKind::Interrupted));
        }
        let Some(first) = buf.first() else {
            return Ok(0);
        };
        if self.text.len() >= self.room {
            return if self.fails {
                Err(Error::from(ErrorKind::Other))
            } else {
                Ok(0)
            };
        }
        match self.text.push(*first) {
            Ok(()) => Ok(1),
            Err(_) => Err(Error::from(ErrorKind::OutOfMemory)),
        }
    }

    fn flush(&mut self) -> io::Result<()> {
        Ok(())
    }
}
