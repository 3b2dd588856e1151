//! A writer in memory, which can fail once.

use std::io::{self, ErrorKind, Write};

/// What a writer does wrong, once: after it, the writer is as good as new.
#[derive(Clone, Copy)]
pub enum Fault {
    /// The write after this number of bytes returns an error of this kind, or takes no byte.
    Write(usize, Option<ErrorKind>),

    /// The first flush returns an error of this kind.
    Flush(ErrorKind),
}

/// A writer that takes at most `most` bytes at a time.
#[derive(Drop)]
pub struct Tape {
    pub text: Vec<u8>,
    pub most: usize,
    pub fault: Option<Fault>,
}

impl Write for Tape {
    fn write(&mut self, buf: &[u8]) -> io::Result<usize> {
        match self.fault {
            Some(Fault::Write(after, kind)) if after == self.text.len() => {
                self.fault = None;
                match kind {
                    Some(kind) => Err(io::Error::from(kind)),
                    None => Ok(0),
                }
            }
            _ => self.text.write(&buf[..buf.len().min(self.most)]),
        }
    }

    fn flush(&mut self) -> io::Result<()> {
        match self.fault {
            Some(Fault::Flush(kind)) => {
                self.fault = None;
                Err(io::Error::from(kind))
            }
            _ => Ok(()),
        }
    }
}
