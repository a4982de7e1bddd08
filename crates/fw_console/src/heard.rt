//! Readers and writers that keep what the system said where a call failed.
ghost use Rattle.std.specs.Prelude.{◌≡◌, None};

use std::io::{self, Read, Write};

/// A reader or a writer, and why its last call that failed did.
#[derive(Drop)]
pub struct Heard<S> {
    pub stream: S,
    pub error: Option<io::Error>,
}

impl<S> Heard<S> {
    /// No call has failed yet.
    pub fn new(stream: S) -> Heard<S>
        ensures stream { result.stream ≡ stream }
        ensures error { result.error ≡ None }
    {
        Heard {
            stream,
            error: None,
        }
    }
}

impl<R: Read> Read for Heard<R> {
    ghost remaining = { λ heard. R.remaining heard.stream };

    fn read(&mut self, buf: &mut [u8]) -> io::Result<usize> {
        match self.stream.read(buf) {
            Ok(count) => Ok(count),
            Err(error) => {
                self.error = Some(error);
                Err(error)
            }
        }
    }
}

impl<W: Write> Write for Heard<W> {
    ghost contents = { λ heard. W.contents heard.stream };

    fn write(&mut self, buf: &[u8]) -> io::Result<usize> {
        match self.stream.write(buf) {
            Ok(count) => Ok(count),
            Err(error) => {
                self.error = Some(error);
                Err(error)
            }
        }
    }

    fn flush(&mut self) -> io::Result<()> {
        match self.stream.flush() {
            Ok(()) => Ok(()),
            Err(error) => {
                self.error = Some(error);
                Err(error)
            }
        }
    }
}
