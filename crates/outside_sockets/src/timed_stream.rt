use crate::allowance::Allowance;
use std::io;
use std::io::{Read, Write};
use std::net::{OpenStream, Shutdown};
use std::rt::Clock;

/// A stream whose reads and writes have so much time in all: what is under way when it is over fails, and so does what
/// follows.
#[derive(Drop)]
pub struct TimedStream<S: Read + Write + OpenStream + Drop, C: Clock + Drop> {
    stream: S,
    allowance: Allowance<C>,
}

impl<S: Read + Write + OpenStream + Drop, C: Clock + Drop> TimedStream<S, C> {
    pub(crate) fn new(stream: S, allowance: Allowance<C>) -> TimedStream<S, C> {
        TimedStream { stream, allowance }
    }
}

impl<S: Read + Write + OpenStream + Drop, C: Clock + Drop> Read for TimedStream<S, C> {
    ghost remaining = { λ s. S.remaining s.stream };

    fn read(&mut self, buf: &mut [u8]) -> io::Result<usize> {
        let left = self.allowance.left()?;
        self.stream.set_read_timeout(Some(left))?;
        self.stream.read(buf)
    }
}

impl<S: Read + Write + OpenStream + Drop, C: Clock + Drop> Write for TimedStream<S, C> {
    ghost contents = { λ s. S.contents s.stream };

    fn write(&mut self, buf: &[u8]) -> io::Result<usize> {
        let left = self.allowance.left()?;
        self.stream.set_write_timeout(Some(left))?;
        self.stream.write(buf)
    }

    fn flush(&mut self) -> io::Result<()> {
        Ok(())
    }
}

impl<S: Read + Write + OpenStream + Drop, C: Clock + Drop> OpenStream for TimedStream<S, C> {
    fn shutdown(&self, how: Shutdown) -> io::Result<()> {
        self.stream.shutdown(how)
    }
}
