//! A reader that fails, a writer that fails or takes nothing, and both interrupted at each other call.

use std::io;
use std::io::{Read, Write};

/// A reader that fails.
#[derive(Drop)]
pub struct Fails;

impl Read for Fails {
    fn read(&mut self, _buf: &mut [u8]) -> io::Result<usize> {
        Err(io::Error::from(io::ErrorKind::Other))
    }
}

/// A writer that fails, or takes nothing.
#[derive(Drop)]
pub struct Full {
    pub fails: bool,
}

impl Write for Full {
    fn write(&mut self, _buf: &[u8]) -> io::Result<usize> {
        if self.fails {
            Err(io::Error::from(io::ErrorKind::Other))
        } else {
            Ok(0)
        }
    }

    fn flush(&mut self) -> io::Result<()> {
        Ok(())
    }
}

/// A reader of bytes, interrupted at each other call.
#[derive(Drop)]
pub struct InterruptedReader<'a> {
    pub bytes: &'a [u8],
    pub is_next: bool,
}

impl<'a> Read for InterruptedReader<'a> {
    fn read(&mut self, buf: &mut [u8]) -> io::Result<usize> {
        self.is_next = !self.is_next;
        if self.is_next {
            self.bytes.read(buf)
        } else {
            Err(io::Error::from(io::ErrorKind::Interrupted))
        }
    }
}

/// A writer to memory, interrupted at each other call.
#[derive(Drop)]
pub struct InterruptedWriter {
    pub bytes: Vec<u8>,
    pub is_next: bool,
}

impl Write for InterruptedWriter {
    fn write(&mut self, buf: &[u8]) -> io::Result<usize> {
        self.is_next = !self.is_next;
        if self.is_next {
            self.bytes.write(buf)
        } else {
            Err(io::Error::from(io::ErrorKind::Interrupted))
        }
    }

    fn flush(&mut self) -> io::Result<()> {
        Ok(())
    }
}
