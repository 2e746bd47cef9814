//! An input that can be waited for: a thread of its own reads it.

ghost use Rattle.std.specs.Prelude.{◌≤◌, length};

use crossbeam_channel::{Receiver, RecvTimeoutError, Sender, bounded};
use node_desk::Waits;
use std::alloc::Global;
use std::io::{self, BufRead, ErrorKind, Read};
use std::sync::Wait;
use std::thread::{self, Threads};
use std::time::{Clock, Duration};

/// How many bytes are read at once.
const AT_ONCE: usize = 4096;

/// How many parts wait at most.
const PARTS: usize = 16;

/// What was read at once.
#[derive(Drop)]
enum Part {
    Bytes(Vec<u8>),
    /// Reading failed, or memory was refused.
    Failed(ErrorKind),
}

/// What one read gives; None at the end of the input.
fn next_part<R: Read>(alloc: Global, reader: &mut R, buffer: &mut [u8]) -> Option<Part> {
    for _ in 0..u64::MAX {
        match reader.read(buffer) {
            Ok(0) => return None,
            Ok(count) => {
                return match Vec::from_slice(alloc, &buffer[..count]) {
                    Ok(bytes) => Some(Part::Bytes(bytes)),
                    Err(_) => Some(Part::Failed(ErrorKind::OutOfMemory)),
                };
            }
            Err(error) if error.kind() == ErrorKind::Interrupted => {}
            Err(error) => return Some(Part::Failed(error.kind())),
        }
    }
    None
}

/// Hands on what an input has, up to its end, or until nobody takes it any more.
fn hand_on<T: Wait, R: Read>(rt: &T, alloc: Global, reader: &mut R, parts: &Sender<Part, Global>) {
    let mut buffer = [0u8; AT_ONCE];
    for _ in 0..u64::MAX {
        let Some(part) = next_part(alloc, reader, &mut buffer) else {
            return;
        };
        let is_last = matches!(&part, Part::Failed(_));
        if parts.send(rt, part).is_err() || is_last {
            return;
        }
    }
}

/// Copies as many of these bytes as there is room for, and says how many.
fn copy_front(bytes: &[u8], room: &mut [u8]) -> usize
    ensures { result ≤ length room.new }
{
    let count = bytes.len().min(room.len());
    room[..count].copy_from_slice(&bytes[..count]);
    count
}

/// An input that a thread of its own reads.
#[derive(Drop)]
pub struct Pump<T: Wait + Clock + Drop> {
    rt: T,
    parts: Receiver<Part, Global>,
    /// The part at hand, and how many of its bytes were taken.
    part: Vec<u8>,
    at: usize,
    /// There is no part any more.
    is_done: bool,
}

impl<T: Threads + Wait + Clock + Copy + Drop + Send + 'static> Pump<T> {
    /// Begins to read the input of the program. The thread ends with the input, or with the program.
    pub fn new(rt: T, host: HostRuntime) -> io::Result<Self> {
        let alloc = host.alloc();
        let Ok((sender, parts)) = bounded(alloc, PARTS) else {
            return Err(io::Error::from(ErrorKind::OutOfMemory));
        };
        let pumping = move || {
            let mut reader = host.reader();
            hand_on(&rt, host.alloc(), &mut reader, &sender);
        };
        match thread::spawn(&rt, pumping) {
            Ok(_) => Ok(Pump {
                rt,
                parts,
                part: Vec::new(alloc),
                at: 0,
                is_done: false,
            }),
            Err(_) => Err(io::Error::from(ErrorKind::WouldBlock)),
        }
    }
}

impl<T: Wait + Clock + Drop> Pump<T> {
    /// Whether bytes are at hand, or there are none any more.
    fn is_ready(&self) -> bool {
        self.at < self.part.len() || self.is_done
    }

    /// Takes the next part.
    fn take(&mut self, part: Part) -> io::Result<()> {
        match part {
            Part::Bytes(bytes) => {
                self.part = bytes;
                self.at = 0;
                Ok(())
            }
            Part::Failed(kind) => Err(io::Error::from(kind)),
        }
    }

    /// Sees that bytes are at hand, unless the input is at its end.
    fn fill(&mut self) -> io::Result<()> {
        if self.is_ready() {
            return Ok(());
        }
        match self.parts.recv(&self.rt) {
            Ok(part) => self.take(part),
            Err(_) => {
                self.is_done = true;
                Ok(())
            }
        }
    }

    /// The bytes at hand.
    fn rest(&self) -> &[u8] {
        match self.part.get(self.at..) {
            Some(rest) => rest,
            None => &[],
        }
    }
}

impl<T: Wait + Clock + Drop> Read for Pump<T> {
    fn read(&mut self, buf: &mut [u8]) -> io::Result<usize> {
        self.fill()?;
        let count = copy_front(self.rest(), buf);
        self.consume(count);
        Ok(count)
    }
}

impl<T: Wait + Clock + Drop> BufRead for Pump<T> {
    fn fill_buf(&mut self) -> io::Result<&[u8]> {
        self.fill()?;
        Ok(self.rest())
    }

    fn consume(&mut self, amount: usize) {
        self.at = self.at.saturating_add(amount);
    }
}

impl<T: Wait + Clock + Drop> Waits for Pump<T> {
    fn has_input(&mut self, at_most: Duration) -> io::Result<bool> {
        if self.is_ready() {
            return Ok(true);
        }
        match self.parts.recv_timeout(&self.rt, at_most) {
            Ok(part) => {
                self.take(part)?;
                Ok(true)
            }
            Err(RecvTimeoutError::Timeout) => Ok(false),
            Err(RecvTimeoutError::Disconnected) => {
                self.is_done = true;
                Ok(true)
            }
        }
    }

    fn is_at_hand(&self) -> bool {
        self.rest().contains(&b'\n')
    }
}
