//! A file in memory whose calls fail after N.

ghost use Rattle.std.specs.Prelude.{◌≡◌, ◌++◌, OnOk, take};

use log_file::LogFile;
use std::io;
use std::io::ErrorKind;

/// A file in memory: what it holds, how much of that is safe, how many calls it makes before one fails, and
/// how many fail then. One that fails does part of its work.
#[derive(Drop)]
pub struct FakeFile {
    pub held: Vec<u8>,
    pub safe: usize,
    pub calls: u64,
    pub failing: u64,
    /// How many bytes of a write that fails are written.
    pub part: usize,
}

impl FakeFile {
    /// Whether this call fails.
    fn fails(&mut self) -> bool
        ensures held { self.new.held ≡ self.old.held }
    {
        if self.calls > 0 {
            self.calls -= 1;
            return false;
        }
        if self.failing > 0 {
            self.failing -= 1;
            return true;
        }
        false
    }

    fn put(&mut self, place: usize, head: &[u8], more: &[u8]) -> io::Result<()>
        ensures { OnOk result (self.new.held.items
            ≡ take place self.old.held.items ++ (head.now ++ more.now)) }
    {
        self.held.truncate(place);
        self.held.extend_from_slice(head)?;
        self.held.extend_from_slice(more)?;
        Ok(())
    }
}

impl LogFile for FakeFile {
    ghost writes = { λ old new place more. new.held.items ≡ take place old.held.items ++ more };

    fn write(&mut self, place: u64, head: &[u8], more: &[u8]) -> io::Result<()> {
        let Ok(place) = usize::try_from(place) else {
            return Err(io::Error::from(ErrorKind::Other));
        };
        if !self.fails() {
            return self.put(place, head, more);
        }
        self.put(place, head, more)?;
        self.held.truncate(place.saturating_add(self.part));
        Err(io::Error::from(ErrorKind::Other))
    }

    fn sync(&mut self) -> io::Result<()> {
        if self.fails() {
            return Err(io::Error::from(ErrorKind::Other));
        }
        self.safe = self.held.len();
        Ok(())
    }

    fn replace(&mut self, head: &[u8], more: &[u8]) -> io::Result<()> {
        let fails = self.fails();
        if fails && self.part == 0 {
            return Err(io::Error::from(ErrorKind::Other));
        }
        self.put(0, head, more)?;
        self.safe = self.held.len();
        if fails {
            Err(io::Error::from(ErrorKind::Other))
        } else {
            Ok(())
        }
    }
}
