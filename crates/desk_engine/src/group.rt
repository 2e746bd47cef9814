//! Lines that the node was given, and that nobody is told of yet.

ghost use Rattle.std.specs.Prelude.{◌≡◌, ◌++◌, ◌≤◌, [], length, take, OnErr, OnOk};

use crate::line::seen_of;
use input_lines::InputLine;
use node_engine::Witness;
use std::alloc::{AllocError, Global};

/// A line, and where what is told of it ends.
#[derive(Drop)]
struct Heard {
    line: InputLine,
    end: usize,
}

/// Lines that the node was given, and that nobody is told of yet.
#[derive(Drop)]
pub(crate) struct Group {
    lines: Vec<Heard>,
    pub(crate) told: Vec<u8>,
    /// How much of that rests on what is safe already.
    pub(crate) safe: usize,
    ghost within: { safe ≤ length told.items },
}

impl Group {
    ghost use Rattle.desk_engine.specs.Groups.{told_in};

    /// No line.
    pub(crate) fn new(alloc: Global) -> Group
        ensures { told_in result ≡ [] }
    {
        Group {
            lines: Vec::new(alloc),
            told: Vec::new(alloc),
            safe: 0,
        }
    }

    /// Adds a line and what is told of it, and whether all that was made up to it is safe.
    pub(crate) fn push(
        &mut self,
        line: InputLine,
        told: &[u8],
        is_safe: bool,
    ) -> Result<(), AllocError>
        ensures ok { OnOk result (told_in self.new ≡ told_in self.old ++ told.now) }
        ensures err { OnErr result (told_in self.new ≡ told_in self.old) }
    {
        let end = self.told.len().saturating_add(told.len());
        self.lines.push(Heard { line, end })?;
        self.told.extend_from_slice(told)?;
        if is_safe {
            self.safe = self.told.len();
        }
        Ok(())
    }

    /// What is told of the lines that rest on what is safe already.
    pub(crate) fn safe_front(&self) -> &[u8]
        ensures { result.now ≡ take self.now.safe (told_in self.now) }
    {
        let (front, _) = self.told.split_at(self.safe);
        front
    }

    /// Shows a witness the lines of which all is told, if so much is.
    pub(crate) fn show<N: Witness>(&self, size: usize, witness: &mut N) {
        let mut start = 0;
        for heard in &self.lines {
            if heard.end > size {
                return;
            }
            if let Some(answer) = self.told.get(start..heard.end) {
                witness.see(seen_of(&heard.line), answer);
            }
            start = heard.end;
        }
    }
}
