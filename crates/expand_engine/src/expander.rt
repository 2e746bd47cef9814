//! A run, and the lines that it comes to.

use crate::net::Net;
use crate::wanted::Wanted;
use crate::words::joined;
use protocol::{Event, ProcessId};
use report_io::Failure;
use std::alloc::{AllocError, Global};
use tree_engine::Run;
use tree_script::event_of;

/// The most deliveries of a settle.
const MOST_DELIVERIES: usize = 10_000;

/// What came of a line.
#[derive(Clone, Copy, PartialEq, Eq)]
pub(crate) enum Line {
    /// Its events were made.
    Made,
    /// It asks for nothing that there is.
    Nothing,
    /// It asks for a message that does not wait.
    NoMessage,
}

/// A run, and the lines of the events that it has made.
pub(crate) struct Expander {
    run: Run,
    root: ProcessId,
    net: Net,
    lines: String,
}

impl Expander {
    /// A tree that has just opened, with this root, and no line.
    pub(crate) fn new(alloc: Global, run: Run, root: ProcessId) -> Expander {
        Expander {
            run,
            root,
            net: Net::new(alloc),
            lines: String::new(alloc),
        }
    }

    /// Lets the run go, and answers the lines.
    pub(crate) fn close(self) -> String {
        let Expander {
            run,
            root: _,
            net: _,
            lines,
        } = self;
        run.close();
        lines
    }

    /// Whether an event was refused: what comes after it counts for nothing.
    pub(crate) fn is_over(&self) -> bool {
        self.run.refusal().is_some()
    }

    /// Adds a line.
    pub(crate) fn push(&mut self, line: &str) -> Result<(), AllocError> {
        self.lines.push_str(line)?;
        self.lines.push('\n')
    }

    /// Makes an event, whose line this is.
    fn make(&mut self, line: &str, event: Event) -> Result<Line, Failure> {
        self.push(line)?;
        self.run.make(event)?;
        self.net.note(self.run.world())?;
        Ok(Line::Made)
    }

    /// Delivers the message with this number.
    fn deliver(&mut self, alloc: Global, number: u64) -> Result<Line, Failure> {
        let line = format!(in alloc; "deliver {number}")?;
        self.make(&line, Event::Deliver(number))
    }

    /// Delivers the messages that wait, the oldest first, until this one is next; none: until no message
    /// waits.
    fn settle(&mut self, alloc: Global, end: Option<u64>) -> Result<Line, Failure> {
        for _ in 0..MOST_DELIVERIES {
            let next = self.net.next();
            if next == end || self.is_over() {
                return Ok(Line::Made);
            }
            let Some(number) = next else {
                return Ok(Line::NoMessage);
            };
            self.deliver(alloc, number)?;
        }
        Ok(Line::Made)
    }

    /// Delivers the messages that wait, the oldest first, until the next one is one that is wanted.
    fn settle_until(&mut self, alloc: Global, wanted: Wanted) -> Result<Line, Failure> {
        for _ in 0..MOST_DELIVERIES {
            let Some(next) = self.net.next() else {
                return Ok(Line::NoMessage);
            };
            if self.is_over() || self.net.find(wanted) == Some(next) {
                return Ok(Line::Made);
            }
            self.deliver(alloc, next)?;
        }
        Ok(Line::Made)
    }

    /// Delivers, or drops, the message that these words ask for.
    fn message(&mut self, alloc: Global, verb: &str, words: &[&str]) -> Result<Line, Failure> {
        let Some(wanted) = Wanted::of(words) else {
            return Ok(Line::Nothing);
        };
        let Some(number) = self.net.find(wanted) else {
            return Ok(Line::NoMessage);
        };
        if verb == "deliver" {
            return self.deliver(alloc, number);
        }
        Ok(if self.net.drop_message(number) {
            Line::Made
        } else {
            Line::NoMessage
        })
    }

    /// Makes the events of a line that has these words.
    pub(crate) fn take(&mut self, alloc: Global, words: &[&str]) -> Result<Line, Failure> {
        match words {
            ["repeat"] => match self.net.last() {
                Some(number) => self.deliver(alloc, number),
                None => Ok(Line::NoMessage),
            },
            ["settle"] if self.net.has_dropped() => self.settle(alloc, None),
            ["settle", "until", rest @ ..] => match Wanted::of(rest) {
                Some(wanted) => self.settle_until(alloc, wanted),
                None => Ok(Line::Nothing),
            },
            [verb @ ("deliver" | "drop"), rest @ ..] => self.message(alloc, verb, rest),
            _ => {
                let line = joined(alloc, words)?;
                match event_of(alloc, self.root, &line)? {
                    Some(event) => self.make(&line, event),
                    None => Ok(Line::Nothing),
                }
            }
        }
    }
}
