//! The time, and the length of a log's file: what a desk does next.

ghost use Rattle.std.specs.Prelude.{◌≡◌, IfOk, true};
ghost use Rattle.node_desk.specs.Ways.{ways_of};

use crate::growth::Growth;
use crate::waits::Waits;
use protocol::ProcessId;
use std::time::{Duration, Instant};
use std::{fs, io};

/// What a desk does beside the lines of the input.
#[derive(Clone, Copy)]
pub struct Habits<'a> {
    /// The root of the tree.
    pub root: ProcessId,
    /// After so long it asks again about what is in doubt.
    pub ask: Option<Duration>,
    /// If the file of the log is longer than this, it trims the log.
    pub trim_at: Option<u64>,
    /// Whether it tells of each child that joins a case.
    pub tells_joined: bool,
    /// The file of the log.
    pub log: &'a str,
}

/// What a desk may do beside the lines of the input, whatever the time and the file are.
#[derive(Clone, Copy)]
pub struct Ways {
    pub root: ProcessId,
    pub asks: bool,
    pub trims: bool,
    pub tells_joined: bool,
}

/// What a desk does next.
#[derive(Clone, Copy, PartialEq, Eq)]
pub enum Next {
    /// It takes a line of the input.
    Line,
    /// It asks about what is in doubt.
    Ask,
    /// It trims the log.
    Trim,
}

/// What tells a desk when to ask and when to trim.
#[derive(Clone, Copy)]
pub struct Watch<'a> {
    rt: HostRuntime,
    /// What the desk may do.
    pub ways: Ways,
    every: Duration,
    /// When it last asked; None, if it never does.
    asked: Option<Instant>,
    growth: Growth,
    log: &'a str,
}

/// The length of a file; None, if it is not known.
fn size_of(rt: &HostRuntime, path: &str) -> Option<u64> {
    match fs::metadata(rt, path) {
        Ok(file) => Some(file.len()),
        Err(_) => None,
    }
}

impl<'a> Ways {
    /// What these habits let a desk do.
    fn of(habits: &Habits<'a>) -> Ways
        ensures { result ≡ ways_of habits.now }
    {
        Ways {
            root: habits.root,
            asks: habits.ask.is_some(),
            trims: habits.trim_at.is_some(),
            tells_joined: habits.tells_joined,
        }
    }
}

impl<'a> Watch<'a> {
    /// Begins to watch. Err: the clock cannot be read, which is read with `ask` alone.
    pub fn new(rt: &HostRuntime, habits: Habits<'a>) -> io::Result<Self>
        ensures { IfOk result (λ watch. watch.ways ≡ ways_of habits.entry) }
    {
        let asked = match habits.ask {
            Some(_) => Some(Instant::now(rt)?),
            None => None,
        };
        Ok(Watch {
            rt: *rt,
            ways: Ways::of(&habits),
            every: habits.ask.unwrap_or(Duration::ZERO),
            asked,
            growth: Growth::new(habits.trim_at.unwrap_or(u64::MAX)),
            log: habits.log,
        })
    }

    /// Whether the file of the log is too long.
    fn is_long(&self) -> bool {
        match size_of(&self.rt, self.log) {
            Some(size) => self.growth.is_over(size),
            None => false,
        }
    }

    /// How long it is until it asks again; None, if it never does.
    fn left(&self) -> Option<Duration> {
        match self.asked?.elapsed(&self.rt) {
            Ok(passed) => Some(self.every.saturating_sub(passed)),
            Err(_) => Some(self.every),
        }
    }

    /// Waits for the input until it is time to ask; whether it is.
    fn is_time<R: Waits>(&self, reader: &mut R) -> io::Result<bool>
        ensures { R.remaining reader.new ≡ R.remaining reader.old }
    {
        for _ in 0..u64::MAX {
            let Some(left) = self.left() else {
                return Ok(false);
            };
            if left.is_zero() {
                return Ok(true);
            }
            if reader.has_input(left)? {
                return Ok(false);
            }
        }
        Ok(false)
    }

    /// What the desk does next. It waits for the input until it is time to ask. Err: waiting failed.
    pub fn next<R: Waits>(&mut self, reader: &mut R) -> io::Result<Next>
        ensures ways { self.new.ways ≡ self.old.ways }
        ensures reads_nothing { R.remaining reader.new ≡ R.remaining reader.old }
        ensures asks { IfOk result (λ next. next ≡ Next.Ask → self.old.ways.asks ≡ true) }
        ensures trims { IfOk result (λ next. next ≡ Next.Trim → self.old.ways.trims ≡ true) }
    {
        if self.ways.trims && self.is_long() {
            return Ok(Next::Trim);
        }
        if self.ways.asks && self.is_time(reader)? {
            self.asked = Some(Instant::now(&self.rt)?);
            return Ok(Next::Ask);
        }
        Ok(Next::Line)
    }

    /// The log was trimmed, if it could be.
    pub fn trimmed(&mut self)
        ensures { self.new.ways ≡ self.old.ways }
    {
        if let Some(size) = size_of(&self.rt, self.log) {
            self.growth = self.growth.trimmed(size);
        }
    }
}
