//! Floor: engines and program.
//!
//! Runs scripts, and each of them again and again with one allocation refused: the first, the second, and so
//! on, until a run meets none. What is refused changes nothing, and what is asked once more is done. Standard
//! input lists the scripts, a line each: `tree NAME`, `xa NAME`, or `reopened NAME` of a tree script that
//! begins its events with logs, over which the tree opens again and again.
//!
//! The refusal comes from outside (`tools/refuse.c`, preloaded). Without it each script is run once.
#![tactic(auto)]

mod calls;
mod refuser;
mod reopenings;
mod trees;

use crate::calls::sweep_requests;
use crate::refuser::Refuser;
use crate::reopenings::sweep_reopening;
use crate::trees::sweep_events;
use std::alloc::Global;
use std::{fs, io};

/// What the runs of a script met.
#[derive(Clone, Copy)]
pub(crate) struct Met {
    pub(crate) runs: u64,
    pub(crate) refusals: u64,
}

impl Met {
    pub(crate) fn nothing() -> Met {
        Met {
            runs: 0,
            refusals: 0,
        }
    }

    /// These, and those of another sweep.
    pub(crate) fn add(&mut self, other: Met) {
        self.runs = self.runs.saturating_add(other.runs);
        self.refusals = self.refusals.saturating_add(other.refusals);
    }
}

/// The scripts that can be run.
#[derive(Clone, Copy)]
enum Program {
    Tree,
    Xa,
    Reopened,
}

impl Program {
    /// The program of a line that begins with this word.
    fn of(word: &str) -> Option<Program> {
        match word {
            "tree" => Some(Program::Tree),
            "xa" => Some(Program::Xa),
            "reopened" => Some(Program::Reopened),
            _ => None,
        }
    }

    fn ending(self) -> &'static str {
        match self {
            Program::Tree | Program::Reopened => "tree",
            Program::Xa => "xa",
        }
    }

    /// Runs a script with each allocation refused in turn. None if one of these runs goes wrong.
    fn sweep(self, alloc: Global, refuser: &mut Refuser, input: &[u8]) -> Option<Met> {
        match self {
            Program::Tree => sweep_events(alloc, refuser, input),
            Program::Xa => sweep_requests(alloc, refuser, input),
            Program::Reopened => sweep_reopening(alloc, refuser, input),
        }
    }
}

/// What the runs of the script of a line met. None if the line names no script, or a run goes wrong.
fn sweep_line(rt: &HostRuntime, refuser: &mut Refuser, line: &str) -> io::Result<Option<Met>> {
    let Some((word, name)) = line.split_once(' ') else {
        return Ok(None);
    };
    let Some(program) = Program::of(word) else {
        return Ok(None);
    };
    let path = format!(in rt.alloc(); "{name}.{}", program.ending())?;
    let input = fs::read(rt, path.as_str())?;
    Ok(program.sweep(rt.alloc(), refuser, input.as_slice()))
}

/// Runs the script of a line, and says what its runs met.
fn run_line(rt: &HostRuntime, refuser: &mut Refuser, line: &str, all: &mut Met) -> io::Result<()> {
    match sweep_line(rt, refuser, line)? {
        None => println!(rt; "{line}: failed"),
        Some(met) => {
            all.add(met);
            let Met { runs, refusals } = met;
            println!(rt; "{line}: {runs} runs, {refusals} refusals")
        }
    }
}

fn main(rt: HostRuntime) -> io::Result<()> {
    let mut refuser = Refuser::new(rt.alloc());
    let mut all = Met::nothing();
    for line in rt.lines(rt.alloc()) {
        let line = line?;
        run_line(&rt, &mut refuser, line.as_str(), &mut all)?;
    }
    let Met { runs, refusals } = all;
    println!(rt; "{runs} runs, {refusals} refusals")
}
