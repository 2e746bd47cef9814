//! Floor: engines and program.
//!
//! Runs the worked rows: for each the script or the logs that it begins with, and the text and the exit
//! status that it must end with. The folder data/ holds them; standard input lists them, a row a line:
//! PROGRAM NAME STATUS. What no script can show of the engines, and of the tree that runs, is a row `edge
//! NAME`, a function of that name.
#![tactic(auto)]

mod damages;
mod edges;
mod fakes;
mod faults;
mod floods;
mod judges;
mod migrations;
mod parts;
mod reopenings;
mod resolves;
mod scripts;
mod stops;
mod streams;
mod worlds;

use crate::damages::{run_cuts, run_damages};
use crate::edges::holds;
use crate::judges::{judged, planned};
use crate::migrations::run_migrations;
use crate::parts::drawn;
use crate::resolves::resolved;
use crate::stops::run_stops;
use audit_engine::{Detail, run_audit, run_log};
use crash_engine::run_crash;
use doubt_count::{count_doubts, status_by};
use event_trace::event_trace;
use expand_engine::expand;
use explain_events::{Script, notes_text, refusal_text};
use judge_engine::Extent;
use left_data::data_text;
use migrate_engine::run_migrate;
use std::alloc::Global;
use std::{fs, io};
use tree_engine::{TreeOutput, run_tree};
use xa_engine::run_xa;

/// What a row runs.
#[derive(Clone, Copy)]
enum Program {
    /// A tree script, for its trace.
    Tree,
    /// A tree script, for the logs that it leaves.
    Logs,
    /// A tree script, for its trace and the counts after it.
    Counts,
    /// A tree script, for the picture of its run.
    Picture,
    /// A part of a run and a tree script, for the picture of the part.
    Part,
    /// A tree script, for the data that it leaves.
    Data,
    /// A tree script, for its trace with the number of its event before each line.
    Events,
    /// A script that names messages, for the script of specified events that it comes to.
    Expand,
    /// A tree script, for what its crashes end with.
    Crash,
    /// A tree script, for what stops of its devices end with.
    Stops,
    /// A tree script that is cut at each byte.
    Cuts,
    /// The logs of a tree, the first with each byte set to each value.
    Damages,
    /// An XA script.
    Xa,
    /// The logs of a tree, for what they hold.
    Log,
    /// The logs of a tree, for the same logs by the second format.
    Migrate,
    /// The logs of a tree, for what stops of their migrations leave.
    Migrations,
    /// The logs of a tree, for how its cases stand and end.
    Audit,
    /// Likewise, and what decided those that are in doubt or show a mismatch.
    Explain,
    /// The logs of a tree, for how many of its cases are in doubt.
    Doubts,
    /// Names of branches and the logs of a tree, for what is to be done with them.
    Resolve,
    /// What a resource manager answered, for the verdict: the first fault, or all.
    Judge(Extent),
    /// A seed and a number of calls, for the script of calls.
    Plan,
    /// An input that a program refuses, or an event of it, for what is told of it.
    Why(Script),
    /// A tree script, for what is to be noted of its run.
    Notes,
}

/// What is told of an input that is refused. No status where it fails.
fn told(alloc: Global, script: Script, input: &[u8], out: &mut Vec<u8>) -> Option<u8> {
    let text = refusal_text(alloc, script, input).ok()?;
    out.extend_from_slice(text.as_bytes()).ok()?;
    Some(0)
}

/// Audits logs: the exit status, and what it writes. No status where it fails.
fn audited(alloc: Global, detail: Detail, mut input: &[u8], out: &mut Vec<u8>) -> Option<u8> {
    let ending = run_audit(alloc, detail, &mut input, out).ok()?;
    Some(ending.number())
}

/// Audits logs and counts the cases in doubt: the exit status, and what it writes. No status where it fails.
fn doubted(alloc: Global, input: &[u8], out: &mut Vec<u8>) -> Option<u8> {
    let audited = audited(alloc, Detail::Lines, input, out)?;
    let Some(count) = count_doubts(alloc, input).ok()? else {
        return Some(audited);
    };
    let line = format!(in alloc; "in-doubt {count}\n").ok()?;
    out.extend_from_slice(line.as_bytes()).ok()?;
    Some(status_by(audited, count))
}

/// What a script that names messages comes to; the sentence of what is wrong with it, with status 1. No
/// status where it fails.
fn expanded(alloc: Global, input: &[u8], out: &mut Vec<u8>) -> Option<u8> {
    match expand(alloc, input).ok()? {
        Ok(text) => {
            out.extend_from_slice(&text).ok()?;
            Some(0)
        }
        Err(fault) => {
            let line = format!(in alloc; "{fault}\n").ok()?;
            out.extend_from_slice(line.as_bytes()).ok()?;
            Some(1)
        }
    }
}

impl Program {
    /// The program of a row that begins with this word.
    fn of(word: &str) -> Option<Self> {
        match word {
            "tree" => Some(Program::Tree),
            "logs" => Some(Program::Logs),
            "counts" => Some(Program::Counts),
            "picture" => Some(Program::Picture),
            "part" => Some(Program::Part),
            "data" => Some(Program::Data),
            "events" => Some(Program::Events),
            "expand" => Some(Program::Expand),
            "crash" => Some(Program::Crash),
            "stops" => Some(Program::Stops),
            "cuts" => Some(Program::Cuts),
            "damages" => Some(Program::Damages),
            "xa" => Some(Program::Xa),
            "log" => Some(Program::Log),
            "migrate" => Some(Program::Migrate),
            "migrations" => Some(Program::Migrations),
            "audit" => Some(Program::Audit),
            "explain" => Some(Program::Explain),
            "doubts" => Some(Program::Doubts),
            "resolve" => Some(Program::Resolve),
            "judge" => Some(Program::Judge(Extent::First)),
            "judge_all" => Some(Program::Judge(Extent::All)),
            "plan" => Some(Program::Plan),
            "notes" => Some(Program::Notes),
            "why_tree" => Some(Program::Why(Script::Tree)),
            "why_xa" => Some(Program::Why(Script::Xa)),
            "why_log" => Some(Program::Why(Script::Logs)),
            _ => None,
        }
    }

    /// How the names of its input and of its output end.
    fn endings(self) -> (&'static str, &'static str) {
        match self {
            Program::Tree => ("tree", "out"),
            Program::Logs => ("tree", "logs"),
            Program::Counts => ("tree", "counts"),
            Program::Picture => ("tree", "svg"),
            Program::Part => ("part", "drawn"),
            Program::Data => ("tree", "data"),
            Program::Events => ("tree", "events"),
            Program::Expand => ("words", "expanded"),
            Program::Crash => ("tree", "crashes"),
            Program::Stops => ("tree", "stops"),
            Program::Cuts => ("tree", "cuts"),
            Program::Damages => ("logs", "damages"),
            Program::Xa => ("xa", "out"),
            Program::Migrations => ("logs", "migrations"),
            Program::Log | Program::Migrate | Program::Audit | Program::Explain => ("logs", "out"),
            Program::Doubts => ("logs", "doubts"),
            Program::Resolve => ("names", "out"),
            Program::Judge(_) => ("calls", "out"),
            Program::Plan => ("plan", "xa"),
            Program::Notes => ("tree", "notes"),
            Program::Why(Script::Tree) => ("tree", "why"),
            Program::Why(Script::Xa) => ("xa", "why"),
            Program::Why(Script::Logs) => ("logs", "why"),
        }
    }

    /// Runs it on this input: the exit status, and what it writes. No status where it fails.
    fn run(self, alloc: Global, mut input: &[u8], out: &mut Vec<u8>) -> Option<u8> {
        let ended = match self {
            Program::Tree => run_tree(alloc, TreeOutput::Trace, &mut input, out),
            Program::Logs => run_tree(alloc, TreeOutput::Logs, &mut input, out),
            Program::Counts => run_tree(alloc, TreeOutput::Counts, &mut input, out),
            Program::Picture => run_tree(alloc, TreeOutput::Picture, &mut input, out),
            Program::Part => return drawn(alloc, input, out),
            Program::Data => {
                let text = data_text(alloc, input).ok()??;
                out.extend_from_slice(&text).ok()?;
                return Some(0);
            }
            Program::Events => {
                let (text, status) = event_trace(alloc, input).ok()??;
                out.extend_from_slice(&text).ok()?;
                return Some(status.number());
            }
            Program::Expand => return expanded(alloc, input, out),
            Program::Crash => {
                let mut progress = Vec::new(alloc);
                let ending = run_crash(alloc, &mut input, out, &mut progress).ok()?;
                return Some(ending.number());
            }
            Program::Stops => {
                run_stops(alloc, input, out)?;
                return Some(0);
            }
            Program::Cuts => {
                run_cuts(alloc, input, out)?;
                return Some(0);
            }
            Program::Damages => {
                run_damages(alloc, input, out)?;
                return Some(0);
            }
            Program::Xa => run_xa(alloc, &mut input, out),
            Program::Migrations => {
                run_migrations(alloc, input, out)?;
                return Some(0);
            }
            Program::Log => run_log(alloc, &mut input, out),
            Program::Migrate => run_migrate(alloc, &mut input, out),
            Program::Audit => return audited(alloc, Detail::Lines, input, out),
            Program::Explain => return audited(alloc, Detail::Explained, input, out),
            Program::Doubts => return doubted(alloc, input, out),
            Program::Resolve => return resolved(alloc, input, out),
            Program::Judge(extent) => return judged(alloc, extent, input, out),
            Program::Plan => return planned(alloc, input, out),
            Program::Notes => {
                let text = notes_text(alloc, input, true).ok()?;
                out.extend_from_slice(text.as_bytes()).ok()?;
                return Some(0);
            }
            Program::Why(script) => return told(alloc, script, input, out),
        };
        Some(ended.ok()?.number())
    }
}

/// A row: its program, its name, and the exit status that it must end with.
#[derive(Drop)]
struct Row<'a> {
    program: Program,
    name: &'a str,
    status: u8,
}

impl<'a> Row<'a> {
    /// The row of a line.
    fn read(line: &'a str) -> Option<Self> {
        let (word, rest) = line.split_once(' ')?;
        let (name, status) = rest.split_once(' ')?;
        Some(Row {
            program: Program::of(word)?,
            name,
            status: status.parse().ok()?,
        })
    }

    /// A file of it, whose name ends so.
    fn file(&self, rt: &HostRuntime, ending: &str) -> io::Result<Vec<u8>> {
        let name = self.name;
        let path = format!(in rt.alloc(); "{name}.{ending}")?;
        fs::read(rt, path.as_str())
    }

    /// Whether it ends as it must.
    fn passes(&self, rt: &HostRuntime) -> io::Result<bool> {
        let (input, output) = self.program.endings();
        let input = self.file(rt, input)?;
        let wanted = self.file(rt, output)?;
        let mut out = Vec::new(rt.alloc());
        let status = self.program.run(rt.alloc(), input.as_slice(), &mut out);
        Ok(status == Some(self.status) && out.as_slice() == wanted.as_slice())
    }
}

/// Whether the row of a line ends as it must.
fn passes(rt: &HostRuntime, line: &str) -> io::Result<bool> {
    if let Some(edge) = line.strip_prefix("edge ") {
        return Ok(holds(rt.alloc(), edge));
    }
    match Row::read(line) {
        Some(row) => row.passes(rt),
        None => Ok(false),
    }
}

/// Runs the row of a line, and says where it does not end as it must. Answers whether it does.
fn run_line(rt: &HostRuntime, line: &str) -> io::Result<bool> {
    let passes = passes(rt, line)?;
    if !passes {
        println!(rt; "{line}: failed")?;
    }
    Ok(passes)
}

fn main(rt: HostRuntime) -> io::Result<()> {
    let mut passed = 0u64;
    for line in rt.lines(rt.alloc()) {
        let line = line?;
        if run_line(&rt, line.as_str())? {
            passed = passed.saturating_add(1);
        }
    }
    println!(rt; "{passed} rows passed")
}
