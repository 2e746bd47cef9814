//! Floor: engines and program.
//!
//! Runs clusters. Standard input lists the rows, a row a line. `run NAME WORKERS STATUS` is a tree script of
//! the folder data/, NAME.tree, run by N workers: the text that is written, NAME.told, and the exit status.
//! What no script can show is a row `edge NAME`, a function of that name: two processes step at the same
//! time, each answered call is in the journal, each message is delivered once, works of a case keep their
//! order, restarts come under way, and a journal is full. Each holds by itself, whatever the schedule.
#![tactic(auto)]

mod callers;
mod deliveries;
mod edges;
mod floods;
mod meeting;
mod opening;
mod records;
mod replay;
mod restarts;
mod scripts;
mod works;

use crate::edges::holds;
use crate::scripts::run_row;
use std::io;
use std::sync::Wait;
use std::thread::Threads;

/// Whether the row of a line ends as it must.
fn passes<T: Threads + Wait + Sync>(rt: &HostRuntime, threads: &T, line: &str) -> io::Result<bool> {
    if let Some(edge) = line.strip_prefix("edge ") {
        return Ok(holds(threads, rt.alloc(), edge));
    }
    run_row(rt, threads, line)
}

/// Runs the row of a line, and says where it does not end as it must. Answers whether it does.
fn run_line<T: Threads + Wait + Sync>(
    rt: &HostRuntime,
    threads: &T,
    line: &str,
) -> io::Result<bool> {
    let passes = passes(rt, threads, line)?;
    if !passes {
        println!(rt; "{line}: failed")?;
    }
    Ok(passes)
}

/// Runs the rows that standard input lists.
fn run_lines<T: Threads + Wait + Sync>(rt: &HostRuntime, threads: &T) -> io::Result<()> {
    let mut passed = 0u64;
    for line in rt.lines(rt.alloc()) {
        let line = line?;
        if run_line(rt, threads, line.as_str())? {
            passed = passed.saturating_add(1);
        }
    }
    println!(rt; "{passed} rows passed")
}

fn main(rt: HostRuntime) -> io::Result<()> {
    run_lines(&rt, &rt)
}
