//! The rows that are scripts.

use cluster_engine::{ClusterOutput, run_cluster};
use cluster_process::Open;
use std::alloc::Global;
use std::sync::Wait;
use std::thread::Threads;
use std::{fs, io};

/// A row: the name of its script, how many workers run it, and the exit status that it must end with.
#[derive(Drop)]
struct Row<'a> {
    name: &'a str,
    workers: usize,
    status: u8,
}

impl<'a> Row<'a> {
    /// The row of a line.
    fn read(line: &'a str) -> Option<Self> {
        let rest = line.strip_prefix("run ")?;
        let (name, rest) = rest.split_once(' ')?;
        let (workers, status) = rest.split_once(' ')?;
        Some(Row {
            name,
            workers: workers.parse().ok()?,
            status: status.parse().ok()?,
        })
    }

    /// A file of it, whose name ends so.
    fn file(&self, rt: &HostRuntime, ending: &str) -> io::Result<Vec<u8>> {
        let name = self.name;
        let path = format!(in rt.alloc(); "{name}.{ending}")?;
        fs::read(rt, path.as_str())
    }
}

/// Runs a script by N workers: the exit status, and what it writes. No status where it fails.
fn run<R: Threads + Wait + Sync>(
    rt: &R,
    alloc: Global,
    workers: usize,
    mut input: &[u8],
    out: &mut Vec<u8>,
) -> Option<u8> {
    if workers == 0 || workers > 16 {
        return None;
    }
    let ended = run_cluster(
        rt,
        alloc,
        ClusterOutput::Told,
        workers,
        &Open,
        &mut input,
        out,
    );
    Some(ended.ok()?.number())
}

/// Whether the row of a line ends as it must.
pub fn run_row<T: Threads + Wait + Sync>(
    rt: &HostRuntime,
    threads: &T,
    line: &str,
) -> io::Result<bool> {
    let Some(row) = Row::read(line) else {
        return Ok(false);
    };
    let input = row.file(rt, "tree")?;
    let wanted = row.file(rt, "told")?;
    let mut out = Vec::new(rt.alloc());
    let status = run(threads, rt.alloc(), row.workers, input.as_slice(), &mut out);
    Ok(status == Some(row.status) && out.as_slice() == wanted.as_slice())
}
