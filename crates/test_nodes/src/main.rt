//! Floor: engines and program.
//!
//! Runs trees of nodes: over stores in memory, joined by a net that loses, repeats and reorders, where nodes
//! end and others start over what a crash leaves of their logs; and one node over a file of the system.
#![tactic(auto)]

mod chance;
mod files;
mod lines;
mod net;
mod trial;

use std::io;

const SEEDS: u64 = 6;

fn main(rt: HostRuntime) -> io::Result<()> {
    for seed in 1..=SEEDS {
        match trial::run(rt.alloc(), seed) {
            Some(text) => println!(rt; "seed {seed}: {text}")?,
            None => println!(rt; "seed {seed}: failed")?,
        }
    }
    let lines = trial::run_lines(rt.alloc());
    println!(rt; "lines of nodes: {lines}")?;
    let files = files::run(&rt);
    println!(rt; "a file of the system: {files}")
}
