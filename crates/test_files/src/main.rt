//! Floor: engines and program.
//!
//! Runs stores over files: over a file in memory whose calls fail one after another, what each failure and
//! each cut of power leaves is read; and over a file of the system one is made, filled, opened again and
//! damaged.
#![tactic(auto)]

mod fake;
mod faults;
mod files;

use std::io;

fn main(rt: HostRuntime) -> io::Result<()> {
    let faults = faults::run(rt.alloc()).unwrap_or(0);
    println!(rt; "{faults} ends of a file in memory read as they must")?;
    let files = files::run(&rt);
    println!(rt; "files of the system: {files}")
}
