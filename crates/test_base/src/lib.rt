//! Floor: engines and program.
//!
//! Tests of what a tree stands on: XA codes, scripts and copies, logs of bytes, the versions of keys, and
//! how a subordinate votes over a manager that votes as it was told.
#![tactic(auto)]

#[cfg(test)]
mod always_out_of_memory;
#[cfg(test)]
mod appends;
#[cfg(test)]
mod codes;
#[cfg(test)]
mod commits;
#[cfg(test)]
mod damage;
#[cfg(test)]
mod faults;
#[cfg(test)]
mod players;
#[cfg(test)]
mod trims;
#[cfg(test)]
mod votes;
#[cfg(test)]
mod xids;
