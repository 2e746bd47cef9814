//! Floor: the state of a tree.
//!
//! What a tree that runs keeps, what each event makes of it, and what a process stands for in the model:
//! definitions alone, so that code over them waits for no law.
#![tactic(auto)]
