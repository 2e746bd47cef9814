//! What one step of a process can be: the turns of a manager, what a coordinator writes, and that operators'
//! records are written for operators alone. The functions do nothing: each one's contract is a law.

pub mod law;
