//! Floor: the log.
//!
//! Blocks: how a log's bytes are in a file, so that what a cut of power leaves of the last write is told
//! from what was safe.
//!
//! | Bytes | What is there |
//! |---|---|
//! | 0 to 7 | `RSTARLOG` |
//! | 8 to 15 | the file's number, the highest byte first |
//! | 16 to 47 | the digest of these 16 bytes |
//! | from 48 | blocks, one after the other |
//!
//! A block at a place of the file:
//!
//! | Bytes | What is there |
//! |---|---|
//! | 0 to 7 | how many bytes it has, the highest byte first |
//! | 8 to 39 | their digest |
//! | 40 to 71 | the digest of the file's number, the place, and the 40 bytes before this one |
//! | from 72 | the bytes |
//!
//! Each digest is SHA-256. A block of another file, or at another place, is none here: so old bytes of the
//! disk are not taken for what was written.
#![tactic(auto)]

mod block;
mod file;
pub mod law;

pub use block::{HEAD, first_block, has_head, head_of, is_damaged};
pub use file::{FILE_HEAD, FileReadFault, FileText, file_head, file_number, file_start, read_file};
