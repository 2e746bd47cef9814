//! Floor: the log.
//!
//! The log of a process: records over a store of bytes.
//!
//! A log is a header and then frames, and perhaps a torn tail: a frame with fewer bytes than its header and
//! length say. All numbers are big-endian. There are two formats; a log of the first is read, and carried
//! over into the second, in which all logs are written.
//!
//! | Offset | Bytes | What |
//! |---|---|---|
//! | 0 | 4 | `52 4c 4f 47`, "RLOG" |
//! | 4 | 1 | `02`, the format's number (`01`: the first format) |
//! | 5 | .. | frames, one after the other |
//!
//! | Offset in a frame | Bytes | What |
//! |---|---|---|
//! | 0 | 1 | the record's kind, 01 to 08 or 11 to 1a |
//! | 1 | 4 | the length of the payload (2 bytes in the first format) |
//! | 5 | .. | the payload |
//!
//! The log of a root that committed one transaction of two children, 126 bytes (115 in the first format,
//! where Opened has its boot alone):
//!
//! ```text
//!   0  52 4c 4f 47 02                    the header
//!   5  01 0000000d  0000000000000001     Opened, boot 1
//!  18     00000001 00                    of process 1, a coordinator (01: a manager)
//!  23  04 00000043                       Commit, 67 bytes of payload
//!  28     00000fa1 14 00                 an XID: format 4001 (Presumed Abort), gtrid of 20 bytes, no bqual
//!  34     00000001 0000000000000001 0000000000000001       root 1, boot 1, sequence 1
//!  54     02                             two tickets
//!  55     00000002 0000000000000001 0000000000000001       child 2, boot 1, number 1
//!  75     00000003 0000000000000001 0000000000000001       child 3, boot 1, number 1
//!  95  06 0000001a                       End, 26 bytes of payload
//! 100     00000fa1 14 00  00000001 0000000000000001 0000000000000001
//! ```
#![tactic(auto)]

pub mod law;
mod log;
mod migrating;
mod opening;
mod trimming;

pub use log::{LogError, RecLog};
pub use migrating::MigrateError;
pub use opening::{LogOpenError, StoreText, find};
