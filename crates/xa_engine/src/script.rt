//! XA scripts, read: one request a line.

mod reading;
mod request;

pub use reading::{XaScriptError, asking_lines, requests_of};
pub(crate) use request::request_of;
pub use request::{BranchCall, Request, RequestCall, RequestWord};
