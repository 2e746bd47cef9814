//! Floor: engines and program.
//!
//! Names of prepared branches, as databases print them, and the cases that they name.
//!
//! ```text
//! case   a1.1@2.1.1                     as rstar prints it
//! gid    bank:a1.1@2.1.1                PostgreSQL, pg_prepared_xacts: a leaf of the tree `bank`
//! text   4003:62616e6b3a61312e31:322e312e31   an XID, as `rstar xa` prints it
//! SQL    X'62616E6B..',X'322E312E31',4003     MariaDB, XA RECOVER FORMAT='SQL'
//! JDBC   4003_YmFuazphMS4x_Mi4xLjE=     PostgreSQL, by its JDBC driver
//! ```
//!
//! An XID names a case in one of two ways: in bytes, as the key stores of rstar do (formats 4001 and 4002),
//! or in words, as the leaves over databases do (format 4003).
#![tactic(auto)]

mod cases;
mod forms;

pub use cases::{Naming, case_named};
pub use forms::xid_in;
