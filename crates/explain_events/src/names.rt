//! Names as text.

use protocol::{Case, Outcome, Presumption, Ticket, Txn};
use std::fmt;

/// A transaction's name, as `a1.1`.
#[derive(Clone, Copy, PartialEq, Eq)]
pub struct TxnName(pub Txn);

impl fmt::Debug for TxnName {
    fn fmt<W: fmt::Write>(&self, f: &mut fmt::Formatter<W>) -> fmt::Result {
        write!(f, "{self}")
    }
}

impl fmt::Display for TxnName {
    fn fmt<W: fmt::Write>(&self, f: &mut fmt::Formatter<W>) -> fmt::Result {
        let letter = match self.0.presumption {
            Presumption::PresumeAbort => "a",
            Presumption::PresumeCommit => "c",
        };
        let boot = self.0.boot;
        let sequence = self.0.sequence;
        write!(f, "{letter}{boot}.{sequence}")
    }
}

/// A ticket's name, as `2.1.1`.
#[derive(Clone, Copy, PartialEq, Eq)]
pub struct TicketName(pub Ticket);

impl fmt::Debug for TicketName {
    fn fmt<W: fmt::Write>(&self, f: &mut fmt::Formatter<W>) -> fmt::Result {
        write!(f, "{self}")
    }
}

impl fmt::Display for TicketName {
    fn fmt<W: fmt::Write>(&self, f: &mut fmt::Formatter<W>) -> fmt::Result {
        let child = self.0.child.0;
        let boot = self.0.boot;
        let number = self.0.number;
        write!(f, "{child}.{boot}.{number}")
    }
}

/// A case's name, as `a1.1` or `a1.1@2.1.1`.
#[derive(Clone, Copy, PartialEq, Eq)]
pub struct CaseName(pub Case);

impl fmt::Debug for CaseName {
    fn fmt<W: fmt::Write>(&self, f: &mut fmt::Formatter<W>) -> fmt::Result {
        write!(f, "{self}")
    }
}

impl fmt::Display for CaseName {
    fn fmt<W: fmt::Write>(&self, f: &mut fmt::Formatter<W>) -> fmt::Result {
        let txn = TxnName(self.0.txn);
        match self.0.ticket {
            None => write!(f, "{txn}"),
            Some(ticket) => {
                let ticket = TicketName(ticket);
                write!(f, "{txn}@{ticket}")
            }
        }
    }
}

/// What an application asks of a transaction.
pub(crate) fn asked_word(outcome: Outcome) -> &'static str {
    match outcome {
        Outcome::Committed => "commit",
        Outcome::Aborted => "abort",
    }
}
