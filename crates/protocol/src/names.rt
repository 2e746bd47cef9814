//! Processes, transactions, tickets and cases.

ghost use Rattle.std.specs.Prelude.{◌≡◌};
ghost use Rattle.std.specs.Cmp.Rules.{hashing};
ghost use Rattle.std.specs.Hash as fed;
ghost use Rattle.std.proofs.Common.{rules};
ghost use Rattle.protocol.specs.Digests.{ticket_digest, txn_digest};
ghost use Rattle.protocol.specs.ManagerRows.{is_acknowledged};
ghost use Rattle.protocol.specs.Names.{process_of, same_case, same_ticket, same_txn};
ghost use Rattle.protocol.specs.declared.names.Case.{Case as AnyCase};
ghost use Rattle.protocol.specs.declared.names.Ticket.{Ticket as AnyTicket};
ghost use Rattle.protocol.specs.declared.names.Txn.{Txn as AnyTxn};

use crate::lists::Sequence;
use std::fmt;
use std::hash::{Hash, Hasher};
use xa_xid::digest::mixed;

/// Boots, the numbers of transactions and of tickets, and commits are below this in a log.
pub const NUMBERS: u64 = 1 << 63;

/// The largest of them. Nothing more is numbered once it is reached.
pub const LAST_NUMBER: u64 = NUMBERS - 1;

/// A process of the tree, by its number.
#[derive(Clone, Copy, Debug, PartialEq, Eq, PartialOrd, Ord, Hash)]
pub struct ProcessId(pub u32);

impl fmt::Display for ProcessId {
    ghost use Rattle.std.specs.Prelude.{Some};
    ghost use Rattle.std.specs.Fmt.{decimal};

    ghost output = { λ process. Some (decimal process.0) };

    fn fmt<W: fmt::Write>(&self, f: &mut fmt::Formatter<W>) -> fmt::Result {
        write!(f, "{}", self.0)
    }
}

/// What a process is: a coordinator (the root or below it), or a resource manager at a leaf.
#[derive(Clone, Copy, PartialEq, Eq)]
pub enum Kind {
    Coordinator,
    Manager,
}

/// What an inquiry gets where its case has left no information (R*: Presumed Abort, Presumed Commit).
#[derive(Clone, Copy, PartialEq, Eq)]
pub enum Presumption {
    PresumeAbort,
    PresumeCommit,
}

/// How a transaction ends.
#[derive(Clone, Copy, PartialEq, Eq)]
pub enum Outcome {
    Committed,
    Aborted,
}

impl Outcome {
    /// Whether it is acknowledged, and so forced: where the presumption does not cover it (R*).
    pub fn is_acknowledged(self, presumption: Presumption) -> bool
        ensures { result ≡ is_acknowledged presumption self }
    {
        match presumption {
            Presumption::PresumeAbort => matches!(self, Outcome::Committed),
            Presumption::PresumeCommit => matches!(self, Outcome::Aborted),
        }
    }
}

/// A transaction's name: the root that began it, the presumption that the root chose, the root's boot, and
/// its number in that boot (both from 1).
#[derive(Clone, Copy, PartialEq, Eq)]
pub struct Txn {
    pub root: ProcessId,
    pub presumption: Presumption,
    pub boot: u64,
    pub sequence: u64,
}

impl Txn {
    /// Whether the other name is the same.
    #[tactic(auto, using(crate::proofs::Equality::txn_equality))]
    pub fn is(&self, other: &Txn) -> bool
        ensures { result ≡ same_txn self.now other.now }
    {
        self == other
    }

    /// A number made of all that the name has, to be hashed.
    #[tactic(auto, unfolding(crate::specs::Digests::txn_digest))]
    pub fn digest(&self) -> u64
        ensures { result ≡ txn_digest self.now }
    {
        let presumption = match self.presumption {
            Presumption::PresumeAbort => 0,
            Presumption::PresumeCommit => 1,
        };
        let root = mixed(presumption, self.root.0 as u64);
        mixed(mixed(root, self.boot), self.sequence)
    }
}

/// One number is fed, made of all that the name has.
impl Hash for Txn {
    ghost hash_input = { λ x. fed.u64 (txn_digest x) };

    ghost respects_eq = { Prim.search (hashing, rules) };

    fn hash<H: Hasher>(&self, state: &mut H) {
        state.write_u64(self.digest());
    }
}

/// A child's promise to take part in one case of its parent: the child, its boot, and the number in that boot
/// (both from 1). It is issued once and never again.
#[derive(Clone, Copy, PartialEq, Eq)]
pub struct Ticket {
    pub child: ProcessId,
    pub boot: u64,
    pub number: u64,
}

impl Ticket {
    /// Whether the other name is the same.
    #[tactic(auto, using(crate::proofs::Equality::ticket_equality))]
    pub fn is(&self, other: &Ticket) -> bool
        ensures { result ≡ same_ticket self.now other.now }
    {
        self == other
    }

    /// A number made of all that the name has, to be hashed.
    #[tactic(auto, unfolding(crate::specs::Digests::ticket_digest))]
    pub fn digest(&self) -> u64
        ensures { result ≡ ticket_digest self.now }
    {
        mixed(mixed(self.child.0 as u64, self.boot), self.number)
    }
}

/// One number is fed, made of all that the name has.
impl Hash for Ticket {
    ghost hash_input = { λ x. fed.u64 (ticket_digest x) };

    ghost respects_eq = { Prim.search (hashing, rules) };

    fn hash<H: Hasher>(&self, state: &mut H) {
        state.write_u64(self.digest());
    }
}

/// Tickets, in order of acceptance.
pub type Tickets = Sequence<Ticket>;

/// A transaction at one process: at the root with no ticket, elsewhere with the process's own.
#[derive(Clone, Copy, PartialEq, Eq, Hash)]
pub struct Case {
    pub txn: Txn,
    pub ticket: Option<Ticket>,
}

impl Case {
    /// Whether the other name is the same.
    #[tactic(auto, using(crate::proofs::Equality::case_equality))]
    pub fn is(&self, other: &Case) -> bool
        ensures { result ≡ same_case self.now other.now }
    {
        self == other
    }

    /// The process where the case stands: its ticket's child, or the root.
    pub fn process(&self) -> ProcessId
        ensures { result ≡ process_of self.now }
    {
        match self.ticket {
            None => self.txn.root,
            Some(ticket) => ticket.child,
        }
    }
}

/// The equality of names, in code and as the keys of a map, is that of the definitions.
pub fn equal_by_parts()
    ensures txn { (a b : AnyTxn) → ⟦<Txn as PartialEq>⟧.eq a b ≡ same_txn a b }
    ensures ticket { (a b : AnyTicket) → ⟦<Ticket as PartialEq>⟧.eq a b ≡ same_ticket a b }
    ensures case { (a b : AnyCase) → ⟦<Case as PartialEq>⟧.eq a b ≡ same_case a b }
{}
