//! What a parent and its child say to one another.

ghost use Rattle.std.specs.Prelude.{◌≡◌, IfOk};

use crate::lists::Sequence;
use crate::names::{Case, Outcome, ProcessId, Ticket};
use short_bytes::Bytes;
use std::alloc::{AllocError, Global};

/// One operation on a manager's data: keys have 1 to 64 bytes, values 0 to 256.
#[derive(Drop)]
pub enum Op {
    Put(Bytes, Bytes),
    Get(Bytes),
    Delete(Bytes),
}

impl Op {
    /// A copy of the operation.
    pub fn copied(&self, alloc: Global) -> Result<Op, AllocError>
        ensures { IfOk result (λ copy. copy ≡ self.now) }
    {
        Ok(match self {
            Op::Put(key, value) => Op::Put(key.copied(alloc)?, value.copied(alloc)?),
            Op::Get(key) => Op::Get(key.copied(alloc)?),
            Op::Delete(key) => Op::Delete(key.copied(alloc)?),
        })
    }
}

/// What an acknowledgement tells of a ticket at or below the one that acknowledges.
#[derive(Clone, Copy, PartialEq, Eq)]
pub enum Finding {
    /// The operator of its manager decided against the outcome.
    Mixed(Ticket),
    /// What became of it is not known any more.
    Unreported(Ticket),
}

/// What an acknowledgement found, in the order in which it came together.
pub type Findings = Sequence<Finding>;

/// A message between a parent and its child (R*). JOIN and JOINED name the parent's case, the others the
/// child's.
#[derive(Drop)]
pub enum Message {
    /// A parent asks its child to take part.
    Join(Case),
    /// The child's ticket.
    Joined(Case, Ticket),
    /// The work with this number, from 1 for each ticket.
    Work(Case, u64, Op),
    /// The parent asks for a vote, and says how many works it sent.
    Prepare(Case, u64),
    Yes(Case),
    No(Case),
    /// The vote of a child that changed nothing.
    Read(Case),
    Commit(Case),
    Abort(Case),
    /// The outcome is obeyed, with what was found at and below the child.
    Ack(Case, Outcome, Findings),
    /// A child in doubt asks for the outcome.
    Inquire(Case),
}

impl Message {
    /// A copy of the message.
    pub fn copied(&self, alloc: Global) -> Result<Message, AllocError>
        ensures { IfOk result (λ copy. copy ≡ self.now) }
    {
        Ok(match self {
            Message::Join(case) => Message::Join(*case),
            Message::Joined(case, ticket) => Message::Joined(*case, *ticket),
            Message::Work(case, index, op) => Message::Work(*case, *index, op.copied(alloc)?),
            Message::Prepare(case, count) => Message::Prepare(*case, *count),
            Message::Yes(case) => Message::Yes(*case),
            Message::No(case) => Message::No(*case),
            Message::Read(case) => Message::Read(*case),
            Message::Commit(case) => Message::Commit(*case),
            Message::Abort(case) => Message::Abort(*case),
            Message::Ack(case, outcome, findings) => {
                Message::Ack(*case, *outcome, findings.copied(alloc)?)
            }
            Message::Inquire(case) => Message::Inquire(*case),
        })
    }
}

/// A message with its sender and its receiver.
#[derive(Drop)]
pub struct Envelope {
    pub from: ProcessId,
    pub to: ProcessId,
    pub message: Message,
}

impl Envelope {
    /// A copy of the message, with its sender and its receiver.
    pub fn copied(&self, alloc: Global) -> Result<Envelope, AllocError>
        ensures { IfOk result (λ copy. copy ≡ self.now) }
    {
        Ok(Envelope {
            from: self.from,
            to: self.to,
            message: self.message.copied(alloc)?,
        })
    }
}

/// Messages, in the order in which they were sent.
pub type Envelopes = Sequence<Envelope>;
