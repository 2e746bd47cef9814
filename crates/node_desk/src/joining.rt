//! A JOINED of the input.

ghost use Rattle.std.specs.Prelude.{◌≡◌, IfOk};
ghost use Rattle.node_desk.specs.Words.{JoinsByLine, child_case, join_line, joined_line, joining_at, joining_by};

use node_lines::line_of;
use protocol::{Case, Envelope, Message, ProcessId, Ticket};
use std::alloc::{AllocError, Global};
use std::str;
use trace_lines::{push, push_case, push_number};

/// A child that has joined a case, by this ticket.
#[derive(Clone, Copy)]
pub struct Joining {
    pub child: ProcessId,
    pub case: Case,
    pub ticket: Ticket,
}

/// Who has joined, by a message; None, if it is no JOINED.
fn joining_by(envelope: &Envelope) -> Option<Joining>
    ensures { result ≡ joining_by envelope.now }
{
    match &envelope.message {
        Message::Joined(case, ticket) => Some(Joining {
            child: envelope.from,
            case: *case,
            ticket: *ticket,
        }),
        _ => None,
    }
}

/// Who has joined, by the text of a line.
fn joining_at(alloc: Global, root: ProcessId, line: &str) -> Result<Option<Joining>, AllocError>
    ensures { IfOk result (λ joining. joining ≡ joining_at root line.now) }
{
    match line_of(alloc, root, line)? {
        Some((_, envelope)) => Ok(joining_by(&envelope)),
        None => Ok(None),
    }
}

/// Who has joined, by a line of the input over a tree with this root; None, if it is no JOINED.
pub fn joining_in(
    alloc: Global,
    root: ProcessId,
    line: &[u8],
) -> Result<Option<Joining>, AllocError>
    ensures { IfOk result (JoinsByLine root line.now) }
{
    match str::from_utf8(line) {
        Ok(line) => joining_at(alloc, root, line),
        Err(_) => Ok(None),
    }
}

impl Joining {
    /// The case of the child.
    fn child_case(&self) -> Case
        ensures { result ≡ child_case self.now }
    {
        Case {
            txn: self.case.txn,
            ticket: Some(self.ticket),
        }
    }

    /// The line that asks whether the case still takes the child: its answer has a JOIN, if it does.
    pub fn join_line(&self, alloc: Global) -> Result<Vec<u8>, AllocError>
        ensures { IfOk result (λ line. line.items ≡ join_line self.now) }
    {
        let mut line = Vec::new(alloc);
        push(&mut line, "join ")?;
        push_case(&mut line, &self.case)?;
        push(&mut line, " ")?;
        push_number(&mut line, self.child.0 as u64)?;
        Ok(line)
    }

    /// The line that tells that the child has joined.
    pub fn joined_line(&self, alloc: Global) -> Result<Vec<u8>, AllocError>
        ensures { IfOk result (λ line. line.items ≡ joined_line self.now) }
    {
        let mut line = Vec::new(alloc);
        push(&mut line, "joined ")?;
        push_case(&mut line, &self.case)?;
        push(&mut line, " ")?;
        push_number(&mut line, self.child.0 as u64)?;
        push(&mut line, " ")?;
        push_case(&mut line, &self.child_case())?;
        push(&mut line, "\n")?;
        Ok(line)
    }
}
