//! Counts of records and messages, and their sums.

ghost use Rattle.std.specs.Prelude.{◌≡◌, [], IfNone, IfSome};
ghost use Rattle.tree_engine.specs.Counts.{Fit, FitSent, count_forced, counts_of, sent_of, sent_together, together};

use crate::kinds::MessageKind;
use protocol::{Envelope, Reaction, ShownRecord};

/// How many messages of each kind were sent.
#[derive(Clone, Copy, PartialEq, Eq)]
pub struct Sent {
    pub join: u64,
    pub joined: u64,
    pub work: u64,
    pub prepare: u64,
    pub yes: u64,
    pub no: u64,
    pub read: u64,
    pub commit: u64,
    pub abort: u64,
    pub ack: u64,
    pub inquire: u64,
}

impl Sent {
    /// Those of these messages.
    pub fn of(messages: &[Envelope]) -> Sent
        ensures { result ≡ sent_of messages.now }
    {
        Sent {
            join: MessageKind::Join.count(messages),
            joined: MessageKind::Joined.count(messages),
            work: MessageKind::Work.count(messages),
            prepare: MessageKind::Prepare.count(messages),
            yes: MessageKind::Yes.count(messages),
            no: MessageKind::No.count(messages),
            read: MessageKind::Read.count(messages),
            commit: MessageKind::Commit.count(messages),
            abort: MessageKind::Abort.count(messages),
            ack: MessageKind::Ack.count(messages),
            inquire: MessageKind::Inquire.count(messages),
        }
    }

    /// Both together. None, if a sum is 2^64 or more.
    pub fn plus(self, more: Sent) -> Option<Sent>
        ensures sum { IfSome result (λ sum. sum ≡ sent_together self more) }
        ensures none { IfNone result (FitSent (sent_together self more) → ⊥) }
    {
        Some(Sent {
            join: self.join.checked_add(more.join)?,
            joined: self.joined.checked_add(more.joined)?,
            work: self.work.checked_add(more.work)?,
            prepare: self.prepare.checked_add(more.prepare)?,
            yes: self.yes.checked_add(more.yes)?,
            no: self.no.checked_add(more.no)?,
            read: self.read.checked_add(more.read)?,
            commit: self.commit.checked_add(more.commit)?,
            abort: self.abort.checked_add(more.abort)?,
            ack: self.ack.checked_add(more.ack)?,
            inquire: self.inquire.checked_add(more.inquire)?,
        })
    }
}

/// How many records were written, how many of them forced, and how many messages were sent, in all and of
/// each kind.
#[derive(Clone, Copy, PartialEq, Eq)]
pub struct Counts {
    pub records: u64,
    pub forced: u64,
    pub messages: u64,
    pub sent: Sent,
}

/// How many of these records are forced.
fn forced_of(written: &[ShownRecord]) -> u64
    ensures { result ≡ count_forced written.now }
{
    written.iter().filter(|logged| logged.forced).count() as u64
}

impl Counts {
    /// Of nothing.
    pub fn none() -> Counts
        ensures { result ≡ counts_of [] [] }
    {
        let messages = Sent {
            join: 0,
            joined: 0,
            work: 0,
            prepare: 0,
            yes: 0,
            no: 0,
            read: 0,
            commit: 0,
            abort: 0,
            ack: 0,
            inquire: 0,
        };
        Counts {
            records: 0,
            forced: 0,
            messages: 0,
            sent: messages,
        }
    }

    /// Of what one step wrote and sent.
    pub fn of(reaction: &Reaction) -> Counts
        ensures { result ≡ counts_of reaction.now.written reaction.now.messages }
    {
        let written = reaction.written.as_slice();
        let messages = reaction.messages.as_slice();
        Counts {
            records: written.len() as u64,
            forced: forced_of(written),
            messages: messages.len() as u64,
            sent: Sent::of(messages),
        }
    }

    /// Both together. None, if a sum is 2^64 or more.
    pub fn plus(self, more: Counts) -> Option<Counts>
        ensures sum { IfSome result (λ sum. sum ≡ together self more) }
        ensures none { IfNone result (Fit (together self more) → ⊥) }
    {
        Some(Counts {
            records: self.records.checked_add(more.records)?,
            forced: self.forced.checked_add(more.forced)?,
            messages: self.messages.checked_add(more.messages)?,
            sent: self.sent.plus(more.sent)?,
        })
    }
}
