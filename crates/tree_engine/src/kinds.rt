//! The kinds of messages.

ghost use Rattle.std.specs.Prelude.{◌≡◌};
ghost use Rattle.tree_engine.specs.Counts.{count_kind, kind_of};

use protocol::{Envelope, Message};

/// What a message is, without the case and what else it carries.
#[derive(Clone, Copy, PartialEq, Eq)]
pub enum MessageKind {
    Join,
    Joined,
    Work,
    Prepare,
    Yes,
    No,
    Read,
    Commit,
    Abort,
    Ack,
    Inquire,
}

impl MessageKind {
    /// The kind of a message.
    pub fn of(message: &Message) -> MessageKind
        ensures { result ≡ kind_of message.now }
    {
        match message {
            Message::Join(_) => MessageKind::Join,
            Message::Joined(_, _) => MessageKind::Joined,
            Message::Work(_, _, _) => MessageKind::Work,
            Message::Prepare(_, _) => MessageKind::Prepare,
            Message::Yes(_) => MessageKind::Yes,
            Message::No(_) => MessageKind::No,
            Message::Read(_) => MessageKind::Read,
            Message::Commit(_) => MessageKind::Commit,
            Message::Abort(_) => MessageKind::Abort,
            Message::Ack(_, _, _) => MessageKind::Ack,
            Message::Inquire(_) => MessageKind::Inquire,
        }
    }

    /// How many of these messages are of this kind.
    pub fn count(self, messages: &[Envelope]) -> u64
        ensures { result ≡ count_kind self messages.now }
    {
        messages
            .iter()
            .filter(|envelope| MessageKind::of(&envelope.message) == self)
            .count() as u64
    }
}
