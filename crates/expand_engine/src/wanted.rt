//! Which message a line asks for.

use protocol::{Message, ProcessId};
use spellings::numeral::number_of;
use spellings::word::cut;
use tree_script::process_of;

/// What a message is.
#[derive(Clone, Copy, PartialEq, Eq)]
pub(crate) enum Kind {
    Join,
    Joined,
    Work,
    Prepare,
    Yes,
    No,
    Read,
    Commit,
    Abort,
    Ack,
    Inquire,
}

impl Kind {
    /// The kind that a trace calls so.
    fn of_word(word: &str) -> Option<Kind> {
        match word {
            "JOIN" => Some(Kind::Join),
            "JOINED" => Some(Kind::Joined),
            "WORK" => Some(Kind::Work),
            "PREPARE" => Some(Kind::Prepare),
            "YES" => Some(Kind::Yes),
            "NO" => Some(Kind::No),
            "READ" => Some(Kind::Read),
            "COMMIT" => Some(Kind::Commit),
            "ABORT" => Some(Kind::Abort),
            "ACK" => Some(Kind::Ack),
            "INQUIRE" => Some(Kind::Inquire),
            _ => None,
        }
    }

    /// What this message is.
    pub(crate) fn of(message: &Message) -> Kind {
        match message {
            Message::Join(_) => Kind::Join,
            Message::Joined(_, _) => Kind::Joined,
            Message::Work(_, _, _) => Kind::Work,
            Message::Prepare(_, _) => Kind::Prepare,
            Message::Yes(_) => Kind::Yes,
            Message::No(_) => Kind::No,
            Message::Read(_) => Kind::Read,
            Message::Commit(_) => Kind::Commit,
            Message::Abort(_) => Kind::Abort,
            Message::Ack(_, _, _) => Kind::Ack,
            Message::Inquire(_) => Kind::Inquire,
        }
    }
}

/// A message that a line asks for.
#[derive(Clone, Copy, PartialEq, Eq)]
pub(crate) enum Wanted {
    /// The one with this number, from 1.
    Number(u64),
    /// The oldest of this kind to this process that waits.
    To(Kind, ProcessId),
    /// The oldest from one process to another that waits.
    Between(ProcessId, ProcessId),
}

impl Wanted {
    /// What these words ask for.
    pub(crate) fn of(words: &[&str]) -> Option<Wanted> {
        match words {
            [word] => match cut(word, '>') {
                Some((from, to)) => {
                    let from = from.strip_suffix('-')?;
                    Some(Wanted::Between(process_of(from)?, process_of(to)?))
                }
                None => Some(Wanted::Number(number_of(word)?)),
            },
            [kind, to] => Some(Wanted::To(Kind::of_word(kind)?, process_of(to)?)),
            _ => None,
        }
    }
}
