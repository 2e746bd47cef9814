//! What nodes say, and the messages among it, on their way.

use crate::chance::Chance;
use node_lines::line_of;
use protocol::{Case, Message, ProcessId};
use spellings::word::cut;
use std::alloc::Global;
use trace_lines::case_text;

/// A message on its way: a line, as a node wrote it.
#[derive(Drop)]
pub struct Mail {
    pub to: ProcessId,
    pub line: String,
}

/// What all nodes said.
#[derive(Drop)]
pub struct Net {
    alloc: Global,
    root: ProcessId,
    /// The messages that are on their way.
    pub mail: Vec<Mail>,
    /// The transactions that were begun, by name.
    pub begun: Vec<String>,
    /// What was told, as `a1.1 committed`.
    pub told: Vec<String>,
    /// The cases of children that joined.
    pub joined: Vec<Case>,
    pub lost: u64,
    pub repeated: u64,
}

impl Net {
    pub fn new(alloc: Global, root: ProcessId) -> Self {
        Net {
            alloc,
            root,
            mail: Vec::new(alloc),
            begun: Vec::new(alloc),
            told: Vec::new(alloc),
            joined: Vec::new(alloc),
            lost: 0,
            repeated: 0,
        }
    }

    /// A message that a node wrote. None without memory.
    fn send(&mut self, line: &str) -> Option<()> {
        let Some((_, envelope)) = line_of(self.alloc, self.root, line).ok()? else {
            return Some(());
        };
        if let Message::Joined(case, ticket) = envelope.message {
            let case = Case {
                txn: case.txn,
                ticket: Some(ticket),
            };
            self.joined.push(case).ok()?;
        }
        let line = String::from_str(self.alloc, line).ok()?;
        self.mail
            .push(Mail {
                to: envelope.to,
                line,
            })
            .ok()
    }

    /// A line that a node wrote. None without memory, or where the node calls its input the line of nothing.
    pub fn note(&mut self, line: &str) -> Option<()> {
        if line == "error" {
            return None;
        }
        match cut(line, ' ') {
            Some(("begin", txn)) => {
                let txn = String::from_str(self.alloc, txn).ok()?;
                self.begun.push(txn).ok()
            }
            Some(("told", rest)) => {
                let rest = String::from_str(self.alloc, rest).ok()?;
                self.told.push(rest).ok()
            }
            _ => self.send(line),
        }
    }

    /// The oldest message on its way that has this word.
    pub fn take(&mut self, word: &str) -> Option<Mail> {
        let place = self.mail.iter().position(|mail: &Mail| -> bool {
            has_word(mail.line.as_str(), word)
        })?;
        Some(self.mail.remove(place))
    }

    /// A message on its way, any of them. It stays on its way, once in seven times, and is lost, once in
    /// twenty.
    pub fn pick(&mut self, chance: &mut Chance) -> Option<Mail> {
        if self.mail.is_empty() {
            return None;
        }
        let place = chance.below(self.mail.len());
        if chance.one_in(7) {
            self.repeated = self.repeated.saturating_add(1);
            let mail = self.mail.get(place)?;
            return Some(Mail {
                to: mail.to,
                line: String::from_str(self.alloc, mail.line.as_str()).ok()?,
            });
        }
        if place < self.mail.len() {
            Some(self.mail.remove(place))
        } else {
            None
        }
    }

    /// The case of this child in a transaction, by name, if it joined.
    pub fn case_at(&self, txn: &str, child: ProcessId) -> Option<String> {
        for case in self.joined.iter() {
            let text = case_text(self.alloc, case).ok()?;
            let name = String::from_utf8(text).ok()?;
            if let (Some(ticket), Some((of, _))) = (case.ticket, cut(name.as_str(), '@')) {
                if ticket.child == child && of == txn {
                    return Some(name);
                }
            }
        }
        None
    }
}

/// Whether a line of a message has this word, after its number and its way.
fn has_word(line: &str, word: &str) -> bool {
    match cut(line, ' ') {
        None => false,
        Some((_, rest)) => match cut(rest, ' ') {
            None => false,
            Some((_, rest)) => match cut(rest, ' ') {
                None => false,
                Some((first, _)) => first == word,
            },
        },
    }
}
