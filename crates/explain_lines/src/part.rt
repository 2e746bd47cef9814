//! What is at a place of a line.

use spellings::hexadecimal::is_hexadecimal;
use spellings::numeral::number_of;
use spellings::word::cut;
use xa_codes::Flags;
use xa_xid::Xid;

/// What is at a place of a line after its first word.
#[derive(Clone, Copy, Debug, PartialEq, Eq)]
pub enum LinePart {
    Txn,
    Case,
    Process,
    Child,
    Message,
    Kept,
    Presumption,
    Decision,
    Verb,
    Key,
    Value,
    Thread,
    Xid,
    Flags,
    Count,
    Info,
    Bytes,
}

/// Whether a word is a number below 2^64.
fn is_number(word: &str) -> bool {
    number_of(word).is_some()
}

/// Whether a word is a number below 2^32.
fn is_small(word: &str) -> bool {
    match number_of(word) {
        Some(number) => number < 1 << 32,
        None => false,
    }
}

/// Whether two numbers are in a word, with a point between them.
fn are_two_numbers(word: &str) -> bool {
    match cut(word, '.') {
        Some((one, other)) => is_number(one) && is_number(other),
        None => false,
    }
}

/// Whether a word names a transaction, as `a1.1`.
fn is_txn(word: &str) -> bool {
    match word.strip_prefix('a') {
        Some(numbers) => are_two_numbers(numbers),
        None => match word.strip_prefix('c') {
            Some(numbers) => are_two_numbers(numbers),
            None => false,
        },
    }
}

/// Whether a word names a ticket, as `2.1.1`.
fn is_ticket(word: &str) -> bool {
    match cut(word, '.') {
        Some((child, numbers)) => is_small(child) && are_two_numbers(numbers),
        None => false,
    }
}

/// Whether a word names a case, as `a1.1` or `a1.1@2.1.1`.
fn is_case(word: &str) -> bool {
    match cut(word, '@') {
        Some((txn, ticket)) => is_txn(txn) && is_ticket(ticket),
        None => is_txn(word),
    }
}

/// Whether a word is 1 to N visible ASCII characters.
fn is_visible(word: &str, most: usize) -> bool {
    !word.is_empty() && word.len() <= most && word.bytes().all(|b| b.is_ascii_graphic())
}

/// Whether a word is 1 to 32 letters.
fn is_info(word: &str) -> bool {
    !word.is_empty() && word.len() <= 32 && word.bytes().all(|b| b.is_ascii_alphabetic())
}

impl LinePart {
    /// How a form names it.
    pub fn name(self) -> &'static str {
        match self {
            LinePart::Txn => "TXN",
            LinePart::Case => "CASE",
            LinePart::Process => "P",
            LinePart::Child => "CHILD",
            LinePart::Message => "N",
            LinePart::Kept => "K",
            LinePart::Presumption => "pa|pc",
            LinePart::Decision => "commit|rollback",
            LinePart::Verb => "put|get|del",
            LinePart::Key => "KEY",
            LinePart::Value => "VALUE",
            LinePart::Thread => "TH",
            LinePart::Xid => "XID",
            LinePart::Flags => "FLAGS",
            LinePart::Count => "COUNT",
            LinePart::Info => "INFO",
            LinePart::Bytes => "HEX",
        }
    }

    /// What it is, in words.
    pub fn meaning(self) -> &'static str {
        match self {
            LinePart::Txn =>
                "a transaction, as a1.1: a (pa) or c (pc), the root's boot, a point, its number",
            LinePart::Case =>
                "a case: a transaction, as a1.1, or with a ticket after it, as a1.1@2.1.1",
            LinePart::Process | LinePart::Child =>
                "the number of a process, below 2^32, without leading zeros",
            LinePart::Message => "the number of a message, without leading zeros",
            LinePart::Kept => "a number of bytes, without leading zeros",
            LinePart::Presumption => "pa (Presumed Abort) or pc (Presumed Commit)",
            LinePart::Decision => "commit or rollback",
            LinePart::Verb => "put, get or del",
            LinePart::Key => "1 to 64 visible ASCII characters",
            LinePart::Value => "1 to 256 visible ASCII characters",
            LinePart::Thread => "the number of a thread, below 2^32, without leading zeros",
            LinePart::Xid =>
                "a branch, as 7:01:02: format, global name, branch's name, both in lower-case hexadecimal",
            LinePart::Flags => "names of flags of XA, joined by +, as TMJOIN or TMNOFLAGS",
            LinePart::Count => "a number below 2^32, without leading zeros",
            LinePart::Info => "1 to 32 letters",
            LinePart::Bytes => "whole bytes in lower-case hexadecimal",
        }
    }

    /// The words that may be there, where it is one of a few.
    pub fn words(self) -> &'static [&'static str] {
        match self {
            LinePart::Presumption => &["pa", "pc"],
            LinePart::Decision => &["commit", "rollback"],
            LinePart::Verb => &["put", "get", "del"],
            LinePart::Flags => &[
                "TMNOFLAGS",
                "TMASYNC",
                "TMONEPHASE",
                "TMFAIL",
                "TMNOWAIT",
                "TMRESUME",
                "TMSUCCESS",
                "TMSUSPEND",
                "TMSTARTRSCAN",
                "TMENDRSCAN",
                "TMMULTIPLE",
                "TMJOIN",
                "TMMIGRATE",
            ],
            _ => &[],
        }
    }

    /// Whether a word may be there.
    pub fn fits(self, word: &str) -> bool {
        match self {
            LinePart::Txn => is_txn(word),
            LinePart::Case => is_case(word),
            LinePart::Process | LinePart::Child | LinePart::Thread | LinePart::Count => is_small(
                word,
            ),
            LinePart::Message | LinePart::Kept => is_number(word),
            LinePart::Presumption | LinePart::Decision | LinePart::Verb => self
                .words()
                .contains(&word),
            LinePart::Key => is_visible(word, 64),
            LinePart::Value => is_visible(word, 256),
            LinePart::Xid => Xid::parse(word).is_ok(),
            LinePart::Flags => Flags::parse(word).is_some(),
            LinePart::Info => is_info(word),
            LinePart::Bytes => !word.is_empty() && is_hexadecimal(word),
        }
    }
}
