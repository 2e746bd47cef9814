//! The names in a script: processes, transactions, tickets and cases.

ghost use Rattle.std.specs.Prelude.{◌≡◌, ◌<◌, option_map};
ghost use Rattle.tree_script.specs.Names.{process_at, letter_at, txn_at, ticket_at, case_at, after_at};

use protocol::{Case, Presumption, ProcessId, Ticket, Txn};
use spellings::numeral::number_of;
use spellings::word::cut;

/// The process that a word names, by a number below 2^32.
#[tactic(auto, unfolding(crate::specs::Names::process_at))]
pub fn process_of(word: &str) -> Option<ProcessId>
    ensures { result ≡ process_at word.now }
{
    let number = number_of(word)?;
    if number < 1 << 32 {
        Some(ProcessId(number as u32))
    } else {
        None
    }
}

/// What follows a letter or a sign, where the word begins with it.
pub fn after(word: &str, letter: char) -> Option<&str>
    requires { letter < 128 }
    ensures { option_map (λ s. s.now) result ≡ after_at letter word.now }
{
    word.strip_prefix(letter)
}

/// The presumption that the first letter names, and what follows it.
fn letter_of(word: &str) -> Option<(Presumption, &str)>
    ensures { option_map (λ p. (p.0, p.1.now)) result ≡ letter_at word.now }
{
    match after(word, 'a') {
        Some(rest) => Some((Presumption::PresumeAbort, rest)),
        None => {
            let rest = after(word, 'c')?;
            Some((Presumption::PresumeCommit, rest))
        }
    }
}

/// The transaction of this root that a word names.
#[tactic(auto, unfolding(crate::specs::Names::txn_at))]
pub fn txn_of(root: ProcessId, word: &str) -> Option<Txn>
    ensures { result ≡ txn_at root word.now }
{
    let (head, sequence) = cut(word, '.')?;
    let (presumption, boot) = letter_of(head)?;
    let boot = number_of(boot)?;
    let sequence = number_of(sequence)?;
    Some(Txn {
        root,
        boot,
        sequence,
        presumption,
    })
}

/// The ticket that a word names.
#[tactic(auto, unfolding(crate::specs::Names::ticket_at))]
pub fn ticket_of(word: &str) -> Option<Ticket>
    ensures { result ≡ ticket_at word.now }
{
    let (child, rest) = cut(word, '.')?;
    let child = process_of(child)?;
    let (boot, number) = cut(rest, '.')?;
    let boot = number_of(boot)?;
    let number = number_of(number)?;
    Some(Ticket {
        child,
        boot,
        number,
    })
}

/// The case of this root's transactions that a word names.
#[tactic(auto, unfolding(crate::specs::Names::case_at))]
pub fn case_of(root: ProcessId, word: &str) -> Option<Case>
    ensures { result ≡ case_at root word.now }
{
    match cut(word, '@') {
        None => {
            let txn = txn_of(root, word)?;
            Some(Case { txn, ticket: None })
        }
        Some((txn, ticket)) => {
            let txn = txn_of(root, txn)?;
            let ticket = ticket_of(ticket)?;
            Some(Case {
                txn,
                ticket: Some(ticket),
            })
        }
    }
}
