//! What an acknowledgement found, in its text.

ghost use Rattle.std.specs.Prelude.{◌≡◌, ◌≤◌, ◌++◌, IfOk, length, map, option_map};
ghost use Rattle.std.specs.List.{position, position_or_len};
ghost use Rattle.node_lines.specs.Findings.{
  begins_unreported,
  findings_at,
  found_at,
  part_at,
  tickets_at,
  words_in,
};
ghost use Rattle.protocol.specs.declared.messages.Finding.TheVariants.{Mixed, Unreported};

use protocol::{Finding, Findings, Sequence, Ticket};
use std::alloc::{AllocError, Global};
use tree_script::ticket_of;

/// What an acknowledgement found, by the text after its outcome, if there is one; None if the text tells
/// of no findings.
pub(crate) fn found_in(alloc: Global, text: Option<&str>) -> Result<Option<Findings>, AllocError>
    ensures { IfOk result (λ found. found ≡ found_at (option_map (λ t. t.now) text.entry)) }
{
    match text {
        None => Ok(Some(Findings::new(alloc))),
        Some(text) => findings_of(alloc, text),
    }
}

/// The findings of a text: `mixed` and tickets, then `unreported` and tickets, each only where there are
/// some.
#[tactic(auto, unfolding(crate::specs::Findings::findings_at))]
fn findings_of(alloc: Global, text: &str) -> Result<Option<Findings>, AllocError>
    ensures { IfOk result (λ found. found ≡ findings_at text.now) }
{
    let words = words_of(alloc, text)?;
    let (head, tail) = words.split_at(mixed_words(&words));
    let Some(mixed) = part_of(alloc, "mixed", head)? else {
        return Ok(None);
    };
    let Some(unreported) = part_of(alloc, "unreported", tail)? else {
        return Ok(None);
    };
    Ok(Some(joined(alloc, &mixed, &unreported)?))
}

/// The words of a text, with one blank between any two.
fn words_of(alloc: Global, text: &str) -> Result<Vec<&str>, AllocError>
    ensures { IfOk result (λ words. map (λ word. word.now) words.items ≡ words_in text.now) }
{
    text.split(' ').collect(alloc)
}

/// Whether the unreported tickets are after this word.
fn begins_unreported(word: &str) -> bool
    ensures { result ≡ begins_unreported word.now }
{
    word == "unreported"
}

/// Where the first such word stands.
fn first_unreported(words: &[&str]) -> Option<usize>
    ensures { result ≡ position (λ word. begins_unreported word.now) words.now }
{
    words.iter().position(|word| begins_unreported(word))
}

/// How many words are before the first `unreported`.
fn mixed_words(words: &[&str]) -> usize
    ensures place { result ≡ position_or_len begins_unreported (map (λ word. word.now) words.now) }
    ensures within { result ≤ length words.now }
{
    match first_unreported(words) {
        None => words.len(),
        Some(at) => at,
    }
}

/// The tickets of a part, which is its name and one ticket or more, or is empty.
fn part_of(alloc: Global, name: &str, words: &[&str]) -> Result<Option<Vec<Ticket>>, AllocError>
    ensures { IfOk result (λ tickets.
        option_map (λ ts. ts.items) tickets ≡ part_at name.now (map (λ word. word.now) words.now)) }
{
    match words.split_first() {
        None => Ok(Some(Vec::new(alloc))),
        Some((first, tickets)) if *first == name && !tickets.is_empty() => {
            tickets_of(alloc, tickets)
        }
        Some(_) => Ok(None),
    }
}

/// The tickets that words name; None if one of them names none.
fn tickets_of(alloc: Global, words: &[&str]) -> Result<Option<Vec<Ticket>>, AllocError>
    ensures { IfOk result (λ tickets.
        option_map (λ ts. ts.items) tickets ≡ tickets_at (map (λ word. word.now) words.now)) }
{
    let mut tickets = Vec::new(alloc);
    for word in words {
        match ticket_of(word) {
            None => return Ok(None),
            Some(ticket) => tickets.push(ticket)?,
        }
    }
    Ok(Some(tickets))
}

/// The mixed tickets, and after them the unreported ones.
fn joined(alloc: Global, mixed: &[Ticket], unreported: &[Ticket]) -> Result<Findings, AllocError>
    ensures { IfOk result (λ found. found
        ≡ map (λ t. Mixed t) mixed.now ++ map (λ t. Unreported t) unreported.now) }
{
    let mut findings = Vec::new(alloc);
    for ticket in mixed {
        findings.push(Finding::Mixed(*ticket))?;
    }
    for ticket in unreported {
        findings.push(Finding::Unreported(*ticket))?;
    }
    Ok(Sequence::from_vec(findings))
}
