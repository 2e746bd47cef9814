//! Lists of children and of tickets.

ghost use Rattle.std.specs.Prelude.{◌≡◌, ◌||◌, Some, not, filter, find, option_map, position, IfOk, option_copied};
ghost use Rattle.std.specs.List.{list_all, list_any};
ghost use Rattle.protocol.specs.Names.{same_process, same_ticket};
ghost use Rattle.protocol.specs.Records.{in_list, none_of};
ghost use Rattle.protocol.specs.CoordinatorRows.{other_tickets};
ghost use Rattle.coord_case.specs.Lives.{accepted_in, awaits_vote, changing, is_undecided, is_vote, sending, vote_found, voting, works_found, yes_by};

use crate::child::Child;
use protocol::{ProcessId, Ticket, Vote};
use smallvec::SmallVec;
use std::alloc::{AllocError, Global};

/// The accepted children, in order of acceptance: mostly one or two.
pub(crate) type Children = SmallVec<Child, 2>;

/// Whether there is no ticket.
#[tactic(auto, unfolding(protocol::specs::Records::none_of))]
pub fn none_of(tickets: &[Ticket]) -> bool
    ensures { result ≡ none_of tickets.now }
{
    match tickets {
        [] => true,
        [_, ..] => false,
    }
}

/// Whether the ticket is among these.
#[tactic(auto, unfolding(protocol::specs::Records::in_list))]
pub(crate) fn in_list(tickets: &[Ticket], ticket: &Ticket) -> bool
    ensures { result ≡ in_list tickets.now ticket.now }
{
    tickets.iter().any(|other| other.is(ticket))
}

/// The ticket leaves the list.
pub(crate) fn strike(tickets: &mut Vec<Ticket>, ticket: Ticket)
    ensures { tickets.new.items ≡ other_tickets ticket tickets.old.items }
{
    tickets.retain(
        |other: &Ticket| -> bool
            ensures { result ≡ not (same_ticket ticket other.now) }
        { !ticket.is(other) },
    );
}

/// Whether each of these is the ticket.
pub(crate) fn all_are(tickets: &[Ticket], ticket: &Ticket) -> bool
    ensures { result ≡ list_all (λ other. same_ticket ticket.now other) tickets.now }
{
    tickets.iter().all(|other| ticket.is(other))
}

/// The first child of the process.
#[tactic(auto, unfolding(protocol::specs::Names::same_process))]
fn find_child(children: &[Child], child: ProcessId) -> Option<&Child>
    ensures { option_copied result ≡ find (λ c. same_process c.ticket.child child) children.now }
{
    children.iter().find(|other| other.ticket.child == child)
}

/// The ticket of the first child of the process.
pub(crate) fn ticket_of(children: &[Child], child: ProcessId) -> Option<Ticket>
    ensures { result ≡ option_map (λ c. c.ticket)
        (find (λ c. same_process c.ticket.child child) children.now) }
{
    match find_child(children, child) {
        None => None,
        Some(found) => Some(found.ticket),
    }
}

/// Whether there is no child.
#[tactic(auto, unfolding(protocol::specs::Records::none_of))]
pub(crate) fn is_alone(children: &[Child]) -> bool
    ensures { result ≡ none_of (accepted_in children.now) }
{
    match children {
        [] => true,
        [_, ..] => false,
    }
}

/// Whether a child of the process is among these.
#[tactic(auto, unfolding(protocol::specs::Names::same_process))]
pub(crate) fn has_child(children: &[Child], child: ProcessId) -> bool
    ensures { result ≡ list_any (λ c. same_process c.ticket.child child) children.now }
{
    children.iter().any(|other| other.ticket.child == child)
}

fn has_ticket(children: &[Child], ticket: &Ticket) -> bool
    ensures { result ≡ list_any (λ c. same_ticket c.ticket ticket.now) children.now }
{
    children.iter().any(|child| child.ticket.is(ticket))
}

/// Whether the ticket is a child's, or is among these tickets.
pub(crate) fn is_known(children: &[Child], named: &[Ticket], ticket: &Ticket) -> bool
    ensures { result ≡ (list_any (λ c. same_ticket c.ticket ticket.now) children.now
        || in_list named.now ticket.now) }
{
    has_ticket(children, ticket) || in_list(named, ticket)
}

/// The tickets of the children.
pub(crate) fn tickets_of(alloc: Global, children: &[Child]) -> Result<Vec<Ticket>, AllocError>
    ensures { IfOk result (λ v. v.items ≡ accepted_in children.now) }
{
    children
        .iter()
        .map(
            |child: &Child| -> Ticket
                ensures { result ≡ child.now.ticket }
            { child.ticket },
        )
        .collect(alloc)
}

/// Whether a child of the ticket has not voted.
pub(crate) fn is_awaited(children: &[Child], ticket: &Ticket) -> bool
    ensures { result ≡ awaits_vote ticket.now children.now }
{
    children
        .iter()
        .any(|child| child.vote.is_none() && child.ticket.is(ticket))
}

fn is_yes(child: &Child) -> bool
    ensures { result ≡ is_vote Vote.Yes child.now.vote }
{
    match child.vote {
        Some(Vote::Yes) => true,
        _ => false,
    }
}

/// How many votes of YES this one is.
pub(crate) fn yes_in_vote(vote: Vote) -> usize
    ensures { result ≡ yes_by (Some vote) }
{
    match vote {
        Vote::Yes => 1,
        Vote::No | Vote::Read => 0,
    }
}

/// The tickets of the children that voted YES.
pub(crate) fn yes_of(alloc: Global, children: &[Child]) -> Result<Vec<Ticket>, AllocError>
    ensures { IfOk result (λ v. v.items ≡ accepted_in (filter (λ c. is_vote Vote.Yes c.vote) children.now)) }
{
    children
        .iter()
        .filter(|child| is_yes(child))
        .map(
            |child: &Child| -> Ticket
                ensures { result ≡ child.now.ticket }
            { child.ticket },
        )
        .collect(alloc)
}

fn is_undecided(child: &Child) -> bool
    ensures { result ≡ is_undecided child.now.vote }
{
    match child.vote {
        Some(Vote::No) | Some(Vote::Read) => false,
        _ => true,
    }
}

/// The tickets of the children that voted neither NO nor READ.
pub(crate) fn undecided_of(alloc: Global, children: &[Child]) -> Result<Vec<Ticket>, AllocError>
    ensures { IfOk result (λ v. v.items ≡ accepted_in (filter (λ c. is_undecided c.vote) children.now)) }
{
    children
        .iter()
        .filter(|child| is_undecided(child))
        .map(
            |child: &Child| -> Ticket
                ensures { result ≡ child.now.ticket }
            { child.ticket },
        )
        .collect(alloc)
}

/// Where the first child of the ticket stands.
fn position_of(children: &[Child], ticket: &Ticket) -> Option<usize>
    ensures { result ≡ position (λ c. same_ticket c.ticket ticket.now) children.now }
{
    children.iter().position(|child| child.ticket.is(ticket))
}

/// The first child of the ticket has this vote.
pub(crate) fn set_vote(children: &mut Children, ticket: &Ticket, vote: Option<Vote>)
    ensures items { children.new.items ≡ changing ticket.now (voting vote) children.old.items }
{
    match position_of(children.as_slice(), ticket) {
        None => {}
        Some(at) => match children.get_mut(at) {
            None => {}
            Some(child) => child.vote = vote,
        },
    }
}

/// The first child of the ticket.
fn find_ticket<'a>(children: &'a [Child], ticket: &Ticket) -> Option<&'a Child>
    ensures { option_copied result ≡ find (λ c. same_ticket c.ticket ticket.now) children.now }
{
    children.iter().find(|child| child.ticket.is(ticket))
}

/// The vote of the first child of the ticket.
pub(crate) fn vote_of(children: &[Child], ticket: &Ticket) -> Option<Vote>
    ensures { result ≡ vote_found (find (λ c. same_ticket c.ticket ticket.now) children.now) }
{
    match find_ticket(children, ticket) {
        None => None,
        Some(child) => child.vote,
    }
}

/// How many works were sent to the first child of the ticket.
pub(crate) fn works_sent(children: &[Child], ticket: &Ticket) -> u64
    ensures { result ≡ works_found (find (λ c. same_ticket c.ticket ticket.now) children.now) }
{
    match find_ticket(children, ticket) {
        None => 0,
        Some(child) => child.works,
    }
}

/// N works were sent to the first child of the ticket.
pub(crate) fn set_works(children: &mut Children, ticket: &Ticket, works: u64)
    ensures items { children.new.items ≡ changing ticket.now (sending works) children.old.items }
{
    match position_of(children.as_slice(), ticket) {
        None => {}
        Some(at) => match children.get_mut(at) {
            None => {}
            Some(child) => child.works = works,
        },
    }
}
