//! The cases that names are of.

ghost use Rattle.std.specs.Prelude.{◌≡◌, IfOk, option_map, pos};
ghost use Rattle.std.specs.Ordering.{int_eq};
ghost use Rattle.protocol.specs.Trees.{root_of};
ghost use Rattle.branch_names.specs.Cases.{IsInBytes, IsInWords, IsNaming, IsPlaced, OfXid, case_below, has_place, has_seat, named_case_at, naming_alone, of_named, of_tree, placed, words_at};

use crate::forms::xid_in;
use log_text::xids::read_branch;
use protocol::{Case, ProcessId, Ticket, Tree, Txn};
use spellings::word::cut;
use std::alloc::{AllocError, Global};
use std::str;
use tree_script::{case_of, ticket_of, txn_of};
use xa_xid::Xid;

/// The format of an XID that names a case in words.
const WORDS: i32 = 4003;

/// What a name is of.
#[derive(Clone, Copy, PartialEq, Eq)]
pub enum Naming {
    /// A case of the tree.
    Case(Case),
    /// A case by its form, of a tree of another name, or of one that has a name, if none was given.
    OtherTree,
    /// None that this product gives, or of no process of the tree.
    Foreign,
}

/// Whether there is no ticket, or it is of a process below the root.
fn has_seat(tree: &Tree, ticket: Option<Ticket>) -> bool
    ensures { result ≡ has_seat tree.now ticket }
{
    match ticket {
        None => true,
        Some(ticket) => tree.parent(ticket.child).is_some(),
    }
}

/// Whether a case has its place in a tree: its process is listed, its transaction is of the root, and its
/// ticket of a process below the root, or it has none.
#[tactic(auto, unfolding(protocol::specs::Names::same_process))]
fn has_place(tree: &Tree, case: &Case) -> bool
    ensures { result ≡ has_place tree.now case.now }
{
    tree.is_listed(case.process()) && case.txn.root == tree.root() && has_seat(tree, case.ticket)
}

/// A case, if it has its place in the tree.
fn placed(tree: &Tree, case: Option<Case>) -> Naming
    ensures naming { result ≡ placed tree.now case }
    ensures placed { IsPlaced tree.now result }
{
    match case {
        Some(case) if has_place(tree, &case) => Naming::Case(case),
        _ => Naming::Foreign,
    }
}

/// What a case of a tree of that name is of, where this tree has this name, if it has one.
fn of_name(tree: &Tree, name: Option<&str>, of: &str, case: Case) -> Naming
    ensures naming { result ≡ of_tree (option_map (λ s. s.now) name.entry) of.now
        (placed tree.now (Some case)) }
    ensures placed { IsPlaced tree.now result }
{
    match name {
        Some(name) if name == of => placed(tree, Some(case)),
        _ => Naming::OtherTree,
    }
}

/// The name of a tree, and the case of a transaction and a ticket in words.
fn words_of<'a>(root: ProcessId, gtrid: &'a str, bqual: &str) -> Option<(&'a str, Case)>
    ensures { option_map (λ p. (p.0.now, p.1)) result ≡ words_at root gtrid.now bqual.now }
{
    let (of, txn) = cut(gtrid, ':')?;
    let txn = txn_of(root, txn)?;
    let ticket = ticket_of(bqual)?;
    let case = Case {
        txn,
        ticket: Some(ticket),
    };
    Some((of, case))
}

/// The case of a transaction and a ticket in words, of the tree of this name.
fn named_in_words(tree: &Tree, name: Option<&str>, gtrid: &str, bqual: &str) -> Naming
    ensures naming { result ≡ of_named tree.now (option_map (λ s. s.now) name.entry)
        (words_at (root_of tree.now) gtrid.now bqual.now) }
    ensures placed { IsPlaced tree.now result }
{
    match words_of(tree.root(), gtrid, bqual) {
        None => Naming::Foreign,
        Some((of, case)) => of_name(tree, name, of, case),
    }
}

/// What an XID in words is of.
fn in_words(tree: &Tree, name: Option<&str>, xid: &Xid) -> Naming
    ensures naming { IsInWords tree.now (option_map (λ s. s.now) name.entry) xid.now result }
    ensures placed { IsPlaced tree.now result }
{
    let (_, gtrid, bqual) = xid.parts();
    let Ok(gtrid) = str::from_utf8(gtrid) else {
        return Naming::Foreign;
    };
    let Ok(bqual) = str::from_utf8(bqual) else {
        return Naming::Foreign;
    };
    named_in_words(tree, name, gtrid, bqual)
}

/// The case of a transaction, and below the root of a ticket, if the parent is that of the ticket's process.
#[tactic(auto, unfolding(protocol::specs::Names::same_process))]
fn below(tree: &Tree, txn: Txn, named: Option<(ProcessId, Ticket)>) -> Option<Case>
    ensures { result ≡ case_below tree.now txn named }
{
    match named {
        None => Some(Case { txn, ticket: None }),
        Some((parent, ticket)) => {
            if tree.parent(ticket.child)? == parent {
                Some(Case {
                    txn,
                    ticket: Some(ticket),
                })
            } else {
                None
            }
        }
    }
}

/// What an XID in bytes is of.
fn in_bytes(tree: &Tree, xid: &Xid) -> Naming
    ensures naming { IsInBytes tree.now xid.now result }
    ensures placed { IsPlaced tree.now result }
{
    match read_branch(xid) {
        Ok((txn, named)) => placed(tree, below(tree, txn, named)),
        Err(_) => Naming::Foreign,
    }
}

/// What an XID is of.
fn named_by(tree: &Tree, name: Option<&str>, xid: &Xid) -> Naming
    ensures naming { OfXid (int_eq xid.now.format (pos 4003)) tree.now (option_map (λ s. s.now) name.entry)
        xid.now result }
    ensures placed { IsPlaced tree.now result }
{
    let (format, _, _) = xid.parts();
    if format == WORDS {
        in_words(tree, name, xid)
    } else {
        in_bytes(tree, xid)
    }
}

/// The name of a tree, and the case after it.
fn named_case(root: ProcessId, line: &str) -> Option<(&str, Case)>
    ensures { option_map (λ p. (p.0.now, p.1)) result ≡ named_case_at root line.now }
{
    let (of, word) = cut(line, ':')?;
    let case = case_of(root, word)?;
    Some((of, case))
}

/// What a name that is no XID is of: a case, or the name of a tree, a colon, and a case.
fn named_alone(tree: &Tree, name: Option<&str>, line: &str) -> Naming
    ensures naming { result ≡ naming_alone tree.now (option_map (λ s. s.now) name.entry) line.now }
    ensures placed { IsPlaced tree.now result }
{
    if cut(line, ':').is_none() {
        return placed(tree, case_of(tree.root(), line));
    }
    match named_case(tree.root(), line) {
        None => Naming::Foreign,
        Some((of, case)) => of_name(tree, name, of, case),
    }
}

/// What a name is of, in a tree of this name, if it has one.
pub fn case_named(
    alloc: Global,
    tree: &Tree,
    name: Option<&str>,
    line: &str,
) -> Result<Naming, AllocError>
    ensures naming { IfOk result (λ naming. IsNaming tree.now (option_map (λ s. s.now) name.entry)
        line.now naming) }
    ensures placed { IfOk result (λ naming. IsPlaced tree.now naming) }
{
    match xid_in(alloc, line)? {
        Some(xid) => Ok(named_by(tree, name, &xid)),
        None => Ok(named_alone(tree, name, line)),
    }
}
