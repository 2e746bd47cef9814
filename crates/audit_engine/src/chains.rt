//! The steps from a case upward.

ghost use Rattle.std.specs.Prelude.{◌≡◌, ◌++◌, ◌∷◌, [], IfOk, OnOk, length, take};
ghost use Rattle.protocol.specs.Audits.{KeptLogs};
ghost use Rattle.protocol.specs.Trees.{IsTree};
ghost use Rattle.std.specs.Map.{lookup};
ghost use Rattle.audit_tree.specs.Tables.{AreNotes, same_id};
ghost use Rattle.audit_engine.specs.Chains.{Adds, AreNamings, found_by_table, asks, asks_on, chain_of, deed_behind, steps_within};

use crate::namings::{Namings, TreeNamings};
use crate::steps::{AuditStep, Stands, StepDeed, StepFound};
use audit_tree::TreeNotes;
use indexmap::IndexMap;
use protocol::{Case, ProcessId, Tree};
use std::alloc::{AllocError, Global};

/// What each process of the tree names.
pub fn all_namings(alloc: Global, tree: &Tree, notes: &TreeNotes) -> Result<TreeNamings, AllocError>
    requires { IsTree tree.now }
    ensures { IfOk result (λ namings. (logs : KeptLogs) → AreNotes tree.now logs notes.now.entries
        → AreNamings tree.now logs namings.entries) }
{
    let mut namings = IndexMap::new(alloc);
    let entries = tree.entries();
    for entry in entries {
        add(alloc, notes, &mut namings, entry.id)?;
    }
    Ok(namings)
}

/// What a process names, where anything is noted of it.
fn add(
    alloc: Global,
    notes: &TreeNotes,
    namings: &mut TreeNamings,
    process: ProcessId,
) -> Result<(), AllocError>
    ensures { OnOk result (Adds (lookup (same_id process) notes.now.entries) process namings.old.entries
        namings.new.entries) }
{
    match notes.get(&process) {
        None => Ok(()),
        Some(own) => {
            let new = Namings::of(alloc, own)?;
            let _ = namings.insert(process, new)?;
            Ok(())
        }
    }
}

/// What this process finds of a case.
fn find(namings: &TreeNamings, process: ProcessId, case: &Case) -> StepFound
    ensures { result ≡ found_by_table (lookup (same_id process) namings.now.entries) case.now }
{
    match namings.get(&process) {
        None => StepFound::Nothing,
        Some(own) => own.of_child(case),
    }
}

/// The case that is in doubt itself, or ended with no decision, and so asks in its turn.
fn asks_next(found: StepFound) -> Option<Case>
    ensures { result ≡ asks_on found }
{
    match found {
        StepFound::Kept(case, Stands::Prepare | Stands::Ended) => Some(case),
        _ => None,
    }
}

/// The steps from a case upward, N at most.
fn push_steps(
    steps: &mut Vec<AuditStep>,
    tree: &Tree,
    namings: &TreeNamings,
    case: Case,
    most: usize,
) -> Result<(), AllocError>
    requires { IsTree tree.now }
    ensures { OnOk result ((logs : KeptLogs) → AreNamings tree.now logs namings.now.entries
        → steps.new.items ≡ steps.old.items ++ steps_within most tree.now logs case) }
{
    if most == 0 {
        return Ok(());
    }
    let Some(ticket) = case.ticket else {
        return Ok(());
    };
    let Some(process) = tree.parent(case.process()) else {
        return Ok(());
    };
    let found = find(namings, process, &case);
    steps.push(AuditStep {
        ticket,
        process,
        found,
    })?;
    match asks_next(found) {
        None => Ok(()),
        Some(next) => push_steps(steps, tree, namings, next, most - 1),
    }
}

/// The steps from a case upward: each ticket asks its parent, up to a case that has a decision or collects
/// votes, or to where no kept case names the ticket.
pub fn steps_of(
    alloc: Global,
    tree: &Tree,
    namings: &TreeNamings,
    case: &Case,
) -> Result<Vec<AuditStep>, AllocError>
    requires { IsTree tree.now }
    ensures { IfOk result (λ steps. (logs : KeptLogs) → AreNamings tree.now logs namings.now.entries
        → steps.items ≡ chain_of tree.now logs case.now) }
{
    let mut steps = Vec::new(alloc);
    push_steps(&mut steps, tree, namings, *case, tree.entries().len())?;
    Ok(steps)
}

/// To ask for the outcome of a case in doubt.
fn asking(case: &Case) -> StepDeed
    ensures { result ≡ asks case.now case.now.ticket }
{
    match case.ticket {
        None => StepDeed::Restart(case.process()),
        Some(_) => StepDeed::Ask(*case),
    }
}

/// What is to be done about a case in doubt after these steps: the last case in doubt asks, or the process
/// that collects votes is restarted.
pub fn deed_of(case: &Case, steps: &[AuditStep]) -> StepDeed
    ensures { result ≡ deed_behind case.now steps.now }
{
    let mut last = *case;
    for step in steps {
        match step.found {
            StepFound::Kept(_, Stands::Collecting) => return StepDeed::Restart(step.process),
            StepFound::Kept(next, Stands::Prepare) => last = next,
            _ => return asking(&last),
        }
    }
    asking(&last)
}
