//! Why a case stands as its line says, and what to do.

ghost use Rattle.std.specs.Prelude.{◌≡◌, ◌++◌, IfOk, OnOk};
ghost use Rattle.std.specs.List.{flat_map};
ghost use Rattle.protocol.specs.Audits.{KeptLogs};
ghost use Rattle.protocol.specs.Trees.{IsTree};
ghost use Rattle.audit_engine.specs.Chains.{AreNamings};
ghost use Rattle.audit_engine.specs.Explanations.{asker_text, deed_text, do_text, explained_line, explanation_text, found_text, is_explained, kept_text, mend_text, mixed_text, place_text, reported_text, reporter_text, reports_text, stands_word, step_text, steps_of, steps_text, told_part, told_text, unreported_text, way_text, why_text};

use crate::chains::{deed_of, steps_of};
use crate::lines::push_line;
use crate::namings::TreeNamings;
use crate::steps::{AuditStep, Stands, StepDeed, StepFound};
use audit_tree::{Own, ReportLine};
use coord_records::presumed;
use protocol::{Case, Outcome, Presumption, ProcessId, Reports, Ticket, Tree};
use std::alloc::{AllocError, Global};
use trace_lines::{outcome_word, push, push_case, push_number, push_ticket};

/// The word of what stands of a case.
fn stands_word(stands: Stands) -> &'static str
    ensures { result.now ≡ stands_word stands }
{
    match stands {
        Stands::Commit => "Commit",
        Stands::Abort => "Abort",
        Stands::Prepare => "Prepare",
        Stands::Ended => "End",
        Stands::Collecting => "Collecting",
    }
}

/// The ticket of a case, or at the root its transaction.
fn push_asker(out: &mut Vec<u8>, case: &Case) -> Result<(), AllocError>
    ensures { OnOk result (out.new.items ≡ out.old.items ++ asker_text case.now case.now.ticket) }
{
    match &case.ticket {
        None => push_case(out, case),
        Some(ticket) => push_ticket(out, ticket),
    }
}

/// What a case was told, or decided itself.
fn push_told(out: &mut Vec<u8>, case: &Case, outcome: Outcome) -> Result<(), AllocError>
    ensures { OnOk result (out.new.items ≡ out.old.items ++ told_text case.now outcome) }
{
    push(out, "  ")?;
    push_asker(out, case)?;
    push(out, " was told ")?;
    push(out, outcome_word(outcome))?;
    push(out, "\n")
}

/// A case and the process that keeps it.
fn push_place(out: &mut Vec<u8>, case: &Case, process: ProcessId) -> Result<(), AllocError>
    ensures { OnOk result (out.new.items ≡ out.old.items ++ place_text case.now process) }
{
    push_case(out, case)?;
    push(out, " at ")?;
    push_number(out, u64::from(process.0))
}

/// What stands of a case that names the step's ticket.
fn push_kept(out: &mut Vec<u8>, stands: Stands, step: &AuditStep) -> Result<(), AllocError>
    ensures { OnOk result (out.new.items ≡ out.old.items ++ kept_text stands step.now.ticket) }
{
    push(out, ": ")?;
    push(out, stands_word(stands))?;
    push(out, " kept, names ")?;
    push_ticket(out, &step.ticket)
}

/// What a step found.
fn push_found(
    out: &mut Vec<u8>,
    presumption: Presumption,
    step: &AuditStep,
) -> Result<(), AllocError>
    ensures { OnOk result (out.new.items
        ≡ out.old.items ++ found_text presumption step.now.ticket step.now.process step.now.found) }
{
    match &step.found {
        StepFound::Nothing => {
            push(out, "at ")?;
            push_number(out, u64::from(step.process.0))?;
            push(out, ": nothing kept, presumed ")?;
            push(out, outcome_word(presumed(presumption)))
        }
        StepFound::Kept(case, stands) => {
            push_place(out, case, step.process)?;
            push_kept(out, *stands, step)
        }
    }
}

fn push_step(
    out: &mut Vec<u8>,
    presumption: Presumption,
    step: &AuditStep,
) -> Result<(), AllocError>
    ensures { OnOk result (out.new.items ≡ out.old.items ++ step_text presumption step.now) }
{
    push(out, "  ")?;
    push_ticket(out, &step.ticket)?;
    push(out, " asks ")?;
    push_found(out, presumption, step)?;
    push(out, "\n")
}

fn push_steps(
    out: &mut Vec<u8>,
    presumption: Presumption,
    steps: &[AuditStep],
) -> Result<(), AllocError>
    ensures { OnOk result (out.new.items ≡ out.old.items ++ steps_text presumption steps.now) }
{
    for step in steps {
        push_step(out, presumption, step)?;
    }
    Ok(())
}

/// What to do about a case in doubt.
fn push_deed(out: &mut Vec<u8>, deed: &StepDeed) -> Result<(), AllocError>
    ensures { OnOk result (out.new.items ≡ out.old.items ++ deed_text deed.now) }
{
    match deed {
        StepDeed::Ask(case) => {
            push(out, "  do: ask ")?;
            push_case(out, case)?;
        }
        StepDeed::Restart(process) => {
            push(out, "  do: restart ")?;
            push_number(out, u64::from(process.0))?;
        }
    }
    push(out, "\n")
}

/// What to do about a mismatch.
fn push_mend(out: &mut Vec<u8>, case: &Case) -> Result<(), AllocError>
    ensures { OnOk result (out.new.items ≡ out.old.items ++ mend_text case.now) }
{
    push(out, "  do: put the data of ")?;
    push_number(out, u64::from(case.process().0))?;
    push(out, " right, then forget ")?;
    push_case(out, case)?;
    push(out, "\n")
}

/// The steps from a line's case upward, unless it was told the outcome, or decided it itself.
fn steps_for(
    alloc: Global,
    tree: &Tree,
    namings: &TreeNamings,
    line: &ReportLine,
) -> Result<Vec<AuditStep>, AllocError>
    requires { IsTree tree.now }
    ensures { IfOk result (λ steps. (logs : KeptLogs) → AreNamings tree.now logs namings.now.entries
        → steps.items ≡ steps_of tree.now logs line.now.case line.now.decision) }
{
    match line.decision {
        Some(_) => Ok(Vec::new(alloc)),
        None => steps_of(alloc, tree, namings, &line.case),
    }
}

/// What a case was told, or decided itself, if that is so.
fn push_told_part(
    out: &mut Vec<u8>,
    case: &Case,
    decision: Option<Outcome>,
) -> Result<(), AllocError>
    ensures { OnOk result (out.new.items ≡ out.old.items ++ told_part case.now decision) }
{
    match decision {
        None => Ok(()),
        Some(outcome) => push_told(out, case, outcome),
    }
}

/// What to do about the case of a line: about a mismatch, or else about a case in doubt after these steps.
fn push_do(out: &mut Vec<u8>, line: &ReportLine, steps: &[AuditStep]) -> Result<(), AllocError>
    ensures { OnOk result (out.new.items ≡ out.old.items
        ++ do_text line.now.mismatch line.now.case steps.now) }
{
    if line.mismatch {
        push_mend(out, &line.case)
    } else {
        push_deed(out, &deed_of(&line.case, steps))
    }
}

/// Why a case stands as its line says, and what to do.
fn push_explanation(
    alloc: Global,
    out: &mut Vec<u8>,
    tree: &Tree,
    namings: &TreeNamings,
    line: &ReportLine,
) -> Result<(), AllocError>
    requires { IsTree tree.now }
    ensures { OnOk result ((logs : KeptLogs) → AreNamings tree.now logs namings.now.entries
        → out.new.items ≡ out.old.items ++ explanation_text tree.now logs line.now) }
{
    let steps = steps_for(alloc, tree, namings, line)?;
    push_told_part(out, &line.case, line.decision)?;
    push_steps(out, line.case.txn.presumption, &steps)?;
    push_do(out, line, &steps)
}

/// The way of a report from this process up to the root: each told its parent.
#[tactic(auto, unfolding(crate::specs::Explanations::way_text))]
fn push_way(
    out: &mut Vec<u8>,
    tree: &Tree,
    process: ProcessId,
    most: usize,
) -> Result<(), AllocError>
    requires { IsTree tree.now }
    ensures { OnOk result (out.new.items ≡ out.old.items ++ way_text most tree.now process) }
{
    if most == 0 {
        return Ok(());
    }
    let Some(parent) = tree.parent(process) else {
        return Ok(());
    };
    push(out, ", ")?;
    push_number(out, u64::from(process.0))?;
    push(out, " told ")?;
    push_number(out, u64::from(parent.0))?;
    push_way(out, tree, parent, most - 1)
}

/// Who reported a ticket, along which way.
fn push_reporter(
    out: &mut Vec<u8>,
    tree: &Tree,
    ticket: &Ticket,
    what: &str,
) -> Result<(), AllocError>
    requires { IsTree tree.now }
    ensures { OnOk result (out.new.items ≡ out.old.items ++ reporter_text tree.now ticket.now what.now) }
{
    push(out, "  ")?;
    push_ticket(out, ticket)?;
    push(out, what)?;
    push_way(out, tree, ticket.child, tree.entries().len())?;
    push(out, "\n")
}

/// Who reported that an operator decided otherwise, and what to do.
fn push_mixed(
    out: &mut Vec<u8>,
    tree: &Tree,
    root: &Case,
    ticket: &Ticket,
) -> Result<(), AllocError>
    requires { IsTree tree.now }
    ensures { OnOk result (out.new.items ≡ out.old.items ++ mixed_text tree.now root.now ticket.now) }
{
    push_reporter(out, tree, ticket, " was decided otherwise by an operator")?;
    push(out, "  do: put the data of ")?;
    push_number(out, u64::from(ticket.child.0))?;
    push(out, " right, then forget ")?;
    let case = Case {
        txn: root.txn,
        ticket: Some(*ticket),
    };
    push_case(out, &case)?;
    push(out, ", then forget ")?;
    push_case(out, root)?;
    push(out, "\n")
}

/// Who cannot say what became of a ticket, and what to do.
fn push_unreported(
    out: &mut Vec<u8>,
    tree: &Tree,
    root: &Case,
    ticket: &Ticket,
) -> Result<(), AllocError>
    requires { IsTree tree.now }
    ensures { OnOk result (out.new.items ≡ out.old.items ++ unreported_text tree.now root.now ticket.now) }
{
    push_reporter(out, tree, ticket, " was no longer known")?;
    push(out, "  do: look at the data of ")?;
    push_number(out, u64::from(ticket.child.0))?;
    push(out, " and of what is below it, then forget ")?;
    push_case(out, root)?;
    push(out, "\n")
}

/// Who reported of each of these tickets that an operator decided it otherwise, and what to do.
fn push_all_mixed(
    out: &mut Vec<u8>,
    tree: &Tree,
    root: &Case,
    tickets: &[Ticket],
) -> Result<(), AllocError>
    requires { IsTree tree.now }
    ensures { OnOk result (out.new.items
        ≡ out.old.items ++ flat_map (mixed_text tree.now root.now) tickets.now) }
{
    for ticket in tickets {
        push_mixed(out, tree, root, ticket)?;
    }
    Ok(())
}

/// For each of these tickets, who cannot say what became of it, and what to do.
fn push_all_unreported(
    out: &mut Vec<u8>,
    tree: &Tree,
    root: &Case,
    tickets: &[Ticket],
) -> Result<(), AllocError>
    requires { IsTree tree.now }
    ensures { OnOk result (out.new.items
        ≡ out.old.items ++ flat_map (unreported_text tree.now root.now) tickets.now) }
{
    for ticket in tickets {
        push_unreported(out, tree, root, ticket)?;
    }
    Ok(())
}

/// Who reported what the root's End reports, and what to do.
fn push_reported(
    out: &mut Vec<u8>,
    tree: &Tree,
    root: &Case,
    reports: &Reports,
) -> Result<(), AllocError>
    requires { IsTree tree.now }
    ensures { OnOk result (out.new.items ≡ out.old.items ++ reported_text tree.now root.now reports.now) }
{
    push_all_mixed(out, tree, root, reports.mixed.as_slice())?;
    push_all_unreported(out, tree, root, reports.unreported.as_slice())
}

/// Who reported what the root's End reports, if it does.
fn push_reports(
    out: &mut Vec<u8>,
    tree: &Tree,
    root: &Case,
    reports: &Option<Reports>,
) -> Result<(), AllocError>
    requires { IsTree tree.now }
    ensures { OnOk result (out.new.items ≡ out.old.items ++ reports_text tree.now root.now reports.now) }
{
    match reports {
        None => Ok(()),
        Some(reports) => push_reported(out, tree, root, reports),
    }
}

/// Whether a line is explained: it shows a mismatch, or its case is in doubt.
fn is_explained(line: &ReportLine) -> bool
    ensures { result ≡ is_explained line.now }
{
    line.mismatch || line.own == Own::InDoubt
}

/// Why a case stands as its line says, where it is in doubt or shows a mismatch.
fn push_why(
    alloc: Global,
    out: &mut Vec<u8>,
    tree: &Tree,
    namings: &TreeNamings,
    line: &ReportLine,
) -> Result<(), AllocError>
    requires { IsTree tree.now }
    ensures { OnOk result ((logs : KeptLogs) → AreNamings tree.now logs namings.now.entries
        → out.new.items ≡ out.old.items ++ why_text tree.now logs line.now) }
{
    if is_explained(line) {
        push_explanation(alloc, out, tree, namings, line)?;
    }
    Ok(())
}

/// A line, and after it why its case stands so, where it is in doubt or shows a mismatch, and who reported
/// what the root's End reports.
pub(crate) fn push_explained(
    alloc: Global,
    out: &mut Vec<u8>,
    tree: &Tree,
    namings: &TreeNamings,
    line: &ReportLine,
) -> Result<(), AllocError>
    requires { IsTree tree.now }
    ensures { OnOk result ((logs : KeptLogs) → AreNamings tree.now logs namings.now.entries
        → out.new.items ≡ out.old.items ++ explained_line tree.now logs line.now) }
{
    push_line(out, line)?;
    push_why(alloc, out, tree, namings, line)?;
    push_reports(out, tree, &line.case, &line.reports)
}
