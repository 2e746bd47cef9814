//! The whole of an audit.

ghost use Rattle.std.specs.Prelude.{◌≡◌, ◌++◌, IfOk, IfErr, OnOk};
ghost use Rattle.std.specs.Option.{option_copied};
ghost use Rattle.protocol.specs.Trees.{IsTree};
ghost use Rattle.audit_tree.specs.Reports.{IsNoReport, IsReportOfLogs, lines_of, mismatches_in, other};
ghost use Rattle.audit_tree.specs.Truths.{AreTrueOfRuns};
ghost use Rattle.protocol.specs.Audits.{KeptLogs};
ghost use Rattle.audit_tree.specs.Tables.{AreNotes, all_lines, entry_lines, line_by, line_if, lines_in, reports_by};
ghost use Rattle.protocol.specs.Nodes.{role_by};

use crate::logs::{TreeNotes, all_notes};
use crate::parents::{TreeSayings, above, all_sayings};
use crate::report::{AuditError, Report, ReportLine};
use audit_cases::{Noted, NotedCases, Sayings, outcome_of};
use log_script::ProcessLog;
use protocol::{Case, Outcome, Reports, Tree, TreeProcess};
use std::alloc::{AllocError, Global};

/// The other outcome.
fn other(outcome: Outcome) -> Outcome
    ensures { result ≡ other outcome }
{
    match outcome {
        Outcome::Committed => Outcome::Aborted,
        Outcome::Aborted => Outcome::Committed,
    }
}

/// What a case's line says of reports: at the root what is noted.
fn reports_of(alloc: Global, case: &Case, note: &Noted) -> Result<Option<Reports>, AllocError>
    ensures { IfOk result (λ reports. reports ≡ reports_by case.now note.now) }
{
    match case.ticket {
        None => note.reports(alloc),
        Some(_) => Ok(None),
    }
}

/// The line of a case of which this is noted, and this is said above.
fn line_of(
    alloc: Global,
    above: Option<&Sayings>,
    case: &Case,
    note: &Noted,
) -> Result<ReportLine, AllocError>
    ensures { IfOk result (λ line. line ≡ line_by (option_copied above.entry) case.now note.now) }
{
    let outcome = outcome_of(above, case, note);
    let kinds = note.kinds();
    Ok(ReportLine {
        case: *case,
        own: kinds.own(),
        decision: kinds.decision(),
        outcome,
        mismatch: kinds.is_decided(other(outcome)),
        reports: reports_of(alloc, case, note)?,
    })
}

/// The line of a case of which this is noted, where this is said above, if it has one.
fn push_case(
    alloc: Global,
    lines: &mut Vec<ReportLine>,
    entry: &TreeProcess,
    above: Option<&Sayings>,
    case: &Case,
    note: &Noted,
) -> Result<(), AllocError>
    ensures { OnOk result (lines.new.items
        ≡ lines.old.items ++ line_if (role_by entry.now.kind entry.now.parent)
        (option_copied above.entry) case.now note.now) }
{
    if note.kinds().has_line(entry.kind, entry.parent) {
        lines.push(line_of(alloc, above, case, note)?)?;
    }
    Ok(())
}

/// The lines of the cases of a process of which this is noted, where this is said above them.
fn push_cases(
    alloc: Global,
    lines: &mut Vec<ReportLine>,
    entry: &TreeProcess,
    above: Option<&Sayings>,
    own: &NotedCases,
) -> Result<(), AllocError>
    ensures { OnOk result (lines.new.items
        ≡ lines.old.items ++ lines_in (role_by entry.now.kind entry.now.parent)
        (option_copied above.entry) own.now) }
{
    let listed = own.listed(entry.kind, entry.parent)?;
    for case in &listed {
        if let Some(note) = own.of(case) {
            push_case(alloc, lines, entry, above, case, note)?;
        }
    }
    Ok(())
}

/// The lines of a process's cases.
fn push_lines(
    alloc: Global,
    lines: &mut Vec<ReportLine>,
    entry: &TreeProcess,
    notes: &TreeNotes,
    said: &TreeSayings,
) -> Result<(), AllocError>
    ensures { OnOk result (lines.new.items ≡ lines.old.items
        ++ entry_lines notes.now.entries said.now.entries entry.now) }
{
    match notes.get(&entry.id) {
        None => Ok(()),
        Some(own) => push_cases(alloc, lines, entry, above(said, entry.parent), own),
    }
}

/// The lines of all processes.
fn lines_of(
    alloc: Global,
    tree: &Tree,
    notes: &TreeNotes,
    said: &TreeSayings,
) -> Result<Vec<ReportLine>, AllocError>
    ensures { IfOk result (λ lines. lines.items ≡ all_lines notes.now.entries said.now.entries tree.now) }
{
    let mut lines = Vec::new(alloc);
    let entries = tree.entries();
    for entry in entries {
        push_lines(alloc, &mut lines, entry, notes, said)?;
    }
    Ok(lines)
}

fn count_mismatches(lines: &[ReportLine]) -> usize
    ensures { result ≡ mismatches_in lines.now }
{
    lines.iter().filter(|line| line.mismatch).count()
}

/// Audits the cases of a tree of which this is noted: the lines and the number of mismatches, as `audit`
/// tells them.
pub fn audit_notes(alloc: Global, tree: &Tree, notes: &TreeNotes) -> Result<Report, AllocError>
    requires { IsTree tree.now }
    ensures lines { IfOk result (λ r. (logs : KeptLogs) → AreNotes tree.now logs notes.now.entries
        → r.lines.items ≡ lines_of tree.now logs) }
    ensures mismatches { IfOk result (λ r. r.mismatches ≡ mismatches_in r.lines.items) }
{
    let said = all_sayings(alloc, tree, notes)?;
    let lines = lines_of(alloc, tree, notes, &said)?;
    let mismatches = count_mismatches(&lines);
    Ok(Report { lines, mismatches })
}

/// Audits the logs of a tree: a line for each case that is still told of, in the order of the tree; in a
/// coordinator of first records, in a manager of last promises, by the records that are read; with how it
/// stands by its own process's records and how its transaction ends. The outcome is the case's own decision
/// or what it was told; else, at the root, abort; else that of the parent's first case of the transaction
/// that names its ticket; else what is presumed. Cases that are not their process's own in this tree are left
/// out. Each log is gone through once.
///
/// Where a run of the model left the logs, with no process failed, each outcome is that of its transaction
/// in the run, and the mismatches that are shown are just those that stand. Damaged: the first log in the
/// order of the tree that is.
pub fn audit(alloc: Global, tree: &Tree, logs: &[ProcessLog]) -> Result<Report, AuditError>
    requires { IsTree tree.now }
    ensures ok { IfOk result (λ r. IsReportOfLogs tree.now logs.now r) }
    ensures true_of_runs { IfOk result (λ r. AreTrueOfRuns tree.now logs.now r.lines.items) }
    ensures err { IfErr result (λ e. IsNoReport tree.now logs.now e) }
{
    let notes = all_notes(alloc, tree, logs)?;
    Ok(audit_notes(alloc, tree, &notes)?)
}
