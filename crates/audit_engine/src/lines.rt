//! The text of a report.

ghost use Rattle.std.specs.Prelude.{◌≡◌, ◌++◌, OnOk, IfOk};
ghost use Rattle.std.specs.List.{flat_map};
ghost use Rattle.protocol.specs.Audits.{KeptLogs};
ghost use Rattle.protocol.specs.Trees.{IsTree};
ghost use Rattle.audit_tree.specs.Reports.{mismatches_in};
ghost use Rattle.audit_tree.specs.Tables.{AreNotes};
ghost use Rattle.audit_engine.specs.Chains.{AreNamings};
ghost use Rattle.audit_engine.specs.Audits.{detailed_text, explained_text};
ghost use Rattle.audit_engine.specs.Explanations.{explained_line};
ghost use Rattle.audit_engine.specs.Lines.{count_text, line_text, lines_text, mismatch_part, own_word, reports_part};

use crate::chains::all_namings;
use crate::detail::Detail;
use crate::explain::push_explained;
use crate::namings::TreeNamings;
use audit_tree::{Own, Report, ReportLine, TreeNotes};
use log_lines::push_listed;
use protocol::{Reports, Tree};
use std::alloc::{AllocError, Global};
use trace_lines::{outcome_word, push, push_case, push_number};

/// The word of how a case stands by its own records.
fn own_word(own: Own) -> &'static str
    ensures { result.now ≡ own_word own }
{
    match own {
        Own::Commit => "commit",
        Own::Abort => "abort",
        Own::Collecting => "collecting",
        Own::InDoubt => "in-doubt",
        Own::HeurCommit => "heur-commit",
        Own::HeurRollback => "heur-rollback",
    }
}

/// What is after the outcome of a line.
fn mismatch_word(mismatch: bool) -> &'static str
    ensures { result.now ≡ mismatch_part mismatch }
{
    if mismatch { " mismatch" } else { "" }
}

/// What the root's End reports, if it does.
fn push_reports(out: &mut Vec<u8>, reports: &Option<Reports>) -> Result<(), AllocError>
    ensures { OnOk result (out.new.items ≡ out.old.items ++ reports_part reports.now) }
{
    match reports {
        None => Ok(()),
        Some(reports) => {
            push_listed(out, " reported", reports.mixed.as_slice())?;
            push_listed(out, " unreported", reports.unreported.as_slice())
        }
    }
}

pub(crate) fn push_line(out: &mut Vec<u8>, line: &ReportLine) -> Result<(), AllocError>
    ensures { OnOk result (out.new.items ≡ out.old.items ++ line_text line.now) }
{
    push_case(out, &line.case)?;
    push(out, " ")?;
    push(out, own_word(line.own))?;
    push(out, " ")?;
    push(out, outcome_word(line.outcome))?;
    push(out, mismatch_word(line.mismatch))?;
    push_reports(out, &line.reports)?;
    push(out, "\n")
}

fn push_count(out: &mut Vec<u8>, count: usize) -> Result<(), AllocError>
    ensures { OnOk result (out.new.items ≡ out.old.items ++ count_text count) }
{
    push(out, "mismatches ")?;
    push_number(out, count as u64)?;
    push(out, "\n")
}

fn push_lines(out: &mut Vec<u8>, lines: &[ReportLine]) -> Result<(), AllocError>
    ensures { OnOk result (out.new.items ≡ out.old.items ++ lines_text lines.now) }
{
    for line in lines {
        push_line(out, line)?;
    }
    Ok(())
}

/// A line for each case, and the number of mismatches.
fn text_of(alloc: Global, report: &Report) -> Result<Vec<u8>, AllocError>
    ensures { IfOk result (λ text. text.items ≡ lines_text report.now.lines.items
        ++ count_text report.now.mismatches) }
{
    let mut out = Vec::new(alloc);
    push_lines(&mut out, report.lines.as_slice())?;
    push_count(&mut out, report.mismatches)?;
    Ok(out)
}

/// The lines, each explained that is in doubt, shows a mismatch or reports tickets.
fn push_all_explained(
    alloc: Global,
    out: &mut Vec<u8>,
    tree: &Tree,
    namings: &TreeNamings,
    lines: &[ReportLine],
) -> Result<(), AllocError>
    requires { IsTree tree.now }
    ensures { OnOk result ((logs : KeptLogs) → AreNamings tree.now logs namings.now.entries
        → out.new.items ≡ out.old.items ++ flat_map (explained_line tree.now logs) lines.now) }
{
    for line in lines {
        push_explained(alloc, out, tree, namings, line)?;
    }
    Ok(())
}

/// The lines, explained, and the number of mismatches.
fn explained_of(
    alloc: Global,
    tree: &Tree,
    notes: &TreeNotes,
    report: &Report,
) -> Result<Vec<u8>, AllocError>
    requires tree { IsTree tree.now }
    requires counted { report.now.mismatches ≡ mismatches_in report.now.lines.items }
    ensures { IfOk result (λ text. (logs : KeptLogs) → AreNotes tree.now logs notes.now.entries
        → text.items ≡ explained_text tree.now logs report.now.lines.items) }
{
    let namings = all_namings(alloc, tree, notes)?;
    let mut out = Vec::new(alloc);
    push_all_explained(alloc, &mut out, tree, &namings, report.lines.as_slice())?;
    push_count(&mut out, report.mismatches)?;
    Ok(out)
}

/// The text of a report on a tree of which this is noted.
pub(crate) fn told(
    alloc: Global,
    detail: Detail,
    tree: &Tree,
    notes: &TreeNotes,
    report: &Report,
) -> Result<Vec<u8>, AllocError>
    requires tree { IsTree tree.now }
    requires counted { report.now.mismatches ≡ mismatches_in report.now.lines.items }
    ensures { IfOk result (λ text. (logs : KeptLogs) → AreNotes tree.now logs notes.now.entries
        → text.items ≡ detailed_text detail tree.now logs report.now.lines.items) }
{
    match detail {
        Detail::Lines => text_of(alloc, report),
        Detail::Explained => explained_of(alloc, tree, notes, report),
    }
}
