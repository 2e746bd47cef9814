//! Writes a tree and its logs.

ghost use Rattle.std.specs.Prelude.{◌≡◌, ◌++◌, IfOk, OnOk};
ghost use Rattle.tree_script.specs.Documents.{kind_text};
ghost use Rattle.log_script.specs.Lines.{log_line, log_lines};
ghost use Rattle.log_script.specs.Trees.{head_lines, info_line, parent_line, process_table, tree_text, logs_text};

use crate::line::ProcessLog;
use protocol::{Bytes, Kind, ProcessId, TreeProcess};
use spellings::hexadecimal::Hexadecimal;
use std::alloc::{AllocError, Global};
use trace_lines::{push, push_number};

/// How a kind of process is written.
fn kind_word(kind: Kind) -> &'static str
    ensures { result.now ≡ kind_text kind }
{
    match kind {
        Kind::Coordinator => "coordinator",
        Kind::Manager => "manager",
    }
}

fn push_parent(out: &mut Vec<u8>, parent: Option<ProcessId>) -> Result<(), AllocError>
    ensures { OnOk result (out.new.items ≡ out.old.items ++ parent_line parent) }
{
    let Some(parent) = parent else {
        return Ok(());
    };
    push(out, "parent = ")?;
    push_number(out, u64::from(parent.0))?;
    push(out, "\n")
}

fn push_info(out: &mut Vec<u8>, info: &Option<Bytes>) -> Result<(), AllocError>
    ensures { OnOk result (out.new.items ≡ out.old.items ++ info_line info.now) }
{
    let Some(info) = info else {
        return Ok(());
    };
    push(out, "info = \"")?;
    out.extend_from_slice(info.as_slice())?;
    push(out, "\"\n")
}

fn push_head(out: &mut Vec<u8>, entry: &TreeProcess) -> Result<(), AllocError>
    ensures { OnOk result (out.new.items ≡ out.old.items ++ head_lines entry.now) }
{
    push(out, "[[process]]\nid = ")?;
    push_number(out, u64::from(entry.id.0))?;
    push(out, "\nkind = \"")?;
    push(out, kind_word(entry.kind))?;
    push(out, "\"\n")
}

#[tactic(auto, unfolding(crate::specs::Trees::process_table))]
fn push_process(out: &mut Vec<u8>, entry: &TreeProcess) -> Result<(), AllocError>
    ensures { OnOk result (out.new.items ≡ out.old.items ++ process_table entry.now) }
{
    push_head(out, entry)?;
    push_parent(out, entry.parent)?;
    push_info(out, &entry.info)
}

fn push_tree(out: &mut Vec<u8>, entries: &[TreeProcess]) -> Result<(), AllocError>
    ensures { OnOk result (out.new.items ≡ out.old.items ++ tree_text entries.now) }
{
    for entry in entries {
        push_process(out, entry)?;
    }
    Ok(())
}

fn push_log(alloc: Global, out: &mut Vec<u8>, log: &ProcessLog) -> Result<(), AllocError>
    ensures { OnOk result (out.new.items ≡ out.old.items ++ log_line log.now) }
{
    push(out, "log ")?;
    push_number(out, u64::from(log.process.0))?;
    let bytes = log.bytes.as_slice();
    if bytes.is_empty() {
        return Ok(());
    }
    let digits = Hexadecimal(bytes);
    let digits = format!(in alloc; " {digits}")?;
    push(out, &digits)
}

fn push_logs(alloc: Global, out: &mut Vec<u8>, logs: &[ProcessLog]) -> Result<(), AllocError>
    ensures { OnOk result (out.new.items ≡ out.old.items ++ log_lines logs.now) }
{
    for log in logs {
        push_log(alloc, out, log)?;
        push(out, "\n")?;
    }
    Ok(())
}

/// Writes the processes of a tree, a line of three dashes, and a line for each of these logs. It is what
/// `read_logs` reads where each process of the tree has one log.
pub fn logs_text(
    alloc: Global,
    entries: &[TreeProcess],
    logs: &[ProcessLog],
) -> Result<Vec<u8>, AllocError>
    ensures { IfOk result (λ text. text.items ≡ logs_text entries.now logs.now) }
{
    let mut out = Vec::new(alloc);
    push_tree(&mut out, entries)?;
    push(&mut out, "---\n")?;
    push_logs(alloc, &mut out, logs)?;
    Ok(out)
}
