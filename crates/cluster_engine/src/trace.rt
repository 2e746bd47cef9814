//! The journal as a trace.

ghost use Rattle.std.specs.Prelude.{◌≡◌, ◌⊎◌, ◌+◌, ◌≤◌, ◌^◌, ◌++◌, IfErr, IfOk, OnOk, length, string_bytes};
ghost use Rattle.trace_lines.specs.Trace.{entries_text, entry_text};
ghost use Rattle.cluster_turns.specs.Turns.{all_of};
ghost use Rattle.tree_engine.specs.Failures.{message_count};
ghost use Rattle.tree_engine.specs.Trees.{opened_text, opening_text};
ghost use Rattle.cluster_ties.specs.Views.{entries_in};
ghost use Rattle.cluster_engine.specs.Reports.{IsUnnumbered, journal_text};

use cluster_turns::{ClosedJournal, Entries};
use protocol::{JournalEntry, TreeProcess};
use report_io::Failure;
use std::alloc::{AllocError, Global};
use trace_lines::{push_begun, push_conclusion, push_kept, push_messages, push_written};

/// The line of a process's opening.
fn opening_line(alloc: Global, process: u64) -> Result<String, AllocError>
    ensures { IfOk result (λ line. string_bytes line ≡ opening_text process) }
{
    let mut line = format!(in alloc; "log {process} ")?;
    line.push_str("Opened 1 forced\n")?;
    Ok(line)
}

fn push_opening(alloc: Global, out: &mut Vec<u8>, process: u32) -> Result<(), AllocError>
    ensures { OnOk result (out.new.items ≡ out.old.items ++ opening_text process) }
{
    let line = opening_line(alloc, u64::from(process))?;
    out.extend_from_slice(line.as_bytes())
}

/// The lines of the processes' opening.
fn push_opened(alloc: Global, out: &mut Vec<u8>, tree: &[TreeProcess]) -> Result<(), AllocError>
    ensures { OnOk result (out.new.items ≡ out.old.items ++ opened_text tree.now) }
{
    for entry in tree {
        push_opening(alloc, out, entry.id.0)?;
    }
    Ok(())
}

/// The lines of an entry, before which N messages were sent. How many were with its own. Exhausted:
/// 2^64 or more.
#[tactic(auto, unfolding(trace_lines::specs::Trace::entry_text))]
fn push_entry(out: &mut Vec<u8>, sent: u64, entry: &JournalEntry) -> Result<u64, Failure>
    ensures sent { IfOk result (λ next. next ≡ sent + length entry.now.reaction.messages) }
    ensures text { OnOk result (out.new.items ≡ out.old.items ++ entry_text sent entry.now) }
    ensures err { IfErr result (λ e. (e ≡ Failure.Memory)
        ⊎ ((e ≡ Failure.Exhausted) × (2 ^ 64 ≤ sent + length entry.now.reaction.messages))) }
{
    let Some(next) = sent.checked_add(entry.reaction.messages.len() as u64) else {
        return Err(Failure::Exhausted);
    };
    let process = entry.step.process.0;
    push_begun(out, &entry.reaction.begun)?;
    push_written(out, process, entry.reaction.written.as_slice())?;
    push_conclusion(out, &entry.reaction.told)?;
    push_messages(out, sent, entry.reaction.messages.as_slice())?;
    push_kept(out, process, &entry.reaction.kept)?;
    Ok(next)
}

/// The lines of the entries of a turn, before which N messages were sent. How many were with theirs.
/// Exhausted: 2^64 or more.
fn push_turn(out: &mut Vec<u8>, before: u64, turn: &[(u64, JournalEntry)]) -> Result<u64, Failure>
    ensures sent { IfOk result (λ next. next ≡ before + message_count (entries_in turn.now)) }
    ensures text { OnOk result (out.new.items ≡ out.old.items ++ entries_text before (entries_in turn.now)) }
    ensures err { IfErr result (λ e. (e ≡ Failure.Memory)
        ⊎ ((e ≡ Failure.Exhausted) × (2 ^ 64 ≤ before + message_count (entries_in turn.now)))) }
{
    let mut sent = before;
    for place in 0..turn.len() {
        sent = push_entry(out, sent, &turn[place].1)?;
    }
    Ok(sent)
}

/// The lines of these turns.
fn push_turns(out: &mut Vec<u8>, turns: &[Entries]) -> Result<(), Failure>
    ensures text { OnOk result (out.new.items ≡ out.old.items ++ entries_text 0
        (entries_in (all_of turns.now))) }
    ensures err { IfErr result (λ e. (e ≡ Failure.Memory)
        ⊎ ((e ≡ Failure.Exhausted) × IsUnnumbered (all_of turns.now))) }
{
    let mut sent = 0;
    for place in 0..turns.len() {
        sent = push_turn(out, sent, turns[place].as_slice())?;
    }
    Ok(())
}

/// Adds the trace of a journal, as a tree on one thread that makes its events writes it. Exhausted: in it
/// 2^64 messages or more were sent.
pub(crate) fn push_trace(
    alloc: Global,
    out: &mut Vec<u8>,
    tree: &[TreeProcess],
    journal: &ClosedJournal,
) -> Result<(), Failure>
    ensures text { OnOk result (out.new.items ≡ out.old.items ++ journal_text tree.now journal.now) }
    ensures err { IfErr result (λ e. (e ≡ Failure.Memory)
        ⊎ ((e ≡ Failure.Exhausted) × IsUnnumbered journal.now)) }
{
    push_opened(alloc, out, tree)?;
    push_turns(out, journal.turns())?;
    out.extend_from_slice(b"end\n")?;
    Ok(())
}
