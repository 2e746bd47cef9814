//! The trace of a run.

ghost use Rattle.std.specs.Prelude.{◌≡◌, ◌⊎◌, ◌+◌, ◌≤◌, ◌^◌, ◌++◌, IfErr, IfOk, OnOk, length, slice_get, string_bytes};
ghost use Rattle.trace_lines.specs.Trace.{entries_text};
ghost use Rattle.tree_journal.specs.Shown.{shown_part};
ghost use Rattle.tree_world.specs.Worlds.{state};
ghost use Rattle.tree_engine.specs.Failures.{PassesLast, message_count};
ghost use Rattle.tree_engine.specs.Trees.{AddsStep, IsNumberedRefusal, ending, last_line, opened_text, opening_text, part_text, refused_text, trace_by};

use crate::run::Refusal;
use log_store::MemoryStore;
use protocol::TreeProcess;
use report_io::{Failure, Status};
use std::alloc::{AllocError, Global};
use trace_lines::{push_begun, push_conclusion, push_kept, push_messages, push_written};
use tree_journal::ShownStep;
use tree_world::World;

/// The trace of what the tree has come to, and how its run ended: of a tree that was opened over logs its
/// first steps are the restarts of its processes, and they show what each opened. Exhausted: 2^64 messages or
/// more were sent.
pub fn trace_text(
    alloc: Global,
    world: &World<MemoryStore>,
    refusal: Refusal,
) -> Result<(Vec<u8>, Status), Failure>
    requires { IsNumberedRefusal refusal }
    ensures text { IfOk result (λ r. r.0.items
        ≡ trace_by world.now.reopened (state world.now) ++ last_line refusal) }
    ensures status { IfOk result (λ r. r.1 ≡ ending refusal) }
    ensures err { IfErr result (λ why. (why ≡ Failure.Memory)
        ⊎ ((why ≡ Failure.Exhausted) × (2 ^ 64 ≤ message_count (state world.now).entries))) }
{
    let mut out = Vec::new(alloc);
    if !world.is_reopened() {
        push_opened(alloc, &mut out, world.tree().entries())?;
    }
    push_entries(&mut out, world)?;
    match refusal {
        None => {
            out.extend_from_slice(b"end\n")?;
            Ok((out, Status::Ended))
        }
        Some((made, refusal)) => {
            push_refused(alloc, &mut out, made as u64 + 1, refusal.number())?;
            Ok((out, Status::Stopped))
        }
    }
}

/// Adds the last line of a run that was refused an event.
pub fn push_refused(
    alloc: Global,
    out: &mut Vec<u8>,
    event: u64,
    refusal: u8,
) -> Result<(), AllocError>
    ensures { OnOk result (out.new.items ≡ out.old.items ++ refused_text event refusal) }
{
    let line = format!(in alloc; "refused {event} {refusal}\n")?;
    out.extend_from_slice(line.as_bytes())
}

/// Adds the lines of the opening of these processes, whose logs were empty.
pub fn push_opened(
    alloc: Global,
    out: &mut Vec<u8>,
    entries: &[TreeProcess],
) -> Result<(), AllocError>
    ensures { OnOk result (out.new.items ≡ out.old.items ++ opened_text entries.now) }
{
    for entry in entries {
        push_opening(alloc, out, entry.id.0)?;
    }
    Ok(())
}

fn push_opening(alloc: Global, out: &mut Vec<u8>, process: u32) -> Result<(), AllocError>
    ensures { OnOk result (out.new.items ≡ out.old.items ++ opening_text process) }
{
    let line = opening_line(alloc, u64::from(process))?;
    out.extend_from_slice(line.as_bytes())
}

fn opening_line(alloc: Global, process: u64) -> Result<String, AllocError>
    ensures { IfOk result (λ line. string_bytes line ≡ opening_text process) }
{
    let mut line = format!(in alloc; "log {process} ")?;
    line.push_str("Opened 1 forced\n")?;
    Ok(line)
}

/// The lines of a step, after N messages. How many were sent with its own. Exhausted: 2^64 or more.
#[tactic(auto, unfolding(trace_lines::specs::Trace::entry_text))]
fn push_step(out: &mut Vec<u8>, sent: u64, step: &ShownStep) -> Result<u64, Failure>
    ensures sent { IfOk result (λ next. next ≡ sent + length step.now.messages.now) }
    ensures text { OnOk result (out.new.items ≡ out.old.items ++ part_text sent (shown_part step.now)) }
    ensures err { IfErr result (λ why. (why ≡ Failure.Memory)
        ⊎ ((why ≡ Failure.Exhausted) × (2 ^ 64 ≤ sent + length step.now.messages.now))) }
{
    let Some(next) = sent.checked_add(step.messages.len() as u64) else {
        return Err(Failure::Exhausted);
    };
    let process = step.process.0;
    push_begun(out, &step.begun)?;
    push_written(out, process, step.written)?;
    push_conclusion(out, &step.told)?;
    push_messages(out, sent, step.messages)?;
    push_kept(out, process, &step.kept)?;
    Ok(next)
}

/// Adds the lines of the step at a place, before which N messages were sent, and tells how many are sent with
/// its own. None: there is no such step, and nothing is added. Exhausted: 2^64 messages or more were sent.
pub fn push_place(
    out: &mut Vec<u8>,
    world: &World<MemoryStore>,
    place: usize,
    sent: u64,
) -> Result<Option<u64>, Failure>
    ensures text { IfOk result (AddsStep (slice_get (state world.now).entries place)
        out.old.items out.new.items sent) }
    ensures err { IfErr result (λ why. (why ≡ Failure.Memory)
        ⊎ ((why ≡ Failure.Exhausted) × PassesLast sent (slice_get (state world.now).entries place))) }
{
    match world.shown(place) {
        None => Ok(None),
        Some(step) => Ok(Some(push_step(out, sent, &step)?)),
    }
}

/// The lines of a run's steps.
fn push_entries(out: &mut Vec<u8>, world: &World<MemoryStore>) -> Result<(), Failure>
    ensures text { OnOk result (out.new.items ≡ out.old.items ++ entries_text 0 (state world.now).entries) }
    ensures err { IfErr result (λ why. (why ≡ Failure.Memory)
        ⊎ ((why ≡ Failure.Exhausted) × (2 ^ 64 ≤ message_count (state world.now).entries))) }
{
    let mut sent: u64 = 0;
    for place in 0..world.made() {
        let Some(next) = push_place(out, world, place, sent)? else {
            return Ok(());
        };
        sent = next;
    }
    Ok(())
}
