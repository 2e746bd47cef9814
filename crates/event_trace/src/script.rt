//! The trace of a script, by its events.

ghost use Rattle.std.specs.Prelude.{◌≡◌, ◌++◌, IfNone, IfOk, IfSome, OnOk};
ghost use Rattle.tree_engine.specs.Trees.{IsNumberedRefusal, ending, last_line, trace_by};
ghost use Rattle.tree_world.specs.Worlds.{state};
ghost use Rattle.event_trace.specs.Numbered.{numbered, sent_after};
ghost use Rattle.event_trace.specs.Told.{HasNoTrace, TellsFrom, TellsScript};

use crate::events::make_events;
use crate::lines::push_numbered;
use crate::steps::push_steps;
use log_store::MemoryStore;
use protocol::Event;
use reopen_script::read_reopen;
use report_io::{Failure, Status};
use std::alloc::{AllocError, Global};
use tree_engine::{Refusal, opened, push_opened, push_refused};
use tree_script::ScriptError;
use tree_world::World;

/// Adds the trace of a tree that has just opened, each line with 0 before it. Tells how many messages were
/// sent.
fn push_opening(
    alloc: Global,
    out: &mut Vec<u8>,
    world: &World<MemoryStore>,
) -> Result<u64, Failure>
    ensures text { OnOk result (out.new.items
        ≡ out.old.items ++ numbered 0 (trace_by world.now.reopened (state world.now))) }
    ensures sent { IfOk result (λ next. next ≡ sent_after 0 (state world.now).entries) }
{
    let mut lines = Vec::new(alloc);
    if !world.is_reopened() {
        push_opened(alloc, &mut lines, world.tree().entries())?;
    }
    let sent = push_steps(&mut lines, world, 0, 0)?;
    push_numbered(out, 0, &lines)?;
    Ok(sent)
}

/// Adds the last line of a trace. It is of no event, and has no number.
fn push_last(alloc: Global, out: &mut Vec<u8>, refusal: Refusal) -> Result<Status, AllocError>
    requires { IsNumberedRefusal refusal }
    ensures text { OnOk result (out.new.items ≡ out.old.items ++ last_line refusal) }
    ensures status { IfOk result (λ status. status ≡ ending refusal) }
{
    match refusal {
        None => {
            out.extend_from_slice(b"end\n")?;
            Ok(Status::Ended)
        }
        Some((made, refusal)) => {
            push_refused(alloc, out, made as u64 + 1, refusal.number())?;
            Ok(Status::Stopped)
        }
    }
}

/// Makes these events in a tree that has just opened, and tells its trace by them.
fn trace_of(
    alloc: Global,
    world: &mut World<MemoryStore>,
    events: &[Event],
) -> Result<(Vec<u8>, Status), Failure>
    ensures { IfOk result (λ told. TellsFrom world.old.reopened (state world.old) events.now
        told.1 told.0.items) }
{
    let mut out = Vec::new(alloc);
    let sent = push_opening(alloc, &mut out, world)?;
    let refusal = make_events(alloc, &mut out, world, events, sent)?;
    let status = push_last(alloc, &mut out, refusal)?;
    Ok((out, status))
}

/// The trace of a tree script as `tree` writes it, with the number of its event before each line: 0 before
/// the lines of the tree's opening, and none before the last line. None: the script is refused, or a log that
/// it begins with is damaged. An error says that memory was refused, or why an event could not be made.
pub fn event_trace(alloc: Global, input: &[u8]) -> Result<Option<(Vec<u8>, Status)>, Failure>
    ensures trace { IfOk result (λ told. IfSome told (λ told. TellsScript input.now told.1 told.0.items)) }
    ensures none { IfOk result (λ told. IfNone told (HasNoTrace input.now)) }
{
    let (tree, logs, events) = match read_reopen(alloc, input) {
        Ok(script) => script,
        Err(ScriptError::Fault(_)) => return Ok(None),
        Err(ScriptError::Memory) => return Err(Failure::Memory),
    };
    match opened(alloc, tree, logs)? {
        Ok(run) => {
            let mut world = run.into_world();
            let told = trace_of(alloc, &mut world, &events);
            world.close();
            Ok(Some(told?))
        }
        Err(_) => Ok(None),
    }
}
