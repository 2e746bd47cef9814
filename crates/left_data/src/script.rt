//! The data that a script leaves.

ghost use Rattle.std.specs.Prelude.{[], IfNone, IfOk, IfSome};
ghost use Rattle.left_data.specs.Left.{HasNoData, LeavesData, LeavesFrom};
ghost use Rattle.tree_engine.specs.Runs.{HasCome};
ghost use Rattle.tree_world.specs.Worlds.{state};

use crate::left::data_left;
use protocol::Event;
use reopen_script::read_reopen;
use report_io::Failure;
use std::alloc::Global;
use tree_engine::{Run, opened};
use tree_script::ScriptError;

/// Makes these events, and tells the data that they leave.
fn data_after(alloc: Global, run: &mut Run, events: &[Event]) -> Result<Vec<u8>, Failure>
    requires { HasCome (state run.old.world) [] run.old }
    ensures { IfOk result (λ text. LeavesFrom run.old events.now text.items) }
{
    run.make_all(alloc, events)?;
    data_left(alloc, run.world())
}

/// As `data_after`, and lets the run go.
fn data_of(alloc: Global, run: Run, events: &[Event]) -> Result<Vec<u8>, Failure>
    requires { HasCome (state run.world) [] run }
    ensures { IfOk result (λ text. LeavesFrom run events.now text.items) }
{
    let mut run = run;
    let told = data_after(alloc, &mut run, events);
    run.close();
    told
}

/// The data that a tree script leaves its managers, as `data_left` has it: after its last event, or after
/// those before the refused one. None: the script is refused, or a log that it begins with is damaged. An
/// error says that memory was refused, or why an event could not be made.
pub fn data_text(alloc: Global, input: &[u8]) -> Result<Option<Vec<u8>>, Failure>
    ensures data { IfOk result (λ text. IfSome text (λ text. LeavesData input.now text.items)) }
    ensures none { IfOk result (λ text. IfNone text (HasNoData input.now)) }
{
    let (tree, logs, events) = match read_reopen(alloc, input) {
        Ok(script) => script,
        Err(ScriptError::Fault(_)) => return Ok(None),
        Err(ScriptError::Memory) => return Err(Failure::Memory),
    };
    match opened(alloc, tree, logs)? {
        Ok(run) => Ok(Some(data_of(alloc, run, &events)?)),
        Err(_) => Ok(None),
    }
}
