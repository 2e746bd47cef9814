//! What each run of a script begins with.

ghost use Rattle.std.specs.Prelude.{◌≡◌, ◌⊎◌, IfErr, IfOk, IfSome};
ghost use Rattle.report_io.specs.Streams.{IsOfRun};
ghost use Rattle.protocol.specs.Trees.{IsTree};
ghost use Rattle.crash_engine.specs.Origins.{IsDamagedAt, Opens, OpensNot};

use log_script::ProcessLogs;
use protocol::{ProcessId, Tree};
use report_io::Failure;
use std::alloc::Global;
use tree_engine::Run;
use tree_world::copied_tree;

/// A tree, and the logs over which it opens, where the script begins its events with them; else it opens over
/// empty ones.
#[derive(Drop)]
pub struct Origin {
    pub tree: Tree,
    pub logs: Option<ProcessLogs>,
}

/// The first log that is damaged, and where, as a run of the tree would find it; none, where the tree opens.
pub(crate) fn damage_of(
    alloc: Global,
    origin: &Origin,
) -> Result<Option<(ProcessId, usize)>, Failure>
    requires { IsTree origin.now.tree }
    ensures damage { IfOk result (λ found. IfSome found (λ d. IsDamagedAt origin.now d.0 d.1)) }
    ensures memory { IfErr result (λ e. e ≡ Failure.Memory) }
{
    let Some(logs) = &origin.logs else {
        return Ok(None);
    };
    let tree = copied_tree(alloc, origin.tree.entries())?;
    match Run::reopen(alloc, tree, logs.as_slice())? {
        Ok(run) => {
            run.close();
            Ok(None)
        }
        Err(damage) => Ok(Some(damage)),
    }
}

/// A run of the tree that opens. Device: one of the logs is damaged. That the tree opens over logs over which
/// it opened before no contract says, and nothing else is told of it.
pub(crate) fn opened(alloc: Global, origin: &Origin) -> Result<Run, Failure>
    requires { IsTree origin.now.tree }
    ensures begins { IfOk result (λ run. Opens origin.now run) }
    ensures err { IfErr result (λ why. (why ≡ Failure.Memory) ⊎ OpensNot origin.now why) }
    ensures why { IfErr result IsOfRun }
{
    let tree = copied_tree(alloc, origin.tree.entries())?;
    match &origin.logs {
        None => Run::open(alloc, tree),
        Some(logs) => match Run::reopen(alloc, tree, logs.as_slice())? {
            Ok(run) => Ok(run),
            Err((_process, _place)) => Err(Failure::Device),
        },
    }
}
