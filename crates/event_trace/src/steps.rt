//! The lines of the steps that a tree has made since.

ghost use Rattle.std.specs.Prelude.{◌≡◌, ◌++◌, IfOk, OnOk, drop};
ghost use Rattle.trace_lines.specs.Trace.{entries_text};
ghost use Rattle.tree_world.specs.Worlds.{state};
ghost use Rattle.event_trace.specs.Numbered.{sent_after};

use log_store::MemoryStore;
use report_io::Failure;
use tree_engine::push_place;
use tree_world::World;

/// Adds the lines of all steps from this place on, before which N messages were sent, and tells how many are
/// sent with theirs. Exhausted: 2^64 or more.
pub(crate) fn push_steps(
    out: &mut Vec<u8>,
    world: &World<MemoryStore>,
    from: usize,
    sent: u64,
) -> Result<u64, Failure>
    ensures text { OnOk result (out.new.items
        ≡ out.old.items ++ entries_text sent (drop from (state world.now).entries)) }
    ensures sent { IfOk result (λ next. next ≡ sent_after sent (drop from (state world.now).entries)) }
{
    let mut next = sent;
    for place in from..world.made() {
        let Some(more) = push_place(out, world, place, next)? else {
            return Ok(next);
        };
        next = more;
    }
    Ok(next)
}
