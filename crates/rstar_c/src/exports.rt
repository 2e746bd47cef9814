//! What C calls of a node.

ghost use Rattle.std.specs.Prelude.{◌≡◌, IsSome, None};
ghost use Rattle.linked_node.specs.Numbers.{IsRefusalNumber};
ghost use Rattle.linked_node.specs.Openings.{OpensAt};
ghost use Rattle.linked_node.specs.Turns.{PassedAt, ShownAt, TellsAt, TurnedAt};

use crate::handle::Core;
use file_calls::CallKind;
use linked_node::{CALLS, DONE, HOW, IO, NO_CALL, opened, release};
use std::alloc::Global;
use std::mem;

/// The version of this interface.
#[unsafe(no_mangle)]
pub extern "C" fn rstar_version() -> u32
    ensures { result ≡ 1 }
{
    1
}

/// The number of a refusal, which is none of an answer.
fn refused(why: u32) -> u32
    ensures { IsRefusalNumber result }
{
    if why == DONE || why == CALLS { IO } else { why }
}

/// Opens a process of a tree over the bytes of its log's file (how is 0), or over a new one (how is 1). 0 or
/// 27: the handle is of a node, whose answer is what it did as it opened. Else why not, and the handle is as
/// it was.
#[unsafe(no_mangle)]
pub extern "C" fn rstar_core_open(
    alloc: Global,
    tree: &[u8],
    process: u32,
    file: &[u8],
    how: u32,
    core: &mut Core,
) -> u32
    ensures { OpensAt tree.now process file.now how core.old.node core.new.node result }
{
    if how > 1 {
        return HOW;
    }
    match opened(alloc, tree, process, file, how == 1) {
        Ok(kept) => {
            let status = kept.status();
            *core = Core::of(kept);
            status
        }
        Err(why) => refused(why),
    }
}

/// Answers a line, without its end, as `rstar node` does.
#[unsafe(no_mangle)]
pub extern "C" fn rstar_core_line(
    alloc: Global,
    core: &mut Core,
    line: &[u8],
    room: &mut [u8],
    size: &mut usize,
) -> u32
    requires open { IsSome core.old.node }
    ensures turned { TurnedAt line.now core.old.node core.new.node result }
    ensures shown { ShownAt result core.new.node room.old room.new size.new }
{
    let mut kept = mem::replace(core, Core::none()).into_box(alloc);
    let status = kept.turn(alloc, line);
    *size = kept.show(status, room);
    *core = Core::of(kept);
    status
}

/// Gives the last answer.
#[unsafe(no_mangle)]
pub extern "C" fn rstar_core_answer(
    alloc: Global,
    core: &mut Core,
    room: &mut [u8],
    size: &mut usize,
) -> u32
    requires open { IsSome core.old.node }
    ensures same { core.new.node ≡ core.old.node }
    ensures tells { TellsAt core.old.node result }
    ensures shown { ShownAt result core.old.node room.old room.new size.new }
{
    let kept = mem::replace(core, Core::none()).into_box(alloc);
    let status = kept.status();
    *size = kept.show(status, room);
    *core = Core::of(kept);
    status
}

/// The number of a kind of call.
fn kind_number(kind: CallKind) -> u32 {
    match kind {
        CallKind::Write => 1,
        CallKind::Sync => 2,
        CallKind::Replace => 3,
    }
}

/// Gives the call of the file that is to be made next.
#[unsafe(no_mangle)]
pub extern "C" fn rstar_core_call(
    alloc: Global,
    core: &mut Core,
    kind: &mut u32,
    place: &mut u64,
    room: &mut [u8],
    size: &mut usize,
) -> u32
    requires open { IsSome core.old.node }
    ensures same { core.new.node ≡ core.old.node }
{
    let kept = mem::replace(core, Core::none()).into_box(alloc);
    let next = kept.calls.show_next(room);
    *core = Core::of(kept);
    match next {
        Some(call) => {
            *kind = kind_number(call.kind);
            *place = call.place;
            *size = call.size;
            DONE
        }
        None => NO_CALL,
    }
}

/// Tells that the call that was to be made next was made (1), or failed (0).
#[unsafe(no_mangle)]
pub extern "C" fn rstar_core_done(alloc: Global, core: &mut Core, is_made: u32) -> u32
    requires open { IsSome core.old.node }
    ensures { PassedAt is_made core.old.node core.new.node result }
{
    let mut kept = mem::replace(core, Core::none()).into_box(alloc);
    let status = kept.pass(is_made);
    *core = Core::of(kept);
    status
}

/// Releases a node: its memory. What it had forced is in its file; what a line `end` did not force may be
/// lost.
#[unsafe(no_mangle)]
pub extern "C" fn rstar_core_close(alloc: Global, core: &mut Core)
    requires { IsSome core.old.node }
    ensures { core.new.node ≡ None }
{
    release(mem::replace(core, Core::none()).into_box(alloc));
}
