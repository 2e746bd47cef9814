//! Lines that are at hand: the node is given all of them before one of them is told of.

ghost use Rattle.std.specs.Prelude.{◌≡◌, [], IfErr, IfOk, OnOk};
ghost use Rattle.std.specs.Io.KnownBytes.{Appends};
ghost use Rattle.report_io.specs.Streams.{WritesFront};
ghost use Rattle.node_engine.specs.Answers.{NodeState, state_of};
ghost use Rattle.node_engine.specs.Runs.{Known};
ghost use Rattle.desk_engine.specs.Groups.{
  BroughtUp,
  GatherBreaks,
  Gathers,
  GathersTo,
  told_in,
};
ghost use Rattle.desk_engine.specs.Turns.{IsHeldBack};

use crate::group::Group;
use crate::line::{given_of, next_line, tell_line};
use crate::telling::{bring_up, write_text};
use log_store::LogStore;
use node_desk::{Waits, Ways};
use node_engine::{Ended, NodeFailure, Serving, Witness};
use node_lines::asks_end;
use staged_store::Backing;
use std::alloc::Global;
use std::io::Write;

/// Takes a line of the input, but one that asks the node to end; says so where it does, or where there is
/// none.
fn take_line<R: Waits, L: LogStore, B: Backing<L>>(
    alloc: Global,
    serving: &mut Serving<L>,
    backing: &B,
    ways: Ways,
    reader: &mut R,
    group: &mut Group,
) -> Result<Option<Ended>, NodeFailure>
    ensures leads { IfOk result (λ ended. (first : NodeState) (left : Known)
        → Gathers ways first (state_of serving.old) left (R.remaining reader.old) (told_in group.old)
        → GathersTo ended ways first (state_of serving.new) left (R.remaining reader.new)
        (told_in group.new)) }
    ensures breaks { IfErr result (λ e. (first : NodeState) (left : Known)
        → Gathers ways first (state_of serving.old) left (R.remaining reader.old) (told_in group.old)
        → GatherBreaks ways first (state_of serving.new) left (told_in group.new) e) }
{
    let line = next_line(alloc, reader)?;
    if line.is_none() {
        return Ok(Some(Ended::Input));
    }
    let given = given_of(&line);
    if asks_end(given) {
        return Ok(Some(Ended::Asked));
    }
    let told = tell_line(alloc, serving, ways, given)?;
    let is_safe = backing.is_up_to(serving.node().store());
    group.push(line, &told, is_safe)?;
    Ok(None)
}

/// Takes the next line of the input, and those that are at hand after it.
pub(crate) fn gather<R: Waits, L: LogStore, B: Backing<L>>(
    alloc: Global,
    serving: &mut Serving<L>,
    backing: &B,
    ways: Ways,
    reader: &mut R,
    group: &mut Group,
) -> Result<Option<Ended>, NodeFailure>
    requires { told_in group.old ≡ [] }
    ensures leads { IfOk result (λ ended. GathersTo ended ways (state_of serving.old) (state_of serving.new)
        (R.remaining reader.old) (R.remaining reader.new) (told_in group.new)) }
    ensures breaks { IfErr result (GatherBreaks ways (state_of serving.old) (state_of serving.new)
        (R.remaining reader.old) (told_in group.new)) }
{
    for _ in 0..u64::MAX {
        if let Some(ended) = take_line(alloc, serving, backing, ways, reader, group)? {
            return Ok(Some(ended));
        }
        if !reader.is_at_hand() {
            return Ok(None);
        }
    }
    Ok(None)
}

/// Has what the lines of a group rest on made safe, and then tells of them. If it cannot be made safe, those
/// are told of that rest on what was safe before.
pub(crate) fn tell_group<W: Write, L: LogStore, N: Witness, B: Backing<L>>(
    serving: &Serving<L>,
    backing: &mut B,
    writer: &mut W,
    witness: &mut N,
    group: &Group,
) -> Result<(), NodeFailure>
    ensures ok { OnOk result (Appends (W.contents writer.old) (W.contents writer.new) (told_in group.now)) }
    ensures safe { OnOk result
        (BroughtUp B.brings L.bytes L.forced L.failures backing.old backing.new (state_of serving.now)) }
    ensures err { IfErr result (λ e. IsHeldBack e
        × WritesFront (W.contents writer.old) (W.contents writer.new) (told_in group.now)) }
{
    if let Err(failure) = bring_up(serving, backing) {
        write_text(writer, group.safe_front())?;
        group.show(group.safe, witness);
        return Err(failure);
    }
    write_text(writer, &group.told)?;
    group.show(group.told.len(), witness);
    Ok(())
}
