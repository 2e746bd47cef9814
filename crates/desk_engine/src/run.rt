//! A node whose lines come from a desk, turn after turn.

ghost use Rattle.std.specs.Prelude.{◌≡◌, ◌⊎◌, true, length, IfErr, IfOk, OnOk};
ghost use Rattle.protocol_words.specs.Types.{AnyReaction};
ghost use Rattle.node_engine.specs.Answers.{state_of};
ghost use Rattle.node_engine.specs.Runs.{Known, Stand, stand};
ghost use Rattle.node_desk.specs.declared.watch.Ways.{Ways as AnyWays};
ghost use Rattle.desk_engine.specs.Weaves.{Breaks, BreaksOff, Ends, EndsWoven, LeadsTo, StopsFirst, Woven};

use crate::ended::finish;
use crate::gathering::{gather, tell_group};
use crate::group::Group;
use crate::round::{ask_again, trim};
use crate::telling::{bring_up, write_text};
use log_store::LogStore;
use node_desk::{Next, Waits, Watch, Ways};
use node_engine::{Ended, NodeFailure, Serving, Witness};
use protocol::Reaction;
use staged_store::Backing;
use std::alloc::Global;
use std::io::{BufRead, Write};

/// Takes the next line of the input, and those that are at hand after it, up to one that asks the node to
/// end. Then what they rest on is made safe, and all of them are told of. Says so where the input ends.
fn take_lines<R: Waits, W: Write, L: LogStore, N: Witness, B: Backing<L>>(
    alloc: Global,
    serving: &mut Serving<L>,
    backing: &mut B,
    ways: Ways,
    reader: &mut R,
    writer: &mut W,
    witness: &mut N,
) -> Result<Option<Ended>, NodeFailure>
    ensures leads { IfOk result (λ ended. (start : Stand) (opening : AnyReaction)
        → Woven ways start opening (stand (R.remaining reader.old) (W.contents writer.old)
        (state_of serving.old))
        → LeadsTo ended ways start opening
        (stand (R.remaining reader.new) (W.contents writer.new) (state_of serving.new))) }
    ensures breaks { IfErr result (λ e. (start : Stand) (opening : AnyReaction)
        → Woven ways start opening (stand (R.remaining reader.old) (W.contents writer.old)
        (state_of serving.old))
        → Breaks ways start opening
        (stand (R.remaining reader.new) (W.contents writer.new) (state_of serving.new)) e) }
{
    let mut group = Group::new(alloc);
    let gathered = gather(alloc, serving, backing, ways, reader, &mut group);
    tell_group(serving, backing, writer, witness, &group)?;
    gathered
}

/// Asks about each case in doubt.
fn take_round<W: Write, L: LogStore, B: Backing<L>>(
    alloc: Global,
    serving: &mut Serving<L>,
    backing: &mut B,
    ways: Ways,
    writer: &mut W,
) -> Result<Option<Ended>, NodeFailure>
    requires { ways.asks ≡ true }
    ensures leads { IfOk result (λ ended. (left : Known) (start : Stand) (opening : AnyReaction)
        → Woven ways start opening (stand left (W.contents writer.old) (state_of serving.old))
        → LeadsTo ended ways start opening (stand left (W.contents writer.new) (state_of serving.new))) }
    ensures breaks { IfErr result (λ e. (left : Known) (start : Stand) (opening : AnyReaction)
        → Woven ways start opening (stand left (W.contents writer.old) (state_of serving.old))
        → Breaks ways start opening (stand left (W.contents writer.new) (state_of serving.new)) e) }
{
    ask_again(alloc, serving, backing, writer)?;
    Ok(None)
}

/// Trims the log, and has that made safe.
fn take_trim<L: LogStore, B: Backing<L>>(
    serving: &mut Serving<L>,
    backing: &mut B,
    watch: &mut Watch<'_>,
) -> Result<Option<Ended>, NodeFailure>
    requires { watch.old.ways.trims ≡ true }
    ensures ways { watch.new.ways ≡ watch.old.ways }
    ensures leads { IfOk result (λ ended. (left held : Known) (start : Stand) (opening : AnyReaction)
        → Woven watch.old.ways start opening (stand left held (state_of serving.old))
        → LeadsTo ended watch.old.ways start opening (stand left held (state_of serving.new))) }
    ensures breaks { IfErr result (λ e. (left held : Known) (start : Stand) (opening : AnyReaction)
        → Woven watch.old.ways start opening (stand left held (state_of serving.old))
        → Breaks watch.old.ways start opening (stand left held (state_of serving.new)) e) }
{
    trim(serving)?;
    bring_up(serving, backing)?;
    watch.trimmed();
    Ok(None)
}

/// Makes the next turn.
fn take_turn<R: Waits, W: Write, L: LogStore, N: Witness, B: Backing<L>>(
    alloc: Global,
    serving: &mut Serving<L>,
    backing: &mut B,
    watch: &mut Watch<'_>,
    reader: &mut R,
    writer: &mut W,
    witness: &mut N,
) -> Result<Option<Ended>, NodeFailure>
    ensures ways { watch.new.ways ≡ watch.old.ways }
    ensures leads { IfOk result (λ ended. (start : Stand) (opening : AnyReaction)
        → Woven watch.old.ways start opening
        (stand (R.remaining reader.old) (W.contents writer.old) (state_of serving.old))
        → LeadsTo ended watch.old.ways start opening
        (stand (R.remaining reader.new) (W.contents writer.new) (state_of serving.new))) }
    ensures breaks { IfErr result (λ e. (start : Stand) (opening : AnyReaction)
        → Woven watch.old.ways start opening
        (stand (R.remaining reader.old) (W.contents writer.old) (state_of serving.old))
        → Breaks watch.old.ways start opening
        (stand (R.remaining reader.new) (W.contents writer.new) (state_of serving.new)) e) }
{
    let ways = watch.ways;
    match watch.next(reader) {
        Ok(Next::Line) => take_lines(alloc, serving, backing, ways, reader, writer, witness),
        Ok(Next::Ask) => take_round(alloc, serving, backing, ways, writer),
        Ok(Next::Trim) => take_trim(serving, backing, watch),
        Err(_) => Err(NodeFailure::Read),
    }
}

/// Makes each turn, up to the end of the input or a line that asks the node to end.
fn take_turns<R: Waits, W: Write, L: LogStore, N: Witness, B: Backing<L>>(
    alloc: Global,
    serving: &mut Serving<L>,
    backing: &mut B,
    watch: &mut Watch<'_>,
    reader: &mut R,
    writer: &mut W,
    witness: &mut N,
) -> Result<Ended, NodeFailure>
    ensures ends { IfOk result (λ by. (start : Stand) (opening : AnyReaction)
        → Woven watch.old.ways start opening
        (stand (R.remaining reader.old) (W.contents writer.old) (state_of serving.old))
        → Ends by watch.old.ways start opening
        (stand (R.remaining reader.new) (W.contents writer.new) (state_of serving.new))) }
    ensures breaks { IfErr result (λ e. (start : Stand) (opening : AnyReaction)
        → Woven watch.old.ways start opening
        (stand (R.remaining reader.old) (W.contents writer.old) (state_of serving.old))
        → Breaks watch.old.ways start opening
        (stand (R.remaining reader.new) (W.contents writer.new) (state_of serving.new)) e) }
{
    for _ in 0..u64::MAX {
        if let Some(ended) = take_turn(alloc, serving, backing, watch, reader, writer, witness)? {
            return Ok(ended);
        }
    }
    Err(NodeFailure::Read)
}

/// Writes what a process did as it opened, once that is safe.
fn show_opening<W: Write, L: LogStore, B: Backing<L>>(
    serving: &mut Serving<L>,
    backing: &mut B,
    opening: &Reaction,
    writer: &mut W,
) -> Result<(), NodeFailure>
    ensures ok { OnOk result ((ways : AnyWays) (left : Known) → Woven ways
        (stand left (W.contents writer.old) (state_of serving.old)) opening.now
        (stand left (W.contents writer.new) (state_of serving.new))) }
    ensures stops { IfErr result (λ e. (left : Known) → StopsFirst
        (stand left (W.contents writer.old) (state_of serving.old)) opening.now
        (stand left (W.contents writer.new) (state_of serving.new)) e) }
{
    bring_up(serving, backing)?;
    let text = serving.show(opening)?;
    write_text(writer, &text)
}

/// Writes what a process did as it opened, and makes each turn.
fn serve<R: Waits, W: Write, L: LogStore, N: Witness, B: Backing<L>>(
    alloc: Global,
    serving: &mut Serving<L>,
    backing: &mut B,
    opening: &Reaction,
    watch: &mut Watch<'_>,
    reader: &mut R,
    writer: &mut W,
    witness: &mut N,
) -> Result<Ended, NodeFailure>
    ensures ends { IfOk result (λ by. Ends by watch.old.ways
        (stand (R.remaining reader.old) (W.contents writer.old) (state_of serving.old)) opening.now
        (stand (R.remaining reader.new) (W.contents writer.new) (state_of serving.new))) }
    ensures breaks { IfErr result (λ e.
        StopsFirst (stand (R.remaining reader.old) (W.contents writer.old) (state_of serving.old)) opening.now
        (stand (R.remaining reader.new) (W.contents writer.new) (state_of serving.new)) e
        ⊎ Breaks watch.old.ways
        (stand (R.remaining reader.old) (W.contents writer.old) (state_of serving.old)) opening.now
        (stand (R.remaining reader.new) (W.contents writer.new) (state_of serving.new)) e) }
{
    match show_opening(serving, backing, opening, writer) {
        Ok(()) => take_turns(alloc, serving, backing, watch, reader, writer, witness),
        Err(failure) => Err(failure),
    }
}

/// Lets a node go. One function does it: what letting go of one means is proved once, and not at each way
/// out.
fn let_go<L: LogStore + Drop>(_serving: Serving<L>) {}

/// Runs a node by a desk: writes what its process did as it opened, and answers each line of the input, as
/// `run_node` does. A line that is too long is answered as the line of nothing. Between the lines of the
/// input the desk asks about what is in doubt and trims the log, when the watch says so; of its own lines
/// nothing is written but the messages of what it asked. If it tells of children that join, it does before
/// the `ok` to the JOINED.
///
/// What the node's store promises counts once the backing was brought up to it, and before that nothing is
/// told of what rests on it. Lines that are at hand are given to the node one after another, then the backing
/// is brought up once, and then all of them are told of. Ok: so it ended, and this is its store, to which the
/// backing was brought up.
pub fn run_desk<R: Waits, W: Write, L: LogStore + Drop, N: Witness, B: Backing<L>>(
    alloc: Global,
    mut serving: Serving<L>,
    backing: &mut B,
    opening: &Reaction,
    watch: &mut Watch<'_>,
    reader: &mut R,
    writer: &mut W,
    witness: &mut N,
) -> Result<L, NodeFailure>
    ensures ends { IfOk result (EndsWoven L.bytes L.forced L.failures watch.old.ways
        (stand (R.remaining reader.old) (W.contents writer.old) (state_of serving)) opening.now
        (R.remaining reader.new) (W.contents writer.new)) }
    ensures forced { IfOk result (λ store. L.forced store ≡ length (L.bytes store)) }
    ensures safe { IfOk result (λ store. (from : B) × B.brings from backing.new store) }
    ensures breaks { IfErr result (BreaksOff watch.old.ways
        (stand (R.remaining reader.old) (W.contents writer.old) (state_of serving)) opening.now
        (R.remaining reader.new) (W.contents writer.new)) }
{
    match serve(
        alloc,
        &mut serving,
        backing,
        opening,
        watch,
        reader,
        writer,
        witness,
    ) {
        Ok(by) => finish(alloc, serving, backing, by, writer, witness),
        Err(failure) => {
            let_go(serving);
            Err(failure)
        }
    }
}
