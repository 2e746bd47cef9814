//! The entry: what was made in a turn comes into the journal.

ghost use Rattle.std.specs.Prelude.{◌≡◌, ◌<◌, ◌++◌, [], true, Some, length};
ghost use Rattle.protocol.specs.Nodes.{is_listed};
ghost use Rattle.protocol.specs.Trees.{IsTree};
ghost use Rattle.proof_cuts.specs.Owns.{OwnRun};
ghost use Rattle.tree_process.specs.Nodes.{core_of};
ghost use Rattle.cluster_ties.specs.Seats.{IsProcessSeat, KeepsJournal};
ghost use Rattle.cluster_ties.specs.Views.{entered_by, entries_in, holder, keeper, pairs_from, worker};
ghost use Rattle.cluster_process.specs.Locked.{HasCut};
ghost use Rattle.cluster_process.specs.Passes.{NotesAll};
ghost use Rattle.cluster_process.specs.Turns.{MadeTurn};

use crate::ledger::Ledger;
use crate::making::Made;
use crate::pass::Pass;
use cluster_ties::seats::{Place, Seats, Ties};
use cluster_ties::ties::put;
use cluster_ties::views::ToldEntries;
use cluster_turns::Turn;
use log_store::MemoryStore;
use protocol::ProcessId;
use std::sync::Wait;
use tree_process::Process;

/// The journal's seat takes the entries of a turn, and the pass notes them: what all three seats know of it.
/// The journal is a run with them, and the process's entries in it are its own again.
fn enter_seats<N: Seats>(
    ties: &Ties,
    me: ProcessId,
    node: &Process<MemoryStore>,
    seat: &mut Place,
    journal: &mut Place,
    pass: &mut Place,
    caller: u64,
    entries: &ToldEntries,
)
    requires here { (ties.now.shared.table_id ≡ N.table) × (seat.old.table_id ≡ N.table)
        × (journal.old.table_id ≡ N.table) × (pass.old.table_id ≡ N.table) × (0 < N.table.words) }
    requires journal { KeepsJournal journal.old.me }
    requires pass { pass.old.me ≡ (holder caller pass.old.me.0.pass.pairs, []) }
    requires seat { IsProcessSeat seat.old.me × (seat.old.me.0.process.name ≡ Some me) }
    requires tree { IsTree N.tree × (is_listed N.tree me ≡ true) }
    requires made { MadeTurn N.tree seat.old.me.0.process.net me caller seat.old.me.0.process.own entries.now
        (core_of node.now) }
    requires cut { HasCut N.tree (entries_in journal.old.me.0.journal.all) }
    ensures journal { (journal.new.table_id ≡ journal.old.table_id)
        × (journal.new.me ≡ (
          keeper journal.old.me.0.journal.names journal.old.me.0.journal.opened
              journal.old.me.0.journal.given (journal.old.me.0.journal.all ++ entries.now),
          [],
        )) }
    ensures seat { (seat.new.table_id ≡ seat.old.table_id)
        × (seat.new.me ≡ (worker (entered_by seat.old.me.0.process entries.now), [])) }
    ensures pass { (pass.new.table_id ≡ pass.old.table_id)
        × (pass.new.me ≡ (
          holder caller (pass.old.me.0.pass.pairs ++ pairs_from journal.old.me.0.journal.all entries.now),
          [],
        )) }
    ensures cut { HasCut N.tree (entries_in (journal.old.me.0.journal.all ++ entries.now)) }
    ensures own { OwnRun N.tree me (seat.old.me.0.process.own ++ entries_in entries.now) (core_of node.now) }
{
    let _ = node;
    let _ = caller;
    put(ties, journal, seat, pass, entries);
}

/// Enters what a process made in a turn, under its lock and the journal's, in the room that was taken at its
/// mark, and notes it in the caller's pass. It takes no memory. Gives the place of the first entry, from 0;
/// the others come after it.
pub fn enter<N: Seats, R: Wait>(
    rt: &R,
    ties: &Ties,
    me: ProcessId,
    node: &Process<MemoryStore>,
    seat: &mut Place,
    ledger: &mut Ledger<N>,
    pass: &mut Pass<N>,
    made: Made,
) -> usize
    requires here { (ties.now.shared.table_id ≡ N.table) × (seat.old.table_id ≡ N.table)
        × (0 < N.table.words) }
    requires seat { IsProcessSeat seat.old.me × (seat.old.me.0.process.name ≡ Some me) }
    requires listed { is_listed N.tree me ≡ true }
    requires made { MadeTurn N.tree seat.old.me.0.process.net me pass.old.caller seat.old.me.0.process.own
        made.turn.entries
        (core_of node.now) }
    ensures entered { ledger.new.entries ≡ ledger.old.entries ++ made.turn.entries }
    ensures seat { (seat.new.table_id ≡ seat.old.table_id)
        × (seat.new.me ≡ (worker (entered_by seat.old.me.0.process made.turn.entries), [])) }
    ensures own { OwnRun N.tree me (seat.old.me.0.process.own ++ entries_in made.turn.entries)
        (core_of node.now) }
    ensures pass { NotesAll pass.old pass.new result made.turn.entries }
    ensures place { result ≡ length ledger.old.entries }
{
    let place = ledger.journal.len();
    let Made { turn, begun: _ } = made;
    let turn = Turn::new(turn);
    enter_seats::<N>(
        ties,
        me,
        node,
        seat,
        &mut ledger.seat,
        &mut pass.seat,
        pass.caller,
        &turn,
    );
    ledger.journal.enter(rt, turn);
    place
}
