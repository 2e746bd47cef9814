//! The steps: each one atomic operation, and what it tells of what others know.
//!
//! A step is told one seat. Where it speaks of more, the others are lent to the journal's for the time of the
//! step.

ghost use Rattle.std.specs.Prelude.{◌≡◌, ◌++◌, true, []};
ghost use Rattle.tree_state.specs.Cuts.{net_of};
ghost use Rattle.cluster_ties.specs.Views.{
  AreBelow,
  AreBy,
  AreOf,
  beside,
  beside_pass,
  entered_by,
  entries_in,
  holder,
  keeper,
  noted,
  own_of,
  pairs_by,
  pairs_from,
  worker,
};
ghost use Rattle.cluster_ties.specs.Plays.{IsUpTo};
ghost use Rattle.cluster_ties.specs.Seats.{IsPass, IsProcessSeat, KeepsJournal, SitTogether, SitsAt};

use crate::plays::{Looks, Meets, NotesNet, Puts, Sees, Spare, WithPass, WithProcess};
use crate::seats::{Place, Ties};
use crate::views::ToldEntries;

/// A process's seat is lent to the journal's.
fn lend(ties: &Ties, journal: &mut Place, seat: &mut Place)
    requires here { SitTogether ties.now.shared.table_id journal.old.table_id seat.old.table_id }
    requires views { (seat.old.me.0.process.works ≡ true) × (seat.old.me.1 ≡ []) }
    ensures journal { (journal.new.table_id ≡ journal.old.table_id)
        × (journal.new.me ≡ (beside journal.old.me.0 seat.old.me.0, journal.old.me.1)) }
{
    let spare = ties.shared.split_seat::<Spare>(journal);
    let taken = std::mem::replace(seat, spare);
    ties.shared.join_seat::<WithProcess>(journal, taken);
}

/// A pass is lent to the journal's seat, with what is lent to it already.
fn lend_pass(ties: &Ties, journal: &mut Place, pass: &mut Place)
    requires here { SitTogether ties.now.shared.table_id journal.old.table_id pass.old.table_id }
    requires views { (pass.old.me.0.pass.holds ≡ true) × (pass.old.me.1 ≡ []) }
    ensures journal { (journal.new.table_id ≡ journal.old.table_id)
        × (journal.new.me ≡ (beside_pass journal.old.me.0 pass.old.me.0, journal.old.me.1)) }
{
    let spare = ties.shared.split_seat::<Spare>(journal);
    let taken = std::mem::replace(pass, spare);
    ties.shared.join_seat::<WithPass>(journal, taken);
}

/// A process notes the messages of the journal: what delivers one of these may come after all that the
/// journal will have then. The process's entries are the journal's of it.
pub fn note_net(ties: &Ties, seat: &mut Place, journal: &mut Place)
    requires here { SitTogether ties.now.shared.table_id journal.old.table_id seat.old.table_id }
    requires journal { KeepsJournal journal.old.me }
    requires seat { IsProcessSeat seat.old.me }
    ensures tied { seat.old.me.0.process.own
        ≡ own_of seat.old.me.0.process.name (entries_in journal.old.me.0.journal.all) }
    ensures journal { (journal.new.table_id ≡ journal.old.table_id) × (journal.new.me ≡ journal.old.me) }
    ensures seat { (seat.new.table_id ≡ seat.old.table_id)
        × (seat.new.me ≡ (
          worker (noted seat.old.me.0.process (net_of (entries_in journal.old.me.0.journal.all))),
          [],
        )) }
{
    lend(ties, journal, seat);
    ties.shared.load::<NotesNet>(journal, 0);
    *seat = ties.shared.split_seat::<WithProcess>(journal);
}

/// The journal enters what the process made in a turn, under the pass's number, and the pass notes it, with
/// its places. The process's entries before were the journal's of it, and the messages that it noted are the
/// journal's first.
pub fn put(
    ties: &Ties,
    journal: &mut Place,
    seat: &mut Place,
    pass: &mut Place,
    entries: &ToldEntries,
)
    requires here { SitTogether ties.now.shared.table_id journal.old.table_id seat.old.table_id }
    requires pass_here { pass.old.table_id ≡ ties.now.shared.table_id }
    requires journal { KeepsJournal journal.old.me }
    requires seat { IsProcessSeat seat.old.me }
    requires pass { IsPass pass.old.me }
    requires mine { AreOf seat.old.me.0.process.name entries.now }
    requires by { AreBy pass.old.me.0.pass.caller entries.now }
    ensures told { IsUpTo (beside journal.old.me.0 seat.old.me.0) }
    ensures journal { (journal.new.table_id ≡ journal.old.table_id)
        × (journal.new.me ≡ (
          keeper journal.old.me.0.journal.names journal.old.me.0.journal.opened
              journal.old.me.0.journal.given (journal.old.me.0.journal.all ++ entries.now),
          [],
        )) }
    ensures seat { (seat.new.table_id ≡ seat.old.table_id)
        × (seat.new.me ≡ (worker (entered_by seat.old.me.0.process entries.now), [])) }
    ensures pass { (pass.new.table_id ≡ pass.old.table_id)
        × (pass.new.me ≡ (
          holder pass.old.me.0.pass.caller
              (pass.old.me.0.pass.pairs ++ pairs_from journal.old.me.0.journal.all entries.now),
          [],
        )) }
{
    lend(ties, journal, seat);
    lend_pass(ties, journal, pass);
    ties.shared
        .compare_exchange_with::<Puts>(journal, 0, 0, 0, entries);
    *pass = ties.shared.split_seat::<WithPass>(journal);
    *seat = ties.shared.split_seat::<WithProcess>(journal);
}

/// Whoever has both locks knows: the entries of a process are the journal's of it.
pub fn compare(ties: &Ties, seat: &mut Place, journal: &mut Place)
    requires here { SitTogether ties.now.shared.table_id journal.old.table_id seat.old.table_id }
    requires journal { KeepsJournal journal.old.me }
    requires seat { IsProcessSeat seat.old.me }
    ensures tied { seat.old.me.0.process.own
        ≡ own_of seat.old.me.0.process.name (entries_in journal.old.me.0.journal.all) }
    ensures journal { (journal.new.table_id ≡ journal.old.table_id) × (journal.new.me ≡ journal.old.me) }
    ensures seat { (seat.new.table_id ≡ seat.old.table_id) × (seat.new.me ≡ seat.old.me) }
{
    lend(ties, journal, seat);
    ties.shared.load::<Sees>(journal, 0);
    *seat = ties.shared.split_seat::<WithProcess>(journal);
}

/// The pass's pairs are just those of the journal's entries under its caller's number, with their places.
pub fn meet(ties: &Ties, journal: &mut Place, pass: &mut Place)
    requires here { SitTogether ties.now.shared.table_id journal.old.table_id pass.old.table_id }
    requires journal { KeepsJournal journal.old.me }
    requires pass { IsPass pass.old.me }
    ensures met { pass.old.me.0.pass.pairs ≡ pairs_by pass.old.me.0.pass.caller 0
        journal.old.me.0.journal.all }
    ensures journal { (journal.new.table_id ≡ journal.old.table_id) × (journal.new.me ≡ journal.old.me) }
    ensures pass { (pass.new.table_id ≡ pass.old.table_id) × (pass.new.me ≡ pass.old.me) }
{
    lend_pass(ties, journal, pass);
    ties.shared.load::<Meets>(journal, 0);
    *pass = ties.shared.split_seat::<WithPass>(journal);
}

/// Whoever has the journal knows: each entry is under the number of a pass that was given.
pub fn look(ties: &Ties, journal: &mut Place)
    requires here { SitsAt ties.now.shared.table_id journal.old.table_id }
    requires journal { KeepsJournal journal.old.me }
    ensures known { AreBelow journal.old.me.0.journal.given journal.old.me.0.journal.all }
    ensures journal { (journal.new.table_id ≡ journal.old.table_id) × (journal.new.me ≡ journal.old.me) }
{
    ties.shared.load::<Looks>(journal, 0);
}
