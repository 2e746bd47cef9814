//! What lies under a process's lock, and the three parts of posting an event.

ghost use Rattle.std.specs.Prelude.{◌≡◌, ◌<◌, [], Some, true, IfErr, IfOk, OnErr};
ghost use Rattle.protocol.specs.Nodes.{is_listed};
ghost use Rattle.protocol.specs.Trees.{IsTree, root_of};
ghost use Rattle.protocol.specs.World.{entries_of};
ghost use Rattle.proof_cuts.specs.Alone.{RunsAlone};
ghost use Rattle.proof_cuts.specs.Owns.{OwnRun, StandsInRun};
ghost use Rattle.tree_process.specs.Nodes.{core_of, data_of};
ghost use Rattle.cluster_ties.specs.Seats.{IsProcessSeat};
ghost use Rattle.cluster_ties.specs.Views.{entries_in};
ghost use Rattle.cluster_process.specs.Locked.{LeavesLog};
ghost use Rattle.cluster_process.specs.Marks.{ActsHere};
ghost use Rattle.cluster_process.specs.Posts.{DeliversTurn, NotPosted, PostsOne};

use crate::entering::enter;
use crate::errors::PostError;
use crate::ledger::{Ledger, PassClaim};
use crate::making::{make_more, make_step};
use crate::marking::{mark, mark_more, room_for_more};
use crate::pass::Pass;
use cluster_ties::seats::{Place, Seats, Ties};
use cluster_ties::ties::compare;
use log_store::MemoryStore;
use protocol::{Event, LogRecord, ProcessId, Txn};
use std::alloc::{AllocError, Global};
use std::marker::{Model, PhantomData};
use std::sync::{Mutex, Wait};
use tree_process::Process;

/// What is called between a step and its entry.
pub trait Gate {
    /// The process has made a step, which is not entered yet.
    fn before<R: Wait>(&self, rt: &R, process: ProcessId);

    /// Whether it may hold a step until another process has made one.
    fn holds(&self) -> bool;
}

/// A gate that lets every step through.
pub struct Open;

impl Gate for Open {
    fn before<R: Wait>(&self, _rt: &R, _process: ProcessId) {}

    fn holds(&self) -> bool {
        false
    }
}

/// What was posted.
#[derive(Clone, Copy)]
pub struct Posted {
    /// The place of its entry, from 0.
    pub place: usize,
    /// The transaction that was begun, if one was.
    pub begun: Option<Txn>,
}

/// What came of a turn of deliveries.
#[derive(Clone, Copy)]
pub struct Delivered {
    /// The place of its first entry, from 0.
    pub place: usize,
    /// The worker's next claim.
    pub next: Option<PassClaim>,
    /// Whether nobody delivers a message any more.
    pub is_quiet: bool,
}

/// A worker's claim ends, and it makes the next, if there is one and memory for it: of this process, if it
/// has one.
fn next_of<N: Seats>(ledger: &mut Ledger<N>, process: ProcessId, holds: bool) -> Option<PassClaim>
    ensures { ledger.new.entries ≡ ledger.old.entries }
{
    ledger.end_claim();
    ledger.claim(process, holds).unwrap_or(None)
}

/// A process and its seat, between two events. To a contract it is its name, its entries, and the process
/// itself.
pub struct Seated<N: Seats> {
    pub(crate) me: ProcessId,
    pub(crate) node: Process<MemoryStore>,
    pub(crate) seat: Place,
    pub(crate) name: PhantomData<N>,
}

// For the proof: what is let go by hand is proved here alone, and not again by each crate above.
impl<N: Seats> Drop for Seated<N> {
    fn drop(self) {
        let Seated {
            me: _,
            node: _,
            seat: _,
            name: _,
        } = self;
    }
}

impl<N: Seats> Model for Seated<N> {
    ghost use Rattle.std.specs.Prelude.{◌≡◌, ◌<◌, Some, [], true};
    ghost use Rattle.protocol.specs.Nodes.{is_listed};
    ghost use Rattle.protocol.specs.Trees.{IsTree};
    ghost use Rattle.proof_cuts.specs.Alone.{RunsAlone};
    ghost use Rattle.proof_cuts.specs.Owns.{OwnRun};
    ghost use Rattle.cluster_process.specs.Locked.{SeatedState};
    ghost use Rattle.tree_process.specs.Nodes.{core_of, data_of};
    ghost use Rattle.cluster_ties.specs.Seats.{IsProcessSeat};

    ghost Value = { SeatedState };

    ghost view = { λ s. record { me = s.me; own = s.seat.me.0.process.own; node = s.node } };

    ghost invariant = { λ s. (s.seat.table_id ≡ N.table) × (0 < N.table.words)
        × (IsProcessSeat s.seat.me × (s.seat.me.0.process.name ≡ Some s.me))
        × IsTree N.tree
        × (is_listed N.tree s.me ≡ true)
        × OwnRun N.tree s.me s.seat.me.0.process.own (core_of s.node)
        × RunsAlone N.tree s.me s.seat.me.0.process.own (core_of s.node) (data_of s.node) };
}

impl<N: Seats> Seated<N> {
    /// A process that has made nothing.
    pub fn new(me: ProcessId, node: Process<MemoryStore>, seat: Place) -> Seated<N>
        requires here { (seat.table_id ≡ N.table) × (0 < N.table.words) }
        requires seat { IsProcessSeat seat.me × (seat.me.0.process.name ≡ Some me)
            × (seat.me.0.process.own ≡ []) }
        requires tree { IsTree N.tree × (is_listed N.tree me ≡ true) }
        requires own { OwnRun N.tree me [] (core_of node)
            × RunsAlone N.tree me [] (core_of node) (data_of node) }
        ensures { result ≡ record { me = me; own = []; node = node } }
    {
        Seated {
            me,
            node,
            seat,
            name: PhantomData,
        }
    }

    /// Its name.
    pub fn me(&self) -> ProcessId
        ensures { result ≡ self.now.me }
    {
        self.me
    }

    /// Marks, makes and enters an event of this process, under its lock, which the caller has; the journal's
    /// is taken for the mark and for the entry. An act is this process's. After a refusal the pass and the
    /// process are as before.
    pub fn post<R: Wait, G: Gate>(
        &mut self,
        rt: &R,
        alloc: Global,
        ties: &Ties,
        ledger: &Mutex<Ledger<N>>,
        event: Event,
        pass: &mut Pass<N>,
        gate: &G,
    ) -> Result<Posted, PostError>
        requires here { ties.now.shared.table_id ≡ N.table }
        requires acts { ActsHere (root_of N.tree) self.old.me event }
        ensures ok { IfOk result (λ r. PostsOne N.tree self.old.me event pass.old pass.new r.place r.begun) }
        ensures err { OnErr result (pass.new ≡ pass.old) }
        ensures refused { IfErr result (NotPosted N.tree self.old.me event pass.old) }
    {
        let me = self.me;
        let mut journal = ledger.lock(rt);
        journal.is_a_run();
        journal.meets(ties, pass);
        let marked = mark(
            alloc,
            ties,
            me,
            &self.node,
            &mut self.seat,
            &mut *journal,
            event,
        )?;
        drop(journal);
        match make_step(alloc, &mut self.node, pass.caller(), marked) {
            Err(error) => Err(PostError::from(error)),
            Ok(made) => {
                let begun = made.begun();
                gate.before(rt, me);
                let mut journal = ledger.lock(rt);
                let place = enter(
                    rt,
                    ties,
                    me,
                    &self.node,
                    &mut self.seat,
                    &mut *journal,
                    pass,
                    made,
                );
                Ok(Posted { place, begun })
            }
        }
    }

    /// A turn of a worker, which has claimed the message with this number to this process: marks its delivery
    /// and those of the open messages to the process after it, makes them, and enters them, under the
    /// process's lock, which the worker has; the journal's is taken for the mark and for the entry. The claim
    /// ends with the entry, and the worker makes the next there. If the first is refused, the pass and the
    /// process are as before. If another is, the turn ends before it.
    pub fn deliver<R: Wait, G: Gate>(
        &mut self,
        rt: &R,
        alloc: Global,
        ties: &Ties,
        ledger: &Mutex<Ledger<N>>,
        number: u64,
        pass: &mut Pass<N>,
        gate: &G,
    ) -> Result<Delivered, PostError>
        requires here { ties.now.shared.table_id ≡ N.table }
        ensures ok { IfOk result (λ r. DeliversTurn N.tree self.old.me number pass.old pass.new r.place) }
        ensures err { OnErr result (pass.new ≡ pass.old) }
        ensures refused { IfErr result (NotPosted N.tree self.old.me (Event.Deliver number) pass.old) }
    {
        let me = self.me;
        let mut journal = ledger.lock(rt);
        journal.is_a_run();
        journal.meets(ties, pass);
        let mut marked = mark(
            alloc,
            ties,
            me,
            &self.node,
            &mut self.seat,
            &mut *journal,
            Event::Deliver(number),
        )?;
        let most = room_for_more(&*journal, me, gate.holds(), &mut marked);
        let more = mark_more(alloc, me, &*journal, number, most);
        drop(journal);
        let caller = pass.caller();
        match make_step(alloc, &mut self.node, caller, marked) {
            Err(error) => Err(PostError::from(error)),
            Ok(first) => {
                let mut made = first;
                gate.before(rt, me);
                make_more::<N, R, G>(
                    rt,
                    alloc,
                    me,
                    &mut self.node,
                    &self.seat,
                    caller,
                    gate,
                    more,
                    &mut made,
                );
                let mut journal = ledger.lock(rt);
                let place = enter(
                    rt,
                    ties,
                    me,
                    &self.node,
                    &mut self.seat,
                    &mut *journal,
                    pass,
                    made,
                );
                let next = next_of(&mut *journal, me, gate.holds());
                let is_quiet = journal.is_quiet();
                Ok(Delivered {
                    place,
                    next,
                    is_quiet,
                })
            }
        }
    }

    /// Whoever has the process's lock and the journal's knows: the process's entries are the journal's of it,
    /// it stands where some run of the whole journal leaves it, and it made them by itself, with the data
    /// that it has.
    pub fn stands(&mut self, ties: &Ties, ledger: &mut Ledger<N>)
        requires { ties.now.shared.table_id ≡ N.table }
        ensures own { self.old.own ≡ entries_of self.old.me (entries_in ledger.old.entries) }
        ensures stands { StandsInRun N.tree (entries_in ledger.old.entries) self.old.me
            (core_of self.old.node) }
        ensures alone { RunsAlone N.tree self.old.me self.old.own (core_of self.old.node)
            (data_of self.old.node) }
        ensures same { (self.new ≡ self.old) × (ledger.new ≡ ledger.old) }
    {
        compare(ties, &mut self.seat, &mut ledger.seat);
    }

    /// The records of this process's log, as the journal leaves it. Memory: a growth was refused.
    pub fn left_log(
        &mut self,
        ties: &Ties,
        ledger: &mut Ledger<N>,
    ) -> Result<Vec<LogRecord>, AllocError>
        requires { ties.now.shared.table_id ≡ N.table }
        ensures left { IfOk result (λ log. LeavesLog N.tree (entries_in ledger.old.entries)
            self.old.me log.items) }
        ensures same { ledger.new ≡ ledger.old }
    {
        compare(ties, &mut self.seat, &mut ledger.seat);
        self.node.records()
    }
}
