//! A tree whose processes run at the same time.

ghost use Rattle.std.specs.Prelude.{◌≡◌, ◌⊎◌, ◌+◌, ◌<◌, ◌≤◌, None, Some, IfErr, IfNone, IfOk, OnErr, false, map};
ghost use Rattle.protocol.specs.declared.messages.Envelope.{Envelope as AnyEnvelope};
ghost use Rattle.protocol.specs.Nodes.{is_listed};
ghost use Rattle.protocol.specs.Plays.{sent_as};
ghost use Rattle.protocol.specs.Trees.{IsTree, root_of};
ghost use Rattle.tree_state.specs.Cuts.{net_of};
ghost use Rattle.cluster_ties.specs.Views.{AreBelow, entries_in};
ghost use Rattle.cluster_process.specs.Marks.{ActsHere};
ghost use Rattle.cluster_process.specs.Posts.{DeliversTurn, NotPosted, PostsOne};
ghost use Rattle.cluster_tree.specs.Closing.{AreMet, IsClosed};
ghost use Rattle.cluster_tree.specs.Opening.{SeatsTree};
ghost use Rattle.cluster_tree.specs.Passes.{new_passes};
ghost use Rattle.cluster_tree.specs.Posts.{IsOf, Posts};
ghost use Rattle.cluster_tree.specs.Refusals.{IsAddressed, IsReceiver, IsRefusedPost, NoMessage, NotAt};

use crate::closing::{left_logs, let_go, meet_all};
use crate::opening::{give_passes, open_all};
use cluster_process::{Delivered, Gate, Ledger, Pass, PostError, Posted, Seated, is_same};
use cluster_ties::seats::{Opened, Seats, Ties};
use cluster_turns::ClosedJournal;
use protocol::{Event, LogRecord, ProcessId, StepError, Tree, TreeProcess, Txn};
use std::alloc::{AllocError, Global};
use std::sync::{Condvar, Mutex, Wait};
use tree_process::ProcessOpenError;

/// A tree whose processes run at the same time, each under a lock of its own, and the journal under one of
/// its own. Its callers have passes. Its table of seats and its tree are those that `N` names.
#[derive(Drop)]
pub struct Cluster<N: Seats> {
    pub(crate) alloc: Global,
    pub(crate) tree: Tree,
    pub(crate) ties: Ties,
    pub(crate) processes: Vec<Mutex<Seated<N>>>,
    pub(crate) ledger: Mutex<Ledger<N>>,
    /// A message was sent, or no claim is left.
    pub(crate) moved: Condvar,
    /// Workers that wait between rounds are called.
    pub(crate) called: Condvar,
    ghost here: { ties.shared.table_id ≡ N.table },
    ghost words: { 0 < N.table.words },
    ghost tree_is: { tree ≡ N.tree },
    ghost is_tree: { IsTree N.tree },
}

/// The place of a process in the tree, if it is there.
fn place_of(entries: &[TreeProcess], process: ProcessId) -> Option<usize>
    ensures { IfNone result (is_listed entries.now process ≡ false) }
{
    for place in 0..entries.len() {
        if is_same(entries[place].id, process) {
            return Some(place);
        }
    }
    None
}

/// The number of a place, from 1. No journal has as many entries as would fail here.
fn number_of<R: Wait>(rt: &R, place: usize) -> usize
    ensures { result ≡ place + 1 }
{
    match place.checked_add(1) {
        Some(number) => number,
        None => {
            for _ in rt.forever() {}
            unreachable!()
        }
    }
}

impl<N: Seats> Cluster<N> {
    /// A tree that has opened, and a pass for each of N callers, whose numbers begin at 0. The table has the
    /// names of the tree's processes, in the order of the tree, and is the one for N callers. Memory is the
    /// only refusal that comes.
    pub fn new(
        alloc: Global,
        tree: Tree,
        opened: Opened,
        callers: usize,
    ) -> Result<(Cluster<N>, Vec<Pass<N>>), ProcessOpenError>
        requires seats { SeatsTree N.table N.tree tree opened.ties.shared.table_id
            opened.ties.shared.key.items }
        requires callers { (0 < callers) × (callers ≤ 64) × (callers ≡ N.callers) }
        ensures passes { IfOk result (λ r. r.1.items ≡ new_passes callers) }
        ensures err { IfErr result (λ e. e ≡ ProcessOpenError.Memory) }
    {
        let Opened { ties, mut journal } = opened;
        let passes = give_passes::<N>(alloc, &ties, &mut journal, tree.entries(), callers)?;
        let processes = open_all::<N>(alloc, &ties, &mut journal, tree.entries())?;
        let cluster = Cluster {
            alloc,
            tree,
            ties,
            processes,
            ledger: Mutex::new(Ledger::new(alloc, journal)),
            moved: Condvar::new(),
            called: Condvar::new(),
        };
        Ok((cluster, passes))
    }

    /// The process of an event: an act's, the receiver of a message, or the one that is named. Stranger:
    /// there is none. Memory: a growth was refused.
    fn process_by<R: Wait>(
        &self,
        rt: &R,
        event: &Event,
        pass: &mut Pass<N>,
    ) -> Result<ProcessId, PostError>
        ensures ok { IfOk result (λ q. IsOf (root_of N.tree) q event.now) }
        ensures addressed { IfOk result (λ q. IsAddressed N.tree pass.old q event.now) }
        ensures err { IfErr result (IsRefusedPost N.tree event.now pass.old) }
        ensures same { pass.new ≡ pass.old }
    {
        match event {
            Event::Act(act) => Ok(act.process(self.tree.root())),
            Event::Deliver(number) => self.receiver(rt, *number, pass),
            Event::Settle => Err(PostError::Stranger),
            Event::Restart(process, _) => Ok(*process),
            Event::Trim(process) => Ok(*process),
        }
    }

    /// The receiver of the message with this number. Stranger: the journal has none.
    fn receiver<R: Wait>(
        &self,
        rt: &R,
        number: u64,
        pass: &mut Pass<N>,
    ) -> Result<ProcessId, PostError>
        ensures ok { IfOk result (λ q. IsReceiver N.tree pass.old q number) }
        ensures err { IfErr result (λ e. (e ≡ PostError.Memory)
            ⊎ NoMessage N.tree (Event.Deliver number) pass.old e) }
        ensures same { pass.new ≡ pass.old }
    {
        let mut ledger = self.ledger.lock(rt);
        ledger.is_a_run();
        ledger.meets(&self.ties, pass);
        receiver_in(&mut *ledger, number)
    }

    /// Posts an event of this process, or of none if no process has this name. An act is this process's. The
    /// processes lie in the order of the tree, so what waits for ever here never comes.
    pub(crate) fn post_at<R: Wait, G: Gate>(
        &self,
        rt: &R,
        process: ProcessId,
        event: Event,
        pass: &mut Pass<N>,
        gate: &G,
    ) -> Result<Posted, PostError>
        requires { ActsHere (root_of N.tree) process event }
        ensures ok { IfOk result (λ r. PostsOne N.tree process event pass.old pass.new r.place r.begun) }
        ensures err { OnErr result (pass.new ≡ pass.old) }
        ensures refused { IfErr result (NotAt N.tree process event pass.old) }
    {
        let Some(place) = place_of(self.tree.entries(), process) else {
            return Err(PostError::Step(StepError::NoSuch));
        };
        let Some(seated) = self.processes.get(place) else {
            for _ in rt.forever() {}
            unreachable!()
        };
        let mut seated = seated.lock(rt);
        self.post_in(rt, &mut *seated, process, event, pass, gate)
    }

    /// Posts an event of this process, which lies under its lock, if it is the one.
    fn post_in<R: Wait, G: Gate>(
        &self,
        rt: &R,
        seated: &mut Seated<N>,
        process: ProcessId,
        event: Event,
        pass: &mut Pass<N>,
        gate: &G,
    ) -> Result<Posted, PostError>
        requires { ActsHere (root_of N.tree) process event }
        ensures ok { IfOk result (λ r. PostsOne N.tree process event pass.old pass.new r.place r.begun) }
        ensures err { OnErr result (pass.new ≡ pass.old) }
        ensures refused { IfErr result (NotPosted N.tree process event pass.old) }
    {
        if !is_same(seated.me(), process) {
            for _ in rt.forever() {}
            unreachable!()
        }
        seated.post(rt, self.alloc, &self.ties, &self.ledger, event, pass, gate)
    }

    /// A turn of a worker, which has claimed the message with this number to this process: the message and
    /// those after it are delivered. The processes lie in the order of the tree, so what waits for ever here
    /// never comes.
    pub(crate) fn deliver_at<R: Wait, G: Gate>(
        &self,
        rt: &R,
        process: ProcessId,
        number: u64,
        pass: &mut Pass<N>,
        gate: &G,
    ) -> Result<Delivered, PostError>
        ensures ok { IfOk result (λ r. DeliversTurn N.tree process number pass.old pass.new r.place) }
        ensures err { OnErr result (pass.new ≡ pass.old) }
        ensures refused { IfErr result (NotAt N.tree process (Event.Deliver number) pass.old) }
    {
        let Some(place) = place_of(self.tree.entries(), process) else {
            return Err(PostError::Step(StepError::NoSuch));
        };
        let Some(seated) = self.processes.get(place) else {
            for _ in rt.forever() {}
            unreachable!()
        };
        let mut seated = seated.lock(rt);
        self.deliver_in(rt, &mut *seated, process, number, pass, gate)
    }

    /// A turn of a worker at this process, which lies under its lock, if it is the one.
    fn deliver_in<R: Wait, G: Gate>(
        &self,
        rt: &R,
        seated: &mut Seated<N>,
        process: ProcessId,
        number: u64,
        pass: &mut Pass<N>,
        gate: &G,
    ) -> Result<Delivered, PostError>
        ensures ok { IfOk result (λ r. DeliversTurn N.tree process number pass.old pass.new r.place) }
        ensures err { OnErr result (pass.new ≡ pass.old) }
        ensures refused { IfErr result (NotPosted N.tree process (Event.Deliver number) pass.old) }
    {
        if !is_same(seated.me(), process) {
            for _ in rt.forever() {}
            unreachable!()
        }
        seated.deliver(rt, self.alloc, &self.ties, &self.ledger, number, pass, gate)
    }

    /// Posts an event. At Ok the pass has one pair more, of the entry of this event and its place; the place
    /// is answered from 1, and the transaction that was begun, if one was.
    ///
    /// Stranger: a settle, or a message that the journal has not. JournalFull: the journal has 1,000,000
    /// entries or more. Step: the process refused it, as it stood with just the entries that the journal had
    /// of it, or there is none of its name. Memory: a growth was refused. After a refusal the pass is as
    /// before.
    pub fn post<R: Wait, G: Gate>(
        &self,
        rt: &R,
        event: Event,
        pass: &mut Pass<N>,
        gate: &G,
    ) -> Result<(usize, Option<Txn>), PostError>
        ensures ok { IfOk result (λ r. Posts N.tree event pass.old pass.new r.0 r.1) }
        ensures err { OnErr result (pass.new ≡ pass.old) }
        ensures refused { IfErr result (IsRefusedPost N.tree event pass.old) }
    {
        let process = self.process_by(rt, &event, pass)?;
        let posted = self.post_at(rt, process, event, pass, gate)?;
        self.moved.notify_one();
        Ok((number_of(rt, posted.place), posted.begun))
    }

    /// The journal, which is a run, with the caller's number beside each entry; and the logs that this run
    /// leaves, in the order of the tree. A tree on one thread that makes the events of the journal leaves
    /// them, too. The journal has just the pairs of each of these passes under its caller's number, and no
    /// entry under that of no caller. Memory: a growth was refused, and the cluster goes on.
    pub fn close(
        self,
        passes: &mut [Pass<N>],
    ) -> Result<(ClosedJournal, Vec<Vec<LogRecord>>), (Cluster<N>, AllocError)>
        ensures ok { IfOk result (λ r. IsClosed N.tree r.0 (map (λ log. log.items) r.1.items)
            × AreMet r.0 passes.old × AreBelow N.callers r.0) }
    {
        let Cluster {
            alloc,
            tree,
            ties,
            mut processes,
            ledger,
            moved,
            called,
        } = self;
        let mut ledger = ledger.into_inner();
        meet_all(&ties, &mut ledger, passes);
        ledger.callers_are_known(&ties);
        match left_logs(
            alloc,
            &ties,
            tree.entries(),
            processes.as_mut_slice(),
            &mut ledger,
        ) {
            Ok(logs) => {
                let_go(processes, ties);
                Ok((ledger.into_journal(), logs))
            }
            Err(error) => Err((
                Cluster {
                    alloc,
                    tree,
                    ties,
                    processes,
                    ledger: Mutex::new(ledger),
                    moved,
                    called,
                },
                error,
            )),
        }
    }
}

/// The receiver of the message with this number, of those that the journal has.
fn receiver_in<N: Seats>(ledger: &mut Ledger<N>, number: u64) -> Result<ProcessId, PostError>
    ensures ok { IfOk result (λ q. (l : AnyEnvelope)
        × (sent_as (net_of (entries_in ledger.old.entries)) number ≡ Some l) × (q ≡ l.to)) }
    ensures err { IfErr result (λ e. (e ≡ PostError.Memory)
        ⊎ ((e ≡ PostError.Stranger) × (sent_as (net_of (entries_in ledger.old.entries)) number ≡ None))) }
{
    ledger.place()?;
    match ledger.message(number) {
        None => Err(PostError::Stranger),
        Some(envelope) => Ok(envelope.to),
    }
}
