//! Workers: they deliver the messages of the journal.

ghost use Rattle.std.specs.Prelude.{◌≡◌, ◌<◌, ◌≤◌, ℕ, IfErr, IfOk, IsTrue, OnOk, length, slice_index_or};
ghost use Rattle.cluster_process.specs.Passes.{PassState};
ghost use Rattle.cluster_tree.specs.Passes.{IsLonger};
ghost use Rattle.cluster_tree.specs.Refusals.{NotSettled};
ghost use Rattle.cluster_tree.specs.Settling.{IsSettledPass};

use crate::cluster::Cluster;
use crate::rounds::Rounds;
use cluster_process::{Gate, Ledger, Pass, PassClaim, PostError};
use cluster_ties::seats::{Seats, Ties};
use protocol::ProcessId;
use std::alloc::AllocError;
use std::sync::Wait;
use std::thread;
use std::thread::Threads;

/// A worker that is served looks so often whether the call that leads it has begun.
const LOOKS: u32 = 10_000;

/// What a worker is to do next.
#[derive(Clone, Copy, PartialEq, Eq)]
pub(crate) enum Next {
    /// To deliver this message.
    Claim(PassClaim),
    /// To wait: others deliver.
    Wait,
    /// Nothing: each message was delivered.
    Settled,
    /// Nothing: a delivery was refused.
    Stopped,
}

/// What a worker with this pass is to do next, by the journal. Memory: a growth was refused.
fn next_in<N: Seats>(
    ledger: &mut Ledger<N>,
    ties: &Ties,
    root: ProcessId,
    pass: &mut Pass<N>,
    holds: bool,
) -> Result<Next, AllocError>
    requires { (ties.now.shared.table_id ≡ N.table) × (0 < N.table.words) }
    ensures settled { IfOk result (λ next. next ≡ Next.Settled → IsSettledPass N.tree pass.new) }
    ensures same { pass.new ≡ pass.old }
{
    if let Some(claim) = ledger.claim(root, holds)? {
        return Ok(Next::Claim(claim));
    }
    if !ledger.is_quiet() || !ledger.is_settled() {
        return Ok(Next::Wait);
    }
    ledger.is_a_run();
    ledger.meets(ties, pass);
    Ok(Next::Settled)
}

impl<N: Seats> Cluster<N> {
    /// A message that is open at a process to which nobody delivers; or none, once all are delivered or a
    /// delivery was refused. It waits while others deliver.
    fn next_claim<R: Wait>(
        &self,
        rt: &R,
        rounds: &Rounds<N>,
        pass: &mut Pass<N>,
        holds: bool,
    ) -> Next
        ensures settled { result ≡ Next.Settled → IsSettledPass N.tree pass.new }
        ensures same { pass.new ≡ pass.old }
    {
        for _ in rt.forever() {
            let mut ledger = self.ledger.lock(rt);
            if rounds.is_stopped() {
                return Next::Stopped;
            }
            match next_in(&mut *ledger, &self.ties, self.tree.root(), pass, holds) {
                Ok(Next::Wait) => {}
                Ok(next) => return next,
                Err(_) => {
                    rounds.stop(rt, PostError::Memory);
                    return Next::Stopped;
                }
            }
            ledger.sleep();
            let mut ledger = self.moved.wait(rt, ledger);
            ledger.wake();
        }
        unreachable!()
    }

    /// Delivers a message that is claimed, and those after it to its receiver, in one turn. Gives the next
    /// claim, if there is an open message at a process to which nobody delivers.
    fn deliver<R: Wait, G: Gate>(
        &self,
        rt: &R,
        rounds: &Rounds<N>,
        claim: PassClaim,
        pass: &mut Pass<N>,
        gate: &G,
    ) -> Option<PassClaim>
        ensures { IsLonger pass.old pass.new }
    {
        if claim.wakes {
            self.moved.notify_one();
            self.called.notify_one();
        }
        match self.deliver_at(rt, claim.to, claim.number, pass, gate) {
            Ok(turn) => {
                if turn.is_quiet {
                    self.moved.notify_all();
                }
                turn.next
            }
            Err(why) => {
                self.stop(rt, rounds, claim, why);
                None
            }
        }
    }

    /// A delivery was refused: its claim is given back, and the workers stop.
    fn stop<R: Wait>(&self, rt: &R, rounds: &Rounds<N>, claim: PassClaim, why: PostError)
        requires { NotSettled N.tree why }
    {
        let mut ledger = self.ledger.lock(rt);
        ledger.give_back(claim);
        rounds.stop(rt, why);
        drop(ledger);
        self.moved.notify_all();
        self.called.notify_all();
    }

    /// Delivers messages from this one on, until none is open or a delivery was refused.
    fn deliver_from<R: Wait, G: Gate>(
        &self,
        rt: &R,
        rounds: &Rounds<N>,
        first: PassClaim,
        pass: &mut Pass<N>,
        gate: &G,
    )
        ensures { IsLonger pass.old pass.new }
    {
        let mut claim = first;
        for _ in rt.forever() {
            match self.deliver(rt, rounds, claim, pass, gate) {
                None => return,
                Some(next) => claim = next,
            }
        }
    }

    /// Delivers messages until every one is delivered, or a delivery was refused. Whether every one is.
    fn work<R: Wait, G: Gate>(
        &self,
        rt: &R,
        rounds: &Rounds<N>,
        pass: &mut Pass<N>,
        gate: &G,
    ) -> bool
        ensures longer { IsLonger pass.old pass.new }
        ensures settled { IsTrue result → IsSettledPass N.tree pass.new }
    {
        for _ in rt.forever() {
            match self.next_claim(rt, rounds, pass, gate.holds()) {
                Next::Claim(claim) => self.deliver_from(rt, rounds, claim, pass, gate),
                Next::Settled => return true,
                Next::Wait | Next::Stopped => return false,
            }
        }
        unreachable!()
    }

    /// Delivers every message, as the call that leads the workers, and calls those that are served to help.
    /// At Ok each message of the journal was delivered, and the journal had just the pairs of the pass under
    /// its number. Else memory was refused, or a delivery, as its process stood.
    pub fn settle<R: Wait, G: Gate>(
        &self,
        rt: &R,
        rounds: &Rounds<N>,
        pass: &mut Pass<N>,
        gate: &G,
    ) -> Result<(), PostError>
        ensures longer { IsLonger pass.old pass.new }
        ensures settled { OnOk result (IsSettledPass N.tree pass.new) }
        ensures refused { IfErr result (NotSettled N.tree) }
    {
        rounds.set_open(true);
        let is_settled = self.work(rt, rounds, pass, gate);
        rounds.set_open(false);
        rounds.ended(rt, is_settled)
    }

    /// The call that leads the workers has begun.
    pub fn lead(&self, rounds: &Rounds<N>) {
        rounds.begin();
    }

    /// There is nothing more to come: the workers that are served go.
    pub fn dismiss<R: Wait>(&self, rt: &R, rounds: &Rounds<N>) {
        let ledger = self.ledger.lock(rt);
        rounds.finish();
        drop(ledger);
        self.called.notify_all();
    }

    /// A message to deliver in an open round; or none, once all is done.
    fn next_call<R: Wait>(&self, rt: &R, rounds: &Rounds<N>, holds: bool) -> Option<PassClaim> {
        for _ in rt.forever() {
            let mut ledger = self.ledger.lock(rt);
            if rounds.is_done() || rounds.is_stopped() {
                return None;
            }
            if rounds.is_open() {
                match ledger.claim(self.tree.root(), holds) {
                    Ok(Some(claim)) => return Some(claim),
                    Ok(None) => {}
                    Err(_) => {
                        rounds.stop(rt, PostError::Memory);
                        return None;
                    }
                }
            }
            ledger.sleep();
            let mut ledger = self.called.wait(rt, ledger);
            ledger.wake();
        }
        unreachable!()
    }

    /// Delivers messages in each round, until all is done. A worker leaves where the call that leads it does
    /// not begin, since then both may be one thread's.
    #[tactic(auto, using(crate::proofs::Passing::as_long))]
    pub fn serve<R: Wait, G: Gate>(&self, rt: &R, rounds: &Rounds<N>, pass: &mut Pass<N>, gate: &G)
        ensures { IsLonger pass.old pass.new }
    {
        if !has_begun(rounds) {
            return;
        }
        for _ in rt.forever() {
            match self.next_call(rt, rounds, gate.holds()) {
                None => return,
                Some(claim) => self.deliver_from(rt, rounds, claim, pass, gate),
            }
        }
    }

    /// Delivers every message of the journal that was not delivered, by as many workers as there are passes,
    /// the calling thread among them; where a thread cannot be made, its worker comes after another. At Ok
    /// each message of the journal was delivered, and the journal had just the pairs of the first pass under
    /// its number. At the first refusal the workers stop, and it is answered.
    pub fn run_workers<R: Threads + Wait + Sync, G: Gate + Sync>(
        &self,
        rt: &R,
        passes: &mut [Pass<N>],
        gate: &G,
    ) -> Result<(), PostError>
    where
        N: Send + Sync,
        requires { (0 < length passes.old) × (length passes.old ≤ 16) }
        ensures longer { (i : ℕ) (d : PassState) → i < length passes.old
            → IsLonger (slice_index_or passes.old i d) (slice_index_or passes.new i d) }
        ensures settled { OnOk result ((d : PassState) → IsSettledPass N.tree
            (slice_index_or passes.new 0 d)) }
        ensures refused { IfErr result (NotSettled N.tree) }
    {
        let rounds = Rounds::new();
        self.work_each(rt, &rounds, passes, gate);
        let is_settled = self.work(rt, &rounds, &mut passes[0], gate);
        rounds.ended(rt, is_settled)
    }

    /// A worker for each of these passes delivers messages until every one is delivered, or a delivery was
    /// refused.
    fn work_each<R: Threads + Wait + Sync, G: Gate + Sync>(
        &self,
        rt: &R,
        rounds: &Rounds<N>,
        passes: &mut [Pass<N>],
        gate: &G,
    )
    where
        N: Send + Sync,
        requires { (0 < length passes.old) × (length passes.old ≤ 16) }
        ensures longer { (i : ℕ) (d : PassState) → i < length passes.old
            → IsLonger (slice_index_or passes.old i d) (slice_index_or passes.new i d) }
        ensures long { length passes.new ≡ length passes.old }
    {
        let threads = passes.len();
        thread::for_each_mut(
            rt,
            passes,
            threads,
            &|_i, pass: &mut Pass<N>|
                ensures { IsLonger pass.old pass.new }
            {
                self.work(rt, rounds, pass, gate);
            },
        );
    }
}

/// Whether the call that leads the workers begins.
fn has_begun<N: Seats>(rounds: &Rounds<N>) -> bool {
    for _ in 0..LOOKS {
        if rounds.has_begun() {
            return true;
        }
        thread::yield_now();
    }
    false
}
