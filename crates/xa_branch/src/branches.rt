//! The state of each known branch.

ghost use Rattle.std.specs.Prelude.{◌≡◌, ◌≢◌, ◌⊎◌, ◌≤◌, ◌<◌, ◌+◌, [], length, IfOk, OnOk, OnErr, MatchResult, IsOk, Some, None, Bool, true, false, nat_le, position};
ghost use Rattle.std.specs.Map.{keys_of, lookup};
ghost use Rattle.xa_branch.specs.Names.{same};
ghost use Rattle.xa_branch.specs.Branches.{AreBranchesListedOnce, BranchList, FindsBranchAt, BranchMoves, BeginsState, ScansBranches, is_known, state_in, Stays, in_doubt, starts_scan, ends_scan, scan_refusal};

use crate::scans::Scans;
use few_keys::place_of;
use indexmap::IndexMap;
use std::alloc::{AllocError, Global};
use std::marker::Model;
use xa_codes::Code;
use xa_tables::{BranchState, Call};
use xa_xid::Xid;

/// The most branches that are known at a time.
const BRANCHES: usize = 1024;

/// Whether a recover begins a scan.
fn starts(call: Call) -> bool
    ensures { result ≡ starts_scan call }
{
    matches!(call, Call::RecoverStart | Call::RecoverWhole)
}

/// Whether a recover ends a scan.
fn ends(call: Call) -> bool
    ensures { result ≡ ends_scan call }
{
    matches!(call, Call::RecoverEnd | Call::RecoverWhole)
}

/// The known branches with their states, and the open scans.
#[derive(Drop)]
pub struct BranchStates {
    alloc: Global,
    states: IndexMap<Xid, BranchState>,
    scans: Scans,
}

impl Model for BranchStates {
    ghost use Rattle.std.specs.Prelude.{◌≢◌, ◌≤◌, length};
    ghost use Rattle.std.specs.List.{AllByRecursion};
    ghost use Rattle.xa_tables.specs.declared.states.BranchState.TheVariants.{S0};
    ghost use Rattle.indexmap.specs.IndexMap.{spare};
    ghost use Rattle.xa_branch.specs.Branches.{BranchList};

    ghost Value = { BranchList };

    ghost view = { λ b. record { branches = b.states.entries; room = spare b.states; scans = b.scans } };

    ghost invariant = { λ b. (length b.states.entries ≤ 1024)
        × AllByRecursion (λ e. e.1 ≢ S0) b.states.entries };
}

impl BranchStates {
    /// No branches and no scans.
    pub fn new(alloc: Global) -> Self
        ensures branches { result.branches ≡ [] }
        ensures scans { result.scans ≡ [] }
    {
        BranchStates {
            alloc,
            states: IndexMap::new(alloc),
            scans: Scans::new(alloc),
        }
    }

    /// At most 1,024 branches are known.
    pub fn are_few(&self)
        ensures { length self.now.branches ≤ 1024 }
    {
        let _ = &self.alloc;
    }

    /// Each known branch is listed once, and none that is in S0.
    pub fn are_listed_once(&self)
        ensures { AreBranchesListedOnce self.now.branches }
    {
        let _ = self.states.len();
    }

    /// Makes room for N more branches.
    pub fn reserve(&mut self, more: usize) -> Result<(), AllocError>
        ensures stays { Stays self.old self.new }
        ensures room { OnOk result (more ≤ self.new.room) }
    {
        self.states.reserve(more)
    }

    /// Forgets all branches and closes all scans, as a restart does. The room stays.
    pub fn clear(&mut self)
        ensures branches { self.new.branches ≡ [] }
        ensures scans { self.new.scans ≡ [] }
        ensures room { length self.old.branches + self.old.room ≤ self.new.room }
    {
        self.states.clear();
        self.scans.clear();
    }

    /// Where a branch is among the known ones, and its state.
    pub fn find(&self, xid: &Xid) -> Option<(usize, BranchState)>
        ensures { FindsBranchAt self.now.branches xid.now result }
    {
        let place = place_of(&self.states, xid)?;
        Some((place, self.states[place]))
    }

    /// The state of a branch, where it is known.
    pub fn get(&self, xid: &Xid) -> Option<BranchState>
        ensures { result ≡ lookup (same xid.now) self.now.branches }
    {
        self.states.get(xid).copied()
    }

    /// The state of a branch: S0 where it is not known.
    pub fn state(&self, xid: &Xid) -> BranchState
        ensures { result ≡ state_in self.now.branches xid.now }
    {
        self.get(xid).unwrap_or(BranchState::S0)
    }

    /// Whether a branch is known.
    pub fn is_known(&self, xid: &Xid) -> bool
        ensures { result ≡ is_known self.now.branches xid.now }
    {
        place_of(&self.states, xid).is_some()
    }

    /// Whether 1,024 branches are known, so that no other can begin.
    pub fn is_full(&self) -> bool
        ensures { result ≡ nat_le 1024 (length self.now.branches) }
    {
        self.states.len() >= BRANCHES
    }

    /// Begins a branch, in S1. DupId: it is known. RmErr: 1,024 branches are known. Either changes nothing.
    pub fn begin(&mut self, xid: &Xid) -> Result<Code, AllocError>
        ensures begun { IfOk result (BeginsState self.old self.new xid.now BranchState.S1) }
        ensures err { OnErr result (Stays self.old self.new) }
        ensures succeeds { 0 < self.old.room → IsOk result }
    {
        self.enter(xid, BranchState::S1)
    }

    /// Begins a branch that no thread is in, in S2. The refusals are those of `begin`.
    pub fn begin_idle(&mut self, xid: &Xid) -> Result<Code, AllocError>
        ensures begun { IfOk result (BeginsState self.old self.new xid.now BranchState.S2) }
        ensures err { OnErr result (Stays self.old self.new) }
    {
        self.enter(xid, BranchState::S2)
    }

    /// Enters a branch that a log left, in S3 or S5. DupId: it is known. RmErr: 1,024 branches are known.
    /// Either changes nothing.
    pub fn restore(&mut self, xid: &Xid, state: BranchState) -> Result<Code, AllocError>
        requires { (state ≡ BranchState.S3) ⊎ (state ≡ BranchState.S5) }
        ensures restored { IfOk result (BeginsState self.old self.new xid.now state) }
        ensures err { OnErr result (Stays self.old self.new) }
        ensures succeeds { 0 < self.old.room → IsOk result }
    {
        self.enter(xid, state)
    }

    fn enter(&mut self, xid: &Xid, state: BranchState) -> Result<Code, AllocError>
        requires { state ≡ BranchState.S0 → ⊥ }
        ensures entered { IfOk result (BeginsState self.old self.new xid.now state) }
        ensures err { OnErr result (Stays self.old self.new) }
        ensures succeeds { 0 < self.old.room → IsOk result }
    {
        if self.is_known(xid) {
            return Ok(Code::DupId);
        }
        if self.is_full() {
            return Ok(Code::RmErr);
        }
        self.states.insert(*xid, state)?;
        Ok(Code::Ok)
    }

    /// An operator's decision about a prepared branch, which leads it from S3 to S5. False: it is not in S3,
    /// and nothing changes.
    pub fn decided(&mut self, xid: &Xid) -> bool
        ensures decided { result ≡ true → (state_in self.old.branches xid.now ≡ BranchState.S3)
            × BranchMoves self.old self.new xid.now BranchState.S5 }
        ensures refused { result ≡ false → (state_in self.old.branches xid.now
            ≢ BranchState.S3) × (self.new ≡ self.old) }
    {
        let Some((index, _, state)) = self.states.get_full(xid) else {
            return false;
        };
        if *state != BranchState::S3 {
            return false;
        }
        self.place(index, BranchState::S5);
        true
    }

    /// The known branch that is at a place moves to a state; a caller picks the row of the table. Where no
    /// branch stands nothing changes.
    pub fn place(&mut self, index: usize, to: BranchState)
        ensures moved { (x : Xid) → position (same x) (keys_of self.old.branches) ≡ Some index
            → BranchMoves self.old self.new x to }
        ensures nowhere { length self.old.branches ≤ index → Stays self.old self.new }
    {
        if to == BranchState::S0 {
            let _ = self.states.shift_remove_index(index);
        } else if let Some(state) = self.states.get_index_mut(index) {
            *state = to;
        }
    }

    /// Gives a thread the next of the branches in S3 and S5, at most N, in order of beginning.
    /// TMSTARTRSCAN begins a scan over them as they are now, in place of one that is open; TMENDRSCAN closes
    /// it after the call. Inval: no scan is open and none begins. RmErr: a scan begins, 256 threads have
    /// one and this thread has none. A refusal changes nothing.
    pub fn scan(
        &mut self,
        thread: u32,
        count: u32,
        call: Call,
    ) -> Result<Result<Vec<Xid>, Code>, AllocError>
        ensures answer { IfOk result (λ answer. MatchResult answer
            (λ v. ScansBranches self.old self.new thread count call v.items)
            (λ code. (scan_refusal self.old.scans thread call ≡ Some code) × (self.new ≡ self.old))) }
        ensures err { OnErr result (self.new ≡ self.old) }
    {
        if let Some(refusal) = self.scan_refusal(thread, call) {
            return Ok(Err(refusal));
        }
        let rest = if starts(call) {
            self.in_doubt()?
        } else {
            self.scans.rest(thread)?
        };
        let given = self.scans.give(thread, rest.as_slice(), count, ends(call))?;
        Ok(Ok(given))
    }

    fn scan_refusal(&self, thread: u32, call: Call) -> Option<Code>
        ensures { result ≡ scan_refusal self.now.scans thread call }
    {
        if self.scans.is_open(thread) {
            None
        } else if !starts(call) {
            Some(Code::Inval)
        } else if self.scans.is_full() {
            Some(Code::RmErr)
        } else {
            None
        }
    }

    /// The branches in doubt, in order of beginning.
    pub fn in_doubt(&self) -> Result<Vec<Xid>, AllocError>
        ensures { IfOk result (λ v. v.items ≡ in_doubt self.now.branches) }
    {
        self.states
            .iter()
            .filter(|(_, state)| state.is_in_doubt())
            .map(|(xid, _)| *xid)
            .collect(self.alloc)
    }
}
