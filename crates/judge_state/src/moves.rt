//! How a state changes. A refusal for memory gives no state.

ghost use Rattle.std.specs.Prelude.{◌≡◌, IfOk};
ghost use Rattle.judge_state.specs.Moves.{begun, brought_back, committed, cut_off, decided, dissociated, enlisted, fallen, forgotten, gone, hung, inactive, linked, marked, migrating, opened, outside, picked, prepared, published, remembered, restarted, rolled, settled, stands, stored, unlinked, unworked, worked, written};

use crate::lists::{
    committed_works, doubted, first_place, in_doubt, links_elsewhere, links_not_active,
    links_of_others, links_without, listed_of_others, new_lines, not_due, numbers_without, others,
    scans_without, standing, was_prepared, works_but, works_in_doubt, works_of, works_without,
};
use crate::parts::{JudgedBranch, JudgedDecision, JudgedWrite, Link, Stand, Work};
use crate::state::State;
use std::alloc::{AllocError, Global};

impl State {
    /// The manager is open, or not.
    pub fn opened(mut self, is_open: bool) -> State
        ensures { result ≡ opened is_open self }
    {
        self.opened = is_open;
        self
    }

    /// A call got no answer.
    pub fn hung(mut self) -> State
        ensures { result ≡ hung self }
    {
        self.hung = true;
        self
    }

    /// A thread begins a branch.
    pub fn begun(mut self, thread: u32, x: u32) -> Result<State, AllocError>
        ensures { IfOk result (λ state. state ≡ begun thread x self) }
    {
        let branch = JudgedBranch {
            name: x,
            stand: Stand::Active,
            owner: thread,
            since: self.values.len(),
        };
        self.branches.push(branch)?;
        Ok(self)
    }

    /// A thread is associated with a branch: T2 if suspended, else T1.
    pub fn linked(mut self, thread: u32, x: u32, suspended: bool) -> Result<State, AllocError>
        ensures { IfOk result (λ state. state ≡ linked thread x suspended self) }
    {
        let link = Link {
            thread,
            branch: x,
            suspended,
        };
        self.links.push(link)?;
        Ok(self)
    }

    /// The association of a thread with a branch is gone.
    pub fn unlinked(mut self, alloc: Global, thread: u32, x: u32) -> Result<State, AllocError>
        ensures { IfOk result (λ state. state ≡ unlinked thread x self) }
    {
        self.links = links_without(alloc, thread, x, &self.links)?;
        Ok(self)
    }

    /// A thread is active in no branch.
    pub fn inactive(mut self, alloc: Global, thread: u32) -> Result<State, AllocError>
        ensures { IfOk result (λ state. state ≡ inactive thread self) }
    {
        self.links = links_not_active(alloc, thread, &self.links)?;
        Ok(self)
    }

    /// A branch has no association.
    pub fn dissociated(mut self, alloc: Global, x: u32) -> Result<State, AllocError>
        ensures { IfOk result (λ state. state ≡ dissociated x self) }
    {
        self.links = links_elsewhere(alloc, x, &self.links)?;
        self.migrated = numbers_without(alloc, x, &self.migrated)?;
        Ok(self)
    }

    /// One more association is suspended for migration.
    pub fn migrating(mut self, x: u32) -> Result<State, AllocError>
        ensures { IfOk result (λ state. state ≡ migrating x self) }
    {
        self.migrated.push(x)?;
        Ok(self)
    }

    /// One association that was suspended for migration is picked up.
    pub fn picked(mut self, x: u32) -> State
        ensures { result ≡ picked x self }
    {
        if let Some(place) = first_place(x, &self.migrated) {
            self.migrated.remove(place);
        }
        self
    }

    /// A branch stands so.
    fn standing(mut self, alloc: Global, x: u32, to: Stand) -> Result<State, AllocError>
        ensures { IfOk result (λ state. state ≡ stands x to self) }
    {
        self.branches = standing(alloc, x, to, &self.branches)?;
        Ok(self)
    }

    /// A branch comes to be in doubt: each open scan may give it.
    fn enlisted(mut self, alloc: Global, x: u32) -> Result<State, AllocError>
        ensures { IfOk result (λ state. state ≡ enlisted x self) }
    {
        let scans = scans_without(alloc, x, &self.listed, &self.scans)?;
        let lines = new_lines(alloc, x, &scans)?;
        self.listed.extend_from_slice(&lines)?;
        Ok(self)
    }

    /// A branch can only be rolled back.
    pub fn marked(self, alloc: Global, x: u32) -> Result<State, AllocError>
        ensures { IfOk result (λ state. state ≡ marked x self) }
    {
        self.standing(alloc, x, Stand::RollbackOnly)
    }

    /// A branch is prepared.
    pub fn prepared(self, alloc: Global, x: u32) -> Result<State, AllocError>
        ensures { IfOk result (λ state. state ≡ prepared x self) }
    {
        let state = self.standing(alloc, x, Stand::Prepared)?;
        state.enlisted(alloc, x)
    }

    /// A branch is known no longer, and what it has written is gone.
    pub fn gone(mut self, alloc: Global, x: u32) -> Result<State, AllocError>
        ensures { IfOk result (λ state. state ≡ gone x self) }
    {
        self.branches = others(alloc, x, &self.branches)?;
        self.works = works_without(alloc, x, &self.works)?;
        self.listed = not_due(alloc, x, &self.listed)?;
        Ok(self)
    }

    /// A branch that leaves S3: a crash may bring it back.
    fn remembered(mut self, alloc: Global, x: u32) -> Result<State, AllocError>
        ensures { IfOk result (λ state. state ≡ remembered x self) }
    {
        if !self.is_prepared_at(x) {
            return Ok(self);
        }
        let mut lost = others(alloc, x, &self.lost)?;
        let branch = was_prepared(alloc, x, &self.branches)?;
        lost.extend_from_slice(&branch)?;
        let mut lost_works = works_without(alloc, x, &self.lost_works)?;
        let works = works_of(alloc, x, &self.works)?;
        lost_works.extend_from_slice(&works)?;
        self.lost = lost;
        self.lost_works = lost_works;
        Ok(self)
    }

    /// What a branch has written is committed, for sure or maybe.
    fn published(mut self, alloc: Global, x: u32, sure: bool) -> Result<State, AllocError>
        ensures { IfOk result (λ state. state ≡ published x sure self) }
    {
        let values = committed_works(alloc, x, sure, &self.works)?;
        self.values.extend_from_slice(&values)?;
        self.works = works_without(alloc, x, &self.works)?;
        Ok(self)
    }

    /// A branch is rolled back, and known no longer.
    pub fn rolled(self, alloc: Global, x: u32) -> Result<State, AllocError>
        ensures { IfOk result (λ state. state ≡ rolled x self) }
    {
        let state = self.remembered(alloc, x)?;
        state.gone(alloc, x)
    }

    /// A branch is committed, and known no longer.
    pub fn committed(self, alloc: Global, x: u32) -> Result<State, AllocError>
        ensures { IfOk result (λ state. state ≡ committed x self) }
    {
        let state = self.remembered(alloc, x)?;
        let state = state.published(alloc, x, true)?;
        state.gone(alloc, x)
    }

    /// What a branch has written is gone.
    fn unworked(mut self, alloc: Global, x: u32) -> Result<State, AllocError>
        ensures { IfOk result (λ state. state ≡ unworked x self) }
    {
        self.works = works_without(alloc, x, &self.works)?;
        Ok(self)
    }

    /// What a decision makes of what a branch has written.
    fn settled(self, alloc: Global, x: u32, decision: JudgedDecision) -> Result<State, AllocError>
        ensures { IfOk result (λ state. state ≡ settled x decision self) }
    {
        match decision {
            JudgedDecision::Commit => self.published(alloc, x, true),
            JudgedDecision::Rollback => self.unworked(alloc, x),
            JudgedDecision::Mixed | JudgedDecision::Unknown => self.published(alloc, x, false),
        }
    }

    /// A branch is decided heuristically.
    pub fn decided(
        self,
        alloc: Global,
        x: u32,
        decision: JudgedDecision,
    ) -> Result<State, AllocError>
        ensures { IfOk result (λ state. state ≡ decided x decision self) }
    {
        let state = self.standing(alloc, x, Stand::Heuristic(decision))?;
        let state = state.settled(alloc, x, decision)?;
        state.enlisted(alloc, x)
    }

    /// What is known of the decision of a branch, and nothing else, changes.
    pub fn known(self, alloc: Global, x: u32, decision: JudgedDecision) -> Result<State, AllocError>
        ensures { IfOk result (λ state. state ≡ stands x (Stand.Heuristic decision) self) }
    {
        self.standing(alloc, x, Stand::Heuristic(decision))
    }

    /// The manager fell: what is in doubt stays, and nothing else of what is not committed.
    pub fn fallen(mut self, alloc: Global) -> Result<State, AllocError>
        ensures { IfOk result (λ state. state ≡ fallen self) }
    {
        self.works = works_in_doubt(alloc, &self.branches, &self.works)?;
        self.branches = in_doubt(alloc, &self.branches)?;
        self.links = Vec::new(alloc);
        self.migrated = Vec::new(alloc);
        self.scans = Vec::new(alloc);
        self.listed = Vec::new(alloc);
        self.outside = Vec::new(alloc);
        Ok(self)
    }

    /// What is known of the past is forgotten: the manager is not open, and nothing is lost.
    fn forgotten(mut self, alloc: Global) -> State
        ensures { result ≡ forgotten self }
    {
        self.opened = false;
        self.lost = Vec::new(alloc);
        self.lost_works = Vec::new(alloc);
        self
    }

    /// The manager fell, and was not opened again.
    pub fn restarted(self, alloc: Global) -> Result<State, AllocError>
        ensures { IfOk result (λ state. state ≡ restarted self) }
    {
        let state = self.fallen(alloc)?;
        Ok(state.forgotten(alloc))
    }

    /// A branch that had left S3 is back in it, with what it had written.
    pub fn brought_back(
        mut self,
        alloc: Global,
        branch: JudgedBranch,
        works: &[Work],
    ) -> Result<State, AllocError>
        ensures { IfOk result (λ state. state ≡ brought_back branch works.now self) }
    {
        let works = works_of(alloc, branch.name, works)?;
        self.branches.push(branch)?;
        self.works.extend_from_slice(&works)?;
        self.values = doubted(alloc, branch.name, &self.values)?;
        Ok(self)
    }

    /// The connection of a thread is gone.
    pub fn cut_off(mut self, alloc: Global, thread: u32) -> Result<State, AllocError>
        ensures { IfOk result (λ state. state ≡ cut_off thread self) }
    {
        self.links = links_of_others(alloc, thread, &self.links)?;
        self.scans = numbers_without(alloc, thread, &self.scans)?;
        self.listed = listed_of_others(alloc, thread, &self.listed)?;
        self.outside = numbers_without(alloc, thread, &self.outside)?;
        Ok(self)
    }

    /// A branch writes a value.
    pub fn worked(
        mut self,
        alloc: Global,
        x: u32,
        key: u32,
        value: u32,
    ) -> Result<State, AllocError>
        ensures { IfOk result (λ state. state ≡ worked x key value self) }
    {
        let mut works = works_but(alloc, x, key, &self.works)?;
        works.push(Work {
            branch: x,
            key,
            value,
        })?;
        self.works = works;
        Ok(self)
    }

    /// A thread works outside of any branch.
    pub fn outside(mut self, alloc: Global, thread: u32) -> Result<State, AllocError>
        ensures { IfOk result (λ state. state ≡ outside thread self) }
    {
        let mut outside = numbers_without(alloc, thread, &self.outside)?;
        outside.push(thread)?;
        self.outside = outside;
        Ok(self)
    }

    /// A value is committed by itself.
    fn stored(mut self, key: u32, value: u32) -> Result<State, AllocError>
        ensures { IfOk result (λ state. state ≡ stored key value self) }
    {
        self.values.push(JudgedWrite {
            branch: None,
            key,
            value,
            sure: true,
        })?;
        Ok(self)
    }

    /// A thread writes a value outside of any branch.
    pub fn written(
        self,
        alloc: Global,
        thread: u32,
        key: u32,
        value: u32,
    ) -> Result<State, AllocError>
        ensures { IfOk result (λ state. state ≡ written thread key value self) }
    {
        let state = self.outside(alloc, thread)?;
        state.stored(key, value)
    }
}
