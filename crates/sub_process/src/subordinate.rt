//! A subordinate.

ghost use Rattle.protocol_words.specs.kind;
ghost use Rattle.log_text.specs.Forms.{log_form};
ghost use Rattle.std.specs.Prelude.{◌≡◌, IsTrue, option_map};
ghost use Rattle.protocol.specs.Nodes.{AtLeaf};
ghost use Rattle.process_state.specs.Opening.{IsOpenedProcess};
ghost use Rattle.process_state.specs.States.{HasNumbers};
ghost use Rattle.case_table.specs.Known.{KnowsCases};
ghost use Rattle.case_table.specs.Tables.{live_count};
ghost use Rattle.resource_manager.specs.Data.{DataRests, no_data};
ghost use Rattle.resource_manager.specs.Opening.{IsNewManager};
ghost use Rattle.resource_manager.specs.Sights.{manager_data};
ghost use Rattle.resource_manager.specs.Turns.{AnswersInput, case_xid};
ghost use Rattle.sub_branches.specs.Tables.{IsBranchTable};
ghost use Rattle.sub_process.specs.Fronts.{IsHeader};
ghost use Rattle.sub_process.specs.Subordinates.{FindsBranch, seen};
ghost use Rattle.sub_process.specs.Steps.{data_answer, state};
ghost use Rattle.protocol.specs.declared.events.Input.{Input};

use log_text::HEADER_SIZE;
use protocol::{Case, LAST_NUMBER, ProcessId, Standing, Tree};
use resource_manager::ResourceManager;
use std::alloc::Global;
use std::marker::Model;
use sub_branches::{BranchStage, LiveBranch, LiveBranches, RememberedBranches};
use xa_codes::Flags;

/// The front of a log as a restart remembers it: how many bytes it has, and what its records say.
#[derive(Drop)]
pub(crate) struct Front {
    pub(crate) size: usize,
    pub(crate) remembered: RememberedBranches,
}

impl Front {
    /// The header alone. It takes no memory.
    pub(crate) fn header(alloc: Global) -> Front
        ensures { IsHeader result }
    {
        Front {
            size: HEADER_SIZE,
            remembered: RememberedBranches::nothing(alloc),
        }
    }
}

/// A process below a parent, with a resource manager.
#[derive(Drop)]
pub struct Subordinate<M: ResourceManager> {
    pub(crate) alloc: Global,
    pub(crate) me: ProcessId,
    pub(crate) parent: ProcessId,
    pub(crate) tree: Tree,
    pub(crate) given: u64,
    pub(crate) branches: LiveBranches,
    pub(crate) manager: M,
    /// What its last restart remembers of the log: the header alone after a trim, and after a restart that
    /// was refused.
    pub(crate) front: Front,
}

impl<M: ResourceManager> Model for Subordinate<M> {
    ghost use Rattle.sub_process.specs.Subordinates.{IsTied, SubValue};

    ghost Value = { SubValue M };

    ghost view = { λ s. record {
      me = s.me;
      parent = s.parent;
      tree = s.tree;
      given = s.given;
      table = s.branches;
      manager = s.manager;
    } };

    ghost invariant = { λ s. IsTied s.front (record {
      me = s.me;
      parent = s.parent;
      tree = s.tree;
      given = s.given;
      table = s.branches;
      manager = M.sight s.manager;
    }) };
}

impl<M: ResourceManager> Subordinate<M> {
    /// The manager `me` of this tree below this parent, which drives a manager that was just made over an
    /// empty log, and opens it, without migration: no branch of a tree is suspended. It takes no memory.
    pub fn open(
        alloc: Global,
        me: ProcessId,
        parent: ProcessId,
        tree: Tree,
        mut manager: M,
    ) -> Subordinate<M>
        requires new { IsNewManager (M.sight manager) }
        requires own { (M.sight manager).log.form ≡ log_form me kind.Manager }
        ensures opened { IsOpenedProcess (state M.sight result)
            (record { me = me; role = AtLeaf parent; tree = tree })
            (M.sight manager).log.failures }
        ensures empty { DataRests no_data (manager_data (M.sight result.manager)) }
    {
        let _ = manager.open(Flags::TMNOFLAGS, false);
        Subordinate {
            alloc,
            me,
            parent,
            tree,
            given: 0,
            branches: LiveBranches::new(alloc),
            manager,
            front: Front::header(alloc),
        }
    }

    /// Which process it is.
    pub fn me(&self) -> ProcessId
        ensures { result ≡ (state M.sight self.now).place.me }
    {
        self.me
    }

    /// How often it opened.
    pub fn boot(&self) -> u64
        ensures { result ≡ (state M.sight self.now).boot }
    {
        self.manager.boot()
    }

    /// Whether there is a number left for a ticket more, which each input wants.
    pub fn has_numbers(&self) -> bool
        ensures yes { IsTrue result → HasNumbers (state M.sight self.now) }
        ensures none { HasNumbers (state M.sight self.now) → IsTrue result }
    {
        self.given < LAST_NUMBER
    }

    /// Where a case stands; Unknown, if it is not live.
    pub fn standing(&self, case: &Case) -> Standing
        ensures { result ≡ ((state M.sight self.now).branch_of case.now).standing }
    {
        match find_branch(&self.branches, case) {
            None => Standing::Unknown,
            Some((_, branch)) => match branch.stage {
                BranchStage::Active { .. } => Standing::Active,
                BranchStage::Prepared => Standing::Prepared,
                BranchStage::Heuristic { .. } => Standing::Heuristic,
            },
        }
    }

    /// How many cases are live: those that are not Unknown.
    pub fn live(&self) -> usize
        ensures known { KnowsCases (λ c. ((state M.sight self.now).branch_of c).standing) result }
        ensures branches { result ≡ live_count self.now.table.branches }
    {
        self.branches.len()
    }

    /// Whether the device failed under it: it answers `Failed` until its restart.
    pub fn failed(&self) -> bool
        ensures { result ≡ (state M.sight self.now).log.failed }
    {
        self.manager.failed()
    }

    /// What it takes for the answers of the manager's data are those that they give.
    pub fn data_answers(&self)
        ensures { (i : Input) → AnswersInput (state M.sight self.now)
            (manager_data (M.sight self.now.manager))
            (case_xid self.now.parent) i (data_answer (seen M.sight self.now) i) }
    {
        self.manager.branches_are_listed_once();
    }

    /// The manager that it drives, which has its log; the log is this process's.
    pub fn manager(&self) -> &M
        ensures manager { result.now ≡ self.now.manager }
        ensures own { (M.sight self.now.manager).log.form ≡ log_form self.now.me kind.Manager }
    {
        &self.manager
    }

    /// The manager that it drives, as it is; its log is this process's.
    pub fn into_manager(self) -> M
        ensures manager { result ≡ self.manager }
        ensures own { (M.sight self.manager).log.form ≡ log_form self.me kind.Manager }
    {
        let Subordinate { manager, .. } = self;
        manager
    }
}

/// What is kept of a case, and its key.
pub(crate) fn find_branch<'a>(
    branches: &'a LiveBranches,
    case: &Case,
) -> Option<(usize, &'a LiveBranch)>
    ensures finds { FindsBranch branches.now case.now (option_map (λ p. (p.0, p.1.now)) result) }
    ensures kept { IsBranchTable branches.now }
{
    let key = branches.find(case)?;
    let branch = branches.get(key)?;
    Some((key, branch))
}
