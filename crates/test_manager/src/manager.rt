//! A manager that was told which branches it refuses.

ghost use Rattle.std.specs.Prelude.{◌≡◌, false, true, IfOk, Ok, OnErr};
ghost use Rattle.std.specs.List.{list_any};
ghost use Rattle.xa_branch.specs.Names.{same};
ghost use Rattle.xa_words.specs.code;
ghost use Rattle.resource_manager.specs.Ends.{ManagerFinishes};
ghost use Rattle.resource_manager.specs.Opening.{IsNewManager};
ghost use Rattle.resource_manager.specs.Sights.{SameManager};
ghost use Rattle.test_manager.specs.Sights.{RefusesIt, limited};

use resource_manager::ResourceManager;
use std::alloc::AllocError;
use xa_codes::{Code, Flags};
use xa_tables::Verb;
use xa_xid::Xid;

/// A resource manager over another: it refuses to prepare some branches, by XAER_RMERR, as a manager does
/// that meets a limit of its own, so that its process refuses the PREPARE as Exhausted. In all else it is the
/// other one.
#[derive(Drop)]
pub struct RefusingManager<M: ResourceManager> {
    pub(crate) manager: M,
    pub(crate) refused: Vec<Xid>,
}

impl<M: ResourceManager> RefusingManager<M> {
    /// A manager that is this one, but refuses to prepare these branches.
    pub fn new(manager: M, refused: Vec<Xid>) -> Self
        ensures manager { result.manager ≡ manager }
        ensures refused { result.refused ≡ refused }
        ensures fresh { IsNewManager (M.sight manager) → IsNewManager (limited (M.sight result.manager)) }
    {
        RefusingManager { manager, refused }
    }

    /// Whether it refuses to prepare a branch.
    pub fn refuses(&self, xid: &Xid) -> bool
        ensures { result ≡ list_any (λ x. same x xid.now) self.now.refused.items }
    {
        self.refused.contains(xid)
    }

    /// A branch promises as at the other manager, unless it was told to refuse it: then RmErr, and nothing
    /// changed. A failed manager answers RmFail first.
    pub(crate) fn prepare_told(
        &mut self,
        thread: u32,
        xid: &Xid,
        flags: Flags,
    ) -> Result<Code, AllocError>
        ensures told { RefusesIt (M.sight self.old.manager)
            (list_any (λ x. same x xid.now) self.old.refused.items)
            → (result ≡ Ok code.RmErr) × SameManager (M.sight self.old.manager) (M.sight self.new.manager) }
        ensures others { list_any (λ x. same x xid.now) self.old.refused.items ≡ false
            → IfOk result (ManagerFinishes (M.sight self.old.manager) (M.sight self.new.manager) Verb.Prepare
            xid.now flags.0) }
        ensures refused { self.new.refused ≡ self.old.refused }
        ensures answer { IfOk result (ManagerFinishes (limited (M.sight self.old.manager))
            (limited (M.sight self.new.manager)) Verb.Prepare xid.now flags.0) }
        ensures err { OnErr result (SameManager (limited (M.sight self.old.manager))
            (limited (M.sight self.new.manager))) }
    {
        if self.refuses(xid) && !self.manager.failed() {
            return Ok(Code::RmErr);
        }
        self.manager.prepare(thread, xid, flags)
    }
}
