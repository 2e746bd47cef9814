//! One manager: its pairs, its branches, and what a crash may take back.

ghost use Rattle.std.specs.Prelude.{◌≡◌, Some, IfOk, is_some, option_map};
ghost use Rattle.protocol_words.specs.Variants.{CaseBranch};
ghost use Rattle.run_notes.specs.Managers.{branch_at, bytes_in, found_at, is_refused, told_of_op, told_of_work, why_no, xid_of};

use crate::branch::{Branch, Spoiled, is_too_long, key_of, writes};
use crate::locks::Locks;
use crate::words::{count_words, read_words, spoiled_words, unknown_words};
use indexmap::IndexMap;
use log_text::name_xid;
use protocol::{
    BranchName as Name, Case, LogRecord, Op, ProcessId, Record, RecordKind, ShownRecord, Subject,
    Ticket, Write,
};
use std::alloc::{AllocError, Global};
use xa_xid::Xid;

/// What stood at a key: a value, or nothing.
#[derive(Drop)]
struct Before {
    key: Vec<u8>,
    value: Option<Vec<u8>>,
}

/// What a record did that is not forced yet.
#[derive(Drop)]
enum Deed {
    /// It ended a branch that had promised. What stood before at the keys that it wrote, in the order of
    /// these writes.
    Ended(Xid, Branch, Vec<Before>),
    /// Nothing that a crash would change.
    Nothing,
}

/// A manager of a tree.
#[derive(Drop)]
pub(crate) struct Manager {
    alloc: Global,
    parent: Option<ProcessId>,
    /// What is committed.
    pairs: IndexMap<Vec<u8>, Vec<u8>>,
    /// The branches that have not ended.
    branches: IndexMap<Xid, Branch>,
    locks: Locks,
    /// One for each record after the last that was forced.
    deeds: Vec<Deed>,
}

/// Whether a record of this kind makes a branch's writes data.
fn commits(kind: RecordKind) -> bool {
    matches!(
        kind,
        RecordKind::Committed | RecordKind::Direct | RecordKind::HeurCommit
    )
}

/// Whether a record of this kind takes a branch's writes away.
fn rolls_back(kind: RecordKind) -> bool {
    matches!(kind, RecordKind::RolledBack | RecordKind::HeurRollback)
}

impl Manager {
    /// A manager below this parent, whose log has these records.
    pub(crate) fn new(
        alloc: Global,
        parent: Option<ProcessId>,
        records: &[LogRecord],
    ) -> Result<Manager, AllocError> {
        let mut manager = Manager {
            alloc,
            parent,
            pairs: IndexMap::new(alloc),
            branches: IndexMap::new(alloc),
            locks: Locks::new(alloc),
            deeds: Vec::new(alloc),
        };
        for record in records {
            manager.replay(record)?;
        }
        manager.lock_again()?;
        Ok(manager)
    }

    /// The XID of a case.
    fn xid(&self, case: &Case) -> Xid
        ensures { result ≡ xid_of self.now case.now }
    {
        name_xid(self.parent, Name::Case(*case))
    }

    /// A key has this value from now on, or none. What stood there.
    fn set(&mut self, key: &[u8], value: Option<&[u8]>) -> Result<Option<Vec<u8>>, AllocError> {
        match value {
            None => Ok(self.pairs.swap_remove(key)),
            Some(value) => {
                let key = Vec::from_slice(self.alloc, key)?;
                let value = Vec::from_slice(self.alloc, value)?;
                Ok(self.pairs.insert(key, value)?)
            }
        }
    }

    /// What a branch has written becomes data. What stood at each of these keys.
    fn publish(&mut self, branch: &Branch) -> Result<Vec<Before>, AllocError> {
        let mut before = Vec::new(self.alloc);
        for (key, value) in branch.writes.iter() {
            let value = match value {
                None => None,
                Some(value) => Some(value.as_slice()),
            };
            let value = self.set(key.as_slice(), value)?;
            let key = Vec::from_slice(self.alloc, key.as_slice())?;
            before.push(Before { key, value })?;
        }
        Ok(before)
    }

    /// A branch of a log promises these writes.
    fn replay_promise(&mut self, xid: Xid, name: Name, writes: &[Write]) -> Result<(), AllocError> {
        let branch = Branch::promised(self.alloc, name, writes)?;
        let _ = self.branches.insert(xid, branch)?;
        Ok(())
    }

    /// A branch of a log ends.
    fn replay_end(&mut self, xid: &Xid, commits: bool) -> Result<(), AllocError> {
        if let Some(branch) = self.branches.swap_remove(xid) {
            if commits {
                let _before = self.publish(&branch)?;
            }
        }
        Ok(())
    }

    /// The next record of the log over which the tree opens.
    fn replay(&mut self, record: &LogRecord) -> Result<(), AllocError> {
        match &record.entry {
            Record::Prepared(name, writes) => {
                let xid = name_xid(record.parent, *name);
                self.replay_promise(xid, *name, writes.as_slice())
            }
            Record::Committed(name) | Record::HeurCommit(name) => {
                self.replay_end(&name_xid(record.parent, *name), true)
            }
            Record::RolledBack(name) | Record::HeurRollback(name) => {
                self.replay_end(&name_xid(record.parent, *name), false)
            }
            Record::Direct(name, writes) => {
                let branch = Branch::promised(self.alloc, *name, writes.as_slice())?;
                let _before = self.publish(&branch)?;
                Ok(())
            }
            Record::Base(_) => {
                self.pairs.clear();
                Ok(())
            }
            Record::Pair(key, value) => {
                let _before = self.set(key.as_slice(), Some(value.as_slice()))?;
                Ok(())
            }
            _ => Ok(()),
        }
    }

    /// Each branch holds exactly the keys that it wrote.
    fn lock_again(&mut self) -> Result<(), AllocError> {
        self.locks.clear();
        for (xid, branch) in self.branches.iter_mut() {
            branch.keys.clear();
            for key in branch.writes.keys() {
                let _ = self.locks.take(xid, key.as_slice(), true)?;
                branch
                    .keys
                    .push(Vec::from_slice(self.alloc, key.as_slice())?)?;
            }
        }
        Ok(())
    }

    /// A branch is born by its ticket, unless it was given out before.
    pub(crate) fn begin(&mut self, case: &Case, ticket: Ticket) -> Result<(), AllocError> {
        let own = Case {
            txn: case.txn,
            ticket: Some(ticket),
        };
        let xid = self.xid(&own);
        if !self.branches.contains_key(&xid) {
            let branch = Branch::new(self.alloc, Name::Case(own));
            let _ = self.branches.insert(xid, branch)?;
        }
        Ok(())
    }

    /// Ends a branch: which it was, if there was one.
    fn end(&mut self, xid: &Xid) -> Option<Branch>
        ensures { result ≡ branch_at self.old xid.now }
    {
        let branch = self.branches.swap_remove(xid)?;
        self.locks.release(xid, branch.keys.as_slice());
        Some(branch)
    }

    /// A case ends that has not promised.
    pub(crate) fn end_active(&mut self, case: &Case) {
        let xid = self.xid(case);
        if let Some(branch) = self.branches.get(&xid) {
            if !branch.has_promised {
                let _ended = self.end(&xid);
            }
        }
    }

    /// Why a branch is refused this operation, if it is.
    fn refusal(&self, xid: &Xid, branch: &Branch, op: &Op) -> Result<Option<Spoiled>, AllocError>
        ensures { IfOk result (λ why. is_some why ≡ is_refused self.now xid.now branch.now op.now) }
    {
        if is_too_long(op) {
            return Ok(Some(Spoiled::TooLong));
        }
        let key = key_of(op);
        if let Some(blocker) = self.locks.blocker(xid, key, writes(op)) {
            if let Some(other) = self.branches.get(&blocker) {
                return Ok(Some(Spoiled::Held(Vec::from_slice(self.alloc, key)?, other.name)));
            }
        }
        if writes(op) && branch.is_full_for(key) {
            return Ok(Some(Spoiled::TooMany));
        }
        Ok(None)
    }

    /// What a branch finds at a key: its own write, or else what is committed.
    fn value<'a>(&'a self, branch: &'a Branch, key: &[u8]) -> Option<&'a [u8]>
        ensures { option_map (λ v. v.now) result ≡ found_at self.now branch.now key.now }
    {
        match branch.writes.get(key) {
            Some(Some(value)) => Some(value.as_slice()),
            Some(None) => None,
            None => match self.pairs.get(key) {
                None => None,
                Some(value) => Some(value.as_slice()),
            },
        }
    }

    /// What is told of an operation that a branch of a case does.
    fn told(&self, case: &Case, branch: &Branch, op: &Op) -> Result<Option<Vec<u8>>, AllocError>
        ensures { IfOk result (λ said. bytes_in said ≡ told_of_op self.now case.now branch.now op.now) }
    {
        match op {
            Op::Get(key) => {
                let value = self.value(branch, key.as_slice());
                Ok(Some(read_words(self.alloc, case, key.as_slice(), value)?))
            }
            Op::Put(_, _) | Op::Delete(_) => Ok(None),
        }
    }

    /// A work comes to a case. What a get read.
    pub(crate) fn work(
        &mut self,
        case: &Case,
        index: u64,
        op: &Op,
    ) -> Result<Option<Vec<u8>>, AllocError>
        ensures { IfOk result (λ said. bytes_in said ≡ told_of_work self.old case.now index op.now) }
    {
        let xid = self.xid(case);
        let Some(branch) = self.branches.get(&xid) else {
            return Ok(None);
        };
        if !branch.takes(index) {
            return Ok(None);
        }
        match self.refusal(&xid, branch, op)? {
            Some(spoiled) => {
                self.spoil(&xid, spoiled);
                Ok(None)
            }
            None => {
                let said = self.told(case, branch, op)?;
                self.does(&xid, index, op)?;
                Ok(said)
            }
        }
    }

    /// A branch was refused a work.
    fn spoil(&mut self, xid: &Xid, spoiled: Spoiled) {
        if let Some(branch) = self.branches.get_mut(xid) {
            branch.spoiled = Some(spoiled);
        }
    }

    /// A branch does its next work.
    fn does(&mut self, xid: &Xid, index: u64, op: &Op) -> Result<(), AllocError> {
        let Some(branch) = self.branches.get_mut(xid) else {
            return Ok(());
        };
        let key = key_of(op);
        branch.done = index;
        if self.locks.take(xid, key, writes(op))? {
            branch.keys.push(Vec::from_slice(self.alloc, key)?)?;
        }
        match op {
            Op::Put(_, value) => branch.write(self.alloc, key, Some(value.as_slice())),
            Op::Delete(_) => branch.write(self.alloc, key, None),
            Op::Get(_) => Ok(()),
        }
    }

    /// A case that is asked for its vote after this number of works says NO, and ends: why.
    pub(crate) fn refuse(&mut self, case: &Case, works: u64) -> Result<Vec<u8>, AllocError>
        ensures { IfOk result (λ words. words.items ≡ why_no self.old case.now works) }
    {
        let xid = self.xid(case);
        let Some(branch) = self.end(&xid) else {
            return unknown_words(self.alloc, case);
        };
        match &branch.spoiled {
            Some(spoiled) => spoiled_words(self.alloc, case, spoiled),
            None => count_words(self.alloc, case, works, branch.done),
        }
    }

    /// What a record does.
    fn deed(&mut self, logged: &ShownRecord) -> Result<Deed, AllocError> {
        let Subject::Case(case) = logged.subject else {
            return Ok(Deed::Nothing);
        };
        let xid = self.xid(&case);
        if logged.kind == RecordKind::Prepared {
            if let Some(branch) = self.branches.get_mut(&xid) {
                branch.has_promised = true;
            }
            return Ok(Deed::Nothing);
        }
        if !commits(logged.kind) && !rolls_back(logged.kind) {
            return Ok(Deed::Nothing);
        }
        let Some(branch) = self.end(&xid) else {
            return Ok(Deed::Nothing);
        };
        let before = if commits(logged.kind) {
            self.publish(&branch)?
        } else {
            Vec::new(self.alloc)
        };
        Ok(Deed::Ended(xid, branch, before))
    }

    /// The manager writes a record. One that is forced forces all before it.
    pub(crate) fn writes(&mut self, logged: &ShownRecord) -> Result<(), AllocError> {
        let deed = self.deed(logged)?;
        if logged.forced {
            self.deeds.clear();
        } else {
            self.deeds.push(deed)?;
        }
        Ok(())
    }

    /// All records are forced.
    pub(crate) fn force(&mut self) {
        self.deeds.clear();
    }

    /// A crash takes the last record that is not forced.
    fn take_back(&mut self, deed: Deed) -> Result<(), AllocError> {
        match deed {
            Deed::Nothing => Ok(()),
            Deed::Ended(xid, branch, before) => {
                for Before { key, value } in before {
                    let value = match &value {
                        None => None,
                        Some(value) => Some(value.as_slice()),
                    };
                    let _after = self.set(key.as_slice(), value)?;
                }
                let _ = self.branches.insert(xid, branch)?;
                Ok(())
            }
        }
    }

    /// A crash, which keeps N of the records that are not forced. What has not promised is gone.
    pub(crate) fn restart(&mut self, kept: u64) -> Result<(), AllocError> {
        let lost = (self.deeds.len() as u64).saturating_sub(kept);
        for _ in 0..lost {
            if let Some(deed) = self.deeds.pop() {
                self.take_back(deed)?;
            }
        }
        self.branches.retain(|_, branch| branch.has_promised);
        self.lock_again()
    }
}
