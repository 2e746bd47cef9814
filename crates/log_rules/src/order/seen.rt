//! What the records of a log have said so far, and which may follow.

ghost use Rattle.std.specs.Prelude.{◌≡◌, ℕ, List, [], IfOk, IfErr, OnOk, OnErr, None, Some, false, true, length, option_map};
ghost use Rattle.key_lists.specs.Tables.{same_key};
ghost use Rattle.log_rules.specs.order.Holders.{holder_of, holds_at};
ghost use Rattle.log_rules.specs.order.Orders.{
  IsPlain,
  after,
  decided,
  direct,
  followed,
  found,
  forgot,
  holds,
  is_open,
  key_open,
  keys_free,
  keys_once,
  in_doubt_by,
  names_key,
  nothing_seen,
  opened,
  opens,
  paired,
  prepared,
  promised,
  promises,
  ranked,
  settled,
  told,
  with_promise,
};

use crate::order::names::{key_below, keys_once, names_key};
use indexmap::IndexMap;
use log_text::{ReadFault, name_xid};
use protocol::{BranchName, Bytes, LogRecord, ProcessId, Record, Sequence, Write, Writes};
use std::alloc::{AllocError, Global};
use std::marker::Model;
use xa_xid::Xid;

/// What the last record of a branch that is open or heuristic leaves it as.
#[derive(Clone, Copy, PartialEq, Eq)]
pub enum DoubtMark {
    /// It promised.
    Open,
    /// An operator decided it.
    Decided,
    /// It was told the outcome after an operator's decision.
    Told,
}

/// A branch that is open or heuristic, and what it promised while it is open.
#[derive(Drop)]
pub struct Promise {
    mark: DoubtMark,
    writes: Writes,
}

/// What the last record says of the data after a Base.
#[derive(Drop)]
pub enum Data {
    /// Nothing.
    Other,
    /// They are empty.
    Base,
    /// They have this key.
    Pair(Bytes),
}

/// The branch that promised each key last. A key whose branch is not open any more stays listed.
type Holders = IndexMap<Vec<u8>, Xid>;

/// What the records of a log have said so far.
#[derive(Drop)]
pub struct Seen {
    alloc: Global,
    boot: Option<u64>,
    before: Data,
    ranks: IndexMap<Xid, u8>,
    live: IndexMap<Xid, Promise>,
    holders: Holders,
}

impl Model for Seen {
    ghost use Rattle.log_rules.specs.order.Holders.{AreHolders};
    ghost use Rattle.log_rules.specs.order.Orders.{SeenLog};

    ghost Value = { SeenLog };

    ghost view = { λ s. record {
      boot = s.boot;
      before = s.before;
      ranks = s.ranks.entries;
      live = s.live.entries;
    } };

    ghost invariant = { λ s. AreHolders s.holders.entries s.live.entries };
}

/// The most branches that are open or heuristic at a time.
const BRANCHES: usize = 1024;

impl DoubtMark {
    fn is_open(self) -> bool
        ensures { result ≡ opens self }
    {
        matches!(self, DoubtMark::Open)
    }
}

impl Promise {
    /// Whether it is open, with a write of this key.
    fn holds(&self, key: &[u8]) -> bool
        ensures { result ≡ holds self.now key.now }
    {
        matches!(self.mark, DoubtMark::Open) && names_key(self.writes.as_slice(), key)
    }
}

/// Lists a key for a branch, in place of the one that it was listed for.
fn list_key(alloc: Global, holders: &mut Holders, key: &[u8], xid: &Xid) -> Result<(), AllocError>
    ensures others { (k : List ℕ) → same_key key.now k ≡ false
        → holder_of holders.new.entries k ≡ holder_of holders.old.entries k }
    ensures listed { OnOk result (holder_of holders.new.entries key.now ≡ Some xid.now) }
{
    let key = Vec::from_slice(alloc, key)?;
    let _ = holders.insert(key, *xid)?;
    Ok(())
}

/// Lists the keys of these writes for a branch.
fn list_keys(
    alloc: Global,
    holders: &mut Holders,
    writes: &[Write],
    xid: &Xid,
) -> Result<(), AllocError>
    ensures others { (k : List ℕ) → names_key writes.now k ≡ false
        → holder_of holders.new.entries k ≡ holder_of holders.old.entries k }
    ensures listed { OnOk result ((k : List ℕ) → names_key writes.now k ≡ true
        → holder_of holders.new.entries k ≡ Some xid.now) }
{
    let mut rest = writes;
    while let [write, behind @ ..] = rest {
        list_key(alloc, holders, write.key.as_slice(), xid)?;
        rest = behind;
    }
    Ok(())
}

impl Seen {
    /// Nothing. It takes no memory.
    pub fn new(alloc: Global) -> Self
        ensures { result ≡ nothing_seen }
    {
        Seen {
            alloc,
            boot: None,
            before: Data::Other,
            ranks: IndexMap::new(alloc),
            live: IndexMap::new(alloc),
            holders: IndexMap::new(alloc),
        }
    }

    /// The boot of the last Opened that was taken; None before the first.
    pub fn boot(&self) -> Option<u64>
        ensures { result ≡ self.now.boot }
    {
        self.boot
    }

    /// Whether a branch is open: it promised, and neither it nor an operator has decided.
    pub fn is_open(&self, xid: &Xid) -> bool
        ensures { result ≡ is_open (found self.now xid.now) }
    {
        match self.live.get(xid) {
            None => false,
            Some(promise) => promise.mark.is_open(),
        }
    }

    /// What an open branch promised: nothing where the branch is not open.
    pub fn promised(&self, xid: &Xid) -> &[Write]
        ensures { result.now ≡ promised self.now xid.now }
    {
        match self.live.get(xid) {
            Some(promise) if promise.mark.is_open() => promise.writes.as_slice(),
            _ => &[],
        }
    }

    /// The branches that are open or heuristic, in the order of their promises, and whether an operator
    /// decided them.
    pub fn left(&self) -> Result<Vec<(Xid, bool)>, AllocError>
        ensures { IfOk result (λ left. left.items ≡ in_doubt_by self.now) }
    {
        let mut left = Vec::new(self.alloc);
        for (xid, promise) in &self.live {
            left.push((*xid, !promise.mark.is_open()))?;
        }
        Ok(left)
    }

    /// Whether a branch is open, with a write of this key.
    fn holds(&self, xid: &Xid, key: &[u8]) -> bool
        ensures { result ≡ holds_at (found self.now xid.now) key.now }
    {
        match self.live.get(xid) {
            None => false,
            Some(promise) => promise.holds(key),
        }
    }

    /// Whether an open branch promised a write of this key: if one did, the key is listed for it.
    fn key_open(&self, key: &[u8]) -> bool
        ensures { result ≡ key_open (promises self.now) key.now }
    {
        if self.live.len() == 0 {
            return false;
        }
        match self.holders.get(key) {
            None => false,
            Some(xid) => self.holds(xid, key),
        }
    }

    /// Whether no open branch promised a write of a key of these.
    #[tactic(auto, unfolding(crate::specs::order::Orders::keys_free))]
    fn keys_free(&self, writes: &[Write]) -> bool
        ensures { result ≡ keys_free (promises self.now) writes.now }
    {
        let mut rest = writes;
        while let [write, behind @ ..] = rest {
            if self.key_open(write.key.as_slice()) {
                return false;
            }
            rest = behind;
        }
        true
    }

    fn opened(&mut self, boot: u64) -> Result<(), ReadFault>
        ensures ok { OnOk result (opened self.old boot ≡ Some self.new) }
        ensures err { IfErr result (λ e. e ≡ ReadFault.Malformed → opened self.old boot ≡ None) }
    {
        if self.boot.is_some_and(|last| boot <= last) {
            return Err(ReadFault::Malformed);
        }
        self.boot = Some(boot);
        self.before = Data::Other;
        Ok(())
    }

    /// Sees a case's record of this rank, where the rank of its last one is within these bounds.
    fn ranked(&mut self, xid: Xid, least: u8, most: u8, rank: u8) -> Result<(), ReadFault>
        ensures ok { OnOk result (ranked self.old xid least most rank ≡ Some self.new) }
        ensures err { IfErr result (λ e. e ≡ ReadFault.Malformed
            → ranked self.old xid least most rank ≡ None) }
    {
        let last = self.ranks.get(&xid).copied().unwrap_or(0);
        if last < least || most < last {
            return Err(ReadFault::Malformed);
        }
        self.ranks.insert(xid, rank)?;
        self.before = Data::Other;
        Ok(())
    }

    fn mark(&self, xid: &Xid) -> Option<DoubtMark>
        ensures { result ≡ option_map (λ p. p.mark) (found self.now xid.now) }
    {
        self.live.get(xid).map(|promise| promise.mark)
    }

    /// A branch is not open any more: an operator decided it, or it was told the outcome since.
    fn set_mark(&mut self, xid: Xid, mark: DoubtMark) -> Result<(), ReadFault>
        requires { opens mark ≡ false }
        ensures ok { OnOk result (self.new ≡ with_promise self.old xid
            (record { mark = mark; writes = [] })) }
        ensures err { IfErr result (λ e. e ≡ ReadFault.Memory) }
    {
        let writes = Sequence::new(self.alloc);
        self.live.insert(xid, Promise { mark, writes })?;
        self.before = Data::Other;
        Ok(())
    }

    /// A branch promises writes whose keys are free.
    fn promise(&mut self, xid: Xid, writes: Writes) -> Result<(), ReadFault>
        requires { keys_free (promises self.old) writes ≡ true }
        ensures ok { OnOk result (self.new ≡ with_promise self.old xid
            (record { mark = DoubtMark.Open; writes = writes })) }
        ensures err { IfErr result (λ e. e ≡ ReadFault.Memory) }
    {
        list_keys(self.alloc, &mut self.holders, writes.as_slice(), &xid)?;
        let mark = DoubtMark::Open;
        self.live.insert(xid, Promise { mark, writes })?;
        self.before = Data::Other;
        Ok(())
    }

    fn prepared(&mut self, xid: Xid, writes: Writes) -> Result<(), ReadFault>
        ensures ok { OnOk result (prepared self.old xid writes ≡ Some self.new) }
        ensures err { IfErr result (λ e. e ≡ ReadFault.Malformed → prepared self.old xid writes ≡ None) }
    {
        let room = !self.live.contains_key(&xid) && self.live.len() < BRANCHES;
        if room && keys_once(writes.as_slice()) && self.keys_free(writes.as_slice()) {
            self.promise(xid, writes)
        } else {
            Err(ReadFault::Malformed)
        }
    }

    fn direct(&mut self, xid: Xid) -> Result<(), ReadFault>
        ensures ok { OnOk result (direct self.old xid ≡ Some self.new) }
        ensures err { IfErr result (λ e. e ≡ ReadFault.Malformed → direct self.old xid ≡ None) }
    {
        if self.live.contains_key(&xid) {
            return Err(ReadFault::Malformed);
        }
        self.before = Data::Other;
        Ok(())
    }

    fn settled(&mut self, xid: Xid) -> Result<(), ReadFault>
        ensures ok { OnOk result (settled self.old xid ≡ Some self.new) }
        ensures err { IfErr result (λ e. e ≡ ReadFault.Malformed → settled self.old xid ≡ None) }
    {
        match self.mark(&xid) {
            Some(DoubtMark::Open) => {
                let _ = self.live.shift_remove(&xid);
                self.before = Data::Other;
                Ok(())
            }
            _ => Err(ReadFault::Malformed),
        }
    }

    fn decided(&mut self, xid: Xid) -> Result<(), ReadFault>
        ensures ok { OnOk result (decided self.old xid ≡ Some self.new) }
        ensures err { IfErr result (λ e. e ≡ ReadFault.Malformed → decided self.old xid ≡ None) }
    {
        match self.mark(&xid) {
            Some(DoubtMark::Open) => self.set_mark(xid, DoubtMark::Decided),
            _ => Err(ReadFault::Malformed),
        }
    }

    fn told(&mut self, xid: Xid) -> Result<(), ReadFault>
        ensures ok { OnOk result (told self.old xid ≡ Some self.new) }
        ensures err { IfErr result (λ e. e ≡ ReadFault.Malformed → told self.old xid ≡ None) }
    {
        match self.mark(&xid) {
            Some(DoubtMark::Decided) => self.set_mark(xid, DoubtMark::Told),
            _ => Err(ReadFault::Malformed),
        }
    }

    fn forgot(&mut self, xid: Xid) -> Result<(), ReadFault>
        ensures ok { OnOk result (forgot self.old xid ≡ Some self.new) }
        ensures err { IfErr result (λ e. e ≡ ReadFault.Malformed → forgot self.old xid ≡ None) }
    {
        match self.mark(&xid) {
            Some(DoubtMark::Decided) | Some(DoubtMark::Told) => {
                let _ = self.live.shift_remove(&xid);
                self.before = Data::Other;
                Ok(())
            }
            _ => Err(ReadFault::Malformed),
        }
    }

    fn paired(&mut self, key: Bytes) -> Result<(), ReadFault>
        ensures ok { OnOk result (paired self.old key ≡ Some self.new) }
        ensures err { IfErr result (λ e. e ≡ ReadFault.Malformed → paired self.old key ≡ None) }
    {
        let rises = match &self.before {
            Data::Other => false,
            Data::Base => true,
            Data::Pair(last) => key_below(last.as_slice(), key.as_slice()),
        };
        if !rises {
            return Err(ReadFault::Malformed);
        }
        self.before = Data::Pair(key);
        Ok(())
    }

    /// Sees a record that is not one of a promise or a pair.
    fn plain(&mut self, parent: Option<ProcessId>, entry: &Record) -> Result<(), ReadFault>
        requires { IsPlain entry.now }
        ensures ok { OnOk result (followed self.old parent entry.now ≡ Some self.new) }
        ensures err { IfErr result (λ e. e ≡ ReadFault.Malformed
            → followed self.old parent entry.now ≡ None) }
    {
        match entry {
            Record::Opened(boot) => self.opened(*boot),
            Record::Collecting(case, _) => self.ranked(
                name_xid(parent, BranchName::Case(*case)),
                0,
                0,
                1,
            ),
            Record::Prepare(case, _) => self.ranked(
                name_xid(parent, BranchName::Case(*case)),
                0,
                1,
                2,
            ),
            Record::Commit(case, _) | Record::Abort(case, _) => {
                self.ranked(name_xid(parent, BranchName::Case(*case)), 0, 2, 3)
            }
            Record::End(case, None) => self.ranked(
                name_xid(parent, BranchName::Case(*case)),
                0,
                3,
                4,
            ),
            Record::End(case, Some(_)) => self.ranked(
                name_xid(parent, BranchName::Case(*case)),
                0,
                3,
                5,
            ),
            Record::Cleared(case) => self.ranked(
                name_xid(parent, BranchName::Case(*case)),
                5,
                5,
                6,
            ),
            Record::Committed(branch) | Record::RolledBack(branch) => {
                self.settled(name_xid(parent, *branch))
            }
            Record::Direct(branch, _) => self.direct(name_xid(parent, *branch)),
            Record::HeurCommit(branch) | Record::HeurRollback(branch) => {
                self.decided(name_xid(parent, *branch))
            }
            Record::Told(branch, _) => self.told(name_xid(parent, *branch)),
            Record::Forgot(branch) => self.forgot(name_xid(parent, *branch)),
            Record::Base(_) => {
                self.before = Data::Base;
                Ok(())
            }
            Record::Prepared(..) | Record::Pair(..) => unreachable!(),
        }
    }

    fn followed(&mut self, parent: Option<ProcessId>, entry: Record) -> Result<(), ReadFault>
        ensures ok { OnOk result (followed self.old parent entry ≡ Some self.new) }
        ensures err { IfErr result (λ e. e ≡ ReadFault.Malformed → followed self.old parent entry ≡ None) }
    {
        match entry {
            Record::Prepared(branch, writes) => self.prepared(name_xid(parent, branch), writes),
            Record::Pair(key, _value) => self.paired(key),
            entry => self.plain(parent, &entry),
        }
    }

    /// Takes the next record of the log. Malformed comes exactly where it may not follow the records so far.
    /// After an error nothing more is known.
    #[tactic(auto, unfolding(crate::specs::order::Orders::after))]
    pub fn take(&mut self, next: LogRecord) -> Result<(), ReadFault>
        ensures ok { OnOk result (after self.old next ≡ Some self.new) }
        ensures err { IfErr result (λ e. e ≡ ReadFault.Malformed → after self.old next ≡ None) }
    {
        if self.boot.is_none() && !matches!(next.entry, Record::Opened(_)) {
            return Err(ReadFault::Malformed);
        }
        self.followed(next.parent, next.entry)
    }
}
