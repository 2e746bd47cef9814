//! What a coordinator keeps.

ghost use Rattle.log_text.specs.Forms.{log_form};
ghost use Rattle.std.specs.Prelude.{◌≡◌, ◌+◌, true, IfOk, IsTrue, length};
ghost use Rattle.case_table.specs.Known.{KnowsCases};
ghost use Rattle.case_table.specs.Tables.{AreApart, live_count};
ghost use Rattle.protocol.specs.Memory.{ticket_of_child};
ghost use Rattle.coord_cases.specs.Cases.{FitsGiven, ticket_in, view_in};
ghost use Rattle.coord_cases.specs.Takes.{IsLiveAt};
ghost use Rattle.protocol_words.specs.kind;
ghost use Rattle.std.specs.List.{AllByRecursion};
ghost use Rattle.log_rules.specs.sound.Sound.{IsSound};
ghost use Rattle.log_records.specs.Sights.{ReadsAs, left_by, log_state, records_of, whole_within};
ghost use Rattle.process_state.specs.States.{HasNumbers};
ghost use Rattle.process_state.specs.Turns.{kept_records};
ghost use Rattle.coord_process.specs.States.{state};
ghost use Rattle.coord_process.specs.Meets.{FindsAt, FindsLive};

use coord_cases::LiveCases;
use coord_records::RememberedCases;
use coord_rows::OwnCase;
use log_records::RecLog;
use log_store::{LogStore, MemoryStore};
use protocol::{Case, LAST_NUMBER, LogRecord, ProcessId, Standing, Ticket, Tree, Txn};
use std::alloc::{AllocError, Global};
use std::marker::Model;

/// The front of a log as a restart remembers it: how many bytes it has, and what its records say.
#[derive(Drop)]
pub(crate) struct Front {
    pub(crate) size: usize,
    pub(crate) remembered: RememberedCases,
}

/// A coordinator: the root of a tree, which has no parent, or a coordinator below it. It keeps its log, its
/// boot, how many transactions it began and how many tickets it gave in this boot, and its live cases.
#[derive(Drop)]
pub struct Coordinator<L: LogStore> {
    pub(crate) alloc: Global,
    pub(crate) me: ProcessId,
    pub(crate) parent: Option<ProcessId>,
    pub(crate) tree: Tree,
    pub(crate) log: RecLog<L>,
    pub(crate) boot: u64,
    pub(crate) begun: u64,
    pub(crate) given: u64,
    pub(crate) cases: LiveCases,
    /// What its last restart remembers of the log, if no trim came since: the next one reads on from there.
    pub(crate) front: Option<Front>,
}

impl<L: LogStore> Model for Coordinator<L> {
    ghost use Rattle.coord_process.specs.States.{CoordinatorValue, IsCoordinator};
    ghost use Rattle.coord_process.specs.Fronts.{IsRemembered};

    ghost Value = { CoordinatorValue };

    ghost view = { λ c. record {
      me = c.me;
      parent = c.parent;
      tree = c.tree;
      log = c.log;
      boot = c.boot;
      begun = c.begun;
      given = c.given;
      slots = c.cases;
    } };

    ghost invariant = { λ c. IsCoordinator (record {
      me = c.me;
      parent = c.parent;
      tree = c.tree;
      log = c.log;
      boot = c.boot;
      begun = c.begun;
      given = c.given;
      slots = c.cases;
    }) × IsRemembered (record {
      me = c.me;
      parent = c.parent;
      tree = c.tree;
      log = c.log;
      boot = c.boot;
      begun = c.begun;
      given = c.given;
      slots = c.cases;
    }) c.front };
}

impl<L: LogStore> Coordinator<L> {
    /// Which process it is.
    pub fn me(&self) -> ProcessId
        ensures { result ≡ (state self.now).place.me }
    {
        self.me
    }

    /// How often it opened.
    pub fn boot(&self) -> u64
        ensures { result ≡ (state self.now).boot }
    {
        self.boot
    }

    /// Whether there are numbers left for a transaction and a ticket more, which each input wants.
    pub fn has_numbers(&self) -> bool
        ensures yes { IsTrue result → HasNumbers (state self.now) }
        ensures no { HasNumbers (state self.now) → IsTrue result }
    {
        self.begun < LAST_NUMBER && self.given < LAST_NUMBER
    }

    /// Where a case stands; Unknown, if it is not live.
    pub fn standing(&self, case: &Case) -> Standing
        ensures { result ≡ ((state self.now).view_of case.now).standing }
    {
        match self.find(case) {
            None => Standing::Unknown,
            Some((_, standing)) => standing,
        }
    }

    /// Who owes an acknowledgement of a case's decision: tickets of its children; none, where it is not live.
    pub fn owed(&self, case: &Case) -> &[Ticket]
        ensures { result.now ≡ ((state self.now).view_of case.now).owed }
    {
        match self.cases.find(case) {
            None => &[],
            Some(key) => match self.cases.get(key) {
                None => unreachable!(),
                Some(live) => live.owed(),
            },
        }
    }

    /// How many acknowledgements of a case's decision are owed; none, where it is not live.
    pub fn owing(&self, case: &Case) -> usize
        ensures { result ≡ length ((state self.now).view_of case.now).owed }
    {
        self.owed(case).len()
    }

    /// How many cases are live: those that are not Unknown.
    pub fn live(&self) -> usize
        ensures known { KnowsCases (λ c. ((state self.now).view_of c).standing) result }
        ensures slots { result ≡ live_count self.now.slots }
    {
        self.cases.len()
    }

    /// Whether the device failed under it: it answers `Failed` until its restart.
    pub fn failed(&self) -> bool
        ensures { result ≡ (state self.now).log.failed }
    {
        self.log.failed()
    }

    /// The store under its log, to be read.
    pub fn store(&self) -> &L
        ensures { (log_state (log_form self.now.me kind.Coordinator) (L.bytes result.now)
            (L.forced result.now)
            (L.failures result.now) (L.room result.now) (state self.now).log.failed).sight
            ≡ (state self.now).log }
    {
        self.log.store()
    }

    /// The bytes of its log, as a list made again. After a failure of the device a torn frame may be at
    /// the end.
    pub fn log_text(&self) -> Result<Vec<u8>, AllocError>
        ensures { IfOk result (λ text. ReadsAs (log_form self.now.me kind.Coordinator) text.items
            (records_of (state self.now).log.kept) (state self.now).log.failed) }
    {
        self.log.text(self.alloc)
    }

    /// How many bytes its log has. A crash that keeps N after the forced front keeps every record.
    pub fn log_size(&self) -> usize
        ensures { left_by (state self.now).log result ≡ records_of (state self.now).log.kept }
    {
        self.log.size()
    }

    /// How many of the records after the forced ones a crash would leave that keeps N bytes after
    /// the forced front.
    pub fn unforced_left(&self, keep: usize) -> Result<usize, AllocError>
        ensures { IfOk result (λ count. count
            ≡ length (whole_within ((state self.now).log.behind + keep) (state self.now).log.kept.unforced)) }
    {
        self.log.unforced_left(self.alloc, keep)
    }

    /// Each record of its log can be in a coordinator's log.
    pub fn records_are_sound(&self)
        ensures { AllByRecursion (IsSound kind.Coordinator) (records_of (state self.now).log.kept) }
    {
        self.log.records_are_sound();
    }

    /// The records of its log, as a list made again.
    pub fn records(&self) -> Result<Vec<LogRecord>, AllocError>
        ensures { IfOk result (λ records. records.items ≡ records_of (state self.now).log.kept) }
    {
        self.log.records(self.alloc)
    }

    /// The coordinator in one of its cases.
    pub(crate) fn seat(&self, case: Case) -> OwnCase
        ensures { result ≡ record { me = self.now.me; parent = self.now.parent; case = case } }
    {
        OwnCase {
            me: self.me,
            parent: self.parent,
            case,
        }
    }

    /// The key of the case and where it stands, if it is live.
    pub(crate) fn find(&self, case: &Case) -> Option<(usize, Standing)>
        ensures finds { FindsLive self.now.slots case.now result }
        ensures apart { AreApart self.now.slots }
        ensures fits { FitsGiven self.now.slots }
    {
        match self.cases.find(case) {
            None => None,
            Some(key) => match self.cases.get(key) {
                None => unreachable!(),
                Some(live) => Some((key, live.standing())),
            },
        }
    }

    /// The live case of the transaction that has the child's ticket, under its key.
    pub(crate) fn child(&self, txn: &Txn, ticket: &Ticket) -> Option<(usize, Case)>
        ensures { FindsAt self.now.slots txn.now ticket.now result }
    {
        match self.cases.find_child(txn, ticket) {
            None => None,
            Some(key) => match self.cases.case_at(key) {
                None => unreachable!(),
                Some(case) => Some((key, case)),
            },
        }
    }

    /// The ticket of an accepted child of the case under the key.
    pub(crate) fn accepted(&self, key: usize, case: &Case, child: ProcessId) -> Option<Ticket>
        requires at { IsLiveAt self.now.slots key case.now }
        requires apart { AreApart self.now.slots }
        ensures { result ≡ ticket_of_child (view_in self.now.slots case.now).accepted child }
    {
        match self.cases.get(key) {
            None => unreachable!(),
            Some(live) => live.child_ticket(child),
        }
    }

    /// The active ticket that was given for the parent's case.
    pub(crate) fn ticket_for(&self, case: &Case) -> Option<Ticket>
        ensures { result ≡ ticket_in self.now.slots case.now }
    {
        self.cases.ticket_for(case)
    }
}

impl Coordinator<MemoryStore> {
    /// A store in memory does not fail.
    pub fn never_failed(&self)
        ensures { (state self.now).log.failures ≡ 0 }
    {
        self.log.never_failed()
    }
}
