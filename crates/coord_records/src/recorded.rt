//! What the records of one case say of it.

ghost use Rattle.std.specs.Prelude.{◌≡◌, ◌++◌, IfOk, OnOk};
ghost use Rattle.protocol.specs.Records.{none_of};
ghost use Rattle.protocol.specs.Standings.{unless_none};
ghost use Rattle.coord_records.specs.Summaries.{decides, furthest, names, no_records, rank, standing_at, standing_of, summary_after};

use protocol::{Record, Standing, Ticket, Tickets};
use std::alloc::{AllocError, Global};
use std::marker::Model;

/// How far the records of a case have come.
#[derive(Clone, Copy, PartialEq, Eq)]
pub enum CaseStage {
    /// There is none that says so.
    Nothing,
    /// Its votes are collected.
    Collecting,
    /// It promised.
    Prepared,
    /// It was aborted.
    Aborted,
    /// It was committed.
    Committed,
    /// Nobody owes an acknowledgement any more.
    Ended,
}

/// What the records of a case say of it: how far they have come, the tickets that Prepare names, those that
/// any of them names, and those that a decision names.
#[derive(Drop)]
pub struct Recorded {
    stage: CaseStage,
    promised: Vec<Ticket>,
    named: Vec<Ticket>,
    owing: Vec<Ticket>,
}

impl Model for Recorded {
    ghost use Rattle.coord_records.specs.Summaries.{Summary};

    ghost Value = { Summary };

    ghost view = { λ r. record {
      stage = r.stage;
      promised = r.promised.items;
      named = r.named.items;
      owing = r.owing.items;
    } };
}

impl CaseStage {
    fn rank(self) -> u8
        ensures { result ≡ rank self }
    {
        match self {
            CaseStage::Nothing => 0,
            CaseStage::Collecting => 1,
            CaseStage::Prepared => 2,
            CaseStage::Aborted => 3,
            CaseStage::Committed => 4,
            CaseStage::Ended => 5,
        }
    }

    /// The further of the two.
    pub(crate) fn furthest(self, other: CaseStage) -> CaseStage
        ensures { result ≡ furthest self other }
    {
        if self.rank() < other.rank() {
            other
        } else {
            self
        }
    }

    /// Where a case of this stage stands, by whether its decision names nobody.
    pub(crate) fn standing(self, nobody: bool) -> Standing
        ensures { result ≡ standing_at self nobody }
    {
        match self {
            CaseStage::Nothing | CaseStage::Ended => Standing::Unknown,
            CaseStage::Collecting => Standing::Collecting,
            CaseStage::Prepared => Standing::Prepared,
            CaseStage::Aborted => unless_none(nobody, Standing::Aborting),
            CaseStage::Committed => unless_none(nobody, Standing::Committing),
        }
    }
}

/// The standing of a decided case, but Unknown if its decision names nobody.
fn unless_none(nobody: bool, standing: Standing) -> Standing
    ensures { result ≡ unless_none nobody standing }
{
    if nobody { Standing::Unknown } else { standing }
}

/// Whether there is no ticket.
#[tactic(auto, unfolding(protocol::specs::Records::none_of))]
pub(crate) fn names_nobody(tickets: &[Ticket]) -> bool
    ensures { result ≡ none_of tickets.now }
{
    match tickets {
        [] => true,
        [_, ..] => false,
    }
}

impl Recorded {
    /// No records. It takes no memory.
    pub(crate) fn nothing(alloc: Global) -> Recorded
        ensures { result ≡ no_records }
    {
        Recorded {
            stage: CaseStage::Nothing,
            promised: Vec::new(alloc),
            named: Vec::new(alloc),
            owing: Vec::new(alloc),
        }
    }

    /// One record more of the case.
    pub(crate) fn note(&mut self, record: &Record) -> Result<(), AllocError>
        ensures { OnOk result (self.new ≡ summary_after self.old record.now) }
    {
        match record {
            Record::Collecting(_, tickets) => self.names(CaseStage::Collecting, tickets),
            Record::Prepare(_, tickets) => self.promises(tickets),
            Record::Commit(_, tickets) => self.decides(CaseStage::Committed, tickets),
            Record::Abort(_, tickets) => self.decides(CaseStage::Aborted, tickets),
            Record::End(..) => {
                self.stage = self.stage.furthest(CaseStage::Ended);
                Ok(())
            }
            _ => Ok(()),
        }
    }

    /// A record of this stage, which names these.
    fn names(&mut self, stage: CaseStage, tickets: &Tickets) -> Result<(), AllocError>
        ensures { OnOk result (self.new ≡ names stage tickets.now self.old) }
    {
        self.named.extend_from_slice(tickets.as_slice())?;
        self.stage = self.stage.furthest(stage);
        Ok(())
    }

    /// A promise, which names these.
    fn promises(&mut self, tickets: &Tickets) -> Result<(), AllocError>
        ensures { OnOk result (self.new ≡ record (names CaseStage.Prepared tickets.now
            self.old) { promised = self.old.promised ++ tickets.now }) }
    {
        self.promised.extend_from_slice(tickets.as_slice())?;
        self.names(CaseStage::Prepared, tickets)
    }

    /// A decision, which names these.
    fn decides(&mut self, stage: CaseStage, tickets: &Tickets) -> Result<(), AllocError>
        ensures { OnOk result (self.new ≡ decides stage tickets.now self.old) }
    {
        self.owing.extend_from_slice(tickets.as_slice())?;
        self.names(stage, tickets)
    }

    /// Where the case stands.
    pub fn standing(&self) -> Standing
        ensures { result ≡ standing_of self.now }
    {
        self.stage.standing(names_nobody(&self.owing))
    }

    /// The tickets that its promise names.
    pub fn promised(&self) -> &[Ticket]
        ensures { result.now ≡ self.now.promised }
    {
        &self.promised
    }

    /// The tickets that any of its records names.
    pub fn named(&self) -> &[Ticket]
        ensures { result.now ≡ self.now.named }
    {
        &self.named
    }

    /// The tickets that its decision names.
    pub fn owing(&self) -> &[Ticket]
        ensures { result.now ≡ self.now.owing }
    {
        &self.owing
    }

    /// The tickets that any of its records names, as a list of its own.
    pub(crate) fn named_again(&self, alloc: Global) -> Result<Tickets, AllocError>
        ensures { IfOk result (λ tickets. tickets ≡ self.now.named) }
    {
        Ok(Tickets::from_vec(Vec::from_slice(alloc, &self.named)?))
    }
}
