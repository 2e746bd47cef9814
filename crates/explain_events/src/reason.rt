//! Why an event was refused.

ghost use Rattle.std.specs.Prelude.{◌≡◌};
ghost use Rattle.explain_events.specs.Refusals.{refusal_of};

use crate::event::EventFault;
use crate::history::History;
use crate::names::{CaseName, TxnName, asked_word};
use protocol::{
    Act, Case, Event, Kind, Presumption, ProcessId, RecordKind, StepError, Ticket, Txn,
};

/// The case that an act is asked of; None: it begins one.
fn case_of(act: &Act) -> Option<Case> {
    match act {
        Act::Begin(_) => None,
        Act::Join(case, _) | Act::Work(case, _, _) => Some(*case),
        Act::Ask(case) | Act::Decide(case, _) | Act::Forget(case) => Some(*case),
        Act::Commit(txn) | Act::Abort(txn) => Some(Case {
            txn: *txn,
            ticket: None,
        }),
    }
}

/// The child that an act is about.
fn child_of(act: &Act) -> Option<ProcessId> {
    match act {
        Act::Join(_, child) | Act::Work(_, child, _) => Some(*child),
        _ => None,
    }
}

/// The name of the transaction under the other presumption.
fn other_presumption(txn: Txn) -> Txn {
    let presumption = match txn.presumption {
        Presumption::PresumeAbort => Presumption::PresumeCommit,
        Presumption::PresumeCommit => Presumption::PresumeAbort,
    };
    Txn { presumption, ..txn }
}

impl History<'_> {
    fn is_listed(&self, process: ProcessId) -> bool {
        self.world.tree().is_listed(process)
    }

    fn is_manager(&self, process: ProcessId) -> bool {
        match self.world.tree().entry(process) {
            Some(entry) => entry.kind == Kind::Manager,
            None => false,
        }
    }

    /// Why there is no such process or message.
    fn no_such(&self, event: &Event) -> EventFault
        ensures { refusal_of result ≡ StepError.NoSuch }
    {
        let process = match event {
            Event::Deliver(number) => {
                return EventFault::NoMessage {
                    number: *number,
                    sent: self.sent(),
                };
            }
            Event::Restart(process, _) | Event::Trim(process) => *process,
            Event::Settle => ProcessId(0),
            Event::Act(act) => self.strange_process(act),
        };
        EventFault::NoProcess { process: process.0 }
    }

    /// The process of an act that is not listed.
    fn strange_process(&self, act: &Act) -> ProcessId {
        match (case_of(act), child_of(act)) {
            (Some(case), _) if !self.is_listed(case.process()) => case.process(),
            (_, Some(child)) => child,
            _ => ProcessId(0),
        }
    }

    /// Why a root's case is not known.
    fn unknown_txn(&self, txn: Txn) -> EventFault
        ensures { refusal_of result ≡ StepError.UnknownTxn }
    {
        let case = CaseName(Case { txn, ticket: None });
        match (self.begun(txn), self.told(txn)) {
            (Some(begun), Some(told)) => EventFault::Ended { case, begun, told },
            (Some(begun), None) => EventFault::Forgotten { case, begun },
            (None, _) => {
                let other = other_presumption(txn);
                match self.begun(other) {
                    None => EventFault::NeverBegun { txn: TxnName(txn) },
                    Some(event) => EventFault::OtherPresumption {
                        txn: TxnName(txn),
                        other: TxnName(other),
                        event,
                    },
                }
            }
        }
    }

    /// Why a child's case is no longer known, whose ticket was given in this event.
    fn known_no_more(&self, case: CaseName, joined: u64) -> EventFault
        ensures { refusal_of result ≡ StepError.UnknownTxn }
    {
        if let Some(event) = self.written(case.0, RecordKind::Forgot) {
            return EventFault::ForgottenBefore { case, event };
        }
        match self.ended(case.0) {
            Some(event) => EventFault::CaseEnded { case, event },
            None => EventFault::CaseForgotten { case, joined },
        }
    }

    /// The event in which a child's case wrote that it has ended.
    fn ended(&self, case: Case) -> Option<u64> {
        for kind in [
            RecordKind::Committed,
            RecordKind::RolledBack,
            RecordKind::End,
        ] {
            let event = self.written(case, kind);
            if event.is_some() {
                return event;
            }
        }
        None
    }

    /// Why a child's case is not known.
    fn unknown_ticket(&self, txn: Txn, ticket: Ticket) -> EventFault
        ensures { refusal_of result ≡ StepError.UnknownTxn }
    {
        let process = ticket.child.0;
        let case = CaseName(Case {
            txn,
            ticket: Some(ticket),
        });
        if let Some(joined) = self.joined(txn, ticket) {
            return self.known_no_more(case, joined);
        }
        match self.ticket(txn, ticket.child) {
            None => EventFault::NoTicket { case, process },
            given => EventFault::OtherTicket {
                other: CaseName(Case { txn, ticket: given }),
                process,
            },
        }
    }

    /// Why a case is not known.
    fn unknown(&self, case: Case) -> EventFault
        ensures { refusal_of result ≡ StepError.UnknownTxn }
    {
        match case.ticket {
            None => self.unknown_txn(case.txn),
            Some(ticket) => self.unknown_ticket(case.txn, ticket),
        }
    }

    /// Why a case is not known to an act; to forget at the root its log reports nothing of what it began.
    fn nothing_known(&self, act: &Act, case: Case) -> EventFault
        ensures { refusal_of result ≡ StepError.UnknownTxn }
    {
        let forgets = matches!(act, Act::Forget(_)) && case.ticket.is_none();
        if forgets && self.begun(case.txn).is_some() {
            return EventFault::NothingReported {
                case: CaseName(case),
            };
        }
        self.unknown(case)
    }

    /// Why there is nothing to forget of a case that is known.
    fn nothing_to_forget(&self, case: Case) -> EventFault
        ensures { refusal_of result ≡ StepError.NothingToForget }
    {
        let name = CaseName(case);
        if self.is_manager(case.process()) {
            EventFault::NotDecided { case: name }
        } else {
            EventFault::NotEnded { case: name }
        }
    }

    /// Why a process is no child that can take what it is asked.
    fn no_child(&self, case: Case, child: ProcessId, works: bool) -> EventFault
        ensures { refusal_of result ≡ StepError.NotAChild }
    {
        let process = case.process();
        if self.is_manager(process) {
            return EventFault::ManagerInvites { process: process.0 };
        }
        if self.world.tree().parent(child) != Some(process) {
            return EventFault::NoChild {
                child: child.0,
                process: process.0,
            };
        }
        if works && !self.is_manager(child) {
            return EventFault::WorkForCoordinator { child: child.0 };
        }
        EventFault::NotJoined {
            child: child.0,
            case: CaseName(case),
        }
    }

    /// Why a case is closed.
    fn closed(&self, case: Case) -> EventFault
        ensures { refusal_of result ≡ StepError.Closed }
    {
        if let Some(event) = self.prepared(case) {
            return EventFault::Voted {
                case: CaseName(case),
                event,
            };
        }
        match (case.ticket, self.asked(case.txn)) {
            (None, Some((outcome, event))) => EventFault::AskedBefore {
                txn: TxnName(case.txn),
                asked: asked_word(outcome),
                event,
            },
            _ => EventFault::Other {
                cause: StepError::Closed,
            },
        }
    }

    /// The event in which an operator decided a case.
    fn decided(&self, case: Case) -> Option<u64> {
        match self.written(case, RecordKind::HeurCommit) {
            Some(event) => Some(event),
            None => self.written(case, RecordKind::HeurRollback),
        }
    }

    /// The event in which a case promised.
    fn promised(&self, case: Case) -> Option<u64> {
        match self.written(case, RecordKind::Prepared) {
            Some(event) => Some(event),
            None => self.written(case, RecordKind::Prepare),
        }
    }

    /// Why a case is not in doubt, or cannot be decided.
    fn not_in_doubt(&self, case: Case, decides: bool) -> EventFault
        ensures { refusal_of result ≡ StepError.NotInDoubt }
    {
        let name = CaseName(case);
        if case.ticket.is_none() {
            return EventFault::RootDecides { case: name };
        }
        let process = case.process();
        if decides && !self.is_manager(process) {
            return EventFault::DecideAtCoordinator { process: process.0 };
        }
        if let Some(event) = self.decided(case) {
            return EventFault::DecidedBefore { case: name, event };
        }
        match self.promised(case) {
            None => EventFault::NotPromised { case: name },
            Some(event) => EventFault::InDoubtNoMore { case: name, event },
        }
    }

    /// Why an act was refused, of a case that it names.
    fn act_reason(&self, act: &Act, case: Case, refusal: StepError) -> EventFault
        ensures { refusal_of result ≡ refusal }
    {
        match refusal {
            StepError::UnknownTxn => self.nothing_known(act, case),
            StepError::NotAChild => match child_of(act) {
                Some(child) => self.no_child(case, child, matches!(act, Act::Work(..))),
                None => EventFault::Other { cause: refusal },
            },
            StepError::Closed => self.closed(case),
            StepError::NotInDoubt => self.not_in_doubt(case, matches!(act, Act::Decide(..))),
            StepError::NothingToForget => self.nothing_to_forget(case),
            cause => EventFault::Other { cause },
        }
    }

    /// Why this event was refused so.
    pub(crate) fn reason(&self, event: &Event, refusal: StepError) -> EventFault
        ensures { refusal_of result ≡ refusal }
    {
        if refusal == StepError::NoSuch {
            return self.no_such(event);
        }
        let Event::Act(act) = event else {
            return EventFault::Other { cause: refusal };
        };
        match case_of(act) {
            Some(case) => self.act_reason(act, case, refusal),
            None => EventFault::Other { cause: refusal },
        }
    }
}
