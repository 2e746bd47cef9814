//! Why an event was refused, as a sentence.

use crate::names::{CaseName, TxnName};
use protocol::StepError;
use thiserror::Error;

/// Why an event was refused, with the names in it. Events are named by their numbers, the first having 1.
#[derive(Clone, Copy, Debug, Error)]
pub(crate) enum EventFault {
    #[error("process {process} is not listed")]
    NoProcess {
        process: u32,
    },
    #[error("there is no message {number}: messages sent so far: {sent}")]
    NoMessage {
        number: u64,
        sent: u64,
    },
    #[error("{txn} was never begun")]
    NeverBegun {
        txn: TxnName,
    },
    #[error("{txn} was never begun; did you mean {other} (event {event})?")]
    OtherPresumption {
        txn: TxnName,
        other: TxnName,
        event: u64,
    },
    #[error("{case} is no longer known: event {begun} began it, and its end was told in event {told}")]
    Ended {
        case: CaseName,
        begun: u64,
        told: u64,
    },
    #[error("{case} is no longer known: event {begun} began it, and it was lost in a restart or has ended")]
    Forgotten {
        case: CaseName,
        begun: u64,
    },
    #[error("process {process} gave out no such ticket: {case} is not a case")]
    NoTicket {
        case: CaseName,
        process: u32,
    },
    #[error("process {process} gave out no such ticket; did you mean {other}?")]
    OtherTicket {
        other: CaseName,
        process: u32,
    },
    #[error("{case} was already forgotten (event {event})")]
    ForgottenBefore {
        case: CaseName,
        event: u64,
    },
    #[error("{case} has ended: its process recorded the end in event {event}")]
    CaseEnded {
        case: CaseName,
        event: u64,
    },
    #[error("{case} is no longer known: event {joined} gave out its ticket, and it has ended or was lost in a crash")]
    CaseForgotten {
        case: CaseName,
        joined: u64,
    },
    #[error("process {process} is a manager, so it has no children")]
    ManagerInvites {
        process: u32,
    },
    #[error("process {child} is not a child of process {process}")]
    NoChild {
        child: u32,
        process: u32,
    },
    #[error("process {child} is a coordinator; work goes to managers")]
    WorkForCoordinator {
        child: u32,
    },
    #[error("process {child} has not joined {case}: its JOINED must be delivered first")]
    NotJoined {
        child: u32,
        case: CaseName,
    },
    #[error("{txn} was already asked to {asked} (event {event})")]
    AskedBefore {
        txn: TxnName,
        asked: &'static str,
        event: u64,
    },
    #[error("{case} was already asked for its vote (event {event})")]
    Voted {
        case: CaseName,
        event: u64,
    },
    #[error("{case} belongs to the root, which decides and is never in doubt")]
    RootDecides {
        case: CaseName,
    },
    #[error("process {process} is a coordinator; an operator decides at managers")]
    DecideAtCoordinator {
        process: u32,
    },
    #[error("an operator already decided {case} (event {event})")]
    DecidedBefore {
        case: CaseName,
        event: u64,
    },
    #[error("{case} has not promised; a case is in doubt from its YES until its outcome comes")]
    NotPromised {
        case: CaseName,
    },
    #[error("{case} is no longer in doubt: it promised in event {event}, and its outcome came")]
    InDoubtNoMore {
        case: CaseName,
        event: u64,
    },
    #[error("no operator decided {case}")]
    NotDecided {
        case: CaseName,
    },
    #[error("{case} has not ended: there is nothing to forget before its End")]
    NotEnded {
        case: CaseName,
    },
    #[error("the root's log has no report of {case} that is not cleared")]
    NothingReported {
        case: CaseName,
    },
    #[error("{cause}")]
    Other {
        cause: StepError,
    },
}
