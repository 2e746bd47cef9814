//! How a transaction ended, as far as a log tells.

ghost use Rattle.std.specs.Prelude.{◌≡◌};
ghost use Rattle.log_outcomes.specs.News.{news_after, news_behind, news_in};

use crate::saying::{SayingStage, saying};
use protocol::{LogRecord, Outcome, Txn};

/// What a log tells of how a transaction ended.
#[derive(Clone, Copy, Debug, PartialEq, Eq)]
pub enum News {
    /// Nothing.
    Unknown,
    /// It is not decided, or not as far as the process was told.
    Open,
    Committed,
    Aborted,
}

/// The news after a record of a case of the transaction.
fn behind(known: News, stage: SayingStage) -> News
    ensures { result ≡ news_behind known stage }
{
    match stage {
        SayingStage::Open | SayingStage::Doubt | SayingStage::Decided(_) => News::Open,
        SayingStage::Ended(Outcome::Committed) => News::Committed,
        SayingStage::Ended(Outcome::Aborted) => News::Aborted,
        SayingStage::Over => match known {
            News::Open => News::Unknown,
            _ => known,
        },
    }
}

/// The news after a record of the log.
fn after(known: News, txn: &Txn, kept: &LogRecord) -> News
    ensures { result ≡ news_after txn.now known kept.now }
{
    match saying(&kept.entry) {
        None => known,
        Some((case, stage)) => {
            if case.txn.is(txn) {
                behind(known, stage)
            } else {
                known
            }
        }
    }
}

/// What these records tell of how a transaction ended.
pub fn news_of(records: &[LogRecord], txn: &Txn) -> News
    ensures { result ≡ news_in records.now txn.now }
{
    let mut known = News::Unknown;
    for kept in records {
        known = after(known, txn, kept);
    }
    known
}
