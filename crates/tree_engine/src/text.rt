//! The lines of counts.

ghost use Rattle.std.specs.Prelude.{◌≡◌, ◌⊎◌, ◌++◌, IfErr, OnOk};
ghost use Rattle.tree_engine.specs.Texts.{count_text, kind_text, outcomes_text, row_text, rows_text, sent_text, tasks_text, total_text, totals_text, votes_text};
ghost use Rattle.tree_engine.specs.Counts.{Fit, total_of};

use crate::counts::{Counts, Sent};
use crate::rows::{ProcessCounts, RunCounts};
use report_io::Failure;
use std::alloc::AllocError;
use trace_lines::{push, push_number};

/// A word and a number after it.
#[tactic(auto, unfolding(crate::specs::Texts::count_text))]
fn push_count(out: &mut Vec<u8>, word: &str, count: u64) -> Result<(), AllocError>
    ensures { OnOk result (out.new.items ≡ out.old.items ++ count_text word.now count) }
{
    push(out, word)?;
    push_number(out, count)
}

/// A word and a number after it, if the number is above 0.
#[tactic(auto, unfolding(crate::specs::Texts::kind_text))]
fn push_kind(out: &mut Vec<u8>, word: &str, count: u64) -> Result<(), AllocError>
    ensures { OnOk result (out.new.items ≡ out.old.items ++ kind_text word.now count) }
{
    if count == 0 {
        return Ok(());
    }
    push_count(out, word, count)
}

#[tactic(auto, unfolding(crate::specs::Texts::tasks_text))]
fn push_tasks(out: &mut Vec<u8>, sent: Sent) -> Result<(), AllocError>
    ensures { OnOk result (out.new.items ≡ out.old.items ++ tasks_text sent) }
{
    push_kind(out, " JOIN ", sent.join)?;
    push_kind(out, " JOINED ", sent.joined)?;
    push_kind(out, " WORK ", sent.work)
}

#[tactic(auto, unfolding(crate::specs::Texts::votes_text))]
fn push_votes(out: &mut Vec<u8>, sent: Sent) -> Result<(), AllocError>
    ensures { OnOk result (out.new.items ≡ out.old.items ++ votes_text sent) }
{
    push_kind(out, " PREPARE ", sent.prepare)?;
    push_kind(out, " YES ", sent.yes)?;
    push_kind(out, " NO ", sent.no)?;
    push_kind(out, " READ ", sent.read)
}

#[tactic(auto, unfolding(crate::specs::Texts::outcomes_text))]
fn push_outcomes(out: &mut Vec<u8>, sent: Sent) -> Result<(), AllocError>
    ensures { OnOk result (out.new.items ≡ out.old.items ++ outcomes_text sent) }
{
    push_kind(out, " COMMIT ", sent.commit)?;
    push_kind(out, " ABORT ", sent.abort)?;
    push_kind(out, " ACK ", sent.ack)?;
    push_kind(out, " INQUIRE ", sent.inquire)
}

#[tactic(auto, unfolding(crate::specs::Texts::sent_text))]
fn push_sent(out: &mut Vec<u8>, sent: Sent) -> Result<(), AllocError>
    ensures { OnOk result (out.new.items ≡ out.old.items ++ sent_text sent) }
{
    push_tasks(out, sent)?;
    push_votes(out, sent)?;
    push_outcomes(out, sent)
}

#[tactic(auto, unfolding(crate::specs::Texts::totals_text))]
fn push_totals(out: &mut Vec<u8>, counts: &Counts) -> Result<(), AllocError>
    ensures { OnOk result (out.new.items ≡ out.old.items ++ totals_text counts.now) }
{
    push_count(out, " records ", counts.records)?;
    push_count(out, " forced ", counts.forced)?;
    push_count(out, " messages ", counts.messages)
}

#[tactic(auto, unfolding(crate::specs::Texts::row_text))]
fn push_row(out: &mut Vec<u8>, row: &ProcessCounts) -> Result<(), AllocError>
    ensures { OnOk result (out.new.items ≡ out.old.items ++ row_text row.now) }
{
    push_count(out, "counts ", u64::from(row.process.0))?;
    push_totals(out, &row.counts)?;
    push_sent(out, row.counts.sent)?;
    push(out, "\n")
}

#[tactic(auto, unfolding(crate::specs::Texts::total_text))]
fn push_total(out: &mut Vec<u8>, total: &Counts) -> Result<(), AllocError>
    ensures { OnOk result (out.new.items ≡ out.old.items ++ total_text total.now) }
{
    push(out, "counts all")?;
    push_totals(out, total)?;
    push_sent(out, total.sent)?;
    push(out, "\n")
}

/// Adds a line for each process, how many records it wrote, how many of them forced, and how many messages
/// it sent, in all and of each kind that it sent, and a line of the sums. Exhausted: a sum is 2^64 or more.
/// After an error a beginning of the lines may stand.
pub fn push_counts(out: &mut Vec<u8>, counts: &RunCounts) -> Result<(), Failure>
    ensures ok { OnOk result (out.new.items ≡ out.old.items
        ++ (rows_text counts.now ++ total_text (total_of counts.now))) }
    ensures err { IfErr result (λ e. (e ≡ Failure.Memory)
        ⊎ ((e ≡ Failure.Exhausted) × (Fit (total_of counts.now) → ⊥))) }
{
    let total = counts.total()?;
    push_rows(out, counts)?;
    push_total(out, &total)?;
    Ok(())
}

#[tactic(auto, unfolding(crate::specs::Texts::rows_text))]
fn push_rows(out: &mut Vec<u8>, counts: &RunCounts) -> Result<(), AllocError>
    ensures { OnOk result (out.new.items ≡ out.old.items ++ rows_text counts.now) }
{
    for row in counts.rows() {
        push_row(out, row)?;
    }
    Ok(())
}
