//! What the line of a record says.

ghost use Rattle.std.specs.Prelude.{◌≡◌, ◌++◌, OnOk};
ghost use Rattle.log_lines.specs.Words.{branch_word, listed_words, record_words, reports_words, ticket_words, write_words, writes_words, bytes_word};

use protocol::{BranchName, Case, Record, Reports, Ticket, Write};
use spellings::hexadecimal::Hexadecimal;
use std::alloc::{AllocError, Global};
use trace_lines::{kind_word, outcome_word, push, push_case_word, push_number_word, push_ticket};

/// A space and bytes in hexadecimal.
pub fn push_bytes_word(alloc: Global, out: &mut Vec<u8>, bytes: &[u8]) -> Result<(), AllocError>
    ensures { OnOk result (out.new.items ≡ out.old.items ++ bytes_word bytes.now) }
{
    let digits = Hexadecimal(bytes);
    let digits = format!(in alloc; " {digits}")?;
    push(out, &digits)
}

/// A space and a branch: its case, or its XID.
fn push_branch_word(alloc: Global, out: &mut Vec<u8>, branch: &BranchName) -> Result<(), AllocError>
    ensures { OnOk result (out.new.items ≡ out.old.items ++ branch_word branch.now) }
{
    match branch {
        BranchName::Case(case) => push_case_word(out, case),
        BranchName::Foreign(xid) => {
            let text = format!(in alloc; " {xid}")?;
            push(out, &text)
        }
    }
}

/// Tickets, a space before each.
fn push_tickets(out: &mut Vec<u8>, tickets: &[Ticket]) -> Result<(), AllocError>
    ensures { OnOk result (out.new.items ≡ out.old.items ++ ticket_words tickets.now) }
{
    for ticket in tickets {
        push(out, " ")?;
        push_ticket(out, ticket)?;
    }
    Ok(())
}

/// A word, and the tickets after it; nothing if there are none.
#[tactic(auto, unfolding(protocol::specs::Records::none_of))]
pub fn push_listed(out: &mut Vec<u8>, word: &str, tickets: &[Ticket]) -> Result<(), AllocError>
    ensures { OnOk result (out.new.items ≡ out.old.items ++ listed_words word.now tickets.now) }
{
    match tickets {
        [] => Ok(()),
        _ => {
            push(out, word)?;
            push_tickets(out, tickets)
        }
    }
}

/// What the root found.
fn push_reports(out: &mut Vec<u8>, reports: &Reports) -> Result<(), AllocError>
    ensures { OnOk result (out.new.items ≡ out.old.items ++ reports_words reports.now) }
{
    push_listed(out, " mixed", reports.mixed.as_slice())?;
    push_listed(out, " unreported", reports.unreported.as_slice())
}

fn push_write(alloc: Global, out: &mut Vec<u8>, write: &Write) -> Result<(), AllocError>
    ensures { OnOk result (out.new.items ≡ out.old.items ++ write_words write.now) }
{
    match &write.value {
        Some(value) => {
            push(out, " put")?;
            push_bytes_word(alloc, out, write.key.as_slice())?;
            push_bytes_word(alloc, out, value.as_slice())
        }
        None => {
            push(out, " del")?;
            push_bytes_word(alloc, out, write.key.as_slice())
        }
    }
}

fn push_writes(alloc: Global, out: &mut Vec<u8>, writes: &[Write]) -> Result<(), AllocError>
    ensures { OnOk result (out.new.items ≡ out.old.items ++ writes_words writes.now) }
{
    for write in writes {
        push_write(alloc, out, write)?;
    }
    Ok(())
}

/// What a record says after its kind: its name and what it carries.
pub fn push_words(alloc: Global, out: &mut Vec<u8>, entry: &Record) -> Result<(), AllocError>
    ensures { OnOk result (out.new.items ≡ out.old.items ++ record_words entry.now) }
{
    match entry {
        Record::Opened(number) | Record::Base(number) => push_number_word(out, *number),
        Record::Collecting(case, tickets)
        | Record::Prepare(case, tickets)
        | Record::Commit(case, tickets)
        | Record::Abort(case, tickets) => {
            push_case_word(out, case)?;
            push_tickets(out, tickets.as_slice())
        }
        Record::End(case, None) | Record::Cleared(case) => push_case_word(out, case),
        Record::End(case, Some(reports)) => {
            push_case_word(out, case)?;
            push_reports(out, reports)
        }
        Record::Prepared(branch, writes) | Record::Direct(branch, writes) => {
            push_branch_word(alloc, out, branch)?;
            push_writes(alloc, out, writes.as_slice())
        }
        Record::Committed(branch)
        | Record::RolledBack(branch)
        | Record::HeurCommit(branch)
        | Record::HeurRollback(branch)
        | Record::Forgot(branch) => push_branch_word(alloc, out, branch),
        Record::Told(branch, outcome) => {
            push_branch_word(alloc, out, branch)?;
            push(out, " ")?;
            push(out, outcome_word(*outcome))
        }
        Record::Pair(key, value) => {
            push_bytes_word(alloc, out, key.as_slice())?;
            push_bytes_word(alloc, out, value.as_slice())
        }
    }
}
