//! The text of a trace.

ghost use Rattle.std.specs.Prelude.{◌≡◌, ◌+◌, ◌<◌, ◌≤◌, ◌^◌, ◌++◌, ◌∷◌, [], OnOk, IfOk, drop, length, decimal, codes, flat_map, if◌then◌else◌};
ghost use Rattle.std.specs.List.{list_any};
ghost use Rattle.trace_lines.specs.declared.names.TheConstants.{CASE};
ghost use Rattle.trace_lines.specs.declared.trace.TheConstants.{WAY};
ghost use Rattle.protocol.specs.Texts.{txn_text, ticket_text, case_text, op_text, outcome_word, message_text, findings_text, is_mixed, is_unreported, mixed_word, unreported_word, kind_word, subject_text, logged_text, word_of_conclusion, told_text, begun_lines, logged_lines, told_lines, envelope_lines, kept_lines};
ghost use Rattle.trace_lines.specs.Trace.{case_word, line_text, lines_text, mixed_words, number_word, unreported_words, way_text};

use crate::names::{
    CASE, NUMBER, TICKET, write_byte, write_case, write_number, write_ticket, write_txn, write_word,
};
use protocol::{
    Bytes, Case, Conclusion, Envelope, Finding, Message, Op, Outcome, RecordKind, ShownRecord,
    Subject, Ticket, Told, Txn,
};
use std::alloc::{AllocError, Global};

/// The most bytes of a message's number, its sender and its receiver: four marks and three numbers.
const WAY: usize = 64;

/// The most bytes of a message up to its case, and of every other line but a trim's.
const LINE: usize = 192;

/// The name of a case, as `a1.1@2.1.1`.
pub fn case_text(alloc: Global, case: &Case) -> Result<Vec<u8>, AllocError>
    ensures { IfOk result (λ text. text.items ≡ case_text case.now) }
{
    let mut out = Vec::new(alloc);
    push_case(&mut out, case)?;
    Ok(out)
}

/// Adds a text.
pub fn push(out: &mut Vec<u8>, text: &str) -> Result<(), AllocError>
    ensures { OnOk result (out.new.items ≡ out.old.items ++ text.now) }
{
    out.extend_from_slice(text.as_bytes())
}

/// Adds one byte, which is quicker than a text of one.
fn push_byte(out: &mut Vec<u8>, byte: u8) -> Result<(), AllocError>
    ensures { OnOk result (out.new.items ≡ out.old.items ++ byte ∷ []) }
{
    out.push(byte)?;
    Ok(())
}

/// Adds a number in decimal. Most have one digit.
#[tactic(auto, using(std::proofs::lemmas::Fmt::decimal_digit))]
pub fn push_number(out: &mut Vec<u8>, number: u64) -> Result<(), AllocError>
    ensures { OnOk result (out.new.items ≡ out.old.items ++ decimal number) }
{
    if number < 10 {
        return push_byte(out, b'0' + number as u8);
    }
    let mut text = [0; NUMBER];
    let begin = write_number(number, &mut text, NUMBER);
    out.extend_from_slice(&text[begin..])
}

/// Adds the name of a ticket, as `2.1.1`.
pub fn push_ticket(out: &mut Vec<u8>, ticket: &Ticket) -> Result<(), AllocError>
    ensures { OnOk result (out.new.items ≡ out.old.items ++ ticket_text ticket.now) }
{
    let mut text = [0; TICKET];
    let begin = write_ticket(ticket, &mut text, TICKET);
    out.extend_from_slice(&text[begin..])
}

/// Adds the name of a case, as `a1.1@2.1.1`.
pub fn push_case(out: &mut Vec<u8>, case: &Case) -> Result<(), AllocError>
    ensures { OnOk result (out.new.items ≡ out.old.items ++ case_text case.now) }
{
    let mut text = [0; CASE];
    let begin = write_case(case, &mut text, CASE);
    out.extend_from_slice(&text[begin..])
}

fn push_op(out: &mut Vec<u8>, op: &Op) -> Result<(), AllocError>
    ensures { OnOk result (out.new.items ≡ out.old.items ++ op_text op.now) }
{
    match op {
        Op::Put(key, value) => {
            push_bytes(out, "put ", key)?;
            push_bytes(out, " ", value)
        }
        Op::Get(key) => push_bytes(out, "get ", key),
        Op::Delete(key) => push_bytes(out, "del ", key),
    }
}

/// A word, and bytes after it.
fn push_bytes(out: &mut Vec<u8>, word: &str, bytes: &Bytes) -> Result<(), AllocError>
    ensures { OnOk result (out.new.items ≡ out.old.items ++ (word.now ++ bytes.now)) }
{
    push(out, word)?;
    out.extend_from_slice(bytes.as_slice())
}

/// The word of an outcome.
pub fn outcome_word(outcome: Outcome) -> &'static str
    ensures { result.now ≡ outcome_word outcome }
{
    match outcome {
        Outcome::Committed => "commit",
        Outcome::Aborted => "abort",
    }
}

/// Adds a space and a number.
pub fn push_number_word(out: &mut Vec<u8>, number: u64) -> Result<(), AllocError>
    ensures { OnOk result (out.new.items ≡ out.old.items ++ number_word number) }
{
    push_byte(out, b' ')?;
    push_number(out, number)
}

/// Adds a space and a case.
pub fn push_case_word(out: &mut Vec<u8>, case: &Case) -> Result<(), AllocError>
    ensures { OnOk result (out.new.items ≡ out.old.items ++ case_word case.now) }
{
    push_byte(out, b' ')?;
    push_case(out, case)
}

/// Writes a message's number, its sender and its receiver, as `7 1->2 `, so that they end at `end`: where
/// they begin.
#[tactic(auto, unfolding(crate::specs::Trace::way_text))]
fn write_way(number: u64, envelope: &Envelope, line: &mut [u8], end: usize) -> usize
    requires { (WAY ≤ end) × (end ≤ length line.old) }
    ensures begin { (result ≤ end) × (end ≤ result + WAY) }
    ensures written { drop result line.new ≡ way_text number envelope.now ++ drop end line.old }
{
    let end = write_byte(b' ', line, end);
    let end = write_number(u64::from(envelope.to.0), line, end);
    let end = write_word("->", line, end);
    let end = write_number(u64::from(envelope.from.0), line, end);
    let end = write_byte(b' ', line, end);
    write_number(number, line, end)
}

/// Adds a message up to its case.
fn push_head(
    out: &mut Vec<u8>,
    number: u64,
    envelope: &Envelope,
    word: &str,
    case: &Case,
) -> Result<(), AllocError>
    requires { length word.now ≤ 8 }
    ensures { OnOk result (out.new.items
        ≡ out.old.items ++ (way_text number envelope.now ++ (word.now ++ case_text case.now))) }
{
    let mut line = [0; LINE];
    let end = write_case(case, &mut line, LINE);
    let end = write_word(word, &mut line, end);
    let begin = write_way(number, envelope, &mut line, end);
    out.extend_from_slice(&line[begin..])
}

/// A ticket that is reported as mixed, after a space; nothing of another.
fn push_if_mixed(out: &mut Vec<u8>, finding: &Finding) -> Result<(), AllocError>
    ensures { OnOk result (out.new.items ≡ out.old.items ++ mixed_word finding.now) }
{
    match finding {
        Finding::Mixed(ticket) => {
            push_byte(out, b' ')?;
            push_ticket(out, ticket)
        }
        Finding::Unreported(_) => Ok(()),
    }
}

/// A ticket that is reported as unreported, after a space; nothing of another.
fn push_if_unreported(out: &mut Vec<u8>, finding: &Finding) -> Result<(), AllocError>
    ensures { OnOk result (out.new.items ≡ out.old.items ++ unreported_word finding.now) }
{
    match finding {
        Finding::Mixed(_) => Ok(()),
        Finding::Unreported(ticket) => {
            push_byte(out, b' ')?;
            push_ticket(out, ticket)
        }
    }
}

/// The tickets that are reported as mixed, each after a space.
fn push_mixed(out: &mut Vec<u8>, findings: &[Finding]) -> Result<(), AllocError>
    ensures { OnOk result (out.new.items ≡ out.old.items ++ mixed_words findings.now) }
{
    for finding in findings {
        push_if_mixed(out, finding)?;
    }
    Ok(())
}

/// The tickets that are reported as unreported, each after a space.
fn push_unreported(out: &mut Vec<u8>, findings: &[Finding]) -> Result<(), AllocError>
    ensures { OnOk result (out.new.items ≡ out.old.items ++ unreported_words findings.now) }
{
    for finding in findings {
        push_if_unreported(out, finding)?;
    }
    Ok(())
}

/// Whether some ticket is reported as mixed.
fn is_any_mixed(findings: &[Finding]) -> bool
    ensures { result ≡ list_any is_mixed findings.now }
{
    findings
        .iter()
        .any(|finding| matches!(finding, Finding::Mixed(_)))
}

/// Whether some ticket is reported as unreported.
fn is_any_unreported(findings: &[Finding]) -> bool
    ensures { result ≡ list_any is_unreported findings.now }
{
    findings
        .iter()
        .any(|finding| matches!(finding, Finding::Unreported(_)))
}

/// This word, if it is to be there.
fn push_if(out: &mut Vec<u8>, stands: bool, word: &str) -> Result<(), AllocError>
    ensures { OnOk result (out.new.items ≡ out.old.items ++ (if stands then word.now else [])) }
{
    if stands { push(out, word) } else { Ok(()) }
}

/// What an acknowledgement found: the mixed tickets, then the unreported ones.
#[tactic(auto, unfolding(protocol::specs::Texts::findings_text))]
pub fn push_findings(out: &mut Vec<u8>, findings: &[Finding]) -> Result<(), AllocError>
    ensures { OnOk result (out.new.items ≡ out.old.items ++ findings_text findings.now) }
{
    push_if(out, is_any_mixed(findings), " mixed")?;
    push_mixed(out, findings)?;
    push_if(out, is_any_unreported(findings), " unreported")?;
    push_unreported(out, findings)
}

fn push_envelope(out: &mut Vec<u8>, number: u64, envelope: &Envelope) -> Result<(), AllocError>
    ensures { OnOk result (out.new.items
        ≡ out.old.items ++ (way_text number envelope.now ++ message_text envelope.now.message)) }
{
    match &envelope.message {
        Message::Join(case) => push_head(out, number, envelope, "JOIN ", case),
        Message::Joined(case, ticket) => {
            push_head(out, number, envelope, "JOINED ", case)?;
            push_byte(out, b' ')?;
            push_ticket(out, ticket)
        }
        Message::Work(case, index, op) => {
            push_head(out, number, envelope, "WORK ", case)?;
            push_number_word(out, *index)?;
            push_byte(out, b' ')?;
            push_op(out, op)
        }
        Message::Prepare(case, count) => {
            push_head(out, number, envelope, "PREPARE ", case)?;
            push_number_word(out, *count)
        }
        Message::Yes(case) => push_head(out, number, envelope, "YES ", case),
        Message::No(case) => push_head(out, number, envelope, "NO ", case),
        Message::Read(case) => push_head(out, number, envelope, "READ ", case),
        Message::Commit(case) => push_head(out, number, envelope, "COMMIT ", case),
        Message::Abort(case) => push_head(out, number, envelope, "ABORT ", case),
        Message::Ack(case, outcome, findings) => {
            push_head(out, number, envelope, "ACK ", case)?;
            push_byte(out, b' ')?;
            push(out, outcome_word(*outcome))?;
            push_findings(out, findings.as_slice())
        }
        Message::Inquire(case) => push_head(out, number, envelope, "INQUIRE ", case),
    }
}

/// The word of a record's kind.
pub fn kind_word(kind: RecordKind) -> &'static str
    ensures word { result.now ≡ kind_word kind }
    ensures short { length result.now ≤ 12 }
{
    match kind {
        RecordKind::Opened => "Opened",
        RecordKind::Collecting => "Collecting",
        RecordKind::Prepare => "Prepare",
        RecordKind::Commit => "Commit",
        RecordKind::Abort => "Abort",
        RecordKind::End => "End",
        RecordKind::EndMixed => "EndMixed",
        RecordKind::Cleared => "Cleared",
        RecordKind::Prepared => "Prepared",
        RecordKind::Committed => "Committed",
        RecordKind::RolledBack => "RolledBack",
        RecordKind::Direct => "Direct",
        RecordKind::HeurCommit => "HeurCommit",
        RecordKind::HeurRollback => "HeurRollback",
        RecordKind::Told => "Told",
        RecordKind::Forgot => "Forgot",
        RecordKind::Base => "Base",
        RecordKind::Pair => "Pair",
    }
}

fn write_subject(subject: &Subject, line: &mut [u8], end: usize) -> usize
    requires { (CASE + 1 ≤ end) × (end ≤ length line.old) }
    ensures begin { (result ≤ end) × (end ≤ result + (CASE + 1)) }
    ensures written { drop result line.new ≡ subject_text subject.now ++ drop end line.old }
{
    match subject {
        Subject::Boot(boot) => {
            let end = write_number(*boot, line, end);
            write_byte(b' ', line, end)
        }
        Subject::Case(case) => {
            let end = write_case(case, line, end);
            write_byte(b' ', line, end)
        }
        Subject::Other => end,
    }
}

fn push_logged(out: &mut Vec<u8>, process: u32, logged: &ShownRecord) -> Result<(), AllocError>
    ensures { OnOk result (out.new.items ≡ out.old.items ++ line_text (logged_text process logged.now)) }
{
    let mut line = [0; LINE];
    let force = if logged.forced {
        " forced\n"
    } else {
        " plain\n"
    };
    let end = write_word(force, &mut line, LINE);
    let end = write_subject(&logged.subject, &mut line, end);
    let end = write_word(kind_word(logged.kind), &mut line, end);
    let end = write_byte(b' ', &mut line, end);
    let end = write_number(u64::from(process), &mut line, end);
    let begin = write_word("log ", &mut line, end);
    out.extend_from_slice(&line[begin..])
}

fn conclusion_word(conclusion: Conclusion) -> &'static str
    ensures word { result.now ≡ word_of_conclusion conclusion }
    ensures short { length result.now ≤ 9 }
{
    match conclusion {
        Conclusion::Committed => "committed",
        Conclusion::Aborted => "aborted",
        Conclusion::ReadOnly => "readonly",
    }
}

fn push_told(out: &mut Vec<u8>, told: Told) -> Result<(), AllocError>
    ensures { OnOk result (out.new.items ≡ out.old.items ++ line_text (told_text told)) }
{
    let mut line = [0; LINE];
    let end = write_byte(b'\n', &mut line, LINE);
    let end = write_word(conclusion_word(told.conclusion), &mut line, end);
    let end = write_byte(b' ', &mut line, end);
    let end = write_txn(&told.txn, &mut line, end);
    let begin = write_word("told ", &mut line, end);
    out.extend_from_slice(&line[begin..])
}

fn push_beginning(out: &mut Vec<u8>, txn: Txn) -> Result<(), AllocError>
    ensures { OnOk result (out.new.items ≡ out.old.items ++ line_text (codes "begin " ++ txn_text txn)) }
{
    let mut line = [0; LINE];
    let end = write_byte(b'\n', &mut line, LINE);
    let end = write_txn(&txn, &mut line, end);
    let begin = write_word("begin ", &mut line, end);
    out.extend_from_slice(&line[begin..])
}

/// The line of a transaction that began, if one did.
pub fn push_begun(out: &mut Vec<u8>, begun: &Option<Txn>) -> Result<(), AllocError>
    ensures { OnOk result (out.new.items ≡ out.old.items ++ lines_text (begun_lines begun.now)) }
{
    match begun {
        None => Ok(()),
        Some(txn) => push_beginning(out, *txn),
    }
}

/// The lines of records that a process made.
pub fn push_written(
    out: &mut Vec<u8>,
    process: u32,
    written: &[ShownRecord],
) -> Result<(), AllocError>
    ensures { OnOk result (out.new.items ≡ out.old.items ++ lines_text (logged_lines process written.now)) }
{
    for logged in written {
        push_logged(out, process, logged)?;
    }
    Ok(())
}

/// The line of what was told, if anything was.
pub fn push_conclusion(out: &mut Vec<u8>, told: &Option<Told>) -> Result<(), AllocError>
    ensures { OnOk result (out.new.items ≡ out.old.items ++ lines_text (told_lines told.now)) }
{
    match told {
        None => Ok(()),
        Some(told) => push_told(out, *told),
    }
}

/// The lines of messages before which N were sent.
pub fn push_messages(out: &mut Vec<u8>, sent: u64, messages: &[Envelope]) -> Result<(), AllocError>
    requires { sent + length messages.now < 2 ^ 64 }
    ensures { OnOk result (out.new.items ≡ out.old.items ++ lines_text (envelope_lines sent messages.now)) }
{
    let mut number = sent;
    for envelope in messages {
        number += 1;
        push_envelope(out, number, envelope)?;
        push_byte(out, b'\n')?;
    }
    Ok(())
}

/// The line of what a trim kept, if it was one.
pub fn push_kept(out: &mut Vec<u8>, process: u32, kept: &Option<u64>) -> Result<(), AllocError>
    ensures { OnOk result (out.new.items ≡ out.old.items ++ lines_text (kept_lines process kept.now)) }
{
    match kept {
        None => Ok(()),
        Some(count) => {
            push(out, "trim ")?;
            push_number(out, u64::from(process))?;
            push_number_word(out, *count)?;
            push_byte(out, b'\n')
        }
    }
}
