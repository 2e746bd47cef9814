//! The words of messages, records, acts and events, and what colour they have.

ghost use Rattle.std.specs.Prelude.{◌≡◌, ◌-◌, ◌++◌, IfOk, OnOk, codes, decimal};
ghost use Rattle.std.specs.Option.{option_copied};
ghost use Rattle.protocol.specs.Plays.{sent_as};
ghost use Rattle.protocol.specs.Texts.{case_text, word_of_conclusion, envelope_text, message_text, op_text, told_text};
ghost use Rattle.tree_script.specs.Spellings.{act_text, decision_word, event_text};
ghost use Rattle.picture_words.specs.Labels.{in_room, message_name, number_text, record_name, subject_name, title_in, txn_name};

use picture_shapes::{Tone, push_word};
use protocol::{
    Act, Case, Conclusion, Envelope, Event, Message, Op, Outcome, Presumption, RecordKind,
    ShownRecord, StepError, Subject, Told, Txn,
};
use std::alloc::{AllocError, Global};
use trace_lines::{
    kind_word, outcome_word, push, push_case, push_case_word, push_findings, push_number,
    push_number_word, push_ticket,
};

/// Words with so much room: where they are longer, two dots stand for the rest.
pub fn shortened(mut words: Vec<u8>, room: usize) -> Result<Vec<u8>, AllocError>
    ensures { IfOk result (λ short. short.items ≡ in_room room words.items) }
{
    if words.len() > room {
        words.truncate(room.saturating_sub(2));
        push(&mut words, "..")?;
    }
    Ok(words)
}

fn push_txn(out: &mut Vec<u8>, txn: Txn) -> Result<(), AllocError>
    ensures { OnOk result (out.new.items ≡ out.old.items ++ txn_name txn) }
{
    push_case(out, &Case { txn, ticket: None })
}

/// A word, and the transaction of a case after it.
fn push_of(out: &mut Vec<u8>, word: &str, case: &Case) -> Result<(), AllocError>
    ensures { OnOk result (out.new.items ≡ out.old.items ++ (word.now ++ txn_name case.now.txn)) }
{
    push(out, word)?;
    push_txn(out, case.txn)
}

/// An operation, as a trace has it.
fn push_op(out: &mut Vec<u8>, op: &Op) -> Result<(), AllocError>
    ensures { OnOk result (out.new.items ≡ out.old.items ++ op_text op.now) }
{
    match op {
        Op::Put(key, value) => {
            push(out, "put ")?;
            out.extend_from_slice(key.as_slice())?;
            push(out, " ")?;
            out.extend_from_slice(value.as_slice())
        }
        Op::Get(key) => {
            push(out, "get ")?;
            out.extend_from_slice(key.as_slice())
        }
        Op::Delete(key) => {
            push(out, "del ")?;
            out.extend_from_slice(key.as_slice())
        }
    }
}

fn outcome_tone(outcome: Outcome) -> Tone {
    match outcome {
        Outcome::Committed => Tone::Yes,
        Outcome::Aborted => Tone::No,
    }
}

/// The colour of a message.
pub fn message_tone(message: &Message) -> Tone {
    match message {
        Message::Prepare(..) | Message::Yes(_) | Message::Read(_) => Tone::Vote,
        Message::Commit(_) => Tone::Yes,
        Message::Abort(_) | Message::No(_) => Tone::No,
        Message::Ack(_, outcome, _) => outcome_tone(*outcome),
        Message::Inquire(_) => Tone::Ask,
        Message::Join(_) | Message::Joined(..) | Message::Work(..) => Tone::Dim,
    }
}

/// The words of a message: what it is, its transaction, and what it asks or tells.
fn push_message(out: &mut Vec<u8>, message: &Message) -> Result<(), AllocError>
    ensures { OnOk result (out.new.items ≡ out.old.items ++ message_name message.now) }
{
    match message {
        Message::Join(case) => push_of(out, "JOIN ", case),
        Message::Joined(case, _) => push_of(out, "JOINED ", case),
        Message::Work(case, _, op) => {
            push_of(out, "WORK ", case)?;
            push(out, " ")?;
            push_op(out, op)
        }
        Message::Prepare(case, _) => push_of(out, "PREPARE ", case),
        Message::Yes(case) => push_of(out, "YES ", case),
        Message::No(case) => push_of(out, "NO ", case),
        Message::Read(case) => push_of(out, "READ ", case),
        Message::Commit(case) => push_of(out, "COMMIT ", case),
        Message::Abort(case) => push_of(out, "ABORT ", case),
        Message::Ack(case, outcome, findings) => {
            push_of(out, "ACK ", case)?;
            push(out, " ")?;
            push(out, outcome_word(*outcome))?;
            push_findings(out, findings.as_slice())
        }
        Message::Inquire(case) => push_of(out, "INQUIRE ", case),
    }
}

/// What stands along an arrow before its message: the number, and a space.
pub fn number_label(alloc: Global, number: u64) -> Result<Vec<u8>, AllocError>
    ensures { IfOk result (λ label. label.items ≡ number_text number) }
{
    let mut out = Vec::new(alloc);
    push_number(&mut out, number)?;
    push(&mut out, " ")?;
    Ok(out)
}

/// What stands along the arrow of a message after its number, which has N characters, with so much room for
/// both.
pub fn message_label(
    alloc: Global,
    number: usize,
    message: &Message,
    room: usize,
) -> Result<Vec<u8>, AllocError>
    ensures { IfOk result (λ label. label.items ≡ in_room (room - number) (message_name message.now)) }
{
    let mut out = Vec::new(alloc);
    push_message(&mut out, message)?;
    shortened(out, room.saturating_sub(number))
}

/// A word, and a case after it.
fn push_case_of(out: &mut Vec<u8>, word: &str, case: &Case) -> Result<(), AllocError>
    ensures { OnOk result (out.new.items ≡ out.old.items ++ (word.now ++ case_text case.now)) }
{
    push(out, word)?;
    push_case(out, case)
}

/// All of a message but its number and its way, as a trace has it.
fn push_whole(out: &mut Vec<u8>, message: &Message) -> Result<(), AllocError>
    ensures { OnOk result (out.new.items ≡ out.old.items ++ message_text message.now) }
{
    match message {
        Message::Join(case) => push_case_of(out, "JOIN ", case),
        Message::Joined(case, ticket) => {
            push_case_of(out, "JOINED ", case)?;
            push(out, " ")?;
            push_ticket(out, ticket)
        }
        Message::Work(case, index, op) => {
            push_case_of(out, "WORK ", case)?;
            push_number_word(out, *index)?;
            push(out, " ")?;
            push_op(out, op)
        }
        Message::Prepare(case, count) => {
            push_case_of(out, "PREPARE ", case)?;
            push_number_word(out, *count)
        }
        Message::Yes(case) => push_case_of(out, "YES ", case),
        Message::No(case) => push_case_of(out, "NO ", case),
        Message::Read(case) => push_case_of(out, "READ ", case),
        Message::Commit(case) => push_case_of(out, "COMMIT ", case),
        Message::Abort(case) => push_case_of(out, "ABORT ", case),
        Message::Ack(case, outcome, findings) => {
            push_case_of(out, "ACK ", case)?;
            push(out, " ")?;
            push(out, outcome_word(*outcome))?;
            push_findings(out, findings.as_slice())
        }
        Message::Inquire(case) => push_case_of(out, "INQUIRE ", case),
    }
}

/// All of a message, as a trace has it.
fn push_envelope(out: &mut Vec<u8>, number: u64, envelope: &Envelope) -> Result<(), AllocError>
    ensures { OnOk result (out.new.items ≡ out.old.items ++ envelope_text number envelope.now) }
{
    push_number(out, number)?;
    push_word(out, " ", u64::from(envelope.from.0))?;
    push_word(out, "->", u64::from(envelope.to.0))?;
    push(out, " ")?;
    push_whole(out, &envelope.message)
}

/// The message with this number, from 1; none where there are not N.
pub fn message_with(messages: &[Envelope], number: u64) -> Option<&Envelope>
    ensures { option_copied result ≡ sent_as messages.now number }
{
    if number == 0 {
        None
    } else {
        messages.get((number - 1) as usize)
    }
}

/// All of the message with this number, as a trace has it; nothing, if there is none.
pub fn message_title(
    alloc: Global,
    number: u64,
    messages: &[Envelope],
) -> Result<Vec<u8>, AllocError>
    ensures { IfOk result (λ title. title.items ≡ title_in messages.now number) }
{
    let mut out = Vec::new(alloc);
    match message_with(messages, number) {
        None => Ok(out),
        Some(envelope) => {
            push_envelope(&mut out, number, envelope)?;
            Ok(out)
        }
    }
}

/// The colour of a record.
pub fn record_tone(kind: RecordKind) -> Tone {
    match kind {
        RecordKind::Collecting | RecordKind::Prepare | RecordKind::Prepared => Tone::Vote,
        RecordKind::Commit | RecordKind::Committed => Tone::Yes,
        RecordKind::Abort | RecordKind::RolledBack => Tone::No,
        RecordKind::HeurCommit | RecordKind::HeurRollback | RecordKind::EndMixed => Tone::Operator,
        _ => Tone::Dim,
    }
}

/// What a record is of, after a space.
fn push_subject(out: &mut Vec<u8>, subject: &Subject) -> Result<(), AllocError>
    ensures { OnOk result (out.new.items ≡ out.old.items ++ subject_name subject.now) }
{
    match subject {
        Subject::Boot(boot) => push_word(out, " ", *boot),
        Subject::Case(case) => push_of(out, " ", case),
        Subject::Other => Ok(()),
    }
}

/// A record's kind, and what it is of.
#[tactic(auto, unfolding(crate::specs::Labels::record_name))]
fn push_record_name(out: &mut Vec<u8>, logged: &ShownRecord) -> Result<(), AllocError>
    ensures { OnOk result (out.new.items ≡ out.old.items ++ record_name logged.now) }
{
    push(out, kind_word(logged.kind))?;
    push_subject(out, &logged.subject)
}

/// The name of a record.
pub fn record_name(alloc: Global, logged: &ShownRecord) -> Result<Vec<u8>, AllocError>
    ensures { IfOk result (λ name. name.items ≡ record_name logged.now) }
{
    let mut out = Vec::new(alloc);
    push_record_name(&mut out, logged)?;
    Ok(out)
}

/// The names of records, with a comma between two.
pub fn record_names(alloc: Global, records: &[ShownRecord]) -> Result<Vec<u8>, AllocError> {
    let mut out = Vec::new(alloc);
    for logged in records {
        if !out.is_empty() {
            push(&mut out, ", ")?;
        }
        push_record_name(&mut out, logged)?;
    }
    Ok(out)
}

/// The colour of what the application is told.
pub fn told_tone(told: Told) -> Tone {
    match told.conclusion {
        Conclusion::Committed => Tone::Yes,
        Conclusion::Aborted => Tone::No,
        Conclusion::ReadOnly => Tone::Dim,
    }
}

fn conclusion_word(conclusion: Conclusion) -> &'static str
    ensures { result.now ≡ word_of_conclusion conclusion }
{
    match conclusion {
        Conclusion::Committed => "committed",
        Conclusion::Aborted => "aborted",
        Conclusion::ReadOnly => "readonly",
    }
}

/// What the application is told, with so much room.
pub fn told_label(alloc: Global, told: Told, room: usize) -> Result<Vec<u8>, AllocError> {
    let mut out = Vec::new(alloc);
    push(&mut out, conclusion_word(told.conclusion))?;
    push(&mut out, " ")?;
    push_txn(&mut out, told.txn)?;
    shortened(out, room)
}

/// What the application is told, as a trace has it.
pub fn told_title(alloc: Global, told: Told) -> Result<Vec<u8>, AllocError>
    ensures { IfOk result (λ title. title.items ≡ told_text told) }
{
    let mut out = Vec::new(alloc);
    push(&mut out, "told ")?;
    push_txn(&mut out, told.txn)?;
    push(&mut out, " ")?;
    push(&mut out, conclusion_word(told.conclusion))?;
    Ok(out)
}

/// The colour of an act.
pub fn act_tone(act: &Act) -> Tone {
    match act {
        Act::Ask(_) => Tone::Ask,
        Act::Decide(..) | Act::Forget(_) => Tone::Operator,
        _ => Tone::Dim,
    }
}

/// The word of an operator's decision.
fn decision_word(outcome: Outcome) -> &'static str
    ensures { result.now ≡ decision_word outcome }
{
    match outcome {
        Outcome::Committed => "commit",
        Outcome::Aborted => "rollback",
    }
}

fn push_act_label(out: &mut Vec<u8>, act: &Act, begun: Option<Txn>) -> Result<(), AllocError> {
    match act {
        Act::Begin(_) => {
            push(out, "begin")?;
            match begun {
                None => Ok(()),
                Some(txn) => {
                    push(out, " ")?;
                    push_txn(out, txn)
                }
            }
        }
        Act::Join(_, child) => push_word(out, "join ", u64::from(child.0)),
        Act::Work(_, child, op) => {
            push_word(out, "work ", u64::from(child.0))?;
            push(out, " ")?;
            push_op(out, op)
        }
        Act::Commit(txn) => {
            push(out, "commit ")?;
            push_txn(out, *txn)
        }
        Act::Abort(txn) => {
            push(out, "abort ")?;
            push_txn(out, *txn)
        }
        Act::Ask(case) => push_of(out, "ask ", case),
        Act::Decide(_, outcome) => {
            push(out, "OPERATOR ")?;
            push(out, decision_word(*outcome))
        }
        Act::Forget(case) => push_of(out, "forget ", case),
    }
}

/// What stands along the arrow of an act, which began this transaction, if it began one, with so much room.
pub fn act_label(
    alloc: Global,
    act: &Act,
    begun: Option<Txn>,
    room: usize,
) -> Result<Vec<u8>, AllocError> {
    let mut out = Vec::new(alloc);
    push_act_label(&mut out, act, begun)?;
    shortened(out, room)
}

/// The line of an act in a script.
pub fn push_act(out: &mut Vec<u8>, act: &Act) -> Result<(), AllocError>
    ensures { OnOk result (out.new.items ≡ out.old.items ++ act_text act.now) }
{
    match act {
        Act::Begin(Presumption::PresumeAbort) => push(out, "begin pa"),
        Act::Begin(Presumption::PresumeCommit) => push(out, "begin pc"),
        Act::Join(case, child) => {
            push(out, "join")?;
            push_case_word(out, case)?;
            push_word(out, " ", u64::from(child.0))
        }
        Act::Work(case, child, op) => {
            push(out, "work")?;
            push_case_word(out, case)?;
            push_word(out, " ", u64::from(child.0))?;
            push(out, " ")?;
            push_op(out, op)
        }
        Act::Commit(txn) => {
            push(out, "commit ")?;
            push_txn(out, *txn)
        }
        Act::Abort(txn) => {
            push(out, "abort ")?;
            push_txn(out, *txn)
        }
        Act::Ask(case) => {
            push(out, "ask")?;
            push_case_word(out, case)
        }
        Act::Decide(case, outcome) => {
            push(out, "heur")?;
            push_case_word(out, case)?;
            push(out, " ")?;
            push(out, decision_word(*outcome))
        }
        Act::Forget(case) => {
            push(out, "forget")?;
            push_case_word(out, case)
        }
    }
}

fn push_event(out: &mut Vec<u8>, event: &Event) -> Result<(), AllocError>
    ensures { OnOk result (out.new.items ≡ out.old.items ++ event_text event.now) }
{
    match event {
        Event::Act(act) => push_act(out, act),
        Event::Deliver(number) => push_word(out, "deliver ", *number),
        Event::Settle => push(out, "settle"),
        Event::Restart(process, None) => push_word(out, "restart ", u64::from(process.0)),
        Event::Restart(process, Some(bytes)) => {
            push_word(out, "restart ", u64::from(process.0))?;
            push_word(out, " ", *bytes)
        }
        Event::Trim(process) => push_word(out, "trim ", u64::from(process.0)),
    }
}

/// The line of an act.
pub fn act_line(alloc: Global, act: &Act) -> Result<Vec<u8>, AllocError>
    ensures { IfOk result (λ line. line.items ≡ act_text act.now) }
{
    let mut out = Vec::new(alloc);
    push_act(&mut out, act)?;
    Ok(out)
}

/// The line of an event in a script.
pub fn event_line(alloc: Global, event: &Event) -> Result<Vec<u8>, AllocError>
    ensures { IfOk result (λ line. line.items ≡ event_text event.now) }
{
    let mut out = Vec::new(alloc);
    push_event(&mut out, event)?;
    Ok(out)
}

/// Why an event is refused, in few words.
pub fn refusal_words(refusal: StepError) -> &'static str {
    match refusal {
        StepError::Memory => "no memory",
        StepError::Device => "device failed",
        StepError::UnknownTxn => "no such case here",
        StepError::NotAChild => "not a child that takes it",
        StepError::Closed => "closed",
        StepError::Failed => "process has failed",
        StepError::NotInDoubt => "not in doubt",
        StepError::NothingToForget => "nothing to forget",
        StepError::NoSuch => "no such process or message",
        StepError::Exhausted => "numbers used up",
    }
}

/// The word of an outcome that a process is told.
pub fn outcome_label(outcome: Outcome) -> &'static str {
    match outcome {
        Outcome::Committed => "COMMIT",
        Outcome::Aborted => "ABORT",
    }
}
