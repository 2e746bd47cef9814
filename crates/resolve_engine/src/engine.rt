//! The engine of `rstar resolve`.

ghost use Rattle.std.specs.Prelude.{◌≡◌, ◌++◌, ℕ, List, None, IfOk, IfErr, OnOk, option_map};
ghost use Rattle.std.specs.Io.KnownBytes.{Appends, Keeps};
ghost use Rattle.report_io.specs.Streams.{IsInput, WritesFront};
ghost use Rattle.audit_tree.specs.Reports.{IsNoReport, kept_lists};
ghost use Rattle.protocol.specs.Audits.{KeptLogs};
ghost use Rattle.protocol.specs.Trees.{IsTree};
ghost use Rattle.log_script.specs.Faults.{fault_text, first_damage};
ghost use Rattle.tree_script.specs.declared.script.ScriptFault.TheVariants.{Utf8};
ghost use Rattle.resolve_engine.specs.Answers.{answer_of};
ghost use Rattle.branch_names.specs.Cases.{IsPlaced};
ghost use Rattle.resolve_engine.specs.Finders.{Finds, Looks};
ghost use Rattle.resolve_engine.specs.Reports.{GivesAll, GivesOne, IsResolveReport, IsResolved, Tells, ending_by, ending_number, naming_answer, waits};
ghost use Rattle.resolve_engine.specs.declared.engine.ResolveStatus.{ResolveStatus as AnyEnding};

use crate::answer::{AnswerReason, AnswerWord, BranchAnswer};
use crate::asked::{AnswerForm, ResolveInput, Trust};
use crate::finding::Finder;
use crate::lines::{push_explained, push_line};
use crate::reading::read_some_logs;
use crate::sql::push_sql;
use audit_tree::{AuditError, all_notes};
use branch_names::{Naming, case_named};
use log_script::{ProcessLog, damaged, refusal};
use protocol::Tree;
use report_io::{Failure, read_all, write_all};
use script_words::lines_of;
use std::alloc::{AllocError, Global};
use std::io::{Read, Write};
use std::str;
use tree_script::{ScriptError, ScriptFault};

/// How a run ended.
#[derive(Clone, Copy, PartialEq, Eq)]
pub enum ResolveStatus {
    /// Each name has its answer.
    Answered,
    /// A log is damaged, or an input was refused.
    Refused,
    /// A name has to wait, or a log is wanted for it.
    Waits,
}

impl ResolveStatus {
    /// The exit status.
    pub fn number(self) -> u8
        ensures { result ≡ ending_number self }
    {
        match self {
            ResolveStatus::Answered => 0,
            ResolveStatus::Refused => 1,
            ResolveStatus::Waits => 3,
        }
    }
}

/// Reads names, one a line, and writes for each what is to be done with its branch by these logs, which are a
/// text as `rstar tree --logs` writes it; those of some processes may be missing. Empty lines are skipped. Or
/// one line that says which log is damaged where, or why the logs or the names are refused. After a failed
/// read, or where memory is refused, nothing was written; after a failed write, a beginning of the text.
pub fn run_resolve<R: Read, W: Write>(
    alloc: Global,
    asked: &ResolveInput,
    logs: &[u8],
    reader: &mut R,
    writer: &mut W,
) -> Result<ResolveStatus, Failure>
    ensures written { IfOk result (λ ending. (input : List ℕ) × (text : List ℕ)
        × IsInput (R.remaining reader.old) input
        × IsResolveReport ending asked.now.form asked.now.trust (option_map (λ s. s.now) asked.now.name)
        logs.now input text
        × Appends (W.contents writer.old) (W.contents writer.new) text) }
    ensures cut { IfErr result (λ e. e ≡ Failure.Write → (input : List ℕ)
        × (text : List ℕ) × (ending : AnyEnding)
        × IsInput (R.remaining reader.old) input
        × IsResolveReport ending asked.now.form asked.now.trust (option_map (λ s. s.now) asked.now.name)
        logs.now input text
        × WritesFront (W.contents writer.old) (W.contents writer.new) text) }
    ensures unread { IfErr result (λ e. e ≡ Failure.Read
        → Keeps (W.contents writer.old) (W.contents writer.new)) }
    ensures memory { IfErr result (λ e. e ≡ Failure.Memory
        → Keeps (W.contents writer.old) (W.contents writer.new)) }
{
    let input = read_all(alloc, reader)?;
    let (text, ending) = answers(alloc, asked, logs, &input)?;
    match write_all(writer, &text) {
        Ok(()) => Ok(ending),
        Err(failure) => Err(failure),
    }
}

/// What is written of these logs and names.
fn answers(
    alloc: Global,
    asked: &ResolveInput,
    logs: &[u8],
    input: &[u8],
) -> Result<(Vec<u8>, ResolveStatus), AllocError>
    ensures { IfOk result (λ r. IsResolveReport r.1 asked.now.form asked.now.trust
        (option_map (λ s. s.now) asked.now.name) logs.now input.now r.0.items) }
{
    match read_some_logs(alloc, logs) {
        Ok((tree, logs)) => resolved(alloc, asked, &tree, logs.as_slice(), input),
        Err(ScriptError::Fault(fault)) => Ok((refusal(alloc, fault)?, ResolveStatus::Refused)),
        Err(ScriptError::Memory) => Err(AllocError),
    }
}

/// What is written of these names, by the logs of this tree.
fn resolved(
    alloc: Global,
    asked: &ResolveInput,
    tree: &Tree,
    logs: &[ProcessLog],
    input: &[u8],
) -> Result<(Vec<u8>, ResolveStatus), AllocError>
    requires { IsTree tree.now }
    ensures { IfOk result (λ r. IsResolved r.1 asked.now.form asked.now.trust
        (option_map (λ s. s.now) asked.now.name) tree.now logs.now input.now r.0.items) }
{
    match all_notes(alloc, tree, logs) {
        Ok(notes) => {
            let finder = Finder::new(alloc, tree, logs, &notes, asked.trust)?;
            match str::from_utf8(input) {
                Ok(text) => told(alloc, asked, tree, &finder, text),
                Err(_) => Ok((no_text(alloc)?, ResolveStatus::Refused)),
            }
        }
        Err(AuditError::Damaged(process, place)) => {
            Ok((damaged(alloc, process, place)?, ResolveStatus::Refused))
        }
        Err(AuditError::Memory) => Err(AllocError),
    }
}

/// The line for names that are not UTF-8.
fn no_text(alloc: Global) -> Result<Vec<u8>, AllocError>
    ensures { IfOk result (λ text. text.items ≡ fault_text Utf8) }
{
    refusal(alloc, ScriptFault::Utf8)
}

/// The answer to what a name is of.
fn answer_to(alloc: Global, finder: &Finder, naming: Naming) -> Result<BranchAnswer, AllocError>
    requires tree { IsTree finder.now.tree.now }
    requires placed { IsPlaced finder.now.tree.now naming }
    ensures { IfOk result (λ answer. (kept : KeptLogs) → Finds kept finder.now → answer ≡ naming_answer
        (answer_of finder.now.trust finder.now.tree.now finder.now.logs.now kept) naming) }
{
    match naming {
        Naming::Case(case) => finder.answer(alloc, &case),
        Naming::OtherTree => Ok(BranchAnswer {
            word: AnswerWord::Foreign,
            reason: AnswerReason::OtherTree,
        }),
        Naming::Foreign => Ok(BranchAnswer {
            word: AnswerWord::Foreign,
            reason: AnswerReason::NoName,
        }),
    }
}

/// What is answered of what a name is of, by these logs of a tree; those of some processes may be missing.
/// Damaged: the first log in the order of the tree that is.
pub fn answer_named(
    alloc: Global,
    tree: &Tree,
    logs: &[ProcessLog],
    trust: Trust,
    naming: Naming,
) -> Result<BranchAnswer, AuditError>
    requires tree { IsTree tree.now }
    requires placed { IsPlaced tree.now naming }
    ensures sound { OnOk result (first_damage tree.now logs.now ≡ None) }
    ensures ok { IfOk result (λ answer. answer ≡ naming_answer
        (answer_of trust tree.now logs.now (kept_lists tree.now logs.now)) naming) }
    ensures err { IfErr result (λ e. IsNoReport tree.now logs.now e) }
{
    let notes = all_notes(alloc, tree, logs)?;
    let finder = Finder::new(alloc, tree, logs, &notes, trust)?;
    Ok(answer_to(alloc, &finder, naming)?)
}

/// Whether a name has to wait, or a log is wanted for it.
fn waits(word: AnswerWord) -> bool
    ensures { result ≡ waits word }
{
    matches!(word, AnswerWord::Wait | AnswerWord::Unknown(_))
}

/// What is written of an answer.
fn push_told(
    alloc: Global,
    out: &mut Vec<u8>,
    form: AnswerForm,
    name: &str,
    answer: &BranchAnswer,
) -> Result<(), AllocError>
    ensures { OnOk result ((text : List ℕ) × Tells form name.now answer.now text
        × (out.new.items ≡ out.old.items ++ text)) }
{
    match form {
        AnswerForm::Lines => push_line(out, name, answer),
        AnswerForm::Explained => push_explained(out, name, answer),
        AnswerForm::Sql(database) => push_sql(alloc, out, database, name, answer),
    }
}

/// Adds what is answered of a name, and says whether it has to wait.
fn push_name(
    alloc: Global,
    asked: &ResolveInput,
    tree: &Tree,
    finder: &Finder,
    out: &mut Vec<u8>,
    name: &str,
) -> Result<bool, AllocError>
    requires tree { IsTree tree.now }
    requires looks { Looks asked.now.trust tree.now finder.now.logs.now finder.now }
    ensures { IfOk result (λ w. (kept : KeptLogs) → Finds kept finder.now
        → GivesOne asked.now.form asked.now.trust
        (option_map (λ s. s.now) asked.now.name) tree.now finder.now.logs.now kept name.now w out.old.items
        out.new.items) }
{
    let naming = case_named(alloc, tree, asked.name, name)?;
    let answer = answer_to(alloc, finder, naming)?;
    push_told(alloc, out, asked.form, name, &answer)?;
    Ok(waits(answer.word))
}

/// The answers to the names of a text, and whether one has to wait.
fn told(
    alloc: Global,
    asked: &ResolveInput,
    tree: &Tree,
    finder: &Finder,
    text: &str,
) -> Result<(Vec<u8>, ResolveStatus), AllocError>
    requires tree { IsTree tree.now }
    requires looks { Looks asked.now.trust tree.now finder.now.logs.now finder.now }
    ensures { IfOk result (λ r. (kept : KeptLogs) → Finds kept finder.now
        → GivesAll asked.now.form asked.now.trust
        (option_map (λ s. s.now) asked.now.name) tree.now finder.now.logs.now kept text.now r.1 r.0.items) }
{
    let names = lines_of(alloc, text)?;
    let mut out = Vec::new(alloc);
    let mut waiting = false;
    for name in &names {
        if name.is_empty() {
            continue;
        }
        waiting |= push_name(alloc, asked, tree, finder, &mut out, name)?;
    }
    Ok((out, ending_of(waiting)))
}

/// How a run ends, by whether a name has to wait.
fn ending_of(waiting: bool) -> ResolveStatus
    ensures { result ≡ ending_by waiting }
{
    if waiting {
        ResolveStatus::Waits
    } else {
        ResolveStatus::Answered
    }
}
