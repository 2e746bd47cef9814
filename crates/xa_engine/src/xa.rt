//! The engine of XA scripts.

ghost use Rattle.std.specs.Prelude.{◌≡◌, ◌++◌, ℕ, List, MatchResult, OnOk, IfOk, IfErr, map};
ghost use Rattle.std.specs.Io.KnownBytes.{Appends, Keeps};
ghost use Rattle.report_io.specs.Streams.{IsInput, WritesFront};
ghost use Rattle.report_io.specs.declared.status.Status.{Status as AnyStatus};
ghost use Rattle.xa_engine.specs.declared.script.request.Request.{Request as AnyRequest};
ghost use Rattle.xa_engine.specs.script.Scripts.{IsFirstBadLine, SpellEach, call_lines};
ghost use Rattle.xa_engine.specs.Runs.{HasSoundLog, IsFreshManager, IsXaReport, IsSoundManager, Reports, Runs, RequestSteps, fault_text};

use crate::answer::push_answer;
use crate::calls::{Manager, make};
use crate::script::{Request, XaScriptError, asking_lines, request_of};
use kv_manager::{KvManager, RecordsError, RestoreError};
use log_records::LogOpenError;
use log_store::MemoryStore;
use protocol::ProcessId;
use report_io::{Failure, Status, read_all, write_all};
use script_words::says_nothing;
use std::alloc::{AllocError, Global};
use std::io::{Read, Write};
use trace_lines::{push, push_number};

/// Reads an XA script, makes its requests of a key store whose log is in memory, and writes their answers;
/// or one line that says why the script is refused. After a failed read, or where memory is refused, nothing
/// was written; after a failed write, a beginning of the text.
pub fn run_xa<R: Read, W: Write>(
    alloc: Global,
    reader: &mut R,
    writer: &mut W,
) -> Result<Status, Failure>
    ensures written { IfOk result (λ status. (input : List ℕ) × (text : List ℕ)
        × IsInput (R.remaining reader.old) input × IsXaReport status input text
        × Appends (W.contents writer.old) (W.contents writer.new) text) }
    ensures cut { IfErr result (λ e. e ≡ Failure.Write → (input : List ℕ)
        × (text : List ℕ) × (status : AnyStatus)
        × IsInput (R.remaining reader.old) input × IsXaReport status input text
        × WritesFront (W.contents writer.old) (W.contents writer.new) text) }
    ensures unread { IfErr result (λ e. e ≡ Failure.Read
        → Keeps (W.contents writer.old) (W.contents writer.new)) }
    ensures memory { IfErr result (λ e. e ≡ Failure.Memory
        → Keeps (W.contents writer.old) (W.contents writer.new)) }
{
    let input = read_all(alloc, reader)?;
    let (text, status) = report(alloc, &input)?;
    match write_all(writer, &text) {
        Ok(()) => Ok(status),
        Err(failure) => Err(failure),
    }
}

/// The answer to an input.
fn report(alloc: Global, input: &[u8]) -> Result<(Vec<u8>, Status), AllocError>
    ensures { IfOk result (λ r. IsXaReport r.1 input.now r.0.items) }
{
    let lines = match asking_lines(alloc, input)? {
        Ok(lines) => lines,
        Err(error) => return Ok((refusal(alloc, error)?, Status::Refused)),
    };
    match answers(alloc, &lines)? {
        Ok(text) => Ok((text, Status::Ended)),
        Err(number) => Ok((
            refusal(alloc, XaScriptError::Line(number))?,
            Status::Refused,
        )),
    }
}

/// The line of a refused script.
fn refusal(alloc: Global, error: XaScriptError) -> Result<Vec<u8>, AllocError>
    ensures { IfOk result (λ text. text.items ≡ fault_text error) }
{
    let mut out = Vec::new(alloc);
    match error {
        XaScriptError::Utf8 => push(&mut out, "error 4\n")?,
        XaScriptError::TooLong => push(&mut out, "error 5\n")?,
        XaScriptError::Line(number) => {
            push(&mut out, "error 3 ")?;
            push_number(&mut out, number as u64)?;
            push(&mut out, "\n")?;
        }
    }
    Ok(out)
}

/// The process whose manager answers.
const PROCESS: ProcessId = ProcessId(1);

/// A manager over a store in memory whose log begins with it. An error says that memory was refused: nothing
/// that is in an empty store is refused, and the device of one in memory does not fail.
#[tactic(auto, using(tree_process::proofs::Refusals::manager_refused))]
pub fn first_manager(alloc: Global) -> Result<Manager, AllocError>
    ensures { IfOk result (λ manager. IsFreshManager manager) }
{
    match KvManager::restore(alloc, MemoryStore::new(alloc), PROCESS) {
        Ok(manager) => Ok(manager),
        Err((RestoreError::Log(LogOpenError::Memory), _store)) => Err(AllocError),
        Err((RestoreError::Log(LogOpenError::Device), _store)) => unreachable!(),
        Err((RestoreError::Log(LogOpenError::Damaged(_)), _store)) => unreachable!(),
        Err((RestoreError::Log(LogOpenError::OldFormat), _store)) => unreachable!(),
        Err((RestoreError::Records(RecordsError::Memory), _store)) => Err(AllocError),
        Err((RestoreError::Records(RecordsError::Device), _store)) => unreachable!(),
        Err((RestoreError::Records(RecordsError::Unfit), _store)) => unreachable!(),
        Err((RestoreError::Records(RecordsError::Exhausted), _store)) => unreachable!(),
    }
}

/// The answers to the requests of a script's lines, one a line, and the last line, of a new manager; or the
/// number of the first line that spells no request, counted from 1.
fn answers(alloc: Global, lines: &[&str]) -> Result<Result<Vec<u8>, usize>, AllocError>
    ensures { IfOk result (λ read. MatchResult read
        (λ text. (requests : List AnyRequest) × SpellEach (call_lines (map (λ s. s.now) lines.now)) requests
        × Reports requests text.items)
        (λ number. IsFirstBadLine (map (λ s. s.now) lines.now) number)) }
{
    let mut manager = first_manager(alloc)?;
    run(alloc, &mut manager, lines)
}

/// Makes the requests of a script's lines of a manager, each as its line is read. Gives their answers, one a
/// line, and the last line; or the number of the first line that spells no request, counted from 1.
fn run(
    alloc: Global,
    manager: &mut Manager,
    lines: &[&str],
) -> Result<Result<Vec<u8>, usize>, AllocError>
    ensures { IfOk result (λ read. MatchResult read
        (λ text. (requests : List AnyRequest) × SpellEach (call_lines (map (λ s. s.now) lines.now)) requests
        × Runs manager.old manager.new requests text.items)
        (λ number. IsFirstBadLine (map (λ s. s.now) lines.now) number)) }
{
    is_sound(manager);
    let mut out = Vec::new(alloc);
    for (i, line) in lines.iter().enumerate() {
        if says_nothing(line) {
            continue;
        }
        match request_of(alloc, line)? {
            Some(request) => step(alloc, manager, &mut out, &request)?,
            None => return Ok(Err(i + 1)),
        }
    }
    push(&mut out, "end\n")?;
    Ok(Ok(out))
}

/// The records of its log can be in it and may follow one another, and there are fewer than 2^64 bytes of
/// them.
fn log_is_sound(manager: &Manager)
    ensures { HasSoundLog manager.now }
{
    manager.records_are_sound();
    manager.records_are_in_order();
    let _size = manager.log_size();
}

/// Its log is sound, its device never failed, and its associations are listed once.
fn is_sound(manager: &Manager)
    ensures { IsSoundManager manager.now }
{
    log_is_sound(manager);
    manager.never_failed();
    manager.associations_are_listed_once();
}

/// Makes a request, and adds the line of its answer.
fn step(
    alloc: Global,
    manager: &mut Manager,
    out: &mut Vec<u8>,
    request: &Request,
) -> Result<(), AllocError>
    ensures { OnOk result (RequestSteps manager.old manager.new request.now out.old.items out.new.items) }
{
    let answer = make(manager, request)?;
    is_sound(manager);
    push_answer(alloc, out, &answer)
}
