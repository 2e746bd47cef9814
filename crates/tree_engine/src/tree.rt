//! The engine of tree scripts.

ghost use Rattle.std.specs.Prelude.{◌≡◌, ◌⊎◌, ℕ, [], List, IfErr, IfOk, Ok, OnOk, string_bytes};
ghost use Rattle.std.specs.Io.KnownBytes.{Appends, Keeps};
ghost use Rattle.protocol_words.specs.Types.{AnyEvent};
ghost use Rattle.tree_script.specs.Inputs.{AsksFirst, IsLineError, asked_by};
ghost use Rattle.report_io.specs.declared.status.Status.{Status as AnyStatus};
ghost use Rattle.report_io.specs.Streams.{IsInput, IsOfRun, WritesFront};
ghost use Rattle.tree_world.specs.Worlds.{state};
ghost use Rattle.tree_engine.specs.declared.tree.TreeOutput.TheVariants as output;
ghost use Rattle.tree_engine.specs.Failures.{BreaksOff, CannotReport, IsBeyond, IsStop, ScriptBreaksOff};
ghost use Rattle.protocol.specs.Trees.{IsTree};
ghost use Rattle.tree_engine.specs.Reports.{IsFirstFault, IsInputFault, IsTreeReport};
ghost use Rattle.tree_engine.specs.Runs.{BeginsBy, HasCome, HasPlayed, IsDamageBy, PlaysScript};
ghost use Rattle.tree_engine.specs.Trees.{IsNumberedRefusal, Tells, ending, fault_text, output_of};

use crate::counting::counted_trace;
use crate::drawn::draw_run;
use crate::logs::left_text;
use crate::run::{Refusal, Run};
use crate::trace::trace_text;
use log_script::{ProcessLogs, damaged};
use log_store::MemoryStore;
use protocol::{ProcessId, Tree};
use reopen_script::{open_reopen, read_reopen};
use report_io::{Failure, Status, read_all, write_all};
use std::alloc::{AllocError, Global};
use std::io::{Read, Write};
use tree_script::{Lines, ScriptError, ScriptFault};
use tree_world::World;

/// What is written of a run.
#[derive(Clone, Copy, PartialEq, Eq)]
pub enum TreeOutput {
    /// Its trace: what each step logs, sends and tells.
    Trace,
    /// Where every event was made, the tree and the logs that its processes keep; else the trace.
    Logs,
    /// Its trace, and after it a line for each process with how many records it wrote and messages it sent,
    /// and one with the sums.
    Counts,
    /// A picture of it, as one SVG file.
    Picture,
}

/// What is written in lines of text.
#[derive(Clone, Copy, PartialEq, Eq)]
enum LineOutput {
    Trace,
    Logs,
    Counts,
}

/// Reads a tree script, makes its events, and writes the trace, with the counts after it where they are
/// asked for, or the logs, or a picture; or one line that says why the script is refused. A refused event
/// ends the trace by its number and why it was refused.
///
/// What is written is that of the run of just the script's events in the model; a refused event is one that
/// the model refuses by that number. In this run no two processes end one transaction differently except by
/// an operator's decision; commit is decided only where every participant voted yes or read-only; every
/// answer that finds its asker in doubt tells the root's outcome; a mismatch stands until it is forgotten;
/// an operator's record comes from an operator alone; and each End of the root reports mismatches truly (R*).
/// After a failed read, or where memory is refused, a device fails or numbers are used up, nothing was
/// written; after a failed write, a beginning of the text. Device and Exhausted come only where an event that
/// the script asks for stops the tree for that reason, or where the messages come to 2^64 or more, a sum of
/// the counts does, or the picture may have 2^32 rows.
pub fn run_tree<R: Read, W: Write>(
    alloc: Global,
    output: TreeOutput,
    reader: &mut R,
    writer: &mut W,
) -> Result<Status, Failure>
    ensures written { IfOk result (λ status. (input : List ℕ) × (text : List ℕ)
        × IsInput (R.remaining reader.old) input × IsTreeReport output status input text
        × Appends (W.contents writer.old) (W.contents writer.new) text) }
    ensures cut { IfErr result (λ e. e ≡ Failure.Write → (input : List ℕ)
        × (text : List ℕ) × (status : AnyStatus)
        × IsInput (R.remaining reader.old) input × IsTreeReport output status input text
        × WritesFront (W.contents writer.old) (W.contents writer.new) text) }
    ensures unread { IfErr result (λ e. e ≡ Failure.Read
        → Keeps (W.contents writer.old) (W.contents writer.new)) }
    ensures unmade { IfErr result (λ e. IsOfRun e
        → Keeps (W.contents writer.old) (W.contents writer.new)) }
    ensures stopped { IfErr result (λ e. IsStop e → (input : List ℕ)
        × IsInput (R.remaining reader.old) input × CannotReport output input e) }
{
    let input = read_all(alloc, reader)?;
    let (text, status) = report(alloc, output, &input)?;
    match write_all(writer, &text) {
        Ok(()) => Ok(status),
        Err(failure) => Err(failure),
    }
}

/// The answer to an input.
fn report(alloc: Global, output: TreeOutput, input: &[u8]) -> Result<(Vec<u8>, Status), Failure>
    ensures report { IfOk result (λ r. IsTreeReport output r.1 input.now r.0.items) }
    ensures err { IfErr result (λ why. (why ≡ Failure.Memory) ⊎ CannotReport output input.now why) }
    ensures why { IfErr result IsOfRun }
{
    match output {
        TreeOutput::Picture => picture_report(alloc, input),
        TreeOutput::Trace => line_report(alloc, LineOutput::Trace, input),
        TreeOutput::Logs => line_report(alloc, LineOutput::Logs, input),
        TreeOutput::Counts => line_report(alloc, LineOutput::Counts, input),
    }
}

/// The picture of the run of a script, or what is wrong with it.
fn picture_report(alloc: Global, input: &[u8]) -> Result<(Vec<u8>, Status), Failure>
    ensures report { IfOk result (λ r. IsTreeReport TreeOutput.Picture r.1 input.now r.0.items) }
    ensures err { IfErr result (λ why. (why ≡ Failure.Memory)
        ⊎ CannotReport TreeOutput.Picture input.now why) }
    ensures why { IfErr result IsOfRun }
{
    let (tree, logs, events) = match read_reopen(alloc, input) {
        Ok(script) => script,
        Err(error) => return Ok((refusal(alloc, fault_of(error)?)?, Status::Refused)),
    };
    match opened(alloc, tree, logs)? {
        Ok(run) => draw_run(alloc, run, &events),
        Err((process, place)) => Ok((damaged(alloc, process, place)?, Status::Refused)),
    }
}

/// The answer to an input in lines of text.
fn line_report(
    alloc: Global,
    output: LineOutput,
    input: &[u8],
) -> Result<(Vec<u8>, Status), Failure>
    ensures report { IfOk result (λ r. IsTreeReport (output_of output) r.1 input.now r.0.items) }
    ensures err { IfErr result (λ why. (why ≡ Failure.Memory)
        ⊎ CannotReport (output_of output) input.now why) }
    ensures why { IfErr result IsOfRun }
{
    match play(alloc, input)? {
        Ok(run) => {
            let told = told(alloc, output, run.world(), run.refusal());
            run.close();
            told
        }
        Err(InputFault::Script(fault)) => Ok((refusal(alloc, fault)?, Status::Refused)),
        Err(InputFault::Damaged(process, place)) => {
            Ok((damaged(alloc, process, place)?, Status::Refused))
        }
    }
}

/// The bytes of a line.
fn bytes_of(alloc: Global, line: &String) -> Result<Vec<u8>, AllocError>
    ensures { IfOk result (λ v. v.items ≡ string_bytes line.now) }
{
    Vec::from_slice(alloc, line.as_bytes())
}

/// The line of a refused script.
pub fn refusal(alloc: Global, fault: ScriptFault) -> Result<Vec<u8>, AllocError>
    ensures { IfOk result (λ v. v.items ≡ fault_text fault) }
{
    let line = refusal_line(alloc, fault)?;
    bytes_of(alloc, &line)
}

fn refusal_line(alloc: Global, fault: ScriptFault) -> Result<String, AllocError>
    ensures { IfOk result (λ line. string_bytes line ≡ fault_text fault) }
{
    match fault {
        ScriptFault::TreeText => String::from_str(alloc, "error 1\n"),
        ScriptFault::Tree(cause) => {
            let number = cause.number();
            format!(in alloc; "error 2 {number}\n")
        }
        ScriptFault::Line(number) => format!(in alloc; "error 3 {number}\n"),
        ScriptFault::Utf8 => String::from_str(alloc, "error 4\n"),
        ScriptFault::TooLong => String::from_str(alloc, "error 5\n"),
    }
}

/// What is wrong with a script that could not be read; else memory was refused.
fn fault_of(error: ScriptError) -> Result<ScriptFault, Failure>
    ensures fault { IfOk result (λ fault. error ≡ ScriptError.Fault fault) }
    ensures memory { IfErr result (λ e. e ≡ Failure.Memory) }
{
    match error {
        ScriptError::Fault(fault) => Ok(fault),
        ScriptError::Memory => Err(Failure::Memory),
    }
}

/// What is wrong with an input: with its script, or with one of the logs that it begins with.
#[derive(Clone, Copy, PartialEq, Eq)]
enum InputFault {
    Script(ScriptFault),
    Damaged(ProcessId, usize),
}

/// A tree that opens over these logs, or over empty ones if there are none; or the first log that is damaged,
/// and where. The tree is one that passed its check.
pub fn opened(
    alloc: Global,
    tree: Tree,
    logs: Option<ProcessLogs>,
) -> Result<Result<Run, (ProcessId, usize)>, Failure>
    requires { IsTree tree }
    ensures begins { IfOk result (λ opened. IfOk opened (BeginsBy tree logs)) }
    ensures damage { IfOk result (λ opened. IfErr opened (λ d. IsDamageBy tree logs d.0 d.1)) }
    ensures memory { IfErr result (λ e. e ≡ Failure.Memory) }
{
    match logs {
        None => Ok(Ok(Run::open(alloc, tree)?)),
        Some(logs) => Run::reopen(alloc, tree, logs.as_slice()),
    }
}

/// Reads a script, and makes the event of each line as it is read; or tells what is wrong with it.
fn play(alloc: Global, input: &[u8]) -> Result<Result<Run, InputFault>, Failure>
    ensures run { IfOk result (λ played. IfOk played (PlaysScript input.now)) }
    ensures fault { IfOk result (λ played. IfErr played (IsInputFault input.now)) }
    ensures err { IfErr result (λ why. (why ≡ Failure.Memory) ⊎ ScriptBreaksOff input.now why) }
    ensures why { IfErr result IsOfRun }
{
    let (tree, logs, lines) = match open_reopen(alloc, input) {
        Ok(script) => script,
        Err(error) => return Ok(Err(InputFault::Script(fault_of(error)?))),
    };
    let run = match opened(alloc, tree, logs)? {
        Ok(run) => run,
        Err((process, place)) => return Ok(Err(first_fault(alloc, &lines, process, place)?)),
    };
    match play_lines(alloc, run, &lines)? {
        Ok(run) => Ok(Ok(run)),
        Err(fault) => Ok(Err(InputFault::Script(fault))),
    }
}

/// Makes the event of each of these lines in a tree that has just opened; or tells the first line that is not
/// an event.
fn play_lines(alloc: Global, run: Run, lines: &Lines) -> Result<Result<Run, ScriptFault>, Failure>
    requires { HasCome (state run.world) [] run }
    ensures run { IfOk result (λ played. IfOk played (λ end. HasPlayed run end lines.now)) }
    ensures fault { IfOk result (λ played. IfErr played
        (λ fault. IsLineError (ScriptError.Fault fault) (asked_by lines.now))) }
    ensures err { IfErr result (λ why. (why ≡ Failure.Memory) ⊎ ((count : ℕ) × (events : List AnyEvent)
        × AsksFirst lines.now count events × BreaksOff (state run.world) events why)) }
    ensures why { IfErr result IsOfRun }
{
    let mut run = run;
    match make_lines(alloc, &mut run, lines) {
        Ok(Ok(())) => Ok(Ok(run)),
        Ok(Err(fault)) => {
            run.close();
            Ok(Err(fault))
        }
        Err(failure) => {
            run.close();
            Err(failure)
        }
    }
}

/// Makes the event of each of these lines in a tree that has just opened; or tells the first line that is not
/// an event.
fn make_lines(
    alloc: Global,
    run: &mut Run,
    lines: &Lines,
) -> Result<Result<(), ScriptFault>, Failure>
    requires { HasCome (state run.old.world) [] run.old }
    ensures over { run.new.world.reopened ≡ run.old.world.reopened }
    ensures made { IfOk result (λ made. OnOk made ((events : List AnyEvent)
        × (asked_by lines.now ≡ Ok events) × HasCome (state run.old.world) events run.new)) }
    ensures fault { IfOk result (λ made. IfErr made
        (λ fault. IsLineError (ScriptError.Fault fault) (asked_by lines.now))) }
    ensures err { IfErr result (λ why. (why ≡ Failure.Memory) ⊎ ((count : ℕ) × (events : List AnyEvent)
        × AsksFirst lines.now count events × BreaksOff (state run.old.world) events why)) }
    ensures why { IfErr result IsOfRun }
{
    for place in 0..lines.len() {
        match lines.event(alloc, place) {
            Err(error) => return Ok(Err(fault_of(error)?)),
            Ok(None) => continue,
            Ok(Some(event)) => run.make(event)?,
        }
    }
    Ok(Ok(()))
}

/// What is wrong with an input one of whose logs is damaged there: a line that is not an event comes first.
fn first_fault(
    alloc: Global,
    lines: &Lines,
    process: ProcessId,
    place: usize,
) -> Result<InputFault, Failure>
    ensures fault { IfOk result (λ fault. IsFirstFault process place (asked_by lines.now) fault) }
    ensures memory { IfErr result (λ e. e ≡ Failure.Memory) }
{
    match lines.events(alloc) {
        Ok(_events) => Ok(InputFault::Damaged(process, place)),
        Err(error) => Ok(InputFault::Script(fault_of(error)?)),
    }
}

/// What is written of the tree that has come so far, and how its run ended.
fn told(
    alloc: Global,
    output: LineOutput,
    world: &World<MemoryStore>,
    refusal: Refusal,
) -> Result<(Vec<u8>, Status), Failure>
    requires { IsNumberedRefusal refusal }
    ensures text { IfOk result (λ r. (events : List AnyEvent) → Tells world.now.reopened (output_of output)
        events (state world.now) refusal r.0.items) }
    ensures status { IfOk result (λ r. r.1 ≡ ending refusal) }
    ensures err { IfErr result (λ why. (why ≡ Failure.Memory) ⊎ ((why ≡ Failure.Exhausted)
        × ((events : List AnyEvent) → IsBeyond (output_of output) events (state world.now)))) }
{
    match output {
        LineOutput::Trace => trace_text(alloc, world, refusal),
        LineOutput::Counts => counted_trace(alloc, world, refusal),
        LineOutput::Logs => match refusal {
            None => Ok((left_text(alloc, world)?, Status::Ended)),
            Some(_) => trace_text(alloc, world, refusal),
        },
    }
}
