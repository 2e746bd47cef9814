//! A line of the input, and what is told of it.

ghost use Rattle.std.specs.Prelude.{◌≡◌, ℕ, List, IfErr, IfOk};
ghost use Rattle.std.specs.Io.BufRead.{strip_last};
ghost use Rattle.input_lines.specs.Lines.{ReadsLine};
ghost use Rattle.node_engine.specs.Answers.{state_of};
ghost use Rattle.desk_engine.specs.Turns.{
  Asked,
  LeavesAsked,
  LeavesLine,
  LeavesProbe,
  Names,
  Probes,
  TellsLine,
  given_by,
  line_in,
  taken_by,
  told_by,
};

use input_lines::{InputLine, InputLineFault, read_line};
use log_store::LogStore;
use node_desk::{Joining, Ways, joining_in, takes};
use node_engine::{NodeFailure, Serving};
use std::alloc::{AllocError, Global};
use std::io::BufRead;

/// Why no line was read.
fn failure_of(fault: InputLineFault) -> NodeFailure {
    match fault {
        InputLineFault::Read => NodeFailure::Read,
        InputLineFault::Memory => NodeFailure::Memory,
    }
}

/// Reads the next line of the input.
pub(crate) fn next_line<R: BufRead>(alloc: Global, reader: &mut R) -> Result<InputLine, NodeFailure>
    ensures { IfOk result (λ line. ReadsLine (R.remaining reader.old) (R.remaining reader.new)
        line.kept.items line.is_fed) }
{
    match read_line(alloc, reader) {
        Ok(line) => Ok(line),
        Err(fault) => Err(failure_of(fault)),
    }
}

/// The line of nothing: a node is given it for a line that is too long.
const NOTHING: &str = "?";

/// A carriage return at the end is left out.
fn without_return(line: &[u8]) -> &[u8]
    ensures { result.now ≡ strip_last 13 line.now }
{
    match line.split_last() {
        Some((b'\r', front)) => front,
        _ => line,
    }
}

/// What was kept of a line, without a carriage return before its line feed.
fn words_of(line: &InputLine) -> &[u8]
    ensures { result.now ≡ line_in line.now.kept.items line.now.is_fed }
{
    if line.is_fed {
        without_return(&line.kept)
    } else {
        &line.kept
    }
}

/// What a node is given of a line.
pub(crate) fn given_of(line: &InputLine) -> &[u8]
    ensures { result.now ≡ given_by line.now.kept.items line.now.is_fed }
{
    if line.is_too_long() {
        NOTHING.as_bytes()
    } else {
        words_of(line)
    }
}

/// What a witness sees of a line: of one that is too long what was kept of it.
pub(crate) fn seen_of(line: &InputLine) -> &[u8] {
    if line.is_too_long() {
        &line.kept
    } else {
        words_of(line)
    }
}

/// Who joins by a line, if that is told.
fn named_in(alloc: Global, ways: Ways, line: &[u8]) -> Result<Option<Joining>, NodeFailure>
    ensures ok { IfOk result (Names ways line.now) }
    ensures err { IfErr result (λ e. e ≡ NodeFailure.Memory) }
{
    if ways.tells_joined {
        Ok(joining_in(alloc, ways.root, line)?)
    } else {
        Ok(None)
    }
}

/// Asks the node whether a child may join, if there is one: that child, if so.
fn ask_of<L: LogStore>(
    alloc: Global,
    serving: &mut Serving<L>,
    named: Option<Joining>,
) -> Result<Option<Joining>, NodeFailure>
    ensures ok { IfOk result (λ joining. (text : List ℕ)
        × Asked named (state_of serving.old) (state_of serving.new) text × (joining ≡ taken_by named text)) }
    ensures err { IfErr result (LeavesAsked named (state_of serving.old) (state_of serving.new)) }
{
    let Some(joining) = named else {
        return Ok(None);
    };
    let line = joining.join_line(alloc)?;
    let answer = serving.answer(&line)?;
    Ok(if takes(&answer) { named } else { None })
}

/// Before a line by which a child joins, if that is told, asks the node whether it may: that child, if so.
fn probe<L: LogStore>(
    alloc: Global,
    serving: &mut Serving<L>,
    ways: Ways,
    line: &[u8],
) -> Result<Option<Joining>, NodeFailure>
    ensures ok { IfOk result (Probes ways line.now (state_of serving.old) (state_of serving.new)) }
    ensures err { IfErr result (LeavesProbe ways line.now (state_of serving.old) (state_of serving.new)) }
{
    let named = named_in(alloc, ways, line)?;
    ask_of(alloc, serving, named)
}

/// What is told of an answer: before the `ok` to a line by which this child joins, that it has.
fn told_of(alloc: Global, joining: Option<Joining>, answer: Vec<u8>) -> Result<Vec<u8>, AllocError>
    ensures { IfOk result (λ told. told.items ≡ told_by joining answer.items) }
{
    let Some(joining) = joining else {
        return Ok(answer);
    };
    if answer.as_slice() != "ok\n".as_bytes() {
        return Ok(answer);
    }
    let mut told = joining.joined_line(alloc)?;
    told.extend_from_slice(&answer)?;
    Ok(told)
}

/// Gives the node a line: what is told of it.
pub(crate) fn tell_line<L: LogStore>(
    alloc: Global,
    serving: &mut Serving<L>,
    ways: Ways,
    line: &[u8],
) -> Result<Vec<u8>, NodeFailure>
    ensures ok { IfOk result (λ told.
        TellsLine ways line.now (state_of serving.old) (state_of serving.new) told.items) }
    ensures err { IfErr result (LeavesLine ways line.now (state_of serving.old) (state_of serving.new)) }
{
    let joining = probe(alloc, serving, ways, line)?;
    let answer = serving.answer(line)?;
    Ok(told_of(alloc, joining, answer)?)
}
