//! The engine of a node: it answers each line before it reads the next.

ghost use Rattle.std.specs.Prelude.{◌≡◌, ◌⊎◌, ℕ, [], length, IfErr, IfOk, OnOk};
ghost use Rattle.std.specs.Io.KnownBytes.{Appends, Consumes, IsAtEnd};
ghost use Rattle.report_io.specs.Streams.{WritesFront};
ghost use Rattle.std.specs.Io.BufRead.{strip_last};
ghost use Rattle.protocol_words.specs.Types.{AnyReaction};
ghost use Rattle.node_engine.specs.Answers.{state_of};
ghost use Rattle.node_answers.specs.Texts.{ok_text};
ghost use Rattle.node_engine.specs.Runs.{
  ClosesLog,
  EndedEarly,
  EndsBy,
  EndsInOrder,
  FailsToEnd,
  IsPiece,
  Known,
  LeadsTo,
  Served,
  Stand,
  Stops,
  StopsOpening,
  end_text,
  line_of,
  stand,
};

use crate::failure::NodeFailure;
use crate::serving::Serving;
use crate::witness::Witness;
use log_store::LogStore;
use node_lines::asks_end;
use protocol::Reaction;
use report_io::write_all;
use std::alloc::Global;
use std::io::{BufRead, Write};

/// How the input of a node ended.
#[derive(Clone, Copy, Debug, PartialEq, Eq)]
pub enum Ended {
    /// It has no line any more.
    Input,
    /// A line asked the node to end.
    Asked,
}

/// A line feed at the end is left out, and a carriage return before it.
fn without_end(line: &[u8]) -> &[u8]
    ensures { result.now ≡ line_of line.now }
{
    match line.split_last() {
        Some((b'\n', front)) => without_return(front),
        _ => line,
    }
}

fn without_return(line: &[u8]) -> &[u8]
    ensures { result.now ≡ strip_last 13 line.now }
{
    match line.split_last() {
        Some((b'\r', front)) => front,
        _ => line,
    }
}

/// Writes an answer.
fn write_answer<W: Write>(writer: &mut W, text: &[u8]) -> Result<(), NodeFailure>
    ensures ok { OnOk result (Appends (W.contents writer.old) (W.contents writer.new) text.now) }
    ensures err { IfErr result (λ e. (e ≡ NodeFailure.Write)
        × WritesFront (W.contents writer.old) (W.contents writer.new) text.now) }
{
    match write_all(writer, text) {
        Ok(()) => Ok(()),
        Err(_) => Err(NodeFailure::Write),
    }
}

/// Reads a line with its end; no bytes, where the input is at its end.
fn read_line<R: BufRead>(alloc: Global, reader: &mut R) -> Result<Vec<u8>, NodeFailure>
    ensures piece { IfOk result (λ line. IsPiece line.items) }
    ensures took { IfOk result (λ line.
        Consumes (R.remaining reader.old) (R.remaining reader.new) line.items) }
    ensures end { IfOk result (λ line. line.items ≡ [] → IsAtEnd (R.remaining reader.old)) }
    ensures err { IfErr result (λ e. e ≡ NodeFailure.Read) }
{
    let mut line = Vec::new(alloc);
    match reader.read_until(b'\n', &mut line) {
        Ok(_) => Ok(line),
        Err(_) => Err(NodeFailure::Read),
    }
}

/// Reads a line and answers it, but one that asks the node to end; says so where it does, or where there is
/// none.
fn serve_line<R: BufRead, W: Write, L: LogStore, N: Witness>(
    alloc: Global,
    serving: &mut Serving<L>,
    reader: &mut R,
    writer: &mut W,
    witness: &mut N,
) -> Result<Option<Ended>, NodeFailure>
    ensures leads { IfOk result (λ ended. (start : Stand) (opening : AnyReaction)
        → Served start opening (stand (R.remaining reader.old) (W.contents writer.old) (state_of serving.old))
        → LeadsTo ended start opening
        (stand (R.remaining reader.new) (W.contents writer.new) (state_of serving.new))) }
    ensures stops { IfErr result (λ e. (start : Stand) (opening : AnyReaction)
        → Served start opening (stand (R.remaining reader.old) (W.contents writer.old) (state_of serving.old))
        → Stops start opening (stand (R.remaining reader.new) (W.contents writer.new) (state_of serving.new))
        e) }
{
    let line = read_line(alloc, reader)?;
    if line.is_empty() {
        return Ok(Some(Ended::Input));
    }
    let asked = without_end(&line);
    if asks_end(asked) {
        return Ok(Some(Ended::Asked));
    }
    let text = serving.answer(asked)?;
    write_answer(writer, &text)?;
    witness.see(asked, &text);
    Ok(None)
}

/// Answers each line that is left, up to one that asks the node to end.
fn serve_lines<R: BufRead, W: Write, L: LogStore, N: Witness>(
    alloc: Global,
    serving: &mut Serving<L>,
    reader: &mut R,
    writer: &mut W,
    witness: &mut N,
) -> Result<Ended, NodeFailure>
    ensures ends { IfOk result (λ by. (start : Stand) (opening : AnyReaction)
        → Served start opening (stand (R.remaining reader.old) (W.contents writer.old) (state_of serving.old))
        → EndsBy by start opening
        (stand (R.remaining reader.new) (W.contents writer.new) (state_of serving.new))) }
    ensures stops { IfErr result (λ e. (start : Stand) (opening : AnyReaction)
        → Served start opening (stand (R.remaining reader.old) (W.contents writer.old) (state_of serving.old))
        → Stops start opening (stand (R.remaining reader.new) (W.contents writer.new) (state_of serving.new))
        e) }
{
    for _ in 0..u64::MAX {
        if let Some(ended) = serve_line(alloc, serving, reader, writer, witness)? {
            return Ok(ended);
        }
    }
    Err(NodeFailure::Read)
}

/// Writes what a process did as it opened.
fn show_opening<W: Write, L: LogStore>(
    serving: &mut Serving<L>,
    opening: &Reaction,
    writer: &mut W,
) -> Result<(), NodeFailure>
    ensures ok { OnOk result ((left : Known) → Served
        (stand left (W.contents writer.old) (state_of serving.old)) opening.now
        (stand left (W.contents writer.new) (state_of serving.new))) }
    ensures stops { IfErr result (λ e. (left : Known) → StopsOpening
        (stand left (W.contents writer.old) (state_of serving.old)) opening.now
        (stand left (W.contents writer.new) (state_of serving.new)) e) }
{
    let text = serving.show(opening)?;
    write_answer(writer, &text)
}

/// Writes what a process did as it opened, and answers each line of the input, up to one that asks it to end.
fn serve<R: BufRead, W: Write, L: LogStore, N: Witness>(
    alloc: Global,
    serving: &mut Serving<L>,
    opening: &Reaction,
    reader: &mut R,
    writer: &mut W,
    witness: &mut N,
) -> Result<Ended, NodeFailure>
    ensures ends { IfOk result (λ by. EndsBy by
        (stand (R.remaining reader.old) (W.contents writer.old) (state_of serving.old)) opening.now
        (stand (R.remaining reader.new) (W.contents writer.new) (state_of serving.new))) }
    ensures cut { IfErr result (λ e.
        StopsOpening (stand (R.remaining reader.old) (W.contents writer.old) (state_of serving.old)) opening.now
        (stand (R.remaining reader.new) (W.contents writer.new) (state_of serving.new)) e
        ⊎ Stops (stand (R.remaining reader.old) (W.contents writer.old) (state_of serving.old)) opening.now
        (stand (R.remaining reader.new) (W.contents writer.new) (state_of serving.new)) e) }
{
    match show_opening(serving, opening, writer) {
        Ok(()) => serve_lines(alloc, serving, reader, writer, witness),
        Err(failure) => Err(failure),
    }
}

/// Lets a node go. One function does it: what letting go of one means is proved once, and not at each way
/// out.
fn let_go<L: LogStore + Drop>(_serving: Serving<L>) {}

/// Lets a store go.
fn let_store_go<L: LogStore + Drop>(_store: L) {}

/// The store of a node, in which all that stands of its log is forced. Device: the device failed.
fn closed<L: LogStore + Drop>(serving: Serving<L>) -> Result<L, NodeFailure>
    ensures ok { IfOk result (ClosesLog L.bytes L.forced L.failures (state_of serving).core) }
    ensures err { IfErr result (λ e. e ≡ NodeFailure.Device) }
{
    let mut store = serving.node.into_store();
    match store.force() {
        Ok(()) => Ok(store),
        Err(_) => {
            let_store_go(store);
            Err(NodeFailure::Device)
        }
    }
}

/// Writes what is written as a node ends in order.
fn write_end<W: Write, N: Witness>(
    by: Ended,
    writer: &mut W,
    witness: &mut N,
) -> Result<(), NodeFailure>
    ensures ok { OnOk result (Appends (W.contents writer.old) (W.contents writer.new) (end_text by)) }
    ensures err { IfErr result (λ e. (e ≡ NodeFailure.Write) × ((by ≡ Ended.Asked)
        × WritesFront (W.contents writer.old) (W.contents writer.new) ok_text)) }
{
    match by {
        Ended::Input => Ok(()),
        Ended::Asked => {
            write_answer(writer, "ok\n".as_bytes())?;
            witness.see("end".as_bytes(), "ok\n".as_bytes());
            Ok(())
        }
    }
}

/// A node whose input ended: all that is in its log is forced, and after that `ok` is written, where a line
/// asked it to end.
fn finish<W: Write, L: LogStore + Drop, N: Witness>(
    serving: Serving<L>,
    by: Ended,
    writer: &mut W,
    witness: &mut N,
) -> Result<L, NodeFailure>
    ensures closes { IfOk result (ClosesLog L.bytes L.forced L.failures (state_of serving).core) }
    ensures writes { OnOk result (Appends (W.contents writer.old) (W.contents writer.new) (end_text by)) }
    ensures err { IfErr result (FailsToEnd by (W.contents writer.old) (W.contents writer.new)) }
{
    match closed(serving) {
        Err(failure) => Err(failure),
        Ok(store) => match write_end(by, writer, witness) {
            Ok(()) => Ok(store),
            Err(failure) => {
                let_store_go(store);
                Err(failure)
            }
        },
    }
}

/// Writes what a process did as it opened, and answers each line of the input: by the lines of a trace and
/// `ok`, by `refused` and a number, or by `error` where it asks for nothing. Each answer is written before
/// the next line is read, and after the records that it rests on, which are forced where the process forces
/// them. After each answer the witness sees it with its line. At the end of the input, and at a line `end`,
/// all that is in the log is forced; `end` is answered then, and nothing is read after it. Ok: so it ended,
/// and this is its store.
pub fn run_node<R: BufRead, W: Write, L: LogStore + Drop, N: Witness>(
    alloc: Global,
    mut serving: Serving<L>,
    opening: &Reaction,
    reader: &mut R,
    writer: &mut W,
    witness: &mut N,
) -> Result<L, NodeFailure>
    ensures written { IfOk result (EndsInOrder L.bytes L.forced L.failures
        (stand (R.remaining reader.old) (W.contents writer.old) (state_of serving)) opening.now
        (R.remaining reader.new) (W.contents writer.new)) }
    ensures forced { IfOk result (λ store. L.forced store ≡ length (L.bytes store)) }
    ensures cut { IfErr result (EndedEarly
        (stand (R.remaining reader.old) (W.contents writer.old) (state_of serving)) opening.now
        (R.remaining reader.new) (W.contents writer.new)) }
{
    match serve(alloc, &mut serving, opening, reader, writer, witness) {
        Ok(by) => finish(serving, by, writer, witness),
        Err(failure) => {
            let_go(serving);
            Err(failure)
        }
    }
}
