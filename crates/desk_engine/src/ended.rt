//! A node ends in order.

ghost use Rattle.std.specs.Prelude.{◌≡◌, [], length, IfErr, IfOk, OnErr, OnOk};
ghost use Rattle.std.specs.Io.KnownBytes.{Appends};
ghost use Rattle.report_io.specs.Streams.{WritesFront};
ghost use Rattle.node_engine.specs.Answers.{state_of};
ghost use Rattle.node_engine.specs.Runs.{ClosesLog, end_text};

use crate::telling::{secure, write_text};
use log_store::LogStore;
use node_engine::{Ended, Nobody, NodeFailure, Serving, Witness, run_node};
use protocol::{Reaction, Sequence};
use staged_store::Backing;
use std::alloc::Global;
use std::io::Write;

/// A reaction with nothing in it.
fn nothing(alloc: Global) -> Reaction
    ensures { result.messages ≡ [] }
{
    Reaction {
        begun: None,
        written: Sequence::new(alloc),
        told: None,
        messages: Sequence::new(alloc),
        kept: None,
    }
}

/// The store of a node, in which all that is in its log is forced: a node that is given no line ends so.
fn closed<L: LogStore + Drop>(alloc: Global, serving: Serving<L>) -> Result<L, NodeFailure>
    ensures closes { IfOk result (ClosesLog L.bytes L.forced L.failures (state_of serving).core) }
    ensures forced { IfOk result (λ store. L.forced store ≡ length (L.bytes store)) }
{
    let mut written = Vec::new(alloc);
    let opening = nothing(alloc);
    run_node(
        alloc,
        serving,
        &opening,
        &mut "".as_bytes(),
        &mut written,
        &mut Nobody,
    )
}

/// Lets a store go.
fn let_store_go<L: LogStore + Drop>(_store: L) {}

/// Writes what is written as a node ends in order.
fn write_end<W: Write, N: Witness>(
    by: Ended,
    writer: &mut W,
    witness: &mut N,
) -> Result<(), NodeFailure>
    ensures ok { OnOk result (Appends (W.contents writer.old) (W.contents writer.new) (end_text by)) }
    ensures err { OnErr result (WritesFront (W.contents writer.old) (W.contents writer.new) (end_text by)) }
{
    match by {
        Ended::Input => Ok(()),
        Ended::Asked => {
            write_text(writer, "ok\n".as_bytes())?;
            witness.see("end".as_bytes(), "ok\n".as_bytes());
            Ok(())
        }
    }
}

/// Makes safe what the store of a node that ended promised, and writes what is written then.
fn tell_end<W: Write, L: LogStore, N: Witness, B: Backing<L>>(
    store: &L,
    backing: &mut B,
    by: Ended,
    writer: &mut W,
    witness: &mut N,
) -> Result<(), NodeFailure>
    ensures ok { OnOk result (Appends (W.contents writer.old) (W.contents writer.new) (end_text by)) }
    ensures safe { OnOk result (B.brings backing.old backing.new store.now) }
    ensures err { OnErr result (WritesFront (W.contents writer.old) (W.contents writer.new) (end_text by)) }
{
    secure(store, backing)?;
    write_end(by, writer, witness)
}

/// A node whose input ended: all that is in its log is forced and made safe, and after that `ok` is written,
/// if a line asked it to end.
pub(crate) fn finish<W: Write, L: LogStore + Drop, N: Witness, B: Backing<L>>(
    alloc: Global,
    serving: Serving<L>,
    backing: &mut B,
    by: Ended,
    writer: &mut W,
    witness: &mut N,
) -> Result<L, NodeFailure>
    ensures closes { IfOk result (ClosesLog L.bytes L.forced L.failures (state_of serving).core) }
    ensures forced { IfOk result (λ store. L.forced store ≡ length (L.bytes store)) }
    ensures safe { IfOk result (λ store. B.brings backing.old backing.new store) }
    ensures writes { OnOk result (Appends (W.contents writer.old) (W.contents writer.new) (end_text by)) }
    ensures err { OnErr result (WritesFront (W.contents writer.old) (W.contents writer.new) (end_text by)) }
{
    match closed(alloc, serving) {
        Err(failure) => Err(failure),
        Ok(store) => match tell_end(&store, backing, by, writer, witness) {
            Ok(()) => Ok(store),
            Err(failure) => {
                let_store_go(store);
                Err(failure)
            }
        },
    }
}
