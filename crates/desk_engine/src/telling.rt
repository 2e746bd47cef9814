//! What is told is written, once what it rests on is safe.

ghost use Rattle.std.specs.Prelude.{◌≡◌, IfErr, OnOk};
ghost use Rattle.std.specs.Io.KnownBytes.{Appends};
ghost use Rattle.report_io.specs.Streams.{WritesFront};
ghost use Rattle.node_engine.specs.Answers.{state_of};
ghost use Rattle.desk_engine.specs.Groups.{BroughtUp};
ghost use Rattle.desk_engine.specs.Turns.{IsHeldBack};

use log_store::{LogStore, StoreError};
use node_engine::{NodeFailure, Serving};
use report_io::write_all;
use staged_store::Backing;
use std::io::Write;

/// Writes a text.
pub(crate) fn write_text<W: Write>(writer: &mut W, text: &[u8]) -> Result<(), NodeFailure>
    ensures ok { OnOk result (Appends (W.contents writer.old) (W.contents writer.new) text.now) }
    ensures err { IfErr result (λ e. (e ≡ NodeFailure.Write)
        × WritesFront (W.contents writer.old) (W.contents writer.new) text.now) }
{
    match write_all(writer, text) {
        Ok(()) => Ok(()),
        Err(_) => Err(NodeFailure::Write),
    }
}

/// Makes safe what a store promised.
pub(crate) fn secure<L: LogStore, B: Backing<L>>(
    store: &L,
    backing: &mut B,
) -> Result<(), NodeFailure>
    ensures ok { OnOk result (B.brings backing.old backing.new store.now) }
    ensures err { IfErr result IsHeldBack }
{
    match backing.bring_up(store) {
        Ok(()) => Ok(()),
        Err(StoreError::Memory) => Err(NodeFailure::Memory),
        Err(StoreError::Device) => Err(NodeFailure::Device),
    }
}

/// Makes safe what the store of a node promised.
pub(crate) fn bring_up<L: LogStore, B: Backing<L>>(
    serving: &Serving<L>,
    backing: &mut B,
) -> Result<(), NodeFailure>
    ensures ok { OnOk result
        (BroughtUp B.brings L.bytes L.forced L.failures backing.old backing.new (state_of serving.now)) }
    ensures err { IfErr result IsHeldBack }
{
    secure(serving.node().store(), backing)
}

/// Writes a text, once what it rests on is safe.
pub(crate) fn tell<W: Write, L: LogStore, B: Backing<L>>(
    serving: &Serving<L>,
    backing: &mut B,
    writer: &mut W,
    text: &[u8],
) -> Result<(), NodeFailure>
    ensures ok { OnOk result (Appends (W.contents writer.old) (W.contents writer.new) text.now) }
    ensures safe { OnOk result
        (BroughtUp B.brings L.bytes L.forced L.failures backing.old backing.new (state_of serving.now)) }
    ensures err { IfErr result (λ e. IsHeldBack e
        × WritesFront (W.contents writer.old) (W.contents writer.new) text.now) }
{
    bring_up(serving, backing)?;
    write_text(writer, text)
}
