//! How a log stands, and which lines a node knows.

ghost use Rattle.std.specs.Prelude.{◌≡◌, ◌++◌, IfOk, OnOk, codes};
ghost use Rattle.std.specs.Fmt.{decimal};
ghost use Rattle.node_answers.specs.Texts.{help_text, status_text};

use std::alloc::{AllocError, Global};
use trace_lines::{push, push_number};

/// How a log stands.
#[derive(Clone, Copy)]
pub struct NodeStatus {
    /// The boot of its process.
    pub boot: u64,
    /// How many records it has.
    pub records: u64,
    /// How many of them are not forced.
    pub unforced: u64,
    /// How many bytes it has.
    pub bytes: u64,
    /// How many cases are in doubt by it.
    pub doubts: u64,
    /// How many cases an operator decided that wait to be told.
    pub decided: u64,
}

/// Adds words and a number.
fn push_count(out: &mut Vec<u8>, words: &str, number: u64) -> Result<(), AllocError>
    ensures { OnOk result (out.new.items ≡ out.old.items ++ (words.now ++ decimal number)) }
{
    push(out, words)?;
    push_number(out, number)
}

/// How a log stands, and `ok`.
pub fn status_text(alloc: Global, status: &NodeStatus) -> Result<Vec<u8>, AllocError>
    ensures { IfOk result (λ text. text.items ≡ status_text status.now) }
{
    let mut out = Vec::new(alloc);
    push_count(&mut out, "status boot ", status.boot)?;
    push_count(&mut out, " records ", status.records)?;
    push_count(&mut out, " unforced ", status.unforced)?;
    push_count(&mut out, " bytes ", status.bytes)?;
    push_count(&mut out, " in-doubt ", status.doubts)?;
    push_count(&mut out, " decided ", status.decided)?;
    push(&mut out, "\n")?;
    push(&mut out, "ok\n")?;
    Ok(out)
}

/// The lines that a node knows, and `ok`.
pub fn help_text(alloc: Global) -> Result<Vec<u8>, AllocError>
    ensures { IfOk result (λ text. text.items ≡ help_text) }
{
    let mut out = Vec::new(alloc);
    push(
        &mut out,
        "begin pa|pc\njoin CASE CHILD\nwork CASE CHILD put KEY VALUE|get KEY|del KEY\n",
    )?;
    push(
        &mut out,
        "commit TXN\nabort TXN\nask CASE\nheur CASE commit|rollback\nforget CASE\n",
    )?;
    push(
        &mut out,
        "N F->T MESSAGE\ntrim\ndoubt\noutcome TXN\nagain CASE\nresolve NAME\n",
    )?;
    push(&mut out, "status\nlog\ndata\nhelp\nend\n")?;
    push(&mut out, "ok\n")?;
    Ok(out)
}
