//! The line of a refused input, and of a damaged log.

ghost use Rattle.std.specs.Prelude.{◌≡◌, IfOk};
ghost use Rattle.log_script.specs.Faults.{damage_text, fault_text};

use protocol::ProcessId;
use std::alloc::{AllocError, Global};
use trace_lines::{push, push_number};
use tree_script::ScriptFault;

/// The line of a refused input.
pub fn refusal(alloc: Global, fault: ScriptFault) -> Result<Vec<u8>, AllocError>
    ensures { IfOk result (λ text. text.items ≡ fault_text fault) }
{
    let mut out = Vec::new(alloc);
    match fault {
        ScriptFault::TreeText => push(&mut out, "error 1\n")?,
        ScriptFault::Tree(cause) => {
            push(&mut out, "error 2 ")?;
            push_number(&mut out, u64::from(cause.number()))?;
            push(&mut out, "\n")?;
        }
        ScriptFault::Line(number) => {
            push(&mut out, "error 3 ")?;
            push_number(&mut out, number)?;
            push(&mut out, "\n")?;
        }
        ScriptFault::Utf8 => push(&mut out, "error 4\n")?,
        ScriptFault::TooLong => push(&mut out, "error 5\n")?,
    }
    Ok(out)
}

/// The line of a damaged log.
pub fn damaged(alloc: Global, process: ProcessId, place: usize) -> Result<Vec<u8>, AllocError>
    ensures { IfOk result (λ text. text.items ≡ damage_text process place) }
{
    let mut out = Vec::new(alloc);
    push(&mut out, "damaged ")?;
    push_number(&mut out, u64::from(process.0))?;
    push(&mut out, " ")?;
    push_number(&mut out, place as u64)?;
    push(&mut out, "\n")?;
    Ok(out)
}
