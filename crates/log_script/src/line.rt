//! The line of a process's log.

ghost use Rattle.std.specs.Prelude.{◌≡◌, IfOk};
ghost use Rattle.log_script.specs.Lines.{bytes_at, log_at};

use protocol::{ProcessId, Sequence};
use spellings::hexadecimal::{decode, is_hexadecimal};
use spellings::word::cut;
use std::alloc::{AllocError, Global};
use tree_script::process_of;

/// The bytes of a process's log.
#[derive(Drop)]
pub struct ProcessLog {
    pub process: ProcessId,
    pub bytes: Sequence<u8>,
}

/// Logs of processes, in the order of their lines.
pub type ProcessLogs = Sequence<ProcessLog>;

/// The bytes that a word spells in hexadecimal, at least one.
#[tactic(auto, unfolding(crate::specs::Lines::bytes_at))]
fn decoded(alloc: Global, digits: &str) -> Result<Option<Sequence<u8>>, AllocError>
    ensures { IfOk result (λ bytes. bytes ≡ bytes_at digits.now) }
{
    if digits.is_empty() {
        return Ok(None);
    }
    if !is_hexadecimal(digits) {
        return Ok(None);
    }
    let mut bytes = vec![in alloc; 0u8; digits.len() / 2]?;
    decode(digits, &mut bytes);
    Ok(Some(Sequence::from_vec(bytes)))
}

/// The log of a line: `log`, the process, and its bytes in hexadecimal if there are any.
#[tactic(auto, unfolding(crate::specs::Lines::log_at))]
pub fn log_of(alloc: Global, line: &str) -> Result<Option<ProcessLog>, AllocError>
    ensures { IfOk result (λ log. log ≡ log_at line.now) }
{
    let Some((word, rest)) = cut(line, ' ') else {
        return Ok(None);
    };
    if word != "log" {
        return Ok(None);
    }
    let Some((process, digits)) = cut(rest, ' ') else {
        let Some(process) = process_of(rest) else {
            return Ok(None);
        };
        return Ok(Some(ProcessLog {
            process,
            bytes: Sequence::new(alloc),
        }));
    };
    let Some(process) = process_of(process) else {
        return Ok(None);
    };
    match decoded(alloc, digits)? {
        None => Ok(None),
        Some(bytes) => Ok(Some(ProcessLog { process, bytes })),
    }
}
