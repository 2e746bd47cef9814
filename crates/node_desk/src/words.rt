//! Lines of the desk's own, and what it tells of their answers.

ghost use Rattle.std.specs.Prelude.{◌≡◌, IfOk};
ghost use Rattle.node_desk.specs.Words.{ask_line, messages_in, takes};

use protocol::Case;
use std::alloc::{AllocError, Global};
use trace_lines::{push, push_case};

/// The line that trims a log.
pub const TRIM: &str = "trim";

/// The line that asks about a case.
pub fn ask_line(alloc: Global, case: &Case) -> Result<Vec<u8>, AllocError>
    ensures { IfOk result (λ line. line.items ≡ ask_line case.now) }
{
    let mut line = Vec::new(alloc);
    push(&mut line, "ask ")?;
    push_case(&mut line, case)?;
    Ok(line)
}

/// What an answer says before its `ok`; of a refusal nothing.
pub fn messages_in(answer: &[u8]) -> &[u8]
    ensures { result.now ≡ messages_in answer.now }
{
    match answer.strip_suffix("ok\n".as_bytes()) {
        Some(messages) => messages,
        None => &[],
    }
}

/// Whether an answer has a message before its `ok`.
pub fn takes(answer: &[u8]) -> bool
    ensures { result ≡ takes answer.now }
{
    !messages_in(answer).is_empty()
}
