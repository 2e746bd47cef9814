//! Reactions of a subordinate: at most one record and one message.

ghost use Rattle.std.specs.Prelude.{◌≡◌, IfOk, [], ◌∷◌};
ghost use Rattle.protocol.specs.CoordinatorRows.{post};
ghost use Rattle.protocol.specs.declared.records.Subject.TheVariants as subject;
ghost use Rattle.sub_work.specs.Replies.{shown};

use process_state::one_message;
use protocol::{Case, Message, ProcessId, Reaction, RecordKind, Sequence, ShownRecord, Subject};
use std::alloc::{AllocError, Global};

/// A reaction that shows nothing. It takes no memory.
pub fn silence(alloc: Global) -> Reaction
    ensures { result ≡ shown [] [] }
{
    Reaction {
        begun: None,
        written: Sequence::new(alloc),
        told: None,
        messages: Sequence::new(alloc),
        kept: None,
    }
}

/// A reaction with one message.
pub fn reply(
    alloc: Global,
    from: ProcessId,
    to: ProcessId,
    message: Message,
) -> Result<Reaction, AllocError>
    ensures { IfOk result (λ reaction. reaction ≡ shown [] (post from to message ∷ [])) }
{
    let messages = one_message(alloc, from, to, message)?;
    Ok(Reaction {
        messages,
        ..silence(alloc)
    })
}

/// The record of a branch, as a reaction shows it.
pub fn logged(
    alloc: Global,
    kind: RecordKind,
    case: Case,
    forced: bool,
) -> Result<Sequence<ShownRecord>, AllocError>
    ensures { IfOk result (λ written. written
        ≡ record { kind = kind; subject = subject.Case case; forced = forced } ∷ []) }
{
    let mut written = Sequence::new(alloc);
    written.push(ShownRecord {
        kind,
        subject: Subject::Case(case),
        forced,
    })?;
    Ok(written)
}
