//! What a process sends.

ghost use Rattle.std.specs.Prelude.{◌≡◌, [], ◌∷◌, IfOk};
ghost use Rattle.protocol.specs.CoordinatorRows.{post};
ghost use Rattle.protocol.specs.Standings.{unknown_findings};
ghost use Rattle.process_state.specs.Turns.{this_version};

use protocol::{Case, Envelope, Envelopes, Finding, Findings, Message, ProcessId, Sequence};
use std::alloc::{AllocError, Global};

/// One message from the first process to the second.
pub fn one_message(
    alloc: Global,
    from: ProcessId,
    to: ProcessId,
    message: Message,
) -> Result<Envelopes, AllocError>
    ensures { IfOk result (λ messages. messages ≡ post from to message ∷ []) }
{
    let mut messages = Sequence::new(alloc);
    messages.push(Envelope { from, to, message })?;
    Ok(messages)
}

/// What is found of a case of which nothing is known: below the root its own ticket is unreported.
pub fn unknown_findings(alloc: Global, case: Case) -> Result<Findings, AllocError>
    ensures { IfOk result (λ findings. findings ≡ unknown_findings this_version case) }
{
    let mut findings = Sequence::new(alloc);
    if let Some(ticket) = case.ticket {
        findings.push(Finding::Unreported(ticket))?;
    }
    Ok(findings)
}
