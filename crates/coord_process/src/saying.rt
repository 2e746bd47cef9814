//! Reactions that move nothing, and the one of a transaction that begins.

ghost use Rattle.std.specs.Prelude.{◌≡◌, [], ◌∷◌, IfOk};
ghost use Rattle.protocol.specs.Names.{child_case, presumed};
ghost use Rattle.protocol.specs.Nodes.{no_effect, reaction_of};
ghost use Rattle.protocol.specs.CoordinatorRows.{post, tells_outcome};
ghost use Rattle.protocol.specs.Reactions.{sends_only};
ghost use Rattle.protocol.specs.Views.{begin_effect};

use coord_rows::{OwnCase, RowEffect, unknown_inquiry};
use protocol::{Case, Envelope, Message, ProcessId, Reaction, Sequence, Ticket, Txn};
use std::alloc::{AllocError, Global};

/// Nothing. It takes no memory.
pub(crate) fn nothing(alloc: Global) -> Reaction
    ensures { result ≡ reaction_of no_effect }
{
    RowEffect::quiet(alloc).reaction()
}

/// A transaction began.
pub(crate) fn began(alloc: Global, txn: Txn) -> Reaction
    ensures { result ≡ reaction_of (begin_effect txn) }
{
    let mut reaction = nothing(alloc);
    reaction.begun = Some(txn);
    reaction
}

/// JOINED to the parent: this ticket is for this case of it.
pub(crate) fn joined(
    alloc: Global,
    me: ProcessId,
    parent: ProcessId,
    case: Case,
    ticket: Ticket,
) -> Result<Reaction, AllocError>
    ensures { IfOk result (λ reaction. reaction
        ≡ reaction_of (sends_only (post me parent (Message.Joined case ticket) ∷ []))) }
{
    let mut messages = Sequence::new(alloc);
    messages.push(Envelope {
        from: me,
        to: parent,
        message: Message::Joined(case, ticket),
    })?;
    Ok(RowEffect::sends(alloc, messages).reaction())
}

/// To a child of which nothing is known: the outcome that is presumed.
pub(crate) fn presumes(
    alloc: Global,
    me: ProcessId,
    txn: Txn,
    ticket: Ticket,
) -> Result<Reaction, AllocError>
    ensures { IfOk result (λ reaction. reaction ≡ reaction_of (sends_only
        (post me ticket.child (tells_outcome (presumed txn.presumption) (child_case txn ticket)) ∷ []))) }
{
    let case = Case { txn, ticket: None };
    let seat = OwnCase {
        me,
        parent: None,
        case,
    };
    Ok(unknown_inquiry(alloc, seat, ticket)?.reaction())
}
