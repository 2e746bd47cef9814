//! Who may send a message.

ghost use Rattle.std.specs.Prelude.{◌≡◌};
ghost use Rattle.protocol.specs.Nodes.{is_parent};
ghost use Rattle.protocol.specs.Trees.{parent_of};
ghost use Rattle.node_lines.specs.Speakers.{goes_down, goes_up, may_speak};

use protocol::{Case, Envelope, Message, ProcessId, Tree};

/// Whether a process is the child of another one.
#[tactic(auto, unfolding(protocol::specs::Names::same_process))]
fn is_below(tree: &Tree, child: ProcessId, parent: ProcessId) -> bool
    ensures { result ≡ is_parent parent (parent_of tree.now child) }
{
    match tree.parent(child) {
        None => false,
        Some(process) => process == parent,
    }
}

/// Whether the case is the sender's, which tells its parent of it.
#[tactic(auto, unfolding(protocol::specs::Names::same_process))]
fn goes_up(tree: &Tree, envelope: &Envelope, case: &Case) -> bool
    ensures { result ≡ goes_up tree.now envelope.now case.now }
{
    case.process() == envelope.from && is_below(tree, envelope.from, envelope.to)
}

/// Whether the case is the receiver's, which is told by its parent.
#[tactic(auto, unfolding(protocol::specs::Names::same_process))]
fn goes_down(tree: &Tree, envelope: &Envelope, case: &Case) -> bool
    ensures { result ≡ goes_down tree.now envelope.now case.now }
{
    case.process() == envelope.to && is_below(tree, envelope.to, envelope.from)
}

/// Whether the sender of a message may send it to its receiver in this tree. JOIN comes from the parent whose
/// case it names, and JOINED from the child that its ticket names; works, PREPARE and an outcome come from
/// the parent, and votes, acknowledgements and questions from the child, whose ticket the case names.
#[tactic(auto, unfolding(crate::specs::Speakers::may_speak, protocol::specs::Names::same_process))]
pub fn may_speak(tree: &Tree, envelope: &Envelope) -> bool
    ensures { result ≡ may_speak tree.now envelope.now }
{
    match &envelope.message {
        Message::Join(case) => {
            case.process() == envelope.from && is_below(tree, envelope.to, envelope.from)
        }
        Message::Joined(case, ticket) => {
            case.process() == envelope.to
                && (ticket.child == envelope.from && is_below(tree, envelope.from, envelope.to))
        }
        Message::Work(case, _, _)
        | Message::Prepare(case, _)
        | Message::Commit(case)
        | Message::Abort(case) => goes_down(tree, envelope, case),
        Message::Yes(case)
        | Message::No(case)
        | Message::Read(case)
        | Message::Ack(case, _, _)
        | Message::Inquire(case) => goes_up(tree, envelope, case),
    }
}
