//! Where processes are in a tree.

ghost use Rattle.std.specs.Prelude.{◌≡◌};
ghost use Rattle.protocol.specs.Nodes.{is_child, is_leaf, is_parent, role_by, role_of};

use protocol::{Kind, ProcessId, Tree};

#[tactic(auto, unfolding(protocol::specs::Names::same_process))]
fn is_parent(parent: ProcessId, of: Option<ProcessId>) -> bool
    ensures { result ≡ is_parent parent of }
{
    match of {
        None => false,
        Some(id) => id == parent,
    }
}

/// Whether the first process is a child of the second.
#[tactic(auto, using(crate::proofs::Entries::child_of_entry))]
pub(crate) fn is_child(tree: &Tree, child: ProcessId, parent: ProcessId) -> bool
    ensures { result ≡ is_child tree.now child parent }
{
    match tree.entry(child) {
        None => false,
        Some(entry) => is_parent(parent, entry.parent),
    }
}

fn is_leaf_by(kind: Kind, parent: Option<ProcessId>) -> bool
    ensures { result ≡ is_leaf (role_by kind parent) }
{
    match (kind, parent) {
        (Kind::Manager, Some(_)) => true,
        _ => false,
    }
}

/// Whether a process is a manager with a parent.
#[tactic(auto, using(crate::proofs::Entries::leaf_of_entry))]
pub(crate) fn is_manager(tree: &Tree, id: ProcessId) -> bool
    ensures { result ≡ is_leaf (role_of tree.now id) }
{
    match tree.entry(id) {
        None => false,
        Some(entry) => is_leaf_by(entry.kind, entry.parent),
    }
}
