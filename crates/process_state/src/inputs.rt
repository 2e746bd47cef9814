//! What a process handles.

ghost use Rattle.std.specs.Prelude.{◌≡◌};
ghost use Rattle.protocol.specs.Reactions.{act_is_listed};
ghost use Rattle.process_state.specs.Inputs.{input_of};

use protocol::{Act, Message, Tree};

/// What a process handles, lent: an act, or a message with its number in the net (from 1).
#[derive(Clone, Copy)]
pub enum InputRef<'a> {
    Act(&'a Act),
    Message(u64, &'a Message),
}

/// Whether the child that an act names is listed; a message names none.
pub fn is_listed(tree: &Tree, input: InputRef<'_>) -> bool
    ensures { result ≡ act_is_listed tree.now (input_of input.entry) }
{
    match input {
        InputRef::Act(Act::Join(_, child) | Act::Work(_, child, _)) => tree.is_listed(*child),
        _ => true,
    }
}
