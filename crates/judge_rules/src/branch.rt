//! Lists of states.

ghost use Rattle.std.specs.Prelude.{◌≡◌, ◌++◌, ◌∷◌, [], IfOk};
ghost use Rattle.judge_rules.specs.Passes.{one, one_if};

use judge_state::State;
use std::alloc::{AllocError, Global};

/// One state.
pub(crate) fn one(alloc: Global, state: State) -> Result<Vec<State>, AllocError>
    ensures { IfOk result (λ v. v.items ≡ one state) }
{
    let mut states = Vec::new(alloc);
    states.push(state)?;
    Ok(states)
}

/// Two states.
pub(crate) fn two(alloc: Global, first: State, second: State) -> Result<Vec<State>, AllocError>
    ensures { IfOk result (λ v. v.items ≡ first ∷ second ∷ []) }
{
    let mut states = Vec::new(alloc);
    states.push(first)?;
    states.push(second)?;
    Ok(states)
}

/// This state once more, if this holds.
pub(crate) fn same_if(alloc: Global, holds: bool, state: &State) -> Result<Vec<State>, AllocError>
    ensures { IfOk result (λ v. v.items ≡ one_if holds state.now) }
{
    if holds {
        one(alloc, state.copied(alloc)?)
    } else {
        Ok(Vec::new(alloc))
    }
}

/// The states of both lists.
pub(crate) fn both(mut states: Vec<State>, more: Vec<State>) -> Result<Vec<State>, AllocError>
    ensures { IfOk result (λ v. v.items ≡ states.items ++ more.items) }
{
    for state in more {
        states.push(state)?;
    }
    Ok(states)
}
