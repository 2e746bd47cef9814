//! Lists of states as sets.

ghost use Rattle.std.specs.Prelude.{◌≡◌, ◌↔◌, ◌∷◌, [], Contains, IfErr, IfOk, IsTrue, OnOk};
ghost use Rattle.judge_rules.specs.Sets.{Adds, AreTooManyStates, IsSetOf};

use crate::errors::{JudgeError, MOST_STATES};
use judge_state::{State, are_same};
use std::alloc::{AllocError, Global};

/// Whether a state is among these.
fn is_found(states: &[State], state: &State) -> bool
    ensures { IsTrue result ↔ Contains states.now state.now }
{
    for other in states {
        if are_same(other, state) {
            return true;
        }
    }
    false
}

/// Adds a state, unless it is found.
fn add(states: &mut Vec<State>, state: State) -> Result<(), AllocError>
    ensures { OnOk result (Adds states.old.items states.new.items (state ∷ [])) }
{
    if !is_found(states, &state) {
        states.push(state)?;
    }
    Ok(())
}

/// Adds states, each unless it is found.
pub fn add_all(states: &mut Vec<State>, more: Vec<State>) -> Result<(), AllocError>
    ensures { OnOk result (Adds states.old.items states.new.items more.items) }
{
    for state in more {
        add(states, state)?;
    }
    Ok(())
}

/// These states, each once. It is refused if memory is, and if there are too many of them.
pub(crate) fn each_once(alloc: Global, states: Vec<State>) -> Result<Vec<State>, JudgeError>
    ensures states { IfOk result (λ v. IsSetOf states.items v.items) }
    ensures too_many { IfErr result (λ e. e ≡ JudgeError.TooMany → AreTooManyStates states.items) }
{
    let mut set = Vec::new(alloc);
    for state in states {
        add(&mut set, state)?;
        if set.len() > MOST_STATES {
            return Err(JudgeError::TooMany);
        }
    }
    Ok(set)
}
