//! The set of all states that are possible.

ghost use Rattle.std.specs.Prelude.{◌≡◌, ◌≤◌, ◌∷◌, [], IfErr, IfOk, vec_len};
ghost use Rattle.judge_state.specs.Sights.{first_sight};
ghost use Rattle.judge_rules.specs.Sets.{AreApartStates, AreMany};
ghost use Rattle.judge_set.specs.Sets.{Follows, MayFollow};

use judge_rules::{HistoryEvent, JudgeError, MOST_STATES, Rules, add_all, next};
use judge_state::State;
use std::alloc::{AllocError, Global};

/// The set before any call: the first state.
pub fn start(alloc: Global) -> Result<Vec<State>, AllocError>
    ensures { IfOk result (λ v. v.items ≡ first_sight ∷ []) }
{
    let mut states = Vec::new(alloc);
    states.push(State::first(alloc))?;
    Ok(states)
}

/// The states that may follow one of these, by a call and its answer. It is refused if memory is, and if
/// there are too many of them.
pub fn follow(
    alloc: Global,
    rules: Rules,
    states: &[State],
    event: &HistoryEvent,
) -> Result<Vec<State>, JudgeError>
    ensures states { IfOk result (λ v. Follows rules states.now event.now v.items) }
    ensures apart { IfOk result (λ v. AreApartStates v.items) }
    ensures few { IfOk result (λ v. vec_len v ≤ MOST_STATES) }
    ensures too_many { IfErr result (λ e. e ≡ JudgeError.TooMany
        → AreMany (MayFollow rules states.now event.now)) }
{
    let mut after = Vec::new(alloc);
    for state in states {
        let more = next(alloc, rules, state, event.call, &event.answer)?;
        add_all(&mut after, more)?;
        if after.len() > MOST_STATES {
            return Err(JudgeError::TooMany);
        }
    }
    Ok(after)
}
