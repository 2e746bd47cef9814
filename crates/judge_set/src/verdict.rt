//! The first answer that no history admits.

ghost use Rattle.std.specs.Prelude.{◌≡◌, ◌<◌, ◌∷◌, [], IfErr, IfOk, length};
ghost use Rattle.judge_state.specs.Sights.{first_sight};
ghost use Rattle.judge_set.specs.Sets.{AreStatesLeft, IsTooMuch, IsVerdict, IsWalk, followed};

use crate::set::{follow, start};
use judge_rules::{HistoryEvent, JudgeError, Rules};
use judge_state::State;
use std::alloc::Global;

/// How far events lead.
#[derive(Drop)]
pub struct Walk {
    /// The index of the first event after which no state is possible: None, if there is none.
    pub fault: Option<usize>,
    /// The states that are possible before it, or at the end.
    pub states: Vec<State>,
}

/// Goes from these states along events. It is refused if memory is, and if too many states are possible.
pub fn follow_all(
    alloc: Global,
    rules: Rules,
    starts: Vec<State>,
    events: &[HistoryEvent],
) -> Result<Walk, JudgeError>
    requires { 0 < length starts.items }
    ensures fault { IfOk result (λ walk. IsWalk rules starts.items events.now walk.fault) }
    ensures states { IfOk result (λ walk.
        AreStatesLeft rules starts.items (followed events.now walk.fault) walk.states.items) }
    ensures few { IfOk result (λ walk. IsTooMuch rules starts.items events.now → ⊥) }
    ensures too_many { IfErr result (λ e. e ≡ JudgeError.TooMany → IsTooMuch rules starts.items events.now) }
{
    let mut states = starts;
    for (i, event) in events.iter().enumerate() {
        let after = follow(alloc, rules, &states, event)?;
        if after.is_empty() {
            return Ok(Walk {
                fault: Some(i),
                states,
            });
        }
        states = after;
    }
    Ok(Walk {
        fault: None,
        states,
    })
}

/// Judges a history: whether it is legal, or which of its events is the first that no legal history has
/// there. There is no verdict if more states than are gone through are possible after one of them.
pub fn judge(alloc: Global, rules: Rules, events: &[HistoryEvent]) -> Result<Walk, JudgeError>
    ensures verdict { IfOk result (λ walk. IsVerdict rules events.now walk.fault) }
    ensures states { IfOk result (λ walk.
        AreStatesLeft rules (first_sight ∷ []) (followed events.now walk.fault) walk.states.items) }
    ensures few { IfOk result (λ walk. IsTooMuch rules (first_sight ∷ []) events.now → ⊥) }
    ensures too_many { IfErr result (λ e. e ≡ JudgeError.TooMany
        → IsTooMuch rules (first_sight ∷ []) events.now) }
{
    follow_all(alloc, rules, start(alloc)?, events)
}
