//! A transcript, judged.

ghost use Rattle.std.specs.Prelude.{◌≡◌, ◌<◌, ◌∷◌, [], IfErr, IfOk, OnOk, Some, length, not};
ghost use Rattle.judge_state.specs.Sights.{first_sight};
ghost use Rattle.judge_rules.specs.Steps.{is_answered};
ghost use Rattle.judge_set.specs.Sets.{IsTooMuch, IsVerdict};
ghost use Rattle.judge_engine.specs.Faults.{AreFaults, AreTold, IsAt, IsNext, IsNextOver, IsOver, IsOverFor, indices};
ghost use Rattle.judge_engine.specs.Reports.{first_index};

use crate::admitted::explain;
use judge_rules::{HistoryEvent, JudgeError, JudgedAnswer, Rules};
use judge_script::Transcript;
use judge_set::{Walk, follow_all, judge, resumed};
use judge_state::State;
use std::alloc::{AllocError, Global};

/// Whether the judge stops at the first fault.
#[derive(Clone, Copy, PartialEq, Eq)]
pub enum Extent {
    First,
    All,
}

/// An answer that no history admits.
#[derive(Drop)]
pub struct JudgeFault {
    /// The index of its event.
    pub index: usize,
    /// How thread and branch are there.
    pub standing: Vec<u8>,
    /// What is admitted there.
    pub admitted: Vec<u8>,
}

/// Whether an event has no answer.
fn is_hung(event: &HistoryEvent) -> bool
    ensures { result ≡ not (is_answered event.now.answer) }
{
    matches!(event.answer, JudgedAnswer::Hung)
}

/// The fault of an event that none of these states admits.
fn fault_at(
    alloc: Global,
    transcript: &Transcript,
    states: &[State],
    index: usize,
) -> Result<JudgeFault, AllocError>
    ensures { IfOk result (λ fault. fault.index ≡ index) }
{
    let (standing, admitted) = match transcript.events.get(index) {
        None => (Vec::new(alloc), Vec::new(alloc)),
        Some(event) => explain(alloc, transcript.rules, &transcript.names, states, event)?,
    };
    Ok(JudgeFault {
        index,
        standing,
        admitted,
    })
}

/// The next walk, after a fault: the judge goes on as if the answer had been admitted. None, if there is no
/// answer.
fn next_walk(
    alloc: Global,
    rules: Rules,
    events: &[HistoryEvent],
    states: &[State],
    index: usize,
) -> Result<Option<Walk>, JudgeError>
    requires within { index < length events.now }
    requires some { 0 < length states.now }
    ensures next { IfOk result (IsNext rules events.now index states.now) }
    ensures too_many { IfErr result (λ e. e ≡ JudgeError.TooMany
        → IsNextOver rules events.now index states.now) }
{
    let event = &events[index];
    if is_hung(event) {
        return Ok(None);
    }
    let starts = resumed(alloc, states, event)?;
    let rest = &events[index + 1..];
    Ok(Some(follow_all(alloc, rules, starts, rest)?))
}

/// Adds the faults after a first one.
fn add_more(
    alloc: Global,
    transcript: &Transcript,
    found: &mut Vec<JudgeFault>,
    states: Vec<State>,
    index: usize,
) -> Result<(), JudgeError>
    requires { IsAt transcript.now.rules transcript.now.events.items (indices found.old.items)
        index states.items }
    ensures first { OnOk result (first_index found.new.items ≡ first_index found.old.items) }
    ensures all { OnOk result (AreFaults transcript.now.rules transcript.now.events.items
        (indices found.new.items)) }
    ensures too_many { IfErr result (λ e. e ≡ JudgeError.TooMany
        → IsOver transcript.now.rules transcript.now.events.items) }
{
    let mut at = index;
    let mut before = states;
    for _turn in 0..transcript.events.len() {
        let Some(walk) = next_walk(alloc, transcript.rules, &transcript.events, &before, at)? else {
            return Ok(());
        };
        let Some(more) = walk.fault else {
            return Ok(());
        };
        at = at + 1 + more;
        before = walk.states;
        found.push(fault_at(alloc, transcript, &before, at)?)?;
    }
    Ok(())
}

/// The faults from a first one on: that alone, or all.
fn faults_from(
    alloc: Global,
    extent: Extent,
    transcript: &Transcript,
    states: Vec<State>,
    index: usize,
) -> Result<Vec<JudgeFault>, JudgeError>
    requires { IsAt transcript.now.rules transcript.now.events.items (index ∷ []) index states.items }
    ensures first { IfOk result (λ found. first_index found.items ≡ Some index) }
    ensures told { IfOk result (λ found.
        AreTold extent transcript.now.rules transcript.now.events.items (indices found.items)) }
    ensures too_many { IfErr result (λ e. e ≡ JudgeError.TooMany
        → IsOverFor extent transcript.now.rules transcript.now.events.items) }
{
    let mut found = Vec::new(alloc);
    found.push(fault_at(alloc, transcript, &states, index)?)?;
    match extent {
        Extent::First => Ok(found),
        Extent::All => {
            add_more(alloc, transcript, &mut found, states, index)?;
            Ok(found)
        }
    }
}

/// The faults of a transcript: the first alone, or all.
pub(crate) fn faults(
    alloc: Global,
    extent: Extent,
    transcript: &Transcript,
) -> Result<Vec<JudgeFault>, JudgeError>
    ensures verdict { IfOk result (λ found.
        IsVerdict transcript.now.rules transcript.now.events.items (first_index found.items)) }
    ensures told { IfOk result (λ found.
        AreTold extent transcript.now.rules transcript.now.events.items (indices found.items)) }
    ensures few { IfOk result (λ found.
        IsTooMuch transcript.now.rules (first_sight ∷ []) transcript.now.events.items → ⊥) }
    ensures too_many { IfErr result (λ e. e ≡ JudgeError.TooMany
        → IsOverFor extent transcript.now.rules transcript.now.events.items) }
{
    let walk = judge(alloc, transcript.rules, &transcript.events)?;
    match walk.fault {
        None => Ok(Vec::new(alloc)),
        Some(index) => {
            let found = faults_from(alloc, extent, transcript, walk.states, index)?;
            Ok(found)
        }
    }
}
