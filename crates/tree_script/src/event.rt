//! The line of an event.

ghost use Rattle.std.specs.Prelude.{◌≡◌, IfOk, option_map};
ghost use Rattle.tree_script.specs.Events.{
  begin_at,
  join_at,
  restart_at,
  heur_at,
  plain_at,
  work_at,
  event_at,
  work_view,
};

use crate::names::{case_of, process_of, txn_of};
use protocol::{Act, Case, Event, Presumption, ProcessId};
use script_words::{Task, outcome_of, task_of};
use spellings::numeral::number_of;
use spellings::word::cut;
use std::alloc::{AllocError, Global};

/// The event that a line asks for, over a tree with this root; None if it is not an event.
#[tactic(auto, unfolding(crate::specs::Events::event_at))]
pub fn event_of(alloc: Global, root: ProcessId, line: &str) -> Result<Option<Event>, AllocError>
    ensures { IfOk result (λ event. event ≡ event_at root line.now) }
{
    if line == "settle" {
        return Ok(Some(Event::Settle));
    }
    match cut(line, ' ') {
        None => Ok(None),
        Some(("work", rest)) => work_of(alloc, root, rest),
        Some((word, rest)) => Ok(plain_event_of(root, word, rest)),
    }
}

/// The event of a line but settle and work, by its first word and the rest.
#[tactic(auto, unfolding(crate::specs::Events::plain_at))]
fn plain_event_of(root: ProcessId, word: &str, rest: &str) -> Option<Event>
    ensures { result ≡ plain_at root word.now rest.now }
{
    match word {
        "begin" => begin_of(rest),
        "join" => join_of(root, rest),
        "commit" => Some(Event::Act(Act::Commit(txn_of(root, rest)?))),
        "abort" => Some(Event::Act(Act::Abort(txn_of(root, rest)?))),
        "ask" => Some(Event::Act(Act::Ask(case_of(root, rest)?))),
        "deliver" => Some(Event::Deliver(number_of(rest)?)),
        "restart" => restart_of(rest),
        "trim" => Some(Event::Trim(process_of(rest)?)),
        "heur" => decide_of(root, rest),
        "forget" => Some(Event::Act(Act::Forget(case_of(root, rest)?))),
        _ => None,
    }
}

#[tactic(auto, unfolding(crate::specs::Events::begin_at))]
fn begin_of(rest: &str) -> Option<Event>
    ensures { result ≡ begin_at rest.now }
{
    match rest {
        "pa" => Some(Event::Act(Act::Begin(Presumption::PresumeAbort))),
        "pc" => Some(Event::Act(Act::Begin(Presumption::PresumeCommit))),
        _ => None,
    }
}

#[tactic(auto, unfolding(crate::specs::Events::join_at))]
fn join_of(root: ProcessId, rest: &str) -> Option<Event>
    ensures { result ≡ join_at root rest.now }
{
    let (case, child) = cut(rest, ' ')?;
    let case = case_of(root, case)?;
    let child = process_of(child)?;
    Some(Event::Act(Act::Join(case, child)))
}

#[tactic(auto, unfolding(crate::specs::Events::restart_at))]
fn restart_of(rest: &str) -> Option<Event>
    ensures { result ≡ restart_at rest.now }
{
    match cut(rest, ' ') {
        None => {
            let process = process_of(rest)?;
            Some(Event::Restart(process, None))
        }
        Some((process, keep)) => {
            let process = process_of(process)?;
            let keep = number_of(keep)?;
            Some(Event::Restart(process, Some(keep)))
        }
    }
}

#[tactic(auto, unfolding(crate::specs::Events::heur_at))]
fn decide_of(root: ProcessId, rest: &str) -> Option<Event>
    ensures { result ≡ heur_at root rest.now }
{
    let (case, decision) = cut(rest, ' ')?;
    let case = case_of(root, case)?;
    let outcome = outcome_of(decision)?;
    Some(Event::Act(Act::Decide(case, outcome)))
}

fn work_of(alloc: Global, root: ProcessId, rest: &str) -> Result<Option<Event>, AllocError>
    ensures { IfOk result (λ event. event ≡ work_at root rest.now) }
{
    match work_words(root, rest) {
        None => Ok(None),
        Some((case, child, task)) => {
            let op = task.copied(alloc)?;
            Ok(Some(Event::Act(Act::Work(case, child, op))))
        }
    }
}

#[tactic(auto, unfolding(crate::specs::Events::work_at))]
fn work_words(root: ProcessId, rest: &str) -> Option<(Case, ProcessId, Task<'_>)>
    ensures { option_map work_view result ≡ work_at root rest.now }
{
    let (case, rest) = cut(rest, ' ')?;
    let case = case_of(root, case)?;
    let (child, rest) = cut(rest, ' ')?;
    let child = process_of(child)?;
    let task = task_of(rest)?;
    Some((case, child, task))
}
