//! A resource manager of which one allocation is refused while it makes a call.

use crate::Met;
use crate::refuser::Refuser;
use std::alloc::{AllocError, Global};
use xa_engine::script::{Request, requests_of};
use xa_engine::{Manager, RequestAnswer, first_manager, make, push_answer};

/// A script, and what its requests are answered if nothing is refused.
#[derive(Drop)]
struct Script {
    requests: Vec<Request>,
    answers: Vec<Vec<u8>>,
}

/// How a call with a refusal went.
#[derive(Clone, Copy, PartialEq, Eq)]
enum Called {
    /// No allocation was refused, and the answer is the script's.
    Whole,
    /// One was, and all was as it has to be: the call said so, or, where less room was enough, was answered.
    Refused,
}

/// Lets a manager go. One function does it: what letting go of one means is proved once, and not at each way
/// out.
fn let_go(_manager: Manager) {}

/// Lets an answer go, likewise.
fn discard(_answer: RequestAnswer) {}

/// The line of an answer; None if there is none, for want of memory.
fn told(alloc: Global, made: Result<RequestAnswer, AllocError>) -> Option<Vec<u8>> {
    let answer = made.ok()?;
    let mut line = Vec::new(alloc);
    let pushed = push_answer(alloc, &mut line, &answer);
    discard(answer);
    pushed.ok()?;
    Some(line)
}

/// The lines that a manager answers these requests; None for want of memory.
fn answers_of(alloc: Global, manager: &mut Manager, requests: &[Request]) -> Option<Vec<Vec<u8>>> {
    let mut lines = Vec::new(alloc);
    for request in requests {
        let line = told(alloc, make(manager, request))?;
        lines.push(line).ok()?;
    }
    Some(lines)
}

/// The lines that the requests of a script are answered by a manager that opens for them.
fn answers(alloc: Global, requests: &[Request]) -> Option<Vec<Vec<u8>>> {
    let mut manager = first_manager(alloc).ok()?;
    let lines = answers_of(alloc, &mut manager, requests);
    let_go(manager);
    lines
}

/// Whether the requests from this one on are answered as by a manager of which nothing was refused.
fn goes_on(alloc: Global, script: &Script, manager: &mut Manager, place: usize) -> Option<bool> {
    let behind = answers_of(alloc, manager, script.requests.get(place..)?)?;
    Some(behind.as_slice() == script.answers.get(place..)?)
}

/// Whether the log is as it was, and the requests from this one on are answered so.
fn stands(
    alloc: Global,
    script: &Script,
    manager: &mut Manager,
    place: usize,
    before: &[u8],
) -> Option<bool> {
    let log = manager.log_text().ok()?;
    if log.as_slice() != before {
        return Some(false);
    }
    goes_on(alloc, script, manager, place)
}

/// Makes the request at a place with the nth allocation refused. Where one is, the log is as it was, and the
/// request, made once more, and those after it are answered as if it had not been; or less room was enough,
/// and the request and those after it are answered so. None if it is not so.
fn call_refused(
    alloc: Global,
    refuser: &mut Refuser,
    script: &Script,
    manager: &mut Manager,
    place: usize,
    nth: usize,
) -> Option<Called> {
    let request = script.requests.get(place)?;
    let before = manager.log_text().ok()?;
    refuser.refuse(nth);
    let made = make(manager, request);
    let refused = refuser.has_refused();
    let Some(line) = told(alloc, made) else {
        let alike = refused && stands(alloc, script, manager, place, before.as_slice())?;
        return alike.then_some(Called::Refused);
    };
    if line != *script.answers.get(place)? {
        return None;
    }
    if !refused {
        return Some(Called::Whole);
    }
    goes_on(alloc, script, manager, place.checked_add(1)?)?.then_some(Called::Refused)
}

/// Makes the requests before a place, and then the request at it with the nth allocation refused. None if
/// that one does not end as it has to.
fn make_and_call(
    alloc: Global,
    refuser: &mut Refuser,
    script: &Script,
    manager: &mut Manager,
    place: usize,
    nth: usize,
) -> Option<Called> {
    let _ = answers_of(alloc, manager, script.requests.get(..place)?)?;
    call_refused(alloc, refuser, script, manager, place, nth)
}

/// Opens a manager, and makes the requests up to a place there, the last with the nth allocation refused.
/// None if that one does not end as it has to.
fn open_and_call(
    alloc: Global,
    refuser: &mut Refuser,
    script: &Script,
    place: usize,
    nth: usize,
) -> Option<Called> {
    let mut manager = first_manager(alloc).ok()?;
    let called = make_and_call(alloc, refuser, script, &mut manager, place, nth);
    let_go(manager);
    called
}

/// More allocations than a call makes.
const MOST_ALLOCATIONS: usize = 1 << 20;

/// Makes the request at a place with the first allocation refused, the second, and so on.
fn sweep_request(
    alloc: Global,
    refuser: &mut Refuser,
    script: &Script,
    place: usize,
) -> Option<Met> {
    let first = refuser.first();
    let mut met = Met::nothing();
    for nth in first..MOST_ALLOCATIONS {
        met.runs = met.runs.saturating_add(1);
        match open_and_call(alloc, refuser, script, place, nth)? {
            Called::Whole => return Some(met),
            Called::Refused => met.refusals = met.refusals.saturating_add(1),
        }
    }
    None
}

/// Makes each request of a script with the first allocation refused, the second, and so on, until a call
/// meets no refusal; once, where there is nothing that refuses.
pub(crate) fn sweep_requests(alloc: Global, refuser: &mut Refuser, input: &[u8]) -> Option<Met> {
    let requests = requests_of(alloc, input).ok()?.ok()?;
    let answers = answers(alloc, &requests)?;
    let script = Script { requests, answers };
    let mut met = Met::nothing();
    for place in 0..script.requests.len() {
        met.add(sweep_request(alloc, refuser, &script, place)?);
    }
    Some(met)
}
