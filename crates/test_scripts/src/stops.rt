//! A device that stops at each of its calls in turn, with each part of the call done: what the run answers,
//! and that it goes on after a restart.

use crate::scripts::FLAT_PA_COMMIT;
use audit_tree::{Own, Report, ReportLine, audit};
use log_store::{FaultStore, MemoryStore, StoreCall};
use protocol::{Act, Case, Conclusion, Event, Message, Outcome, ProcessId, StepError, Tree, Txn};
use std::alloc::{AllocError, Global};
use tree_script::read;
use tree_world::{ProcessOpenError, World, copied_tree, logs_left};

/// The kinds of calls at which a device can stop.
pub(crate) const CALLS: [StoreCall; 3] = [StoreCall::Append, StoreCall::Force, StoreCall::Replace];

/// A stop of a process's device: at the nth call of a kind, of which the first `keep` bytes are done.
#[derive(Clone, Copy)]
struct Stop {
    process: ProcessId,
    call: StoreCall,
    /// Counted from 1; where it is 0 no call stops.
    nth: u64,
    keep: usize,
}

/// What the sweep of a script met.
#[derive(Clone, Copy)]
struct Met {
    /// Runs whose device stopped.
    runs: usize,
    /// Cases that were in doubt after the restart, and asked.
    asked: usize,
    /// Cases that are in doubt in the end, since nothing is decided yet.
    in_doubt: usize,
    /// Runs that end with a mismatch in a log.
    mismatches: usize,
}

/// How large the call is at which a device stops.
#[derive(Clone, Copy)]
enum Size {
    /// The run ends before the device comes to the call.
    Beyond,
    /// The call is of the tree's opening, whose logs have N bytes.
    Opening(usize),
    Bytes(usize),
}

/// A script of a tree.
#[derive(Drop)]
struct Script {
    tree: Tree,
    events: Vec<Event>,
}

/// How a run ends after a restart.
#[derive(Clone, Copy)]
struct Ending {
    asked: usize,
    in_doubt: usize,
    has_mismatch: bool,
}

/// No stop: the device of this process does all that it is asked.
fn sound(process: ProcessId) -> Stop {
    Stop {
        process,
        call: StoreCall::Append,
        nth: 0,
        keep: 0,
    }
}

/// A store without bytes for each process; the device of one of them stops.
fn stores(alloc: Global, tree: &Tree, stop: Stop) -> Result<Vec<FaultStore>, AllocError> {
    let mut stores = Vec::new(alloc);
    for entry in tree.entries() {
        let nth = if entry.id == stop.process {
            stop.nth
        } else {
            0
        };
        let store = MemoryStore::new(alloc);
        stores.push(FaultStore::new(store, stop.call, nth, stop.keep))?;
    }
    Ok(stores)
}

/// The tree over stores of which one stops.
fn opened(
    alloc: Global,
    tree: &Tree,
    stop: Stop,
) -> Option<Result<World<FaultStore>, ProcessOpenError>> {
    let stores = stores(alloc, tree, stop).ok()?;
    let tree = copied_tree(alloc, tree.entries()).ok()?;
    tree.check().ok()?;
    match World::with_stores(alloc, tree, stores) {
        Ok(world) => Some(Ok(world)),
        Err((refusal, _stores)) => Some(Err(refusal)),
    }
}

/// Makes the events up to the first at which a device fails, and answers whether there is one.
fn runs_into_stop(alloc: Global, world: &mut World<FaultStore>, events: &[Event]) -> Option<bool> {
    for event in events {
        match world.apply(event.copied(alloc).ok()?) {
            Ok(()) => {}
            Err(StepError::Device) => return Some(true),
            Err(_) => return None,
        }
    }
    Some(false)
}

/// What the audit of a tree's logs says. None if a log is damaged.
fn audited(alloc: Global, tree: &Tree, world: &World<FaultStore>) -> Option<Report> {
    tree.check().ok()?;
    let logs = logs_left(alloc, world).ok()?;
    audit(alloc, tree, &logs).ok()
}

/// Whether two lines say the same of the transaction that both are of.
fn agree(one: &ReportLine, other: &ReportLine) -> bool {
    one.case.txn != other.case.txn || one.outcome == other.outcome
}

/// Whether all lines of a transaction say one outcome.
pub(crate) fn has_one_outcome_each(report: &Report) -> bool {
    for one in &report.lines {
        if !report.lines.iter().all(|other| agree(one, other)) {
            return false;
        }
    }
    true
}

/// The cases in doubt.
pub(crate) fn cases_in_doubt(alloc: Global, report: &Report) -> Result<Vec<Case>, AllocError> {
    report
        .lines
        .iter()
        .filter(|line| line.own == Own::InDoubt)
        .map(|line| line.case)
        .collect(alloc)
}

/// What the root told its application of a transaction, if it told an outcome.
fn told_of(world: &World<FaultStore>, txn: Txn) -> Option<Outcome> {
    for place in 0..world.made() {
        let told = world.shown(place)?.told;
        match told {
            Some(told) if told.txn == txn => match told.conclusion {
                Conclusion::Committed => return Some(Outcome::Committed),
                Conclusion::Aborted => return Some(Outcome::Aborted),
                Conclusion::ReadOnly => {}
            },
            _ => {}
        }
    }
    None
}

/// What the root decided of a transaction by its own log, if that says so.
fn decided_of(report: &Report, txn: Txn) -> Option<Outcome> {
    let root = report
        .lines
        .iter()
        .find(|line| line.case.txn == txn && line.case.ticket.is_none())?;
    root.decision
}

/// Whether the outcome of a line is the one that the root decided, and the one that it told.
fn is_the_roots(world: &World<FaultStore>, report: &Report, line: &ReportLine) -> bool {
    let decided = decided_of(report, line.case.txn).unwrap_or(line.outcome);
    let told = told_of(world, line.case.txn).unwrap_or(line.outcome);
    decided == line.outcome && told == line.outcome
}

/// Audits the logs as they are. None if one is damaged, a transaction has two outcomes, or an outcome is not
/// the root's.
fn audited_now(alloc: Global, tree: &Tree, world: &World<FaultStore>) -> Option<Report> {
    let report = audited(alloc, tree, world)?;
    for line in &report.lines {
        if !is_the_roots(world, &report, line) {
            return None;
        }
    }
    if !has_one_outcome_each(&report) {
        return None;
    }
    Some(report)
}

/// Makes an event, and audits the logs after it. None if the event is refused, or the audit finds a fault.
fn audited_behind(
    alloc: Global,
    tree: &Tree,
    world: &mut World<FaultStore>,
    event: Event,
) -> Option<Report> {
    world.apply(event).ok()?;
    audited_now(alloc, tree, world)
}

/// Makes the events of a script while no device fails, and audits the logs after each. None if the audit
/// finds a fault.
fn runs_audited(alloc: Global, script: &Script) -> Option<()> {
    let root = script.tree.entries().first()?.id;
    let mut world = opened(alloc, &script.tree, sound(root))?.ok()?;
    let mut answer = Some(());
    for event in &script.events {
        let made = audited_behind(alloc, &script.tree, &mut world, event.copied(alloc).ok()?);
        if made.is_none() {
            answer = None;
        }
    }
    world.close();
    answer
}

/// Each of these cases asks.
fn ask_each(
    alloc: Global,
    tree: &Tree,
    world: &mut World<FaultStore>,
    cases: &[Case],
) -> Option<()> {
    for case in cases {
        audited_behind(alloc, tree, world, Event::Act(Act::Ask(*case)))?;
    }
    Some(())
}

/// Restarts the process whose device stopped, lets all messages be delivered, each case in doubt ask, and the
/// answers be delivered.
fn goes_on(
    alloc: Global,
    tree: &Tree,
    world: &mut World<FaultStore>,
    restart: Event,
) -> Option<Ending> {
    audited_behind(alloc, tree, world, restart)?;
    let settled = audited_behind(alloc, tree, world, Event::Settle)?;
    let cases = cases_in_doubt(alloc, &settled).ok()?;
    ask_each(alloc, tree, world, &cases)?;
    let last = audited_behind(alloc, tree, world, Event::Settle)?;
    Some(Ending {
        asked: cases.len(),
        in_doubt: cases_in_doubt(alloc, &last).ok()?.len(),
        has_mismatch: last.mismatches > 0,
    })
}

/// The run into a stop: the process has failed until it restarts, and then the run goes on.
fn recovers(
    alloc: Global,
    script: &Script,
    world: &mut World<FaultStore>,
    stop: Stop,
    kept: Option<u64>,
) -> Option<Ending> {
    if !runs_into_stop(alloc, world, &script.events)? {
        return None;
    }
    audited_now(alloc, &script.tree, world)?;
    if world.apply(Event::Trim(stop.process)) != Err(StepError::Failed) {
        return None;
    }
    goes_on(
        alloc,
        &script.tree,
        world,
        Event::Restart(stop.process, kept),
    )
}

/// How the run ends whose device stops so, where its process restarts with these bytes after its forced
/// front.
fn run_on(alloc: Global, script: &Script, stop: Stop, kept: Option<u64>) -> Option<Ending> {
    let mut world = opened(alloc, &script.tree, stop)?.ok()?;
    let ending = recovers(alloc, script, &mut world, stop, kept);
    world.close();
    ending
}

/// How many bytes the log of a process has in a tree that has just opened.
fn opened_size(alloc: Global, script: &Script, process: ProcessId) -> Option<usize> {
    let world = opened(alloc, &script.tree, sound(process))?.ok()?;
    let text = world.log_text(process);
    world.close();
    Some(text.ok()?.len())
}

/// The log of a process after a stop of its device.
#[derive(Clone, Copy)]
struct LeftBehind {
    stops: bool,
    bytes: usize,
    unforced: u64,
}

/// What a run leaves whose device is to stop so.
fn left_behind(alloc: Global, script: &Script, stop: Stop) -> Option<LeftBehind> {
    let mut world = opened(alloc, &script.tree, stop)?.ok()?;
    let stops = runs_into_stop(alloc, &mut world, &script.events);
    let text = world.log_text(stop.process);
    let sizes = world.unforced_sizes(stop.process);
    world.close();
    let mut unforced = 0u64;
    for size in &sizes.ok()? {
        unforced = unforced.saturating_add(*size);
    }
    Some(LeftBehind {
        stops: stops?,
        bytes: text.ok()?.len(),
        unforced,
    })
}

/// How large the call is that is stopped at its begin.
fn size_at(alloc: Global, script: &Script, stop: Stop) -> Option<Size> {
    match opened(alloc, &script.tree, stop)? {
        Ok(world) => world.close(),
        Err(ProcessOpenError::Device(process)) if process == stop.process => {
            return Some(Size::Opening(opened_size(alloc, script, process)?));
        }
        Err(_) => return None,
    }
    let left = left_behind(alloc, script, stop)?;
    if !left.stops {
        return Some(Size::Beyond);
    }
    Some(Size::Bytes(match stop.call {
        StoreCall::Append => appended(alloc, script, stop, left)?,
        StoreCall::Force => usize::try_from(left.unforced).ok()?,
        StoreCall::Replace => 1,
    }))
}

/// How many bytes an append has that left none of them.
fn appended(alloc: Global, script: &Script, stop: Stop, left: LeftBehind) -> Option<usize> {
    let whole = Stop {
        keep: usize::MAX,
        ..stop
    };
    left_behind(alloc, script, whole)?
        .bytes
        .checked_sub(left.bytes)
}

impl Met {
    /// One more run, which ended so.
    fn add(&mut self, ending: Ending) {
        self.runs = self.runs.saturating_add(1);
        self.asked = self.asked.saturating_add(ending.asked);
        self.in_doubt = self.in_doubt.saturating_add(ending.in_doubt);
        if ending.has_mismatch {
            self.mismatches = self.mismatches.saturating_add(1);
        }
    }

    /// These, and those of another sweep.
    fn add_all(&mut self, other: Met) {
        self.runs = self.runs.saturating_add(other.runs);
        self.asked = self.asked.saturating_add(other.asked);
        self.in_doubt = self.in_doubt.saturating_add(other.in_doubt);
        self.mismatches = self.mismatches.saturating_add(other.mismatches);
    }
}

const NOTHING_MET: Met = Met {
    runs: 0,
    asked: 0,
    in_doubt: 0,
    mismatches: 0,
};

/// A call that stops with each number of its bytes done; after each stop a restart that keeps nothing and one
/// that keeps all.
fn sweep_call(alloc: Global, script: &Script, stop: Stop, bytes: usize) -> Option<Met> {
    let mut met = NOTHING_MET;
    for keep in 0..=bytes {
        for kept in [Some(0), None] {
            met.add(run_on(alloc, script, Stop { keep, ..stop }, kept)?);
        }
    }
    Some(met)
}

/// As `sweep_call`, of a call of the tree's opening, which is then refused.
fn sweep_opening(alloc: Global, script: &Script, stop: Stop, bytes: usize) -> Option<Met> {
    let mut met = NOTHING_MET;
    for keep in 0..=bytes {
        match opened(alloc, &script.tree, Stop { keep, ..stop })? {
            Ok(world) => {
                world.close();
                return None;
            }
            Err(error) if error == ProcessOpenError::Device(stop.process) => {
                met.runs = met.runs.saturating_add(1);
            }
            Err(_) => return None,
        }
    }
    Some(met)
}

fn name_of(call: StoreCall) -> &'static str {
    match call {
        StoreCall::Append => "append",
        StoreCall::Force => "force",
        StoreCall::Replace => "replace",
    }
}

/// The stops at each of a process's calls of one kind: a line each, and what they met.
fn sweep_calls(
    alloc: Global,
    script: &Script,
    process: ProcessId,
    call: StoreCall,
    out: &mut Vec<u8>,
) -> Option<Met> {
    let mut met = NOTHING_MET;
    for nth in 1u64..MOST_CALLS {
        let stop = Stop {
            process,
            call,
            nth,
            keep: 0,
        };
        let (name, ProcessId(number)) = (name_of(call), process);
        let (runs, bytes) = match size_at(alloc, script, stop)? {
            Size::Beyond => return Some(met),
            Size::Opening(bytes) => (sweep_opening(alloc, script, stop, bytes)?, bytes),
            Size::Bytes(bytes) => (sweep_call(alloc, script, stop, bytes)?, bytes),
        };
        let line = format!(in alloc;
            "{number} {name} {nth}: {bytes} bytes, {} runs\n",
            runs.runs
        );
        out.extend_from_slice(line.ok()?.as_bytes()).ok()?;
        met.add_all(runs);
    }
    None
}

/// More calls of one kind than a script makes.
const MOST_CALLS: u64 = 1000;

/// The stops at each call of each process of a script's tree.
fn sweep(alloc: Global, script: &Script, out: &mut Vec<u8>) -> Option<Met> {
    let mut met = NOTHING_MET;
    for entry in script.tree.entries() {
        for call in CALLS {
            met.add_all(sweep_calls(alloc, script, entry.id, call, out)?);
        }
    }
    Some(met)
}

/// Stops each device of a script's tree at each of its calls, with each number of the call's bytes done, and
/// writes what was met. The logs are audited after each event: of the events before a stop once, since they
/// leave the same logs whichever stop comes after them. None if a run does not answer Device at the stop or
/// Failed after it, does not go on after its restart, has two outcomes, or has one that is not the root's.
pub(crate) fn run_stops(alloc: Global, input: &[u8], out: &mut Vec<u8>) -> Option<()> {
    let (tree, events) = read(alloc, input).ok()?;
    let script = Script { tree, events };
    runs_audited(alloc, &script)?;
    let met = sweep(alloc, &script, out)?;
    let Met {
        runs,
        asked,
        in_doubt,
        mismatches,
    } = met;
    let line = format!(in alloc;
        "{runs} runs, {asked} questions, {in_doubt} left in doubt, {mismatches} with a mismatch\n"
    );
    out.extend_from_slice(line.ok()?.as_bytes()).ok()
}

/// The manager that votes first.
const MANAGER: ProcessId = ProcessId(2);

/// The message that asks it for its vote.
const PREPARE: u64 = 7;

/// Whether the manager's device stops as it hears PREPARE; it has failed until it restarts, and then hears
/// PREPARE again.
fn stops_at_promise(world: &mut World<FaultStore>) -> bool {
    world.apply(Event::Deliver(PREPARE)) == Err(StepError::Device)
        && world.apply(Event::Deliver(PREPARE)) == Err(StepError::Failed)
        && world.apply(Event::Restart(MANAGER, Some(0))) == Ok(())
        && world.apply(Event::Deliver(PREPARE)) == Ok(())
}

/// Whether a manager that promised before it stopped asks and votes YES, and one that did not votes NO.
fn votes_as_promised(world: &World<FaultStore>, promised: bool) -> Result<bool, AllocError> {
    let sent = world.sent()?;
    let (first, second) = (sent.get(8), sent.get(9));
    Ok(match (promised, first, second) {
        (true, Some(first), Some(second)) => {
            matches!(first.message, Message::Inquire(_))
                && matches!(second.message, Message::Yes(_))
        }
        (false, Some(first), None) => matches!(first.message, Message::No(_)),
        _ => false,
    })
}

/// How many bytes a manager forces as it promises: its write, and its promise.
const PROMISE_BYTES: usize = 62;

/// Whether a manager votes as it promised whose device stops at its promise, with N of the bytes done.
fn votes_behind_stop(alloc: Global, tree: &Tree, events: &[Event], keep: usize) -> Option<bool> {
    let stop = Stop {
        process: MANAGER,
        call: StoreCall::Force,
        nth: 2,
        keep,
    };
    let mut world = opened(alloc, tree, stop)?.ok()?;
    let ran = world.run(events).is_ok() && stops_at_promise(&mut world);
    let votes = votes_as_promised(&world, keep >= PROMISE_BYTES);
    world.close();
    Some(ran && votes == Ok(true))
}

/// A manager's promise counts just where all of its bytes are durable.
pub(crate) fn a_promise_cut_at_each_byte(alloc: Global) -> Option<bool> {
    let (tree, mut events) = read(alloc, FLAT_PA_COMMIT.as_bytes()).ok()?;
    events.truncate(8);
    for keep in 0..=PROMISE_BYTES {
        if !votes_behind_stop(alloc, &tree, &events, keep)? {
            return Some(false);
        }
    }
    Some(true)
}
