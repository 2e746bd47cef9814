//! A crash, tried.

ghost use Rattle.std.specs.Prelude.{◌≡◌, ◌⊎◌, IfErr, IfOk, List, take};
ghost use Rattle.protocol_words.specs.Types.{AnyEvent};
ghost use Rattle.proof_runs.specs.worlds.Refusals.{Refusal};
ghost use Rattle.tree_state.specs.Worlds.{WorldState};
ghost use Rattle.tree_engine.specs.Trees.{IsNumberedRefusal};
ghost use Rattle.protocol.specs.Trees.{IsTree};
ghost use Rattle.tree_world.specs.Worlds.{state};
ghost use Rattle.report_io.specs.Streams.{IsOfRun};
ghost use Rattle.crash_engine.specs.declared.origin.Origin.{Origin as AnyOrigin};
ghost use Rattle.crash_engine.specs.Origins.{Opens, PlaysFrom};
ghost use Rattle.crash_engine.specs.Failures.{CannotEndAlone, RunBreaksOff, TrialBreaksOff};
ghost use Rattle.crash_engine.specs.Trials.{EndsAlone, EndsWith, CrashLeaves, Tries, known_by, known_of, left_beyond, made_by, nothing_known};

use crate::auditing::{Leftover, asks_of, audit_of, cases_beyond, doubts_of, mismatches_of};
use crate::origin::{Origin, opened};
use crate::points::{Point, crash_events};
use audit_tree::{Report, ReportLine};
use protocol::{Event, ProcessId, StepError};
use report_io::Failure;
use std::alloc::{AllocError, Global};
use tree_engine::Run;

/// What a crash ends with.
#[derive(Drop)]
pub enum CrashEnd {
    /// The run went to its end, and leaves these.
    Ended(Leftover),
    /// The event with this number, from 1, of its run was refused.
    Refused(u64, StepError),
    /// The log of this process, of a tree that was opened over logs, is damaged there: no run leaves logs
    /// that come to that.
    Damaged(ProcessId, usize),
}

/// The cases of an audit's lines that are in doubt or show a mismatch, beyond the known ones.
fn left_beyond(
    alloc: Global,
    known: &Leftover,
    lines: &[ReportLine],
) -> Result<Leftover, AllocError>
    ensures { IfOk result (λ left. known_by left ≡ left_beyond (known_by known.now) lines.now) }
{
    let in_doubt = doubts_of(alloc, lines)?;
    let mismatches = mismatches_of(alloc, lines)?;
    Ok(Leftover {
        in_doubt: cases_beyond(alloc, &known.in_doubt, &in_doubt)?,
        mismatches: cases_beyond(alloc, &known.mismatches, &mismatches)?,
    })
}

/// What an audit leaves beyond what is known.
fn found_by(alloc: Global, known: &Leftover, report: &Report) -> Result<CrashEnd, AllocError>
    ensures { IfOk result (λ found. CrashLeaves (known_by known.now) report.now found) }
{
    Ok(CrashEnd::Ended(left_beyond(alloc, known, &report.lines)?))
}

/// What a run ends with, beyond what is known.
fn found_of(alloc: Global, known: &Leftover, run: &Run) -> Result<CrashEnd, Failure>
    requires is_tree { IsTree (state run.now.world).tree }
    requires numbered { IsNumberedRefusal run.now.refusal }
    ensures ends { IfOk result (λ found. (origin : AnyOrigin) (events : List AnyEvent)
        → PlaysFrom origin events run.now.refusal (state run.now.world)
        → EndsWith origin (known_by known.now) (state run.now.world) run.now.refusal found) }
    ensures memory { IfErr result (λ e. e ≡ Failure.Memory) }
{
    match run.refusal() {
        Some((made, refusal)) => Ok(CrashEnd::Refused(made as u64 + 1, refusal)),
        None => match audit_of(alloc, run.world())? {
            Ok(report) => Ok(found_by(alloc, known, &report)?),
            Err((process, place)) => Ok(CrashEnd::Damaged(process, place)),
        },
    }
}

/// Runs these events and the crash after them, if there is one, in a tree that has just opened, settles, asks
/// for every case that is in doubt by the logs, settles again, and audits the logs. Where one of these events
/// or of the crash is refused, or then a log is damaged, that is all. Memory; Device, Exhausted: one of these
/// events cannot be made for that.
fn crash(
    alloc: Global,
    known: &Leftover,
    run: &mut Run,
    events: &[Event],
    point: Option<Point>,
) -> Result<CrashEnd, Failure>
    requires { (origin : AnyOrigin) × Opens origin run.old }
    ensures tries { IfOk result (λ found. (origin : AnyOrigin) → Opens origin run.old
        → Tries origin (known_by known.now) events.now point found) }
    ensures err { IfErr result (λ why. (why ≡ Failure.Memory) ⊎ ((origin : AnyOrigin)
        → Opens origin run.old → TrialBreaksOff origin events.now point why)) }
    ensures why { IfErr result IsOfRun }
{
    run.make_all(alloc, events)?;
    run.make_all(alloc, &crash_events(alloc, point)?)?;
    if let Some((made, refusal)) = run.refusal() {
        return Ok(CrashEnd::Refused(made as u64 + 1, refusal));
    }
    let report = match audit_of(alloc, run.world())? {
        Ok(report) => report,
        Err((process, place)) => return Ok(CrashEnd::Damaged(process, place)),
    };
    run.make_all(alloc, &asks_of(alloc, &report)?)?;
    run.make_all(alloc, &[Event::Settle])?;
    found_of(alloc, known, run)
}

/// Tries this crash after these events, or none, in a run of its own: what it leaves beyond what is known.
/// Memory; Device, Exhausted: one of the run's events cannot be made for that, or the tree does not open once
/// more.
pub fn try_point(
    alloc: Global,
    origin: &Origin,
    known: &Leftover,
    events: &[Event],
    point: Option<Point>,
) -> Result<CrashEnd, Failure>
    requires { IsTree origin.now.tree }
    ensures tries { IfOk result (λ found. Tries origin.now (known_by known.now) events.now point found) }
    ensures err { IfErr result (λ why. (why ≡ Failure.Memory)
        ⊎ TrialBreaksOff origin.now events.now point why) }
    ensures why { IfErr result IsOfRun }
{
    let mut run = opened(alloc, origin)?;
    let found = crash(alloc, known, &mut run, events, point);
    run.close();
    found
}

/// How many of these events a run of them makes: all, or those before the first that is refused. Memory;
/// Device, Exhausted: it breaks off for that.
fn made_of(alloc: Global, origin: &Origin, events: &[Event]) -> Result<usize, Failure>
    requires { IsTree origin.now.tree }
    ensures made { IfOk result (λ made. (refusal : Refusal) × (end : WorldState)
        × PlaysFrom origin.now events.now refusal end × (made ≡ made_by events.now refusal)) }
    ensures err { IfErr result (λ why. (why ≡ Failure.Memory) ⊎ RunBreaksOff origin.now events.now why) }
    ensures why { IfErr result IsOfRun }
{
    let mut run = opened(alloc, origin)?;
    let made = run.make_all(alloc, events);
    let refusal = run.refusal();
    run.close();
    made?;
    Ok(match refusal {
        None => events.len(),
        Some((made, _)) => made,
    })
}

/// What the events of a script leave without any crash: those that a run of them makes, up to the first that
/// is refused. Memory; Device, Exhausted: the run of the events breaks off for that, or the trial of none.
pub fn try_alone(alloc: Global, origin: &Origin, events: &[Event]) -> Result<CrashEnd, Failure>
    requires { IsTree origin.now.tree }
    ensures ends { IfOk result (λ found. EndsAlone origin.now events.now found) }
    ensures err { IfErr result (λ why. (why ≡ Failure.Memory) ⊎ CannotEndAlone origin.now events.now why) }
    ensures why { IfErr result IsOfRun }
{
    let made = made_of(alloc, origin, events)?;
    let nothing = Leftover::nothing(alloc);
    try_point(alloc, origin, &nothing, front(events, made), None)
}

/// The first N events, or all.
fn front(events: &[Event], count: usize) -> &[Event]
    ensures { result.now ≡ take count events.now }
{
    if count < events.len() {
        &events[..count]
    } else {
        events
    }
}

/// What is known of crashes after a run that ends so.
pub fn left_alone(alloc: Global, found: &CrashEnd) -> Result<Leftover, AllocError>
    ensures { IfOk result (λ left. known_by left ≡ known_of found.now) }
{
    match found {
        CrashEnd::Ended(left) => Ok(Leftover {
            in_doubt: Vec::from_slice(alloc, &left.in_doubt)?,
            mismatches: Vec::from_slice(alloc, &left.mismatches)?,
        }),
        CrashEnd::Refused(_, _) | CrashEnd::Damaged(_, _) => Ok(Leftover::nothing(alloc)),
    }
}
