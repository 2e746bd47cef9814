//! Every crash of a script, tried.

ghost use Rattle.std.specs.Prelude.{◌≡◌, ◌≢◌, ◌⊎◌, ◌<◌, ◌++◌, ◌∷◌, [], ℕ, suc, pred, IfErr, IfOk, OnOk, drop, length, take};
ghost use Rattle.proof_runs.specs.worlds.Refusals.{Refusal as AnyRefusal};
ghost use Rattle.report_io.specs.Streams.{IsOfRun};
ghost use Rattle.tree_engine.specs.Runs.{HasCome};
ghost use Rattle.tree_engine.specs.Trees.{IsNumberedRefusal};
ghost use Rattle.tree_engine.specs.declared.run.Run.{Run as AnyRun};
ghost use Rattle.protocol.specs.Trees.{IsTree};
ghost use Rattle.tree_world.specs.Worlds.{state};
ghost use Rattle.crash_engine.specs.Failures.{CannotGoDown, CannotGoOn, CannotTryAll, PointBreaksOff};
ghost use Rattle.crash_engine.specs.Origins.{Opens};
ghost use Rattle.crash_engine.specs.Settles.{deliveries_in};
ghost use Rattle.crash_engine.specs.Trials.{Adds, AddsTrials, GoesDown, GoesOn, known_by, trial_of};

use crate::auditing::Leftover;
use crate::origin::{Origin, opened};
use crate::points::{CrashPlace, Point, points_of};
use crate::settles::deliveries_after;
use crate::trial::{CrashEnd, try_point};
use protocol::Event;
use report_io::Failure;
use std::alloc::{AllocError, Global};
use tree_engine::{Refusal, Run};

/// A crash at a place of a script, and what it ends with.
#[derive(Drop)]
pub struct Trial {
    pub place: CrashPlace,
    pub point: Point,
    pub found: CrashEnd,
}

/// Adds a crash that was tried.
fn push_trial(
    trials: &mut Vec<Trial>,
    place: CrashPlace,
    point: Point,
    found: CrashEnd,
) -> Result<(), AllocError>
    ensures { OnOk result (trials.new.items ≡ trials.old.items ++ trial_of place point found ∷ []) }
{
    trials.push(Trial {
        place,
        point,
        found,
    })?;
    Ok(())
}

/// Tries a crash at each of these points after these events. The errors are those of the trial of one.
fn try_points(
    alloc: Global,
    origin: &Origin,
    known: &Leftover,
    place: CrashPlace,
    events: &[Event],
    points: &[Point],
    trials: &mut Vec<Trial>,
) -> Result<(), Failure>
    requires { IsTree origin.now.tree }
    ensures tried { OnOk result (AddsTrials origin.now (known_by known.now) place events.now points.now
        trials.old.items trials.new.items) }
    ensures err { IfErr result (λ why. (why ≡ Failure.Memory)
        ⊎ PointBreaksOff origin.now events.now points.now why) }
    ensures why { IfErr result IsOfRun }
{
    for point in points {
        let found = try_point(alloc, origin, known, events, Some(*point))?;
        push_trial(trials, place, *point, found)?;
    }
    Ok(())
}

/// Tries each crash after the events that a run has made, or tells which of them was refused, and tries none.
/// The errors are those of `try_after`.
fn try_here(
    alloc: Global,
    origin: &Origin,
    known: &Leftover,
    place: CrashPlace,
    run: &Run,
    events: &[Event],
    trials: &mut Vec<Trial>,
) -> Result<Refusal, Failure>
    requires { (first : AnyRun) × Opens origin.now first × HasCome (state first.world) events.now run.now }
    ensures adds { IfOk result (λ refusal. Adds origin.now (known_by known.now) place events.now refusal
        trials.old.items trials.new.items) }
    ensures is { IfOk result (λ refusal. refusal ≡ run.now.refusal) }
    ensures err { IfErr result (λ why. (why ≡ Failure.Memory) ⊎ CannotTryAll origin.now events.now why) }
    ensures why { IfErr result IsOfRun }
{
    let refusal = run.refusal();
    if refusal.is_some() {
        return Ok(refusal);
    }
    let points = points_of(alloc, run.world())?;
    try_points(alloc, origin, known, place, events, &points, trials)?;
    Ok(None)
}

/// Runs these events in a tree that has just opened, and tries each crash after them. The errors are those
/// of `try_after`.
fn try_run(
    alloc: Global,
    origin: &Origin,
    known: &Leftover,
    place: CrashPlace,
    run: &mut Run,
    events: &[Event],
    trials: &mut Vec<Trial>,
) -> Result<(), Failure>
    requires { Opens origin.now run.old }
    ensures adds { OnOk result ((refusal : AnyRefusal)
        × Adds origin.now (known_by known.now) place events.now refusal
        trials.old.items trials.new.items) }
    ensures err { IfErr result (λ why. (why ≡ Failure.Memory) ⊎ CannotTryAll origin.now events.now why) }
    ensures why { IfErr result IsOfRun }
{
    run.make_all(alloc, events)?;
    try_here(alloc, origin, known, place, run, events, trials)?;
    Ok(())
}

/// Tries each crash after these events; none, if one of them is refused. Memory; Device, Exhausted: the run
/// of the events breaks off for that, or that of a crash after them, or the records of a process that a crash
/// may take come to 2^64 bytes or more.
fn try_after(
    alloc: Global,
    origin: &Origin,
    known: &Leftover,
    place: CrashPlace,
    events: &[Event],
    trials: &mut Vec<Trial>,
) -> Result<(), Failure>
    requires { IsTree origin.now.tree }
    ensures adds { OnOk result ((refusal : AnyRefusal)
        × Adds origin.now (known_by known.now) place events.now refusal
        trials.old.items trials.new.items) }
    ensures err { IfErr result (λ why. (why ≡ Failure.Memory) ⊎ CannotTryAll origin.now events.now why) }
    ensures why { IfErr result IsOfRun }
{
    let mut run = opened(alloc, origin)?;
    let tried = try_run(alloc, origin, known, place, &mut run, events, trials);
    run.close();
    tried
}

/// Adds these events once more.
fn push_copies(alloc: Global, all: &mut Vec<Event>, events: &[Event]) -> Result<(), AllocError>
    ensures { OnOk result (all.new.items ≡ all.old.items ++ events.now) }
{
    for event in events {
        all.push(event.copied(alloc)?)?;
    }
    Ok(())
}

/// These events, and these deliveries after them.
fn joined(alloc: Global, events: &[Event], deliveries: &[Event]) -> Result<Vec<Event>, AllocError>
    ensures { IfOk result (λ all. all.items ≡ events.now ++ deliveries.now) }
{
    let mut all = Vec::new(alloc);
    push_copies(alloc, &mut all, events)?;
    push_copies(alloc, &mut all, deliveries)?;
    Ok(all)
}

/// Tries each crash within a settle, which is the event with this number: after each of these deliveries but
/// the last. The errors are those of `try_after`.
fn try_within(
    alloc: Global,
    origin: &Origin,
    known: &Leftover,
    number: usize,
    events: &[Event],
    deliveries: &[Event],
    trials: &mut Vec<Trial>,
) -> Result<(), Failure>
    requires { IsTree origin.now.tree }
    ensures goes { OnOk result (GoesDown origin.now (known_by known.now) number events.now deliveries.now
        (pred (length deliveries.now)) trials.old.items trials.new.items) }
    ensures err { IfErr result (λ why. (why ≡ Failure.Memory)
        ⊎ CannotGoDown origin.now events.now deliveries.now why) }
    ensures why { IfErr result IsOfRun }
{
    for made in 0..deliveries.len().saturating_sub(1) {
        let place = CrashPlace {
            event: number,
            delivery: made + 1,
        };
        let front = joined(alloc, events, &deliveries[..made + 1])?;
        try_after(alloc, origin, known, place, &front, trials)?;
    }
    Ok(())
}

/// The deliveries of the event that a run made last, after this many steps, if it is a settle.
fn deliveries_of(
    alloc: Global,
    run: &Run,
    event: &Event,
    steps: usize,
) -> Result<Vec<Event>, AllocError>
    ensures settle { IfOk result (λ events. event.now ≡ Event.Settle
        → events.items ≡ deliveries_in (drop steps (state run.now.world).entries)) }
    ensures other { IfOk result (λ events. (event.now ≢ Event.Settle) → events.items ≡ []) }
{
    match event {
        Event::Settle => deliveries_after(alloc, run.world(), steps),
        _ => Ok(Vec::new(alloc)),
    }
}

/// Makes one event after these in a tree that has just opened, and tries each crash within it and after it.
/// The errors are those of `try_event`.
fn try_last(
    alloc: Global,
    origin: &Origin,
    known: &Leftover,
    run: &mut Run,
    events: &[Event],
    made: usize,
    trials: &mut Vec<Trial>,
) -> Result<Refusal, Failure>
    requires opens { Opens origin.now run.old }
    requires within { made < length events.now }
    ensures goes { IfOk result (λ refusal. GoesOn origin.now (known_by known.now) events.now made refusal
        trials.old.items trials.new.items) }
    ensures numbered { IfOk result IsNumberedRefusal }
    ensures err { IfErr result (λ why. (why ≡ Failure.Memory) ⊎ CannotGoOn origin.now events.now made why) }
    ensures why { IfErr result IsOfRun }
{
    let front = &events[..made];
    run.make_all(alloc, front)?;
    if run.refusal().is_some() {
        return Ok(run.refusal());
    }
    let steps = run.world().made();
    let event = &events[made];
    run.make(event.copied(alloc)?)?;
    if run.refusal().is_some() {
        return Ok(run.refusal());
    }
    let deliveries = deliveries_of(alloc, run, event, steps)?;
    try_within(alloc, origin, known, made + 1, front, &deliveries, trials)?;
    let place = CrashPlace {
        event: made + 1,
        delivery: 0,
    };
    try_here(
        alloc,
        origin,
        known,
        place,
        run,
        &events[..made + 1],
        trials,
    )
}

/// Tries each crash within the event that comes after this many, and after it; or tells which of them is
/// refused, and tries none. Memory; Device, Exhausted: the run of the events breaks off for that, or that of
/// a crash, or the records of a process that a crash may take come to 2^64 bytes or more.
pub fn try_event(
    alloc: Global,
    origin: &Origin,
    known: &Leftover,
    events: &[Event],
    made: usize,
    trials: &mut Vec<Trial>,
) -> Result<Refusal, Failure>
    requires tree { IsTree origin.now.tree }
    requires within { made < length events.now }
    ensures goes { IfOk result (λ refusal. GoesOn origin.now (known_by known.now) events.now made refusal
        trials.old.items trials.new.items) }
    ensures numbered { IfOk result IsNumberedRefusal }
    ensures err { IfErr result (λ why. (why ≡ Failure.Memory) ⊎ CannotGoOn origin.now events.now made why) }
    ensures why { IfErr result IsOfRun }
{
    let mut run = opened(alloc, origin)?;
    let refusal = try_last(alloc, origin, known, &mut run, events, made, trials);
    run.close();
    refusal
}
