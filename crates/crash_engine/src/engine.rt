//! The engine of `rstar crash`.

ghost use Rattle.std.specs.Prelude.{◌≡◌, ◌⊎◌, ℕ, List, IfErr, IfOk};
ghost use Rattle.std.specs.Io.KnownBytes.{Appends, Keeps};
ghost use Rattle.protocol.specs.Trees.{IsTree};
ghost use Rattle.report_io.specs.Streams.{IsInput, IsOfRun, WritesFront};
ghost use Rattle.tree_engine.specs.Failures.{IsStop};
ghost use Rattle.tree_engine.specs.Trees.{IsNumberedRefusal};
ghost use Rattle.crash_engine.specs.Trials.{GoesOver, known_by};
ghost use Rattle.crash_engine.specs.Failures.{CannotGoOver, CannotReport, CannotTry};
ghost use Rattle.crash_engine.specs.Crashes.{IsCrashReport, TriesFrom};
ghost use Rattle.crash_engine.specs.Texts.{ending_by};
ghost use Rattle.crash_engine.specs.declared.ending.CrashStatus.{CrashStatus as AnyEnding};

use crate::auditing::Leftover;
use crate::ending::CrashStatus;
use crate::lines::{are_clean, is_clean, text_of};
use crate::origin::{Origin, damage_of};
use crate::trial::{CrashEnd, left_alone, try_alone};
use crate::trials::{Trial, try_event};
use log_script::damaged;
use protocol::Event;
use reopen_script::read_reopen;
use report_io::{Failure, read_all, write_all};
use std::alloc::Global;
use std::io::{Read, Write};
use tree_engine::{Refusal, refusal};
use tree_script::ScriptError;

/// How many percent of the events N are.
fn percent(made: usize, events: usize) -> u64 {
    (made as u64)
        .saturating_mul(100)
        .checked_div(events as u64)
        .unwrap_or(0)
}

/// Shows which event is gone through, once a percent of all. A failed write is no failure of the run.
fn show<P: Write>(
    alloc: Global,
    progress: &mut P,
    event: usize,
    events: usize,
) -> Result<(), Failure>
    ensures memory { IfErr result (λ e. e ≡ Failure.Memory) }
{
    if percent(event, events) == percent(event.saturating_sub(1), events) {
        return Ok(());
    }
    let line = format!(in alloc; "event {event} of {events}\n")?;
    let _ = write_all(progress, line.as_bytes());
    Ok(())
}

/// Tries each crash within each event of a script and after it, up to the first that is refused. The errors
/// are those of `show` and `try_event`.
fn try_events<P: Write>(
    alloc: Global,
    origin: &Origin,
    known: &Leftover,
    events: &[Event],
    progress: &mut P,
) -> Result<(Vec<Trial>, Refusal), Failure>
    requires { IsTree origin.now.tree }
    ensures goes { IfOk result (λ r. GoesOver origin.now (known_by known.now) events.now r.1 r.0.items) }
    ensures numbered { IfOk result (λ r. IsNumberedRefusal r.1) }
    ensures err { IfErr result (λ why. (why ≡ Failure.Memory) ⊎ CannotGoOver origin.now events.now why) }
    ensures why { IfErr result IsOfRun }
{
    let mut trials = Vec::new(alloc);
    for made in 0..events.len() {
        show(alloc, progress, made + 1, events.len())?;
        let refusal = try_event(alloc, origin, known, events, made, &mut trials)?;
        if refusal.is_some() {
            return Ok((trials, refusal));
        }
    }
    Ok((trials, None))
}

/// How it ends.
fn ending_of(alone: &CrashEnd, trials: &[Trial], refusal: Refusal) -> CrashStatus
    ensures { result ≡ ending_by alone.now trials.now refusal }
{
    match refusal {
        Some(_) => CrashStatus::Stopped,
        None if is_clean(alone) && are_clean(trials) => CrashStatus::Clean,
        None => CrashStatus::Finds,
    }
}

/// What crashes of a script end with.
fn crashes<P: Write>(
    alloc: Global,
    origin: &Origin,
    events: &[Event],
    progress: &mut P,
) -> Result<(Vec<u8>, CrashStatus), Failure>
    requires { IsTree origin.now.tree }
    ensures tries { IfOk result (λ r. TriesFrom origin.now events.now r.1 r.0.items) }
    ensures err { IfErr result (λ why. (why ≡ Failure.Memory) ⊎ CannotTry origin.now events.now why) }
    ensures why { IfErr result IsOfRun }
{
    let alone = try_alone(alloc, origin, events)?;
    let known = left_alone(alloc, &alone)?;
    let (trials, refusal) = try_events(alloc, origin, &known, events, progress)?;
    let text = text_of(alloc, &alone, &trials, refusal)?;
    Ok((text, ending_of(&alone, &trials, refusal)))
}

/// The answer to an input.
fn answer<P: Write>(
    alloc: Global,
    input: &[u8],
    progress: &mut P,
) -> Result<(Vec<u8>, CrashStatus), Failure>
    ensures report { IfOk result (λ r. IsCrashReport r.1 input.now r.0.items) }
    ensures err { IfErr result (λ why. (why ≡ Failure.Memory) ⊎ CannotReport input.now why) }
    ensures why { IfErr result IsOfRun }
{
    let (tree, logs, events) = match read_reopen(alloc, input) {
        Ok(script) => script,
        Err(ScriptError::Fault(fault)) => return Ok((refusal(alloc, fault)?, CrashStatus::Refused)),
        Err(ScriptError::Memory) => return Err(Failure::Memory),
    };
    let origin = Origin { tree, logs };
    match damage_of(alloc, &origin)? {
        Some((process, place)) => Ok((damaged(alloc, process, place)?, CrashStatus::Refused)),
        None => crashes(alloc, &origin, &events, progress),
    }
}

/// Reads a tree script and tries each crash of it: after each of its events and after each delivery of a
/// settle, of each process, with each number of its unforced records that the crash may leave. Each is a run
/// of its own of the script's events so far and the crash; then everything is delivered, every case that the
/// logs show in doubt asks its parent, everything is delivered again, and the logs are audited. Writes first
/// what the script leaves without any crash, where it leaves a case in doubt or a mismatch; then a line for
/// each crash that leaves more than that, and the numbers of crashes; after them which event was refused, if
/// one was, or alone why the script was. Where the script begins its events with logs, each run opens over
/// them, and a damaged one is told alone.
///
/// Each of these runs is one of the model: the headline holds of it, and mismatches are reported in it; over
/// logs, so it is from each run that left them, and a log that is damaged after a crash is told: no run
/// leaves such logs. The time goes with the square of the number of events and deliveries. `progress` gets a
/// line for each percent of them; a failed write there is no failure of the run. After a failed read, or
/// where memory is refused, a device fails or numbers are used up, nothing was written; after a failed write,
/// a beginning of the text. Device and Exhausted come only of a script, one of whose runs cannot go on for
/// that; Exhausted also where a process's records that a crash may take come to 2^64 bytes or more, and
/// Device if the tree does not open once more over its logs.
pub fn run_crash<R: Read, W: Write, P: Write>(
    alloc: Global,
    reader: &mut R,
    writer: &mut W,
    progress: &mut P,
) -> Result<CrashStatus, Failure>
    ensures written { IfOk result (λ ending. (input : List ℕ) × (text : List ℕ)
        × IsInput (R.remaining reader.old) input × IsCrashReport ending input text
        × Appends (W.contents writer.old) (W.contents writer.new) text) }
    ensures cut { IfErr result (λ e. e ≡ Failure.Write → (input : List ℕ)
        × (text : List ℕ) × (ending : AnyEnding)
        × IsInput (R.remaining reader.old) input × IsCrashReport ending input text
        × WritesFront (W.contents writer.old) (W.contents writer.new) text) }
    ensures unread { IfErr result (λ e. e ≡ Failure.Read
        → Keeps (W.contents writer.old) (W.contents writer.new)) }
    ensures unmade { IfErr result (λ e. IsOfRun e
        → Keeps (W.contents writer.old) (W.contents writer.new)) }
    ensures stopped { IfErr result (λ e. IsStop e → (input : List ℕ)
        × IsInput (R.remaining reader.old) input × CannotReport input e) }
{
    let input = read_all(alloc, reader)?;
    let (text, ending) = answer(alloc, &input, progress)?;
    match write_all(writer, &text) {
        Ok(()) => Ok(ending),
        Err(failure) => Err(failure),
    }
}
