//! What the logs of a tree say of its cases.

ghost use Rattle.std.specs.Prelude.{◌≡◌, [], IfErr, IfOk, List, None};
ghost use Rattle.std.specs.List.{list_any};
ghost use Rattle.tree_engine.specs.Trees.{Plays};
ghost use Rattle.protocol_words.specs.Types.{AnyEvent};
ghost use Rattle.protocol.specs.declared.trees.TreeProcess.{TreeProcess};
ghost use Rattle.protocol.specs.Names.{same_case};
ghost use Rattle.protocol.specs.Trees.{IsTree};
ghost use Rattle.tree_world.specs.Worlds.{state};
ghost use Rattle.crash_engine.specs.Audits.{Audits, IsDamagedThen, asks_by, asks_for, beyond, doubts_in, mismatched_in, stands_in_doubt};

use audit_cases::Own;
use audit_tree::{AuditError, Report, ReportLine, audit};
use log_store::MemoryStore;
use proof_left_logs::law::left_logs_are_read;
use protocol::{Act, Case, Event, ProcessId};
use report_io::Failure;
use std::alloc::{AllocError, Global};
use tree_world::{World, logs_left};

/// The cases that an audit shows in doubt, and those that it shows decided otherwise, in the order of its
/// lines.
#[derive(Drop)]
pub struct Leftover {
    pub in_doubt: Vec<Case>,
    pub mismatches: Vec<Case>,
}

impl Leftover {
    /// No case.
    pub(crate) fn nothing(alloc: Global) -> Leftover
        ensures in_doubt { result.in_doubt.items ≡ [] }
        ensures mismatches { result.mismatches.items ≡ [] }
    {
        Leftover {
            in_doubt: Vec::new(alloc),
            mismatches: Vec::new(alloc),
        }
    }
}

/// Audits the logs that the processes of a tree keep; or tells the first that is damaged, and where. None is
/// damaged of a tree that opened over empty logs and whose events were all made.
pub(crate) fn audit_of(
    alloc: Global,
    world: &World<MemoryStore>,
) -> Result<Result<Report, (ProcessId, usize)>, Failure>
    requires { IsTree (state world.now).tree }
    ensures audits { IfOk result (λ audited. IfOk audited (Audits (state world.now))) }
    ensures damaged { IfOk result (λ audited. IfErr audited (λ d. IsDamagedThen (state world.now) d.0 d.1)) }
    ensures never { IfOk result (λ audited.
        IfErr audited (λ _. (tree : List TreeProcess) (events : List AnyEvent)
        → Plays tree events None (state world.now) → ⊥)) }
    ensures memory { IfErr result (λ e. e ≡ Failure.Memory) }
{
    let logs = logs_left(alloc, world)?;
    left_logs_are_read();
    match audit(alloc, world.tree(), &logs) {
        Ok(report) => Ok(Ok(report)),
        Err(AuditError::Memory) => Err(Failure::Memory),
        Err(AuditError::Damaged(process, place)) => Ok(Err((process, place))),
    }
}

fn is_in_doubt(line: &ReportLine) -> bool
    ensures { result ≡ stands_in_doubt line.now.own }
{
    matches!(line.own, Own::InDoubt)
}

/// The cases in doubt.
pub(crate) fn doubts_of(alloc: Global, lines: &[ReportLine]) -> Result<Vec<Case>, AllocError>
    ensures { IfOk result (λ cases. cases.items ≡ doubts_in lines.now) }
{
    lines
        .iter()
        .filter(|line| is_in_doubt(line))
        .map(|line| line.case)
        .collect(alloc)
}

/// The cases that show a mismatch.
pub(crate) fn mismatches_of(alloc: Global, lines: &[ReportLine]) -> Result<Vec<Case>, AllocError>
    ensures { IfOk result (λ cases. cases.items ≡ mismatched_in lines.now) }
{
    lines
        .iter()
        .filter(|line| line.mismatch)
        .map(|line| line.case)
        .collect(alloc)
}

/// Those of these cases that are not among the known ones, in order.
pub(crate) fn cases_beyond(
    alloc: Global,
    known: &[Case],
    cases: &[Case],
) -> Result<Vec<Case>, AllocError>
    ensures { IfOk result (λ new. new.items ≡ beyond known.now cases.now) }
{
    let mut new = Vec::new(alloc);
    for case in cases {
        if !is_known(known, case) {
            new.push(*case)?;
        }
    }
    Ok(new)
}

/// Whether a case is among these.
fn is_known(known: &[Case], case: &Case) -> bool
    ensures { result ≡ list_any (λ k. same_case k case.now) known.now }
{
    known.iter().any(|one| one.is(case))
}

/// The questions for these cases.
fn asks_for(alloc: Global, cases: &[Case]) -> Result<Vec<Event>, AllocError>
    ensures { IfOk result (λ asks. asks.items ≡ asks_for cases.now) }
{
    cases
        .iter()
        .map(|case| Event::Act(Act::Ask(*case)))
        .collect(alloc)
}

/// The questions for all cases that an audit shows in doubt.
pub(crate) fn asks_of(alloc: Global, report: &Report) -> Result<Vec<Event>, AllocError>
    ensures { IfOk result (λ asks. asks.items ≡ asks_by report.now) }
{
    let cases = doubts_of(alloc, &report.lines)?;
    asks_for(alloc, &cases)
}
