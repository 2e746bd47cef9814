//! What is to be done with a prepared branch, by the log of one process that runs.

ghost use Rattle.std.specs.Prelude.{◌≡◌, IfOk, option_map};
ghost use Rattle.branch_names.specs.Cases.{IsPlaced};
ghost use Rattle.node_engine.specs.Branches.{IsBranchAnswer, name_text, own_logs, trust_by};

use audit_tree::AuditError;
use branch_names::Naming;
use log_script::ProcessLog;
use node_answers::{Manner, refused_text};
use protocol::{ProcessId, Sequence, Standing, StepError, Tree};
use resolve_engine::{BranchAnswer, Trust, answer_named, push_answer};
use std::alloc::{AllocError, Global};
use trace_lines::push;

/// How far the log of a process counts, by whether it is the root of a branch below it, and by where the
/// root's case of the transaction is there.
pub(crate) fn trust_by(is_above: bool, standing: Standing) -> Trust
    ensures { result ≡ trust_by is_above standing }
{
    match (is_above, standing) {
        (true, Standing::Unknown) => Trust::Complete,
        _ => Trust::Parts,
    }
}

/// The log of the process alone.
fn own(alloc: Global, me: ProcessId, log: Vec<u8>) -> Result<Vec<ProcessLog>, AllocError>
    ensures { IfOk result (λ logs. logs.items ≡ own_logs me log.items) }
{
    let mut logs = Vec::new(alloc);
    logs.push(ProcessLog {
        process: me,
        bytes: Sequence::from_vec(log),
    })?;
    Ok(logs)
}

/// The answer to what a name is of, by these logs of this tree; None, if one of them does not read.
#[tactic(auto, using(crate::proofs::Resolving::none_of_a_fault, crate::proofs::Resolving::none_of_a_damage))]
fn answered(
    alloc: Global,
    tree: &Tree,
    logs: &[ProcessLog],
    trust: Trust,
    naming: Naming,
) -> Result<Option<BranchAnswer>, AllocError>
    requires { IsPlaced tree.now naming }
    ensures { IfOk result (IsBranchAnswer tree.now logs.now trust naming) }
{
    match tree.check() {
        Err(_) => Ok(None),
        Ok(()) => match answer_named(alloc, tree, logs, trust, naming) {
            Ok(answer) => Ok(Some(answer)),
            Err(AuditError::Damaged(_, _)) => Ok(None),
            Err(AuditError::Memory) => Err(AllocError),
        },
    }
}

/// The answer to what a name is of, by this log of the process; None, if it does not read.
pub(crate) fn found_in(
    alloc: Global,
    tree: &Tree,
    me: ProcessId,
    log: Vec<u8>,
    trust: Trust,
    naming: Naming,
) -> Result<Option<BranchAnswer>, AllocError>
    requires { IsPlaced tree.now naming }
    ensures { IfOk result (IsBranchAnswer tree.now (own_logs me log.items) trust naming) }
{
    let logs = own(alloc, me, log)?;
    answered(alloc, tree, &logs, trust, naming)
}

/// What is told of a name; without an answer a refusal.
pub(crate) fn name_text(
    alloc: Global,
    manner: Manner,
    name: &str,
    answer: &Option<BranchAnswer>,
) -> Result<Vec<u8>, AllocError>
    ensures { IfOk result (λ text. text.items ≡ name_text manner name.now answer.now) }
{
    match answer {
        None => refused_text(alloc, manner, StepError::NoSuch),
        Some(answer) => {
            let mut out = Vec::new(alloc);
            push(&mut out, "resolve ")?;
            push_answer(&mut out, name, answer.word)?;
            push(&mut out, "\nok\n")?;
            Ok(out)
        }
    }
}
