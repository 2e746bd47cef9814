//! The rules, each in a sentence.

use judge_rules::{BranchVerb, Function, JudgedCall};

/// The rule of a function on a branch.
fn branch_rule(verb: BranchVerb) -> &'static str {
    match verb {
        BranchVerb::Start => {
            "start: refused by the code of a defect, if it has one; else the thread is in T1, or told that the branch is rolled back"
        }
        BranchVerb::End => {
            "end: refused by the code of a defect, if it has one; else the association is gone or suspended, or the branch is rolled back"
        }
        BranchVerb::Prepare => {
            "prepare: of an idle branch without association: prepared, ended as read only, or rolled back"
        }
        BranchVerb::Commit => {
            "commit: of a prepared branch, or in one phase of an idle one: done, or its heuristic decision is told"
        }
        BranchVerb::Rollback => {
            "rollback: of a branch without association: done, or its heuristic decision is told"
        }
        BranchVerb::Forget => "forget: of a branch that was decided heuristically",
    }
}

/// The rule of a function of the interface.
fn function_rule(function: Function) -> &'static str {
    match function {
        Function::Open(_) => "open: refused for flags alone",
        Function::Close(_) => "close: refused while there is an association",
        Function::Branch(verb, _) => branch_rule(verb),
        Function::Recover { .. } => {
            "recover: a scan gives each prepared or decided branch once, and ends with none left out"
        }
    }
}

/// The rule by which a call is judged.
pub(crate) fn rule_of(call: JudgedCall) -> &'static str {
    match call {
        JudgedCall::Function(function) => function_rule(function),
        JudgedCall::Get { .. } => {
            "get: a branch reads its own last write, else a value that was committed when it began or since"
        }
        JudgedCall::Put { .. } => "put, del: done, or refused without effect",
        JudgedCall::Decide { .. } => "heur: an operator decides a prepared branch",
        JudgedCall::Restart { .. } =>
            "restart: what is prepared or decided stays, all else is gone",
        JudgedCall::Disconnect { .. } => {
            "disconnect: the associations of the thread are gone, and its branches at work may be"
        }
        JudgedCall::Trim => "trim: changes nothing",
    }
}
