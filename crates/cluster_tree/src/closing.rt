//! A cluster that closes: its passes meet the journal, and each process leaves its log.

ghost use Rattle.std.specs.Prelude.{◌≡◌, ◌<◌, [], IfOk, OnOk, map};
ghost use Rattle.cluster_ties.specs.Views.{entries_in};
ghost use Rattle.cluster_process.specs.Locked.{LeavesLog};
ghost use Rattle.cluster_tree.specs.Closing.{AreMet, LeaveLogs};

use cluster_process::{Ledger, Pass, Seated, is_same};
use cluster_ties::seats::{Seats, Ties};
use protocol::{LogRecord, ProcessId, TreeProcess};
use std::alloc::{AllocError, Global};
use std::sync::Mutex;

/// Each pair of each of these passes is in the journal.
pub(crate) fn meet_all<N: Seats>(ties: &Ties, ledger: &mut Ledger<N>, passes: &mut [Pass<N>])
    requires { (ties.now.shared.table_id ≡ N.table) × (0 < N.table.words) }
    ensures met { AreMet ledger.old.entries passes.old }
    ensures same { (ledger.new ≡ ledger.old) × (passes.new ≡ passes.old) }
{
    for pass in passes.iter_mut() {
        ledger.meets(ties, pass);
    }
}

/// The log of this process, if it is the one.
fn log_of<N: Seats>(
    ties: &Ties,
    seated: &mut Seated<N>,
    ledger: &mut Ledger<N>,
    process: ProcessId,
) -> Result<Vec<LogRecord>, AllocError>
    requires { ties.now.shared.table_id ≡ N.table }
    ensures left { IfOk result (λ log. LeavesLog N.tree (entries_in ledger.old.entries) process log.items) }
    ensures same { ledger.new ≡ ledger.old }
{
    // The processes lie in the order of the tree, so this is never so: it is asked for the proof alone.
    if !is_same(seated.me(), process) {
        return Err(AllocError);
    }
    seated.left_log(ties, ledger)
}

/// The log of the process at this place, which has this name.
fn log_at<N: Seats>(
    ties: &Ties,
    processes: &mut [Mutex<Seated<N>>],
    ledger: &mut Ledger<N>,
    place: usize,
    process: ProcessId,
) -> Result<Vec<LogRecord>, AllocError>
    requires { ties.now.shared.table_id ≡ N.table }
    ensures left { IfOk result (λ log. LeavesLog N.tree (entries_in ledger.old.entries) process log.items) }
    ensures same { ledger.new ≡ ledger.old }
{
    match processes.get_mut(place) {
        None => Err(AllocError),
        Some(seated) => log_of(ties, seated.get_mut(), ledger, process),
    }
}

/// Adds the logs of these processes, in the order of the tree, to an empty list. After an error it may have
/// some of them: the caller lets them go.
fn add_logs<N: Seats>(
    ties: &Ties,
    tree: &[TreeProcess],
    processes: &mut [Mutex<Seated<N>>],
    ledger: &mut Ledger<N>,
    logs: &mut Vec<Vec<LogRecord>>,
) -> Result<(), AllocError>
    requires table { ties.now.shared.table_id ≡ N.table }
    requires none { logs.old.items ≡ [] }
    ensures same { ledger.new ≡ ledger.old }
    ensures logs { OnOk result (LeaveLogs N.tree (entries_in ledger.old.entries) tree.now
        (map (λ log. log.items) logs.new.items)) }
{
    // The loop's invariant, in proofs/closing/add_logs, uses the names of these locals.
    for place in 0..tree.len() {
        let log = log_at(ties, processes, ledger, place, tree[place].id)?;
        logs.push(log)?;
    }
    Ok(())
}

/// Lets go of logs.
fn discard(_logs: Vec<Vec<LogRecord>>) {}

/// The logs of all processes, in the order of the tree; and all entries are placed.
pub(crate) fn left_logs<N: Seats>(
    alloc: Global,
    ties: &Ties,
    tree: &[TreeProcess],
    processes: &mut [Mutex<Seated<N>>],
    ledger: &mut Ledger<N>,
) -> Result<Vec<Vec<LogRecord>>, AllocError>
    requires { ties.now.shared.table_id ≡ N.table }
    ensures entries { ledger.new.entries ≡ ledger.old.entries }
    ensures placed { OnOk result (ledger.new.late ≡ 0) }
    ensures logs { IfOk result (λ logs. LeaveLogs N.tree (entries_in ledger.old.entries) tree.now
        (map (λ log. log.items) logs.items)) }
{
    ledger.place()?;
    let mut logs = Vec::new(alloc);
    match add_logs(ties, tree, processes, ledger, &mut logs) {
        Ok(()) => Ok(logs),
        Err(error) => {
            discard(logs);
            Err(error)
        }
    }
}

/// Lets go of what no journal is.
pub(crate) fn let_go<N: Seats>(_processes: Vec<Mutex<Seated<N>>>, _ties: Ties) {}
