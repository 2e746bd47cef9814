//! The law. The function does nothing: its contract is the law.

ghost use Rattle.proof_own_logs.specs.Fitting.{NewLogsAreFit, OwnLogsAreFit};

use log_store::LogStore;

/// Where the state of a tree stands for a run, what a crash leaves of a process's own log is called unfit by
/// no start, but where numbers are used up: no boot below 2^63 is left, or a manager's data count 2^63
/// commits. So it is of a log without a record.
pub fn own_logs_are_fit<L: LogStore>()
    ensures own { OwnLogsAreFit L.bytes L.forced L.failures }
    ensures new { NewLogsAreFit L.bytes L.forced L.failures }
{}
