//! The laws. The functions do nothing: each one's contract is a law.

ghost use Rattle.proof_nodes.specs.Audits.{NodesAreAuditedTruly};
ghost use Rattle.proof_nodes.specs.Branches.{BranchesAreTold};
ghost use Rattle.proof_nodes.specs.Files.{StoresLeaveFiles};
ghost use Rattle.proof_nodes.specs.Groups.{GroupsGoOn};
ghost use Rattle.proof_nodes.specs.Nodes.{
  NodesAreRuns,
  NodesFindTheirLogs,
  OutcomesAreTold,
  OwnFilesAreAtHome,
  OwnFilesAreRead,
  RepeatsWereSent,
  SentMaySpeak,
  StepsGoOn,
};
ghost use Rattle.proof_nodes.specs.Refusals.{NewFilesAreTakenUp, NodesAreNeverRefused, OwnFilesAreTakenUp};

use log_file::{FileStore, LogFile};
use log_store::LogStore;

/// Let each process of a tree be a node over its own file, let each message that a node hears be one that a
/// node of the tree sent, and let a crash leave of each file what was synced, and any front of a block that
/// was being written. Then there is a run of the model whose messages are those that were sent, each node
/// keeps what `Stands` says, the headline holds of the run, and mismatches are reported in it. A node that
/// ended within a step is a fault of that step.
pub fn nodes_are_runs()
    ensures step { StepsGoOn }
    ensures nodes { NodesAreRuns }
{}

/// Where the state of a tree stands for a run, each message that was sent comes from one who may send it: so
/// no message of a tree of nodes is refused for its sender, but one that was altered or invented.
pub fn senders_may_speak()
    ensures { SentMaySpeak }
{}

/// Where the state of a tree stands for a run, what a node answers to `outcome` is the outcome of that
/// transaction; or it refuses to tell, as it is not its root.
pub fn outcomes_are_told()
    ensures { OutcomesAreTold }
{}

/// Where the state of a tree stands for a run in which no process is failed now, what a node answers to
/// `resolve` is how the transaction ends: an answer that says commit or rollback of a case of which an audit
/// of that world tells, and that is in doubt there, if it is not the node's own.
pub fn branches_are_told()
    ensures { BranchesAreTold }
{}

/// Where the state of a tree stands for a run, what a node tells once more, as `again` asks it, are messages
/// that were sent before: it is no step of the tree, and the net may repeat them as it likes.
pub fn repeats_were_sent()
    ensures { RepeatsWereSent }
{}

/// A store over a file that holds a process's log leaves such a file, once its blocks are on the disk.
pub fn stores_leave_files<F: LogFile>(store: &FileStore<F>)
    ensures { StoresLeaveFiles store.now }
{}

/// Where the state of a tree stands for a run, what the next node of a process finds in the file that a crash
/// left is what the process kept of its log: the forced records, and of the others those that stand whole
/// within the bytes found after the forced ones.
pub fn nodes_find_their_logs()
    ensures { NodesFindTheirLogs }
{}

/// A node may make many steps, bring its file up to all of them by one force or one new file, and then tell
/// of them: what the next node finds, wherever the one before it was killed, is what the process left before
/// those steps, or after all of them.
pub fn groups_go_on()
    ensures { GroupsGoOn }
{}

/// What was found of a process's own log names nobody else: no node calls it, at its next start, the log of
/// another process or of another tree.
pub fn own_files_are_at_home()
    ensures { OwnFilesAreAtHome }
{}

/// What was found of a process's own log is called neither damaged nor of the first format, whatever its
/// process wrote, and wherever a crash or an end cut it off.
pub fn own_files_are_read<L: LogStore>()
    ensures { OwnFilesAreRead L.bytes L.forced L.failures }
{}

/// Whichever nodes of a tree end and start, the next node of a process takes up the file that the one before
/// it left: `start` fails over it only for memory, for a device that failed, or where numbers are used up: no
/// boot below 2^63 is left, or a manager's data count 2^63 commits. It is not called damaged, of the first
/// format, another's, or unfit otherwise. So is a file that holds no record yet, as one that was just made.
pub fn nodes_are_never_refused<L: LogStore>()
    ensures nodes { NodesAreNeverRefused L.bytes L.forced L.failures }
    ensures states { OwnFilesAreTakenUp L.bytes L.forced L.failures }
    ensures new { NewFilesAreTakenUp L.bytes L.forced L.failures }
{}

/// Whichever nodes of a tree end and start, the tree makes a run of which the headline holds; and where no
/// process is failed at last, and its file holds all that it keeps, as after an end in order, the audit of
/// the files is true of that run. Nodes that were killed before, and devices that failed, are no matter.
pub fn nodes_are_audited_truly()
    ensures { NodesAreAuditedTruly }
{}
