//! Restart and trim of one process.

ghost use Rattle.std.specs.Prelude.{◌≡◌, IfErr, IfOk, OnOk};
ghost use Rattle.log_records.specs.Sights.{left_by, records_of};
ghost use Rattle.process_state.specs.Restarting.{ProcessNotRestarted, ProcessNotTrimmed, ProcessRestarts, ProcessTrims};
ghost use Rattle.tree_state.specs.Steps.{KeepsSoundLog, records_kept};
ghost use Rattle.tree_state.specs.Worlds.{KeepsBytes, RestartsData, TrimsData};
ghost use Rattle.coord_process.specs.States.{state};
ghost use Rattle.kv_manager.specs.Resources.{sight_of};
ghost use Rattle.resource_manager.specs.Data.{no_data};
ghost use Rattle.resource_manager.specs.Sights.{manager_data};
ghost use Rattle.sub_process.specs.Steps.{state as manager_state};
ghost use Rattle.tree_process.specs.Nodes.{FollowAt, KeepsDataUnlessFailed, LogStands, core_of, data_of};
ghost use Rattle.tree_process.specs.Restarts.{NoRestart, NoTrim, RestartsNode, TrimsNode};

use crate::node::Process;
use coord_process::Coordinator;
use kv_manager::KvManager;
use log_store::LogStore;
use protocol::{Reaction, StepError};
use std::alloc::AllocError;
use sub_process::Subordinate;

impl<L: LogStore> Process<L> {
    /// Restarts the process after a crash that keeps N of the bytes after the forced front: it
    /// stands as the records that are left say. All memory is taken before the crash. Memory: nothing
    /// changed. Device: the device failed under the restart, and the process answers Failed until it is
    /// restarted again.
    pub fn restart(&mut self, keep: usize) -> Result<Reaction, StepError>
        ensures ok { IfOk result (ProcessRestarts (core_of self.old) keep (core_of self.new)) }
        ensures holdings { OnOk result (RestartsData (core_of self.old).place.role
            (left_by (core_of self.old).log keep) (data_of self.new)) }
        ensures err { IfErr result (ProcessNotRestarted (core_of self.old) keep (core_of self.new)) }
        ensures kept { IfErr result (KeepsDataUnlessFailed (data_of self.old) (data_of self.new)) }
    {
        match self {
            Process::Coordinator(coordinator) => restart_coordinator(coordinator, keep),
            Process::Manager(manager) => restart_manager(manager, keep),
        }
    }

    /// Trims the log of the process: the last Opened stays, and the records of the cases that are not
    /// forgotten or of which something is reported, and after them a manager's data. Gives how many records
    /// remain. Failed, Memory: nothing changed. Device: the old log stands or the new one, and the process
    /// answers Failed until its restart.
    pub fn trim(&mut self) -> Result<u64, StepError>
        ensures ok { IfOk result (ProcessTrims (core_of self.old) (core_of self.new)) }
        ensures holdings { OnOk result (TrimsData (core_of self.old).place.role
            (data_of self.old) (data_of self.new)) }
        ensures err { IfErr result (ProcessNotTrimmed (core_of self.old) (core_of self.new)) }
        ensures kept { IfErr result (KeepsDataUnlessFailed (data_of self.old) (data_of self.new)) }
    {
        match self {
            Process::Coordinator(coordinator) => trim_coordinator(coordinator),
            Process::Manager(manager) => trim_manager(manager),
        }
    }

    /// How many bytes its log has. A crash that keeps N after the forced front keeps every record.
    pub fn log_size(&self) -> usize
        ensures { left_by (core_of self.now).log result ≡ records_of (core_of self.now).log.kept }
    {
        match self {
            Process::Coordinator(coordinator) => coordinator.log_size(),
            Process::Manager(manager) => manager.manager().log_size(),
        }
    }

    /// How many of its unforced records a crash would leave that keeps N bytes after the forced front.
    pub fn unforced_left(&self, keep: usize) -> Result<usize, AllocError>
        ensures { IfOk result (λ count. count ≡ records_kept (core_of self.now) keep) }
    {
        match self {
            Process::Coordinator(coordinator) => coordinator.unforced_left(keep),
            Process::Manager(manager) => manager.manager().unforced_left(keep),
        }
    }

    /// Each record of its log can be in a log of its sort.
    pub fn records_are_sound(&self)
        ensures { KeepsSoundLog (core_of self.now) }
    {
        match self {
            Process::Coordinator(coordinator) => coordinator.records_are_sound(),
            Process::Manager(manager) => manager.manager().records_are_sound(),
        }
    }

    /// The records of a manager's log may follow one another, as those of each log that a key store writes.
    fn records_follow(&self)
        ensures { FollowAt (core_of self.now).place.role (records_of (core_of self.now).log.kept) }
    {
        match self {
            Process::Coordinator(_) => {}
            Process::Manager(manager) => manager.manager().records_are_in_order(),
        }
    }

    /// Each record of its log can be there, and those of a manager may follow one another. It does nothing.
    pub fn log_stands(&self)
        ensures { LogStands (core_of self.now) }
    {
        self.records_are_sound();
        self.records_follow();
    }

    /// N bytes after the forced front are kept; all, if no number is given.
    fn kept_of(&self, bytes: Option<u64>) -> usize
        ensures { KeepsBytes (core_of self.now) bytes result }
    {
        match bytes {
            None => self.log_size(),
            Some(bytes) => bytes as usize,
        }
    }

    /// Restarts the process, and gives how many of its unforced records were kept.
    pub fn restart_keeping(&mut self, bytes: Option<u64>) -> Result<(u64, Reaction), StepError>
        ensures ok { IfOk result (RestartsNode (core_of self.old) (core_of self.new)
            (data_of self.new) bytes) }
        ensures err { IfErr result (NoRestart (core_of self.old) (core_of self.new)
            (data_of self.old) (data_of self.new) bytes) }
    {
        let keep = self.kept_of(bytes);
        let kept = self.unforced_left(keep)? as u64;
        let reaction = self.restart(keep)?;
        Ok((kept, reaction))
    }

    /// Trims the log of a process that is up.
    pub fn trim_sound(&mut self) -> Result<u64, StepError>
        ensures ok { IfOk result (TrimsNode (core_of self.old) (core_of self.new)
            (data_of self.old) (data_of self.new)) }
        ensures err { IfErr result (NoTrim (core_of self.old) (core_of self.new)
            (data_of self.old) (data_of self.new)) }
    {
        self.records_are_sound();
        if self.failed() {
            return Err(StepError::Failed);
        }
        self.trim()
    }
}

/// A coordinator restarts; it has no data.
fn restart_coordinator<L: LogStore>(
    coordinator: &mut Coordinator<L>,
    keep: usize,
) -> Result<Reaction, StepError>
    ensures ok { IfOk result (ProcessRestarts (state coordinator.old) keep
        (state coordinator.new)) }
    ensures holdings { OnOk result (RestartsData (state coordinator.old).place.role
        (left_by (state coordinator.old).log keep) no_data) }
    ensures err { IfErr result (ProcessNotRestarted (state coordinator.old) keep
        (state coordinator.new)) }
    ensures kept { IfErr result (KeepsDataUnlessFailed no_data no_data) }
{
    coordinator.restart(keep)
}

/// A manager restarts; its data are what its branches in doubt promised.
fn restart_manager<L: LogStore>(
    manager: &mut Subordinate<KvManager<L>>,
    keep: usize,
) -> Result<Reaction, StepError>
    ensures ok { IfOk result (ProcessRestarts (manager_state sight_of manager.old) keep
        (manager_state sight_of manager.new)) }
    ensures holdings { OnOk result (RestartsData (manager_state sight_of manager.old).place.role
        (left_by (manager_state sight_of manager.old).log keep)
        (manager_data (sight_of manager.new.manager))) }
    ensures err { IfErr result (ProcessNotRestarted (manager_state sight_of manager.old) keep
        (manager_state sight_of manager.new)) }
    ensures kept { IfErr result (KeepsDataUnlessFailed (manager_data (sight_of manager.old.manager))
        (manager_data (sight_of manager.new.manager))) }
{
    manager.restart(keep)
}

/// The log of a coordinator is trimmed.
fn trim_coordinator<L: LogStore>(coordinator: &mut Coordinator<L>) -> Result<u64, StepError>
    ensures ok { IfOk result (ProcessTrims (state coordinator.old) (state coordinator.new)) }
    ensures holdings { OnOk result (TrimsData (state coordinator.old).place.role no_data no_data) }
    ensures err { IfErr result (ProcessNotTrimmed (state coordinator.old)
        (state coordinator.new)) }
    ensures kept { IfErr result (KeepsDataUnlessFailed no_data no_data) }
{
    coordinator.trim()
}

/// The log of a manager is trimmed, and its data stay.
fn trim_manager<L: LogStore>(manager: &mut Subordinate<KvManager<L>>) -> Result<u64, StepError>
    ensures ok { IfOk result (ProcessTrims (manager_state sight_of manager.old)
        (manager_state sight_of manager.new)) }
    ensures holdings { OnOk result (TrimsData (manager_state sight_of manager.old).place.role
        (manager_data (sight_of manager.old.manager)) (manager_data (sight_of manager.new.manager))) }
    ensures err { IfErr result (ProcessNotTrimmed (manager_state sight_of manager.old)
        (manager_state sight_of manager.new)) }
    ensures kept { IfErr result (KeepsDataUnlessFailed (manager_data (sight_of manager.old.manager))
        (manager_data (sight_of manager.new.manager))) }
{
    manager.trim()
}
