//! A coordinator's restart, and its trim.

ghost use Rattle.log_text.specs.Forms.{log_form};
ghost use Rattle.std.specs.Prelude.{◌≡◌, ℕ, [], false, IfErr, IfOk, OnOk};
ghost use Rattle.protocol_words.specs.kind;
ghost use Rattle.log_records.specs.Sights.{NotRewritten, left_by, log_state, records_of};
ghost use Rattle.log_records.specs.Trimming.{StaysTrimmed, LogTrimmed, trim_of};
ghost use Rattle.process_state.specs.States.{CoreState};
ghost use Rattle.process_state.specs.Restarting.{LeftSo, ProcessNotRestarted, ProcessNotTrimmed, ProcessRestarts, ProcessTrims};
ghost use Rattle.coord_process.specs.Reopened.{CoordinatorNotReopened, error_of_restart, reopen_number};
ghost use Rattle.coord_process.specs.Fronts.{IsRemembered};
ghost use Rattle.coord_process.specs.States.{error_of, place_of, role_below, state};
ghost use Rattle.coord_records.specs.Remembered.{RemembersCases};
ghost use Rattle.protocol.specs.LogNames.{own_records};

use crate::coordinator::{Coordinator, Front};
use coord_cases::{LiveCases, rebuild};
use coord_records::RememberedCases;
use log_records::{LogError, RecLog};
use log_store::LogStore;
use protocol::{ProcessId, Reaction, StepError, Tree};
use std::alloc::{AllocError, Global};
use thiserror::Error;

/// The error of a step for that of a log.
fn step_error(error: LogError) -> StepError
    ensures { result ≡ error_of error }
{
    match error {
        LogError::Memory => StepError::Memory,
        LogError::Device => StepError::Device,
    }
}

/// Why no coordinator goes on over the log that an earlier one left.
#[derive(Clone, Copy, Debug, PartialEq, Eq, Error)]
pub enum CoordinatorReopenError {
    /// A growth was refused.
    #[error("no memory")]
    Memory,
    /// The device failed.
    #[error("the device failed")]
    Device,
    /// No log holds what a restart would append: the boots are used up, or an Abort would name more than 255
    /// tickets.
    #[error("numbers are used up")]
    Exhausted,
}

impl CoordinatorReopenError {
    /// Its number, 1 to 3.
    pub fn number(self) -> u8
        ensures { result ≡ reopen_number self }
    {
        match self {
            CoordinatorReopenError::Memory => 1,
            CoordinatorReopenError::Device => 2,
            CoordinatorReopenError::Exhausted => 3,
        }
    }
}

/// The error of a process that goes on over a log, for that of its restart.
fn reopen_error(error: StepError) -> CoordinatorReopenError
    ensures { result ≡ error_of_restart error }
{
    match error {
        StepError::Memory => CoordinatorReopenError::Memory,
        StepError::Exhausted => CoordinatorReopenError::Exhausted,
        _ => CoordinatorReopenError::Device,
    }
}

/// Trims a coordinator's log again that a trim leaves as it is: it is put in its own place, and not read.
fn trim_again<L: LogStore>(alloc: Global, log: &mut RecLog<L>, count: usize) -> Result<(), LogError>
    requires works { log.old.sight.failed ≡ false }
    requires coordinators { log.old.sight.form.kind ≡ kind.Coordinator }
    requires settled { StaysTrimmed log.old count }
    ensures form { log.new.sight.form ≡ log.old.sight.form }
    ensures ok { OnOk result (LogTrimmed log.old log.new [] count) }
    ensures err { IfErr result (λ e. NotRewritten log.old log.new (trim_of log.old []) e) }
{
    log.put_again(alloc)
}

impl<L: LogStore> Coordinator<L> {
    /// What the records say that a crash leaves that keeps N of the log's unforced bytes. It reads on from
    /// the front that is remembered. If none is, or it cannot be read on from, it goes through all records
    /// once.
    fn left(&self, front: Option<Front>, keep: usize) -> Result<RememberedCases, AllocError>
        requires { IsRemembered self.now front }
        ensures { IfOk result (RemembersCases (own_records (place_of self.now)
            (left_by self.now.log.sight keep))) }
    {
        if let Some(front) = front {
            let Front {
                size,
                mut remembered,
            } = front;
            let records = self.log.kept_after(self.alloc, size, keep)?;
            if remembered.read_on(self.me, self.parent, &self.tree, &records)? {
                return Ok(remembered);
            }
        }
        let records = self.log.kept(self.alloc, keep)?;
        RememberedCases::of(self.alloc, self.me, self.parent, &self.tree, &records)
    }

    /// Restarts after a crash that keeps N of the log's unforced bytes: what is left of the log is read,
    /// Opened with the next boot is appended, and an Abort record of each case that collected votes after a
    /// record, all of it forced by one write. Decisions go out again, and cases in doubt ask. All memory is
    /// taken before the crash. The records are gone through that came after its last restart, or all of them
    /// after a trim. Memory: nothing changed. Exhausted: no log holds what it would append, since 2^63 - 1
    /// boots are used up, or an Abort would name more than 255 tickets; nothing changed. Device: the crash
    /// took place and the device failed under it; the coordinator has failed until it is restarted.
    pub fn restart(&mut self, keep: usize) -> Result<Reaction, StepError>
        ensures ok { IfOk result (ProcessRestarts (state self.old) keep (state self.new)) }
        ensures err { IfErr result (ProcessNotRestarted (state self.old) keep (state self.new)) }
    {
        let front = self.front.take();
        let remembered = self.left(front, keep)?;
        let rebuilt = rebuild(self.alloc, self.me, self.parent, remembered)?;
        if let Err(error) = self.log.restart(self.alloc, keep, &rebuilt.frames) {
            return Err(step_error(error));
        }
        self.boot = rebuilt.boot;
        self.begun = 0;
        self.given = 0;
        self.cases = rebuilt.cases;
        self.front = Some(Front {
            size: self.log.size(),
            remembered: rebuilt.remembered,
        });
        Ok(rebuilt.reaction)
    }

    /// Trims its log: the last Opened and the records of the cases that are not forgotten stay, forced by one
    /// write. Gives how many they are. A log that its last trim left as it was is not read. Failed, Memory:
    /// nothing changed. Device: the log stands as it was or trimmed, and the coordinator has failed until it
    /// is restarted.
    pub fn trim(&mut self) -> Result<u64, StepError>
        ensures ok { IfOk result (ProcessTrims (state self.old) (state self.new)) }
        ensures err { IfErr result (ProcessNotTrimmed (state self.old) (state self.new)) }
    {
        if self.log.failed() {
            return Err(StepError::Failed);
        }
        self.front = None;
        if let Some(count) = self.log.trimmed() {
            return match trim_again(self.alloc, &mut self.log, count) {
                Ok(()) => Ok(count as u64),
                Err(error) => Err(step_error(error)),
            };
        }
        match self.log.trim(self.alloc, &[]) {
            Ok(count) => Ok(count as u64),
            Err(error) => Err(step_error(error)),
        }
    }
}

impl<L: LogStore + Drop> Coordinator<L> {
    /// The coordinator `me` of this tree below this parent, as it restarts over the log that an earlier one
    /// left: the records that are in it are what a crash left. A case of a boot that the log had not reached,
    /// which no coordinator writes, restarts as the others do. A refusal hands the log back. Memory,
    /// Exhausted, Device: as of `restart`.
    pub fn reopen(
        alloc: Global,
        me: ProcessId,
        parent: Option<ProcessId>,
        tree: Tree,
        log: RecLog<L>,
    ) -> Result<(Coordinator<L>, Reaction), (CoordinatorReopenError, RecLog<L>)>
        requires { log.sight.form ≡ log_form me kind.Coordinator }
        ensures ok { IfOk result (λ made. (old : CoreState) → LeftSo old
            (record { me = me; role = role_below parent; tree = tree }) log.sight.failures
            → (keep : ℕ) → left_by old.log keep ≡ records_of log.sight.kept
            → ProcessRestarts old keep (state made.0) made.1) }
        ensures err { IfErr result (λ e. CoordinatorNotReopened
            (record { me = me; role = role_below parent; tree = tree }) log.sight e.1.sight e.0) }
    {
        let mut coordinator = Coordinator {
            alloc,
            me,
            parent,
            tree,
            log,
            boot: 0,
            begun: 0,
            given: 0,
            cases: LiveCases::new(alloc),
            front: None,
        };
        let keep = coordinator.log.size();
        match coordinator.restart(keep) {
            Ok(reaction) => Ok((coordinator, reaction)),
            Err(error) => Err((reopen_error(error), coordinator.into_log())),
        }
    }

    /// The store under its log, as it is.
    pub fn into_store(self) -> L
        ensures { (log_state (log_form self.me kind.Coordinator) (L.bytes result) (L.forced result)
            (L.failures result)
            (L.room result) (state self).log.failed).sight ≡ (state self).log }
    {
        self.into_log().into_store()
    }

    /// The log, as it is.
    fn into_log(self) -> RecLog<L>
        ensures { result ≡ self.log }
    {
        let Coordinator { log, .. } = self;
        log
    }
}
