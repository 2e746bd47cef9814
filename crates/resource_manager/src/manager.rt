//! The calls of a resource manager.

ghost use Rattle.std.specs.Prelude.{◌≡◌, ◌≢◌, ◌+◌, ◌++◌, false, Err, IfErr, IfOk, List, OnErr, OnOk};
ghost use Rattle.protocol_words.specs.Types.{AnyRecord};
ghost use Rattle.std.specs.List.{AllByRecursion};
ghost use Rattle.xa_branch.specs.Branches.{AreBranchesListedOnce};
ghost use Rattle.xa_branch.specs.Decisions.{decision_at};
ghost use Rattle.xa_xid.specs.Xids.{null_xid};
ghost use Rattle.xa_assoc.specs.Answers.{AnswersCall, Closes, OpensManager, Recovers, Wanted, map_ok, state_at};
ghost use Rattle.resource_manager.specs.Sights.{ManagerCalls, ManagerSight, SameManager};
ghost use Rattle.resource_manager.specs.Works.{WorkRefused, ThreadWorks};
ghost use Rattle.resource_manager.specs.Idle.{HasBegun, Idles, IsIdle, WorksIdle};
ghost use Rattle.resource_manager.specs.Ends.{ManagerFinishes, is_left};
ghost use Rattle.resource_manager.specs.Deciding.{ManagerDecides, ManagerNotDecided};
ghost use Rattle.resource_manager.specs.Restarting.{ManagerNotRestarted, RestartsManager};
ghost use Rattle.resource_manager.specs.Orders.{AreInOrder};
ghost use Rattle.resource_manager.specs.Trimming.{ManagerNotTrimmed, ManagerTrims};
ghost use Rattle.log_records.specs.Sights.{IsLogFront, frames_size, left_by, records_of};
ghost use Rattle.log_rules.specs.sound.Sound.{IsSound};
ghost use Rattle.protocol_words.specs.kind;

use crate::errors::{DecideError, RestartError, TrimError};
use protocol::{LogRecord, Op, Outcome};
use std::alloc::AllocError;
use xa_assoc::WorkError;
use xa_branch::Decision;
use xa_codes::{Code, Flags};
use xa_tables::{BranchState, Verb};
use xa_xid::Xid;

/// A resource manager: the calls of XA, a thread's work, and its log, whatever its data are. A manager whose
/// device has failed answers XAER_RMFAIL to each call, and changes nothing. Want of memory changes nothing.
pub trait ResourceManager {
    ghost sight: { Self → ManagerSight };

    /// How often the manager opened.
    fn boot(&self) -> u64
        ensures { result ≡ (sight self.now).boot };

    /// Whether its device has failed.
    fn failed(&self) -> bool
        ensures { result ≡ (sight self.now).log.failed };

    /// The state of a branch: S0 where it is not known.
    fn state(&self, xid: &Xid) -> BranchState
        ensures { result ≡ state_at (sight self.now).tables xid.now };

    /// What an operator decided of a branch, and what it was told since; None if no operator decided it,
    /// and after forget.
    fn decision(&self, xid: &Xid) -> Option<Decision>
        ensures { result ≡ decision_at (state_at (sight self.now).tables xid.now)
            ((sight self.now).decided xid.now) };

    /// Opens the manager, which migrates associations or not; one that is open stays so. RmFail. Inval,
    /// Async: the flags. A refusal changes nothing.
    fn open(&mut self, flags: Flags, migrates: bool) -> Code
        ensures { ManagerCalls (sight self.old) (sight self.new) (result ≡ Code.RmFail)
            (λ old new. OpensManager old new flags.0 migrates result) };

    /// Closes the manager; one that is not open stays so. RmFail. Inval, Async: the flags. Proto: there is an
    /// association. A refusal changes nothing.
    fn close(&mut self, flags: Flags) -> Code
        ensures { ManagerCalls (sight self.old) (sight self.new) (result ≡ Code.RmFail)
            (λ old new. Closes old new flags.0 result) };

    /// A thread begins work in a branch, joins it, or takes it up again (C193, xa_start). RmFail. Inval,
    /// Async: the flags. Proto: the manager is not open. Inval: the null XID. DupId, NotA: the branch is
    /// known, or is not. Proto: the thread or the branch is in no state for it. RmErr: a limit of the
    /// manager's own. These change nothing, nor does want of memory. RbRollback: an association was resumed
    /// of a branch that can only be rolled back; it is gone.
    fn start(&mut self, thread: u32, xid: &Xid, flags: Flags) -> Result<Code, AllocError>
        ensures answer { IfOk result (λ answer. (wanted : Wanted)
            → ManagerCalls (sight self.old) (sight self.new) (answer ≡ Code.RmFail)
            (λ old new. AnswersCall wanted old new Verb.Start thread xid.now flags.0 answer)) }
        ensures err { OnErr result (SameManager (sight self.old) (sight self.new)) };

    /// A thread ends its work in a branch, or suspends it (C193, xa_end). The codes are those of `start`, but
    /// for DupId. NoMigrate: it is suspended, and the same thread alone may resume it. RbRollback: the work
    /// failed, or had failed; the association is gone. With TMSUCCESS and with TMFAIL it takes no memory.
    fn end(&mut self, thread: u32, xid: &Xid, flags: Flags) -> Result<Code, AllocError>
        ensures answer { IfOk result (λ answer. (wanted : Wanted)
            → ManagerCalls (sight self.old) (sight self.new) (answer ≡ Code.RmFail)
            (λ old new. AnswersCall wanted old new Verb.End thread xid.now flags.0 answer)) }
        ensures err { OnErr result ((is_left flags.0 ≡ false)
            × SameManager (sight self.old) (sight self.new)) };

    /// While no thread has an association, a new branch begins and is left idle, as by a start and an end
    /// with TMSUCCESS. False: the start would be refused; nothing changed, nor does want of memory.
    fn begin_idle(&mut self, xid: &Xid) -> Result<bool, AllocError>
        requires idle { IsIdle (sight self.old) }
        requires up { (sight self.old).log.failed ≡ false }
        requires named { xid.now ≢ null_xid }
        ensures ok { IfOk result (HasBegun (sight self.old) (sight self.new) xid.now) }
        ensures err { OnErr result (SameManager (sight self.old) (sight self.new)) };

    /// While no thread has an association, an idle branch does an operation, as by a start with TMJOIN, the
    /// work and an end. False: it was refused, and the branch can only be rolled back. Memory: the branch is
    /// idle as before.
    fn work_idle(&mut self, xid: &Xid, op: &Op) -> Result<bool, AllocError>
        requires idle { IsIdle (sight self.old) }
        requires up { (sight self.old).log.failed ≡ false }
        requires named { xid.now ≢ null_xid }
        requires state { state_at (sight self.old).tables xid.now ≡ BranchState.S2 }
        ensures ok { IfOk result (WorksIdle (sight self.old) (sight self.new) xid.now op.now) }
        ensures err { OnErr result (Idles (sight self.old) (sight self.new) xid.now) };

    /// A branch promises, with what it has written; one that wrote nothing is ended (C193, xa_prepare).
    /// RmFail: the device had failed, or fails now. Inval, Async: the flags. Proto: the manager is not open.
    /// Inval: the null XID. NotA: the branch is not known. Proto: a thread is in it, or its state has no such
    /// row. RmErr: a limit of the manager's own. All but a failure now change nothing, nor does want of
    /// memory. The thread is not looked at.
    fn prepare(&mut self, thread: u32, xid: &Xid, flags: Flags) -> Result<Code, AllocError>
        ensures answer { IfOk result (ManagerFinishes (sight self.old) (sight self.new)
            Verb.Prepare xid.now flags.0) }
        ensures err { OnErr result (SameManager (sight self.old) (sight self.new)) };

    /// A prepared branch commits, or with TMONEPHASE one that is not prepared. One that an operator decided
    /// answers by the decision, and the first outcome that it is told is noted. The refusals are
    /// those of `prepare`.
    fn commit(&mut self, thread: u32, xid: &Xid, flags: Flags) -> Result<Code, AllocError>
        ensures answer { IfOk result (ManagerFinishes (sight self.old) (sight self.new)
            Verb.Commit xid.now flags.0) }
        ensures err { OnErr result (SameManager (sight self.old) (sight self.new)) };

    /// A branch rolls back; one that an operator decided as at `commit`. The refusals are those of `prepare`.
    fn rollback(&mut self, thread: u32, xid: &Xid, flags: Flags) -> Result<Code, AllocError>
        ensures answer { IfOk result (ManagerFinishes (sight self.old) (sight self.new)
            Verb.Rollback xid.now flags.0) }
        ensures err { OnErr result (SameManager (sight self.old) (sight self.new)) };

    /// An operator's decision about a branch is forgotten. The refusals are those of `prepare`.
    fn forget(&mut self, thread: u32, xid: &Xid, flags: Flags) -> Result<Code, AllocError>
        ensures answer { IfOk result (ManagerFinishes (sight self.old) (sight self.new)
            Verb.Forget xid.now flags.0) }
        ensures err { OnErr result (SameManager (sight self.old) (sight self.new)) };

    /// An operator decides a prepared branch, without its parent: the decision is forced, and stands until it
    /// is forgotten. The manager need not be open. Failed, then NotInDoubt: nothing changed. Memory: nothing
    /// changed. Exhausted: a limit of the manager's own is met; nothing changed. Device: it fails now.
    fn decide(&mut self, xid: &Xid, outcome: Outcome) -> Result<(), DecideError>
        ensures ok { OnOk result (ManagerDecides (sight self.old) (sight self.new) xid.now outcome) }
        ensures err { IfErr result (ManagerNotDecided (sight self.old) (sight self.new) xid.now outcome) };

    /// A scan of the branches in doubt (C193, xa_recover): the next of them, at most N. RmFail. Inval:
    /// the flags. Proto: the manager is not open. Inval: no scan is open and none begins. RmErr: a limit of
    /// the manager's own. A refusal changes nothing, nor does want of memory.
    fn recover(
        &mut self,
        thread: u32,
        count: u32,
        flags: Flags,
    ) -> Result<Result<Vec<Xid>, Code>, AllocError>
        ensures answer { IfOk result (λ answer. ManagerCalls (sight self.old) (sight self.new)
            (map_ok answer ≡ Err Code.RmFail)
            (λ old new. Recovers old new thread count flags.0 (map_ok answer))) }
        ensures err { OnErr result (SameManager (sight self.old) (sight self.new)) };

    /// A thread's operation in the branch that it is active in; a value that was read is let go. RmFail,
    /// NotAssociated, RollbackOnly come first, then TooLong, Locked and TooManyWrites, as the data are in
    /// the way.
    fn work(&mut self, thread: u32, op: &Op) -> Result<(), WorkError>
        ensures ok { OnOk result (ThreadWorks (sight self.old) (sight self.new) thread op.now) }
        ensures err { IfErr result (WorkRefused (sight self.old) (sight self.new) thread op.now) };

    /// The records that a crash would leave which keeps N bytes after the forced front, as a list
    /// made again.
    fn left(&self, keep: usize) -> Result<Vec<LogRecord>, AllocError>
        ensures { IfOk result (λ records. records.items ≡ left_by (sight self.now).log keep) };

    /// How many bytes its log has: the header and the frames of its records, and a torn one where its device
    /// has failed.
    fn log_size(&self) -> usize
        ensures { (sight self.now).log.failed ≡ false
            → result ≡ 5 + frames_size (records_of (sight self.now).log.kept) };

    /// Of the records that a crash would leave that keeps N bytes after the forced front, those after the
    /// first ones, if the header and the first ones, all of them forced, are `size` bytes.
    fn kept_after(&self, size: usize, keep: usize) -> Result<Vec<LogRecord>, AllocError>
        ensures { IfOk result (λ records. (first : List AnyRecord)
            → IsLogFront (sight self.now).log size first
            → first ++ records.items ≡ left_by (sight self.now).log keep) };

    /// Each record of its log can be in a manager's log: it was read off bytes.
    fn records_are_sound(&self)
        ensures { AllByRecursion (IsSound kind.Manager) (records_of (sight self.now).log.kept) };

    /// Each record of its log may be after those before it, also where its device has failed.
    fn records_are_in_order(&self)
        ensures { AreInOrder (records_of (sight self.now).log.kept) };

    /// Each branch that it knows is listed once, and none that is in S0.
    fn branches_are_listed_once(&self)
        ensures { AreBranchesListedOnce (sight self.now).tables.branches.branches };

    /// Restarts the manager after a crash that keeps N of the log's unforced bytes: it stands as the records
    /// say that are left, and is not open. Its own records are never refused. Memory: nothing changed.
    /// Exhausted: no boot below 2^63 comes after the last one; nothing changed. Device: the manager has
    /// failed until it is restarted.
    fn restart(&mut self, keep: usize) -> Result<(), RestartError>
        ensures ok { OnOk result (RestartsManager (sight self.old) (sight self.new) keep) }
        ensures err { IfErr result (ManagerNotRestarted (sight self.old) (sight self.new) keep) };

    /// Trims the log: the last Opened and the records of the branches that are not forgotten stay, and after
    /// them the data, keys rising, all of it forced by one write. Gives how many records remain. Its own
    /// records are never refused. Failed, Memory: nothing changed. Device: the log stands as it was or
    /// trimmed, and the manager has failed until a restart.
    fn trim(&mut self) -> Result<usize, TrimError>
        ensures ok { IfOk result (ManagerTrims (sight self.old) (sight self.new)) }
        ensures err { IfErr result (ManagerNotTrimmed (sight self.old) (sight self.new)) };
}
