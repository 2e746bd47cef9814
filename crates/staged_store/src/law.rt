//! Laws of stores in memory and their files. The functions do nothing: each one's contract is a law.

ghost use Rattle.staged_store.specs.Crashes.{GroupsStandOrNot};
ghost use Rattle.staged_store.specs.Staged.{StoresContinue};

use crate::staged::StagedStore;
use log_file::{FileStore, LogFile};

/// Each call of a store leaves one that goes on from it (`Continues`), and so do many calls.
pub fn stores_continue(store: &StagedStore)
    ensures { StoresContinue store.now }
{}

/// Whatever a crash leaves of a file that was being brought up to a store holds what was promised when it was
/// last brought up, or what it was being brought up to.
pub fn groups_stand_or_not<F: LogFile>(file: &FileStore<F>)
    ensures { GroupsStandOrNot file.now }
{}
