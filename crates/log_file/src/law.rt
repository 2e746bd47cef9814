//! Laws of stores over files. The functions do nothing: each one's contract is a law.

ghost use Rattle.log_file.specs.Disks.{
  BlocksStandAfterThem,
  ForcesAreOnDisk,
  KeepsWhatWasForced,
  PutsAreOnDisk,
};

use crate::log_file::LogFile;
use crate::store::FileStore;

/// What a force, a replace and an opening ask of a file leaves it on the disk, and a block that is being
/// written stands after what is there.
pub fn forces_are_on_disk<F: LogFile>(store: &FileStore<F>)
    ensures puts { PutsAreOnDisk F.replaces store.now }
    ensures forces { ForcesAreOnDisk F.writes F.syncs store.now }
    ensures blocks { BlocksStandAfterThem store.now }
{}

/// Whatever a crash leaves of a store's file, within a force or not, holds all that was forced, and a front
/// of the rest.
pub fn files_keep_what_was_forced<F: LogFile>(store: &FileStore<F>)
    ensures { KeepsWhatWasForced store.now }
{}
