//! What is brought up to a store, before anybody is told of what rests on it.

ghost use Rattle.std.specs.Prelude.{◌≡◌, ⊤, OnOk};
ghost use Rattle.staged_store.specs.Backings.{AddsPromised, Asks, Holds, PutsPromised};
ghost use Rattle.staged_store.specs.Staged.{Continues, promised};

use crate::staged::StagedStore;
use log_file::{FileStore, LogFile};
use log_store::{LogStore, StoreError};

/// What makes safe what a store promised.
pub trait Backing<L: LogStore> {
    /// From the one to the other it was brought up to this store: what the store promised is safe.
    ghost brings: { Self → Self → L → Type 0 } = { λ _ _ _. ⊤ };

    /// Whether all that the store promised is safe already.
    fn is_up_to(&self, store: &L) -> bool;

    /// Makes safe what the store promised. Memory: nothing changed. Device: the device failed, and nobody is
    /// to be told of what rests on what was promised since it was last brought up.
    fn bring_up(&mut self, store: &L) -> Result<(), StoreError>
        ensures { OnOk result (brings self.old self.new store.now) };
}

/// No backing: a store that keeps its own promises.
#[derive(Clone, Copy, Drop)]
pub struct NoBacking;

impl<L: LogStore> Backing<L> for NoBacking {
    fn is_up_to(&self, _store: &L) -> bool {
        true
    }

    fn bring_up(&mut self, _store: &L) -> Result<(), StoreError> {
        Ok(())
    }
}

/// A file that is brought up to a store in memory: by one block and one sync, or by a new file in its place,
/// if other bytes took the place of what stood in the store.
pub struct FileBacking<F> {
    file: FileStore<F>,
    /// How often the store was replaced, to which it was last brought up.
    rewrites: u64,
}

// For the proof: what is let go by hand is proved here alone, and not again by each crate above.
impl<F: Drop> Drop for FileBacking<F> {
    fn drop(self) {
        let FileBacking {
            file: _,
            rewrites: _,
        } = self;
    }
}

impl<F: LogFile> FileBacking<F> {
    ghost use Rattle.staged_store.specs.Backings.{backing_file, backing_rewrites};

    /// The file of a store in which stands what is forced in the file, and which was not replaced yet.
    pub fn new(file: FileStore<F>) -> Self
        ensures file { backing_file result ≡ file }
        ensures rewrites { backing_rewrites result ≡ 0 }
    {
        FileBacking { file, rewrites: 0 }
    }

    /// The store over the file.
    pub fn file(&self) -> &FileStore<F>
        ensures { result.now ≡ backing_file self.now }
    {
        &self.file
    }

    /// The store over the file, which is released.
    pub fn into_file(self) -> FileStore<F>
        ensures { result ≡ backing_file self }
    {
        let FileBacking { file, rewrites: _ } = self;
        file
    }

    /// A new file of all that is promised takes the place of the old one.
    fn put(&mut self, promised: &[u8], rewrites: u64) -> Result<(), StoreError>
        ensures { OnOk result (PutsPromised F.replaces self.old self.new promised.now rewrites) }
    {
        self.file.replace(promised)?;
        self.rewrites = rewrites;
        Ok(())
    }

    /// What was promised since is written as one block.
    fn add(&mut self, more: &[u8]) -> Result<(), StoreError>
        ensures { OnOk result (AddsPromised F.writes F.syncs F.replaces self.old self.new more.now) }
    {
        self.file.append(more)?;
        self.file.force()
    }
}

impl<F: LogFile> Backing<StagedStore> for FileBacking<F> {
    ghost brings = { λ old new s. Asks F.writes F.syncs F.replaces old new (promised s) s.rewrites };

    fn is_up_to(&self, store: &StagedStore) -> bool {
        self.rewrites == store.rewrites() && self.file.forced() == store.forced()
    }

    fn bring_up(&mut self, store: &StagedStore) -> Result<(), StoreError>
        ensures asks { OnOk result (Asks F.writes F.syncs F.replaces self.old self.new (promised store.now)
            store.now.rewrites) }
        ensures holds { OnOk result ((before : StagedStore) → Holds self.old before
            → Continues before store.now
            → Holds self.new store.now) }
    {
        let promised = store.promised();
        let rewrites = store.rewrites();
        if rewrites != self.rewrites {
            return self.put(promised, rewrites);
        }
        if self.file.forced() == promised.len() {
            return Ok(());
        }
        match promised.get(self.file.bytes().len()..) {
            Some(more) => self.add(more),
            None => self.put(promised, rewrites),
        }
    }
}
