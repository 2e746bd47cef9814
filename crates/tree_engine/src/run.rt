//! A run that goes on until an event is refused.

ghost use Rattle.std.specs.Prelude.{◌≡◌, ◌⊎◌, ◌+◌, ◌++◌, ◌∷◌, [], IfErr, IfOk, List, OnOk, map};
ghost use Rattle.report_io.specs.Streams.{IsOfRun};
ghost use Rattle.protocol_words.specs.Types.{AnyEvent};
ghost use Rattle.protocol.specs.Trees.{IsTree};
ghost use Rattle.tree_state.specs.Worlds.{WorldState};
ghost use Rattle.log_store.specs.Memory.{memory_bytes};
ghost use Rattle.tree_engine.specs.Failures.{CannotMake};
ghost use Rattle.tree_engine.specs.Reopened.{IsDamage, bytes_in};
ghost use Rattle.tree_engine.specs.Runs.{OpensRun, BeginsOver, HasCome, IsFailure, IsOwn};

use log_script::{ProcessLog, bytes_of};
use log_store::MemoryStore;
use protocol::{Event, ProcessId, StepError, Tree, TreeProcess};
use report_io::Failure;
use std::alloc::{AllocError, Global};
use tree_world::{TreeReopenError, World};

/// How many events were made, and why the next was refused; or none was.
pub type Refusal = Option<(usize, StepError)>;

/// A refusal of an event itself; else why a run cannot go on: memory was refused, a device failed, or numbers
/// are used up.
pub fn own_refusal(refusal: StepError) -> Result<StepError, Failure>
    ensures own { IfOk result (λ own. (own ≡ refusal) × IsOwn own) }
    ensures err { IfErr result (IsFailure refusal) }
    ensures why { IfErr result IsOfRun }
{
    match refusal {
        StepError::Memory => Err(Failure::Memory),
        StepError::Device => Err(Failure::Device),
        StepError::Exhausted => Err(Failure::Exhausted),
        _ => Ok(refusal),
    }
}

/// Stores in memory, each with the log of the process at its place.
fn stores_of(
    alloc: Global,
    entries: &[TreeProcess],
    logs: &[ProcessLog],
) -> Result<Vec<MemoryStore>, AllocError>
    ensures { IfOk result (λ stores. map memory_bytes stores.items ≡ bytes_in entries.now logs.now) }
{
    let mut stores = Vec::new(alloc);
    for entry in entries {
        let bytes = Vec::from_slice(alloc, bytes_of(logs, entry.id))?;
        stores.push(MemoryStore::from_bytes(bytes))?;
    }
    Ok(stores)
}

/// A tree that runs, how many events were made, and which was refused, if one was: then none after it is
/// made.
pub struct Run {
    pub(crate) world: World<MemoryStore>,
    pub(crate) made: usize,
    pub(crate) refusal: Refusal,
}

impl Run {
    /// A tree that opens over logs in memory. The tree is one that passed its check.
    pub fn open(alloc: Global, tree: Tree) -> Result<Run, Failure>
        requires { IsTree tree }
        ensures begins { IfOk result (λ run. OpensRun tree run) }
        ensures memory { IfErr result (λ e. e ≡ Failure.Memory) }
    {
        match World::new(alloc, tree) {
            Err(_) => Err(Failure::Memory),
            Ok(world) => Ok(Run {
                world,
                made: 0,
                refusal: None,
            }),
        }
    }

    /// A tree that opens over these logs, in memory; or the first of them that is damaged, as bytes or as the
    /// log of its process in this tree, and where. The tree is one that passed its check.
    pub fn reopen(
        alloc: Global,
        tree: Tree,
        logs: &[ProcessLog],
    ) -> Result<Result<Run, (ProcessId, usize)>, Failure>
        requires { IsTree tree }
        ensures begins { IfOk result (λ opened. IfOk opened (BeginsOver tree logs.now)) }
        ensures damage { IfOk result (λ opened. IfErr opened (λ d. IsDamage tree logs.now d.0 d.1)) }
        ensures memory { IfErr result (λ e. e ≡ Failure.Memory) }
    {
        let stores = stores_of(alloc, tree.entries(), logs)?;
        match World::reopen(alloc, tree, stores) {
            Ok(world) => Ok(Ok(Run {
                world,
                made: 0,
                refusal: None,
            })),
            Err((TreeReopenError::Damaged(process, place), _stores)) => Ok(Err((process, place))),
            Err((_, _stores)) => Err(Failure::Memory),
        }
    }

    /// Lets the run go, and its tree by a call.
    pub fn close(self) {
        let Run {
            world,
            made: _,
            refusal: _,
        } = self;
        world.close();
    }

    /// The tree as it is.
    pub fn world(&self) -> &World<MemoryStore>
        ensures { result.now ≡ self.now.world }
    {
        &self.world
    }

    /// The tree as it is, which goes on without the run.
    pub fn into_world(self) -> World<MemoryStore>
        ensures { result ≡ self.world }
    {
        let Run {
            world,
            made: _,
            refusal: _,
        } = self;
        world
    }

    /// Which event was refused, by how many were made before it, and why.
    pub fn refusal(&self) -> Refusal
        ensures { result ≡ self.now.refusal }
    {
        self.refusal
    }

    /// Makes this event after those that it was given, unless one of them was refused. Memory, Device,
    /// Exhausted: the tree stops at it for that, or it is the 2^64th.
    pub fn make(&mut self, event: Event) -> Result<(), Failure>
        ensures goes_on { OnOk result ((start : WorldState) (given : List AnyEvent)
            → HasCome start given self.old → HasCome start (given ++ event ∷ []) self.new) }
        ensures err { IfErr result (λ why. (start : WorldState) (given : List AnyEvent)
            → HasCome start given self.old → CannotMake start (given ++ event ∷ []) why) }
        ensures why { IfErr result IsOfRun }
        ensures over { self.new.world.reopened ≡ self.old.world.reopened }
    {
        if self.refusal.is_some() {
            return Ok(());
        }
        let Some(made) = self.made.checked_add(1) else {
            return Err(Failure::Exhausted);
        };
        match self.world.apply(event) {
            Ok(()) => {
                self.made = made;
                Ok(())
            }
            Err(refusal) => {
                self.refusal = Some((self.made, own_refusal(refusal)?));
                Ok(())
            }
        }
    }

    /// Makes these events, one after another. The errors are those of `make` at one of them, and Memory.
    pub fn make_all(&mut self, alloc: Global, events: &[Event]) -> Result<(), Failure>
        ensures goes_on { OnOk result ((start : WorldState) (given : List AnyEvent)
            → HasCome start given self.old → HasCome start (given ++ events.now) self.new) }
        ensures err { IfErr result (λ why. (why ≡ Failure.Memory)
            ⊎ ((start : WorldState) (given : List AnyEvent)
            → HasCome start given self.old → CannotMake start (given ++ events.now) why)) }
        ensures why { IfErr result IsOfRun }
        ensures over { self.new.world.reopened ≡ self.old.world.reopened }
    {
        for event in events {
            self.make(event.copied(alloc)?)?;
        }
        Ok(())
    }
}
