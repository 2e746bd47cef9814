//! What the workers of one call share.

ghost use Rattle.std.specs.Prelude.{IfErr, IsTrue, OnOk};
ghost use Rattle.cluster_tree.specs.Refusals.{NotSettled};

use cluster_process::PostError;
use cluster_ties::seats::Seats;
use std::marker::{Model, PhantomData};
use std::sync::atomic::{AtomicBool, Ordering};
use std::sync::{Mutex, Wait};

/// Why the workers stopped: a delivery was refused, or memory. To a contract it is the refusal.
#[derive(Drop)]
struct Stop<N: Seats> {
    why: PostError,
    name: PhantomData<N>,
}

impl<N: Seats> Model for Stop<N> {
    ghost use Rattle.cluster_process.specs.declared.errors.PostError.{PostError as AnyError};
    ghost use Rattle.cluster_tree.specs.Refusals.{NotSettled};

    ghost Value = { AnyError };

    ghost view = { λ s. s.why };

    ghost invariant = { λ s. NotSettled N.tree s.why };
}

impl<N: Seats> Stop<N> {
    /// They stop for this reason.
    fn new(why: PostError) -> Stop<N>
        requires { NotSettled N.tree why }
    {
        Stop {
            why,
            name: PhantomData,
        }
    }

    /// The reason.
    fn why(&self) -> PostError
        ensures { NotSettled N.tree result }
    {
        self.why
    }
}

/// What the workers of one call, or of one run of a script, share: whether they are to deliver now, whether
/// all is done, and the first refusal. It changes under the journal's lock alone, so that no wake is lost.
#[derive(Drop)]
pub struct Rounds<N: Seats> {
    begun: AtomicBool,
    open: AtomicBool,
    done: AtomicBool,
    stopped: AtomicBool,
    why: Mutex<Option<Stop<N>>>,
}

impl<N: Seats> Rounds<N> {
    /// Nothing is delivered yet.
    pub fn new() -> Rounds<N> {
        Rounds {
            begun: AtomicBool::new(false),
            open: AtomicBool::new(false),
            done: AtomicBool::new(false),
            stopped: AtomicBool::new(false),
            why: Mutex::new(None),
        }
    }

    /// Whether the call that leads them has begun.
    pub(crate) fn has_begun(&self) -> bool {
        self.begun.load(Ordering::SeqCst)
    }

    pub(crate) fn begin(&self) {
        self.begun.store(true, Ordering::SeqCst);
    }

    /// Whether messages are to be delivered now.
    pub(crate) fn is_open(&self) -> bool {
        self.open.load(Ordering::SeqCst)
    }

    pub(crate) fn set_open(&self, open: bool) {
        self.open.store(open, Ordering::SeqCst);
    }

    /// Whether there is nothing more to come.
    pub(crate) fn is_done(&self) -> bool {
        self.done.load(Ordering::SeqCst)
    }

    pub(crate) fn finish(&self) {
        self.done.store(true, Ordering::SeqCst);
    }

    /// Whether a delivery was refused.
    pub(crate) fn is_stopped(&self) -> bool {
        self.stopped.load(Ordering::SeqCst)
    }

    /// A delivery was refused, or memory. The first refusal is kept.
    pub(crate) fn stop<R: Wait>(&self, rt: &R, why: PostError)
        requires { NotSettled N.tree why }
    {
        let mut kept = self.why.lock(rt);
        if kept.is_none() {
            *kept = Some(Stop::new(why));
        }
        self.stopped.store(true, Ordering::SeqCst);
    }

    /// How the deliveries ended, where the last worker found that every message is delivered, or did not.
    pub(crate) fn ended<R: Wait>(&self, rt: &R, is_settled: bool) -> Result<(), PostError>
        ensures ok { OnOk result (IsTrue is_settled) }
        ensures err { IfErr result (NotSettled N.tree) }
    {
        let kept = self.why.lock(rt);
        match kept.as_ref() {
            Some(stop) => Err(stop.why()),
            None if is_settled => Ok(()),
            None => Err(PostError::Memory),
        }
    }
}
