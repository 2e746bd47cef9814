//! Which case of a process names a child's case.

ghost use Rattle.std.specs.Prelude.{◌≡◌, IfOk};
ghost use Rattle.audit_engine.specs.Namings.{AreNamed, found_at, namings_of, stands_in};

use crate::steps::{Stands, StepFound};
use audit_cases::{Firsts, Kinds, NotedCases};
use indexmap::IndexMap;
use protocol::{Case, ProcessId};
use std::alloc::{AllocError, Global};
use std::marker::Model;

/// What stands of a case at a coordinator: a decision before a promise, a promise before an end with no
/// decision, and that before the votes that it asks for.
fn stands_of(kinds: Kinds) -> Stands
    ensures { result ≡ stands_in kinds }
{
    if kinds.commit {
        Stands::Commit
    } else if kinds.abort {
        Stands::Abort
    } else if kinds.prepare {
        Stands::Prepare
    } else if kinds.ended {
        Stands::Ended
    } else {
        Stands::Collecting
    }
}

/// Of each case of a child that a case of the process names: the first of its cases that does, and what
/// stands of it.
#[derive(Drop)]
pub struct Namings {
    found: Firsts<StepFound>,
}

impl Model for Namings {
    ghost use Rattle.audit_engine.specs.Namings.{Founds};

    ghost Value = { Founds };

    ghost view = { λ s. s.found };
}

impl Namings {
    /// What these notes name, one case after another.
    fn passing(alloc: Global, notes: &NotedCases) -> Result<Namings, AllocError>
        ensures { IfOk result (λ s. s ≡ namings_of notes.now.table) }
    {
        let mut found = Firsts::new(alloc);
        for (case, note) in notes.cases() {
            found.keep_named(case, note, StepFound::Kept(*case, stands_of(note.kinds())))?;
        }
        Ok(Namings { found })
    }

    /// What a process names of which this is noted. It goes through its cases once.
    pub fn of(alloc: Global, notes: &NotedCases) -> Result<Namings, AllocError>
        ensures { IfOk result (λ s. AreNamed notes.now.table s) }
    {
        Namings::passing(alloc, notes)
    }

    /// What is found of a child's case.
    pub fn of_child(&self, case: &Case) -> StepFound
        ensures { result ≡ found_at self.now case.now }
    {
        match self.found.get(case) {
            Some(found) => *found,
            None => StepFound::Nothing,
        }
    }
}

/// What each process names.
pub type TreeNamings = IndexMap<ProcessId, Namings>;
