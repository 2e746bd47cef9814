//! One state that a manager may be in.

ghost use Rattle.std.specs.Prelude.{◌≡◌, ◌↔◌, IfOk, IsTrue};
ghost use Rattle.judge_state.specs.Sights.{first_sight};

use crate::parts::{JudgedBranch, JudgedWrite, Link, Listed, Work};
use crate::same::{are_branches, are_links, are_listed, are_numbers, are_values, are_works};
use std::alloc::{AllocError, Global};
use std::marker::Model;

/// One state that a manager may be in. Contracts see a `Sight`.
#[derive(Drop)]
pub struct State {
    pub(crate) opened: bool,
    pub(crate) hung: bool,
    pub(crate) links: Vec<Link>,
    pub(crate) migrated: Vec<u32>,
    pub(crate) branches: Vec<JudgedBranch>,
    pub(crate) works: Vec<Work>,
    pub(crate) scans: Vec<u32>,
    pub(crate) listed: Vec<Listed>,
    pub(crate) values: Vec<JudgedWrite>,
    pub(crate) outside: Vec<u32>,
    pub(crate) lost: Vec<JudgedBranch>,
    pub(crate) lost_works: Vec<Work>,
}

impl Model for State {
    ghost use Rattle.judge_state.specs.Sights.{Sight};

    ghost Value = { Sight };

    ghost view = { λ s. record {
      opened = s.opened;
      hung = s.hung;
      links = s.links.items;
      migrated = s.migrated.items;
      branches = s.branches.items;
      works = s.works.items;
      scans = s.scans.items;
      listed = s.listed.items;
      values = s.values.items;
      outside = s.outside.items;
      lost = s.lost.items;
      lost_works = s.lost_works.items;
    } };
}

impl State {
    /// The first state. It takes no memory.
    pub fn first(alloc: Global) -> State
        ensures { result ≡ first_sight }
    {
        State {
            opened: false,
            hung: false,
            links: Vec::new(alloc),
            migrated: Vec::new(alloc),
            branches: Vec::new(alloc),
            works: Vec::new(alloc),
            scans: Vec::new(alloc),
            listed: Vec::new(alloc),
            values: Vec::new(alloc),
            outside: Vec::new(alloc),
            lost: Vec::new(alloc),
            lost_works: Vec::new(alloc),
        }
    }

    /// A copy of the state.
    pub fn copied(&self, alloc: Global) -> Result<State, AllocError>
        ensures { IfOk result (λ state. state ≡ self.now) }
    {
        Ok(State {
            opened: self.opened,
            hung: self.hung,
            links: Vec::from_slice(alloc, &self.links)?,
            migrated: Vec::from_slice(alloc, &self.migrated)?,
            branches: Vec::from_slice(alloc, &self.branches)?,
            works: Vec::from_slice(alloc, &self.works)?,
            scans: Vec::from_slice(alloc, &self.scans)?,
            listed: Vec::from_slice(alloc, &self.listed)?,
            values: Vec::from_slice(alloc, &self.values)?,
            outside: Vec::from_slice(alloc, &self.outside)?,
            lost: Vec::from_slice(alloc, &self.lost)?,
            lost_works: Vec::from_slice(alloc, &self.lost_works)?,
        })
    }
}

/// Whether the same branches are known, with the same associations.
fn have_same_tables(a: &State, b: &State) -> bool
    ensures { IsTrue result ↔ ((a.now.links ≡ b.now.links) × (a.now.migrated ≡ b.now.migrated)
        × (a.now.branches ≡ b.now.branches)) }
{
    are_links(&a.links, &b.links)
        && are_numbers(&a.migrated, &b.migrated)
        && are_branches(&a.branches, &b.branches)
}

/// Whether the scans are the same, and who worked outside of any branch.
fn have_same_scans(a: &State, b: &State) -> bool
    ensures { IsTrue result ↔ ((a.now.scans ≡ b.now.scans) × (a.now.listed ≡ b.now.listed)
        × (a.now.outside ≡ b.now.outside)) }
{
    are_numbers(&a.scans, &b.scans)
        && are_listed(&a.listed, &b.listed)
        && are_numbers(&a.outside, &b.outside)
}

/// Whether the same was written and committed.
fn have_same_data(a: &State, b: &State) -> bool
    ensures { IsTrue result ↔ ((a.now.works ≡ b.now.works) × (a.now.values ≡ b.now.values)) }
{
    are_works(&a.works, &b.works) && are_values(&a.values, &b.values)
}

/// Whether the same may come back.
fn have_same_past(a: &State, b: &State) -> bool
    ensures { IsTrue result ↔ ((a.now.lost ≡ b.now.lost) × (a.now.lost_works ≡ b.now.lost_works)) }
{
    are_branches(&a.lost, &b.lost) && are_works(&a.lost_works, &b.lost_works)
}

/// Whether both are open, or neither, and in both a call got no answer, or in neither.
fn have_same_ends(a: &State, b: &State) -> bool
    ensures { IsTrue result ↔ ((a.now.opened ≡ b.now.opened) × (a.now.hung ≡ b.now.hung)) }
{
    a.opened == b.opened && a.hung == b.hung
}

/// Whether two states are one.
#[tactic(auto, using(crate::proofs::Sameness::one_sight))]
pub fn are_same(a: &State, b: &State) -> bool
    ensures { IsTrue result ↔ (a.now ≡ b.now) }
{
    have_same_ends(a, b)
        && have_same_tables(a, b)
        && have_same_scans(a, b)
        && have_same_data(a, b)
        && have_same_past(a, b)
}
