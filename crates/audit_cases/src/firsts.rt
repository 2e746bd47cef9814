//! What is kept of the cases of children, by the first case that names them.

ghost use Rattle.std.specs.Prelude.{◌≡◌, [], OnOk};
ghost use Rattle.std.specs.Map.{lookup};
ghost use Rattle.std.specs.Option.{option_copied};
ghost use Rattle.coord_records.specs.Readings.{same};
ghost use Rattle.audit_cases.specs.Firsts.{with_first, with_named};

use crate::notes::Noted;
use indexmap::IndexMap;
use protocol::Case;
use std::alloc::{AllocError, Global};
use std::marker::Model;

/// Of each case of a child that a case of the process names, what was kept for the first that names it.
#[derive(Drop)]
pub struct Firsts<V: Drop> {
    values: IndexMap<Case, V>,
}

impl<V: Drop> Model for Firsts<V> {
    ghost use Rattle.std.specs.Prelude.{List};
    ghost use Rattle.protocol_words.specs.Types.{AnyCase};

    ghost Value = { List (AnyCase × V) };

    ghost view = { λ f. f.values.entries };
}

impl<V: Copy + Drop> Firsts<V> {
    /// Nothing is kept. It takes no memory.
    pub fn new(alloc: Global) -> Self
        ensures { result ≡ [] }
    {
        Firsts {
            values: IndexMap::new(alloc),
        }
    }

    /// Keeps this of each child's case that a case names, unless something was kept of it before. AllocError:
    /// it is kept of some of them.
    pub fn keep_named(&mut self, case: &Case, note: &Noted, value: V) -> Result<(), AllocError>
        ensures { OnOk result (self.new ≡ with_named case.now.txn value self.old note.now.named) }
    {
        for ticket in note.named() {
            let child = Case {
                txn: case.txn,
                ticket: Some(*ticket),
            };
            self.keep(child, value)?;
        }
        Ok(())
    }

    /// Keeps this of a child's case, unless something was kept of it before.
    fn keep(&mut self, child: Case, value: V) -> Result<(), AllocError>
        ensures { OnOk result (self.new ≡ with_first self.old child value) }
    {
        if self.values.get(&child).is_none() {
            let _ = self.values.insert(child, value)?;
        }
        Ok(())
    }

    /// What was kept of a child's case.
    pub fn get(&self, child: &Case) -> Option<&V>
        ensures { option_copied result ≡ lookup (same child.now) self.now }
    {
        self.values.get(child)
    }
}
