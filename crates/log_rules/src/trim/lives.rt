//! What the records of a log say of each name, as far as a trim must know.

ghost use Rattle.std.specs.Prelude.{◌≡◌, [], OnOk};
ghost use Rattle.log_rules.specs.trim.Tables.{is_live, keeps_by, life_in, no_life};
ghost use Rattle.log_rules.specs.trim.Marks.{decided_by, life_by, marked, said_by};

use indexmap::IndexMap;
use log_text::{MarkDeed, TrimMark};
use std::alloc::{AllocError, Global};
use std::marker::Model;
use xa_xid::Xid;

/// What the records of a name say of it.
#[derive(Clone, Copy, PartialEq, Eq)]
pub enum Said {
    /// Nothing.
    Nothing,
    /// It waits for its outcome, or, decided by an operator, to be forgotten.
    Waits,
    /// It is decided, and nobody owes an acknowledgement.
    Settled,
    /// It is decided, and somebody owes an acknowledgement.
    Owes,
    /// It is over.
    Over,
    /// It is over, and what was found of it is reported.
    Reported,
}

/// What a log says of a name, and the place of the record that last prepared it: how many records stand
/// before it, 0 if there is none.
#[derive(Clone, Copy)]
pub struct Life {
    said: Said,
    since: usize,
}

/// What a log says of each name.
#[derive(Drop)]
pub struct Lives {
    lives: IndexMap<Xid, Life>,
}

impl Model for Lives {
    ghost use Rattle.log_rules.specs.trim.Tables.{SaidTable};

    ghost Value = { SaidTable };

    ghost view = { λ l. l.lives.entries };
}

impl Said {
    /// What is said after a decision, which owes an acknowledgement or settles it.
    fn decided(self, decided: Said) -> Said
        ensures { result ≡ decided_by self decided }
    {
        match self {
            Said::Over => Said::Over,
            Said::Owes => Said::Owes,
            Said::Reported => Said::Reported,
            _ => decided,
        }
    }

    /// What is said after one more record of the name.
    fn after(self, deed: MarkDeed) -> Said
        ensures { result ≡ said_by self deed }
    {
        match deed {
            MarkDeed::Begins => match self {
                Said::Nothing => Said::Waits,
                said => said,
            },
            MarkDeed::Settles => self.decided(Said::Settled),
            MarkDeed::Owes => self.decided(Said::Owes),
            MarkDeed::Prepares | MarkDeed::Waits => Said::Waits,
            MarkDeed::Reports => Said::Reported,
            MarkDeed::Clears => match self {
                Said::Reported => Said::Over,
                said => said,
            },
            MarkDeed::Ends => Said::Over,
            MarkDeed::Opens | MarkDeed::Nothing => self,
        }
    }

    /// Whether the records of the name stay.
    fn is_live(self) -> bool
        ensures { result ≡ is_live self }
    {
        matches!(self, Said::Waits | Said::Owes | Said::Reported)
    }
}

impl Life {
    /// What is noted after one more record of the name, before which N stand.
    fn after(self, place: usize, deed: MarkDeed) -> Life
        ensures { result ≡ life_by place self deed }
    {
        let said = self.said.after(deed);
        let since = if matches!(deed, MarkDeed::Prepares) {
            place
        } else {
            self.since
        };
        Life { said, since }
    }
}

impl Lives {
    /// Nothing is noted of any name. It takes no memory.
    pub fn new(alloc: Global) -> Lives
        ensures { result ≡ [] }
    {
        Lives {
            lives: IndexMap::new(alloc),
        }
    }

    /// What is noted of a name.
    fn life(&self, name: &Xid) -> Life
        ensures { result ≡ life_in self.now name.now }
    {
        match self.lives.get(name) {
            Some(life) => *life,
            None => Life {
                said: Said::Nothing,
                since: 0,
            },
        }
    }

    /// Notes the record of this mark, before which N stand.
    pub fn note(&mut self, place: usize, mark: &TrimMark) -> Result<(), AllocError>
        ensures { OnOk result (self.new ≡ marked place self.old mark.now) }
    {
        let Some(name) = mark.name else {
            return Ok(());
        };
        let life = self.life(&name).after(place, mark.deed);
        self.lives.insert(name, life)?;
        Ok(())
    }

    /// Whether the record stays that is after N others.
    pub fn keeps(&self, place: usize, mark: &TrimMark) -> bool
        ensures { result ≡ keeps_by self.now place mark.now.name }
    {
        match mark.name {
            None => false,
            Some(name) => {
                let life = self.life(&name);
                life.said.is_live() && life.since <= place
            }
        }
    }
}
