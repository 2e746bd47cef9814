//! The steps in which a device failed.

ghost use Rattle.std.specs.Prelude.{◌≡◌, ◌≤◌, ◌-◌, ◌++◌, [], None, Some, IfOk, OnErr, OnOk, drop, length, take};
ghost use Rattle.std.specs.Option.{option_copied};
ghost use Rattle.tree_faults.specs.Faults.{AreInOrder, failed_entry, placed_in, woven};

use crate::count::Count;
use protocol::{Act, Happening, Input, JournalEntry, ProcessId, Reaction, Sequence, Step};
use std::alloc::{AllocError, Global};
use std::marker::Model;
use tree_journal::Journal;

/// What a step was to do in which a device failed.
#[derive(Drop)]
pub enum FaultCause {
    Act(Act),
    /// To deliver the message with this number.
    Message(u64),
    /// To restart the process, which keeps N records after its forced ones.
    Restart(u64),
    /// To trim the log, whose bytes were these.
    Trim(Vec<u8>),
}

/// A step in which a device failed, while it is not counted yet what it left.
#[derive(Drop)]
pub struct LastFault {
    pub process: ProcessId,
    pub cause: FaultCause,
    /// How many records stood in the process's log before it.
    pub before: Count,
}

/// A step in which a device failed.
#[derive(Drop)]
pub(crate) struct FailedStep {
    /// How many steps had been made.
    made: usize,
    step: Step,
}

/// The steps in which a device failed, in order, of which the last may not be counted yet.
#[derive(Drop)]
pub struct Faults {
    steps: Vec<FailedStep>,
    last: Option<LastFault>,
}

impl Model for Faults {
    ghost use Rattle.tree_faults.specs.Faults.{FaultsSight};

    ghost Value = { FaultsSight };

    ghost view = { λ f. record { counted = f.steps.items; last = f.last } };
}

/// What happened, made again.
fn copied_happening(alloc: Global, happening: &Happening) -> Result<Happening, AllocError>
    ensures { IfOk result (λ copy. copy ≡ happening.now) }
{
    Ok(match happening {
        Happening::Input(Input::Act(act)) => Happening::Input(Input::Act(act.copied(alloc)?)),
        Happening::Input(Input::Message(number, message)) => {
            Happening::Input(Input::Message(*number, message.copied(alloc)?))
        }
        Happening::Restart(kept) => Happening::Restart(*kept),
        Happening::Trim => Happening::Trim,
    })
}

/// The entry of a step in which a device failed: it shows nothing. It takes no memory.
pub fn failed_entry(alloc: Global, step: Step) -> JournalEntry
    ensures { result ≡ failed_entry step }
{
    JournalEntry {
        step,
        reaction: Reaction {
            begun: None,
            written: Sequence::new(alloc),
            told: None,
            messages: Sequence::new(alloc),
            kept: None,
        },
    }
}

/// As `failed_entry`, of a step that stays where it is.
fn copied_entry(alloc: Global, step: &Step) -> Result<JournalEntry, AllocError>
    ensures { IfOk result (λ entry. entry ≡ failed_entry step.now) }
{
    let happening = copied_happening(alloc, &step.happening)?;
    let copy = Step {
        process: step.process,
        happening,
        fault: step.fault,
    };
    Ok(failed_entry(alloc, copy))
}

/// Adds the steps of a journal from one place up to another.
fn push_made(
    trace: &mut Vec<JournalEntry>,
    journal: &Journal,
    start: usize,
    end: usize,
) -> Result<(), AllocError>
    requires order { start ≤ end }
    requires within { end ≤ length journal.now.entries }
    ensures { OnOk result (trace.new.items
        ≡ trace.old.items ++ take (end - start) (drop start journal.now.entries)) }
{
    for place in start..end {
        if let Some(entry) = journal.entry(place)? {
            trace.push(entry)?;
        }
    }
    Ok(())
}

impl Faults {
    /// None yet. It takes no memory.
    pub fn new(alloc: Global) -> Faults
        ensures { result ≡ record { counted = []; last = None } }
    {
        Faults {
            steps: Vec::new(alloc),
            last: None,
        }
    }

    /// The last one, where it is not counted yet what it left.
    pub fn last(&self) -> Option<&LastFault>
        ensures { option_copied result ≡ self.now.last }
    {
        self.last.as_ref()
    }

    /// A step failed, before which the process's log had this count. It takes no memory.
    pub fn note(&mut self, process: ProcessId, cause: FaultCause, before: Count)
        ensures { self.new ≡ record self.old {
          last = Some (record { process = process; cause = cause; before = before });
        } }
    {
        self.last = Some(LastFault {
            process,
            cause,
            before,
        });
    }

    /// The last one is counted, if it is one, before which N steps had been made. Memory: nothing changed.
    pub fn count(&mut self, made: usize, step: Option<Step>) -> Result<(), AllocError>
        ensures ok { OnOk result (self.new
            ≡ record { counted = self.old.counted ++ placed_in made step; last = None }) }
        ensures err { OnErr result (self.new ≡ self.old) }
    {
        if let Some(step) = step {
            self.steps.push(FailedStep { made, step })?;
        }
        self.last = None;
        Ok(())
    }

    /// The steps of a journal and those that are counted, each at its place, as a list made again.
    pub fn trace(&self, alloc: Global, journal: &Journal) -> Result<Vec<JournalEntry>, AllocError>
        requires { AreInOrder 0 self.now.counted (length journal.now.entries) }
        ensures { IfOk result (λ trace. trace.items ≡ woven 0 journal.now.entries self.now.counted) }
    {
        let mut trace = Vec::new(alloc);
        let mut made = 0;
        for failed in &self.steps {
            push_made(&mut trace, journal, made, failed.made)?;
            trace.push(copied_entry(alloc, &failed.step)?)?;
            made = failed.made;
        }
        push_made(&mut trace, journal, made, journal.len())?;
        Ok(trace)
    }
}
