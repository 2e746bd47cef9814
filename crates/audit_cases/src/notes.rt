//! One pass over the records of a log.

ghost use Rattle.std.specs.Prelude.{◌≡◌, ◌++◌, [], IfOk, OnOk, fold, map};
ghost use Rattle.std.specs.Map.{lookup};
ghost use Rattle.std.specs.Option.{option_copied};
ghost use Rattle.protocol.specs.LogNames.{own_by};
ghost use Rattle.protocol.specs.Nodes.{role_by};
ghost use Rattle.protocol.specs.Records.{record_case};
ghost use Rattle.coord_records.specs.Readings.{same};
ghost use Rattle.audit_cases.specs.Notes.{IsRecordAt, last_places, listed_in, no_note, no_notes, note_after, noted, noted_of, place_at, promised_in, reports_behind, tickets_in};

use crate::kinds::Kinds;
use coord_records::is_own;
use indexmap::{IndexMap, IndexSet};
use protocol::{
    BranchName, Case, Kind, LogRecord, ProcessId, Record, Reports, Ticket, Tree, TreeProcess,
};
use std::alloc::{AllocError, Global};
use std::marker::Model;

/// What is noted of a case: which records it has, the tickets that they name, and what its End reports that
/// was not cleared.
#[derive(Drop)]
pub struct Noted {
    kinds: Kinds,
    named: Vec<Ticket>,
    reports: Option<Reports>,
}

impl Model for Noted {
    ghost use Rattle.audit_cases.specs.Notes.{CaseNote};

    ghost Value = { CaseNote };

    ghost view = { λ n. record { kinds = n.kinds; named = n.named.items; reports = n.reports } };
}

/// What is noted of each case of a process, in order of the first records, and the cases of its Prepared, one
/// after another.
#[derive(Drop)]
pub struct NotedCases {
    alloc: Global,
    cases: IndexMap<Case, Noted>,
    promised: Vec<Case>,
}

impl Model for NotedCases {
    ghost use Rattle.audit_cases.specs.Notes.{LogNotes};

    ghost Value = { LogNotes };

    ghost view = { λ n. record { table = n.cases.entries; promised = n.promised.items } };
}

/// The tickets that a record names.
fn tickets_of(record: &Record) -> &[Ticket]
    ensures { result.now ≡ tickets_in record.now }
{
    match record {
        Record::Collecting(_, tickets)
        | Record::Prepare(_, tickets)
        | Record::Commit(_, tickets)
        | Record::Abort(_, tickets) => tickets.as_slice(),
        _ => &[],
    }
}

/// One record more: an End says what is reported, and Cleared undoes it.
fn note_reports(
    alloc: Global,
    reports: &mut Option<Reports>,
    record: &Record,
) -> Result<(), AllocError>
    ensures { OnOk result (reports.new ≡ reports_behind reports.old record.now) }
{
    match record {
        Record::End(_, Some(found)) => *reports = Some(found.copied(alloc)?),
        Record::End(_, None) | Record::Cleared(_) => *reports = None,
        _ => (),
    }
    Ok(())
}

impl Noted {
    /// No records. It takes no memory.
    fn nothing(alloc: Global) -> Noted
        ensures { result ≡ no_note }
    {
        Noted {
            kinds: Kinds::none(),
            named: Vec::new(alloc),
            reports: None,
        }
    }

    /// One record more of the case.
    fn note(&mut self, alloc: Global, record: &Record) -> Result<(), AllocError>
        ensures { OnOk result (self.new ≡ note_after self.old record.now) }
    {
        note_reports(alloc, &mut self.reports, record)?;
        self.named.extend_from_slice(tickets_of(record))?;
        self.kinds.note(record);
        Ok(())
    }

    /// Which records it has.
    pub fn kinds(&self) -> Kinds
        ensures { result ≡ self.now.kinds }
    {
        self.kinds
    }

    /// The tickets that they name.
    pub fn named(&self) -> &[Ticket]
        ensures { result.now ≡ self.now.named }
    {
        &self.named
    }

    /// What its End reports that was not cleared.
    pub fn reports(&self, alloc: Global) -> Result<Option<Reports>, AllocError>
        ensures { IfOk result (λ reports. reports ≡ self.now.reports) }
    {
        match &self.reports {
            None => Ok(None),
            Some(reports) => Ok(Some(reports.copied(alloc)?)),
        }
    }
}

/// One record more of a case.
fn note_of(
    alloc: Global,
    cases: &mut IndexMap<Case, Noted>,
    case: Case,
    record: &Record,
) -> Result<(), AllocError>
    ensures { OnOk result (cases.new.entries ≡ noted_of cases.old.entries case record.now) }
{
    match cases.get_mut(&case) {
        Some(note) => note.note(alloc, record)?,
        None => {
            let mut note = Noted::nothing(alloc);
            note.note(alloc, record)?;
            let _ = cases.insert(case, note)?;
        }
    }
    Ok(())
}

/// One record more: a Prepared promises its case.
fn note_promise(promised: &mut Vec<Case>, record: &Record) -> Result<(), AllocError>
    ensures { OnOk result (promised.new.items ≡ promised.old.items ++ promised_in record.now) }
{
    match record {
        Record::Prepared(BranchName::Case(case), _) => {
            promised.push(*case)?;
            Ok(())
        }
        _ => Ok(()),
    }
}

/// These cases, each once, at its last place. It goes through them once.
fn last_places(alloc: Global, cases: &[Case]) -> Result<Vec<Case>, AllocError>
    ensures { IfOk result (λ listed. listed.items ≡ last_places cases.now) }
{
    let mut seen = IndexSet::new(alloc);
    let mut listed = Vec::new(alloc);
    for index in (0..cases.len()).rev() {
        let case = cases[index];
        if seen.insert(case)? {
            listed.push(case)?;
        }
    }
    listed.reverse();
    Ok(listed)
}

/// These cases, as a list made again.
fn cases_of(alloc: Global, cases: &IndexMap<Case, Noted>) -> Result<Vec<Case>, AllocError>
    ensures { IfOk result (λ listed. listed.items ≡ map (λ e. e.0) cases.now.entries) }
{
    let mut listed = Vec::new(alloc);
    for (case, _) in cases {
        listed.push(*case)?;
    }
    Ok(listed)
}

impl NotedCases {
    /// No records. It takes no memory.
    pub fn new(alloc: Global) -> NotedCases
        ensures { result ≡ no_notes }
    {
        NotedCases {
            alloc,
            cases: IndexMap::new(alloc),
            promised: Vec::new(alloc),
        }
    }

    /// One record more of the log of this process, where it is of a case of the process's own; it must be
    /// one that a process of this kind writes.
    #[tactic(auto, using(crate::proofs::OwnLaws::own_by_parent))]
    pub fn take(
        &mut self,
        tree: &Tree,
        entry: &TreeProcess,
        record: &LogRecord,
    ) -> Result<(), AllocError>
        requires { IsRecordAt entry.now.kind record.now.entry }
        ensures { OnOk result (self.new
            ≡ fold noted self.old (own_by (place_at tree.now entry.now) record.now
            (record_case record.now.entry))) }
    {
        match record.entry.case() {
            Some(case) => {
                if !is_own(entry.id, entry.parent, tree, record.parent, &case) {
                    return Ok(());
                }
                note_of(self.alloc, &mut self.cases, case, &record.entry)?;
                note_promise(&mut self.promised, &record.entry)
            }
            None => Ok(()),
        }
    }

    /// What is noted of each case, in order of the first records.
    pub fn cases(&self) -> &IndexMap<Case, Noted>
        ensures { result.now.entries ≡ self.now.table }
    {
        &self.cases
    }

    /// What is noted of a case, if there is a record of it.
    pub fn of(&self, case: &Case) -> Option<&Noted>
        ensures { option_copied result ≡ lookup (same case.now) self.now.table }
    {
        self.cases.get(case)
    }

    /// The cases of a process of this kind with this parent in the order in which an audit lists them: a
    /// manager's by their last Prepared, a coordinator's by their first records. It goes through them once.
    pub fn listed(&self, kind: Kind, parent: Option<ProcessId>) -> Result<Vec<Case>, AllocError>
        ensures { IfOk result (λ listed. listed.items ≡ listed_in (role_by kind parent) self.now) }
    {
        match (kind, parent) {
            (Kind::Manager, Some(_)) => last_places(self.alloc, &self.promised),
            _ => cases_of(self.alloc, &self.cases),
        }
    }
}
